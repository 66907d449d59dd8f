//! The IPC format of an output.
ghost use Rattle.std.specs.Prelude.{◌≡◌};
ghost use Rattle.cli_args.specs.Formats.{spec_format_of};

/// An Arrow IPC format.
#[derive(Clone, Copy, Debug, PartialEq, Eq)]
pub enum Format {
    /// The file format (random access).
    File,
    /// The streaming format.
    Stream,
}

/// Returns the format of an output by its name: `Stream` if the name ends in `.arrows`, else `File`.
pub fn format_of(name: &str) -> Format
    ensures { result ≡ spec_format_of name.now }
{
    let end = b".arrows";
    if name.as_bytes().ends_with(end) {
        Format::Stream
    } else {
        Format::File
    }
}
