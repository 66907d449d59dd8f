//! The formats of files that are no Arrow IPC files or streams, by their first bytes.
ghost use Rattle.std.specs.Prelude.{◌≡◌, []};
ghost use Rattle.cli_rows.specs.OtherFormats.{spec_is_text, is_text_byte, other_format_of, unmarked_format};

use thiserror::Error;

/// The format of bytes that are neither an Arrow IPC file nor a stream.
#[derive(Clone, Copy, Debug, PartialEq, Eq, Error)]
pub enum OtherFormat {
    /// There are no bytes.
    #[error("not an Arrow IPC file or stream: the file is empty")]
    Empty,
    /// The bytes begin as a Parquet file.
    #[error("not an Arrow IPC file or stream: it looks like Parquet")]
    Parquet,
    /// The bytes begin as a Feather file of version 1.
    #[error("not an Arrow IPC file or stream: it looks like Feather version 1")]
    Feather,
    /// The bytes are text.
    #[error("not an Arrow IPC file or stream: it looks like CSV or text")]
    Text,
    /// The bytes are something else.
    #[error("not an Arrow IPC file or stream")]
    Unknown,
}

/// Returns whether text, as UTF-8, can have a byte. Control characters other than a tab and line ends are no text.
fn is_text_byte(byte: u8) -> bool
    ensures { result ≡ is_text_byte byte }
{
    byte == 9 || byte == 10 || byte == 13 || (byte >= 32 && byte <= 244 && byte != 127)
}

/// Returns whether four bytes may begin text.
fn is_text(a: u8, b: u8, c: u8, d: u8) -> bool
    ensures { result ≡ spec_is_text a b c d }
{
    is_text_byte(a) && is_text_byte(b) && is_text_byte(c) && is_text_byte(d)
}

/// Returns the format of bytes that begin with no indicator and no magic.
fn unmarked_format(head: &[u8]) -> Option<OtherFormat>
    ensures { result ≡ unmarked_format head.now }
{
    match head {
        [] => Some(OtherFormat::Empty),
        [a, b, c, d, ..] => {
            if is_text(*a, *b, *c, *d) {
                Some(OtherFormat::Text)
            } else if *d == 0 {
                None
            } else {
                Some(OtherFormat::Unknown)
            }
        }
        _ => Some(OtherFormat::Unknown),
    }
}

/// Returns the format of a file that begins with these bytes, and not with the magic of an Arrow IPC file. `None` if they may begin a
/// stream: with the continuation indicator, or, as before version 0.15 of the format, with a length below 2^24.
pub fn other_format(head: &[u8]) -> Option<OtherFormat>
    ensures { result ≡ other_format_of head.now }
{
    if head.starts_with(&[255, 255, 255, 255]) {
        None
    } else if head.starts_with(b"PAR1") {
        Some(OtherFormat::Parquet)
    } else if head.starts_with(b"FEA1") {
        Some(OtherFormat::Feather)
    } else {
        unmarked_format(head)
    }
}
