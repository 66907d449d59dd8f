//! What the metadata of an input says, as lines.
ghost use Rattle.std.specs.Prelude.{◌≡◌, IfOk, codes, string_bytes};
ghost use Rattle.std.specs.Fmt.{WritesOnOk};
ghost use Rattle.ipc_io.specs.Infos.{file_info_in, info_tree, stream_info_in};
ghost use Rattle.ipc_io.specs.Seeks.{bytes_of};
ghost use Rattle.cli_read.specs.InfoText.{PrintsInfo, PrintsRead, batch_lines, number_line, shape_lines, spec_info_lines, text_line};

use crate::info::totals::{compression, delta_count, dictionary_count, row_count, version};
use ipc_io::{
    BatchInfo, InfoError, IpcInfo, ReadError, SeekRead, read_file_info, read_stream_info,
    record_batch_count,
};
use std::alloc::{AllocError, Global};
use std::fmt;
use std::fmt::{Display, Formatter};
use std::io::Read;

/// What the metadata of an input says, a line for each fact, by `Display`.
#[derive(Drop)]
struct InfoLines<'a> {
    format: &'a str,
    columns: usize,
    infos: &'a [BatchInfo],
}

impl Display for InfoLines<'_> {
    ghost use Rattle.std.specs.Prelude.{Some};
    ghost use Rattle.std.specs.Prelude.{◌++◌};
    ghost use Rattle.cli_read.specs.InfoText.{batch_lines, shape_lines};

    ghost output = { λ l. Some (shape_lines l.format.now l.columns l.infos.now ++ batch_lines l.infos.now) };

    fn fmt<W: fmt::Write>(&self, f: &mut Formatter<W>) -> fmt::Result {
        write_shape(f, self.format, self.columns, self.infos)?;
        write_batches(f, self.infos)
    }
}

fn write_line<W: fmt::Write>(f: &mut Formatter<W>, name: &str, value: &str) -> fmt::Result
    ensures { WritesOnOk W.write_str_gives f.old result (text_line name.now value.now) f.new }
{
    write!(f, "{name}: {value}\n")
}

fn write_number<W: fmt::Write>(f: &mut Formatter<W>, name: &str, number: u128) -> fmt::Result
    ensures { WritesOnOk W.write_str_gives f.old result (number_line name.now number) f.new }
{
    write!(f, "{name}: {number}\n")
}

// Writes the format, the version, the compression and the number of columns.
fn write_shape<W: fmt::Write>(
    f: &mut Formatter<W>,
    format: &str,
    columns: usize,
    infos: &[BatchInfo],
) -> fmt::Result
    ensures { WritesOnOk W.write_str_gives f.old result (shape_lines format.now columns infos.now) f.new }
{
    write_line(f, "format", format)?;
    write_line(f, "version", version(infos))?;
    write_line(f, "compression", compression(infos))?;
    write_number(f, "columns", columns as u128)
}

// Writes the numbers of batches and rows.
fn write_batches<W: fmt::Write>(f: &mut Formatter<W>, infos: &[BatchInfo]) -> fmt::Result
    ensures { WritesOnOk W.write_str_gives f.old result (batch_lines infos.now) f.new }
{
    write_number(f, "record batches", record_batch_count(infos) as u128)?;
    write_number(f, "rows", row_count(infos))?;
    write_number(f, "dictionary batches", dictionary_count(infos) as u128)?;
    write_number(f, "delta dictionaries", delta_count(infos) as u128)
}

fn info_lines(alloc: Global, format: &str, info: &IpcInfo) -> Result<String, AllocError>
    ensures { IfOk result (λ text. string_bytes text ≡ spec_info_lines format.now (info_tree info.now)) }
{
    let lines = InfoLines {
        format,
        columns: info.columns,
        infos: &info.batches,
    };
    format!(in alloc; "{lines}")
}

// Returns the lines of what was read.
fn lines_or_error(
    alloc: Global,
    format: &str,
    read: Result<IpcInfo, InfoError>,
) -> Result<String, InfoError>
    ensures { PrintsRead format.now read result }
{
    match read {
        Err(error) => Err(error),
        Ok(info) => match info_lines(alloc, format, &info) {
            Ok(lines) => Ok(lines),
            Err(error) => Err(InfoError {
                batch: None,
                error: ReadError::from(error),
            }),
        },
    }
}

/// Returns what the metadata of a stream says, as lines: format, metadata version, compression, and the numbers of columns, record batches,
/// rows, dictionary batches and delta dictionaries. The bodies of its messages are skipped.
///
/// # Errors
/// Those of [`read_stream_info`].
#[tactic(auto, using(crate::proofs::PrintedInfo::printed))]
pub fn stream_info_lines<R: Read>(alloc: Global, reader: &mut R) -> Result<String, InfoError>
    ensures { PrintsInfo (codes "stream") stream_info_in (R.remaining reader.old) result }
{
    let read = read_stream_info(alloc, reader);
    lines_or_error(alloc, "stream", read)
}

/// Returns what the footer of a file and the metadata of its messages say, as the same lines. The bodies of its messages are not read.
///
/// # Errors
/// Those of [`read_file_info`].
#[tactic(auto, using(crate::proofs::PrintedInfo::printed))]
pub fn file_info_lines<R: SeekRead>(alloc: Global, reader: &mut R) -> Result<String, InfoError>
    ensures { PrintsInfo (codes "file") file_info_in (bytes_of R.stream_position R.stream_bytes reader.old) result }
{
    let read = read_file_info(alloc, reader);
    lines_or_error(alloc, "file", read)
}
