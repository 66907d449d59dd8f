//! The command `listcut`: arguments and a reader in, a writer out.
ghost use Rattle.std.specs.Prelude.{◌≡◌, ◌↔◌, None, map, string_bytes, IfOk, OnOk, IfErr, IfSome, IsErrOf};
ghost use Rattle.std.specs.Io.KnownBytes.{IsAtEnd};
ghost use Rattle.listcut_rows.specs.Words.{IsRunResult, IsInputOrMemoryError, expected_result, parsed_selection};

use crate::error::ListcutError;
use crate::input::read_rows;
use crate::output::write_rows;
use crate::select::select;
use crate::selection::parse_selection;
use std::alloc::Global;
use std::io::{Read, Write};

/// Reads all remaining bytes of the reader.
fn read_input<R: Read>(alloc: Global, reader: &mut R) -> Result<Vec<u8>, ListcutError>
    ensures bytes { IfOk result (λ input. IfSome (R.remaining reader.old) (λ bytes. input.items ≡ bytes)) }
    ensures end { OnOk result (IsAtEnd (R.remaining reader.new)) }
    ensures error { IfErr result IsInputOrMemoryError }
{
    let mut input = Vec::new(alloc);
    let mut buffer = [0u8; 4096];
    'reads: for _turn in 0..u64::MAX {
        match reader.read(&mut buffer) {
            Ok(0) => return Ok(input),
            Ok(n) => input.extend_from_slice(&buffer[..n])?,
            Err(_) => return Err(ListcutError::Input),
        }
    }
    Err(ListcutError::Input)
}

/// Reads rows and writes those that the arguments select: `OFFSET LENGTH` the rows of a slice, `take` and any number of indices the
/// rows at the indices, in that order. A number is decimal, below 2^64 and without a leading zero.
///
/// # Errors
/// The first of these, in this order. Nothing was written, except after `Output`:
/// - `Arguments`: the arguments have neither form; the reader is not used.
/// - `Input`: a read fails. The complete input is read first.
/// - `Line(k)`: line `k`, from 1, is the first that is invalid or with which there are 2^31 items or more.
/// - `Range`: the slice or an index is out of bounds.
/// - `Size`: the rows at the indices have 2^31 items or more.
/// - `Output`: a write or the flush fails, or a write accepts no byte.
///
/// `Memory` may be returned in place of any error but `Arguments`.
pub fn run<R: Read, W: Write>(
    alloc: Global,
    arguments: &[String],
    reader: &mut R,
    writer: &mut W,
) -> Result<(), ListcutError>
    ensures exact { IfSome (R.remaining reader.old) (λ input. IsRunResult result (expected_result (map string_bytes arguments.now) input) (W.contents writer.old) (W.contents writer.new)) }
    ensures whole { OnOk result (IsAtEnd (R.remaining reader.new)) }
    ensures arguments { IsErrOf result ListcutError.Arguments ↔ (parsed_selection (map string_bytes arguments.now) ≡ None) }
    ensures unread { parsed_selection (map string_bytes arguments.now) ≡ None → R.remaining reader.new ≡ R.remaining reader.old }
{
    let selection = parse_selection(alloc, arguments)?;
    let input = read_input(alloc, reader)?;
    let rows = read_rows(alloc, &input)?;
    drop(input);
    let selected = select(alloc, rows, &selection)?;
    let written = write_rows(alloc, &selected, writer);
    drop(selected);
    written
}
