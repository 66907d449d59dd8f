//! The commands that write one input: `convert`, and `slice`, `take` and `where` with an output.
ghost use Rattle.cli_args.specs.RequestTrees.{selection_tree};
ghost use Rattle.cli_rows.specs.RowOrder.{IsInRowOrder};

use crate::input::{Source, open_input};
use crate::messages::{InputError, report, report_written};
use crate::output::{Output, ProgressLine, StandardOutput, open_output, settle};
use crate::take::write_taken;
use cli_args::{Selection, format_of};
use cli_read::Input;
use cli_rows::{BatchError, in_row_order};
use ipc_schema::Projection;
use std::io;
use std::io::{IsTerminal, Write};
use std::process::ExitCode;

/// Copies an input to an output.
fn copy_input<W: Write + Drop>(
    rt: &HostRuntime,
    columns: Projection<'_>,
    selection: Selection,
    input: Input<Source>,
    out: Output<'_, W>,
) -> Result<(), BatchError>
    requires { IsInRowOrder (selection_tree selection) }
{
    let format = format_of(out.name);
    let mut line = ProgressLine::new(rt, out.is_terminal);
    let alloc = rt.alloc();
    let copied = cli_write::copy(
        alloc, columns, format, selection, input, out.writer, &mut line,
    );
    line.clear();
    match copied {
        Ok(writer) => {
            drop(writer);
            Ok(())
        }
        Err(error) => Err(error),
    }
}

/// Reports the result of a copy.
fn report_copy(
    rt: &HostRuntime,
    columns: Projection<'_>,
    file: &str,
    out: &str,
    copied: Result<(), BatchError>,
) -> ExitCode {
    match copied {
        Ok(()) => ExitCode::SUCCESS,
        Err(error) => report_written(rt, columns, file, out, InputError::Batch(error)),
    }
}

/// Copies an input to a file.
fn copy_to_file(
    rt: &HostRuntime,
    columns: Projection<'_>,
    from: (&str, Input<Source>),
    selection: Selection,
    out: &str,
) -> ExitCode
    requires { IsInRowOrder (selection_tree selection) }
{
    let (file, input) = from;
    match open_output(rt, out) {
        Err(error) => {
            drop(input);
            drop(selection);
            report(rt, out, &error)
        }
        Ok((writer, place)) => {
            let output = Output {
                name: out,
                writer,
                is_terminal: rt.stderr().is_terminal(),
            };
            let copied = copy_input(rt, columns, selection, input, output);
            match settle(rt, out, place, copied.is_ok()) {
                Ok(()) => report_copy(rt, columns, file, out, copied),
                Err(code) => code,
            }
        }
    }
}

/// Writes rows of a file in row order.
pub fn copy_file(
    rt: &HostRuntime,
    columns: Projection<'_>,
    file: &str,
    selection: Selection,
    out: &str,
) -> ExitCode
    requires { IsInRowOrder (selection_tree selection) }
{
    match open_input(rt, file) {
        Err(error) => {
            drop(selection);
            report(rt, file, &error)
        }
        Ok(input) => {
            if out != "-" {
                return copy_to_file(rt, columns, (file, input), selection, out);
            }
            let mut writer = StandardOutput::new(io::writer(rt));
            let output = Output {
                name: out,
                writer: &mut writer,
                is_terminal: false,
            };
            let copied = copy_input(rt, columns, selection, input, output);
            if writer.is_closed() {
                return ExitCode::SUCCESS;
            }
            report_copy(rt, columns, file, out, copied)
        }
    }
}

/// Writes the selected rows of a file.
pub fn copy_selection(
    rt: &HostRuntime,
    columns: Projection<'_>,
    file: &str,
    selection: Selection,
    out: &str,
) -> ExitCode {
    match in_row_order(selection) {
        Ok(selection) => copy_file(rt, columns, file, selection, out),
        Err(indices) => write_taken(rt, columns, file, &indices, out),
    }
}
