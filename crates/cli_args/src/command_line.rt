//! The command line of `nest`, as clap parses it.
ghost use Rattle.std.specs.Prelude.{IfOk, codes};
ghost use Rattle.cli_args.specs.CommandLine.{IsArg, IsCommand, columns_file_rule, columns_rule, command_app, comparing_app, concat_app, convert_app, copying_app, count_app, count_rule, counting_app, equal_app, file_app, files_rule, from_json_app, head_app, indices_rule, info_app, nest_app, optional_count_rule, out_rule, printing_app, required_integer_rule, required_rule, rows_app, slice_app, slicing_app, start_rule, tail_app, take_app, top_app, where_app, with_alias};

use clap::{Arg, Command, value_parser};
use std::alloc::{AllocError, Global};

const VERSION: &str = "0.1.0";

const ABOUT: &str = "Prints, compares, selects and converts Arrow files and streams";

const NOTES: &str = "\
FILE is an Arrow file or stream, and - is standard input. Rows are counted from 0.
OUT is a stream if its name ends in .arrows, else a file; - is standard output. If OUT exists, output goes to OUT.part and
replaces OUT when complete, so OUT may be the input.
Most commands read the columns alone that --columns a,b names.
Exit status: 0; 1 if `equal` finds a difference; 2 after an error.";

fn required<'a>(alloc: Global, id: &'a str, help: &'a str) -> Arg<'a>
    ensures { IsArg (required_rule id.entry.now) result }
{
    Arg::new(alloc, id).required(true).help(help)
}

fn required_integer<'a>(alloc: Global, id: &'a str, help: &'a str) -> Arg<'a>
    ensures { IsArg (required_integer_rule id.entry.now) result }
{
    required(alloc, id, help).value_parser(value_parser!(usize))
}

fn file<'a>(alloc: Global) -> Arg<'a>
    ensures { IsArg (required_rule (codes "FILE")) result }
{
    required(alloc, "FILE", "The file; - is standard input")
}

fn files<'a>(alloc: Global) -> Arg<'a>
    ensures { IsArg files_rule result }
{
    required(alloc, "FILE", "The files, in order; - is standard input").num_args(1..)
}

fn indices<'a>(alloc: Global) -> Arg<'a>
    ensures { IsArg indices_rule result }
{
    required_integer(alloc, "INDEX", "The index of each row, from 0").num_args(1..)
}

fn optional_count<'a>(alloc: Global) -> Arg<'a>
    ensures { IsArg optional_count_rule result }
{
    Arg::new(alloc, "COUNT")
        .value_parser(value_parser!(usize))
        .default_value("10")
        .help("The number of rows")
}

fn columns<'a>(alloc: Global) -> Arg<'a>
    ensures { IsArg columns_rule result }
{
    Arg::new(alloc, "NAMES").long("columns").help(
        "Read these columns alone: names, quoted or not, separated by commas",
    )
}

fn columns_file<'a>(alloc: Global) -> Arg<'a>
    ensures { IsArg columns_file_rule result }
{
    Arg::new(alloc, "LIST").long("columns-file").help(
        "Read the columns alone that this file names, a name a line",
    )
}

fn out<'a>(alloc: Global) -> Arg<'a>
    ensures { IsArg out_rule result }
{
    Arg::new(alloc, "OUT")
        .short('o')
        .long("output")
        .help("Write an Arrow file or stream; - is standard output")
}

fn start<'a>(alloc: Global) -> Arg<'a>
    ensures { IsArg start_rule result }
{
    Arg::new(alloc, "START")
        .long("start")
        .value_parser(value_parser!(usize))
        .help("The index of the first row, from 0")
}

fn count<'a>(alloc: Global) -> Arg<'a>
    ensures { IsArg count_rule result }
{
    Arg::new(alloc, "COUNT")
        .long("count")
        .value_parser(value_parser!(usize))
        .help("The number of rows at most")
}

/// A command that reads Arrow files.
fn command<'a>(
    alloc: Global,
    name: &'a str,
    about: &'a str,
    example: &'a str,
) -> Result<Command<'a>, AllocError>
    ensures { IfOk result (IsCommand (command_app name.entry.now)) }
{
    let command = Command::new(alloc, name).about(about).after_help(example);
    let listed = command.arg(columns(alloc))?;
    listed.arg(columns_file(alloc))
}

/// A command that reads one Arrow file.
fn file_command<'a>(
    alloc: Global,
    name: &'a str,
    about: &'a str,
    example: &'a str,
) -> Result<Command<'a>, AllocError>
    ensures { IfOk result (IsCommand (file_app name.entry.now)) }
{
    let command = command(alloc, name, about, example)?;
    command.arg(file(alloc))
}

/// A command of two names that reads one Arrow file.
fn aliased_command<'a>(
    alloc: Global,
    name: &'a str,
    alias: &'a str,
    about: &'a str,
    example: &'a str,
) -> Result<Command<'a>, AllocError>
    ensures { IfOk result (IsCommand (with_alias alias.entry.now (file_app name.entry.now))) }
{
    let command = file_command(alloc, name, about, example)?;
    command.visible_alias(alias)
}

fn schema<'a>(alloc: Global) -> Result<Command<'a>, AllocError>
    ensures { IfOk result (IsCommand (file_app (codes "schema"))) }
{
    let about = "Print a line for each column: its name and its data type";
    file_command(alloc, "schema", about, "Example: nest schema table.arrow")
}

fn rows<'a>(alloc: Global) -> Result<Command<'a>, AllocError>
    ensures { IfOk result (IsCommand rows_app) }
{
    let about = "Print rows as JSON, a line each";
    let example = "Example: nest rows --columns id,name --start 100 --count 5 table.arrow";
    let command = file_command(alloc, "rows", about, example)?;
    let started = command.arg(start(alloc))?;
    started.arg(count(alloc))
}

fn head<'a>(alloc: Global) -> Result<Command<'a>, AllocError>
    ensures { IfOk result (IsCommand head_app) }
{
    let about = "Print the first rows";
    let command = file_command(alloc, "head", about, "Example: nest head table.arrow 5")?;
    command.arg(optional_count(alloc))
}

fn tail<'a>(alloc: Global) -> Result<Command<'a>, AllocError>
    ensures { IfOk result (IsCommand tail_app) }
{
    let about = "Print the last rows";
    let command = file_command(alloc, "tail", about, "Example: nest tail table.arrow 5")?;
    command.arg(optional_count(alloc))
}

fn row_count<'a>(alloc: Global) -> Result<Command<'a>, AllocError>
    ensures { IfOk result (IsCommand count_app) }
{
    let about = "Print the number of rows";
    file_command(alloc, "count", about, "Example: nest count table.arrow")
}

fn info<'a>(alloc: Global) -> Result<Command<'a>, AllocError>
    ensures { IfOk result (IsCommand info_app) }
{
    let command = Command::new(alloc, "info")
        .about("Print format, version, compression, and numbers of columns, batches and rows")
        .after_help("Example: nest info table.arrow");
    command.arg(file(alloc))
}

fn slice<'a>(alloc: Global) -> Result<Command<'a>, AllocError>
    ensures { IfOk result (IsCommand slice_app) }
{
    let about = "Select COUNT rows from index START on";
    let example = "Example: nest slice table.arrow 100 5 -o part.arrow";
    let command = aliased_command(alloc, "slice", "cut", about, example)?;
    let started = command.arg(required_integer(
        alloc,
        "START",
        "The index of the first row, from 0",
    ))?;
    let counted = started.arg(required_integer(alloc, "COUNT", "The number of rows at most"))?;
    counted.arg(out(alloc))
}

fn take<'a>(alloc: Global) -> Result<Command<'a>, AllocError>
    ensures { IfOk result (IsCommand take_app) }
{
    let about = "Select the row at each index, in the order of the indices";
    let command = file_command(alloc, "take", about, "Example: nest take table.arrow 7 0 7")?;
    let indexed = command.arg(indices(alloc))?;
    indexed.arg(out(alloc))
}

fn rows_where<'a>(alloc: Global) -> Result<Command<'a>, AllocError>
    ensures { IfOk result (IsCommand where_app) }
{
    let about = "Select the rows where a condition is true";
    let example = "Example: nest where sales.arrow \"price > 9.5 and region = 'north'\"";
    let command = file_command(alloc, "where", about, example)?;
    let help = "Columns, comparisons with literals, `is null`, `and`, `or`, `not` and parentheses";
    let filtered = command.arg(required(alloc, "EXPRESSION", help))?;
    filtered.arg(out(alloc))
}

fn equal<'a>(alloc: Global) -> Result<Command<'a>, AllocError>
    ensures { IfOk result (IsCommand equal_app) }
{
    let about = "Compare schemas and rows; print the first difference, `schema` or `row INDEX`";
    let example = "Example: nest equal old.arrow new.arrow";
    let command = file_command(alloc, "equal", about, example)?;
    command.arg(required(alloc, "OTHER", "The file to compare with"))
}

fn concat<'a>(alloc: Global) -> Result<Command<'a>, AllocError>
    ensures { IfOk result (IsCommand concat_app) }
{
    let about = "Concatenate files of equal schemas";
    let example = "Example: nest concat january.arrow february.arrow -o both.arrow";
    let command = command(alloc, "concat", about, example)?;
    let filed = command.arg(files(alloc))?;
    filed.arg(out(alloc).required(true))
}

fn convert<'a>(alloc: Global) -> Result<Command<'a>, AllocError>
    ensures { IfOk result (IsCommand convert_app) }
{
    let about = "Write a file as a stream, or a stream as a file";
    let example = "Example: nest convert table.arrow table.arrows";
    let command = file_command(alloc, "convert", about, example)?;
    command.arg(required(alloc, "OUT", "The output; - is standard output"))
}

fn from_json<'a>(alloc: Global) -> Result<Command<'a>, AllocError>
    ensures { IfOk result (IsCommand from_json_app) }
{
    let command = Command::new(alloc, "from-json")
        .about("Write lines of JSON as Arrow rows")
        .after_help(
            "Example: nest from-json 'struct<id: int64, tags: list<item: string>>' rows.json table.arrow",
        );
    let typed = command.arg(required(alloc, "TYPE", "The data type of a row, a struct type"))?;
    let lined = typed.arg(required(alloc, "LINES", "The lines of JSON; - is standard input"))?;
    lined.arg(required(alloc, "OUT", "The output; - is standard output"))
}

fn with_printing<'a>(alloc: Global, top: Command<'a>) -> Result<Command<'a>, AllocError>
    requires { IsCommand top_app top }
    ensures { IfOk result (IsCommand printing_app) }
{
    let first = top.subcommand(schema(alloc)?)?;
    let second = first.subcommand(rows(alloc)?)?;
    second.subcommand(head(alloc)?)
}

fn with_tail<'a>(alloc: Global, printing: Command<'a>) -> Result<Command<'a>, AllocError>
    requires { IsCommand printing_app printing }
    ensures { IfOk result (IsCommand counting_app) }
{
    let first = printing.subcommand(tail(alloc)?)?;
    let second = first.subcommand(row_count(alloc)?)?;
    second.subcommand(info(alloc)?)
}

fn with_slices<'a>(alloc: Global, counting: Command<'a>) -> Result<Command<'a>, AllocError>
    requires { IsCommand counting_app counting }
    ensures { IfOk result (IsCommand slicing_app) }
{
    let first = counting.subcommand(slice(alloc)?)?;
    first.subcommand(take(alloc)?)
}

fn with_comparison<'a>(alloc: Global, slicing: Command<'a>) -> Result<Command<'a>, AllocError>
    requires { IsCommand slicing_app slicing }
    ensures { IfOk result (IsCommand comparing_app) }
{
    let first = slicing.subcommand(rows_where(alloc)?)?;
    first.subcommand(equal(alloc)?)
}

fn with_copies<'a>(alloc: Global, comparing: Command<'a>) -> Result<Command<'a>, AllocError>
    requires { IsCommand comparing_app comparing }
    ensures { IfOk result (IsCommand copying_app) }
{
    let first = comparing.subcommand(concat(alloc)?)?;
    first.subcommand(convert(alloc)?)
}

fn with_import<'a>(alloc: Global, copying: Command<'a>) -> Result<Command<'a>, AllocError>
    requires { IsCommand copying_app copying }
    ensures { IfOk result (IsCommand nest_app) }
{
    copying.subcommand(from_json(alloc)?)
}

/// The command line of `nest`.
pub(crate) fn nest<'a>(alloc: Global) -> Result<Command<'a>, AllocError>
    ensures { IfOk result (IsCommand nest_app) }
{
    let top = Command::new(alloc, "nest")
        .version(VERSION)
        .about(ABOUT)
        .after_help(NOTES)
        .subcommand_required(true)
        .arg_required_else_help(true);
    let printing = with_printing(alloc, top)?;
    let counting = with_tail(alloc, printing)?;
    let slicing = with_slices(alloc, counting)?;
    let comparing = with_comparison(alloc, slicing)?;
    let copying = with_copies(alloc, comparing)?;
    with_import(alloc, copying)
}

/// Returns the command of a name, with the usage that its errors show.
pub(crate) fn subcommand<'a>(alloc: Global, name: &str) -> Result<Command<'a>, AllocError> {
    let command = if name == "schema" {
        schema(alloc)?
    } else if name == "rows" {
        rows(alloc)?
    } else if name == "head" {
        head(alloc)?
    } else if name == "tail" {
        tail(alloc)?
    } else if name == "count" {
        row_count(alloc)?
    } else if name == "info" {
        info(alloc)?
    } else if name == "slice" {
        slice(alloc)?
    } else if name == "take" {
        take(alloc)?
    } else if name == "where" {
        rows_where(alloc)?
    } else if name == "equal" {
        equal(alloc)?
    } else if name == "concat" {
        concat(alloc)?
    } else if name == "convert" {
        convert(alloc)?
    } else if name == "from-json" {
        from_json(alloc)?
    } else {
        return nest(alloc);
    };
    let usage_name = format!(in alloc; "nest {name}")?;
    command.bin_name(&usage_name)
}
