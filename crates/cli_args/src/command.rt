//! The commands of `nest`.
use crate::request::Selection;

/// A request to write lines of JSON as an Arrow file or stream.
#[derive(Clone, Copy)]
pub struct ImportRequest<'a> {
    /// The data type of a row, as text.
    pub row_type: &'a str,
    /// The name of the input.
    pub input: &'a str,
    /// The name of the output.
    pub output: &'a str,
}

/// A command, and the names of the files that it reads and writes.
#[derive(Drop)]
pub enum Command<'a> {
    /// `schema`: print the schema of a file.
    Schema(&'a str),
    /// `rows`, `head`, `slice`, `take` and `where`: select rows of a file, and write them to an output or print them.
    Select(&'a str, Selection, Option<&'a str>),
    /// `tail`: print so many last rows of a file at most.
    Tail(&'a str, usize),
    /// `count`: print the number of rows of a file.
    Count(&'a str),
    /// `info`: print what the metadata of a file says.
    Info(&'a str),
    /// `equal`: compare two files.
    Equal(&'a str, &'a str),
    /// `concat`: write all files to an output.
    Concat(Vec<&'a str>, &'a str),
    /// `convert`: write a file to an output.
    Convert(&'a str, &'a str),
    /// `from-json`: write lines of JSON to an output.
    FromJson(ImportRequest<'a>),
}
