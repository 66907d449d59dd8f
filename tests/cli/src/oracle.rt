//! The expected results, made of a whole table in memory.
use crate::devices::{Device, NEVER, input};
use cli_args::{Command, Format, Request, Selection, parse_arguments};
use cli_read::open;
use cli_rows::{
    CliError, Table, encode_table, row_array, selected_batches, selection_error, table_text,
};
use ipc::Batch;
use ipc_schema::Projection;
use nest_array::AnyArray;
use std::alloc::{AllocError, Global};

/// Reads a table.
pub fn read_table(alloc: Global, columns: Projection<'_>, bytes: &[u8]) -> Result<Table, CliError> {
    let device = Device::new(bytes.to_vec(alloc)?, NEVER);
    let mut reader = open(alloc, columns, input(bytes, device))?;
    let mut batches = Vec::new(alloc);
    while let Some(batch) = reader.next_batch(alloc)? {
        batches.push(batch)?;
    }
    let schema = reader.schema().clone(alloc)?;
    Ok(Table { schema, batches })
}

/// Returns the words of a command line: the program, a command, a file, and the arguments after it.
pub fn words(alloc: Global, arguments: &[&str]) -> Result<Vec<String>, AllocError> {
    let mut all = Vec::new(alloc);
    for word in ["nest", arguments[0], "file"] {
        all.push(String::from_str(alloc, word)?)?;
    }
    for i in 1..arguments.len() {
        all.push(String::from_str(alloc, arguments[i])?)?;
    }
    Ok(all)
}

/// Parses a command and the arguments after its file. `take` alone selects no row.
pub fn request(alloc: Global, arguments: &[&str]) -> Result<Option<Request>, CliError> {
    if arguments.len() == 1 && arguments[0] == "take" {
        return Ok(Some(Request::Rows(Selection::Indices(Vec::new(alloc)))));
    }
    let all = words(alloc, arguments)?;
    let Ok(parsed) = parse_arguments(alloc, &all) else {
        return Ok(None);
    };
    match parsed.command {
        Command::Schema(_) => Ok(Some(Request::Columns)),
        Command::Select(_, selection, _) => Ok(Some(Request::Rows(selection))),
        _ => Ok(None),
    }
}

/// Returns the text that a request prints of a table.
pub fn text_of(
    alloc: Global,
    columns: Projection<'_>,
    request: &Request,
    bytes: &[u8],
) -> Result<String, CliError> {
    table_text(alloc, request, read_table(alloc, columns, bytes)?)
}

/// Returns all rows as lines.
pub fn lines_of(alloc: Global, bytes: &[u8]) -> Result<String, CliError> {
    text_of(
        alloc,
        Projection::All,
        &Request::Rows(Selection::All),
        bytes,
    )
}

/// Returns the text that a command prints of a table.
pub fn said(alloc: Global, arguments: &[&str], bytes: &[u8]) -> Result<String, CliError> {
    match request(alloc, arguments)? {
        None => Ok(String::from_str(alloc, "no request")?),
        Some(request) => text_of(alloc, Projection::All, &request, bytes),
    }
}

/// Returns the rows of each record batch as an array.
pub fn arrays_of(alloc: Global, table: Table) -> Result<Vec<AnyArray>, CliError> {
    let Table { schema, batches } = table;
    let mut arrays = Vec::new(alloc);
    for batch in batches {
        arrays.push(row_array(alloc, &schema, batch)?)?;
    }
    Ok(arrays)
}

/// Returns a table encoded in a format.
pub fn converted(alloc: Global, format: Format, bytes: &[u8]) -> Result<Vec<u8>, CliError> {
    let table = read_table(alloc, Projection::All, bytes)?;
    Ok(encode_table(alloc, format, &table)?)
}

/// Returns selected rows of a table, encoded in a format.
pub fn selected(
    alloc: Global,
    format: Format,
    selection: &Selection,
    bytes: &[u8],
) -> Result<Vec<u8>, CliError> {
    let table = read_table(alloc, Projection::All, bytes)?;
    let schema = table.schema.clone(alloc)?;
    if let Some(error) = selection_error(selection, &schema.fields) {
        return Err(error);
    }
    let arrays = arrays_of(alloc, table)?;
    let batches = selected_batches(alloc, &schema.fields, selection, &arrays)?;
    Ok(encode_table(alloc, format, &Table { schema, batches })?)
}

/// Returns tables of one schema as one, encoded in a format.
pub fn concatenated(
    alloc: Global,
    format: Format,
    inputs: &[Vec<u8>],
) -> Result<Vec<u8>, CliError> {
    let mut whole = read_table(alloc, Projection::All, &inputs[0])?;
    for k in 1..inputs.len() {
        let table = read_table(alloc, Projection::All, &inputs[k])?;
        let mut batches: Vec<Batch> = table.batches;
        whole.batches.append(&mut batches)?;
    }
    Ok(encode_table(alloc, format, &whole)?)
}
