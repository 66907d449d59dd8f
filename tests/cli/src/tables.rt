//! Tables as text, and their errors.
use crate::oracle::{arrays_of, read_table, request, text_of};
use crate::samples::{BOOLEANS, COLUMNLESS, COMPRESSED, EMPTY, FILE, STREAM, bytes_of};
use cli_args::{Request, Selection};
use cli_rows::{
    CliError, ColumnError, Difference, Table, array_lines, batch_records, difference_text, read_input,
    request_text, row_type, table_text, window_difference, write_output,
};
use ipc::Batch;
use ipc_flatbuf::{CompressionError, IpcReadError, IpcWriteError};
use ipc_schema::{Projection, Schema};
use nest_array::{AnyArray, Window};
use nest_flat::any_primitive::NativeArray;
use nest_flat::boolean::BooleanArray;
use nest_flat::primitive::PrimitiveArray;
use nest_flat::utf8::mutable::MutableUtf8Array;
use nest_memory::datatypes::{DataType, Field, Metadata};
use nest_memory::error::Error;
use std::alloc::Global;
use std::test::*;

fn integers(alloc: Global, items: &[i64]) -> Result<AnyArray, Error> {
    PrimitiveArray::<i64>::from_slice(alloc, items).map(|array| AnyArray::Primitive(i64::wrap(
        array,
    )))
}

fn strings(alloc: Global, items: &[Option<&str>]) -> Result<AnyArray, Error> {
    let mut builder = MutableUtf8Array::<i32>::new(alloc)?;
    for item in items {
        builder.try_push(*item)?;
    }
    builder.freeze().map(|strings| AnyArray::Utf8(strings))
}

/// Returns a record batch of a column of integers and one of strings.
fn batch(alloc: Global, ids: &[i64], names: &[Option<&str>]) -> Result<Batch, Error> {
    let mut columns = Vec::new(alloc);
    columns.push(integers(alloc, ids)?)?;
    columns.push(strings(alloc, names)?)?;
    Ok(Batch {
        rows: ids.len(),
        columns,
    })
}

fn schema(alloc: Global) -> Result<Schema, Error> {
    let mut fields = Vec::new(alloc);
    fields.push(Field::new(alloc, "id", DataType::Int64, false)?)?;
    fields.push(Field::new(alloc, "name", DataType::Utf8, true)?)?;
    Ok(Schema {
        fields,
        metadata: Metadata::new(alloc),
    })
}

/// Returns record batches of two rows, none, and one.
fn table(alloc: Global) -> Result<Table, Error> {
    let mut batches = Vec::new(alloc);
    batches.push(batch(alloc, &[1, 2], &[Some("a"), None])?)?;
    batches.push(batch(alloc, &[], &[])?)?;
    batches.push(batch(alloc, &[-3], &[Some("\"c\"")])?)?;
    let schema = schema(alloc)?;
    Ok(Table { schema, batches })
}

/// Returns a table of one record batch.
fn single(alloc: Global, batch: Batch) -> Result<Table, Error> {
    let mut batches = Vec::new(alloc);
    batches.push(batch)?;
    let schema = schema(alloc)?;
    Ok(Table { schema, batches })
}

/// Returns the text that a command prints of a table.
fn printed(alloc: Global, arguments: &[&str], table: Table) -> Result<String, CliError> {
    match request(alloc, arguments)? {
        Some(request) => table_text(alloc, &request, table),
        None => {
            drop(table);
            Err(CliError::Input)
        }
    }
}

const ROWS: [&str; 3] = [
    "{\"id\":1,\"name\":\"a\"}\n",
    "{\"id\":2,\"name\":null}\n",
    "{\"id\":-3,\"name\":\"\\\"c\\\"\"}\n",
];

/// Returns whether a text is the rows at indices.
fn are_rows(text: &str, indices: &[usize]) -> bool {
    let mut rest = text.as_bytes();
    for index in indices {
        let row = ROWS[*index].as_bytes();
        if !rest.starts_with(row) {
            return false;
        }
        rest = &rest[row.len()..];
    }
    rest.is_empty()
}

#[test]
fn records_of_a_batch_are_printed(rt: HostRuntime) {
    let alloc = rt.alloc();
    let schema = schema(alloc).expect(&rt, "a schema");
    let mut arrays = Vec::new(alloc);
    let none = array_lines(alloc, &arrays).expect(&rt, "no lines");
    assert!(rt; none.as_str() == "");
    let all = table(alloc).expect(&rt, "a table");
    for batch in all.batches {
        let records = batch_records(alloc, &schema, batch).expect(&rt, "records");
        arrays.push(records).expect(&rt, "room");
    }
    let lines = array_lines(alloc, &arrays).expect(&rt, "lines");
    assert!(rt; are_rows(lines.as_str(), &[0, 1, 2]));
    let mut other = batch(alloc, &[1], &[None]).expect(&rt, "a batch");
    drop(other.columns.pop());
    let records = batch_records(alloc, &schema, other);
    assert!(rt; matches!(records, Err(CliError::MismatchedColumns)));
    let none = Batch {
        rows: 1,
        columns: Vec::new(alloc),
    };
    let columnless = Schema {
        fields: Vec::new(alloc),
        metadata: Metadata::new(alloc),
    };
    let records = batch_records(alloc, &columnless, none);
    assert!(rt; matches!(records, Err(CliError::MismatchedColumns)));
}

#[test]
fn schemas_are_printed(rt: HostRuntime) {
    let table = table(rt.alloc()).expect(&rt, "a table");
    let text = printed(rt.alloc(), &["schema"], table)
        .ok()
        .expect(&rt, "a text");
    assert!(rt;
        text.as_str() == "id: int64 not null\nname: string\n",
        "{text}"
    );
    let none = Table {
        schema: Schema {
            fields: Vec::new(rt.alloc()),
            metadata: Metadata::new(rt.alloc()),
        },
        batches: Vec::new(rt.alloc()),
    };
    let text = printed(rt.alloc(), &["schema"], none)
        .ok()
        .expect(&rt, "a text");
    assert!(rt; text.as_str() == "", "{text}");
}

#[test]
fn rows_are_printed(rt: HostRuntime) {
    for (arguments, indices) in [
        (["rows"].as_slice(), [0usize, 1, 2].as_slice()),
        (["slice", "0", "1"].as_slice(), [0usize].as_slice()),
        (["slice", "1", "2"].as_slice(), [1usize, 2].as_slice()),
        (["cut", "1", "2"].as_slice(), [1usize, 2].as_slice()),
        (
            ["slice", "1", "18446744073709551615"].as_slice(),
            [1usize, 2].as_slice(),
        ),
        (["slice", "2", "9"].as_slice(), [2usize].as_slice()),
        (["slice", "3", "1"].as_slice(), [].as_slice()),
        (
            ["slice", "18446744073709551615", "1"].as_slice(),
            [].as_slice(),
        ),
        (["slice", "0", "0"].as_slice(), [].as_slice()),
        (
            ["take", "2", "0", "2", "1"].as_slice(),
            [2usize, 0, 2, 1].as_slice(),
        ),
        (["take"].as_slice(), [].as_slice()),
        (["where", "id >= 2"].as_slice(), [1usize].as_slice()),
        (["where", "id < 1.5"].as_slice(), [0usize, 2].as_slice()),
        (["where", "id > -3.5 and not id = 2.0"].as_slice(), [0usize, 2].as_slice()),
        (["where", "name = 'a' or name is null"].as_slice(), [0usize, 1].as_slice()),
        (["where", "name <> 'a'"].as_slice(), [2usize].as_slice()),
        (["where", "not (name = 'b')"].as_slice(), [0usize, 2].as_slice()),
        (["where", "name is not null and id <= 0"].as_slice(), [2usize].as_slice()),
        (["where", "id = 4"].as_slice(), [].as_slice()),
    ] {
        let table = table(rt.alloc()).expect(&rt, "a table");
        let text = printed(rt.alloc(), arguments, table)
            .ok()
            .expect(&rt, "a text");
        assert!(rt; are_rows(&text, indices), "{text}");
    }
}

#[test]
fn column_names_are_checked(rt: HostRuntime) {
    for (name, want) in [
        ("id", ColumnError::NotBoolean(0)),
        ("not name", ColumnError::NotBoolean(4)),
        ("i", ColumnError::UnknownColumn(0)),
        ("\"\"", ColumnError::UnknownColumn(0)),
        ("i is null", ColumnError::UnknownColumn(0)),
        ("id = 1 and (name = 'a' or i < 2)", ColumnError::UnknownColumn(26)),
        ("id = '1'", ColumnError::OtherLiteral(0)),
        ("name < 1", ColumnError::OtherLiteral(0)),
        ("id = true or name", ColumnError::OtherLiteral(0)),
    ] {
        let table = table(rt.alloc()).expect(&rt, "a table");
        let error = printed(rt.alloc(), &["where", name], table).err();
        assert!(rt; error == Some(CliError::Condition(want)), "{name}");
    }
}

#[test]
fn indices_are_checked(rt: HostRuntime) {
    for index in ["3", "4", "18446744073709551615"] {
        let table = table(rt.alloc()).expect(&rt, "a table");
        let error = printed(rt.alloc(), &["take", "0", index], table).err();
        assert!(rt; error == Some(CliError::IndexOutOfRange), "{index}");
    }
}

/// Few rows, and so many that column names are encoded once.
#[test]
fn many_rows_are_printed(rt: HostRuntime) {
    let alloc = rt.alloc();
    let ids = [1, 2, -3, 1, 2, -3, 1, 2, -3, 1, 2, -3];
    let (a, c) = (Some("a"), Some("\"c\""));
    let names = [a, None, c, a, None, c, a, None, c, a, None, c];
    let indices = [0usize, 1, 2, 0, 1, 2, 0, 1, 2, 0, 1, 2];
    for (arguments, first, count) in [
        (["rows"].as_slice(), 0usize, 12usize),
        (["slice", "2", "7"].as_slice(), 2, 7),
        (["slice", "2", "8"].as_slice(), 2, 8),
        (["cut", "3", "9"].as_slice(), 3, 9),
    ] {
        let batch = batch(alloc, &ids, &names).expect(&rt, "a batch");
        let table = single(alloc, batch).expect(&rt, "a table");
        let text = printed(alloc, arguments, table).ok().expect(&rt, "a text");
        assert!(rt; are_rows(&text, &indices[first..first + count]), "{text}");
    }
}

#[test]
fn mismatched_columns_are_errors(rt: HostRuntime) {
    let alloc = rt.alloc();
    let columns = Vec::new(alloc);
    let none = single(alloc, Batch { rows: 1, columns }).expect(&rt, "a table");
    assert!(rt; printed(alloc, &["rows"], none).err() == Some(CliError::MismatchedColumns));
    let lengths = batch(alloc, &[1, 2], &[None]).expect(&rt, "a batch");
    let lengths = single(alloc, lengths).expect(&rt, "a table");
    assert!(rt; printed(alloc, &["rows"], lengths).err() == Some(CliError::MismatchedColumns));
    let mut types = batch(alloc, &[1], &[None]).expect(&rt, "a batch");
    types.columns.swap(0, 1);
    let types = single(alloc, types).expect(&rt, "a table");
    assert!(rt; printed(alloc, &["take"], types).err() == Some(CliError::MismatchedColumns));
}

/// Returns the text that a command prints of the record batches of a table.
fn requested(alloc: Global, arguments: &[&str], table: Table) -> Result<String, CliError> {
    let Table { schema, batches } = table;
    match request(alloc, arguments)? {
        Some(request) => request_text(alloc, &schema, &request, batches),
        None => {
            drop(batches);
            Err(CliError::Input)
        }
    }
}

#[test]
fn requests_of_record_batches_are_printed(rt: HostRuntime) -> Result<(), Fail> {
    let alloc = rt.alloc();
    for (arguments, want) in [
        (["schema"].as_slice(), "id: int64 not null\nname: string\n"),
        (
            ["rows"].as_slice(),
            "{\"id\":1,\"name\":\"a\"}\n{\"id\":2,\"name\":null}\n{\"id\":-3,\"name\":\"\\\"c\\\"\"}\n",
        ),
        (
            ["slice", "1", "2"].as_slice(),
            "{\"id\":2,\"name\":null}\n{\"id\":-3,\"name\":\"\\\"c\\\"\"}\n",
        ),
        (
            ["take", "1", "0"].as_slice(),
            "{\"id\":2,\"name\":null}\n{\"id\":1,\"name\":\"a\"}\n",
        ),
    ] {
        let text = requested(alloc, arguments, table(alloc).expect(&rt, "a table"))?;
        assert!(rt; text.as_str() == want, "{arguments:?}: {text}");
    }
    let booleans = bytes_of(alloc, BOOLEANS)?;
    let table_of_booleans = read_table(alloc, Projection::All, &booleans)?;
    let text = requested(alloc, &["where", "a"], table_of_booleans)?;
    let want = "{\"a\":true,\"b\":false}\n{\"a\":true,\"b\":true}\n{\"a\":true,\"b\":false}\n\
                {\"a\":true,\"b\":true}\n{\"a\":true,\"b\":true}\n";
    assert!(rt; text.as_str() == want, "{text}");
    // The arguments are checked before the columns of the record batches, and those before the indices.
    for (arguments, rows, want) in [
        (
            ["where", "x"].as_slice(),
            3usize,
            CliError::Condition(ColumnError::UnknownColumn(0)),
        ),
        (
            ["where", "id"].as_slice(),
            3,
            CliError::Condition(ColumnError::NotBoolean(0)),
        ),
        (["take", "9"].as_slice(), 3, CliError::MismatchedColumns),
        (["take", "2"].as_slice(), 2, CliError::IndexOutOfRange),
    ] {
        let names: [Option<&str>; 3] = [None, None, None];
        let batch = batch(alloc, &[1, 2], &names[..rows]).expect(&rt, "a batch");
        let error = requested(
            alloc,
            arguments,
            single(alloc, batch).expect(&rt, "a table"),
        )
        .err();
        assert!(rt; error == Some(want), "{arguments:?}: {error:?}");
    }
    Ok(())
}

#[test]
fn batches_are_records(rt: HostRuntime) -> Result<(), Fail> {
    let alloc = rt.alloc();
    let table = table(alloc).expect(&rt, "a table");
    let data_type = row_type(alloc, &table.schema.fields)?;
    let arrays = arrays_of(alloc, table)?;
    assert!(rt; arrays.len() == 3 && arrays[0].data_type() == &data_type);
    assert!(rt; arrays[0].len() == 2 && arrays[1].len() == 0 && arrays[2].len() == 1);
    Ok(())
}

#[test]
fn windows_are_compared(rt: HostRuntime) -> Result<(), Fail> {
    let alloc = rt.alloc();
    let array = BooleanArray::from_slice(alloc, &[true, false, false]).expect(&rt, "an array");
    let array = AnyArray::Boolean(array);
    for (left, right, count, want) in [
        (0usize, 1usize, 1usize, Some(0usize)),
        (1, 2, 1, None),
        (0, 0, 3, None),
        (1, 0, 2, Some(0)),
    ] {
        let found = window_difference(
            &Window::new(&array, left, count),
            &Window::new(&array, right, count),
        );
        assert!(rt; found == want, "{left} {right}: {found:?}");
    }
    Ok(())
}

#[test]
fn differences_are_printed(rt: HostRuntime) -> Result<(), Fail> {
    for (difference, want) in [
        (Difference::Schema, "schema\n"),
        (Difference::Row(0), "row 0\n"),
        (
            Difference::Row(18446744073709551615),
            "row 18446744073709551615\n",
        ),
    ] {
        let line = difference_text(rt.alloc(), difference)?;
        assert!(rt; line.as_str() == want, "{line}");
    }
    Ok(())
}

#[test]
fn errors_are_printed(rt: HostRuntime) -> Result<(), Fail> {
    for (error, want) in [
        (CliError::Input, "input cannot be read"),
        (
            CliError::MismatchedColumns,
            "the record batch has no columns of the schema",
        ),
        (CliError::IndexOutOfRange, "a row index is out of range"),
        (
            CliError::Condition(ColumnError::UnknownColumn(4)),
            "position 4: there is no column of this name",
        ),
        (
            CliError::Condition(ColumnError::NotBoolean(0)),
            "position 0: the column is not boolean",
        ),
        (
            CliError::Condition(ColumnError::NotComparable(7)),
            "position 7: columns of this type cannot be compared",
        ),
        (
            CliError::Condition(ColumnError::OtherLiteral(12)),
            "position 12: the column cannot be compared with this literal",
        ),
        (
            CliError::UnknownName(2),
            "there is no column of projected name 2",
        ),
        (CliError::Output, "output cannot be written"),
        (CliError::Memory, "out of memory"),
    ] {
        let text = format!(in rt.alloc(); "{error}")?;
        assert!(rt; text.as_str() == want, "{text}");
    }
    // The messages of the formats are printed as they are.
    let read = IpcReadError::Compression(CompressionError::Truncated);
    let text = format!(in rt.alloc(); "{}", CliError::Read(read))?;
    assert!(rt; text == format!(in rt.alloc(); "{read}")?, "{text}");
    let write = IpcWriteError::Float;
    let text = format!(in rt.alloc(); "{}", CliError::Write(write))?;
    assert!(rt; text == format!(in rt.alloc(); "{write}")?, "{text}");
    Ok(())
}

#[test]
fn bytes_are_copied(rt: HostRuntime) -> Result<(), Fail> {
    let bytes = bytes_of(rt.alloc(), STREAM)?;
    let mut reader = bytes.as_slice();
    let input = read_input(rt.alloc(), &mut reader)?;
    let mut out = Vec::new(rt.alloc());
    write_output(&mut out, &input)?;
    assert!(rt; out.as_slice() == bytes.as_slice());
    Ok(())
}

/// The text that a command prints of a sample.
fn said(alloc: Global, arguments: &[&str], sample: &[u8]) -> Result<String, CliError> {
    crate::oracle::said(alloc, arguments, &bytes_of(alloc, sample)?)
}

#[test]
fn schemas_of_samples_are_printed(rt: HostRuntime) -> Result<(), Fail> {
    for (sample, want) in [
        (STREAM, "a: int32\nb: string\n"),
        (FILE, "a: int32\nb: string\n"),
        (BOOLEANS, "a: bool\nb: bool not null\n"),
        (COLUMNLESS, ""),
    ] {
        let text = said(rt.alloc(), &["schema"], sample)?;
        assert!(rt; text.as_str() == want, "{text}");
    }
    Ok(())
}

#[test]
fn rows_of_samples_are_printed(rt: HostRuntime) -> Result<(), Fail> {
    for (arguments, want) in [
        (
            ["rows"].as_slice(),
            "{\"a\":1,\"b\":\"a\"}\n{\"a\":null,\"b\":\"b\"}\n{\"a\":3,\"b\":null}\n",
        ),
        (["slice", "0", "1"].as_slice(), "{\"a\":1,\"b\":\"a\"}\n"),
        (
            ["slice", "1", "18446744073709551615"].as_slice(),
            "{\"a\":null,\"b\":\"b\"}\n{\"a\":3,\"b\":null}\n",
        ),
        (["slice", "3", "1"].as_slice(), ""),
        (["slice", "0", "0"].as_slice(), ""),
        (
            ["take", "2", "0", "2"].as_slice(),
            "{\"a\":3,\"b\":null}\n{\"a\":1,\"b\":\"a\"}\n{\"a\":3,\"b\":null}\n",
        ),
        (["take"].as_slice(), ""),
    ] {
        for sample in [STREAM, FILE] {
            let text = said(rt.alloc(), arguments, sample)?;
            assert!(rt; text.as_str() == want, "{text}");
        }
    }
    let none = said(rt.alloc(), &["rows"], EMPTY)?;
    assert!(rt; none.as_str() == "", "{none}");
    Ok(())
}

#[test]
fn invalid_bytes_are_errors(rt: HostRuntime) {
    for (sample, want) in [
        (
            COMPRESSED,
            CliError::Read(IpcReadError::Compression(CompressionError::Truncated)),
        ),
        (b"".as_slice(), CliError::Read(IpcReadError::MissingSchema)),
        (
            b"\xff\xff".as_slice(),
            CliError::Read(IpcReadError::Truncated),
        ),
        (
            b"ARROW1".as_slice(),
            CliError::Read(IpcReadError::Truncated),
        ),
        (b",".as_slice(), CliError::Read(IpcReadError::Truncated)),
        (
            b",,,,,,,,".as_slice(),
            CliError::Read(IpcReadError::Truncated),
        ),
        (COLUMNLESS, CliError::MismatchedColumns),
    ] {
        let error = said(rt.alloc(), &["rows"], sample).err();
        assert!(rt; error == Some(want), "{error:?}");
    }
}

#[test]
fn true_rows_are_printed(rt: HostRuntime) -> Result<(), Fail> {
    let all = said(rt.alloc(), &["rows"], BOOLEANS)?;
    for (name, mark) in [
        ("a", b"{\"a\":true,".as_slice()),
        ("b", b",\"b\":true}".as_slice()),
    ] {
        let text = said(rt.alloc(), &["where", name], BOOLEANS)?;
        let mut rest = text.as_bytes();
        for line in all.as_str().lines() {
            let line = line.as_bytes();
            let is_true = if name == "a" {
                line.starts_with(mark)
            } else {
                line.ends_with(mark)
            };
            if is_true {
                assert!(rt; rest.starts_with(line), "{text}");
                rest = &rest[line.len() + 1..];
            }
        }
        assert!(rt; rest.is_empty() && !text.is_empty(), "{text}");
    }
    Ok(())
}

#[test]
fn projected_columns_are_printed(rt: HostRuntime) -> Result<(), Fail> {
    let alloc = rt.alloc();
    for (names, schema, first) in [
        (["b"].as_slice(), "b: string\n", "{\"b\":\"a\"}\n"),
        (
            ["b", "a"].as_slice(),
            "a: int32\nb: string\n",
            "{\"a\":1,\"b\":\"a\"}\n",
        ),
    ] {
        for sample in [STREAM, FILE] {
            let bytes = bytes_of(alloc, sample)?;
            let columns = Projection::Names(names);
            let text = text_of(alloc, columns, &Request::Columns, &bytes)?;
            assert!(rt; text.as_str() == schema, "{text}");
            let rows = Request::Rows(Selection::Slice(0, 1));
            let text = text_of(alloc, columns, &rows, &bytes)?;
            assert!(rt; text.as_str() == first, "{text}");
        }
    }
    let bytes = bytes_of(alloc, STREAM)?;
    let none = Projection::Indices(&[]);
    let text = text_of(alloc, none, &Request::Columns, &bytes)?;
    assert!(rt; text.is_empty(), "{text}");
    let error = text_of(alloc, none, &Request::Rows(Selection::All), &bytes).err();
    assert!(rt; error == Some(CliError::MismatchedColumns));
    let arrays = arrays_of(alloc, read_table(alloc, none, &bytes)?)?;
    assert!(rt; arrays.len() == 3 && arrays[0].len() == 2);
    Ok(())
}
