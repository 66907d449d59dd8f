//! Lines of JSON written as Arrow files and streams.
use cli_args::{Format, Request, Selection};
use cli_read::{Input, open};
use cli_rows::{BatchError, CliError, Table, encode_table, push_batch, table_text};
use cli_write::import::{ImportError, import};
use cli_write::{Progress, copy};
use ipc_flatbuf::IpcWriteError;
use ipc_schema::{Projection, Schema, clone_fields};
use json_read::{FieldError, LineError, UnsupportedTypeError, ValueError, read_json_lines};
use nest_memory::datatypes::{DataType, Field, Metadata};
use std::alloc::Global;
use std::io;
use std::io::{Cursor, ErrorKind, Read, Write};
use std::test::*;
use type_text::parse_type;

const ROWS: &str = "struct<id: int64, name: string, ok: bool, tags: list<item: string>>";

fn fields_of(alloc: Global, row_type: &str) -> Result<Vec<Field>, Fail> {
    match parse_type(alloc, row_type)? {
        DataType::Struct(fields) => Ok(fields),
        other => {
            drop(other);
            Ok(Vec::new(alloc))
        }
    }
}

const NEVER: usize = usize::MAX;

/// A reader of bytes: `width` at a time at most. The call with the number `fails_at` fails.
#[derive(Drop)]
struct Text {
    bytes: Vec<u8>,
    at: usize,
    width: usize,
    calls: usize,
    fails_at: usize,
}

impl Read for Text {
    fn read(&mut self, buf: &mut [u8]) -> io::Result<usize> {
        self.calls += 1;
        if self.calls - 1 == self.fails_at {
            return Err(io::Error::from(ErrorKind::ConnectionReset));
        }
        let n = buf
            .len()
            .min(self.width)
            .min(self.bytes.len().saturating_sub(self.at));
        for i in 0..n {
            buf[i] = self.bytes[self.at + i];
        }
        self.at += n;
        Ok(n)
    }
}

/// A writer of bytes, `room` in all.
#[derive(Drop)]
struct Out {
    bytes: Vec<u8>,
    room: usize,
}

impl Write for Out {
    fn write(&mut self, buf: &[u8]) -> io::Result<usize> {
        if self.bytes.len() >= self.room {
            return Err(io::Error::from(ErrorKind::StorageFull));
        }
        let n = buf.len().min(self.room - self.bytes.len());
        self.bytes.extend_from_slice(&buf[..n])?;
        Ok(n)
    }

    fn flush(&mut self) -> io::Result<()> {
        Ok(())
    }
}

/// Counts rows and record batches.
#[derive(Drop)]
struct Count {
    rows: usize,
    batches: usize,
}

impl Progress for Count {
    fn rows_read(&mut self, rows: usize) {
        self.rows += rows;
        self.batches += 1;
    }
}

fn text_of(alloc: Global, text: &[u8], width: usize, fails_at: usize) -> Result<Text, Fail> {
    Ok(Text {
        bytes: text.to_vec(alloc)?,
        at: 0,
        width,
        calls: 0,
        fails_at,
    })
}

/// Reads a table.
fn read_table(alloc: Global, bytes: &[u8]) -> Result<Table, CliError> {
    let source = Cursor::new(bytes.to_vec(alloc)?);
    let input = if bytes.starts_with(b"ARROW1") {
        Input::File(source)
    } else {
        Input::Stream(source)
    };
    let mut reader = open(alloc, Projection::All, input)?;
    let mut batches = Vec::new(alloc);
    while let Some(batch) = reader.next_batch(alloc)? {
        batches.push(batch)?;
    }
    let schema = reader.schema().clone(alloc)?;
    Ok(Table { schema, batches })
}

/// Returns all rows as lines.
fn lines_of(alloc: Global, bytes: &[u8]) -> Result<String, CliError> {
    table_text(
        alloc,
        &Request::Rows(Selection::All),
        read_table(alloc, bytes)?,
    )
}

/// Imports a text into an output with `room` bytes.
fn imported(
    alloc: Global,
    row_type: &str,
    format: Format,
    text: Text,
    room: usize,
) -> Result<(Result<Vec<u8>, ImportError>, Count), Fail> {
    let mut count = Count {
        rows: 0,
        batches: 0,
    };
    let out = Out {
        bytes: Vec::new(alloc),
        room,
    };
    let done = match import(
        alloc,
        fields_of(alloc, row_type)?,
        format,
        text,
        out,
        &mut count,
    ) {
        Ok(out) => Ok(out.bytes),
        Err(error) => Err(error),
    };
    Ok((done, count))
}

/// Imports a text.
fn made(
    alloc: Global,
    row_type: &str,
    format: Format,
    text: &[u8],
) -> Result<Result<Vec<u8>, ImportError>, Fail> {
    let text = text_of(alloc, text, NEVER, NEVER)?;
    let (done, _) = imported(alloc, row_type, format, text, NEVER)?;
    Ok(done)
}

#[test]
fn lines_round_trip(rt: HostRuntime) -> Result<(), Fail> {
    let alloc = rt.alloc();
    let text =
        "{\"id\":1,\"name\":\"a\",\"ok\":true,\"tags\":[\"x\",null]}\n{\"id\":null,\"name\":null,\"ok\":null,\"tags\":null}\n{\"id\":-3,\"name\":\"\",\"ok\":false,\"tags\":[]}\n";
    for format in [Format::File, Format::Stream] {
        match made(alloc, ROWS, format, text.as_bytes())? {
            Ok(bytes) => match lines_of(alloc, &bytes) {
                Ok(found) => assert!(&rt; found.as_str() == text, "{found}"),
                Err(error) => assert!(&rt; false, "{error}"),
            },
            Err(error) => assert!(&rt; false, "{error:?}"),
        }
    }
    Ok(())
}

/// Appends lines of a row without values, which are parsed fastest.
fn append_rows(text: &mut Vec<u8>, count: usize) -> Result<(), Fail> {
    for _i in 0..count {
        text.extend_from_slice(b"{}\n")?;
    }
    Ok(())
}

#[test]
fn batches_have_65536_rows(rt: HostRuntime) -> Result<(), Fail> {
    let alloc = rt.alloc();
    let mut text = Vec::new(alloc);
    append_rows(&mut text, 65537)?;
    match made(alloc, "struct<a: int8>", Format::Stream, &text)? {
        Ok(bytes) => match read_table(alloc, &bytes) {
            Ok(table) => {
                assert!(&rt; table.batches.len() == 2);
                assert!(&rt; table.batches[0].rows == 65536 && table.batches[1].rows == 1);
            }
            Err(error) => assert!(&rt; false, "{error}"),
        },
        Err(error) => assert!(&rt; false, "{error:?}"),
    }
    text.extend_from_slice(b"{\"a\":128}\n")?;
    let input = text_of(alloc, &text, 1000, NEVER)?;
    let (done, count) = imported(alloc, "struct<a: int8>", Format::File, input, NEVER)?;
    let reason = LineError::Value(ValueError::OutOfRange);
    assert!(&rt; done.err() == Some(line_error(alloc, 65537, Some("a"), reason)?));
    assert!(&rt; count.rows == 65536 && count.batches == 1);
    Ok(())
}

#[test]
fn unsupported_types_are_errors(rt: HostRuntime) -> Result<(), Fail> {
    let alloc = rt.alloc();
    for (row_type, want) in [
        (
            "struct<a: list<item: map<string, int8>>>",
            UnsupportedTypeError::Map,
        ),
        ("struct<>", UnsupportedTypeError::EmptyStruct),
    ] {
        let error = made(alloc, row_type, Format::File, b"{}")?.err();
        assert!(&rt;
            error == Some(ImportError::Type(want)),
            "{row_type}: {error:?}"
        );
    }
    Ok(())
}

/// The error of a line, in a field if there is a path.
fn line_error(
    alloc: Global,
    line: usize,
    path: Option<&str>,
    reason: LineError,
) -> Result<ImportError, Fail> {
    let field = match path {
        Some(path) => Some(String::from_str(alloc, path)?),
        None => None,
    };
    Ok(ImportError::Line(line, FieldError { field, reason }))
}

#[test]
fn invalid_lines_are_errors(rt: HostRuntime) -> Result<(), Fail> {
    let alloc = rt.alloc();
    for (row_type, text, line, path, reason) in [
        (
            ROWS,
            "{}\nnull\n",
            1,
            None,
            LineError::Value(ValueError::WrongType),
        ),
        (
            ROWS,
            "{}\n{\"b\":1}\n",
            1,
            Some("b"),
            LineError::Value(ValueError::UnknownField),
        ),
        (
            ROWS,
            "{}\n{}\n{\"tags\":[\"x\",1]}\n",
            2,
            Some("tags.item"),
            LineError::Value(ValueError::WrongType),
        ),
        (
            "struct<a: int8 not null>",
            "{\"a\":1}\n{}\n",
            1,
            Some("a"),
            LineError::Value(ValueError::UnexpectedNull),
        ),
        (ROWS, "{\n", 0, None, LineError::InvalidJson),
    ] {
        let want = line_error(alloc, line, path, reason)?;
        let error = made(alloc, row_type, Format::File, text.as_bytes())?.err();
        assert!(&rt; error == Some(want), "{row_type}: {error:?}");
    }
    Ok(())
}

#[test]
fn rows_are_encoded(rt: HostRuntime) -> Result<(), Fail> {
    let alloc = rt.alloc();
    let text = "{\"a\":1}\n{\"a\":null}\n";
    let fields = fields_of(alloc, "struct<a: int8>")?;
    let data_type = DataType::Struct(clone_fields(alloc, &fields)?);
    let mut batches = Vec::new(alloc);
    push_batch(
        alloc,
        &fields,
        &mut batches,
        read_json_lines(alloc, &data_type, text.as_bytes())?,
    )?;
    let metadata = Metadata::new(alloc);
    let table = Table {
        schema: Schema { fields, metadata },
        batches,
    };
    match encode_table(alloc, Format::Stream, &table) {
        Ok(bytes) => {
            let found = lines_of(alloc, &bytes)?;
            assert!(&rt; found.as_str() == text, "{found}");
        }
        Err(error) => assert!(&rt; false, "{error}"),
    }
    Ok(())
}

#[test]
fn short_reads_change_nothing(rt: HostRuntime) -> Result<(), Fail> {
    let alloc = rt.alloc();
    for text in [
        "",
        "{}",
        "{}\n",
        "{\"id\":1}\n{\"id\":2}",
        "{\"name\":\"a\"}\n{}\n{\"ok\":true}\n",
    ] {
        for format in [Format::File, Format::Stream] {
            let want = made(alloc, ROWS, format, text.as_bytes())?;
            for width in 1..8 {
                let input = text_of(alloc, text.as_bytes(), width, NEVER)?;
                let (found, _) = imported(alloc, ROWS, format, input, NEVER)?;
                assert!(&rt; found == want, "{text} by {width}: {found:?}");
            }
        }
    }
    Ok(())
}

#[test]
fn nothing_is_written_of_unsupported_types(rt: HostRuntime) -> Result<(), Fail> {
    let alloc = rt.alloc();
    let input = text_of(alloc, b"{}", 1, NEVER)?;
    let row_type = "struct<a: map<string, int8>>";
    let (done, _) = imported(alloc, row_type, Format::Stream, input, 0)?;
    assert!(&rt; done.err() == Some(ImportError::Type(UnsupportedTypeError::Map)));
    Ok(())
}

#[test]
fn devices_fail(rt: HostRuntime) -> Result<(), Fail> {
    let alloc = rt.alloc();
    let text = b"{\"id\":1}\n{\"id\":2}\n";
    for format in [Format::File, Format::Stream] {
        let Ok(whole) = made(alloc, ROWS, format, text)? else {
            assert!(&rt; false);
            return Ok(());
        };
        for call in 0..text.len() + 1 {
            let (done, _) = imported(alloc, ROWS, format, text_of(alloc, text, 1, call)?, NEVER)?;
            assert!(&rt; done.err() == Some(ImportError::Input), "call {call}");
        }
        for room in (0..whole.len()).step_by(5) {
            let (done, _) = imported(alloc, ROWS, format, text_of(alloc, text, 7, NEVER)?, room)?;
            assert!(&rt; done.err() == Some(ImportError::Output), "room {room}");
        }
        let (done, _) = imported(
            alloc,
            ROWS,
            format,
            text_of(alloc, text, 7, NEVER)?,
            whole.len(),
        )?;
        assert!(&rt; done == Ok(whole));
    }
    Ok(())
}

// The next record batch needs a replacement dictionary, which a file cannot have.
#[test]
fn files_cannot_replace_dictionaries(rt: HostRuntime) -> Result<(), Fail> {
    let alloc = rt.alloc();
    let row_type = "struct<a: dictionary<values=string, indices=int8, ordered=0>>";
    let mut text = Vec::new(alloc);
    text.extend_from_slice(b"{\"a\":\"x\"}\n")?;
    append_rows(&mut text, 65535)?;
    text.extend_from_slice(b"{\"a\":\"y\"}\n")?;
    let error = made(alloc, row_type, Format::File, &text)?.err();
    assert!(&rt;
        error == Some(ImportError::Write(IpcWriteError::DictionaryReplacement)),
        "{error:?}"
    );
    let Ok(stream) = made(alloc, row_type, Format::Stream, &text)? else {
        assert!(&rt; false);
        return Ok(());
    };
    let mut count = Count {
        rows: 0,
        batches: 0,
    };
    let (input, out) = (Input::Stream(Cursor::new(stream)), Vec::new(alloc));
    let done = copy(
        alloc,
        Projection::All,
        Format::File,
        Selection::All,
        input,
        out,
        &mut count,
    );
    let error = BatchError {
        batch: Some(1),
        error: CliError::Write(IpcWriteError::DictionaryReplacement),
    };
    assert!(&rt; done.err() == Some(error));
    assert!(&rt; count.rows == 65536 && count.batches == 1);
    Ok(())
}
