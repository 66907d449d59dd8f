//! Projected names that no column has.
use crate::copying::before_batches;
use crate::devices::{Count, Device, NEVER, Sink, input};
use crate::samples::{EMPTY, FILE, STREAM, bytes_of};
use cli_args::{Format, Request, Selection};
use cli_read::{CompareError, Input, compare, open, print, take, take_encoded, take_lines};
use cli_rows::{BatchError, CliError, first_unknown_name, similar_names, unknown_name_text};
use cli_write::{AppendError, append, begin_concat, copy};
use ipc_schema::Projection;
use nest_memory::datatypes::{DataType, Field};
use nest_memory::error::Error;
use std::alloc::Global;
use std::test::*;

/// Names, and the first that is neither `a` nor `b`.
const NAMES: [(&[&str], usize); 6] = [
    (&["c"], 0),
    (&["a", "c"], 1),
    (&["b", "a", "", "c"], 2),
    (&["A"], 0),
    (&["a", "a", "ab"], 2),
    (&["a", "b", "a", "b", " a"], 4),
];

/// Names, and those of `FIELDS` that are similar: equal but for the case of ASCII letters, one edit, two edits, none.
const SIMILAR: [(&str, &[&str]); 18] = [
    ("nme", &["name"]),
    ("nam e", &["name"]),
    ("naem", &["name"]),
    ("amen", &[]),
    ("nams", &["name", "names"]),
    ("NAMES", &["names"]),
    ("Name", &["name"]),
    ("di", &["id"]),
    ("od", &["id"]),
    ("ok", &[]),
    ("pri", &[]),
    ("prices", &["price"]),
    ("prcies", &["price"]),
    ("größe", &["Größe"]),
    ("Grösse", &["Größe"]),
    ("GRÖSSE", &[]),
    ("", &[]),
    ("description", &[]),
];

const FIELDS: [&str; 5] = ["id", "name", "names", "price", "Größe"];

/// Names, and their messages for columns `a` and `b`.
const MESSAGES: [(&str, &str); 4] = [
    ("c", "there is no column \"c\" (similar: \"a\", \"b\")"),
    (" a", "there is no column \" a\" (similar: \"a\")"),
    ("\"", "there is no column \"\"\" (similar: \"a\", \"b\")"),
    ("column", "there is no column \"column\""),
];

fn stopped(name: usize) -> BatchError {
    before_batches(CliError::UnknownName(name))
}

fn device(alloc: Global, bytes: &[u8]) -> Result<Input<Device>, Fail> {
    Ok(input(bytes, Device::new(bytes.to_vec(alloc)?, NEVER)))
}

#[test]
fn names_are_looked_up(rt: HostRuntime) -> Result<(), Fail> {
    let alloc = rt.alloc();
    for sample in [STREAM, FILE] {
        let bytes = bytes_of(alloc, sample)?;
        let reader = open(alloc, Projection::All, device(alloc, &bytes)?).expect(&rt, "a reader");
        let fields = &reader.schema().fields;
        for (names, name) in NAMES {
            let found = first_unknown_name(Projection::Names(names), fields);
            assert!(rt; found == Some(name), "{found:?}");
        }
        for names in [[].as_slice(), &["a"], &["b", "a"], &["a", "a"]] {
            let found = first_unknown_name(Projection::Names(names), fields);
            assert!(rt; found == None, "{found:?}");
        }
        assert!(rt; first_unknown_name(Projection::All, fields) == None);
        assert!(rt; first_unknown_name(Projection::Indices(&[7]), fields) == None);
    }
    Ok(())
}

fn integer_fields(alloc: Global, names: &[&str]) -> Result<Vec<Field>, Error> {
    let mut fields = Vec::new(alloc);
    for name in names {
        fields.push(Field::new(alloc, name, DataType::Int64, true)?)?;
    }
    Ok(fields)
}

#[test]
fn similar_names_are_found(rt: HostRuntime) -> Result<(), Fail> {
    let alloc = rt.alloc();
    let fields = integer_fields(alloc, &FIELDS)?;
    for (name, similar) in SIMILAR {
        let found = similar_names(alloc, name, &fields)?;
        assert!(rt; found.as_slice() == similar, "{name}: {found:?}");
        let found = similar_names(alloc, name, &[])?;
        assert!(rt; found.is_empty(), "{name}: {found:?}");
    }
    Ok(())
}

#[test]
fn messages_have_similar_names(rt: HostRuntime) -> Result<(), Fail> {
    let alloc = rt.alloc();
    for sample in [STREAM, FILE] {
        let bytes = bytes_of(alloc, sample)?;
        let reader = open(alloc, Projection::All, device(alloc, &bytes)?).expect(&rt, "a reader");
        for (name, want) in MESSAGES {
            let text = unknown_name_text(alloc, name, &reader.schema().fields)?;
            assert!(rt; text.as_str() == want, "{text}");
        }
    }
    Ok(())
}

#[test]
fn inputs_are_not_opened(rt: HostRuntime) -> Result<(), Fail> {
    let alloc = rt.alloc();
    for sample in [STREAM, FILE] {
        let bytes = bytes_of(alloc, sample)?;
        for (names, name) in NAMES {
            let columns = Projection::Names(names);
            let opened = open(alloc, columns, device(alloc, &bytes)?);
            assert!(rt; opened.err() == Some(CliError::UnknownName(name)));
        }
    }
    Ok(())
}

#[test]
fn nothing_is_printed(rt: HostRuntime) -> Result<(), Fail> {
    let alloc = rt.alloc();
    for sample in [STREAM, FILE] {
        let bytes = bytes_of(alloc, sample)?;
        for (names, name) in NAMES {
            let columns = Projection::Names(names);
            for request in [Request::Columns, Request::Rows(Selection::All)] {
                let mut out = Sink::new(alloc, NEVER);
                let done = print(alloc, columns, request, device(alloc, &bytes)?, &mut out);
                assert!(rt; done == Err(stopped(name)), "{done:?}");
                assert!(rt; out.bytes.is_empty());
            }
        }
    }
    Ok(())
}

#[test]
fn no_row_is_taken(rt: HostRuntime) -> Result<(), Fail> {
    let alloc = rt.alloc();
    for sample in [STREAM, FILE] {
        let bytes = bytes_of(alloc, sample)?;
        for (names, name) in NAMES {
            let columns = Projection::Names(names);
            let wanted = [0usize, 100];
            let table = take(alloc, columns, &wanted, device(alloc, &bytes)?);
            assert!(rt; table.err() == Some(stopped(name)));
            let lines = take_lines(alloc, columns, &wanted, device(alloc, &bytes)?);
            assert!(rt; lines.err() == Some(stopped(name)));
            for format in [Format::File, Format::Stream] {
                let made = take_encoded(alloc, columns, format, &wanted, device(alloc, &bytes)?);
                assert!(rt; made.err() == Some(stopped(name)));
            }
        }
    }
    Ok(())
}

#[test]
fn inputs_are_not_compared(rt: HostRuntime) -> Result<(), Fail> {
    let alloc = rt.alloc();
    for left in [STREAM, FILE] {
        for right in [STREAM, FILE] {
            let (x, y) = (bytes_of(alloc, left)?, bytes_of(alloc, right)?);
            for (names, name) in NAMES {
                let columns = Projection::Names(names);
                let found = compare(alloc, columns, device(alloc, &x)?, device(alloc, &y)?);
                assert!(rt;
                    found == Err(CompareError::First(stopped(name))),
                    "{found:?}"
                );
            }
        }
    }
    // The second input has no column `b`.
    for left in [STREAM, FILE] {
        let (x, y) = (bytes_of(alloc, left)?, bytes_of(alloc, EMPTY)?);
        let columns = Projection::Names(&["a", "b"]);
        let found = compare(alloc, columns, device(alloc, &x)?, device(alloc, &y)?);
        assert!(rt; found == Err(CompareError::Second(stopped(1))), "{found:?}");
    }
    Ok(())
}

#[test]
fn nothing_is_written(rt: HostRuntime) -> Result<(), Fail> {
    let alloc = rt.alloc();
    for sample in [STREAM, FILE] {
        let bytes = bytes_of(alloc, sample)?;
        for (names, name) in NAMES {
            let columns = Projection::Names(names);
            for format in [Format::File, Format::Stream] {
                let mut count = Count::new();
                let out = Sink::new(alloc, NEVER);
                let from = device(alloc, &bytes)?;
                let made = copy(
                    alloc,
                    columns,
                    format,
                    Selection::All,
                    from,
                    out,
                    &mut count,
                );
                assert!(rt; made.err() == Some(stopped(name)));
                let out = Sink::new(alloc, NEVER);
                let from = device(alloc, &bytes)?;
                let begun = begin_concat(alloc, columns, format, from, out, &mut count);
                assert!(rt; begun.err() == Some(stopped(name)));
                assert!(rt; count.batches == 0);
            }
        }
    }
    Ok(())
}

#[test]
fn nothing_is_appended(rt: HostRuntime) -> Result<(), Fail> {
    let alloc = rt.alloc();
    let bytes = bytes_of(alloc, STREAM)?;
    for format in [Format::File, Format::Stream] {
        let mut count = Count::new();
        let out = Sink::new(alloc, NEVER);
        let first = device(alloc, &bytes)?;
        let begun = begin_concat(alloc, Projection::All, format, first, out, &mut count);
        let mut writer = begun.expect(&rt, "a writer");
        for (names, name) in NAMES {
            let columns = Projection::Names(names);
            let done = append(
                alloc,
                columns,
                device(alloc, &bytes)?,
                &mut writer,
                &mut count,
            );
            assert!(rt; done == Err(AppendError::Batch(stopped(name))), "{done:?}");
        }
        assert!(rt; writer.finish(alloc).is_ok());
    }
    Ok(())
}
