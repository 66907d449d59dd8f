//! Schemas with dictionaries, whole and by columns: those of another implementation, and each error of them.
//!
//! Schemas with dictionaries, of another implementation and layouts down by hand, have their text and their ids; each error of
//! them, in its index of the order.
use crate::samples::{DICTIONARY_SCHEMAS, REJECTED_DICTIONARY_SCHEMAS};
use crate::samples_read::bytes_of;
use crate::schema_text::put_schema;
use crate::schemas::count_outer;
use ipc_flatbuf::IpcReadError;
use ipc_flatbuf::message::next_message;
use ipc_schema::{
    ColumnSet, DictionaryTypes, Projection, outermost_ids, projected_schema_at,
    read_projected_schema, read_schema, schema_at,
};
use std::alloc::Global;

// A schema and its ids, or its error.
fn text_of(alloc: Global, bytes: &[u8]) -> Result<String, IpcReadError> {
    let mut text = String::new(alloc);
    match read_schema(alloc, bytes) {
        Err(failure) => write!(text, "error {failure:?}\n")?,
        Ok((keyed, _)) => {
            put_schema(&mut text, &keyed.schema)?;
            text.push_str("ids")?;
            for id in &keyed.dictionaries.ids {
                write!(text, " {id}")?;
            }
            text.push_str("\n")?;
        }
    }
    Ok(text)
}

#[test]
fn of_another_program(rt: HostRuntime) {
    for sample in &DICTIONARY_SCHEMAS {
        let bytes = bytes_of(rt.alloc(), sample).expect(&rt, "no bytes");
        let text = text_of(rt.alloc(), &bytes).expect(&rt, "no text");
        assert!(rt; text.as_str() == sample.text, "{}: {text}", sample.name);
    }
}

#[test]
fn refused(rt: HostRuntime) {
    for sample in &REJECTED_DICTIONARY_SCHEMAS {
        let bytes = bytes_of(rt.alloc(), sample).expect(&rt, "no bytes");
        let text = text_of(rt.alloc(), &bytes).expect(&rt, "no text");
        assert!(rt; text.as_str() == sample.text, "{}: {text}", sample.name);
        let failure = read_schema(rt.alloc(), &bytes).err();
        assert!(rt; failure.is_some());
        let none = read_projected_schema(rt.alloc(), Projection::All, &bytes).err();
        assert!(rt; none == failure);
    }
}

// How many ids there are, pushed by those that are inside of no other's values.
fn counted(
    alloc: Global,
    ids: &[i64],
    dictionaries: &DictionaryTypes,
) -> Result<usize, IpcReadError> {
    let mut count = 0;
    for id in &outermost_ids(alloc, ids, dictionaries)? {
        if let Some(values) = dictionaries.named.get(id) {
            count += 1 + values.inside.len();
        }
    }
    Ok(count)
}

#[test]
fn ids_inside_of_no_other(rt: HostRuntime) {
    let alloc = rt.alloc();
    for sample in &DICTIONARY_SCHEMAS {
        let bytes = bytes_of(alloc, sample).expect(&rt, "no bytes");
        let (keyed, _) = read_schema(alloc, &bytes).expect(&rt, "no schema");
        let dictionaries = &keyed.dictionaries;
        let outer = outermost_ids(alloc, &dictionaries.ids, dictionaries).expect(&rt, "no ids");
        assert!(rt;
            outer.len() == count_outer(&keyed.schema.fields),
            "{}",
            sample.name
        );
        let count = counted(alloc, &dictionaries.ids, dictionaries).expect(&rt, "no count");
        assert!(rt; count == dictionaries.ids.len(), "{}", sample.name);
        for id in &dictionaries.ids {
            let values = dictionaries.named.get(id).expect(&rt, "no values");
            let inside = counted(alloc, &values.inside, dictionaries).expect(&rt, "no count");
            assert!(rt; inside == values.inside.len(), "{}", sample.name);
        }
    }
}

#[test]
fn each_beginning(rt: HostRuntime) {
    for sample in &DICTIONARY_SCHEMAS {
        let bytes = bytes_of(rt.alloc(), sample).expect(&rt, "no bytes");
        for len in 1..bytes.len() {
            let failure = read_schema(rt.alloc(), &bytes[..len]).err();
            assert!(rt;
                failure == Some(IpcReadError::Truncated),
                "{}: {len}",
                sample.name
            );
        }
    }
}

// The table of a schema is read alike without its message.
#[test]
fn by_their_tables(rt: HostRuntime) {
    let alloc = rt.alloc();
    for sample in &DICTIONARY_SCHEMAS {
        let bytes = bytes_of(alloc, sample).expect(&rt, "no bytes");
        let (message, _) = next_message(&bytes).expect(&rt, "no message");
        let message = message.expect(&rt, "the end");
        let root = message.root;
        let (table, left) = schema_at(alloc, message.metadata, root.header, root.left).expect(
            &rt,
            "no schema",
        );
        let (whole, _) = read_schema(alloc, &bytes).expect(&rt, "no schema");
        assert!(rt; table.dictionaries.ids == whole.dictionaries.ids);
        assert!(rt; table.schema.fields == whole.schema.fields);
        assert!(rt; left < root.left);
    }
}

// So is it by columns: by all and by none.
#[test]
fn by_their_tables_and_columns(rt: HostRuntime) {
    let alloc = rt.alloc();
    for sample in &DICTIONARY_SCHEMAS {
        let bytes = bytes_of(alloc, sample).expect(&rt, "no bytes");
        let (message, _) = next_message(&bytes).expect(&rt, "no message");
        let message = message.expect(&rt, "the end");
        let root = message.root;
        for columns in [Projection::All, Projection::Indices(&[])] {
            let picker = ColumnSet::new(alloc, columns).expect(&rt, "no memory");
            let (table, left) = projected_schema_at(
                alloc,
                &picker,
                message.metadata,
                root.header,
                root.left,
            ).expect(&rt, "no schema");
            let (whole, _) = read_projected_schema(alloc, columns, &bytes).expect(&rt, "no schema");
            assert!(rt; table.dictionaries.ids == whole.dictionaries.ids);
            assert!(rt; table.schema.fields == whole.schema.fields);
            assert!(rt; table.steps.len() == whole.steps.len() && left < root.left);
        }
    }
}

// Whether a schema is read as it is by columns where all are picked: the same fields and ids, or the same error.
fn are_all_equal(alloc: Global, bytes: &[u8]) -> bool {
    match (
        read_schema(alloc, bytes),
        read_projected_schema(alloc, Projection::All, bytes),
    ) {
        (Ok((keyed, _)), Ok((picked, _))) => {
            picked.schema.fields == keyed.schema.fields
                && picked.steps.len() == keyed.schema.fields.len()
                && picked.dictionaries.ids == keyed.dictionaries.ids
                && picked.dictionaries.named.len() == keyed.dictionaries.named.len()
        }
        (Err(one), Err(other)) => one == other,
        _ => false,
    }
}

// Whether they do for all messages that differ from one in a byte: it is 255 or one more.
fn are_equal_changed(alloc: Global, bytes: &mut [u8]) -> bool {
    for index in 0..bytes.len() {
        let old = bytes[index];
        for new in [255, old.wrapping_add(1)] {
            bytes[index] = new;
            if !are_all_equal(alloc, bytes) {
                return false;
            }
        }
        bytes[index] = old;
    }
    true
}

/// Messages of more bytes are not changed byte by byte: it takes too long.
const BYTES: usize = 220;

#[test]
fn each_byte_changed(rt: HostRuntime) {
    for sample in &DICTIONARY_SCHEMAS {
        let mut bytes = bytes_of(rt.alloc(), sample).expect(&rt, "no bytes");
        if bytes.len() <= BYTES {
            assert!(rt;
                are_equal_changed(rt.alloc(), &mut bytes),
                "{}",
                sample.name
            );
        }
    }
}
