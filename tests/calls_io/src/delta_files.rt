//! Files with delta dictionaries, written to readers and writers.
//!
//! With delta dictionaries a file has the bytes of `write_file`, and of each what it grew by; one that changed, or that no
//! reader could join, is rejected, and the writer is as it was; a stream that fails at any byte holds a prefix.
use crate::examples::same;
use crate::fake_io::Sink;
use ipc::{Batch, read_file, write_file};
use ipc_flatbuf::IpcWriteError;
use ipc_io::{FileWriter, WriteError};
use ipc_schema::Schema;
use nest_array::any::AnyArray;
use nest_array::dictionary::DictionaryArray;
use nest_array::dictionary::keys::AnyKeys;
use nest_array::struct_::StructArray;
use nest_flat::primitive::PrimitiveArray;
use nest_flat::utf8::Utf8Array;
use nest_memory::datatypes::{DataType, Field};
use nest_memory::error::Error;
use std::alloc::Global;
use std::collections::BTreeMap;
use std::io::ErrorKind;

/// A word for each letter.
fn words(alloc: Global, letters: &str) -> Result<AnyArray, Error> {
    let mut texts = Vec::new(alloc);
    for i in 0..letters.len() {
        texts.push(&letters[i..i + 1])?;
    }
    Ok(AnyArray::Utf8(Utf8Array::from_slice(alloc, &texts)?))
}

/// Values by these keys of 8 bits.
fn by(alloc: Global, keys: &[i8], values: AnyArray) -> Result<AnyArray, Error> {
    let keys = AnyKeys::Int8(PrimitiveArray::from_slice(alloc, keys)?);
    Ok(DictionaryArray::try_from_keys(alloc, keys, values)?.boxed())
}

/// Records of one field.
fn records(alloc: Global, column: AnyArray) -> Result<AnyArray, Error> {
    let data_type = column.data_type().clone(alloc)?;
    let fields = vec![in alloc; Field::new(alloc, "b", data_type, true)?]?;
    let children = vec![in alloc; column]?;
    Ok(StructArray::try_new(DataType::Struct(fields), children, None)?.boxed())
}

/// Two rows: the last of some words and the first; and the last and the first of records of others, which are picked by keys.
fn batch(alloc: Global, letters: &str, picks: &[i8], others: &str) -> Result<Batch, Error> {
    let last = letters.len() as i8 - 1;
    let first = by(alloc, &[last, 0], words(alloc, letters)?)?;
    let inner = by(alloc, picks, words(alloc, others)?)?;
    let last = picks.len() as i8 - 1;
    let second = by(alloc, &[last, 0], records(alloc, inner)?)?;
    let columns = vec![in alloc; first, second]?;
    Ok(Batch { rows: 2, columns })
}

fn schema_of(alloc: Global, batch: &Batch) -> Result<Schema, Error> {
    let mut fields = Vec::new(alloc);
    for column in &batch.columns {
        let data_type = column.data_type().clone(alloc)?;
        fields.push(Field::new(alloc, "a", data_type, true)?)?;
    }
    let metadata = BTreeMap::new(alloc);
    Ok(Schema { fields, metadata })
}

// Words of which the first column has more from batch to batch, and the second picks more.
const EXTENDED: [(&str, &[i8]); 4] = [
    ("a", &[0, 1]),
    ("abc", &[0, 1]),
    ("abc", &[0, 1, 1]),
    ("abcde", &[0, 1, 1, 0]),
];

/// A batch for each of them, over the same others.
fn delta(alloc: Global, others: &str) -> Result<(Schema, Vec<Batch>), Error> {
    let mut batches = Vec::new(alloc);
    for (letters, picks) in EXTENDED {
        batches.push(batch(alloc, letters, picks, others)?)?;
    }
    let schema = schema_of(alloc, &batches[0])?;
    Ok((schema, batches))
}

fn file_to(
    alloc: Global,
    sink: &mut Sink,
    schema: &Schema,
    batches: &[Batch],
) -> Result<(), WriteError> {
    let mut writer = FileWriter::new(alloc, sink, schema)?;
    for batch in batches {
        writer.write(alloc, batch)?;
    }
    writer.finish(alloc)?;
    Ok(())
}

#[test]
fn the_bytes_of_a_file(rt: HostRuntime) {
    let alloc = rt.alloc();
    let (schema, batches) = delta(alloc, "xy").expect(&rt, "batches");
    let bytes = write_file(alloc, &schema, &batches).expect(&rt, "a file");
    for most in [1usize, 7, 1000000] {
        let mut sink = Sink::new(alloc, most, usize::MAX);
        assert!(rt; file_to(alloc, &mut sink, &schema, &batches).is_ok());
        assert!(rt; sink.bytes == bytes);
    }
    let file = read_file(alloc, &bytes).expect(&rt, "a file");
    assert!(rt; file.batches.len() == batches.len());
    for i in 0..batches.len() {
        assert!(rt; same(&file.batches[i], &batches[i]));
    }
}

/// How long a file is with these words in its last batch, after many of the same ones.
fn length_of(alloc: Global, first: &str, last: &str) -> Result<usize, Error> {
    let one = batch(alloc, first, &[0], "x")?;
    let schema = schema_of(alloc, &one)?;
    let other = batch(alloc, last, &[0], "x")?;
    let batches = vec![in alloc; one, other]?;
    let mut sink = Sink::new(alloc, 1000000, usize::MAX);
    match file_to(alloc, &mut sink, &schema, &batches) {
        Ok(()) => Ok(sink.bytes.len()),
        Err(_) => Ok(0),
    }
}

const LONG: &str =
    "abcdefghijklmnopqrstuvwxyzabcdefghijklmnopqrstuvwxyzabcdefghijklmnopqrstuvwxyzabcdefghijklmnopqrstuvwxyz";

const LONGER: &str =
    "abcdefghijklmnopqrstuvwxyzabcdefghijklmnopqrstuvwxyzabcdefghijklmnopqrstuvwxyzabcdefghijklmnopqrstuvwxyz!";

// What is written of a dictionary that grew by one word has the length of that word's message, however many there were.
#[test]
fn what_was_there_is_not_written_again(rt: HostRuntime) {
    let alloc = rt.alloc();
    let few = length_of(alloc, "a", "a").expect(&rt, "a length");
    let few_and_one = length_of(alloc, "a", "ab").expect(&rt, "a length");
    let many = length_of(alloc, LONG, LONG).expect(&rt, "a length");
    let many_and_one = length_of(alloc, LONG, LONGER).expect(&rt, "a length");
    assert!(rt; 0 < few);
    assert!(rt; few < few_and_one);
    assert!(rt; many < many_and_one);
    assert!(rt; many_and_one - many == few_and_one - few);
}

// Whether the writer rejects a batch for its dictionaries, and continues.
fn is_rejected(alloc: Global, writer: &mut FileWriter<&mut Sink>, batch: &Batch) -> bool {
    let before = writer.get_ref().bytes.len();
    let refused = matches!(
        writer.write(alloc, batch),
        Err(WriteError::Ipc(IpcWriteError::DictionaryReplacement))
    );
    refused && !writer.is_failed() && writer.get_ref().bytes.len() == before
}

// Words that do not begin with those that were written.
const CHANGED: [&str; 3] = ["bac", "ab", "xbcd"];

#[test]
fn replacements_are_rejected(rt: HostRuntime) {
    let alloc = rt.alloc();
    let (schema, batches) = delta(alloc, "xy").expect(&rt, "batches");
    let bytes = write_file(alloc, &schema, &batches).expect(&rt, "a file");
    let mut sink = Sink::new(alloc, 9, usize::MAX);
    let mut writer = match FileWriter::new(alloc, &mut sink, &schema) {
        Ok(writer) => writer,
        Err(_) => return assert!(rt; false),
    };
    for i in 0..batches.len() {
        assert!(rt; writer.write(alloc, &batches[i]).is_ok());
        for letters in CHANGED {
            let changed = batch(alloc, letters, &[0, 1, 1, 0], "xy").expect(&rt, "a batch");
            assert!(rt; i == 0 || is_rejected(alloc, &mut writer, &changed));
        }
        let fewer = batch(alloc, "abcde", &[0], "xy").expect(&rt, "a batch");
        assert!(rt; is_rejected(alloc, &mut writer, &fewer));
        let inner = batch(alloc, "abcde", &[0, 1, 1, 0], "yx").expect(&rt, "a batch");
        assert!(rt; is_rejected(alloc, &mut writer, &inner));
    }
    assert!(rt; writer.finish(alloc).is_ok());
    assert!(rt; sink.bytes == bytes);
}

// Where both records and the words that they pick grow, a reader joins the words of both: those that were there, and all as they are
// now. The keys of a record of the last ones would pass 8 bits.
const SEVENTY: &str = "abcdefghijklmnopqrstuvwxyzabcdefghijklmnopqrstuvwxyzabcdefghijklmnopqr";

const MORE: &str = "abcdefghijklmnopqrstuvwxyzabcdefghijklmnopqrstuvwxyzabcdefghijklmnopqrs";

#[test]
fn what_no_reader_could_join(rt: HostRuntime) {
    let alloc = rt.alloc();
    let first = batch(alloc, "ab", &[0, 69], SEVENTY).expect(&rt, "a batch");
    let long = batch(alloc, "abc", &[0, 69, 70], MORE).expect(&rt, "a batch");
    let last = batch(alloc, "abd", &[0, 69, 1], MORE).expect(&rt, "a batch");
    let schema = schema_of(alloc, &first).expect(&rt, "a schema");
    let mut sink = Sink::new(alloc, 1000000, usize::MAX);
    let mut writer = match FileWriter::new(alloc, &mut sink, &schema) {
        Ok(writer) => writer,
        Err(_) => return assert!(rt; false),
    };
    assert!(rt; writer.write(alloc, &first).is_ok());
    // The words c and s come before the record that is rejected, and a reader knows neither of them then.
    assert!(rt; is_rejected(alloc, &mut writer, &long));
    assert!(rt; writer.write(alloc, &last).is_ok());
    assert!(rt; writer.finish(alloc).is_ok());
    let batches = [first, last];
    let bytes = write_file(alloc, &schema, &batches).expect(&rt, "a file");
    assert!(rt; sink.bytes == bytes);
    let file = read_file(alloc, &sink.bytes).expect(&rt, "a file");
    assert!(rt; same(&file.batches[0], &batches[0]));
    assert!(rt; same(&file.batches[1], &batches[1]));
}

// A stream fails at one byte of nine, since each takes a whole run.
const APART: usize = 9;

#[test]
fn a_device_that_fails(rt: HostRuntime) {
    let alloc = rt.alloc();
    let (schema, batches) = delta(alloc, "xy").expect(&rt, "batches");
    let bytes = write_file(alloc, &schema, &batches).expect(&rt, "a file");
    for part in 0..bytes.len() / APART {
        let at = part * APART;
        let mut sink = Sink::new(alloc, 64, at);
        match file_to(alloc, &mut sink, &schema, &batches) {
            Err(WriteError::Io(e)) => assert!(rt; e.kind() == ErrorKind::StorageFull),
            _ => return assert!(rt; false),
        }
        assert!(rt; sink.bytes[..] == bytes[..at]);
    }
}
