//! What is written of batches with dictionaries: the messages of it, a plain model of which of them come, and whether it is read
//! back the same.
use crate::files::{blocks_of, blocks_of_kind};
use crate::stream_text::{read_alike, read_file_alike, slot_text};
use ipc::{Batch, read_file_projected, write_file, write_stream};
use ipc_flatbuf::batch::read_batch;
use ipc_flatbuf::message::{Message, MessageKind, next_message};
use ipc_flatbuf::{IpcReadError, IpcWriteError, i64_field, read_table, u8_field};
use ipc_io::{FileWriter, WriteError};
use ipc_schema::footer::read_footer;
use ipc_schema::{Projection, Schema};
use nest_array::any::AnyArray;
use nest_memory::datatypes::DataType;
use nest_memory::error::Error;
use std::alloc::{AllocError, Global};
use std::collections::BTreeMap;

pub fn unwritten(why: IpcWriteError) -> Error {
    match why {
        IpcWriteError::Memory => Error::Memory(AllocError),
        _ => Error::NotYetImplemented,
    }
}

pub fn unread(failure: IpcReadError) -> Error {
    match failure {
        IpcReadError::Memory => Error::Memory(AllocError),
        _ => Error::Overflow,
    }
}

// A message by a word: `s` a schema, `d0` all values of the id 0, `D0` more of them, `b4` a batch of four rows.
fn write_message(
    text: &mut String,
    alloc: Global,
    message: Message<'_>,
) -> Result<(), IpcReadError> {
    let (root, metadata) = (message.root, message.metadata);
    match root.kind {
        MessageKind::Schema => text.push_str("s ")?,
        MessageKind::DictionaryBatch => {
            let (table, _) = read_table(metadata, root.header, root.left)?;
            let id = i64_field(metadata, table, 0, 0)?;
            let is_delta = u8_field(metadata, table, 2)? > 0;
            write!(text, "{}{id} ", if is_delta { "D" } else { "d" })?;
        }
        MessageKind::RecordBatch => {
            let batch = read_batch(alloc, metadata, root.header, root.left, root.body_length)?;
            write!(text, "b{} ", batch.rows)?;
        }
    }
    Ok(())
}

/// The messages of a stream, or of a file after its mark, a blank after each.
pub fn messages_of(alloc: Global, stream: &[u8]) -> Result<String, IpcReadError> {
    let mut text = String::new(alloc);
    let mut rest = stream;
    for _ in 0..stream.len() {
        let (next, behind) = next_message(rest)?;
        rest = behind;
        match next {
            None => return Ok(text),
            Some(message) => write_message(&mut text, alloc, message)?,
        }
    }
    Ok(text)
}

/// The values that an id had last: their data type, and the text of each slot.
#[derive(Drop)]
struct Last {
    data_type: DataType,
    slots: Vec<String>,
}

fn last_of(alloc: Global, values: &AnyArray) -> Result<Last, Error> {
    let mut slots = Vec::new(alloc);
    for i in 0..values.len() {
        slots.push(slot_text(alloc, values, i).map_err(unread)?)?;
    }
    let data_type = values.data_type().clone(alloc)?;
    Ok(Last { data_type, slots })
}

/// What values are beside those that their id had last.
#[derive(Clone, Copy, PartialEq, Eq)]
enum Step {
    New,
    Same,
    Delta,
    Other,
}

// Values that begin with the last ones are the same or delta.
fn step_of(last: &Last, values: &Last) -> Step {
    let count = last.slots.len();
    if values.slots.len() < count || last.data_type != values.data_type {
        return Step::Other;
    }
    for i in 0..count {
        if last.slots[i] != values.slots[i] {
            return Step::Other;
        }
    }
    if values.slots.len() == count {
        Step::Same
    } else {
        Step::Delta
    }
}

/// The model: what each id had last, the messages of the stream and of the file so far, and whether values came in the index of others,
/// so that there is no file.
#[derive(Drop)]
pub struct Model {
    last: BTreeMap<i64, Last>,
    next: i64,
    pub stream: String,
    messages: String,
    pub replaces: bool,
}

impl Model {
    pub fn new(alloc: Global) -> Result<Model, Error> {
        Ok(Model {
            last: BTreeMap::new(alloc),
            next: 0,
            stream: String::from_str(alloc, "s ")?,
            messages: String::from_str(alloc, "s ")?,
            replaces: false,
        })
    }

    /// The messages of the file, if there is one.
    pub fn file(&self) -> Option<&str> {
        if self.replaces {
            None
        } else {
            Some(self.messages.as_str())
        }
    }

    // Whether values come again: where they are others, or some inside of them do. A file has what they grew by.
    fn note_values(&mut self, alloc: Global, values: &AnyArray) -> Result<bool, Error> {
        let id = self.next;
        self.next += 1;
        let inside = self.note(alloc, values)?;
        let values = last_of(alloc, values)?;
        let step = match self.last.get(&id) {
            None => Step::New,
            Some(last) => step_of(last, &values),
        };
        if step == Step::Same && !inside {
            return Ok(false);
        }
        write!(self.stream, "d{id} ")?;
        match step {
            Step::New => write!(self.messages, "d{id} ")?,
            Step::Delta => write!(self.messages, "D{id} ")?,
            Step::Same => {}
            Step::Other => self.replaces = true,
        }
        self.last.insert(id, values)?;
        Ok(true)
    }

    fn note(&mut self, alloc: Global, array: &AnyArray) -> Result<bool, Error> {
        match array {
            AnyArray::Dictionary(array) => self.note_values(alloc, array.values()),
            AnyArray::List(array) => self.note(alloc, array.values()),
            AnyArray::LargeList(array) => self.note(alloc, array.values()),
            AnyArray::FixedSizeList(array) => self.note(alloc, array.values()),
            AnyArray::Map(array) => self.note(alloc, array.field()),
            AnyArray::Struct(array) => self.note_each(alloc, array.values()),
            AnyArray::Union(array) => self.note_each(alloc, array.fields()),
            _ => Ok(false),
        }
    }

    fn note_each(&mut self, alloc: Global, arrays: &[AnyArray]) -> Result<bool, Error> {
        let mut some = false;
        for array in arrays {
            if self.note(alloc, array)? {
                some = true;
            }
        }
        Ok(some)
    }

    pub fn note_batch(&mut self, alloc: Global, batch: &Batch) -> Result<(), Error> {
        self.next = 0;
        self.note_each(alloc, &batch.columns)?;
        write!(self.stream, "b{} ", batch.rows)?;
        write!(self.messages, "b{} ", batch.rows)?;
        Ok(())
    }
}

/// The model after batches.
pub fn model_of(alloc: Global, batches: &[Batch]) -> Result<Model, Error> {
    let mut model = Model::new(alloc)?;
    for batch in batches {
        model.note_batch(alloc, batch)?;
    }
    Ok(model)
}

/// Whether these are the same rows of the same columns.
pub fn are_same(read: &[Batch], want: &[Batch]) -> bool {
    if read.len() != want.len() {
        return false;
    }
    for i in 0..want.len() {
        let (one, other) = (&read[i], &want[i]);
        if one.rows != other.rows || one.columns.len() != other.columns.len() {
            return false;
        }
        for k in 0..one.columns.len() {
            if one.columns[k] != other.columns[k] {
                return false;
            }
        }
    }
    true
}

/// Whether a stream has this schema and these batches, for both readers.
fn is_stream_of(
    alloc: Global,
    bytes: &[u8],
    schema: &Schema,
    batches: &[Batch],
) -> Result<bool, IpcReadError> {
    let Some(read) = read_alike(alloc, bytes) else {
        return Ok(false);
    };
    let stream = read?;
    Ok(
        stream.read == bytes.len()
            && stream.schema.fields == schema.fields
            && are_same(&stream.batches, batches),
    )
}

/// Whether the footer of a file names all dictionaries and all batches where they lie.
fn names_all(alloc: Global, bytes: &[u8]) -> Result<bool, IpcReadError> {
    let footer = read_footer(alloc, Projection::All, bytes)?;
    let dictionaries = blocks_of_kind(alloc, &bytes[8..], MessageKind::DictionaryBatch)?;
    let batches = blocks_of(alloc, &bytes[8..])?;
    Ok(footer.dictionaries == dictionaries && footer.batches == batches)
}

/// Whether each column of a file is read by itself.
fn is_by_columns(alloc: Global, bytes: &[u8], batches: &[Batch]) -> Result<bool, IpcReadError> {
    let count = match batches.first() {
        None => 0,
        Some(batch) => batch.columns.len(),
    };
    for i in 0..count {
        let file = read_file_projected(alloc, bytes, Projection::Indices(&[i]))?;
        for k in 0..batches.len() {
            if file.batches[k].columns[0] != batches[k].columns[i] {
                return Ok(false);
            }
        }
    }
    Ok(true)
}

/// The same of a file.
fn is_file_of(
    alloc: Global,
    bytes: &[u8],
    schema: &Schema,
    batches: &[Batch],
) -> Result<bool, IpcReadError> {
    let Some(read) = read_file_alike(alloc, bytes) else {
        return Ok(false);
    };
    let file = read?;
    Ok(
        file.schema.fields == schema.fields
            && are_same(&file.batches, batches)
            && is_by_columns(alloc, bytes, batches)?
            && names_all(alloc, bytes)?,
    )
}

/// The file of batches that are written one at a time.
fn file_by_writer(
    alloc: Global,
    schema: &Schema,
    batches: &[Batch],
) -> Result<Vec<u8>, WriteError> {
    let mut writer = FileWriter::new(alloc, Vec::new(alloc), schema)?;
    for batch in batches {
        writer.write(alloc, batch)?;
    }
    writer.finish(alloc)
}

/// Whether a writer has the same file, or the same reason.
fn is_by_writer(
    alloc: Global,
    schema: &Schema,
    batches: &[Batch],
    file: &Result<Vec<u8>, IpcWriteError>,
) -> bool {
    match (file_by_writer(alloc, schema, batches), file) {
        (Ok(one), Ok(other)) => one == *other,
        (Err(WriteError::Ipc(why)), Err(other)) => why == *other,
        _ => false,
    }
}

/// What is written of batches: the messages of the stream, and of the file, or why there is none; and whether each is round-trip, and the
/// file is the same where it is written a batch at a time.
#[derive(Drop)]
pub struct Written {
    pub stream: String,
    pub is_stream: bool,
    pub file: Result<String, IpcWriteError>,
    pub is_file: bool,
}

pub fn written(alloc: Global, schema: &Schema, batches: &[Batch]) -> Result<Written, Error> {
    let bytes = write_stream(alloc, schema, batches).map_err(unwritten)?;
    let stream = messages_of(alloc, &bytes).map_err(unread)?;
    let is_stream = is_stream_of(alloc, &bytes, schema, batches).map_err(unread)?;
    let bytes = write_file(alloc, schema, batches);
    let is_alike = is_by_writer(alloc, schema, batches, &bytes);
    let (file, is_read) = match bytes {
        Err(why) => (Err(why), true),
        Ok(bytes) => (
            Ok(messages_of(alloc, &bytes[8..]).map_err(unread)?),
            is_file_of(alloc, &bytes, schema, batches).map_err(unread)?,
        ),
    };
    Ok(Written {
        stream,
        is_stream,
        file,
        is_file: is_alike && is_read,
    })
}

/// Whether batches are written as these messages of a stream and of a file; without those the file is rejected, since it would have a
/// dictionary twice.
pub fn is_written(written: &Written, stream: &str, file: Option<&str>) -> bool {
    let is_wanted = match (&written.file, file) {
        (Ok(found), Some(want)) => found.as_str() == want,
        (Err(why), None) => *why == IpcWriteError::DictionaryReplacement,
        _ => false,
    };
    is_wanted && written.is_file && written.is_stream && written.stream.as_str() == stream
}

/// The same, and the model has these messages too.
pub fn are_written(
    alloc: Global,
    schema: &Schema,
    batches: &[Batch],
    stream: &str,
    file: Option<&str>,
) -> Result<bool, Error> {
    let model = model_of(alloc, batches)?;
    let found = written(alloc, schema, batches)?;
    Ok(is_written(&found, stream, file) && model.stream.as_str() == stream && model.file() == file)
}
