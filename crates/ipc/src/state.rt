//! The state of a reader between two messages: the projected schema, and the dictionaries read so far.
ghost use Rattle.std.specs.Prelude.{◌≡◌, IfOk, map, OnOk};
ghost use Rattle.nest_array.specs.Seen.{layout_of};
ghost use Rattle.ipc_flatbuf.specs.ReadResults.{ReturnsOrRunsOut};
ghost use Rattle.ipc_schema.specs.ProjectedSchemas.{projected_schema_of};
ghost use Rattle.ipc_arrays.specs.DictionaryKeys.{dictionary_of};
ghost use Rattle.ipc.specs.SliceStreamReaders.{state_in};
ghost use Rattle.ipc.specs.Streams.{start, known_dictionaries_of, known_of, restored, values_at, state_of, with_delta, with_new};

use crate::appendable::appendable_after;
use crate::dictionaries::emitted::insert_clone;
use ipc_flatbuf::IpcReadError;
use ipc_schema::{ProjectedSchema, Projection, read_projected_schema};
use nest_array::any::AnyArray;
use std::alloc::{AllocError, Global};
use std::collections::BTreeMap;

/// The state of a reader between two messages.
///
/// A delta may extend an id only if no dictionary nested in its values was replaced since they were read, as keys in those values would
/// then name other slots. Such ids are called appendable.
#[derive(Drop)]
pub struct DictionaryState {
    /// The projected schema.
    pub picked: ProjectedSchema,
    /// The values of each dictionary read so far, by id.
    pub known: BTreeMap<i64, AnyArray>,
    /// The ids that a delta may extend.
    pub appendable: Vec<i64>,
}

/// The dictionaries of a `DictionaryState`: their values by id, and the appendable ids.
#[derive(Drop)]
pub struct KnownDictionaries {
    known: BTreeMap<i64, AnyArray>,
    appendable: Vec<i64>,
}

// Clones each entry; the clones share their buffers.
fn clone_entries(
    alloc: Global,
    known: &BTreeMap<i64, AnyArray>,
) -> Result<BTreeMap<i64, AnyArray>, AllocError>
    ensures { IfOk result (λ copy. known_of copy.entries ≡ known_of known.now.entries) }
{
    let mut copy = BTreeMap::new(alloc);
    for (id, values) in known.iter() {
        insert_clone(alloc, &mut copy, *id, values)?;
    }
    Ok(copy)
}

impl DictionaryState {
    /// Returns the state after a schema: no dictionary was read.
    pub fn new(alloc: Global, picked: ProjectedSchema) -> DictionaryState
        ensures { state_of result ≡ start (projected_schema_of picked) }
    {
        DictionaryState {
            picked,
            known: BTreeMap::new(alloc),
            appendable: Vec::new(alloc),
        }
    }

    /// Reads the schema message at the start of `bytes` and returns the state after it, with all columns.
    ///
    /// # Errors
    /// The first error of the message, or `Memory`.
    pub fn read(alloc: Global, bytes: &[u8]) -> Result<DictionaryState, IpcReadError>
        ensures { ReturnsOrRunsOut state_of result (state_in bytes.now) }
    {
        let (picked, _) = read_projected_schema(alloc, Projection::All, bytes)?;
        Ok(DictionaryState::new(alloc, picked))
    }

    /// Returns a clone of the dictionaries, which shares their buffers; `restore` puts it back.
    ///
    /// # Errors
    /// `AllocError`, where an allocation fails.
    pub fn dictionaries(&self, alloc: Global) -> Result<KnownDictionaries, AllocError>
        ensures { IfOk result (λ d. known_dictionaries_of d ≡ ((state_of self.now).known, (state_of self.now).appendable)) }
    {
        let known = clone_entries(alloc, &self.known)?;
        let mut appendable = Vec::new(alloc);
        appendable.extend_from_slice(&self.appendable)?;
        Ok(KnownDictionaries { known, appendable })
    }

    /// Replaces the dictionaries by those of an earlier call of `dictionaries`.
    pub fn restore(&mut self, dictionaries: KnownDictionaries)
        ensures picked { self.new.picked ≡ self.old.picked }
        ensures known { state_of self.new ≡ record { picked = (state_of self.old).picked; known = (known_dictionaries_of dictionaries).0; appendable = (known_dictionaries_of dictionaries).1 } }
    {
        let KnownDictionaries { known, appendable } = dictionaries;
        self.known = known;
        self.appendable = appendable;
    }

    /// Replaces the dictionaries by those before a change, if there was one.
    pub fn undo(&mut self, before: Option<KnownDictionaries>)
        ensures picked { self.new.picked ≡ self.old.picked }
        ensures known { state_of self.new ≡ restored before (state_of self.old) }
    {
        if let Some(dictionaries) = before {
            self.restore(dictionaries);
        }
    }

    /// Sets the values of an id: a new or replacement dictionary.
    pub(crate) fn insert(
        &mut self,
        alloc: Global,
        id: i64,
        values: AnyArray,
    ) -> Result<(), AllocError>
        ensures picked { self.new.picked ≡ self.old.picked }
        ensures known { OnOk result (state_of self.new ≡ with_new (state_of self.old) id (layout_of values)) }
    {
        self.known.insert(id, values)?;
        let appendable = appendable_after(alloc, &self.picked, id, &self.appendable)?;
        self.appendable = appendable;
        Ok(())
    }

    /// Sets the values of an id to these, which extend the ones it had: a delta dictionary.
    pub(crate) fn insert_delta(&mut self, id: i64, values: AnyArray) -> Result<(), AllocError>
        ensures picked { self.new.picked ≡ self.old.picked }
        ensures known { OnOk result (state_of self.new ≡ with_delta (state_of self.old) id (layout_of values)) }
    {
        self.known.insert(id, values)?;
        Ok(())
    }
}

/// Returns the values of each of these ids, or `None` for an id that was not read.
pub(crate) fn values_of<'a>(
    alloc: Global,
    known: &'a BTreeMap<i64, AnyArray>,
    ids: &[i64],
) -> Result<Vec<Option<&'a AnyArray>>, AllocError>
    ensures { IfOk result (λ v. map dictionary_of v.items ≡ values_at (known_of known.now.entries) ids.now) }
{
    let mut values = Vec::with_capacity(alloc, ids.len())?;
    for id in ids {
        values.push_reserved(known.get(id));
    }
    Ok(values)
}
