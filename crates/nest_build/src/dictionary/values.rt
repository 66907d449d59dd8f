//! The values of a dictionary builder.
ghost use Rattle.std.specs.Prelude.{◌≡◌, ◌≤◌, ◌<◌, ◌⊎◌, ◌↔◌, false, IfOk, IfErr, IsErrOf, IsOkUnless, IsTrue, MatchOption, None, OnErr, OnOk, Some, alloc_error};
ghost use Rattle.nest_model.specs.BuilderItem.{Lacks, IsValueAt, plain, takes};
ghost use Rattle.nest_build.specs.Hashes.{value_hash};
ghost use Rattle.nest_build.specs.Keyed.{AreKeyed};
ghost use Rattle.nest_build.specs.Words.{Accepted, Holds, InvalidArgumentError, IsComplete, ItemType, Memory, builder_len, builder_type, truncate_builder, emptied, layout_of, layout_type, own_slots, plain_refusal, plain_value, slots_of, type_of};

use crate::array::MutableArray;
use crate::child::frozen_parts;
use crate::dictionary::table::KeyTable;
use nest_array::AnyArray;
use nest_flat::plain::Plain;
use nest_memory::datatypes::DataType;
use nest_memory::error::Error;
use std::alloc::Global;

/// Pairwise different values, over a builder of them.
#[derive(Drop)]
pub(super) struct KeyedValues<M: MutableArray> {
    values: M,
    // the hash of each value
    table: KeyTable,
    ghost keyed: { AreKeyed table (M.model values) },
}

impl<M: MutableArray> KeyedValues<M> {
    /// Returns no values, over an empty builder.
    pub(super) fn new(alloc: Global, values: M) -> KeyedValues<M>
        requires { builder_len (M.model values) ≡ 0 }
        ensures { M.model result.values ≡ M.model values }
    {
        KeyedValues {
            values,
            table: KeyTable::new(alloc),
        }
    }

    /// Returns the builder of the values.
    pub(super) fn get(&self) -> &M
        ensures { M.model result.now ≡ M.model self.now.values }
    {
        &self.values
    }

    /// Returns the index of a value with this hash.
    pub(super) fn find(&self, value: &Plain<'_>, hash: u64) -> Option<usize>
        requires { hash ≡ value_hash (plain_value value.now) }
        ensures { MatchOption result (Lacks (M.model self.now.values) (plain_value value.now)) (IsValueAt (M.model self.now.values) (plain_value value.now)) }
    {
        let values = &self.values;
        self.table.find(
            hash,
            |k: usize| -> bool
                requires { k < builder_len (M.model values.now) }
                ensures { IsTrue result ↔ Holds (M.model values.entry.now) k (plain_value value.entry.now) }
            { values.holds(k, value) },
        )
    }

    /// Appends a new value with its hash.
    ///
    /// # Errors
    /// The errors of the builder of the values; then no value is added.
    pub(super) fn push(&mut self, value: Plain<'_>, hash: u64) -> Result<(), Error>
        requires hash { hash ≡ value_hash (plain_value value) }
        requires complete { IsComplete (M.model self.old.values) }
        requires unknown { Lacks (M.model self.old.values) (plain_value value) }
        ensures accepted { OnOk result (Accepted (plain (plain_value value.entry)) (M.model self.old.values) (M.model self.new.values)) }
        ensures unrefused { OnOk result (plain_refusal (plain_value value.entry) (M.model self.old.values) ≡ None) }
        ensures err { OnErr result (M.model self.new.values ≡ M.model self.old.values) }
        ensures kind { IsErrOf result (InvalidArgumentError ItemType) ↔ (takes (M.model self.old.values) (plain_value value.entry) ≡ false) }
        ensures cause { IfErr result (λ e. (e ≡ Memory alloc_error) ⊎ (plain_refusal (plain_value value.entry) (M.model self.old.values) ≡ Some e)) }
    {
        let count = self.values.len();
        if let Err(refusal) = self.values.try_push_plain(Some(value)) {
            return Err(refusal);
        }
        match self.table.push(hash) {
            Ok(()) => Ok(()),
            Err(error) => {
                self.values.truncate(count);
                Err(error)
            }
        }
    }

    /// Keeps the first `n` values. Does not allocate.
    pub(super) fn truncate(&mut self, n: usize)
        requires complete { IsComplete (M.model self.old.values) }
        requires within { n ≤ builder_len (M.model self.old.values) }
        ensures { M.model self.new.values ≡ truncate_builder (M.model self.old.values) n }
    {
        self.table.truncate(n);
        self.values.truncate(n);
    }

    /// Returns the array of the values. `data_type` is the type of their dictionary. No values are left, also after
    /// `Memory`.
    ///
    /// # Errors
    /// `Memory` if an allocation fails.
    pub(super) fn freeze(
        &mut self,
        alloc: Global,
        data_type: &DataType,
    ) -> Result<(DataType, AnyArray), Error>
        requires { IsComplete (M.model self.old.values) }
        ensures same_type { IfOk result (λ parts. type_of parts.0 ≡ type_of data_type.now) }
        ensures slots { IfOk result (λ parts. slots_of (layout_of parts.1) ≡ own_slots (M.model self.old.values)) }
        ensures child_type { IfOk result (λ parts. layout_type (layout_of parts.1) ≡ builder_type (M.model self.old.values)) }
        ensures emptied { M.model self.new.values ≡ emptied (M.model self.old.values) }
        ensures memory { IsOkUnless result (Memory alloc_error) }
    {
        self.table.clear();
        frozen_parts(alloc, data_type, &mut self.values)
    }

    /// Shrinks the capacity to the values as far as the allocator can.
    ///
    /// # Errors
    /// `Memory` if an allocation fails.
    pub(super) fn shrink_to_fit(&mut self) -> Result<(), Error>
        ensures same { M.model self.new.values ≡ M.model self.old.values }
        ensures memory { IsOkUnless result (Memory alloc_error) }
    {
        self.values.shrink_to_fit()
    }
}
