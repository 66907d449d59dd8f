//! The builder of fixed-size list arrays over any builder of the items.
ghost use Rattle.std.specs.Prelude.{◌≡◌, ◌≢◌, ◌<◌, ◌⊎◌, ◌↔◌, [], true, OnOk, OnErr, IfOk, IfErr, IsErrOf, IsOkUnless, MatchOption, ◌+◌, ◌*◌, Some, length, alloc_error};
ghost use Rattle.std.specs.Borrow.{sem, Lends};
ghost use Rattle.nest_memory.specs.TypeTree as types;
ghost use Rattle.nest_memory.specs.TypeTree.{field};
ghost use Rattle.nest_memory.specs.declared.datatypes.physical_type.PhysicalType.TheVariants as physical;
ghost use Rattle.nest_model.specs.BuilderTree as builders;
ghost use Rattle.nest_build.specs.Lists.{RefusesFixed, new_fixed_checks, no_fixed_lists};
ghost use Rattle.nest_build.specs.Words.{CanReadList, ChildNotEmpty, FailFirst, HasCompleteChildren, InvalidArgumentError, IsComplete, Memory, OutOfSpec, Pass, ReadsList, RowAdded, Incomplete, ZeroSize, builder_len, builder_type, default_field, emptied, item_type, largest_length, layout_of, layout_type, len, list_child, own_slots, physical_type, row_checks, rows_of_size, size_of, slots_of, type_of};

use crate::array::{MutableArray, shared};
use crate::child::{OverChild, frozen_parts, has_items, same_types};
use crate::fixed_size_list::data_type::FixedType;
use crate::fixed_size_list::rows::FixedRows;
use crate::push::{TryExtend, TryExtendFromSelf, TryPush, extend_by_push, extend_nulls};
use nest_array::{AnyArray, FixedSizeListArray};
use nest_flat::plain::Plain;
use nest_memory::bitmap::mutable::MutableBitmap;
use nest_memory::datatypes::DataType;
use nest_memory::datatypes::field::Field;
use nest_memory::error::{ArgumentError, Error};
use std::alloc::Global;
use std::rc::Rc;

/// A builder of fixed-size list arrays over a builder of the items: arrow2's `MutableFixedSizeListArray`. Items pushed
/// into the child are pending until a row of them is added.
#[derive(Drop)]
pub struct MutableFixedSizeListArray<M> {
    data_type: FixedType,
    rows: FixedRows,
    values: M,
    alloc: Global,
}

impl<M: MutableArray> MutableFixedSizeListArray<M> {
    ghost use Rattle.nest_build.specs.contracts.fixed_size_list.mutable.MutableFixedSizeListArray.{the_row};

    /// Returns a builder without rows over an empty child. The items are named "item" and nullable.
    ///
    /// # Errors
    /// `ChildNotEmpty` if the child has rows, then `ZeroSize` if `size` is 0; `Memory` if an allocation fails.
    pub fn new(alloc: Global, values: M, size: usize) -> Result<MutableFixedSizeListArray<M>, Error>
        requires { IsComplete (M.model values) }
        ensures ok { IfOk result (λ b. ⟦<MutableFixedSizeListArray<M> as MutableArray>⟧.model b ≡ no_fixed_lists (default_field (builder_type (M.model values))) size (M.model values)) }
        ensures passed { IfOk result (λ b. (builder_len (M.model values) ≡ 0) × (0 < size)) }
        ensures cause { IfErr result (RefusesFixed size (M.model values)) }
    {
        MutableFixedSizeListArray::new_with_field(alloc, values, "item", true, size)
    }

    /// As `new`, with the name and the nullability of the items.
    ///
    /// # Errors
    /// As `new`.
    pub fn new_with_field(
        alloc: Global,
        values: M,
        name: &str,
        nullable: bool,
        size: usize,
    ) -> Result<MutableFixedSizeListArray<M>, Error>
        requires { IsComplete (M.model values) }
        ensures ok { IfOk result (λ b. ⟦<MutableFixedSizeListArray<M> as MutableArray>⟧.model b ≡ no_fixed_lists (field name.now (builder_type (M.model values)) nullable []) size (M.model values)) }
        ensures passed { IfOk result (λ b. (builder_len (M.model values) ≡ 0) × (0 < size)) }
        ensures cause { IfErr result (RefusesFixed size (M.model values)) }
    {
        if !values.is_empty() {
            return Err(Error::InvalidArgumentError(ArgumentError::ChildNotEmpty));
        }
        let items = values.data_type().clone(alloc)?;
        let items = Field::new(alloc, name, items, nullable)?;
        match FixedType::of_field(alloc, items, size) {
            Ok(data_type) => Ok(MutableFixedSizeListArray::over(alloc, data_type, values)),
            Err(error) => Err(error),
        }
    }

    /// Returns a builder without rows of a data type, over an empty child.
    ///
    /// # Errors
    /// The first of: `ChildNotEmpty` if the child has rows; `WrongType` if the physical type is not a list of `size`
    /// items; `ZeroSize` if `size` is 0; `ChildType` if the types of the child and of its field differ.
    pub fn new_from(
        alloc: Global,
        values: M,
        data_type: DataType,
        size: usize,
    ) -> Result<MutableFixedSizeListArray<M>, Error>
        requires { IsComplete (M.model values) }
        ensures ok { IfOk result (λ b. ⟦<MutableFixedSizeListArray<M> as MutableArray>⟧.model b ≡ builders.fixed_size_list (type_of data_type) [] (M.model values)) }
        ensures passed { IfOk result (λ b. Pass (new_fixed_checks size (type_of data_type) (M.model values))) }
        ensures cause { IfErr result (λ e. FailFirst e (new_fixed_checks size (type_of data_type) (M.model values))) }
    {
        if !values.is_empty() {
            drop(data_type);
            return Err(Error::InvalidArgumentError(ArgumentError::ChildNotEmpty));
        }
        match FixedType::of_type(data_type, values.data_type(), size) {
            Ok(data_type) => Ok(MutableFixedSizeListArray::over(alloc, data_type, values)),
            Err(error) => Err(error),
        }
    }

    // A builder without rows over a child.
    fn over(alloc: Global, data_type: FixedType, values: M) -> MutableFixedSizeListArray<M>
        ensures { ⟦<MutableFixedSizeListArray<M> as MutableArray>⟧.model result ≡ builders.fixed_size_list data_type [] (M.model values) }
    {
        MutableFixedSizeListArray {
            data_type,
            rows: FixedRows::new(alloc),
            values,
            alloc,
        }
    }

    /// Returns the number of items per row.
    pub fn size(&self) -> usize
        ensures value { result ≡ size_of (builder_type (⟦<MutableFixedSizeListArray<M> as MutableArray>⟧.model self.now)) }
        ensures some { 0 < result }
    {
        self.data_type.size()
    }

    /// Returns the child.
    pub fn values(&self) -> &M
        ensures { M.model result.now ≡ list_child (⟦<MutableFixedSizeListArray<M> as MutableArray>⟧.model self.now) }
    {
        &self.values
    }

    /// Returns the child, to push the items of a row before the row is added. The builder keeps what is left in the
    /// child.
    pub fn mut_values(&mut self) -> &mut M
        ensures* writes_back { sem 𝓛 (Lends (the_row M.row) M.row self.entry result (λ v. ⟦<MutableFixedSizeListArray<M> as OverChild>⟧.over self.entry.now v)) }
        ensures value { M.model result.now ≡ list_child (⟦<MutableFixedSizeListArray<M> as MutableArray>⟧.model self.old) }
    {
        &mut self.values
    }

    /// Appends a valid row of the pending items.
    ///
    /// # Errors
    /// `Incomplete` if the child has another type or fewer items are pending than a row has; then `ItemSize` if more
    /// are; `Memory` if an allocation fails. After an error no row is added and the items stay pending.
    pub fn try_push_valid(&mut self) -> Result<(), Error>
        requires { HasCompleteChildren (⟦<MutableFixedSizeListArray<M> as MutableArray>⟧.model self.old) }
        ensures ok { let tree = ⟦<MutableFixedSizeListArray<M> as MutableArray>⟧.model in OnOk result (RowAdded true (tree self.old) (tree self.new)) }
        ensures passed { OnOk result (Pass (row_checks (⟦<MutableFixedSizeListArray<M> as MutableArray>⟧.model self.old))) }
        ensures err { let tree = ⟦<MutableFixedSizeListArray<M> as MutableArray>⟧.model in OnErr result (tree self.new ≡ tree self.old) }
        ensures cause { IfErr result (λ e. (e ≡ Memory alloc_error) ⊎ FailFirst e (row_checks (⟦<MutableFixedSizeListArray<M> as MutableArray>⟧.model self.old))) }
    {
        let items = self.values.len();
        let typed = has_items(self.data_type.get(), self.values.data_type());
        let _size = self.data_type.size();
        let Some(end) = self.end_of_next() else {
            return Err(Error::InvalidArgumentError(ArgumentError::Incomplete));
        };
        if !typed || items < end {
            return Err(Error::InvalidArgumentError(ArgumentError::Incomplete));
        }
        if items > end {
            return Err(Error::InvalidArgumentError(ArgumentError::ItemSize));
        }
        self.rows.push(true)
    }

    // The number of items of the rows and one more, `None` if no length can be as large.
    fn end_of_next(&self) -> Option<usize>
        ensures { let end = (length self.now.rows + 1) * size_of self.now.data_type in MatchOption result
            (largest_length < end)
            (λ n. n ≡ end) }
    {
        let size = self.data_type.size();
        match self.rows.len().checked_add(1) {
            Some(rows) => rows.checked_mul(size),
            None => None,
        }
    }

    /// Appends a valid row of the pending items, as `try_push_valid`.
    ///
    /// # Errors
    /// As `try_push_valid`.
    pub fn push_valid(&mut self) -> Result<(), Error>
        requires { HasCompleteChildren (⟦<MutableFixedSizeListArray<M> as MutableArray>⟧.model self.old) }
        ensures ok { let tree = ⟦<MutableFixedSizeListArray<M> as MutableArray>⟧.model in OnOk result (RowAdded true (tree self.old) (tree self.new)) }
        ensures passed { OnOk result (Pass (row_checks (⟦<MutableFixedSizeListArray<M> as MutableArray>⟧.model self.old))) }
        ensures err { let tree = ⟦<MutableFixedSizeListArray<M> as MutableArray>⟧.model in OnErr result (tree self.new ≡ tree self.old) }
        ensures cause { IfErr result (λ e. (e ≡ Memory alloc_error) ⊎ FailFirst e (row_checks (⟦<MutableFixedSizeListArray<M> as MutableArray>⟧.model self.old))) }
    {
        self.try_push_valid()
    }

    /// Freezes the builder: returns the array of its rows. The builder keeps its data type; all its levels are empty
    /// and without validity afterwards, also after `Memory`.
    ///
    /// # Errors
    /// `Incomplete` if the builder is not complete; then nothing changes. `Memory` if an allocation fails.
    pub fn freeze(&mut self) -> Result<FixedSizeListArray, Error>
        ensures slots { IfOk result (λ a. slots_of a ≡ own_slots (⟦<MutableFixedSizeListArray<M> as MutableArray>⟧.model self.old)) }
        ensures same_type { IfOk result (λ a. layout_type a ≡ builder_type (⟦<MutableFixedSizeListArray<M> as MutableArray>⟧.model self.old)) }
        ensures incomplete { IsErrOf result (InvalidArgumentError Incomplete) ↔ ¬ IsComplete (⟦<MutableFixedSizeListArray<M> as MutableArray>⟧.model self.old) }
        ensures unchanged { let tree = ⟦<MutableFixedSizeListArray<M> as MutableArray>⟧.model in ¬ IsComplete (tree self.old) → tree self.new ≡ tree self.old }
        ensures emptied { let tree = ⟦<MutableFixedSizeListArray<M> as MutableArray>⟧.model in IsComplete (tree self.old) → tree self.new ≡ emptied (tree self.old) }
        ensures validity { IsComplete (⟦<MutableFixedSizeListArray<M> as MutableArray>⟧.model self.old) → ⟦<MutableFixedSizeListArray<M> as MutableArray>⟧.bare self.new }
        ensures errors { IfErr result (λ e. (e ≡ InvalidArgumentError Incomplete) ⊎ (e ≡ Memory alloc_error)) }
    {
        if !self.is_complete() {
            return Err(Error::InvalidArgumentError(ArgumentError::Incomplete));
        }
        let _size = self.data_type.size();
        match frozen_parts(self.alloc, self.data_type.get(), &mut self.values) {
            Ok((data_type, values)) => freeze_over(self.alloc, data_type, &mut self.rows, values),
            Err(error) => {
                self.rows.clear();
                Err(error)
            }
        }
    }
}

/// Returns the array of rows over their items. No rows and no validity are left, also after `Memory`.
pub fn freeze_over(
    alloc: Global,
    data_type: DataType,
    rows: &mut FixedRows,
    values: AnyArray,
) -> Result<FixedSizeListArray, Error>
    requires lists { physical_type (type_of data_type) ≡ physical.FixedSizeList }
    requires some { 0 < size_of (type_of data_type) }
    requires items { item_type (type_of data_type) ≡ Some (layout_type (layout_of values)) }
    requires covers { len (layout_of values) ≡ length rows.old * size_of (type_of data_type) }
    ensures slots { IfOk result (λ a. slots_of a ≡ rows_of_size 0 (size_of (type_of data_type)) rows.old (slots_of (layout_of values))) }
    ensures same_type { IfOk result (λ a. layout_type a ≡ type_of data_type) }
    ensures emptied { rows.new ≡ [] }
    ensures memory { IsOkUnless result (Memory alloc_error) }
{
    match rows.freeze() {
        Ok((_rows, validity)) => FixedSizeListArray::new(alloc, data_type, values, validity),
        Err(error) => {
            drop(values);
            drop(data_type);
            Err(error)
        }
    }
}

impl<M: MutableArray> OverChild for MutableFixedSizeListArray<M> {
    type Child = M;

    ghost over = { λ b c. record b { values = c } };

    ghost use Rattle.std.proofs.Common.{refl};

    ghost over_items = { λ _ _. refl };
}

impl<M: MutableArray> MutableArray for MutableFixedSizeListArray<M> {
    ghost model = { λ b. builders.fixed_size_list b.data_type b.rows (M.model b.values) };

    ghost bare = { λ b. b.rows ≡ [] };

    fn data_type(&self) -> &DataType {
        self.data_type.get()
    }

    fn len(&self) -> usize {
        self.rows.len()
    }

    fn is_empty(&self) -> bool {
        self.rows.len() == 0
    }

    fn validity(&self) -> Option<&MutableBitmap> {
        self.rows.validity()
    }

    fn is_valid(&self, i: usize) -> bool {
        self.rows.is_valid(i)
    }

    fn is_complete(&self) -> bool {
        let items = self.values.len();
        let size = self.data_type.size();
        match self.rows.len().checked_mul(size) {
            None => false,
            Some(end) => {
                self.values.is_complete()
                    && has_items(self.data_type.get(), self.values.data_type())
                    && items == end
            }
        }
    }

    fn holds(&self, _i: usize, _value: &Plain<'_>) -> bool {
        false
    }

    fn push_null(&mut self) -> Result<(), Error> {
        let len = self.values.len();
        if let Err(refusal) = extend_nulls(&mut self.values, self.data_type.size()) {
            return Err(refusal);
        }
        let _end = self.values.len();
        match self.rows.push(false) {
            Ok(()) => Ok(()),
            Err(error) => {
                self.values.truncate(len);
                Err(error)
            }
        }
    }

    fn try_push_plain(&mut self, value: Option<Plain<'_>>) -> Result<(), Error> {
        match value {
            None => self.push_null(),
            Some(_) => Err(Error::InvalidArgumentError(ArgumentError::ItemType)),
        }
    }

    fn truncate(&mut self, n: usize) {
        let _items = self.values.len();
        self.values.truncate(n * self.data_type.size());
        self.rows.truncate(n)
    }

    fn reserve(&mut self, additional: usize) -> Result<(), Error> {
        let Some(items) = additional.checked_mul(self.data_type.size()) else {
            return Err(Error::Overflow);
        };
        if let Err(refusal) = self.values.reserve(items) {
            return Err(refusal);
        }
        self.rows.reserve(additional)
    }

    fn shrink_to_fit(&mut self) -> Result<(), Error> {
        self.rows.shrink_to_fit();
        self.values.shrink_to_fit()
    }

    fn as_box(&mut self) -> Result<AnyArray, Error> {
        match self.freeze() {
            Ok(lists) => Ok(lists.boxed()),
            Err(error) => Err(error),
        }
    }

    fn as_arc(&mut self, alloc: Global) -> Result<Rc<AnyArray>, Error> {
        shared(self.as_box(), alloc)
    }
}

impl<M: TryExtend<Option<T>>, I: IntoIterator<Item = Option<T>>, T> TryPush<Option<I>>
    for MutableFixedSizeListArray<M> {
    ghost can_push = { CanReadList (record { becomes = I.into_iter_gives; can = I.IntoIter.can_next; left = I.IntoIter.remaining; steps = I.IntoIter.next_gives }) M.can_extend };

    ghost reads = { ReadsList (record { becomes = I.into_iter_gives; steps = I.IntoIter.next_gives; reads = M.reads_each }) };

    fn try_push(&mut self, item: Option<I>) -> Result<(), Error> {
        match item {
            None => self.push_null(),
            Some(items) => {
                let len = self.values.len();
                if let Err(refusal) = self.values.try_extend(items) {
                    return Err(refusal);
                }
                let end = self.values.len();
                let size = self.data_type.size();
                if end - len != size {
                    self.values.truncate(len);
                    return Err(Error::InvalidArgumentError(ArgumentError::ItemSize));
                }
                match self.rows.push(true) {
                    Ok(()) => Ok(()),
                    Err(error) => {
                        self.values.truncate(len);
                        Err(error)
                    }
                }
            }
        }
    }
}

impl<M: TryExtend<Option<T>>, I: IntoIterator<Item = Option<T>>, T> TryExtend<Option<I>>
    for MutableFixedSizeListArray<M> {
    ghost can_extend = { CanReadList (record { becomes = I.into_iter_gives; can = I.IntoIter.can_next; left = I.IntoIter.remaining; steps = I.IntoIter.next_gives }) M.can_extend };

    ghost reads_each = { ReadsList (record { becomes = I.into_iter_gives; steps = I.IntoIter.next_gives; reads = M.reads_each }) };

    fn try_extend<U: IntoIterator<Item = Option<I>>>(&mut self, items: U) -> Result<(), Error> {
        extend_by_push(self, items)
    }
}

impl<M: TryExtendFromSelf> TryExtendFromSelf for MutableFixedSizeListArray<M> {
    fn try_extend_from_self(&mut self, other: &MutableFixedSizeListArray<M>) -> Result<(), Error> {
        if !same_types(self.data_type.get(), other.data_type.get()) {
            return Err(Error::InvalidArgumentError(ArgumentError::ItemType));
        }
        let len = self.values.len();
        let _size = self.data_type.size();
        if let Err(refusal) = self.values.try_extend_from_self(&other.values) {
            return Err(refusal);
        }
        let _end = self.values.len();
        match self.rows.append(&other.rows) {
            Ok(()) => Ok(()),
            Err(error) => {
                self.values.truncate(len);
                Err(error)
            }
        }
    }
}
