//! The builder of struct arrays.
ghost use Rattle.std.specs.Prelude.{◌≡◌, ◌≢◌, ◌≤◌, ◌<◌, ◌+◌, ◌↔◌, ◌⊎◌, Bool, List, ℕ, IsNone, IsTrue, OnOk, OnErr, IfOk, IfErr, IfSome, IsErrOf, IsOkUnless, MatchResult, MatchOption, None, Some, true, false, not, option_map, alloc_error};
ghost use Rattle.std.specs.List.{count_by};
ghost use Rattle.nest_memory.specs.TypeTree.{count_fields, fields_of};
ghost use Rattle.nest_memory.specs.declared.datatypes.physical_type.PhysicalType.TheVariants as physical;
ghost use Rattle.nest_model.specs.BuilderTree as builders;
ghost use Rattle.nest_model.specs.Slot as slots;
ghost use Rattle.nest_any.specs.Refusals.{struct_over};
ghost use Rattle.nest_any.specs.Trees.{tree_of, trees_of};
ghost use Rattle.nest_any.specs.Words.{AreEachComplete, FailFirst, HasCompleteChildren, InvalidArgumentError, IsFrozenAs, IsComplete, Memory, Overflow, Pass, EncodesBits, ShowsNulls, RowAdded, Incomplete, ValidityFits, encoded_bits, builder_len, builder_type, count_builders, truncate_builder, emptied, first_rows, largest_length, layout_of, layout_type, layouts_of, null_count, nulls_appended, nulls_pass, own_slot, own_slots, physical_type, reserve_passes, row_checks, slots_of, struct_bits, struct_checks, struct_children, type_of, validity_of};

use crate::any::AnyMutableArray;
use crate::children::{
    add_null_each, are_complete, are_ready, cut_each, each_is_complete, first_rows, frozen_each,
    have_rows, have_types, room_each, shrink_each,
};
use crate::struct_type::StructType;
use nest_array::array::ArrayVariant;
use nest_array::{AnyArray, StructArray};
use nest_build::array::{MutableArray, shared};
use nest_build::fixed_size_list::FixedRows;
use nest_build::list::rows::has_bits;
use nest_flat::plain::Plain;
use nest_memory::bitmap::immutable::Bitmap;
use nest_memory::bitmap::mutable::MutableBitmap;
use nest_memory::datatypes::DataType;
use nest_memory::datatypes::physical_type::PhysicalType;
use nest_memory::error::{ArgumentError, Error, SpecError};
use std::alloc::Global;
use std::marker::Model;
use std::rc::Rc;

/// A builder of struct arrays, with one child per field: arrow2's `MutableStructArray`. Values pushed into the children
/// are pending until a row of them is added.
#[cycle(builder)]
#[derive(Drop)]
pub struct MutableStructArray {
    data_type: StructType,
    rows: FixedRows,
    values: Vec<AnyMutableArray>,
    alloc: Global,
}

impl Model for MutableStructArray {
    ghost use Rattle.nest_model.specs.BuilderTree.{BuilderTree};
    ghost use Rattle.nest_any.specs.BuilderCode.{coded_builder, weight};

    ghost Value = { BuilderTree };

    ghost coded = { coded_builder };

    ghost use Rattle.nest_any.specs.SeenStruct.{struct_seen};

    ghost view = { struct_seen };

    ghost size = { weight };

    ghost use Rattle.std.proofs.Common.{arith};
    ghost use Rattle.nest_any.specs.Falls.{most-size};

    ghost size_decreases = { λ a h. Prim.omega (arith, most-size a.values.items) };
}

impl MutableStructArray {
    ghost use Rattle.std.specs.Borrow.{Array, Lends, LendsIf, sem};
    ghost use Rattle.nest_any.specs.contracts.struct_.MutableStructArray.{the_row};
    ghost use Rattle.nest_any.specs.contracts.any.AnyMutableArray.{the_row as any_row};
    ghost use Rattle.nest_any.specs.Lent.{builder_at, child_builder, with_children, with_field};

    /// Returns the builder of these parts. It has as many rows as the children.
    ///
    /// # Errors
    /// The first of:
    /// - `WrongType` if the physical type is not `Struct`;
    /// - `NoFields` if it has no fields;
    /// - `FieldCount` if the numbers of children and of fields differ;
    /// - `ChildType` if the types of a child and of its field differ;
    /// - `ChildLength` if a child has another number of rows than the first;
    /// - `ValidityLength` if there is not one validity bit per row.
    pub fn try_new(
        alloc: Global,
        data_type: DataType,
        values: Vec<AnyMutableArray>,
        validity: Option<MutableBitmap>,
    ) -> Result<MutableStructArray, Error>
        requires { AreEachComplete (trees_of values.items) }
        ensures { let t = type_of data_type in let cs = trees_of values.items in
            let all = struct_checks t cs validity in
            MatchResult result (λ b. Pass all × (b ≡ struct_over t cs validity)) (λ e. FailFirst e all) }
    {
        if let Some(error) = first_error(&data_type, &values, &validity) {
            drop(validity);
            drop(values);
            drop(data_type);
            return Err(error);
        }
        Ok(MutableStructArray::of(alloc, data_type, values, validity))
    }

    /// Returns the builder of parts that pass the checks of `try_new`, with all rows valid.
    pub fn new(
        alloc: Global,
        data_type: DataType,
        values: Vec<AnyMutableArray>,
    ) -> MutableStructArray
        requires complete { AreEachComplete (trees_of values.items) }
        requires fit { Pass (struct_checks (type_of data_type) (trees_of values.items) None) }
        ensures { result ≡ builders.struct (type_of data_type) (encoded_bits (first_rows (trees_of values.items)) None) (trees_of values.items) }
    {
        MutableStructArray::of(alloc, data_type, values, None)
    }

    // The builder of valid parts.
    fn of(
        alloc: Global,
        data_type: DataType,
        values: Vec<AnyMutableArray>,
        validity: Option<MutableBitmap>,
    ) -> MutableStructArray
        requires { Pass (struct_checks (type_of data_type) (trees_of values.items) validity) }
        ensures { result ≡ builders.struct (type_of data_type) (encoded_bits (first_rows (trees_of values.items)) validity) (trees_of values.items) }
    {
        let count = first_rows(&values);
        MutableStructArray {
            data_type: StructType::new(data_type),
            rows: FixedRows::of(alloc, count, validity),
            values,
            alloc,
        }
    }

    /// Returns the data type, the children and the validity.
    pub fn into_inner(self) -> (DataType, Vec<AnyMutableArray>, Option<MutableBitmap>)
        ensures same_type { type_of result.0 ≡ builder_type self }
        ensures children { trees_of result.1.items ≡ struct_children self }
        ensures validity { EncodesBits result.2 (struct_bits self) }
    {
        let MutableStructArray {
            data_type,
            rows,
            values,
            alloc: _,
        } = self;
        (data_type.into_inner(), values, rows.into_validity())
    }

    /// Shows the prover the invariants of a struct builder. Does nothing at run time.
    pub fn known(&self)
        ensures kind { self.now ≡ builders.struct (builder_type self.now) (struct_bits self.now) (struct_children self.now) }
        ensures records { physical_type (builder_type self.now) ≡ physical.Struct }
        ensures some { 0 < count_fields (fields_of (builder_type self.now)) }
    {
        let _records = self.data_type.get();
    }

    /// Returns whether the children are complete; then a row of the pending values may be added.
    pub fn has_complete_children(&self) -> bool
        ensures { IsTrue result ↔ HasCompleteChildren self.now }
    {
        are_complete(&self.values)
    }

    pub(crate) fn data_type(&self) -> &DataType
        ensures { type_of result.now ≡ builder_type self.now }
    {
        self.data_type.get()
    }

    pub(crate) fn len(&self) -> usize
        ensures { result ≡ builder_len self.now }
    {
        self.rows.len()
    }

    pub(crate) fn validity(&self) -> Option<&MutableBitmap>
        ensures nulls { ShowsNulls (option_map (λ b. b.now) result) self.now }
        ensures none { builder_len self.now ≡ 0 → IsNone result }
    {
        self.rows.validity()
    }

    pub(crate) fn is_valid(&self, i: usize) -> bool
        requires { i < builder_len self.now }
        ensures { IsTrue result ↔ own_slot self.now i ≢ slots.null }
    {
        self.rows.is_valid(i)
    }

    /// Returns the children, one per field.
    pub fn values(&self) -> &[AnyMutableArray]
        ensures { trees_of result.now ≡ struct_children self.now }
    {
        &self.values
    }

    /// Returns the children, to push the values of a row before the row is added.
    pub fn mut_values(&mut self) -> &mut [AnyMutableArray]
        ensures* writes_back { sem 𝓛 (Lends the_row (Array any_row 0) self.entry result (λ cs. with_children self.entry.now (trees_of cs))) }
        ensures value { trees_of result.now ≡ struct_children self.old }
    {
        &mut self.values
    }

    /// Returns child `i`, to push the value of a row before the row is added.
    pub fn value(&mut self, i: usize) -> &mut AnyMutableArray
        requires { i < count_builders (struct_children self.old) }
        ensures* writes_back { sem 𝓛 (Lends the_row any_row self.entry result (λ c. with_field self.entry.now i (tree_of c))) }
        ensures value { Some (tree_of result.now) ≡ builder_at (struct_children self.old) i }
    {
        &mut self.values[i]
    }

    // Child i, `None` if there is none.
    pub(crate) fn child_at(&mut self, i: usize) -> Option<&mut AnyMutableArray>
        ensures* writes_back { sem 𝓛 (LendsIf the_row any_row self.entry result (λ c. with_field self.entry.now i (tree_of c)) self.old) }
        ensures value { option_map (λ c. tree_of c.now) result ≡ child_builder i self.old }
    {
        if i < self.values.len() {
            Some(self.value(i))
        } else {
            None
        }
    }

    /// Appends a row of the pending values. If `valid` is false, the row is null.
    ///
    /// # Errors
    /// `Incomplete` unless each child has its field's type and exactly one more row; `Memory` if an allocation fails.
    /// After an error the values stay pending.
    pub fn push(&mut self, valid: bool) -> Result<(), Error>
        requires { HasCompleteChildren self.old }
        ensures ok { OnOk result (RowAdded valid self.old self.new) }
        ensures passed { OnOk result (Pass (row_checks self.old)) }
        ensures err { OnErr result (self.new ≡ self.old) }
        ensures cause { IfErr result (λ e. (e ≡ Memory alloc_error) ⊎ FailFirst e (row_checks self.old)) }
    {
        if !self.is_ready() {
            return Err(Error::InvalidArgumentError(ArgumentError::Incomplete));
        }
        self.rows.push(valid)
    }

    // Whether each child has its field's type and exactly one more row.
    fn is_ready(&self) -> bool
        ensures ready { IsTrue result ↔ Pass (row_checks self.now) }
        ensures room { IsTrue result → builder_len self.now + 1 ≤ largest_length }
    {
        self.known();
        are_ready(self.data_type.fields(), &self.values, self.rows.len())
    }

    #[cycle(complete)]
    pub(crate) fn complete(&self) -> bool
        ensures { IsTrue result ↔ IsComplete self.now }
    {
        have_types(self.data_type.fields(), &self.values)
            && each_is_complete(&self.values, self.rows.len())
    }

    #[cycle(null)]
    pub(crate) fn add_null(&mut self) -> Result<(), Error>
        requires { IsComplete self.old }
        ensures ok { OnOk result (self.new ≡ nulls_appended 1 self.old) }
        ensures room { OnOk result (nulls_pass 1 self.old ≡ false) }
        ensures err { OnErr result (self.new ≡ self.old) }
        ensures cause { IfErr result (λ e. (e ≡ Memory alloc_error) ⊎ ((e ≡ Overflow) × (nulls_pass 1 self.old ≡ true))) }
    {
        let len = self.rows.len();
        if let Err(refusal) = add_null_each(&mut self.values, len) {
            return Err(refusal);
        }
        match self.rows.push(false) {
            Ok(()) => Ok(()),
            Err(error) => {
                cut_each(&mut self.values, len);
                Err(error)
            }
        }
    }

    #[cycle(cut)]
    pub(crate) fn cut(&mut self, n: usize)
        requires complete { IsComplete self.old }
        requires within { n ≤ builder_len self.old }
        ensures { self.new ≡ truncate_builder self.old n }
    {
        self.rows.truncate(n);
        cut_each(&mut self.values, n);
    }

    #[cycle(room)]
    pub(crate) fn room(&mut self, additional: usize) -> Result<(), Error>
        ensures same { self.new ≡ self.old }
        ensures room { OnOk result (reserve_passes additional self.old ≡ false) }
        ensures cause { IfErr result (λ e. (e ≡ Memory alloc_error) ⊎ ((e ≡ Overflow) × (reserve_passes additional self.old ≡ true))) }
    {
        if let Err(refusal) = room_each(&mut self.values, additional) {
            return Err(refusal);
        }
        self.rows.reserve(additional)
    }

    #[cycle(shrink)]
    pub(crate) fn shrink(&mut self) -> Result<(), Error>
        ensures same { self.new ≡ self.old }
        ensures memory { IsOkUnless result (Memory alloc_error) }
    {
        self.rows.shrink_to_fit();
        shrink_each(&mut self.values)
    }

    // The parts of the array of the rows. No rows and no validity are left, also after `Memory`.
    #[cycle(frozen)]
    fn frozen_parts(&mut self) -> Result<(DataType, Vec<AnyArray>, Option<Bitmap>), Error>
        requires { IsComplete self.old }
        ensures ok { IfOk result (λ parts. IsFrozenAs (type_of parts.0) (layouts_of parts.1.items) parts.2 self.old) }
        ensures emptied { self.new ≡ emptied self.old }
        ensures memory { IsOkUnless result (Memory alloc_error) }
    {
        match frozen_each(self.alloc, &mut self.values) {
            Ok(values) => match self.data_type.get().clone(self.alloc) {
                Ok(data_type) => match self.rows.freeze() {
                    Ok((_rows, validity)) => Ok((data_type, values, validity)),
                    Err(error) => {
                        drop(values);
                        drop(data_type);
                        Err(error)
                    }
                },
                Err(error) => {
                    drop(values);
                    self.rows.clear();
                    Err(error)
                }
            },
            Err(error) => {
                self.rows.clear();
                Err(error)
            }
        }
    }

    #[cycle(frozen)]
    pub(crate) fn frozen(&mut self) -> Result<AnyArray, Error>
        requires { IsComplete self.old }
        ensures slots { IfOk result (λ a. slots_of (layout_of a) ≡ own_slots self.old) }
        ensures same_type { IfOk result (λ a. layout_type (layout_of a) ≡ builder_type self.old) }
        ensures emptied { self.new ≡ emptied self.old }
        ensures memory { IsOkUnless result (Memory alloc_error) }
    {
        self.known();
        match self.frozen_parts() {
            Ok((data_type, values, validity)) => {
                Ok(StructArray::new(data_type, values, validity).into_any())
            }
            Err(error) => Err(error),
        }
    }

    /// Freezes the builder: returns the array of its rows, without a validity if no row is null. The builder keeps its
    /// data type; all its levels are empty and without validity afterwards, also after `Memory`.
    ///
    /// # Errors
    /// `Incomplete` if the builder is not complete; then nothing changes. `Memory` if an allocation fails.
    pub fn freeze(&mut self) -> Result<StructArray, Error>
        ensures slots { IfOk result (λ a. slots_of a ≡ own_slots self.old) }
        ensures same_type { IfOk result (λ a. layout_type a ≡ builder_type self.old) }
        ensures bare { IfOk result (λ a. null_count a ≡ 0 → validity_of a ≡ None) }
        ensures incomplete { IsErrOf result (InvalidArgumentError Incomplete) ↔ ¬ IsComplete self.old }
        ensures unchanged { ¬ IsComplete self.old → self.new ≡ self.old }
        ensures emptied { IsComplete self.old → self.new ≡ emptied self.old }
        ensures errors { IfErr result (λ e. (e ≡ InvalidArgumentError Incomplete) ⊎ (e ≡ Memory alloc_error)) }
    {
        if !self.complete() {
            return Err(Error::InvalidArgumentError(ArgumentError::Incomplete));
        }
        self.known();
        match self.frozen_parts() {
            Ok((data_type, values, validity)) => {
                Ok(StructArray::new(data_type, values, without_full(validity)))
            }
            Err(error) => Err(error),
        }
    }

    /// Freezes the builder, consumes it and returns the array in an `Rc`.
    ///
    /// # Errors
    /// As `freeze`. The builder is dropped.
    pub fn into_arc(self, alloc: Global) -> Result<Rc<AnyArray>, Error>
        ensures slots { IfOk result (λ r. slots_of (layout_of r.value) ≡ own_slots self) }
        ensures same_type { IfOk result (λ r. layout_type (layout_of r.value) ≡ builder_type self) }
        ensures bare { IfOk result (λ r. null_count (layout_of r.value) ≡ 0 → validity_of (layout_of r.value) ≡ None) }
        ensures incomplete { IsErrOf result (InvalidArgumentError Incomplete) ↔ ¬ IsComplete self }
        ensures errors { IfErr result (λ e. (e ≡ InvalidArgumentError Incomplete) ⊎ (e ≡ Memory alloc_error)) }
    {
        let mut records = self;
        let frozen = records.freeze();
        drop(records);
        match frozen {
            Ok(array) => shared(Ok(array.into_any()), alloc),
            Err(error) => Err(error),
        }
    }
}

/// Returns the validity, or `None` if it has no null.
fn without_full(validity: Option<Bitmap>) -> Option<Bitmap>
    ensures bits { (bits : List Bool) → EncodesBits validity bits → EncodesBits result bits }
    ensures fits { (n : ℕ) → ValidityFits validity n → ValidityFits result n }
    ensures null { IfSome result (λ bits. count_by not bits ≢ 0) }
{
    match validity {
        Some(bits) => {
            if bits.unset_bits() == 0 {
                None
            } else {
                Some(bits)
            }
        }
        None => None,
    }
}

/// Returns the first failed check of a builder's parts.
fn first_error(
    data_type: &DataType,
    values: &[AnyMutableArray],
    validity: &Option<MutableBitmap>,
) -> Option<Error>
    ensures { let checks = struct_checks (type_of data_type.now) (trees_of values.now) validity.now in
        MatchOption result (Pass checks) (λ e. FailFirst e checks) }
{
    if data_type.to_physical_type() != PhysicalType::Struct {
        return Some(Error::OutOfSpec(SpecError::WrongType));
    }
    let fields = data_type.fields();
    if fields.is_empty() {
        return Some(Error::OutOfSpec(SpecError::NoFields));
    }
    if fields.len() != values.len() {
        return Some(Error::OutOfSpec(SpecError::FieldCount));
    }
    if !have_types(fields, values) {
        return Some(Error::OutOfSpec(SpecError::ChildType));
    }
    let count = first_rows(values);
    if !have_rows(values, count) {
        return Some(Error::OutOfSpec(SpecError::ChildLength));
    }
    if !has_bits(validity, count) {
        return Some(Error::OutOfSpec(SpecError::ValidityLength));
    }
    None
}

impl MutableArray for MutableStructArray {
    ghost model = { λ b. b };

    ghost bare = { λ b. builder_len b ≡ 0 };

    fn data_type(&self) -> &DataType {
        self.data_type()
    }

    fn len(&self) -> usize {
        self.len()
    }

    fn is_empty(&self) -> bool {
        self.len() == 0
    }

    fn validity(&self) -> Option<&MutableBitmap> {
        self.validity()
    }

    fn is_valid(&self, i: usize) -> bool {
        self.is_valid(i)
    }

    fn is_complete(&self) -> bool {
        self.complete()
    }

    fn holds(&self, _i: usize, _value: &Plain<'_>) -> bool {
        self.known();
        false
    }

    fn push_null(&mut self) -> Result<(), Error> {
        self.add_null()
    }

    fn try_push_plain(&mut self, value: Option<Plain<'_>>) -> Result<(), Error> {
        self.known();
        match value {
            None => self.add_null(),
            Some(_) => Err(Error::InvalidArgumentError(ArgumentError::ItemType)),
        }
    }

    fn truncate(&mut self, n: usize) {
        self.cut(n)
    }

    fn reserve(&mut self, additional: usize) -> Result<(), Error> {
        self.room(additional)
    }

    fn shrink_to_fit(&mut self) -> Result<(), Error> {
        self.shrink()
    }

    #[tactic(auto, using(crate::proofs::Over::emptied_none))]
    fn as_box(&mut self) -> Result<AnyArray, Error> {
        if !self.complete() {
            return Err(Error::InvalidArgumentError(ArgumentError::Incomplete));
        }
        self.frozen()
    }

    fn as_arc(&mut self, alloc: Global) -> Result<Rc<AnyArray>, Error> {
        shared(self.as_box(), alloc)
    }
}
