//! Constructors of fixed-size binary builders, from parts and from items.
ghost use Rattle.std.specs.Prelude.{◌≡◌, ◌*◌, ◌<◌, ◌↔◌, ◌⊎◌, ◌++◌, ◌∷◌, ◌||◌, [], false, not, is_some, IfOk, IfErr, IsErrOf, OnOk, IsOkUnless, IsTrue, MatchResult, MatchOption, None, ℕ, List, Option, length, map, alloc_error};
ghost use Rattle.std.specs.Borrow.{Bor};
ghost use Rattle.std.specs.Option.{option_copied};
ghost use Rattle.nest_memory.specs.TypeTree as types;
ghost use Rattle.nest_model.specs.Layout as layouts;
ghost use Rattle.nest_model.specs.Slot as slots;
ghost use Rattle.nest_build.specs.Words.{CanDrain, FirstError, Fits, YieldsAll, GivesOtherSize, InvalidArgumentError, IsMadeOf, IsOtherSize, IsPast, ItemSize, Memory, OutOfSpec, Overflow, ValidityFits, ZeroSize, has_null, is_masked, layout_type, optional, size_of, slots_of, type_of};

use crate::fixed_size_binary::MutableFixedSizeBinaryArray;
use nest_memory::bitmap::mutable::MutableBitmap;
use nest_memory::datatypes::DataType;
use nest_memory::datatypes::physical_type::PhysicalType;
use nest_memory::error::{Error, SpecError};
use std::alloc::Global;

/// Returns whether a validity has a bit for each of `n` slots.
fn has_bits(validity: &Option<MutableBitmap>, n: usize) -> bool
    ensures { IsTrue result ↔ ValidityFits validity.now n }
{
    match validity {
        None => true,
        Some(bits) => bits.len() == n,
    }
}

/// Returns the first failed check of a builder's parts.
fn first_error(
    data_type: &DataType,
    values: &Vec<u8>,
    validity: &Option<MutableBitmap>,
) -> Option<Error>
    ensures { let parts = layouts.fixed_size_binary (type_of data_type.now) values.now.items validity.now in
        MatchOption result (Fits parts) (λ e. FirstError e parts) }
{
    if data_type.to_physical_type() != PhysicalType::FixedSizeBinary {
        return Some(Error::OutOfSpec(SpecError::WrongType));
    }
    let size = data_type.size().unwrap_or(0);
    if size == 0 {
        return Some(Error::OutOfSpec(SpecError::ZeroSize));
    }
    if values.len() % size != 0 {
        return Some(Error::OutOfSpec(SpecError::NotMultiple));
    }
    if !has_bits(validity, values.len() / size) {
        return Some(Error::OutOfSpec(SpecError::ValidityLength));
    }
    None
}

/// Returns the bytes of a row.
fn bytes_of_row<const N: usize>(row: &[u8; N]) -> &[u8]
    ensures bytes { result.now ≡ row.now }
    ensures count { length result.now ≡ N }
{
    row.as_slice()
}

/// Appends a slot: the row, or null.
fn push_row<const N: usize>(
    builder: &mut MutableFixedSizeBinaryArray,
    item: &Option<[u8; N]>,
) -> Result<(), Error>
    requires { size_of (layout_type builder.old) ≡ N }
    ensures slots { OnOk result (slots_of builder.new ≡ slots_of builder.old ++ optional slots.bytes item.now ∷ []) }
    ensures masked { OnOk result (is_masked builder.new ≡ (is_masked builder.old || not (is_some item.now))) }
    ensures same_type { layout_type builder.new ≡ layout_type builder.old }
    ensures memory { IsOkUnless result (Memory alloc_error) }
{
    builder.known();
    match item {
        None => builder.push(None),
        Some(row) => builder.push(Some(bytes_of_row(row))),
    }
}

/// Appends a slot per item, until an allocation fails.
fn push_rows<const N: usize>(
    builder: &mut MutableFixedSizeBinaryArray,
    items: &[Option<[u8; N]>],
) -> Result<(), Error>
    requires sized { size_of (layout_type builder.old) ≡ N }
    requires empty { slots_of builder.old ≡ [] }
    requires bare { is_masked builder.old ≡ false }
    ensures slots { OnOk result (slots_of builder.new ≡ map (optional slots.bytes) items.now) }
    ensures masked { OnOk result (is_masked builder.new ≡ has_null items.now) }
    ensures same_type { layout_type builder.new ≡ layout_type builder.old }
    ensures memory { IsOkUnless result (Memory alloc_error) }
{
    for item in items {
        push_row(builder, item)?;
    }
    Ok(())
}

/// Appends a slot: bytes of the builder's size, or null.
fn push_item(builder: &mut MutableFixedSizeBinaryArray, item: Option<&[u8]>) -> Result<(), Error>
    ensures slots { OnOk result (slots_of builder.new ≡ slots_of builder.old ++ optional slots.bytes (option_copied item.entry) ∷ []) }
    ensures masked { OnOk result (is_masked builder.new ≡ (is_masked builder.old || not (is_some (option_copied item.entry)))) }
    ensures same_type { layout_type builder.new ≡ layout_type builder.old }
    ensures size { IsErrOf result (InvalidArgumentError ItemSize) ↔ IsOtherSize (size_of (layout_type builder.old)) (option_copied item.entry) }
    ensures errors { IfErr result (λ e. (e ≡ InvalidArgumentError ItemSize) ⊎ (e ≡ Memory alloc_error)) }
{
    builder.known();
    builder.try_push(item)
}

/// Appends a slot per item, until one is refused.
fn push_items<'a, I: IntoIterator<Item = Option<&'a [u8]>>>(
    builder: &mut MutableFixedSizeBinaryArray,
    items: I,
) -> Result<(), Error>
    requires can { CanDrain I.into_iter_gives I.IntoIter.can_next I.IntoIter.remaining items }
    requires empty { IsMadeOf (size_of (layout_type builder.old)) [] builder.old }
    ensures ok { OnOk result ((xs : List (Option (Bor (List ℕ)))) × YieldsAll I.into_iter_gives I.IntoIter.next_gives items xs
        × IsMadeOf (size_of (layout_type builder.old)) (map option_copied xs) builder.new) }
    ensures cause { IfErr result (λ e. (e ≡ Memory alloc_error)
        ⊎ ((e ≡ InvalidArgumentError ItemSize) × GivesOtherSize I.into_iter_gives I.IntoIter.next_gives (size_of (layout_type builder.old)) items)) }
{
    for item in items {
        if let Err(error) = push_item(builder, item) {
            return Err(error);
        }
    }
    Ok(())
}

impl MutableFixedSizeBinaryArray {
    /// Returns the builder of these parts.
    ///
    /// # Errors
    /// The first of: `WrongType` if the physical type is not `FixedSizeBinary`; `ZeroSize` if its size is 0;
    /// `NotMultiple` if the number of bytes is not a multiple of the size; `ValidityLength` if the validity has another
    /// length.
    pub fn try_new(
        data_type: DataType,
        values: Vec<u8>,
        validity: Option<MutableBitmap>,
    ) -> Result<MutableFixedSizeBinaryArray, Error>
        ensures { let parts = layouts.fixed_size_binary (type_of data_type) values.items validity in
            MatchResult result (λ b. Fits parts × (b ≡ parts)) (λ e. FirstError e parts) }
    {
        if let Some(error) = first_error(&data_type, &values, &validity) {
            return Err(error);
        }
        Ok(MutableFixedSizeBinaryArray::of_parts(data_type, values, validity))
    }

    /// Returns a builder without slots, of items of this size in bytes, with capacity for `capacity` of them.
    ///
    /// # Errors
    /// `Overflow` if the capacity in bytes exceeds a `usize`. `Memory` if an allocation fails.
    pub fn with_capacity(
        alloc: Global,
        size: usize,
        capacity: usize,
    ) -> Result<MutableFixedSizeBinaryArray, Error>
        requires { 0 < size }
        ensures ok { IfOk result (λ b. b ≡ layouts.fixed_size_binary (types.fixed_size_binary size) [] None) }
        ensures overflow { IsErrOf result Overflow ↔ IsPast (capacity * size) }
        ensures errors { IfErr result (λ e. (e ≡ Overflow) ⊎ (e ≡ Memory alloc_error)) }
    {
        let mut builder = MutableFixedSizeBinaryArray::new(alloc, size);
        match builder.reserve(capacity) {
            Ok(()) => Ok(builder),
            Err(error) => {
                drop(builder);
                Err(error)
            }
        }
    }

    /// Returns the builder of these items, whose size is `N` bytes. It has a validity if one is null.
    ///
    /// # Errors
    /// `Memory` if an allocation fails.
    pub fn from<const N: usize>(
        alloc: Global,
        items: &[Option<[u8; N]>],
    ) -> Result<MutableFixedSizeBinaryArray, Error>
        requires { 0 < N }
        ensures slots { IfOk result (λ b. slots_of b ≡ map (optional slots.bytes) items.now) }
        ensures typed { IfOk result (λ b. layout_type b ≡ types.fixed_size_binary N) }
        ensures masked { IfOk result (λ b. is_masked b ≡ has_null items.now) }
        ensures memory { IsOkUnless result (Memory alloc_error) }
    {
        let mut builder = MutableFixedSizeBinaryArray::new(alloc, N);
        match push_rows(&mut builder, items) {
            Ok(()) => Ok(builder),
            Err(error) => {
                drop(builder);
                Err(error)
            }
        }
    }

    /// Returns the builder of these items, of this size in bytes. It has a validity if one is null.
    ///
    /// # Errors
    /// `ZeroSize` if the size is 0; `ItemSize` at the first item of another size; `Memory` if an allocation fails.
    pub fn try_from_iter<'a, I: IntoIterator<Item = Option<&'a [u8]>> + Drop>(
        alloc: Global,
        items: I,
        size: usize,
    ) -> Result<MutableFixedSizeBinaryArray, Error>
        requires { CanDrain I.into_iter_gives I.IntoIter.can_next I.IntoIter.remaining items }
        ensures ok { IfOk result (λ b. (xs : List (Option (Bor (List ℕ)))) × YieldsAll I.into_iter_gives I.IntoIter.next_gives items xs × IsMadeOf size (map option_copied xs) b) }
        ensures zero { IsErrOf result (OutOfSpec ZeroSize) ↔ (size ≡ 0) }
        ensures cause { IfErr result (λ e. ((e ≡ OutOfSpec ZeroSize) × (size ≡ 0)) ⊎ ((e ≡ Memory alloc_error)
            ⊎ ((e ≡ InvalidArgumentError ItemSize) × GivesOtherSize I.into_iter_gives I.IntoIter.next_gives size items))) }
    {
        if size == 0 {
            return Err(Error::OutOfSpec(SpecError::ZeroSize));
        }
        let mut builder = MutableFixedSizeBinaryArray::new(alloc, size);
        match push_items(&mut builder, items) {
            Ok(()) => Ok(builder),
            Err(error) => {
                drop(builder);
                Err(error)
            }
        }
    }
}
