//! Constructors of fixed-size binary arrays from items that may be null.
ghost use Rattle.std.specs.Prelude.{◌≡◌, ◌<◌, ◌↔◌, ◌⊎◌, ◌++◌, ◌∷◌, ◌||◌, [], ℕ, List, Option, not, is_some, IfOk, IfErr, IsErrOf, OnOk, OnErr, IsOkUnless, IsTrue, None, map, alloc_error};
ghost use Rattle.std.specs.Borrow.{Bor};
ghost use Rattle.std.specs.Option.{option_copied};
ghost use Rattle.nest_memory.specs.TypeTree as types;
ghost use Rattle.nest_memory.specs.declared.error.ArgumentError.TheVariants.{ItemSize};
ghost use Rattle.nest_memory.specs.declared.error.Error.TheVariants.{InvalidArgumentError, OutOfSpec};
ghost use Rattle.nest_memory.specs.declared.error.SpecError.TheVariants.{ZeroSize};
ghost use Rattle.nest_model.specs.BuilderInput.{YieldsAll};
ghost use Rattle.nest_model.specs.Layout as layouts;
ghost use Rattle.nest_model.specs.Slot as slots;
ghost use Rattle.nest_flat.specs.FlatParts.{optional};
ghost use Rattle.nest_flat.specs.Growth.{CanDrain, is_masked};
ghost use Rattle.nest_array.specs.FixedBytes.{GivesOtherSize, IsMadeOf, IsOtherSize, pushed_bytes, sized_bytes};
ghost use Rattle.nest_array.specs.Words.{Memory, TopFits, layout_type, len, size_of, slots_of};

use crate::fixed_size_binary::FixedSizeBinaryArray;
use crate::fixed_size_binary::rows::bytes_of;
use nest_flat::growth::validity;
use nest_memory::bitmap::mutable::MutableBitmap;
use nest_memory::buffer::Buffer;
use nest_memory::error::{ArgumentError, Error, SpecError};
use std::alloc::Global;
use std::marker::Model;

/// An array under construction. Null slots hold zeros; the first null creates the validity.
#[derive(Drop)]
struct SoFar {
    size: usize,
    values: Vec<u8>,
    validity: Option<MutableBitmap>,
}

impl Model for SoFar {
    ghost use Rattle.nest_memory.specs.TypeTree as types;
    ghost use Rattle.nest_model.specs.Array.{TopFits};
    ghost use Rattle.nest_model.specs.Layout as layouts;
    ghost use Rattle.nest_model.specs.Layout.{Layout};
    ghost use Rattle.nest_model.specs.LayoutCode.{coded_layout};

    ghost Value = { Layout };

    ghost coded = { coded_layout };

    ghost view = { λ b. layouts.fixed_size_binary (types.fixed_size_binary b.size) b.values.items b.validity };

    ghost invariant = { λ b. TopFits (layouts.fixed_size_binary (types.fixed_size_binary b.size) b.values.items b.validity) };
}

/// Appends the bytes of a slot, zeros for a null.
fn push_bytes(values: &mut Vec<u8>, size: usize, item: Option<&[u8]>) -> Result<(), Error>
    ensures ok { OnOk result (values.new.items ≡ values.old.items ++ sized_bytes size (option_copied item.entry)) }
    ensures err { OnErr result (values.new.items ≡ values.old.items) }
    ensures memory { IsOkUnless result (Memory alloc_error) }
{
    match item {
        Some(bytes) => values.extend_from_slice(bytes)?,
        None => {
            values.reserve(size)?;
            let _room = values.capacity();
            let end = values.len() + size;
            values.resize(end, 0)?;
        }
    }
    Ok(())
}

/// Returns whether an item has another size.
fn is_other_size(item: Option<&[u8]>, size: usize) -> bool
    ensures { IsTrue result ↔ IsOtherSize size (option_copied item.entry) }
{
    match item {
        None => false,
        Some(bytes) => bytes.len() != size,
    }
}

impl SoFar {
    fn new(alloc: Global, size: usize) -> SoFar
        requires { 0 < size }
        ensures { result ≡ layouts.fixed_size_binary (types.fixed_size_binary size) [] None }
    {
        SoFar {
            size,
            values: Vec::new(alloc),
            validity: None,
        }
    }

    fn len(&self) -> usize
        ensures { result ≡ len self.now }
    {
        self.values.len() / self.size
    }

    /// Appends a slot: bytes of the array's size, or null.
    fn push(&mut self, item: Option<&[u8]>) -> Result<(), Error>
        requires { ¬ IsOtherSize (size_of (layout_type self.old)) (option_copied item) }
        ensures parts { OnOk result (self.new ≡ pushed_bytes self.old (option_copied item.entry)) }
        ensures slots { OnOk result (slots_of self.new ≡ slots_of self.old ++ optional slots.bytes (option_copied item.entry) ∷ []) }
        ensures same_type { layout_type self.new ≡ layout_type self.old }
        ensures memory { IsOkUnless result (Memory alloc_error) }
    {
        let alloc = *self.values.allocator();
        let count = self.len();
        let end = self.values.len();
        push_bytes(&mut self.values, self.size, item)?;
        let _more = self.values.len();
        if let Err(error) = validity::push(alloc, &mut self.validity, count, item.is_some()) {
            self.values.truncate(end);
            return Err(error);
        }
        Ok(())
    }

    /// Appends a slot, or returns `ItemSize` for bytes of another size.
    fn try_push(&mut self, item: Option<&[u8]>) -> Result<(), Error>
        ensures slots { OnOk result (slots_of self.new ≡ slots_of self.old ++ optional slots.bytes (option_copied item.entry) ∷ []) }
        ensures masked { OnOk result (is_masked self.new ≡ (is_masked self.old || not (is_some (option_copied item.entry)))) }
        ensures same_type { layout_type self.new ≡ layout_type self.old }
        ensures size { IsErrOf result (InvalidArgumentError ItemSize) ↔ IsOtherSize (size_of (layout_type self.old)) (option_copied item.entry) }
        ensures errors { IfErr result (λ e. (e ≡ InvalidArgumentError ItemSize) ⊎ (e ≡ Memory alloc_error)) }
    {
        if is_other_size(item, self.size) {
            return Err(Error::InvalidArgumentError(ArgumentError::ItemSize));
        }
        self.push(item)
    }

    /// Returns the array of the slots.
    fn freeze(&mut self) -> Result<FixedSizeBinaryArray, Error>
        ensures ok { IfOk result (λ a. a ≡ self.old) }
        ensures memory { IsOkUnless result (Memory alloc_error) }
    {
        let alloc = *self.values.allocator();
        let values = std::mem::replace(&mut self.values, Vec::new(alloc));
        let validity = validity::freeze(&mut self.validity)?;
        let values = Buffer::from_vec(alloc, values)?;
        let data_type = FixedSizeBinaryArray::default_datatype(self.size);
        Ok(FixedSizeBinaryArray::new(data_type, values, validity))
    }
}

/// Appends a slot for each item, up to the first error.
fn push_items<'a, I: IntoIterator<Item = Option<&'a [u8]>>>(
    made: &mut SoFar,
    items: I,
) -> Result<(), Error>
    requires can { CanDrain I.into_iter_gives I.IntoIter.can_next I.IntoIter.remaining items }
    requires empty { IsMadeOf (size_of (layout_type made.old)) [] made.old }
    ensures ok { OnOk result ((xs : List (Option (Bor (List ℕ)))) × YieldsAll I.into_iter_gives I.IntoIter.next_gives items xs
        × IsMadeOf (size_of (layout_type made.old)) (map option_copied xs) made.new) }
    ensures cause { IfErr result (λ e. (e ≡ Memory alloc_error)
        ⊎ ((e ≡ InvalidArgumentError ItemSize) × GivesOtherSize I.into_iter_gives I.IntoIter.next_gives (size_of (layout_type made.old)) items)) }
{
    for item in items {
        if let Err(error) = made.try_push(item) {
            return Err(error);
        }
    }
    Ok(())
}

/// Appends a row, or null.
fn push_row<const N: usize>(made: &mut SoFar, item: &Option<[u8; N]>) -> Result<(), Error>
    requires { size_of (layout_type made.old) ≡ N }
    ensures slots { OnOk result (slots_of made.new ≡ slots_of made.old ++ optional slots.bytes item.now ∷ []) }
    ensures masked { OnOk result (is_masked made.new ≡ (is_masked made.old || not (is_some item.now))) }
    ensures sized { ¬ IsOtherSize N item.now }
    ensures same_type { layout_type made.new ≡ layout_type made.old }
    ensures memory { IsOkUnless result (Memory alloc_error) }
{
    match item {
        None => made.try_push(None),
        Some(row) => made.try_push(Some(bytes_of(row))),
    }
}

/// Appends a slot for each row, up to the first error.
fn push_rows<const N: usize>(made: &mut SoFar, items: &[Option<[u8; N]>]) -> Result<(), Error>
    requires { IsMadeOf N [] made.old }
    ensures ok { OnOk result (IsMadeOf N items.now made.new) }
    ensures memory { IsOkUnless result (Memory alloc_error) }
{
    for item in items {
        push_row(made, item)?;
    }
    Ok(())
}

impl FixedSizeBinaryArray {
    /// Returns the array of these items, of the fixed-size binary type of this size.
    ///
    /// It has a validity only if an item is null.
    ///
    /// # Errors
    /// `ZeroSize` where the size is 0, `ItemSize` at the first item of another size,
    /// `Memory` where an allocation fails.
    pub fn try_from_iter<'a, I: IntoIterator<Item = Option<&'a [u8]>> + Drop>(
        alloc: Global,
        items: I,
        size: usize,
    ) -> Result<FixedSizeBinaryArray, Error>
        requires { CanDrain I.into_iter_gives I.IntoIter.can_next I.IntoIter.remaining items }
        ensures ok { IfOk result (λ a. (xs : List (Option (Bor (List ℕ)))) × YieldsAll I.into_iter_gives I.IntoIter.next_gives items xs × IsMadeOf size (map option_copied xs) a) }
        ensures zero { IsErrOf result (OutOfSpec ZeroSize) ↔ (size ≡ 0) }
        ensures cause { IfErr result (λ e. ((e ≡ OutOfSpec ZeroSize) × (size ≡ 0)) ⊎ ((e ≡ Memory alloc_error)
            ⊎ ((e ≡ InvalidArgumentError ItemSize) × GivesOtherSize I.into_iter_gives I.IntoIter.next_gives size items))) }
    {
        if size == 0 {
            return Err(Error::OutOfSpec(SpecError::ZeroSize));
        }
        let mut made = SoFar::new(alloc, size);
        if let Err(error) = push_items(&mut made, items) {
            return Err(error);
        }
        made.freeze()
    }

    /// The same as `try_from_iter`.
    ///
    /// # Errors
    /// Those of `try_from_iter`.
    pub fn from_iter<'a, I: IntoIterator<Item = Option<&'a [u8]>> + Drop>(
        alloc: Global,
        items: I,
        size: usize,
    ) -> Result<FixedSizeBinaryArray, Error>
        requires { CanDrain I.into_iter_gives I.IntoIter.can_next I.IntoIter.remaining items }
        ensures ok { IfOk result (λ a. (xs : List (Option (Bor (List ℕ)))) × YieldsAll I.into_iter_gives I.IntoIter.next_gives items xs × IsMadeOf size (map option_copied xs) a) }
        ensures zero { IsErrOf result (OutOfSpec ZeroSize) ↔ (size ≡ 0) }
        ensures cause { IfErr result (λ e. ((e ≡ OutOfSpec ZeroSize) × (size ≡ 0)) ⊎ ((e ≡ Memory alloc_error)
            ⊎ ((e ≡ InvalidArgumentError ItemSize) × GivesOtherSize I.into_iter_gives I.IntoIter.next_gives size items))) }
    {
        FixedSizeBinaryArray::try_from_iter(alloc, items, size)
    }

    /// Returns the array of these rows. It has a validity only if a row is null.
    ///
    /// # Errors
    /// `Memory` where an allocation fails.
    pub fn from<const N: usize>(
        alloc: Global,
        items: &[Option<[u8; N]>],
    ) -> Result<FixedSizeBinaryArray, Error>
        requires { 0 < N }
        ensures ok { IfOk result (λ a. IsMadeOf N items.now a) }
        ensures memory { IsOkUnless result (Memory alloc_error) }
    {
        let mut made = SoFar::new(alloc, N);
        if let Err(error) = push_rows(&mut made, items) {
            return Err(error);
        }
        made.freeze()
    }
}
