//! The builder of fixed-size binary arrays.
ghost use Rattle.std.specs.Prelude.{◌≡◌, ◌≢◌, ◌+◌, ◌-◌, ◌*◌, ◌≤◌, ◌<◌, ◌↔◌, ◌⊎◌, ◌++◌, ◌∷◌, [], IsTrue, OnOk, OnErr, IfOk, IfErr, IsErrOf, IsOkUnless, None, option_map, get_or, take, alloc_error};
ghost use Rattle.std.specs.Option.{option_copied};
ghost use Rattle.nest_memory.specs.TypeTree as types;
ghost use Rattle.nest_model.specs.Layout as layouts;
ghost use Rattle.nest_model.specs.Slot as slots;
ghost use Rattle.nest_build.specs.Words.{Fits, InvalidArgumentError, IsOtherSize, IsPast, ItemSize, ItemType, Memory, Overflow, TopFits, bytes_of, sublist, slice_layout, joined_bytes, layout_type, len, optional, pushed_bytes, size_of, sized_bytes, slot, slots_of, type_of, valid_at, validity_of, where_valid, with_bytes, with_validity};

use nest_array::FixedSizeBinaryArray;
use nest_flat::growth::validity;
use nest_memory::bitmap::mutable::MutableBitmap;
use nest_memory::buffer::Buffer;
use nest_memory::datatypes::DataType;
use nest_memory::error::{ArgumentError, Error};
use std::alloc::Global;
use std::marker::Model;
use std::mem;

/// A builder of fixed-size binary arrays, of a size of at least 1 byte. arrow2's `MutableFixedSizeBinaryArray`.
///
/// The bytes of a null slot are zeros. The validity is created at the first null. A call that returns an error changes
/// nothing, except `freeze`, which always empties the builder.
#[derive(Drop)]
pub struct MutableFixedSizeBinaryArray {
    // The size in the data type, which may be nested in extension types.
    size: usize,
    data_type: DataType,
    values: Vec<u8>,
    validity: Option<MutableBitmap>,
}

impl Model for MutableFixedSizeBinaryArray {
    ghost use Rattle.std.specs.Prelude.{◌≡◌};
    ghost use Rattle.nest_model.specs.Layout as layouts;
    ghost use Rattle.nest_model.specs.Layout.{Layout};
    ghost use Rattle.nest_model.specs.LayoutCode.{coded_layout};

    ghost Value = { Layout };

    ghost coded = { coded_layout };

    ghost use Rattle.nest_memory.specs.TypeOf.{type_of};
    ghost use Rattle.nest_memory.specs.TypeTree.{size_of};
    ghost use Rattle.nest_model.specs.Array.{TopFits};

    ghost view = { λ b. layouts.fixed_size_binary (type_of b.data_type) b.values.items b.validity };

    ghost invariant = { λ b. TopFits (layouts.fixed_size_binary (type_of b.data_type) b.values.items b.validity) × (b.size ≡ size_of (type_of b.data_type)) };
}

/// Appends the bytes of one slot, zeros for a null.
fn push_bytes(values: &mut Vec<u8>, size: usize, item: Option<&[u8]>) -> Result<(), Error>
    ensures ok { OnOk result (values.new.items ≡ values.old.items ++ sized_bytes size (option_copied item.entry)) }
    ensures err { OnErr result (values.new.items ≡ values.old.items) }
    ensures memory { IsOkUnless result (Memory alloc_error) }
{
    match item {
        Some(bytes) => values.extend_from_slice(bytes)?,
        None => {
            values.reserve(size)?;
            let _room = values.capacity();
            let end = values.len() + size;
            values.resize(end, 0)?;
        }
    }
    Ok(())
}

impl MutableFixedSizeBinaryArray {
    ghost use Rattle.std.specs.Borrow.{Array, Lends, sem, u8 as byte};
    ghost use Rattle.nest_build.specs.contracts.fixed_size_binary.mutable.MutableFixedSizeBinaryArray.{the_row};

    /// Returns a builder without slots, of items of this size in bytes. Does not allocate.
    pub fn new(alloc: Global, size: usize) -> MutableFixedSizeBinaryArray
        requires { 0 < size }
        ensures { result ≡ layouts.fixed_size_binary (types.fixed_size_binary size) [] None }
    {
        MutableFixedSizeBinaryArray {
            size,
            data_type: DataType::FixedSizeBinary(size),
            values: Vec::new(alloc),
            validity: None,
        }
    }

    /// Returns the builder of valid parts.
    pub(crate) fn of_parts(
        data_type: DataType,
        values: Vec<u8>,
        validity: Option<MutableBitmap>,
    ) -> MutableFixedSizeBinaryArray
        requires { Fits (layouts.fixed_size_binary (type_of data_type) values.items validity) }
        ensures { result ≡ layouts.fixed_size_binary (type_of data_type) values.items validity }
    {
        MutableFixedSizeBinaryArray {
            size: data_type.size().unwrap_or(0),
            data_type,
            values,
            validity,
        }
    }

    /// Shows the prover the invariants of a builder. Does nothing at run time.
    pub fn known(&self)
        ensures fits { TopFits self.now }
        ensures kind { self.now ≡ layouts.fixed_size_binary (layout_type self.now) (bytes_of self.now) (validity_of self.now) }
    {
        let _ = &self.data_type;
    }

    /// Returns the number of slots.
    pub fn len(&self) -> usize
        ensures { result ≡ len self.now }
    {
        self.values.len() / self.size
    }

    /// Returns whether there are no slots.
    pub fn is_empty(&self) -> bool
        ensures { IsTrue result ↔ (len self.now ≡ 0) }
    {
        self.len() == 0
    }

    /// Returns the data type.
    pub fn data_type(&self) -> &DataType
        ensures { type_of result.now ≡ layout_type self.now }
    {
        &self.data_type
    }

    /// Returns the number of bytes per slot.
    pub fn size(&self) -> usize
        ensures typed { result ≡ size_of (layout_type self.now) }
        ensures some { 0 < result }
    {
        self.size
    }

    /// Returns the capacity in slots.
    pub fn capacity(&self) -> usize
        ensures { len self.now ≤ result }
    {
        self.values.capacity() / self.size
    }

    /// Returns the validity, one bit per slot. Without it all slots are valid.
    pub fn validity(&self) -> Option<&MutableBitmap>
        ensures { option_map (λ b. b.now) result ≡ validity_of self.now }
    {
        self.validity.as_ref()
    }

    /// Returns the bytes of all slots, including those of null slots.
    pub fn values(&self) -> &Vec<u8>
        ensures { result.now.items ≡ bytes_of self.now }
    {
        &self.values
    }

    /// Returns the bytes of all slots as a mutable slice.
    pub fn values_mut_slice(&mut self) -> &mut [u8]
        ensures* writes_back { sem 𝓛 (Lends the_row (Array byte 0) self.entry result (with_bytes self.entry.now)) }
        ensures value { result.now ≡ bytes_of self.old }
    {
        self.values.as_mut_slice()
    }

    /// Returns the number of bytes of all slots.
    pub(crate) fn byte_count(&self) -> usize
        ensures { result ≡ len self.now * size_of (layout_type self.now) }
    {
        self.values.len()
    }

    /// Returns whether slot `i` is valid.
    pub fn is_valid(&self, i: usize) -> bool
        requires { i < len self.now }
        ensures { result ≡ valid_at (validity_of self.now) i }
    {
        validity::is_valid(&self.validity, i)
    }

    /// Returns the bytes of slot `i`, zeros if it was pushed as a null.
    pub fn value(&self, i: usize) -> &[u8]
        requires { i < len self.now }
        ensures raw { result.now ≡ sublist (bytes_of self.now) (i * size_of (layout_type self.now)) (size_of (layout_type self.now)) }
        ensures slot { slot self.now i ≡ where_valid (validity_of self.now) i (slots.bytes result.now) }
        ensures unmasked { slot (with_validity self.now None) i ≡ slots.bytes result.now }
    {
        let values = &self.values;
        let _bytes = values.len();
        let start = i * self.size;
        &values.as_slice()[start..start + self.size]
    }

    /// Returns the bytes of slot `i`, `None` if it is null.
    pub fn get(&self, i: usize) -> Option<&[u8]>
        requires { i < len self.now }
        ensures { optional (λ x. slots.bytes x.now) result ≡ slot self.now i }
    {
        if self.is_valid(i) {
            Some(self.value(i))
        } else {
            None
        }
    }

    /// Appends a slot: bytes of the builder's size, or null.
    ///
    /// # Errors
    /// `ItemSize` if the bytes have another size; `Memory` if an allocation fails.
    pub fn try_push(&mut self, item: Option<&[u8]>) -> Result<(), Error>
        ensures parts { OnOk result (self.new ≡ pushed_bytes self.old (option_copied item.entry)) }
        ensures slots { OnOk result (slots_of self.new ≡ slots_of self.old ++ optional slots.bytes (option_copied item.entry) ∷ []) }
        ensures err { OnErr result (self.new ≡ self.old) }
        ensures same_type { layout_type self.new ≡ layout_type self.old }
        ensures size { IsErrOf result (InvalidArgumentError ItemSize) ↔ IsOtherSize (size_of (layout_type self.old)) (option_copied item.entry) }
        ensures errors { IfErr result (λ e. (e ≡ InvalidArgumentError ItemSize) ⊎ (e ≡ Memory alloc_error)) }
    {
        if let Some(bytes) = item {
            if bytes.len() != self.size {
                return Err(Error::InvalidArgumentError(ArgumentError::ItemSize));
            }
        }
        self.push(item)
    }

    /// Appends a slot: bytes of the builder's size, or null.
    ///
    /// # Errors
    /// `Memory` if an allocation fails.
    pub fn push(&mut self, item: Option<&[u8]>) -> Result<(), Error>
        requires { ¬ IsOtherSize (size_of (layout_type self.old)) (option_copied item) }
        ensures parts { OnOk result (self.new ≡ pushed_bytes self.old (option_copied item.entry)) }
        ensures slots { OnOk result (slots_of self.new ≡ slots_of self.old ++ optional slots.bytes (option_copied item.entry) ∷ []) }
        ensures err { OnErr result (self.new ≡ self.old) }
        ensures same_type { layout_type self.new ≡ layout_type self.old }
        ensures memory { IsOkUnless result (Memory alloc_error) }
    {
        let alloc = *self.values.allocator();
        let count = self.len();
        let end = self.values.len();
        push_bytes(&mut self.values, self.size, item)?;
        let _more = self.values.len();
        if let Err(error) = validity::push(alloc, &mut self.validity, count, item.is_some()) {
            self.values.truncate(end);
            return Err(error);
        }
        Ok(())
    }

    /// Appends the slots of another builder, all of them or none.
    ///
    /// # Errors
    /// `ItemType` if the data types differ; `Memory` if an allocation fails.
    pub fn try_extend_from_self(&mut self, other: &MutableFixedSizeBinaryArray) -> Result<(), Error>
        ensures slots { OnOk result (slots_of self.new ≡ slots_of self.old ++ slots_of other.now) }
        ensures err { OnErr result (self.new ≡ self.old) }
        ensures same_type { layout_type self.new ≡ layout_type self.old }
        ensures item_type { IsErrOf result (InvalidArgumentError ItemType) ↔ layout_type self.old ≢ layout_type other.now }
        ensures errors { IfErr result (λ e. (e ≡ InvalidArgumentError ItemType) ⊎ (e ≡ Memory alloc_error)) }
    {
        let same_type = *self.data_type() == *other.data_type();
        if !same_type {
            return Err(Error::InvalidArgumentError(ArgumentError::ItemType));
        }
        self.append(other)
    }

    fn append(&mut self, other: &MutableFixedSizeBinaryArray) -> Result<(), Error>
        requires { layout_type self.old ≡ layout_type other.now }
        ensures parts { OnOk result (self.new ≡ joined_bytes self.old other.now) }
        ensures slots { OnOk result (slots_of self.new ≡ slots_of self.old ++ slots_of other.now) }
        ensures err { OnErr result (self.new ≡ self.old) }
        ensures same_type { layout_type self.new ≡ layout_type self.old }
        ensures memory { IsOkUnless result (Memory alloc_error) }
    {
        let alloc = *self.values.allocator();
        let (n, m) = (self.len(), other.len());
        let end = self.values.len();
        self.values.extend_from_slice(other.values.as_slice())?;
        let _more = self.values.len();
        if let Err(error) = validity::join(alloc, &mut self.validity, n, &other.validity, m) {
            self.values.truncate(end);
            return Err(error);
        }
        Ok(())
    }

    /// Returns a copy of the bytes of the last slot, `None` if it is null or there is none.
    fn last(&self) -> Result<Option<Vec<u8>>, Error>
        ensures ok { IfOk result (λ item. optional (λ bytes. slots.bytes bytes.items) item ≡ get_or (slots_of self.now) (len self.now - 1) slots.null) }
        ensures memory { IsOkUnless result (Memory alloc_error) }
    {
        let alloc = *self.values.allocator();
        let len = self.len();
        if len == 0 {
            return Ok(None);
        }
        match self.get(len - 1) {
            None => Ok(None),
            Some(bytes) => Ok(Some(Vec::from_slice(alloc, bytes)?)),
        }
    }

    /// Removes the last slot and returns its bytes, `None` if it was null or there is none.
    ///
    /// # Errors
    /// `Memory` if an allocation fails; then nothing changes.
    pub fn pop(&mut self) -> Result<Option<Vec<u8>>, Error>
        ensures value { IfOk result (λ item. optional (λ bytes. slots.bytes bytes.items) item ≡ get_or (slots_of self.old) (len self.old - 1) slots.null) }
        ensures rest { OnOk result (self.new ≡ slice_layout self.old 0 (len self.old - 1)) }
        ensures slots { OnOk result (slots_of self.new ≡ take (len self.old - 1) (slots_of self.old)) }
        ensures err { OnErr result (self.new ≡ self.old) }
        ensures memory { IsOkUnless result (Memory alloc_error) }
    {
        let last = self.last()?;
        let len = self.len();
        self.truncate(len.saturating_sub(1));
        Ok(last)
    }

    /// Keeps the first `n` slots.
    pub fn truncate(&mut self, n: usize)
        requires { n ≤ len self.old }
        ensures parts { self.new ≡ slice_layout self.old 0 n }
        ensures slots { slots_of self.new ≡ take n (slots_of self.old) }
        ensures same_type { layout_type self.new ≡ layout_type self.old }
    {
        self.values.truncate(n * self.size);
        validity::truncate(&mut self.validity, n);
    }

    /// Reserves capacity for at least `additional` more slots.
    ///
    /// # Errors
    /// `Overflow` if the capacity in bytes exceeds a `usize`. `Memory` if an allocation fails.
    pub fn reserve(&mut self, additional: usize) -> Result<(), Error>
        ensures same { self.new ≡ self.old }
        ensures overflow { IsErrOf result Overflow ↔ IsPast (additional * size_of (layout_type self.old)) }
        ensures errors { IfErr result (λ e. (e ≡ Overflow) ⊎ (e ≡ Memory alloc_error)) }
    {
        match additional.checked_mul(self.size) {
            None => Err(Error::Overflow),
            Some(bytes) => {
                self.values.reserve(bytes)?;
                validity::reserve(&mut self.validity, additional)
            }
        }
    }

    /// Shrinks the capacity to the slots as far as the allocator can.
    pub fn shrink_to_fit(&mut self)
        ensures { self.new ≡ self.old }
    {
        self.values.shrink_to_fit();
        validity::shrink_to_fit(&mut self.validity);
    }

    /// Freezes the builder: returns the array of its slots. The builder keeps its data type; it has no slots and no
    /// validity afterwards, also after an error.
    ///
    /// # Errors
    /// `Memory` if an allocation fails.
    pub fn freeze(&mut self) -> Result<FixedSizeBinaryArray, Error>
        ensures ok { IfOk result (λ a. a ≡ self.old) }
        ensures emptied { self.new ≡ layouts.fixed_size_binary (layout_type self.old) [] None }
        ensures memory { IsOkUnless result (Memory alloc_error) }
    {
        let alloc = *self.values.allocator();
        let values = mem::replace(&mut self.values, Vec::new(alloc));
        let validity = validity::freeze(&mut self.validity)?;
        let values = Buffer::from_vec(alloc, values)?;
        match self.data_type.clone(alloc) {
            Ok(data_type) => Ok(FixedSizeBinaryArray::new(data_type, values, validity)),
            Err(error) => Err(error),
        }
    }
}
