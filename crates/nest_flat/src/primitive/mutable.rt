//! A builder of primitive arrays.
ghost use Rattle.std.specs.Prelude.{◌≡◌, ◌≢◌, ◌+◌, ◌≤◌, ◌<◌, ◌↔◌, ◌++◌, ◌∷◌, [], List, Option, IsTrue, IfOk, IfErr, ◌⊎◌, OnOk, OnErr, IsOkUnless, IsErrOf, None, Some, option_map, map, alloc_error};
ghost use Rattle.std.specs.Option.{unwrap_or};
ghost use Rattle.nest_memory.specs.declared.datatypes.physical_type.PhysicalType.TheVariants as physical;
ghost use Rattle.nest_model.specs.Layout as layouts;
ghost use Rattle.nest_model.specs.Slot as slots;
ghost use Rattle.nest_flat.specs.Words.{CanDrain, Grew, InvalidArgumentError, ItemType, Memory, NativesExtended, TopFits, YieldsAll, joined_parts, layout_type, len, native_refusal, natives_of, optional, physical_type, primitive_tree, pushed_native, slice_layout, slots_of, sublist, type_of, valid_at, validity_of, with_type, zeros};

use crate::growth::extend::{Grow, extend_by_push};
use crate::growth::validity;
use crate::primitive::PrimitiveArray;
use nest_memory::bitmap::mutable::MutableBitmap;
use nest_memory::buffer::Buffer;
use nest_memory::datatypes::DataType;
use nest_memory::error::{ArgumentError, Error};
use nest_memory::types::NativeType;
use std::alloc::Global;
use std::marker::Model;
use std::mem;

/// A builder of a `PrimitiveArray`, as arrow2's `MutablePrimitiveArray`.
///
/// The raw value of a null is zero. The validity is allocated at the first null. A call that returns an error changes
/// nothing, except `freeze`, which always empties the builder.
#[derive(Drop)]
pub struct MutablePrimitiveArray<T: NativeType> {
    data_type: DataType,
    values: Vec<T>,
    validity: Option<MutableBitmap>,
}

impl<T: NativeType> Model for MutablePrimitiveArray<T> {
    ghost use Rattle.std.specs.Prelude.{map};
    ghost use Rattle.nest_model.specs.Layout as layouts;
    ghost use Rattle.nest_model.specs.Layout.{Layout};
    ghost use Rattle.nest_model.specs.LayoutCode.{coded_layout};

    ghost Value = { Layout };

    ghost coded = { coded_layout };

    ghost use Rattle.nest_memory.specs.TypeOf.{type_of};
    ghost use Rattle.nest_model.specs.Array.{TopFits};

    ghost view = { λ b. layouts.primitive T.PRIMITIVE (type_of b.data_type) (map T.numbers b.values.items) b.validity };

    ghost invariant = { λ b. TopFits (layouts.primitive T.PRIMITIVE (type_of b.data_type) (map T.numbers b.values.items) b.validity) };
}

impl<T: NativeType> MutablePrimitiveArray<T> {
    /// Returns an empty builder with the default data type of `T`, without allocation.
    pub fn new(alloc: Global) -> MutablePrimitiveArray<T>
        ensures { result ≡ layouts.primitive T.PRIMITIVE (primitive_tree T.PRIMITIVE) [] None }
    {
        MutablePrimitiveArray {
            data_type: DataType::from(T::PRIMITIVE),
            values: Vec::new(alloc),
            validity: None,
        }
    }

    /// Returns the builder with another data type that is stored as `T`.
    pub fn to(self, data_type: DataType) -> MutablePrimitiveArray<T>
        requires { physical_type (type_of data_type) ≡ physical.Primitive T.PRIMITIVE }
        ensures { result ≡ with_type self (type_of data_type) }
    {
        let mut builder = self;
        let old = mem::replace(&mut builder.data_type, data_type);
        drop(old);
        builder
    }

    /// States the invariant of the builder. Does nothing at run time.
    pub fn known(&self)
        ensures fits { TopFits self.now }
        ensures kind { self.now ≡ layouts.primitive T.PRIMITIVE (layout_type self.now) (natives_of self.now) (validity_of self.now) }
    {
        let _ = &self.data_type;
    }

    /// Returns the number of slots.
    pub fn len(&self) -> usize
        ensures { result ≡ len self.now }
    {
        self.values.len()
    }

    /// Returns whether the array has no slots.
    pub fn is_empty(&self) -> bool
        ensures { IsTrue result ↔ (len self.now ≡ 0) }
    {
        self.len() == 0
    }

    /// Returns the data type.
    pub fn data_type(&self) -> &DataType
        ensures { type_of result.now ≡ layout_type self.now }
    {
        &self.data_type
    }

    /// Returns the validity bitmap: one bit per slot, 1 if valid. `None` means that every slot is valid.
    pub fn validity(&self) -> Option<&MutableBitmap>
        ensures { option_map (λ b. b.now) result ≡ validity_of self.now }
    {
        self.validity.as_ref()
    }

    /// Returns whether slot `i` is valid.
    pub fn is_valid(&self, i: usize) -> bool
        requires { i < len self.now }
        ensures { result ≡ valid_at (validity_of self.now) i }
    {
        validity::is_valid(&self.validity, i)
    }

    /// Returns the raw values, including those of null slots.
    pub fn values(&self) -> &Vec<T>
        ensures { map T.numbers result.now.items ≡ natives_of self.now }
    {
        &self.values
    }

    /// Appends a slot.
    ///
    /// # Errors
    /// `Memory` if an allocation fails.
    pub fn try_push(&mut self, item: Option<T>) -> Result<(), Error>
        ensures parts { OnOk result (self.new ≡ pushed_native self.old (option_map T.numbers item)) }
        ensures slots { OnOk result (slots_of self.new ≡ slots_of self.old ++ optional (λ x. slots.number (T.numbers x)) item ∷ []) }
        ensures err { OnErr result (self.new ≡ self.old) }
        ensures same_type { layout_type self.new ≡ layout_type self.old }
        ensures memory { IsOkUnless result (Memory alloc_error) }
    {
        self.push_item(item)
    }

    /// Appends a slot for each item: all of them, or none on error.
    ///
    /// # Errors
    /// `Memory` if an allocation fails.
    pub fn try_extend<I: IntoIterator<Item = Option<T>>>(&mut self, items: I) -> Result<(), Error>
        requires { CanDrain I.into_iter_gives I.IntoIter.can_next I.IntoIter.remaining items }
        ensures ok { OnOk result ((xs : List (Option T)) × YieldsAll I.into_iter_gives I.IntoIter.next_gives items xs
            × NativesExtended T.numbers xs self.old self.new) }
        ensures err { OnErr result (self.new ≡ self.old) }
        ensures same_type { layout_type self.new ≡ layout_type self.old }
        ensures memory { IsOkUnless result (Memory alloc_error) }
    {
        extend_by_push(self, items)
    }

    /// Appends the slots of another builder: all of them, or none on error.
    ///
    /// # Errors
    /// `ItemType` if the data types differ, `Memory` if an allocation fails.
    pub fn try_extend_from_self(&mut self, other: &MutablePrimitiveArray<T>) -> Result<(), Error>
        ensures parts { OnOk result (self.new ≡ joined_parts self.old other.now) }
        ensures slots { OnOk result (slots_of self.new ≡ slots_of self.old ++ slots_of other.now) }
        ensures err { OnErr result (self.new ≡ self.old) }
        ensures same_type { layout_type self.new ≡ layout_type self.old }
        ensures item_type { IsErrOf result (InvalidArgumentError ItemType) ↔ layout_type self.old ≢ layout_type other.now }
        ensures errors { IfErr result (λ e. (e ≡ InvalidArgumentError ItemType) ⊎ (e ≡ Memory alloc_error)) }
    {
        let same_type = *self.data_type() == *other.data_type();
        if !same_type {
            return Err(Error::InvalidArgumentError(ArgumentError::ItemType));
        }
        self.append(other)
    }

    fn append(&mut self, other: &MutablePrimitiveArray<T>) -> Result<(), Error>
        ensures parts { OnOk result (self.new ≡ joined_parts self.old other.now) }
        ensures grew { OnOk result (Grew (slots_of other.now) self.old self.new) }
        ensures err { OnErr result (self.new ≡ self.old) }
        ensures memory { IsOkUnless result (Memory alloc_error) }
    {
        let alloc = *self.values.allocator();
        let len = self.values.len();
        self.values.extend_from_slice(other.values.as_slice())?;
        let _more = self.values.len();
        let more = other.values.len();
        if let Err(error) = validity::join(alloc, &mut self.validity, len, &other.validity, more) {
            self.values.truncate(len);
            return Err(error);
        }
        Ok(())
    }

    /// Keeps the first `n` slots and drops the rest.
    pub fn truncate(&mut self, n: usize)
        requires { n ≤ len self.old }
        ensures parts { self.new ≡ slice_layout self.old 0 n }
        ensures slots { slots_of self.new ≡ sublist (slots_of self.old) 0 n }
        ensures same_type { layout_type self.new ≡ layout_type self.old }
    {
        self.cut(n);
    }

    fn cut(&mut self, n: usize)
        requires { n ≤ len self.old }
        ensures { self.new ≡ slice_layout self.old 0 n }
    {
        self.values.truncate(n);
        validity::truncate(&mut self.validity, n);
    }

    /// Reserves capacity for `additional` more slots.
    ///
    /// # Errors
    /// `Memory` if an allocation fails.
    pub fn reserve(&mut self, additional: usize) -> Result<(), Error>
        ensures same { self.new ≡ self.old }
        ensures memory { IsOkUnless result (Memory alloc_error) }
    {
        self.values.reserve(additional)?;
        validity::reserve(&mut self.validity, additional)
    }

    /// Releases unused capacity if smaller blocks can be allocated.
    pub fn shrink_to_fit(&mut self)
        ensures { self.new ≡ self.old }
    {
        self.values.shrink_to_fit();
        validity::shrink_to_fit(&mut self.validity);
    }

    /// Returns the array of the slots and empties the builder, also on error. The data type is kept.
    ///
    /// # Errors
    /// `Memory` if an allocation fails.
    pub fn freeze(&mut self) -> Result<PrimitiveArray<T>, Error>
        ensures ok { IfOk result (λ a. a ≡ self.old) }
        ensures emptied { self.new ≡ layouts.primitive T.PRIMITIVE (layout_type self.old) [] None }
        ensures memory { IsOkUnless result (Memory alloc_error) }
    {
        let alloc = *self.values.allocator();
        let values = mem::replace(&mut self.values, Vec::new(alloc));
        let validity = validity::freeze(&mut self.validity)?;
        let values = Buffer::from_vec(alloc, values)?;
        PrimitiveArray::try_new(self.data_type.clone(alloc)?, values, validity)
    }
}

impl<T: NativeType> Grow<Option<T>> for MutablePrimitiveArray<T> {
    ghost layout = { λ b. b };

    ghost slot_of_item = { optional (λ x. slots.number (T.numbers x)) };

    ghost pushed = { λ a x. pushed_native a (option_map T.numbers x) };

    ghost refusal = { native_refusal };

    fn count(&self) -> usize {
        self.values.len()
    }

    fn has_validity(&self) -> bool {
        self.validity.is_some()
    }

    fn push_item(&mut self, item: Option<T>) -> Result<(), Error> {
        let alloc = *self.values.allocator();
        let len = self.values.len();
        self.values.push(value_or_zero(item))?;
        let _more = self.values.len();
        if let Err(error) = validity::push(alloc, &mut self.validity, len, item.is_some()) {
            self.values.truncate(len);
            return Err(error);
        }
        Ok(())
    }

    fn rollback(&mut self, n: usize, masked: bool) {
        self.values.truncate(n);
        validity::rollback(&mut self.validity, n, masked);
    }
}

/// Returns the raw value of an item: zero for a null.
fn value_or_zero<T: NativeType>(item: Option<T>) -> T
    ensures { T.numbers result ≡ unwrap_or (option_map T.numbers item) (zeros T.PRIMITIVE) }
{
    match item {
        Some(value) => value,
        None => T::zero(),
    }
}
