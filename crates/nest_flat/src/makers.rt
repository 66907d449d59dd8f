//! Constructors of arrays from slices of values or options.
ghost use Rattle.std.specs.Prelude.{◌≡◌, ◌≤◌, ◌<◌, ◌⊎◌, ◌++◌, false, IfErr, IfOk, IsOkUnless, None, OnOk, Some, map, option_map, alloc_error};
ghost use Rattle.std.specs.Option.{option_copied, unwrap_or};
ghost use Rattle.nest_memory.specs.TypeTree as types;
ghost use Rattle.nest_model.specs.Layout as layouts;
ghost use Rattle.nest_model.specs.Slot as slots;
ghost use Rattle.nest_flat.specs.Growth.{refusal_of_all};
ghost use Rattle.nest_flat.specs.Slices.{option_bits};
ghost use Rattle.nest_flat.specs.Words.{Extended, Memory, Overflow, binary_tree, bytes_held, layout_type, optional, primitive_tree, slots_of, text_tree, validity_of, zeros};

use crate::binary::BinaryArray;
use crate::binary::mutable::MutableBinaryArray;
use crate::boolean::BooleanArray;
use crate::boolean::mutable::MutableBooleanArray;
use crate::growth::extend::{Grow, extend_by_push};
use crate::primitive::PrimitiveArray;
use crate::primitive::mutable::MutablePrimitiveArray;
use crate::utf8::Utf8Array;
use crate::utf8::mutable::MutableUtf8Array;
use nest_memory::bitmap::immutable::Bitmap;
use nest_memory::buffer::Buffer;
use nest_memory::datatypes::DataType;
use nest_memory::error::Error;
use nest_memory::offset::Offset;
use nest_memory::types::NativeType;
use std::alloc::Global;

/// Appends each option of a slice.
fn push_options<T: Copy, B: Grow<Option<T>>>(
    builder: &mut B,
    items: &[Option<T>],
) -> Result<(), Error>
    ensures ok { OnOk result (Extended B.pushed B.refusal B.slot_of_item items.now (B.layout builder.old) (B.layout builder.new)) }
    ensures same_type { layout_type (B.layout builder.new) ≡ layout_type (B.layout builder.old) }
    ensures cause { IfErr result (λ e. (refusal_of_all B.pushed B.refusal (B.layout builder.old) items.now ≡ Some e) ⊎ (e ≡ Memory alloc_error)) }
{
    extend_by_push(builder, items.iter().copied())
}

/// Appends each value of a slice.
fn push_values<T: Copy, B: Grow<Option<T>>>(builder: &mut B, values: &[T]) -> Result<(), Error>
    ensures ok { OnOk result (Extended B.pushed B.refusal B.slot_of_item (map Some values.now) (B.layout builder.old) (B.layout builder.new)) }
    ensures slots { OnOk result (slots_of (B.layout builder.new) ≡ slots_of (B.layout builder.old) ++ map (λ x. B.slot_of_item (Some x)) values.now) }
    ensures same_type { layout_type (B.layout builder.new) ≡ layout_type (B.layout builder.old) }
    ensures cause { IfErr result (λ e. (refusal_of_all B.pushed B.refusal (B.layout builder.old) (map Some values.now) ≡ Some e) ⊎ (e ≡ Memory alloc_error)) }
{
    extend_by_push(builder, values.iter().copied().map(|value| Some(value)))
}

impl<T: NativeType> PrimitiveArray<T> {
    /// Returns an array of these values, with the default data type of `T`.
    ///
    /// # Errors
    /// `Memory` if an allocation fails.
    pub fn from_slice(alloc: Global, values: &[T]) -> Result<PrimitiveArray<T>, Error>
        ensures parts { IfOk result (λ a. a ≡ layouts.primitive T.PRIMITIVE (primitive_tree T.PRIMITIVE) (map T.numbers values.now) None) }
        ensures slots { IfOk result (λ a. slots_of a ≡ map (λ x. slots.number (T.numbers x)) values.now) }
        ensures memory { IsOkUnless result (Memory alloc_error) }
    {
        let copies = Vec::from_slice(alloc, values)?;
        let buffer = Buffer::from_vec(alloc, copies)?;
        PrimitiveArray::try_new(DataType::from(T::PRIMITIVE), buffer, None)
    }

    /// Returns an array of these values and nulls, with the default data type of `T`. There is a validity only if an
    /// item is `None`.
    ///
    /// # Errors
    /// `Memory` if an allocation fails.
    pub fn from_options(alloc: Global, items: &[Option<T>]) -> Result<PrimitiveArray<T>, Error>
        ensures parts { IfOk result (λ a. a ≡ layouts.primitive T.PRIMITIVE (primitive_tree T.PRIMITIVE)
            (map (λ x. unwrap_or (option_map T.numbers x) (zeros T.PRIMITIVE)) items.now) (option_bits items.now)) }
        ensures slots { IfOk result (λ a. slots_of a ≡ map (optional (λ x. slots.number (T.numbers x))) items.now) }
        ensures memory { IsOkUnless result (Memory alloc_error) }
    {
        let mut builder = MutablePrimitiveArray::new(alloc);
        push_options(&mut builder, items)?;
        builder.freeze()
    }
}

impl BooleanArray {
    /// Returns an array of these booleans, of the type Boolean.
    ///
    /// # Errors
    /// `Memory` if an allocation fails.
    pub fn from_slice(alloc: Global, values: &[bool]) -> Result<BooleanArray, Error>
        ensures parts { IfOk result (λ a. a ≡ layouts.boolean types.boolean values.now None) }
        ensures slots { IfOk result (λ a. slots_of a ≡ map slots.boolean values.now) }
        ensures memory { IsOkUnless result (Memory alloc_error) }
    {
        let bits = Bitmap::from_bools(alloc, values)?;
        BooleanArray::try_new(DataType::Boolean, bits, None)
    }

    /// Returns an array of these booleans and nulls, of the type Boolean. There is a validity only if an item is
    /// `None`.
    ///
    /// # Errors
    /// `Memory` if an allocation fails.
    pub fn from_options(alloc: Global, items: &[Option<bool>]) -> Result<BooleanArray, Error>
        ensures parts { IfOk result (λ a. a ≡ layouts.boolean types.boolean (map (λ x. unwrap_or x false) items.now) (option_bits items.now)) }
        ensures slots { IfOk result (λ a. slots_of a ≡ map (optional slots.boolean) items.now) }
        ensures memory { IsOkUnless result (Memory alloc_error) }
    {
        let _count = items.len();
        let mut builder = MutableBooleanArray::new(alloc);
        push_options(&mut builder, items)?;
        builder.freeze()
    }
}

impl<O: Offset> Utf8Array<O> {
    /// Returns an array of these strings, of the type `LargeUtf8` or `Utf8` by the width of the offsets.
    ///
    /// # Errors
    /// `Overflow` if the number of bytes exceeds the offset type, `Memory` if an allocation fails.
    pub fn from_slice(alloc: Global, texts: &[&str]) -> Result<Utf8Array<O>, Error>
        ensures slots { IfOk result (λ a. slots_of a ≡ map (λ x. slots.utf8 x.now) texts.now) }
        ensures typed { IfOk result (λ a. layout_type a ≡ text_tree O.IS_LARGE) }
        ensures valid { IfOk result (λ a. validity_of a ≡ None) }
        ensures room { OnOk result (bytes_held (map (λ x. slots.utf8 x.now) texts.now) ≤ O.largest) }
        ensures errors { IfErr result (λ e. ((e ≡ Overflow) × (O.largest < bytes_held (map (λ x. slots.utf8 x.now) texts.now))) ⊎ (e ≡ Memory alloc_error)) }
    {
        let mut builder = MutableUtf8Array::new(alloc)?;
        push_values(&mut builder, texts)?;
        builder.known();
        builder.freeze()
    }

    /// Returns an array of these strings and nulls, of the type `LargeUtf8` or `Utf8` by the width of the offsets.
    /// There is a validity only if an item is `None`.
    ///
    /// # Errors
    /// `Overflow` if the number of bytes exceeds the offset type, `Memory` if an allocation fails.
    pub fn from_options(alloc: Global, items: &[Option<&str>]) -> Result<Utf8Array<O>, Error>
        ensures slots { IfOk result (λ a. slots_of a ≡ map (λ x. optional slots.utf8 (option_copied x)) items.now) }
        ensures typed { IfOk result (λ a. layout_type a ≡ text_tree O.IS_LARGE) }
        ensures valid { IfOk result (λ a. validity_of a ≡ option_bits items.now) }
        ensures room { OnOk result (bytes_held (map (λ x. optional slots.utf8 (option_copied x)) items.now) ≤ O.largest) }
        ensures errors { IfErr result (λ e. ((e ≡ Overflow) × (O.largest < bytes_held (map (λ x. optional slots.utf8 (option_copied x)) items.now))) ⊎ (e ≡ Memory alloc_error)) }
    {
        let mut builder = MutableUtf8Array::new(alloc)?;
        push_options(&mut builder, items)?;
        builder.known();
        builder.freeze()
    }
}

impl<O: Offset> BinaryArray<O> {
    /// Returns an array of these byte strings, of the type `LargeBinary` or `Binary` by the width of the offsets.
    ///
    /// # Errors
    /// `Overflow` if the number of bytes exceeds the offset type, `Memory` if an allocation fails.
    pub fn from_slice(alloc: Global, strings: &[&[u8]]) -> Result<BinaryArray<O>, Error>
        ensures slots { IfOk result (λ a. slots_of a ≡ map (λ x. slots.bytes x.now) strings.now) }
        ensures typed { IfOk result (λ a. layout_type a ≡ binary_tree O.IS_LARGE) }
        ensures valid { IfOk result (λ a. validity_of a ≡ None) }
        ensures room { OnOk result (bytes_held (map (λ x. slots.bytes x.now) strings.now) ≤ O.largest) }
        ensures errors { IfErr result (λ e. ((e ≡ Overflow) × (O.largest < bytes_held (map (λ x. slots.bytes x.now) strings.now))) ⊎ (e ≡ Memory alloc_error)) }
    {
        let mut builder = MutableBinaryArray::new(alloc)?;
        push_values(&mut builder, strings)?;
        builder.known();
        builder.freeze()
    }

    /// Returns an array of these byte strings and nulls, of the type `LargeBinary` or `Binary` by the width of the
    /// offsets. There is a validity only if an item is `None`.
    ///
    /// # Errors
    /// `Overflow` if the number of bytes exceeds the offset type, `Memory` if an allocation fails.
    pub fn from_options(alloc: Global, items: &[Option<&[u8]>]) -> Result<BinaryArray<O>, Error>
        ensures slots { IfOk result (λ a. slots_of a ≡ map (λ x. optional slots.bytes (option_copied x)) items.now) }
        ensures typed { IfOk result (λ a. layout_type a ≡ binary_tree O.IS_LARGE) }
        ensures valid { IfOk result (λ a. validity_of a ≡ option_bits items.now) }
        ensures room { OnOk result (bytes_held (map (λ x. optional slots.bytes (option_copied x)) items.now) ≤ O.largest) }
        ensures errors { IfErr result (λ e. ((e ≡ Overflow) × (O.largest < bytes_held (map (λ x. optional slots.bytes (option_copied x)) items.now))) ⊎ (e ≡ Memory alloc_error)) }
    {
        let mut builder = MutableBinaryArray::new(alloc)?;
        push_options(&mut builder, items)?;
        builder.known();
        builder.freeze()
    }
}
