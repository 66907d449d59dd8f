//! Flat arrays: primitive, boolean, binary and UTF-8 arrays, each a list of nulls and values.
//!
//! A constructor succeeds exactly where its parts fit, and else returns the error of the first check that fails. Slices,
//! lengths, nulls and new validities are stated for every kind of array in [`crate::arrays::any`].
ghost use Rattle.std.specs.Iterator.{YieldsFirstBy};
ghost use Rattle.std.specs.Prelude.{◌≡◌, ◌<◌, MatchResult, Some, length, slice_get, map};
ghost use Rattle.nest_flat.specs.AnyPrimitive.{primitive_layout};
ghost use Rattle.nest_flat.specs.FlatParts.{optional};
ghost use Rattle.nest_memory.specs.TypeOf.{type_of};
ghost use Rattle.nest_model.specs.Accessors.{natives_of, validity_of};
ghost use Rattle.nest_model.specs.Fits.{FirstError, Fits};
ghost use Rattle.nest_model.specs.Layout as layouts;
ghost use Rattle.nest_model.specs.Meaning.{len, slot, slots_of, where_valid};
ghost use Rattle.nest_model.specs.Slot as slots;

use nest_flat::any_primitive::{AnyPrimitive, NativeArray};
use nest_flat::binary::BinaryArray;
use nest_flat::boolean::BooleanArray;
use nest_flat::iterator::{SlotItems, SlotsIter};
use nest_flat::primitive::PrimitiveArray;
use nest_flat::utf8::Utf8Array;
use nest_memory::bitmap::immutable::Bitmap;
use nest_memory::buffer::Buffer;
use nest_memory::datatypes::DataType;
use nest_memory::error::Error;
use nest_memory::offset::Offset;
use nest_memory::offsets::OffsetsBuffer;
use nest_memory::types::NativeType;

/// Returns a primitive array of these parts.
pub fn new_primitive<T: NativeType>(
    data_type: DataType,
    values: Buffer<T>,
    validity: Option<Bitmap>,
) -> Result<PrimitiveArray<T>, Error>
    ensures { let parts = layouts.primitive T.PRIMITIVE (type_of data_type) (map T.numbers values) validity in
        MatchResult result (λ a. Fits parts × (a ≡ parts)) (λ e. FirstError e parts) }
{
    PrimitiveArray::try_new(data_type, values, validity)
}

/// Returns a boolean array of these parts.
pub fn new_boolean(
    data_type: DataType,
    values: Bitmap,
    validity: Option<Bitmap>,
) -> Result<BooleanArray, Error>
    ensures { let parts = layouts.boolean (type_of data_type) values validity in
        MatchResult result (λ a. Fits parts × (a ≡ parts)) (λ e. FirstError e parts) }
{
    BooleanArray::try_new(data_type, values, validity)
}

/// Returns a binary array of these parts, with 32-bit or 64-bit offsets.
pub fn new_binary<O: Offset>(
    data_type: DataType,
    offsets: OffsetsBuffer<O>,
    values: Buffer<u8>,
    validity: Option<Bitmap>,
) -> Result<BinaryArray<O>, Error>
    ensures { let parts = layouts.binary O.IS_LARGE (type_of data_type) offsets values validity in
        MatchResult result (λ a. Fits parts × (a ≡ parts)) (λ e. FirstError e parts) }
{
    BinaryArray::try_new(data_type, offsets, values, validity)
}

/// Returns a UTF-8 array of these parts. They fit only where the bytes of each slot are UTF-8.
pub fn new_utf8<O: Offset>(
    data_type: DataType,
    offsets: OffsetsBuffer<O>,
    values: Buffer<u8>,
    validity: Option<Bitmap>,
) -> Result<Utf8Array<O>, Error>
    ensures { let parts = layouts.utf8 O.IS_LARGE (type_of data_type) offsets values validity in
        MatchResult result (λ a. Fits parts × (a ≡ parts)) (λ e. FirstError e parts) }
{
    Utf8Array::try_new(data_type, offsets, values, validity)
}

/// Returns the boolean of a slot, or `None` where the slot is null.
pub fn boolean_at(array: &BooleanArray, i: usize) -> Option<bool>
    requires { i < len array.now }
    ensures { optional (λ x. slots.boolean x) result ≡ slot array.now i }
{
    array.get(i)
}

/// Returns the bytes of a slot, or `None` where the slot is null.
pub fn binary_at<O: Offset>(array: &BinaryArray<O>, i: usize) -> Option<&[u8]>
    requires { i < len array.now }
    ensures { optional (λ x. slots.bytes x.now) result ≡ slot array.now i }
{
    array.get(i)
}

/// Returns the string of a slot, or `None` where the slot is null.
pub fn utf8_at<O: Offset>(array: &Utf8Array<O>, i: usize) -> Option<&str>
    requires { i < len array.now }
    ensures { optional (λ x. slots.utf8 x.now) result ≡ slot array.now i }
{
    array.get(i)
}

/// Returns the value of a slot, also of a null slot.
pub fn primitive_value_at<T: NativeType>(values: &PrimitiveArray<T>, i: usize) -> T
    requires { i < len values.now }
    ensures value { slice_get (natives_of values.now) i ≡ Some (T.numbers result) }
    ensures slot { slot values.now i ≡ where_valid (validity_of values.now) i (slots.number (T.numbers result)) }
{
    values.value(i)
}

/// Returns an iterator over all slots of a flat array of any kind.
pub fn iterate_slots<S: SlotItems>(array: S) -> SlotsIter<S>
    ensures { result ≡ slots_of (S.array array) }
{
    SlotsIter::new(array)
}

/// Returns the first remaining slot and advances, or `None` where none remains.
pub fn next_slot<S: SlotItems>(iter: &mut SlotsIter<S>) -> Option<S::Item>
    ensures { YieldsFirstBy S.slot_of_item (λ s. s) iter.old result iter.new }
{
    iter.next()
}

/// Returns the exact number of remaining slots as size hint.
pub fn remaining_slots<S: SlotItems>(iter: &SlotsIter<S>) -> (usize, Option<usize>)
    ensures { result ≡ (length iter.now, Some (length iter.now)) }
{
    iter.size_hint()
}

/// Returns one of the twelve primitive arrays as `AnyPrimitive`, with the same slots.
pub fn wrap_primitive<T: NativeArray>(array: T::Array) -> AnyPrimitive
    ensures { primitive_layout result ≡ T.layout_of_array array }
{
    T::wrap(array)
}
