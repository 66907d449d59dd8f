//! Arrays: every array, however nested and sliced, represents the one list of slots that its parts encode.
ghost use Rattle.std.specs.Iterator.{YieldsLastBy};
ghost use Rattle.std.specs.Prelude.{◌≡◌, ◌+◌, ◌≤◌, ◌<◌, MatchResult, length, None};
ghost use Rattle.nest_array.specs.Seen.{layout_of, layouts_of};
ghost use Rattle.nest_flat.specs.FlatParts.{optional};
ghost use Rattle.nest_memory.specs.Sublist.{sublist};
ghost use Rattle.nest_memory.specs.TypeOf.{type_of};
ghost use Rattle.nest_model.specs.Fits.{FirstError, Fits};
ghost use Rattle.nest_model.specs.Layout as layouts;
ghost use Rattle.nest_model.specs.Layout.{layout_type};
ghost use Rattle.nest_model.specs.MadeNulls.{HasNulls, RefusesType};
ghost use Rattle.nest_model.specs.Meaning.{len, slot, slots_of};
ghost use Rattle.nest_model.specs.Nulls.{type_error};
ghost use Rattle.nest_model.specs.Slice.{slice_layout};
ghost use Rattle.nest_model.specs.Slot as slots;

use nest_array::{AnyArray, Array, UnionArray, new_null_array};
use nest_flat::iterator::{SlotItems, SlotsIter};
use nest_flat::primitive::PrimitiveArray;
use nest_memory::buffer::Buffer;
use nest_memory::datatypes::DataType;
use nest_memory::error::Error;
use nest_memory::types::NativeType;
use std::alloc::Global;

/// Slices the array in place: its list becomes the slice of the list, and its data type is kept.
pub fn slice_in_place<A: Array>(array: &mut A, o: usize, n: usize)
    requires { o + n ≤ len (A.layout array.old) }
    ensures parts { A.layout array.new ≡ slice_layout (A.layout array.old) o n }
    ensures slots { slots_of (A.layout array.new) ≡ sublist (slots_of (A.layout array.old)) o n }
    ensures data_type { layout_type (A.layout array.new) ≡ layout_type (A.layout array.old) }
{
    array.slice(o, n);
}

/// Returns a union array over fields of any kind: dense with `offsets`, sparse without.
pub fn new_union(
    data_type: DataType,
    types: Buffer<i8>,
    fields: Vec<AnyArray>,
    offsets: Option<Buffer<i32>>,
) -> Result<UnionArray, Error>
    ensures { let parts = layouts.union (type_of data_type) types (layouts_of fields.items) offsets 0 in
        MatchResult result (λ a. Fits parts × (a ≡ parts)) (λ e. FirstError e parts) }
{
    UnionArray::try_new(data_type, types, fields, offsets)
}

/// Returns the value of a slot, or `None` where the slot is null.
pub fn primitive_at<T: NativeType>(values: &PrimitiveArray<T>, i: usize) -> Option<T>
    requires { i < len values.now }
    ensures { optional (λ x. slots.number (T.numbers x)) result ≡ slot values.now i }
{
    values.get(i)
}

/// Returns the last remaining slot and drops it, or `None` where none remains.
pub fn next_slot_back<S: SlotItems>(iter: &mut SlotsIter<S>) -> Option<S::Item>
    ensures { YieldsLastBy S.slot_of_item (λ s. s) iter.old result iter.new }
{
    iter.next_back()
}

/// Returns `length` null slots of a data type. Fails exactly where the type and the length have an error, or when an allocation
/// fails.
pub fn nulls_of_type(alloc: Global, data_type: DataType, length: usize) -> Result<AnyArray, Error>
    ensures { let t = type_of data_type in MatchResult result
        (λ a. (type_error t length ≡ None) × HasNulls t length (layout_of a))
        (λ e. RefusesType e (type_error t length)) }
{
    new_null_array(alloc, data_type, length)
}
