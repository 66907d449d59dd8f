//! Whether appending values would push an offset of a dense union over 32 bits. Source: Columnar format, "Dense Union".
ghost use Rattle.std.specs.Prelude.{◌≡◌, ◌↔◌, ◌≤◌, ◌+◌, ◌^◌, IsTrue, Some};
ghost use Rattle.nest_model.specs.Fits.{child_len};
ghost use Rattle.nest_array.specs.Seen.{layout_of, layouts_of};
ghost use Rattle.ipc.specs.UnionOffsets.{spec_children, spec_slots_overflow, spec_offsets_overflow, spec_union_offsets_overflow, spec_any_overflows};

use crate::dictionaries::pending::show_kind;
use nest_array::any::AnyArray;
use nest_array::union::UnionArray;
use std::slice;

// The first value that a signed offset of 32 bits cannot hold.
const OFFSET_LIMIT: usize = 1 << 31;

// Returns the child arrays of an array. The values of a dictionary array are none of them.
fn children(array: &AnyArray) -> &[AnyArray]
    ensures { layouts_of result.now ≡ spec_children (layout_of array.now) }
{
    show_kind(array);
    match array {
        AnyArray::FixedSizeList(array) => {
            array.known();
            slice::from_ref(array.values())
        }
        AnyArray::List(array) => {
            array.known();
            slice::from_ref(array.values())
        }
        AnyArray::LargeList(array) => {
            array.known();
            slice::from_ref(array.values())
        }
        AnyArray::Map(array) => {
            array.known();
            slice::from_ref(array.field())
        }
        AnyArray::Struct(array) => {
            array.known();
            array.values()
        }
        AnyArray::Union(array) => {
            array.known();
            array.fields()
        }
        AnyArray::Dictionary(array) => {
            array.known();
            &[]
        }
        AnyArray::Null(_)
        | AnyArray::Boolean(_)
        | AnyArray::Primitive(_)
        | AnyArray::FixedSizeBinary(_)
        | AnyArray::Binary(_)
        | AnyArray::LargeBinary(_)
        | AnyArray::Utf8(_)
        | AnyArray::LargeUtf8(_) => &[],
    }
}

// Returns the length of a field, or 0 if there is no such field.
fn len_of(fields: &[AnyArray], f: usize) -> usize
    ensures { result ≡ child_len (layouts_of fields.now) (Some f) }
{
    if f < fields.len() {
        return fields[f].len();
    }
    0
}

// Returns whether an offset overflows when `n` slots precede it.
fn overflows(n: usize, position: usize) -> bool
    ensures { IsTrue result ↔ (2 ^ 31 ≤ n + position) }
{
    position >= OFFSET_LIMIT || n >= OFFSET_LIMIT - position
}

// Returns whether an offset of the union overflows when its fields are appended to these.
fn slots_overflow(fields: &[AnyArray], more: &UnionArray) -> bool
    ensures { result ≡ spec_slots_overflow (layouts_of fields.now) more.now }
{
    if more.offsets().is_none() {
        return false;
    }
    for i in 0..more.len() {
        let (f, position) = more.index(i);
        if overflows(len_of(fields, f), position) {
            return true;
        }
    }
    false
}

// Returns whether an offset of `more` overflows after `values`, if both are unions.
fn offsets_overflow(values: &AnyArray, more: &AnyArray) -> bool
    ensures { result ≡ spec_offsets_overflow (layout_of values.now) (layout_of more.now) }
{
    values.known();
    more.known();
    match (values.as_union(), more.as_union()) {
        (Some(values), Some(more)) => {
            values.known();
            slots_overflow(values.fields(), more)
        }
        _ => false,
    }
}

/// Returns whether an offset of a dense union overflows, at any depth, when `more` is appended to `values`.
#[cycle(dense)]
pub(crate) fn union_offsets_overflow(values: &AnyArray, more: &AnyArray) -> bool
    ensures { result ≡ spec_union_offsets_overflow (layout_of values.now) (layout_of more.now) }
{
    offsets_overflow(values, more) || any_overflows(children(values), children(more))
}

// The same, field by field.
#[cycle(dense)]
fn any_overflows(values: &[AnyArray], more: &[AnyArray]) -> bool
    ensures { result ≡ spec_any_overflows (layouts_of values.now) (layouts_of more.now) }
{
    for (x, y) in values.iter().zip(more) {
        if union_offsets_overflow(x, y) {
            return true;
        }
    }
    false
}
