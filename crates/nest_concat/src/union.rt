//! Concatenation of union arrays.
ghost use Rattle.std.specs.Prelude.{◌≡◌, ◌⊎◌, ◌+◌, ◌-◌, ◌<◌, ◌≤◌, ◌^◌, ◌++◌, ◌∷◌, [], ℕ, List, IfErr, IfOk, IsOkUnless, None, OnOk, alloc_error, length, map};
ghost use Rattle.std.specs.List.{flat_map, range_with_len};
ghost use Rattle.nest_memory.specs.TypeTree.{count_fields, fields_of};
ghost use Rattle.nest_memory.specs.declared.datatypes.physical_type.PhysicalType.TheVariants as physical;
ghost use Rattle.nest_model.specs.Accessors.{child_at, union_offsets_of};
ghost use Rattle.nest_model.specs.Layout as layouts;
ghost use Rattle.nest_model.specs.Layout.{count_layouts};
ghost use Rattle.nest_array.specs.Seen.{layout_of, layouts_of};
ghost use Rattle.nest_concat.specs.Words.{AreAdvanced, AreFew, AreOfKind, AreWithin, Fits, IsJoined, Memory, Overflow, PassesOne, PassesPicks, RefusesJoin, TopFits, ArePlaced, behind, children_of, count_slots, field_window, first_array, joined_offsets, layout_type, len, lowest, moved_offsets, offset_by, part_of, physical_type, picks_in, type_of, type_ids_in, laid, PassesLimits};

use crate::natives;
use crate::struct_::{child, join_fields};
use nest_array::{AnyArray, UnionArray, Window};
use nest_memory::buffer::Buffer;
use nest_memory::datatypes::DataType;
use nest_memory::error::Error;
use std::alloc::Global;

/// Returns the union array of a window.
fn union_of<'a>(window: &Window<'a>) -> &'a UnionArray
    requires { physical_type (layout_type window.now.array) ≡ physical.Union }
    ensures { result.now ≡ window.now.array }
{
    let Some(array) = window.array().as_union() else {
        unreachable!()
    };
    array
}

/// Extends a range, from the lowest index to one past the highest, by one index. A range that ends at 0 is empty.
fn widened(span: (usize, usize), place: usize) -> (usize, usize)
    requires { place < 2 ^ 64 - 1 }
    ensures first { (ps : List ℕ) → span.0 ≡ lowest ps → span.1 ≡ behind ps → result.0 ≡ lowest (ps ++ place ∷ []) }
    ensures end { (ps : List ℕ) → span.1 ≡ behind ps → result.1 ≡ behind (ps ++ place ∷ []) }
{
    let (first, end) = span;
    if end == 0 {
        return (place, place + 1);
    }
    (first.min(place), end.max(place + 1))
}

/// Returns the lowest index at which the `n` slots from slot `o` pick field `f`, and one past the highest.
fn span(array: &UnionArray, f: usize, o: usize, n: usize) -> (usize, usize)
    requires within { o + n ≤ len array.now }
    requires field { f < count_layouts (children_of array.now) }
    ensures first { result.0 ≡ lowest (picks_in f array.now o n) }
    ensures end { result.1 ≡ behind (picks_in f array.now o n) }
{
    let fields = array.fields();
    let _len = array.len();
    let _fits = child(fields, f).len();
    let mut span = (0, 0);
    for i in 0..n {
        let (field, place) = array.index(o + i);
        if field == f {
            span = widened(span, place);
        }
    }
    span
}

/// Returns the start and the length of the part of field `f` that the `n` slots from slot `o` are in.
fn part(array: &UnionArray, f: usize, o: usize, n: usize) -> (usize, usize)
    requires within { o + n ≤ len array.now }
    requires field { f < count_layouts (children_of array.now) }
    ensures part { result ≡ part_of f array.now o n }
    ensures within { result.0 + result.1 ≤ len (child_at (children_of array.now) f) }
{
    array.known();
    if array.offsets().is_some() {
        let (first, end) = span(array, f, o, n);
        return (first, end - first);
    }
    if n == 0 {
        return (0, 0);
    }
    (array.index(o).1, n)
}

/// Returns the window over the part of field `f` that the slots of a window are in.
pub(crate) fn field_of_window<'a>(window: &Window<'a>, f: usize) -> Window<'a>
    requires kind { physical_type (layout_type window.now.array) ≡ physical.Union }
    requires field { f < count_fields (fields_of (layout_type window.now.array)) }
    ensures parts { result ≡ field_window f window.now }
    ensures fits { TopFits result.array }
{
    window.known();
    let array = union_of(window);
    array.known();
    let field = child(array.fields(), f);
    field.known();
    let (first, n) = part(array, f, window.offset(), window.len());
    Window::new(field, first, n)
}

/// Returns the type ids of windows. `total` is the number of slots.
fn types(alloc: Global, windows: &[Window<'_>], total: usize) -> Result<Buffer<i8>, Error>
    requires { AreOfKind physical.Union windows.now }
    ensures ok { IfOk result (λ b. b ≡ flat_map type_ids_in windows.now) }
    ensures err { IsOkUnless result (Memory alloc_error) }
{
    let mut taken = Vec::with_capacity(alloc, total)?;
    for window in windows {
        taken.extend_from_slice(types_of_window(window))?;
    }
    Buffer::from_vec(alloc, taken)
}

/// Returns the type ids of a window.
fn types_of_window<'a>(window: &Window<'a>) -> &'a [i8]
    requires { physical_type (layout_type window.now.array) ≡ physical.Union }
    ensures { result.now ≡ type_ids_in window.now }
{
    window.known();
    let array = union_of(window);
    array.known();
    let _len = array.len();
    natives::part(array.types().as_slice(), window.offset(), window.len())
}

/// Adds the length of a window's part of each field to `counts`, and stores where each part ends in `ends`.
///
/// # Errors
/// `Overflow` where a count is more than 2^31.
fn advance(
    window: &Window<'_>,
    n: usize,
    ends: &mut [usize; 128],
    counts: &mut [usize; 128],
) -> Result<(), Error>
    requires kind { physical_type (layout_type window.now.array) ≡ physical.Union }
    requires fields { n ≡ count_fields (fields_of (layout_type window.now.array)) }
    requires few { AreFew counts.old }
    ensures ok { OnOk result (AreAdvanced n window.now counts.old ends.new counts.new) }
    ensures few { AreFew counts.new }
    ensures err { IfErr result (λ e. (e ≡ Overflow) × PassesOne n window.now counts.old) }
{
    union_of(window).known();
    for f in 0..n {
        let part = field_of_window(window, f);
        part.known();
        let _len = part.array().len();
        if part.len() > 2147483648 - counts[f] {
            return Err(Error::Overflow);
        }
        counts[f] += part.len();
        ends[f] = part.offset() + part.len();
    }
    Ok(())
}

/// Appends the offsets of a window. Its parts end at `ends`, and `counts` slots of each field precede those ends.
fn push_offsets(
    offsets: &mut Vec<i32>,
    window: &Window<'_>,
    ends: &[usize; 128],
    counts: &[usize; 128],
) -> Result<(), Error>
    requires kind { physical_type (layout_type window.now.array) ≡ physical.Union }
    requires dense { union_offsets_of window.now.array ≡ None → ⊥ }
    requires parts { ArePlaced window.now ends.now counts.now }
    ensures ok { OnOk result (offsets.new.items ≡ offsets.old.items ++ map (offset_by ends.now counts.now window.now) (range_with_len window.now.offset window.now.count)) }
    ensures err { IsOkUnless result (Memory alloc_error) }
{
    window.known();
    let array = union_of(window);
    array.known();
    let _len = array.len();
    let start = window.offset();
    for i in 0..window.len() {
        let (field, place) = array.index(start + i);
        offsets.push((counts[field] - (ends[field] - place)) as i32)?;
    }
    Ok(())
}

/// Returns the offsets of windows over dense unions. `total` is the number of slots.
fn offsets_behind(
    alloc: Global,
    array: &UnionArray,
    windows: &[Window<'_>],
    total: usize,
) -> Result<Buffer<i32>, Error>
    requires within { AreWithin (layout_type array.now) windows.now }
    requires dense { union_offsets_of array.now ≡ None → ⊥ }
    ensures ok { IfOk result (λ b. b ≡ moved_offsets windows.now) }
    ensures room { IfOk result (λ b. PassesPicks (union_offsets_of array.now) (count_layouts (children_of array.now)) windows.now → ⊥) }
    ensures err { IfErr result (λ e. (e ≡ Memory alloc_error) ⊎ ((e ≡ Overflow) × PassesPicks (union_offsets_of array.now) (count_layouts (children_of array.now)) windows.now)) }
{
    array.known();
    let n = array.fields().len();
    let mut ends = [0_usize; 128];
    let mut counts = [0_usize; 128];
    let mut offsets = Vec::with_capacity(alloc, total)?;
    for window in windows {
        advance(window, n, &mut ends, &mut counts)?;
        push_offsets(&mut offsets, window, &ends, &counts)?;
    }
    Buffer::from_vec(alloc, offsets)
}

/// Returns the offsets of windows over unions of one mode, `None` for sparse unions. `total` is the number of slots.
fn offsets(
    alloc: Global,
    array: &UnionArray,
    windows: &[Window<'_>],
    total: usize,
) -> Result<Option<Buffer<i32>>, Error>
    requires { AreWithin (layout_type array.now) windows.now }
    ensures ok { IfOk result (λ b. b ≡ joined_offsets (union_offsets_of array.now) windows.now) }
    ensures room { IfOk result (λ b. PassesPicks (union_offsets_of array.now) (count_layouts (children_of array.now)) windows.now → ⊥) }
    ensures err { IfErr result (λ e. (e ≡ Memory alloc_error) ⊎ ((e ≡ Overflow) × PassesPicks (union_offsets_of array.now) (count_layouts (children_of array.now)) windows.now)) }
{
    if array.offsets().is_none() {
        return Ok(None);
    }
    Ok(Some(offsets_behind(alloc, array, windows, total)?))
}

/// Concatenates windows over union arrays, with the data type of `array`, the first array.
/// `total` is the number of slots.
///
/// Of each field of a dense union, a window contributes the slots from the lowest picked one to the highest.
#[cycle(join)]
#[inline(never)]
pub(crate) fn join_unions(
    alloc: Global,
    array: &UnionArray,
    windows: &[Window<'_>],
    total: usize,
) -> Result<AnyArray, Error>
    requires some { 0 < length windows.now }
    requires first { array.now ≡ first_array windows.now }
    requires within { AreWithin (layout_type array.now) windows.now }
    requires total { total ≡ count_slots windows.now }
    ensures ok { IfOk result (λ a. IsJoined (layout_type array.now) windows.now (layout_of a)) }
    ensures laid { IfOk result (λ a. layout_of a ≡ laid array.now windows.now) }
    ensures room { IfOk result (λ a. PassesLimits array.now windows.now → ⊥) }
    ensures err { IfErr result (λ e. RefusesJoin e array.now windows.now) }
{
    array.known();
    let offsets = offsets(alloc, array, windows, total)?;
    let types = types(alloc, windows, total)?;
    match join_fields(alloc, array.fields(), windows) {
        Ok(fields) => array_of(alloc, array.data_type(), types, fields, offsets),
        Err(error) => Err(error),
    }
}

/// Returns the array with these parts.
fn array_of(
    alloc: Global,
    data_type: &DataType,
    types: Buffer<i8>,
    fields: Vec<AnyArray>,
    offsets: Option<Buffer<i32>>,
) -> Result<AnyArray, Error>
    requires { Fits (layouts.union (type_of data_type.now) types (layouts_of fields.items) offsets 0) }
    ensures ok { IfOk result (λ a. layout_of a ≡ layouts.union (type_of data_type.now) types (layouts_of fields.items) offsets 0) }
    ensures err { IsOkUnless result (Memory alloc_error) }
{
    match data_type.clone(alloc) {
        Ok(data_type) => {
            let array = UnionArray::new(data_type, types, fields, offsets);
            Ok(AnyArray::Union(array))
        }
        Err(error) => {
            drop(offsets);
            drop(fields);
            drop(types);
            Err(error)
        }
    }
}
