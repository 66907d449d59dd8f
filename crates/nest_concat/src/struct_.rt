//! Concatenation of struct arrays, and of the children of structs and unions.
ghost use Rattle.std.specs.Prelude.{◌≡◌, ◌<◌, ℕ, IfErr, IfOk, IsOkUnless, alloc_error, length, map};
ghost use Rattle.nest_memory.specs.TypeTree.{count_fields, fields_of};
ghost use Rattle.nest_memory.specs.declared.datatypes.physical_type.PhysicalType.TheVariants as physical;
ghost use Rattle.nest_model.specs.Accessors.{child_at};
ghost use Rattle.nest_model.specs.Layout as layouts;
ghost use Rattle.nest_model.specs.Layout.{count_layouts};
ghost use Rattle.nest_array.specs.Seen.{layout_of, layouts_of};
ghost use Rattle.nest_concat.specs.Words.{AreArrays, AreWithin, EachJoined, Fits, HasFields, IsJoined, IsWithin, Memory, RefusesEach, RefusesJoin, TopFits, children_of, count_slots, field_window, first_array, layout_type, physical_type, type_of, laid, PassesLimits, laid_each, SomePasses};

use crate::any::join;
use crate::{bits, union};
use nest_array::{AnyArray, StructArray, Window};
use nest_memory::bitmap::immutable::Bitmap;
use nest_memory::datatypes::DataType;
use nest_memory::error::Error;
use std::alloc::Global;

/// Returns child `f`.
pub(crate) fn child(children: &[AnyArray], f: usize) -> &AnyArray
    requires { f < length children.now }
    ensures { layout_of result.now ≡ child_at (layouts_of children.now) f }
{
    &children[f]
}

/// Returns the window over the same slots of child `f` of a struct array.
fn field_of_window<'a>(window: &Window<'a>, f: usize) -> Window<'a>
    requires kind { physical_type (layout_type window.now.array) ≡ physical.Struct }
    requires field { f < count_fields (fields_of (layout_type window.now.array)) }
    ensures parts { result ≡ field_window f window.now }
    ensures fits { TopFits result.array }
{
    window.known();
    let Some(array) = window.array().as_struct() else {
        unreachable!()
    };
    array.known();
    let child = child(array.values(), f);
    child.known();
    let _len = child.len();
    Window::new(child, window.offset(), window.len())
}

/// Returns the window over the part of child `f` that the slots of a struct or union window are in.
fn part_of_window<'a>(window: &Window<'a>, f: usize) -> Window<'a>
    requires kind { HasFields (layout_type window.now.array) }
    requires field { f < count_fields (fields_of (layout_type window.now.array)) }
    ensures parts { result ≡ field_window f window.now }
    ensures fits { TopFits result.array }
{
    if window.array().as_struct().is_some() {
        field_of_window(window, f)
    } else {
        union::field_of_window(window, f)
    }
}

/// Returns the windows over child `f` of windows over struct or union arrays of one data type.
fn field<'a>(alloc: Global, windows: &[Window<'a>], f: usize) -> Result<Vec<Window<'a>>, Error>
    requires kind { HasFields (layout_type (first_array windows.now)) }
    requires within { AreWithin (layout_type (first_array windows.now)) windows.now }
    requires field { f < count_fields (fields_of (layout_type (first_array windows.now))) }
    ensures ok { IfOk result (λ v. v.items ≡ map (field_window f) windows.now) }
    ensures fit { IfOk result (λ v. AreArrays v.items) }
    ensures err { IsOkUnless result (Memory alloc_error) }
{
    let mut fields = Vec::with_capacity(alloc, windows.len())?;
    for window in windows {
        fields.push_reserved(part_of_window(window, f));
    }
    Ok(fields)
}

/// Concatenates windows over struct arrays, with the data type of `array`, the first array.
/// `total` is the number of slots.
///
/// Child slots under a null are kept.
#[cycle(join)]
#[inline(never)]
pub(crate) fn join_records(
    alloc: Global,
    array: &StructArray,
    windows: &[Window<'_>],
    total: usize,
) -> Result<AnyArray, Error>
    requires some { 0 < length windows.now }
    requires first { array.now ≡ first_array windows.now }
    requires within { AreWithin (layout_type array.now) windows.now }
    requires total { total ≡ count_slots windows.now }
    ensures ok { IfOk result (λ a. IsJoined (layout_type array.now) windows.now (layout_of a)) }
    ensures laid { IfOk result (λ a. layout_of a ≡ laid array.now windows.now) }
    ensures room { IfOk result (λ a. PassesLimits array.now windows.now → ⊥) }
    ensures err { IfErr result (λ e. RefusesJoin e array.now windows.now) }
{
    array.known();
    let validity = bits::validity(alloc, windows, total)?;
    match join_fields(alloc, array.values(), windows) {
        Ok(values) => array_of(alloc, array.data_type(), values, validity),
        Err(error) => Err(error),
    }
}

/// Concatenates each child of windows over struct or union arrays. `children` are those of the first array.
#[cycle(join)]
pub(crate) fn join_fields(
    alloc: Global,
    children: &[AnyArray],
    windows: &[Window<'_>],
) -> Result<Vec<AnyArray>, Error>
    requires some { 0 < length windows.now }
    requires kind { HasFields (layout_type (first_array windows.now)) }
    requires within { AreWithin (layout_type (first_array windows.now)) windows.now }
    requires children { layouts_of children.now ≡ children_of (first_array windows.now) }
    ensures ok { IfOk result (λ v. EachJoined (layouts_of children.now) 0 windows.now (layouts_of v.items)) }
    ensures laid { IfOk result (λ v. layouts_of v.items ≡ laid_each (layouts_of children.now) 0 windows.now) }
    ensures room { IfOk result (λ v. SomePasses (layouts_of children.now) 0 windows.now → ⊥) }
    ensures err { IfErr result (λ e. RefusesEach e (layouts_of children.now) windows.now) }
{
    let mut joined = Vec::with_capacity(alloc, children.len())?;
    for f in 0..children.len() {
        let slots = field(alloc, windows, f)?;
        match join(alloc, &slots) {
            Ok(child) => joined.push_reserved(child),
            Err(error) => return Err(error),
        }
    }
    Ok(joined)
}

/// Returns the array with these parts.
fn array_of(
    alloc: Global,
    data_type: &DataType,
    values: Vec<AnyArray>,
    validity: Option<Bitmap>,
) -> Result<AnyArray, Error>
    requires { Fits (layouts.struct (type_of data_type.now) (layouts_of values.items) validity) }
    ensures ok { IfOk result (λ a. layout_of a ≡ layouts.struct (type_of data_type.now) (layouts_of values.items) validity) }
    ensures err { IsOkUnless result (Memory alloc_error) }
{
    match data_type.clone(alloc) {
        Ok(data_type) => Ok(AnyArray::Struct(StructArray::new(data_type, values, validity))),
        Err(error) => {
            drop(validity);
            drop(values);
            Err(error)
        }
    }
}
