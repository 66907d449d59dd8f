//! `take` for struct arrays.
ghost use Rattle.std.specs.Prelude.{◌≡◌, ◌⊎◌, IfErr, IfOk, IsOkUnless, alloc_error};
ghost use Rattle.nest_model.specs.Fits.{Fits};
ghost use Rattle.nest_model.specs.Layout as layouts;
ghost use Rattle.nest_array.specs.Seen.{layout_of, layouts_of};
ghost use Rattle.nest_take.specs.Words.{AreBelow, EachReaches, EachTaken, IsTaken, Memory, Overflow, RefusesTake, SomePasses, len, type_of};

use crate::any::take;
use crate::indices;
use nest_array::{AnyArray, StructArray};
use nest_memory::bitmap::immutable::Bitmap;
use nest_memory::datatypes::DataType;
use nest_memory::error::Error;
use std::alloc::Global;

/// Takes the slots at `indices`. The child slots under a null are taken too.
#[cycle(take)]
#[inline(never)]
pub(crate) fn take_records(
    alloc: Global,
    array: &StructArray,
    indices: &[usize],
) -> Result<AnyArray, Error>
    requires { AreBelow indices.now (len array.now) }
    ensures ok { IfOk result (λ a. IsTaken array.now indices.now (layout_of a)) }
    ensures err { IfErr result (λ e. RefusesTake e array.now indices.now) }
{
    array.known();
    let validity = indices::validity_at(alloc, array.validity(), indices)?;
    match take_all(alloc, array.values(), indices) {
        Ok(values) => array_of(alloc, array.data_type(), values, validity),
        Err(error) => Err(error),
    }
}

/// Takes the slots at `indices` of each child.
#[cycle(take)]
pub(crate) fn take_all(
    alloc: Global,
    children: &[AnyArray],
    indices: &[usize],
) -> Result<Vec<AnyArray>, Error>
    requires { EachReaches (layouts_of children.now) indices.now }
    ensures ok { IfOk result (λ v. EachTaken (layouts_of children.now) indices.now (layouts_of v.items)) }
    ensures err { IfErr result (λ e. (e ≡ Memory alloc_error) ⊎ ((e ≡ Overflow) × SomePasses (layouts_of children.now) indices.now)) }
{
    let mut taken = Vec::with_capacity(alloc, children.len())?;
    for i in 0..children.len() {
        match take(alloc, &children[i], indices) {
            Ok(child) => taken.push_reserved(child),
            Err(error) => return Err(error),
        }
    }
    Ok(taken)
}

/// Returns the array with these parts.
fn array_of(
    alloc: Global,
    data_type: &DataType,
    values: Vec<AnyArray>,
    validity: Option<Bitmap>,
) -> Result<AnyArray, Error>
    requires { Fits (layouts.struct (type_of data_type.now) (layouts_of values.items) validity) }
    ensures ok { IfOk result (λ a. layout_of a ≡ layouts.struct (type_of data_type.now) (layouts_of values.items) validity) }
    ensures err { IsOkUnless result (Memory alloc_error) }
{
    match data_type.clone(alloc) {
        Ok(data_type) => Ok(AnyArray::Struct(StructArray::new(data_type, values, validity))),
        Err(error) => {
            drop(validity);
            drop(values);
            Err(error)
        }
    }
}
