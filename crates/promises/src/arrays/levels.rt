//! Every array satisfies its constructor's checks at every level, whatever slices and validities it was given. `known` says so of
//! the top level; these functions say so of each child too. So the laws of `IsArray` hold for every array of a program.
ghost use Rattle.nest_array.specs.Seen.{layout_of, layouts_of};
ghost use Rattle.nest_model.specs.Array.{AreArrays, IsArray};

use nest_array::{
    AnyArray, DictionaryArray, FixedSizeListArray, LargeListArray, ListArray, MapArray,
    StructArray, UnionArray,
};

/// An array satisfies its checks at every level.
#[cycle(levels)]
pub fn fits_at_every_level(array: &AnyArray)
    ensures { IsArray (layout_of array.now) }
{
    match array {
        AnyArray::Null(array) => array.known(),
        AnyArray::Boolean(array) => array.known(),
        AnyArray::Primitive(array) => array.known(),
        AnyArray::Binary(array) => array.known(),
        AnyArray::LargeBinary(array) => array.known(),
        AnyArray::Utf8(array) => array.known(),
        AnyArray::LargeUtf8(array) => array.known(),
        AnyArray::FixedSizeBinary(array) => array.known(),
        AnyArray::FixedSizeList(array) => fits_in_fixed_size_list(array),
        AnyArray::List(array) => fits_in_list(array),
        AnyArray::LargeList(array) => fits_in_large_list(array),
        AnyArray::Struct(array) => fits_in_struct(array),
        AnyArray::Map(array) => fits_in_map(array),
        AnyArray::Union(array) => fits_in_union(array),
        AnyArray::Dictionary(array) => fits_in_dictionary(array),
    }
}

/// All arrays of a slice satisfy their checks at every level.
#[cycle(levels)]
pub fn fit_at_every_level(arrays: &[AnyArray])
    ensures { AreArrays (layouts_of arrays.now) }
{
    for array in arrays {
        fits_at_every_level(array);
    }
}

#[cycle(levels)]
fn fits_in_list(array: &ListArray)
    ensures { IsArray array.now }
{
    array.known();
    fits_at_every_level(array.values());
}

#[cycle(levels)]
fn fits_in_large_list(array: &LargeListArray)
    ensures { IsArray array.now }
{
    array.known();
    fits_at_every_level(array.values());
}

#[cycle(levels)]
fn fits_in_fixed_size_list(array: &FixedSizeListArray)
    ensures { IsArray array.now }
{
    array.known();
    fits_at_every_level(array.values());
}

#[cycle(levels)]
fn fits_in_map(array: &MapArray)
    ensures { IsArray array.now }
{
    array.known();
    fits_at_every_level(array.field());
}

#[cycle(levels)]
fn fits_in_dictionary(array: &DictionaryArray)
    ensures { IsArray array.now }
{
    array.known();
    fits_at_every_level(array.values());
}

#[cycle(levels)]
fn fits_in_struct(array: &StructArray)
    ensures { IsArray array.now }
{
    array.known();
    fit_at_every_level(array.values());
}

#[cycle(levels)]
fn fits_in_union(array: &UnionArray)
    ensures { IsArray array.now }
{
    array.known();
    fit_at_every_level(array.fields());
}
