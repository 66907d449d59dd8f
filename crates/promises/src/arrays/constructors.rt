//! Constructors of null, fixed-size binary and nested arrays.
//!
//! A constructor succeeds exactly where its parts fit, with just those parts, and else returns the error of the first check
//! that fails; a constructor with an allocator may also fail when an allocation fails.
ghost use Rattle.std.specs.Prelude.{◌≡◌, false, true, MatchResult};
ghost use Rattle.nest_array.specs.Refusals.{RefusesOrMemory};
ghost use Rattle.nest_array.specs.Seen.{layout_of, layouts_of};
ghost use Rattle.nest_array.specs.SeenKeys.{keys_layout};
ghost use Rattle.nest_array.specs.Types.{default_dictionary};
ghost use Rattle.nest_memory.specs.TypeOf.{type_of};
ghost use Rattle.nest_model.specs.Fits.{FirstError, Fits};
ghost use Rattle.nest_model.specs.Layout as layouts;

use nest_array::{
    AnyArray, AnyKeys, DictionaryArray, FixedSizeBinaryArray, FixedSizeListArray, LargeListArray,
    ListArray, MapArray, NullArray, StructArray,
};
use nest_memory::bitmap::immutable::Bitmap;
use nest_memory::buffer::Buffer;
use nest_memory::datatypes::DataType;
use nest_memory::error::Error;
use nest_memory::offsets::OffsetsBuffer;
use std::alloc::Global;

/// Returns `count` nulls of a data type.
pub fn new_null(data_type: DataType, count: usize) -> Result<NullArray, Error>
    ensures { let parts = layouts.null (type_of data_type) count in
        MatchResult result (λ a. Fits parts × (a ≡ parts)) (λ e. FirstError e parts) }
{
    NullArray::try_new(data_type, count)
}

/// Returns a fixed-size binary array of these parts.
pub fn new_fixed_size_binary(
    data_type: DataType,
    values: Buffer<u8>,
    validity: Option<Bitmap>,
) -> Result<FixedSizeBinaryArray, Error>
    ensures { let parts = layouts.fixed_size_binary (type_of data_type) values validity in
        MatchResult result (λ a. Fits parts × (a ≡ parts)) (λ e. FirstError e parts) }
{
    FixedSizeBinaryArray::try_new(data_type, values, validity)
}

/// Returns a fixed-size list array over items of any kind.
pub fn new_fixed_size_list(
    alloc: Global,
    data_type: DataType,
    values: AnyArray,
    validity: Option<Bitmap>,
) -> Result<FixedSizeListArray, Error>
    ensures { let parts = layouts.fixed_size_list (type_of data_type) (layout_of values) validity in
        MatchResult result (λ a. Fits parts × (a ≡ parts)) (λ e. RefusesOrMemory e parts) }
{
    FixedSizeListArray::try_new(alloc, data_type, values, validity)
}

/// Returns a list array over items of any kind, with 32-bit offsets.
pub fn new_list(
    alloc: Global,
    data_type: DataType,
    offsets: OffsetsBuffer<i32>,
    values: AnyArray,
    validity: Option<Bitmap>,
) -> Result<ListArray, Error>
    ensures { let parts = layouts.list false (type_of data_type) offsets (layout_of values) validity in
        MatchResult result (λ a. Fits parts × (a ≡ parts)) (λ e. RefusesOrMemory e parts) }
{
    ListArray::try_new(alloc, data_type, offsets, values, validity)
}

/// Returns a list array over items of any kind, with 64-bit offsets.
pub fn new_large_list(
    alloc: Global,
    data_type: DataType,
    offsets: OffsetsBuffer<i64>,
    values: AnyArray,
    validity: Option<Bitmap>,
) -> Result<LargeListArray, Error>
    ensures { let parts = layouts.list true (type_of data_type) offsets (layout_of values) validity in
        MatchResult result (λ a. Fits parts × (a ≡ parts)) (λ e. RefusesOrMemory e parts) }
{
    LargeListArray::try_new(alloc, data_type, offsets, values, validity)
}

/// Returns a struct array over children of any kind.
pub fn new_struct(
    data_type: DataType,
    children: Vec<AnyArray>,
    validity: Option<Bitmap>,
) -> Result<StructArray, Error>
    ensures { let parts = layouts.struct (type_of data_type) (layouts_of children.items) validity in
        MatchResult result (λ a. Fits parts × (a ≡ parts)) (λ e. FirstError e parts) }
{
    StructArray::try_new(data_type, children, validity)
}

/// Returns a map array: lists of entries, which are structs of exactly two fields.
pub fn new_map(
    alloc: Global,
    data_type: DataType,
    offsets: OffsetsBuffer<i32>,
    entries: AnyArray,
    validity: Option<Bitmap>,
) -> Result<MapArray, Error>
    ensures { let parts = layouts.map (type_of data_type) offsets (layout_of entries) validity in
        MatchResult result (λ a. Fits parts × (a ≡ parts)) (λ e. RefusesOrMemory e parts) }
{
    MapArray::try_new(alloc, data_type, offsets, entries, validity)
}

/// Returns a dictionary array of keys and values.
pub fn new_dictionary(
    alloc: Global,
    data_type: DataType,
    keys: AnyKeys,
    values: AnyArray,
) -> Result<DictionaryArray, Error>
    ensures { let parts = layouts.dictionary (type_of data_type) (keys_layout keys) (layout_of values) in
        MatchResult result (λ a. Fits parts × (a ≡ parts)) (λ e. RefusesOrMemory e parts) }
{
    DictionaryArray::try_new(alloc, data_type, keys, values)
}

/// Returns a dictionary array of the data type that its keys and values determine.
pub fn new_dictionary_from_keys(
    alloc: Global,
    keys: AnyKeys,
    values: AnyArray,
) -> Result<DictionaryArray, Error>
    ensures { let parts = default_dictionary (keys_layout keys) (layout_of values) in
        MatchResult result (λ a. Fits parts × (a ≡ parts)) (λ e. RefusesOrMemory e parts) }
{
    DictionaryArray::try_from_keys(alloc, keys, values)
}
