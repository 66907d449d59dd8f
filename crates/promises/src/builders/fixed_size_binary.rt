//! Builders of fixed-size binary arrays, viewed as the layout of the array built so far.
ghost use Rattle.std.specs.Borrow.{Array, Lends, sem, u8 as byte};
ghost use Rattle.std.specs.Option.{option_copied};
ghost use Rattle.std.specs.Prelude.{◌≡◌, ◌-◌, ◌<◌, ◌↔◌, ◌⊎◌, ◌++◌, ◌∷◌, [], IfErr, IfOk, IsErrOf, IsOkUnless, IsTrue, MatchResult, None, OnErr, OnOk, get_or, take, alloc_error};
ghost use Rattle.nest_array.specs.FixedBytes.{IsOtherSize, pushed_bytes, with_bytes};
ghost use Rattle.nest_build.specs.contracts.fixed_size_binary.mutable.MutableFixedSizeBinaryArray.{the_row};
ghost use Rattle.nest_flat.specs.FlatParts.{optional};
ghost use Rattle.nest_memory.specs.TypeOf.{type_of};
ghost use Rattle.nest_memory.specs.TypeTree as types;
ghost use Rattle.nest_memory.specs.TypeTree.{size_of};
ghost use Rattle.nest_memory.specs.declared.error.ArgumentError.TheVariants.{ItemSize};
ghost use Rattle.nest_memory.specs.declared.error.Error.TheVariants.{InvalidArgumentError, Memory};
ghost use Rattle.nest_model.specs.Accessors.{bytes_of};
ghost use Rattle.nest_model.specs.Slice.{slice_layout};
ghost use Rattle.nest_model.specs.Fits.{FirstError, Fits};
ghost use Rattle.nest_model.specs.Layout as layouts;
ghost use Rattle.nest_model.specs.Layout.{layout_type};
ghost use Rattle.nest_model.specs.Meaning.{len, slots_of};
ghost use Rattle.nest_model.specs.Slot as slots;

use nest_array::FixedSizeBinaryArray;
use nest_build::fixed_size_binary::MutableFixedSizeBinaryArray;
use nest_memory::bitmap::mutable::MutableBitmap;
use nest_memory::datatypes::DataType;
use nest_memory::error::Error;
use std::alloc::Global;

/// Returns a builder without slots, without allocation.
pub fn new_fixed_size_binary_builder(alloc: Global, size: usize) -> MutableFixedSizeBinaryArray
    requires { 0 < size }
    ensures { result ≡ layouts.fixed_size_binary (types.fixed_size_binary size) [] None }
{
    MutableFixedSizeBinaryArray::new(alloc, size)
}

/// Returns a builder of parts that fit, or the error of the first check that fails, without allocation.
pub fn fixed_size_binary_builder_of(
    data_type: DataType,
    values: Vec<u8>,
    validity: Option<MutableBitmap>,
) -> Result<MutableFixedSizeBinaryArray, Error>
    ensures { let parts = layouts.fixed_size_binary (type_of data_type) values.items validity in
        MatchResult result (λ b. Fits parts × (b ≡ parts)) (λ e. FirstError e parts) }
{
    MutableFixedSizeBinaryArray::try_new(data_type, values, validity)
}

/// Appends a byte string or a null. Fails exactly where it has another size, or when an allocation fails.
pub fn push_fixed_size_binary(
    builder: &mut MutableFixedSizeBinaryArray,
    item: Option<&[u8]>,
) -> Result<(), Error>
    ensures parts { OnOk result (builder.new ≡ pushed_bytes builder.old (option_copied item.entry)) }
    ensures slots { OnOk result (slots_of builder.new ≡ slots_of builder.old ++ optional slots.bytes (option_copied item.entry) ∷ []) }
    ensures err { OnErr result (builder.new ≡ builder.old) }
    ensures size { IsErrOf result (InvalidArgumentError ItemSize) ↔ IsOtherSize (size_of (layout_type builder.old)) (option_copied item.entry) }
    ensures errors { IfErr result (λ e. (e ≡ InvalidArgumentError ItemSize) ⊎ (e ≡ Memory alloc_error)) }
{
    builder.try_push(item)
}

/// Removes the last slot and returns its bytes, or `None` where it was null or there is none. On an error nothing changes.
pub fn pop_fixed_size_binary(
    builder: &mut MutableFixedSizeBinaryArray,
) -> Result<Option<Vec<u8>>, Error>
    ensures value { IfOk result (λ item. optional (λ bytes. slots.bytes bytes.items) item ≡ get_or (slots_of builder.old) (len builder.old - 1) slots.null) }
    ensures rest { OnOk result (builder.new ≡ slice_layout builder.old 0 (len builder.old - 1)) }
    ensures slots { OnOk result (slots_of builder.new ≡ take (len builder.old - 1) (slots_of builder.old)) }
    ensures err { OnErr result (builder.new ≡ builder.old) }
    ensures memory { IsOkUnless result (Memory alloc_error) }
{
    builder.pop()
}

/// Returns the bytes of all slots for writing; nothing else changes.
pub fn values_mut(builder: &mut MutableFixedSizeBinaryArray) -> &mut [u8]
    ensures* writes_back { sem 𝓛 (Lends the_row (Array byte 0) builder.entry result (with_bytes builder.entry.now)) }
    ensures value { result.now ≡ bytes_of builder.old }
{
    builder.values_mut_slice()
}

/// Returns whether two builders have equal slots, whatever their data types.
pub fn are_equal_builders(a: &MutableFixedSizeBinaryArray, b: &MutableFixedSizeBinaryArray) -> bool
    ensures { IsTrue result ↔ (slots_of a.now ≡ slots_of b.now) }
{
    *a == *b
}

/// Returns the array of the byte strings and leaves none, also when an allocation fails.
pub fn freeze_fixed_size_binary(
    builder: &mut MutableFixedSizeBinaryArray,
) -> Result<FixedSizeBinaryArray, Error>
    ensures ok { IfOk result (λ a. a ≡ builder.old) }
    ensures emptied { builder.new ≡ layouts.fixed_size_binary (layout_type builder.old) [] None }
    ensures memory { IsOkUnless result (Memory alloc_error) }
{
    builder.freeze()
}
