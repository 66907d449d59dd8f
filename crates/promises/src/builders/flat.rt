//! Flat builders: primitive, boolean, binary and UTF-8.
//!
//! An accepted item appends its slot, a refused item changes nothing, and a builder freezes to its slots. A builder is viewed as
//! the layout of the array built so far, so "unchanged" is one equation over every part.
ghost use Rattle.std.specs.Borrow.{Bor};
ghost use Rattle.std.specs.Option.{option_copied};
ghost use Rattle.std.specs.Prelude.{◌≡◌, ◌≢◌, ◌+◌, ◌≤◌, ◌<◌, ◌⊎◌, ◌↔◌, ◌++◌, ◌∷◌, [], ℕ, List, Option, None, OnOk, OnErr, IfOk, IfErr, IsErrOf, IsOkUnless, length, alloc_error};
ghost use Rattle.nest_flat.specs.BytesGrowth.{item_refusal, item_bytes, pushed_item};
ghost use Rattle.nest_flat.specs.FlatParts.{optional};
ghost use Rattle.nest_flat.specs.Growth.{CanDrain, RefusesBeginning, first_slots, pushed_boolean};
ghost use Rattle.nest_memory.specs.Sublist.{sublist};
ghost use Rattle.nest_memory.specs.Rising.{last_of};
ghost use Rattle.nest_memory.specs.declared.error.ArgumentError.TheVariants.{ItemType};
ghost use Rattle.nest_memory.specs.declared.error.Error.TheVariants.{InvalidArgumentError, Memory, Overflow};
ghost use Rattle.nest_model.specs.Accessors.{offsets_of};
ghost use Rattle.nest_model.specs.BuilderInput.{YieldsAll};
ghost use Rattle.nest_model.specs.BuilderTree.{IsPast};
ghost use Rattle.nest_model.specs.Layout as layouts;
ghost use Rattle.nest_model.specs.Layout.{layout_type};
ghost use Rattle.nest_model.specs.Meaning.{len, slots_of};
ghost use Rattle.nest_model.specs.Slot as slots;
ghost use Rattle.nest_flat.specs.Extensions.{BytesExtended, NativesExtended};

use nest_flat::binary::mutable::MutableBinaryArray;
use nest_flat::boolean::BooleanArray;
use nest_flat::boolean::mutable::MutableBooleanArray;
use nest_flat::primitive::PrimitiveArray;
use nest_flat::primitive::mutable::MutablePrimitiveArray;
use nest_flat::utf8::Utf8Array;
use nest_flat::utf8::mutable::MutableUtf8Array;
use nest_memory::error::Error;
use nest_memory::offset::Offset;
use nest_memory::types::NativeType;

/// Appends a value or a null. Fails only when an allocation fails.
pub fn push_primitive<T: NativeType>(
    builder: &mut MutablePrimitiveArray<T>,
    item: Option<T>,
) -> Result<(), Error>
    ensures slots { OnOk result (slots_of builder.new ≡ slots_of builder.old ++ optional (λ x. slots.number (T.numbers x)) item ∷ []) }
    ensures err { OnErr result (builder.new ≡ builder.old) }
    ensures data_type { layout_type builder.new ≡ layout_type builder.old }
    ensures memory { IsOkUnless result (Memory alloc_error) }
{
    builder.try_push(item)
}

/// Appends all items of an iterator, or none.
pub fn extend_primitive<T: NativeType, I: IntoIterator<Item = Option<T>>>(
    builder: &mut MutablePrimitiveArray<T>,
    items: I,
) -> Result<(), Error>
    requires { CanDrain I.into_iter_gives I.IntoIter.can_next I.IntoIter.remaining items }
    ensures ok { OnOk result ((xs : List (Option T)) × YieldsAll I.into_iter_gives I.IntoIter.next_gives items xs
        × NativesExtended T.numbers xs builder.old builder.new) }
    ensures err { OnErr result (builder.new ≡ builder.old) }
    ensures memory { IsOkUnless result (Memory alloc_error) }
{
    builder.try_extend(items)
}

/// Appends the slots of another builder, or none. Fails exactly where its data type differs, or when an allocation fails.
pub fn extend_primitive_from_builder<T: NativeType>(
    builder: &mut MutablePrimitiveArray<T>,
    other: &MutablePrimitiveArray<T>,
) -> Result<(), Error>
    ensures slots { OnOk result (slots_of builder.new ≡ slots_of builder.old ++ slots_of other.now) }
    ensures err { OnErr result (builder.new ≡ builder.old) }
    ensures item_type { IsErrOf result (InvalidArgumentError ItemType) ↔ layout_type builder.old ≢ layout_type other.now }
    ensures errors { IfErr result (λ e. (e ≡ InvalidArgumentError ItemType) ⊎ (e ≡ Memory alloc_error)) }
{
    builder.try_extend_from_self(other)
}

/// Keeps the first `n` slots.
pub fn truncate_primitive<T: NativeType>(builder: &mut MutablePrimitiveArray<T>, n: usize)
    requires { n ≤ len builder.old }
    ensures { slots_of builder.new ≡ sublist (slots_of builder.old) 0 n }
{
    builder.truncate(n);
}

/// Returns the array of the slots and leaves none, also when an allocation fails.
pub fn freeze_primitive<T: NativeType>(
    builder: &mut MutablePrimitiveArray<T>,
) -> Result<PrimitiveArray<T>, Error>
    ensures ok { IfOk result (λ a. a ≡ builder.old) }
    ensures emptied { builder.new ≡ layouts.primitive T.PRIMITIVE (layout_type builder.old) [] None }
    ensures memory { IsOkUnless result (Memory alloc_error) }
{
    builder.freeze()
}

/// Appends a boolean or a null. Fails exactly where the length would exceed `usize`, or when an allocation fails.
pub fn push_boolean(builder: &mut MutableBooleanArray, item: Option<bool>) -> Result<(), Error>
    ensures parts { OnOk result (builder.new ≡ pushed_boolean builder.old item) }
    ensures slots { OnOk result (slots_of builder.new ≡ slots_of builder.old ++ optional slots.boolean item ∷ []) }
    ensures err { OnErr result (builder.new ≡ builder.old) }
    ensures overflow { IsErrOf result Overflow ↔ IsPast (len builder.old + 1) }
    ensures errors { IfErr result (λ e. (e ≡ Overflow) ⊎ (e ≡ Memory alloc_error)) }
{
    builder.try_push(item)
}

/// Returns the array of the booleans and leaves none.
pub fn freeze_boolean(builder: &mut MutableBooleanArray) -> Result<BooleanArray, Error>
    ensures ok { IfOk result (λ a. a ≡ builder.old) }
    ensures emptied { builder.new ≡ layouts.boolean (layout_type builder.old) [] None }
    ensures memory { IsOkUnless result (Memory alloc_error) }
{
    builder.freeze()
}

/// Appends a byte string or a null. Fails exactly where its end exceeds the largest offset, or when an allocation fails.
pub fn push_binary<O: Offset>(
    builder: &mut MutableBinaryArray<O>,
    item: Option<&[u8]>,
) -> Result<(), Error>
    ensures slots { OnOk result (slots_of builder.new ≡ slots_of builder.old ++ optional slots.bytes (option_copied item.entry) ∷ []) }
    ensures err { OnErr result (builder.new ≡ builder.old) }
    ensures overflow { IsErrOf result Overflow ↔ (O.largest < last_of (offsets_of builder.old) + length (item_bytes (option_copied item.entry))) }
    ensures errors { IfErr result (λ e. (e ≡ Overflow) ⊎ (e ≡ Memory alloc_error)) }
{
    builder.try_push(item)
}

/// Appends a string or a null. Fails exactly where its end exceeds the largest offset, or when an allocation fails.
pub fn push_utf8<O: Offset>(
    builder: &mut MutableUtf8Array<O>,
    item: Option<&str>,
) -> Result<(), Error>
    ensures slots { OnOk result (slots_of builder.new ≡ slots_of builder.old ++ optional slots.utf8 (option_copied item.entry) ∷ []) }
    ensures err { OnErr result (builder.new ≡ builder.old) }
    ensures overflow { IsErrOf result Overflow ↔ (O.largest < last_of (offsets_of builder.old) + length (item_bytes (option_copied item.entry))) }
    ensures errors { IfErr result (λ e. (e ≡ Overflow) ⊎ (e ≡ Memory alloc_error)) }
{
    builder.try_push(item)
}

/// Appends the strings of an iterator, or none; returns the error of the first item that is refused.
pub fn extend_utf8<'a, O: Offset, I: IntoIterator<Item = Option<&'a str>>>(
    builder: &mut MutableUtf8Array<O>,
    items: I,
) -> Result<(), Error>
    requires { CanDrain I.into_iter_gives I.IntoIter.can_next I.IntoIter.remaining items }
    ensures ok { OnOk result ((xs : List (Option (Bor (List ℕ)))) × YieldsAll I.into_iter_gives I.IntoIter.next_gives items xs
        × BytesExtended O.largest slots.utf8 xs builder.old builder.new) }
    ensures err { OnErr result (builder.new ≡ builder.old) }
    ensures cause { IfErr result (RefusesBeginning I.into_iter_gives I.IntoIter.next_gives
        (λ a x. pushed_item a (option_copied x)) (λ a x. item_refusal O.largest a (option_copied x)) items builder.old) }
{
    builder.try_extend(items)
}

/// Keeps the first `n` strings, and no byte of another.
pub fn truncate_utf8<O: Offset>(builder: &mut MutableUtf8Array<O>, n: usize)
    requires { n ≤ len builder.old }
    ensures parts { builder.new ≡ first_slots builder.old n }
    ensures slots { slots_of builder.new ≡ sublist (slots_of builder.old) 0 n }
{
    builder.truncate(n);
}

/// Returns the array of the strings and leaves none.
pub fn freeze_utf8<O: Offset>(builder: &mut MutableUtf8Array<O>) -> Result<Utf8Array<O>, Error>
    ensures ok { IfOk result (λ a. a ≡ builder.old) }
    ensures emptied { builder.new ≡ layouts.utf8 O.IS_LARGE (layout_type builder.old) (0 ∷ []) [] None }
    ensures memory { IsOkUnless result (Memory alloc_error) }
{
    builder.freeze()
}
