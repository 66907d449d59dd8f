//! The builders of numbers and of booleans, as builders of any kind.

use nest_array::AnyArray;
use nest_build::array::MutableArray;
use nest_build::push::{TryExtend, TryExtendFromSelf, TryPush};
use nest_flat::any_native::AnyNative;
use nest_flat::any_primitive::AnyPrimitive;
use nest_flat::any_primitive::mutable::AnyMutablePrimitive;
use nest_flat::boolean::mutable::MutableBooleanArray;
use nest_flat::plain::Plain;
use nest_flat::primitive::mutable::MutablePrimitiveArray;
use nest_memory::error::{ArgumentError, Error};
use std::alloc::Global;
use std::test::Fail;

const SEVEN: Plain<'static> = Plain::Native(AnyNative::Int64(7));

fn push_plain<B: MutableArray>(builder: &mut B, value: Option<Plain<'_>>) -> Result<(), Error> {
    if !builder.is_complete() {
        return Err(Error::InvalidArgumentError(ArgumentError::Incomplete));
    }
    builder.try_push_plain(value)
}

fn slots_are(array: &AnyArray, expected: [Option<i64>; 2]) -> bool {
    let AnyArray::Primitive(AnyPrimitive::Int64(numbers)) = array else {
        return false;
    };
    numbers.len() == 2 && numbers.get(0) == expected[0] && numbers.get(1) == expected[1]
}

/// 7 and a null are taken, a text and a number of another kind are not.
fn take_values<B: MutableArray>(builder: &mut B) -> Result<bool, Error> {
    let other_kind = Err(Error::InvalidArgumentError(ArgumentError::ItemType));
    push_plain(builder, Some(SEVEN))?;
    let no_validity = builder.validity().is_none();
    push_plain(builder, None)?;
    let text = push_plain(builder, Some(Plain::Text("x"))) == other_kind;
    let small = push_plain(builder, Some(Plain::Native(AnyNative::Int32(7)))) == other_kind;
    Ok(no_validity && builder.validity().is_some() && text && small && builder.len() == 2)
}

/// Whether 7 is at index 0 and a null at 1, and nothing else is found there.
fn holds_seven<B: MutableArray>(builder: &B) -> bool {
    if builder.len() != 2 {
        return false;
    }
    let eight = Plain::Native(AnyNative::Int64(8));
    let small = Plain::Native(AnyNative::Int8(7));
    let valid = builder.is_valid(0) && !builder.is_valid(1);
    let found = builder.holds(0, &SEVEN) && !builder.holds(1, &SEVEN);
    valid && found && !builder.holds(0, &eight) && !builder.holds(0, &small)
}

/// Whether a frozen array has 7 and a null; it is dropped.
fn freezes_to_seven(array: Result<AnyArray, Error>) -> bool {
    match array {
        Ok(array) => {
            let same = slots_are(&array, [Some(7), None]);
            drop(array);
            same
        }
        Err(_) => false,
    }
}

/// Whether no row and no validity is left.
fn is_cleared<B: MutableArray>(builder: &B) -> bool {
    builder.is_empty() && builder.validity().is_none()
}

/// A builder of numbers takes 7 and a null, rejects a text and a number of another kind, and is frozen and filled again; a
/// boxed one of bytes likewise.
#[test]
fn a_builder_takes_its_kind(rt: HostRuntime) {
    let mut builder = MutablePrimitiveArray::<i64>::new(rt.alloc());
    let taken = take_values(&mut builder);
    let held = holds_seven(&builder);
    let frozen = freezes_to_seven(builder.as_box());
    let cleared = is_cleared(&builder);
    let again = push_plain(&mut builder, Some(SEVEN));
    assert!(rt; taken == Ok(true));
    assert!(rt; held && frozen);
    assert!(rt; cleared);
    assert!(rt; again == Ok(()));
}

/// Whether the rows of another builder of the kind are taken, and those of a builder of another kind are not.
fn join_kinds(
    alloc: Global,
    builder: &mut AnyMutablePrimitive,
    more: &AnyMutablePrimitive,
) -> Result<bool, Error> {
    let other_kind = Err(Error::InvalidArgumentError(ArgumentError::ItemType));
    let small = AnyMutablePrimitive::Int32(MutablePrimitiveArray::new(alloc));
    let refused = builder.try_extend_from_self(&small) == other_kind;
    drop(small);
    builder.try_extend_from_self(more)?;
    Ok(refused && builder.len() == 4)
}

/// Whether a frozen array has four numbers, a null second and fourth; it is dropped.
fn freezes_to_four(array: Result<AnyPrimitive, Error>) -> bool {
    match array {
        Ok(array) => {
            let same = array.len() == 4 && array.is_null(1) && array.null_count() == 2;
            drop(array);
            same
        }
        Err(_) => false,
    }
}

/// A builder of any native kind takes what its kind takes, and another one's rows of that kind alone.
#[test]
fn a_builder_of_any_native_kind(rt: HostRuntime) {
    let mut builder = AnyMutablePrimitive::Int64(MutablePrimitiveArray::new(rt.alloc()));
    let mut more = AnyMutablePrimitive::Int64(MutablePrimitiveArray::new(rt.alloc()));
    let taken = take_values(&mut builder);
    let held = holds_seven(&builder);
    let too = take_values(&mut more);
    let joined = join_kinds(rt.alloc(), &mut builder, &more);
    let boxed = freezes_to_seven(more.as_box());
    let frozen = freezes_to_four(builder.freeze());
    let cleared = is_cleared(&builder);
    assert!(rt; taken == Ok(true) && too == Ok(true));
    assert!(rt; held && boxed);
    assert!(rt; joined == Ok(true));
    assert!(rt; frozen && cleared);
}

/// Slices to all rows and to none.
fn cut_all<B: MutableArray>(builder: &mut B) -> Result<bool, Error> {
    builder.reserve(10)?;
    builder.shrink_to_fit()?;
    if !builder.is_complete() || builder.len() != 2 {
        return Ok(false);
    }
    builder.truncate(2);
    let kept = builder.len() == 2;
    if builder.is_complete() {
        builder.truncate(0);
    }
    Ok(kept && builder.is_empty())
}

#[test]
fn a_builder_is_truncated_and_shared(rt: HostRuntime) {
    let mut builder = MutablePrimitiveArray::<i64>::new(rt.alloc());
    let taken = take_values(&mut builder);
    let cut = cut_all(&mut builder);
    let again = push_plain(&mut builder, Some(SEVEN));
    let shared = match builder.as_arc(rt.alloc()) {
        Ok(array) => array.len(),
        Err(_) => 0,
    };
    assert!(rt; taken == Ok(true) && cut == Ok(true));
    assert!(rt; again == Ok(()));
    assert!(rt; shared == 1);
}

/// Whether numbers are pushed by an item, by iterators, and by one that is empty.
fn push_numbers(alloc: Global, numbers: &mut MutablePrimitiveArray<i64>) -> Result<bool, Error> {
    TryPush::try_push(numbers, Some(7))?;
    TryExtend::try_extend(numbers, vec![in alloc; None::<i64>, Some(8)]?)?;
    TryExtend::try_extend(numbers, Vec::<Option<i64>>::new(alloc))?;
    Ok(MutableArray::len(numbers) == 3)
}

fn push_booleans(alloc: Global, booleans: &mut MutableBooleanArray) -> Result<bool, Error> {
    TryPush::try_push(booleans, None::<bool>)?;
    TryExtend::try_extend(booleans, vec![in alloc; Some(true), Some(false)]?)?;
    push_plain(booleans, Some(Plain::Boolean(true)))?;
    let other_kind = Err(Error::InvalidArgumentError(ArgumentError::ItemType));
    Ok(push_plain(booleans, Some(SEVEN)) == other_kind)
}

/// Whether the last of four is true and the first isn't false.
fn holds_booleans<B: MutableArray>(booleans: &B) -> bool {
    booleans.len() == 4
        && booleans.holds(3, &Plain::Boolean(true))
        && !booleans.holds(0, &Plain::Boolean(false))
}

/// Items are pushed at their own type, one by one and by an iterator, also an empty one.
#[test]
fn items_of_its_type_are_pushed(rt: HostRuntime) {
    let mut numbers = MutablePrimitiveArray::<i64>::new(rt.alloc());
    let pushed = push_numbers(rt.alloc(), &mut numbers);
    assert!(rt; pushed == Ok(true));
    let mut booleans = MutableBooleanArray::new(rt.alloc());
    let pushed = push_booleans(rt.alloc(), &mut booleans);
    let held = holds_booleans(&booleans);
    assert!(rt; pushed == Ok(true));
    assert!(rt; held);
}
