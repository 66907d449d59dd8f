//! Flat arrays of nulls, and such arrays without a slot.
//!
//! Nulls of each kind over zeros, false, no byte; none of each kind; rejected types and lengths.
use nest_flat::binary::BinaryArray;
use nest_flat::boolean::BooleanArray;
use nest_flat::primitive::PrimitiveArray;
use nest_flat::utf8::Utf8Array;
use nest_memory::datatypes::{DataType, IntervalUnit};
use nest_memory::error::{Error, SpecError};
use nest_memory::types::{days_ms, months_days_ns};

/// What a call rejected.
fn refusal<A: Drop>(array: Result<A, Error>) -> Option<Error> {
    array.err()
}

#[test]
fn three_dates(rt: HostRuntime) {
    let dates = PrimitiveArray::<i32>::new_null(rt.alloc(), DataType::Date32, 3).expect(
        &rt, "dates",
    );
    assert!(rt; dates.len() == 3);
    assert!(rt; dates.null_count() == 3);
    assert!(rt; dates.values().as_slice() == [0, 0, 0].as_slice());
    assert!(rt; *dates.data_type() == DataType::Date32);
    let none = PrimitiveArray::<i32>::new_empty(rt.alloc(), DataType::Date32).expect(&rt, "none");
    assert!(rt; none.is_empty());
    assert!(rt; none.validity().is_none());
    assert!(rt; dates.sliced(3, 0) == none);
}

#[test]
fn spans_are_zeros(rt: HostRuntime) {
    let day_time = DataType::Interval(IntervalUnit::DayTime);
    let days = PrimitiveArray::<days_ms>::new_null(rt.alloc(), day_time, 1).expect(&rt, "days");
    assert!(rt; days.null_count() == 1);
    let month = DataType::Interval(IntervalUnit::MonthDayNano);
    let months = PrimitiveArray::<months_days_ns>::new_null(rt.alloc(), month, 2).expect(
        &rt, "months",
    );
    assert!(rt; months.null_count() == 2);
}

#[test]
fn null_booleans(rt: HostRuntime) {
    let booleans = BooleanArray::new_null(rt.alloc(), DataType::Boolean, 9).expect(&rt, "booleans");
    assert!(rt; booleans.null_count() == 9);
    assert!(rt; booleans.values().unset_bits() == 9);
}

#[test]
fn null_bytes(rt: HostRuntime) {
    let bytes = BinaryArray::<i64>::new_null(rt.alloc(), DataType::LargeBinary, 2).expect(
        &rt, "bytes",
    );
    assert!(rt; bytes.null_count() == 2);
    assert!(rt; bytes.offsets().as_slice() == [0, 0, 0].as_slice());
    assert!(rt; bytes.values().is_empty());
}

#[test]
fn null_texts(rt: HostRuntime) {
    let texts = Utf8Array::<i32>::new_null(rt.alloc(), DataType::Utf8, 2).expect(&rt, "texts");
    assert!(rt; texts.null_count() == 2);
    assert!(rt; texts.offsets().as_slice() == [0, 0, 0].as_slice());
}

#[test]
fn booleans_sliced_to_nothing_are_the_empty_array(rt: HostRuntime) {
    let booleans = BooleanArray::new_null(rt.alloc(), DataType::Boolean, 2).expect(&rt, "booleans");
    let none = BooleanArray::new_empty(rt.alloc(), DataType::Boolean).expect(&rt, "no boolean");
    assert!(rt; booleans.len() == 2);
    assert!(rt; booleans.sliced(2, 0) == none);
}

#[test]
fn bytes_sliced_to_nothing_are_the_empty_array(rt: HostRuntime) {
    let bytes = BinaryArray::<i32>::new_null(rt.alloc(), DataType::Binary, 2).expect(&rt, "bytes");
    let none = BinaryArray::<i32>::new_empty(rt.alloc(), DataType::Binary).expect(&rt, "no bytes");
    assert!(rt; bytes.len() == 2);
    assert!(rt; bytes.sliced(2, 0) == none);
}

#[test]
fn strings_sliced_to_nothing_are_the_empty_array(rt: HostRuntime) {
    let texts = Utf8Array::<i64>::new_null(rt.alloc(), DataType::LargeUtf8, 2).expect(&rt, "texts");
    let none = Utf8Array::<i64>::new_empty(rt.alloc(), DataType::LargeUtf8).expect(&rt, "no text");
    assert!(rt; texts.len() == 2);
    assert!(rt; texts.sliced(2, 0) == none);
}

#[test]
fn other_types_come_first(rt: HostRuntime) {
    let wrong = Some(Error::OutOfSpec(SpecError::WrongType));
    let alloc = rt.alloc();
    assert!(rt; refusal(PrimitiveArray::<i32>::new_null(alloc, DataType::Float32, 1)) == wrong);
    assert!(rt; refusal(PrimitiveArray::<i64>::new_empty(alloc, DataType::Date32)) == wrong);
    assert!(rt; refusal(BooleanArray::new_null(alloc, DataType::Int8, 1)) == wrong);
    assert!(rt; refusal(BinaryArray::<i32>::new_null(alloc, DataType::Utf8, usize::MAX)) == wrong);
    assert!(rt; refusal(Utf8Array::<i32>::new_empty(alloc, DataType::LargeUtf8)) == wrong);
}

#[test]
fn one_offset_more_than_slots(rt: HostRuntime) {
    let long = Some(Error::Overflow);
    let alloc = rt.alloc();
    assert!(rt; refusal(Utf8Array::<i32>::new_null(alloc, DataType::Utf8, usize::MAX)) == long);
    assert!(rt;
        refusal(BinaryArray::<i64>::new_null(alloc, DataType::LargeBinary, usize::MAX)) == long
    );
    assert!(rt;
        refusal(Utf8Array::<i64>::new_null(alloc, DataType::LargeUtf8, usize::MAX - 1)) != long
    );
}
