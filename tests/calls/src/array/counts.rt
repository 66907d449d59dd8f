//! How many comparisons equality pushes: one for each pair of slots that is compared, at any depth, and 16 for a block of
//! native values.
use crate::array::arrays::sizes::pairs;
use crate::array::arrays::structs::four;
use crate::array::arrays::{
    any_list, both, buffer, int32s, list_array, lists_of_lists, numbers, offsets_of, validity,
};
use crate::array::rows::rebuilt_lists_of_lists;
use nest_array::equal::equal_counted;
use nest_array::steps::Steps;
use nest_array::{AnyArray, NullArray};
use nest_flat::any_primitive::NativeArray;
use nest_flat::binary::BinaryArray;
use nest_flat::primitive::PrimitiveArray;
use nest_memory::datatypes::DataType;
use nest_memory::error::Error;
use std::alloc::Global;

/// Whether both arrays were made and are equal, and how many comparisons were pushed; both are dropped.
pub(crate) fn counted(
    a: Result<AnyArray, Error>,
    b: Result<AnyArray, Error>,
) -> Result<(bool, u64), Error> {
    let (a, b) = both(a, b)?;
    let mut steps = Steps::new();
    let same = equal_counted(&a, &b, &mut steps);
    drop(b);
    drop(a);
    Ok((same, steps.count()))
}

/// So many numbers of 64 bits: the first, the last, and fives between them.
fn longs(alloc: Global, n: usize, first: i64, last: i64) -> Result<AnyArray, Error> {
    let mut items = Vec::with_capacity(alloc, n)?;
    for i in 0..n {
        let item = match i {
            0 => first,
            _ if i + 1 == n => last,
            _ => 5,
        };
        items.push(item)?;
    }
    match buffer(alloc, items.as_slice()) {
        Ok(values) => {
            let array = PrimitiveArray::try_new(DataType::Int64, values, None);
            array.map(|array| AnyArray::Primitive(i64::wrap(array)))
        }
        Err(error) => Err(error),
    }
}

/// Whether so many equal numbers take as many comparisons.
fn accepts_each(alloc: Global, n: usize) -> bool {
    counted(longs(alloc, n, 1, 1), longs(alloc, n, 1, 1)) == Ok((true, n as u64))
}

/// Whether so many numbers, of which the last alone differs, are distinguished by at most as many comparisons.
fn last_is_seen(alloc: Global, n: usize) -> bool {
    match counted(longs(alloc, n, 1, 1), longs(alloc, n, 1, 2)) {
        Ok((same, count)) => !same && count <= n as u64,
        Err(_) => false,
    }
}

/// Comparisons that are pushed: of natives by blocks of 16 and a rest (0, 1, 15, 16, 17, 33 values; the last or the first
/// differs).
#[test]
fn native_values_by_blocks_and_a_rest(rt: HostRuntime) {
    let alloc = rt.alloc();
    assert!(rt; accepts_each(alloc, 0));
    assert!(rt; accepts_each(alloc, 1));
    assert!(rt; accepts_each(alloc, 15));
    assert!(rt; accepts_each(alloc, 16));
    assert!(rt; accepts_each(alloc, 17));
    assert!(rt; accepts_each(alloc, 33));
}

#[test]
fn last_value_of_blocks_and_of_a_rest(rt: HostRuntime) {
    let alloc = rt.alloc();
    assert!(rt; counted(longs(alloc, 1, 1, 1), longs(alloc, 1, 2, 2)) == Ok((false, 1)));
    assert!(rt; last_is_seen(alloc, 15));
    assert!(rt; last_is_seen(alloc, 16));
    assert!(rt; last_is_seen(alloc, 17));
    assert!(rt; last_is_seen(alloc, 33));
}

#[test]
fn first_value_of_a_block(rt: HostRuntime) {
    let alloc = rt.alloc();
    assert!(rt; counted(longs(alloc, 16, 1, 1), longs(alloc, 16, 2, 1)) == Ok((false, 16)));
}

/// The lists [1,2], [], [3], [4,5] over items that begin with nines.
fn four_lists(alloc: Global, items: &[i32], offsets: &[i32]) -> Result<AnyArray, Error> {
    any_list(list_array(alloc, numbers(alloc, items), offsets, None))
}

/// Of lists at other offsets 9, of lists of lists 19, of records with a null 10, of pairs 9, of nulls one each.
#[test]
fn lists_at_other_offsets(rt: HostRuntime) {
    let alloc = rt.alloc();
    let lists = four_lists(alloc, &[1, 2, 3, 4, 5], &[0, 2, 2, 3, 5]);
    let others = four_lists(alloc, &[9, 1, 2, 3, 4, 5], &[1, 3, 3, 4, 6]);
    assert!(rt; counted(lists, others) == Ok((true, 9)));
}

/// Other lengths over the same items are distinguished, items under a null are not.
#[test]
fn lists_of_other_lengths_over_the_same_items(rt: HostRuntime) {
    let alloc = rt.alloc();
    let lists = four_lists(alloc, &[1, 2, 3], &[0, 2, 3]);
    let others = four_lists(alloc, &[1, 2, 3], &[0, 1, 3]);
    assert!(rt; counted(lists, others) == Ok((false, 1)));
}

/// Two lists of numbers; the second is null.
fn with_a_null_item(alloc: Global, items: &[i32]) -> Result<AnyArray, Error> {
    let bits = [true, false, true].as_slice();
    let items = int32s(alloc, items, Some(bits));
    let items = items.map(|array| AnyArray::Primitive(i32::wrap(array)));
    any_list(list_array(alloc, items, &[0, 2, 3], None))
}

#[test]
fn items_under_a_null_of_the_child(rt: HostRuntime) {
    let alloc = rt.alloc();
    let lists = with_a_null_item(alloc, &[1, 2, 3]);
    assert!(rt; counted(lists, with_a_null_item(alloc, &[1, 9, 3])) == Ok((true, 5)));
}

#[test]
fn each_node_of_lists_of_lists(rt: HostRuntime) {
    let alloc = rt.alloc();
    let lists = any_list(lists_of_lists(alloc));
    assert!(rt; counted(lists, any_list(rebuilt_lists_of_lists(alloc))) == Ok((true, 19)));
}

/// Four records; the third is null.
fn any_records(alloc: Global, items: &[i32]) -> Result<AnyArray, Error> {
    four(alloc, items).map(|array| array.boxed())
}

#[test]
fn records_but_not_under_a_null(rt: HostRuntime) {
    let alloc = rt.alloc();
    let records = any_records(alloc, &[42, 28, 19, 31]);
    assert!(rt; counted(records, any_records(alloc, &[42, 28, 77, 31])) == Ok((true, 10)));
}

fn dates(alloc: Global, items: &[i32]) -> Result<AnyArray, Error> {
    match buffer(alloc, items) {
        Ok(values) => {
            let array = PrimitiveArray::try_new(DataType::Date32, values, None);
            array.map(|array| AnyArray::Primitive(i32::wrap(array)))
        }
        Err(error) => Err(error),
    }
}

/// No comparison for other types and lengths, one where the first slot alone is null, two where the second item of bytes
/// differs.
#[test]
fn nothing_for_other_lengths_and_types(rt: HostRuntime) {
    let alloc = rt.alloc();
    assert!(rt; counted(numbers(alloc, &[1]), numbers(alloc, &[1, 2])) == Ok((false, 0)));
    assert!(rt; counted(numbers(alloc, &[1]), dates(alloc, &[1])) == Ok((false, 0)));
}

/// Bytes between offsets, each valid where its bit says so.
fn bytes(alloc: Global, items: &[u8], offsets: &[i32], bits: &[bool]) -> Result<AnyArray, Error> {
    let parts = both(offsets_of(alloc, offsets), buffer(alloc, items));
    match both(parts, validity(alloc, Some(bits))) {
        Ok(((offsets, values), validity)) => {
            let array = BinaryArray::try_new(DataType::Binary, offsets, values, validity);
            array.map(|array| AnyArray::Binary(array))
        }
        Err(error) => Err(error),
    }
}

#[test]
fn bytes_up_to_the_first_that_differ(rt: HostRuntime) {
    let alloc = rt.alloc();
    let one = bytes(
        alloc,
        b"helloworld",
        &[0, 5, 5, 5, 10, 10, 10],
        &[true, false, false, true, false, false],
    );
    let other = bytes(
        alloc,
        b"hellofooworld",
        &[0, 5, 8, 8, 13, 13, 13],
        &[true, true, false, true, false, false],
    );
    assert!(rt; counted(one, other) == Ok((false, 2)));
}

/// A thousand sevens, of which the first is null where asked.
fn sevens(alloc: Global, first: bool) -> Result<AnyArray, Error> {
    let items = [7; 1000];
    let mut bits = [true; 1000];
    bits[0] = first;
    let array = int32s(alloc, items.as_slice(), Some(bits.as_slice()));
    array.map(|array| AnyArray::Primitive(i32::wrap(array)))
}

#[test]
fn a_null_at_index_0(rt: HostRuntime) {
    let alloc = rt.alloc();
    assert!(rt; counted(sevens(alloc, false), sevens(alloc, true)) == Ok((false, 1)));
}

/// Lists of lists; the first is null.
fn first_list_is_null(alloc: Global) -> Result<AnyArray, Error> {
    let items = numbers(alloc, &[1, 2, 3, 4, 5, 6, 7, 8, 9, 10]);
    let inner = list_array(alloc, items, &[0, 2, 4, 7, 7, 8, 10], None);
    let bits = [false, true, true].as_slice();
    any_list(list_array(alloc, any_list(inner), &[0, 2, 5, 6], Some(bits)))
}

#[test]
fn a_null_list_at_index_0(rt: HostRuntime) {
    let alloc = rt.alloc();
    let lists = any_list(lists_of_lists(alloc));
    assert!(rt; counted(lists, first_list_is_null(alloc)) == Ok((false, 1)));
}

#[test]
fn pairs_and_their_items(rt: HostRuntime) {
    let alloc = rt.alloc();
    let one = pairs(alloc).map(|array| array.boxed());
    let other = pairs(alloc).map(|array| array.boxed());
    assert!(rt; counted(one, other) == Ok((true, 9)));
}

#[test]
fn each_null(rt: HostRuntime) {
    let one = NullArray::try_new(DataType::Null, 3).map(|array| array.boxed());
    let other = NullArray::try_new(DataType::Null, 3).map(|array| array.boxed());
    assert!(rt; counted(one, other) == Ok((true, 3)));
}

/// What is read of a count stops at 2^64 - 1.
#[test]
fn a_count_stops_at_the_largest_number(rt: HostRuntime) {
    let mut steps = Steps::new();
    assert!(rt; steps.count() == 0);
    steps.add(2);
    assert!(rt; steps.count() == 2);
    steps.add(u64::MAX);
    assert!(rt; steps.count() == u64::MAX);
    steps.add(1);
    assert!(rt; steps.count() == u64::MAX);
}
