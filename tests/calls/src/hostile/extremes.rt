//! The longest arrays and builders, and offsets and sizes at their limits.
use crate::hostile::runs::{UNFINISHED, holds};
use nest_array::{AnyArray, FixedSizeBinaryArray, FixedSizeListArray, NullArray};
use nest_build::array::MutableArray;
use nest_build::fixed_size_binary::MutableFixedSizeBinaryArray;
use nest_build::list::MutableListArray;
use nest_build::null::MutableNullArray;
use nest_memory::buffer::Buffer;
use nest_memory::datatypes::DataType;
use nest_memory::error::Error;
use nest_memory::offsets::Offsets;
use std::alloc::Global;

/// The last slot of 2^64 - 1 nulls; the second of two lists of 2^63 - 1 nulls.
#[test]
fn the_last_slot_of_the_longest_array(rt: HostRuntime) {
    let array = NullArray::new(DataType::Null, usize::MAX);
    let cut = array.sliced(usize::MAX - 1, 1);
    assert!(rt; cut.len() == 1);
}

/// Half of the largest number of nulls.
const HALF: usize = 9223372036854775807;

/// Two lists of so many nulls that a third would pass the largest length.
fn longest_lists(alloc: Global) -> Result<FixedSizeListArray, Error> {
    let data_type = FixedSizeListArray::default_datatype(alloc, DataType::Null, HALF)?;
    let nulls = AnyArray::Null(NullArray::new(DataType::Null, usize::MAX - 1));
    FixedSizeListArray::try_new(alloc, data_type, nulls, None)
}

/// Where the items of list i begin, and how many there are.
fn place_of(lists: &FixedSizeListArray, i: usize) -> Option<(usize, usize)> {
    if i >= lists.len() {
        return None;
    }
    let items = lists.window(i);
    Some((items.offset(), items.len()))
}

/// Whether the second list begins at the half, and is the last.
fn second_begins_at_half(alloc: Global) -> Result<bool, Error> {
    let lists = longest_lists(alloc)?;
    let second = place_of(&lists, 1);
    let third = place_of(&lists, 2);
    drop(lists);
    Ok(second == Some((HALF, HALF)) && third == None)
}

#[test]
fn lists_of_half_the_largest_length(rt: HostRuntime) {
    assert!(rt; holds(second_begins_at_half(rt.alloc())));
}

/// What a constructor rejected.
fn refusal(made: Result<MutableFixedSizeBinaryArray, Error>) -> Option<Error> {
    match made {
        Ok(builder) => {
            drop(builder);
            None
        }
        Err(error) => Some(error),
    }
}

/// How many byte strings of the largest size there are without a byte.
fn largest_strings(alloc: Global) -> Result<usize, Error> {
    let none = Buffer::new(alloc)?;
    let largest = DataType::FixedSizeBinary(usize::MAX);
    let array = FixedSizeBinaryArray::try_new(largest, none, None)?;
    let slots = array.len();
    drop(array);
    Ok(slots)
}

/// Room for 2^64 bytes is rejected; byte strings of 2^64 - 1 bytes of which there is none.
#[test]
fn more_bytes_than_a_length(rt: HostRuntime) {
    let alloc = rt.alloc();
    let twice = MutableFixedSizeBinaryArray::with_capacity(alloc, 9223372036854775808, 2);
    assert!(rt; refusal(twice) == Some(Error::Overflow));
    assert!(rt; holds(largest_strings(alloc).map(|slots| slots == 0)));
}

/// Lists of nulls by offsets of 32 bits.
type NullLists = MutableListArray<i32, MutableNullArray>;

const LARGEST_OFFSET: usize = 2147483647;

/// One list of as many nulls as an offset of 32 bits can be.
fn longest_list(alloc: Global) -> Result<NullLists, Error> {
    let mut offsets = Offsets::new(alloc)?;
    offsets.try_push_usize(LARGEST_OFFSET)?;
    let nulls = MutableNullArray::new(alloc, DataType::Null, LARGEST_OFFSET);
    MutableListArray::new_from_mutable(alloc, nulls, offsets, None)
}

fn push_null(lists: &mut NullLists) -> Result<(), Error> {
    if !lists.is_complete() {
        return Err(UNFINISHED);
    }
    lists.push_null()
}

/// What pushing a row of one null more is rejected with, by each call that pushes rows.
fn push_one_more(lists: &mut NullLists) -> (Result<(), Error>, Result<(), Error>) {
    let one = lists.try_push_valid();
    (one, lists.try_extend_from_lengths(&[Some(1)]))
}

/// Keeps the first n rows of a builder.
fn take_back<B: MutableArray>(builder: &mut B, n: usize) {
    if builder.is_complete() && n <= builder.len() {
        builder.truncate(n);
    }
}

/// How many slots were frozen, and how many of them are null.
fn counts(frozen: Result<AnyArray, Error>) -> Result<(usize, usize), Error> {
    match frozen {
        Ok(array) => {
            let counts = (array.len(), array.null_count());
            drop(array);
            Ok(counts)
        }
        Err(error) => Err(error),
    }
}

/// Pushes a null past the largest offset, takes back an item that waits, and freezes.
fn null_past_the_largest_offset(alloc: Global) -> Result<bool, Error> {
    let mut lists = longest_list(alloc)?;
    let null = push_null(&mut lists);
    let item = lists.mut_values().push_null();
    let ended = push_one_more(&mut lists);
    let unfinished = counts(lists.as_box());
    take_back(lists.mut_values(), LARGEST_OFFSET);
    let frozen = counts(lists.as_box());
    drop(lists);
    null?;
    let counts = frozen?;
    let refused = ended == (Err(Error::Overflow), Err(Error::Overflow));
    Ok(item == Ok(()) && refused && unfinished == Err(UNFINISHED) && counts == (2, 1))
}

/// After 2^31 - 1 items a null row is accepted, and no row of an item; taken back, the rows are frozen.
#[test]
fn a_null_is_accepted_where_no_item_is(rt: HostRuntime) {
    assert!(rt; holds(null_past_the_largest_offset(rt.alloc())));
}
