//! What builders are made of, as who writes another one calls it: flat builders by their parts, pushing by another call,
//! data types and keys.
//!
//! What another builder would be made of: flat builders by their parts, pushing by `extend_by_push` and `extend_nulls`, data
//! types, keys.

use nest_array::{AnyArray, AnyKeys};
use nest_build::array::{MutableArray, shared};
use nest_build::dictionary::BuilderKey;
use nest_build::fixed_size_list::data_type::FixedType;
use nest_build::flat::FlatBuilder;
use nest_build::list::data_type::ListType;
use nest_build::push::{TryPush, extend_by_push, extend_nulls};
use nest_flat::boolean::mutable::MutableBooleanArray;
use nest_flat::plain::Plain;
use nest_memory::buffer::Buffer;
use nest_memory::datatypes::{DataType, Field};
use nest_memory::error::Error;
use std::alloc::Global;

/// A boolean and a null, joined to another builder's slots and frozen.
fn by_parts<B: FlatBuilder>(builder: &mut B, other: &B) -> Result<AnyArray, Error> {
    builder.room(3)?;
    builder.push_plain(Some(Plain::Boolean(true)))?;
    builder.push_plain(None)?;
    builder.join(other)?;
    builder.frozen()
}

/// How many slots, and how many of them are null; the array is dropped.
fn counted(array: Result<AnyArray, Error>) -> Result<(usize, usize), Error> {
    match array {
        Err(error) => Err(error),
        Ok(array) => {
            let counts = (array.len(), array.null_count());
            drop(array);
            Ok(counts)
        }
    }
}

#[test]
fn a_flat_builder_by_its_parts(rt: HostRuntime) {
    let mut booleans = MutableBooleanArray::new(rt.alloc());
    let mut more = MutableBooleanArray::new(rt.alloc());
    more.try_push(None).expect(&rt, "a row more");
    let frozen = counted(by_parts(&mut booleans, &more));
    assert!(rt; frozen == Ok((3, 2)));
}

/// Pushes a boolean and three nulls.
fn push_four(booleans: &mut MutableBooleanArray) -> Result<bool, Error> {
    if !booleans.is_complete() {
        return Ok(false);
    }
    extend_by_push(booleans, [Some(true)])?;
    if !booleans.is_complete() {
        return Ok(false);
    }
    extend_nulls(booleans, 3)?;
    Ok(true)
}

#[test]
fn items_and_nulls_are_pushed_by_other_calls(rt: HostRuntime) {
    let mut booleans = MutableBooleanArray::new(rt.alloc());
    assert!(rt; push_four(&mut booleans).expect(&rt, "four rows"));
    let array = shared(booleans.as_box(), rt.alloc()).expect(&rt, "a shared array");
    let counts = (array.len(), array.null_count());
    assert!(rt; counts == (4, 3));
}

#[test]
fn data_types_of_a_field(rt: HostRuntime) {
    let items = Field::new(rt.alloc(), "item", DataType::Int8, true).expect(&rt, "memory");
    let sized = FixedType::of_field(rt.alloc(), items, 3).expect(&rt, "a data type");
    assert!(rt; sized.size() == 3);
    let items = Field::new(rt.alloc(), "item", DataType::Int8, true).expect(&rt, "memory");
    let lists: ListType<i32> = ListType::of_field(rt.alloc(), items).expect(&rt, "a data type");
    let is_list = matches!(lists.get(), DataType::List(_));
    assert!(rt; is_list);
}

/// The keys 0 and 1, of any type of keys.
fn two_keys<K: BuilderKey>(alloc: Global, keys: Vec<K>) -> Result<AnyKeys, Error> {
    let keys = Buffer::from_vec(alloc, keys)?;
    K::any_keys(&keys, None)
}

#[test]
fn keys_of_any_width(rt: HostRuntime) {
    let keys = vec![in rt.alloc(); 0i8, 1].expect(&rt, "memory");
    let keys = two_keys(rt.alloc(), keys).expect(&rt, "two keys");
    let count = keys.len();
    assert!(rt; count == 2);
}
