//! Tests of `nest_array::columns`: struct and map arrays are equal to those whose fields and data types are made one by one.

mod entries;
mod structs;

use nest_array::{AnyArray, Boxed};
use nest_flat::primitive::PrimitiveArray;
use nest_flat::utf8::Utf8Array;
use nest_memory::error::Error;
use std::alloc::Global;

/// The strings "ann" and "bob".
fn strings(alloc: Global) -> Result<AnyArray, Error> {
    Ok(Utf8Array::<i32>::from_slice(alloc, &["ann", "bob"])?.boxed())
}

fn numbers(alloc: Global, values: &[Option<i32>]) -> Result<AnyArray, Error> {
    Ok(PrimitiveArray::from_options(alloc, values)?.boxed())
}

/// The strings and these numbers.
fn strings_and_numbers(alloc: Global, values: &[Option<i32>]) -> Result<Vec<AnyArray>, Error> {
    let mut columns = Vec::with_capacity(alloc, 2)?;
    columns.push(strings(alloc)?)?;
    columns.push(numbers(alloc, values)?)?;
    Ok(columns)
}
