//! Record batches of three columns: a name, a list of counts, and a number.
ghost use Rattle.std.specs.Prelude.{◌≡◌, ◌∷◌, [], map, IfOk, IsTrue, ◌↔◌};
ghost use Rattle.nest_memory.specs.TypeOf.{field_of};
ghost use Rattle.guide.specs.Words.{HaveSameRows, record_batch_of, layout_of, order_schema, schema_of, slots_of, two_counts, two_orders};

use std::alloc::Global;
use std::collections::BTreeMap;
use tiekvorn::arrow_ipc::{Batch, Schema};
use tiekvorn::error::Error;
use tiekvorn::{
    AnyArray, Boxed, DataType, Field, ListArray, MutableArray, MutableListArray,
    MutablePrimitiveArray, PrimitiveArray, Utf8Array,
};

/// Returns a field for each column.
fn fields(alloc: Global) -> Result<Vec<Field>, Error>
    ensures { IfOk result (λ v. map field_of v.items ≡ order_schema.fields) }
{
    let counts = ListArray::default_datatype(alloc, DataType::Int64)?;
    let mut fields = Vec::with_capacity(alloc, 3)?;
    fields.push(Field::new(alloc, "name", DataType::Utf8, true)?)?;
    fields.push(Field::new(alloc, "counts", counts, true)?)?;
    fields.push(Field::new(alloc, "paid", DataType::Int64, true)?)?;
    Ok(fields)
}

/// Returns the schema of all batches. Its metadata is empty.
pub fn schema(alloc: Global) -> Result<Schema, Error>
    ensures { IfOk result (λ s. schema_of s ≡ order_schema) }
{
    let fields = fields(alloc)?;
    let metadata = BTreeMap::new(alloc);
    Ok(Schema { fields, metadata })
}

/// Builds the list array `[[1, null], null]`.
fn counts(alloc: Global) -> Result<ListArray, Error>
    ensures { IfOk result (λ a. slots_of a ≡ two_counts) }
{
    let values = MutablePrimitiveArray::<i64>::new(alloc);
    let mut builder = MutableListArray::<i32, _>::new(alloc, values)?;
    builder.try_push_slice(Some(&[Some(1i64), None]))?;
    builder.try_push_slice(None)?;
    builder.freeze()
}

/// Returns the columns of an order with this name, and of a row of nulls.
fn columns(alloc: Global, name: &str) -> Result<Vec<AnyArray>, Error>
    ensures { IfOk result (λ v. map slots_of (map layout_of v.items) ≡ two_orders name.now) }
{
    let mut columns = Vec::with_capacity(alloc, 3)?;
    columns.push(Utf8Array::<i32>::from_options(alloc, &[Some(name), None])?.boxed())?;
    columns.push(counts(alloc)?.boxed())?;
    columns.push(PrimitiveArray::from_options(alloc, &[Some(7i64), None])?.boxed())?;
    Ok(columns)
}

/// Returns a batch of these two rows.
pub fn batch(alloc: Global, name: &str) -> Result<Batch, Error>
    ensures rows { IfOk result (λ b. b.rows ≡ 2) }
    ensures slots { IfOk result (λ b. map slots_of (record_batch_of b).columns ≡ two_orders name.now) }
{
    let columns = columns(alloc, name)?;
    Ok(Batch { rows: 2, columns })
}

/// Returns whether two batches have the same number of rows, and equal columns.
pub fn are_equal(a: &Batch, b: &Batch) -> bool
    ensures { IsTrue result ↔ HaveSameRows (record_batch_of a.now) (record_batch_of b.now) }
{
    a.rows == b.rows && a.columns == b.columns
}
