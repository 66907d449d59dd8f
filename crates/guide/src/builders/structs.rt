//! A struct builder, filled row by row. Its children are builders of any kind.
ghost use Rattle.std.specs.Prelude.{◌≡◌, ◌∷◌, [], true, false, IfOk, OnErr, OnOk, IsErrOf};
ghost use Rattle.nest_any.specs.Trees.{trees_of};
ghost use Rattle.nest_build.specs.Words.{InvalidArgumentError, ItemType};
ghost use Rattle.guide.specs.People.{ArePeople, columns, is_person, no_people, person_type, with_people, with_person};
ghost use Rattle.guide.specs.Words.{type_of};

use std::alloc::Global;
use tiekvorn::error::{ArgumentError, Error};
use tiekvorn::{
    AnyMutableArray, AnyMutableFlat, AnyMutablePrimitive, DataType, Field, MutableArray,
    MutablePrimitiveArray, MutableStructArray, MutableUtf8Array, Plain,
};

/// A name and an age. Each is a value of any kind, or missing.
pub type Cells<'a> = (Option<Plain<'a>>, Option<Plain<'a>>);

/// Returns the data type of a person: a name and an age.
fn person_data_type(alloc: Global) -> Result<DataType, Error>
    ensures { IfOk result (λ t. type_of t ≡ person_type) }
{
    let mut fields = Vec::with_capacity(alloc, 2)?;
    fields.push(Field::new(alloc, "name", DataType::Utf8, true)?)?;
    fields.push(Field::new(alloc, "age", DataType::Int32, true)?)?;
    Ok(DataType::Struct(fields))
}

/// Returns an empty builder for each field.
fn column_builders(alloc: Global) -> Result<Vec<AnyMutableArray>, Error>
    ensures { IfOk result (λ v. trees_of v.items ≡ columns [] []) }
{
    let names = MutableUtf8Array::new(alloc)?;
    let ages = AnyMutablePrimitive::Int32(MutablePrimitiveArray::new(alloc));
    let mut columns = Vec::with_capacity(alloc, 2)?;
    columns.push(AnyMutableArray::Flat(AnyMutableFlat::Utf8(names)))?;
    columns.push(AnyMutableArray::Flat(AnyMutableFlat::Primitive(ages)))?;
    Ok(columns)
}

/// Returns an empty builder of people.
pub fn new_people_builder(alloc: Global) -> Result<MutableStructArray, Error>
    ensures { IfOk result (λ b. b ≡ no_people) }
{
    let data_type = person_data_type(alloc)?;
    match column_builders(alloc) {
        Ok(columns) => MutableStructArray::try_new(alloc, data_type, columns, None),
        Err(error) => {
            drop(data_type);
            Err(error)
        }
    }
}

/// Pushes a person: each cell to its child, then a valid row. After an error the builder is as it was.
pub fn push_person(people: &mut MutableStructArray, cells: Cells<'_>) -> Result<(), Error>
    requires { ArePeople people.old }
    ensures pushed { OnOk result ((is_person cells.entry ≡ true) × (people.new ≡ with_person cells.entry people.old)) }
    ensures refused { OnErr result (people.new ≡ people.old) }
    ensures kind { IsErrOf result (InvalidArgumentError ItemType) → is_person cells.entry ≡ false }
{
    let rows = people.len();
    people.value(0).try_push_plain(cells.0)?;
    if let Err(error) = people.value(1).try_push_plain(cells.1) {
        people.value(0).truncate(rows);
        return Err(error);
    }
    if let Err(error) = people.push(true) {
        people.value(0).truncate(rows);
        people.value(1).truncate(rows);
        return Err(error);
    }
    Ok(())
}

/// Pushes a person where the cells are one, else nothing.
fn push_or_skip(people: &mut MutableStructArray, cells: Cells<'_>) -> Result<(), Error>
    requires { ArePeople people.old }
    ensures pushed { OnOk result (people.new ≡ with_people (cells.entry ∷ []) people.old) }
    ensures refused { OnErr result (people.new ≡ people.old) }
{
    match push_person(people, cells) {
        Err(Error::InvalidArgumentError(ArgumentError::ItemType)) => Ok(()),
        pushed => pushed,
    }
}

/// Pushes each row of cells that is a person, and skips the others. Where an allocation fails, it pushes none.
pub fn load(people: &mut MutableStructArray, rows: &[Cells<'_>]) -> Result<(), Error>
    requires { ArePeople people.old }
    ensures loaded { OnOk result (people.new ≡ with_people rows.now people.old) }
    ensures refused { OnErr result (people.new ≡ people.old) }
{
    let count = people.len();
    for cells in rows {
        if let Err(error) = push_or_skip(people, *cells) {
            people.truncate(count);
            return Err(error);
        }
    }
    Ok(())
}
