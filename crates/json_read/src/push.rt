//! JSON values as slots of builders of any type, by recursion over JSON arrays and objects.
ghost use Rattle.std.specs.Prelude.{◌≡◌, ◌⊎◌, [], length, map, IfErr, IfOk, None, OnOk, Some};
ghost use Rattle.json.specs.Json.{Members, object};
ghost use Rattle.json.specs.Value.{items_view, members_view, value_view};
ghost use Rattle.nest_any.specs.Trees.{tree_of};
ghost use Rattle.nest_any.specs.Words.{HasCompleteChildren, IsOfLists, IsComplete, builder_len, builder_type, builder_types, physical_type, struct_children};
ghost use Rattle.json_read.specs.DistinctNames.{HasDistinctFieldNames};
ghost use Rattle.json_read.specs.StructMembers.{MembersAdded, MemberAdded, child_error, child_named};
ghost use Rattle.json_read.specs.FlatValues.{first_error};
ghost use Rattle.json_read.specs.JsonSlots.{items_error, list_length_error, members_error, slot_of, struct_slot, value_error};
ghost use Rattle.json_read.specs.SlotAdded.{IsList, IsPushError, SlotAdded, SlotsAdded};
ghost use Rattle.nest_memory.specs.TypeOf.{type_of};
ghost use Rattle.nest_memory.specs.TypeTree.{fields_of, fixed_size};
ghost use Rattle.nest_memory.specs.declared.datatypes.physical_type.PhysicalType.TheVariants as physical;
ghost use Rattle.nest_model.specs.Layout.{field_types};
ghost use Rattle.nest_model.specs.Slot as slots;
ghost use Rattle.nest_model.specs.Slot.{seal};
ghost use Rattle.json_write.specs.JsonText.{items_type};

use crate::fields::field_at;
use crate::flat::push_leaf;
use crate::list_rows::push_list_slot;
use crate::struct_rows::{push_missing_nulls, push_struct_slot};
use crate::value_error::{PushError, ValueError};
use crate::values_type::physical_type_of_values;
use json::Value;
use nest_any::{AnyMutableArray, ListBuilder, MutableStructArray};
use nest_build::array::MutableArray;
use nest_memory::datatypes::DataType;
use nest_memory::datatypes::physical_type::PhysicalType;
use std::alloc::Global;

/// Adds the slot of a value under the builder's data type. After an error the child builders may hold some of its items.
///
/// # Errors
/// - `Value`: the value is no slot of the data type. Of several errors it is the first in the order of the text.
/// - `Overflow`: the array or a child array would exceed its maximum size.
/// - `Memory`: an allocation fails.
#[cycle(push)]
pub(crate) fn push_value(
    alloc: Global,
    builder: &mut AnyMutableArray,
    value: &Value<'_>,
) -> Result<(), PushError>
    requires complete { IsComplete (tree_of builder.old) }
    requires distinct { HasDistinctFieldNames (builder_type (tree_of builder.old)) }
    ensures added { OnOk result (SlotAdded (slot_of (builder_type (tree_of builder.old)) (value_view value.now)) (tree_of builder.old) (tree_of builder.new)) }
    ensures valid { OnOk result (value_error (builder_type (tree_of builder.old)) (value_view value.now) ≡ None) }
    ensures error { IfErr result (λ e. IsPushError e (value_error (builder_type (tree_of builder.old)) (value_view value.now))) }
{
    match value {
        Value::Array(items) => {
            let size = builder.data_type().size();
            match builder {
                AnyMutableArray::List(lists) => push_list(alloc, lists, size, items),
                _ => push_numbers(alloc, builder, value),
            }
        }
        Value::Object(members) => match builder {
            AnyMutableArray::Struct(records) => push_struct(alloc, records, members),
            _ => Err(not_a_struct(builder.data_type())),
        },
        _ => push_leaf(alloc, builder, value),
    }
}

// Adds a JSON array to a builder of no lists: the numbers of a native value. The builder's contract does not exclude a list type, so it
// is checked.
fn push_numbers(
    alloc: Global,
    builder: &mut AnyMutableArray,
    value: &Value<'_>,
) -> Result<(), PushError>
    requires complete { IsComplete (tree_of builder.old) }
    requires list { IsList (value_view value.now) }
    ensures added { OnOk result (SlotAdded (slot_of (builder_type (tree_of builder.old)) (value_view value.now)) (tree_of builder.old) (tree_of builder.new)) }
    ensures valid { OnOk result (value_error (builder_type (tree_of builder.old)) (value_view value.now) ≡ None) }
    ensures error { IfErr result (λ e. IsPushError e (value_error (builder_type (tree_of builder.old)) (value_view value.now))) }
{
    match physical_type_of_values(builder.data_type()) {
        PhysicalType::List | PhysicalType::LargeList | PhysicalType::FixedSizeList => {
            Err(PushError::Overflow)
        }
        _ => push_leaf(alloc, builder, value),
    }
}

// Returns the error of an object for a builder of no structs.
fn not_a_struct(data_type: &DataType) -> PushError
    ensures { (ms : Members) → IsPushError result (value_error (type_of data_type.now) (object ms)) }
{
    match physical_type_of_values(data_type) {
        PhysicalType::Struct => PushError::Overflow,
        _ => PushError::Value(ValueError::WrongType),
    }
}

// Adds a list slot of the items.
#[cycle(push)]
fn push_list(
    alloc: Global,
    lists: &mut ListBuilder,
    size: Option<usize>,
    items: &[Value<'_>],
) -> Result<(), PushError>
    requires complete { IsComplete lists.old }
    requires distinct { HasDistinctFieldNames (builder_type lists.old) }
    requires size { size ≡ fixed_size (builder_type lists.old) }
    ensures lists { IsOfLists (physical_type (builder_type lists.old)) }
    ensures added { OnOk result (SlotAdded (slots.list (seal (map (λ v. slot_of (items_type (builder_type lists.old)) (value_view v)) items.now))) lists.old lists.new) }
    ensures valid { OnOk result (first_error (items_error (items_type (builder_type lists.old)) (items_view items.now)) (list_length_error size (length items.now)) ≡ None) }
    ensures error { IfErr result (λ e. IsPushError e (first_error (items_error (items_type (builder_type lists.old)) (items_view items.now)) (list_length_error size (length items.now)))) }
{
    lists.known();
    if let Err(error) = push_items(alloc, lists.child(), items) {
        return Err(error);
    }
    if let Some(size) = size {
        if size != items.len() {
            return Err(PushError::Value(ValueError::WrongLength));
        }
    }
    push_list_slot(lists)
}

// Adds the items of a list slot to the child builder.
#[cycle(push)]
fn push_items(
    alloc: Global,
    child: &mut AnyMutableArray,
    items: &[Value<'_>],
) -> Result<(), PushError>
    requires complete { IsComplete (tree_of child.old) }
    requires distinct { HasDistinctFieldNames (builder_type (tree_of child.old)) }
    ensures added { OnOk result (SlotsAdded (map (λ v. slot_of (builder_type (tree_of child.old)) (value_view v)) items.now) (tree_of child.old) (tree_of child.new)) }
    ensures valid { OnOk result (items_error (builder_type (tree_of child.old)) (items_view items.now) ≡ None) }
    ensures error { IfErr result (λ e. IsPushError e (items_error (builder_type (tree_of child.old)) (items_view items.now))) }
{
    for item in items {
        push_value(alloc, child, item)?;
    }
    Ok(())
}

// Adds a struct slot of the members.
#[cycle(push)]
fn push_struct(
    alloc: Global,
    records: &mut MutableStructArray,
    members: &[(&str, Value<'_>)],
) -> Result<(), PushError>
    requires complete { IsComplete records.old }
    requires distinct { HasDistinctFieldNames (builder_type records.old) }
    ensures records { physical_type (builder_type records.old) ≡ physical.Struct }
    ensures added { OnOk result (SlotAdded (struct_slot (fields_of (builder_type records.old)) (members_view members.now)) records.old records.new) }
    ensures valid { OnOk result (members_error (fields_of (builder_type records.old)) [] (members_view members.now) ≡ None) }
    ensures error { IfErr result (λ e. IsPushError e (members_error (fields_of (builder_type records.old)) [] (members_view members.now))) }
{
    records.known();
    let len = MutableArray::len(records);
    push_members(alloc, records, len, members)?;
    push_missing_nulls(records.mut_values(), len)?;
    push_struct_slot(records)
}

// Adds the members of a struct slot to the child builders of their fields.
#[cycle(push)]
fn push_members(
    alloc: Global,
    records: &mut MutableStructArray,
    len: usize,
    members: &[(&str, Value<'_>)],
) -> Result<(), PushError>
    requires complete { IsComplete records.old }
    requires distinct { HasDistinctFieldNames (builder_type records.old) }
    requires len { len ≡ builder_len records.old }
    ensures added { OnOk result (MembersAdded (members_view members.now) records.old records.new) }
    ensures valid { OnOk result (members_error (fields_of (builder_type records.old)) [] (members_view members.now) ≡ None) }
    ensures error { IfErr result (λ e. IsPushError e (members_error (fields_of (builder_type records.old)) [] (members_view members.now))) }
{
    records.known();
    let mut next = 0;
    for member in members {
        match push_member(alloc, records, len, next, member.0, &member.1) {
            Ok(after) => next = after,
            Err(error) => return Err(error),
        }
    }
    Ok(())
}

// Adds one member. The search for its field begins at `next`; returns where to begin for the member after it.
#[cycle(push)]
fn push_member(
    alloc: Global,
    records: &mut MutableStructArray,
    len: usize,
    next: usize,
    name: &str,
    value: &Value<'_>,
) -> Result<usize, PushError>
    requires children { HasCompleteChildren records.old }
    requires typed { builder_types (struct_children records.old) ≡ field_types (fields_of (builder_type records.old)) }
    requires distinct { HasDistinctFieldNames (builder_type records.old) }
    ensures added { IfOk result (λ next. MemberAdded name.now (value_view value.now) len records.old records.new) }
    ensures error { IfErr result (λ e. IsPushError e (child_error (child_named name.now (fields_of (builder_type records.old)) (struct_children records.old)) len (value_view value.now))) }
{
    records.known();
    let Some(i) = field_at(MutableArray::data_type(records).fields(), next, name) else {
        return Err(PushError::Value(ValueError::UnknownField));
    };
    if records.values()[i].len() != len {
        return Err(PushError::Value(ValueError::DuplicateField));
    }
    match push_value(alloc, records.value(i), value) {
        Ok(()) => Ok(i + 1),
        Err(error) => Err(error),
    }
}
