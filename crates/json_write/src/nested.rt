//! Slots of arrays of any data type, by mutual recursion over child arrays.
ghost use Rattle.std.specs.Prelude.{◌≡◌, ◌+◌, ◌≤◌, ◌<◌, codes, false, if◌then◌else◌};
ghost use Rattle.std.specs.Fmt.{WritesOnOk};
ghost use Rattle.nest_array.specs.Seen.{layout_of, layouts_of};
ghost use Rattle.nest_memory.specs.TypeOf.{field_list_of, field_of};
ghost use Rattle.nest_model.specs.Fits.{EachCovers, EachType};
ghost use Rattle.nest_model.specs.Layout.{layout_type};
ghost use Rattle.nest_model.specs.Meaning.{each, len, run, slot};
ghost use Rattle.json_write.specs.JsonText.{field_name, json_list, json_members, slot_json, slots_json};

use crate::flat::{
    write_any_primitive, write_any_primitive_as, write_any_primitive_items, write_binary,
    write_boolean, write_fixed_size_binary, write_string,
};
use crate::format::ValueFormat;
use crate::quoting::{write_comma, write_quoted};
use nest_array::{
    AnyArray, DictionaryArray, FixedSizeListArray, LargeListArray, ListArray, MapArray,
    StructArray, UnionArray,
};
use nest_memory::datatypes::Field;
use std::fmt;
use std::fmt::Formatter;

/// Writes slot `i`.
#[cycle(show)]
pub(crate) fn write_slot<W: fmt::Write>(
    f: &mut Formatter<W>,
    array: &AnyArray,
    i: usize,
) -> fmt::Result
    requires { i < len (layout_of array.now) }
    ensures { WritesOnOk W.write_str_gives f.old result (slot_json (layout_of array.now) i) f.new }
{
    match array {
        AnyArray::Null(array) => {
            array.known();
            f.write_str("null")
        }
        AnyArray::Boolean(array) => write_boolean(f, array, i),
        AnyArray::Primitive(array) => write_any_primitive(f, array, i),
        AnyArray::Binary(array) => write_binary(f, array, i),
        AnyArray::LargeBinary(array) => write_binary(f, array, i),
        AnyArray::Utf8(array) => write_string(f, array, i),
        AnyArray::LargeUtf8(array) => write_string(f, array, i),
        AnyArray::FixedSizeBinary(array) => write_fixed_size_binary(f, array, i),
        AnyArray::FixedSizeList(array) => write_fixed_size_list(f, array, i),
        AnyArray::List(array) => write_list(f, array, i),
        AnyArray::LargeList(array) => write_large_list(f, array, i),
        AnyArray::Struct(array) => write_struct(f, array, i),
        AnyArray::Map(array) => write_map(f, array, i),
        AnyArray::Union(array) => write_union(f, array, i),
        AnyArray::Dictionary(array) => write_dictionary(f, array, i),
    }
}

/// Writes `count` slots from index `start` as a JSON array.
#[cycle(show)]
pub(crate) fn write_array<W: fmt::Write>(
    f: &mut Formatter<W>,
    array: &AnyArray,
    start: usize,
    count: usize,
) -> fmt::Result
    requires { start + count ≤ len (layout_of array.now) }
    ensures { WritesOnOk W.write_str_gives f.old result (json_list (layout_type (layout_of array.now)) (run (slot (layout_of array.now)) start count)) f.new }
{
    f.write_str("[")?;
    write_items(f, array, start, count)?;
    f.write_str("]")
}

/// Writes `count` slots from index `start`, separated by commas.
#[cycle(show)]
pub(crate) fn write_items<W: fmt::Write>(
    f: &mut Formatter<W>,
    array: &AnyArray,
    start: usize,
    count: usize,
) -> fmt::Result
    requires { start + count ≤ len (layout_of array.now) }
    ensures { WritesOnOk W.write_str_gives f.old result (slots_json (layout_of array.now) start count) f.new }
{
    match array {
        AnyArray::Primitive(array) => write_any_primitive_items(f, array, start, count),
        _ => write_each_item(f, array, start, count),
    }
}

#[cycle(show)]
fn write_each_item<W: fmt::Write>(
    f: &mut Formatter<W>,
    array: &AnyArray,
    start: usize,
    count: usize,
) -> fmt::Result
    requires { start + count ≤ len (layout_of array.now) }
    ensures { WritesOnOk W.write_str_gives f.old result (slots_json (layout_of array.now) start count) f.new }
{
    let _end = array.len();
    for k in 0..count {
        write_comma(f, k > 0)?;
        write_slot(f, array, start + k)?;
    }
    Ok(())
}

/// Returns the name of the field.
pub(crate) fn name(field: &Field) -> &str
    ensures { result.now ≡ field_name (field_of field.now) }
{
    &field.name
}

/// Writes the items of a list slot as a JSON array, or `null`.
#[cycle(show)]
fn write_list_slot<W: fmt::Write>(
    f: &mut Formatter<W>,
    null: bool,
    items: &AnyArray,
    start: usize,
    count: usize,
) -> fmt::Result
    requires { start + count ≤ len (layout_of items.now) }
    ensures { WritesOnOk W.write_str_gives f.old result (if null then codes "null" else json_list (layout_type (layout_of items.now)) (run (slot (layout_of items.now)) start count)) f.new }
{
    if null {
        f.write_str("null")
    } else {
        write_array(f, items, start, count)
    }
}

#[cycle(show)]
pub(crate) fn write_list<W: fmt::Write>(
    f: &mut Formatter<W>,
    array: &ListArray,
    i: usize,
) -> fmt::Result
    requires { i < len array.now }
    ensures { WritesOnOk W.write_str_gives f.old result (slot_json array.now i) f.new }
{
    array.known();
    let row = array.window(i);
    row.known();
    write_list_slot(f, array.is_null(i), row.array(), row.offset(), row.len())
}

#[cycle(show)]
pub(crate) fn write_large_list<W: fmt::Write>(
    f: &mut Formatter<W>,
    array: &LargeListArray,
    i: usize,
) -> fmt::Result
    requires { i < len array.now }
    ensures { WritesOnOk W.write_str_gives f.old result (slot_json array.now i) f.new }
{
    array.known();
    let row = array.window(i);
    row.known();
    write_list_slot(f, array.is_null(i), row.array(), row.offset(), row.len())
}

#[cycle(show)]
pub(crate) fn write_fixed_size_list<W: fmt::Write>(
    f: &mut Formatter<W>,
    array: &FixedSizeListArray,
    i: usize,
) -> fmt::Result
    requires { i < len array.now }
    ensures { WritesOnOk W.write_str_gives f.old result (slot_json array.now i) f.new }
{
    array.known();
    let row = array.window(i);
    row.known();
    write_list_slot(f, array.is_null(i), row.array(), row.offset(), row.len())
}

#[cycle(show)]
pub(crate) fn write_map<W: fmt::Write>(
    f: &mut Formatter<W>,
    array: &MapArray,
    i: usize,
) -> fmt::Result
    requires { i < len array.now }
    ensures { WritesOnOk W.write_str_gives f.old result (slot_json array.now i) f.new }
{
    array.known();
    let row = array.window(i);
    row.known();
    write_list_slot(f, array.is_null(i), row.array(), row.offset(), row.len())
}

#[cycle(show)]
pub(crate) fn write_struct<W: fmt::Write>(
    f: &mut Formatter<W>,
    array: &StructArray,
    i: usize,
) -> fmt::Result
    requires { i < len array.now }
    ensures { WritesOnOk W.write_str_gives f.old result (slot_json array.now i) f.new }
{
    array.known();
    if array.is_null(i) {
        return f.write_str("null");
    }
    f.write_str("{")?;
    write_members(f, array.fields(), array.values(), i)?;
    f.write_str("}")
}

/// Writes slot `i` of each child array as a member named after its field.
#[cycle(show)]
fn write_members<W: fmt::Write>(
    f: &mut Formatter<W>,
    fields: &[Field],
    children: &[AnyArray],
    i: usize,
) -> fmt::Result
    requires typed { EachType (field_list_of fields.now) (layouts_of children.now) }
    requires within { EachCovers (layouts_of children.now) (i + 1) }
    ensures { WritesOnOk W.write_str_gives f.old result (json_members (field_list_of fields.now) false (each (layouts_of children.now) i)) f.new }
{
    let mut after = false;
    for (field, child) in fields.iter().zip(children) {
        write_comma(f, after)?;
        write_quoted(f, name(field))?;
        f.write_str(":")?;
        write_slot(f, child, i)?;
        after = true;
    }
    Ok(())
}

#[cycle(show)]
pub(crate) fn write_union<W: fmt::Write>(
    f: &mut Formatter<W>,
    array: &UnionArray,
    i: usize,
) -> fmt::Result
    requires { i < len array.now }
    ensures { WritesOnOk W.write_str_gives f.old result (slot_json array.now i) f.new }
{
    array.known();
    let (k, place) = array.index(i);
    let fields = UnionArray::get_fields(array.data_type());
    let children = array.fields();
    f.write_str("{")?;
    write_quoted(f, name(&fields[k]))?;
    f.write_str(":")?;
    write_slot(f, &children[k], place)?;
    f.write_str("}")
}

// Native values are written in the format of the dictionary's data type: the array of values may lack its extension types.
#[cycle(show)]
pub(crate) fn write_dictionary<W: fmt::Write>(
    f: &mut Formatter<W>,
    array: &DictionaryArray,
    i: usize,
) -> fmt::Result
    requires { i < len array.now }
    ensures { WritesOnOk W.write_str_gives f.old result (slot_json array.now i) f.new }
{
    array.known();
    if array.is_null(i) {
        return f.write_str("null");
    }
    let values = array.values();
    let key = array.key_value(i);
    match values.as_any_primitive() {
        Some(natives) => {
            natives.known();
            let format = ValueFormat::of_type(array.data_type());
            write_any_primitive_as(f, natives, format, key)
        }
        None => write_slot(f, values, key),
    }
}
