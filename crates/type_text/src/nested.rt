//! Nested types. Each level is counted, so that deeply nested text cannot overflow the stack.
ghost use Rattle.std.specs.Prelude.{◌≡◌, IfOk, length};
ghost use Rattle.nest_memory.specs.TypeOf.{field_of, type_of};
ghost use Rattle.nest_memory.specs.TypeTree as types;
ghost use Rattle.type_text.specs.TypeParser.{ReadsAs, map_entries, read_dictionary_end, read_list_size, read_map_fields, read_some_fields, read_dictionary, read_entries_end, read_extension, read_field, read_fields, read_fixed_size_list, read_type_id, read_item_field, read_index_type, read_list, read_map, read_nested, read_ordered, read_entry_field, read_struct, read_type, read_union, fields_and_ids};

use crate::error::{PartError, SyntaxError};
use crate::keyword::{Keyword, NestedType, keyword_at};
use crate::lexer::{expect, flag, name, name_or_default, number, strip_prefix};
use crate::parametric::{parametric, plain, size};
use nest_memory::datatypes::floats::is_float;
use nest_memory::datatypes::{DataType, Field, IntegerType, UnionMode};
use nest_memory::error::Error;
use std::alloc::Global;

/// Reads a data type of at most `levels` levels; returns it and the text after it.
#[cycle(types)]
pub fn type_at(alloc: Global, levels: u32, text: &str) -> Result<(DataType, &str), PartError>
    ensures { ReadsAs (λ x. (type_of x.0, x.1.now)) result (read_type levels text.now) }
{
    if levels == 0 {
        return Err(PartError::Syntax(SyntaxError::TooDeep(text.len())));
    }
    let (keyword, rest) = keyword_at(text)?;
    match keyword {
        Keyword::Plain(kind) => Ok((plain(alloc, kind)?, rest)),
        Keyword::Integer(key) => Ok((DataType::from(key), rest)),
        Keyword::Parametric(kind) => parametric(alloc, kind, rest),
        Keyword::Nested(kind) => nested(alloc, levels - 1, kind, rest),
    }
}

/// Reads what follows the keyword of a nested type, whose children have at most `levels` levels.
#[cycle(types)]
fn nested(
    alloc: Global,
    levels: u32,
    kind: NestedType,
    text: &str,
) -> Result<(DataType, &str), PartError>
    ensures { ReadsAs (λ x. (type_of x.0, x.1.now)) result (read_nested (read_type levels) kind text.now) }
{
    match kind {
        NestedType::List => list(alloc, levels, text),
        NestedType::FixedSizeList => fixed_size_list(alloc, levels, text),
        NestedType::LargeList => large_list(alloc, levels, text),
        NestedType::Struct => structure(alloc, levels, text),
        NestedType::DenseUnion => union(alloc, levels, UnionMode::Dense, text),
        NestedType::SparseUnion => union(alloc, levels, UnionMode::Sparse, text),
        NestedType::Map => map(alloc, levels, text),
        NestedType::Dictionary => dictionary(alloc, levels, text),
        NestedType::Extension => extension(alloc, levels, text),
    }
}

/// Reads a field without metadata: its name, its type and ` not null` if it is not nullable.
#[cycle(types)]
#[tactic(auto, unfolding(crate::specs::TypeParser::read_field))]
fn field(alloc: Global, levels: u32, text: &str) -> Result<(Field, &str), PartError>
    ensures { ReadsAs (λ x. (field_of x.0, x.1.now)) result (read_field (read_type levels) text.now) }
{
    let (name, rest) = name(text, ": ")?;
    let (data_type, rest) = type_at(alloc, levels, rest)?;
    let (is_required, rest) = flag(rest, " not null");
    Ok((Field::new(alloc, name, data_type, !is_required)?, rest))
}

/// Reads the item field of a list and the closing bracket.
#[cycle(types)]
#[tactic(auto, unfolding(crate::specs::TypeParser::read_item_field))]
fn item_field(alloc: Global, levels: u32, text: &str) -> Result<(Box<Field>, &str), PartError>
    ensures { ReadsAs (λ x. (field_of x.0.value, x.1.now)) result (read_item_field (read_type levels) text.now) }
{
    let (field, rest) = field(alloc, levels, text)?;
    let rest = expect(rest, ">")?;
    Ok((Box::new(alloc, field)?, rest))
}

#[cycle(types)]
#[tactic(auto, unfolding(crate::specs::TypeParser::read_list))]
fn list(alloc: Global, levels: u32, text: &str) -> Result<(DataType, &str), PartError>
    ensures { ReadsAs (λ x. (type_of x.0, x.1.now)) result (read_list (read_type levels) types.list text.now) }
{
    let (field, rest) = item_field(alloc, levels, text)?;
    Ok((DataType::List(field), rest))
}

#[cycle(types)]
#[tactic(auto, unfolding(crate::specs::TypeParser::read_list))]
fn large_list(alloc: Global, levels: u32, text: &str) -> Result<(DataType, &str), PartError>
    ensures { ReadsAs (λ x. (type_of x.0, x.1.now)) result (read_list (read_type levels) types.large_list text.now) }
{
    let (field, rest) = item_field(alloc, levels, text)?;
    Ok((DataType::LargeList(field), rest))
}

#[cycle(types)]
#[tactic(auto, unfolding(crate::specs::TypeParser::read_fixed_size_list))]
fn fixed_size_list(alloc: Global, levels: u32, text: &str) -> Result<(DataType, &str), PartError>
    ensures { ReadsAs (λ x. (type_of x.0, x.1.now)) result (read_fixed_size_list (read_type levels) text.now) }
{
    let (field, rest) = item_field(alloc, levels, text)?;
    let (n, rest) = list_size(rest)?;
    Ok((DataType::FixedSizeList(field, n), rest))
}

/// Reads the size of a fixed-size list in brackets.
#[tactic(auto, unfolding(crate::specs::TypeParser::read_list_size))]
fn list_size(text: &str) -> Result<(usize, &str), PartError>
    ensures { ReadsAs (λ x. (x.0, x.1.now)) result (read_list_size text.now) }
{
    let rest = expect(text, "[")?;
    size(rest)
}

#[cycle(types)]
#[tactic(auto, unfolding(crate::specs::TypeParser::read_struct))]
fn structure(alloc: Global, levels: u32, text: &str) -> Result<(DataType, &str), PartError>
    ensures { ReadsAs (λ x. (type_of x.0, x.1.now)) result (read_struct (read_type levels) text.now) }
{
    let (made, rest) = fields(alloc, levels, false, text)?;
    let (fields, _) = made;
    Ok((DataType::Struct(fields), rest))
}

#[cycle(types)]
#[tactic(auto, unfolding(crate::specs::TypeParser::read_union))]
fn union(
    alloc: Global,
    levels: u32,
    mode: UnionMode,
    text: &str,
) -> Result<(DataType, &str), PartError>
    ensures { ReadsAs (λ x. (type_of x.0, x.1.now)) result (read_union (read_type levels) mode text.now) }
{
    let (made, rest) = fields(alloc, levels, true, text)?;
    let (fields, ids) = made;
    Ok((DataType::Union(fields, Some(ids), mode), rest))
}

/// Reads fields and the closing bracket, with the type ids of a union's.
#[cycle(types)]
#[tactic(auto, unfolding(crate::specs::TypeParser::read_fields))]
fn fields(
    alloc: Global,
    levels: u32,
    has_ids: bool,
    text: &str,
) -> Result<((Vec<Field>, Vec<i32>), &str), PartError>
    ensures { ReadsAs (λ x. (fields_and_ids x.0, x.1.now)) result (read_fields has_ids (read_type levels) text.now) }
{
    match strip_prefix(text, ">") {
        Some(rest) => Ok(((Vec::new(alloc), Vec::new(alloc)), rest)),
        None => some_fields(alloc, levels, has_ids, text),
    }
}

/// Reads one field or more. Each takes at least one byte, which bounds their number.
#[cycle(types)]
fn some_fields(
    alloc: Global,
    levels: u32,
    has_ids: bool,
    text: &str,
) -> Result<((Vec<Field>, Vec<i32>), &str), PartError>
    ensures { ReadsAs (λ x. (fields_and_ids x.0, x.1.now)) result (read_some_fields has_ids (read_type levels) (length text.now) text.now) }
{
    let mut fields = Vec::new(alloc);
    let mut ids = Vec::new(alloc);
    let mut rest = text;
    for _ in 0..text.len() {
        let (field, after) = field(alloc, levels, rest)?;
        let (id, after) = type_id(has_ids, after)?;
        fields.push(field)?;
        if let Some(id) = id {
            ids.push(id)?;
        }
        match strip_prefix(after, ", ") {
            Some(next) => rest = next,
            None => {
                let end = expect(after, ">")?;
                return Ok(((fields, ids), end));
            }
        }
    }
    Err(PartError::Syntax(SyntaxError::Unexpected(rest.len())))
}

/// Reads the type id of a union's field.
#[tactic(auto, unfolding(crate::specs::TypeParser::read_type_id))]
fn type_id(has_ids: bool, text: &str) -> Result<(Option<i32>, &str), PartError>
    ensures { ReadsAs (λ x. (x.0, x.1.now)) result (read_type_id has_ids text.now) }
{
    if !has_ids {
        return Ok((None, text));
    }
    let digits = expect(text, "=")?;
    let (n, rest) = number(digits)?;
    if n >= 2_147_483_648 {
        return Err(PartError::Syntax(SyntaxError::Unexpected(digits.len())));
    }
    Ok((Some(n as i32), rest))
}

/// Reads the key field or the value field of a map, with its default name.
#[cycle(types)]
#[tactic(auto, unfolding(crate::specs::TypeParser::read_entry_field))]
fn entry_field<'a>(
    alloc: Global,
    levels: u32,
    default_name: &'a str,
    is_nullable: bool,
    text: &'a str,
) -> Result<(Field, &'a str), PartError>
    ensures { ReadsAs (λ x. (field_of x.0, x.1.now)) result (read_entry_field (read_type levels) default_name.now is_nullable text.now) }
{
    let (data_type, rest) = type_at(alloc, levels, text)?;
    let (name, rest) = name_or_default(rest, default_name)?;
    Ok((Field::new(alloc, name, data_type, is_nullable)?, rest))
}

/// Reads whether the keys of a map are sorted, the name of its entries and the closing bracket.
#[tactic(auto, unfolding(crate::specs::TypeParser::read_entries_end))]
fn entries_end(text: &str) -> Result<((bool, &str), &str), PartError>
    ensures { ReadsAs (λ x. ((x.0.0, x.0.1.now), x.1.now)) result (read_entries_end text.now) }
{
    let (is_sorted, rest) = flag(text, ", keys_sorted");
    let (name, rest) = name_or_default(rest, "entries")?;
    let rest = expect(rest, ">")?;
    Ok(((is_sorted, name), rest))
}

#[cycle(types)]
#[tactic(auto, unfolding(crate::specs::TypeParser::read_map))]
fn map(alloc: Global, levels: u32, text: &str) -> Result<(DataType, &str), PartError>
    ensures { ReadsAs (λ x. (type_of x.0, x.1.now)) result (read_map (read_type levels) text.now) }
{
    let (fields, rest) = map_fields(alloc, levels, text)?;
    let ((is_sorted, name), rest) = entries_end(rest)?;
    let (key, value) = fields;
    let entries = entries(alloc, name, key, value)?;
    Ok((DataType::Map(entries, is_sorted), rest))
}

/// Reads the key field and the value field of a map.
#[cycle(types)]
#[tactic(auto, unfolding(crate::specs::TypeParser::read_map_fields))]
fn map_fields(alloc: Global, levels: u32, text: &str) -> Result<((Field, Field), &str), PartError>
    ensures { ReadsAs (λ x. ((field_of x.0.0, field_of x.0.1), x.1.now)) result (read_map_fields (read_type levels) text.now) }
{
    let (key, rest) = entry_field(alloc, levels, "key", false, text)?;
    let rest = expect(rest, ", ")?;
    let (value, rest) = entry_field(alloc, levels, "value", true, rest)?;
    Ok(((key, value), rest))
}

/// Makes the entries of a map.
fn entries(alloc: Global, name: &str, key: Field, value: Field) -> Result<Box<Field>, Error>
    ensures { IfOk result (λ f. field_of f.value ≡ map_entries name.now (field_of key) (field_of value)) }
{
    let mut fields = Vec::with_capacity(alloc, 2)?;
    fields.push(key)?;
    fields.push(value)?;
    let entries = Field::new(alloc, name, DataType::Struct(fields), false)?;
    Ok(Box::new(alloc, entries)?)
}

/// Reads the index type of a dictionary.
#[tactic(auto, unfolding(crate::specs::TypeParser::read_index_type))]
fn index_type(text: &str) -> Result<(IntegerType, &str), PartError>
    ensures { ReadsAs (λ x. (x.0, x.1.now)) result (read_index_type text.now) }
{
    let (keyword, rest) = keyword_at(text)?;
    match keyword {
        Keyword::Integer(key) => Ok((key, rest)),
        Keyword::Plain(_) | Keyword::Parametric(_) | Keyword::Nested(_) => {
            Err(PartError::Syntax(SyntaxError::Unexpected(text.len())))
        }
    }
}

/// Reads whether the values of a dictionary are ordered, and the closing bracket.
fn ordered(text: &str) -> Result<(bool, &str), PartError>
    ensures { ReadsAs (λ x. (x.0, x.1.now)) result (read_ordered text.now) }
{
    match strip_prefix(text, ", ordered=1>") {
        Some(rest) => Ok((true, rest)),
        None => {
            let rest = expect(text, ", ordered=0>")?;
            Ok((false, rest))
        }
    }
}

#[cycle(types)]
#[tactic(auto, unfolding(crate::specs::TypeParser::read_dictionary))]
fn dictionary(alloc: Global, levels: u32, text: &str) -> Result<(DataType, &str), PartError>
    ensures { ReadsAs (λ x. (type_of x.0, x.1.now)) result (read_dictionary (read_type levels) text.now) }
{
    let (values, rest) = type_at(alloc, levels, text)?;
    let ((key, is_ordered), rest) = dictionary_end(rest)?;
    let values = Box::new(alloc, values)?;
    Ok((DataType::Dictionary(key, values, is_ordered), rest))
}

/// Reads the index type of a dictionary, and whether its values are ordered.
#[tactic(auto, unfolding(crate::specs::TypeParser::read_dictionary_end))]
fn dictionary_end(text: &str) -> Result<((IntegerType, bool), &str), PartError>
    ensures { ReadsAs (λ x. (x.0, x.1.now)) result (read_dictionary_end text.now) }
{
    let rest = expect(text, ", indices=")?;
    let (key, rest) = index_type(rest)?;
    let (is_ordered, rest) = ordered(rest)?;
    Ok(((key, is_ordered), rest))
}

#[cycle(types)]
#[tactic(auto, unfolding(crate::specs::TypeParser::read_extension))]
fn extension(alloc: Global, levels: u32, text: &str) -> Result<(DataType, &str), PartError>
    ensures { ReadsAs (λ x. (type_of x.0, x.1.now)) result (read_extension (read_type levels) text.now) }
{
    let (name, rest) = name(text, ", ")?;
    let (inner, rest) = type_at(alloc, levels, rest)?;
    let rest = expect(rest, ">")?;
    let name = String::from_str(alloc, name)?;
    let inner = Box::new(alloc, inner)?;
    let data_type = DataType::Extension(name, inner, None);
    if is_float(&data_type) {
        return Err(PartError::Syntax(SyntaxError::Unexpected(text.len())));
    }
    Ok((data_type, rest))
}
