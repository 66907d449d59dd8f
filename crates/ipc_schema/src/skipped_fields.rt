//! The nodes and buffers of fields that are skipped.
ghost use Rattle.std.specs.Prelude.{◌≡◌, ◌<◌, ◌≤◌, ◌^◌, ◌+◌, ◌*◌, length, IfOk, Ok};
ghost use Rattle.ipc_flatbuf.specs.Flatbuffers.{spec_read_table, spec_items_at};
ghost use Rattle.ipc_schema.specs.SkippedFields.{IsWithinBudget, spec_nothing_skipped, spec_plus, spec_table_position, spec_is_union_tag, spec_is_view_tag, spec_plain_buffers, spec_mode_buffers, spec_union_buffers, spec_own_buffers, spec_skipped_with, spec_skipped_fields_at, spec_skipped_over, spec_skipped_field_at};

use crate::nested::mode_of;
use ipc_flatbuf::{
    FlatbufferTable, IpcReadError, SkippedField, VectorItems, i16_field, items_at, non_negative,
    offset_at, offset_field, read_table, u8_field,
};
use nest_memory::datatypes::UnionMode;

// The table at a position, which costs 8 bytes of the budget.
fn read_table_charged(
    bytes: &[u8],
    position: usize,
    left: usize,
) -> Result<(FlatbufferTable, usize), IpcReadError>
    requires { length bytes.now < 2 ^ 32 }
    ensures value { result ≡ spec_read_table bytes.now position left }
    ensures within { IfOk result (λ x. (x.0.at < 2 ^ 32) × (x.0.vtable < 2 ^ 32)) }
    ensures within_budget { IfOk result (λ x. x.1 + 8 ≤ left) }
{
    read_table(bytes, position, left)
}

// The vector of offsets at a position, which reduces the budget.
fn items_charged(
    bytes: &[u8],
    position: Option<usize>,
    left: usize,
) -> Result<(VectorItems, usize), IpcReadError>
    requires { length bytes.now < 2 ^ 32 }
    ensures value { result ≡ spec_items_at 4 bytes.now position left }
    ensures within { IfOk result (λ x. x.0.first + x.0.count * 4 ≤ length bytes.now) }
    ensures within_budget { IfOk result (λ x. x.1 ≤ left) }
{
    items_at(4, bytes, position, left)
}

fn nothing_skipped() -> SkippedField
    ensures { result ≡ spec_nothing_skipped }
{
    SkippedField {
        nodes: 0,
        buffers: 0,
        views: 0,
        has_union: false,
        has_dictionary: false,
    }
}

fn plus(a: SkippedField, b: SkippedField) -> SkippedField
    requires nodes { a.nodes + b.nodes < 2 ^ 64 }
    requires buffers { a.buffers + b.buffers < 2 ^ 64 }
    requires views { a.views + b.views < 2 ^ 64 }
    ensures { result ≡ spec_plus a b }
{
    SkippedField {
        nodes: a.nodes + b.nodes,
        buffers: a.buffers + b.buffers,
        views: a.views + b.views,
        has_union: a.has_union || b.has_union,
        has_dictionary: a.has_dictionary || b.has_dictionary,
    }
}

// The position of a type table, which is present and has a tag.
fn table_position(tag: u8, to: Option<usize>) -> Result<usize, IpcReadError>
    ensures { result ≡ spec_table_position tag to }
{
    match to {
        None => Err(IpcReadError::MissingType),
        Some(position) => {
            if tag == 0 {
                Err(IpcReadError::MissingType)
            } else if tag > 26 {
                Err(IpcReadError::UnknownType)
            } else {
                Ok(position)
            }
        }
    }
}

fn is_union_tag(tag: u8) -> bool
    ensures { result ≡ spec_is_union_tag tag }
{
    tag == 14
}

fn is_view_tag(tag: u8) -> bool
    ensures { result ≡ spec_is_view_tag tag }
{
    tag == 23 || tag == 24
}

pub(crate) fn plain_buffers(tag: u8) -> usize
    ensures value { result ≡ spec_plain_buffers tag }
    ensures few { result ≤ 3 }
{
    match tag {
        1 | 22 => 0,
        13 | 16 => 1,
        4 | 5 | 19 | 20 | 25 | 26 => 3,
        _ => 2,
    }
}

pub(crate) fn mode_buffers(mode: UnionMode) -> usize
    ensures value { result ≡ spec_mode_buffers mode }
    ensures few { result ≤ 3 }
{
    match mode {
        UnionMode::Sparse => 1,
        UnionMode::Dense => 2,
    }
}

#[tactic(auto, unfolding(crate::specs::SkippedFields::spec_union_buffers))]
fn union_buffers(bytes: &[u8], position: usize, left: usize) -> Result<(usize, usize), IpcReadError>
    requires { length bytes.now < 2 ^ 32 }
    ensures value { result ≡ spec_union_buffers bytes.now position left }
    ensures few { IfOk result (λ x. (x.0 ≤ 3) × (x.1 ≤ left)) }
{
    let (table, left) = read_table_charged(bytes, position, left)?;
    let number = i16_field(bytes, table, 0, 0)?;
    let mode = mode_of(non_negative(IpcReadError::TypeRange, number as i64)?)?;
    Ok((mode_buffers(mode), left))
}

// The number of buffers of an array without its children.
fn own_buffers(
    tag: u8,
    bytes: &[u8],
    position: usize,
    left: usize,
) -> Result<(usize, usize), IpcReadError>
    requires { length bytes.now < 2 ^ 32 }
    ensures value { result ≡ spec_own_buffers tag bytes.now position left }
    ensures few { IfOk result (λ x. (x.0 ≤ 3) × (x.1 ≤ left)) }
{
    if is_union_tag(tag) {
        union_buffers(bytes, position, left)
    } else {
        Ok((plain_buffers(tag), left))
    }
}

// A field with its descendants; the values of a dictionary are not in the record batch.
fn skipped_with(has_dictionary: bool, tag: u8, buffers: usize, inside: SkippedField) -> SkippedField
    requires nodes { 1 + inside.nodes < 2 ^ 64 }
    requires buffers { buffers + inside.buffers < 2 ^ 64 }
    requires views { 1 + inside.views < 2 ^ 64 }
    ensures { result ≡ spec_skipped_with has_dictionary tag buffers inside }
{
    let has_union = is_union_tag(tag) || inside.has_union;
    if has_dictionary {
        return SkippedField {
            nodes: 1,
            buffers: 2,
            views: 0,
            has_union,
            has_dictionary: true,
        };
    }
    let own = if is_view_tag(tag) { 1 } else { 0 };
    SkippedField {
        nodes: 1 + inside.nodes,
        buffers: buffers + inside.buffers,
        views: own + inside.views,
        has_union,
        has_dictionary: inside.has_dictionary,
    }
}

// The fields of a vector, in total.
#[cycle(skipped_fields)]
fn skipped_fields_at(
    depth: u8,
    bytes: &[u8],
    items: VectorItems,
    left: usize,
) -> Result<(SkippedField, usize), IpcReadError>
    requires length { length bytes.now < 2 ^ 32 }
    requires within { items.first + items.count * 4 ≤ length bytes.now }
    ensures value { result ≡ spec_skipped_fields_at (spec_skipped_field_at depth bytes.now) bytes.now items.count items.first left }
    ensures within_budget { IfOk result (λ x. IsWithinBudget left x.0 x.1) }
{
    let mut sum = nothing_skipped();
    let mut rest = left;
    for i in 0..items.count {
        let position = offset_at(bytes, items.first + 4 * i)?;
        let (span, after) = skipped_field_at(depth, bytes, position, rest)?;
        sum = plus(sum, span);
        rest = after;
    }
    Ok((sum, rest))
}

// A skipped field whose children have this depth at most.
#[cycle(skipped_fields)]
fn skipped_over(
    depth: u8,
    bytes: &[u8],
    position: usize,
    left: usize,
) -> Result<(SkippedField, usize), IpcReadError>
    requires { length bytes.now < 2 ^ 32 }
    ensures value { result ≡ spec_skipped_over (spec_skipped_field_at depth bytes.now) bytes.now position left }
    ensures within_budget { IfOk result (λ x. IsWithinBudget left x.0 x.1) }
{
    let (table, left) = read_table_charged(bytes, position, left)?;
    let tag = u8_field(bytes, table, 2)?;
    let position = table_position(tag, offset_field(bytes, table, 3)?)?;
    let (children, left) = items_charged(bytes, offset_field(bytes, table, 5)?, left)?;
    let (buffers, left) = own_buffers(tag, bytes, position, left)?;
    let dictionary = offset_field(bytes, table, 4)?;
    let (inside, left) = skipped_fields_at(depth, bytes, children, left)?;
    let span = skipped_with(dictionary.is_some(), tag, buffers, inside);
    Ok((span, left))
}

/// Returns the nodes and buffers of the field at a position with its descendants, to a depth, and the budget left.
///
/// Source: Columnar format, Buffer Listing for Each Layout.
#[cycle(skipped_fields)]
pub fn skipped_field_at(
    depth: u8,
    bytes: &[u8],
    position: usize,
    left: usize,
) -> Result<(SkippedField, usize), IpcReadError>
    requires { length bytes.now < 2 ^ 32 }
    ensures value { result ≡ spec_skipped_field_at depth bytes.now position left }
    ensures within_budget { IfOk result (λ x. IsWithinBudget left x.0 x.1) }
{
    if depth == 0 {
        return Err(IpcReadError::Depth);
    }
    skipped_over(depth - 1, bytes, position, left)
}
