//! Readers of file footers.
ghost use Rattle.std.specs.Prelude.{◌≡◌, ◌<◌, ◌≤◌, ◌^◌, ◌+◌, ◌*◌, ◌-◌, ◌++◌, take, drop, length, nat_le, true, IfOk, Ok};
ghost use Rattle.std.specs.List.{list_all};
ghost use Rattle.ipc_flatbuf.specs.ReadResults.{ReturnsOrRunsOut};
ghost use Rattle.ipc_flatbuf.specs.Flatbuffers.{structs_at};
ghost use Rattle.ipc_schema.specs.Projections.{projection_of, columns_of, IsColumnSet};
ghost use Rattle.ipc_schema.specs.Footers.{spec_block_at, spec_check_footer_version, spec_schema_position, spec_blocks_in, spec_block_lists_at, footer_position, is_block_before};
ghost use Rattle.ipc_schema.specs.ProjectedFooters.{spec_projected_footer_at, spec_check_blocks, projected_footer_in, projected_footer_of};
ghost use Rattle.ipc_schema.specs.FooterParts.{footer_before, footer_length_by_ends, length_of_footer};

use crate::footer::blocks::blocks_before;
use crate::footer::types::{Block, ProjectedFooter};
use crate::{ColumnSet, Projection, projected_schema_at};
use ipc_flatbuf::{
    FlatbufferTable, IpcReadError, VectorItems, i16_field, i32_at, i64_at, items_at, non_negative,
    offset_at, offset_field, read_table,
};
use std::alloc::Global;

fn block_at(bytes: &[u8], position: usize) -> Result<Block, IpcReadError>
    requires { position < 2 ^ 63 }
    ensures { result ≡ spec_block_at bytes.now position }
{
    let offset = i64_at(bytes, position)?;
    let metadata_length = i32_at(bytes, position + 8)?;
    let body_length = i64_at(bytes, position + 16)?;
    Ok(Block {
        offset,
        metadata_length,
        body_length,
    })
}

fn blocks_of(alloc: Global, bytes: &[u8], items: VectorItems) -> Result<Vec<Block>, IpcReadError>
    requires length { length bytes.now < 2 ^ 32 }
    requires within { items.first + items.count * 24 ≤ length bytes.now }
    ensures { ReturnsOrRunsOut (λ v. v.items) result (structs_at (spec_block_at bytes.now) 24 items.count items.first) }
{
    let mut blocks = Vec::new(alloc);
    for i in 0..items.count {
        let block = block_at(bytes, items.first + 24 * i)?;
        blocks.push(block)?;
    }
    Ok(blocks)
}

// The blocks of the vector in a field.
#[tactic(auto, unfolding(crate::specs::Footers::spec_blocks_in, ipc_flatbuf::specs::Flatbuffers::vector_at))]
fn blocks_in(
    alloc: Global,
    bytes: &[u8],
    table: FlatbufferTable,
    id: u8,
    left: usize,
) -> Result<(Vec<Block>, usize), IpcReadError>
    requires length { length bytes.now < 2 ^ 32 }
    requires at { table.at < 2 ^ 32 }
    requires vtable { table.vtable < 2 ^ 32 }
    ensures { ReturnsOrRunsOut (λ x. (x.0.items, x.1)) result (spec_blocks_in bytes.now table id left) }
{
    let (items, left) = items_at(24, bytes, offset_field(bytes, table, id)?, left)?;
    let blocks = blocks_of(alloc, bytes, items)?;
    Ok((blocks, left))
}

// Checks the version of a footer; the version of each message decides what is read.
fn check_footer_version(number: i16) -> Result<(), IpcReadError>
    ensures { result ≡ spec_check_footer_version number }
{
    let version = non_negative(IpcReadError::Version, number as i64)?;
    if version <= 4 {
        Ok(())
    } else {
        Err(IpcReadError::Version)
    }
}

// The position of the schema, which is required.
fn schema_position(to: Option<usize>) -> Result<usize, IpcReadError>
    ensures { result ≡ spec_schema_position to }
{
    match to {
        None => Err(IpcReadError::MissingSchema),
        Some(position) => Ok(position),
    }
}

// The blocks of the dictionary batches and of the record batches.
#[tactic(auto, unfolding(crate::specs::Footers::spec_block_lists_at))]
fn block_lists_at(
    alloc: Global,
    bytes: &[u8],
    table: FlatbufferTable,
    left: usize,
) -> Result<(Vec<Block>, Vec<Block>), IpcReadError>
    requires length { length bytes.now < 2 ^ 32 }
    requires at { table.at < 2 ^ 32 }
    requires vtable { table.vtable < 2 ^ 32 }
    ensures { ReturnsOrRunsOut (λ x. (x.0.items, x.1.items)) result (spec_block_lists_at bytes.now table left) }
{
    let (dictionaries, left) = blocks_in(alloc, bytes, table, 2, left)?;
    let (batches, _) = blocks_in(alloc, bytes, table, 3, left)?;
    Ok((dictionaries, batches))
}

// The footer of its bytes, before its blocks are checked.
#[tactic(auto, unfolding(crate::specs::ProjectedFooters::spec_projected_footer_at))]
fn projected_footer_at(
    alloc: Global,
    column_set: &ColumnSet<'_>,
    bytes: &[u8],
) -> Result<ProjectedFooter, IpcReadError>
    requires made { IsColumnSet column_set.now }
    requires length { length bytes.now < 2 ^ 31 }
    ensures { ReturnsOrRunsOut projected_footer_of result (spec_projected_footer_at (columns_of column_set.now) bytes.now) }
{
    let position = offset_at(bytes, 0)?;
    let (table, left) = read_table(bytes, position, 64 * bytes.len())?;
    check_footer_version(i16_field(bytes, table, 0, 0)?)?;
    let position = schema_position(offset_field(bytes, table, 1)?)?;
    let (picked, left) = projected_schema_at(alloc, column_set, bytes, position, left)?;
    match block_lists_at(alloc, bytes, table, left) {
        Err(error) => Err(error),
        Ok((dictionaries, batches)) => Ok(ProjectedFooter {
            picked,
            dictionaries,
            batches,
        }),
    }
}

/// Returns the length of the footer of a file of `size` bytes, which begins with `head` and ends with `tail`.
///
/// `head` has the first 6 bytes or more, `tail` the last 10, unless the file has fewer than 18 bytes.
///
/// # Errors
/// [`IpcReadError::Truncated`] where the file has fewer than 18 bytes, [`IpcReadError::Magic`],
/// [`IpcReadError::FooterLength`].
pub fn footer_length(size: usize, head: &[u8], tail: &[u8]) -> Result<usize, IpcReadError>
    requires tail { 18 ≤ size → 10 ≤ length tail.now }
    ensures value { result ≡ footer_length_by_ends size head.now tail.now }
    ensures within { IfOk result (λ long. (18 + long ≤ size) × (long < 2 ^ 31)) }
{
    if size < 18 {
        return Err(IpcReadError::Truncated);
    }
    let magic = b"ARROW1";
    if !(head.starts_with(magic) && tail.ends_with(magic)) {
        return Err(IpcReadError::Magic);
    }
    let number = u32::from_le_bytes([tail[0], tail[1], tail[2], tail[3]]).cast_signed();
    let long = non_negative(IpcReadError::FooterLength, number as i64)?;
    if long < 1 || long > size - 18 {
        return Err(IpcReadError::FooterLength);
    }
    Ok(long)
}

// The length of the footer of a file.
fn length_in_file(bytes: &[u8]) -> Result<usize, IpcReadError>
    ensures value { result ≡ length_of_footer bytes.now }
    ensures within { IfOk result (λ long. (18 + long ≤ length bytes.now) × (long < 2 ^ 31)) }
{
    let size = bytes.len();
    let (_, tail) = bytes.split_at(size.saturating_sub(10));
    footer_length(size, bytes, tail)
}

// The bytes of the footer.
fn footer_part(bytes: &[u8], long: usize) -> &[u8]
    requires { 10 + long ≤ length bytes.now }
    ensures part { result.now ≡ take long (drop (footer_position long bytes.now) bytes.now) }
    ensures length { length result.now ≡ long }
{
    let (_, from) = bytes.split_at(bytes.len() - (10 + long));
    let (footer, _) = from.split_at(long);
    footer
}

// Checks that the blocks of a footer end before a position.
fn placed(end: usize, footer: ProjectedFooter) -> Result<ProjectedFooter, IpcReadError>
    ensures value { ReturnsOrRunsOut projected_footer_of result (spec_check_blocks end (projected_footer_of footer)) }
    ensures dictionaries { IfOk result (λ f. list_all (is_block_before end) f.dictionaries.items ≡ true) }
    ensures batches { IfOk result (λ f. list_all (is_block_before end) f.batches.items ≡ true) }
{
    if blocks_before(end, &footer.dictionaries, &footer.batches) {
        Ok(footer)
    } else {
        Err(IpcReadError::Block)
    }
}

/// Returns the footer of its bytes, with a projection, where the footer begins at a position of the file.
///
/// # Errors
/// [`IpcReadError::Block`] where a block does not end before that position, and those of [`read_footer`].
pub fn read_footer_at(
    alloc: Global,
    columns: Projection<'_>,
    bytes: &[u8],
    position: usize,
) -> Result<ProjectedFooter, IpcReadError>
    requires length { length bytes.now < 2 ^ 31 }
    ensures footer { ReturnsOrRunsOut projected_footer_of result (footer_before (projection_of columns.entry) bytes.now position) }
    ensures dictionaries { IfOk result (λ f. list_all (is_block_before position) f.dictionaries.items ≡ true) }
    ensures batches { IfOk result (λ f. list_all (is_block_before position) f.batches.items ≡ true) }
{
    let column_set = ColumnSet::new(alloc, columns)?;
    let footer = projected_footer_at(alloc, &column_set, bytes)?;
    placed(position, footer)
}

/// Returns the footer of a file with a projection of its schema.
///
/// # Errors
/// Those of [`footer_length`], of flatbuffers and of schemas, and [`IpcReadError::Block`] where a block does not end
/// before the footer.
///
/// Source: Columnar format, IPC File Format; File.fbs, table `Footer`.
#[tactic(auto, unfolding(crate::specs::ProjectedFooters::projected_footer_in))]
pub fn read_footer(
    alloc: Global,
    columns: Projection<'_>,
    bytes: &[u8],
) -> Result<ProjectedFooter, IpcReadError>
    ensures footer { ReturnsOrRunsOut projected_footer_of result (projected_footer_in (projection_of columns.entry) bytes.now) }
    ensures dictionaries { IfOk result (λ f. list_all (is_block_before (length bytes.now)) f.dictionaries.items ≡ true) }
    ensures batches { IfOk result (λ f. list_all (is_block_before (length bytes.now)) f.batches.items ≡ true) }
{
    let long = length_in_file(bytes)?;
    let position = bytes.len() - (10 + long);
    read_footer_at(alloc, columns, footer_part(bytes, long), position)
}
