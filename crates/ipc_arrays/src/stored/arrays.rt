//! Conversion of one array of a record batch.
ghost use Rattle.std.specs.Prelude.{◌≡◌, ◌-◌, ◌++◌, [], None, take, length, replicate, map, OnOk};
ghost use Rattle.ipc_flatbuf.specs.ReadResults.{ReturnsOrRunsOut, Returns};
ghost use Rattle.ipc_arrays.specs.Projection.{projection_state};
ghost use Rattle.ipc_arrays.specs.Stored as stored;
ghost use Rattle.ipc_arrays.specs.Stored.{view_contents, string_contents, stored_views, stored_decimals, taken_buffers, taken_node, first_variadic_count, taken_view_buffers, plain_array, view_array, decimal_array, skipped_arrays, converted_array, with_contents, with_stored, with_array, with_arrays, laid_of, converted_of};

use crate::cursor::{BatchCursor, NodeCounts, split_first_node};
use crate::projected::{ProjectionCursor, skip_column, skip_nodes};
use crate::stored::contents::{
    PlainBuffers, append_each, decompress_each, push_content, slices_of,
};
use crate::stored::decimals::{SmallDecimal, append_decimals};
use crate::stored::packed_views::{PackedViews, pack_views};
use crate::validity::read_validity;
use ipc_flatbuf::{
    BufferSpec, CompressionCodec, FieldNode, IpcReadError, SkippedField, StoredArray, non_negative,
};
use std::alloc::{AllocError, Global};

/// The arrays that have been converted: their buffers, and the variadic counts that are kept.
#[derive(Drop)]
pub(crate) struct Conversion {
    pub plain: PlainBuffers,
    pub more: Vec<i64>,
}

// ---- the buffers of one array

// Appends the validity buffer, the offsets and the data of strings.
#[tactic(auto, unfolding(crate::specs::Stored::string_contents))]
fn push_strings(
    plain: &mut PlainBuffers,
    bits: &[u8],
    packed: &PackedViews,
) -> Result<(), AllocError>
    ensures { OnOk result (laid_of plain.new ≡ with_contents (laid_of plain.old) (string_contents bits.now (packed.now.offsets.items, packed.now.values.items))) }
{
    push_content(plain, bits)?;
    push_content(plain, &packed.offsets)?;
    push_content(plain, &packed.values)?;
    Ok(())
}

// Appends the buffers of a view array as those of strings with 64-bit offsets.
#[tactic(auto, unfolding(crate::specs::Stored::view_contents))]
fn append_views<'a>(
    alloc: Global,
    counts: NodeCounts,
    buffers: &[&'a [u8]],
    plain: &mut PlainBuffers,
) -> Result<(), IpcReadError>
    ensures { ReturnsOrRunsOut (λ _. laid_of plain.new) result (with_stored (laid_of plain.old) (view_contents counts (map (λ b. b.now) buffers.now))) }
{
    match buffers {
        [bits, views, variadic @ ..] => {
            let validity = read_validity(alloc, counts, bits)?;
            let packed = pack_views(alloc, &validity, counts.slots, views, variadic)?;
            push_strings(plain, bits, &packed)?;
            Ok(())
        }
        _ => Err(IpcReadError::BufferCount),
    }
}

#[tactic(auto, unfolding(crate::specs::Stored::stored_views))]
fn append_views_of(
    alloc: Global,
    counts: NodeCounts,
    body: &[u8],
    buffers: &[BufferSpec],
    plain: &mut PlainBuffers,
) -> Result<(), IpcReadError>
    ensures { ReturnsOrRunsOut (λ _. laid_of plain.new) result (with_stored (laid_of plain.old) (stored_views None body.now counts buffers.now)) }
{
    let slices = slices_of(alloc, body, buffers)?;
    append_views(alloc, counts, &slices, plain)
}

#[tactic(auto, unfolding(crate::specs::Stored::stored_decimals))]
fn append_decimals_of<T: SmallDecimal>(
    alloc: Global,
    counts: NodeCounts,
    body: &[u8],
    buffers: &[BufferSpec],
    plain: &mut PlainBuffers,
) -> Result<(), IpcReadError>
    ensures { ReturnsOrRunsOut (λ _. laid_of plain.new) result (with_stored (laid_of plain.old) (stored_decimals T.format None body.now counts buffers.now)) }
{
    let slices = slices_of(alloc, body, buffers)?;
    append_decimals::<T>(counts, &slices, plain)
}

#[tactic(auto, unfolding(crate::specs::Stored::stored_views))]
fn convert_views(
    alloc: Global,
    codec: Option<CompressionCodec>,
    counts: NodeCounts,
    body: &[u8],
    buffers: &[BufferSpec],
    plain: &mut PlainBuffers,
) -> Result<(), IpcReadError>
    ensures { ReturnsOrRunsOut (λ _. laid_of plain.new) result (with_stored (laid_of plain.old) (stored_views codec body.now counts buffers.now)) }
{
    if codec.is_none() {
        return append_views_of(alloc, counts, body, buffers, plain);
    }
    let contents = decompress_each(alloc, codec, body, buffers)?;
    append_views_of(alloc, counts, &contents.bytes, &contents.specs, plain)?;
    Ok(())
}

#[tactic(auto, unfolding(crate::specs::Stored::stored_decimals))]
fn convert_decimals<T: SmallDecimal>(
    alloc: Global,
    codec: Option<CompressionCodec>,
    counts: NodeCounts,
    body: &[u8],
    buffers: &[BufferSpec],
    plain: &mut PlainBuffers,
) -> Result<(), IpcReadError>
    ensures { ReturnsOrRunsOut (λ _. laid_of plain.new) result (with_stored (laid_of plain.old) (stored_decimals T.format codec body.now counts buffers.now)) }
{
    if codec.is_none() {
        return append_decimals_of::<T>(alloc, counts, body, buffers, plain);
    }
    let contents = decompress_each(alloc, codec, body, buffers)?;
    append_decimals_of::<T>(alloc, counts, &contents.bytes, &contents.specs, plain)?;
    Ok(())
}

// ---- the nodes, buffers and variadic counts of one array

fn with_nodes<'a>(ahead: ProjectionCursor<'a>, nodes: &'a [FieldNode]) -> ProjectionCursor<'a>
    ensures { projection_state result ≡ stored.with_nodes (projection_state ahead.entry) nodes.now }
{
    let buffers = ahead.left.buffers;
    let dictionaries = ahead.left.dictionaries;
    let left = BatchCursor {
        nodes,
        buffers,
        dictionaries,
    };
    let more = ahead.more;
    ProjectionCursor { left, more }
}

fn with_rest<'a>(
    ahead: ProjectionCursor<'a>,
    buffers: &'a [BufferSpec],
    more: &'a [i64],
) -> ProjectionCursor<'a>
    ensures { projection_state result ≡ stored.with_rest (projection_state ahead.entry) buffers.now more.now }
{
    let nodes = ahead.left.nodes;
    let dictionaries = ahead.left.dictionaries;
    let left = BatchCursor {
        nodes,
        buffers,
        dictionaries,
    };
    ProjectionCursor { left, more }
}

// Returns the next buffers, and what remains.
#[tactic(auto, unfolding(crate::specs::Stored::taken_buffers, crate::specs::Projection::skip_first))]
fn take_buffers<'a>(
    count: usize,
    ahead: ProjectionCursor<'a>,
) -> Result<(&'a [BufferSpec], ProjectionCursor<'a>), IpcReadError>
    ensures { Returns (λ x. (x.0.now, projection_state x.1)) result (taken_buffers count (projection_state ahead.entry)) }
{
    let buffers = ahead.left.buffers;
    if count > buffers.len() {
        return Err(IpcReadError::BufferCount);
    }
    let (own, rest) = buffers.split_at(count);
    Ok((own, with_rest(ahead, rest, ahead.more)))
}

// Returns the counts of the next field node, and what remains.
#[tactic(auto, unfolding(crate::specs::Stored::taken_node))]
fn take_node(
    ahead: ProjectionCursor<'_>,
) -> Result<(NodeCounts, ProjectionCursor<'_>), IpcReadError>
    ensures { Returns (λ x. (x.0, projection_state x.1)) result (taken_node (projection_state ahead.entry)) }
{
    let (counts, nodes) = split_first_node(ahead.left.nodes)?;
    Ok((counts, with_nodes(ahead, nodes)))
}

#[tactic(auto, unfolding(crate::specs::Stored::first_variadic_count))]
fn split_first_count(more: &[i64]) -> Result<(usize, &[i64]), IpcReadError>
    ensures { Returns (λ x. (x.0, x.1.now)) result (first_variadic_count more.now) }
{
    match more {
        [] => Err(IpcReadError::BufferCount),
        [count, others @ ..] => {
            let count = non_negative(IpcReadError::BufferCount, *count)?;
            Ok((count, others))
        }
    }
}

// Returns the buffers of a view array, and what remains.
#[tactic(auto, unfolding(crate::specs::Stored::taken_view_buffers))]
fn take_view_buffers(
    ahead: ProjectionCursor<'_>,
) -> Result<(&[BufferSpec], ProjectionCursor<'_>), IpcReadError>
    ensures { Returns (λ x. (x.0.now, projection_state x.1)) result (taken_view_buffers (projection_state ahead.entry)) }
{
    let (count, others) = split_first_count(ahead.more)?;
    if count > ahead.left.buffers.len() {
        return Err(IpcReadError::BufferCount);
    }
    let rest = with_rest(ahead, ahead.left.buffers, others);
    take_buffers(count + 2, rest)
}

// ---- one array

#[tactic(auto, unfolding(crate::specs::Stored::plain_array))]
fn convert_plain<'a>(
    alloc: Global,
    codec: Option<CompressionCodec>,
    body: &[u8],
    count: usize,
    ahead: ProjectionCursor<'a>,
    plain: &mut PlainBuffers,
) -> Result<ProjectionCursor<'a>, IpcReadError>
    ensures { ReturnsOrRunsOut (λ x. (laid_of plain.new, projection_state x)) result (with_array (laid_of plain.old) (plain_array codec body.now count (projection_state ahead.entry))) }
{
    let nodes = skip_nodes(1, ahead.left.nodes)?;
    let (own, rest) = take_buffers(count, with_nodes(ahead, nodes))?;
    append_each(alloc, codec, body, own, plain)?;
    Ok(rest)
}

#[tactic(auto, unfolding(crate::specs::Stored::view_array))]
fn convert_view_array<'a>(
    alloc: Global,
    codec: Option<CompressionCodec>,
    body: &[u8],
    ahead: ProjectionCursor<'a>,
    plain: &mut PlainBuffers,
) -> Result<ProjectionCursor<'a>, IpcReadError>
    ensures { ReturnsOrRunsOut (λ x. (laid_of plain.new, projection_state x)) result (with_array (laid_of plain.old) (view_array codec body.now (projection_state ahead.entry))) }
{
    let (counts, rest) = take_node(ahead)?;
    let (own, rest) = take_view_buffers(rest)?;
    convert_views(alloc, codec, counts, body, own, plain)?;
    Ok(rest)
}

#[tactic(auto, unfolding(crate::specs::Stored::decimal_array))]
fn convert_decimal_array<'a, T: SmallDecimal>(
    alloc: Global,
    codec: Option<CompressionCodec>,
    body: &[u8],
    ahead: ProjectionCursor<'a>,
    plain: &mut PlainBuffers,
) -> Result<ProjectionCursor<'a>, IpcReadError>
    ensures { ReturnsOrRunsOut (λ x. (laid_of plain.new, projection_state x)) result (with_array (laid_of plain.old) (decimal_array T.format codec body.now (projection_state ahead.entry))) }
{
    let (counts, rest) = take_node(ahead)?;
    let (own, rest) = take_buffers(2, rest)?;
    convert_decimals::<T>(alloc, codec, counts, body, own, plain)?;
    Ok(rest)
}

fn push_empty(plain: &mut PlainBuffers, count: usize) -> Result<(), AllocError>
    ensures { OnOk result (laid_of plain.new ≡ with_contents (laid_of plain.old) (replicate count [])) }
{
    for _i in 0..count {
        push_content(plain, &[])?;
    }
    Ok(())
}

// Appends the numbers before `rest`.
fn keep_counts(kept: &mut Vec<i64>, more: &[i64], rest: &[i64]) -> Result<(), AllocError>
    ensures { OnOk result (kept.new.items ≡ kept.old.items ++ take (length more.now - length rest.now) more.now) }
{
    let count = more.len().saturating_sub(rest.len());
    let (skipped, _) = more.split_at(count);
    kept.extend_from_slice(skipped)
}

#[tactic(auto, unfolding(crate::specs::Stored::skipped_arrays))]
fn convert_skipped<'a>(
    span: SkippedField,
    ahead: ProjectionCursor<'a>,
    conversion: &mut Conversion,
) -> Result<ProjectionCursor<'a>, IpcReadError>
    ensures { ReturnsOrRunsOut (λ x. (converted_of conversion.new, projection_state x)) result (with_arrays (converted_of conversion.old) (skipped_arrays span (projection_state ahead.entry))) }
{
    let rest = skip_column(span, ahead)?;
    let count = ahead
        .left
        .buffers
        .len()
        .saturating_sub(rest.left.buffers.len());
    push_empty(&mut conversion.plain, count)?;
    keep_counts(&mut conversion.more, ahead.more, rest.more)?;
    Ok(rest)
}

/// Converts the next array of a record batch, or skips the arrays of a column. Returns what remains.
#[tactic(auto, using(crate::proofs::Converting::counts_ok, crate::proofs::Converting::counts_err))]
pub(crate) fn convert_array<'a>(
    alloc: Global,
    codec: Option<CompressionCodec>,
    body: &[u8],
    array: StoredArray,
    ahead: ProjectionCursor<'a>,
    out: &mut Conversion,
) -> Result<ProjectionCursor<'a>, IpcReadError>
    ensures { ReturnsOrRunsOut (λ x. (converted_of out.new, projection_state x)) result (with_arrays (converted_of out.old) (converted_array codec body.now array (projection_state ahead.entry))) }
{
    match array {
        StoredArray::Plain(count) => {
            let plain = &mut out.plain;
            Ok(convert_plain(alloc, codec, body, count, ahead, plain)?)
        }
        StoredArray::View => {
            let plain = &mut out.plain;
            Ok(convert_view_array(alloc, codec, body, ahead, plain)?)
        }
        StoredArray::Decimal32 => {
            let plain = &mut out.plain;
            Ok(convert_decimal_array::<i32>(alloc, codec, body, ahead, plain)?)
        }
        StoredArray::Decimal64 => {
            let plain = &mut out.plain;
            Ok(convert_decimal_array::<i64>(alloc, codec, body, ahead, plain)?)
        }
        StoredArray::Skipped(span) => convert_skipped(span, ahead, out),
    }
}
