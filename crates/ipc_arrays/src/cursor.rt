//! A cursor over the field nodes and buffers of a record batch.
ghost use Rattle.std.specs.Prelude.{◌≡◌, map};
ghost use Rattle.ipc_flatbuf.specs.ReadResults.{Returns};
ghost use Rattle.nest_array.specs.Seen.{layout_of};
ghost use Rattle.ipc_arrays.specs.Decoding.{rest_of, checked_counts, buffer_slice, first_counts, first_buffer, first_values, checked_length, decoded_node, decoded_buffer, decoded_dictionary_values};
ghost use Rattle.ipc_arrays.specs.DictionaryKeys.{dictionary_of};

use ipc_flatbuf::{BufferSpec, FieldNode, IpcReadError};
use nest_array::any::AnyArray;

/// A cursor over the field nodes, buffers and dictionaries of a record batch that have not been read yet.
#[derive(Clone, Copy)]
pub struct BatchCursor<'a> {
    pub nodes: &'a [FieldNode],
    pub buffers: &'a [BufferSpec],
    /// The values of each dictionary-encoded array that has not been read yet; `None` if they are missing.
    pub dictionaries: &'a [Option<&'a AnyArray>],
}

/// The length that an array must have.
#[derive(Clone, Copy, Debug, PartialEq, Eq)]
pub enum ExpectedLength {
    /// The number of rows of the batch. Any other length is `IpcReadError::RowCount`.
    Rows(usize),
    /// The length that the parent requires. Any other length is `IpcReadError::ChildLength`.
    Exactly(u128),
    /// The least length that the parent requires. Any lower length is `IpcReadError::ChildLength`.
    AtLeast(usize),
    /// Any length.
    Any,
}

/// The length and the null count of an array, as its field node states them (Message.fbs, struct FieldNode).
#[derive(Clone, Copy, Debug, PartialEq, Eq)]
pub struct NodeCounts {
    pub slots: usize,
    pub nulls: usize,
}

fn node_counts(node: FieldNode) -> Result<NodeCounts, IpcReadError>
    ensures { result ≡ checked_counts node.length node.null_count }
{
    if node.length < 0 || node.null_count < 0 || node.null_count > node.length {
        return Err(IpcReadError::NodeRange);
    }
    Ok(NodeCounts {
        slots: node.length as usize,
        nulls: node.null_count as usize,
    })
}

// Returns the counts of the first field node, and the remaining nodes.
#[tactic(auto, unfolding(crate::specs::Decoding::first_counts))]
pub(crate) fn split_first_node(
    nodes: &[FieldNode],
) -> Result<(NodeCounts, &[FieldNode]), IpcReadError>
    ensures { Returns (λ x. (x.0, x.1.now)) result (first_counts nodes.now) }
{
    match nodes {
        [] => Err(IpcReadError::NodeCount),
        [node, rest @ ..] => Ok((node_counts(*node)?, rest)),
    }
}

#[tactic(auto, unfolding(crate::specs::Decoding::buffer_slice))]
pub(crate) fn buffer_bytes(body: &[u8], region: BufferSpec) -> Result<&[u8], IpcReadError>
    ensures { Returns (λ x. x.now) result (buffer_slice body.now region.offset region.length) }
{
    if region.offset < 0 || region.length < 0 {
        return Err(IpcReadError::BufferRange);
    }
    let offset = region.offset as usize;
    let size = region.length as usize;
    if offset > body.len() || size > body.len() - offset {
        return Err(IpcReadError::BufferRange);
    }
    let (_, from) = body.split_at(offset);
    let (bytes, _) = from.split_at(size);
    Ok(bytes)
}

// Returns the bytes of the first buffer, and the remaining buffers.
#[tactic(auto, unfolding(crate::specs::Decoding::first_buffer))]
fn split_first_buffer<'a>(
    body: &'a [u8],
    buffers: &'a [BufferSpec],
) -> Result<(&'a [u8], &'a [BufferSpec]), IpcReadError>
    ensures { Returns (λ x. (x.0.now, x.1.now)) result (first_buffer body.now buffers.now) }
{
    match buffers {
        [] => Err(IpcReadError::BufferCount),
        [region, rest @ ..] => Ok((buffer_bytes(body, *region)?, rest)),
    }
}

fn check_length(expected: ExpectedLength, slots: usize) -> Result<(), IpcReadError>
    ensures { result ≡ checked_length expected slots }
{
    match expected {
        ExpectedLength::Rows(rows) if slots != rows => Err(IpcReadError::RowCount),
        ExpectedLength::Exactly(count) if slots as u128 != count => Err(IpcReadError::ChildLength),
        ExpectedLength::AtLeast(count) if slots < count => Err(IpcReadError::ChildLength),
        _ => Ok(()),
    }
}

/// Reads the next field node, whose length must be as expected.
///
/// # Errors
///
/// `IpcReadError::NodeCount` if there is none, `IpcReadError::NodeRange` if a count is negative or there are more nulls than slots, and
/// the error of [`ExpectedLength`].
#[tactic(auto, unfolding(crate::specs::Decoding::decoded_node))]
pub(crate) fn next_node<'a>(
    expected: ExpectedLength,
    cursor: BatchCursor<'a>,
) -> Result<(NodeCounts, BatchCursor<'a>), IpcReadError>
    ensures { Returns (λ x. (x.0, rest_of x.1)) result (decoded_node expected (rest_of cursor.entry)) }
{
    let (counts, nodes) = split_first_node(cursor.nodes)?;
    check_length(expected, counts.slots)?;
    let buffers = cursor.buffers;
    let dictionaries = cursor.dictionaries;
    Ok((
        counts,
        BatchCursor {
            nodes,
            buffers,
            dictionaries,
        },
    ))
}

/// Returns the bytes of the next buffer.
///
/// # Errors
///
/// `IpcReadError::BufferCount` if there is none, and `IpcReadError::BufferRange` if it is not within the body.
#[tactic(auto, unfolding(crate::specs::Decoding::decoded_buffer))]
pub(crate) fn next_buffer<'a>(
    body: &'a [u8],
    cursor: BatchCursor<'a>,
) -> Result<(&'a [u8], BatchCursor<'a>), IpcReadError>
    ensures { Returns (λ x. (x.0.now, rest_of x.1)) result (decoded_buffer body.now (rest_of cursor.entry)) }
{
    let (bytes, buffers) = split_first_buffer(body, cursor.buffers)?;
    let nodes = cursor.nodes;
    let dictionaries = cursor.dictionaries;
    Ok((
        bytes,
        BatchCursor {
            nodes,
            buffers,
            dictionaries,
        },
    ))
}

// Returns the first dictionary values, and the remaining ones.
#[tactic(auto, unfolding(crate::specs::Decoding::first_values))]
fn split_first_values<'a>(
    dictionaries: &'a [Option<&'a AnyArray>],
) -> Result<(&'a AnyArray, &'a [Option<&'a AnyArray>]), IpcReadError>
    ensures { Returns (λ x. (layout_of x.0.now, map dictionary_of x.1.now)) result (first_values (map dictionary_of dictionaries.now)) }
{
    match dictionaries {
        [] => Err(IpcReadError::MissingDictionary),
        [first, rest @ ..] => match *first {
            None => Err(IpcReadError::MissingDictionary),
            Some(values) => Ok((values, rest)),
        },
    }
}

/// Returns the values of the next dictionary-encoded array.
///
/// # Errors
///
/// `IpcReadError::MissingDictionary` if they are missing.
#[tactic(auto, unfolding(crate::specs::Decoding::decoded_dictionary_values))]
pub(crate) fn next_dictionary_values<'a>(
    cursor: BatchCursor<'a>,
) -> Result<(&'a AnyArray, BatchCursor<'a>), IpcReadError>
    ensures { Returns (λ x. (layout_of x.0.now, rest_of x.1)) result (decoded_dictionary_values (rest_of cursor.entry)) }
{
    let (values, dictionaries) = split_first_values(cursor.dictionaries)?;
    let nodes = cursor.nodes;
    let buffers = cursor.buffers;
    Ok((
        values,
        BatchCursor {
            nodes,
            buffers,
            dictionaries,
        },
    ))
}
