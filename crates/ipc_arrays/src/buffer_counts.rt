//! Skips the buffers that arrays of a data type have in a record batch. Source: Columnar format, "Buffer Listing for Each Layout".
ghost use Rattle.std.specs.Prelude.{◌≡◌};
ghost use Rattle.ipc_flatbuf.specs.ReadResults.{Returns};
ghost use Rattle.nest_memory.specs.Physical.{physical_type};
ghost use Rattle.nest_memory.specs.TypeOf.{type_of, field_of, field_list_of};
ghost use Rattle.ipc_arrays.specs.BufferCounts.{spec_flat_buffer_count, spec_union_buffer_count, array_skipped, child_skipped, children_skipped};

use crate::projected::skip_buffers;
use crate::reading::is_flat;
use ipc_flatbuf::{BufferSpec, IpcReadError};
use nest_memory::datatypes::physical_type::PhysicalType;
use nest_memory::datatypes::{DataType, Field, UnionMode};

fn flat_buffer_count(data_type: &DataType) -> usize
    ensures { result ≡ spec_flat_buffer_count (physical_type (type_of data_type.now)) }
{
    match data_type.to_physical_type() {
        PhysicalType::Null => 0,
        PhysicalType::Binary
        | PhysicalType::LargeBinary
        | PhysicalType::Utf8
        | PhysicalType::LargeUtf8 => 3,
        _ => 2,
    }
}

fn union_buffer_count(mode: UnionMode) -> usize
    ensures { result ≡ spec_union_buffer_count mode }
{
    match mode {
        UnionMode::Sparse => 1,
        UnionMode::Dense => 2,
    }
}

/// Skips the buffers of an array of this data type, those of its children included.
#[cycle(skip)]
pub(crate) fn skip_array<'a>(
    data_type: &DataType,
    buffers: &'a [BufferSpec],
) -> Result<&'a [BufferSpec], IpcReadError>
    ensures { Returns (λ s. s.now) result (array_skipped (type_of data_type.now) buffers.now) }
{
    if is_flat(data_type) {
        return skip_buffers(flat_buffer_count(data_type), buffers);
    }
    match data_type {
        DataType::Extension(_, inner, _) => skip_array(inner, buffers),
        DataType::List(field) => skip_child(2, field, buffers),
        DataType::LargeList(field) => skip_child(2, field, buffers),
        DataType::Map(field, _) => skip_child(2, field, buffers),
        DataType::FixedSizeList(field, _) => skip_child(1, field, buffers),
        DataType::Struct(fields) => skip_children(1, fields, buffers),
        DataType::Union(fields, _, mode) => skip_children(
            union_buffer_count(*mode),
            fields,
            buffers,
        ),
        _ => unreachable!(),
    }
}

// Skips `own` buffers, then those of an array of the type of a field.
#[cycle(skip)]
fn skip_child<'a>(
    own: usize,
    field: &Field,
    buffers: &'a [BufferSpec],
) -> Result<&'a [BufferSpec], IpcReadError>
    ensures { Returns (λ s. s.now) result (child_skipped own (field_of field.now) buffers.now) }
{
    let rest = skip_buffers(own, buffers)?;
    skip_array(field.data_type(), rest)
}

// Skips `own` buffers, then those of an array for each field.
#[cycle(skip)]
fn skip_children<'a>(
    own: usize,
    fields: &Vec<Field>,
    buffers: &'a [BufferSpec],
) -> Result<&'a [BufferSpec], IpcReadError>
    ensures { Returns (λ s. s.now) result (children_skipped own (field_list_of fields.now.items) buffers.now) }
{
    let mut rest = skip_buffers(own, buffers)?;
    for field in fields {
        match skip_child(0, field, rest) {
            Err(error) => return Err(error),
            Ok(tail) => rest = tail,
        }
    }
    Ok(rest)
}
