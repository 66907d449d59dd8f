//! Writers of dictionary encodings.
ghost use Rattle.std.specs.Prelude.{◌≡◌, ◌≤◌, ◌++◌, length, IfOk, OnOk, IfErr};
ghost use Rattle.nest_memory.specs.Physical.{integer_tree};
ghost use Rattle.nest_memory.specs.TypeOf.{type_of};
ghost use Rattle.ipc_flatbuf.specs.WriteErrors.{IsSizeError};
ghost use Rattle.ipc_schema.specs.Extensions.{spec_storage_type};
ghost use Rattle.ipc_schema.specs.WriteChecks.{spec_is_plain_value_type, spec_can_encode};
ghost use Rattle.ipc_schema.specs.DictionaryIds.{spec_encoding_of, next_after_own};
ghost use Rattle.ipc_schema.specs.SchemaBytes.{type_bytes, encoding_head, encoding_part, encoding_bytes, spec_table_len, spec_dictionary_slot};

use crate::dictionaries::Encoding;
use crate::type_writing::{storage_type, write_two_fields};
use ipc_flatbuf::{IpcWriteError, write_i64};
use nest_memory::datatypes::floats::is_float;
use nest_memory::datatypes::{DataType, IntegerType};
use std::alloc::AllocError;

fn is_plain_value_type(values: &DataType) -> bool
    ensures { result ≡ spec_is_plain_value_type (type_of values.now) }
{
    match values {
        DataType::Dictionary(_, _, _) => false,
        DataType::Extension(_, _, _) => is_float(values),
        _ => true,
    }
}

/// Returns whether a type can be dictionary-encoded: its value type is not itself a dictionary or an extension type.
pub fn can_encode(data_type: &DataType) -> bool
    ensures { result ≡ spec_can_encode (type_of data_type.now) }
{
    match data_type {
        DataType::Dictionary(_, values, _) => is_plain_value_type(values),
        _ => true,
    }
}

/// Returns the dictionary encoding of a field with the next id, and the next id after it.
///
/// # Errors
/// [`IpcWriteError::Size`] where the id is 2^31 or more.
pub fn encoding_of(
    next: usize,
    data_type: &DataType,
) -> Result<(Option<Encoding>, usize), IpcWriteError>
    ensures ok { IfOk result (λ x. (x.0 ≡ spec_encoding_of next (type_of data_type.now)) × (x.1 ≡ next_after_own (type_of data_type.now) next)) }
    ensures size { IfErr result (λ why. IsSizeError why next) }
{
    match storage_type(data_type) {
        DataType::Dictionary(key, _, is_ordered) => {
            if next >= 1 << 31 {
                return Err(IpcWriteError::Size);
            }
            let encoding = Encoding {
                id: next as i64,
                key: *key,
                is_ordered: *is_ordered,
            };
            Ok((Some(encoding), next + 1))
        }
        _ => Ok((None, next)),
    }
}

/// Returns the size of the table of a field in bytes.
pub fn table_len(dictionary: &Option<Encoding>) -> u8
    ensures { result ≡ spec_table_len dictionary.now }
{
    match dictionary {
        None => 24,
        Some(_) => 28,
    }
}

/// Returns the offset of the field `dictionary` in that table, 0 where it is absent.
pub fn dictionary_slot(dictionary: &Option<Encoding>) -> u8
    ensures { result ≡ spec_dictionary_slot dictionary.now }
{
    match dictionary {
        None => 0,
        Some(_) => 24,
    }
}

/// Returns the number of bytes of a dictionary encoding.
pub fn dictionary_len(dictionary: &Option<Encoding>) -> usize
    ensures len { result ≡ length (encoding_bytes dictionary.now) }
    ensures few { result ≤ 64 }
{
    match dictionary {
        None => 0,
        Some(_) => 64,
    }
}

// The type of the keys.
#[tactic(auto, unfolding(crate::specs::SchemaBytes::type_bytes))]
fn write_key(out: &mut Vec<u8>, key: IntegerType) -> Result<(), AllocError>
    ensures { OnOk result (out.new.items ≡ out.old.items ++ type_bytes (integer_tree key)) }
{
    match key {
        IntegerType::Int8 => write_two_fields(out, 8, 1),
        IntegerType::Int16 => write_two_fields(out, 16, 1),
        IntegerType::Int32 => write_two_fields(out, 32, 1),
        IntegerType::Int64 => write_two_fields(out, 64, 1),
        IntegerType::UInt8 => write_two_fields(out, 8, 0),
        IntegerType::UInt16 => write_two_fields(out, 16, 0),
        IntegerType::UInt32 => write_two_fields(out, 32, 0),
        IntegerType::UInt64 => write_two_fields(out, 64, 0),
    }
}

#[tactic(auto, unfolding(crate::specs::SchemaBytes::encoding_head))]
fn write_encoding_head(out: &mut Vec<u8>, id: i64, is_ordered: bool) -> Result<(), AllocError>
    ensures { OnOk result (out.new.items ≡ out.old.items ++ encoding_head id is_ordered) }
{
    out.extend_from_slice(&[
        16, 0, 0, 0, 10, 0, 20, 0, 8, 0, 4, 0, 16, 0, 0, 0, 12, 0, 0, 0, 32, 0, 0, 0,
    ])?;
    write_i64(out, id)?;
    out.extend_from_slice(&[is_ordered as u8, 0, 0, 0, 0, 0, 0, 0])
}

#[tactic(auto, unfolding(crate::specs::SchemaBytes::encoding_part))]
fn write_encoding(out: &mut Vec<u8>, encoding: Encoding) -> Result<(), AllocError>
    ensures { OnOk result (out.new.items ≡ out.old.items ++ encoding_part encoding) }
{
    write_encoding_head(out, encoding.id, encoding.is_ordered)?;
    write_key(out, encoding.key)
}

/// Appends a dictionary encoding with the type of its keys, or nothing.
pub fn write_dictionary(out: &mut Vec<u8>, dictionary: &Option<Encoding>) -> Result<(), AllocError>
    ensures { OnOk result (out.new.items ≡ out.old.items ++ encoding_bytes dictionary.now) }
{
    match dictionary {
        None => Ok(()),
        Some(encoding) => write_encoding(out, *encoding),
    }
}
