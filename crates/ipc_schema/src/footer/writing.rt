//! Writer of file footers.
ghost use Rattle.std.specs.Prelude.{◌≡◌, ◌<◌, ◌≤◌, ◌^◌, ◌+◌, ◌*◌, ◌++◌, List, ℕ, length, OnOk, IfErr, Ok};
ghost use Rattle.std.specs.List.{flat_map, AllByRecursion};
ghost use Rattle.ipc_flatbuf.specs.PartBytes.{vector_bytes};
ghost use Rattle.ipc_schema.specs.Schemas.{schema_of};
ghost use Rattle.ipc_schema.specs.WriteChecks.{check_fields, IsSchemaWriteError};
ghost use Rattle.ipc_schema.specs.Footers.{footer_with};
ghost use Rattle.ipc_schema.specs.FooterBytes.{block_struct_bytes, footer_head, footer_part_bytes, footer_bytes, file_end};
ghost use Rattle.ipc_schema.specs.FooterLaws.{BlockFits, FooterRoundTrips};

use crate::footer::types::Block;
use crate::{Schema, schema_with_dictionaries_table};
use ipc_flatbuf::{IpcWriteError, write_i32, write_i64, write_u32};
use std::alloc::{AllocError, Global};

#[tactic(auto, unfolding(crate::specs::FooterBytes::block_struct_bytes))]
fn write_block(out: &mut Vec<u8>, block: Block) -> Result<(), AllocError>
    ensures ok { OnOk result (out.new.items ≡ out.old.items ++ block_struct_bytes block) }
    ensures fits { BlockFits block }
{
    write_i64(out, block.offset)?;
    write_i32(out, block.metadata_length)?;
    out.extend_from_slice(&[0, 0, 0, 0])?;
    write_i64(out, block.body_length)?;
    Ok(())
}

fn write_each(out: &mut Vec<u8>, blocks: &[Block]) -> Result<(), AllocError>
    ensures ok { OnOk result (out.new.items ≡ out.old.items ++ flat_map block_struct_bytes blocks.now) }
    ensures fits { OnOk result (AllByRecursion BlockFits blocks.now) }
{
    for block in blocks {
        write_block(out, *block)?;
    }
    Ok(())
}

// A vector of blocks.
#[tactic(auto, unfolding(ipc_flatbuf::specs::PartBytes::vector_bytes))]
fn write_blocks(out: &mut Vec<u8>, blocks: &[Block]) -> Result<(), AllocError>
    requires { length blocks.now < 2 ^ 32 }
    ensures ok { OnOk result (out.new.items ≡ out.old.items ++ vector_bytes block_struct_bytes blocks.now) }
    ensures fits { OnOk result (AllByRecursion BlockFits blocks.now) }
{
    write_u32(out, blocks.len() as u32)?;
    write_each(out, blocks)
}

#[tactic(auto, unfolding(crate::specs::FooterBytes::footer_head))]
fn write_head(out: &mut Vec<u8>, dictionaries: usize, batches: usize) -> Result<(), AllocError>
    requires { 44 + 24 * dictionaries + 24 * batches < 2 ^ 32 }
    ensures { OnOk result (out.new.items ≡ out.old.items ++ footer_head dictionaries batches) }
{
    out.extend_from_slice(&[
        16, 0, 0, 0, 12, 0, 20, 0, 16, 0, 4, 0, 8, 0, 12, 0, 12, 0, 0, 0,
    ])?;
    write_u32(out, (44 + 24 * dictionaries + 24 * batches) as u32)?;
    out.extend_from_slice(&[12, 0, 0, 0])?;
    write_u32(out, (16 + 24 * dictionaries) as u32)?;
    out.extend_from_slice(&[4, 0, 0, 0])?;
    Ok(())
}

// Appends the footer with the part of its schema.
#[tactic(auto, unfolding(crate::specs::FooterBytes::footer_part_bytes))]
fn write_footer_part(
    out: &mut Vec<u8>,
    dictionaries: &[Block],
    batches: &[Block],
    schema: &[u8],
) -> Result<(), AllocError>
    requires { 44 + 24 * length dictionaries.now + 24 * length batches.now < 2 ^ 32 }
    ensures ok { OnOk result (out.new.items ≡ out.old.items ++ footer_part_bytes dictionaries.now batches.now schema.now) }
    ensures fits { OnOk result (AllByRecursion BlockFits dictionaries.now × AllByRecursion BlockFits batches.now) }
{
    write_head(out, dictionaries.len(), batches.len())?;
    write_blocks(out, dictionaries)?;
    out.extend_from_slice(&[0, 0, 0, 0])?;
    write_blocks(out, batches)?;
    out.extend_from_slice(schema)?;
    Ok(())
}

/// Appends the end of a file: the footer, its length and the magic.
///
/// The footer round-trips where its blocks are within the bytes before it.
///
/// # Errors
/// The error of the first field that cannot be written, [`IpcWriteError::Size`] where the footer has 2^31 bytes or more,
/// [`IpcWriteError::Memory`] where an allocation fails.
#[tactic(auto, unfolding(crate::specs::FooterBytes::file_end))]
pub fn write_footer(
    alloc: Global,
    out: &mut Vec<u8>,
    schema: &Schema,
    dictionaries: &[Block],
    batches: &[Block],
) -> Result<(), IpcWriteError>
    ensures bytes { OnOk result (out.new.items ≡ out.old.items ++ file_end (footer_with schema.now dictionaries.now batches.now)) }
    ensures again { OnOk result (FooterRoundTrips (footer_with schema.now dictionaries.now batches.now)) }
    ensures form { OnOk result (check_fields (schema_of schema.now).fields ≡ Ok tt) }
    ensures small { OnOk result (length (footer_bytes (footer_with schema.now dictionaries.now batches.now)) < 2 ^ 31) }
    ensures err { IfErr result (IsSchemaWriteError (check_fields (schema_of schema.now).fields) (length (footer_bytes (footer_with schema.now dictionaries.now batches.now)))) }
{
    let part = schema_with_dictionaries_table(alloc, schema)?;
    let count = dictionaries.len() + batches.len();
    if count >= 1 << 27 {
        return Err(IpcWriteError::Size);
    }
    let length = 48 + 24 * count + part.len();
    if length >= 1 << 31 {
        return Err(IpcWriteError::Size);
    }
    write_footer_part(out, dictionaries, batches, &part)?;
    write_u32(out, length as u32)?;
    out.extend_from_slice(b"ARROW1")?;
    Ok(())
}
