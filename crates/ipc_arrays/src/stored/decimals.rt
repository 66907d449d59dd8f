//! Decimals of 32 and 64 bits (Schema.fbs, table Decimal).
ghost use Rattle.std.specs.Prelude.{◌≡◌, ◌≤◌, ◌*◌, ◌++◌, length, map, OnOk};
ghost use Rattle.std.specs.Int.{w128};
ghost use Rattle.ipc_flatbuf.specs.ReadResults.{ReturnsOrRunsOut};
ghost use Rattle.ipc_arrays.specs.FixedWidth.{signed_format, decoded_natives, values_bytes};
ghost use Rattle.ipc_arrays.specs.Stored.{widened, decimal_contents, with_buffer, with_stored, laid_of};

use crate::bytes::is_enough;
use crate::cursor::NodeCounts;
use crate::fixed_width::FixedWidth;
use crate::stored::contents::{PlainBuffers, end_buffer, push_content};
use ipc_flatbuf::IpcReadError;
use std::alloc::{AllocError, Global};

/// The integers of decimals that are read as decimals of 128 bits.
pub(crate) trait SmallDecimal: FixedWidth {
    /// Appends the bytes that encode the same integer in 128 bits.
    fn put_wide(self, out: &mut Vec<u8>) -> Result<(), AllocError>
        ensures { OnOk result (out.new.items ≡ out.old.items ++ (signed_format w128).bytes (Self.numbers self)) };
}

impl SmallDecimal for i32 {
    ghost use Rattle.std.specs.Int.{w128};
    ghost use Rattle.ipc_arrays.specs.FixedWidth.{signed_format};

    fn put_wide(self, out: &mut Vec<u8>) -> Result<(), AllocError> {
        (self as i128).put(out)
    }
}

impl SmallDecimal for i64 {
    ghost use Rattle.std.specs.Int.{w128};
    ghost use Rattle.ipc_arrays.specs.FixedWidth.{signed_format};

    fn put_wide(self, out: &mut Vec<u8>) -> Result<(), AllocError> {
        (self as i128).put(out)
    }
}

// Appends `slots` values as integers of 128 bits.
fn widen_each<T: SmallDecimal>(
    slots: usize,
    bytes: &[u8],
    out: &mut Vec<u8>,
) -> Result<(), AllocError>
    requires { slots * T.format.size ≤ length bytes.now }
    ensures { OnOk result (out.new.items ≡ out.old.items ++ values_bytes (signed_format w128) (decoded_natives T.format slots bytes.now)) }
{
    let mut from = bytes;
    for _i in 0..slots {
        let (_, next) = from.split_at(T::size());
        T::from_bytes(from).put_wide(out)?;
        from = next;
    }
    Ok(())
}

// Appends a buffer of `slots` values as integers of 128 bits.
#[tactic(auto, unfolding(crate::specs::Stored::widened, crate::specs::Decoding::decoded_values))]
fn append_widened<T: SmallDecimal>(
    slots: usize,
    values: &[u8],
    plain: &mut PlainBuffers,
) -> Result<(), IpcReadError>
    ensures { ReturnsOrRunsOut (λ _. laid_of plain.new) result (with_buffer (laid_of plain.old) (widened T.format slots values.now)) }
{
    if !is_enough(values.len(), slots, T::size()) {
        return Err(IpcReadError::BufferTooShort);
    }
    let start = plain.bytes.len();
    widen_each::<T>(slots, values, &mut plain.bytes)?;
    end_buffer(plain, start)?;
    Ok(())
}

/// Appends the buffers of an array of decimals as those of decimals of 128 bits: the validity buffer as it is, and the widened values.
///
/// # Errors
///
/// `IpcReadError::BufferTooShort` if there are fewer values than slots.
#[tactic(auto, unfolding(crate::specs::Stored::decimal_contents))]
pub(crate) fn append_decimals<T: SmallDecimal>(
    counts: NodeCounts,
    buffers: &[&[u8]],
    plain: &mut PlainBuffers,
) -> Result<(), IpcReadError>
    ensures { ReturnsOrRunsOut (λ _. laid_of plain.new) result (with_stored (laid_of plain.old) (decimal_contents T.format counts (map (λ b. b.now) buffers.now))) }
{
    match buffers {
        [bits, values] => {
            push_content(plain, bits)?;
            append_widened::<T>(counts.slots, values, plain)?;
            Ok(())
        }
        _ => Err(IpcReadError::BufferCount),
    }
}
