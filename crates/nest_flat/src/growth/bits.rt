//! Concatenation of bitmaps.
ghost use Rattle.std.specs.Prelude.{◌≡◌, ◌+◌, ◌^◌, ◌<◌, ◌++◌, length, OnOk, OnErr, IsOkUnless, alloc_error};
ghost use Rattle.nest_flat.specs.Words.{Memory};

use nest_memory::bitmap::mutable::MutableBitmap;
use nest_memory::error::Error;

/// Appends the bits of another bitmap: all of them, or none on error.
///
/// # Errors
/// `Memory` if an allocation fails.
pub fn append(bits: &mut MutableBitmap, more: &MutableBitmap) -> Result<(), Error>
    requires { length bits.old + length more.now < 2 ^ 64 }
    ensures ok { OnOk result (bits.new ≡ bits.old ++ more.now) }
    ensures err { OnErr result (bits.new ≡ bits.old) }
    ensures memory { IsOkUnless result (Memory alloc_error) }
{
    let len = bits.len();
    for bit in more.iter() {
        if let Err(error) = bits.push(bit) {
            bits.truncate(len);
            return Err(error);
        }
    }
    Ok(())
}
