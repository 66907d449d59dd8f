//! The validity bits of a builder, allocated at the first null.
ghost use Rattle.std.specs.Prelude.{◌≡◌, ◌+◌, ◌^◌, ◌<◌, ◌++◌, ◌∷◌, [], length, true, false, None, Some, OnOk, OnErr, IfOk, replicate, IsOkUnless, alloc_error, ◌≤◌, if◌then◌else◌};
ghost use Rattle.nest_flat.specs.Words.{Memory, ValidityCovers, ValidityFits, sliced_validity, joined_validity, pushed_validity, valid_at};

use crate::growth::bits;
use nest_memory::bitmap::immutable::Bitmap;
use nest_memory::bitmap::mutable::MutableBitmap;
use nest_memory::error::Error;
use std::alloc::Global;

/// Returns the bits of `n` valid slots and a null.
fn first_null(alloc: Global, n: usize) -> Result<MutableBitmap, Error>
    requires { n + 1 < 2 ^ 64 }
    ensures ok { IfOk result (λ bits. bits ≡ replicate n true ++ false ∷ []) }
    ensures err { IsOkUnless result (Memory alloc_error) }
{
    let mut bits = MutableBitmap::new(alloc);
    bits.extend_constant(n, true)?;
    bits.push(false)?;
    Ok(bits)
}

/// Creates the bits of `n` valid slots and a null. Not inlined, since it runs once in a builder's life.
#[cold]
#[inline(never)]
fn begin(alloc: Global, validity: &mut Option<MutableBitmap>, n: usize) -> Result<(), Error>
    requires { n + 1 < 2 ^ 64 }
    ensures ok { OnOk result (validity.new ≡ Some (replicate n true ++ false ∷ [])) }
    ensures err { OnErr result (validity.new ≡ validity.old) }
    ensures memory { IsOkUnless result (Memory alloc_error) }
{
    *validity = Some(first_null(alloc, n)?);
    Ok(())
}

/// Appends the bit of one slot to those of `len` slots.
///
/// # Errors
/// `Memory` if an allocation fails.
#[inline]
pub fn push(
    alloc: Global,
    validity: &mut Option<MutableBitmap>,
    len: usize,
    valid: bool,
) -> Result<(), Error>
    requires fits { ValidityFits validity.old len }
    requires room { len + 1 < 2 ^ 64 }
    ensures ok { OnOk result (validity.new ≡ pushed_validity validity.old len valid) }
    ensures err { OnErr result (validity.new ≡ validity.old) }
    ensures memory { IsOkUnless result (Memory alloc_error) }
{
    if let Some(bits) = validity {
        return bits.push(valid);
    }
    if valid {
        return Ok(());
    }
    begin(alloc, validity, len)
}

/// Returns the bits of `n` valid slots followed by other bits.
fn valid_before(alloc: Global, n: usize, more: &MutableBitmap) -> Result<MutableBitmap, Error>
    requires { n + length more.now < 2 ^ 64 }
    ensures ok { IfOk result (λ bits. bits ≡ replicate n true ++ more.now) }
    ensures err { IsOkUnless result (Memory alloc_error) }
{
    let mut bits = MutableBitmap::new(alloc);
    bits.extend_constant(n, true)?;
    bits::append(&mut bits, more)?;
    Ok(bits)
}

/// Appends the bits of `m` slots to those of `n` slots.
///
/// # Errors
/// `Memory` if an allocation fails.
pub fn join(
    alloc: Global,
    validity: &mut Option<MutableBitmap>,
    n: usize,
    more: &Option<MutableBitmap>,
    m: usize,
) -> Result<(), Error>
    requires fits { ValidityFits validity.old n }
    requires more_fits { ValidityFits more.now m }
    requires room { n + m < 2 ^ 64 }
    ensures ok { OnOk result (validity.new ≡ joined_validity validity.old n more.now m) }
    ensures err { OnErr result (validity.new ≡ validity.old) }
    ensures memory { IsOkUnless result (Memory alloc_error) }
{
    if let Some(bits) = validity {
        return match more {
            None => bits.extend_constant(m, true),
            Some(more) => bits::append(bits, more),
        };
    }
    if let Some(more) = more {
        *validity = Some(valid_before(alloc, n, more)?);
    }
    Ok(())
}

/// Keeps the bits of the first `n` slots.
pub fn truncate(validity: &mut Option<MutableBitmap>, n: usize)
    requires { ValidityCovers validity.old n }
    ensures { validity.new ≡ sliced_validity validity.old 0 n }
{
    if let Some(bits) = validity {
        bits.truncate(n);
    }
}

/// Keeps the bits of the first `n` slots, or drops the validity unless `masked`.
pub fn rollback(validity: &mut Option<MutableBitmap>, n: usize, masked: bool)
    requires { ValidityCovers validity.old n }
    ensures { validity.new ≡ (if masked then sliced_validity validity.old 0 n else None) }
{
    if masked {
        truncate(validity, n);
    } else {
        drop(validity.take());
    }
}

/// Returns whether slot `i` is valid.
pub fn is_valid(validity: &Option<MutableBitmap>, i: usize) -> bool
    requires { ValidityCovers validity.now (i + 1) }
    ensures { result ≡ valid_at validity.now i }
{
    match validity {
        None => true,
        Some(bits) => bits.get(i),
    }
}

/// Reserves capacity for the bits of `additional` more slots, if there is a validity.
///
/// # Errors
/// `Memory` if an allocation fails.
pub fn reserve(validity: &mut Option<MutableBitmap>, additional: usize) -> Result<(), Error>
    ensures same { validity.new ≡ validity.old }
    ensures memory { IsOkUnless result (Memory alloc_error) }
{
    match validity {
        None => Ok(()),
        Some(bits) => bits.reserve(additional),
    }
}

/// Releases unused capacity if a smaller block can be allocated.
pub fn shrink_to_fit(validity: &mut Option<MutableBitmap>)
    ensures { validity.new ≡ validity.old }
{
    if let Some(bits) = validity {
        bits.shrink_to_fit();
    }
}

/// Returns the bits as a shared bitmap, and removes them from the builder.
///
/// # Errors
/// `Memory` if an allocation fails.
pub fn freeze(validity: &mut Option<MutableBitmap>) -> Result<Option<Bitmap>, Error>
    ensures ok { IfOk result (λ frozen. frozen ≡ validity.old) }
    ensures emptied { validity.new ≡ None }
    ensures memory { IsOkUnless result (Memory alloc_error) }
{
    match validity.take() {
        None => Ok(None),
        Some(mut bits) => Ok(Some(bits.freeze()?)),
    }
}
