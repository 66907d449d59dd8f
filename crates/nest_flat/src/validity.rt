//! Optional validity bitmaps: one bit per slot, 1 if valid.
ghost use Rattle.std.specs.Prelude.{◌≡◌, ◌+◌, ◌≤◌, ◌<◌, ◌↔◌, IsTrue, IfOk, IsOkUnless, MatchOption, MatchResult, alloc_error};
ghost use Rattle.nest_memory.specs.declared.error.Error.TheVariants.{OutOfSpec};
ghost use Rattle.nest_memory.specs.declared.error.SpecError.TheVariants.{ValidityLength};
ghost use Rattle.nest_flat.specs.Words.{FailFirst, Memory, Pass, ValidityCovers, ValidityFits, sliced_validity, flat_checks, none_valid, type_of, unset_count, valid_at};

use nest_memory::bitmap::immutable::Bitmap;
use nest_memory::datatypes::DataType;
use nest_memory::datatypes::physical_type::PhysicalType;
use nest_memory::error::{Error, SpecError};
use nest_model::fill::Fill;
use std::alloc::Global;

/// Returns whether the validity is absent or has one bit for each of `n` slots.
pub fn fits(validity: &Option<Bitmap>, n: usize) -> bool
    ensures { IsTrue result ↔ ValidityFits validity.now n }
{
    match validity {
        None => true,
        Some(bits) => bits.len() == n,
    }
}

/// Replaces the validity.
///
/// # Errors
/// `ValidityLength` if the new one does not have `n` bits; the old one is kept then.
pub fn replace(validity: &mut Option<Bitmap>, other: Option<Bitmap>, n: usize) -> Result<(), Error>
    ensures { MatchResult result
        (λ _. ValidityFits other n × (validity.new ≡ other))
        (λ e. (e ≡ OutOfSpec ValidityLength) × (ValidityFits other n → ⊥) × (validity.new ≡ validity.old)) }
{
    if !fits(&other, n) {
        return Err(Error::OutOfSpec(SpecError::ValidityLength));
    }
    *validity = other;
    Ok(())
}

/// Slices the bits in place to those of slots `o..o + n`.
pub fn slice(validity: &mut Option<Bitmap>, o: usize, n: usize)
    requires { ValidityCovers validity.old (o + n) }
    ensures { validity.new ≡ sliced_validity validity.old o n }
{
    if let Some(bits) = validity {
        bits.slice(o, n);
    }
}

/// Returns whether slot `i` is valid.
pub fn is_valid(validity: &Option<Bitmap>, i: usize) -> bool
    requires { ValidityCovers validity.now (i + 1) }
    ensures { result ≡ valid_at validity.now i }
{
    match validity {
        None => true,
        Some(bits) => bits.get_bit(i),
    }
}

/// Returns the number of null slots.
pub fn null_count(validity: &Option<Bitmap>) -> usize
    ensures { result ≡ unset_count validity.now }
{
    match validity {
        None => 0,
        Some(bits) => bits.unset_bits(),
    }
}

/// Returns a copy that shares the bits.
///
/// # Errors
/// `Memory` if an allocation fails.
pub fn clone(validity: &Option<Bitmap>) -> Result<Option<Bitmap>, Error>
    ensures ok { IfOk result (λ v. v ≡ validity.now) }
    ensures err { IsOkUnless result (Memory alloc_error) }
{
    match validity {
        None => Ok(None),
        Some(bits) => Ok(Some(bits.clone()?)),
    }
}

/// Returns the validity of `n` slots that are all null. With `Fill::Nothing` there is none.
///
/// # Errors
/// `Memory` if an allocation fails.
pub fn none_valid(alloc: Global, n: usize, fill: Fill) -> Result<Option<Bitmap>, Error>
    ensures ok { IfOk result (λ v. v ≡ none_valid fill n) }
    ensures err { IsOkUnless result (Memory alloc_error) }
{
    match fill {
        Fill::Nulls => Ok(Some(Bitmap::new_zeroed(alloc, n)?)),
        Fill::Nothing => Ok(None),
    }
}

/// Returns the error of the first failing check of those that every flat array of `n` slots ends with: validity
/// length, then physical type.
pub(crate) fn first_error(
    validity: &Option<Bitmap>,
    n: usize,
    data_type: &DataType,
    physical: PhysicalType,
) -> Option<Error>
    ensures { let checks = flat_checks validity.now n (type_of data_type.now) physical in
        MatchOption result (Pass checks) (λ e. FailFirst e checks) }
{
    if !fits(validity, n) {
        return Some(Error::OutOfSpec(SpecError::ValidityLength));
    }
    if data_type.to_physical_type() != physical {
        return Some(Error::OutOfSpec(SpecError::WrongType));
    }
    None
}
