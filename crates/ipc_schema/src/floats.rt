//! The precision of floating-point types by its number.
ghost use Rattle.std.specs.Prelude.{◌≡◌};
ghost use Rattle.ipc_schema.specs.Floats.{spec_precision_number, spec_numbered_precision};

use ipc_flatbuf::IpcReadError;
use nest_memory::datatypes::floats::Precision;

/// Returns the precision of a number of the enum.
///
/// # Errors
/// [`IpcReadError::TypeRange`] where the number is none of them.
pub(crate) fn precision_of_number(number: usize) -> Result<Precision, IpcReadError>
    ensures { result ≡ spec_numbered_precision number }
{
    match number {
        0 => Ok(Precision::Half),
        1 => Ok(Precision::Single),
        2 => Ok(Precision::Double),
        _ => Err(IpcReadError::TypeRange),
    }
}

/// Returns the number of a precision in the enum.
pub(crate) fn precision_number(precision: Precision) -> u32
    ensures { result ≡ spec_precision_number precision }
{
    match precision {
        Precision::Half => 0,
        Precision::Single => 1,
        Precision::Double => 2,
    }
}
