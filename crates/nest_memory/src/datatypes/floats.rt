//! Floating-point types. There are no float arrays: a floating-point type is an extension type, whose values are the bits of the numbers.
ghost use Rattle.std.specs.Prelude.{◌≡◌, IfOk};
ghost use Rattle.nest_memory.specs.TypeOf.{type_of};
ghost use Rattle.nest_memory.specs.Floats.{spec_float_name, spec_is_float_name, spec_bits_type, spec_float_type, bits_precision, named_precision, spec_precision_of, spec_is_float};

use crate::datatypes::DataType;
use std::alloc::{AllocError, Global};

/// The precision of a floating-point type (`Schema.fbs` of the Arrow format, enum `Precision`).
#[derive(Clone, Copy, Debug, PartialEq, Eq)]
pub enum Precision {
    /// 16 bits, binary16 of IEEE 754.
    Half,
    /// 32 bits, binary32.
    Single,
    /// 64 bits, binary64.
    Double,
}

// The name of the extension type that represents floating-point numbers of a precision.
fn float_name(precision: Precision) -> &'static str
    ensures { result.now ≡ spec_float_name precision }
{
    match precision {
        Precision::Half => "tiekvorn.float16",
        Precision::Single => "tiekvorn.float32",
        Precision::Double => "tiekvorn.float64",
    }
}

/// Returns whether a name is that of an extension type that represents floating-point numbers.
pub fn is_float_name(name: &str) -> bool
    ensures { result ≡ spec_is_float_name name.now }
{
    name == "tiekvorn.float16" || name == "tiekvorn.float32" || name == "tiekvorn.float64"
}

fn bits_type(precision: Precision) -> DataType
    ensures { type_of result ≡ spec_bits_type precision }
{
    match precision {
        Precision::Half => DataType::UInt16,
        Precision::Single => DataType::UInt32,
        Precision::Double => DataType::UInt64,
    }
}

/// Returns the data type that represents floating-point numbers of a precision: the extension type `tiekvorn.float16`, `.float32` or
/// `.float64` of unsigned integers, which are the bits of the numbers.
///
/// # Errors
/// `AllocError` if an allocation fails.
pub fn float_type(alloc: Global, precision: Precision) -> Result<DataType, AllocError>
    ensures { IfOk result (λ t. type_of t ≡ spec_float_type precision) }
{
    let name = String::from_str(alloc, float_name(precision))?;
    let bits = Box::new(alloc, bits_type(precision))?;
    Ok(DataType::Extension(name, bits, None))
}

// The precision of floating-point numbers with the bits of a type.
fn precision_of_bits(bits: &DataType) -> Option<Precision>
    ensures { result ≡ bits_precision (type_of bits.now) }
{
    match bits {
        DataType::UInt16 => Some(Precision::Half),
        DataType::UInt32 => Some(Precision::Single),
        DataType::UInt64 => Some(Precision::Double),
        _ => None,
    }
}

fn precision_if_named(name: &str, precision: Option<Precision>) -> Option<Precision>
    ensures { result ≡ named_precision name.now precision }
{
    match precision {
        None => None,
        Some(precision) => {
            if float_name(precision) == name {
                Some(precision)
            } else {
                None
            }
        }
    }
}

/// Returns the precision of a floating-point type, `None` for any other type.
pub fn precision_of(data_type: &DataType) -> Option<Precision>
    ensures { result ≡ spec_precision_of (type_of data_type.now) }
{
    match data_type {
        DataType::Extension(name, bits, None) => precision_if_named(name, precision_of_bits(bits)),
        _ => None,
    }
}

/// Returns whether a type represents floating-point numbers.
pub fn is_float(data_type: &DataType) -> bool
    ensures { result ≡ spec_is_float (type_of data_type.now) }
{
    precision_of(data_type).is_some()
}
