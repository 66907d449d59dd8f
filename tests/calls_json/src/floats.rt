//! Floating-point numbers from lines of JSON, by their bits. The bits are those of Python's `struct`.
ghost use Rattle.std.specs.Prelude.{◌*◌, ◌<◌};
ghost use Rattle.std.specs.Float.Ieee.{top};

use float_text::{FloatFormat, is_finite, single_of_half, write_float};
use json_read::{FieldError, JsonReadError, LineError, ValueError, read_json_lines};
use json_write::Json;
use nest_array::AnyArray;
use nest_flat::any_native::AnyNative;
use nest_memory::datatypes::floats::{Precision, float_type};
use random::numbers::Generator;
use random::start::START;
use std::alloc::Global;
use std::fmt;
use std::fmt::{Display, Formatter};
use std::test::*;

/// The array of the lines, or the error.
fn read(
    alloc: Global,
    precision: Precision,
    text: &str,
) -> Result<Result<AnyArray, JsonReadError>, Fail> {
    let data_type = float_type(alloc, precision)?;
    let read = read_json_lines(alloc, &data_type, text.as_bytes());
    drop(data_type);
    Ok(read)
}

/// The bits of the one slot of an array.
fn bits_of(array: &AnyArray) -> Option<u64> {
    let AnyArray::Primitive(array) = array else {
        return None;
    };
    if array.len() != 1 || array.is_null(0) {
        return None;
    }
    match array.value(0) {
        AnyNative::UInt16(bits) => Some(u64::from(bits)),
        AnyNative::UInt32(bits) => Some(u64::from(bits)),
        AnyNative::UInt64(bits) => Some(bits),
        _ => None,
    }
}

/// The bits of the number on a line.
fn read_bits(alloc: Global, precision: Precision, text: &str) -> Result<Option<u64>, Fail> {
    match read(alloc, precision, text)? {
        Ok(array) => Ok(bits_of(&array)),
        Err(_) => Ok(None),
    }
}

/// Numbers and the names of those that are not finite.
#[test]
fn numbers_are_read(rt: HostRuntime) -> Result<(), Fail> {
    for (precision, text, bits) in [
        (Precision::Double, "1.5", 0x3ff8_0000_0000_0000u64),
        (Precision::Double, "-0.0", 0x8000_0000_0000_0000),
        (Precision::Double, "-0", 0x8000_0000_0000_0000),
        (Precision::Double, "3", 0x4008_0000_0000_0000),
        (Precision::Double, "1e23", 0x44b5_2d02_c7e1_4af6),
        (Precision::Double, "5e-324", 1),
        (Precision::Double, "1e-400", 0),
        (Precision::Double, "9007199254740993", 0x4340_0000_0000_0000),
        (
            Precision::Double,
            "1.7976931348623157E+308",
            0x7fef_ffff_ffff_ffff,
        ),
        (Precision::Double, "\"NaN\"", 0x7ff8_0000_0000_0000),
        (Precision::Double, "\"Infinity\"", 0x7ff0_0000_0000_0000),
        (Precision::Double, "\"-Infinity\"", 0xfff0_0000_0000_0000),
        (Precision::Single, "0.1", 0x3dcc_cccd),
        (Precision::Single, "16777217", 0x4b80_0000),
        (Precision::Single, "1e-45", 1),
        (Precision::Single, "3.4028235e38", 0x7f7f_ffff),
        (Precision::Single, "\"NaN\"", 0x7fc0_0000),
        (Precision::Single, "\"Infinity\"", 0x7f80_0000),
        (Precision::Single, "\"-Infinity\"", 0xff80_0000),
    ] {
        let found = read_bits(rt.alloc(), precision, text)?;
        assert!(&rt; found == Some(bits), "{precision:?} of {text}: {found:?}");
    }
    Ok(())
}

/// Numbers past the range, strings that name no number, and other JSON values.
#[test]
fn invalid_numbers_are_rejected(rt: HostRuntime) -> Result<(), Fail> {
    for (precision, text, want) in [
        (Precision::Double, "1e400", ValueError::OutOfRange),
        (Precision::Double, "-1e309", ValueError::OutOfRange),
        (Precision::Single, "1e39", ValueError::OutOfRange),
        (Precision::Single, "3.4028236e38", ValueError::OutOfRange),
        (Precision::Double, "\"nan\"", ValueError::InvalidText),
        (Precision::Double, "\"inf\"", ValueError::InvalidText),
        (Precision::Double, "\"+Infinity\"", ValueError::InvalidText),
        (Precision::Double, "\"1.5\"", ValueError::InvalidText),
        (Precision::Single, "\"\"", ValueError::InvalidText),
        (Precision::Double, "true", ValueError::WrongType),
        (Precision::Double, "[]", ValueError::WrongType),
        (Precision::Single, "[1.5]", ValueError::WrongType),
        (Precision::Single, "{}", ValueError::WrongType),
    ] {
        match read(rt.alloc(), precision, text)? {
            Ok(_) => assert!(&rt; false, "{precision:?} of {text}"),
            Err(error) => assert!(&rt;
                error
                    == JsonReadError::Line {
                        line: 0,
                        error: FieldError {
                            field: None,
                            reason: LineError::Value(want)
                        }
                    },
                "{precision:?} of {text}: {error}"
            ),
        }
    }
    Ok(())
}

/// Numbers as the nearest half, or as none past the range. The bits were computed with exact fractions in Python. Seven of these numbers are
/// another half, or past the range, if they are rounded to a double first.
#[test]
fn halves_are_rounded_once(rt: HostRuntime) -> Result<(), Fail> {
    for (text, bits) in [
        ("1", Some(0x3c00)),
        ("-1", Some(0xbc00)),
        ("1.5", Some(0x3e00)),
        ("0.1", Some(0x2e66)),
        ("0.333", Some(0x3554)),
        ("1e0", Some(0x3c00)),
        ("100E-2", Some(0x3c00)),
        ("0.0", Some(0x0000)),
        ("-0.0", Some(0x8000)),
        ("-0", Some(0x8000)),
        ("0e999999999999999999999", Some(0x0000)),
        ("65504", Some(0x7bff)),
        ("-65504", Some(0xfbff)),
        ("65519.99", Some(0x7bff)),
        ("65519.999999999999999999999999999999", Some(0x7bff)),
        ("65520", None),
        ("-65520", None),
        ("65520.0", None),
        ("65536", None),
        ("1e5", None),
        ("1e400", None),
        ("-1e99999999999999999999999", None),
        ("5.9604644775390625e-8", Some(0x0001)),
        ("2.98023223876953125e-8", Some(0x0000)),
        ("2.98023223876953125000000000000000001e-8", Some(0x0001)),
        ("2.9802322387695312499999999999999999e-8", Some(0x0000)),
        ("8.94069671630859375e-8", Some(0x0002)),
        ("8.940696716308593750000000000000000000001e-8", Some(0x0002)),
        ("0.00000002980232238769531250000000000001", Some(0x0001)),
        ("1e-8", Some(0x0000)),
        ("1e-400", Some(0x0000)),
        ("1e-99999999999999999999999", Some(0x0000)),
        ("-1e-99999999999999999999999", Some(0x8000)),
        ("2049", Some(0x6800)),
        ("2049.0000000000000001", Some(0x6801)),
        ("2048.9999999999999999", Some(0x6800)),
        ("2050", Some(0x6801)),
        ("2051", Some(0x6802)),
        ("2051.0000000000000001", Some(0x6802)),
        ("2050.9999999999999999", Some(0x6801)),
        ("4097", Some(0x6c00)),
        ("4098", Some(0x6c00)),
        ("4099", Some(0x6c01)),
        ("4102", Some(0x6c02)),
        (
            "4102.000000000000000000000000000000000000000000000000001",
            Some(0x6c02),
        ),
        ("0.00006103515625", Some(0x0400)),
        ("0.000061035156249", Some(0x0400)),
        ("0.00006097555160522461", Some(0x03ff)),
        ("0.00006100535392761230468749", Some(0x03ff)),
        ("0.00006100535392761230468750", Some(0x0400)),
        ("0.00006100535392761230468751", Some(0x0400)),
        ("1000.25", Some(0x63d0)),
        ("1000.75", Some(0x63d2)),
        (
            "0.5000000000000000000000000000000000000000001",
            Some(0x3800),
        ),
        ("0.50024414062500000000000000000000001", Some(0x3801)),
        ("0.500244140625", Some(0x3800)),
        ("0.50073242187500", Some(0x3802)),
        ("0.50073242187499999999999999999999999", Some(0x3801)),
        ("33333.3333333333333333", Some(0x7812)),
        ("12345678901234567890e-16", Some(0x64d3)),
    ] {
        let found = read_bits(rt.alloc(), Precision::Half, text)?;
        assert!(&rt; found == bits, "{text}: {found:?}");
    }
    Ok(())
}

/// Names, numbers past the range, and other values, for halves.
#[test]
fn names_of_halves_are_read(rt: HostRuntime) -> Result<(), Fail> {
    for (text, bits) in [
        ("\"NaN\"", 0x7e00u64),
        ("\"Infinity\"", 0x7c00),
        ("\"-Infinity\"", 0xfc00),
    ] {
        let found = read_bits(rt.alloc(), Precision::Half, text)?;
        assert!(&rt; found == Some(bits), "{text}: {found:?}");
    }
    for (text, want) in [
        ("65520", ValueError::OutOfRange),
        ("-1e400", ValueError::OutOfRange),
        ("\"inf\"", ValueError::InvalidText),
        ("\"1.5\"", ValueError::InvalidText),
        ("true", ValueError::WrongType),
        ("[1.5]", ValueError::WrongType),
    ] {
        match read(rt.alloc(), Precision::Half, text)? {
            Ok(_) => assert!(&rt; false, "{text}"),
            Err(error) => assert!(&rt;
                error
                    == JsonReadError::Line {
                        line: 0,
                        error: FieldError {
                            field: None,
                            reason: LineError::Value(want)
                        }
                    },
                "{text}: {error}"
            ),
        }
    }
    Ok(())
}

/// Each half but the NaNs is read from its text.
#[test]
fn all_halves_round_trip(rt: HostRuntime) -> Result<(), Fail> {
    let alloc = rt.alloc();
    let mut text = String::new(alloc);
    for bits in 0..=u16::MAX {
        if bits % 0x8000 <= 0x7c00 {
            let line = format!(in alloc; "{}\n", Number::Half(bits))?;
            text.push_str(line.as_str())?;
        }
    }
    let array = match read(alloc, Precision::Half, text.as_str())? {
        Ok(AnyArray::Primitive(array)) => array,
        _ => {
            assert!(&rt; false);
            return Ok(());
        }
    };
    assert!(&rt; array.len() == 2 * 0x7c01);
    let mut index = 0;
    for bits in 0..=u16::MAX {
        if bits % 0x8000 <= 0x7c00 {
            let found = array.value(index);
            assert!(&rt; found == AnyNative::UInt16(bits), "{bits}: {found:?}");
            index += 1;
        }
    }
    Ok(())
}

/// What is written is read, and what is read is written.
#[test]
fn rows_round_trip(rt: HostRuntime) -> Result<(), Fail> {
    let alloc = rt.alloc();
    let text = "1.5\n\"NaN\"\nnull\n\"-Infinity\"\n-0.0\n0.1\n";
    for (precision, last) in [
        (Precision::Half, "0.099975586"),
        (Precision::Single, "0.1"),
        (Precision::Double, "0.1"),
    ] {
        match read(alloc, precision, text)? {
            Ok(array) => {
                let found = format!(in alloc; "{}", Json::of(&array))?;
                let want = format!(in alloc; "[1.5,\"NaN\",null,\"-Infinity\",-0.0,{last}]")?;
                assert!(&rt; found == want, "{found}");
            }
            Err(error) => assert!(&rt; false, "{error}"),
        }
    }
    Ok(())
}

/// A number as JSON.
#[derive(Clone, Copy)]
enum Number {
    Half(u16),
    Single(u32),
    Double(u64),
}

fn write_bits<F: FloatFormat, W: fmt::Write>(f: &mut Formatter<W>, bits: u64) -> fmt::Result
    requires { bits < 2 * top F.format }
{
    if is_finite::<F>(bits) {
        return write_float::<F, W>(f, bits);
    }
    f.write_str("\"")?;
    write_float::<F, W>(f, bits)?;
    f.write_str("\"")
}

impl Display for Number {
    fn fmt<W: fmt::Write>(&self, f: &mut Formatter<W>) -> fmt::Result {
        match *self {
            Number::Half(bits) => write_bits::<f32, W>(f, u64::from(single_of_half(bits))),
            Number::Single(bits) => write_bits::<f32, W>(f, u64::from(bits)),
            Number::Double(bits) => write_bits::<f64, W>(f, bits),
        }
    }
}

const RANDOM: u64 = 83;

/// Numbers of random bits, all but NaNs, whose bits are not kept.
#[test]
fn random_numbers_round_trip(rt: HostRuntime) -> Result<(), Fail> {
    let alloc = rt.alloc();
    let mut rng = Generator::new(START, RANDOM, 0);
    for _ in 0..2000 {
        let double = rng.word();
        if double % (1 << 63) <= 0x7ff0_0000_0000_0000 {
            let text = format!(in alloc; "{}", Number::Double(double))?;
            let found = read_bits(alloc, Precision::Double, text.as_str())?;
            assert!(&rt; found == Some(double), "{text}: {found:?}");
        }
        let single = rng.word() % (1 << 32);
        if single % (1 << 31) <= 0x7f80_0000 {
            let text = format!(in alloc; "{}", Number::Single(single as u32))?;
            let found = read_bits(alloc, Precision::Single, text.as_str())?;
            assert!(&rt; found == Some(single), "{text}: {found:?}");
        }
    }
    Ok(())
}
