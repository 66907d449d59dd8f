//! Decimals of 256 bits as JSON. The halves are computed from the digits, byte by byte.
use json_read::{FieldError, JsonReadError, LineError, ValueError, read_json_lines};
use json_write::Json;
use nest_array::AnyArray;
use nest_flat::any_native::AnyNative;
use nest_memory::datatypes::DataType;
use nest_memory::types::i256;
use random::numbers::Generator;
use random::start::START;
use std::alloc::Global;
use std::test::*;

/// The sign and the digits of an integer: no leading zeros, and no sign of zero.
#[derive(Drop)]
struct Digits {
    negative: bool,
    digits: Vec<u8>,
}

/// An integer of at most 76 digits, some of many zeros or nines.
fn random_digits(alloc: Global, rng: &mut Generator) -> Result<Digits, Fail> {
    let count = rng.between(1, 76);
    let kind = rng.below(4);
    let mut digits = Vec::new(alloc);
    for at in 0..count {
        let digit = match kind {
            0 => 0,
            1 => 9,
            _ => rng.below(10) as u8,
        };
        digits.push(b'0' + if at == 0 { digit.max(1) } else { digit })?;
    }
    Ok(Digits {
        negative: rng.boolean(),
        digits,
    })
}

/// The JSON text of a decimal with these digits.
fn text_of(alloc: Global, number: &Digits, scale: usize) -> Result<String, Fail> {
    let mut padded = Vec::new(alloc);
    for _ in number.digits.len()..=scale {
        padded.push(b'0')?;
    }
    padded.extend_from_slice(&number.digits)?;
    let point = padded.len() - scale;
    let mut text = String::from_str(alloc, "\"")?;
    if number.negative {
        text.push('-')?;
    }
    for at in 0..padded.len() {
        if at == point {
            text.push('.')?;
        }
        text.push(char::from(padded[at]))?;
    }
    text.push('"')?;
    Ok(text)
}

/// The bytes of the integer, the lowest first.
fn bytes_of(number: &Digits) -> [u8; 32] {
    let mut bytes = [0u8; 32];
    for digit in &number.digits {
        let mut carry = u32::from(*digit - b'0');
        for at in 0..32 {
            let wide = u32::from(bytes[at]) * 10 + carry;
            bytes[at] = (wide % 256) as u8;
            carry = wide / 256;
        }
    }
    if number.negative {
        let mut carry = 1;
        for at in 0..32 {
            let wide = u32::from(255 - bytes[at]) + carry;
            bytes[at] = (wide % 256) as u8;
            carry = wide / 256;
        }
    }
    bytes
}

/// The integer of 256 bits.
fn halves_of(number: &Digits) -> i256 {
    let bytes = bytes_of(number);
    let (mut high, mut low) = (0u128, 0u128);
    for at in 0..16 {
        low = low << 8 | u128::from(bytes[15 - at]);
        high = high << 8 | u128::from(bytes[31 - at]);
    }
    i256 {
        high: high.cast_signed(),
        low,
    }
}

/// The halves of the one slot of an array.
fn halves_in(array: &AnyArray) -> Option<i256> {
    let AnyArray::Primitive(array) = array else {
        return None;
    };
    if array.len() != 1 || array.is_null(0) {
        return None;
    }
    match array.value(0) {
        AnyNative::Int256(value) => Some(value),
        _ => None,
    }
}

const RANDOM: u64 = 84;

#[test]
fn random_decimals_round_trip(rt: HostRuntime) -> Result<(), Fail> {
    let alloc = rt.alloc();
    for case in 0..600 {
        let mut rng = Generator::new(START, RANDOM, case);
        let number = random_digits(alloc, &mut rng)?;
        let scale = if rng.one_in(4) { 0 } else { rng.below(90) };
        let text = text_of(alloc, &number, scale)?;
        let data_type = DataType::Decimal256(number.digits.len(), scale);
        match read_json_lines(alloc, &data_type, text.as_bytes()) {
            Ok(array) => {
                let found = halves_in(&array);
                assert!(&rt; found == Some(halves_of(&number)), "{text}: {found:?}");
                let written = format!(in alloc; "{}", Json::of(&array))?;
                assert!(&rt; written == format!(in alloc; "[{text}]")?, "{written}");
            }
            Err(error) => assert!(&rt; false, "{text}: {error}"),
        }
    }
    Ok(())
}

/// One digit more than the precision.
#[test]
fn long_decimals_are_refused(rt: HostRuntime) -> Result<(), Fail> {
    let alloc = rt.alloc();
    for case in 0..200 {
        let mut rng = Generator::new(START, RANDOM + 1, case);
        let number = random_digits(alloc, &mut rng)?;
        let scale = rng.below(80);
        let text = text_of(alloc, &number, scale)?;
        let data_type = DataType::Decimal256(number.digits.len() - 1, scale);
        match read_json_lines(alloc, &data_type, text.as_bytes()) {
            Ok(_) => assert!(&rt; false, "{text}"),
            Err(error) => assert!(&rt;
                error
                    == JsonReadError::Line {
                        line: 0,
                        error: FieldError {
                            field: None,
                            reason: LineError::Value(ValueError::PrecisionExceeded)
                        }
                    },
                "{text}: {error}"
            ),
        }
    }
    Ok(())
}
