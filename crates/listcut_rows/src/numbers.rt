//! Parses decimal numbers.
ghost use Rattle.std.specs.Prelude.{◌≡◌, ℕ, ◌+◌, ◌^◌, neg_ℤ, pos, map, string_bytes, option_map};
ghost use Rattle.listcut_rows.specs.Words.{spec_has_leading_zero, parsed_number, number_below, parsed_slice};

/// Returns whether there is no digit, or a zero before other digits.
fn has_leading_zero(digits: &[u8]) -> bool
    ensures { result ≡ spec_has_leading_zero digits.now }
{
    match digits {
        [] => true,
        [first, rest @ ..] => *first == b'0' && !rest.is_empty(),
    }
}

/// Parses decimal digits without a leading zero as a number below 2^64.
pub fn parse_unsigned(digits: &[u8]) -> Option<u64>
    ensures { result ≡ number_below (2 ^ 64) digits.now }
{
    if has_leading_zero(digits) {
        return None;
    }
    let mut value = 0u64;
    'digits: for c in digits {
        if !c.is_ascii_digit() {
            return None;
        }
        let Some(tens) = value.checked_mul(10) else {
            return None;
        };
        let Some(more) = tens.checked_add(u64::from(*c - b'0')) else {
            return None;
        };
        value = more;
    }
    Some(value)
}

/// The greatest 64-bit integer.
const MAX: u64 = 9223372036854775807;

/// Parses digits as a non-negative 64-bit integer.
fn parse_non_negative(digits: &[u8]) -> Option<i64>
    ensures { result ≡ option_map pos (number_below (2 ^ 63) digits.now) }
{
    let n = parse_unsigned(digits)?;
    if n <= MAX { Some(n as i64) } else { None }
}

/// Parses the digits after a `-` as a 64-bit integer.
fn parse_negated(digits: &[u8]) -> Option<i64>
    ensures { result ≡ option_map (λ n. neg_ℤ (pos n)) (number_below (2 ^ 63 + 1) digits.now) }
{
    let n = parse_unsigned(digits)?;
    if n <= MAX {
        Some(-(n as i64))
    } else if n == MAX + 1 {
        Some(i64::MIN)
    } else {
        None
    }
}

/// Parses an item as a 64-bit integer.
pub fn parse_number(bytes: &[u8]) -> Option<i64>
    ensures { result ≡ parsed_number bytes.now }
{
    match bytes {
        [] => None,
        [first, digits @ ..] => {
            if *first != b'-' {
                parse_non_negative(bytes)
            } else if digits == b"0".as_slice() {
                None
            } else {
                parse_negated(digits)
            }
        }
    }
}

/// Parses two arguments as an offset and a length.
pub fn parse_slice(arguments: &[String]) -> Option<(u64, u64)>
    ensures { result ≡ parsed_slice (map string_bytes arguments.now) }
{
    match arguments {
        [offset, len] => Some((
            parse_unsigned(offset.as_bytes())?,
            parse_unsigned(len.as_bytes())?,
        )),
        _ => None,
    }
}
