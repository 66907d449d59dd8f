//! Separators, JSON strings, and bytes as hexadecimal strings.
ghost use Rattle.std.specs.Prelude.{◌≡◌, ◌<◌, IsTrue, flat_map};
ghost use Rattle.std.specs.Char.{digit_char};
ghost use Rattle.std.specs.Fmt.{WritesOnOk};
ghost use Rattle.json.specs.Print.{escape, escape_byte, quoted};
ghost use Rattle.json_write.specs.JsonText.{comma, must_escape, hex_byte, hex_quoted};

use std::fmt;
use std::fmt::Formatter;

/// Writes the comma that separates an item or a member from the one before it, if there is one.
#[inline]
pub(crate) fn write_comma<W: fmt::Write>(f: &mut Formatter<W>, after: bool) -> fmt::Result
    ensures { WritesOnOk W.write_str_gives f.old result (comma after) f.new }
{
    if after { f.write_str(",") } else { Ok(()) }
}

/// Writes a JSON string with the shortest escapes (RFC 8259, section 7).
pub(crate) fn write_quoted<W: fmt::Write>(f: &mut Formatter<W>, text: &str) -> fmt::Result
    ensures { WritesOnOk W.write_str_gives f.old result (quoted text.now) f.new }
{
    f.write_str("\"")?;
    write_escaped(f, text)?;
    f.write_str("\"")
}

/// Writes the contents of a JSON string. Runs of bytes without escapes are written at once.
fn write_escaped<W: fmt::Write>(f: &mut Formatter<W>, text: &str) -> fmt::Result
    ensures { WritesOnOk W.write_str_gives f.old result (escape text.now) f.new }
{
    let bytes = text.as_bytes();
    let mut start = 0;
    'bytes: for at in 0..bytes.len() {
        let byte = bytes[at];
        if needs_escape(byte) {
            f.write_str(&text[start..at])?;
            write_escape(f, byte)?;
            start = at + 1;
        }
    }
    f.write_str(&text[start..])
}

/// Returns whether JSON requires an escape: for the quote, the backslash and control characters.
#[inline]
fn needs_escape(byte: u8) -> bool
    ensures { result ≡ must_escape byte }
{
    byte < b' ' || byte == b'"' || byte == b'\\'
}

/// Writes the escape sequence of a byte.
fn write_escape<W: fmt::Write>(f: &mut Formatter<W>, byte: u8) -> fmt::Result
    requires { IsTrue (must_escape byte) }
    ensures { WritesOnOk W.write_str_gives f.old result (escape_byte byte) f.new }
{
    match byte {
        b'"' => f.write_str("\\\""),
        b'\\' => f.write_str("\\\\"),
        0x8 => f.write_str("\\b"),
        0xc => f.write_str("\\f"),
        b'\n' => f.write_str("\\n"),
        b'\r' => f.write_str("\\r"),
        b'\t' => f.write_str("\\t"),
        _ => {
            f.write_str("\\u00")?;
            write_hex(f, byte)
        }
    }
}

/// Writes the two lower-case hexadecimal digits of a byte.
fn write_hex<W: fmt::Write>(f: &mut Formatter<W>, byte: u8) -> fmt::Result
    ensures { WritesOnOk W.write_str_gives f.old result (hex_byte byte) f.new }
{
    f.write_char(digit(byte / 16))?;
    f.write_char(digit(byte % 16))
}

/// Returns the lower-case hexadecimal digit of a value.
fn digit(d: u8) -> char
    requires { d < 16 }
    ensures value { result ≡ digit_char d }
    ensures ascii { result < 128 }
{
    if d < 10 {
        char::from(b'0' + d)
    } else {
        char::from(b'a' + (d - 10))
    }
}

/// Writes bytes as a JSON string of hexadecimal digits.
pub(crate) fn write_bytes<W: fmt::Write>(f: &mut Formatter<W>, bytes: &[u8]) -> fmt::Result
    ensures { WritesOnOk W.write_str_gives f.old result (hex_quoted bytes.now) f.new }
{
    f.write_str("\"")?;
    write_hex_digits(f, bytes)?;
    f.write_str("\"")
}

/// Writes the hexadecimal digits of all bytes.
fn write_hex_digits<W: fmt::Write>(f: &mut Formatter<W>, bytes: &[u8]) -> fmt::Result
    ensures { WritesOnOk W.write_str_gives f.old result (flat_map hex_byte bytes.now) f.new }
{
    for byte in bytes {
        write_hex(f, *byte)?;
    }
    Ok(())
}
