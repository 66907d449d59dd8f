//! Floating-point numbers, by their bits.
ghost use Rattle.std.specs.Prelude.{◌≡◌, ◌*◌, ◌<◌, true};
ghost use Rattle.std.specs.Float.Ieee.{top};
ghost use Rattle.std.specs.Fmt.{WritesOnOk};
ghost use Rattle.nest_flat.specs.AnyNative.{native_kind, native_numbers};
ghost use Rattle.nest_memory.specs.declared.datatypes.floats.Precision.{Precision};
ghost use Rattle.json_write.specs.Floats.{json_of_bits};
ghost use Rattle.json_write.specs.Formats.{has_format};
ghost use Rattle.json_write.specs.JsonText.{json_of_numbers};
ghost use Rattle.json_write.specs.declared.format.ValueFormat.TheVariants.{Float};

use float_text::{FloatFormat, is_finite, single_of_half, write_float};
use nest_flat::any_native::AnyNative;
use std::fmt;
use std::fmt::Formatter;

/// Writes the number that has these bits: a half as the single of the same value.
pub(crate) fn write_float_value<W: fmt::Write>(
    f: &mut Formatter<W>,
    value: AnyNative,
) -> fmt::Result
    ensures { (p : Precision) → has_format (native_kind value) (Float p) ≡ true → WritesOnOk W.write_str_gives f.old result (json_of_numbers (Float p) (native_numbers value)) f.new }
{
    match value {
        AnyNative::UInt16(bits) => write_bits::<f32, W>(f, u64::from(single_of_half(bits))),
        AnyNative::UInt32(bits) => write_bits::<f32, W>(f, u64::from(bits)),
        AnyNative::UInt64(bits) => write_bits::<f64, W>(f, bits),
        _ => Ok(()),
    }
}

/// Writes a finite number as a JSON number, and another as a JSON string.
fn write_bits<F: FloatFormat, W: fmt::Write>(f: &mut Formatter<W>, bits: u64) -> fmt::Result
    requires { bits < 2 * top F.format }
    ensures { WritesOnOk W.write_str_gives f.old result (json_of_bits F.format bits) f.new }
{
    if is_finite::<F>(bits) {
        return write_float::<F, W>(f, bits);
    }
    f.write_str("\"")?;
    write_float::<F, W>(f, bits)?;
    f.write_str("\"")
}
