//! The contents of the samples in `tests/data/lz4`, as `make.py` there makes them.

use std::alloc::{AllocError, Global};

/// How the bytes of a content are made.
#[derive(Clone, Copy)]
pub enum Kind {
    /// `row 0`, `row 1` and so on, a line each.
    Rows,
    /// The remainder of the square of its index.
    Squares,
    /// Pseudorandom bytes.
    Noise,
    /// Bytes of 0.
    Zeros,
}

/// Appends the digits of a number, and the end of a line.
fn push_line(out: &mut Vec<u8>, number: usize) -> Result<(), AllocError> {
    out.extend_from_slice(b"row ")?;
    let mut divisor = 1;
    while number / divisor >= 10 {
        divisor *= 10;
    }
    while divisor > 0 {
        out.push((number / divisor % 10) as u8 + 48)?;
        divisor /= 10;
    }
    out.push(10)?;
    Ok(())
}

/// Returns a content of this length.
pub fn content(alloc: Global, kind: Kind, length: usize) -> Result<Vec<u8>, AllocError> {
    let mut out = Vec::new(alloc);
    let mut state = 1u32;
    for i in 0..length {
        match kind {
            Kind::Rows => {
                if out.len() < length {
                    push_line(&mut out, i)?;
                }
            }
            Kind::Squares => out.push((i * i % 251) as u8)?,
            Kind::Noise => {
                state = state.wrapping_mul(1_103_515_245).wrapping_add(12_345);
                out.push((state / 65_536 % 256) as u8)?;
            }
            Kind::Zeros => out.push(0)?,
        }
    }
    out.truncate(length);
    Ok(out)
}
