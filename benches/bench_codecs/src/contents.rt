//! Small contents: text, numbers, and bytes that no codec shortens.
use std::alloc::{AllocError, Global};

/// Returns lines of text, at least so many bytes.
pub fn rows(alloc: Global, length: usize) -> Result<Vec<u8>, AllocError> {
    let mut out = Vec::new(alloc);
    for i in 0..=length / 6 {
        out.extend_from_slice(b"row ")?;
        out.push((i % 10) as u8 + 48)?;
        out.push(10)?;
    }
    Ok(out)
}

/// Returns numbers of eight bytes, each three more than the one before it.
pub fn numbers(alloc: Global, length: usize) -> Result<Vec<u8>, AllocError> {
    let mut out = Vec::new(alloc);
    for i in 0..length / 8 {
        out.extend_from_slice(&(3 * i as u64).to_le_bytes())?;
    }
    Ok(out)
}

/// Returns pseudorandom bytes.
pub fn noise(alloc: Global, length: usize) -> Result<Vec<u8>, AllocError> {
    let mut out = Vec::new(alloc);
    let mut state = 1u32;
    for _ in 0..length {
        state = state.wrapping_mul(1_103_515_245).wrapping_add(12_345);
        out.push((state / 65_536 % 256) as u8)?;
    }
    Ok(out)
}
