//! Strings as offsets and bytes, and plain loops over them: what arrays of strings are measured beside.
use std::alloc::{AllocError, Global};

const TEXT: [u8; 8] = *b"nineteen";

/// Where strings begin and end, and their bytes.
#[derive(Drop)]
pub struct RawTexts {
    offsets: Vec<u32>,
    bytes: Vec<u8>,
}

/// n strings of eight bytes.
pub fn raw_texts(alloc: Global, n: usize) -> Result<RawTexts, AllocError> {
    let mut texts = RawTexts::with_capacity(alloc, n)?;
    for _ in 0..n {
        texts.push(&TEXT)?;
    }
    Ok(texts)
}

/// The strings at some indices, by a plain loop.
pub fn plain_take(
    alloc: Global,
    texts: &RawTexts,
    places: &[usize],
) -> Result<RawTexts, AllocError> {
    let mut taken = RawTexts::with_capacity(alloc, places.len())?;
    for place in places {
        taken.push(texts.text(*place))?;
    }
    Ok(taken)
}

/// The strings where a boolean is true, by a plain loop.
pub fn plain_filter(
    alloc: Global,
    texts: &RawTexts,
    chosen: &[bool],
) -> Result<RawTexts, AllocError> {
    let mut taken = RawTexts::with_capacity(alloc, 0)?;
    for (i, is_chosen) in chosen.iter().enumerate() {
        if *is_chosen {
            taken.push(texts.text(i))?;
        }
    }
    Ok(taken)
}

impl RawTexts {
    /// No text, with room for the offsets of n.
    fn with_capacity(alloc: Global, n: usize) -> Result<RawTexts, AllocError> {
        let mut offsets = Vec::with_capacity(alloc, n.saturating_add(1))?;
        offsets.push(0)?;
        Ok(RawTexts {
            offsets,
            bytes: Vec::new(alloc),
        })
    }

    /// How many strings there are.
    pub fn len(&self) -> usize {
        self.offsets.len().saturating_sub(1)
    }

    /// Text i, no byte where there is none.
    fn text(&self, i: usize) -> &[u8] {
        let start = self.offsets.get(i).map_or(0, |start| *start as usize);
        let end = self
            .offsets
            .get(i.wrapping_add(1))
            .map_or(0, |end| *end as usize);
        self.bytes.get(start..end).unwrap_or(&[])
    }

    /// Adds a text.
    fn push(&mut self, text: &[u8]) -> Result<(), AllocError> {
        self.bytes.extend_from_slice(text)?;
        self.offsets
            .push((self.bytes.len() % 4_294_967_296) as u32)?;
        Ok(())
    }
}
