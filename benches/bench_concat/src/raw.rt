//! Numbers, strings and lists in plain vectors, and the loops by which a program joins them: what arrays are measured beside.
use std::alloc::{AllocError, Global};

/// How many items each row has.
const ITEMS: usize = 8;

/// Rows of items: where each begins and ends, and the items.
#[derive(Drop)]
pub struct Rows<T> {
    offsets: Vec<u32>,
    items: Vec<T>,
}

/// Some vectors of n items each.
pub fn vectors<T: Copy>(
    alloc: Global,
    count: usize,
    n: usize,
    item: T,
) -> Result<Vec<Vec<T>>, AllocError> {
    let mut all = Vec::new(alloc);
    for _ in 0..count {
        all.push(repeated(alloc, n, item)?)?;
    }
    Ok(all)
}

/// One after another.
pub fn join_vectors<T: Copy>(alloc: Global, all: &[Vec<T>]) -> Result<Vec<T>, AllocError> {
    let mut count = 0usize;
    for values in all {
        count = count.saturating_add(values.len());
    }
    let mut joined = Vec::with_capacity(alloc, count)?;
    for values in all {
        joined.extend_from_slice(values)?;
    }
    Ok(joined)
}

/// Some vectors of n rows of eight items each.
pub fn made_rows<T: Copy>(
    alloc: Global,
    count: usize,
    n: usize,
    item: T,
) -> Result<Vec<Rows<T>>, AllocError> {
    let mut all = Vec::new(alloc);
    for _ in 0..count {
        all.push(Rows::of(alloc, n, item)?)?;
    }
    Ok(all)
}

/// One after another.
pub fn join_rows<T: Copy>(alloc: Global, all: &[Rows<T>]) -> Result<Rows<T>, AllocError> {
    let mut rows = 0usize;
    let mut items = 0usize;
    for part in all {
        rows = rows.saturating_add(part.len());
        items = items.saturating_add(part.items.len());
    }
    let mut joined = Rows {
        offsets: Vec::with_capacity(alloc, rows.saturating_add(1))?,
        items: Vec::with_capacity(alloc, items)?,
    };
    joined.offsets.push(0)?;
    for part in all {
        joined.append(part)?;
    }
    Ok(joined)
}

fn repeated<T: Copy>(alloc: Global, n: usize, item: T) -> Result<Vec<T>, AllocError> {
    let mut items = Vec::with_capacity(alloc, n)?;
    for _ in 0..n {
        items.push(item)?;
    }
    Ok(items)
}

impl<T: Copy> Rows<T> {
    fn of(alloc: Global, n: usize, item: T) -> Result<Rows<T>, AllocError> {
        let mut offsets = Vec::with_capacity(alloc, n.saturating_add(1))?;
        for i in 0..n.saturating_add(1) {
            offsets.push((i.wrapping_mul(ITEMS) % 4_294_967_296) as u32)?;
        }
        let items = repeated(alloc, n.saturating_mul(ITEMS), item)?;
        Ok(Rows { offsets, items })
    }

    /// How many rows there are.
    pub fn len(&self) -> usize {
        self.offsets.len().saturating_sub(1)
    }

    fn append(&mut self, part: &Rows<T>) -> Result<(), AllocError> {
        let start = (self.items.len() % 4_294_967_296) as u32;
        for offset in part.offsets.iter().skip(1) {
            self.offsets.push(start.wrapping_add(*offset))?;
        }
        self.items.extend_from_slice(&part.items)
    }
}
