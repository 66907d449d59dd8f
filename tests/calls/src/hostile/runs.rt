//! How a run of calls is made where any one allocation fails: a call that finds none changes no level and is
//! made again; a freeze that finds none leaves nothing, and the run begins again.
use nest_build::array::MutableArray;
use nest_flat::plain::AsPlain;
use nest_memory::error::{ArgumentError, Error};
use nest_memory::offsets::Offsets;
use std::alloc::{AllocError, Global};
use std::process::Abort;
use std::test::Fail;

pub(crate) const MEMORY: Error = Error::Memory(AllocError);

pub(crate) const UNFINISHED: Error = Error::InvalidArgumentError(ArgumentError::Incomplete);

/// Calls on a builder, one after another.
pub(crate) trait Calls {
    /// How many calls there are.
    fn count(&self) -> usize;

    /// Makes call k.
    fn call(&mut self, alloc: Global, k: usize) -> Result<(), Error>;

    /// Whether each level is as the first k calls leave it.
    fn is_after(&mut self, k: usize) -> bool;

    /// Freezes what the calls made, and says whether it is the array of the plain list; it is dropped.
    fn is_frozen(&mut self) -> Result<bool, Error>;
}

/// Makes each call in turn, again where it found no memory. How often that was.
fn make_each<C: Calls>(rt: &impl Abort, alloc: Global, calls: &mut C) -> usize {
    let mut refused = 0usize;
    for k in 0..calls.count() {
        if let Err(error) = calls.call(alloc, k) {
            assert!(rt; error == MEMORY);
            assert!(rt; calls.is_after(k));
            assert!(rt; calls.call(alloc, k) == Ok(()));
            refused = refused.saturating_add(1);
        }
        assert!(rt; calls.is_after(k.saturating_add(1)));
    }
    refused
}

/// Makes the calls, freezes what they made, and says how many of all these found no memory.
fn refusals<C: Calls>(rt: &impl Abort, alloc: Global, calls: &mut C) -> usize {
    assert!(rt; calls.is_after(0));
    let refused = make_each(rt, alloc, calls);
    let frozen = calls.is_frozen();
    assert!(rt; calls.is_after(0));
    if frozen == Ok(true) {
        return refused;
    }
    assert!(rt; frozen == Err(MEMORY));
    assert!(rt; make_each(rt, alloc, calls) == 0);
    assert!(rt; calls.is_frozen() == Ok(true));
    refused.saturating_add(1)
}

/// How often a run found no memory, its builder among it.
pub(crate) fn errors_of<C: Calls + Drop>(
    rt: &impl Abort,
    alloc: Global,
    made: Result<C, Error>,
) -> usize {
    match made {
        Ok(mut calls) => {
            let refused = refusals(rt, alloc, &mut calls);
            drop(calls);
            refused
        }
        Err(error) => {
            assert!(rt; error == MEMORY);
            1
        }
    }
}

/// Whether something holds, unless an allocation failed for it.
pub(crate) fn holds(outcome: Result<bool, Error>) -> bool {
    outcome == Ok(true) || outcome == Err(MEMORY)
}

/// Says that an allocation failed, where one is.
pub(crate) fn push_rejected(rt: &HostRuntime, refused: bool) -> Result<(), Fail> {
    if refused {
        println!(rt; "refused")?;
    }
    Ok(())
}

/// Whether a builder has just these rows, as far as each is null.
pub(crate) fn has_bits<B: MutableArray>(builder: &B, bits: &[bool]) -> bool {
    if builder.len() != bits.len() {
        return false;
    }
    for i in 0..builder.len() {
        if builder.is_valid(i) != bits[i] {
            return false;
        }
    }
    true
}

/// Whether a builder of values has just these rows, `None` a null.
pub(crate) fn has_values<B: MutableArray, T: AsPlain>(builder: &B, rows: &[Option<T>]) -> bool {
    if builder.len() != rows.len() {
        return false;
    }
    for i in 0..builder.len() {
        let same = match &rows[i] {
            Some(value) => builder.holds(i, &value.as_plain()),
            None => !builder.is_valid(i),
        };
        if !same {
            return false;
        }
    }
    true
}

/// Whether the rows end there, one after another.
pub(crate) fn has_ends(offsets: &Offsets<i32>, ends: &[usize]) -> bool {
    if offsets.len_proxy() != ends.len() {
        return false;
    }
    for i in 0..offsets.len_proxy() {
        if offsets.start_end(i).1 != ends[i] {
            return false;
        }
    }
    true
}
