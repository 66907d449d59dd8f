//! The happy path of each type, its errors, and what a rejected allocation leaves.
mod bitmaps;
mod growing;
mod offsets;
mod zeroed;

use nest_memory::buffer::Buffer;
use nest_memory::error::Error;
use std::alloc::{AllocError, Global};
use std::process::Abort;

/// The result of a call, or `None` where an allocation failed; nothing else may be.
fn unless_without_memory<T>(rt: &impl Abort, outcome: Result<T, Error>) -> Option<T> {
    match outcome {
        Ok(value) => Some(value),
        Err(error) => {
            assert!(rt; error == Error::Memory(AllocError));
            None
        }
    }
}

fn buffer_of(alloc: Global, items: &[u16]) -> Result<Buffer<u16>, Error> {
    Buffer::from_vec(alloc, Vec::from_slice(alloc, items)?)
}

/// Each call once with memory.
#[test]
fn buffers(rt: HostRuntime) {
    let none = Buffer::<u16>::new(rt.alloc()).expect(&rt, "no item");
    assert!(rt; none.is_empty());
    let whole = buffer_of(rt.alloc(), &[5, 6, 7, 8]).expect(&rt, "four items");
    assert!(rt; whole.len() == 4);
    assert!(rt; whole.get(3) == 8);
}

#[test]
fn slices_of_a_shared_buffer(rt: HostRuntime) {
    let whole = buffer_of(rt.alloc(), &[5, 6, 7, 8]).expect(&rt, "four items");
    let mut copy = whole.clone().expect(&rt, "a second owner");
    assert!(rt; whole.len() == 4);
    let cut = whole.sliced(1, 2);
    assert!(rt; cut.as_slice() == [6, 7].as_slice());
    assert!(rt; copy.as_slice() == [5, 6, 7, 8].as_slice());
    copy.slice(1, 3);
    copy.slice(1, 2);
    assert!(rt; copy.as_slice() == [7, 8].as_slice());
}

// Passes whichever allocation fails.
#[test]
fn buffers_without_memory(rt: HostRuntime) {
    if let Some(none) = unless_without_memory(&rt, Buffer::<u8>::new(rt.alloc())) {
        assert!(rt; none.is_empty());
    }
    if let Some(some) = unless_without_memory(&rt, buffer_of(rt.alloc(), &[1, 2])) {
        assert!(rt; some.len() == 2);
    }
}
