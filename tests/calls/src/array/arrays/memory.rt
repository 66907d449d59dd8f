//! The test passes whichever allocation fails: the error is returned, and leaves its array.
use super::lists_of_lists;
use nest_memory::error::Error;
use std::alloc::AllocError;
use std::process::Abort;

/// The result of a call, or `None` where an allocation failed; nothing else may be.
pub(crate) fn unless_without_memory<T>(rt: &impl Abort, outcome: Result<T, Error>) -> Option<T> {
    match outcome {
        Ok(value) => Some(value),
        Err(error) => {
            assert!(rt; error == Error::Memory(AllocError));
            None
        }
    }
}

#[test]
fn without_memory(rt: HostRuntime) {
    let Some(array) = unless_without_memory(&rt, lists_of_lists(rt.alloc())) else {
        return;
    };
    if let Some(copy) = unless_without_memory(&rt, array.clone(rt.alloc())) {
        assert!(rt; copy == array);
    }
    assert!(rt; array.len() == 3);
    if let Some(items) = unless_without_memory(&rt, array.value(rt.alloc(), 1)) {
        assert!(rt; items.len() == 3);
    }
    assert!(rt; array.len() == 3);
    assert!(rt; array.offsets().as_slice() == [0, 2, 5, 6].as_slice());
    assert!(rt; array.values().len() == 6);
}
