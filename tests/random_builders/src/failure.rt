//! Why a test failed.

use nest_memory::error::Error;
use std::alloc::{AllocError, AllocFailed};

/// Why a test failed.
#[derive(Clone, Copy, Debug, PartialEq, Eq)]
pub enum Failure {
    /// Two values that should be equal differ; the text says which.
    Mismatch(&'static str),
    /// A call returned an error that it should not return.
    Error(Error),
}

impl From<Error> for Failure {
    fn from(error: Error) -> Failure {
        Failure::Error(error)
    }
}

impl From<AllocError> for Failure {
    fn from(error: AllocError) -> Failure {
        Failure::Error(Error::Memory(error))
    }
}

impl<T: Drop> From<AllocFailed<T>> for Failure {
    fn from(_error: AllocFailed<T>) -> Failure {
        Failure::Error(Error::Memory(AllocError))
    }
}

/// Returns `Mismatch(what)` unless the condition holds.
pub fn expect(holds: bool, what: &'static str) -> Result<(), Failure> {
    if holds {
        Ok(())
    } else {
        Err(Failure::Mismatch(what))
    }
}
