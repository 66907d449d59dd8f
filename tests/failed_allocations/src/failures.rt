//! Calls, at most one of them `Memory`.

use nest_memory::error::Error;

/// Why a test failed.
#[derive(Clone, Copy, Debug, PartialEq, Eq)]
pub enum Failure {
    /// Two values that should be equal differ; the text says which.
    Mismatch(&'static str),
    /// A call returned an error that it should not return.
    Error(Error),
}

impl From<Error> for Failure {
    fn from(error: Error) -> Failure {
        Failure::Error(error)
    }
}

/// Returns `Mismatch(what)` unless the condition holds.
pub fn expect(holds: bool, what: &'static str) -> Result<(), Failure> {
    if holds {
        Ok(())
    } else {
        Err(Failure::Mismatch(what))
    }
}

/// How many calls of a scenario returned `Memory`.
#[derive(Clone, Copy, Debug)]
pub struct Failures {
    count: usize,
}

impl Failures {
    pub fn new() -> Failures {
        Failures { count: 0 }
    }

    /// Counts a call that returned `Memory`. A second one is a mismatch.
    pub fn count_failure(&mut self) -> Result<(), Failure> {
        self.count += 1;
        expect(self.count == 1, "a second call without memory")
    }

    /// Whether a call returned `Memory`. Any other error, and a second `Memory`, is a failure of the test.
    pub fn is_failure<T>(&mut self, outcome: &Result<T, Error>) -> Result<bool, Failure> {
        match outcome {
            Ok(_) => Ok(false),
            Err(Error::Memory(_)) => {
                self.count_failure()?;
                Ok(true)
            }
            Err(error) => Err(Failure::Error(*error)),
        }
    }

    /// Returns the result of a call that changes nothing. If it returned `Memory`, it is made again.
    pub fn retry<T: Drop, F: Fn() -> Result<T, Error>>(&mut self, call: F) -> Result<T, Failure> {
        let outcome = call();
        if self.is_failure(&outcome)? {
            return Ok(call()?);
        }
        Ok(outcome?)
    }
}
