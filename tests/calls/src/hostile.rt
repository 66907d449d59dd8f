//! Tests of the libraries under adversarial use: where an allocation fails, at the longest and largest parts, and
//! by callers that ask for what is rejected. The tests of the first part hold whichever one allocation fails, those for
//! their own values among them, as `rt try --test --fail-alloc N` does; `tests/failed_allocations` rejects each in turn.
//!
//! An iterator whose size hint is cannot be written: a hint's contract keeps the count between its bounds.

mod arrays;
mod dictionaries;
mod extremes;
mod iterators;
mod records;
mod rows;
mod runs;
mod steps;
