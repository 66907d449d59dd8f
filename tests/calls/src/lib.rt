//! Tests of the core libraries: each public function as its callers see it, a module for each library. `hostile` has the tests in which
//! an allocation fails, of the largest sizes, and of invalid arguments.
#![tactic(auto)]

mod any;
mod array;
mod build;
mod columns;
mod concat;
mod flat;
mod hostile;
mod listcut;
mod memory;
mod scan;
mod show;
mod take;
