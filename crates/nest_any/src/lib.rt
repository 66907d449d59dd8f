//! Builders of any kind as one enum, and struct builders over them.
//!
//! A statement whose value is never read (`let _len = ..`, `x.known()`) shows the prover a fact that the next step
//! needs. It does nothing at run time.
#![tactic(auto)]

pub mod any;
mod children;
pub mod dictionary;
pub mod flat;
pub mod lists;
mod rows;
pub mod struct_;
mod struct_type;

pub use any::AnyMutableArray;
pub use dictionary::AnyMutableDictionary;
pub use flat::AnyMutableFlat;
pub use lists::ListBuilder;
pub use struct_::MutableStructArray;
