//! Building blocks of the builders of flat arrays.
pub mod bits;
pub(crate) mod bytes;
pub(crate) mod extend;
pub mod validity;
