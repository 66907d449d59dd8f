//! The native types of values and offsets, the types of floats, and data types parsed from text.
pub use nest_memory::datatypes::floats::{Precision, float_type, is_float, precision_of};
pub use nest_memory::offset::Offset;
pub use nest_memory::types::{NativeType, days_ms, i256, months_days_ns};
pub use type_text::{ParseTypeError, parse_type};
