//! Arrays from buffers, offsets and validity bitmaps, and null arrays of any type.
pub mod flat;
pub mod nested;
pub mod parts;
pub mod refused;
pub mod tagged;
pub mod types;
