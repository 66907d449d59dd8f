//! Bitmaps: validity bitmaps and the values of boolean arrays.

mod bits;
pub mod immutable;
pub mod iterator;
pub mod mutable;

pub use immutable::Bitmap;
pub use iterator::BitmapIter;
pub use mutable::MutableBitmap;
