//! The fill of an array without values.

/// The slots of an array without values.
#[derive(Clone, Copy)]
pub enum Fill {
    /// Null slots. A dictionary has one null value.
    Nulls,
    /// No slots. A dictionary has no values.
    Nothing,
}
