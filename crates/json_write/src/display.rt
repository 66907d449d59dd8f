//! `Display` of values as JSON, without allocation.
ghost use Rattle.std.specs.Prelude.{◌≡◌};

use crate::traits::WriteJson;
use std::fmt;

/// Wrapper that displays an array, a window or a scalar as JSON.
#[derive(Drop)]
pub struct Json<'a, T> {
    value: &'a T,
}

impl<'a, T: WriteJson> Json<'a, T> {
    /// Wraps a value: an array or a window is displayed as the list of its slots, a scalar as its slot.
    pub fn of(value: &'a T) -> Json<'a, T>
        ensures { result.value.now ≡ value.now }
    {
        Json { value }
    }
}

impl<T: WriteJson> fmt::Display for Json<'_, T> {
    ghost use Rattle.std.specs.Prelude.{Some};

    ghost output = { λ j. Some (T.json j.value.now) };

    fn fmt<W: fmt::Write>(&self, f: &mut fmt::Formatter<W>) -> fmt::Result {
        self.value.write_json(f)
    }
}
