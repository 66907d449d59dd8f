//! The borrowed value of one slot of a flat array.
ghost use Rattle.std.specs.Prelude.{◌≡◌};
ghost use Rattle.nest_flat.specs.Words.{PlainValue, plain_value};

use crate::any_native::AnyNative;
use crate::any_primitive::Native;

/// A boolean, a native value, a string or bytes.
///
/// Two are equal if they are of one kind and have the same value: `"a"` is not `b"a"`, and `5_i8` is not `5_i16`.
#[derive(Clone, Copy, Debug, PartialEq, Eq, Hash)]
pub enum Plain<'a> {
    Boolean(bool),
    Native(AnyNative),
    Text(&'a str),
    Bytes(&'a [u8]),
}

/// A type whose values a flat array can hold: a boolean, a native type, a string or bytes.
pub trait AsPlain {
    /// The plain value that it represents.
    ghost value: { Self → PlainValue };

    /// Returns the value as a [`Plain`].
    fn as_plain(&self) -> Plain<'_>
        ensures { plain_value result ≡ value self.now };
}

impl<T: Native> AsPlain for T {
    ghost use Rattle.nest_model.specs.BuilderItem as items;

    ghost value = { λ x. items.native T.PRIMITIVE (T.numbers x) };

    fn as_plain(&self) -> Plain<'_> {
        Plain::Native(self.to_any())
    }
}

impl AsPlain for bool {
    ghost use Rattle.nest_model.specs.BuilderItem as items;

    ghost value = { items.boolean };

    fn as_plain(&self) -> Plain<'_> {
        Plain::Boolean(*self)
    }
}

impl<'a> AsPlain for &'a str {
    ghost use Rattle.nest_model.specs.BuilderItem as items;

    ghost value = { λ text. items.utf8 text.now };

    fn as_plain(&self) -> Plain<'_> {
        Plain::Text(*self)
    }
}

impl<'a> AsPlain for &'a [u8] {
    ghost use Rattle.nest_model.specs.BuilderItem as items;

    ghost value = { λ bytes. items.bytes bytes.now };

    fn as_plain(&self) -> Plain<'_> {
        Plain::Bytes(*self)
    }
}
