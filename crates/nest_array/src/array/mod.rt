//! The methods of every array: arrow2's trait `Array`.
mod flat;
mod nested;
mod primitive;

ghost use Rattle.std.specs.Prelude.{◌≡◌, ◌+◌, ◌≤◌, ◌<◌, ◌↔◌, ◌⊎◌, false, IsTrue, IfOk, IsOkUnless, MatchResult, not, option_map, alloc_error};
ghost use Rattle.nest_model.specs.Checks.{Pass};
ghost use Rattle.nest_model.specs.Fits.{validity_checks};
ghost use Rattle.nest_model.specs.Slot as slots;
ghost use Rattle.nest_array.specs.Words.{IsSlice, Layout, Memory, ValidityError, sublist, slice_layout, has_keys, is_null_at, layout_of, layout_type, len, null_count, slot, type_of, validity_of, with_validity};

use crate::any::AnyArray;
use nest_memory::bitmap::immutable::Bitmap;
use nest_memory::datatypes::DataType;
use nest_memory::error::Error;
use std::alloc::Global;

/// An array of any kind.
///
/// Each kind implements it by `ArrayParts` and `ArrayVariant`, which callers need not name.
pub trait Array {
    /// The layout of the array, with its slices applied.
    ghost layout: { Self → Layout };

    /// Returns the number of slots.
    fn len(&self) -> usize
        ensures { result ≡ len (layout self.now) };

    /// Returns whether the array has no slots.
    fn is_empty(&self) -> bool
        ensures { IsTrue result ↔ (len (layout self.now) ≡ 0) };

    /// Returns the data type.
    fn data_type(&self) -> &DataType
        ensures { type_of result.now ≡ layout_type (layout self.now) };

    /// Returns the validity bitmap, one bit per slot.
    ///
    /// Null and union arrays have none. Any other array without one has no null slots, or no null keys.
    fn validity(&self) -> Option<&Bitmap>
        ensures { option_map (λ b. b.now) result ≡ validity_of (layout self.now) };

    /// Returns whether slot `i` is null; for a dictionary array, whether key `i` is null.
    fn is_null(&self, i: usize) -> bool
        requires { i < len (layout self.now) }
        ensures slot { has_keys (layout self.now) ≡ false → (IsTrue result ↔ (slot (layout self.now) i ≡ slots.null)) }
        ensures place { result ≡ is_null_at (layout self.now) i };

    /// Returns the negation of `is_null`.
    fn is_valid(&self, i: usize) -> bool
        requires { i < len (layout self.now) }
        ensures { result ≡ not (is_null_at (layout self.now) i) };

    /// Returns the number of slots for which `is_null` is true.
    fn null_count(&self) -> usize
        ensures { result ≡ null_count (layout self.now) };

    /// Slices the array in place to the `n` slots from index `o`, without allocation.
    fn slice(&mut self, o: usize, n: usize)
        requires { o + n ≤ len (layout self.old) }
        ensures { IsSlice (layout self.old) o n (layout self.new) };

    /// Returns a copy in the variant of its kind, which shares the buffers.
    ///
    /// # Errors
    /// `Memory` where an allocation fails.
    fn to_boxed(&self, alloc: Global) -> Result<AnyArray, Error>
        ensures ok { IfOk result (λ a. layout_of a ≡ layout self.now) }
        ensures err { IsOkUnless result (Memory alloc_error) };

    /// Returns a copy of the slice of `n` slots from index `o`, which shares the buffers.
    ///
    /// # Errors
    /// `Memory` where an allocation fails.
    fn sliced(&self, alloc: Global, o: usize, n: usize) -> Result<AnyArray, Error>
        requires { o + n ≤ len (layout self.now) }
        ensures slice { IfOk result (λ a. IsSlice (layout self.now) o n (layout_of a)) }
        ensures err { IsOkUnless result (Memory alloc_error) };

    /// Returns a copy with another validity, which shares the buffers.
    ///
    /// # Errors
    /// - `NoValidity`: the array is a null or union array;
    /// - `ValidityLength`: the validity has another length;
    /// - `KeyRange`: a key that is valid under it is not an index of the values;
    /// - `Memory`: an allocation fails.
    fn with_validity(&self, alloc: Global, validity: Option<Bitmap>) -> Result<AnyArray, Error>
        ensures { let a = layout self.now in MatchResult result
            (λ b. Pass (validity_checks a validity) × (layout_of b ≡ with_validity a validity))
            (λ e. ValidityError e a validity ⊎ (e ≡ Memory alloc_error)) };
}

/// The part of `Array` that each kind of array implements: its accessors and its copy.
pub trait ArrayParts {
    ghost parts: { Self → Layout };

    fn len(&self) -> usize
        ensures { result ≡ len (parts self.now) };

    fn data_type(&self) -> &DataType
        ensures { type_of result.now ≡ layout_type (parts self.now) };

    fn validity(&self) -> Option<&Bitmap>
        ensures { option_map (λ b. b.now) result ≡ validity_of (parts self.now) };

    fn is_null(&self, i: usize) -> bool
        requires { i < len (parts self.now) }
        ensures slot { has_keys (parts self.now) ≡ false → (IsTrue result ↔ (slot (parts self.now) i ≡ slots.null)) }
        ensures place { result ≡ is_null_at (parts self.now) i };

    fn null_count(&self) -> usize
        ensures { result ≡ null_count (parts self.now) };

    fn slice(&mut self, o: usize, n: usize)
        requires { o + n ≤ len (parts self.old) }
        ensures { parts self.new ≡ slice_layout (parts self.old) o n };

    fn again(&self, alloc: Global) -> Result<Self, Error>
        ensures ok { IfOk result (λ a. parts a ≡ parts self.now) }
        ensures err { IsOkUnless result (Memory alloc_error) };

    /// Returns a copy of the slice of `n` slots from index `o`, which shares the buffers.
    fn part(&self, alloc: Global, o: usize, n: usize) -> Result<Self, Error>
        requires { o + n ≤ len (parts self.now) }
        ensures ok { IfOk result (λ a. parts a ≡ slice_layout (parts self.now) o n) }
        ensures err { IsOkUnless result (Memory alloc_error) }
    {
        let mut part = self.again(alloc)?;
        part.slice(o, n);
        Ok(part)
    }
}

/// A kind of array that is a variant of `AnyArray`.
pub trait ArrayVariant: ArrayParts {
    /// Returns the array in its variant.
    fn into_any(self) -> AnyArray
        ensures { layout_of result ≡ Self.parts self };
}

impl<A: ArrayVariant> Array for A {
    ghost layout = { A.parts };

    fn len(&self) -> usize {
        ArrayParts::len(self)
    }

    fn is_empty(&self) -> bool {
        ArrayParts::len(self) == 0
    }

    fn data_type(&self) -> &DataType {
        ArrayParts::data_type(self)
    }

    fn validity(&self) -> Option<&Bitmap> {
        ArrayParts::validity(self)
    }

    fn is_null(&self, i: usize) -> bool {
        ArrayParts::is_null(self, i)
    }

    fn is_valid(&self, i: usize) -> bool {
        !ArrayParts::is_null(self, i)
    }

    fn null_count(&self) -> usize {
        ArrayParts::null_count(self)
    }

    fn slice(&mut self, o: usize, n: usize) {
        ArrayParts::slice(self, o, n)
    }

    #[inline(never)]
    fn to_boxed(&self, alloc: Global) -> Result<AnyArray, Error> {
        Ok(self.again(alloc)?.into_any())
    }

    #[inline(never)]
    fn sliced(&self, alloc: Global, o: usize, n: usize) -> Result<AnyArray, Error> {
        Ok(self.part(alloc, o, n)?.into_any())
    }

    fn with_validity(&self, alloc: Global, validity: Option<Bitmap>) -> Result<AnyArray, Error> {
        let mut array = match Array::to_boxed(self, alloc) {
            Ok(array) => array,
            Err(error) => {
                drop(validity);
                return Err(error);
            }
        };
        match array.set_validity(validity) {
            Ok(()) => Ok(array),
            Err(error) => {
                drop(array);
                Err(error)
            }
        }
    }
}

impl ArrayParts for AnyArray {
    ghost parts = { layout_of };

    fn len(&self) -> usize {
        AnyArray::len(self)
    }

    fn data_type(&self) -> &DataType {
        AnyArray::data_type(self)
    }

    fn validity(&self) -> Option<&Bitmap> {
        AnyArray::validity(self)
    }

    fn is_null(&self, i: usize) -> bool {
        AnyArray::is_null(self, i)
    }

    fn null_count(&self) -> usize {
        AnyArray::null_count(self)
    }

    fn slice(&mut self, o: usize, n: usize) {
        self.cut(o, n)
    }

    fn again(&self, alloc: Global) -> Result<AnyArray, Error> {
        self.clone(alloc)
    }

    fn part(&self, alloc: Global, o: usize, n: usize) -> Result<AnyArray, Error> {
        AnyArray::part(self, alloc, o, n)
    }
}

impl ArrayVariant for AnyArray {
    fn into_any(self) -> AnyArray {
        self
    }
}
