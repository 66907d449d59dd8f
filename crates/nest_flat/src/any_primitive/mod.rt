//! Primitive arrays of any native type.
mod equality;
pub mod mutable;
mod native;
mod nulls;

ghost use Rattle.std.specs.Prelude.{◌≡◌, ◌+◌, ◌≤◌, ◌<◌, ◌↔◌, IsTrue, IfOk, IsErrOf, IsOkUnless, MatchResult, option_map, alloc_error};
ghost use Rattle.nest_memory.specs.declared.datatypes.physical_type.PhysicalType.TheVariants as physical;
ghost use Rattle.nest_model.specs.Layout as layouts;
ghost use Rattle.nest_model.specs.Slot as slots;
ghost use Rattle.nest_flat.specs.Words.{IsSlice, Memory, ReplacesValidity, TopFits, ValidityError, slice_layout, is_null_at, layout_type, len, native_kind, native_numbers, natives_of, null_count, physical_type, primitive_kind, primitive_layout, slot, type_of, validity_of, where_valid};

use crate::any_native::AnyNative;
use crate::primitive::PrimitiveArray;
pub use equality::same_run;
pub use native::{Native, NativeArray};
use nest_memory::bitmap::immutable::Bitmap;
use nest_memory::datatypes::DataType;
use nest_memory::error::Error;
use nest_memory::types::{NativeType, days_ms, i256, months_days_ns};
use std::alloc::Global;

/// A primitive array: one variant for each native type.
#[derive(Drop)]
pub enum AnyPrimitive {
    Int8(PrimitiveArray<i8>),
    Int16(PrimitiveArray<i16>),
    Int32(PrimitiveArray<i32>),
    Int64(PrimitiveArray<i64>),
    Int128(PrimitiveArray<i128>),
    Int256(PrimitiveArray<i256>),
    UInt8(PrimitiveArray<u8>),
    UInt16(PrimitiveArray<u16>),
    UInt32(PrimitiveArray<u32>),
    UInt64(PrimitiveArray<u64>),
    DaysMs(PrimitiveArray<days_ms>),
    MonthDayNano(PrimitiveArray<months_days_ns>),
}

// Matches the kind and evaluates an expression with the typed array.
macro_rules! each_kind {
    ($any:expr, $array:ident => $body:expr) => {
        match $any {
            AnyPrimitive::Int8($array) => $body,
            AnyPrimitive::Int16($array) => $body,
            AnyPrimitive::Int32($array) => $body,
            AnyPrimitive::Int64($array) => $body,
            AnyPrimitive::Int128($array) => $body,
            AnyPrimitive::Int256($array) => $body,
            AnyPrimitive::UInt8($array) => $body,
            AnyPrimitive::UInt16($array) => $body,
            AnyPrimitive::UInt32($array) => $body,
            AnyPrimitive::UInt64($array) => $body,
            AnyPrimitive::DaysMs($array) => $body,
            AnyPrimitive::MonthDayNano($array) => $body,
        }
    };
}

// States the invariant of a typed array in terms of its kind. Does nothing at run time.
fn known<T: NativeType>(array: &PrimitiveArray<T>)
    ensures fits { TopFits array.now }
    ensures kind { physical_type (layout_type array.now) ≡ physical.Primitive T.PRIMITIVE }
    ensures parts { array.now ≡ layouts.primitive T.PRIMITIVE (layout_type array.now) (natives_of array.now) (validity_of array.now) }
{
    array.known();
}

// Wraps a typed array in its variant; an error is returned unchanged.
fn wrapped<T: NativeArray>(copy: Result<T::Array, Error>) -> Result<AnyPrimitive, Error>
    ensures { MatchResult copy
        (λ a. MatchResult result (λ b. primitive_layout b ≡ T.layout_of_array a) (λ _. ⊥))
        (λ e. IsErrOf result e) }
{
    match copy {
        Ok(array) => Ok(T::wrap(array)),
        Err(error) => Err(error),
    }
}

impl AnyPrimitive {
    /// States the invariant of the array. Does nothing at run time.
    pub fn known(&self)
        ensures fits { TopFits (primitive_layout self.now) }
        ensures kind { physical_type (layout_type (primitive_layout self.now)) ≡ physical.Primitive (primitive_kind self.now) }
        ensures parts { let a = primitive_layout self.now in a ≡ layouts.primitive (primitive_kind self.now) (layout_type a) (natives_of a) (validity_of a) }
    {
        each_kind!(self, array => known(array))
    }

    /// Returns the number of slots.
    pub fn len(&self) -> usize
        ensures { result ≡ len (primitive_layout self.now) }
    {
        each_kind!(self, array => array.len())
    }

    /// Returns the data type.
    pub fn data_type(&self) -> &DataType
        ensures { type_of result.now ≡ layout_type (primitive_layout self.now) }
    {
        each_kind!(self, array => array.data_type())
    }

    /// Returns the validity bitmap: one bit per slot, 1 if valid. `None` means that every slot is valid.
    pub fn validity(&self) -> Option<&Bitmap>
        ensures { option_map (λ b. b.now) result ≡ validity_of (primitive_layout self.now) }
    {
        each_kind!(self, array => array.validity())
    }

    /// Returns whether slot `i` is null.
    pub fn is_null(&self, i: usize) -> bool
        requires { i < len (primitive_layout self.now) }
        ensures slot { IsTrue result ↔ (slot (primitive_layout self.now) i ≡ slots.null) }
        ensures place { result ≡ is_null_at (primitive_layout self.now) i }
    {
        each_kind!(self, array => array.is_null(i))
    }

    /// Returns the number of null slots.
    pub fn null_count(&self) -> usize
        ensures { result ≡ null_count (primitive_layout self.now) }
    {
        each_kind!(self, array => array.null_count())
    }

    /// Returns the raw value of slot `i`; unspecified where the slot is null.
    pub fn value(&self, i: usize) -> AnyNative
        requires { i < len (primitive_layout self.now) }
        ensures kind { native_kind result ≡ primitive_kind self.now }
        ensures slot { slot (primitive_layout self.now) i ≡ where_valid (validity_of (primitive_layout self.now)) i (slots.number (native_numbers result)) }
    {
        each_kind!(self, array => array.value(i).to_any())
    }

    /// Slices the array in place to slots `o..o + n`.
    pub fn slice(&mut self, o: usize, n: usize)
        requires { o + n ≤ len (primitive_layout self.old) }
        ensures { IsSlice (primitive_layout self.old) o n (primitive_layout self.new) }
    {
        self.cut(o, n);
    }

    fn cut(&mut self, o: usize, n: usize)
        requires { o + n ≤ len (primitive_layout self.old) }
        ensures { primitive_layout self.new ≡ slice_layout (primitive_layout self.old) o n }
    {
        each_kind!(self, array => array.slice(o, n))
    }

    /// Replaces the validity.
    ///
    /// # Errors
    /// `ValidityLength` if it does not have one bit per slot; the array is unchanged then.
    pub fn set_validity(&mut self, validity: Option<Bitmap>) -> Result<(), Error>
        ensures { let a = primitive_layout self.old in let b = primitive_layout self.new in MatchResult result
            (λ _. ReplacesValidity a validity b) (λ e. ValidityError e a validity × (b ≡ a)) }
    {
        each_kind!(self, array => array.set_validity(validity))
    }

    /// Returns a copy that shares the buffers.
    ///
    /// # Errors
    /// `Memory` if an allocation fails.
    // Inlined, so that the caller writes the copy directly into its variant.
    #[inline(always)]
    pub fn clone(&self, alloc: Global) -> Result<AnyPrimitive, Error>
        ensures ok { IfOk result (λ a. primitive_layout a ≡ primitive_layout self.now) }
        ensures err { IsOkUnless result (Memory alloc_error) }
    {
        match self {
            AnyPrimitive::Int8(array) => wrapped::<i8>(array.clone(alloc)),
            AnyPrimitive::Int16(array) => wrapped::<i16>(array.clone(alloc)),
            AnyPrimitive::Int32(array) => wrapped::<i32>(array.clone(alloc)),
            AnyPrimitive::Int64(array) => wrapped::<i64>(array.clone(alloc)),
            AnyPrimitive::Int128(array) => wrapped::<i128>(array.clone(alloc)),
            AnyPrimitive::Int256(array) => wrapped::<i256>(array.clone(alloc)),
            AnyPrimitive::UInt8(array) => wrapped::<u8>(array.clone(alloc)),
            AnyPrimitive::UInt16(array) => wrapped::<u16>(array.clone(alloc)),
            AnyPrimitive::UInt32(array) => wrapped::<u32>(array.clone(alloc)),
            AnyPrimitive::UInt64(array) => wrapped::<u64>(array.clone(alloc)),
            AnyPrimitive::DaysMs(array) => wrapped::<days_ms>(array.clone(alloc)),
            AnyPrimitive::MonthDayNano(array) => wrapped::<months_days_ns>(array.clone(alloc)),
        }
    }
}
