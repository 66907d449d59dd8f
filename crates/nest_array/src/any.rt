//! Arrays of any data type.
ghost use Rattle.std.specs.Prelude.{◌≡◌, ◌+◌, ◌≤◌, ◌<◌, ◌↔◌, false, IsTrue, IfOk, IsOkUnless, MatchOption, MatchResult, option_map, alloc_error};
ghost use Rattle.nest_memory.specs.declared.datatypes.physical_type.PhysicalType.TheVariants as physical;
ghost use Rattle.nest_model.specs.Checks.{Pass};
ghost use Rattle.nest_model.specs.Fits.{validity_checks};
ghost use Rattle.nest_model.specs.Slot as slots;
ghost use Rattle.nest_array.specs.Downcasts.{HasKind, IsDowncast};
ghost use Rattle.nest_array.specs.Words.{IsSlice, Memory, TopFits, ValidityError, slice_layout, has_keys, is_null_at, layout_of, layout_type, len, null_count, physical_type, slot, type_of, validity_of, with_validity};

use crate::array::Array;
use crate::dictionary::DictionaryArray;
use crate::equal::kinds::{as_large_utf8, as_primitive, as_utf8};
use crate::fixed_size_binary::FixedSizeBinaryArray;
use crate::fixed_size_list::FixedSizeListArray;
use crate::list::ListArray;
use crate::list::large::LargeListArray;
use crate::map::MapArray;
use crate::null::NullArray;
use crate::struct_::{StructArray, clone_all};
use crate::union::UnionArray;
use nest_flat::any_primitive::{AnyPrimitive, NativeArray};
use nest_flat::binary::BinaryArray;
use nest_flat::boolean::BooleanArray;
use nest_flat::utf8::Utf8Array;
use nest_memory::bitmap::immutable::Bitmap;
use nest_memory::datatypes::DataType;
use nest_memory::datatypes::physical_type::PhysicalType;
use nest_memory::error::{ArgumentError, Error};
use std::alloc::Global;

/// An array of any data type, in the variant of its physical type. It replaces arrow2's `Box<dyn Array>`.
#[cycle(array)]
#[derive(Drop)]
pub enum AnyArray {
    Null(NullArray),
    Boolean(BooleanArray),
    Primitive(AnyPrimitive),
    Binary(BinaryArray<i32>),
    LargeBinary(BinaryArray<i64>),
    Utf8(Utf8Array<i32>),
    LargeUtf8(Utf8Array<i64>),
    FixedSizeBinary(FixedSizeBinaryArray),
    FixedSizeList(FixedSizeListArray),
    List(ListArray),
    LargeList(LargeListArray),
    Struct(StructArray),
    Map(MapArray),
    Union(UnionArray),
    Dictionary(DictionaryArray),
}

// Evaluates the same expression for the array of any variant.
macro_rules! each_array {
    ($any:expr, $array:ident => $body:expr) => {
        match $any {
            AnyArray::Null($array) => $body,
            AnyArray::Boolean($array) => $body,
            AnyArray::Primitive($array) => $body,
            AnyArray::Binary($array) => $body,
            AnyArray::LargeBinary($array) => $body,
            AnyArray::Utf8($array) => $body,
            AnyArray::LargeUtf8($array) => $body,
            AnyArray::FixedSizeBinary($array) => $body,
            AnyArray::FixedSizeList($array) => $body,
            AnyArray::List($array) => $body,
            AnyArray::LargeList($array) => $body,
            AnyArray::Struct($array) => $body,
            AnyArray::Map($array) => $body,
            AnyArray::Union($array) => $body,
            AnyArray::Dictionary($array) => $body,
        }
    };
}

// Replaces the validity; `known` first shows the prover the kind of the array.
macro_rules! with_known {
    ($array:ident, $validity:ident) => {{
        $array.known();
        $array.set_validity($validity)
    }};
}

/// Returns a copy that shares the buffers, as `AnyArray::clone`.
///
/// # Errors
/// `Memory` where an allocation fails.
pub fn clone(alloc: Global, array: &AnyArray) -> Result<AnyArray, Error>
    ensures ok { IfOk result (λ a. layout_of a ≡ layout_of array.now) }
    ensures err { IsOkUnless result (Memory alloc_error) }
{
    array.clone(alloc)
}

impl AnyArray {
    /// Shows the prover that the top level of the array fits its data type. Does nothing at run time.
    pub fn known(&self)
        ensures { TopFits (layout_of self.now) }
    {
        each_array!(self, array => array.known())
    }

    /// Returns the number of slots.
    pub fn len(&self) -> usize
        ensures { result ≡ len (layout_of self.now) }
    {
        each_array!(self, array => array.len())
    }

    /// Returns the data type.
    pub fn data_type(&self) -> &DataType
        ensures { type_of result.now ≡ layout_type (layout_of self.now) }
    {
        each_array!(self, array => array.data_type())
    }

    /// Returns the validity bitmap, one bit per slot.
    ///
    /// Null and union arrays have none. Any other array without one has no null slots, or no null keys.
    pub fn validity(&self) -> Option<&Bitmap>
        ensures { option_map (λ b. b.now) result ≡ validity_of (layout_of self.now) }
    {
        each_array!(self, array => array.validity())
    }

    /// Returns whether slot `i` is null; for a dictionary array, whether key `i` is null.
    pub fn is_null(&self, i: usize) -> bool
        requires { i < len (layout_of self.now) }
        ensures slot { has_keys (layout_of self.now) ≡ false → (IsTrue result ↔ (slot (layout_of self.now) i ≡ slots.null)) }
        ensures place { result ≡ is_null_at (layout_of self.now) i }
    {
        each_array!(self, array => array.is_null(i))
    }

    /// Returns the primitive array of native type `T`, `None` for other arrays.
    pub fn as_primitive<T: NativeArray>(&self) -> Option<&T::Array>
        ensures { MatchOption result
            (HasKind (physical.Primitive T.PRIMITIVE) (layout_of self.now) → ⊥)
            (λ a. IsDowncast (physical.Primitive T.PRIMITIVE) (layout_of self.now) (T.layout_of_array a.now)) }
    {
        if self.data_type().to_physical_type() != PhysicalType::Primitive(T::PRIMITIVE) {
            return None;
        }
        Some(T::of(as_primitive(self)))
    }

    /// Returns the UTF-8 array with 32-bit offsets, `None` for other arrays.
    pub fn as_utf8(&self) -> Option<&Utf8Array<i32>>
        ensures { MatchOption result
            (physical_type (layout_type (layout_of self.now)) ≡ physical.Utf8 → ⊥)
            (λ a. IsDowncast physical.Utf8 (layout_of self.now) a.now) }
    {
        if self.data_type().to_physical_type() != PhysicalType::Utf8 {
            return None;
        }
        Some(as_utf8(self))
    }

    /// Returns the UTF-8 array with 64-bit offsets, `None` for other arrays.
    pub fn as_large_utf8(&self) -> Option<&Utf8Array<i64>>
        ensures { MatchOption result
            (physical_type (layout_type (layout_of self.now)) ≡ physical.LargeUtf8 → ⊥)
            (λ a. IsDowncast physical.LargeUtf8 (layout_of self.now) a.now) }
    {
        if self.data_type().to_physical_type() != PhysicalType::LargeUtf8 {
            return None;
        }
        Some(as_large_utf8(self))
    }

    /// Returns the number of slots for which `is_null` is true.
    pub fn null_count(&self) -> usize
        ensures { result ≡ null_count (layout_of self.now) }
    {
        each_array!(self, array => array.null_count())
    }

    /// Slices the array in place to the `n` slots from index `o`.
    pub fn slice(&mut self, o: usize, n: usize)
        requires { o + n ≤ len (layout_of self.old) }
        ensures { IsSlice (layout_of self.old) o n (layout_of self.new) }
    {
        self.cut(o, n);
    }

    /// Returns the slice of `n` slots from index `o`.
    pub fn sliced(self, o: usize, n: usize) -> AnyArray
        requires { o + n ≤ len (layout_of self) }
        ensures { IsSlice (layout_of self) o n (layout_of result) }
    {
        let mut cut = self;
        cut.slice(o, n);
        cut
    }

    /// Replaces the validity. On error the array is unchanged.
    ///
    /// # Errors
    /// - `NoValidity`: the array is a null or union array;
    /// - `ValidityLength`: the validity has another length;
    /// - `KeyRange`: a key that is valid under it is not an index of the values.
    pub fn set_validity(&mut self, validity: Option<Bitmap>) -> Result<(), Error>
        ensures { let a = layout_of self.old in let b = layout_of self.new in MatchResult result
            (λ _. Pass (validity_checks a validity) × (b ≡ with_validity a validity))
            (λ e. ValidityError e a validity × (b ≡ a)) }
    {
        match self {
            AnyArray::Null(array) => {
                array.known();
                drop(validity);
                Err(Error::InvalidArgumentError(ArgumentError::NoValidity))
            }
            AnyArray::Boolean(array) => with_known!(array, validity),
            AnyArray::Primitive(array) => with_known!(array, validity),
            AnyArray::Binary(array) => with_known!(array, validity),
            AnyArray::LargeBinary(array) => with_known!(array, validity),
            AnyArray::Utf8(array) => with_known!(array, validity),
            AnyArray::LargeUtf8(array) => with_known!(array, validity),
            AnyArray::FixedSizeBinary(array) => with_known!(array, validity),
            AnyArray::FixedSizeList(array) => with_known!(array, validity),
            AnyArray::List(array) => with_known!(array, validity),
            AnyArray::LargeList(array) => with_known!(array, validity),
            AnyArray::Struct(array) => with_known!(array, validity),
            AnyArray::Map(array) => with_known!(array, validity),
            AnyArray::Union(array) => {
                array.known();
                drop(validity);
                Err(Error::InvalidArgumentError(ArgumentError::NoValidity))
            }
            AnyArray::Dictionary(array) => with_known!(array, validity),
        }
    }

    #[cycle(cut)]
    pub(crate) fn cut(&mut self, o: usize, n: usize)
        requires { o + n ≤ len (layout_of self.old) }
        ensures { layout_of self.new ≡ slice_layout (layout_of self.old) o n }
    {
        match self {
            AnyArray::Null(array) => array.slice(o, n),
            AnyArray::Boolean(array) => array.slice(o, n),
            AnyArray::Primitive(array) => array.slice(o, n),
            AnyArray::Binary(array) => array.slice(o, n),
            AnyArray::LargeBinary(array) => array.slice(o, n),
            AnyArray::Utf8(array) => array.slice(o, n),
            AnyArray::LargeUtf8(array) => array.slice(o, n),
            AnyArray::FixedSizeBinary(array) => array.slice(o, n),
            AnyArray::FixedSizeList(array) => array.cut(o, n),
            AnyArray::List(array) => array.slice(o, n),
            AnyArray::LargeList(array) => array.slice(o, n),
            AnyArray::Struct(array) => array.cut(o, n),
            AnyArray::Map(array) => array.slice(o, n),
            AnyArray::Union(array) => array.slice(o, n),
            AnyArray::Dictionary(array) => array.slice(o, n),
        }
    }

    /// Returns a copy that shares the buffers.
    ///
    /// # Errors
    /// `Memory` where an allocation fails.
    // Each arm returns directly; otherwise the result of the match or call is copied once more.
    #[cycle(clone)]
    #[inline(always)]
    pub fn clone(&self, alloc: Global) -> Result<AnyArray, Error>
        ensures ok { IfOk result (λ a. layout_of a ≡ layout_of self.now) }
        ensures err { IsOkUnless result (Memory alloc_error) }
    {
        match self {
            AnyArray::Null(array) => return array.to_boxed(alloc),
            AnyArray::Boolean(array) => return array.to_boxed(alloc),
            AnyArray::Primitive(AnyPrimitive::Int8(array)) => return array.to_boxed(alloc),
            AnyArray::Primitive(AnyPrimitive::Int16(array)) => return array.to_boxed(alloc),
            AnyArray::Primitive(AnyPrimitive::Int32(array)) => return array.to_boxed(alloc),
            AnyArray::Primitive(AnyPrimitive::Int64(array)) => return array.to_boxed(alloc),
            AnyArray::Primitive(AnyPrimitive::Int128(array)) => return array.to_boxed(alloc),
            AnyArray::Primitive(AnyPrimitive::Int256(array)) => return array.to_boxed(alloc),
            AnyArray::Primitive(AnyPrimitive::UInt8(array)) => return array.to_boxed(alloc),
            AnyArray::Primitive(AnyPrimitive::UInt16(array)) => return array.to_boxed(alloc),
            AnyArray::Primitive(AnyPrimitive::UInt32(array)) => return array.to_boxed(alloc),
            AnyArray::Primitive(AnyPrimitive::UInt64(array)) => return array.to_boxed(alloc),
            AnyArray::Primitive(AnyPrimitive::DaysMs(array)) => return array.to_boxed(alloc),
            AnyArray::Primitive(AnyPrimitive::MonthDayNano(array)) => return array.to_boxed(alloc),
            AnyArray::Binary(array) => return array.to_boxed(alloc),
            AnyArray::LargeBinary(array) => return array.to_boxed(alloc),
            AnyArray::Utf8(array) => return array.to_boxed(alloc),
            AnyArray::LargeUtf8(array) => return array.to_boxed(alloc),
            AnyArray::FixedSizeBinary(array) => return array.to_boxed(alloc),
            AnyArray::FixedSizeList(array) => return boxed_fixed_size_list(alloc, array),
            AnyArray::List(array) => return array.to_boxed(alloc),
            AnyArray::LargeList(array) => return array.to_boxed(alloc),
            AnyArray::Struct(array) => return boxed_struct(alloc, array),
            AnyArray::Map(array) => return array.to_boxed(alloc),
            AnyArray::Union(array) => return boxed_union(alloc, array),
            AnyArray::Dictionary(array) => return array.to_boxed(alloc),
        }
    }

    /// Returns a copy of the slice of `n` slots from index `o`, which shares the buffers.
    // Arrays without children are sliced before they are wrapped in their variant.
    pub(crate) fn part(&self, alloc: Global, o: usize, n: usize) -> Result<AnyArray, Error>
        requires { o + n ≤ len (layout_of self.now) }
        ensures ok { IfOk result (λ a. IsSlice (layout_of self.now) o n (layout_of a)) }
        ensures err { IsOkUnless result (Memory alloc_error) }
    {
        match self {
            AnyArray::Primitive(AnyPrimitive::Int8(array)) => return Array::sliced(
                array, alloc, o, n,
            ),
            AnyArray::Primitive(AnyPrimitive::Int16(array)) => return Array::sliced(
                array, alloc, o, n,
            ),
            AnyArray::Primitive(AnyPrimitive::Int32(array)) => return Array::sliced(
                array, alloc, o, n,
            ),
            AnyArray::Primitive(AnyPrimitive::Int64(array)) => return Array::sliced(
                array, alloc, o, n,
            ),
            AnyArray::Primitive(AnyPrimitive::Int128(array)) => return Array::sliced(
                array, alloc, o, n,
            ),
            AnyArray::Primitive(AnyPrimitive::Int256(array)) => return Array::sliced(
                array, alloc, o, n,
            ),
            AnyArray::Primitive(AnyPrimitive::UInt8(array)) => return Array::sliced(
                array, alloc, o, n,
            ),
            AnyArray::Primitive(AnyPrimitive::UInt16(array)) => return Array::sliced(
                array, alloc, o, n,
            ),
            AnyArray::Primitive(AnyPrimitive::UInt32(array)) => return Array::sliced(
                array, alloc, o, n,
            ),
            AnyArray::Primitive(AnyPrimitive::UInt64(array)) => return Array::sliced(
                array, alloc, o, n,
            ),
            AnyArray::Primitive(AnyPrimitive::DaysMs(array)) => return Array::sliced(
                array, alloc, o, n,
            ),
            AnyArray::Primitive(AnyPrimitive::MonthDayNano(array)) => return Array::sliced(
                array, alloc, o, n,
            ),
            AnyArray::Boolean(array) => return Array::sliced(array, alloc, o, n),
            AnyArray::Binary(array) => return Array::sliced(array, alloc, o, n),
            AnyArray::LargeBinary(array) => return Array::sliced(array, alloc, o, n),
            AnyArray::Utf8(array) => return Array::sliced(array, alloc, o, n),
            AnyArray::LargeUtf8(array) => return Array::sliced(array, alloc, o, n),
            _ => return copied_part(alloc, self, o, n),
        }
    }
}

// Not inlined: the stack space for its copy would be cleared for every other kind.
#[inline(never)]
fn copied_part(alloc: Global, array: &AnyArray, o: usize, n: usize) -> Result<AnyArray, Error>
    requires { o + n ≤ len (layout_of array.now) }
    ensures ok { IfOk result (λ a. IsSlice (layout_of array.now) o n (layout_of a)) }
    ensures err { IsOkUnless result (Memory alloc_error) }
{
    let mut part = array.clone(alloc);
    if let Ok(part) = &mut part {
        part.slice(o, n);
    }
    part
}

// Not inlined, as are the other copies of kinds with children: the stack space for all would be cleared for each.
#[cycle(clone)]
#[inline(never)]
fn boxed_fixed_size_list(alloc: Global, array: &FixedSizeListArray) -> Result<AnyArray, Error>
    ensures ok { IfOk result (λ a. layout_of a ≡ array.now) }
    ensures err { IsOkUnless result (Memory alloc_error) }
{
    Ok(array.clone(alloc)?.boxed())
}

#[cycle(clone)]
#[inline(never)]
fn boxed_struct(alloc: Global, array: &StructArray) -> Result<AnyArray, Error>
    ensures ok { IfOk result (λ a. layout_of a ≡ array.now) }
    ensures err { IsOkUnless result (Memory alloc_error) }
{
    Ok(array.clone(alloc)?.boxed())
}

// Copies the fields itself, so that `clone` of a union is outside the cycle.
#[cycle(clone)]
#[inline(never)]
fn boxed_union(alloc: Global, array: &UnionArray) -> Result<AnyArray, Error>
    ensures ok { IfOk result (λ a. layout_of a ≡ array.now) }
    ensures err { IsOkUnless result (Memory alloc_error) }
{
    array.known();
    match clone_all(alloc, array.fields()) {
        Ok(fields) => array.boxed_over(alloc, fields),
        Err(error) => Err(error),
    }
}
