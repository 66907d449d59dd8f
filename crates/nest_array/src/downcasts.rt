//! Downcasts of `AnyArray` to arrays of one kind, as in arrow2.
ghost use Rattle.std.specs.Prelude.{◌≡◌, ◌≢◌, MatchOption, MatchResult};
ghost use Rattle.nest_memory.specs.declared.datatypes.physical_type.PhysicalType.TheVariants as physical;
ghost use Rattle.nest_flat.specs.AnyPrimitive.{primitive_layout};
ghost use Rattle.nest_array.specs.Kinds.{IsKeyed, IsPrimitive, physical_kind};
ghost use Rattle.nest_array.specs.Words.{layout_of, layout_type, physical_type};
ghost use Rattle.nest_array.specs.Downcasts.{IsDowncast, IsOtherKind, IsAnyPrimitive, IsNotPrimitive};

use crate::any::AnyArray;
use crate::dictionary::DictionaryArray;
use crate::equal::kinds;
use crate::fixed_size_binary::FixedSizeBinaryArray;
use crate::fixed_size_list::FixedSizeListArray;
use crate::list::ListArray;
use crate::list::large::LargeListArray;
use crate::map::MapArray;
use crate::null::NullArray;
use crate::struct_::StructArray;
use crate::union::UnionArray;
use nest_flat::any_primitive::AnyPrimitive;
use nest_flat::binary::BinaryArray;
use nest_flat::boolean::BooleanArray;
use nest_flat::utf8::Utf8Array;
use nest_memory::datatypes::physical_type::PhysicalType;

// Returns the array of one variant, `None` for another physical type.
macro_rules! borrowed {
    ($any:ident, $kind:pat => $array:expr) => {
        match $any.data_type().to_physical_type() {
            $kind => Some($array),
            _ => None,
        }
    };
}

// Returns the array of one variant by value, or the `AnyArray` for another physical type.
macro_rules! owned {
    ($any:ident, $kind:pat => $only:ident) => {{
        kinds::kind(&$any);
        match $any.data_type().to_physical_type() {
            $kind => Ok($only($any)),
            _ => Err($any),
        }
    }};
}

/// Downcasts by reference: `None` for another physical type.
///
/// `as_utf8`, `as_large_utf8` and `as_primitive` are in module `any`.
impl AnyArray {
    /// Returns the null array.
    pub fn as_null(&self) -> Option<&NullArray>
        ensures { MatchOption result
            (physical_type (layout_type (layout_of self.now)) ≢ physical.Null)
            (λ a. IsDowncast physical.Null (layout_of self.now) a.now) }
    {
        borrowed!(self, PhysicalType::Null => kinds::as_null(self))
    }

    /// Returns the Boolean array.
    pub fn as_boolean(&self) -> Option<&BooleanArray>
        ensures { MatchOption result
            (physical_type (layout_type (layout_of self.now)) ≢ physical.Boolean)
            (λ a. IsDowncast physical.Boolean (layout_of self.now) a.now) }
    {
        borrowed!(self, PhysicalType::Boolean => kinds::as_boolean(self))
    }

    /// Returns the binary array with 32-bit offsets.
    pub fn as_binary(&self) -> Option<&BinaryArray<i32>>
        ensures { MatchOption result
            (physical_type (layout_type (layout_of self.now)) ≢ physical.Binary)
            (λ a. IsDowncast physical.Binary (layout_of self.now) a.now) }
    {
        borrowed!(self, PhysicalType::Binary => kinds::as_binary(self))
    }

    /// Returns the binary array with 64-bit offsets.
    pub fn as_large_binary(&self) -> Option<&BinaryArray<i64>>
        ensures { MatchOption result
            (physical_type (layout_type (layout_of self.now)) ≢ physical.LargeBinary)
            (λ a. IsDowncast physical.LargeBinary (layout_of self.now) a.now) }
    {
        borrowed!(self, PhysicalType::LargeBinary => kinds::as_large_binary(self))
    }

    /// Returns the fixed-size binary array.
    pub fn as_fixed_size_binary(&self) -> Option<&FixedSizeBinaryArray>
        ensures { MatchOption result
            (physical_type (layout_type (layout_of self.now)) ≢ physical.FixedSizeBinary)
            (λ a. IsDowncast physical.FixedSizeBinary (layout_of self.now) a.now) }
    {
        borrowed!(self, PhysicalType::FixedSizeBinary => kinds::as_fixed_size_binary(self))
    }

    /// Returns the fixed-size list array.
    pub fn as_fixed_size_list(&self) -> Option<&FixedSizeListArray>
        ensures { MatchOption result
            (physical_type (layout_type (layout_of self.now)) ≢ physical.FixedSizeList)
            (λ a. IsDowncast physical.FixedSizeList (layout_of self.now) a.now) }
    {
        borrowed!(self, PhysicalType::FixedSizeList => kinds::as_fixed_size_list(self))
    }

    /// Returns the list array with 32-bit offsets.
    pub fn as_list(&self) -> Option<&ListArray>
        ensures { MatchOption result
            (physical_type (layout_type (layout_of self.now)) ≢ physical.List)
            (λ a. IsDowncast physical.List (layout_of self.now) a.now) }
    {
        borrowed!(self, PhysicalType::List => kinds::as_list(self))
    }

    /// Returns the list array with 64-bit offsets.
    pub fn as_large_list(&self) -> Option<&LargeListArray>
        ensures { MatchOption result
            (physical_type (layout_type (layout_of self.now)) ≢ physical.LargeList)
            (λ a. IsDowncast physical.LargeList (layout_of self.now) a.now) }
    {
        borrowed!(self, PhysicalType::LargeList => kinds::as_large_list(self))
    }

    /// Returns the struct array.
    pub fn as_struct(&self) -> Option<&StructArray>
        ensures { MatchOption result
            (physical_type (layout_type (layout_of self.now)) ≢ physical.Struct)
            (λ a. IsDowncast physical.Struct (layout_of self.now) a.now) }
    {
        borrowed!(self, PhysicalType::Struct => kinds::as_struct(self))
    }

    /// Returns the map array.
    pub fn as_map(&self) -> Option<&MapArray>
        ensures { MatchOption result
            (physical_type (layout_type (layout_of self.now)) ≢ physical.Map)
            (λ a. IsDowncast physical.Map (layout_of self.now) a.now) }
    {
        borrowed!(self, PhysicalType::Map => kinds::as_map(self))
    }

    /// Returns the union array.
    pub fn as_union(&self) -> Option<&UnionArray>
        ensures { MatchOption result
            (physical_type (layout_type (layout_of self.now)) ≢ physical.Union)
            (λ a. IsDowncast physical.Union (layout_of self.now) a.now) }
    {
        borrowed!(self, PhysicalType::Union => kinds::as_union(self))
    }

    /// Returns the primitive array, of any native type.
    pub fn as_any_primitive(&self) -> Option<&AnyPrimitive>
        ensures { MatchOption result
            (¬ IsPrimitive (physical_type (layout_type (layout_of self.now))))
            (λ a. IsAnyPrimitive (layout_of self.now) (primitive_layout a.now)) }
    {
        borrowed!(self, PhysicalType::Primitive(_) => kinds::as_primitive(self))
    }

    /// Returns the dictionary array, of any key type.
    pub fn as_dictionary(&self) -> Option<&DictionaryArray>
        ensures { MatchOption result
            (¬ IsKeyed (physical_type (layout_type (layout_of self.now))))
            (λ a. IsKeyed (physical_type (layout_type (layout_of self.now))) × (a.now ≡ layout_of self.now)) }
    {
        borrowed!(self, PhysicalType::Dictionary(_) => kinds::as_dictionary(self))
    }
}

/// Downcasts by value: the error is the unchanged array, for another physical type.
impl AnyArray {
    /// Returns the null array.
    pub fn into_null(self) -> Result<NullArray, AnyArray>
        ensures { MatchResult result
            (λ a. IsDowncast physical.Null (layout_of self) a)
            (λ a. IsOtherKind physical.Null (layout_of self) (layout_of a)) }
    {
        owned!(self, PhysicalType::Null => only_null)
    }

    /// Returns the Boolean array.
    pub fn into_boolean(self) -> Result<BooleanArray, AnyArray>
        ensures { MatchResult result
            (λ a. IsDowncast physical.Boolean (layout_of self) a)
            (λ a. IsOtherKind physical.Boolean (layout_of self) (layout_of a)) }
    {
        owned!(self, PhysicalType::Boolean => only_boolean)
    }

    /// Returns the binary array with 32-bit offsets.
    pub fn into_binary(self) -> Result<BinaryArray<i32>, AnyArray>
        ensures { MatchResult result
            (λ a. IsDowncast physical.Binary (layout_of self) a)
            (λ a. IsOtherKind physical.Binary (layout_of self) (layout_of a)) }
    {
        owned!(self, PhysicalType::Binary => only_binary)
    }

    /// Returns the binary array with 64-bit offsets.
    pub fn into_large_binary(self) -> Result<BinaryArray<i64>, AnyArray>
        ensures { MatchResult result
            (λ a. IsDowncast physical.LargeBinary (layout_of self) a)
            (λ a. IsOtherKind physical.LargeBinary (layout_of self) (layout_of a)) }
    {
        owned!(self, PhysicalType::LargeBinary => only_large_binary)
    }

    /// Returns the UTF-8 array with 32-bit offsets.
    pub fn into_utf8(self) -> Result<Utf8Array<i32>, AnyArray>
        ensures { MatchResult result
            (λ a. IsDowncast physical.Utf8 (layout_of self) a)
            (λ a. IsOtherKind physical.Utf8 (layout_of self) (layout_of a)) }
    {
        owned!(self, PhysicalType::Utf8 => only_utf8)
    }

    /// Returns the UTF-8 array with 64-bit offsets.
    pub fn into_large_utf8(self) -> Result<Utf8Array<i64>, AnyArray>
        ensures { MatchResult result
            (λ a. IsDowncast physical.LargeUtf8 (layout_of self) a)
            (λ a. IsOtherKind physical.LargeUtf8 (layout_of self) (layout_of a)) }
    {
        owned!(self, PhysicalType::LargeUtf8 => only_large_utf8)
    }

    /// Returns the fixed-size binary array.
    pub fn into_fixed_size_binary(self) -> Result<FixedSizeBinaryArray, AnyArray>
        ensures { MatchResult result
            (λ a. IsDowncast physical.FixedSizeBinary (layout_of self) a)
            (λ a. IsOtherKind physical.FixedSizeBinary (layout_of self) (layout_of a)) }
    {
        owned!(self, PhysicalType::FixedSizeBinary => only_fixed_size_binary)
    }

    /// Returns the fixed-size list array.
    pub fn into_fixed_size_list(self) -> Result<FixedSizeListArray, AnyArray>
        ensures { MatchResult result
            (λ a. IsDowncast physical.FixedSizeList (layout_of self) a)
            (λ a. IsOtherKind physical.FixedSizeList (layout_of self) (layout_of a)) }
    {
        owned!(self, PhysicalType::FixedSizeList => only_fixed_size_list)
    }

    /// Returns the list array with 32-bit offsets.
    pub fn into_list(self) -> Result<ListArray, AnyArray>
        ensures { MatchResult result
            (λ a. IsDowncast physical.List (layout_of self) a)
            (λ a. IsOtherKind physical.List (layout_of self) (layout_of a)) }
    {
        owned!(self, PhysicalType::List => only_list)
    }

    /// Returns the list array with 64-bit offsets.
    pub fn into_large_list(self) -> Result<LargeListArray, AnyArray>
        ensures { MatchResult result
            (λ a. IsDowncast physical.LargeList (layout_of self) a)
            (λ a. IsOtherKind physical.LargeList (layout_of self) (layout_of a)) }
    {
        owned!(self, PhysicalType::LargeList => only_large_list)
    }

    /// Returns the struct array.
    pub fn into_struct(self) -> Result<StructArray, AnyArray>
        ensures { MatchResult result
            (λ a. IsDowncast physical.Struct (layout_of self) a)
            (λ a. IsOtherKind physical.Struct (layout_of self) (layout_of a)) }
    {
        owned!(self, PhysicalType::Struct => only_struct)
    }

    /// Returns the map array.
    pub fn into_map(self) -> Result<MapArray, AnyArray>
        ensures { MatchResult result
            (λ a. IsDowncast physical.Map (layout_of self) a)
            (λ a. IsOtherKind physical.Map (layout_of self) (layout_of a)) }
    {
        owned!(self, PhysicalType::Map => only_map)
    }

    /// Returns the union array.
    pub fn into_union(self) -> Result<UnionArray, AnyArray>
        ensures { MatchResult result
            (λ a. IsDowncast physical.Union (layout_of self) a)
            (λ a. IsOtherKind physical.Union (layout_of self) (layout_of a)) }
    {
        owned!(self, PhysicalType::Union => only_union)
    }

    /// Returns the primitive array, of any native type.
    pub fn into_any_primitive(self) -> Result<AnyPrimitive, AnyArray>
        ensures { MatchResult result
            (λ a. IsAnyPrimitive (layout_of self) (primitive_layout a))
            (λ a. IsNotPrimitive (layout_of self) (layout_of a)) }
    {
        owned!(self, PhysicalType::Primitive(_) => only_primitive)
    }

    /// Returns the dictionary array, of any key type.
    pub fn into_dictionary(self) -> Result<DictionaryArray, AnyArray>
        ensures { MatchResult result
            (λ a. IsKeyed (physical_type (layout_type (layout_of self))) × (a ≡ layout_of self))
            (λ a. ¬ IsKeyed (physical_type (layout_type (layout_of self))) × (layout_of a ≡ layout_of self)) }
    {
        owned!(self, PhysicalType::Dictionary(_) => only_dictionary)
    }
}

// Each returns the array of one variant.
// Nothing may borrow the array before it is moved out, so the caller has to prove its kind.

fn only_null(any: AnyArray) -> NullArray
    requires { physical_kind any ≡ physical.Null }
    ensures { result ≡ layout_of any }
{
    match any {
        AnyArray::Null(array) => array,
        _ => unreachable!(),
    }
}

fn only_boolean(any: AnyArray) -> BooleanArray
    requires { physical_kind any ≡ physical.Boolean }
    ensures { result ≡ layout_of any }
{
    match any {
        AnyArray::Boolean(array) => array,
        _ => unreachable!(),
    }
}

fn only_primitive(any: AnyArray) -> AnyPrimitive
    requires { IsPrimitive (physical_kind any) }
    ensures { primitive_layout result ≡ layout_of any }
{
    match any {
        AnyArray::Primitive(array) => array,
        _ => unreachable!(),
    }
}

fn only_binary(any: AnyArray) -> BinaryArray<i32>
    requires { physical_kind any ≡ physical.Binary }
    ensures { result ≡ layout_of any }
{
    match any {
        AnyArray::Binary(array) => array,
        _ => unreachable!(),
    }
}

fn only_large_binary(any: AnyArray) -> BinaryArray<i64>
    requires { physical_kind any ≡ physical.LargeBinary }
    ensures { result ≡ layout_of any }
{
    match any {
        AnyArray::LargeBinary(array) => array,
        _ => unreachable!(),
    }
}

fn only_utf8(any: AnyArray) -> Utf8Array<i32>
    requires { physical_kind any ≡ physical.Utf8 }
    ensures { result ≡ layout_of any }
{
    match any {
        AnyArray::Utf8(array) => array,
        _ => unreachable!(),
    }
}

fn only_large_utf8(any: AnyArray) -> Utf8Array<i64>
    requires { physical_kind any ≡ physical.LargeUtf8 }
    ensures { result ≡ layout_of any }
{
    match any {
        AnyArray::LargeUtf8(array) => array,
        _ => unreachable!(),
    }
}

fn only_fixed_size_binary(any: AnyArray) -> FixedSizeBinaryArray
    requires { physical_kind any ≡ physical.FixedSizeBinary }
    ensures { result ≡ layout_of any }
{
    match any {
        AnyArray::FixedSizeBinary(array) => array,
        _ => unreachable!(),
    }
}

fn only_fixed_size_list(any: AnyArray) -> FixedSizeListArray
    requires { physical_kind any ≡ physical.FixedSizeList }
    ensures { result ≡ layout_of any }
{
    match any {
        AnyArray::FixedSizeList(array) => array,
        _ => unreachable!(),
    }
}

fn only_list(any: AnyArray) -> ListArray
    requires { physical_kind any ≡ physical.List }
    ensures { result ≡ layout_of any }
{
    match any {
        AnyArray::List(array) => array,
        _ => unreachable!(),
    }
}

fn only_large_list(any: AnyArray) -> LargeListArray
    requires { physical_kind any ≡ physical.LargeList }
    ensures { result ≡ layout_of any }
{
    match any {
        AnyArray::LargeList(array) => array,
        _ => unreachable!(),
    }
}

fn only_struct(any: AnyArray) -> StructArray
    requires { physical_kind any ≡ physical.Struct }
    ensures { result ≡ layout_of any }
{
    match any {
        AnyArray::Struct(array) => array,
        _ => unreachable!(),
    }
}

fn only_map(any: AnyArray) -> MapArray
    requires { physical_kind any ≡ physical.Map }
    ensures { result ≡ layout_of any }
{
    match any {
        AnyArray::Map(array) => array,
        _ => unreachable!(),
    }
}

fn only_union(any: AnyArray) -> UnionArray
    requires { physical_kind any ≡ physical.Union }
    ensures { result ≡ layout_of any }
{
    match any {
        AnyArray::Union(array) => array,
        _ => unreachable!(),
    }
}

fn only_dictionary(any: AnyArray) -> DictionaryArray
    requires { IsKeyed (physical_kind any) }
    ensures { result ≡ layout_of any }
{
    match any {
        AnyArray::Dictionary(array) => array,
        _ => unreachable!(),
    }
}
