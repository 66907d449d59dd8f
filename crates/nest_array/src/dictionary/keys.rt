//! Keys of dictionary arrays: integers of eight types.
ghost use Rattle.std.specs.Prelude.{◌≡◌, ◌+◌, ◌<◌, ◌≤◌, ◌↔◌, ℤ, pos, false, IsTrue, IfOk, IsErrOf, IsOkUnless, MatchOption, MatchResult, Option, Some, option_map, alloc_error};
ghost use Rattle.nest_memory.specs.Rising.{below_zero};
ghost use Rattle.nest_memory.specs.declared.datatypes.IntegerType.{IntegerType};
ghost use Rattle.nest_memory.specs.declared.datatypes.IntegerType.TheVariants as integers;
ghost use Rattle.nest_model.specs.Accessors.{key_at, key_kind, key_type_of, raw_keys, as_integer};
ghost use Rattle.nest_model.specs.Array.{AreKeys};
ghost use Rattle.nest_model.specs.BuilderTree.{key_count};
ghost use Rattle.nest_model.specs.Fits.{EachNames, EachValidNames, KeysInRange, Names};
ghost use Rattle.nest_model.specs.Part.{valid_at};
ghost use Rattle.nest_array.specs.Keys.{index_of, is_unsigned};
ghost use Rattle.nest_array.specs.SeenKeys.{keys_layout};
ghost use Rattle.nest_array.specs.Words.{Layout, Memory, ValidityError, ValidityFits, slice_layout, is_null_at, len, null_count, type_of, validity_of, with_validity, layout_type};

use nest_flat::primitive::PrimitiveArray;
use nest_flat::validity;
use nest_memory::bitmap::immutable::Bitmap;
use nest_memory::datatypes::{DataType, IntegerType};
use nest_memory::error::Error;
use nest_memory::types::NativeType;
use std::alloc::Global;

/// An integer type of dictionary keys.
pub trait DictionaryKey: NativeType {
    /// The array of the keys, `PrimitiveArray<Self>`.
    type Array;

    ghost layout_of_array: { Self.Array → Layout };

    ghost KEY_TYPE: { IntegerType };

    /// The key type in data types.
    const KEY_TYPE: IntegerType;

    /// Returns whether the type is unsigned, so that every key is an index.
    fn always_fits_usize() -> bool
        ensures unsigned { result ≡ is_unsigned KEY_TYPE }
        ensures fits { IsTrue result → (k : Self) → below_zero (as_integer (Self.numbers k)) ≡ false };

    /// Returns the key as an index.
    fn as_usize(self) -> usize
        requires { below_zero (as_integer (Self.numbers self)) ≡ false }
        ensures { pos result ≡ as_integer (Self.numbers self) };

    /// Returns the key as an index, `None` if it is negative.
    fn to_index(self) -> Option<usize>
        ensures { result ≡ index_of (as_integer (Self.numbers self)) };

    /// Returns the key of an index, `None` if this type has no such key.
    fn from_index(index: usize) -> Option<Self>
        ensures { MatchOption result (key_count KEY_TYPE ≤ index) (λ k. (as_integer (Self.numbers k) ≡ pos index) × (index < key_count KEY_TYPE)) };

    /// Returns an array of keys in its variant.
    fn wrap(keys: Self::Array) -> AnyKeys
        ensures { keys_layout result ≡ layout_of_array keys };

    // `KEY_TYPE` is the key type of arrays of this native type.
    ghost kind: { key_kind Self.NativeType.PRIMITIVE ≡ Some KEY_TYPE };
}

impl DictionaryKey for i8 {
    type Array = PrimitiveArray<i8>;

    ghost layout_of_array = { λ a. a };

    ghost KEY_TYPE = { integers.Int8 };

    const KEY_TYPE: IntegerType = IntegerType::Int8;

    ghost use Rattle.std.proofs.Common.{refl};

    ghost kind = { refl };

    fn always_fits_usize() -> bool {
        false
    }

    fn as_usize(self) -> usize {
        self as usize
    }

    fn to_index(self) -> Option<usize> {
        if self < 0 { None } else { Some(self as usize) }
    }

    fn from_index(index: usize) -> Option<i8> {
        if index > 127 { None } else { Some(index as i8) }
    }

    fn wrap(keys: PrimitiveArray<i8>) -> AnyKeys {
        AnyKeys::Int8(keys)
    }
}

impl DictionaryKey for u8 {
    type Array = PrimitiveArray<u8>;

    ghost layout_of_array = { λ a. a };

    ghost KEY_TYPE = { integers.UInt8 };

    const KEY_TYPE: IntegerType = IntegerType::UInt8;

    ghost use Rattle.std.proofs.Common.{refl};

    ghost kind = { refl };

    fn always_fits_usize() -> bool {
        true
    }

    fn as_usize(self) -> usize {
        self as usize
    }

    fn to_index(self) -> Option<usize> {
        Some(self as usize)
    }

    fn from_index(index: usize) -> Option<u8> {
        if index > 255 { None } else { Some(index as u8) }
    }

    fn wrap(keys: PrimitiveArray<u8>) -> AnyKeys {
        AnyKeys::UInt8(keys)
    }
}

impl DictionaryKey for i16 {
    type Array = PrimitiveArray<i16>;

    ghost layout_of_array = { λ a. a };

    ghost KEY_TYPE = { integers.Int16 };

    const KEY_TYPE: IntegerType = IntegerType::Int16;

    ghost use Rattle.std.proofs.Common.{refl};

    ghost kind = { refl };

    fn always_fits_usize() -> bool {
        false
    }

    fn as_usize(self) -> usize {
        self as usize
    }

    fn to_index(self) -> Option<usize> {
        if self < 0 { None } else { Some(self as usize) }
    }

    fn from_index(index: usize) -> Option<i16> {
        if index > 32767 {
            None
        } else {
            Some(index as i16)
        }
    }

    fn wrap(keys: PrimitiveArray<i16>) -> AnyKeys {
        AnyKeys::Int16(keys)
    }
}

impl DictionaryKey for u16 {
    type Array = PrimitiveArray<u16>;

    ghost layout_of_array = { λ a. a };

    ghost KEY_TYPE = { integers.UInt16 };

    const KEY_TYPE: IntegerType = IntegerType::UInt16;

    ghost use Rattle.std.proofs.Common.{refl};

    ghost kind = { refl };

    fn always_fits_usize() -> bool {
        true
    }

    fn as_usize(self) -> usize {
        self as usize
    }

    fn to_index(self) -> Option<usize> {
        Some(self as usize)
    }

    fn from_index(index: usize) -> Option<u16> {
        if index > 65535 {
            None
        } else {
            Some(index as u16)
        }
    }

    fn wrap(keys: PrimitiveArray<u16>) -> AnyKeys {
        AnyKeys::UInt16(keys)
    }
}

impl DictionaryKey for i32 {
    type Array = PrimitiveArray<i32>;

    ghost layout_of_array = { λ a. a };

    ghost KEY_TYPE = { integers.Int32 };

    const KEY_TYPE: IntegerType = IntegerType::Int32;

    ghost use Rattle.std.proofs.Common.{refl};

    ghost kind = { refl };

    fn always_fits_usize() -> bool {
        false
    }

    fn as_usize(self) -> usize {
        self as usize
    }

    fn to_index(self) -> Option<usize> {
        if self < 0 { None } else { Some(self as usize) }
    }

    fn from_index(index: usize) -> Option<i32> {
        if index > 2147483647 {
            None
        } else {
            Some(index as i32)
        }
    }

    fn wrap(keys: PrimitiveArray<i32>) -> AnyKeys {
        AnyKeys::Int32(keys)
    }
}

impl DictionaryKey for u32 {
    type Array = PrimitiveArray<u32>;

    ghost layout_of_array = { λ a. a };

    ghost KEY_TYPE = { integers.UInt32 };

    const KEY_TYPE: IntegerType = IntegerType::UInt32;

    ghost use Rattle.std.proofs.Common.{refl};

    ghost kind = { refl };

    fn always_fits_usize() -> bool {
        true
    }

    fn as_usize(self) -> usize {
        self as usize
    }

    fn to_index(self) -> Option<usize> {
        Some(self as usize)
    }

    fn from_index(index: usize) -> Option<u32> {
        if index > 4294967295 {
            None
        } else {
            Some(index as u32)
        }
    }

    fn wrap(keys: PrimitiveArray<u32>) -> AnyKeys {
        AnyKeys::UInt32(keys)
    }
}

impl DictionaryKey for i64 {
    type Array = PrimitiveArray<i64>;

    ghost layout_of_array = { λ a. a };

    ghost KEY_TYPE = { integers.Int64 };

    const KEY_TYPE: IntegerType = IntegerType::Int64;

    ghost use Rattle.std.proofs.Common.{refl};

    ghost kind = { refl };

    fn always_fits_usize() -> bool {
        false
    }

    fn as_usize(self) -> usize {
        self as usize
    }

    fn to_index(self) -> Option<usize> {
        if self < 0 { None } else { Some(self as usize) }
    }

    fn from_index(index: usize) -> Option<i64> {
        if index > 9223372036854775807 {
            None
        } else {
            Some(index as i64)
        }
    }

    fn wrap(keys: PrimitiveArray<i64>) -> AnyKeys {
        AnyKeys::Int64(keys)
    }
}

impl DictionaryKey for u64 {
    type Array = PrimitiveArray<u64>;

    ghost layout_of_array = { λ a. a };

    ghost KEY_TYPE = { integers.UInt64 };

    const KEY_TYPE: IntegerType = IntegerType::UInt64;

    ghost use Rattle.std.proofs.Common.{refl};

    ghost kind = { refl };

    fn always_fits_usize() -> bool {
        true
    }

    fn as_usize(self) -> usize {
        self as usize
    }

    fn to_index(self) -> Option<usize> {
        Some(self as usize)
    }

    fn from_index(index: usize) -> Option<u64> {
        Some(index as u64)
    }

    fn wrap(keys: PrimitiveArray<u64>) -> AnyKeys {
        AnyKeys::UInt64(keys)
    }
}

/// An array of dictionary keys, in the variant of their type.
#[derive(Drop)]
pub enum AnyKeys {
    Int8(PrimitiveArray<i8>),
    Int16(PrimitiveArray<i16>),
    Int32(PrimitiveArray<i32>),
    Int64(PrimitiveArray<i64>),
    UInt8(PrimitiveArray<u8>),
    UInt16(PrimitiveArray<u16>),
    UInt32(PrimitiveArray<u32>),
    UInt64(PrimitiveArray<u64>),
}

// Evaluates the same expression for the keys of any variant.
macro_rules! each_width {
    ($any:expr, $keys:ident => $body:expr) => {
        match $any {
            AnyKeys::Int8($keys) => $body,
            AnyKeys::Int16($keys) => $body,
            AnyKeys::Int32($keys) => $body,
            AnyKeys::Int64($keys) => $body,
            AnyKeys::UInt8($keys) => $body,
            AnyKeys::UInt16($keys) => $body,
            AnyKeys::UInt32($keys) => $body,
            AnyKeys::UInt64($keys) => $body,
        }
    };
}

impl AnyKeys {
    /// Shows the prover that the keys are an array of a key type. Does nothing at run time.
    pub fn known(&self)
        ensures { AreKeys (keys_layout self.now) }
    {
        each_width!(self, keys => known(keys))
    }

    /// Returns the number of keys.
    pub fn len(&self) -> usize
        ensures { result ≡ len (keys_layout self.now) }
    {
        each_width!(self, keys => keys.len())
    }

    /// Returns whether there are no keys.
    pub fn is_empty(&self) -> bool
        ensures { IsTrue result ↔ (len (keys_layout self.now) ≡ 0) }
    {
        self.len() == 0
    }

    /// Returns the key type.
    pub fn key_type(&self) -> IntegerType
        ensures { key_type_of (keys_layout self.now) ≡ Some result }
    {
        each_width!(self, keys => key_type(keys))
    }

    /// Returns the data type of the keys as an array.
    pub fn data_type(&self) -> &DataType
        ensures { type_of result.now ≡ layout_type (keys_layout self.now) }
    {
        each_width!(self, keys => keys.data_type())
    }

    /// Returns the validity bitmap, one bit per key; `None` if no key is null.
    pub fn validity(&self) -> Option<&Bitmap>
        ensures { option_map (λ b. b.now) result ≡ validity_of (keys_layout self.now) }
    {
        each_width!(self, keys => keys.validity())
    }

    /// Returns whether key `i` is null.
    pub fn is_null(&self, i: usize) -> bool
        requires { i < len (keys_layout self.now) }
        ensures { result ≡ is_null_at (keys_layout self.now) i }
    {
        each_width!(self, keys => keys.is_null(i))
    }

    /// Returns the number of null keys.
    pub fn null_count(&self) -> usize
        ensures { result ≡ null_count (keys_layout self.now) }
    {
        each_width!(self, keys => keys.null_count())
    }

    /// Returns raw key `i`, null or not, as an index; `None` if it is negative.
    pub fn index(&self, i: usize) -> Option<usize>
        requires { i < len (keys_layout self.now) }
        ensures { result ≡ index_of (key_at (keys_layout self.now) i) }
    {
        each_width!(self, keys => index(keys, i))
    }

    /// Returns whether each raw key, null or not, is an index less than `n`.
    pub(crate) fn each_names(&self, n: usize) -> bool
        ensures { IsTrue result ↔ EachNames (raw_keys (keys_layout self.now)) n }
    {
        each_width!(self, keys => each_names(keys, n))
    }

    /// Returns whether each raw key is an index less than `n`, or all keys are null.
    pub(crate) fn are_in_range(&self, n: usize) -> bool
        ensures { IsTrue result ↔ KeysInRange (keys_layout self.now) n }
    {
        each_width!(self, keys => are_in_range(keys, n))
    }

    /// Returns whether each key that is valid under a validity is an index less than `n`.
    pub(crate) fn each_valid_names(&self, validity: &Option<Bitmap>, n: usize) -> bool
        requires { ValidityFits validity.now (len (keys_layout self.now)) }
        ensures { IsTrue result ↔ EachValidNames validity.now (keys_layout self.now) n }
    {
        each_width!(self, keys => each_valid_names(keys, validity, n))
    }

    pub(crate) fn slice(&mut self, o: usize, n: usize)
        requires { o + n ≤ len (keys_layout self.old) }
        ensures { keys_layout self.new ≡ slice_layout (keys_layout self.old) o n }
    {
        each_width!(self, keys => keys.slice(o, n))
    }

    pub(crate) fn set_validity(&mut self, validity: Option<Bitmap>)
        requires { ValidityFits validity (len (keys_layout self.old)) }
        ensures { keys_layout self.new ≡ with_validity (keys_layout self.old) validity }
    {
        each_width!(self, keys => set_validity(keys, validity))
    }

    pub(crate) fn clone(&self, alloc: Global) -> Result<AnyKeys, Error>
        ensures ok { IfOk result (λ k. keys_layout k ≡ keys_layout self.now) }
        ensures err { IsOkUnless result (Memory alloc_error) }
    {
        match self {
            AnyKeys::Int8(keys) => wrapped::<i8>(keys.clone(alloc)),
            AnyKeys::Int16(keys) => wrapped::<i16>(keys.clone(alloc)),
            AnyKeys::Int32(keys) => wrapped::<i32>(keys.clone(alloc)),
            AnyKeys::Int64(keys) => wrapped::<i64>(keys.clone(alloc)),
            AnyKeys::UInt8(keys) => wrapped::<u8>(keys.clone(alloc)),
            AnyKeys::UInt16(keys) => wrapped::<u16>(keys.clone(alloc)),
            AnyKeys::UInt32(keys) => wrapped::<u32>(keys.clone(alloc)),
            AnyKeys::UInt64(keys) => wrapped::<u64>(keys.clone(alloc)),
        }
    }
}

// Returns the keys in their variant, or the error.
pub(super) fn wrapped<K: DictionaryKey>(keys: Result<K::Array, Error>) -> Result<AnyKeys, Error>
    ensures { MatchResult keys
        (λ a. MatchResult result (λ b. keys_layout b ≡ K.layout_of_array a) (λ _. ⊥))
        (λ e. IsErrOf result e) }
{
    match keys {
        Ok(keys) => Ok(K::wrap(keys)),
        Err(error) => Err(error),
    }
}

fn known<K: DictionaryKey>(keys: &PrimitiveArray<K>)
    ensures { AreKeys keys.now }
{
    keys.known();
}

fn key_type<K: DictionaryKey>(keys: &PrimitiveArray<K>) -> IntegerType
    ensures { key_type_of keys.now ≡ Some result }
{
    keys.known();
    K::KEY_TYPE
}

fn index<K: DictionaryKey>(keys: &PrimitiveArray<K>, i: usize) -> Option<usize>
    requires { i < len keys.now }
    ensures { result ≡ index_of (key_at keys.now i) }
{
    keys.value(i).to_index()
}

/// Returns whether raw key `i` is an index less than `n`.
fn names<K: DictionaryKey>(keys: &PrimitiveArray<K>, i: usize, n: usize) -> bool
    requires { i < len keys.now }
    ensures { IsTrue result ↔ Names (key_at keys.now i) n }
{
    match index(keys, i) {
        None => false,
        Some(place) => place < n,
    }
}

fn each_names<K: DictionaryKey>(keys: &PrimitiveArray<K>, n: usize) -> bool
    ensures { IsTrue result ↔ EachNames (raw_keys keys.now) n }
{
    keys.known();
    for i in 0..keys.len() {
        if !names(keys, i, n) {
            return false;
        }
    }
    true
}

fn are_in_range<K: DictionaryKey>(keys: &PrimitiveArray<K>, n: usize) -> bool
    ensures { IsTrue result ↔ KeysInRange keys.now n }
{
    keys.known();
    if keys.null_count() == keys.len() {
        return true;
    }
    each_names(keys, n)
}

fn each_valid_names<K: DictionaryKey>(
    keys: &PrimitiveArray<K>,
    validity: &Option<Bitmap>,
    n: usize,
) -> bool
    requires { ValidityFits validity.now (len keys.now) }
    ensures { IsTrue result ↔ EachValidNames validity.now keys.now n }
{
    for i in 0..keys.len() {
        if validity::is_valid(validity, i) && !names(keys, i, n) {
            return false;
        }
    }
    true
}

fn set_validity<K: DictionaryKey>(keys: &mut PrimitiveArray<K>, validity: Option<Bitmap>)
    requires { ValidityFits validity (len keys.old) }
    ensures { keys.new ≡ with_validity keys.old validity }
{
    keys.known();
    match keys.set_validity(validity) {
        Ok(()) => (),
        Err(_) => unreachable!(),
    }
}
