//! Key types of dictionary builders.
ghost use Rattle.std.specs.Prelude.{◌≡◌, length, map, IfOk, IsOkUnless, alloc_error};
ghost use Rattle.nest_memory.specs.Physical.{primitive_tree};
ghost use Rattle.nest_model.specs.Layout as layouts;
ghost use Rattle.nest_array.specs.SeenKeys.{keys_layout};
ghost use Rattle.nest_build.specs.Words.{Memory, ValidityFits};

use nest_array::{AnyKeys, DictionaryKey};
use nest_flat::primitive::PrimitiveArray;
use nest_memory::bitmap::immutable::Bitmap;
use nest_memory::buffer::Buffer;
use nest_memory::datatypes::DataType;
use nest_memory::error::Error;
use nest_memory::types::NativeType;

/// A key type for which a dictionary builder exists.
pub trait BuilderKey: DictionaryKey {
    /// Returns the array of these raw keys, in the variant of their width.
    ///
    /// # Errors
    /// `Memory` if an allocation fails.
    fn any_keys(keys: &Buffer<Self>, validity: Option<Bitmap>) -> Result<AnyKeys, Error>
        requires { ValidityFits validity (length keys.now) }
        ensures ok { IfOk result (λ a. keys_layout a ≡ layouts.primitive Self.NativeType.PRIMITIVE (primitive_tree Self.NativeType.PRIMITIVE) (map Self.NativeType.numbers keys.now) validity) }
        ensures memory { IsOkUnless result (Memory alloc_error) };
}

/// Returns the array of these keys, with the data type of their native type.
fn array_of<K: NativeType>(
    keys: &Buffer<K>,
    validity: Option<Bitmap>,
) -> Result<PrimitiveArray<K>, Error>
    requires { ValidityFits validity (length keys.now) }
    ensures ok { IfOk result (λ a. a ≡ layouts.primitive K.PRIMITIVE (primitive_tree K.PRIMITIVE) (map K.numbers keys.now) validity) }
    ensures memory { IsOkUnless result (Memory alloc_error) }
{
    let keys = keys.clone()?;
    PrimitiveArray::try_new(DataType::from(K::PRIMITIVE), keys, validity)
}

impl BuilderKey for i8 {
    fn any_keys(keys: &Buffer<i8>, validity: Option<Bitmap>) -> Result<AnyKeys, Error> {
        Ok(AnyKeys::Int8(array_of(keys, validity)?))
    }
}

impl BuilderKey for i16 {
    fn any_keys(keys: &Buffer<i16>, validity: Option<Bitmap>) -> Result<AnyKeys, Error> {
        Ok(AnyKeys::Int16(array_of(keys, validity)?))
    }
}

impl BuilderKey for i32 {
    fn any_keys(keys: &Buffer<i32>, validity: Option<Bitmap>) -> Result<AnyKeys, Error> {
        Ok(AnyKeys::Int32(array_of(keys, validity)?))
    }
}

impl BuilderKey for i64 {
    fn any_keys(keys: &Buffer<i64>, validity: Option<Bitmap>) -> Result<AnyKeys, Error> {
        Ok(AnyKeys::Int64(array_of(keys, validity)?))
    }
}

impl BuilderKey for u8 {
    fn any_keys(keys: &Buffer<u8>, validity: Option<Bitmap>) -> Result<AnyKeys, Error> {
        Ok(AnyKeys::UInt8(array_of(keys, validity)?))
    }
}

impl BuilderKey for u16 {
    fn any_keys(keys: &Buffer<u16>, validity: Option<Bitmap>) -> Result<AnyKeys, Error> {
        Ok(AnyKeys::UInt16(array_of(keys, validity)?))
    }
}

impl BuilderKey for u32 {
    fn any_keys(keys: &Buffer<u32>, validity: Option<Bitmap>) -> Result<AnyKeys, Error> {
        Ok(AnyKeys::UInt32(array_of(keys, validity)?))
    }
}

impl BuilderKey for u64 {
    fn any_keys(keys: &Buffer<u64>, validity: Option<Bitmap>) -> Result<AnyKeys, Error> {
        Ok(AnyKeys::UInt64(array_of(keys, validity)?))
    }
}
