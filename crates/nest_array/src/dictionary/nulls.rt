//! Dictionary arrays of null keys, and empty ones.
ghost use Rattle.std.specs.Prelude.{◌≡◌, IfOk, IsOkUnless, MatchResult, None, Some, alloc_error, true};
ghost use Rattle.nest_memory.specs.TypeTree.{key_type};
ghost use Rattle.nest_memory.specs.declared.datatypes.IntegerType.{IntegerType};
ghost use Rattle.nest_model.specs.Fits.{is_dictionary};
ghost use Rattle.nest_model.specs.NullLayout.{native_nulls, native_of_key, null_array as nulls_of, type_of_key};
ghost use Rattle.nest_model.specs.Nulls.{Fills, empty_error, error_of, type_error};
ghost use Rattle.nest_array.specs.Keys.{RefusesDictionary};
ghost use Rattle.nest_array.specs.SeenKeys.{keys_layout};
ghost use Rattle.nest_array.specs.Words.{HasNone, HasNulls, Memory, type_of};

use crate::dictionary::DictionaryArray;
use crate::dictionary::keys::{AnyKeys, wrapped};
use crate::nulls::{dictionary_error, null_array, values_below};
use crate::types::value_type;
use nest_flat::primitive::PrimitiveArray;
use nest_memory::datatypes::{DataType, IntegerType};
use nest_memory::error::Error;
use nest_model::fill::Fill;
use std::alloc::Global;

impl AnyKeys {
    /// Returns `length` keys of this type: null keys for `Fill::Nulls`, keys without a validity for `Fill::Nothing`.
    pub(crate) fn nulls(
        alloc: Global,
        key: IntegerType,
        length: usize,
        fill: Fill,
    ) -> Result<AnyKeys, Error>
        ensures ok { IfOk result (λ ks. keys_layout ks ≡ native_nulls (native_of_key key) (type_of_key key) length fill) }
        ensures err { IsOkUnless result (Memory alloc_error) }
    {
        let data_type = DataType::from(key);
        macro_rules! nulls {
            ($key:ty) => {
                wrapped::<$key>(PrimitiveArray::of_nulls(alloc, &data_type, length, fill))
            };
        }
        let keys = match key {
            IntegerType::Int8 => nulls!(i8),
            IntegerType::Int16 => nulls!(i16),
            IntegerType::Int32 => nulls!(i32),
            IntegerType::Int64 => nulls!(i64),
            IntegerType::UInt8 => nulls!(u8),
            IntegerType::UInt16 => nulls!(u16),
            IntegerType::UInt32 => nulls!(u32),
            IntegerType::UInt64 => nulls!(u64),
        };
        drop(data_type);
        keys
    }
}

impl DictionaryArray {
    /// Returns the array without slots and values.
    ///
    /// # Errors
    /// `WrongType` where the logical type is not `Dictionary`, then those of `new_empty_array`.
    pub fn new_empty(alloc: Global, data_type: DataType) -> Result<DictionaryArray, Error>
        ensures { let t = type_of data_type in MatchResult result
            (λ a. (is_dictionary t ≡ true) × (empty_error t ≡ None) × HasNone t a)
            (λ e. RefusesDictionary e t (empty_error t)) }
    {
        DictionaryArray::checked(alloc, data_type, 0, Fill::Nothing)
    }

    /// Returns the array of `length` null keys over one null value.
    ///
    /// # Errors
    /// `WrongType` where the logical type is not `Dictionary`, then those of `new_null_array`.
    pub fn new_null(
        alloc: Global,
        data_type: DataType,
        length: usize,
    ) -> Result<DictionaryArray, Error>
        ensures { let t = type_of data_type in MatchResult result
            (λ a. (is_dictionary t ≡ true) × (type_error t length ≡ None) × HasNulls t length a)
            (λ e. RefusesDictionary e t (type_error t length)) }
    {
        DictionaryArray::checked(alloc, data_type, length, Fill::Nulls)
    }

    fn checked(
        alloc: Global,
        data_type: DataType,
        length: usize,
        fill: Fill,
    ) -> Result<DictionaryArray, Error>
        requires { Fills fill length }
        ensures { let t = type_of data_type in MatchResult result
            (λ a. (is_dictionary t ≡ true) × (error_of t length fill ≡ None) × (a ≡ nulls_of t length fill))
            (λ e. RefusesDictionary e t (error_of t length fill)) }
    {
        let array = match dictionary_error(&data_type, length, fill) {
            Some(error) => Err(error),
            None => DictionaryArray::nulls(alloc, &data_type, length, fill),
        };
        drop(data_type);
        array
    }

    /// Returns the array of `length` null keys, of a checked type.
    #[cycle(nulls)]
    pub(crate) fn nulls(
        alloc: Global,
        data_type: &DataType,
        length: usize,
        fill: Fill,
    ) -> Result<DictionaryArray, Error>
        requires kind { is_dictionary (type_of data_type.now) ≡ true }
        requires unrefused { error_of (type_of data_type.now) length fill ≡ None }
        requires valid { Fills fill length }
        ensures ok { IfOk result (λ a. a ≡ nulls_of (type_of data_type.now) length fill) }
        ensures err { IsOkUnless result (Memory alloc_error) }
    {
        let Some(key) = data_type.key_type() else {
            unreachable!()
        };
        let keys = AnyKeys::nulls(alloc, key, length, fill)?;
        let named = match null_array(alloc, value_type(data_type), values_below(fill), fill) {
            Ok(named) => named,
            Err(error) => {
                drop(keys);
                return Err(error);
            }
        };
        match data_type.clone(alloc) {
            Ok(data_type) => DictionaryArray::of(alloc, data_type, keys, named),
            Err(error) => {
                drop(named);
                drop(keys);
                Err(error)
            }
        }
    }
}
