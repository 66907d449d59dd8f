//! Data types of dictionary builders.
ghost use Rattle.std.specs.Prelude.{◌≡◌, ◌↔◌, Some, true, IfOk, IsOkUnless, IsTrue, alloc_error};
ghost use Rattle.nest_array.specs.Types.{default_dictionary_type};
ghost use Rattle.nest_memory.specs.TypeTree.{key_type, value_type};
ghost use Rattle.nest_model.specs.Fits.{IsLogically, is_dictionary};
ghost use Rattle.nest_build.specs.Words.{Memory, type_of};

use nest_array::DictionaryKey;
use nest_memory::datatypes::DataType;
use nest_memory::error::Error;
use std::alloc::Global;
use std::marker::{Model, PhantomData};

/// A dictionary type with keys of type `K`.
#[derive(Drop)]
pub(super) struct DictionaryType<K: DictionaryKey> {
    data_type: DataType,
    key: PhantomData<K>,
}

impl<K: DictionaryKey> Model for DictionaryType<K> {
    ghost use Rattle.std.specs.Prelude.{◌≡◌, Some, IsTrue};
    ghost use Rattle.nest_memory.specs.TypeTree.{TypeTree, key_type};
    ghost use Rattle.nest_memory.specs.TypeCode.{coded_type};
    ghost use Rattle.nest_memory.specs.TypeOf.{type_of};
    ghost use Rattle.nest_model.specs.Fits.{is_dictionary};

    ghost Value = { TypeTree };

    ghost coded = { coded_type };

    ghost view = { λ a. type_of a.data_type };

    ghost invariant = { λ a. IsTrue (is_dictionary (type_of a.data_type)) × (key_type (type_of a.data_type) ≡ Some K.KEY_TYPE) };
}

impl<K: DictionaryKey> DictionaryType<K> {
    /// Returns the type of unordered dictionaries with values of this type.
    pub(super) fn of_values(alloc: Global, values: &DataType) -> Result<DictionaryType<K>, Error>
        ensures ok { IfOk result (λ t. t ≡ default_dictionary_type K.KEY_TYPE (type_of values.now)) }
        ensures memory { IsOkUnless result (Memory alloc_error) }
    {
        let values = values.clone(alloc)?;
        let values = Box::new(alloc, values)?;
        Ok(DictionaryType {
            data_type: DataType::Dictionary(K::KEY_TYPE, values, false),
            key: PhantomData,
        })
    }

    /// Wraps a dictionary type with keys of type `K`.
    pub(super) fn of_type(data_type: DataType) -> DictionaryType<K>
        requires { key_type (type_of data_type) ≡ Some K.KEY_TYPE }
        ensures { result ≡ type_of data_type }
    {
        DictionaryType {
            data_type,
            key: PhantomData,
        }
    }

    /// Returns the data type.
    pub(super) fn get(&self) -> &DataType
        ensures value { type_of result.now ≡ self.now }
        ensures dictionary { IsTrue (is_dictionary self.now) }
        ensures keys { key_type self.now ≡ Some K.KEY_TYPE }
    {
        &self.data_type
    }

    /// Returns whether the logical type of the dictionary values equals that of `values`.
    pub(super) fn has_values(&self, values: &DataType) -> bool
        ensures { IsTrue result ↔ IsLogically (value_type self.now) (type_of values.now) }
    {
        match self.data_type.value_type() {
            None => false,
            Some(own) => *values.to_logical_type() == *own.to_logical_type(),
        }
    }
}
