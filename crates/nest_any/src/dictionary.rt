//! A dictionary builder with keys of any width.
ghost use Rattle.std.specs.Prelude.{◌≡◌, ◌⊎◌, ◌↔◌, ℕ, [], IfErr, IfOk, IsOkUnless, IsTrue, MatchOption, Some, alloc_error};
ghost use Rattle.nest_any.specs.Dictionaries.{dictionary_tree, keyed_rows};
ghost use Rattle.nest_any.specs.Flat.{values_tree};
ghost use Rattle.nest_any.specs.Trees.{tree_of};
ghost use Rattle.nest_any.specs.Words.{AreFlat, FailFirst, Memory, Pass, builder_len, builder_type, is_flat, key_type, keyed_checks, own_slots, type_of, value_type};
ghost use Rattle.nest_build.specs.Keys.{dictionary_child};
ghost use Rattle.nest_model.specs.BuilderItem.{IsValueAt};
ghost use Rattle.nest_model.specs.BuilderTree as builders;
ghost use Rattle.nest_model.specs.BuilderComplete.{AreDifferent};
ghost use Rattle.nest_model.specs.Fits.{IsLogically, is_dictionary};

use crate::any::AnyMutableArray;
use crate::flat::AnyMutableFlat;
use nest_array::AnyArray;
use nest_build::array::{MutableArray, shared};
use nest_build::dictionary::{BuilderKey, MutableDictionaryArray};
use nest_flat::plain::{AsPlain, Plain};
use nest_memory::bitmap::mutable::MutableBitmap;
use nest_memory::datatypes::physical_type::PhysicalType;
use nest_memory::datatypes::{DataType, IntegerType};
use nest_memory::error::{ArgumentError, Error, SpecError};
use std::alloc::Global;
use std::rc::Rc;

/// A dictionary builder over flat values, in the variant of its key type. Each is boxed, since an enum of all of them
/// has more fields than the toolchain supports.
#[derive(Drop)]
pub enum AnyMutableDictionary {
    Int8(Box<MutableDictionaryArray<i8, AnyMutableFlat>>),
    Int16(Box<MutableDictionaryArray<i16, AnyMutableFlat>>),
    Int32(Box<MutableDictionaryArray<i32, AnyMutableFlat>>),
    Int64(Box<MutableDictionaryArray<i64, AnyMutableFlat>>),
    UInt8(Box<MutableDictionaryArray<u8, AnyMutableFlat>>),
    UInt16(Box<MutableDictionaryArray<u16, AnyMutableFlat>>),
    UInt32(Box<MutableDictionaryArray<u32, AnyMutableFlat>>),
    UInt64(Box<MutableDictionaryArray<u64, AnyMutableFlat>>),
}

// Evaluates an expression with the builder of any key type.
macro_rules! each_width {
    ($any:expr, $keyed:ident => $body:expr) => {
        match $any {
            AnyMutableDictionary::Int8($keyed) => $body,
            AnyMutableDictionary::Int16($keyed) => $body,
            AnyMutableDictionary::Int32($keyed) => $body,
            AnyMutableDictionary::Int64($keyed) => $body,
            AnyMutableDictionary::UInt8($keyed) => $body,
            AnyMutableDictionary::UInt16($keyed) => $body,
            AnyMutableDictionary::UInt32($keyed) => $body,
            AnyMutableDictionary::UInt64($keyed) => $body,
        }
    };
}

// Boxes a builder in the variant of its key type.
macro_rules! made {
    ($width:ident, $alloc:ident, $data_type:ident, $values:ident) => {
        match boxed($alloc, $data_type, $values) {
            Ok(keyed) => Ok(AnyMutableDictionary::$width(keyed)),
            Err(error) => Err(error),
        }
    };
}

impl AnyMutableDictionary {
    /// Returns a builder without rows, of a dictionary type, after checking the child.
    ///
    /// # Errors
    /// The first of: `WrongType` if the values of the dictionary type are nulls or have children; `ChildNotEmpty` if
    /// the child has rows; `ChildType` if the child has another logical type. `Memory` if an allocation fails.
    pub(crate) fn try_new(
        alloc: Global,
        keys: IntegerType,
        data_type: DataType,
        child: AnyMutableArray,
    ) -> Result<AnyMutableDictionary, Error>
        requires { key_type (type_of data_type) ≡ Some keys }
        ensures ok { IfOk result (λ b. dictionary_tree b ≡ builders.dictionary keys (type_of data_type) [] (tree_of child)) }
        ensures passed { IfOk result (λ b. Pass (keyed_checks (type_of data_type) (tree_of child))) }
        ensures cause { IfErr result (λ e. (e ≡ Memory alloc_error) ⊎ FailFirst e (keyed_checks (type_of data_type) (tree_of child))) }
    {
        if let Some(error) = first_error(&data_type, &child) {
            drop(child);
            drop(data_type);
            return Err(error);
        }
        match child.into_flat() {
            Some(values) => AnyMutableDictionary::of_type(alloc, keys, data_type, values),
            None => {
                drop(data_type);
                Err(Error::OutOfSpec(SpecError::ChildType))
            }
        }
    }

    // A builder without rows of a data type, over an empty child.
    fn of_type(
        alloc: Global,
        keys: IntegerType,
        data_type: DataType,
        values: AnyMutableFlat,
    ) -> Result<AnyMutableDictionary, Error>
        requires keys { key_type (type_of data_type) ≡ Some keys }
        requires empty { builder_len (values_tree values) ≡ 0 }
        ensures ok { IfOk result (λ b. dictionary_tree b ≡ builders.dictionary keys (type_of data_type) [] (values_tree values)) }
        ensures memory { IsOkUnless result (Memory alloc_error) }
    {
        match keys {
            IntegerType::Int8 => made!(Int8, alloc, data_type, values),
            IntegerType::Int16 => made!(Int16, alloc, data_type, values),
            IntegerType::Int32 => made!(Int32, alloc, data_type, values),
            IntegerType::Int64 => made!(Int64, alloc, data_type, values),
            IntegerType::UInt8 => made!(UInt8, alloc, data_type, values),
            IntegerType::UInt16 => made!(UInt16, alloc, data_type, values),
            IntegerType::UInt32 => made!(UInt32, alloc, data_type, values),
            IntegerType::UInt64 => made!(UInt64, alloc, data_type, values),
        }
    }

    /// Shows the prover that the data type is a dictionary type. Does nothing at run time.
    pub(crate) fn known(&self)
        ensures { IsTrue (is_dictionary (builder_type (dictionary_tree self.now))) }
    {
        each_width!(self, keyed => keyed.known())
    }

    /// Returns the values.
    pub fn values(&self) -> &AnyMutableFlat
        ensures value { values_tree result.now ≡ dictionary_child (dictionary_tree self.now) }
        ensures different { AreDifferent (own_slots (values_tree result.now)) }
    {
        each_width!(self, keyed => keyed.values())
    }

    /// Returns the key of a value as an index into the values, `None` if no value is equal to it. Does not allocate.
    pub fn key_of<T: AsPlain>(&self, value: &T) -> Option<usize>
        ensures { (k : ℕ) → (result ≡ Some k) ↔ IsValueAt (dictionary_child (dictionary_tree self.now)) (T.value value.now) k }
    {
        each_width!(self, keyed => place_of(keyed, value))
    }
}

/// Returns the first failed check of a new dictionary builder.
fn first_error(data_type: &DataType, child: &AnyMutableArray) -> Option<Error>
    ensures { MatchOption result
        (Pass (keyed_checks (type_of data_type.now) (tree_of child.now)))
        (λ e. FailFirst e (keyed_checks (type_of data_type.now) (tree_of child.now))) }
{
    if !has_flat_values(data_type) {
        return Some(Error::OutOfSpec(SpecError::WrongType));
    }
    if child.len() != 0 {
        return Some(Error::InvalidArgumentError(ArgumentError::ChildNotEmpty));
    }
    if !has_values(data_type, child.data_type()) {
        return Some(Error::OutOfSpec(SpecError::ChildType));
    }
    None
}

/// Returns whether the values of a dictionary type have no children and are not nulls.
fn has_flat_values(data_type: &DataType) -> bool
    ensures { IsTrue result ↔ AreFlat (value_type (type_of data_type.now)) }
{
    match data_type.value_type() {
        None => false,
        Some(values) => is_flat(values.to_physical_type()),
    }
}

/// Returns whether the values of a dictionary type have the logical type of `values`.
fn has_values(data_type: &DataType, values: &DataType) -> bool
    ensures { IsTrue result ↔ IsLogically (value_type (type_of data_type.now)) (type_of values.now) }
{
    match data_type.value_type() {
        None => false,
        Some(value) => *values.to_logical_type() == *value.to_logical_type(),
    }
}

/// Returns whether values of a physical type have no children and are not nulls.
fn is_flat(physical: PhysicalType) -> bool
    ensures { result ≡ is_flat physical }
{
    match physical {
        PhysicalType::Boolean
        | PhysicalType::Primitive(_)
        | PhysicalType::Binary
        | PhysicalType::FixedSizeBinary
        | PhysicalType::LargeBinary
        | PhysicalType::Utf8
        | PhysicalType::LargeUtf8 => true,
        _ => false,
    }
}

// A builder without rows with keys of one type, over an empty child.
fn boxed<K: BuilderKey>(
    alloc: Global,
    data_type: DataType,
    values: AnyMutableFlat,
) -> Result<Box<MutableDictionaryArray<K, AnyMutableFlat>>, Error>
    requires keys { key_type (type_of data_type) ≡ Some K.KEY_TYPE }
    requires empty { builder_len (values_tree values) ≡ 0 }
    ensures ok { IfOk result (λ b. ⟦<MutableDictionaryArray<K, AnyMutableFlat> as MutableArray>⟧.model b.value ≡ builders.dictionary K.KEY_TYPE (type_of data_type) [] (values_tree values)) }
    ensures memory { IsOkUnless result (Memory alloc_error) }
{
    match Box::new(
        alloc,
        MutableDictionaryArray::of_type(alloc, data_type, values),
    ) {
        Ok(keyed) => Ok(keyed),
        Err(error) => Err(error.into()),
    }
}

// The key of a value as an index.
fn place_of<K: BuilderKey, T: AsPlain>(
    keyed: &MutableDictionaryArray<K, AnyMutableFlat>,
    value: &T,
) -> Option<usize>
    ensures { (k : ℕ) → (result ≡ Some k) ↔ IsValueAt (dictionary_child (⟦<MutableDictionaryArray<K, AnyMutableFlat> as MutableArray>⟧.model keyed.now)) (T.value value.now) k }
{
    match keyed.key_of(value) {
        Some(key) => key.to_index(),
        None => None,
    }
}

impl MutableArray for AnyMutableDictionary {
    ghost model = { dictionary_tree };

    ghost bare = { λ b. keyed_rows b ≡ [] };

    fn data_type(&self) -> &DataType {
        each_width!(self, keyed => keyed.data_type())
    }

    fn len(&self) -> usize {
        each_width!(self, keyed => keyed.len())
    }

    fn is_empty(&self) -> bool {
        self.len() == 0
    }

    fn validity(&self) -> Option<&MutableBitmap> {
        each_width!(self, keyed => keyed.validity())
    }

    fn is_valid(&self, i: usize) -> bool {
        each_width!(self, keyed => keyed.is_valid(i))
    }

    fn is_complete(&self) -> bool {
        each_width!(self, keyed => keyed.is_complete())
    }

    fn holds(&self, i: usize, value: &Plain<'_>) -> bool {
        each_width!(self, keyed => keyed.holds(i, value))
    }

    fn push_null(&mut self) -> Result<(), Error> {
        each_width!(self, keyed => keyed.push_null())
    }

    fn try_push_plain(&mut self, value: Option<Plain<'_>>) -> Result<(), Error> {
        each_width!(self, keyed => keyed.try_push_plain(value))
    }

    fn truncate(&mut self, n: usize) {
        each_width!(self, keyed => keyed.truncate(n))
    }

    fn reserve(&mut self, additional: usize) -> Result<(), Error> {
        each_width!(self, keyed => keyed.reserve(additional))
    }

    fn shrink_to_fit(&mut self) -> Result<(), Error> {
        each_width!(self, keyed => keyed.shrink_to_fit())
    }

    fn as_box(&mut self) -> Result<AnyArray, Error> {
        each_width!(self, keyed => keyed.as_box())
    }

    fn as_arc(&mut self, alloc: Global) -> Result<Rc<AnyArray>, Error> {
        shared(self.as_box(), alloc)
    }
}
