//! The builder of dictionary arrays over any builder of the values.
ghost use Rattle.std.specs.Prelude.{◌≡◌, ◌≢◌, ◌<◌, ◌≤◌, ◌⊎◌, ◌↔◌, [], ℕ, ⊤, false, IfErr, IfOk, IsErrOf, IsNone, IsOk, IsOkUnless, IsTrue, None, OnErr, OnOk, Some, alloc_error};
ghost use Rattle.nest_model.specs.BuilderFreeze.{EncodesKeys};
ghost use Rattle.nest_model.specs.BuilderItem.{Lacks, IsValueAt, plain, takes};
ghost use Rattle.nest_model.specs.BuilderRefusals.{value_refusal};
ghost use Rattle.nest_model.specs.BuilderRow.{values_needed};
ghost use Rattle.nest_model.specs.BuilderTree as builders;
ghost use Rattle.nest_model.specs.BuilderTree.{key_count};
ghost use Rattle.nest_model.specs.BuilderComplete.{AreDifferent};
ghost use Rattle.nest_model.specs.Fits.{is_dictionary};
ghost use Rattle.nest_model.specs.Layout as layouts;
ghost use Rattle.nest_memory.specs.TypeTree.{key_type};
ghost use Rattle.nest_array.specs.SeenKeys.{keys_layout};
ghost use Rattle.nest_build.specs.Hashes.{value_hash};
ghost use Rattle.nest_build.specs.Keys.{IsKey, default_dictionaries, dictionary_child, builder_keys};
ghost use Rattle.nest_build.specs.Lists.{RefusesChild};
ghost use Rattle.nest_build.specs.Words.{Accepted, ChildNotEmpty, Fits, InvalidArgumentError, IsComplete, ItemType, Memory, Overflow, ReadsValue, Incomplete, builder_len, builder_type, emptied, layout_of, layout_type, own_slots, plain_refusal, plain_value, slots_of, type_of, validity_of};

use crate::array::{MutableArray, shared};
use crate::dictionary::data_type::DictionaryType;
use crate::dictionary::hash::hash_of;
use crate::dictionary::key::BuilderKey;
use crate::dictionary::rows::DictionaryRows;
use crate::dictionary::values::KeyedValues;
use crate::push::{TryExtend, TryPush, extend_by_push};
use nest_array::array::ArrayVariant;
use nest_array::{AnyArray, AnyKeys, DictionaryArray};
use nest_flat::plain::{AsPlain, Plain};
use nest_flat::primitive::mutable::MutablePrimitiveArray;
use nest_memory::bitmap::mutable::MutableBitmap;
use nest_memory::datatypes::DataType;
use nest_memory::error::{ArgumentError, Error};
use std::alloc::Global;
use std::rc::Rc;

/// A builder of dictionary arrays: a key per row, over a builder of the distinct values. arrow2's
/// `MutableDictionaryArray`.
///
/// The values are pairwise different, in the order in which they were first pushed. Values with equal hashes are
/// compared.
#[derive(Drop)]
pub struct MutableDictionaryArray<K: BuilderKey, M: MutableArray> {
    data_type: DictionaryType<K>,
    rows: DictionaryRows<K>,
    values: KeyedValues<M>,
    alloc: Global,
    ghost covered: { values_needed rows ≤ builder_len (M.model values.values) },
    ghost fits: { builder_len (M.model values.values) ≤ key_count K.KEY_TYPE },
}

impl<K: BuilderKey, M: MutableArray> MutableDictionaryArray<K, M> {
    /// Returns a builder without rows. `values` must be empty.
    ///
    /// # Errors
    /// `Memory` if an allocation fails.
    pub fn new(alloc: Global, values: M) -> Result<MutableDictionaryArray<K, M>, Error>
        requires complete { IsComplete (M.model values) }
        requires empty { builder_len (M.model values) ≡ 0 }
        ensures ok { IfOk result (λ b. ⟦<MutableDictionaryArray<K, M> as MutableArray>⟧.model b ≡ default_dictionaries K.KEY_TYPE (M.model values)) }
        ensures memory { IsOkUnless result (Memory alloc_error) }
    {
        let data_type = DictionaryType::of_values(alloc, values.data_type())?;
        Ok(MutableDictionaryArray {
            data_type,
            rows: DictionaryRows::new(alloc),
            values: KeyedValues::new(alloc, values),
            alloc,
        })
    }

    /// Returns a builder without rows, of a dictionary type with keys of type `K`. `values` must be empty.
    pub fn of_type(alloc: Global, data_type: DataType, values: M) -> MutableDictionaryArray<K, M>
        requires keys { key_type (type_of data_type) ≡ Some K.KEY_TYPE }
        requires empty { builder_len (M.model values) ≡ 0 }
        ensures { ⟦<MutableDictionaryArray<K, M> as MutableArray>⟧.model result ≡ builders.dictionary K.KEY_TYPE (type_of data_type) [] (M.model values) }
    {
        MutableDictionaryArray {
            data_type: DictionaryType::of_type(data_type),
            rows: DictionaryRows::new(alloc),
            values: KeyedValues::new(alloc, values),
            alloc,
        }
    }

    /// Returns a builder without rows, after checking that `values` is empty.
    ///
    /// # Errors
    /// `ChildNotEmpty` if `values` has rows, `Memory` if an allocation fails.
    pub fn try_from_values(alloc: Global, values: M) -> Result<MutableDictionaryArray<K, M>, Error>
        requires { IsComplete (M.model values) }
        ensures ok { IfOk result (λ b. ⟦<MutableDictionaryArray<K, M> as MutableArray>⟧.model b ≡ default_dictionaries K.KEY_TYPE (M.model values)) }
        ensures empty { IfOk result (λ b. builder_len (M.model values) ≡ 0) }
        ensures cause { IfErr result (RefusesChild (M.model values)) }
    {
        if !values.is_empty() {
            return Err(Error::InvalidArgumentError(ArgumentError::ChildNotEmpty));
        }
        MutableDictionaryArray::new(alloc, values)
    }

    /// Shows the prover that the data type is a dictionary type. Does nothing at run time.
    pub fn known(&self)
        ensures { IsTrue (is_dictionary (builder_type (⟦<MutableDictionaryArray<K, M> as MutableArray>⟧.model self.now))) }
    {
        let _type = self.data_type.get();
    }

    /// Returns the keys, one per row.
    pub fn keys(&self) -> &MutablePrimitiveArray<K>
        ensures spelled { EncodesKeys result.now (builder_keys (⟦<MutableDictionaryArray<K, M> as MutableArray>⟧.model self.now)) }
        ensures bare { builder_keys (⟦<MutableDictionaryArray<K, M> as MutableArray>⟧.model self.now) ≡ [] → validity_of result.now ≡ None }
    {
        self.rows.keys()
    }

    /// Returns the values.
    pub fn values(&self) -> &M
        ensures value { M.model result.now ≡ dictionary_child (⟦<MutableDictionaryArray<K, M> as MutableArray>⟧.model self.now) }
        ensures different { AreDifferent (own_slots (M.model result.now)) }
    {
        self.values.get()
    }

    /// Returns the key of a value, `None` if no value is equal to it. Does not allocate.
    pub fn key_of<T: AsPlain>(&self, value: &T) -> Option<K>
        ensures place { (k : ℕ) → IsKey K.numbers result k ↔ IsValueAt (dictionary_child (⟦<MutableDictionaryArray<K, M> as MutableArray>⟧.model self.now)) (T.value value.now) k }
        ensures absent { IsNone result ↔ Lacks (dictionary_child (⟦<MutableDictionaryArray<K, M> as MutableArray>⟧.model self.now)) (T.value value.now) }
    {
        let value = value.as_plain();
        match self.values.find(&value, hash_of(&value)) {
            Some(number) => K::from_index(number),
            None => None,
        }
    }

    // Whether a key is left for one more value.
    fn has_key(&self) -> bool
        ensures { IsTrue result ↔ (builder_len (dictionary_child (⟦<MutableDictionaryArray<K, M> as MutableArray>⟧.model self.now)) < key_count K.KEY_TYPE) }
    {
        K::from_index(self.values.get().len()).is_some()
    }

    // Appends a row with the value. Appends the value to the values if it is new.
    fn push_value(&mut self, value: &Plain<'_>) -> Result<(), Error>
        requires { IsComplete (⟦<MutableDictionaryArray<K, M> as MutableArray>⟧.model self.old) }
        ensures accepted { let tree = ⟦<MutableDictionaryArray<K, M> as MutableArray>⟧.model in OnOk result (Accepted (plain (plain_value value.now)) (tree self.old) (tree self.new)) }
        ensures unrefused { OnOk result (value_refusal (plain_value value.now) (⟦<MutableDictionaryArray<K, M> as MutableArray>⟧.model self.old) ≡ None) }
        ensures err { let tree = ⟦<MutableDictionaryArray<K, M> as MutableArray>⟧.model in OnErr result (tree self.new ≡ tree self.old) }
        ensures cause { IfErr result (λ e. (e ≡ Memory alloc_error) ⊎ (value_refusal (plain_value value.now) (⟦<MutableDictionaryArray<K, M> as MutableArray>⟧.model self.old) ≡ Some e)) }
    {
        let hash = hash_of(value);
        match self.values.find(value, hash) {
            Some(number) => self.push_known(value, number),
            None => {
                if !self.has_key() {
                    return Err(Error::Overflow);
                }
                self.push_new(value, hash)
            }
        }
    }

    // Appends a row with the value. Refuses a value of another kind first.
    fn push_kind(&mut self, value: &Plain<'_>) -> Result<(), Error>
        requires { IsComplete (⟦<MutableDictionaryArray<K, M> as MutableArray>⟧.model self.old) }
        ensures accepted { let tree = ⟦<MutableDictionaryArray<K, M> as MutableArray>⟧.model in OnOk result (Accepted (plain (plain_value value.now)) (tree self.old) (tree self.new)) }
        ensures unrefused { OnOk result (plain_refusal (plain_value value.now) (⟦<MutableDictionaryArray<K, M> as MutableArray>⟧.model self.old) ≡ None) }
        ensures err { let tree = ⟦<MutableDictionaryArray<K, M> as MutableArray>⟧.model in OnErr result (tree self.new ≡ tree self.old) }
        ensures kind { IsErrOf result (InvalidArgumentError ItemType) ↔ (takes (⟦<MutableDictionaryArray<K, M> as MutableArray>⟧.model self.old) (plain_value value.now) ≡ false) }
        ensures cause { IfErr result (λ e. (e ≡ Memory alloc_error) ⊎ (plain_refusal (plain_value value.now) (⟦<MutableDictionaryArray<K, M> as MutableArray>⟧.model self.old) ≡ Some e)) }
    {
        let hash = hash_of(value);
        match self.values.find(value, hash) {
            Some(number) => self.push_known(value, number),
            None => {
                if !self.has_key() {
                    return Err(self.refusal(value, hash));
                }
                self.push_new(value, hash)
            }
        }
    }

    // Appends a row with the existing value at an index.
    fn push_known(&mut self, _value: &Plain<'_>, number: usize) -> Result<(), Error>
        requires complete { IsComplete (⟦<MutableDictionaryArray<K, M> as MutableArray>⟧.model self.old) }
        requires known { IsValueAt (dictionary_child (⟦<MutableDictionaryArray<K, M> as MutableArray>⟧.model self.old)) (plain_value _value.now) number }
        ensures accepted { let tree = ⟦<MutableDictionaryArray<K, M> as MutableArray>⟧.model in OnOk result (Accepted (plain (plain_value _value.now)) (tree self.old) (tree self.new)) }
        ensures unrefused { OnOk result (value_refusal (plain_value _value.now) (⟦<MutableDictionaryArray<K, M> as MutableArray>⟧.model self.old) ≡ None) }
        ensures err { let tree = ⟦<MutableDictionaryArray<K, M> as MutableArray>⟧.model in OnErr result (tree self.new ≡ tree self.old) }
        ensures memory { IsOkUnless result (Memory alloc_error) }
    {
        let _count = self.values.get().len();
        if let Err(error) = self.rows.push(Some(number)) {
            return Err(error);
        }
        Ok(())
    }

    // Appends a row with a new value of this hash. A key is left for it.
    fn push_new(&mut self, value: &Plain<'_>, hash: u64) -> Result<(), Error>
        requires hash { hash ≡ value_hash (plain_value value.now) }
        requires complete { IsComplete (⟦<MutableDictionaryArray<K, M> as MutableArray>⟧.model self.old) }
        requires unknown { Lacks (dictionary_child (⟦<MutableDictionaryArray<K, M> as MutableArray>⟧.model self.old)) (plain_value value.now) }
        requires room { builder_len (dictionary_child (⟦<MutableDictionaryArray<K, M> as MutableArray>⟧.model self.old)) < key_count K.KEY_TYPE }
        ensures accepted { let tree = ⟦<MutableDictionaryArray<K, M> as MutableArray>⟧.model in OnOk result (Accepted (plain (plain_value value.now)) (tree self.old) (tree self.new)) }
        ensures unrefused { OnOk result (value_refusal (plain_value value.now) (⟦<MutableDictionaryArray<K, M> as MutableArray>⟧.model self.old) ≡ None) }
        ensures err { let tree = ⟦<MutableDictionaryArray<K, M> as MutableArray>⟧.model in OnErr result (tree self.new ≡ tree self.old) }
        ensures kind { IsErrOf result (InvalidArgumentError ItemType) ↔ (takes (dictionary_child (⟦<MutableDictionaryArray<K, M> as MutableArray>⟧.model self.old)) (plain_value value.now) ≡ false) }
        ensures cause { IfErr result (λ e. (e ≡ Memory alloc_error) ⊎ (plain_refusal (plain_value value.now) (dictionary_child (⟦<MutableDictionaryArray<K, M> as MutableArray>⟧.model self.old)) ≡ Some e)) }
    {
        let number = self.values.get().len();
        if let Err(refusal) = self.values.push(*value, hash) {
            return Err(refusal);
        }
        let _more = self.values.get().len();
        match self.rows.push(Some(number)) {
            Ok(()) => Ok(()),
            Err(error) => {
                self.values.truncate(number);
                Err(error)
            }
        }
    }

    // The error of pushing a new value where no key is left. A push to the child shows whether it accepts the value.
    fn refusal(&mut self, value: &Plain<'_>, hash: u64) -> Error
        requires hash { hash ≡ value_hash (plain_value value.now) }
        requires complete { IsComplete (⟦<MutableDictionaryArray<K, M> as MutableArray>⟧.model self.old) }
        requires unknown { Lacks (dictionary_child (⟦<MutableDictionaryArray<K, M> as MutableArray>⟧.model self.old)) (plain_value value.now) }
        requires full { key_count K.KEY_TYPE ≤ builder_len (dictionary_child (⟦<MutableDictionaryArray<K, M> as MutableArray>⟧.model self.old)) }
        ensures same { let tree = ⟦<MutableDictionaryArray<K, M> as MutableArray>⟧.model in tree self.new ≡ tree self.old }
        ensures kind { (result ≡ InvalidArgumentError ItemType) ↔ (takes (dictionary_child (⟦<MutableDictionaryArray<K, M> as MutableArray>⟧.model self.old)) (plain_value value.now) ≡ false) }
        ensures cause { plain_refusal (plain_value value.now) (⟦<MutableDictionaryArray<K, M> as MutableArray>⟧.model self.old) ≡ Some result }
    {
        let number = self.values.get().len();
        if let Err(refusal) = self.values.push(*value, hash) {
            return kind_first(refusal);
        }
        self.values.truncate(number);
        Error::Overflow
    }

    /// Freezes the builder: returns the array of its rows. The builder keeps its data type; it has no rows, no values
    /// and no validity afterwards, also after `Memory`.
    ///
    /// # Errors
    /// `Incomplete` if the builder is not complete; then nothing changes. `Memory` if an allocation fails.
    pub fn freeze(&mut self) -> Result<DictionaryArray, Error>
        ensures slots { IfOk result (λ a. slots_of a ≡ own_slots (⟦<MutableDictionaryArray<K, M> as MutableArray>⟧.model self.old)) }
        ensures same_type { IfOk result (λ a. layout_type a ≡ builder_type (⟦<MutableDictionaryArray<K, M> as MutableArray>⟧.model self.old)) }
        ensures incomplete { IsErrOf result (InvalidArgumentError Incomplete) ↔ ¬ IsComplete (⟦<MutableDictionaryArray<K, M> as MutableArray>⟧.model self.old) }
        ensures unchanged { let tree = ⟦<MutableDictionaryArray<K, M> as MutableArray>⟧.model in ¬ IsComplete (tree self.old) → tree self.new ≡ tree self.old }
        ensures emptied { let tree = ⟦<MutableDictionaryArray<K, M> as MutableArray>⟧.model in IsComplete (tree self.old) → tree self.new ≡ emptied (tree self.old) }
        ensures validity { IsComplete (⟦<MutableDictionaryArray<K, M> as MutableArray>⟧.model self.old) → ⟦<MutableDictionaryArray<K, M> as MutableArray>⟧.bare self.new }
        ensures errors { IfErr result (λ e. (e ≡ InvalidArgumentError Incomplete) ⊎ (e ≡ Memory alloc_error)) }
    {
        if !self.is_complete() {
            return Err(Error::InvalidArgumentError(ArgumentError::Incomplete));
        }
        let keys = self.rows.freeze();
        match self.values.freeze(self.alloc, self.data_type.get()) {
            Ok((data_type, values)) => over(self.alloc, data_type, keys, values),
            Err(error) => {
                drop(keys);
                Err(error)
            }
        }
    }

    /// Freezes the builder and consumes it.
    ///
    /// # Errors
    /// `Incomplete` if the builder is not complete, `Memory` if an allocation fails. The builder is dropped.
    pub fn into_box(self) -> Result<AnyArray, Error>
        ensures slots { IfOk result (λ a. slots_of (layout_of a) ≡ own_slots (⟦<MutableDictionaryArray<K, M> as MutableArray>⟧.model self)) }
        ensures same_type { IfOk result (λ a. layout_type (layout_of a) ≡ builder_type (⟦<MutableDictionaryArray<K, M> as MutableArray>⟧.model self)) }
        ensures incomplete { IsErrOf result (InvalidArgumentError Incomplete) ↔ ¬ IsComplete (⟦<MutableDictionaryArray<K, M> as MutableArray>⟧.model self) }
        ensures errors { IfErr result (λ e. (e ≡ InvalidArgumentError Incomplete) ⊎ (e ≡ Memory alloc_error)) }
    {
        let mut rows = self;
        let array = rows.as_box();
        drop(rows);
        array
    }

    /// Freezes the builder, consumes it and returns the array in an `Rc`.
    ///
    /// # Errors
    /// As `into_box`.
    pub fn into_arc(self, alloc: Global) -> Result<Rc<AnyArray>, Error>
        ensures slots { IfOk result (λ r. slots_of (layout_of r.value) ≡ own_slots (⟦<MutableDictionaryArray<K, M> as MutableArray>⟧.model self)) }
        ensures same_type { IfOk result (λ r. layout_type (layout_of r.value) ≡ builder_type (⟦<MutableDictionaryArray<K, M> as MutableArray>⟧.model self)) }
        ensures incomplete { IsErrOf result (InvalidArgumentError Incomplete) ↔ ¬ IsComplete (⟦<MutableDictionaryArray<K, M> as MutableArray>⟧.model self) }
        ensures errors { IfErr result (λ e. (e ≡ InvalidArgumentError Incomplete) ⊎ (e ≡ Memory alloc_error)) }
    {
        let mut rows = self;
        let array = rows.as_arc(alloc);
        drop(rows);
        array
    }
}

// The error where no key is left: `ItemType` if the child returned it, else `Overflow`.
fn kind_first(refusal: Error) -> Error
    ensures kind { (result ≡ InvalidArgumentError ItemType) ↔ (refusal ≡ InvalidArgumentError ItemType) }
    ensures other { refusal ≢ InvalidArgumentError ItemType → result ≡ Overflow }
{
    match refusal {
        Error::InvalidArgumentError(ArgumentError::ItemType) => {
            Error::InvalidArgumentError(ArgumentError::ItemType)
        }
        _ => Error::Overflow,
    }
}

// The array of these keys and values, or the error of the keys.
fn over(
    alloc: Global,
    data_type: DataType,
    keys: Result<AnyKeys, Error>,
    values: AnyArray,
) -> Result<DictionaryArray, Error>
    requires fits { IfOk keys (λ ks. Fits (layouts.dictionary (type_of data_type) (keys_layout ks) (layout_of values))) }
    requires memory { IsOkUnless keys (Memory alloc_error) }
    ensures ok { IfOk result (λ a. IfOk keys (λ ks. a ≡ layouts.dictionary (type_of data_type) (keys_layout ks) (layout_of values))) }
    ensures made { OnOk result (IsOk keys) }
    ensures err { IsOkUnless result (Memory alloc_error) }
{
    match keys {
        Ok(keys) => DictionaryArray::new(alloc, data_type, keys, values),
        Err(error) => {
            drop(values);
            drop(data_type);
            Err(error)
        }
    }
}

impl<K: BuilderKey, M: MutableArray> MutableArray for MutableDictionaryArray<K, M> {
    ghost model = { λ b. builders.dictionary K.KEY_TYPE b.data_type b.rows (M.model b.values.values) };

    ghost bare = { λ b. b.rows ≡ [] };

    fn data_type(&self) -> &DataType {
        self.data_type.get()
    }

    fn len(&self) -> usize {
        self.rows.len()
    }

    fn is_empty(&self) -> bool {
        self.rows.len() == 0
    }

    fn validity(&self) -> Option<&MutableBitmap> {
        self.rows.validity()
    }

    fn is_valid(&self, i: usize) -> bool {
        self.rows.is_valid(i)
    }

    fn is_complete(&self) -> bool {
        let values = self.values.get();
        values.is_complete()
            && self.data_type.has_values(values.data_type())
            && values.len() == self.rows.needed()
    }

    fn holds(&self, i: usize, value: &Plain<'_>) -> bool {
        match self.rows.key(i) {
            Some(number) => self.values.get().holds(number, value),
            None => false,
        }
    }

    fn push_null(&mut self) -> Result<(), Error> {
        if let Err(error) = self.rows.push(None) {
            return Err(error);
        }
        Ok(())
    }

    fn try_push_plain(&mut self, value: Option<Plain<'_>>) -> Result<(), Error> {
        match value {
            None => self.push_null(),
            Some(value) => self.push_kind(&value),
        }
    }

    fn truncate(&mut self, n: usize) {
        self.rows.truncate(n);
        let needed = self.rows.needed();
        self.values.truncate(needed);
    }

    fn reserve(&mut self, additional: usize) -> Result<(), Error> {
        self.rows.reserve(additional)
    }

    fn shrink_to_fit(&mut self) -> Result<(), Error> {
        self.rows.shrink_to_fit();
        self.values.shrink_to_fit()
    }

    fn as_box(&mut self) -> Result<AnyArray, Error> {
        match self.freeze() {
            Ok(dictionaries) => Ok(dictionaries.into_any()),
            Err(error) => Err(error),
        }
    }

    fn as_arc(&mut self, alloc: Global) -> Result<Rc<AnyArray>, Error> {
        shared(self.as_box(), alloc)
    }
}

impl<K: BuilderKey, M: TryPush<Option<T>>, T: AsPlain + Drop> TryPush<Option<T>>
    for MutableDictionaryArray<K, M> {
    ghost can_push = { λ _. ⊤ };

    ghost reads = { ReadsValue T.value };

    fn try_push(&mut self, item: Option<T>) -> Result<(), Error> {
        match item {
            None => self.push_null(),
            Some(value) => self.push_value(&value.as_plain()),
        }
    }
}

impl<K: BuilderKey, M: TryPush<Option<T>>, T: AsPlain + Drop> TryExtend<Option<T>>
    for MutableDictionaryArray<K, M> {
    ghost can_extend = { λ _. ⊤ };

    ghost reads_each = { ReadsValue T.value };

    fn try_extend<I: IntoIterator<Item = Option<T>>>(&mut self, items: I) -> Result<(), Error> {
        extend_by_push(self, items)
    }
}
