//! Builders of dictionaries, and the hash table by which they find the key of a value.
ghost use Rattle.std.specs.Prelude.{◌≡◌, ◌≢◌, ◌⊎◌, [], IfErr, IfOk, IsOkUnless, Some, alloc_error, ◌≤◌, ◌<◌, ◌↔◌, ◌++◌, ◌∷◌, true, false, ℕ, length, slice_get, take, OnOk, OnErr, IfSome, IfNone, IsNone};
ghost use Rattle.nest_build.specs.Keys.{IsKey, default_dictionaries, dictionary_child};
ghost use Rattle.nest_memory.specs.TypeOf.{type_of};
ghost use Rattle.nest_memory.specs.TypeTree.{key_type};
ghost use Rattle.nest_memory.specs.declared.error.ArgumentError.TheVariants.{ChildNotEmpty};
ghost use Rattle.nest_memory.specs.declared.error.Error.TheVariants.{InvalidArgumentError, Memory};
ghost use Rattle.nest_model.specs.BuilderItem.{Lacks, IsValueAt};
ghost use Rattle.nest_model.specs.BuilderLevels.{own_slots};
ghost use Rattle.nest_model.specs.BuilderTree as builders;
ghost use Rattle.nest_model.specs.BuilderTree.{builder_len};
ghost use Rattle.nest_model.specs.BuilderComplete.{IsComplete, AreDifferent};

use nest_build::array::MutableArray;
use nest_build::dictionary::{BuilderKey, KeyTable, MutableDictionaryArray};
use nest_flat::plain::AsPlain;
use nest_memory::datatypes::DataType;
use nest_memory::error::Error;
use std::alloc::Global;

/// Returns a builder of dictionaries without rows over a child without rows.
pub fn new_dictionary_builder<K: BuilderKey, M: MutableArray>(
    alloc: Global,
    values: M,
) -> Result<MutableDictionaryArray<K, M>, Error>
    requires complete { IsComplete (M.model values) }
    requires empty { builder_len (M.model values) ≡ 0 }
    ensures ok { let tree = ⟦<MutableDictionaryArray<K, M> as MutableArray>⟧.model in
        IfOk result (λ b. tree b ≡ default_dictionaries K.KEY_TYPE (M.model values)) }
    ensures memory { IsOkUnless result (Memory alloc_error) }
{
    MutableDictionaryArray::new(alloc, values)
}

/// Returns a builder of dictionaries over a child. Fails exactly where the child has rows, or when an allocation fails.
pub fn try_new_dictionary_builder<K: BuilderKey, M: MutableArray>(
    alloc: Global,
    values: M,
) -> Result<MutableDictionaryArray<K, M>, Error>
    requires { IsComplete (M.model values) }
    ensures ok { let tree = ⟦<MutableDictionaryArray<K, M> as MutableArray>⟧.model in
        IfOk result (λ b. tree b ≡ default_dictionaries K.KEY_TYPE (M.model values)) }
    ensures empty { IfOk result (λ b. builder_len (M.model values) ≡ 0) }
    ensures refused { IfErr result (λ e. (e ≡ Memory alloc_error) ⊎ ((e ≡ InvalidArgumentError ChildNotEmpty) × (builder_len (M.model values) ≢ 0))) }
{
    MutableDictionaryArray::try_from_values(alloc, values)
}

/// Returns a builder of dictionaries of a data type over a child without rows.
pub fn dictionary_builder_of_type<K: BuilderKey, M: MutableArray>(
    alloc: Global,
    data_type: DataType,
    values: M,
) -> MutableDictionaryArray<K, M>
    requires keys { key_type (type_of data_type) ≡ Some K.KEY_TYPE }
    requires empty { builder_len (M.model values) ≡ 0 }
    ensures { let tree = ⟦<MutableDictionaryArray<K, M> as MutableArray>⟧.model in
        tree result ≡ builders.dictionary K.KEY_TYPE (type_of data_type) [] (M.model values) }
{
    MutableDictionaryArray::of_type(alloc, data_type, values)
}

/// Appends a hash to the table under the next key, or changes nothing.
pub fn push_hash(table: &mut KeyTable, hash: u64) -> Result<(), Error>
    ensures ok { OnOk result (table.new ≡ table.old ++ hash ∷ []) }
    ensures err { OnErr result (table.new ≡ table.old) }
    ensures memory { IsOkUnless result (Memory alloc_error) }
{
    table.push(hash)
}

/// Returns a key with this hash for which the test is true. On `None` the test is false for every key with this hash.
pub fn find_key<F: Fn(usize) -> bool>(table: &KeyTable, hash: u64, test: F) -> Option<usize>
    requires { (k : ℕ) → k < length table.now → F.pre test k }
    ensures found { IfSome result (λ k. (slice_get table.now k ≡ Some hash) × F.post test k true) }
    ensures none { IfNone result ((k : ℕ) → slice_get table.now k ≡ Some hash → F.post test k false) }
{
    table.find(hash, test)
}

/// Keeps the first `n` hashes.
pub fn truncate_hashes(table: &mut KeyTable, n: usize)
    requires { n ≤ length table.old }
    ensures { table.new ≡ take n table.old }
{
    table.truncate(n)
}

/// Returns the values of a builder of dictionaries, which are pairwise different.
pub fn distinct_values<K: BuilderKey, M: MutableArray>(builder: &MutableDictionaryArray<K, M>) -> &M
    ensures value { M.model result.now ≡ dictionary_child (⟦<MutableDictionaryArray<K, M> as MutableArray>⟧.model builder.now) }
    ensures different { AreDifferent (own_slots (M.model result.now)) }
{
    builder.values()
}

/// Returns the key of a value: its index among the values. Returns `None` exactly where it is not among them.
pub fn key_of_value<K: BuilderKey, M: MutableArray, T: AsPlain>(
    builder: &MutableDictionaryArray<K, M>,
    value: &T,
) -> Option<K>
    ensures index { let c = dictionary_child (⟦<MutableDictionaryArray<K, M> as MutableArray>⟧.model builder.now) in
        (k : ℕ) → IsKey K.numbers result k ↔ IsValueAt c (T.value value.now) k }
    ensures absent { let tree = ⟦<MutableDictionaryArray<K, M> as MutableArray>⟧.model in
        IsNone result ↔ Lacks (dictionary_child (tree builder.now)) (T.value value.now) }
{
    builder.key_of(value)
}
