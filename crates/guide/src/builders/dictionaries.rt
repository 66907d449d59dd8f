//! Builders of dictionaries, which keep each value once.
ghost use Rattle.std.specs.Prelude.{◌≡◌, ◌↔◌, ◌++◌, ◌∷◌, [], ℕ, IfOk, IsOk, OnOk, Some, option_map, pos};
ghost use Rattle.nest_build.specs.Keys.{dictionary_child};
ghost use Rattle.nest_build.specs.Words.{IsComplete, own_slots};
ghost use Rattle.nest_model.specs.Accessors.{as_integer};
ghost use Rattle.nest_model.specs.BuilderItem as items;
ghost use Rattle.nest_model.specs.BuilderItem.{IsValueAt};
ghost use Rattle.guide.specs.Words.{pushed_dictionary_values, slots_of};

use std::alloc::Global;
use tiekvorn::error::Error;
use tiekvorn::{
    AnyMutableFlat, DictionaryArray, MutableArray, MutableDictionaryArray, MutableUtf8Array, Plain,
};

/// A builder of a dictionary of strings with 8-bit keys.
pub type DictionaryBuilder = MutableDictionaryArray<u8, AnyMutableFlat>;

/// Returns an empty builder.
fn new_dictionary_builder(alloc: Global) -> Result<DictionaryBuilder, Error>
    ensures complete { IfOk result (λ b. IsComplete (⟦<DictionaryBuilder as MutableArray>⟧.model b)) }
    ensures empty { IfOk result (λ b. own_slots (⟦<DictionaryBuilder as MutableArray>⟧.model b) ≡ []) }
{
    let values = AnyMutableFlat::Utf8(MutableUtf8Array::new(alloc)?);
    MutableDictionaryArray::try_from_values(alloc, values)
}

/// Pushes "ab", "c", a null, and "ab" again.
fn push_strings(builder: &mut DictionaryBuilder) -> Result<(), Error>
    requires { IsComplete (⟦<DictionaryBuilder as MutableArray>⟧.model builder.old) }
    ensures complete { OnOk result (IsComplete (⟦<DictionaryBuilder as MutableArray>⟧.model builder.new)) }
    ensures slots { OnOk result (own_slots (⟦<DictionaryBuilder as MutableArray>⟧.model builder.new) ≡ own_slots (⟦<DictionaryBuilder as MutableArray>⟧.model builder.old) ++ pushed_dictionary_values) }
{
    builder.try_push_plain(Some(Plain::Text("ab")))?;
    builder.try_push_plain(Some(Plain::Text("c")))?;
    builder.push_null()?;
    builder.try_push_plain(Some(Plain::Text("ab")))
}

/// Returns the key of a string, if it is one of the values.
pub fn key_of_string(builder: &DictionaryBuilder, string: &str) -> Option<u8>
    ensures { (k : ℕ) → (option_map (λ key. pos key) result ≡ Some (pos k)) ↔ IsValueAt (dictionary_child (⟦<DictionaryBuilder as MutableArray>⟧.model builder.now)) (items.utf8 string.now) k }
{
    builder.key_of(&string)
}

/// Builds the dictionary array `["ab", "c", null, "ab"]` over two values, and returns the key of "c" with it.
pub fn dictionary(alloc: Global) -> Result<(DictionaryArray, Option<u8>), Error>
    ensures { IfOk result (λ made. slots_of made.0 ≡ pushed_dictionary_values) }
{
    let mut builder = new_dictionary_builder(alloc)?;
    let pushed = push_strings(&mut builder);
    let key = key_of_string(&builder, "c");
    let frozen = builder.freeze();
    drop(builder);
    match frozen {
        Ok(array) => with_key(array, key, pushed),
        Err(error) => Err(error),
    }
}

/// Returns an array and a key, or the error of an earlier push.
fn with_key(
    array: DictionaryArray,
    key: Option<u8>,
    pushed: Result<(), Error>,
) -> Result<(DictionaryArray, Option<u8>), Error>
    ensures same { IfOk result (λ made. made.0 ≡ array) }
    ensures pushed { OnOk result (IsOk pushed) }
{
    match pushed {
        Ok(()) => Ok((array, key)),
        Err(error) => {
            drop(array);
            Err(error)
        }
    }
}
