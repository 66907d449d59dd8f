//! Examples of the dictionaries of two columns, and of the dictionary batches of a file. Each function has an empty body.
ghost use Rattle.std.specs.Prelude.{◌≡◌, pos, true, false, [], ◌∷◌};
ghost use Rattle.nest_model.specs.Meaning.{slots_of};
ghost use Rattle.nest_model.specs.SameArray.{IsSameArray};
ghost use Rattle.nest_model.specs.Slot as slots;
ghost use Rattle.ipc.specs.DictionaryEntries.{own_entries, columns_own, columns_entries};
ghost use Rattle.ipc.specs.PendingDictionaries.{with_entries, pending};
ghost use Rattle.ipc.specs.PendingExamples.{two_columns, columns, records, more_records, sevens, eights, other_eights, nines, tens, emitted};
ghost use Rattle.ipc.specs.FileDictionaries.{spec_dictionary_batches, spec_any_replaced};
ghost use Rattle.ipc.specs.FileDictionaryExamples.{words, more_words, last_word, turned_words, large_words, first};

/// The dictionary of records has the id 0, the dictionaries of their two fields have 1 and 2, and that of the other column has 3.
pub fn ids_are_in_pre_order()
    ensures own { columns_own 0 columns ≡ (pos 0, records sevens eights) ∷ (pos 3, nines) ∷ [] }
    ensures inside { own_entries 1 (records sevens eights) ≡ (pos 1, sevens) ∷ (pos 2, eights) ∷ [] }
    ensures all { columns_entries 0 columns ≡ (pos 1, sevens) ∷ (pos 2, eights) ∷ (pos 0, records sevens eights) ∷ (pos 3, nines) ∷ [] }
{}

/// Before the first batch all dictionaries are emitted, those of the fields before the records.
pub fn nested_dictionaries_are_emitted_first()
    ensures pending { pending [] columns ≡ (pos 1, sevens) ∷ (pos 2, eights) ∷ (pos 0, records sevens eights) ∷ (pos 3, nines) ∷ [] }
    ensures emitted { with_entries [] (pending [] columns) ≡ emitted }
{}

/// After that none is emitted again.
pub fn unchanged_dictionaries_are_not_emitted_again()
    ensures { pending emitted columns ≡ [] }
{}

/// A dictionary with other values is emitted again, and so is one that holds it, although its slots are the same; no other is.
pub fn changed_dictionaries_are_emitted_again()
    ensures same { IsSameArray (records sevens eights) (records sevens other_eights) }
    ensures inner { pending emitted (two_columns (records sevens other_eights) nines) ≡ (pos 2, other_eights) ∷ (pos 0, records sevens other_eights) ∷ [] }
    ensures outer { pending emitted (two_columns (more_records sevens eights) nines) ≡ (pos 0, more_records sevens eights) ∷ [] }
    ensures others { pending emitted (two_columns (records sevens eights) tens) ≡ (pos 3, tens) ∷ [] }
{}

/// An id without values gets a batch of all of them.
pub fn new_dictionary_has_all_values()
    ensures known { spec_any_replaced [] (first words) ≡ false }
    ensures put { spec_dictionary_batches [] (first words) ≡ (false, (pos 0, words)) ∷ [] }
{}

/// Words extended by one get a delta of that word, in the order of the pending dictionaries.
pub fn extended_dictionary_has_a_delta()
    ensures known { spec_any_replaced (first words) (first more_words) ≡ false }
    ensures put { spec_dictionary_batches (first words) (first more_words) ≡ (true, (pos 0, last_word)) ∷ [] }
    ensures word { slots_of last_word ≡ slots.utf8 (100 ∷ []) ∷ [] }
    ensures order { spec_dictionary_batches (first words) ((pos 3, nines) ∷ (pos 0, more_words) ∷ []) ≡ (false, (pos 3, nines)) ∷ (true, (pos 0, last_word)) ∷ [] }
{}

/// The same words get no batch.
pub fn unchanged_dictionary_has_no_batch()
    ensures known { spec_any_replaced (first words) (first words) ≡ false }
    ensures put { spec_dictionary_batches (first words) (first words) ≡ [] }
{}

/// Words in another order, of another type, or fewer are replacements, also after others that are none.
pub fn replacements_are_found()
    ensures turned { spec_any_replaced (first words) (first turned_words) ≡ true }
    ensures large { spec_any_replaced (first words) (first large_words) ≡ true }
    ensures fewer { spec_any_replaced (first more_words) (first words) ≡ true }
    ensures later { spec_any_replaced (first more_words) ((pos 3, nines) ∷ (pos 0, words) ∷ []) ≡ true }
{}
