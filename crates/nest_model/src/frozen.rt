//! Laws of freezing: the array of a builder's rows and its children's arrays represents the builder's own slots.

ghost use Rattle.nest_model.specs.LawStatements.{DictionariesFreeze, FixedSizeListsFreeze, ListsFreeze, StructsFreeze};

/// A list array: the offsets where the rows end, over the array of the items.
pub fn frozen_lists()
    ensures { ListsFreeze }
{}

/// A fixed-size list array of size at least 1, over the array of the items.
pub fn frozen_fixed_size_lists()
    ensures { FixedSizeListsFreeze }
{}

/// A struct array over the arrays of the children.
pub fn frozen_records()
    ensures { StructsFreeze }
{}

/// A dictionary array: the keys, over the array of the values.
pub fn frozen_dictionaries()
    ensures { DictionariesFreeze }
{}
