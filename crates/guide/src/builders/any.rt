//! What every builder does, by the trait `MutableArray`.
ghost use Rattle.std.specs.Prelude.{◌≡◌, true, IfOk, OnErr, OnOk};
ghost use Rattle.nest_any.specs.Trees.{tree_of};
ghost use Rattle.nest_build.specs.Words.{Accepted, IsComplete, RowAdded, own_slots};
ghost use Rattle.nest_model.specs.BuilderItem as items;
ghost use Rattle.nest_model.specs.BuilderItem.{plain};
ghost use Rattle.guide.specs.Words.{layout_of, slots_of};

use tiekvorn::error::{ArgumentError, Error};
use tiekvorn::{AnyArray, AnyMutableArray, MutableArray, Plain};

/// Pushes a string. Returns `InvalidArgumentError(ItemType)` where the builder holds no strings; after any error no level has changed.
pub fn push_string<B: MutableArray>(builder: &mut B, string: &str) -> Result<(), Error>
    requires { IsComplete (B.model builder.old) }
    ensures accepted { OnOk result (Accepted (plain (items.utf8 string.now)) (B.model builder.old) (B.model builder.new)) }
    ensures refused { OnErr result (B.model builder.new ≡ B.model builder.old) }
{
    builder.try_push_plain(Some(Plain::Text(string)))
}

/// Freezes a builder to an array. An unfinished builder is refused, and stays as it was.
pub fn freeze_any<B: MutableArray>(builder: &mut B) -> Result<AnyArray, Error>
    ensures slots { IfOk result (λ a. slots_of (layout_of a) ≡ own_slots (B.model builder.old)) }
    ensures unchanged { ¬ IsComplete (B.model builder.old) → B.model builder.new ≡ B.model builder.old }
{
    builder.as_box()
}

/// Adds a row of a list or struct builder: the values that were pushed to its children. Returns `ItemType` for a builder without such
/// rows, and `Incomplete` where a child is incomplete.
pub fn push_row(builder: &mut AnyMutableArray) -> Result<(), Error>
    ensures added { OnOk result (RowAdded true (tree_of builder.old) (tree_of builder.new)) }
    ensures refused { OnErr result (tree_of builder.new ≡ tree_of builder.old) }
{
    if !builder.has_complete_children() {
        return Err(Error::InvalidArgumentError(ArgumentError::Incomplete));
    }
    builder.push_row(true)
}
