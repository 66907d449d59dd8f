//! Struct slots over the values that were added to the child builders.
ghost use Rattle.std.specs.Prelude.{IfErr, OnOk, true};
ghost use Rattle.nest_any.specs.Trees.{trees_of};
ghost use Rattle.nest_any.specs.Words.{AreEachComplete, HasCompleteChildren, RowAdded};
ghost use Rattle.json_read.specs.StructMembers.{NullsAdded, IsLimitError};

use crate::list_rows::limit_error;
use crate::value_error::PushError;
use nest_any::{AnyMutableArray, MutableStructArray};
use nest_build::array::MutableArray;

/// Adds a null to each child of length `n`.
pub(crate) fn push_missing_nulls(
    children: &mut [AnyMutableArray],
    n: usize,
) -> Result<(), PushError>
    requires { AreEachComplete (trees_of children.old) }
    ensures completed { OnOk result (NullsAdded n (trees_of children.old) (trees_of children.new)) }
    ensures limit { IfErr result IsLimitError }
{
    for i in 0..children.len() {
        if children[i].len() == n {
            if let Err(error) = children[i].push_null() {
                return Err(limit_error(error));
            }
        }
    }
    Ok(())
}

/// Adds a struct slot of the values that were added to the children.
pub(crate) fn push_struct_slot(records: &mut MutableStructArray) -> Result<(), PushError>
    requires { HasCompleteChildren records.old }
    ensures added { OnOk result (RowAdded true records.old records.new) }
    ensures limit { IfErr result IsLimitError }
{
    match records.push(true) {
        Ok(()) => Ok(()),
        Err(error) => Err(limit_error(error)),
    }
}
