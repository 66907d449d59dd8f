//! List slots over the items that were added to the child builder.
ghost use Rattle.std.specs.Prelude.{IfErr, OnOk, true};
ghost use Rattle.nest_any.specs.Words.{HasCompleteChildren, RowAdded};
ghost use Rattle.json_read.specs.StructMembers.{IsLimitError};

use crate::value_error::PushError;
use nest_any::ListBuilder;
use nest_memory::error::Error;

/// Adds a list slot of the items that were added to the child builder.
pub(crate) fn push_list_slot(lists: &mut ListBuilder) -> Result<(), PushError>
    requires { HasCompleteChildren lists.old }
    ensures added { OnOk result (RowAdded true lists.old lists.new) }
    ensures limit { IfErr result IsLimitError }
{
    match lists.push_row(true) {
        Ok(()) => Ok(()),
        Err(error) => Err(limit_error(error)),
    }
}

/// Converts the error of a builder that got a value of its type: a limit, or a failed allocation.
pub(crate) fn limit_error(error: Error) -> PushError
    ensures { IsLimitError result }
{
    match error {
        Error::Memory(_) => PushError::Memory,
        _ => PushError::Overflow,
    }
}
