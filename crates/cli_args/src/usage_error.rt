//! Errors of arguments that clap accepts.
ghost use Rattle.std.specs.Prelude.{◌≡◌};
ghost use Rattle.cli_args.specs.UsageErrors.{usage_kind};

use crate::column_names::{ColumnNamesError, ParseColumnNamesError};
use crate::condition_error::{ConditionSyntaxError, ParseConditionError};
use clap::error::ErrorKind;
use std::alloc::AllocError;
use thiserror::Error;

/// Why arguments that clap accepts mean no command.
#[derive(Clone, Copy, Debug, Error)]
pub(crate) enum UsageError {
    /// No command has the name.
    #[error("unrecognized subcommand")]
    UnknownCommand,
    /// The value of `--columns` is no list of column names.
    #[error("invalid value for '--columns <NAMES>': {0}")]
    ColumnNames(ColumnNamesError),
    /// `--columns` and `--columns-file` are given.
    #[error("the argument '--columns <NAMES>' cannot be used with '--columns-file <LIST>'")]
    ColumnsTwice,
    /// The expression of `where` is not a condition.
    #[error("invalid value for '<EXPRESSION>': {0}")]
    Condition(ConditionSyntaxError),
}

impl UsageError {
    /// Returns the kind of error that clap has for it.
    pub(crate) fn kind(self) -> ErrorKind
        ensures { result ≡ usage_kind self }
    {
        match self {
            UsageError::UnknownCommand => ErrorKind::InvalidSubcommand,
            UsageError::ColumnNames(_) => ErrorKind::ValueValidation,
            UsageError::ColumnsTwice => ErrorKind::ArgumentConflict,
            UsageError::Condition(_) => ErrorKind::ValueValidation,
        }
    }
}

/// Error returned where what clap found is no command.
#[derive(Clone, Copy)]
pub(crate) enum CommandError {
    /// The arguments mean no command.
    Usage(UsageError),
    /// An allocation failed.
    Memory,
}

impl From<AllocError> for CommandError {
    ghost use Rattle.std.specs.Prelude.{◌≡◌};
    ghost use Rattle.cli_args.specs.declared.usage_error.CommandError.TheVariants.{Memory};

    ghost from_gives = { λ _ e. e ≡ Memory };

    fn from(_error: AllocError) -> CommandError {
        CommandError::Memory
    }
}

impl From<ParseConditionError> for CommandError {
    ghost use Rattle.std.specs.Prelude.{◌≡◌};
    ghost use Rattle.cli_args.specs.UsageErrors.{condition_error};

    ghost from_gives = { λ error e. e ≡ condition_error error };

    fn from(error: ParseConditionError) -> CommandError {
        match error {
            ParseConditionError::Syntax(error) => CommandError::Usage(UsageError::Condition(error)),
            ParseConditionError::Memory => CommandError::Memory,
        }
    }
}

impl From<ParseColumnNamesError> for CommandError {
    ghost use Rattle.std.specs.Prelude.{◌≡◌};
    ghost use Rattle.cli_args.specs.UsageErrors.{column_names_error};

    ghost from_gives = { λ error e. e ≡ column_names_error error };

    fn from(error: ParseColumnNamesError) -> CommandError {
        match error {
            ParseColumnNamesError::Names(error) => {
                CommandError::Usage(UsageError::ColumnNames(error))
            }
            ParseColumnNamesError::Memory => CommandError::Memory,
        }
    }
}
