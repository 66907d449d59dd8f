//! The command line of the program `nest`, as clap parses it.
#![tactic(auto)]

mod arguments;
mod column_names;
mod command;
mod command_line;
mod condition;
mod condition_error;
pub mod condition_laws;
mod condition_parser;
mod condition_token;
mod format;
pub mod laws;
mod number_literal;
mod parsing;
mod request;
mod usage_error;
mod values;

pub use arguments::{Arguments, ColumnNames};
pub use clap::Error;
pub use column_names::{ColumnNamesError, ParseColumnNamesError, name_lines, parse_column_names};
pub use command::{Command, ImportRequest};
pub use condition::{Comparison, Condition, Literal};
pub use condition_error::{ConditionSyntaxError, ParseConditionError, SyntaxErrorKind};
pub use condition_parser::{MAX_LEVELS, parse_condition};
pub use format::{Format, format_of};
pub use number_literal::NumberLiteral;
pub use parsing::parse_arguments;
pub use request::{Column, Request, Selection};
