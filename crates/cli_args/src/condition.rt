//! Conditions on rows.
use crate::number_literal::NumberLiteral;
use crate::request::Column;

/// A comparison of a value with a literal.
#[derive(Clone, Copy, Debug, PartialEq, Eq)]
pub enum Comparison {
    /// `=`.
    Equal,
    /// `!=` or `<>`.
    NotEqual,
    /// `<`.
    Less,
    /// `<=`.
    LessOrEqual,
    /// `>`.
    Greater,
    /// `>=`.
    GreaterOrEqual,
}

/// A literal of a condition.
#[derive(Drop)]
pub enum Literal {
    /// A number.
    Number(NumberLiteral),
    /// A string.
    String(String),
    /// A boolean.
    Boolean(bool),
}

/// A condition on a row. Beside a column is the position of its name in the text of the condition, in bytes.
#[derive(Drop)]
pub enum Condition {
    /// Whether a boolean column is true.
    IsTrue(Column, usize),
    /// Whether a column is null.
    IsNull(Column, usize),
    /// Whether a column compares so with a literal.
    Compare(Column, usize, Comparison, Literal),
    /// The negation of a condition.
    Not(Box<Condition>),
    /// The conjunction of two conditions.
    And(Box<Condition>, Box<Condition>),
    /// The disjunction of two conditions.
    Or(Box<Condition>, Box<Condition>),
}
