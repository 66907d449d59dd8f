//! What examples arrays and data types print.

mod making;
mod parsed;
mod printed;
mod types;
