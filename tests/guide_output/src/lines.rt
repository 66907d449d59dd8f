//! A line for each function of the guide: its name, and what it returns.
use anyhow::Result;
use std::alloc::Global;
use tiekvorn::error::Error;
use tiekvorn::json::{Json, WriteJson};

/// Adds a line with an array as JSON, or with the error.
pub fn add<A: WriteJson + Drop>(
    alloc: Global,
    lines: &mut String,
    name: &str,
    array: Result<A, Error>,
) -> Result<()> {
    let line = match array {
        Ok(array) => {
            let line = format!(in alloc; "{name}: {}\n", Json::of(&array))?;
            drop(array);
            line
        }
        Err(error) => format!(in alloc; "{name}: {error:?}\n")?,
    };
    lines.push_str(&line)?;
    Ok(())
}

/// Returns whether these are the expected lines.
pub fn are(lines: &Result<String>, expected: &str) -> bool {
    match lines {
        Ok(lines) => lines.as_str() == expected,
        Err(_) => false,
    }
}
