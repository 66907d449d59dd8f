//! Tests of the libraries of the program `nest`, by their public functions. They are run, not proved.
//!
//! | Module | What it tests |
//! |---|---|
//! | `arguments` | Commands, indices, slices, options and names of outputs |
//! | `tables` | Schemas and rows as text, errors, and projected columns |
//! | `printing` | Printing one record batch at a time; errors, and batches that are not read |
//! | `counting` | Numbers of rows; bodies that are not read; hostile bytes |
//! | `infos` | What metadata says; bodies and columns that are not read; hostile bytes |
//! | `failures` | The first error of an input, and of its columns one by one |
//! | `schemas` | Schemas as text; dictionaries and bodies that are not read |
//! | `tailing` | The last rows as lines; record batches that are not read; hostile bytes |
//! | `comparing` | The first difference of two inputs; which input has an error, and when |
//! | `conditions` | Rows where a condition is true; errors of conditions |
//! | `dates` | Rows where a condition on dates, times or values of dictionaries is true |
//! | `copying` | Copies of all rows, of slices, and of rows where a column is true, in either format |
//! | `concatenating` | Inputs appended to an output; which input has an error |
//! | `names` | Projected names that no column has |
//! | `taking` | Rows by index, as lines and in either format |
//!
//! `oracle` makes the expected results of a whole table in memory. `devices` fail in any call.
#![tactic(auto)]

#[cfg(test)]
mod arguments;
#[cfg(test)]
mod comparing;
#[cfg(test)]
mod concatenating;
#[cfg(test)]
mod conditions;
#[cfg(test)]
mod copying;
#[cfg(test)]
mod counting;
#[cfg(test)]
mod dates;
#[cfg(test)]
mod devices;
#[cfg(test)]
mod failures;
#[cfg(test)]
mod infos;
#[cfg(test)]
mod names;
#[cfg(test)]
mod oracle;
#[cfg(test)]
mod printing;
#[cfg(test)]
mod samples;
#[cfg(test)]
mod schemas;
#[cfg(test)]
mod tables;
#[cfg(test)]
mod tailing;
#[cfg(test)]
mod taking;
