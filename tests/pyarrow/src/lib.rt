//! Streams and files that Arrow C++ wrote, in `tests/data/pyarrow`. `samples` reads the rows of each and compares them with those that Arrow C++
//! reads. `tests/data/pyarrow/table.txt` says of which samples the rows are equal, and which error the others have.
#![tactic(auto)]

#[cfg(test)]
mod samples;
#[cfg(test)]
mod support;
#[cfg(test)]
mod table;
