//! The Arrow IPC format. The theorems cover columns of every kind, all of them or a projection, with their dictionaries: replaced ones in
//! streams, and delta dictionaries.
pub mod files;
pub mod streams;
