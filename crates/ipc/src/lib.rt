//! Reads and writes streams and files of the Arrow IPC format in memory.
//!
//! A stream is a schema, then record batches, each after the dictionary batches that it needs. A file holds the same messages between
//! magic bytes, and a footer with the offset of each. Source: Columnar format, "IPC Streaming Format" and "IPC File Format".
//!
//! `ipc_io` does the same over `Read`, `Write` and `Seek`.
#![tactic(auto)]

mod appendable;
mod batch;
mod block;
pub mod column_laws;
mod columns;
pub mod compressed;
mod deltas;
mod dictionary;
mod file;
pub mod file_laws;
pub mod laws;
mod plain_buffers;
mod reader;
mod reading;
mod state;
mod stream;
mod union_offsets;
mod writing;
mod writing_files;

pub use batch::Batch;
pub use block::{read_batch_block, read_dictionary_block};
pub use columns::batch_of_columns;
pub use compressed::{
    encode_compressed_file_batch, encode_compressed_stream_batch, write_compressed_file,
    write_compressed_stream,
};
pub use file::{File, SliceFileReader, read_file, read_file_projected};
pub use reader::SliceStreamReader;
pub use reading::{next_batch, read_message};
pub use state::{DictionaryState, KnownDictionaries};
pub use stream::{Stream, read_stream, read_stream_projected};
pub use writing::{append_stream_batch, encode_stream_batch, write_stream};
pub use writing_files::{
    EncodedFileBatch, FileBlocks, encode_file_batch, initial_state, write_file,
};

pub mod dictionaries;
