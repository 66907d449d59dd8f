//! Reads and writes streams and files of the Arrow IPC format over `Read`, `Write` and `Seek`.
//!
//! Readers and writers hold the dictionaries and one record batch at a time. `ipc` does the same in memory.
#![tactic(auto)]

mod batch_info;
mod error;
mod fetching;
mod file_reader;
mod file_writer;
mod info;
pub mod info_laws;
pub mod laws;
mod metadata_reader;
mod output;
mod seek_read;
mod seeking;
mod stream_reader;
mod stream_writer;

pub use batch_info::{BatchInfo, BatchKind, record_batch_count};
pub use error::{ReadError, WriteError};
pub use fetching::{FetchedMessage, fetch_message};
pub use file_reader::FileReader;
pub use file_writer::FileWriter;
pub use info::{InfoError, IpcInfo, read_file_info, read_stream_info};
pub use metadata_reader::FileMetadataReader;
pub use seek_read::SeekRead;
pub use stream_reader::StreamReader;
pub use stream_writer::StreamWriter;
