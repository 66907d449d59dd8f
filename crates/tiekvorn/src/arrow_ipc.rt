//! Files and streams of the Arrow IPC format: in memory, and over `Read`, `Write` and `Seek`.
pub use ipc::{
    Batch, DictionaryState, File, SliceFileReader, SliceStreamReader, Stream, batch_of_columns,
    next_batch, read_file, read_file_projected, read_message, read_stream, read_stream_projected,
    write_compressed_file, write_compressed_stream, write_file, write_stream,
};
pub use ipc_flatbuf::message::{Message, next_message};
pub use ipc_flatbuf::{IpcReadError, IpcWriteError};
pub use ipc_io::{
    FileReader, FileWriter, InfoError, IpcInfo, ReadError, SeekRead, StreamReader, StreamWriter,
    WriteError, read_file_info, read_stream_info,
};
pub use ipc_schema::{
    DictionaryTypes, DictionaryValueType, ProjectedSchema, Projection, Schema,
    SchemaWithDictionaries, read_projected_schema, read_schema,
};
