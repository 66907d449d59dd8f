//! The numbers of rows of a file's record batches, from their metadata.
use crate::examples::{batches, schema};
use crate::fake_io::Disk;
use ipc::write_file;
use ipc_flatbuf::IpcReadError;
use ipc_io::{FileMetadataReader, ReadError};
use ipc_schema::Projection;
use nest_memory::datatypes::DataType;
use std::alloc::Global;
use std::io::Cursor;

// Batches of 0, 3 and 6 rows.
fn file(alloc: Global) -> Option<Vec<u8>> {
    let schema = schema(alloc, DataType::Int64).ok()?;
    let batches = batches(alloc, 3).ok()?;
    write_file(alloc, &schema, &batches).ok()
}

#[test]
fn rows_of_each_batch(rt: HostRuntime) {
    let alloc = rt.alloc();
    let bytes = file(alloc).expect(&rt, "no file");
    let disk = Disk::new(&bytes, 5, usize::MAX);
    let mut reader = FileMetadataReader::with_projection(alloc, disk, Projection::All).expect(
        &rt,
        "no reader",
    );
    assert!(rt; reader.len() == 3 && reader.schema().fields.len() == 1);
    for (i, rows) in [(2, 6), (0, 0), (1, 3), (2, 6)] {
        assert!(rt; reader.row_count(alloc, i).ok() == Some(rows));
    }
    let none = FileMetadataReader::with_projection(
        alloc,
        Cursor::new(bytes.as_slice()),
        Projection::Indices(&[]),
    );
    assert!(rt; none.is_ok_and(|reader| reader.schema().fields.is_empty() && reader.len() == 3));
}

#[test]
fn errors(rt: HostRuntime) {
    let alloc = rt.alloc();
    let bytes = file(alloc).expect(&rt, "no file");
    for len in 0..bytes.len() {
        let cut = Cursor::new(&bytes[..len]);
        let reader = FileMetadataReader::with_projection(alloc, cut, Projection::All);
        assert!(rt;
            matches!(
                reader,
                Err(ReadError::Ipc(
                    IpcReadError::Truncated | IpcReadError::Magic | IpcReadError::FooterLength
                ))
            )
        );
    }
    for calls in 0..4 {
        let disk = Disk::new(&bytes, usize::MAX, calls);
        let reader = FileMetadataReader::with_projection(alloc, disk, Projection::All);
        assert!(rt; matches!(reader, Err(ReadError::Io(_))), "{calls}");
    }
}
