//! Each error once.
//!
//! Each error once.
use crate::examples::count_batches;
use crate::streams::{SHARED, WORKED};
use ipc_flatbuf::IpcReadError;
use ipc_schema::{Schema, read_schema, write_schema_with_dictionaries};
use std::collections::BTreeMap;

#[test]
fn one_byte_or_two_changed(rt: HostRuntime) {
    for (first, a, second, b, want) in [
        (0, 0, 0, 0, IpcReadError::MetadataLength),
        (7, 128, 7, 128, IpcReadError::MetadataLength),
        (9, 255, 9, 255, IpcReadError::Flatbuffer),
        (32, 2, 32, 2, IpcReadError::Version),
        (32, 5, 32, 5, IpcReadError::Version),
        (34, 4, 34, 4, IpcReadError::HeaderType),
        (34, 3, 34, 3, IpcReadError::MissingSchema),
        (40, 4, 40, 4, IpcReadError::Endianness),
        (93, 0, 93, 0, IpcReadError::MissingType),
        (93, 27, 93, 27, IpcReadError::UnknownType),
        (93, 22, 93, 22, IpcReadError::UnsupportedType),
        (93, 3, 93, 3, IpcReadError::TypeRange),
        (116, 24, 116, 24, IpcReadError::TypeRange),
        (88, 8, 88, 8, IpcReadError::ChildCount),
        (100, 255, 100, 255, IpcReadError::MetadataUtf8),
        (167, 128, 167, 128, IpcReadError::BodyLength),
        (161, 16, 161, 16, IpcReadError::Truncated),
        (199, 128, 199, 128, IpcReadError::RowCount),
        (176, 12, 186, 4, IpcReadError::Flatbuffer),
        (240, 16, 240, 16, IpcReadError::BufferRange),
        (247, 128, 247, 128, IpcReadError::BufferRange),
        (255, 128, 255, 128, IpcReadError::BufferRange),
        (248, 9, 248, 9, IpcReadError::BufferSum),
        (174, 1, 174, 1, IpcReadError::HeaderType),
        (174, 2, 174, 2, IpcReadError::UnknownDictionary),
        (168, 255, 174, 2, IpcReadError::Flatbuffer),
        (223, 128, 223, 128, IpcReadError::NodeRange),
        (224, 3, 224, 3, IpcReadError::NodeRange),
        (216, 3, 216, 3, IpcReadError::RowCount),
        (192, 3, 192, 3, IpcReadError::RowCount),
        (212, 0, 212, 0, IpcReadError::NodeCount),
        (212, 2, 212, 2, IpcReadError::NodeCount),
        (236, 1, 236, 1, IpcReadError::BufferCount),
        (248, 0, 248, 0, IpcReadError::BufferTooShort),
        (264, 7, 264, 7, IpcReadError::BufferTooShort),
        (224, 2, 224, 2, IpcReadError::NullCount),
        (224, 0, 224, 0, IpcReadError::NullCount),
    ] {
        let mut stream = WORKED;
        stream[first] = a;
        stream[second] = b;
        assert!(rt; count_batches(rt.alloc(), &stream) == Err(want));
    }
}

#[test]
fn ends(rt: HostRuntime) {
    assert!(rt; count_batches(rt.alloc(), &[]) == Err(IpcReadError::MissingSchema));
    assert!(rt;
        count_batches(rt.alloc(), &[255, 255, 255, 255, 0, 0, 0, 0])
            == Err(IpcReadError::MissingSchema)
    );
    assert!(rt; count_batches(rt.alloc(), &[0, 0, 0, 0]) == Err(IpcReadError::MissingSchema));
    assert!(rt; count_batches(rt.alloc(), &[255, 255, 255, 255]) == Err(IpcReadError::Truncated));
    assert!(rt; count_batches(rt.alloc(), &WORKED[..128]) == Ok(0));
    assert!(rt; count_batches(rt.alloc(), &WORKED[..288]) == Ok(1));
}

#[test]
fn one_table_for_many_fields(rt: HostRuntime) {
    assert!(rt; count_batches(rt.alloc(), &SHARED) == Err(IpcReadError::ApparentSize));
}

#[test]
fn a_pair_without_a_value(rt: HostRuntime) {
    let alloc = rt.alloc();
    let mut metadata = BTreeMap::new(alloc);
    let key = String::from_str(alloc, "k").expect(&rt, "no memory");
    let value = String::from_str(alloc, "v").expect(&rt, "no memory");
    assert!(rt; metadata.insert(key, value).is_ok());
    let schema = Schema {
        fields: Vec::new(alloc),
        metadata,
    };
    let mut bytes = write_schema_with_dictionaries(alloc, &schema).expect(&rt, "no bytes");
    bytes[8 + 48 + 32 + 8 + 8 + 6] = 0;
    assert!(rt; read_schema(alloc, &bytes).err() == Some(IpcReadError::Metadata));
}
