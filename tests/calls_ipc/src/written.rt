//! What is written is round-trip.
//!
//! A schema that is written is round-trip, with its metadata, and so are a batch and a dictionary.
use ipc_flatbuf::batch::{BatchMetadata, read_batch, write_batch, write_dictionary};
use ipc_flatbuf::message::{MessageKind, next_message};
use ipc_flatbuf::{
    BufferSpec, CompressionCodec, FieldNode, IpcWriteError, i64_field, offset_field, read_table,
    u8_field,
};
use ipc_schema::{Schema, read_schema, write_schema_with_dictionaries};
use nest_memory::datatypes::{DataType, Field, Metadata};
use std::alloc::Global;
use std::collections::BTreeMap;

fn of_one(
    alloc: Global,
    name: &str,
    data_type: DataType,
    is_nullable: bool,
) -> Result<Field, IpcWriteError> {
    Field::new(alloc, name, data_type, is_nullable).map_err(|_| IpcWriteError::Memory)
}

fn metadata_of(alloc: Global, pairs: &[(&str, &str)]) -> Result<Metadata, IpcWriteError> {
    let mut metadata = BTreeMap::new(alloc);
    for (key, value) in pairs {
        let key = String::from_str(alloc, key)?;
        let value = String::from_str(alloc, value)?;
        metadata.insert(key, value)?;
    }
    Ok(metadata)
}

fn schema_of(alloc: Global) -> Result<Schema, IpcWriteError> {
    let mut fields = Vec::new(alloc);
    fields.push(of_one(alloc, "a", DataType::Int32, true)?)?;
    fields.push(of_one(alloc, "", DataType::UInt64, false)?)?;
    let mut third = of_one(alloc, "third\u{e9}", DataType::Int8, true)?;
    third.metadata = metadata_of(
        alloc,
        &[
            ("k", "v"),
            ("", "long value of a key that has no letter"),
            ("b", ""),
        ],
    )?;
    fields.push(third)?;
    Ok(Schema {
        fields,
        metadata: metadata_of(alloc, &[("who", "me"), ("what", "")])?,
    })
}

#[test]
fn a_schema(rt: HostRuntime) {
    let alloc = rt.alloc();
    let schema = schema_of(alloc).expect(&rt, "no schema");
    let mut bytes = write_schema_with_dictionaries(alloc, &schema).expect(&rt, "no bytes");
    assert!(rt; bytes.len() % 8 == 0);
    assert!(rt; bytes.extend_from_slice(&[1, 2, 3]).is_ok());
    let (read, rest) = read_schema(alloc, &bytes).expect(&rt, "not read");
    assert!(rt; rest.len() == 3);
    assert!(rt; read.schema.fields == schema.fields);
    assert!(rt; read.schema.metadata == schema.metadata);
}

/// Each schema that cannot be written is rejected by its reason.
#[test]
fn rejected_schemas(rt: HostRuntime) {
    let alloc = rt.alloc();
    for (data_type, want) in [
        (DataType::Float32, IpcWriteError::Float),
        (DataType::Struct(Vec::new(alloc)), IpcWriteError::Type),
    ] {
        let mut schema = schema_of(alloc).expect(&rt, "no schema");
        let field = of_one(alloc, "f", data_type, true).expect(&rt, "no field");
        assert!(rt; schema.fields.push(field).is_ok());
        assert!(rt; write_schema_with_dictionaries(alloc, &schema).err() == Some(want));
    }
    let mut schema = schema_of(alloc).expect(&rt, "no schema");
    schema.fields[1].metadata = metadata_of(alloc, &[("ARROW:extension:name", "x")]).expect(
        &rt,
        "no metadata",
    );
    let error = write_schema_with_dictionaries(alloc, &schema).err();
    assert!(rt; error == Some(IpcWriteError::Extension));
}

/// Each compression of a record batch.
const COMPRESSIONS: [Option<CompressionCodec>; 3] = [
    None,
    Some(CompressionCodec::Lz4Frame),
    Some(CompressionCodec::Zstd),
];

fn three_rows(
    alloc: Global,
    compression: Option<CompressionCodec>,
) -> Result<BatchMetadata, IpcWriteError> {
    let mut nodes = Vec::new(alloc);
    nodes.push(FieldNode {
        length: 3,
        null_count: 1,
    })?;
    let mut buffers = Vec::new(alloc);
    buffers.push(BufferSpec {
        offset: 8,
        length: 8,
    })?;
    buffers.push(BufferSpec {
        offset: 0,
        length: 1,
    })?;
    Ok(BatchMetadata {
        rows: 3,
        nodes,
        buffers,
        compression,
    })
}

#[test]
fn a_batch(rt: HostRuntime) {
    let alloc = rt.alloc();
    for compression in COMPRESSIONS {
        let batch = three_rows(alloc, compression).expect(&rt, "no rows");
        let mut bytes = Vec::new(alloc);
        assert!(rt; write_batch(alloc, &mut bytes, &batch, 16).is_ok());
        assert!(rt; bytes.len() % 8 == 0);
        assert!(rt; bytes.extend_from_slice(&[7; 16]).is_ok());
        let (message, rest) = next_message(&bytes).expect(&rt, "no message");
        let message = message.expect(&rt, "the end");
        assert!(rt; rest.is_empty());
        let root = message.root;
        let read = read_batch(
            alloc,
            message.metadata,
            root.header,
            root.left,
            root.body_length,
        )
        .expect(&rt, "no batch");
        assert!(rt; read.rows == 3);
        assert!(rt; read.nodes == batch.nodes);
        assert!(rt; read.buffers == batch.buffers);
        assert!(rt; read.compression == compression);
    }
}

#[test]
fn a_dictionary(rt: HostRuntime) {
    let alloc = rt.alloc();
    let batch = three_rows(alloc, None).expect(&rt, "no rows");
    for delta in [false, true] {
        let mut bytes = Vec::new(alloc);
        assert!(rt; write_dictionary(alloc, &mut bytes, delta, 515, &batch, 16).is_ok());
        assert!(rt; bytes.len() % 8 == 0);
        assert!(rt; bytes.extend_from_slice(&[7; 16]).is_ok());
        let (message, rest) = next_message(&bytes).expect(&rt, "no message");
        let message = message.expect(&rt, "the end");
        assert!(rt; rest.is_empty());
        let root = message.root;
        assert!(rt; root.kind == MessageKind::DictionaryBatch);
        let metadata = message.metadata;
        let (table, left) = read_table(metadata, root.header, root.left).expect(&rt, "no table");
        assert!(rt; i64_field(metadata, table, 0, 0) == Ok(515));
        assert!(rt; u8_field(metadata, table, 2) == Ok(delta as u8));
        let to = offset_field(metadata, table, 1).expect(&rt, "no field");
        let index = to.expect(&rt, "no place");
        let read = read_batch(alloc, metadata, index, left, root.body_length).expect(
            &rt, "no batch",
        );
        assert!(rt; read.rows == 3);
        assert!(rt; read.nodes == batch.nodes);
        assert!(rt; read.buffers == batch.buffers);
    }
}
