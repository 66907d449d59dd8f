//! Views, and decimals of 32 and 64 bits: streams of Arrow C++, what they are read as, written again and read back.
use crate::hostile::count_read;
use crate::samples_read::copied;
use crate::schema_text::text_of_schema;
use crate::stream_text::text_of_stream;
use ipc::{read_stream, write_stream};
use ipc_flatbuf::StoredArray;
use ipc_schema::{push_arrays, replace_stored};
use nest_memory::datatypes::{DataType, Field, IntegerType};

// Strings and binaries of each length, nulls, lists of strings, decimals, and a dictionary of strings, in two batches; the second is a slice of the first.
const SAMPLES: [&[u8]; 3] = [
    include_bytes!("views/views.arrows"),
    include_bytes!("views/views_lz4.arrows"),
    include_bytes!("views/views_zstd.arrows"),
];

// A field of strings whose metadata names the type of string views.
const RESERVED_NAME: &[u8] = include_bytes!("views/reserved_name.arrows");

const TEXT: &str =
    "metadata 0\nfield .v 1 0 LU\nfield .b 1 0 LB\nfield .l 1 0 L .i 1 0 LU\nfield .s 1 0 dc 9 2\nfield .d 1 0 dc 18 3\nfield .k 1 0 G i1 0 LU\nbatch 6\nrow s61 xff [s78,N,] N 1 s6120737472696e672074686174206973206e6f7420696e6c696e65\nrow N x6120737472696e672074686174206973206e6f7420696e6c696e65 [] -1 N s62\nrow s6120737472696e672074686174206973206e6f7420696e6c696e65 N N 125 -1000 N\nrow s7477656c7665206279746573 x [s6120737472696e672074686174206973206e6f7420696e6c696e65,] 999999999 999999999999999999 s616e6f74686572206f66206d6f7265207468616e207477656c7665\nrow s746869727465656e2062797465 x00000000000000000000000000 [s,s6120737472696e672074686174206973206e6f7420696e6c696e65,s79,] -999999999 -999999999999999999 s6120737472696e672074686174206973206e6f7420696e6c696e65\nrow s x7a [s71,] 0 0 s616e6f74686572206f66206d6f7265207468616e207477656c7665\nbatch 3\nrow s6120737472696e672074686174206973206e6f7420696e6c696e65 N N 125 -1000 N\nrow s7477656c7665206279746573 x [s6120737472696e672074686174206973206e6f7420696e6c696e65,] 999999999 999999999999999999 s616e6f74686572206f66206d6f7265207468616e207477656c7665\nrow s746869727465656e2062797465 x00000000000000000000000000 [s,s6120737472696e672074686174206973206e6f7420696e6c696e65,s79,] -999999999 -999999999999999999 s6120737472696e672074686174206973206e6f7420696e6c696e65\n";

#[test]
fn rows_of_each_sample(rt: HostRuntime) {
    let alloc = rt.alloc();
    for sample in SAMPLES {
        let bytes = copied(alloc, sample).expect(&rt, "no bytes");
        let text = text_of_stream(alloc, &bytes).expect(&rt, "no text");
        assert!(rt; text.as_str() == TEXT, "{text}");
        let stream = read_stream(alloc, &bytes).expect(&rt, "no stream");
        let written = write_stream(alloc, &stream.schema, &stream.batches).expect(&rt, "no bytes");
        let text = text_of_stream(alloc, &written).expect(&rt, "no text");
        assert!(rt; text.as_str() == TEXT, "{text}");
    }
}

#[test]
fn reserved_names(rt: HostRuntime) {
    let alloc = rt.alloc();
    let bytes = copied(alloc, RESERVED_NAME).expect(&rt, "no bytes");
    let text = text_of_schema(alloc, &bytes).expect(&rt, "no text");
    assert!(rt; text.as_str() == "error UnsupportedType\n", "{text}");
}

#[test]
fn arrays_of_a_type(rt: HostRuntime) {
    let alloc = rt.alloc();
    let name = String::from_str(alloc, "tiekvorn.utf8_view").expect(&rt, "no name");
    let view = Box::new(alloc, DataType::LargeUtf8).expect(&rt, "no type");
    let view = DataType::Extension(name, view, None);
    let values = Box::new(alloc, DataType::Utf8).expect(&rt, "no type");
    let keys = DataType::Dictionary(IntegerType::Int8, values, false);
    let first = Field::new(alloc, "v", view, true).expect(&rt, "no field");
    let second = Field::new(alloc, "k", keys, true).expect(&rt, "no field");
    let mut fields = Vec::new(alloc);
    fields.push(first).expect(&rt, "no fields");
    fields.push(second).expect(&rt, "no fields");
    let mut data_type = DataType::Struct(fields);
    let mut arrays = Vec::new(alloc);
    push_arrays(&data_type, &mut arrays).expect(&rt, "no arrays");
    let stored = [
        StoredArray::Plain(1),
        StoredArray::View,
        StoredArray::Plain(2),
    ];
    assert!(rt; arrays.as_slice() == stored.as_slice());
    replace_stored(&mut data_type);
    let mut read = Vec::new(alloc);
    push_arrays(&data_type, &mut read).expect(&rt, "no arrays");
    let plain = [
        StoredArray::Plain(1),
        StoredArray::Plain(3),
        StoredArray::Plain(2),
    ];
    assert!(rt; read.as_slice() == plain.as_slice());
}

#[test]
fn bytes_changed(rt: HostRuntime) {
    let alloc = rt.alloc();
    let mut bytes = copied(alloc, SAMPLES[0]).expect(&rt, "no bytes");
    let count = count_read(alloc, &mut bytes, 13).expect(&rt, "changed bytes");
    assert!(rt; count > 0 && count < 3 * bytes.len() / 13, "{count}");
}
