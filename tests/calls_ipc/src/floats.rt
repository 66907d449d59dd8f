//! Floating-point types: streams of another implementation, written again and read back, and each use that is not written.
use crate::samples_read::copied;
use crate::schema_text::text_of_schema;
use crate::stream_text::text_of_stream;
use ipc::{read_stream, write_stream};
use ipc_flatbuf::{IpcReadError, IpcWriteError};
use nest_memory::datatypes::floats::{Precision, float_type, is_float, precision_of};
use ipc_schema::{Schema, read_schema, write_schema_with_dictionaries};
use nest_memory::datatypes::{DataType, Field, IntegerType};
use std::alloc::Global;
use std::collections::BTreeMap;

// Each precision, a list, a dictionary and an extension type, with nulls, NaN, infinities and negative zeros.
const FLOATS: &[u8] = include_bytes!("floats/floats.arrows");

// A field of integers whose metadata names the type of singles.
const RESERVED_NAME: &[u8] = include_bytes!("floats/reserved_name.arrows");

const FLOATS_TEXT: &str =
    "metadata 0\nfield .h 1 0 X .tiekvorn.float16 - u2\nfield .f 1 0 X .tiekvorn.float32 - u4\nfield .d 1 0 X .tiekvorn.float64 - u8\nfield .l 1 0 L .i 1 0 X .tiekvorn.float64 - u8\nfield .k 1 0 G i1 0 X .tiekvorn.float32 - u4\nfield .e 1 0 X .own - X .tiekvorn.float32 - u4\nbatch 4\nrow 15872 1069547520 4609434218613702656 [4611686018427387904,9223372036854775808,] 4286578688 1069547520\nrow N 2147483648 9218868437227405312 [] N 2147483648\nrow 32768 N 18444492273895866369 [1,] 1078530011 N\nrow 32257 2143289345 N [] 4286578688 2143289345\n";

#[test]
fn of_another_program(rt: HostRuntime) {
    let alloc = rt.alloc();
    let bytes = copied(alloc, FLOATS).expect(&rt, "no bytes");
    let text = text_of_stream(alloc, &bytes).expect(&rt, "no text");
    assert!(rt; text.as_str() == FLOATS_TEXT, "{text}");
    let stream = read_stream(alloc, &bytes).expect(&rt, "no stream");
    let written = write_stream(alloc, &stream.schema, &stream.batches).expect(&rt, "no bytes");
    let text = text_of_stream(alloc, &written).expect(&rt, "no text");
    assert!(rt; text.as_str() == FLOATS_TEXT, "{text}");
}

#[test]
fn reserved_names(rt: HostRuntime) {
    let alloc = rt.alloc();
    let bytes = copied(alloc, RESERVED_NAME).expect(&rt, "no bytes");
    let text = text_of_schema(alloc, &bytes).expect(&rt, "no text");
    assert!(rt; text.as_str() == "error UnsupportedType\n", "{text}");
}

fn extension_of(
    alloc: Global,
    name: &str,
    inner: DataType,
    text: Option<&str>,
) -> Result<DataType, IpcReadError> {
    let name = String::from_str(alloc, name)?;
    let text = match text {
        None => None,
        Some(text) => Some(String::from_str(alloc, text)?),
    };
    Ok(DataType::Extension(name, Box::new(alloc, inner)?, text))
}

fn dictionary_of(alloc: Global, values: DataType) -> Result<DataType, IpcReadError> {
    let values = Box::new(alloc, values)?;
    Ok(DataType::Dictionary(IntegerType::Int8, values, false))
}

fn schema_of(alloc: Global, data_type: DataType) -> Result<Schema, IpcReadError> {
    let mut fields = Vec::new(alloc);
    match Field::new(alloc, "f", data_type, true) {
        Err(_) => return Err(IpcReadError::Memory),
        Ok(field) => fields.push(field)?,
    }
    Ok(Schema {
        fields,
        metadata: BTreeMap::new(alloc),
    })
}

// Why a schema of the type is not written; `None` where it round-trips.
fn reason(alloc: Global, data_type: DataType) -> Result<Option<IpcWriteError>, IpcReadError> {
    let schema = schema_of(alloc, data_type)?;
    match write_schema_with_dictionaries(alloc, &schema) {
        Err(why) => Ok(Some(why)),
        Ok(bytes) => {
            let (read, rest) = read_schema(alloc, &bytes)?;
            if read.schema == schema && rest.is_empty() {
                Ok(None)
            } else {
                Err(IpcReadError::Block)
            }
        }
    }
}

const PRECISIONS: [Precision; 3] = [Precision::Half, Precision::Single, Precision::Double];

#[test]
fn each_precision(rt: HostRuntime) {
    let alloc = rt.alloc();
    for precision in PRECISIONS {
        let alone = float_type(alloc, precision).expect(&rt, "no type");
        assert!(rt; is_float(&alone) && precision_of(&alone) == Some(precision));
        assert!(rt; reason(alloc, alone) == Ok(None));
        let values = float_type(alloc, precision).expect(&rt, "no type");
        let encoded = dictionary_of(alloc, values).expect(&rt, "no type");
        assert!(rt; reason(alloc, encoded) == Ok(None));
        let storage = float_type(alloc, precision).expect(&rt, "no type");
        let own = extension_of(alloc, "own", storage, Some("")).expect(&rt, "no type");
        assert!(rt; reason(alloc, own) == Ok(None));
    }
}

#[test]
fn names_over_other_storage(rt: HostRuntime) {
    let alloc = rt.alloc();
    let refused = Ok(Some(IpcWriteError::Extension));
    for (name, storage, text) in [
        ("tiekvorn.float16", DataType::Int16, None),
        ("tiekvorn.float32", DataType::UInt64, None),
        ("tiekvorn.float64", DataType::Float64, None),
        ("tiekvorn.float64", DataType::UInt64, Some("")),
    ] {
        let data_type = extension_of(alloc, name, storage, text).expect(&rt, "no type");
        assert!(rt; !is_float(&data_type) && precision_of(&data_type) == None);
        assert!(rt; reason(alloc, data_type) == refused);
    }
}
