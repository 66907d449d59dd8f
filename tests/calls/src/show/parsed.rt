//! Data types round-trip from their text: each there and back, each error with its byte, adversarial strings, without memory.
use nest_memory::datatypes::floats::{Precision, float_type};
use nest_memory::datatypes::{DataType, Field, UnionMode};
use std::alloc::{AllocError, Global};
use type_text::{MAX_DEPTH, ParseTypeError, parse_type};

/// Strings of data types, one of each form at least.
const TEXT_VALUES: [&str; 67] = [
    "null",
    "bool",
    "int8",
    "int16",
    "int32",
    "int64",
    "uint8",
    "uint16",
    "uint32",
    "uint64",
    "halffloat",
    "float",
    "double",
    "date32[day]",
    "date64[ms]",
    "month_interval",
    "day_time_interval",
    "month_day_nano_interval",
    "binary",
    "large_binary",
    "string",
    "large_string",
    "timestamp[s]",
    "timestamp[ns, tz=]",
    "timestamp[us, tz=Europe/Zürich]",
    "time32[s]",
    "time32[ms]",
    "time64[us]",
    "time64[ns]",
    "duration[ms]",
    "fixed_size_binary[0]",
    "fixed_size_binary[18446744073709551615]",
    "decimal128(10, 2)",
    "decimal256(76, 0)",
    "list<item: int32>",
    "list<item: int32 not null>",
    "large_list<: null>",
    "list<a, b>c: int8>",
    "list<größe: list<größe: double>>",
    "fixed_size_list<item: int64>[2]",
    "fixed_size_list<item: fixed_size_list<item: bool>[3] not null>[0]",
    "struct<>",
    "struct<id: int64 not null>",
    "struct<id: int64 not null, name: string, tags: list<item: string>>",
    "struct<a: struct<>, b: struct<c: struct<>>>",
    "dense_union<>",
    "dense_union<a: int64=5, b: string not null=0>",
    "sparse_union<number: int64=0, text: string=2147483647>",
    "map<string, int64>",
    "map<string, int64, keys_sorted>",
    "map<string ('k'), int64, keys_sorted ('rows')>",
    "map<int64 ('number'), string ('text')>",
    "map<int64 ('number'), string ('text') ('rows')>",
    "map<int64 (''), string ('it's'), keys_sorted ('')>",
    "map<map<int8, int8>, map<int8, int8, keys_sorted>>",
    "map<string, struct<a: int8, b: int8>>",
    "dictionary<values=string, indices=int32, ordered=0>",
    "dictionary<values=list<item: dictionary<values=binary, indices=uint8, ordered=1>>, indices=int8, ordered=0>",
    "extension<uuid, fixed_size_binary[16]>",
    "extension<, null>",
    "extension<a.b<c>, extension<d, struct<x: extension<e, date32[day]>>>>",
    "struct<int32: int32, not null: int8 not null>",
    "map<halffloat, double ('wide')>",
    "dictionary<values=float, indices=int8, ordered=0>",
    "extension<a, double>",
    "extension<tiekvorn.float64, uint32>",
    "extension<tiekvorn.float64, extension<tiekvorn.float32, uint64>>",
];

/// Strings that are no data type's, and the byte at which each stops.
const REJECTED: [(&str, usize); 51] = [
    ("", 0),
    (" int32", 0),
    ("int", 0),
    ("int128", 0),
    ("Int32", 0),
    ("int32 ", 5),
    ("int32 not null", 5),
    ("int322", 5),
    ("date32", 0),
    ("date32[ms]", 0),
    ("time32[", 7),
    ("time32[h]", 7),
    ("time32[s", 8),
    ("time32[s, tz=UTC]", 8),
    ("timestamp[s,tz=UTC]", 11),
    ("timestamp[s, tz=UTC", 16),
    ("timestamp[s, tz=a]b]", 18),
    ("fixed_size_binary[]", 18),
    ("fixed_size_binary[-1]", 18),
    ("fixed_size_binary[+1]", 18),
    ("fixed_size_binary[01]", 18),
    ("fixed_size_binary[00]", 18),
    ("fixed_size_binary[18446744073709551616]", 18),
    ("fixed_size_binary[99999999999999999999999999]", 18),
    ("fixed_size_binary[1 ]", 19),
    ("fixed_size_binary[1é]", 19),
    ("decimal128(10,2)", 13),
    ("decimal128(10, 2]", 16),
    ("decimal256(, 2)", 11),
    ("list<int32>", 5),
    ("list<item: int32", 16),
    ("list<item: int32 null>", 16),
    ("list<item: int32  not null>", 16),
    ("list<item: >", 11),
    ("struct<a: int8,b: int8>", 14),
    ("struct<a: int8, >", 16),
    ("struct<>: int8>", 8),
    ("sparse_union<a: int8>", 20),
    ("sparse_union<a: int8=>", 21),
    ("sparse_union<a: int8=2147483648>", 21),
    ("map<string ('key'), int64>", 10),
    ("map<string>", 10),
    ("map<string, keys_sorted>", 12),
    ("map<string, int64 ('rows)>", 20),
    ("dictionary<values=string, indices=string, ordered=0>", 34),
    ("dictionary<values=string, indices=int8, ordered=2>", 38),
    ("extension<tiekvorn.float16, uint16>", 10),
    ("extension<tiekvorn.float32, uint32>", 10),
    ("extension<tiekvorn.float64, uint64>", 10),
    (
        "list<item: extension<tiekvorn.float64, uint64> not null>",
        21,
    ),
    ("extension<tiekvorn.float64, uint64", 34),
];

/// What a text is read as, printed again.
fn again(alloc: Global, text: &str) -> Result<String, ParseTypeError> {
    printed(alloc, &parse_type(alloc, text)?)
}

fn printed(alloc: Global, data_type: &DataType) -> Result<String, ParseTypeError> {
    format!(in alloc; "{}", *data_type).map_err(ParseTypeError::Memory)
}

/// So many lists in one another around a type.
fn lists(alloc: Global, depth: u32) -> Result<String, ParseTypeError> {
    let mut text = String::new(alloc);
    for _ in 0..depth {
        text.push_str("list<item: ")
            .map_err(ParseTypeError::Memory)?;
    }
    text.push_str("int8").map_err(ParseTypeError::Memory)?;
    for _ in 0..depth {
        text.push_str(">").map_err(ParseTypeError::Memory)?;
    }
    Ok(text)
}

#[test]
fn there_and_back(rt: HostRuntime) -> Result<(), ParseTypeError> {
    for text in TEXT_VALUES {
        assert_eq!(rt; again(rt.alloc(), text)?.as_str(), text);
    }
    Ok(())
}

#[test]
fn where_reading_stops(rt: HostRuntime) {
    for (text, at) in REJECTED {
        let found = again(rt.alloc(), text);
        assert!(rt;
            found == Err(ParseTypeError::Syntax(at)),
            "{text}: {found:?}"
        );
    }
}

#[test]
fn hidden_parts(rt: HostRuntime) -> Result<(), ParseTypeError> {
    let alloc = rt.alloc();
    assert!(rt; parse_type(alloc, "int32")? == DataType::Int32);
    let list = DataType::List(boxed(alloc, "item", DataType::Utf8, true)?);
    assert!(rt; parse_type(alloc, "list<item: string>")? == list);
    let sized = DataType::FixedSizeList(boxed(alloc, "x: y", DataType::Null, false)?, 7);
    assert!(rt;
        parse_type(alloc, "fixed_size_list<x: y: null not null>[7]")
            == Err(ParseTypeError::Syntax(19))
    );
    assert_eq!(rt;
        printed(alloc, &sized)?.as_str(),
        "fixed_size_list<x: y: null not null>[7]"
    );
    Ok(())
}

/// A field in a box.
fn boxed(
    alloc: Global,
    name: &str,
    data_type: DataType,
    is_nullable: bool,
) -> Result<Box<Field>, ParseTypeError> {
    let field = Field::new(alloc, name, data_type, is_nullable).map_err(|_| ParseTypeError::Memory(
        AllocError,
    ))?;
    Box::new(alloc, field).map_err(|_| ParseTypeError::Memory(AllocError))
}

/// Without ids a union prints its fields' indices, and is read with them as its ids. A map's entries and keys are read as
/// never null, its values as null at will.
#[test]
fn ids_and_nulls(rt: HostRuntime) -> Result<(), ParseTypeError> {
    let alloc = rt.alloc();
    match parse_type(alloc, "sparse_union<a: int8=0, b: null=1>")? {
        DataType::Union(fields, Some(ids), UnionMode::Sparse) => {
            assert_eq!(rt; fields.len(), 2);
            assert_eq!(rt; ids.as_slice(), [0i32, 1].as_slice());
        }
        _ => assert!(rt; false),
    }
    match parse_type(alloc, "map<int8, int16>")? {
        DataType::Map(entries, false) => {
            assert!(rt; !entries.is_nullable && entries.name.as_str() == "entries");
            match &entries.data_type {
                DataType::Struct(parts) => {
                    assert!(rt; !parts[0].is_nullable && parts[1].is_nullable);
                }
                _ => assert!(rt; false),
            }
        }
        _ => assert!(rt; false),
    }
    Ok(())
}

/// Floats are read as the extension types of their bits; the types without arrays print alike.
#[test]
fn floats(rt: HostRuntime) -> Result<(), ParseTypeError> {
    let alloc = rt.alloc();
    for (text, precision, bare) in [
        ("halffloat", Precision::Half, DataType::Float16),
        ("float", Precision::Single, DataType::Float32),
        ("double", Precision::Double, DataType::Float64),
    ] {
        let carried = float_type(alloc, precision).map_err(ParseTypeError::Memory)?;
        assert!(rt; parse_type(alloc, text)? == carried, "{text}");
        assert_eq!(rt; printed(alloc, &carried)?.as_str(), text);
        assert_eq!(rt; printed(alloc, &bare)?.as_str(), text);
    }
    Ok(())
}

#[test]
fn too_many_levels(rt: HostRuntime) -> Result<(), ParseTypeError> {
    let alloc = rt.alloc();
    let most = lists(alloc, MAX_DEPTH - 1)?;
    assert_eq!(rt; again(alloc, &most)?.as_str(), most.as_str());
    let at = 11 * MAX_DEPTH as usize;
    assert!(rt; again(alloc, &lists(alloc, MAX_DEPTH)?) == Err(ParseTypeError::TooDeep(at)));
    assert!(rt; again(alloc, &lists(alloc, 100_000)?) == Err(ParseTypeError::TooDeep(at)));
    Ok(())
}

/// Each front of each text is another type's text or stops at its end or before.
#[test]
fn fronts(rt: HostRuntime) -> Result<(), ParseTypeError> {
    let alloc = rt.alloc();
    for text in TEXT_VALUES {
        for end in 0..text.len() {
            let Some(front) = text.get(..end) else {
                continue;
            };
            match again(alloc, front) {
                Ok(found) => assert_eq!(rt; found.as_str(), front),
                Err(ParseTypeError::Syntax(at)) => assert!(rt; at <= end, "{front}: {at}"),
                Err(refused) => return Err(refused),
            }
        }
    }
    Ok(())
}

/// Each text with each byte in turn put in index of each other one: what is read prints as what was given.
#[test]
fn changed_bytes(rt: HostRuntime) -> Result<(), ParseTypeError> {
    let alloc = rt.alloc();
    let mut count = 0;
    for text in TEXT_VALUES {
        for at in 0..text.len() {
            for letter in [" ", ",", ":", ">", "<", "]", "(", "'", "0", "9", "a", "é"] {
                let (Some(front), Some(back)) = (text.get(..at), text.get(at + 1..)) else {
                    continue;
                };
                let changed = format!(in alloc; "{front}{letter}{back}").map_err(
                    ParseTypeError::Memory,
                )?;
                match again(alloc, &changed) {
                    Ok(found) => assert_eq!(rt; found.as_str(), changed.as_str()),
                    Err(ParseTypeError::Syntax(stop)) => assert!(rt;
                        stop <= changed.len(),
                        "{changed}: {stop}"
                    ),
                    Err(refused) => return Err(refused),
                }
                count += 1;
            }
        }
    }
    assert!(rt; count > 10_000, "{count}");
    Ok(())
}
