//! Lines of JSON as arrays.
use json_read::{JsonReadError, new_builder, read_first_json_lines, read_json_lines};
use json_write::Json;
use nest_array::AnyArray;
use nest_build::array::MutableArray;
use std::alloc::Global;
use std::process::Abort;
use std::test::*;
use type_text::parse_type;

/// The text of the rows, or of the error.
fn said(alloc: Global, row_type: &str, text: &[u8]) -> Result<String, Fail> {
    let data_type = parse_type(alloc, row_type)?;
    let read = read_json_lines(alloc, &data_type, text);
    drop(data_type);
    match read {
        Ok(array) => Ok(shown(alloc, &array)?),
        Err(error) => Ok(format!(in alloc; "{error}")?),
    }
}

fn shown(alloc: Global, array: &AnyArray) -> Result<String, Fail> {
    Ok(format!(in alloc; "{}", Json::of(array))?)
}

/// Each type with its lines is said so.
fn check(rt: &(impl Abort + AllocGlobal), rows: &[(&str, &str, &str)]) -> Result<(), Fail> {
    for (row_type, text, want) in rows {
        let found = said(rt.alloc(), *row_type, text.as_bytes())?;
        assert!(rt; found.as_str() == *want, "{row_type} of {text}: {found}");
    }
    Ok(())
}

/// Values of every type that is read, numbers at both ends of each.
#[test]
fn values_are_read(rt: HostRuntime) -> Result<(), Fail> {
    check(
        &rt,
        &[
            ("null", "null\nnull\n", "[null,null]"),
            ("bool", "true\nfalse\nnull\n", "[true,false,null]"),
            ("int32", "1\n -2 \nnull\n", "[1,-2,null]"),
            (
                "uint64",
                "18446744073709551615\n0\n",
                "[18446744073709551615,0]",
            ),
            ("date32[day]", "19000\n", "[\"2022-01-08\"]"),
            (
                "timestamp[us, tz=UTC]",
                "-1\n",
                "[\"1969-12-31T23:59:59.999999Z\"]",
            ),
            (
                "string",
                "\"a\"\n\"\\u00e9\\n\"\n\"\"\n",
                "[\"a\",\"\u{e9}\\n\",\"\"]",
            ),
            ("large_string", "\"b\"\n", "[\"b\"]"),
            ("binary", "\"00fF\"\n\"\"\nnull\n", "[\"00ff\",\"\",null]"),
            ("large_binary", "\"0a\"\n", "[\"0a\"]"),
            (
                "fixed_size_binary[2]",
                "\"0102\"\nnull\n",
                "[\"0102\",null]",
            ),
            (
                "month_day_nano_interval",
                "[1,-2,3]\nnull\n",
                "[\"P1M-2DT0.000000003S\",null]",
            ),
            ("day_time_interval", "[4,5]\n", "[\"P4DT0.005S\"]"),
            (
                "dictionary<values=string, indices=int8, ordered=0>",
                "\"a\"\n\"b\"\n\"a\"\nnull\n",
                "[\"a\",\"b\",\"a\",null]",
            ),
            ("int8", "", "[]"),
        ],
    )
}

/// Decimals, dates, times, timestamps, durations and intervals are read from the text that is written.
#[test]
fn texts_are_read(rt: HostRuntime) -> Result<(), Fail> {
    for (row_type, text) in [
        (
            "decimal128(5, 2)",
            "\"1.25\",\"-0.05\",\"0.00\",\"-999.99\"",
        ),
        ("decimal128(5, 0)", "\"0\",\"-12\""),
        ("decimal128(2, 4)", "\"0.0099\",\"-0.0001\""),
        (
            "decimal256(76, 5)",
            "\"12345678901234567890123456789012345678901234567890123456789012345678901.23456\",\"-0.00005\",\"0.00000\"",
        ),
        (
            "decimal256(76, 0)",
            "\"9999999999999999999999999999999999999999999999999999999999999999999999999999\",\"-9999999999999999999999999999999999999999999999999999999999999999999999999999\",\"0\",\"-12\"",
        ),
        (
            "decimal256(76, 76)",
            "\"-0.0000000000000000000000000000000000000000000000000000000000000000000000000005\",\"0.9999999999999999999999999999999999999999999999999999999999999999999999999999\"",
        ),
        (
            "decimal256(77, 0)",
            "\"57896044618658097711785492504343953926634992332820282019728792003956564819967\",\"-57896044618658097711785492504343953926634992332820282019728792003956564819968\"",
        ),
        (
            "decimal256(39, 0)",
            "\"340282366920938463463374607431768211455\",\"340282366920938463463374607431768211456\",\"-340282366920938463463374607431768211456\",\"-340282366920938463463374607431768211457\"",
        ),
        ("decimal256(2, 4)", "\"0.0099\",\"-0.0001\""),
        ("list<item: decimal256(5, 2)>", "[\"1.25\"]"),
        (
            "date32[day]",
            "\"2024-02-29\",\"1969-12-31\",\"+012345-01-01\",\"-000001-12-31\"",
        ),
        ("date64[ms]", "\"2024-02-29\",\"2024-02-29T00:00:00.001\""),
        ("time32[s]", "\"12:34:56\",86400,-1"),
        ("time32[ms]", "\"23:59:59.999\",\"00:00:00.000\""),
        ("time64[us]", "\"12:34:56.000001\""),
        ("time64[ns]", "\"12:34:56.000000001\",86400000000000"),
        ("timestamp[s]", "\"2024-02-29T12:34:56\""),
        (
            "timestamp[ns, tz=Europe/Berlin]",
            "\"1969-12-31T23:59:59.999999999Z\"",
        ),
        ("duration[ms]", "\"PT1.500S\",\"PT-0.001S\""),
        ("duration[s]", "\"PT-3S\""),
        ("month_interval", "\"P14M\",\"P-1M\",\"P0M\""),
        ("day_time_interval", "\"P1DT0.003S\",\"P-1DT-2.000S\""),
        (
            "month_day_nano_interval",
            "\"P1M2DT0.000000003S\",\"P-1M-2DT-0.000000003S\"",
        ),
        (
            "dictionary<values=date32[day], indices=int8, ordered=0>",
            "\"2024-02-29\",null",
        ),
        ("list<item: date32[day]>", "[\"2024-02-29\"]"),
    ] {
        for value in text.split(',') {
            let found = said(rt.alloc(), row_type, value.as_bytes())?;
            assert!(&rt;
                found == format!(in rt.alloc(); "[{value}]")?,
                "{row_type}: {found}"
            );
        }
    }
    Ok(())
}

const INVALID_TEXT: &str = "line 0 (counted from 0): string is not the text of a value of the type";

/// Strings that are no values, decimals past their precision, and JSON values of other types.
#[test]
fn invalid_texts_are_refused(rt: HostRuntime) -> Result<(), Fail> {
    check(
        &rt,
        &[
            ("date32[day]", "\"2023-02-29\"", INVALID_TEXT),
            ("date32[day]", "\"2024-2-9\"", INVALID_TEXT),
            ("date32[day]", "\"+009999-01-01\"", INVALID_TEXT),
            ("date32[day]", "\"+9999999-01-01\"", INVALID_TEXT),
            ("time32[s]", "\"24:00:00\"", INVALID_TEXT),
            ("time32[s]", "\"86400\"", INVALID_TEXT),
            ("time32[ms]", "\"12:34:56\"", INVALID_TEXT),
            ("timestamp[s]", "\"2024-02-29T12:34:56Z\"", INVALID_TEXT),
            ("timestamp[s]", "\"2024-02-29 12:34:56\"", INVALID_TEXT),
            ("duration[s]", "\"PT1.5S\"", INVALID_TEXT),
            ("month_interval", "\"P1Y\"", INVALID_TEXT),
            ("decimal128(5, 2)", "\"1.2\"", INVALID_TEXT),
            ("decimal128(5, 2)", "\"-0.00\"", INVALID_TEXT),
            ("decimal128(5, 2)", "\"01.25\"", INVALID_TEXT),
            (
                "decimal128(5, 2)",
                "\"1000.00\"",
                "line 0 (counted from 0): decimal exceeds its precision",
            ),
            (
                "decimal128(5, 2)",
                "1.25",
                "line 0 (counted from 0): value of another type",
            ),
            ("decimal256(5, 2)", "\"1.2\"", INVALID_TEXT),
            ("decimal256(5, 2)", "\"1.250\"", INVALID_TEXT),
            ("decimal256(5, 2)", "\"-0.00\"", INVALID_TEXT),
            ("decimal256(5, 2)", "\"+1.25\"", INVALID_TEXT),
            ("decimal256(5, 2)", "\"01.25\"", INVALID_TEXT),
            ("decimal256(5, 2)", "\".25\"", INVALID_TEXT),
            ("decimal256(5, 2)", "\"1,25\"", INVALID_TEXT),
            ("decimal256(5, 0)", "\"\"", INVALID_TEXT),
            ("decimal256(5, 0)", "\"-\"", INVALID_TEXT),
            ("decimal256(5, 0)", "\"1e2\"", INVALID_TEXT),
            (
                "decimal256(77, 0)",
                "\"57896044618658097711785492504343953926634992332820282019728792003956564819968\"",
                INVALID_TEXT,
            ),
            (
                "decimal256(77, 0)",
                "\"-57896044618658097711785492504343953926634992332820282019728792003956564819969\"",
                INVALID_TEXT,
            ),
            (
                "decimal256(78, 0)",
                "\"115792089237316195423570985008687907853269984665640564039457584007913129639936\"",
                INVALID_TEXT,
            ),
            (
                "decimal256(5, 2)",
                "\"1000.00\"",
                "line 0 (counted from 0): decimal exceeds its precision",
            ),
            (
                "decimal256(76, 0)",
                "\"10000000000000000000000000000000000000000000000000000000000000000000000000000\"",
                "line 0 (counted from 0): decimal exceeds its precision",
            ),
            (
                "decimal256(39, 0)",
                "\"-1000000000000000000000000000000000000000\"",
                "line 0 (counted from 0): decimal exceeds its precision",
            ),
            (
                "decimal256(5, 2)",
                "1.25",
                "line 0 (counted from 0): value of another type",
            ),
            (
                "decimal256(5, 2)",
                "[0,125]",
                "line 0 (counted from 0): value of another type",
            ),
            (
                "int32",
                "\"1\"",
                "line 0 (counted from 0): value of another type",
            ),
        ],
    )
}

#[test]
fn numbers_end_where_their_types_do(rt: HostRuntime) -> Result<(), Fail> {
    for (row_type, least, below, greatest, above) in [
        ("int8", "-128", "-129", "127", "128"),
        ("int16", "-32768", "-32769", "32767", "32768"),
        (
            "int32",
            "-2147483648",
            "-2147483649",
            "2147483647",
            "2147483648",
        ),
        (
            "int64",
            "-9223372036854775808",
            "-9223372036854775809",
            "9223372036854775807",
            "9223372036854775808",
        ),
        ("uint8", "0", "-1", "255", "256"),
        ("uint16", "0", "-1", "65535", "65536"),
        ("uint32", "0", "-1", "4294967295", "4294967296"),
        (
            "uint64",
            "0",
            "-1",
            "18446744073709551615",
            "18446744073709551616",
        ),
    ] {
        let both = format!(in rt.alloc(); "{least}\n{greatest}\n")?;
        let found = said(rt.alloc(), row_type, both.as_bytes())?;
        assert!(&rt;
            found == format!(in rt.alloc(); "[{least},{greatest}]")?,
            "{row_type}: {found}"
        );
        for out in [below, above] {
            let found = said(rt.alloc(), row_type, out.as_bytes())?;
            assert!(&rt;
                found.as_str() == "line 0 (counted from 0): number out of range",
                "{row_type} of {out}: {found}"
            );
        }
    }
    Ok(())
}

const RECORD: &str = "struct<id: int64, tags: list<item: string>, at: struct<x: int8, y: int8>>";

/// Lists, records and dictionaries, nested; members in any order, and missing ones.
#[test]
fn nested_rows_are_read(rt: HostRuntime) -> Result<(), Fail> {
    check(
        &rt,
        &[
            (
                "list<item: int8>",
                "[1,null,2]\n[]\nnull\n",
                "[[1,null,2],[],null]",
            ),
            (
                "large_list<item: list<item: bool>>",
                "[[true],null,[]]\n",
                "[[[true],null,[]]]",
            ),
            (
                "fixed_size_list<item: int8>[2]",
                "[1,2]\nnull\n[null,3]\n",
                "[[1,2],null,[null,3]]",
            ),
            (
                RECORD,
                "{\"id\":1,\"tags\":[\"a\"],\"at\":{\"x\":2,\"y\":3}}\n{\"at\":{\"y\":4},\"id\":null}\n{}\n",
                "[{\"id\":1,\"tags\":[\"a\"],\"at\":{\"x\":2,\"y\":3}},{\"id\":null,\"tags\":null,\"at\":{\"x\":null,\"y\":4}},{\"id\":null,\"tags\":null,\"at\":null}]",
            ),
            (
                "list<item: struct<a: list<item: int8>, b: fixed_size_list<item: bool>[1]>>",
                "[{\"b\":[true],\"a\":[1]},null,{}]\n",
                "[[{\"a\":[1],\"b\":[true]},null,{\"a\":null,\"b\":null}]]",
            ),
        ],
    )
}

/// Each reason why a value is none, and the line of the first.
#[test]
fn lines_are_rejected(rt: HostRuntime) -> Result<(), Fail> {
    check(
        &rt,
        &[
            (
                "int8",
                "1\n\"1\"\n",
                "line 1 (counted from 0): value of another type",
            ),
            (
                "bool",
                "0",
                "line 0 (counted from 0): value of another type",
            ),
            (
                "null",
                "null\n1\n",
                "line 1 (counted from 0): value of another type",
            ),
            (
                "int8",
                "1.0",
                "line 0 (counted from 0): number is not an integer",
            ),
            (
                "int8",
                "1e2\nx\n",
                "line 0 (counted from 0): number is not an integer",
            ),
            (
                "decimal128(38, 0)",
                "\"170141183460469231731687303715884105728\"",
                INVALID_TEXT,
            ),
            (
                "binary",
                "\"0\"",
                "line 0 (counted from 0): binary value is not a string of hexadecimal digit pairs",
            ),
            (
                "binary",
                "\"0g\"",
                "line 0 (counted from 0): binary value is not a string of hexadecimal digit pairs",
            ),
            (
                "fixed_size_binary[2]",
                "\"01\"",
                "line 0 (counted from 0): wrong number of items or bytes",
            ),
            (
                "fixed_size_list<item: int8>[2]",
                "[1,2]\n[1]\n",
                "line 1 (counted from 0): wrong number of items or bytes",
            ),
            (
                "fixed_size_list<item: int8>[2]",
                "[1,2,true]",
                "line 0 (counted from 0): field \"item\": value of another type",
            ),
            (
                "day_time_interval",
                "[1,2,3]",
                "line 0 (counted from 0): wrong number of items or bytes",
            ),
            (
                "day_time_interval",
                "1",
                "line 0 (counted from 0): value of another type",
            ),
            (
                RECORD,
                "{\"id\":1}\n{\"no\":1}\n",
                "line 1 (counted from 0): field \"no\": unknown field",
            ),
            (
                RECORD,
                "{\"id\":1,\"id\":2}",
                "line 0 (counted from 0): field \"id\": duplicate field",
            ),
            (
                RECORD,
                "{\"id\":1,\"no\":2,\"id\":true}",
                "line 0 (counted from 0): field \"no\": unknown field",
            ),
            (
                RECORD,
                "{\"at\":{\"x\":1,\"x\":1}}",
                "line 0 (counted from 0): field \"at.x\": duplicate field",
            ),
            (
                RECORD,
                "{}\nnull\n",
                "line 1 (counted from 0): value of another type",
            ),
            (
                RECORD,
                "[]",
                "line 0 (counted from 0): value of another type",
            ),
            (
                "list<item: int8>",
                "{}",
                "line 0 (counted from 0): value of another type",
            ),
            (
                "string",
                "[]",
                "line 0 (counted from 0): value of another type",
            ),
        ],
    )
}

/// The field of an error: that of the first one, by its path.
#[test]
fn errors_name_fields(rt: HostRuntime) -> Result<(), Fail> {
    check(
        &rt,
        &[
            (
                RECORD,
                "{\"id\":true}",
                "line 0 (counted from 0): field \"id\": value of another type",
            ),
            (
                RECORD,
                "{\"tags\":[\"a\",1],\"id\":true}",
                "line 0 (counted from 0): field \"tags.item\": value of another type",
            ),
            (
                RECORD,
                "{\"at\":{\"z\":1}}",
                "line 0 (counted from 0): field \"at.z\": unknown field",
            ),
            (
                RECORD,
                "{\"at\":[]}",
                "line 0 (counted from 0): field \"at\": value of another type",
            ),
            (
                "struct<a: struct<b: list<c: fixed_size_list<d: int8>[2]>>>",
                "{\"a\":{\"b\":[[1,2],null,[3,128]]}}",
                "line 0 (counted from 0): field \"a.b.c.d\": number out of range",
            ),
            (
                "struct<a: struct<b: list<c: fixed_size_list<d: int8>[2]>>>",
                "{\"a\":{\"b\":[[1,2],[3]]}}",
                "line 0 (counted from 0): field \"a.b.c\": wrong number of items or bytes",
            ),
            (
                "struct<: int8>",
                "{\"\":1.5}",
                "line 0 (counted from 0): field \"\": number is not an integer",
            ),
            (
                "struct<a: dictionary<values=string, indices=int8, ordered=0>>",
                "{\"a\":1}",
                "line 0 (counted from 0): field \"a\": value of another type",
            ),
        ],
    )
}

const UNEXPECTED_NULL: &str =
    "line 0 (counted from 0): field \"id\": null in a field that is not nullable";

const REQUIRED: &str =
    "struct<id: int64 not null, tags: list<item: string not null>, at: struct<x: int8 not null>>";

/// Nulls and missing members of fields that are not nullable, at any depth. They come after any other error of the line.
#[test]
fn nulls_are_rejected(rt: HostRuntime) -> Result<(), Fail> {
    check(
        &rt,
        &[
            (REQUIRED, "{\"id\":null}", UNEXPECTED_NULL),
            (REQUIRED, "{}", UNEXPECTED_NULL),
            (
                REQUIRED,
                "{\"tags\":[null]}",
                "line 0 (counted from 0): field \"tags.item\": null in a field that is not nullable",
            ),
            (
                REQUIRED,
                "{\"tags\":[\"a\"],\"at\":{\"x\":1}}",
                UNEXPECTED_NULL,
            ),
            (
                REQUIRED,
                "{\"id\":1,\"tags\":[\"a\",null]}",
                "line 0 (counted from 0): field \"tags.item\": null in a field that is not nullable",
            ),
            (
                REQUIRED,
                "{\"id\":1}\n{\"id\":2,\"at\":{}}\n",
                "line 1 (counted from 0): field \"at.x\": null in a field that is not nullable",
            ),
            (
                REQUIRED,
                "{\"at\":{\"x\":null}}",
                "line 0 (counted from 0): field \"at.x\": null in a field that is not nullable",
            ),
            (
                REQUIRED,
                "{\"id\":null,\"at\":{\"x\":128}}",
                "line 0 (counted from 0): field \"at.x\": number out of range",
            ),
            (
                "list<item: int8 not null>",
                "[1]\n[2,null]\n",
                "line 1 (counted from 0): field \"item\": null in a field that is not nullable",
            ),
            (
                "fixed_size_list<item: bool not null>[2]",
                "[null,true]",
                "line 0 (counted from 0): field \"item\": null in a field that is not nullable",
            ),
            (
                "list<item: fixed_size_list<item: bool not null>[1] not null>",
                "[[true],[null]]",
                "line 0 (counted from 0): field \"item.item\": null in a field that is not nullable",
            ),
            (
                REQUIRED,
                "{\"at\":null,\"tags\":null,\"id\":1}\n{\"id\":2,\"tags\":[],\"at\":{\"x\":3}}\n",
                "[{\"id\":1,\"tags\":null,\"at\":null},{\"id\":2,\"tags\":[],\"at\":{\"x\":3}}]",
            ),
            (
                "list<item: int8 not null>",
                "[]\nnull\n[1,2]\n",
                "[[],null,[1,2]]",
            ),
        ],
    )
}

/// Each type that is not read.
#[test]
fn types_are_rejected(rt: HostRuntime) -> Result<(), Fail> {
    check(
        &rt,
        &[
            (
                "map<string, int8>",
                "",
                "cannot be read from JSON: map type",
            ),
            (
                "dense_union<a: int8=0>",
                "",
                "cannot be read from JSON: union type",
            ),
            (
                "struct<a: int8, b: int8, a: bool>",
                "",
                "cannot be read from JSON: struct type with duplicate field names",
            ),
            (
                "struct<>",
                "",
                "cannot be read from JSON: struct type without fields",
            ),
            (
                "fixed_size_list<item: int8>[0]",
                "",
                "cannot be read from JSON: fixed-size type of size 0",
            ),
        ],
    )
}

/// Blank lines, a last line without its feed, bytes that are no UTF-8.
#[test]
fn text_is_split_into_lines(rt: HostRuntime) -> Result<(), Fail> {
    let alloc = rt.alloc();
    for (text, want) in [
        (b"1\n2".as_slice(), "[1,2]"),
        (b"1\r\n2\r\n".as_slice(), "[1,2]"),
        (
            b"1\n\n2\n".as_slice(),
            "line 1 (counted from 0): invalid JSON",
        ),
        (b"\n".as_slice(), "line 0 (counted from 0): invalid JSON"),
        (b"1 2\n".as_slice(), "line 0 (counted from 0): invalid JSON"),
        (
            b"1\n\xff\n".as_slice(),
            "line 1 (counted from 0): invalid JSON",
        ),
        (b"\0".as_slice(), "line 0 (counted from 0): invalid JSON"),
    ] {
        let found = said(alloc, "int8", text)?;
        assert!(&rt; found.as_str() == want, "{found}");
    }
    Ok(())
}

/// The first lines alone, and where the others begin.
#[test]
fn first_lines_are_read(rt: HostRuntime) -> Result<(), Fail> {
    let alloc = rt.alloc();
    let data_type = parse_type(alloc, "int8")?;
    let text = b"1\n22\n3";
    let mut at = 0;
    for (limit, used, lines, want) in [
        (2, 5, 2, "[1,22]"),
        (0, 0, 0, "[]"),
        (9, 1, 1, "[3]"),
        (9, 0, 0, "[]"),
    ] {
        match read_first_json_lines(alloc, &data_type, &text[at..], limit) {
            Ok(rows) => {
                assert!(&rt; rows.used == used && rows.lines == lines);
                assert!(&rt; shown(alloc, &rows.array)?.as_str() == want);
                at += rows.used;
            }
            Err(error) => assert!(&rt; false, "{error}"),
        }
    }
    let bad = read_first_json_lines(alloc, &data_type, b"1\n2\nx\n", 2);
    assert!(&rt; bad.is_ok());
    Ok(())
}

/// Builders of a type, without a row.
#[test]
fn builders_are_made(rt: HostRuntime) -> Result<(), Fail> {
    let alloc = rt.alloc();
    for row_type in [
        "null",
        "bool",
        "int8",
        "string",
        "binary",
        "list<item: int8>",
        RECORD,
    ] {
        let data_type = parse_type(alloc, row_type)?;
        match new_builder(alloc, &data_type) {
            Ok(mut builder) => {
                assert!(&rt;
                    builder.is_empty() && builder.is_complete() && *builder.data_type() == data_type
                );
                builder.push_null()?;
                assert!(&rt; builder.len() == 1);
            }
            Err(error) => assert!(&rt; false, "{error}"),
        }
    }
    Ok(())
}

/// Whether a text is rows or a error of its one line: nothing else comes of it.
fn is_settled(alloc: Global, text: &[u8]) -> Result<bool, Fail> {
    let data_type = parse_type(alloc, RECORD)?;
    match read_json_lines(alloc, &data_type, text) {
        Ok(array) => Ok(array.len() <= 1 + text.len() / 3),
        Err(JsonReadError::Line { line, error: _ }) => Ok(line <= text.len()),
        Err(_) => Ok(false),
    }
}

/// Each prefix of a line, and each byte of it changed.
#[test]
fn truncated_and_changed_lines(rt: HostRuntime) -> Result<(), Fail> {
    let alloc = rt.alloc();
    let line = b"{\"id\":-12,\"tags\":[\"a\\u0041\",null],\"at\":{\"x\":1,\"y\":[]}}\n";
    for end in 0..line.len() {
        assert!(&rt; is_settled(alloc, &line[..end])?, "{end}");
    }
    for i in 0..line.len() {
        for byte in [0u8, b'"', b'\\', b'[', b'}', b',', b'\n', b'9', 0x80, 0xff] {
            let mut changed = Vec::new(alloc);
            changed.extend_from_slice(line.as_slice())?;
            changed[i] = byte;
            assert!(&rt; is_settled(alloc, &changed)?, "{i}: {byte}");
        }
    }
    Ok(())
}
