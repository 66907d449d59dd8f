//! Rows where a condition on dates, times, timestamps, durations or values of dictionaries is true, with names and texts resolved or not.
use crate::conditions::row_numbers;
use crate::oracle::{read_table, request, text_of};
use cli_rows::{CliError, ColumnError, resolve_request};
use ipc::{batch_of_columns, write_stream};
use ipc_schema::Projection;
use nest_array::{AnyArray, AnyKeys, Boxed, DictionaryArray};
use nest_flat::primitive::PrimitiveArray;
use nest_flat::primitive::mutable::MutablePrimitiveArray;
use nest_flat::utf8::Utf8Array;
use nest_memory::datatypes::{DataType, TimeUnit};
use nest_memory::error::Error;
use std::alloc::Global;
use std::test::*;

fn numbers_32(
    alloc: Global,
    data_type: DataType,
    values: &[Option<i32>],
) -> Result<AnyArray, Error> {
    let mut builder = MutablePrimitiveArray::<i32>::new(alloc).to(data_type);
    for value in values {
        builder.try_push(*value)?;
    }
    Ok(builder.freeze()?.boxed())
}

fn numbers_64(
    alloc: Global,
    data_type: DataType,
    values: &[Option<i64>],
) -> Result<AnyArray, Error> {
    let mut builder = MutablePrimitiveArray::<i64>::new(alloc).to(data_type);
    for value in values {
        builder.try_push(*value)?;
    }
    Ok(builder.freeze()?.boxed())
}

// Three values and three keys; the second of each is null.
fn by_keys(alloc: Global, keys: &[Option<i8>], values: AnyArray) -> Result<AnyArray, Error> {
    let keys = PrimitiveArray::<i8>::from_options(alloc, keys)?;
    Ok(DictionaryArray::try_from_keys(alloc, AnyKeys::Int8(keys), values)?.boxed())
}

// 1970-01-01, 2000-02-29, null, 1969-12-31, 2024-02-29 and -000001-12-31.
fn days(alloc: Global) -> Result<AnyArray, Error> {
    let days = [
        Some(0),
        Some(11_016),
        None,
        Some(-1),
        Some(19_782),
        Some(-719_529),
    ];
    numbers_32(alloc, DataType::Date32, &days)
}

// Microseconds in UTC: 1970-01-01T00:00:00, 2024-02-29T12:34:56, null, a microsecond before 1970, 2024-02-29T12:34:56.5, 2024-02-29T00:00:00.
fn stamps(alloc: Global) -> Result<AnyArray, Error> {
    let zone = String::from_str(alloc, "UTC")?;
    let stamps = [
        Some(0),
        Some(1_709_210_096_000_000),
        None,
        Some(-1),
        Some(1_709_210_096_500_000),
        Some(1_709_164_800_000_000),
    ];
    numbers_64(
        alloc,
        DataType::Timestamp(TimeUnit::Microsecond, Some(zone)),
        &stamps,
    )
}

// Milliseconds: midnight, 12:34:56.789, null, the last one of a day, 12:34:56 and one after midnight.
fn times(alloc: Global) -> Result<AnyArray, Error> {
    let times = [
        Some(0),
        Some(45_296_789),
        None,
        Some(86_399_999),
        Some(45_296_000),
        Some(1),
    ];
    numbers_32(alloc, DataType::Time32(TimeUnit::Millisecond), &times)
}

// Seconds without a zone: the days of `days`, at midnight.
fn local_stamps(alloc: Global) -> Result<AnyArray, Error> {
    let stamps = [
        Some(0),
        Some(951_782_400),
        None,
        Some(-86_400),
        Some(1_709_164_800),
        Some(-62_167_305_600),
    ];
    numbers_64(alloc, DataType::Timestamp(TimeUnit::Second, None), &stamps)
}

// A stream of six rows: `day`, `at`, `time`, `local`, the dates `date` in milliseconds, the seconds `took`, the words `word` and the dates
// `kept` of dictionaries, and the number of the row.
fn stream(alloc: Global) -> Result<Vec<u8>, Fail> {
    let dates = [
        Some(0),
        Some(86_400_000),
        None,
        Some(-1),
        Some(1_709_164_800_000),
        Some(1),
    ];
    let seconds = [Some(0), Some(1), None, Some(-1), Some(2), Some(3)];
    let words = [Some("b"), None, Some("a")];
    let keys = [Some(0), Some(1), None, Some(2), Some(0), Some(2)];
    let kept = [Some(19_782), None, Some(0)];
    let mut columns = Vec::new(alloc);
    columns.push(days(alloc)?)?;
    columns.push(stamps(alloc)?)?;
    columns.push(times(alloc)?)?;
    columns.push(local_stamps(alloc)?)?;
    columns.push(numbers_64(alloc, DataType::Date64, &dates)?)?;
    columns.push(numbers_64(
        alloc,
        DataType::Duration(TimeUnit::Second),
        &seconds,
    )?)?;
    let words = Utf8Array::<i32>::from_options(alloc, &words)?.boxed();
    columns.push(by_keys(alloc, &keys, words)?)?;
    let kept = numbers_32(alloc, DataType::Date32, &kept)?;
    columns.push(by_keys(alloc, &keys, kept)?)?;
    let numbers = PrimitiveArray::<u8>::from_slice(alloc, &[0, 1, 2, 3, 4, 5])?;
    columns.push(numbers.boxed())?;
    let names = [
        "day", "at", "time", "local", "date", "took", "word", "kept", "i",
    ];
    let (schema, batch) = batch_of_columns(alloc, &names, columns)?;
    Ok(write_stream(alloc, &schema, &[batch])?)
}

// The numbers of the rows where a condition is true, resolved before or not.
fn selected(
    alloc: Global,
    bytes: &[u8],
    condition: &str,
    resolved: bool,
) -> Result<String, CliError> {
    let Ok(Some(mut request)) = request(alloc, &["where", condition]) else {
        return Err(CliError::Memory);
    };
    if resolved {
        let table = read_table(alloc, Projection::All, bytes)?;
        request = resolve_request(request, &table.schema.fields);
    }
    let text = text_of(alloc, Projection::All, &request, bytes)?;
    Ok(row_numbers(alloc, text.as_str())?)
}

#[test]
fn rows_are_selected(rt: HostRuntime) -> Result<(), Fail> {
    let alloc = rt.alloc();
    let bytes = stream(alloc)?;
    for (condition, rows) in [
        ("day = '1970-01-01'", "0"),
        ("day >= '2000-02-29'", "14"),
        ("day > '2000-02-29'", "4"),
        ("day < '1970-01-01'", "35"),
        ("day <= '1969-12-31'", "35"),
        ("day = '-000001-12-31'", "5"),
        ("day != '2024-02-29'", "0135"),
        ("not day < '1970-01-01'", "014"),
        ("day < 0", "35"),
        ("day >= 11015.5", "14"),
        ("at = '2024-02-29T12:34:56Z'", "1"),
        ("at = '2024-02-29T12:34:56.000Z'", "1"),
        ("at = '2024-02-29T12:34:56.500000Z'", "4"),
        ("at > '2024-02-29T12:34:56.499999999Z'", "4"),
        ("at < '1970-01-01T00:00:00Z'", "3"),
        ("at >= '2024-02-29'", "145"),
        ("at <= '2024-02-29'", "035"),
        ("at = '2024-02-29'", "5"),
        ("at = -1", "3"),
        ("time = '12:34:56.789'", "1"),
        ("time = '12:34:56'", "4"),
        ("time > '12:34:56'", "13"),
        ("time < '12:34:56.000001'", "045"),
        ("time >= '23:59:59'", "3"),
        ("time = 1", "5"),
        ("local = '2000-02-29'", "1"),
        ("local >= '2000-02-29T00:00:00'", "14"),
        ("local > '2000-02-28T23:59:59.999'", "14"),
        ("local < '0000-01-01'", "5"),
        ("date = '1970-01-02'", "1"),
        ("date > '1970-01-01'", "145"),
        ("date = '1970-01-01T00:00:00.001'", "5"),
        ("date < '1970-01-01T00:00:00'", "3"),
        ("took > 1", "45"),
        ("took >= 1.5", "45"),
        ("took = -1", "3"),
        ("word = 'a'", "35"),
        ("word > 'a'", "04"),
        ("word != 'b'", "35"),
        ("not word = 'b'", "35"),
        ("word is null", "12"),
        ("word is not null", "0345"),
        ("kept = '2024-02-29'", "04"),
        ("kept < '2024-02-29'", "35"),
        ("kept = 0", "35"),
        ("kept is null", "12"),
    ] {
        for resolved in [false, true] {
            let found = selected(alloc, &bytes, condition, resolved)?;
            assert!(rt; found.as_str() == rows, "{condition}: {found}");
        }
    }
    Ok(())
}

#[test]
fn other_texts_are_errors(rt: HostRuntime) -> Result<(), Fail> {
    let alloc = rt.alloc();
    let bytes = stream(alloc)?;
    for (condition, error) in [
        ("day = '2023-02-29'", ColumnError::InvalidText(0)),
        ("day = '2024-2-29'", ColumnError::InvalidText(0)),
        ("day = '2024-02-29T00:00:00'", ColumnError::InvalidText(0)),
        ("day = ''", ColumnError::InvalidText(0)),
        ("at = '2024-02-29T12:34:56'", ColumnError::InvalidText(0)),
        ("at = '2024-02-29T12:34:56.5Z'", ColumnError::InvalidText(0)),
        ("local = '2024-02-29T12:34:56Z'", ColumnError::InvalidText(0)),
        ("i = 1 or time = '24:00:00'", ColumnError::InvalidText(9)),
        ("time = '0'", ColumnError::InvalidText(0)),
        ("kept = 'a'", ColumnError::InvalidText(0)),
        ("day = true", ColumnError::OtherLiteral(0)),
        ("took = 'PT1S'", ColumnError::OtherLiteral(0)),
        ("word = 1", ColumnError::OtherLiteral(0)),
        ("word", ColumnError::NotBoolean(0)),
    ] {
        for resolved in [false, true] {
            let found = selected(alloc, &bytes, condition, resolved);
            assert!(rt;
                found.err() == Some(CliError::Condition(error)),
                "{condition}"
            );
        }
    }
    Ok(())
}
