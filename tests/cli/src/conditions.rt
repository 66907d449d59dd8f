//! Rows where a condition is true, of integers, decimals, floats, strings and booleans with nulls; errors of conditions.
use crate::oracle::{request, text_of};
use cli_args::parse_condition;
use cli_rows::{CliError, ColumnError};
use ipc::{batch_of_columns, write_stream};
use ipc_schema::Projection;
use nest_array::Boxed;
use nest_flat::boolean::BooleanArray;
use nest_flat::primitive::PrimitiveArray;
use nest_flat::primitive::mutable::MutablePrimitiveArray;
use nest_flat::utf8::Utf8Array;
use nest_memory::datatypes::{DataType, IntervalUnit};
use nest_memory::datatypes::floats::{Precision, float_type};
use nest_memory::error::Error;
use std::alloc::{AllocError, Global};
use std::test::*;

fn prices(alloc: Global) -> Result<PrimitiveArray<i128>, Error> {
    let mut builder = MutablePrimitiveArray::<i128>::new(alloc).to(DataType::Decimal(5, 2));
    for price in [Some(950), Some(1000), None, Some(-1), Some(0), Some(5)] {
        builder.try_push(price)?;
    }
    builder.freeze()
}

// Doubles by their bits: 0.1, NaN, null, -0.0, infinity and -2.5.
fn doubles(alloc: Global) -> Result<PrimitiveArray<u64>, Error> {
    let kind = float_type(alloc, Precision::Double)?;
    let mut builder = MutablePrimitiveArray::<u64>::new(alloc).to(kind);
    for bits in [
        Some(0x3fb9_9999_9999_999a),
        Some(0x7ff8_0000_0000_0000),
        None,
        Some(0x8000_0000_0000_0000),
        Some(0x7ff0_0000_0000_0000),
        Some(0xc004_0000_0000_0000),
    ] {
        builder.try_push(bits)?;
    }
    builder.freeze()
}

// Singles: 0.1, 2^24, null, NaN, 1.5 and -infinity.
fn singles(alloc: Global) -> Result<PrimitiveArray<u32>, Error> {
    let kind = float_type(alloc, Precision::Single)?;
    let mut builder = MutablePrimitiveArray::<u32>::new(alloc).to(kind);
    for bits in [
        Some(0x3dcc_cccd),
        Some(0x4b80_0000),
        None,
        Some(0x7fc0_0000),
        Some(0x3fc0_0000),
        Some(0xff80_0000),
    ] {
        builder.try_push(bits)?;
    }
    builder.freeze()
}

// Halves: 0.0999755859375, 1, null, NaN, 65504 and -1.
fn halves(alloc: Global) -> Result<PrimitiveArray<u16>, Error> {
    let kind = float_type(alloc, Precision::Half)?;
    let mut builder = MutablePrimitiveArray::<u16>::new(alloc).to(kind);
    for bits in [
        Some(0x2e66),
        Some(0x3c00),
        None,
        Some(0x7e00),
        Some(0x7bff),
        Some(0xbc00),
    ] {
        builder.try_push(bits)?;
    }
    builder.freeze()
}

// A stream of six rows: `id`, `price`, `name`, `ok`, the months `span`, the floats `x`, `y` and `h`, and the number of the row in `a b`.
fn stream(alloc: Global) -> Result<Vec<u8>, Fail> {
    let ids = [Some(1), Some(2), Some(3), None, Some(-5), Some(i32::MAX)];
    let names = [Some("b"), Some("a"), None, Some("Z"), Some("ab"), Some("")];
    let oks = [Some(true), None, Some(false), Some(true), None, Some(false)];
    let mut columns = Vec::new(alloc);
    let ids = PrimitiveArray::<i32>::from_options(alloc, &ids)?;
    columns.push(ids.boxed())?;
    columns.push(prices(alloc)?.boxed())?;
    columns.push(Utf8Array::<i32>::from_options(alloc, &names)?.boxed())?;
    columns.push(BooleanArray::from_options(alloc, &oks)?.boxed())?;
    let months = DataType::Interval(IntervalUnit::YearMonth);
    let mut spans = MutablePrimitiveArray::<i32>::new(alloc).to(months);
    let mut numbers = MutablePrimitiveArray::<u8>::new(alloc);
    for i in 0..6u8 {
        spans.try_push(Some(0))?;
        numbers.try_push(Some(i))?;
    }
    columns.push(spans.freeze()?.boxed())?;
    columns.push(doubles(alloc)?.boxed())?;
    columns.push(singles(alloc)?.boxed())?;
    columns.push(halves(alloc)?.boxed())?;
    columns.push(numbers.freeze()?.boxed())?;
    let names = ["id", "price", "name", "ok", "span", "x", "y", "h", "a b"];
    let (schema, batch) = batch_of_columns(alloc, &names, columns)?;
    Ok(write_stream(alloc, &schema, &[batch])?)
}

/// Returns the numbers of printed rows, as digits. Each row ends with its number and a brace.
pub fn row_numbers(alloc: Global, text: &str) -> Result<String, AllocError> {
    let mut rows = String::new(alloc);
    for line in text.lines() {
        let from = line.len() - 2;
        rows.push_str(&line[from..from + 1])?;
    }
    Ok(rows)
}

// The numbers of the rows where a condition is true.
fn selected(alloc: Global, bytes: &[u8], condition: &str) -> Result<String, CliError> {
    let Ok(Some(request)) = request(alloc, &["where", condition]) else {
        return Err(CliError::Memory);
    };
    let text = text_of(alloc, Projection::All, &request, bytes)?;
    Ok(row_numbers(alloc, text.as_str())?)
}

#[test]
fn rows_are_selected(rt: HostRuntime) -> Result<(), Fail> {
    let alloc = rt.alloc();
    let bytes = stream(alloc)?;
    for (condition, rows) in [
        ("ok", "03"),
        ("not ok", "25"),
        ("ok is null", "14"),
        ("ok IS NOT NULL", "0235"),
        ("ok = true", "03"),
        ("ok != true", "25"),
        ("ok < true", "25"),
        ("ok is null or ok", "0134"),
        ("not (ok is null or ok)", "25"),
        ("x = 0.1", "0"),
        ("x != 0.1", "1345"),
        ("x > 0", "04"),
        ("x >= 0", "034"),
        ("x < 0", "5"),
        ("not x < 0", "0134"),
        ("x = 0.0", "3"),
        ("x <= -2.5", "5"),
        ("x is null", "2"),
        ("y = 0.1", "0"),
        ("y = 16777217", "1"),
        ("y > 1", "14"),
        ("y < 0", "5"),
        ("h < 0.1", "05"),
        ("h = 0.0999755859375", "0"),
        ("h = 65504", "4"),
        ("h != 1", "0345"),
        ("id = 2", "1"),
        ("id != 2", "0245"),
        ("id <> 2", "0245"),
        ("id < 2", "04"),
        ("id <= 2", "014"),
        ("id > 2", "25"),
        ("id >= 2.0", "125"),
        ("id > 1.5", "125"),
        ("id < 1.5", "04"),
        ("id = 1.5", ""),
        ("id >= -5", "01245"),
        ("id > -5.00", "0125"),
        ("id < 99999999999999999999999999999999999999", "01245"),
        ("id > -0.0000000000000000000000000000000000001", "0125"),
        ("id is null", "3"),
        ("price = 9.5", "0"),
        ("price = 9.500", "0"),
        ("price > 9.499", "01"),
        ("price >= 10", "1"),
        ("price < 0.05", "34"),
        ("price <= 0.05", "345"),
        ("price = -0.01", "3"),
        ("price != 0", "0135"),
        ("price > 0 and price < 10", "05"),
        ("name = 'a'", "1"),
        ("name < 'a'", "35"),
        ("name > 'a'", "04"),
        ("name >= 'ab'", "04"),
        ("name = ''", "5"),
        ("name != ''", "0134"),
        ("name is null", "2"),
        ("not name = 'a'", "0345"),
        ("span is null", ""),
        ("span is not null", "012345"),
        ("\"a b\" >= 2 and \"a b\" < 4", "23"),
        ("ok or id = 2 and price > 10", "03"),
        ("(ok or id = 2) and price >= 10", "1"),
        ("not not ok", "03"),
        ("ok and not ok", ""),
        ("id = 3 or name = 'b'", "02"),
    ] {
        let found = selected(alloc, &bytes, condition)?;
        assert!(rt; found.as_str() == rows, "{condition}: {found}");
    }
    Ok(())
}

#[test]
fn columns_have_errors(rt: HostRuntime) -> Result<(), Fail> {
    let alloc = rt.alloc();
    let bytes = stream(alloc)?;
    for (condition, error) in [
        ("okay", ColumnError::UnknownColumn(0)),
        ("ok and (no or id)", ColumnError::UnknownColumn(8)),
        ("ok and (id or no)", ColumnError::NotBoolean(8)),
        ("not name", ColumnError::NotBoolean(4)),
        ("nothing is null", ColumnError::UnknownColumn(0)),
        ("id = '1'", ColumnError::OtherLiteral(0)),
        ("ok or name = 1", ColumnError::OtherLiteral(6)),
        ("ok = 1", ColumnError::OtherLiteral(0)),
        ("price = true", ColumnError::OtherLiteral(0)),
        ("span = 1", ColumnError::NotComparable(0)),
    ] {
        let found = selected(alloc, &bytes, condition);
        assert!(rt;
            found.err() == Some(CliError::Condition(error)),
            "{condition}"
        );
    }
    Ok(())
}

// `not` so many times before the column `ok`.
fn negated(alloc: Global, times: usize) -> Result<String, Fail> {
    let mut text = String::new(alloc);
    for _ in 0..times {
        text.push_str("not ")?;
    }
    text.push_str("ok")?;
    Ok(text)
}

#[test]
fn deep_conditions_are_errors(rt: HostRuntime) -> Result<(), Fail> {
    let alloc = rt.alloc();
    let deep = negated(alloc, 900)?;
    let found = selected(alloc, &stream(alloc)?, deep.as_str())?;
    assert!(rt; found.as_str() == "03", "{found}");
    assert!(rt; parse_condition(alloc, deep.as_str()).is_ok());
    let deeper = negated(alloc, 2000)?;
    assert!(rt; parse_condition(alloc, deeper.as_str()).is_err());
    Ok(())
}
