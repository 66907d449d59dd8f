//! The text of arrays of each kind.
use crate::show::making::parts::{buffer, offsets, validity};
use crate::show::making::{flat, nested, tagged};
use json_write::struct_rows::{member_prefixes, write_struct_slot};
use json_write::{Json, WriteJson, output};
use nest_array::{AnyArray, NullArray, StructArray, Window, new_scalar};
use nest_flat::any_primitive::AnyPrimitive;
use nest_flat::primitive::PrimitiveArray;
use nest_flat::utf8::Utf8Array;
use nest_memory::datatypes::{DataType, Field, IntervalUnit};
use nest_memory::error::Error;
use nest_memory::types::{days_ms, i256, months_days_ns};
use std::alloc::Global;
use std::fmt::Formatter;

/// What an array, a window or a scalar prints.
fn text<T: WriteJson + Drop>(alloc: Global, value: T) -> Result<String, Error> {
    Ok(format!(in alloc; "{}", Json::of(&value))?)
}

#[test]
fn flat_arrays(rt: HostRuntime) -> Result<(), Error> {
    assert_eq!(rt;
        text(rt.alloc(), flat::any_numbers(rt.alloc())?)?.as_str(),
        "[1,null,3,4]"
    );
    assert_eq!(rt;
        text(rt.alloc(), AnyArray::Boolean(flat::booleans(rt.alloc())?))?.as_str(),
        "[true,null,false,true]"
    );
    assert_eq!(rt;
        text(rt.alloc(), AnyArray::Utf8(flat::texts(rt.alloc())?))?.as_str(),
        "[\"ab\",\"\",null,\"c\"]"
    );
    assert_eq!(rt;
        text(rt.alloc(), AnyArray::Binary(flat::bytes(rt.alloc())?))?.as_str(),
        "[\"0102\",\"03\"]"
    );
    Ok(())
}

#[test]
fn lists(rt: HostRuntime) -> Result<(), Error> {
    assert_eq!(rt;
        text(rt.alloc(), nested::lists(rt.alloc())?.boxed())?.as_str(),
        "[[1,null],null,[3,4]]"
    );
    assert_eq!(rt;
        text(rt.alloc(), nested::pairs(rt.alloc())?.boxed())?.as_str(),
        "[[1,null],[3,4]]"
    );
    Ok(())
}

#[test]
fn records(rt: HostRuntime) -> Result<(), Error> {
    assert_eq!(rt;
        text(rt.alloc(), nested::records(rt.alloc())?.boxed())?.as_str(),
        "[{\"number\":1,\"text\":\"ab\"},{\"number\":null,\"text\":\"\"},{\"number\":3,\"text\":null},{\"number\":4,\"text\":\"c\"}]"
    );
    assert_eq!(rt;
        text(rt.alloc(), nested::record_lists(rt.alloc())?.boxed())?.as_str(),
        "[[{\"number\":1,\"text\":\"ab\"}],[{\"number\":null,\"text\":\"\"},{\"number\":3,\"text\":null},{\"number\":4,\"text\":\"c\"}]]"
    );
    assert_eq!(rt;
        text(rt.alloc(), nested::maps(rt.alloc())?.boxed())?.as_str(),
        "[[{\"number\":1,\"text\":\"ab\"},{\"number\":null,\"text\":\"\"}],[{\"number\":3,\"text\":null},{\"number\":4,\"text\":\"c\"}]]"
    );
    Ok(())
}

#[test]
fn records_by_heads(rt: HostRuntime) -> Result<(), Error> {
    let alloc = rt.alloc();
    let mut array = nested::records(alloc)?;
    array.set_validity(validity(alloc, &[true, true, false, true])?)?;
    let heads = member_prefixes(alloc, array.fields())?;
    assert!(rt; heads.len() == 2);
    assert_eq!(rt; heads[0].as_str(), "\"number\":");
    assert_eq!(rt; heads[1].as_str(), ",\"text\":");
    let mut all = Formatter::new(String::new(alloc));
    for i in 0..4 {
        let mark = if i == 0 { "[" } else { "," };
        assert!(rt; all.write_str(mark).is_ok());
        assert!(rt; write_struct_slot(&mut all, &array, &heads, i).is_ok());
    }
    assert!(rt; all.write_str("]").is_ok());
    assert_eq!(rt; all.into_inner().as_str(), text(alloc, array)?.as_str());
    let mut odd = Vec::new(alloc);
    odd.push(Field::new(alloc, "a\"b\n", DataType::Null, true)?)?;
    odd.push(Field::new(alloc, "", DataType::Null, true)?)?;
    let heads = member_prefixes(alloc, &odd)?;
    assert_eq!(rt; heads[0].as_str(), "\"a\\\"b\\n\":");
    assert_eq!(rt; heads[1].as_str(), ",\"\":");
    assert!(rt; member_prefixes(alloc, &[])?.is_empty());
    Ok(())
}

#[test]
fn picks(rt: HostRuntime) -> Result<(), Error> {
    assert_eq!(rt;
        text(rt.alloc(), nested::picks(rt.alloc())?.boxed())?.as_str(),
        "[{\"number\":1},{\"text\":\"\"},{\"text\":null},{\"number\":4}]"
    );
    Ok(())
}

#[test]
fn windows(rt: HostRuntime) -> Result<(), Error> {
    let array = nested::lists(rt.alloc())?.boxed();
    let text = format!(in rt.alloc(); "{}", Json::of(&Window::new(&array, 1, 2)))?;
    assert_eq!(rt; text.as_str(), "[null,[3,4]]");
    Ok(())
}

#[test]
fn keyed(rt: HostRuntime) -> Result<(), Error> {
    assert_eq!(rt;
        text(rt.alloc(), nested::keyed(rt.alloc())?.boxed())?.as_str(),
        "[\"c\",null,\"ab\",\"c\"]"
    );
    assert_eq!(rt;
        text(rt.alloc(), tagged::tagged_lists(rt.alloc())?.boxed())?.as_str(),
        "[[{\"number\":1,\"tag\":\"c\"},{\"number\":null,\"tag\":null}],[{\"number\":3,\"tag\":\"ab\"},{\"number\":4,\"tag\":\"c\"}]]"
    );
    assert_eq!(rt;
        text(
            rt.alloc(),
            AnyArray::FixedSizeBinary(flat::codes(rt.alloc())?)
        )?
        .as_str(),
        "[\"6162\",\"6364\"]"
    );
    Ok(())
}

#[test]
fn escapes(rt: HostRuntime) -> Result<(), Error> {
    let bytes = "a\"b\\c\n\u{1}\u{7f}\u{e9}\u{1F600}";
    let n = bytes.len() as i32;
    let offsets = offsets(rt.alloc(), &[0, n])?;
    let values = buffer(rt.alloc(), bytes.as_bytes())?;
    let array = AnyArray::Utf8(Utf8Array::try_new(DataType::Utf8, offsets, values, None)?);
    let text = output::to_json_string(rt.alloc(), &array)?;
    assert_eq!(rt;
        text.as_str(),
        "[\"a\\\"b\\\\c\\n\\u0001\u{7f}\u{e9}\u{1F600}\"]"
    );
    let mut out = Vec::new(rt.alloc());
    let done = output::write_json(&mut out, &array);
    assert!(rt; done.is_ok());
    assert_eq!(rt; out.as_slice(), text.as_bytes());
    Ok(())
}

#[test]
fn typed_arrays(rt: HostRuntime) -> Result<(), Error> {
    let alloc = rt.alloc();
    assert_eq!(rt;
        text(alloc, flat::numbers(alloc)?)?.as_str(),
        "[1,null,3,4]"
    );
    assert_eq!(rt;
        text(alloc, flat::booleans(alloc)?)?.as_str(),
        "[true,null,false,true]"
    );
    assert_eq!(rt;
        text(alloc, flat::texts(alloc)?)?.as_str(),
        "[\"ab\",\"\",null,\"c\"]"
    );
    assert_eq!(rt;
        text(alloc, flat::bytes(alloc)?)?.as_str(),
        "[\"0102\",\"03\"]"
    );
    assert_eq!(rt;
        text(alloc, flat::codes(alloc)?)?.as_str(),
        "[\"6162\",\"6364\"]"
    );
    assert_eq!(rt; text(alloc, flat::nulls()?)?.as_str(), "[null,null,null]");
    assert_eq!(rt;
        text(alloc, nested::lists(alloc)?)?.as_str(),
        "[[1,null],null,[3,4]]"
    );
    assert_eq!(rt;
        text(alloc, nested::pairs(alloc)?)?.as_str(),
        "[[1,null],[3,4]]"
    );
    assert_eq!(rt;
        text(alloc, nested::picks(alloc)?)?.as_str(),
        "[{\"number\":1},{\"text\":\"\"},{\"text\":null},{\"number\":4}]"
    );
    assert_eq!(rt;
        text(alloc, nested::keyed(alloc)?)?.as_str(),
        "[\"c\",null,\"ab\",\"c\"]"
    );
    Ok(())
}

#[test]
fn empty_arrays(rt: HostRuntime) -> Result<(), Error> {
    assert_eq!(rt;
        text(rt.alloc(), NullArray::try_new(DataType::Null, 0)?)?.as_str(),
        "[]"
    );
    Ok(())
}

#[test]
fn scalars(rt: HostRuntime) -> Result<(), Error> {
    let alloc = rt.alloc();
    let records = nested::records(alloc)?.boxed();
    assert_eq!(rt;
        text(alloc, new_scalar(alloc, &records, 0)?)?.as_str(),
        "{\"number\":1,\"text\":\"ab\"}"
    );
    assert_eq!(rt;
        text(alloc, new_scalar(alloc, &records, 2)?)?.as_str(),
        "{\"number\":3,\"text\":null}"
    );
    let lists = nested::lists(alloc)?.boxed();
    assert_eq!(rt;
        text(alloc, new_scalar(alloc, &lists, 0)?)?.as_str(),
        "[1,null]"
    );
    assert_eq!(rt;
        text(alloc, new_scalar(alloc, &lists, 1)?)?.as_str(),
        "null"
    );
    let picks = nested::picks(alloc)?.boxed();
    assert_eq!(rt;
        text(alloc, new_scalar(alloc, &picks, 1)?)?.as_str(),
        "{\"text\":\"\"}"
    );
    let keyed = nested::keyed(alloc)?.boxed();
    assert_eq!(rt;
        text(alloc, new_scalar(alloc, &keyed, 2)?)?.as_str(),
        "\"ab\""
    );
    let maps = nested::maps(alloc)?.boxed();
    assert_eq!(rt;
        text(alloc, new_scalar(alloc, &maps, 0)?)?.as_str(),
        "[{\"number\":1,\"text\":\"ab\"},{\"number\":null,\"text\":\"\"}]"
    );
    let bytes = AnyArray::Binary(flat::bytes(alloc)?);
    assert_eq!(rt;
        text(alloc, new_scalar(alloc, &bytes, 0)?)?.as_str(),
        "\"0102\""
    );
    let booleans = AnyArray::Boolean(flat::booleans(alloc)?);
    assert_eq!(rt;
        text(alloc, new_scalar(alloc, &booleans, 2)?)?.as_str(),
        "false"
    );
    Ok(())
}

#[test]
fn values_of_several_numbers(rt: HostRuntime) -> Result<(), Error> {
    let alloc = rt.alloc();
    let wide = buffer(alloc, &[i256 { high: 1, low: 5 }])?;
    let wide = PrimitiveArray::try_new(DataType::Decimal256(40, 2), wide, None)?;
    assert_eq!(rt;
        text(alloc, AnyArray::Primitive(AnyPrimitive::Int256(wide)))?.as_str(),
        "[\"3402823669209384634633746074317682114.61\"]"
    );
    let days = buffer(
        alloc,
        &[days_ms {
            days: -3,
            milliseconds: 4,
        }],
    )?;
    let days = PrimitiveArray::try_new(DataType::Interval(IntervalUnit::DayTime), days, None)?;
    assert_eq!(rt; text(alloc, days)?.as_str(), "[\"P-3DT0.004S\"]");
    let months = buffer(
        alloc,
        &[months_days_ns {
            months: 1,
            days: -2,
            ns: 3,
        }],
    )?;
    let months = PrimitiveArray::try_new(
        DataType::Interval(IntervalUnit::MonthDayNano),
        months,
        None,
    )?;
    assert_eq!(rt;
        text(alloc, months)?.as_str(),
        "[\"P1M-2DT0.000000003S\"]"
    );
    let least = buffer(alloc, &[i64::MIN])?;
    let least = PrimitiveArray::try_new(DataType::Int64, least, None)?;
    assert_eq!(rt; text(alloc, least)?.as_str(), "[-9223372036854775808]");
    Ok(())
}
