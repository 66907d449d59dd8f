use nest_memory::datatypes::{
    DataType, Field, IntegerType, IntervalUnit, PhysicalType, PrimitiveType, TimeUnit, UnionMode,
};
use nest_memory::error::{ArgumentError, Error, SpecError};
use std::alloc::{AllocError, Global};
use std::process::Abort;

/// The value where the call on it was accepted.
fn kept<T: Drop>(value: T, done: Result<(), Error>) -> Result<T, Error> {
    done?;
    Ok(value)
}

fn boxed<T: Drop>(alloc: Global, value: Result<T, Error>) -> Result<Box<T>, Error> {
    Ok(Box::new(alloc, value?)?)
}

fn text(alloc: Global, text: &str) -> Result<String, Error> {
    Ok(String::from_str(alloc, text)?)
}

/// Both values, or the first error.
fn both<A: Drop, B: Drop>(a: Result<A, Error>, b: Result<B, Error>) -> Result<(A, B), Error> {
    Ok((a?, b?))
}

fn two<T: Drop>(
    alloc: Global,
    first: Result<T, Error>,
    second: Result<T, Error>,
) -> Result<Vec<T>, Error> {
    let mut items = Vec::with_capacity(alloc, 2)?;
    items.push(first?)?;
    items.push(second?)?;
    Ok(items)
}

fn field(alloc: Global, name: &str, item: Result<DataType, Error>) -> Result<Field, Error> {
    item.and_then(|item| Field::new(alloc, name, item, true))
}

fn tag(alloc: Global, field: &mut Field, key: &str, value: &str) -> Result<(), Error> {
    let (key, value) = both(text(alloc, key), text(alloc, value))?;
    field.metadata.insert(key, value)?;
    Ok(())
}

fn tagged(alloc: Global, field: Field, key: &str, value: &str) -> Result<Field, Error> {
    let mut tagged = field;
    let done = tag(alloc, &mut tagged, key, value);
    kept(tagged, done)
}

fn list_of(alloc: Global, item: Result<DataType, Error>) -> Result<DataType, Error> {
    let item = boxed(alloc, field(alloc, "item", item));
    item.map(|item| DataType::List(item))
}

fn extension_of(
    alloc: Global,
    name: &str,
    stored: Result<DataType, Error>,
    version: Option<String>,
) -> Result<DataType, Error> {
    match both(text(alloc, name), boxed(alloc, stored)) {
        Ok((name, stored)) => Ok(DataType::Extension(name, stored, version)),
        Err(error) => Err(error),
    }
}

fn time(alloc: Global) -> Result<Field, Error> {
    let zone = String::from_str(alloc, "Europe/Oslo")?;
    let point = DataType::Timestamp(TimeUnit::Second, Some(zone));
    let time = Field::new(alloc, "time", point, false);
    time.and_then(|time| tagged(alloc, time, "source", "clock"))
}

fn words(alloc: Global) -> Result<DataType, Error> {
    let texts = boxed(alloc, Ok(DataType::Utf8));
    texts.map(|texts| DataType::Dictionary(IntegerType::Int8, texts, true))
}

fn ids(alloc: Global) -> Result<Vec<i32>, Error> {
    Ok(vec![in alloc; 5, 7]?)
}

fn union_of(alloc: Global, fields: Result<Vec<Field>, Error>) -> Result<DataType, Error> {
    let parts = both(fields, ids(alloc));
    parts.map(|parts| DataType::Union(parts.0, Some(parts.1), UnionMode::Dense))
}

// A type with text, metadata, ids, boxes and lists of fields in it.
fn nested(alloc: Global) -> Result<DataType, Error> {
    let version = String::from_str(alloc, "1")?;
    let words = field(alloc, "words", list_of(alloc, words(alloc)));
    let union = union_of(alloc, two(alloc, time(alloc), words));
    extension_of(alloc, "log.entry", union, Some(version))
}

fn expect_parts(rt: &impl Abort, t: &DataType) {
    assert!(rt; t.to_physical_type() == PhysicalType::Union);
    assert!(rt; t.union_mode() == Some(UnionMode::Dense));
    assert!(rt; t.union_ids().map(|ids| ids.len()) == Some(2));
    let fields = t.fields();
    assert!(rt; fields.len() == 2);
    assert!(rt; fields[0].name.as_str() == "time");
    assert!(rt; fields[0].metadata.len() == 1);
}

fn expect_copy(rt: &impl Abort, copy: Result<DataType, Error>, source: &DataType) {
    match copy {
        Ok(copy) => {
            expect_parts(rt, &copy);
            assert!(rt; copy == *source);
            drop(copy);
        }
        Err(refused) => assert!(rt; refused == Error::Memory(AllocError)),
    }
}

// Either every part is there, or an allocation failed; the source keeps its parts.
#[test]
fn a_failed_clone_leaves_its_source(rt: HostRuntime) {
    match nested(rt.alloc()) {
        Ok(source) => {
            expect_copy(&rt, source.clone(rt.alloc()), &source);
            expect_parts(&rt, &source);
        }
        Err(refused) => assert!(rt; refused == Error::Memory(AllocError)),
    }
}

/// Whether another field, which is dropped, is the same.
fn is_same(field: &Field, other: Result<Field, Error>) -> Result<bool, Error> {
    match other {
        Ok(other) => {
            let same = *field == other;
            drop(other);
            Ok(same)
        }
        Err(error) => Err(error),
    }
}

/// Data types and fields differ in each of their parts, and a copy has them all.
#[test]
fn fields_differ_in_each_part(rt: HostRuntime) {
    let alloc = rt.alloc();
    let field = Field::new(alloc, "item", DataType::Int32, true).expect(&rt, "a field");
    assert!(rt; is_same(&field, field.clone(alloc)) == Ok(true));
    let other = Field::new(alloc, "items", DataType::Int32, true);
    assert!(rt; is_same(&field, other) == Ok(false));
    let other = Field::new(alloc, "item", DataType::Int64, true);
    assert!(rt; is_same(&field, other) == Ok(false));
    let other = Field::new(alloc, "item", DataType::Int32, false);
    assert!(rt; is_same(&field, other) == Ok(false));
    let other = tagged(alloc, field, "unit", "m").expect(&rt, "a tagged field");
    let field = Field::new(alloc, "item", DataType::Int32, true);
    assert!(rt; is_same(&other, field) == Ok(false));
}

fn entries(alloc: Global) -> Result<Field, Error> {
    let keys = Field::new(alloc, "keys", DataType::Utf8, false);
    let values = Field::new(alloc, "values", DataType::Int8, true);
    let fields = two(alloc, keys, values);
    fields.and_then(|fields| Field::new(alloc, "entries", DataType::Struct(fields), false))
}

#[test]
fn parts_through_extensions(rt: HostRuntime) {
    let alloc = rt.alloc();
    let map = boxed(alloc, entries(alloc)).map(|entries| DataType::Map(entries, false));
    let map = extension_of(alloc, "map.of.bytes", map, None).expect(&rt, "a map");
    assert!(rt; map.has_pairs());
    assert!(rt; map.to_logical_type().to_physical_type() == PhysicalType::Map);
    assert!(rt; map.item_type().map(|t| t.fields().len()) == Some(2));
}

#[test]
fn parts_of_lists(rt: HostRuntime) {
    let list = list_of(rt.alloc(), Ok(DataType::Date32)).expect(&rt, "a list");
    assert!(rt; !list.has_pairs());
    assert!(rt; list.item_field().map(|f| f.is_nullable) == Some(true));
    assert!(rt; list.size().is_none());
    let bytes = DataType::FixedSizeBinary(3);
    assert!(rt; bytes.size() == Some(3));
}

/// The physical type of a data type, which is dropped.
fn physical(t: DataType) -> PhysicalType {
    let physical = t.to_physical_type();
    drop(t);
    physical
}

#[test]
fn native_types(rt: HostRuntime) {
    for (t, native) in [
        (physical(DataType::Int8), PrimitiveType::Int8),
        (physical(DataType::Int16), PrimitiveType::Int16),
        (physical(DataType::Int32), PrimitiveType::Int32),
        (physical(DataType::Int64), PrimitiveType::Int64),
        (physical(DataType::UInt32), PrimitiveType::UInt32),
        (physical(DataType::Float16), PrimitiveType::Float16),
        (physical(DataType::Decimal(5, 2)), PrimitiveType::Int128),
        (physical(DataType::Decimal256(50, 2)), PrimitiveType::Int256),
    ] {
        assert!(rt; t == PhysicalType::Primitive(native));
    }
}

#[test]
fn times_as_native_types(rt: HostRuntime) {
    let time = DataType::Time64(TimeUnit::Nanosecond);
    let point = DataType::Timestamp(TimeUnit::Second, None);
    let span = DataType::Duration(TimeUnit::Millisecond);
    for (t, native) in [
        (physical(DataType::Date32), PrimitiveType::Int32),
        (
            physical(DataType::Time32(TimeUnit::Second)),
            PrimitiveType::Int32,
        ),
        (physical(DataType::Date64), PrimitiveType::Int64),
        (physical(time), PrimitiveType::Int64),
        (physical(point), PrimitiveType::Int64),
        (physical(span), PrimitiveType::Int64),
    ] {
        assert!(rt; t == PhysicalType::Primitive(native));
    }
}

#[test]
fn intervals_as_native_types(rt: HostRuntime) {
    for (unit, native) in [
        (IntervalUnit::YearMonth, PrimitiveType::Int32),
        (IntervalUnit::DayTime, PrimitiveType::DaysMs),
        (IntervalUnit::MonthDayNano, PrimitiveType::MonthDayNano),
    ] {
        assert!(rt; physical(DataType::Interval(unit)) == PhysicalType::Primitive(native));
    }
}

#[test]
fn other_physical_types(rt: HostRuntime) {
    assert!(rt; physical(DataType::Null) == PhysicalType::Null);
    assert!(rt; physical(DataType::Boolean) == PhysicalType::Boolean);
    assert!(rt; physical(DataType::LargeUtf8) == PhysicalType::LargeUtf8);
    let fixed = physical(DataType::FixedSizeBinary(2));
    assert!(rt; fixed == PhysicalType::FixedSizeBinary);
}

#[test]
fn native_data_types(rt: HostRuntime) {
    for native in [
        PrimitiveType::UInt16,
        PrimitiveType::Int256,
        PrimitiveType::DaysMs,
    ] {
        assert!(rt; physical(DataType::from(native)) == PhysicalType::Primitive(native));
    }
    let bytes = DataType::from(IntegerType::UInt8);
    assert!(rt; bytes == DataType::UInt8);
}

#[test]
fn strings_of_errors(rt: HostRuntime) {
    let alloc = rt.alloc();
    for (error, text) in [
        (
            Error::OutOfSpec(SpecError::ZeroSize),
            "out of specification: slots of a fixed size must have a size of at least 1",
        ),
        (
            Error::InvalidArgumentError(ArgumentError::Incomplete),
            "invalid argument: a row of the builder is incomplete",
        ),
        (Error::Memory(AllocError), "out of memory"),
    ] {
        assert!(rt; format!(in alloc; "{error}").expect(&rt, "format").as_str() == text);
    }
}

#[test]
fn parts_of_dictionaries(rt: HostRuntime) {
    let words = words(rt.alloc()).expect(&rt, "a dictionary of texts");
    assert!(rt; words.key_type() == Some(IntegerType::Int8));
    assert!(rt; words.is_ordered());
    assert!(rt; words.value_type().is_some());
    let plain = DataType::Utf8;
    assert!(rt; plain.key_type().is_none());
    assert!(rt; !plain.is_ordered());
    assert!(rt; UnionMode::Sparse.is_sparse());
    assert!(rt; !UnionMode::Dense.is_sparse());
}

#[test]
fn fields_are_moved_out(rt: HostRuntime) {
    let entries = entries(rt.alloc()).expect(&rt, "a field of records");
    assert!(rt; entries.data_type().fields().len() == 2);
    let Field { data_type, .. } = entries;
    let fields = data_type.into_fields();
    assert!(rt; fields.as_ref().map(|fields| fields.len()) == Some(2));
    assert!(rt; DataType::Utf8.into_fields().is_none());
}
