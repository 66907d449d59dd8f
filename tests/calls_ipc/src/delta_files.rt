//! Files whose dictionaries have deltas from batch to batch: what they have of values of each kind, of dictionaries inside of others and of
//! values, of windows, of extensions; which are rejected; and keys that joined values would pass.
//!
//! Files whose dictionaries have deltas: values of each kind by one, by many, by none in other memory; shorter and changed ones are
//! rejected; inside of others and of values, the inner, the outer, both; windows, extensions, two in a record; keys that joined
//! values would pass.
use crate::dictionary_columns::{
    any_keys, by, dictionary_of_strings, keyed, list, map, record, schema_of, single, union, words,
};
use crate::dictionary_model::{are_written, is_written, model_of, written};
use ipc::Batch;
use nest_array::any::AnyArray;
use nest_array::{DictionaryArray, FixedSizeListArray, LargeListArray, UnionArray};
use nest_flat::utf8::Utf8Array;
use nest_flat::utf8::mutable::MutableUtf8Array;
use nest_memory::buffer::Buffer;
use nest_memory::datatypes::{DataType, Field, IntegerType, IntervalUnit, UnionMode};
use nest_memory::error::Error;
use nest_memory::offsets::OffsetsBuffer;
use random::layouts::lay;
use random::natives::native_kind;
use random::numbers::Generator;
use random::slot::Slot;
use random::start::START;
use random::types::logical;
use std::alloc::Global;

const RANDOM: u64 = 67;

// Whether the file of batches, at least one, has these messages, or is rejected; the stream has those of the model.
fn is_file(alloc: Global, batches: &[Batch], file: Option<&str>) -> Result<bool, Error> {
    let schema = schema_of(alloc, &batches[0].columns)?;
    let model = model_of(alloc, batches)?;
    are_written(alloc, &schema, batches, model.stream.as_str(), file)
}

fn field(alloc: Global, data_type: DataType) -> Result<Field, Error> {
    Field::new(alloc, "f", data_type, true)
}

fn item(alloc: Global, data_type: DataType) -> Result<Box<Field>, Error> {
    Ok(Box::new(alloc, field(alloc, data_type)?)?)
}

fn two_fields(alloc: Global, one: DataType, other: DataType) -> Result<Vec<Field>, Error> {
    Ok(vec![in alloc; field(alloc, one)?, field(alloc, other)?]?)
}

fn extension(alloc: Global, name: &str, inner: DataType) -> Result<DataType, Error> {
    let name = String::from_str(alloc, name)?;
    Ok(DataType::Extension(name, Box::new(alloc, inner)?, None))
}

// A type of each kind without children.
fn flat_kinds(alloc: Global) -> Result<Vec<DataType>, Error> {
    Ok(vec![in alloc;
        DataType::Boolean,
        DataType::Int8,
        DataType::UInt64,
        DataType::Date32,
        DataType::Decimal(20, 2),
        DataType::Decimal256(40, 2),
        DataType::Interval(IntervalUnit::MonthDayNano),
        DataType::Binary,
        DataType::LargeBinary,
        DataType::Utf8,
        DataType::LargeUtf8,
        DataType::FixedSizeBinary(3),
    ]?)
}

// And with children.
fn nested_kinds(alloc: Global) -> Result<Vec<DataType>, Error> {
    let lists = DataType::List(item(alloc, DataType::Int16)?);
    let odd = extension(alloc, "odd", DataType::Int32)?;
    let entries = DataType::Struct(two_fields(alloc, DataType::Utf8, DataType::Int8)?);
    let ids = vec![in alloc; 5, 2]?;
    Ok(vec![in alloc;
        DataType::LargeList(item(alloc, DataType::Utf8)?),
        DataType::FixedSizeList(item(alloc, DataType::Boolean)?, 2),
        DataType::Struct(two_fields(alloc, DataType::Utf8, odd)?),
        DataType::Map(
            Box::new(alloc, Field::new(alloc, "entries", entries, false)?)?,
            false
        ),
        DataType::Union(
            two_fields(alloc, DataType::Utf8, DataType::Int8)?,
            None,
            UnionMode::Sparse
        ),
        DataType::Union(
            two_fields(alloc, lists, DataType::Int8)?,
            Some(ids),
            UnionMode::Dense
        ),
        DataType::List(item(alloc, DataType::List(item(alloc, DataType::Int16)?))?),
    ]?)
}

// The same slot, so many times.
fn items(alloc: Global, own: &Field, letter: u8, count: usize) -> Result<Vec<Slot>, Error> {
    let mut slots = Vec::new(alloc);
    for _ in 0..count {
        slots.push(slot_of(alloc, own.data_type(), letter)?)?;
    }
    Ok(slots)
}

fn record_of(alloc: Global, fields: &[Field], letter: u8) -> Result<Vec<Slot>, Error> {
    let mut slots = Vec::new(alloc);
    for field in fields {
        slots.push(slot_of(alloc, field.data_type(), letter)?)?;
    }
    Ok(slots)
}

fn bytes_of(alloc: Global, letter: u8, count: usize) -> Result<Vec<u8>, Error> {
    let mut bytes = Vec::new(alloc);
    for _ in 0..count {
        bytes.push(letter)?;
    }
    Ok(bytes)
}

// A slot of a type for each letter; a null for `-`, in a union that of its first field.
fn slot_of(alloc: Global, data_type: &DataType, letter: u8) -> Result<Slot, Error> {
    let own = logical(data_type);
    if let DataType::Union(fields, _, _) = own {
        let kind = if letter == b'-' {
            0
        } else {
            letter as usize % 2
        };
        let slot = slot_of(alloc, fields[kind].data_type(), letter)?;
        return Ok(Slot::Pick(kind, Box::new(alloc, slot)?));
    }
    if letter == b'-' {
        return Ok(Slot::Null);
    }
    if native_kind(own).is_some() {
        return Ok(Slot::number(i128::from(letter)));
    }
    let count = letter as usize % 3;
    Ok(match own {
        DataType::Boolean => Slot::Truth(letter % 2 == 1),
        DataType::Utf8 | DataType::LargeUtf8 => Slot::Text(bytes_of(alloc, letter, 1)?),
        DataType::Binary | DataType::LargeBinary => Slot::Bytes(bytes_of(alloc, letter, 2)?),
        DataType::FixedSizeBinary(size) => Slot::Bytes(bytes_of(alloc, letter, *size)?),
        DataType::List(own) | DataType::LargeList(own) | DataType::Map(own, _) => {
            Slot::List(items(alloc, own, letter, count)?)
        }
        DataType::FixedSizeList(own, size) => Slot::List(items(alloc, own, letter, *size)?),
        DataType::Struct(fields) => Slot::Record(record_of(alloc, fields, letter)?),
        _ => Slot::Null,
    })
}

// Values of a type for letters, each by its key once.
fn column(
    alloc: Global,
    rng: &mut Generator,
    data_type: &DataType,
    letters: &str,
) -> Result<AnyArray, Error> {
    let mut slots = Vec::new(alloc);
    let mut indices = Vec::new(alloc);
    for letter in letters.as_bytes() {
        indices.push(Some(indices.len()))?;
        slots.push(slot_of(alloc, data_type, *letter)?)?;
    }
    let values = lay(alloc, rng, data_type, slots.as_slice())?;
    let keys = any_keys(alloc, IntegerType::UInt8, &indices)?;
    Ok(AnyArray::Dictionary(DictionaryArray::try_from_keys(alloc, keys, values)?))
}

/// The values of each batch, which lie in other memory each time, and the messages of the file, if there is one.
const STEPS: [(&[&str], Option<&str>); 12] = [
    (&["ab", "abc"], Some("s d0 b2 D0 b3 ")),
    (&["ab", "abcdefgh"], Some("s d0 b2 D0 b8 ")),
    (&["a", "ab", "abcd"], Some("s d0 b1 D0 b2 D0 b4 ")),
    (&["ab", "ab", "abc", "abc"], Some("s d0 b2 b2 D0 b3 b3 ")),
    (&["", "", "ab"], Some("s d0 b0 b0 D0 b2 ")),
    (&["a-", "a-b", "a-b-"], Some("s d0 b2 D0 b3 D0 b4 ")),
    (&["--", "--a"], Some("s d0 b2 D0 b3 ")),
    // Shorter, none, changed at the first index and in the middle, a null for a value and a value for a null.
    (&["abc", "ab"], None),
    (&["a", "ab", ""], None),
    (&["ab", "bbc"], None),
    (&["abc", "a-cd"], None),
    (&["a-c", "abc"], None),
];

fn are_steps(alloc: Global, data_type: &DataType) -> Result<Option<usize>, Error> {
    for i in 0..STEPS.len() {
        let (steps, file) = STEPS[i];
        let mut rng = Generator::new(START, RANDOM, i);
        let mut batches = Vec::new(alloc);
        for letters in steps {
            batches.push(single(alloc, column(alloc, &mut rng, data_type, letters)?)?)?;
        }
        if !is_file(alloc, &batches, file)? {
            return Ok(Some(i));
        }
    }
    Ok(None)
}

#[test]
fn values_of_each_flat_kind(rt: HostRuntime) {
    let alloc = rt.alloc();
    for data_type in &flat_kinds(alloc).expect(&rt, "no types") {
        let wrong = are_steps(alloc, data_type).expect(&rt, "not written");
        assert!(rt; wrong.is_none(), "{data_type}: {wrong:?}");
    }
}

#[test]
fn values_of_each_nested_kind(rt: HostRuntime) {
    let alloc = rt.alloc();
    for data_type in &nested_kinds(alloc).expect(&rt, "no types") {
        let wrong = are_steps(alloc, data_type).expect(&rt, "not written");
        assert!(rt; wrong.is_none(), "{data_type}: {wrong:?}");
    }
}

// Values of the type of nulls, so many as there are letters.
fn of_nulls(alloc: Global, counts: &[&str], file: Option<&str>) -> Result<bool, Error> {
    let mut rng = Generator::new(START, RANDOM, 0);
    let mut batches = Vec::new(alloc);
    for letters in counts {
        let nulls = column(alloc, &mut rng, &DataType::Null, letters)?;
        batches.push(single(alloc, nulls)?)?;
    }
    is_file(alloc, &batches, file)
}

#[test]
fn values_that_are_nulls(rt: HostRuntime) {
    let alloc = rt.alloc();
    let delta = of_nulls(alloc, &["--", "---", "---"], Some("s d0 b2 D0 b3 b3 "));
    assert!(rt; delta == Ok(true));
    assert!(rt; of_nulls(alloc, &["--", "-"], None) == Ok(true));
}

// So many words that are no dictionary.
fn plain(alloc: Global, count: usize) -> Result<AnyArray, Error> {
    words(alloc, &"stuvwxyz"[..count])
}

// The indices 0, 1 and so on, and how many.
fn ends_of(alloc: Global, count: usize) -> Result<Vec<i32>, Error> {
    let mut ends = Vec::new(alloc);
    for i in 0..count + 1 {
        ends.push(i as i32)?;
    }
    Ok(ends)
}

fn in_lists(alloc: Global, inner: AnyArray) -> Result<AnyArray, Error> {
    let ends = ends_of(alloc, inner.len())?;
    list(alloc, &ends, inner)
}

fn in_large_lists(alloc: Global, inner: AnyArray) -> Result<AnyArray, Error> {
    let mut ends = Vec::new(alloc);
    for i in 0..inner.len() + 1 {
        ends.push(i as i64)?;
    }
    let data_type = DataType::LargeList(item(alloc, inner.data_type().clone(alloc)?)?);
    let ends = OffsetsBuffer::try_new(alloc, ends)?;
    Ok(AnyArray::LargeList(LargeListArray::try_new(alloc, data_type, ends, inner, None)?))
}

fn in_sized_lists(alloc: Global, inner: AnyArray) -> Result<AnyArray, Error> {
    let data_type = DataType::FixedSizeList(item(alloc, inner.data_type().clone(alloc)?)?, 1);
    Ok(AnyArray::FixedSizeList(FixedSizeListArray::try_new(alloc, data_type, inner, None)?))
}

fn in_records(alloc: Global, inner: AnyArray) -> Result<AnyArray, Error> {
    let other = plain(alloc, inner.len())?;
    record(alloc, vec![in alloc; other, inner]?)
}

fn in_records_of_records(alloc: Global, inner: AnyArray) -> Result<AnyArray, Error> {
    record(alloc, vec![in alloc; in_records(alloc, inner)?]?)
}

fn in_maps(alloc: Global, inner: AnyArray) -> Result<AnyArray, Error> {
    let ends = ends_of(alloc, inner.len())?;
    map(alloc, &ends, in_records(alloc, inner)?)
}

// It and other words in turn.
fn kinds_of(alloc: Global, count: usize) -> Result<Vec<i8>, Error> {
    let mut kinds = Vec::new(alloc);
    for i in 0..count {
        kinds.push((i % 2) as i8)?;
    }
    Ok(kinds)
}

fn in_sparse_unions(alloc: Global, inner: AnyArray) -> Result<AnyArray, Error> {
    let kinds = kinds_of(alloc, inner.len())?;
    let other = plain(alloc, inner.len())?;
    union(alloc, &kinds, vec![in alloc; inner, other]?)
}

fn in_dense_unions(alloc: Global, inner: AnyArray) -> Result<AnyArray, Error> {
    let kinds = Buffer::from_vec(alloc, kinds_of(alloc, inner.len())?)?;
    let mut indices = ends_of(alloc, inner.len())?;
    drop(indices.pop());
    let indices = Buffer::from_vec(alloc, indices)?;
    let own = inner.data_type().clone(alloc)?;
    let fields = two_fields(alloc, own, DataType::Utf8)?;
    let data_type = DataType::Union(fields, None, UnionMode::Dense);
    let children = vec![in alloc; inner, plain(alloc, indices.len())?]?;
    Ok(AnyArray::Union(UnionArray::try_new(data_type, kinds, children, Some(indices))?))
}

/// What a dictionary may be inside of.
const AROUND: [(&str, fn(Global, AnyArray) -> Result<AnyArray, Error>); 8] = [
    ("lists", in_lists),
    ("large lists", in_large_lists),
    ("lists of one", in_sized_lists),
    ("records", in_records),
    ("records of records", in_records_of_records),
    ("maps", in_maps),
    ("sparse unions", in_sparse_unions),
    ("dense unions", in_dense_unions),
];

/// Words by keys inside of values by keys: the words, their keys, the keys of those around them; and the messages of the file.
const NESTS: [(&[(&str, &str, &str)], Option<&str>); 9] = [
    // The words alone: of the others, which stay, there is nothing.
    (
        &[("ab", "01", "01"), ("abcd", "01", "10")],
        Some("s d1 d0 b2 D1 b2 "),
    ),
    // The others alone.
    (
        &[("ab", "01", "01"), ("ab", "010", "012")],
        Some("s d1 d0 b2 D0 b3 "),
    ),
    (
        &[
            ("ab", "01", "01"),
            ("abc", "012", "2"),
            ("abcd", "01230", "43-"),
        ],
        Some("s d1 d0 b2 D1 D0 b1 D1 D0 b3 "),
    ),
    // One after the other, and the other way round.
    (
        &[
            ("ab", "01", "01"),
            ("abc", "01", "0"),
            ("abc", "0121", "3"),
            ("abc", "0121", "2"),
        ],
        Some("s d1 d0 b2 D1 b1 D0 b1 b1 "),
    ),
    (
        &[
            ("ab", "01", "01"),
            ("ab", "010", "2"),
            ("abc", "010", "2"),
            ("abc", "0102", "3"),
        ],
        Some("s d1 d0 b2 D0 b1 D1 b1 D0 b1 "),
    ),
    // The words again, by which the others stay the same; and fewer of them.
    (&[("ab", "01", "01"), ("ba", "10", "01")], None),
    (&[("abc", "01", "01"), ("ab", "01", "01")], None),
    // The others again, after words that grew; and fewer of them.
    (&[("ab", "01", "01"), ("abc", "21", "01")], None),
    (&[("ab", "010", "01"), ("abc", "01", "01")], None),
];

fn are_nests(
    alloc: Global,
    around: fn(Global, AnyArray) -> Result<AnyArray, Error>,
) -> Result<Option<usize>, Error> {
    for i in 0..NESTS.len() {
        let (steps, file) = NESTS[i];
        let mut batches = Vec::new(alloc);
        for (letters, keys, outer) in steps {
            let values = around(alloc, dictionary_of_strings(alloc, keys, letters)?)?;
            batches.push(single(alloc, by(alloc, IntegerType::Int64, outer, values)?)?)?;
        }
        if !is_file(alloc, &batches, file)? {
            return Ok(Some(i));
        }
    }
    Ok(None)
}

#[test]
fn inside_of_values(rt: HostRuntime) {
    for (name, around) in AROUND {
        let wrong = are_nests(rt.alloc(), around).expect(&rt, "not written");
        assert!(rt; wrong.is_none(), "{name}: {wrong:?}");
    }
}

fn whole(alloc: Global, letters: &str) -> Result<AnyArray, Error> {
    dictionary_of_strings(alloc, "012", letters)
}

fn cut(alloc: Global, letters: &str) -> Result<AnyArray, Error> {
    Ok(dictionary_of_strings(alloc, "2012-", letters)?.sliced(1, 3))
}

// Values that are a slice of more: after them are other words each time.
fn of_a_slice(alloc: Global, letters: &str) -> Result<AnyArray, Error> {
    let mut all = String::from_str(alloc, "z")?;
    all.push_str(letters)?;
    all.push_str("xy")?;
    keyed(alloc, "012", words(alloc, &all)?.sliced(1, letters.len()))
}

fn extended(alloc: Global, letters: &str) -> Result<AnyArray, Error> {
    let keys = any_keys(alloc, IntegerType::Int16, &[Some(0), Some(2), None])?;
    let words = words(alloc, letters)?;
    let own = DataType::Dictionary(IntegerType::Int16, Box::new(alloc, DataType::Utf8)?, false);
    let data_type = extension(alloc, "odd", own)?;
    Ok(AnyArray::Dictionary(DictionaryArray::try_new(alloc, data_type, keys, words)?))
}

// Values that are an extension, of which the type of the dictionary says nothing.
fn named(alloc: Global, name: &str, letters: &str) -> Result<AnyArray, Error> {
    let mut texts = Vec::new(alloc);
    for i in 0..letters.len() {
        texts.push(&letters[i..i + 1])?;
    }
    let texts = Utf8Array::<i32>::from_slice(alloc, &texts)?;
    let (offsets, values) = (texts.offsets().clone()?, texts.values().clone()?);
    let data_type = extension(alloc, name, DataType::Utf8)?;
    let values = AnyArray::Utf8(Utf8Array::try_new(data_type, offsets, values, None)?);
    let keys = any_keys(alloc, IntegerType::Int8, &[Some(2), Some(0), None])?;
    let own = DataType::Dictionary(IntegerType::Int8, Box::new(alloc, DataType::Utf8)?, false);
    Ok(AnyArray::Dictionary(DictionaryArray::try_new(alloc, own, keys, values)?))
}

fn odd(alloc: Global, letters: &str) -> Result<AnyArray, Error> {
    named(alloc, "odd", letters)
}

/// Columns of three rows over words.
const COLUMNS: [(&str, fn(Global, &str) -> Result<AnyArray, Error>); 5] = [
    ("whole", whole),
    ("cut", cut),
    ("of a cut", of_a_slice),
    ("extended", extended),
    ("of extensions", odd),
];

/// The words of each batch.
const WORDS: [(&[&str], Option<&str>); 3] = [
    (
        &["abc", "abcd", "abcd", "abcdefg"],
        Some("s d0 b3 D0 b3 b3 D0 b3 "),
    ),
    (&["abc", "abd"], None),
    (&["abcd", "abc"], None),
];

fn are_columns(
    alloc: Global,
    make: fn(Global, &str) -> Result<AnyArray, Error>,
    around: Option<fn(Global, AnyArray) -> Result<AnyArray, Error>>,
) -> Result<Option<usize>, Error> {
    for i in 0..WORDS.len() {
        let (steps, file) = WORDS[i];
        let mut batches = Vec::new(alloc);
        for letters in steps {
            let own = make(alloc, letters)?;
            let column = match around {
                None => own,
                Some(around) => around(alloc, own)?,
            };
            batches.push(single(alloc, column)?)?;
        }
        if !is_file(alloc, &batches, file)? {
            return Ok(Some(i));
        }
    }
    Ok(None)
}

#[test]
fn columns_and_windows(rt: HostRuntime) {
    for (name, make) in COLUMNS {
        let wrong = are_columns(rt.alloc(), make, None).expect(&rt, "not written");
        assert!(rt; wrong.is_none(), "{name}: {wrong:?}");
    }
}

#[test]
fn inside_of_columns(rt: HostRuntime) {
    for (name, around) in AROUND {
        let wrong = are_columns(rt.alloc(), cut, Some(around)).expect(&rt, "not written");
        assert!(rt; wrong.is_none(), "{name}: {wrong:?}");
    }
}

// Values of another extension are others.
fn by_names(alloc: Global, one: &str, other: &str, file: Option<&str>) -> Result<bool, Error> {
    let one = single(alloc, named(alloc, one, "abc")?)?;
    let other = single(alloc, named(alloc, other, "abcd")?)?;
    is_file(alloc, &[one, other], file)
}

#[test]
fn values_of_extensions(rt: HostRuntime) {
    let alloc = rt.alloc();
    let same = by_names(alloc, "odd", "odd", Some("s d0 b3 D0 b3 "));
    assert!(rt; same == Ok(true));
    assert!(rt; by_names(alloc, "odd", "even", None) == Ok(true));
}

/// Records of two columns of words: the words of each.
const PAIRS: [(&[(&str, &str)], Option<&str>); 5] = [
    (&[("ab", "cd"), ("ab", "cde")], Some("s d0 d1 b2 D1 b2 ")),
    (&[("ab", "cd"), ("abe", "cd")], Some("s d0 d1 b2 D0 b2 ")),
    (
        &[
            ("ab", "cd"),
            ("abe", "cd"),
            ("abef", "cdef"),
            ("abef", "cdef"),
        ],
        Some("s d0 d1 b2 D0 b2 D0 D1 b2 b2 "),
    ),
    (&[("ab", "cd"), ("abc", "dc")], None),
    (&[("ab", "cd"), ("a", "cde")], None),
];

fn are_pairs(alloc: Global, steps: &[(&str, &str)], file: Option<&str>) -> Result<bool, Error> {
    let mut batches = Vec::new(alloc);
    for (one, other) in steps {
        let one = dictionary_of_strings(alloc, "0-", one)?;
        let other = dictionary_of_strings(alloc, "10", other)?;
        batches.push(single(alloc, record(alloc, vec![in alloc; one, other]?)?)?)?;
    }
    is_file(alloc, &batches, file)
}

#[test]
fn records_of_two_dictionaries(rt: HostRuntime) {
    for i in 0..PAIRS.len() {
        let (steps, file) = PAIRS[i];
        assert!(rt; are_pairs(rt.alloc(), steps, file) == Ok(true), "pair {i}");
    }
}

/// Records by keys, of words by keys of a width: how many words, and which the records name; the messages of the file. A reader joins
/// the words of records that come after others to those that the others name, where they are not the same, and then no key may pass.
const LONG: [(IntegerType, &[(usize, &[usize])], Option<&str>); 8] = [
    (
        IntegerType::Int8,
        &[(128, &[0]), (128, &[0, 127])],
        Some("s d1 d0 b1 D0 b1 "),
    ),
    (
        IntegerType::Int8,
        &[(127, &[0]), (128, &[0])],
        Some("s d1 d0 b1 D1 b1 "),
    ),
    (
        IntegerType::Int8,
        &[(64, &[0]), (65, &[0, 63])],
        Some("s d1 d0 b1 D1 D0 b1 "),
    ),
    (IntegerType::Int8, &[(64, &[0]), (65, &[0, 64])], None),
    (IntegerType::Int8, &[(127, &[0]), (128, &[0, 127])], None),
    (
        IntegerType::UInt8,
        &[(127, &[0]), (129, &[0, 128])],
        Some("s d1 d0 b1 D1 D0 b1 "),
    ),
    (IntegerType::UInt8, &[(127, &[0]), (130, &[0, 129])], None),
    (
        IntegerType::Int16,
        &[(127, &[0]), (128, &[0, 127])],
        Some("s d1 d0 b1 D1 D0 b1 "),
    ),
];

fn many_words(alloc: Global, count: usize) -> Result<AnyArray, Error> {
    let mut builder = MutableUtf8Array::<i32>::new(alloc)?;
    for i in 0..count {
        let mut word = String::new(alloc);
        write!(word, "{i}")?;
        builder.try_push(Some(word.as_str()))?;
    }
    builder.freeze().map(|texts| AnyArray::Utf8(texts))
}

// The last of the records.
fn last_record(
    alloc: Global,
    key: IntegerType,
    count: usize,
    named: &[usize],
) -> Result<Batch, Error> {
    let mut indices = Vec::new(alloc);
    for index in named {
        indices.push(Some(*index))?;
    }
    let keys = any_keys(alloc, key, &indices)?;
    let inner = DictionaryArray::try_from_keys(alloc, keys, many_words(alloc, count)?)?;
    let records = record(alloc, vec![in alloc; AnyArray::Dictionary(inner)]?)?;
    let keys = any_keys(alloc, key, &[Some(named.len() - 1)])?;
    single(
        alloc,
        AnyArray::Dictionary(DictionaryArray::try_from_keys(alloc, keys, records)?),
    )
}

// The model says that the words and the records grow, and not whether they can be joined.
fn are_long(
    alloc: Global,
    key: IntegerType,
    steps: &[(usize, &[usize])],
    file: Option<&str>,
) -> Result<bool, Error> {
    let mut batches = Vec::new(alloc);
    for (count, named) in steps {
        batches.push(last_record(alloc, key, *count, named)?)?;
    }
    let schema = schema_of(alloc, &batches[0].columns)?;
    let model = model_of(alloc, &batches)?;
    let found = written(alloc, &schema, &batches)?;
    let is_model = file.is_none() || model.file() == file;
    Ok(is_written(&found, model.stream.as_str(), file) && is_model && !model.replaces)
}

#[test]
fn keys_that_would_pass(rt: HostRuntime) {
    for i in 0..LONG.len() {
        let (key, steps, file) = LONG[i];
        assert!(rt;
            are_long(rt.alloc(), key, steps, file) == Ok(true),
            "case {i}"
        );
    }
}
