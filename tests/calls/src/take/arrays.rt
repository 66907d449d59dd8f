//! Arrays of each kind, each made of parts that may be rejected.

use nest_array::{
    AnyArray, AnyKeys, DictionaryArray, FixedSizeBinaryArray, FixedSizeListArray, LargeListArray,
    ListArray, MapArray, NullArray, StructArray, UnionArray,
};
use nest_flat::any_primitive::NativeArray;
use nest_flat::binary::mutable::MutableBinaryArray;
use nest_flat::boolean::BooleanArray;
use nest_flat::primitive::PrimitiveArray;
use nest_flat::utf8::mutable::MutableUtf8Array;
use nest_memory::bitmap::immutable::Bitmap;
use nest_memory::buffer::Buffer;
use nest_memory::datatypes::field::Field;
use nest_memory::datatypes::{DataType, UnionMode};
use nest_memory::error::Error;
use nest_memory::offsets::OffsetsBuffer;
use std::alloc::{AllocError, Global};

/// An array of any kind, or why there is none.
pub type Made = Result<AnyArray, Error>;

fn both<A: Drop, B: Drop>(a: Result<A, Error>, b: Result<B, Error>) -> Result<(A, B), Error> {
    Ok((a?, b?))
}

/// Both in a vector.
pub fn two<T: Drop>(
    alloc: Global,
    first: Result<T, Error>,
    second: Result<T, Error>,
) -> Result<Vec<T>, Error> {
    let mut items = Vec::with_capacity(alloc, 2)?;
    items.push(first?)?;
    items.push(second?)?;
    Ok(items)
}

fn buffer<T: Copy + Drop>(alloc: Global, items: &[T]) -> Result<Buffer<T>, Error> {
    Buffer::from_vec(alloc, Vec::from_slice(alloc, items)?)
}

fn validity(alloc: Global, bits: Option<&[bool]>) -> Result<Option<Bitmap>, Error> {
    match bits {
        None => Ok(None),
        Some(bits) => Ok(Some(Bitmap::from_bools(alloc, bits)?)),
    }
}

fn ranges(
    alloc: Global,
    offsets: &[i32],
    bits: Option<&[bool]>,
) -> Result<(OffsetsBuffer<i32>, Option<Bitmap>), Error> {
    let offsets = OffsetsBuffer::try_new(alloc, Vec::from_slice(alloc, offsets)?)?;
    Ok((offsets, validity(alloc, bits)?))
}

fn type_of(alloc: Global, array: &Made) -> Result<DataType, Error> {
    match array {
        Ok(array) => array.data_type().clone(alloc),
        Err(error) => Err(*error),
    }
}

fn field(alloc: Global, array: &Made) -> Result<Field, Error> {
    match type_of(alloc, array) {
        Ok(data_type) => Field::new(alloc, "f", data_type, true),
        Err(error) => Err(error),
    }
}

fn int32s(
    alloc: Global,
    items: &[i32],
    bits: Option<&[bool]>,
) -> Result<PrimitiveArray<i32>, Error> {
    match both(buffer(alloc, items), validity(alloc, bits)) {
        Ok((values, validity)) => PrimitiveArray::try_new(DataType::Int32, values, validity),
        Err(error) => Err(error),
    }
}

/// Numbers of 32 bits.
pub fn numbers(alloc: Global, items: &[i32], bits: Option<&[bool]>) -> Made {
    int32s(alloc, items, bits).map(|array| AnyArray::Primitive(i32::wrap(array)))
}

/// Booleans, as a mask.
pub fn mask(alloc: Global, items: &[bool], bits: Option<&[bool]>) -> Result<BooleanArray, Error> {
    match both(Bitmap::from_bools(alloc, items), validity(alloc, bits)) {
        Ok((values, validity)) => BooleanArray::try_new(DataType::Boolean, values, validity),
        Err(error) => Err(error),
    }
}

/// Booleans.
pub fn booleans(alloc: Global, items: &[bool], bits: Option<&[bool]>) -> Made {
    mask(alloc, items, bits).map(|array| AnyArray::Boolean(array))
}

/// So many nulls.
pub fn nulls(length: usize) -> Made {
    NullArray::try_new(DataType::Null, length).map(|array| array.boxed())
}

/// Strings, `None` a null.
pub fn texts(alloc: Global, items: &[Option<&str>]) -> Made {
    let mut builder = MutableUtf8Array::<i32>::new(alloc)?;
    for item in items {
        builder.try_push(*item)?;
    }
    builder.freeze().map(|texts| AnyArray::Utf8(texts))
}

/// Strings by wide offsets.
pub fn wide_strings(alloc: Global, items: &[Option<&str>]) -> Made {
    let mut builder = MutableUtf8Array::<i64>::new(alloc)?;
    for item in items {
        builder.try_push(*item)?;
    }
    builder.freeze().map(|texts| AnyArray::LargeUtf8(texts))
}

/// Byte strings.
pub fn bytes(alloc: Global, items: &[Option<&[u8]>]) -> Made {
    let mut builder = MutableBinaryArray::<i32>::new(alloc)?;
    for item in items {
        builder.try_push(*item)?;
    }
    builder.freeze().map(|bytes| AnyArray::Binary(bytes))
}

/// Byte strings by wide offsets.
pub fn wide_bytes(alloc: Global, items: &[Option<&[u8]>]) -> Made {
    let mut builder = MutableBinaryArray::<i64>::new(alloc)?;
    for item in items {
        builder.try_push(*item)?;
    }
    builder.freeze().map(|bytes| AnyArray::LargeBinary(bytes))
}

/// Byte fixed-size binary values.
pub fn sized_bytes(alloc: Global, size: usize, items: &[u8], bits: Option<&[bool]>) -> Made {
    match both(buffer(alloc, items), validity(alloc, bits)) {
        Ok((bytes, validity)) => {
            FixedSizeBinaryArray::try_new(DataType::FixedSizeBinary(size), bytes, validity).map(
                |bytes| bytes.boxed(),
            )
        }
        Err(error) => Err(error),
    }
}

fn list_type(alloc: Global, items: &Made) -> Result<DataType, Error> {
    match type_of(alloc, items) {
        Ok(items) => ListArray::default_datatype(alloc, items),
        Err(error) => Err(error),
    }
}

/// Lists of items.
pub fn lists(alloc: Global, items: Made, offsets: &[i32], bits: Option<&[bool]>) -> Made {
    let data_type = list_type(alloc, &items);
    match both(both(data_type, items), ranges(alloc, offsets, bits)) {
        Ok(((data_type, items), (offsets, validity))) => {
            ListArray::try_new(alloc, data_type, offsets, items, validity).map(
                |lists| lists.boxed(),
            )
        }
        Err(error) => Err(error),
    }
}

fn wide_ranges(
    alloc: Global,
    offsets: &[i64],
    bits: Option<&[bool]>,
) -> Result<(OffsetsBuffer<i64>, Option<Bitmap>), Error> {
    let offsets = OffsetsBuffer::try_new(alloc, Vec::from_slice(alloc, offsets)?)?;
    Ok((offsets, validity(alloc, bits)?))
}

fn wide_list_type(alloc: Global, items: &Made) -> Result<DataType, Error> {
    match type_of(alloc, items) {
        Ok(items) => LargeListArray::default_datatype(alloc, items),
        Err(error) => Err(error),
    }
}

/// Lists of items by wide offsets.
pub fn wide_lists(alloc: Global, items: Made, offsets: &[i64], bits: Option<&[bool]>) -> Made {
    let data_type = wide_list_type(alloc, &items);
    match both(both(data_type, items), wide_ranges(alloc, offsets, bits)) {
        Ok(((data_type, items), (offsets, validity))) => {
            LargeListArray::try_new(alloc, data_type, offsets, items, validity).map(
                |lists| lists.boxed(),
            )
        }
        Err(error) => Err(error),
    }
}

fn sized_type(alloc: Global, items: &Made, size: usize) -> Result<DataType, Error> {
    match type_of(alloc, items) {
        Ok(items) => FixedSizeListArray::default_datatype(alloc, items, size),
        Err(error) => Err(error),
    }
}

/// Lists of so many items each.
pub fn sized(alloc: Global, items: Made, size: usize, bits: Option<&[bool]>) -> Made {
    let data_type = sized_type(alloc, &items, size);
    match both(both(data_type, items), validity(alloc, bits)) {
        Ok(((data_type, items), validity)) => {
            FixedSizeListArray::try_new(alloc, data_type, items, validity).map(
                |lists| lists.boxed(),
            )
        }
        Err(error) => Err(error),
    }
}

/// Records of two children.
pub fn records(alloc: Global, first: Made, second: Made, bits: Option<&[bool]>) -> Made {
    let fields = two(alloc, field(alloc, &first), field(alloc, &second));
    let children = two(alloc, first, second);
    match both(both(fields, children), validity(alloc, bits)) {
        Ok(((fields, children), validity)) => {
            StructArray::try_new(DataType::Struct(fields), children, validity).map(
                |records| records.boxed(),
            )
        }
        Err(error) => Err(error),
    }
}

fn map_type(alloc: Global, entries: &Made) -> Result<DataType, Error> {
    let field = field(alloc, entries)?;
    Ok(DataType::Map(Box::new(alloc, field)?, false))
}

/// Maps of entries.
pub fn maps(alloc: Global, entries: Made, offsets: &[i32], bits: Option<&[bool]>) -> Made {
    let data_type = map_type(alloc, &entries);
    match both(both(data_type, entries), ranges(alloc, offsets, bits)) {
        Ok(((data_type, entries), (offsets, validity))) => {
            MapArray::try_new(alloc, data_type, offsets, entries, validity).map(|maps| maps.boxed())
        }
        Err(error) => Err(error),
    }
}

fn shared(alloc: Global, offsets: Option<&[i32]>) -> Result<Option<Buffer<i32>>, Error> {
    match offsets {
        None => Ok(None),
        Some(offsets) => Ok(Some(buffer(alloc, offsets)?)),
    }
}

/// Unions of two fields, dense where there are offsets.
pub fn picks(
    alloc: Global,
    types: &[i8],
    offsets: Option<&[i32]>,
    first: Made,
    second: Made,
) -> Made {
    let mode = if offsets.is_some() {
        UnionMode::Dense
    } else {
        UnionMode::Sparse
    };
    let fields = two(alloc, field(alloc, &first), field(alloc, &second));
    let children = two(alloc, first, second);
    let parts = both(buffer(alloc, types), shared(alloc, offsets));
    match both(both(fields, children), parts) {
        Ok(((fields, children), (types, offsets))) => {
            let data_type = DataType::Union(fields, None, mode);
            UnionArray::try_new(data_type, types, children, offsets).map(|picks| picks.boxed())
        }
        Err(error) => Err(error),
    }
}

/// Values by keys of 32 bits.
pub fn keyed(alloc: Global, raw: &[i32], bits: Option<&[bool]>, values: Made) -> Made {
    match both(int32s(alloc, raw, bits), values) {
        Ok((keys, values)) => {
            DictionaryArray::try_from_keys(alloc, AnyKeys::Int32(keys), values).map(
                |keyed| keyed.boxed(),
            )
        }
        Err(error) => Err(error),
    }
}

/// The n slots from index o of an array that has them.
pub fn cut(array: Made, o: usize, n: usize) -> Made {
    match array {
        Ok(array) => {
            let len = array.len();
            if o > len || n > len - o {
                drop(array);
                return Err(Error::NotYetImplemented);
            }
            Ok(array.sliced(o, n))
        }
        Err(error) => Err(error),
    }
}

fn are_below(indices: &[usize], len: usize) -> bool {
    indices.iter().all(|index| *index < len)
}

/// The slots at indices that are there.
pub fn taken(alloc: Global, array: Made, indices: &[usize]) -> Made {
    match array {
        Ok(array) => {
            let taken = if are_below(indices, array.len()) {
                nest_take::take(alloc, &array, indices)
            } else {
                Err(Error::NotYetImplemented)
            };
            drop(array);
            taken
        }
        Err(error) => Err(error),
    }
}

fn is_equal(taken: Made, array: &AnyArray) -> bool {
    match taken {
        Ok(taken) => {
            let same = taken == *array;
            drop(taken);
            same
        }
        Err(error) => error == Error::Memory(AllocError),
    }
}

/// Whether taking all of an array's indices without memory or gave an equal array; in both cases the source equals its copy after.
pub fn leaves_source(alloc: Global, array: Made, copy: Made, indices: &[usize]) -> bool {
    match both(array, copy) {
        Ok((array, copy)) => {
            let fine = are_below(indices, array.len())
                && is_equal(nest_take::take(alloc, &array, indices), &copy);
            let same = array == copy;
            drop(copy);
            drop(array);
            fine && same
        }
        Err(error) => error == Error::Memory(AllocError),
    }
}

/// The slots where a mask of the same length is true.
pub fn filtered(alloc: Global, array: Made, mask: Result<BooleanArray, Error>) -> Made {
    match both(array, mask) {
        Ok((array, mask)) => {
            let taken = if mask.len() == array.len() {
                nest_take::filter(alloc, &array, &mask)
            } else {
                Err(Error::NotYetImplemented)
            };
            drop(mask);
            drop(array);
            taken
        }
        Err(error) => Err(error),
    }
}

/// No slot of the array's type.
fn none_of(alloc: Global, array: &Made) -> Made {
    match type_of(alloc, array) {
        Ok(data_type) => nest_array::new_empty_array(alloc, data_type),
        Err(error) => Err(error),
    }
}

/// Whether an array at no index equals the empty array of its type.
pub fn accepts_nothing(alloc: Global, array: Made) -> bool {
    let none = none_of(alloc, &array);
    are_same(taken(alloc, array, &[]), none)
}

/// Whether both arrays were made and are equal; they are dropped.
pub fn are_same(x: Made, y: Made) -> bool {
    match both(x, y) {
        Ok((x, y)) => {
            let same = x == y;
            drop(y);
            drop(x);
            same
        }
        Err(_) => false,
    }
}

/// What a call rejected.
pub fn refusal(array: Made) -> Option<Error> {
    match array {
        Ok(array) => {
            drop(array);
            None
        }
        Err(error) => Some(error),
    }
}
