//! A builder makes its validity at the first null: where none was pushed, the frozen array has none.
use nest_flat::binary::mutable::MutableBinaryArray;
use nest_flat::boolean::mutable::MutableBooleanArray;
use nest_flat::primitive::mutable::MutablePrimitiveArray;
use nest_flat::utf8::mutable::MutableUtf8Array;
use nest_memory::bitmap::immutable::Bitmap;

/// How many nulls a validity pushes, and whether there is one.
fn nulls_of(validity: Option<&Bitmap>) -> Option<usize> {
    validity.map(|bits| bits.unset_bits())
}

/// A builder has no validity before its first null.
#[test]
fn natives_without_nulls(rt: HostRuntime) {
    let mut builder = MutablePrimitiveArray::<i64>::new(rt.alloc());
    assert!(rt; builder.try_push(Some(7)) == Ok(()));
    assert!(rt; builder.try_extend([Some(8i64), Some(9)]) == Ok(()));
    let frozen = builder.freeze().expect(&rt, "three numbers");
    assert!(rt; nulls_of(frozen.validity()).is_none());
    assert!(rt; builder.try_push(Some(7)) == Ok(()));
    assert!(rt; builder.try_push(None) == Ok(()));
    let frozen = builder.freeze().expect(&rt, "a number and a null");
    assert!(rt; nulls_of(frozen.validity()) == Some(1));
}

#[test]
fn booleans_without_nulls(rt: HostRuntime) {
    let mut builder = MutableBooleanArray::new(rt.alloc());
    assert!(rt; builder.try_push(Some(false)) == Ok(()));
    let frozen = builder.freeze().expect(&rt, "a boolean");
    assert!(rt; nulls_of(frozen.validity()).is_none());
    assert!(rt; builder.try_push(None) == Ok(()));
    let frozen = builder.freeze().expect(&rt, "a null");
    assert!(rt; nulls_of(frozen.validity()) == Some(1));
}

#[test]
fn bytes_without_nulls(rt: HostRuntime) {
    let mut builder = MutableBinaryArray::<i32>::new(rt.alloc()).expect(&rt, "memory");
    assert!(rt; builder.try_push(Some(b"ab".as_slice())) == Ok(()));
    let frozen = builder.freeze().expect(&rt, "two bytes");
    assert!(rt; nulls_of(frozen.validity()).is_none());
    assert!(rt; builder.try_push(None) == Ok(()));
    let frozen = builder.freeze().expect(&rt, "a null");
    assert!(rt; nulls_of(frozen.validity()) == Some(1));
}

#[test]
fn strings_without_nulls(rt: HostRuntime) {
    let mut builder = MutableUtf8Array::<i64>::new(rt.alloc()).expect(&rt, "memory");
    assert!(rt; builder.try_push(Some("")) == Ok(()));
    let frozen = builder.freeze().expect(&rt, "a text");
    assert!(rt; nulls_of(frozen.validity()).is_none());
    assert!(rt; builder.try_push(None) == Ok(()));
    let frozen = builder.freeze().expect(&rt, "a null");
    assert!(rt; nulls_of(frozen.validity()) == Some(1));
}
