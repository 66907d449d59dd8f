//! The first check that fails is the one that is decoded.
use super::{binaries, booleans, numbers, texts};
use nest_memory::datatypes::DataType;
use nest_memory::error::{Error, SpecError};

/// Strings may not be cut inside a character: of a, é, b the offsets 0, 2, 4 are rejected as text, 0, 5 as past the bytes; 1, 3
/// is the slot é.
#[test]
fn strings_end_with_characters(rt: HostRuntime) {
    // a, é in two bytes, b
    let bytes = [0x61, 0xc3, 0xa9, 0x62].as_slice();
    for (offsets, failure) in [
        ([0, 2, 4].as_slice(), SpecError::Utf8),
        ([0, 5].as_slice(), SpecError::OffsetPastChild),
    ] {
        let refused = texts(rt.alloc(), bytes, offsets, None).err();
        assert!(rt; refused == Some(Error::OutOfSpec(failure)));
    }
    let one = texts(rt.alloc(), bytes, &[1, 3], None).expect(&rt, "one slot");
    assert!(rt; one.len() == 1);
    assert!(rt; one.get(0) == Some("é"));
}

/// Days are numbers of 32 bits, 64-bit numbers are not; a validity that is too long comes first.
#[test]
fn natives_of_their_data_type(rt: HostRuntime) {
    let long = Some([true, true, true].as_slice());
    let refused = numbers(rt.alloc(), DataType::Int64, &[7, 8], None).err();
    assert!(rt; refused == Some(Error::OutOfSpec(SpecError::WrongType)));
    let refused = numbers(rt.alloc(), DataType::Int64, &[7, 8], long).err();
    assert!(rt; refused == Some(Error::OutOfSpec(SpecError::ValidityLength)));
    let dates = numbers(rt.alloc(), DataType::Date32, &[7, 8], None).expect(&rt, "two days");
    let date = DataType::Date32;
    assert!(rt; *dates.data_type() == date);
    assert!(rt; dates.len() == 2);
}

#[test]
fn binary_and_boolean_without_memory(rt: HostRuntime) {
    let long = Some([true, true, true].as_slice());
    let past = binaries(rt.alloc(), &[1, 2], &[0, 3], long).err();
    assert!(rt; past == Some(Error::OutOfSpec(SpecError::OffsetPastChild)));
    let unlike = binaries(rt.alloc(), &[1, 2], &[0, 2], long).err();
    assert!(rt; unlike == Some(Error::OutOfSpec(SpecError::ValidityLength)));
    let unlike = booleans(rt.alloc(), &[true], long).err();
    assert!(rt; unlike == Some(Error::OutOfSpec(SpecError::ValidityLength)));
}
