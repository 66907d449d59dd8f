//! Arrays of nulls by their examples rows.

use nest_array::{Array, NullArray};
use nest_memory::datatypes::DataType;
use nest_memory::error::{Error, SpecError};

/// What a call rejected.
fn refusal(array: Result<NullArray, Error>) -> Option<Error> {
    match array {
        Err(error) => Some(error),
        Ok(array) => {
            drop(array);
            None
        }
    }
}

/// Three nulls: each index is null, three are counted, and no validity is taken, `None` neither.
#[test]
fn each_slot_is_null(rt: HostRuntime) {
    let array = NullArray::new(DataType::Null, 3);
    assert!(rt; array.null_count() == 3);
    assert!(rt; array.is_null(1));
    assert!(rt; array.validity().is_none());
}

#[test]
fn a_slice_of_nothing_is_the_empty_array(rt: HostRuntime) {
    let array = NullArray::new(DataType::Null, 3).sliced(3, 0);
    let empty = NullArray::new(DataType::Null, 0);
    assert!(rt; array.is_empty());
    assert!(rt; array == empty);
}

#[test]
fn other_types_are_rejected(rt: HostRuntime) {
    let wrong = Some(Error::OutOfSpec(SpecError::WrongType));
    assert!(rt; refusal(NullArray::try_new(DataType::Boolean, 3)) == wrong);
    assert!(rt; refusal(NullArray::try_new(DataType::Null, 3)).is_none());
}
