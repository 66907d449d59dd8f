//! Iterators whose size hint is loose but true: what they return is taken all the same.
//!
//! Items that an iterator returns whose size hint is loose.

use json_write::output::to_json_string;
use nest_array::FixedSizeBinaryArray;
use nest_build::array::MutableArray;
use nest_build::dictionary::MutableDictionaryArray;
use nest_build::fixed_size_binary::MutableFixedSizeBinaryArray;
use nest_build::list::MutableListArray;
use nest_build::push::TryExtend;
use nest_flat::primitive::mutable::MutablePrimitiveArray;
use nest_flat::utf8::mutable::MutableUtf8Array;
use nest_memory::error::Error;
use std::alloc::Global;

/// Gives copies of items, and says of their number that it is at least 0 and at most this one.
#[derive(Drop)]
struct Hinted<'a, T: Copy + Drop> {
    items: &'a [T],
    most: Option<usize>,
}

impl<'a, T: Copy + Drop> Iterator for Hinted<'a, T> {
    type Item = T;

    fn next(&mut self) -> Option<T> {
        let (first, others) = self.items.split_first()?;
        self.items = others;
        Some(*first)
    }

    fn size_hint(&self) -> (usize, Option<usize>) {
        (0, self.most)
    }
}

const HINTS: [Option<usize>; 3] = [None, Some(usize::MAX), Some(2)];

/// All slots of what a builder freezes to.
fn slots<B: MutableArray>(alloc: Global, builder: &mut B) -> Result<String, Error> {
    let array = builder.as_box()?;
    Ok(to_json_string(alloc, &array)?)
}

#[test]
fn byte_strings_of_one_size(rt: HostRuntime) -> Result<(), Error> {
    let alloc = rt.alloc();
    let bytes = [Some(b"ab".as_slice()), None];
    let items = bytes.as_slice();
    for most in HINTS {
        let array = FixedSizeBinaryArray::try_from_iter(alloc, Hinted { items, most }, 2)?.boxed();
        assert_eq!(rt; to_json_string(alloc, &array)?.as_str(), "[\"6162\",null]");
        let mut builder = MutableFixedSizeBinaryArray::try_from_iter(
            alloc,
            Hinted { items, most },
            2,
        )?;
        TryExtend::try_extend(&mut builder, Hinted { items, most })?;
        assert_eq!(rt;
            slots(alloc, &mut builder)?.as_str(),
            "[\"6162\",null,\"6162\",null]"
        );
    }
    Ok(())
}

#[test]
fn numbers_lists_and_dictionaries(rt: HostRuntime) -> Result<(), Error> {
    let alloc = rt.alloc();
    let numbers = [Some(1i64), None];
    let rows = [Some(numbers), None];
    let texts = [Some("A"), Some("A")];
    for most in HINTS {
        let mut flat: MutablePrimitiveArray<i64> = MutablePrimitiveArray::new(alloc);
        flat.try_extend(Hinted {
            items: numbers.as_slice(),
            most,
        })?;
        assert_eq!(rt; slots(alloc, &mut flat)?.as_str(), "[1,null]");
        let mut lists: MutableListArray<i32, MutablePrimitiveArray<i64>> = MutableListArray::new(
            alloc, flat,
        )?;
        lists.try_extend(Hinted {
            items: rows.as_slice(),
            most,
        })?;
        assert_eq!(rt; slots(alloc, &mut lists)?.as_str(), "[[1,null],null]");
        let mut keyed: MutableDictionaryArray<i8, MutableUtf8Array<i32>> =
            MutableDictionaryArray::try_from_values(alloc, MutableUtf8Array::new(alloc)?)?;
        keyed.try_extend(Hinted {
            items: texts.as_slice(),
            most,
        })?;
        assert_eq!(rt; slots(alloc, &mut keyed)?.as_str(), "[\"A\",\"A\"]");
    }
    Ok(())
}
