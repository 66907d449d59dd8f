//! Tables of numbers by their hashes.
//!
//! In a table of hashes 0, 0, 0, 8, 8 number 2 is found by hash 0 and not by 8; cut to two hashes it is gone. A thousand
//! numbers of one hash, and numbers around the end of the indices, are found.

use nest_build::dictionary::KeyTable;
use nest_memory::error::Error;
use std::alloc::AllocError;
use std::test::Fail;

#[test]
fn a_number_is_found_by_its_hash_and_a_test(rt: HostRuntime) -> Result<(), Fail> {
    let mut table = KeyTable::new(rt.alloc());
    assert!(rt; table.find(0, |_| true) == None);
    for hash in [0u64, 0, 0, 8, 8] {
        table.push(hash)?;
    }
    assert!(rt; table.find(0, |k| k == 2) == Some(2));
    assert!(rt; table.find(8, |k| k == 2) == None);
    assert!(rt; table.find(8, |k| k != 3) == Some(4));
    if table.len() == 5 {
        table.truncate(2);
    }
    assert_eq!(rt; table.len(), 2);
    assert!(rt; table.find(0, |k| k == 2) == None);
    assert!(rt; table.find(0, |k| k == 1) == Some(1));
    assert!(rt; table.find(8, |_| true) == None);
    table.clear();
    assert!(rt; table.find(0, |_| true) == None);
    table.push(8)?;
    assert!(rt; table.find(8, |_| true) == Some(0));
    Ok(())
}

#[test]
fn a_thousand_numbers_of_one_hash(rt: HostRuntime) -> Result<(), Fail> {
    let mut table = KeyTable::new(rt.alloc());
    for _k in 0..1000 {
        table.push(7)?;
    }
    table.push(8)?;
    assert!(rt; table.find(7, |k| k == 999) == Some(999));
    assert!(rt; table.find(8, |_| true) == Some(1000));
    Ok(())
}

// Hashes that crowd at the end of the indices continue at their front, and those after one that is taken off are found.
#[test]
fn numbers_around_the_end_are_found(rt: HostRuntime) -> Result<(), Fail> {
    let mut table = KeyTable::new(rt.alloc());
    for k in 0..64u64 {
        table.push(u64::MAX - k % 3)?;
    }
    for n in [64usize, 40, 7, 2] {
        if table.len() >= n {
            table.truncate(n);
        }
        assert_eq!(rt; table.len(), n);
        for k in 0..64usize {
            let found = table.find(u64::MAX - k as u64 % 3, |j| j == k);
            assert!(rt; found == if k < n { Some(k) } else { None });
        }
    }
    Ok(())
}

// Holds where any one allocation fails: a rejected push changes nothing.
#[test]
fn a_rejected_push_changes_nothing(rt: HostRuntime) {
    let mut table = KeyTable::new(rt.alloc());
    let mut accepted = 0usize;
    for _turn in 0..40u32 {
        match table.push(accepted as u64) {
            Ok(()) => accepted = accepted.saturating_add(1),
            Err(error) => assert!(rt; error == Error::Memory(AllocError)),
        }
        assert_eq!(rt; table.len(), accepted);
        assert!(rt; table.find(accepted as u64, |_| true) == None);
        if accepted > 0 {
            assert!(rt; table.find(accepted as u64 - 1, |_| true) == Some(accepted - 1));
        }
    }
}
