//! Slices of slices, and windows of windows.

use crate::cases::{CASES, Case, is_array_of};
use nest_array::equal::equal_windows;
use nest_array::{Array, Window};
use random::layouts::lay;
use random::start::START;
use std::test::Fail;

/// Slices of slices, windows of windows.
#[test]
fn slices_of_slices(rt: HostRuntime) -> Result<(), Fail> {
    let alloc = rt.alloc();
    for case in 0..CASES {
        let mut random = Case::new(alloc, 2, case)?;
        let array = random.lay(alloc)?;
        let (start, n) = random.rng.window(array.len());
        let mut cut = Array::sliced(&array, alloc, start, n)?;
        let slots = &random.slots[start..start + n];
        let fits = is_array_of(alloc, &cut, &random.data_type, slots)?;
        assert!(rt; fits, "cut at {start} of {n}: start {START}, case {case}");
        let (inner, m) = random.rng.window(n);
        cut.slice(inner, m);
        let slots = &slots[inner..inner + m];
        let fits = is_array_of(alloc, &cut, &random.data_type, slots)?;
        assert!(rt;
            fits,
            "cut of a cut at {inner} of {m}: start {START}, case {case}"
        );
        let kept = is_array_of(alloc, &array, &random.data_type, random.slots.as_slice())?;
        assert!(rt; kept, "what was cut: start {START}, case {case}");
        let once = array.sliced(start + inner, m);
        assert!(rt; once == cut, "one cut for two: start {START}, case {case}");
    }
    Ok(())
}

#[test]
fn windows(rt: HostRuntime) -> Result<(), Fail> {
    let alloc = rt.alloc();
    for case in 0..CASES {
        let mut random = Case::new(alloc, 3, case)?;
        let array = random.lay(alloc)?;
        let (start, n) = random.rng.window(array.len());
        let window = Window::new(&array, start, n);
        let (inner, m) = random.rng.window(n);
        let part = window.cut(inner, m);
        assert_eq!(rt;
            (window.len(), part.len()),
            (n, m),
            "start {START}, case {case}"
        );
        for i in 0..m {
            let null = array.is_null(start + inner + i);
            assert_eq!(rt;
                part.is_null(i),
                null,
                "slot {i}: start {START}, case {case}"
            );
        }
        let slots = &random.slots[start + inner..start + inner + m];
        let other = lay(alloc, &mut random.rng, &random.data_type, slots)?;
        assert!(rt;
            equal_windows(&part, &Window::of(&other)),
            "start {START}, case {case}"
        );
        let (place, _) = random.rng.window(array.len() - m);
        let elsewhere = Window::new(&array, place, m);
        let same = &random.slots[place..place + m] == slots;
        let found = equal_windows(&elsewhere, &Window::of(&other));
        assert_eq!(rt; found, same, "elsewhere: start {START}, case {case}");
    }
    Ok(())
}
