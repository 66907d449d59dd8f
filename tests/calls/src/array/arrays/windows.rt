//! Windows over arrays.
use super::{any_list, list_array, numbers};
use nest_array::Window;
use nest_array::equal::{equal, equal_windows};

/// Windows over arrays and in windows.
#[test]
fn windows_in_windows(rt: HostRuntime) {
    let bits = Some([true, true, false, true].as_slice());
    let items = numbers(rt.alloc(), &[1, 2, 3, 4]);
    let array = any_list(list_array(rt.alloc(), items, &[0, 1, 2, 3, 4], bits)).expect(
        &rt,
        "four lists",
    );
    assert!(rt; array.len() == 4);
    let whole = Window::of(&array);
    assert!(rt; whole.len() == 4);
    let window = Window::new(&array, 1, 3);
    assert!(rt; window.len() == 3);
    assert!(rt; window.is_null(1));
    let cut = window.cut(1, 2);
    assert!(rt; cut.offset() == 2);
    assert!(rt; cut.len() == 2);
    assert!(rt; cut.is_null(0));
    assert!(rt; !cut.is_null(1));
    assert!(rt; cut.cut(2, 0).is_empty());
    assert!(rt; equal(window.array(), &array));
    assert!(rt; equal_windows(&cut, &whole.cut(2, 2)));
    assert!(rt; !equal_windows(&cut, &window));
}
