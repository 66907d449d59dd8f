//! Windows over the children of the arrays that are written.
ghost use Rattle.std.specs.Prelude.{◌≡◌, ◌+◌, ◌∷◌, [], IfOk};
ghost use Rattle.nest_model.specs.Fits.{EachCovers};
ghost use Rattle.nest_array.specs.Seen.{layouts_of};
ghost use Rattle.ipc_arrays.specs.Encoding.{each_window, whole_windows, windows_below};

use crate::fixed_size_list::fixed_size_item_window;
use crate::layout::known_kind;
use crate::list::item_window;
use crate::struct_::child_windows;
use crate::union::field_windows;
use nest_array::any::AnyArray;
use nest_array::window::Window;
use std::alloc::{AllocError, Global};

/// Returns a window over all slots of each array.
pub(crate) fn full_windows(
    alloc: Global,
    arrays: &[AnyArray],
) -> Result<Vec<Window<'_>>, AllocError>
    ensures { IfOk result (λ v. v.items ≡ whole_windows (layouts_of arrays.now)) }
{
    let mut windows = Vec::with_capacity(alloc, arrays.len())?;
    for array in arrays {
        windows.push_reserved(Window::of(array));
    }
    Ok(windows)
}

/// Returns a window over the `count` slots from index `offset` on of each array.
pub(crate) fn aligned_windows(
    alloc: Global,
    arrays: &[AnyArray],
    offset: usize,
    count: usize,
) -> Result<Vec<Window<'_>>, AllocError>
    requires { EachCovers (layouts_of arrays.now) (offset + count) }
    ensures { IfOk result (λ v. v.items ≡ each_window (layouts_of arrays.now) offset count) }
{
    let mut windows = Vec::with_capacity(alloc, arrays.len())?;
    for array in arrays {
        windows.push_reserved(Window::new(array, offset, count));
    }
    Ok(windows)
}

fn single_window(alloc: Global, window: Window<'_>) -> Result<Vec<Window<'_>>, AllocError>
    ensures { IfOk result (λ v. v.items ≡ window.entry ∷ []) }
{
    let mut windows = Vec::with_capacity(alloc, 1)?;
    windows.push_reserved(window);
    Ok(windows)
}

/// Returns the windows over the children that are written for a window.
pub(crate) fn windows_of_children<'a>(
    alloc: Global,
    window: &Window<'a>,
) -> Result<Vec<Window<'a>>, AllocError>
    ensures { IfOk result (λ v. v.items ≡ windows_below window.now.array window.now.offset window.now.count) }
{
    window.known();
    let offset = window.offset();
    let count = window.len();
    let array = window.array();
    known_kind(array);
    match array {
        AnyArray::FixedSizeList(array) => {
            array.known();
            single_window(alloc, fixed_size_item_window(array, offset, count))
        }
        AnyArray::List(array) => {
            array.known();
            single_window(
                alloc,
                item_window(array.offsets(), array.values(), offset, count),
            )
        }
        AnyArray::LargeList(array) => {
            array.known();
            single_window(
                alloc,
                item_window(array.offsets(), array.values(), offset, count),
            )
        }
        AnyArray::Map(array) => {
            array.known();
            single_window(
                alloc,
                item_window(array.offsets(), array.field(), offset, count),
            )
        }
        AnyArray::Struct(array) => {
            array.known();
            child_windows(alloc, array, offset, count)
        }
        AnyArray::Union(array) => field_windows(alloc, array, offset, count),
        AnyArray::Null(_)
        | AnyArray::Boolean(_)
        | AnyArray::Primitive(_)
        | AnyArray::FixedSizeBinary(_)
        | AnyArray::Binary(_)
        | AnyArray::LargeBinary(_)
        | AnyArray::Utf8(_)
        | AnyArray::LargeUtf8(_)
        | AnyArray::Dictionary(_) => Ok(Vec::new(alloc)),
    }
}
