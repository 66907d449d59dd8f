//! List arrays by the type of their offsets.
ghost use Rattle.std.specs.Prelude.{◌≡◌, ℕ, List as Seq, MatchResult};
ghost use Rattle.nest_model.specs.Layout as layouts;
ghost use Rattle.nest_array.specs.Words.{Fits, RefusesOrMemory, layout_of, type_of};

use crate::any::AnyArray;
use crate::array::Array;
use crate::list::ListArray;
use crate::list::large::LargeListArray;
use nest_memory::bitmap::immutable::Bitmap;
use nest_memory::datatypes::DataType;
use nest_memory::error::Error;
use nest_memory::offset::Offset;
use nest_memory::offsets::OffsetsBuffer;
use std::alloc::Global;

/// An offset type of list arrays: `i32` of `ListArray`, `i64` of `LargeListArray`.
pub trait ListOffset: Offset {
    /// `OffsetsBuffer<Self>`.
    type Buffer;

    /// The type of list arrays with these offsets.
    type List: Array;

    ghost offsets_of_buffer: { Self.Buffer → Seq ℕ };

    /// Returns the array with these parts.
    ///
    /// # Errors
    /// The errors of its `try_new`.
    fn list(
        alloc: Global,
        data_type: DataType,
        offsets: Self::Buffer,
        values: AnyArray,
        validity: Option<Bitmap>,
    ) -> Result<Self::List, Error>
        ensures { let l = layouts.list Self.IS_LARGE (type_of data_type) (offsets_of_buffer offsets) (layout_of values) validity in
            MatchResult result (λ a. Fits l × (Self.List.layout a ≡ l)) (λ e. RefusesOrMemory e l) };

    /// Returns the array as an `AnyArray`.
    fn any(list: Self::List) -> AnyArray
        ensures { layout_of result ≡ Self.List.layout list };
}

impl ListOffset for i32 {
    type Buffer = OffsetsBuffer<i32>;

    type List = ListArray;

    ghost offsets_of_buffer = { λ os. os };

    fn list(
        alloc: Global,
        data_type: DataType,
        offsets: OffsetsBuffer<i32>,
        values: AnyArray,
        validity: Option<Bitmap>,
    ) -> Result<ListArray, Error> {
        ListArray::try_new(alloc, data_type, offsets, values, validity)
    }

    fn any(list: ListArray) -> AnyArray {
        list.boxed()
    }
}

impl ListOffset for i64 {
    type Buffer = OffsetsBuffer<i64>;

    type List = LargeListArray;

    ghost offsets_of_buffer = { λ os. os };

    fn list(
        alloc: Global,
        data_type: DataType,
        offsets: OffsetsBuffer<i64>,
        values: AnyArray,
        validity: Option<Bitmap>,
    ) -> Result<LargeListArray, Error> {
        LargeListArray::try_new(alloc, data_type, offsets, values, validity)
    }

    fn any(list: LargeListArray) -> AnyArray {
        list.boxed()
    }
}
