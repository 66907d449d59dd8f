//! List arrays with 64-bit offsets.
mod copies;
mod nulls;

ghost use Rattle.std.specs.Prelude.{◌≡◌, ◌+◌, ◌≤◌, ◌<◌, ◌↔◌, true, IsTrue, IfOk, IsOkUnless, MatchResult, option_map, alloc_error};
ghost use Rattle.nest_model.specs.Layout as layouts;
ghost use Rattle.nest_model.specs.Slot as slots;
ghost use Rattle.nest_array.specs.Words.{Fits, IsSlice, Memory, RefusesOrMemory, TopFits, begin, child_of, sublist, slice_layout, extent, is_null_at, layout_of, layout_type, len, null_count, offsets_of, seal, slot, slots_of, type_of, validity_of, where_valid, window_parts, window_slots};

use crate::any::AnyArray;
use crate::list::ranges::{self, Ranges};
use crate::window::Window;
use nest_flat::validity;
use nest_memory::bitmap::immutable::Bitmap;
use nest_memory::datatypes::DataType;
use nest_memory::error::Error;
use nest_memory::offsets::OffsetsBuffer;
use std::alloc::Global;
use std::marker::Model;
use std::rc::Rc;

/// An array of lists by 64-bit offsets: the Variable-size List Layout of the Arrow format.
#[cycle(array)]
#[derive(Drop)]
pub struct LargeListArray {
    data_type: DataType,
    ranges: Ranges<i64>,
    values: Rc<AnyArray>,
}

impl Model for LargeListArray {
    ghost use Rattle.nest_model.specs.Layout.{Layout, weight};
    ghost use Rattle.nest_model.specs.LayoutCode.{coded_layout};

    ghost Value = { Layout };

    ghost coded = { coded_layout };

    ghost use Rattle.nest_model.specs.Array.{TopFits};
    ghost use Rattle.nest_array.specs.SeenLargeList.{large_list_seen};

    ghost view = { large_list_seen };

    ghost invariant = { λ a. TopFits (large_list_seen a) };

    ghost size = { weight };

    ghost use Rattle.std.proofs.Common.{arith};
    ghost use Rattle.nest_array.specs.Falls.{deep-size};

    ghost size_decreases = { λ a h. Prim.omega (arith, deep-size a.values.value) };
}

impl LargeListArray {
    /// Returns the array with these parts.
    ///
    /// # Errors
    /// The first that applies:
    /// - `OffsetPastChild` if the last offset is past the end of `values`.
    /// - `ValidityLength` if the validity does not have one bit per slot.
    /// - `WrongType` if the physical type is not `LargeList`.
    /// - `ChildType` if the data type of `values` is not that of the field.
    /// - `Memory` if an allocation fails.
    pub fn try_new(
        alloc: Global,
        data_type: DataType,
        offsets: OffsetsBuffer<i64>,
        values: AnyArray,
        validity: Option<Bitmap>,
    ) -> Result<LargeListArray, Error>
        ensures { let parts = layouts.list true (type_of data_type) offsets (layout_of values) validity in
            MatchResult result (λ a. Fits parts × (a ≡ parts)) (λ e. RefusesOrMemory e parts) }
    {
        let ranges = Ranges { offsets, validity };
        if let Some(error) = ranges::first_error(&data_type, &ranges, &values) {
            drop(values);
            drop(ranges);
            drop(data_type);
            return Err(error);
        }
        LargeListArray::of(alloc, data_type, ranges, values)
    }

    /// Returns the array with these parts.
    ///
    /// # Errors
    /// `Memory` if an allocation fails.
    pub fn new(
        alloc: Global,
        data_type: DataType,
        offsets: OffsetsBuffer<i64>,
        values: AnyArray,
        validity: Option<Bitmap>,
    ) -> Result<LargeListArray, Error>
        requires { Fits (layouts.list true (type_of data_type) offsets (layout_of values) validity) }
        ensures ok { IfOk result (λ a. a ≡ layouts.list true (type_of data_type) offsets (layout_of values) validity) }
        ensures err { IsOkUnless result (Memory alloc_error) }
    {
        offsets.known();
        LargeListArray::of(alloc, data_type, Ranges { offsets, validity }, values)
    }

    // Returns the array with parts that are already checked.
    fn of(
        alloc: Global,
        data_type: DataType,
        ranges: Ranges<i64>,
        values: AnyArray,
    ) -> Result<LargeListArray, Error>
        requires { TopFits (layouts.list true (type_of data_type) ranges.offsets (layout_of values) ranges.validity) }
        ensures ok { IfOk result (λ a. a ≡ layouts.list true (type_of data_type) ranges.offsets (layout_of values) ranges.validity) }
        ensures err { IsOkUnless result (Memory alloc_error) }
    {
        match Rc::new(alloc, values) {
            Ok(values) => Ok(LargeListArray {
                data_type,
                ranges,
                values,
            }),
            Err(error) => {
                drop(ranges);
                drop(data_type);
                Err(error.into())
            }
        }
    }

    /// States the invariant of every such array. It does nothing at run time.
    pub fn known(&self)
        ensures fits { TopFits self.now }
        ensures kind { self.now ≡ layouts.list true (layout_type self.now) (offsets_of self.now) (child_of self.now) (validity_of self.now) }
    {
        let _ = &self.data_type;
    }

    /// Returns the number of slots.
    pub fn len(&self) -> usize
        ensures { result ≡ len self.now }
    {
        self.ranges.len()
    }

    /// Returns the data type.
    pub fn data_type(&self) -> &DataType
        ensures { type_of result.now ≡ layout_type self.now }
    {
        &self.data_type
    }

    /// Returns the offsets, one more than slots.
    pub fn offsets(&self) -> &OffsetsBuffer<i64>
        ensures { result.now ≡ offsets_of self.now }
    {
        &self.ranges.offsets
    }

    /// Returns the items of all slots.
    pub fn values(&self) -> &AnyArray
        ensures { layout_of result.now ≡ child_of self.now }
    {
        &self.values
    }

    /// Returns the validity, one bit per slot. Without a validity all slots are valid.
    pub fn validity(&self) -> Option<&Bitmap>
        ensures { option_map (λ b. b.now) result ≡ validity_of self.now }
    {
        self.ranges.validity.as_ref()
    }

    /// Returns whether slot `i` is null.
    pub fn is_null(&self, i: usize) -> bool
        requires { i < len self.now }
        ensures slot { IsTrue result ↔ (slot self.now i ≡ slots.null) }
        ensures place { result ≡ is_null_at self.now i }
    {
        !validity::is_valid(&self.ranges.validity, i)
    }

    /// Returns the number of null slots.
    pub fn null_count(&self) -> usize
        ensures { result ≡ null_count self.now }
    {
        validity::null_count(&self.ranges.validity)
    }

    /// Returns the offset and the number of the items of slot `i`.
    pub(crate) fn range(&self, i: usize) -> (usize, usize)
        requires { i < len self.now }
        ensures start { result.0 ≡ begin (offsets_of self.now) i }
        ensures count { result.1 ≡ extent (offsets_of self.now) i }
        ensures within { result.0 + result.1 ≤ len (child_of self.now) }
    {
        self.ranges.range(i)
    }

    /// Returns the items of slot `i`, even if the slot is null.
    ///
    /// # Errors
    /// `Memory` if an allocation fails.
    pub fn value(&self, alloc: Global, i: usize) -> Result<AnyArray, Error>
        requires { i < len self.now }
        ensures parts { IfOk result (λ a. layout_of a ≡ slice_layout (child_of self.now) (begin (offsets_of self.now) i) (extent (offsets_of self.now) i)) }
        ensures items { IfOk result (λ a. slot self.now i ≡ where_valid (validity_of self.now) i (slots.list (seal (slots_of (layout_of a))))) }
        ensures err { IsOkUnless result (Memory alloc_error) }
    {
        let (start, count) = self.range(i);
        let values: &AnyArray = &self.values;
        values.part(alloc, start, count)
    }

    /// Returns a window over the items of slot `i`, even if the slot is null.
    pub fn window(&self, i: usize) -> Window<'_>
        requires { i < len self.now }
        ensures parts { result ≡ window_parts (child_of self.now) (begin (offsets_of self.now) i) (extent (offsets_of self.now) i) }
        ensures items { slot self.now i ≡ where_valid (validity_of self.now) i (slots.list (seal (window_slots result))) }
    {
        let (start, count) = self.range(i);
        let values: &AnyArray = &self.values;
        Window::new(values, start, count)
    }

    /// Keeps `n` slots from index `o`.
    pub fn slice(&mut self, o: usize, n: usize)
        requires { o + n ≤ len self.old }
        ensures { IsSlice self.old o n self.new }
    {
        self.cut(o, n);
    }

    fn cut(&mut self, o: usize, n: usize)
        requires { o + n ≤ len self.old }
        ensures { self.new ≡ slice_layout self.old o n }
    {
        self.ranges.slice(o, n);
    }

    /// Returns the slice of `n` slots from index `o`.
    pub fn sliced(self, o: usize, n: usize) -> LargeListArray
        requires { o + n ≤ len self }
        ensures { IsSlice self o n result }
    {
        let mut cut = self;
        cut.slice(o, n);
        cut
    }
}
