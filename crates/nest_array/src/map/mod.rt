//! Map arrays: lists of key-value entries.
mod copies;
mod nulls;

ghost use Rattle.std.specs.Prelude.{◌≡◌, ◌+◌, ◌≤◌, ◌<◌, ◌↔◌, IsTrue, IfOk, IsOkUnless, MatchOption, MatchResult, option_map, alloc_error};
ghost use Rattle.nest_model.specs.Array.{AreOffsets};
ghost use Rattle.nest_model.specs.Layout as layouts;
ghost use Rattle.nest_model.specs.Slot as slots;
ghost use Rattle.nest_array.specs.Words.{FirstError, Fits, IsSlice, Memory, RefusesOrMemory, TopFits, begin, child_of, slice_layout, extent, is_null_at, layout_of, layout_type, len, null_count, offsets_of, seal, slot, slots_of, type_of, validity_of, where_valid, window_parts, window_slots};

use crate::any::AnyArray;
use crate::list::ranges::Ranges;
use crate::types::has_items;
use crate::window::Window;
use nest_flat::validity;
use nest_memory::bitmap::immutable::Bitmap;
use nest_memory::datatypes::DataType;
use nest_memory::datatypes::physical_type::PhysicalType;
use nest_memory::error::{ArgumentError, Error, SpecError};
use nest_memory::offsets::OffsetsBuffer;
use std::alloc::Global;
use std::marker::Model;
use std::rc::Rc;

/// An array of maps: lists of entries by 32-bit offsets, each entry a struct of a key and a value.
/// It has the Variable-size List Layout of the Arrow format, and the type `Map` of `Schema.fbs`.
#[cycle(array)]
#[derive(Drop)]
pub struct MapArray {
    data_type: DataType,
    ranges: Ranges<i32>,
    field: Rc<AnyArray>,
}

impl Model for MapArray {
    ghost use Rattle.nest_model.specs.Layout.{Layout, weight};
    ghost use Rattle.nest_model.specs.LayoutCode.{coded_layout};

    ghost Value = { Layout };

    ghost coded = { coded_layout };

    ghost use Rattle.nest_model.specs.Array.{TopFits};
    ghost use Rattle.nest_array.specs.SeenMap.{map_seen};

    ghost view = { map_seen };

    ghost invariant = { λ a. TopFits (map_seen a) };

    ghost size = { weight };

    ghost use Rattle.std.proofs.Common.{arith};
    ghost use Rattle.nest_array.specs.Falls.{deep-size};

    ghost size_decreases = { λ a h. Prim.omega (arith, deep-size a.field.value) };
}

impl MapArray {
    /// Returns the array with these parts.
    ///
    /// # Errors
    /// The first that applies:
    /// - `OffsetPastChild` if the last offset is past the end of `field`.
    /// - `WrongType` if the physical type is not `Map`.
    /// - `MapInner` if the entries' type is not a struct of two fields; an extension type of one is an error too.
    /// - `ChildType` (as an `InvalidArgumentError`) if the data type of `field` is not the entries' type.
    /// - `ValidityLength` if the validity does not have one bit per slot.
    /// - `Memory` if an allocation fails.
    pub fn try_new(
        alloc: Global,
        data_type: DataType,
        offsets: OffsetsBuffer<i32>,
        field: AnyArray,
        validity: Option<Bitmap>,
    ) -> Result<MapArray, Error>
        ensures { let parts = layouts.map (type_of data_type) offsets (layout_of field) validity in
            MatchResult result (λ a. Fits parts × (a ≡ parts)) (λ e. RefusesOrMemory e parts) }
    {
        let ranges = Ranges { offsets, validity };
        if let Some(error) = first_error(&data_type, &ranges, &field) {
            drop(field);
            drop(ranges);
            drop(data_type);
            return Err(error);
        }
        MapArray::of(alloc, data_type, ranges, field)
    }

    /// Returns the array with these parts.
    ///
    /// # Errors
    /// `Memory` if an allocation fails.
    pub fn new(
        alloc: Global,
        data_type: DataType,
        offsets: OffsetsBuffer<i32>,
        field: AnyArray,
        validity: Option<Bitmap>,
    ) -> Result<MapArray, Error>
        requires { Fits (layouts.map (type_of data_type) offsets (layout_of field) validity) }
        ensures ok { IfOk result (λ a. a ≡ layouts.map (type_of data_type) offsets (layout_of field) validity) }
        ensures err { IsOkUnless result (Memory alloc_error) }
    {
        offsets.known();
        MapArray::of(alloc, data_type, Ranges { offsets, validity }, field)
    }

    // Returns the array with parts that are already checked.
    fn of(
        alloc: Global,
        data_type: DataType,
        ranges: Ranges<i32>,
        field: AnyArray,
    ) -> Result<MapArray, Error>
        requires { TopFits (layouts.map (type_of data_type) ranges.offsets (layout_of field) ranges.validity) }
        ensures ok { IfOk result (λ a. a ≡ layouts.map (type_of data_type) ranges.offsets (layout_of field) ranges.validity) }
        ensures err { IsOkUnless result (Memory alloc_error) }
    {
        match Rc::new(alloc, field) {
            Ok(field) => Ok(MapArray {
                data_type,
                ranges,
                field,
            }),
            Err(error) => {
                drop(ranges);
                drop(data_type);
                Err(error.into())
            }
        }
    }

    /// States the invariant of every such array. It does nothing at run time.
    pub fn known(&self)
        ensures fits { TopFits self.now }
        ensures kind { self.now ≡ layouts.map (layout_type self.now) (offsets_of self.now) (child_of self.now) (validity_of self.now) }
    {
        let _ = &self.data_type;
    }

    /// Returns the number of slots.
    pub fn len(&self) -> usize
        ensures { result ≡ len self.now }
    {
        self.ranges.len()
    }

    /// Returns the data type.
    pub fn data_type(&self) -> &DataType
        ensures { type_of result.now ≡ layout_type self.now }
    {
        &self.data_type
    }

    /// Returns the offsets, one more than slots.
    pub fn offsets(&self) -> &OffsetsBuffer<i32>
        ensures { result.now ≡ offsets_of self.now }
    {
        &self.ranges.offsets
    }

    /// Returns the entries of all slots, an array of structs.
    pub fn field(&self) -> &AnyArray
        ensures { layout_of result.now ≡ child_of self.now }
    {
        &self.field
    }

    /// Returns the validity, one bit per slot. Without a validity all slots are valid.
    pub fn validity(&self) -> Option<&Bitmap>
        ensures { option_map (λ b. b.now) result ≡ validity_of self.now }
    {
        self.ranges.validity.as_ref()
    }

    /// Returns whether slot `i` is null.
    pub fn is_null(&self, i: usize) -> bool
        requires { i < len self.now }
        ensures slot { IsTrue result ↔ (slot self.now i ≡ slots.null) }
        ensures place { result ≡ is_null_at self.now i }
    {
        !validity::is_valid(&self.ranges.validity, i)
    }

    /// Returns the number of null slots.
    pub fn null_count(&self) -> usize
        ensures { result ≡ null_count self.now }
    {
        validity::null_count(&self.ranges.validity)
    }

    /// Returns the offset and the number of the entries of slot `i`.
    pub(crate) fn range(&self, i: usize) -> (usize, usize)
        requires { i < len self.now }
        ensures start { result.0 ≡ begin (offsets_of self.now) i }
        ensures count { result.1 ≡ extent (offsets_of self.now) i }
        ensures within { result.0 + result.1 ≤ len (child_of self.now) }
    {
        self.ranges.range(i)
    }

    /// Returns the entries of slot `i`, even if the slot is null.
    ///
    /// # Errors
    /// `Memory` if an allocation fails.
    pub fn value(&self, alloc: Global, i: usize) -> Result<AnyArray, Error>
        requires { i < len self.now }
        ensures parts { IfOk result (λ a. layout_of a ≡ slice_layout (child_of self.now) (begin (offsets_of self.now) i) (extent (offsets_of self.now) i)) }
        ensures items { IfOk result (λ a. slot self.now i ≡ where_valid (validity_of self.now) i (slots.list (seal (slots_of (layout_of a))))) }
        ensures err { IsOkUnless result (Memory alloc_error) }
    {
        let (start, count) = self.range(i);
        let field: &AnyArray = &self.field;
        field.part(alloc, start, count)
    }

    /// Returns a window over the entries of slot `i`, even if the slot is null.
    pub fn window(&self, i: usize) -> Window<'_>
        requires { i < len self.now }
        ensures parts { result ≡ window_parts (child_of self.now) (begin (offsets_of self.now) i) (extent (offsets_of self.now) i) }
        ensures items { slot self.now i ≡ where_valid (validity_of self.now) i (slots.list (seal (window_slots result))) }
    {
        let (start, count) = self.range(i);
        let field: &AnyArray = &self.field;
        Window::new(field, start, count)
    }

    /// Keeps `n` slots from index `o`.
    pub fn slice(&mut self, o: usize, n: usize)
        requires { o + n ≤ len self.old }
        ensures { IsSlice self.old o n self.new }
    {
        self.cut(o, n);
    }

    fn cut(&mut self, o: usize, n: usize)
        requires { o + n ≤ len self.old }
        ensures { self.new ≡ slice_layout self.old o n }
    {
        self.ranges.slice(o, n);
    }

    /// Returns the slice of `n` slots from index `o`.
    pub fn sliced(self, o: usize, n: usize) -> MapArray
        requires { o + n ≤ len self }
        ensures { IsSlice self o n result }
    {
        let mut cut = self;
        cut.slice(o, n);
        cut
    }
}

/// Returns the error of the first check of a map array's parts that fails.
fn first_error(data_type: &DataType, ranges: &Ranges<i32>, field: &AnyArray) -> Option<Error>
    ensures { let r = ranges.now in let m = layouts.map (type_of data_type.now) r.offsets (layout_of field.now) r.validity in
        MatchOption result (AreOffsets r.offsets × Fits m) (λ e. FirstError e m) }
{
    if ranges.end() > field.len() {
        return Some(Error::OutOfSpec(SpecError::OffsetPastChild));
    }
    if data_type.to_physical_type() != PhysicalType::Map {
        return Some(Error::OutOfSpec(SpecError::WrongType));
    }
    if !data_type.has_pairs() {
        return Some(Error::InvalidArgumentError(ArgumentError::MapInner));
    }
    if !has_items(data_type, field.data_type()) {
        return Some(Error::InvalidArgumentError(ArgumentError::ChildType));
    }
    if !validity::fits(&ranges.validity, ranges.len()) {
        return Some(Error::OutOfSpec(SpecError::ValidityLength));
    }
    None
}
