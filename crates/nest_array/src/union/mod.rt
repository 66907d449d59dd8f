//! Union arrays.
mod checks;
mod copies;
mod nulls;
mod table;

ghost use Rattle.std.specs.Prelude.{◌≡◌, ◌+◌, ◌≤◌, ◌<◌, ◌↔◌, IfOk, IsOkUnless, IsTrue, MatchResult, Some, alloc_error, get_or, not, option_map, pos};
ghost use Rattle.nest_memory.specs.TypeOf.{field_list_of};
ghost use Rattle.nest_memory.specs.TypeTree.{fields_of, ids_of, is_dense};
ghost use Rattle.nest_memory.specs.declared.datatypes.physical_type.PhysicalType.TheVariants as physical;
ghost use Rattle.nest_model.specs.Accessors.{child_at, children_of, start_of, types_of, union_offsets_of};
ghost use Rattle.nest_model.specs.Slice.{slice_offsets as cut_of};
ghost use Rattle.nest_model.specs.Layout as layouts;
ghost use Rattle.nest_model.specs.Layout.{count_layouts, weight};
ghost use Rattle.nest_model.specs.Meaning.{union_index};
ghost use Rattle.nest_model.specs.Part.{field_named};
ghost use Rattle.nest_model.specs.Slot as slots;
ghost use Rattle.nest_array.specs.Positions.{OffsetsReach};
ghost use Rattle.nest_array.specs.ScalarParts.{IsPickOf};
ghost use Rattle.nest_array.specs.Words.{FirstError, Fits, IsSlice, Memory, TopFits, slice_layout, is_null_at, layout_of, layout_type, layouts_of, len, null_count, physical_type, slot, type_of, validity_of};

use crate::any::AnyArray;
use crate::scalar::{AnyScalar, new_scalar};
use nest_memory::bitmap::immutable::Bitmap;
use nest_memory::buffer::Buffer;
use nest_memory::datatypes::field::Field;
use nest_memory::datatypes::{DataType, UnionMode};
use nest_memory::error::Error;
use std::alloc::Global;
use std::marker::Model;

/// An array whose slots each select a slot of one of its fields: the Union Layout of the Arrow format.
/// It has no validity.
///
/// A type id selects the field with that id; without ids, the field at that index. If two fields have the same id,
/// it selects the later one. A dense union reads the field at the slot's offset, a sparse one at the slot's own index.
#[cycle(array)]
#[derive(Drop)]
pub struct UnionArray {
    data_type: DataType,
    types: Buffer<i8>,
    fields: Vec<AnyArray>,
    offsets: Option<Buffer<i32>>,
    start: usize,
    // Whether each type id is known to be the index of the field that it selects.
    plain: bool,
}

impl Model for UnionArray {
    ghost use Rattle.nest_model.specs.Layout.{Layout, weight};
    ghost use Rattle.nest_model.specs.LayoutCode.{coded_layout};

    ghost Value = { Layout };

    ghost coded = { coded_layout };

    ghost use Rattle.std.specs.Prelude.{◌+◌, ◌<◌, ◌^◌, IsTrue, length};
    ghost use Rattle.nest_memory.specs.TypeOf.{type_of};
    ghost use Rattle.nest_memory.specs.TypeTree.{ids_of};
    ghost use Rattle.nest_model.specs.Array.{TopFits};
    ghost use Rattle.nest_array.specs.Positions.{ArePositions};
    ghost use Rattle.nest_array.specs.SeenUnion.{union_seen};

    ghost view = { union_seen };

    ghost invariant = { λ a. TopFits (union_seen a) × (a.start + length a.types < 2 ^ 64) × (IsTrue a.plain → ArePositions (ids_of (type_of a.data_type))) };

    ghost size = { weight };

    ghost use Rattle.std.proofs.Common.{arith};
    ghost use Rattle.nest_array.specs.Falls.{most-size};

    ghost size_decreases = { λ a h. Prim.omega (arith, most-size a.fields.items) };
}

impl UnionArray {
    /// Returns the array with these parts.
    ///
    /// # Errors
    /// The first that applies:
    /// - `WrongType` if the physical type is not `Union`.
    /// - `FieldCount` if the number of fields is not that of the data type.
    /// - `TooManyFields` if there are more than 127 fields.
    /// - `ChildType` if a field has another type than its field in the data type.
    /// - `OffsetCount` if there are offsets, but not one per slot.
    /// - `UnionMode` if a sparse union has offsets, or a dense one has none.
    /// - `IdCount` if there are ids, but not one per field.
    /// - `IdRange` if an id is not from 0 to 127.
    /// - `UnionType` if a type id selects no field.
    /// - `UnionSlot` if an offset is negative or past the end of its field.
    /// - `UnionSlot` if a field of a sparse union is shorter than the union.
    pub fn try_new(
        data_type: DataType,
        types: Buffer<i8>,
        fields: Vec<AnyArray>,
        offsets: Option<Buffer<i32>>,
    ) -> Result<UnionArray, Error>
        ensures { let parts = layouts.union (type_of data_type) types (layouts_of fields.items) offsets 0 in
            MatchResult result (λ a. Fits parts × (a ≡ parts)) (λ e. FirstError e parts) }
    {
        if let Some(error) = checks::first_error(&data_type, &types, &fields, &offsets) {
            drop(offsets);
            drop(fields);
            drop(types);
            drop(data_type);
            return Err(error);
        }
        let plain = table::are_positions(&data_type);
        Ok(UnionArray {
            data_type,
            types,
            fields,
            offsets,
            start: 0,
            plain,
        })
    }

    /// Returns the array with these parts.
    pub fn new(
        data_type: DataType,
        types: Buffer<i8>,
        fields: Vec<AnyArray>,
        offsets: Option<Buffer<i32>>,
    ) -> UnionArray
        requires { Fits (layouts.union (type_of data_type) types (layouts_of fields.items) offsets 0) }
        ensures { result ≡ layouts.union (type_of data_type) types (layouts_of fields.items) offsets 0 }
    {
        let plain = table::are_positions(&data_type);
        UnionArray {
            data_type,
            types,
            fields,
            offsets,
            start: 0,
            plain,
        }
    }

    /// States the invariant of every such array. It does nothing at run time.
    pub fn known(&self)
        ensures fits { TopFits self.now }
        ensures kind { self.now ≡ layouts.union (layout_type self.now) (types_of self.now) (children_of self.now) (union_offsets_of self.now) (start_of self.now) }
    {
        let _ = &self.data_type;
    }

    /// Returns the number of slots.
    pub fn len(&self) -> usize
        ensures { result ≡ len self.now }
    {
        self.types.len()
    }

    /// Returns the data type.
    pub fn data_type(&self) -> &DataType
        ensures { type_of result.now ≡ layout_type self.now }
    {
        &self.data_type
    }

    /// Returns the type ids, one per slot.
    pub fn types(&self) -> &Buffer<i8>
        ensures { result.now ≡ types_of self.now }
    {
        &self.types
    }

    /// Returns the offsets of a dense union, one per slot. A sparse union has none.
    pub fn offsets(&self) -> Option<&Buffer<i32>>
        ensures { option_map (λ b. b.now) result ≡ union_offsets_of self.now }
    {
        self.offsets.as_ref()
    }

    /// Returns the fields. Slicing does not change them.
    pub fn fields(&self) -> &[AnyArray]
        ensures { layouts_of result.now ≡ children_of self.now }
    {
        &self.fields
    }

    /// Returns the index of the field that slot `i` selects, and the index of the slot in that field.
    pub fn index(&self, i: usize) -> (usize, usize)
        requires { i < len self.now }
        ensures field { field_named (ids_of (layout_type self.now)) (get_or (types_of self.now) i (pos 0)) ≡ Some result.0 }
        ensures place { result.1 ≡ union_index (union_offsets_of self.now) (start_of self.now) i }
        ensures field_there { result.0 < count_layouts (children_of self.now) }
        ensures slot_there { result.1 < len (child_at (children_of self.now) result.0) }
        ensures picks { slot self.now i ≡ slots.pick result.0 (layout_type (child_at (children_of self.now) result.0)) (slot (child_at (children_of self.now) result.0) result.1) }
    {
        self.known();
        (self.field(i), self.place(i))
    }

    /// Returns the field at index `f`.
    pub(crate) fn field_at(&self, f: usize) -> &AnyArray
        requires { f < count_layouts (children_of self.now) }
        ensures shown { layout_of result.now ≡ child_at (children_of self.now) f }
        ensures lighter { weight (layout_of result.now) < weight self.now }
    {
        self.known();
        let fields = self.fields();
        &fields[f]
    }

    /// Returns the scalar of the slot that slot `i` selects.
    ///
    /// # Errors
    /// `Memory` if an allocation fails.
    pub fn value(&self, alloc: Global, i: usize) -> Result<AnyScalar, Error>
        requires { i < len self.now }
        ensures ok { IfOk result (λ s. IsPickOf (slot self.now i) s) }
        ensures err { IsOkUnless result (Memory alloc_error) }
    {
        let (field, place) = self.index(i);
        new_scalar(alloc, self.field_at(field), place)
    }

    // Returns the index of the field that slot `i` selects: its type id, or the last index of that id if ids are in
    // another order. A table of ids would add 128 entries to every array of any type.
    fn field(&self, i: usize) -> usize
        requires { i < len self.now }
        ensures { field_named (ids_of (layout_type self.now)) (get_or (types_of self.now) i (pos 0)) ≡ Some result }
    {
        let kind = self.types.get(i);
        if self.plain {
            return kind as usize;
        }
        match self.data_type.union_ids() {
            Some(ids) => table::last_position(ids, kind),
            None => kind as usize,
        }
    }

    // Returns the index of slot `i` in its field.
    fn place(&self, i: usize) -> usize
        requires { i < len self.now }
        ensures { result ≡ union_index (union_offsets_of self.now) (start_of self.now) i }
    {
        match &self.offsets {
            Some(offsets) => offsets.get(i) as usize,
            None => self.start + i,
        }
    }

    /// Returns the fields of a union type.
    pub fn get_fields(data_type: &DataType) -> &[Field]
        requires { physical_type (type_of data_type.now) ≡ physical.Union }
        ensures { field_list_of result.now ≡ fields_of (type_of data_type.now) }
    {
        data_type.fields()
    }

    /// Returns whether a union type is sparse: a slot selects its own index of a field, and there are no offsets.
    pub fn is_sparse(data_type: &DataType) -> bool
        requires { physical_type (type_of data_type.now) ≡ physical.Union }
        ensures { result ≡ not (is_dense (type_of data_type.now)) }
    {
        data_type.union_mode() != Some(UnionMode::Dense)
    }

    /// Returns `None`: a union has no validity.
    pub fn validity(&self) -> Option<&Bitmap>
        ensures { option_map (λ b. b.now) result ≡ validity_of self.now }
    {
        self.known();
        None
    }

    /// Returns whether slot `i` is null: always false. Each slot is a pick, possibly of a null slot.
    pub fn is_null(&self, i: usize) -> bool
        requires { i < len self.now }
        ensures slot { IsTrue result ↔ (slot self.now i ≡ slots.null) }
        ensures place { result ≡ is_null_at self.now i }
    {
        self.known();
        let _ = i;
        false
    }

    /// Returns the number of null slots: always 0.
    pub fn null_count(&self) -> usize
        ensures { result ≡ null_count self.now }
    {
        self.known();
        0
    }

    /// Keeps `n` slots from index `o`. The fields are unchanged.
    pub fn slice(&mut self, o: usize, n: usize)
        requires { o + n ≤ len self.old }
        ensures { IsSlice self.old o n self.new }
    {
        self.cut(o, n);
    }

    fn cut(&mut self, o: usize, n: usize)
        requires { o + n ≤ len self.old }
        ensures { self.new ≡ slice_layout self.old o n }
    {
        self.types.slice(o, n);
        slice_offsets(&mut self.offsets, o, n);
        self.start += o;
    }

    /// Returns the slice of `n` slots from index `o`.
    pub fn sliced(self, o: usize, n: usize) -> UnionArray
        requires { o + n ≤ len self }
        ensures { IsSlice self o n result }
    {
        let mut cut = self;
        cut.slice(o, n);
        cut
    }
}

/// Keeps `n` offsets from index `o`, if there are offsets.
fn slice_offsets(offsets: &mut Option<Buffer<i32>>, o: usize, n: usize)
    requires { OffsetsReach offsets.old (o + n) }
    ensures { offsets.new ≡ cut_of offsets.old o n }
{
    if let Some(offsets) = offsets {
        offsets.slice(o, n);
    }
}
