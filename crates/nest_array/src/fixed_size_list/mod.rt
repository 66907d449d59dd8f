//! Fixed-size list arrays.
mod copies;
mod nulls;

ghost use Rattle.std.specs.Prelude.{◌≡◌, ◌+◌, ◌*◌, ◌≤◌, ◌<◌, ◌↔◌, IsTrue, IfOk, IsOkUnless, MatchResult, MatchOption, option_map, alloc_error};
ghost use Rattle.nest_model.specs.Layout as layouts;
ghost use Rattle.nest_model.specs.Slot as slots;
ghost use Rattle.nest_flat.specs.FlatParts.{optional};
ghost use Rattle.nest_array.specs.Types.{default_fixed_size_list_type};
ghost use Rattle.nest_array.specs.Words.{FirstError, Fits, IsSlice, Memory, RefusesOrMemory, TopFits, child_of, sublist, slice_layout, is_null_at, layout_of, layout_type, len, null_count, seal, size_of, slot, slots_of, type_of, validity_of, where_valid, window_parts, window_slots};

use crate::any::AnyArray;
use crate::types::{default_child, has_items};
use crate::window::Window;
use nest_flat::validity;
use nest_memory::bitmap::immutable::Bitmap;
use nest_memory::datatypes::DataType;
use nest_memory::datatypes::physical_type::PhysicalType;
use nest_memory::error::{Error, SpecError};
use std::alloc::Global;
use std::marker::Model;

/// An array of lists of one length: the Fixed-Size List Layout of the Arrow format.
#[cycle(array)]
#[derive(Drop)]
pub struct FixedSizeListArray {
    data_type: DataType,
    size: usize,
    count: usize,
    values: Box<AnyArray>,
    validity: Option<Bitmap>,
}

impl Model for FixedSizeListArray {
    ghost use Rattle.nest_model.specs.Layout.{Layout, weight};
    ghost use Rattle.nest_model.specs.LayoutCode.{coded_layout};

    ghost Value = { Layout };

    ghost coded = { coded_layout };

    ghost use Rattle.std.specs.Prelude.{◌≡◌};
    ghost use Rattle.nest_memory.specs.TypeOf.{type_of};
    ghost use Rattle.nest_memory.specs.TypeTree.{size_of};
    ghost use Rattle.nest_model.specs.Array.{TopFits};
    ghost use Rattle.nest_model.specs.Meaning.{len};
    ghost use Rattle.nest_array.specs.SeenFixedSizeList.{fixed_size_list_seen};

    ghost view = { fixed_size_list_seen };

    ghost invariant = { λ a. TopFits (fixed_size_list_seen a) × ((a.size ≡ size_of (type_of a.data_type)) × (a.count ≡ len (fixed_size_list_seen a))) };

    ghost size = { weight };

    ghost use Rattle.std.proofs.Common.{arith};
    ghost use Rattle.nest_array.specs.Falls.{deep-size};

    ghost size_decreases = { λ a h. Prim.omega (arith, deep-size a.values.value) };
}

impl FixedSizeListArray {
    /// Returns the array with these parts.
    ///
    /// # Errors
    /// The first that applies:
    /// - `WrongType` if the physical type is not `FixedSizeList`.
    /// - `ZeroSize` if the size in the data type is 0.
    /// - `ChildType` if the data type of `values` is not that of the field.
    /// - `NotMultiple` if the length of `values` is not a multiple of the size.
    /// - `ValidityLength` if the validity does not have one bit per slot.
    /// - `Memory` if an allocation fails.
    pub fn try_new(
        alloc: Global,
        data_type: DataType,
        values: AnyArray,
        validity: Option<Bitmap>,
    ) -> Result<FixedSizeListArray, Error>
        ensures { let parts = layouts.fixed_size_list (type_of data_type) (layout_of values) validity in
            MatchResult result (λ a. Fits parts × (a ≡ parts)) (λ e. RefusesOrMemory e parts) }
    {
        if let Some(error) = first_error(&data_type, &values, &validity) {
            drop(validity);
            drop(values);
            drop(data_type);
            return Err(error);
        }
        FixedSizeListArray::of(alloc, data_type, values, validity)
    }

    /// Returns the array with these parts.
    ///
    /// # Errors
    /// `Memory` if an allocation fails.
    pub fn new(
        alloc: Global,
        data_type: DataType,
        values: AnyArray,
        validity: Option<Bitmap>,
    ) -> Result<FixedSizeListArray, Error>
        requires { Fits (layouts.fixed_size_list (type_of data_type) (layout_of values) validity) }
        ensures ok { IfOk result (λ a. a ≡ layouts.fixed_size_list (type_of data_type) (layout_of values) validity) }
        ensures err { IsOkUnless result (Memory alloc_error) }
    {
        FixedSizeListArray::of(alloc, data_type, values, validity)
    }

    // Returns the array with parts that are already checked.
    fn of(
        alloc: Global,
        data_type: DataType,
        values: AnyArray,
        validity: Option<Bitmap>,
    ) -> Result<FixedSizeListArray, Error>
        requires { TopFits (layouts.fixed_size_list (type_of data_type) (layout_of values) validity) }
        ensures ok { IfOk result (λ a. a ≡ layouts.fixed_size_list (type_of data_type) (layout_of values) validity) }
        ensures err { IsOkUnless result (Memory alloc_error) }
    {
        let size = data_type.size().unwrap_or(0);
        let count = values.len() / size;
        match Box::new(alloc, values) {
            Ok(values) => Ok(FixedSizeListArray {
                data_type,
                size,
                count,
                values,
                validity,
            }),
            Err(error) => {
                drop(validity);
                drop(data_type);
                Err(error.into())
            }
        }
    }

    /// Returns the type of lists of `size` items. Their field is nullable and named "item".
    ///
    /// # Errors
    /// `Memory` if an allocation fails.
    pub fn default_datatype(
        alloc: Global,
        data_type: DataType,
        size: usize,
    ) -> Result<DataType, Error>
        ensures ok { IfOk result (λ t. type_of t ≡ default_fixed_size_list_type (type_of data_type) size) }
        ensures err { IsOkUnless result (Memory alloc_error) }
    {
        let field = default_child(alloc, data_type)?;
        Ok(DataType::FixedSizeList(Box::new(alloc, field)?, size))
    }

    /// States the invariant of every such array. It does nothing at run time.
    pub fn known(&self)
        ensures fits { TopFits self.now }
        ensures kind { self.now ≡ layouts.fixed_size_list (layout_type self.now) (child_of self.now) (validity_of self.now) }
    {
        let _ = &self.data_type;
    }

    /// Returns the number of slots.
    pub fn len(&self) -> usize
        ensures { result ≡ len self.now }
    {
        self.count
    }

    /// Returns the data type.
    pub fn data_type(&self) -> &DataType
        ensures { type_of result.now ≡ layout_type self.now }
    {
        &self.data_type
    }

    /// Returns the number of items per slot.
    pub fn size(&self) -> usize
        ensures size { result ≡ size_of (layout_type self.now) }
        ensures some { 0 < result }
    {
        self.size
    }

    /// Returns the items of all slots.
    pub fn values(&self) -> &AnyArray
        ensures { layout_of result.now ≡ child_of self.now }
    {
        &self.values
    }

    /// Returns the validity, one bit per slot. Without a validity all slots are valid.
    pub fn validity(&self) -> Option<&Bitmap>
        ensures { option_map (λ b. b.now) result ≡ validity_of self.now }
    {
        self.validity.as_ref()
    }

    /// Returns whether slot `i` is null.
    pub fn is_null(&self, i: usize) -> bool
        requires { i < len self.now }
        ensures slot { IsTrue result ↔ (slot self.now i ≡ slots.null) }
        ensures place { result ≡ is_null_at self.now i }
    {
        !validity::is_valid(&self.validity, i)
    }

    /// Returns the number of null slots.
    pub fn null_count(&self) -> usize
        ensures { result ≡ null_count self.now }
    {
        validity::null_count(&self.validity)
    }

    /// Returns the offset of the items of slot `i`.
    pub(crate) fn start(&self, i: usize) -> usize
        requires { i < len self.now }
        ensures start { result ≡ i * size_of (layout_type self.now) }
        ensures within { result + size_of (layout_type self.now) ≤ len (child_of self.now) }
    {
        let _items = self.values.len();
        i * self.size
    }

    /// Returns the items of slot `i`, even if the slot is null.
    ///
    /// # Errors
    /// `Memory` if an allocation fails.
    pub fn value(&self, alloc: Global, i: usize) -> Result<AnyArray, Error>
        requires { i < len self.now }
        ensures parts { IfOk result (λ a. layout_of a ≡ slice_layout (child_of self.now) (i * size_of (layout_type self.now)) (size_of (layout_type self.now))) }
        ensures items { IfOk result (λ a. slot self.now i ≡ where_valid (validity_of self.now) i (slots.list (seal (slots_of (layout_of a))))) }
        ensures err { IsOkUnless result (Memory alloc_error) }
    {
        let start = self.start(i);
        self.values.part(alloc, start, self.size)
    }

    /// Returns the items of slot `i`, or `None` if the slot is null.
    ///
    /// # Errors
    /// `Memory` if an allocation fails.
    pub fn get(&self, alloc: Global, i: usize) -> Result<Option<AnyArray>, Error>
        requires { i < len self.now }
        ensures ok { IfOk result (λ items. optional (λ a. slots.list (seal (slots_of (layout_of a)))) items ≡ slot self.now i) }
        ensures err { IsOkUnless result (Memory alloc_error) }
    {
        if self.is_null(i) {
            return Ok(None);
        }
        Ok(Some(self.value(alloc, i)?))
    }

    /// Returns a window over the items of slot `i`, even if the slot is null.
    pub fn window(&self, i: usize) -> Window<'_>
        requires { i < len self.now }
        ensures parts { result ≡ window_parts (child_of self.now) (i * size_of (layout_type self.now)) (size_of (layout_type self.now)) }
        ensures items { slot self.now i ≡ where_valid (validity_of self.now) i (slots.list (seal (window_slots result))) }
    {
        let start = self.start(i);
        let values: &AnyArray = &self.values;
        Window::new(values, start, self.size)
    }

    /// Keeps `n` slots from index `o`.
    pub fn slice(&mut self, o: usize, n: usize)
        requires { o + n ≤ len self.old }
        ensures { IsSlice self.old o n self.new }
    {
        self.cut(o, n);
    }

    #[cycle(cut)]
    pub(crate) fn cut(&mut self, o: usize, n: usize)
        requires { o + n ≤ len self.old }
        ensures { self.new ≡ slice_layout self.old o n }
    {
        let _items = self.values.len();
        self.values.cut(o * self.size, n * self.size);
        self.count = n;
        validity::slice(&mut self.validity, o, n);
    }

    /// Returns the slice of `n` slots from index `o`.
    pub fn sliced(self, o: usize, n: usize) -> FixedSizeListArray
        requires { o + n ≤ len self }
        ensures { IsSlice self o n result }
    {
        let mut cut = self;
        cut.slice(o, n);
        cut
    }
}

/// Returns the error of the first check of the parts that fails.
fn first_error(data_type: &DataType, values: &AnyArray, validity: &Option<Bitmap>) -> Option<Error>
    ensures { let parts = layouts.fixed_size_list (type_of data_type.now) (layout_of values.now) validity.now in
        MatchOption result (Fits parts) (λ e. FirstError e parts) }
{
    if data_type.to_physical_type() != PhysicalType::FixedSizeList {
        return Some(Error::OutOfSpec(SpecError::WrongType));
    }
    let size = data_type.size().unwrap_or(0);
    if size == 0 {
        return Some(Error::OutOfSpec(SpecError::ZeroSize));
    }
    if !has_items(data_type, values.data_type()) {
        return Some(Error::OutOfSpec(SpecError::ChildType));
    }
    let items = values.len();
    if items % size != 0 {
        return Some(Error::OutOfSpec(SpecError::NotMultiple));
    }
    if !validity::fits(validity, items / size) {
        return Some(Error::OutOfSpec(SpecError::ValidityLength));
    }
    None
}
