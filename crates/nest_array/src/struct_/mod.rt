//! Struct arrays.
mod copies;
mod nulls;

ghost use Rattle.std.specs.Prelude.{◌≡◌, ◌+◌, ◌≤◌, ◌<◌, ◌↔◌, IsTrue, IfOk, IsOkUnless, MatchResult, MatchOption, option_map, length, alloc_error};
ghost use Rattle.nest_memory.specs.TypeOf.{field_list_of};
ghost use Rattle.nest_memory.specs.TypeTree.{fields_of};
ghost use Rattle.nest_memory.specs.declared.datatypes.physical_type.PhysicalType.TheVariants as physical;
ghost use Rattle.nest_model.specs.Accessors.{children_of};
ghost use Rattle.nest_model.specs.Slice.{slice_layouts};
ghost use Rattle.nest_model.specs.Fits.{EachType, EachLen, EachCovers};
ghost use Rattle.nest_model.specs.Layout as layouts;
ghost use Rattle.nest_model.specs.Meaning.{first_len};
ghost use Rattle.nest_model.specs.Slot as slots;
ghost use Rattle.nest_array.specs.Words.{FirstError, Fits, IsSlice, Memory, TopFits, sublist, slice_layout, is_null_at, layout_type, layouts_of, len, null_count, physical_type, slot, type_of, validity_of};

use crate::any::AnyArray;
use nest_flat::validity;
use nest_memory::bitmap::immutable::Bitmap;
use nest_memory::datatypes::DataType;
use nest_memory::datatypes::field::Field;
use nest_memory::datatypes::physical_type::PhysicalType;
use nest_memory::error::{Error, SpecError};
use std::alloc::Global;
use std::marker::Model;

/// An array of structs, with one child per field: the Struct Layout of the Arrow format.
#[cycle(array)]
#[derive(Drop)]
pub struct StructArray {
    data_type: DataType,
    count: usize,
    values: Vec<AnyArray>,
    validity: Option<Bitmap>,
}

impl Model for StructArray {
    ghost use Rattle.nest_model.specs.Layout.{Layout, weight};
    ghost use Rattle.nest_model.specs.LayoutCode.{coded_layout};

    ghost Value = { Layout };

    ghost coded = { coded_layout };

    ghost use Rattle.std.specs.Prelude.{◌≡◌};
    ghost use Rattle.nest_model.specs.Array.{TopFits};
    ghost use Rattle.nest_model.specs.Meaning.{first_len};
    ghost use Rattle.nest_array.specs.Seen.{layouts_of};
    ghost use Rattle.nest_array.specs.SeenStruct.{struct_seen};

    ghost view = { struct_seen };

    ghost invariant = { λ a. TopFits (struct_seen a) × (a.count ≡ first_len (layouts_of a.values.items)) };

    ghost size = { weight };

    ghost use Rattle.std.proofs.Common.{arith};
    ghost use Rattle.nest_array.specs.Falls.{most-size};

    ghost size_decreases = { λ a h. Prim.omega (arith, most-size a.values.items) };
}

impl StructArray {
    /// Returns the array with these parts.
    ///
    /// # Errors
    /// The first that applies:
    /// - `WrongType` if the physical type is not `Struct`.
    /// - `NoFields` if the data type has no fields.
    /// - `FieldCount` if the number of children is not the number of fields.
    /// - `ChildType` if the data type of a child is not that of its field.
    /// - `ChildLength` if a child has another length than the first.
    /// - `ValidityLength` if the validity does not have one bit per slot.
    pub fn try_new(
        data_type: DataType,
        values: Vec<AnyArray>,
        validity: Option<Bitmap>,
    ) -> Result<StructArray, Error>
        ensures { let parts = layouts.struct (type_of data_type) (layouts_of values.items) validity in
            MatchResult result (λ a. Fits parts × (a ≡ parts)) (λ e. FirstError e parts) }
    {
        if let Some(error) = first_error(&data_type, &values, &validity) {
            drop(validity);
            drop(values);
            drop(data_type);
            return Err(error);
        }
        let count = first_count(&values);
        Ok(StructArray {
            data_type,
            count,
            values,
            validity,
        })
    }

    /// Returns the array with these parts.
    pub fn new(data_type: DataType, values: Vec<AnyArray>, validity: Option<Bitmap>) -> StructArray
        requires { Fits (layouts.struct (type_of data_type) (layouts_of values.items) validity) }
        ensures { result ≡ layouts.struct (type_of data_type) (layouts_of values.items) validity }
    {
        let count = first_count(&values);
        StructArray {
            data_type,
            count,
            values,
            validity,
        }
    }

    /// States the invariant of every such array. It does nothing at run time.
    pub fn known(&self)
        ensures fits { TopFits self.now }
        ensures kind { self.now ≡ layouts.struct (layout_type self.now) (children_of self.now) (validity_of self.now) }
    {
        let _ = &self.data_type;
    }

    /// Returns the number of slots.
    pub fn len(&self) -> usize
        ensures { result ≡ len self.now }
    {
        self.count
    }

    /// Returns the data type.
    pub fn data_type(&self) -> &DataType
        ensures { type_of result.now ≡ layout_type self.now }
    {
        &self.data_type
    }

    /// Returns the children, one per field.
    pub fn values(&self) -> &[AnyArray]
        ensures { layouts_of result.now ≡ children_of self.now }
    {
        &self.values
    }

    /// Returns the fields of the data type.
    pub fn fields(&self) -> &[Field]
        ensures { field_list_of result.now ≡ fields_of (layout_type self.now) }
    {
        self.data_type.fields()
    }

    /// Returns the fields of a struct type.
    pub fn get_fields(data_type: &DataType) -> &[Field]
        requires { physical_type (type_of data_type.now) ≡ physical.Struct }
        ensures { field_list_of result.now ≡ fields_of (type_of data_type.now) }
    {
        data_type.fields()
    }

    /// Returns the fields, the children and the validity.
    pub fn into_data(self) -> (Vec<Field>, Vec<AnyArray>, Option<Bitmap>)
        ensures fields { field_list_of result.0.items ≡ fields_of (layout_type self) }
        ensures children { layouts_of result.1.items ≡ children_of self }
        ensures validity { result.2 ≡ validity_of self }
    {
        let StructArray {
            data_type,
            count: _,
            values,
            validity,
        } = self;
        match data_type.into_fields() {
            Some(fields) => (fields, values, validity),
            None => unreachable!(),
        }
    }

    /// Returns the validity, one bit per slot. Without a validity all slots are valid.
    pub fn validity(&self) -> Option<&Bitmap>
        ensures { option_map (λ b. b.now) result ≡ validity_of self.now }
    {
        self.validity.as_ref()
    }

    /// Returns whether slot `i` is null.
    pub fn is_null(&self, i: usize) -> bool
        requires { i < len self.now }
        ensures slot { IsTrue result ↔ (slot self.now i ≡ slots.null) }
        ensures place { result ≡ is_null_at self.now i }
    {
        !validity::is_valid(&self.validity, i)
    }

    /// Returns the number of null slots.
    pub fn null_count(&self) -> usize
        ensures { result ≡ null_count self.now }
    {
        validity::null_count(&self.validity)
    }

    /// Keeps `n` slots from index `o`.
    pub fn slice(&mut self, o: usize, n: usize)
        requires { o + n ≤ len self.old }
        ensures { IsSlice self.old o n self.new }
    {
        self.cut(o, n);
    }

    #[cycle(cut)]
    pub(crate) fn cut(&mut self, o: usize, n: usize)
        requires { o + n ≤ len self.old }
        ensures { self.new ≡ slice_layout self.old o n }
    {
        cut_all(&mut self.values, o, n);
        self.count = n;
        validity::slice(&mut self.validity, o, n);
    }

    /// Returns the slice of `n` slots from index `o`.
    pub fn sliced(self, o: usize, n: usize) -> StructArray
        requires { o + n ≤ len self }
        ensures { IsSlice self o n result }
    {
        let mut cut = self;
        cut.slice(o, n);
        cut
    }
}

/// Returns the error of the first check of the parts that fails.
fn first_error(
    data_type: &DataType,
    values: &[AnyArray],
    validity: &Option<Bitmap>,
) -> Option<Error>
    ensures { let parts = layouts.struct (type_of data_type.now) (layouts_of values.now) validity.now in
        MatchOption result (Fits parts) (λ e. FirstError e parts) }
{
    if data_type.to_physical_type() != PhysicalType::Struct {
        return Some(Error::OutOfSpec(SpecError::WrongType));
    }
    let fields = data_type.fields();
    if fields.is_empty() {
        return Some(Error::OutOfSpec(SpecError::NoFields));
    }
    if fields.len() != values.len() {
        return Some(Error::OutOfSpec(SpecError::FieldCount));
    }
    if !have_types(fields, values) {
        return Some(Error::OutOfSpec(SpecError::ChildType));
    }
    let count = first_count(values);
    if !have_len(values, count) {
        return Some(Error::OutOfSpec(SpecError::ChildLength));
    }
    if !validity::fits(validity, count) {
        return Some(Error::OutOfSpec(SpecError::ValidityLength));
    }
    None
}

/// Returns whether each child has the data type of its field.
pub(crate) fn have_types(fields: &[Field], children: &[AnyArray]) -> bool
    requires { length fields.now ≡ length children.now }
    ensures { IsTrue result ↔ EachType (field_list_of fields.now) (layouts_of children.now) }
{
    for i in 0..fields.len() {
        let field = &fields[i];
        let same = *field.data_type() == *children[i].data_type();
        if !same {
            return false;
        }
    }
    true
}

/// Returns whether each array has `n` slots.
pub fn have_len(arrays: &[AnyArray], n: usize) -> bool
    ensures { IsTrue result ↔ EachLen (layouts_of arrays.now) n }
{
    for i in 0..arrays.len() {
        if arrays[i].len() != n {
            return false;
        }
    }
    true
}

/// Returns the number of slots of the first child, or 0 without children.
fn first_count(children: &[AnyArray]) -> usize
    ensures { result ≡ first_len (layouts_of children.now) }
{
    match children {
        [] => 0,
        [first, ..] => first.len(),
    }
}

/// Keeps `n` slots of each child from index `o`.
#[cycle(cut)]
fn cut_all(children: &mut [AnyArray], o: usize, n: usize)
    requires { EachCovers (layouts_of children.old) (o + n) }
    ensures { layouts_of children.new ≡ slice_layouts (layouts_of children.old) o n }
{
    for i in 0..children.len() {
        children[i].cut(o, n);
    }
}

/// Returns copies of the children that share their memory.
#[cycle(clone)]
pub(crate) fn clone_all(alloc: Global, children: &[AnyArray]) -> Result<Vec<AnyArray>, Error>
    ensures ok { IfOk result (λ v. layouts_of v.items ≡ layouts_of children.now) }
    ensures err { IsOkUnless result (Memory alloc_error) }
{
    let mut copies = Vec::with_capacity(alloc, children.len())?;
    for i in 0..children.len() {
        match children[i].clone(alloc) {
            Ok(copy) => copies.push_reserved(copy),
            Err(error) => return Err(error),
        }
    }
    Ok(copies)
}
