//! A builder of any kind.
ghost use Rattle.std.specs.Prelude.{◌≡◌, ◌≢◌, ◌≤◌, ◌<◌, ◌↔◌, ◌⊎◌, IsTrue, MatchOption, OnOk, OnErr, IfOk, IfErr, IsOkUnless, None, Some, true, false, option_map, alloc_error};
ghost use Rattle.nest_any.specs.Bare.{IsBare};
ghost use Rattle.nest_any.specs.Flat.{values_tree};
ghost use Rattle.nest_any.specs.Trees.{tree_of};
ghost use Rattle.nest_any.specs.Words.{FailFirst, HasCompleteChildren, IsComplete, Memory, Overflow, Pass, RowAdded, builder_len, builder_type, truncate_builder, emptied, empty_lists, is_flat, layout_of, layout_type, lists_checks, nested_checks, nested_over, nulls_appended, nulls_pass, own_slots, physical_type, reserve_passes, row_checks, slots_of, type_of};

use crate::children::add_null_to;
use crate::dictionary::AnyMutableDictionary;
use crate::flat::AnyMutableFlat;
use crate::lists::ListBuilder;
use crate::rows::TypedRows;
use crate::struct_::MutableStructArray;
use nest_array::AnyArray;
use nest_build::array::{MutableArray, shared};
use nest_build::null::MutableNullArray;
use nest_flat::plain::Plain;
use nest_memory::bitmap::mutable::MutableBitmap;
use nest_memory::datatypes::DataType;
use nest_memory::error::{ArgumentError, Error};
use std::alloc::Global;
use std::rc::Rc;

/// A builder, in the variant of its kind. All list kinds share one variant: 32-bit offsets, 64-bit offsets, fixed-size.
#[cycle(builder)]
#[derive(Drop)]
pub enum AnyMutableArray {
    Null(MutableNullArray),
    Flat(AnyMutableFlat),
    Dictionary(AnyMutableDictionary),
    List(ListBuilder),
    Struct(MutableStructArray),
}

// Evaluates the first expression for null, flat and dictionary builders, the second for list and struct builders.
macro_rules! each_kind {
    ($any:expr, $flat:ident => $leaf:expr, $nested:ident => $node:expr) => {
        match $any {
            AnyMutableArray::Null($flat) => $leaf,
            AnyMutableArray::Flat($flat) => $leaf,
            AnyMutableArray::Dictionary($flat) => $leaf,
            AnyMutableArray::List($nested) => $node,
            AnyMutableArray::Struct($nested) => $node,
        }
    };
}

impl AnyMutableArray {
    ghost use Rattle.std.specs.Borrow.{LendsIf, sem};
    ghost use Rattle.nest_any.specs.contracts.any.AnyMutableArray.{the_row};
    ghost use Rattle.nest_any.specs.contracts.lists.ListBuilder.{the_row as list_row};
    ghost use Rattle.nest_any.specs.contracts.struct_.MutableStructArray.{the_row as struct_row};
    ghost use Rattle.nest_any.specs.declared.any.AnyMutableArray.TheVariants.{List, Struct};
    ghost use Rattle.nest_any.specs.Lent.{as_list, as_struct, child_builder};

    /// Returns a builder without rows, of a list or dictionary type over an empty child. Dictionary values are flat.
    ///
    /// # Errors
    /// The first of:
    /// - `WrongType` if the type is not a list, and not a dictionary of flat values other than nulls;
    /// - `ZeroSize` if the type is a fixed-size list of size 0;
    /// - `ChildNotEmpty` if the child has rows;
    /// - `ChildType` if the type of the child differs from its field's. For a dictionary, logical types are compared.
    ///
    /// `Memory` if an allocation fails.
    pub fn try_nested(
        alloc: Global,
        data_type: DataType,
        child: AnyMutableArray,
    ) -> Result<AnyMutableArray, Error>
        requires { IsComplete (tree_of child) }
        ensures ok { IfOk result (λ b. tree_of b ≡ nested_over (type_of data_type) (tree_of child)) }
        ensures passed { IfOk result (λ b. Pass (nested_checks (type_of data_type) (tree_of child))) }
        ensures cause { IfErr result (λ e. (e ≡ Memory alloc_error) ⊎ FailFirst e (nested_checks (type_of data_type) (tree_of child))) }
    {
        match data_type.key_type() {
            Some(keys) => match AnyMutableDictionary::try_new(alloc, keys, data_type, child) {
                Ok(keyed) => Ok(AnyMutableArray::Dictionary(keyed)),
                Err(error) => Err(error),
            },
            None => match AnyMutableArray::lists(alloc, data_type, child) {
                Ok(lists) => Ok(AnyMutableArray::List(lists)),
                Err(error) => Err(error),
            },
        }
    }

    // The same for lists.
    fn lists(
        alloc: Global,
        data_type: DataType,
        child: AnyMutableArray,
    ) -> Result<ListBuilder, Error>
        ensures ok { IfOk result (λ b. b ≡ empty_lists (physical_type (type_of data_type)) (type_of data_type) (tree_of child)) }
        ensures passed { IfOk result (λ b. Pass (lists_checks (type_of data_type) (tree_of child))) }
        ensures cause { IfErr result (λ e. (e ≡ Memory alloc_error) ⊎ FailFirst e (lists_checks (type_of data_type) (tree_of child))) }
    {
        let count = child.len();
        match TypedRows::try_new(alloc, data_type, child.data_type(), count) {
            Ok(rows) => ListBuilder::boxed(alloc, rows, child),
            Err(error) => {
                drop(child);
                Err(error)
            }
        }
    }

    // The builder of flat values, `None` for nulls and for other kinds.
    pub(crate) fn into_flat(self) -> Option<AnyMutableFlat>
        ensures { MatchOption result (is_flat (physical_type (builder_type (tree_of self))) ≡ false) (λ b. values_tree b ≡ tree_of self) }
    {
        match self {
            AnyMutableArray::Flat(values) => Some(values),
            AnyMutableArray::Null(nulls) => {
                nulls.known();
                drop(nulls);
                None
            }
            AnyMutableArray::Dictionary(keyed) => {
                keyed.known();
                drop(keyed);
                None
            }
            AnyMutableArray::List(lists) => {
                lists.known();
                drop(lists);
                None
            }
            AnyMutableArray::Struct(records) => {
                records.known();
                drop(records);
                None
            }
        }
    }

    /// Returns whether the children are complete; then a row of the pending items may be added. True for other kinds
    /// than lists and structs.
    pub fn has_complete_children(&self) -> bool
        ensures { IsTrue result ↔ HasCompleteChildren (tree_of self.now) }
    {
        match self {
            AnyMutableArray::List(lists) => lists.has_complete_children(),
            AnyMutableArray::Struct(records) => records.has_complete_children(),
            _ => true,
        }
    }

    /// Returns the list builder, `None` for other kinds. `ListBuilder::child` borrows its child.
    pub fn as_list_mut(&mut self) -> Option<&mut ListBuilder>
        ensures* writes_back { sem 𝓛 (LendsIf the_row list_row self.entry result List self.old) }
        ensures value { option_map (λ lists. lists.now) result ≡ as_list self.old }
    {
        match self {
            AnyMutableArray::List(lists) => Some(lists),
            _ => None,
        }
    }

    /// Returns the struct builder, `None` for other kinds. `MutableStructArray::value` and `mut_values` borrow its
    /// children.
    pub fn as_struct_mut(&mut self) -> Option<&mut MutableStructArray>
        ensures* writes_back { sem 𝓛 (LendsIf the_row struct_row self.entry result Struct self.old) }
        ensures value { option_map (λ records. records.now) result ≡ as_struct self.old }
    {
        match self {
            AnyMutableArray::Struct(records) => Some(records),
            _ => None,
        }
    }

    /// Returns child 0 of a list or child `i` of a struct, `None` otherwise. The items of a row may be pushed into it
    /// before the row is added. The contracts of `as_list_mut` and `as_struct_mut` also state the builder after that.
    pub fn child(&mut self, i: usize) -> Option<&mut AnyMutableArray>
        ensures { option_map (λ c. tree_of c.now) result ≡ child_builder i (tree_of self.old) }
    {
        match self {
            AnyMutableArray::List(lists) => lists.child_at(i),
            AnyMutableArray::Struct(records) => records.child_at(i),
            _ => None,
        }
    }

    /// Appends a row of the pending items in the children. If `valid` is false, the row is null, over these items.
    ///
    /// # Errors
    /// The first of:
    /// - `ItemType` if the builder is not of lists or structs.
    /// - `Incomplete` if a child has another type than its field or too few rows; for a struct also if it has too many.
    /// - `ItemSize` if a fixed-size list has too many pending items.
    /// - `Overflow` if the end of a list exceeds the largest offset.
    ///
    /// `Memory` if an allocation fails. After an error the items stay pending.
    pub fn push_row(&mut self, valid: bool) -> Result<(), Error>
        requires { HasCompleteChildren (tree_of self.old) }
        ensures ok { OnOk result (RowAdded valid (tree_of self.old) (tree_of self.new)) }
        ensures passed { OnOk result (Pass (row_checks (tree_of self.old))) }
        ensures err { OnErr result (tree_of self.new ≡ tree_of self.old) }
        ensures cause { IfErr result (λ e. (e ≡ Memory alloc_error) ⊎ FailFirst e (row_checks (tree_of self.old))) }
    {
        match self {
            AnyMutableArray::List(lists) => lists.push_row(valid),
            AnyMutableArray::Struct(records) => records.push(valid),
            _ => Err(Error::InvalidArgumentError(ArgumentError::ItemType)),
        }
    }

    #[cycle(complete)]
    pub(crate) fn complete(&self) -> bool
        ensures { IsTrue result ↔ IsComplete (tree_of self.now) }
    {
        match self {
            AnyMutableArray::List(lists) => lists.complete(),
            AnyMutableArray::Struct(records) => records.complete(),
            AnyMutableArray::Dictionary(keyed) => MutableArray::is_complete(keyed),
            _ => true,
        }
    }

    #[cycle(null)]
    pub(crate) fn add_null(&mut self) -> Result<(), Error>
        requires { IsComplete (tree_of self.old) }
        ensures ok { OnOk result (tree_of self.new ≡ nulls_appended 1 (tree_of self.old)) }
        ensures room { OnOk result (nulls_pass 1 (tree_of self.old) ≡ false) }
        ensures err { OnErr result (tree_of self.new ≡ tree_of self.old) }
        ensures cause { IfErr result (λ e. (e ≡ Memory alloc_error) ⊎ ((e ≡ Overflow) × (nulls_pass 1 (tree_of self.old) ≡ true))) }
    {
        each_kind!(self, flat => add_null_to(flat), nested => nested.add_null())
    }

    #[cycle(cut)]
    pub(crate) fn cut(&mut self, n: usize)
        requires complete { IsComplete (tree_of self.old) }
        requires within { n ≤ builder_len (tree_of self.old) }
        ensures { tree_of self.new ≡ truncate_builder (tree_of self.old) n }
    {
        each_kind!(self, flat => MutableArray::truncate(flat, n), nested => nested.cut(n))
    }

    #[cycle(room)]
    pub(crate) fn room(&mut self, additional: usize) -> Result<(), Error>
        ensures same { tree_of self.new ≡ tree_of self.old }
        ensures room { OnOk result (reserve_passes additional (tree_of self.old) ≡ false) }
        ensures cause { IfErr result (λ e. (e ≡ Memory alloc_error) ⊎ ((e ≡ Overflow) × (reserve_passes additional (tree_of self.old) ≡ true))) }
    {
        each_kind!(self, flat => MutableArray::reserve(flat, additional), nested => nested.room(additional))
    }

    #[cycle(shrink)]
    pub(crate) fn shrink(&mut self) -> Result<(), Error>
        ensures same { tree_of self.new ≡ tree_of self.old }
        ensures memory { IsOkUnless result (Memory alloc_error) }
    {
        each_kind!(self, flat => MutableArray::shrink_to_fit(flat), nested => nested.shrink())
    }

    #[tactic(auto, using(crate::proofs::Over::emptied_none))]
    #[cycle(frozen)]
    pub(crate) fn frozen(&mut self) -> Result<AnyArray, Error>
        requires { IsComplete (tree_of self.old) }
        ensures slots { IfOk result (λ a. slots_of (layout_of a) ≡ own_slots (tree_of self.old)) }
        ensures same_type { IfOk result (λ a. layout_type (layout_of a) ≡ builder_type (tree_of self.old)) }
        ensures emptied { tree_of self.new ≡ emptied (tree_of self.old) }
        ensures validity { IsBare self.new }
        ensures memory { IsOkUnless result (Memory alloc_error) }
    {
        each_kind!(self, flat => MutableArray::as_box(flat), nested => nested.frozen())
    }
}

impl AnyMutableArray {
    /// Returns the data type and the number of rows, with one match on the kind.
    pub(crate) fn typed_len(&self) -> (&DataType, usize)
        ensures data_type { type_of result.0.now ≡ builder_type (tree_of self.now) }
        ensures len { result.1 ≡ builder_len (tree_of self.now) }
    {
        match self {
            AnyMutableArray::Null(builder) => {
                (MutableArray::data_type(builder), MutableArray::len(builder))
            }
            AnyMutableArray::Flat(builder) => builder.typed_len(),
            AnyMutableArray::Dictionary(builder) => (builder.data_type(), builder.len()),
            AnyMutableArray::List(builder) => (builder.data_type(), builder.len()),
            AnyMutableArray::Struct(builder) => (builder.data_type(), builder.len()),
        }
    }
}

impl MutableArray for AnyMutableArray {
    ghost model = { tree_of };

    ghost bare = { IsBare };

    fn data_type(&self) -> &DataType {
        each_kind!(self, flat => MutableArray::data_type(flat), nested => nested.data_type())
    }

    fn len(&self) -> usize {
        each_kind!(self, flat => MutableArray::len(flat), nested => nested.len())
    }

    fn is_empty(&self) -> bool {
        self.len() == 0
    }

    fn validity(&self) -> Option<&MutableBitmap> {
        each_kind!(self, flat => MutableArray::validity(flat), nested => nested.validity())
    }

    fn is_valid(&self, i: usize) -> bool {
        each_kind!(self, flat => MutableArray::is_valid(flat, i), nested => nested.is_valid(i))
    }

    fn is_complete(&self) -> bool {
        self.complete()
    }

    fn holds(&self, i: usize, value: &Plain<'_>) -> bool {
        each_kind!(self, flat => MutableArray::holds(flat, i, value), nested => {
            nested.known();
            false
        })
    }

    fn push_null(&mut self) -> Result<(), Error> {
        self.add_null()
    }

    fn try_push_plain(&mut self, value: Option<Plain<'_>>) -> Result<(), Error> {
        match value {
            None => self.add_null(),
            Some(value) => each_kind!(
                self,
                flat => MutableArray::try_push_plain(flat, Some(value)),
                nested => {
                    nested.known();
                    Err(Error::InvalidArgumentError(ArgumentError::ItemType))
                }
            ),
        }
    }

    fn truncate(&mut self, n: usize) {
        self.cut(n)
    }

    fn reserve(&mut self, additional: usize) -> Result<(), Error> {
        self.room(additional)
    }

    fn shrink_to_fit(&mut self) -> Result<(), Error> {
        self.shrink()
    }

    fn as_box(&mut self) -> Result<AnyArray, Error> {
        if !self.complete() {
            return Err(Error::InvalidArgumentError(ArgumentError::Incomplete));
        }
        self.frozen()
    }

    fn as_arc(&mut self, alloc: Global) -> Result<Rc<AnyArray>, Error> {
        shared(self.as_box(), alloc)
    }
}
