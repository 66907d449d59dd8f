//! The rows of a list builder of any kind, with its data type and without its items.
ghost use Rattle.std.specs.Prelude.{◌≡◌, ◌≢◌, ◌≤◌, ◌<◌, ◌↔◌, ◌⊎◌, IsNone, IsTrue, OnOk, OnErr, IfOk, IfErr, IsOkUnless, MatchOption, Some, None, true, false, ◌+◌, ◌++◌, ◌∷◌, [], option_map, alloc_error};
ghost use Rattle.nest_model.specs.BuilderTree as builders;
ghost use Rattle.nest_model.specs.Slot as slots;
ghost use Rattle.nest_any.specs.Refusals.{IsEmptyOver};
ghost use Rattle.nest_any.specs.TypedRows.{OverChildren};
ghost use Rattle.nest_any.specs.Words.{BuilderTree, FailFirst, Fitting, HasItems, HasSize, HasCompleteChildren, IsListBuilder, IsOfLists, IsComplete, Memory, Overflow, Pass, ShowsNulls, with_row, builder_len, builder_type, child_nulls, truncate_builder, emptied, empty_lists, items_needed, largest_length, layout_of, layout_type, lists_checks, lists_over, nulls_appended, own_slot, own_slots, physical_type, reserve_passes, row_checks, rows_len, slots_of, type_of};

use nest_array::AnyArray;
use nest_array::array::ArrayVariant;
use nest_build::child::has_items;
use nest_build::fixed_size_list::data_type::FixedType;
use nest_build::fixed_size_list::{FixedRows, freeze_over};
use nest_build::list::ListRows;
use nest_build::list::data_type::ListType;
use nest_build::list::width::FrozenRows;
use nest_memory::bitmap::mutable::MutableBitmap;
use nest_memory::datatypes::DataType;
use nest_memory::datatypes::physical_type::PhysicalType;
use nest_memory::error::{ArgumentError, Error, SpecError};
use std::alloc::Global;

/// The rows of lists, with offsets of either width or of a fixed size, and their data type.
#[derive(Drop)]
pub(crate) enum TypedRows {
    List(ListType<i32>, ListRows<i32>),
    LargeList(ListType<i64>, ListRows<i64>),
    FixedSizeList(FixedType, FixedRows),
}

// Evaluates an expression with the rows of any variant.
macro_rules! each_rows {
    ($any:expr, $rows:ident => $body:expr) => {
        match $any {
            TypedRows::List(_, $rows) => $body,
            TypedRows::LargeList(_, $rows) => $body,
            TypedRows::FixedSizeList(_, $rows) => $body,
        }
    };
}

impl TypedRows {
    pub(crate) fn data_type(&self) -> &DataType
        ensures { (c : BuilderTree) → type_of result.now ≡ builder_type (lists_over self.now c) }
    {
        match self {
            TypedRows::List(data_type, _) => data_type.get(),
            TypedRows::LargeList(data_type, _) => data_type.get(),
            TypedRows::FixedSizeList(data_type, _) => data_type.get(),
        }
    }

    pub(crate) fn len(&self) -> usize
        ensures { result ≡ rows_len self.now }
    {
        each_rows!(self, rows => rows.len())
    }

    pub(crate) fn validity(&self) -> Option<&MutableBitmap>
        ensures nulls { (c : BuilderTree) → ShowsNulls (option_map (λ b. b.now) result) (lists_over self.now c) }
        ensures none { rows_len self.now ≡ 0 → IsNone result }
    {
        each_rows!(self, rows => rows.validity())
    }

    pub(crate) fn is_valid(&self, i: usize) -> bool
        requires { i < rows_len self.now }
        ensures { (c : BuilderTree) → IsTrue result ↔ own_slot (lists_over self.now c) i ≢ slots.null }
    {
        each_rows!(self, rows => rows.is_valid(i))
    }

    /// Returns whether a child of type `items` with `count` items has exactly the items of the rows.
    pub(crate) fn fits(&self, items: &DataType, count: usize) -> bool
        ensures { (c : BuilderTree) → type_of items.now ≡ builder_type c → count ≡ builder_len c → IsTrue result ↔ Fitting self.now c }
    {
        let typed = has_items(self.data_type(), items);
        match self {
            TypedRows::List(_, rows) => typed && count == rows.last(),
            TypedRows::LargeList(_, rows) => typed && count == rows.last(),
            TypedRows::FixedSizeList(data_type, rows) => {
                match rows.len().checked_mul(data_type.size()) {
                    None => false,
                    Some(end) => typed && count == end,
                }
            }
        }
    }

    /// Shows the prover that offsets never decrease and that the data type is a list type. Does nothing at run time.
    pub(crate) fn known(&self)
        ensures rising { (c : BuilderTree) → IsComplete c → HasCompleteChildren (lists_over self.now c) }
        ensures kind { (c : BuilderTree) → IsListBuilder (lists_over self.now c) }
        ensures lists { (c : BuilderTree) → IsOfLists (physical_type (builder_type (lists_over self.now c))) }
    {
        match self {
            TypedRows::List(data_type, rows) => {
                let _lists = data_type.get();
                let _last = rows.last();
            }
            TypedRows::LargeList(data_type, rows) => {
                let _lists = data_type.get();
                let _last = rows.last();
            }
            TypedRows::FixedSizeList(data_type, _) => {
                let _lists = data_type.get();
            }
        }
    }

    /// Returns the number of nulls that a null row has in the child.
    pub(crate) fn child_nulls(&self) -> usize
        ensures value { result ≡ child_nulls self.now }
        ensures some { HasSize self.now }
    {
        match self {
            TypedRows::List(_, _) => 0,
            TypedRows::LargeList(_, _) => 0,
            TypedRows::FixedSizeList(data_type, _) => data_type.size(),
        }
    }

    /// Appends a null row. Its nulls are already in the child.
    pub(crate) fn push_null(&mut self) -> Result<(), Error>
        ensures ok { OnOk result ((c : BuilderTree) → lists_over self.new (nulls_appended (child_nulls self.old) c) ≡ nulls_appended 1 (lists_over self.old c)) }
        ensures room { OnOk result (rows_len self.old + 1 ≤ largest_length) }
        ensures err { OnErr result ((c : BuilderTree) → lists_over self.new c ≡ lists_over self.old c) }
        ensures cause { IfErr result (λ e. (e ≡ Memory alloc_error) ⊎ ((e ≡ Overflow) × (largest_length < rows_len self.old + 1))) }
    {
        match self {
            TypedRows::List(_, rows) => {
                let end = rows.last();
                rows.push(false, end)
            }
            TypedRows::LargeList(_, rows) => {
                let end = rows.last();
                rows.push(false, end)
            }
            TypedRows::FixedSizeList(_, rows) => rows.push(false),
        }
    }

    /// Appends a row of the pending items of a child of type `items` with `count` items.
    pub(crate) fn push_row(
        &mut self,
        valid: bool,
        items: &DataType,
        count: usize,
    ) -> Result<(), Error>
        ensures ok { OnOk result ((c : BuilderTree) → count ≡ builder_len c → lists_over self.new c ≡ with_row valid (lists_over self.old c)) }
        ensures passed { OnOk result ((c : BuilderTree) → type_of items.now ≡ builder_type c → count ≡ builder_len c → Pass (row_checks (lists_over self.old c))) }
        ensures err { OnErr result ((c : BuilderTree) → lists_over self.new c ≡ lists_over self.old c) }
        ensures cause { IfErr result (λ e. (c : BuilderTree) → type_of items.now ≡ builder_type c → count ≡ builder_len c → (e ≡ Memory alloc_error) ⊎ FailFirst e (row_checks (lists_over self.old c))) }
    {
        let typed = has_items(self.data_type(), items);
        match self {
            TypedRows::List(_, rows) => {
                if !typed || count < rows.last() {
                    return Err(Error::InvalidArgumentError(ArgumentError::Incomplete));
                }
                rows.push(valid, count)
            }
            TypedRows::LargeList(_, rows) => {
                if !typed || count < rows.last() {
                    return Err(Error::InvalidArgumentError(ArgumentError::Incomplete));
                }
                rows.push(valid, count)
            }
            TypedRows::FixedSizeList(data_type, rows) => {
                push_fixed_row(data_type, rows, valid, typed, count)
            }
        }
    }

    /// Keeps the first `n` rows and returns the number of child items they need, at most `count`.
    pub(crate) fn truncate(&mut self, n: usize, count: usize) -> usize
        requires within { n ≤ rows_len self.old }
        requires items { items_needed self.old n ≤ count }
        ensures end { result ≡ items_needed self.old n }
        ensures cut { (c : BuilderTree) → lists_over self.new (truncate_builder c result) ≡ truncate_builder (lists_over self.old c) n }
    {
        let _count = count;
        match self {
            TypedRows::List(_, rows) => {
                rows.truncate(n);
                rows.last()
            }
            TypedRows::LargeList(_, rows) => {
                rows.truncate(n);
                rows.last()
            }
            TypedRows::FixedSizeList(data_type, rows) => {
                let end = n * data_type.size();
                rows.truncate(n);
                end
            }
        }
    }

    /// Returns the number of child items that `additional` rows reserve, `None` if it exceeds the largest length.
    pub(crate) fn room_for(&self, additional: usize) -> Option<usize>
        ensures { MatchOption result
            ((c : BuilderTree) → reserve_passes additional (lists_over self.now c) ≡ true)
            (λ n. (c : BuilderTree) → reserve_passes additional (lists_over self.now c) ≡ reserve_passes n c) }
    {
        match self {
            TypedRows::List(_, _) => Some(0),
            TypedRows::LargeList(_, _) => Some(0),
            TypedRows::FixedSizeList(data_type, _) => additional.checked_mul(data_type.size()),
        }
    }

    pub(crate) fn reserve(&mut self, additional: usize) -> Result<(), Error>
        ensures same { (c : BuilderTree) → lists_over self.new c ≡ lists_over self.old c }
        ensures memory { IsOkUnless result (Memory alloc_error) }
    {
        each_rows!(self, rows => rows.reserve(additional))
    }

    pub(crate) fn shrink_to_fit(&mut self)
        ensures { (c : BuilderTree) → lists_over self.new c ≡ lists_over self.old c }
    {
        each_rows!(self, rows => rows.shrink_to_fit())
    }

    /// Removes all rows and the validity.
    pub(crate) fn clear(&mut self)
        ensures { (c : BuilderTree) → lists_over self.new (emptied c) ≡ emptied (lists_over self.old c) }
    {
        each_rows!(self, rows => rows.clear())
    }

    /// Returns the array of the rows over their items. No rows and no validity are left, also after `Memory`.
    pub(crate) fn freeze_over(&mut self, alloc: Global, values: AnyArray) -> Result<AnyArray, Error>
        requires { HasItems self.old (layout_of values) }
        ensures slots { IfOk result (λ a. (c : BuilderTree) → slots_of (layout_of values) ≡ own_slots c → slots_of (layout_of a) ≡ own_slots (lists_over self.old c)) }
        ensures same_type { IfOk result (λ a. (c : BuilderTree) → layout_type (layout_of a) ≡ builder_type (lists_over self.old c)) }
        ensures emptied { (c : BuilderTree) → lists_over self.new (emptied c) ≡ emptied (lists_over self.old c) }
        ensures memory { IsOkUnless result (Memory alloc_error) }
    {
        match self.data_type().clone(alloc) {
            Ok(data_type) => self.freeze_as(alloc, data_type, values),
            Err(error) => {
                drop(values);
                self.clear();
                Err(error)
            }
        }
    }

    fn freeze_as(
        &mut self,
        alloc: Global,
        data_type: DataType,
        values: AnyArray,
    ) -> Result<AnyArray, Error>
        requires items { HasItems self.old (layout_of values) }
        requires typed { (c : BuilderTree) → type_of data_type ≡ builder_type (lists_over self.old c) }
        ensures slots { IfOk result (λ a. (c : BuilderTree) → slots_of (layout_of values) ≡ own_slots c → slots_of (layout_of a) ≡ own_slots (lists_over self.old c)) }
        ensures same_type { IfOk result (λ a. (c : BuilderTree) → layout_type (layout_of a) ≡ builder_type (lists_over self.old c)) }
        ensures emptied { (c : BuilderTree) → lists_over self.new (emptied c) ≡ emptied (lists_over self.old c) }
        ensures memory { IsOkUnless result (Memory alloc_error) }
    {
        match self {
            TypedRows::List(kept, rows) => {
                let _lists = kept.get();
                match rows.freeze_over(alloc, data_type, values) {
                    Ok(lists) => Ok(lists.into_any()),
                    Err(error) => Err(error),
                }
            }
            TypedRows::LargeList(kept, rows) => {
                let _lists = kept.get();
                match rows.freeze_over(alloc, data_type, values) {
                    Ok(lists) => Ok(lists.into_any()),
                    Err(error) => Err(error),
                }
            }
            TypedRows::FixedSizeList(kept, rows) => {
                let _lists = kept.get();
                let _size = kept.size();
                match freeze_over(alloc, data_type, rows, values) {
                    Ok(lists) => Ok(lists.into_any()),
                    Err(error) => Err(error),
                }
            }
        }
    }
}

/// Appends a row of a fixed-size list, over a child with `count` items.
fn push_fixed_row(
    data_type: &FixedType,
    rows: &mut FixedRows,
    valid: bool,
    typed: bool,
    count: usize,
) -> Result<(), Error>
    ensures ok { OnOk result (rows.new ≡ rows.old ++ valid ∷ []) }
    ensures passed { OnOk result (OverChildren typed data_type.now count (λ c. Pass (row_checks (builders.fixed_size_list data_type.now rows.old c)))) }
    ensures err { OnErr result (rows.new ≡ rows.old) }
    ensures cause { IfErr result (λ e. OverChildren typed data_type.now count (λ c. (e ≡ Memory alloc_error) ⊎ FailFirst e (row_checks (builders.fixed_size_list data_type.now rows.old c)))) }
{
    let size = data_type.size();
    let end = match rows.len().checked_add(1) {
        Some(rows) => rows.checked_mul(size),
        None => None,
    };
    let Some(end) = end else {
        return Err(Error::InvalidArgumentError(ArgumentError::Incomplete));
    };
    if !typed || count < end {
        return Err(Error::InvalidArgumentError(ArgumentError::Incomplete));
    }
    if count > end {
        return Err(Error::InvalidArgumentError(ArgumentError::ItemSize));
    }
    rows.push(valid)
}

/// Returns the first failed check of a new list builder.
fn first_error(data_type: &DataType, items: &DataType, count: usize) -> Option<Error>
    ensures { (c : BuilderTree) → type_of items.now ≡ builder_type c → count ≡ builder_len c
        → let cs = lists_checks (type_of data_type.now) c in MatchOption result (Pass cs) (λ e. FailFirst e cs) }
{
    let physical = data_type.to_physical_type();
    let fixed = physical == PhysicalType::FixedSizeList;
    if !fixed && physical != PhysicalType::List && physical != PhysicalType::LargeList {
        return Some(Error::OutOfSpec(SpecError::WrongType));
    }
    if fixed && data_type.size().unwrap_or(0) == 0 {
        return Some(Error::OutOfSpec(SpecError::ZeroSize));
    }
    if count != 0 {
        return Some(Error::InvalidArgumentError(ArgumentError::ChildNotEmpty));
    }
    if !has_items(data_type, items) {
        return Some(Error::OutOfSpec(SpecError::ChildType));
    }
    None
}

impl TypedRows {
    /// Returns no rows, of a list type over a child of type `items` with `count` items.
    ///
    /// # Errors
    /// The first failed check; `Memory` if an allocation fails.
    pub(crate) fn try_new(
        alloc: Global,
        data_type: DataType,
        items: &DataType,
        count: usize,
    ) -> Result<TypedRows, Error>
        ensures ok { let t = type_of data_type in IfOk result (λ rows. (c : BuilderTree) → type_of items.now ≡ builder_type c → count ≡ builder_len c
            → Pass (lists_checks t c) × IsEmptyOver t rows c) }
        ensures cause { IfErr result (λ e. (c : BuilderTree) → type_of items.now ≡ builder_type c → count ≡ builder_len c → (e ≡ Memory alloc_error) ⊎ FailFirst e (lists_checks (type_of data_type) c)) }
    {
        if let Some(error) = first_error(&data_type, items, count) {
            drop(data_type);
            return Err(error);
        }
        match data_type.to_physical_type() {
            PhysicalType::List => match ListRows::new(alloc) {
                Ok(rows) => match ListType::of_type(data_type, items) {
                    Ok(data_type) => Ok(TypedRows::List(data_type, rows)),
                    Err(error) => Err(error),
                },
                Err(error) => {
                    drop(data_type);
                    Err(error)
                }
            },
            PhysicalType::LargeList => match ListRows::new(alloc) {
                Ok(rows) => match ListType::of_type(data_type, items) {
                    Ok(data_type) => Ok(TypedRows::LargeList(data_type, rows)),
                    Err(error) => Err(error),
                },
                Err(error) => {
                    drop(data_type);
                    Err(error)
                }
            },
            _ => {
                let size = data_type.size().unwrap_or(0);
                match FixedType::of_type(data_type, items, size) {
                    Ok(data_type) => Ok(TypedRows::FixedSizeList(data_type, FixedRows::new(alloc))),
                    Err(error) => Err(error),
                }
            }
        }
    }
}
