//! The rows of list builders with 32-bit and 64-bit offsets.
ghost use Rattle.std.specs.Prelude.{◌≡◌, ◌+◌, ◌≤◌, ◌<◌, ◌⊎◌, ◌++◌, ◌∷◌, [], Bool, ℕ, List as Seq, true, Some, IsNone, MatchResult, take, get_or, length, OnOk, OnErr, IfOk, IfErr, IsOkUnless, option_map, alloc_error};
ghost use Rattle.nest_memory.specs.Physical.{list_of_width};
ghost use Rattle.nest_model.specs.BuilderRow.{Row};
ghost use Rattle.nest_build.specs.Words.{EndsPast, FailFirst, Memory, Pass, RisesFrom, EncodesBits, WithinLimits, end_from, item_type, items_of_lengths, largest_length, largest_offset, layout_of, layout_type, len, moved, offsets_from, physical_type, row_bits, rows_of_items, rows_of_lengths, encoded_rows, slots_of, row_ending, encoded_rows_checks, type_of};

use crate::list::rows::ListRows;
use nest_array::array::ArrayVariant;
use nest_array::{AnyArray, LargeListArray, ListArray, ListOffset};
use nest_memory::bitmap::mutable::MutableBitmap;
use nest_memory::datatypes::DataType;
use nest_memory::error::Error;
use nest_memory::offset::Offset;
use nest_memory::offsets::Offsets;
use std::alloc::Global;

/// The rows of a list builder. `ListRows` implements it; callers need not name this trait.
pub trait RowStore: Drop {
    /// The rows so far.
    ghost row_list: { Self → Seq Row };

    /// Whether the offsets have 64 bits.
    ghost large: { Bool };

    /// Returns no rows.
    fn new(alloc: Global) -> Result<Self, Error>
        ensures ok { IfOk result (λ rows. row_list rows ≡ []) }
        ensures memory { IsOkUnless result (Memory alloc_error) };

    /// Returns the number of rows.
    fn len(&self) -> usize
        ensures { result ≡ length (row_list self.now) };

    /// Returns the validity.
    fn validity(&self) -> Option<&MutableBitmap>
        ensures bits { EncodesBits (option_map (λ b. b.now) result) (row_bits (row_list self.now)) }
        ensures none { row_list self.now ≡ [] → IsNone result };

    /// Returns whether row `i` is valid.
    fn is_valid(&self, i: usize) -> bool
        requires { i < length (row_list self.now) }
        ensures { result ≡ get_or (row_bits (row_list self.now)) i true };

    /// Returns the last offset: the end of the last row.
    fn last(&self) -> usize
        ensures value { result ≡ end_from 0 (row_list self.now) }
        ensures rising { RisesFrom 0 (row_list self.now) }
        ensures fits { result ≤ largest_offset large };

    /// Appends a row that ends at `end`.
    fn push(&mut self, valid: bool, end: usize) -> Result<(), Error>
        requires { end_from 0 (row_list self.old) ≤ end }
        ensures ok { OnOk result (row_list self.new ≡ row_list self.old ++ row_ending valid end ∷ []) }
        ensures within { OnOk result (WithinLimits large (length (row_list self.old) + 1) end) }
        ensures err { OnErr result (row_list self.new ≡ row_list self.old) }
        ensures cause { IfErr result (EndsPast large end) };

    /// Appends rows by their lengths.
    fn extend_from_lengths(&mut self, lengths: &[Option<usize>]) -> Result<(), Error>
        ensures ok { OnOk result (row_list self.new ≡ row_list self.old ++ rows_of_lengths (end_from 0 (row_list self.old)) lengths.now) }
        ensures within { OnOk result (WithinLimits large (length (row_list self.old) + length lengths.now) (end_from 0 (row_list self.old) + items_of_lengths lengths.now)) }
        ensures err { OnErr result (row_list self.new ≡ row_list self.old) }
        ensures cause { IfErr result (EndsPast large (end_from 0 (row_list self.old) + items_of_lengths lengths.now)) };

    /// Appends the rows of `other`.
    fn append(&mut self, other: &Self) -> Result<(), Error>
        ensures ok { OnOk result (row_list self.new ≡ row_list self.old ++ moved (end_from 0 (row_list self.old)) (row_list other.now)) }
        ensures within { OnOk result (WithinLimits large (length (row_list self.old) + length (row_list other.now)) (end_from 0 (row_list self.old) + end_from 0 (row_list other.now))) }
        ensures err { OnErr result (row_list self.new ≡ row_list self.old) }
        ensures cause { IfErr result (EndsPast large (end_from 0 (row_list self.old) + end_from 0 (row_list other.now))) };

    /// Keeps the first `n` rows.
    fn truncate(&mut self, n: usize)
        requires { n ≤ length (row_list self.old) }
        ensures { row_list self.new ≡ take n (row_list self.old) };

    /// Reserves capacity for at least `additional` more rows.
    fn reserve(&mut self, additional: usize) -> Result<(), Error>
        ensures same { row_list self.new ≡ row_list self.old }
        ensures memory { IsOkUnless result (Memory alloc_error) };

    /// Shrinks the capacity to the rows as far as the allocator can.
    fn shrink_to_fit(&mut self)
        ensures { row_list self.new ≡ row_list self.old };

    /// Removes all rows.
    fn clear(&mut self)
        ensures { row_list self.new ≡ [] };
}

impl<O: Offset> RowStore for ListRows<O> {
    ghost row_list = { λ rows. rows };

    ghost large = { O.IS_LARGE };

    fn new(alloc: Global) -> Result<ListRows<O>, Error> {
        ListRows::new(alloc)
    }

    fn len(&self) -> usize {
        self.len()
    }

    fn validity(&self) -> Option<&MutableBitmap> {
        self.validity()
    }

    fn is_valid(&self, i: usize) -> bool {
        self.is_valid(i)
    }

    fn last(&self) -> usize {
        self.last()
    }

    fn push(&mut self, valid: bool, end: usize) -> Result<(), Error> {
        self.push(valid, end)
    }

    fn extend_from_lengths(&mut self, lengths: &[Option<usize>]) -> Result<(), Error> {
        self.extend_from_lengths(lengths)
    }

    fn append(&mut self, other: &ListRows<O>) -> Result<(), Error> {
        self.append(other)
    }

    fn truncate(&mut self, n: usize) {
        self.truncate(n)
    }

    fn reserve(&mut self, additional: usize) -> Result<(), Error> {
        self.reserve(additional)
    }

    fn shrink_to_fit(&mut self) {
        self.shrink_to_fit()
    }

    fn clear(&mut self) {
        self.clear()
    }
}

/// Rows that freeze to a list array.
pub trait FrozenRows: RowStore {
    /// The list array with these offsets.
    type List: ArrayVariant;

    /// The offsets of this width.
    type Offsets;

    ghost offsets_seen: { Self.Offsets → Seq ℕ };

    /// Returns the rows with these offsets and this validity, over `items` items.
    fn try_of(
        alloc: Global,
        offsets: Self::Offsets,
        validity: Option<MutableBitmap>,
        items: usize,
    ) -> Result<Self, Error>
        ensures { let os = offsets_seen offsets in let cs = encoded_rows_checks os validity items in
            MatchResult result (λ rows. Pass cs × (Self.row_list rows ≡ encoded_rows os validity)) (λ e. FailFirst e cs) };

    /// Returns the offsets of the rows.
    fn offsets(&self) -> &Self::Offsets
        ensures { offsets_from 0 (Self.row_list self.now) ≡ offsets_seen result.now };

    /// Returns the array of the rows over their items. No rows and no validity are left, also after `Memory`.
    fn freeze_over(
        &mut self,
        alloc: Global,
        data_type: DataType,
        values: AnyArray,
    ) -> Result<Self::List, Error>
        requires lists { physical_type (type_of data_type) ≡ list_of_width Self.large }
        requires items { item_type (type_of data_type) ≡ Some (layout_type (layout_of values)) }
        requires covers { end_from 0 (Self.row_list self.old) ≤ len (layout_of values) }
        ensures slots { IfOk result (λ a. slots_of (Self.List.parts a) ≡ rows_of_items 0 (Self.row_list self.old) (slots_of (layout_of values))) }
        ensures same_type { IfOk result (λ a. layout_type (Self.List.parts a) ≡ type_of data_type) }
        ensures emptied { Self.row_list self.new ≡ [] }
        ensures memory { IsOkUnless result (Memory alloc_error) };
}

impl FrozenRows for ListRows<i32> {
    type List = ListArray;

    type Offsets = Offsets<i32>;

    ghost offsets_seen = { λ os. os };

    fn try_of(
        alloc: Global,
        offsets: Offsets<i32>,
        validity: Option<MutableBitmap>,
        items: usize,
    ) -> Result<ListRows<i32>, Error> {
        ListRows::try_of(alloc, offsets, validity, items)
    }

    fn offsets(&self) -> &Offsets<i32> {
        self.offsets()
    }

    fn freeze_over(
        &mut self,
        alloc: Global,
        data_type: DataType,
        values: AnyArray,
    ) -> Result<ListArray, Error> {
        match self.freeze() {
            Ok((offsets, validity)) => ListArray::new(alloc, data_type, offsets, values, validity),
            Err(error) => {
                drop(values);
                drop(data_type);
                Err(error)
            }
        }
    }
}

impl FrozenRows for ListRows<i64> {
    type List = LargeListArray;

    type Offsets = Offsets<i64>;

    ghost offsets_seen = { λ os. os };

    fn try_of(
        alloc: Global,
        offsets: Offsets<i64>,
        validity: Option<MutableBitmap>,
        items: usize,
    ) -> Result<ListRows<i64>, Error> {
        ListRows::try_of(alloc, offsets, validity, items)
    }

    fn offsets(&self) -> &Offsets<i64> {
        self.offsets()
    }

    fn freeze_over(
        &mut self,
        alloc: Global,
        data_type: DataType,
        values: AnyArray,
    ) -> Result<LargeListArray, Error> {
        match self.freeze() {
            Ok((offsets, validity)) => {
                LargeListArray::new(alloc, data_type, offsets, values, validity)
            }
            Err(error) => {
                drop(values);
                drop(data_type);
                Err(error)
            }
        }
    }
}

/// A width of list offsets: 32 or 64 bits.
pub trait ListWidth: ListOffset {
    /// `ListRows<Self>`.
    type Rows: FrozenRows;

    // The offsets of the rows have this width.
    ghost same_width: { Self.Rows.large ≡ Self.IS_LARGE };
}

impl ListWidth for i32 {
    type Rows = ListRows<i32>;

    ghost use Rattle.std.proofs.Common.{refl};

    ghost same_width = { refl };
}

impl ListWidth for i64 {
    type Rows = ListRows<i64>;

    ghost use Rattle.std.proofs.Common.{refl};

    ghost same_width = { refl };
}
