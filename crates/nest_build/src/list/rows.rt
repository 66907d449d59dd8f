//! The rows of a list builder, without the items.
ghost use Rattle.std.specs.Prelude.{◌≡◌, ◌+◌, ◌≤◌, ◌<◌, ◌⊎◌, ◌++◌, ◌∷◌, [], true, take, get_or, length, IsNone, OnOk, OnErr, IfOk, IfErr, IsOkUnless, IsTrue, MatchResult, None, ◌↔◌, option_map, alloc_error};
ghost use Rattle.nest_build.specs.Words.{EndsPast, FailFirst, Memory, Pass, RisesFrom, EncodesRows, EncodesBits, ValidityFits, WithinLimits, end_from, items_of_lengths, largest_length, largest_offset, moved, offsets_from, row_bits, rows_of_lengths, encoded_rows, row_ending, encoded_rows_checks};

use nest_flat::growth::validity;
use nest_memory::bitmap::immutable::Bitmap;
use nest_memory::bitmap::mutable::MutableBitmap;
use nest_memory::error::{ArgumentError, Error, SpecError};
use nest_memory::offset::Offset;
use nest_memory::offsets::{Offsets, OffsetsBuffer};
use std::alloc::Global;
use std::marker::Model;

/// The offsets and the validity of rows: Variable-size List Layout of the Arrow format, without the child array. The
/// first offset is 0. The validity is created at the first null row; without rows there is none.
///
/// A call that returns an error changes no row, except `freeze`.
#[derive(Drop)]
pub struct ListRows<O: Offset> {
    offsets: Offsets<O>,
    validity: Option<MutableBitmap>,
    alloc: Global,
}

impl<O: Offset> Model for ListRows<O> {
    ghost use Rattle.std.specs.Prelude.{List};
    ghost use Rattle.nest_model.specs.BuilderRow.{Row};
    ghost use Rattle.nest_model.specs.Part.{count_rows};
    ghost use Rattle.nest_build.specs.Rows.{IsOfRows, encoded_rows};

    ghost Value = { List Row };

    ghost view = { λ a. encoded_rows a.offsets a.validity };

    ghost invariant = { λ a. IsOfRows a.validity (count_rows a.offsets) };
}

impl<O: Offset> ListRows<O> {
    /// Returns no rows.
    pub fn new(alloc: Global) -> Result<ListRows<O>, Error>
        ensures ok { IfOk result (λ rows. rows ≡ []) }
        ensures memory { IsOkUnless result (Memory alloc_error) }
    {
        Ok(ListRows {
            offsets: Offsets::new(alloc)?,
            validity: None,
            alloc,
        })
    }

    /// Returns the rows with these offsets and this validity, over `items` items.
    ///
    /// # Errors
    /// `LengthsSum` if the last offset is not the number of items, then `ValidityLength` if there is not one bit per
    /// row.
    pub fn try_of(
        alloc: Global,
        offsets: Offsets<O>,
        validity: Option<MutableBitmap>,
        items: usize,
    ) -> Result<ListRows<O>, Error>
        ensures { let checks = encoded_rows_checks offsets validity items in
            MatchResult result (λ rows. Pass checks × (rows ≡ encoded_rows offsets validity)) (λ e. FailFirst e checks) }
    {
        if offsets.last() != items {
            return Err(Error::InvalidArgumentError(ArgumentError::LengthsSum));
        }
        if !has_bits(&validity, offsets.len_proxy()) {
            return Err(Error::OutOfSpec(SpecError::ValidityLength));
        }
        let rows = offsets.len_proxy();
        Ok(ListRows {
            offsets,
            validity: of_rows(validity, rows),
            alloc,
        })
    }

    /// Returns the number of rows.
    pub fn len(&self) -> usize
        ensures { result ≡ length self.now }
    {
        self.offsets.known();
        self.offsets.len_proxy()
    }

    /// Returns the offsets, one more than there are rows.
    pub fn offsets(&self) -> &Offsets<O>
        ensures { offsets_from 0 self.now ≡ result.now }
    {
        self.offsets.known();
        &self.offsets
    }

    /// Returns the validity, one bit per row. Without it all rows are valid.
    pub fn validity(&self) -> Option<&MutableBitmap>
        ensures bits { EncodesBits (option_map (λ b. b.now) result) (row_bits self.now) }
        ensures none { self.now ≡ [] → IsNone result }
    {
        self.offsets.known();
        self.validity.as_ref()
    }

    /// Returns whether row `i` is valid.
    pub fn is_valid(&self, i: usize) -> bool
        requires { i < length self.now }
        ensures { result ≡ get_or (row_bits self.now) i true }
    {
        self.offsets.known();
        let _rows = self.offsets.len_proxy();
        validity::is_valid(&self.validity, i)
    }

    /// Returns the last offset: the end of the last row.
    pub fn last(&self) -> usize
        ensures value { result ≡ end_from 0 self.now }
        ensures rising { RisesFrom 0 self.now }
        ensures fits { result ≤ largest_offset O.IS_LARGE }
        ensures room { length self.now ≤ largest_length }
    {
        self.offsets.known();
        self.offsets.last()
    }

    /// Appends a row. Its items start where the last row ends.
    ///
    /// # Errors
    /// `Overflow` if `end` exceeds the largest offset, `Memory` if an allocation fails.
    #[inline]
    pub fn push(&mut self, valid: bool, end: usize) -> Result<(), Error>
        requires { end_from 0 self.old ≤ end }
        ensures ok { OnOk result (self.new ≡ self.old ++ row_ending valid end ∷ []) }
        ensures within { OnOk result (WithinLimits O.IS_LARGE (length self.old + 1) end) }
        ensures err { OnErr result (self.new ≡ self.old) }
        ensures cause { IfErr result (EndsPast O.IS_LARGE end) }
    {
        self.offsets.known();
        let last = self.offsets.last();
        let len = self.offsets.len_proxy();
        self.offsets.try_push_usize(end - last)?;
        self.offsets.known();
        if let Err(error) = validity::push(self.alloc, &mut self.validity, len, valid) {
            self.offsets.truncate(len);
            return Err(error);
        }
        Ok(())
    }

    /// Appends a valid row of `items` items, or an empty null row for `None`.
    fn push_length(&mut self, items: Option<usize>) -> Result<(), Error>
        ensures ok { OnOk result (self.new ≡ self.old ++ rows_of_lengths (end_from 0 self.old) (items ∷ [])) }
        ensures within { OnOk result (end_from 0 self.old + items_of_lengths (items ∷ []) ≤ largest_offset O.IS_LARGE) }
        ensures err { OnErr result (self.new ≡ self.old) }
        ensures cause { IfErr result (EndsPast O.IS_LARGE (end_from 0 self.old + items_of_lengths (items ∷ []))) }
    {
        let last = self.last();
        match items {
            None => self.push(false, last),
            Some(items) => match last.checked_add(items) {
                None => Err(Error::Overflow),
                Some(end) => self.push(true, end),
            },
        }
    }

    /// Appends rows by their lengths, an empty null row for each `None`; all of them or none.
    ///
    /// # Errors
    /// `Overflow` if the end of the last row exceeds the largest offset, `Memory` if an allocation fails.
    pub fn extend_from_lengths(&mut self, lengths: &[Option<usize>]) -> Result<(), Error>
        ensures ok { OnOk result (self.new ≡ self.old ++ rows_of_lengths (end_from 0 self.old) lengths.now) }
        ensures within { OnOk result (WithinLimits O.IS_LARGE (length self.old + length lengths.now) (end_from 0 self.old + items_of_lengths lengths.now)) }
        ensures err { OnErr result (self.new ≡ self.old) }
        ensures cause { IfErr result (EndsPast O.IS_LARGE (end_from 0 self.old + items_of_lengths lengths.now)) }
    {
        let len = self.len();
        let _fits = self.last();
        for items in lengths {
            if let Err(error) = self.push_length(*items) {
                self.truncate(len);
                return Err(error);
            }
        }
        let _last = self.last();
        Ok(())
    }

    /// Appends the rows of `other`, all of them or none. Their items follow the items of these rows.
    ///
    /// # Errors
    /// `Overflow` if the end of the last row exceeds the largest offset, `Memory` if an allocation fails.
    pub fn append(&mut self, other: &ListRows<O>) -> Result<(), Error>
        ensures ok { OnOk result (self.new ≡ self.old ++ moved (end_from 0 self.old) other.now) }
        ensures within { OnOk result (WithinLimits O.IS_LARGE (length self.old + length other.now) (end_from 0 self.old + end_from 0 other.now)) }
        ensures err { OnErr result (self.new ≡ self.old) }
        ensures cause { IfErr result (EndsPast O.IS_LARGE (end_from 0 self.old + end_from 0 other.now)) }
    {
        self.offsets.known();
        other.offsets.known();
        let len = self.offsets.len_proxy();
        let more = other.offsets.len_proxy();
        if let Err(refusal) = self.offsets.try_extend_from_self(&other.offsets) {
            return Err(refusal);
        }
        self.offsets.known();
        if let Err(error) = validity::join(
            self.alloc,
            &mut self.validity,
            len,
            &other.validity,
            more,
        ) {
            self.offsets.truncate(len);
            return Err(error);
        }
        Ok(())
    }

    /// Keeps the first `n` rows. Does not allocate.
    pub fn truncate(&mut self, n: usize)
        requires { n ≤ length self.old }
        ensures { self.new ≡ take n self.old }
    {
        if n == 0 {
            return self.clear();
        }
        let _len = self.len();
        self.offsets.known();
        validity::truncate(&mut self.validity, n);
        self.offsets.truncate(n);
    }

    /// Reserves capacity for at least `additional` more rows.
    ///
    /// # Errors
    /// `Memory` if an allocation fails.
    pub fn reserve(&mut self, additional: usize) -> Result<(), Error>
        ensures same { self.new ≡ self.old }
        ensures memory { IsOkUnless result (Memory alloc_error) }
    {
        self.offsets.reserve(additional)?;
        validity::reserve(&mut self.validity, additional)
    }

    /// Shrinks the capacity to the rows as far as the allocator can.
    pub fn shrink_to_fit(&mut self)
        ensures { self.new ≡ self.old }
    {
        self.offsets.shrink_to_fit();
        validity::shrink_to_fit(&mut self.validity);
    }

    /// Removes all rows and the validity.
    pub fn clear(&mut self)
        ensures { self.new ≡ [] }
    {
        self.offsets.known();
        self.offsets.truncate(0);
        self.validity = None;
    }

    /// Returns the offsets and the validity. No rows and no validity are left, also after `Memory`.
    ///
    /// # Errors
    /// `Memory` if an allocation fails.
    pub fn freeze(&mut self) -> Result<(OffsetsBuffer<O>, Option<Bitmap>), Error>
        ensures ok { IfOk result (λ parts. EncodesRows parts.0 parts.1 self.old) }
        ensures none { self.old ≡ [] → IfOk result (λ parts. IsNone parts.1) }
        ensures memory { IsOkUnless result (Memory alloc_error) }
        ensures emptied { self.new ≡ [] }
    {
        self.offsets.known();
        let offsets = self.offsets.freeze();
        let validity = validity::freeze(&mut self.validity);
        Ok((offsets?, validity?))
    }
}

/// Returns the validity, `None` if there are no rows.
pub fn of_rows(validity: Option<MutableBitmap>, rows: usize) -> Option<MutableBitmap>
    ensures some { 0 < rows → result ≡ validity }
    ensures none { rows ≡ 0 → result ≡ None }
{
    if rows == 0 {
        drop(validity);
        None
    } else {
        validity
    }
}

/// Returns whether there is one bit per row, or no validity.
pub fn has_bits(validity: &Option<MutableBitmap>, rows: usize) -> bool
    ensures { IsTrue result ↔ ValidityFits validity.now rows }
{
    match validity {
        None => true,
        Some(bits) => bits.len() == rows,
    }
}
