//! The rows of a fixed-size list builder, without the items.
ghost use Rattle.std.specs.Prelude.{◌≡◌, ◌+◌, ◌≤◌, ◌<◌, ◌⊎◌, ◌++◌, ◌∷◌, [], true, take, get_or, length, IsNone, OnOk, OnErr, IfOk, IfErr, IsOkUnless, option_map, alloc_error};
ghost use Rattle.nest_build.specs.Words.{Memory, Overflow, EncodesBits, ValidityFits, encoded_bits, largest_length};

use crate::list::rows::of_rows;
use nest_flat::growth::validity;
use nest_memory::bitmap::immutable::Bitmap;
use nest_memory::bitmap::mutable::MutableBitmap;
use nest_memory::error::Error;
use std::alloc::Global;
use std::marker::Model;

/// The number of rows and their validity: Fixed-Size List Layout of the Arrow format, without the child array. The
/// validity is created at the first null row; without rows there is none.
///
/// A call that returns an error changes no row, except `freeze`.
#[derive(Drop)]
pub struct FixedRows {
    len: usize,
    validity: Option<MutableBitmap>,
    alloc: Global,
}

impl Model for FixedRows {
    ghost use Rattle.std.specs.Prelude.{Bool, List};
    ghost use Rattle.nest_build.specs.Rows.{IsOfRows, encoded_bits};

    ghost Value = { List Bool };

    ghost view = { λ a. encoded_bits a.len a.validity };

    ghost invariant = { λ a. IsOfRows a.validity a.len };
}

impl FixedRows {
    /// Returns no rows.
    pub fn new(alloc: Global) -> FixedRows
        ensures { result ≡ [] }
    {
        FixedRows {
            len: 0,
            validity: None,
            alloc,
        }
    }

    /// Returns `len` rows with this validity.
    pub fn of(alloc: Global, len: usize, validity: Option<MutableBitmap>) -> FixedRows
        requires { ValidityFits validity len }
        ensures { result ≡ encoded_bits len validity }
    {
        FixedRows {
            len,
            validity: of_rows(validity, len),
            alloc,
        }
    }

    /// Returns the validity and drops the rest.
    pub fn into_validity(self) -> Option<MutableBitmap>
        ensures bits { EncodesBits result self }
        ensures none { self ≡ [] → IsNone result }
    {
        let FixedRows {
            len: _,
            validity,
            alloc: _,
        } = self;
        validity
    }

    /// Returns the number of rows.
    pub fn len(&self) -> usize
        ensures { result ≡ length self.now }
    {
        self.len
    }

    /// Returns the validity, one bit per row. Without it all rows are valid.
    pub fn validity(&self) -> Option<&MutableBitmap>
        ensures bits { EncodesBits (option_map (λ b. b.now) result) self.now }
        ensures none { self.now ≡ [] → IsNone result }
    {
        self.validity.as_ref()
    }

    /// Returns whether row `i` is valid.
    pub fn is_valid(&self, i: usize) -> bool
        requires { i < length self.now }
        ensures { result ≡ get_or self.now i true }
    {
        validity::is_valid(&self.validity, i)
    }

    /// Appends a row.
    ///
    /// # Errors
    /// `Overflow` if the number of rows would exceed the largest length, `Memory` if an allocation fails.
    #[inline]
    pub fn push(&mut self, valid: bool) -> Result<(), Error>
        ensures ok { OnOk result (self.new ≡ self.old ++ valid ∷ []) }
        ensures within { OnOk result (length self.old + 1 ≤ largest_length) }
        ensures err { OnErr result (self.new ≡ self.old) }
        ensures cause { IfErr result (λ e. (e ≡ Memory alloc_error) ⊎ ((e ≡ Overflow) × (largest_length < length self.old + 1))) }
    {
        let Some(len) = self.len.checked_add(1) else {
            return Err(Error::Overflow);
        };
        validity::push(self.alloc, &mut self.validity, self.len, valid)?;
        self.len = len;
        Ok(())
    }

    /// Appends the rows of `other`, all of them or none.
    ///
    /// # Errors
    /// `Overflow` if the number of rows would exceed the largest length, `Memory` if an allocation fails.
    pub fn append(&mut self, other: &FixedRows) -> Result<(), Error>
        ensures ok { OnOk result (self.new ≡ self.old ++ other.now) }
        ensures within { OnOk result (length self.old + length other.now ≤ largest_length) }
        ensures err { OnErr result (self.new ≡ self.old) }
        ensures cause { IfErr result (λ e. (e ≡ Memory alloc_error) ⊎ ((e ≡ Overflow) × (largest_length < length self.old + length other.now))) }
    {
        let Some(len) = self.len.checked_add(other.len) else {
            return Err(Error::Overflow);
        };
        validity::join(
            self.alloc,
            &mut self.validity,
            self.len,
            &other.validity,
            other.len,
        )?;
        self.len = len;
        Ok(())
    }

    /// Keeps the first `n` rows. Does not allocate.
    pub fn truncate(&mut self, n: usize)
        requires { n ≤ length self.old }
        ensures { self.new ≡ take n self.old }
    {
        if n == 0 {
            return self.clear();
        }
        validity::truncate(&mut self.validity, n);
        self.len = n;
    }

    /// Reserves capacity for at least `additional` more rows.
    ///
    /// # Errors
    /// `Memory` if an allocation fails.
    pub fn reserve(&mut self, additional: usize) -> Result<(), Error>
        ensures same { self.new ≡ self.old }
        ensures memory { IsOkUnless result (Memory alloc_error) }
    {
        validity::reserve(&mut self.validity, additional)
    }

    /// Shrinks the capacity to the rows as far as the allocator can.
    pub fn shrink_to_fit(&mut self)
        ensures { self.new ≡ self.old }
    {
        validity::shrink_to_fit(&mut self.validity);
    }

    /// Removes all rows and the validity.
    pub fn clear(&mut self)
        ensures { self.new ≡ [] }
    {
        self.validity = None;
        self.len = 0;
    }

    /// Returns the number of rows and the validity. No rows and no validity are left, also after `Memory`.
    ///
    /// # Errors
    /// `Memory` if an allocation fails.
    pub fn freeze(&mut self) -> Result<(usize, Option<Bitmap>), Error>
        ensures count { IfOk result (λ parts. parts.0 ≡ length self.old) }
        ensures bits { IfOk result (λ parts. EncodesBits parts.1 self.old × ValidityFits parts.1 parts.0) }
        ensures none { self.old ≡ [] → IfOk result (λ parts. IsNone parts.1) }
        ensures memory { IsOkUnless result (Memory alloc_error) }
        ensures emptied { self.new ≡ [] }
    {
        let len = self.len;
        self.len = 0;
        let validity = validity::freeze(&mut self.validity)?;
        Ok((len, validity))
    }
}
