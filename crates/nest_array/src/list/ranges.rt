//! Offsets and validity of lists, as `ListArray`, `LargeListArray` and `MapArray` have them.
ghost use Rattle.std.specs.Prelude.{◌≡◌, ◌+◌, ◌≤◌, ◌<◌, ◌^◌, IfOk, IsOkUnless, MatchOption, alloc_error, replicate, suc};
ghost use Rattle.nest_memory.specs.Physical.{list_of_width};
ghost use Rattle.nest_model.specs.Array.{AreOffsets};
ghost use Rattle.nest_model.specs.Layout as layouts;
ghost use Rattle.nest_model.specs.NullLayout.{none_valid};
ghost use Rattle.nest_memory.specs.Rising.{last_of};
ghost use Rattle.nest_model.specs.Part.{count_rows, sliced_validity};
ghost use Rattle.nest_array.specs.Words.{FirstError, Fits, Memory, ValidityFits, begin, sublist, extent, layout_of, type_of};

use crate::any::AnyArray;
use crate::types::has_items;
use nest_flat::validity;
use nest_memory::bitmap::immutable::Bitmap;
use nest_memory::datatypes::DataType;
use nest_memory::datatypes::physical_type::PhysicalType;
use nest_memory::error::{Error, SpecError};
use nest_memory::offset::Offset;
use nest_memory::offsets::{Offsets, OffsetsBuffer};
use nest_model::fill::Fill;
use std::alloc::Global;

/// The offsets and the validity of an array of lists.
#[derive(Drop)]
pub(crate) struct Ranges<O: Offset> {
    pub(crate) offsets: OffsetsBuffer<O>,
    pub(crate) validity: Option<Bitmap>,
}

impl<O: Offset> Ranges<O> {
    /// Returns the ranges of `length` empty lists: all null for `Fill::Nulls`, without validity for `Fill::Nothing`.
    pub(crate) fn nulls(alloc: Global, length: usize, fill: Fill) -> Result<Ranges<O>, Error>
        requires { length + 1 < 2 ^ 64 }
        ensures ok { IfOk result (λ r. (r.offsets ≡ replicate (suc length) 0) × (r.validity ≡ none_valid fill length)) }
        ensures err { IsOkUnless result (Memory alloc_error) }
    {
        let validity = validity::none_valid(alloc, length, fill)?;
        let mut offsets = Offsets::new_zeroed(alloc, length)?;
        Ok(Ranges {
            offsets: offsets.freeze()?,
            validity,
        })
    }

    /// Returns the number of lists.
    pub(crate) fn len(&self) -> usize
        ensures { result ≡ count_rows self.now.offsets }
    {
        self.offsets.len_proxy()
    }

    /// Returns the last offset, the end of the last list.
    pub(crate) fn end(&self) -> usize
        ensures last { result ≡ last_of self.now.offsets }
        ensures rising { AreOffsets self.now.offsets }
    {
        self.offsets.known();
        self.offsets.last()
    }

    /// Returns the offset and the number of the items of list `i`.
    pub(crate) fn range(&self, i: usize) -> (usize, usize)
        requires { i < count_rows self.now.offsets }
        ensures start { result.0 ≡ begin self.now.offsets i }
        ensures count { result.1 ≡ extent self.now.offsets i }
    {
        let _lists = self.offsets.len_proxy();
        let (start, end) = self.offsets.start_end(i);
        (start, end - start)
    }

    /// Keeps `n` lists from index `o`.
    pub(crate) fn slice(&mut self, o: usize, n: usize)
        requires within { o + n ≤ count_rows self.old.offsets }
        requires bits { ValidityFits self.old.validity (count_rows self.old.offsets) }
        ensures offsets { self.new.offsets ≡ sublist self.old.offsets o (n + 1) }
        ensures validity { self.new.validity ≡ sliced_validity self.old.validity o n }
    {
        self.offsets.known();
        let _lists = self.offsets.len_proxy();
        self.offsets.slice(o, n + 1);
        validity::slice(&mut self.validity, o, n);
    }

    /// Returns a copy that shares its memory.
    pub(crate) fn clone(&self) -> Result<Ranges<O>, Error>
        ensures ok { IfOk result (λ r. (r.offsets ≡ self.now.offsets) × (r.validity ≡ self.now.validity)) }
        ensures err { IsOkUnless result (Memory alloc_error) }
    {
        Ok(Ranges {
            offsets: self.offsets.clone()?,
            validity: validity::clone(&self.validity)?,
        })
    }
}

/// Returns the physical type of lists with offsets of type `O`.
fn physical<O: Offset>() -> PhysicalType
    ensures { result ≡ list_of_width O.IS_LARGE }
{
    if O::IS_LARGE {
        PhysicalType::LargeList
    } else {
        PhysicalType::List
    }
}

/// Returns the error of the first check of a list array's parts that fails.
pub(crate) fn first_error<O: Offset>(
    data_type: &DataType,
    ranges: &Ranges<O>,
    values: &AnyArray,
) -> Option<Error>
    ensures { let r = ranges.now in let l = layouts.list O.IS_LARGE (type_of data_type.now) r.offsets (layout_of values.now) r.validity in
        MatchOption result (AreOffsets r.offsets × Fits l) (λ e. FirstError e l) }
{
    if ranges.end() > values.len() {
        return Some(Error::OutOfSpec(SpecError::OffsetPastChild));
    }
    if !validity::fits(&ranges.validity, ranges.len()) {
        return Some(Error::OutOfSpec(SpecError::ValidityLength));
    }
    if data_type.to_physical_type() != physical::<O>() {
        return Some(Error::OutOfSpec(SpecError::WrongType));
    }
    if !has_items(data_type, values.data_type()) {
        return Some(Error::OutOfSpec(SpecError::ChildType));
    }
    None
}
