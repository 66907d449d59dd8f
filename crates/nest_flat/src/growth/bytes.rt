//! A builder of variable-size slots, shared by the builders of binary and UTF-8 arrays.
ghost use Rattle.std.specs.Prelude.{◌≡◌, ◌↔◌, ◌⊎◌, ◌+◌, ◌^◌, ◌++◌, ◌∷◌, [], ◌<◌, ◌≤◌, OnOk, OnErr, IfOk, IfErr, IsErrOf, IsOkUnless, alloc_error, length, is_some, option_map, map, drop, if◌then◌else◌};
ghost use Rattle.std.specs.Option.{option_copied};
ghost use Rattle.nest_flat.specs.Words.{AreSpans, Memory, Overflow, ValidityFits, bare_spans, begin, sublist, extent, first_spans, item_bytes, joined_spans, joined_validity, last_of, no_spans, pushed_span, pushed_validity, count_rows, spans, valid_at};

use crate::growth::validity;
use nest_memory::bitmap::immutable::Bitmap;
use nest_memory::bitmap::mutable::MutableBitmap;
use nest_memory::buffer::Buffer;
use nest_memory::error::Error;
use nest_memory::offset::Offset;
use nest_memory::offsets::{Offsets, OffsetsBuffer};
use std::alloc::Global;
use std::marker::Model;
use std::mem;

/// The offsets, bytes and validity of a frozen array.
pub(crate) type Frozen<O> = (OffsetsBuffer<O>, Buffer<u8>, Option<Bitmap>);

/// The offsets, bytes and validity of the slots pushed so far. A null has no bytes. The validity is allocated at the
/// first null.
#[derive(Drop)]
pub(crate) struct BytesBuilder<O: Offset> {
    offsets: Offsets<O>,
    bytes: Vec<u8>,
    validity: Option<MutableBitmap>,
}

impl<O: Offset> Model for BytesBuilder<O> {
    ghost use Rattle.std.specs.Prelude.{◌≡◌, length};
    ghost use Rattle.nest_memory.specs.Rising.{last_of};
    ghost use Rattle.nest_model.specs.Fits.{ValidityFits};
    ghost use Rattle.nest_model.specs.Part.{count_rows};
    ghost use Rattle.nest_flat.specs.BytesGrowth.{NullsAreBare, Spans};

    ghost Value = { Spans };

    ghost view = { λ b. record { offsets = b.offsets; bytes = b.bytes.items; validity = b.validity } };

    ghost invariant = { λ b. (last_of b.offsets ≡ length b.bytes.items) × ValidityFits b.validity (count_rows b.offsets) × NullsAreBare b.validity b.offsets };
}

/// Returns the bytes of an item; a null has none.
fn bytes_of(item: Option<&[u8]>) -> &[u8]
    ensures { result.now ≡ item_bytes (option_copied item.entry) }
{
    item.unwrap_or(&[])
}

/// Appends the bytes and the validity bit of one slot to `len` slots: both, or neither on error.
fn push_item(
    bytes: &mut Vec<u8>,
    validity: &mut Option<MutableBitmap>,
    len: usize,
    item: Option<&[u8]>,
) -> Result<(), Error>
    requires fits { ValidityFits validity.old len }
    requires room { len + 1 < 2 ^ 64 }
    ensures bytes { OnOk result (bytes.new.items ≡ bytes.old.items ++ item_bytes (option_copied item.entry)) }
    ensures bit { OnOk result (validity.new ≡ pushed_validity validity.old len (is_some (option_copied item.entry))) }
    ensures same_bytes { OnErr result (bytes.new.items ≡ bytes.old.items) }
    ensures same_bits { OnErr result (validity.new ≡ validity.old) }
    ensures memory { IsOkUnless result (Memory alloc_error) }
{
    let alloc = *bytes.allocator();
    let end = bytes.len();
    bytes.extend_from_slice(bytes_of(item))?;
    if let Err(error) = validity::push(alloc, validity, len, item.is_some()) {
        bytes.truncate(end);
        return Err(error);
    }
    Ok(())
}

/// Appends the bytes and the validity bits of `m` slots to `n` slots: all of them, or none on error.
fn join_items(
    bytes: &mut Vec<u8>,
    validity: &mut Option<MutableBitmap>,
    n: usize,
    more: (&[u8], &Option<MutableBitmap>),
    m: usize,
) -> Result<(), Error>
    requires fits { ValidityFits validity.old n }
    requires more_fits { ValidityFits more.1.now m }
    requires room { n + m < 2 ^ 64 }
    ensures bytes { OnOk result (bytes.new.items ≡ bytes.old.items ++ more.entry.0.now) }
    ensures bits { OnOk result (validity.new ≡ joined_validity validity.old n more.entry.1.now m) }
    ensures same_bytes { OnErr result (bytes.new.items ≡ bytes.old.items) }
    ensures same_bits { OnErr result (validity.new ≡ validity.old) }
    ensures memory { IsOkUnless result (Memory alloc_error) }
{
    let alloc = *bytes.allocator();
    let end = bytes.len();
    let (more_bytes, more_bits) = more;
    bytes.extend_from_slice(more_bytes)?;
    if let Err(error) = validity::join(alloc, validity, n, more_bits, m) {
        bytes.truncate(end);
        return Err(error);
    }
    Ok(())
}

/// Appends the end offset of a slot of `n` bytes.
fn push_end<O: Offset>(offsets: &mut Offsets<O>, n: usize) -> Result<(), Error>
    ensures ok { OnOk result (offsets.new ≡ offsets.old ++ (last_of offsets.old + n) ∷ []) }
    ensures err { OnErr result (offsets.new ≡ offsets.old) }
    ensures overflow { IsErrOf result Overflow ↔ (O.largest < last_of offsets.old + n) }
    ensures errors { IfErr result (λ e. (e ≡ Overflow) ⊎ (e ≡ Memory alloc_error)) }
{
    offsets.known();
    offsets.try_push_usize(n)
}

/// Appends the end offsets of other slots.
fn join_ends<O: Offset>(offsets: &mut Offsets<O>, more: &Offsets<O>) -> Result<(), Error>
    ensures ok { OnOk result (offsets.new ≡ offsets.old ++ map (λ e. last_of offsets.old + e) (drop 1 more.now)) }
    ensures err { OnErr result (offsets.new ≡ offsets.old) }
    ensures overflow { IsErrOf result Overflow ↔ (O.largest < last_of offsets.old + last_of more.now) }
    ensures errors { IfErr result (λ e. (e ≡ Overflow) ⊎ (e ≡ Memory alloc_error)) }
{
    offsets.known();
    more.known();
    offsets.try_extend_from_self(more)
}

impl<O: Offset> BytesBuilder<O> {
    /// Returns an empty builder.
    pub(crate) fn new(alloc: Global) -> Result<BytesBuilder<O>, Error>
        ensures ok { IfOk result (λ b. b ≡ no_spans) }
        ensures memory { IsOkUnless result (Memory alloc_error) }
    {
        Ok(BytesBuilder {
            offsets: Offsets::new(alloc)?,
            bytes: Vec::new(alloc),
            validity: None,
        })
    }

    /// States the invariant of the builder. Does nothing at run time.
    pub(crate) fn known(&self)
        ensures spans { AreSpans self.now }
        ensures room { length self.now.offsets < 2 ^ 64 }
        ensures fits { last_of self.now.offsets ≤ O.largest }
    {
        let _ = &self.bytes;
        self.offsets.known();
    }

    /// Returns the number of slots.
    pub(crate) fn len(&self) -> usize
        ensures { result ≡ count_rows self.now.offsets }
    {
        self.offsets.len_proxy()
    }

    /// Appends a slot.
    ///
    /// # Errors
    /// `Overflow` if the end of the slot exceeds the offset type, `Memory` if an allocation fails.
    pub(crate) fn try_push(&mut self, item: Option<&[u8]>) -> Result<(), Error>
        ensures ok { OnOk result (self.new ≡ pushed_span (option_copied item.entry) self.old) }
        ensures err { OnErr result (self.new ≡ self.old) }
        ensures overflow { IsErrOf result Overflow ↔ (O.largest < last_of self.old.offsets + length (item_bytes (option_copied item.entry))) }
        ensures errors { IfErr result (λ e. (e ≡ Overflow) ⊎ (e ≡ Memory alloc_error)) }
    {
        let len = self.offsets.len_proxy();
        self.offsets.known();
        push_end(&mut self.offsets, bytes_of(item).len())?;
        self.offsets.known();
        if let Err(error) = push_item(&mut self.bytes, &mut self.validity, len, item) {
            self.offsets.truncate(len);
            return Err(error);
        }
        Ok(())
    }

    /// Appends the slots of another builder: all of them, or none on error.
    ///
    /// # Errors
    /// `Overflow` if the last end exceeds the offset type, `Memory` if an allocation fails.
    pub(crate) fn try_extend_from_self(&mut self, other: &BytesBuilder<O>) -> Result<(), Error>
        ensures ok { OnOk result (self.new ≡ joined_spans self.old other.now) }
        ensures err { OnErr result (self.new ≡ self.old) }
        ensures overflow { IsErrOf result Overflow ↔ (O.largest < last_of self.old.offsets + last_of other.now.offsets) }
        ensures errors { IfErr result (λ e. (e ≡ Overflow) ⊎ (e ≡ Memory alloc_error)) }
    {
        other.known();
        self.offsets.known();
        let (n, m) = (self.offsets.len_proxy(), other.len());
        join_ends(&mut self.offsets, &other.offsets)?;
        self.offsets.known();
        let more = (other.bytes.as_slice(), &other.validity);
        if let Err(error) = join_items(&mut self.bytes, &mut self.validity, n, more, m) {
            self.offsets.truncate(n);
            return Err(error);
        }
        Ok(())
    }

    /// Keeps the first `n` slots, and drops the validity unless `masked`.
    pub(crate) fn rollback(&mut self, n: usize, masked: bool)
        requires { n ≤ count_rows self.old.offsets }
        ensures { self.new ≡ (if masked then first_spans n self.old else bare_spans (first_spans n self.old)) }
    {
        self.offsets.known();
        self.offsets.truncate(n);
        self.bytes.truncate(self.offsets.last());
        validity::rollback(&mut self.validity, n, masked);
    }

    /// Reserves capacity for `additional` more slots. Capacity for bytes is not reserved.
    pub(crate) fn reserve(&mut self, additional: usize) -> Result<(), Error>
        ensures same { self.new ≡ self.old }
        ensures memory { IsOkUnless result (Memory alloc_error) }
    {
        self.offsets.reserve(additional)?;
        validity::reserve(&mut self.validity, additional)
    }

    /// Releases unused capacity if smaller blocks can be allocated.
    pub(crate) fn shrink_to_fit(&mut self)
        ensures { self.new ≡ self.old }
    {
        self.offsets.shrink_to_fit();
        self.bytes.shrink_to_fit();
        validity::shrink_to_fit(&mut self.validity);
    }

    /// Returns the offsets, the bytes and the validity as shared buffers, and empties the builder, also on error.
    pub(crate) fn freeze(&mut self) -> Result<Frozen<O>, Error>
        ensures ok { IfOk result (λ parts. spans parts.0 parts.1 parts.2 ≡ self.old) }
        ensures emptied { self.new ≡ no_spans }
        ensures memory { IsOkUnless result (Memory alloc_error) }
    {
        let alloc = *self.bytes.allocator();
        let offsets = self.offsets.freeze();
        let bytes = mem::replace(&mut self.bytes, Vec::new(alloc));
        let validity = validity::freeze(&mut self.validity);
        Ok((offsets?, Buffer::from_vec(alloc, bytes)?, validity?))
    }

    /// Returns the bytes of slot `i`.
    pub(crate) fn value(&self, i: usize) -> &[u8]
        requires { i < count_rows self.now.offsets }
        ensures { result.now ≡ sublist self.now.bytes (begin self.now.offsets i) (extent self.now.offsets i) }
    {
        self.offsets.known();
        let (start, end) = self.offsets.start_end(i);
        &self.bytes.as_slice()[start..end]
    }

    /// Returns whether slot `i` is valid.
    pub(crate) fn is_valid(&self, i: usize) -> bool
        requires { i < count_rows self.now.offsets }
        ensures { result ≡ valid_at self.now.validity i }
    {
        validity::is_valid(&self.validity, i)
    }

    pub(crate) fn offsets(&self) -> &Offsets<O>
        ensures { result.now ≡ self.now.offsets }
    {
        &self.offsets
    }

    pub(crate) fn bytes(&self) -> &Vec<u8>
        ensures { result.now.items ≡ self.now.bytes }
    {
        &self.bytes
    }

    pub(crate) fn validity(&self) -> Option<&MutableBitmap>
        ensures { option_map (λ b. b.now) result ≡ self.now.validity }
    {
        self.validity.as_ref()
    }

    pub(crate) fn allocator(&self) -> Global {
        *self.bytes.allocator()
    }
}
