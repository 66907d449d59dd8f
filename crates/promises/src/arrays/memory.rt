//! Buffers, bitmaps, offsets and data types.
//!
//! A buffer is its list of values, a bitmap its list of bits, and offsets are a list of numbers that never decrease. A slice is
//! the slice of the list. A call that fails changes nothing.
ghost use Rattle.std.specs.Prelude.{◌≡◌, ◌+◌, ◌*◌, ◌<◌, ◌≤◌, ◌^◌, ◌↔◌, ◌⊎◌, [], ◌∷◌, ◌++◌, false, IfOk, IfErr, OnOk, OnErr, IsErrOf, IsOkUnless, IsTrue, length, slice_get, Some, count_by, not, vec_len, take, map, string_bytes, sum, alloc_error};
ghost use Rattle.nest_memory.specs.Bits.{bits_from};
ghost use Rattle.nest_memory.specs.Sublist.{sublist};
ghost use Rattle.nest_memory.specs.Rising.{are_offsets, ends_from, last_of, numbers};
ghost use Rattle.nest_memory.specs.TypeOf.{field_of, type_of};
ghost use Rattle.nest_memory.specs.TypeText.{text_of_type};
ghost use Rattle.nest_memory.specs.declared.error.Error.TheVariants.{Memory, OutOfSpec, Overflow};
ghost use Rattle.nest_memory.specs.declared.error.SpecError.TheVariants.{Offsets as WrongOffsets, ValidityLength};

use nest_memory::bitmap::immutable::Bitmap;
use nest_memory::bitmap::mutable::MutableBitmap;
use nest_memory::buffer::Buffer;
use nest_memory::datatypes::{DataType, Field};
use nest_memory::error::Error;
use nest_memory::offset::Offset;
use nest_memory::offsets::{Offsets, OffsetsBuffer};
use std::alloc::{AllocError, Global};

/// Returns a buffer with the items of the vector. Fails only when an allocation fails.
pub fn buffer_from_vec<T: Copy>(alloc: Global, items: Vec<T>) -> Result<Buffer<T>, Error>
    ensures ok { IfOk result (λ b. b ≡ items.items) }
    ensures err { IsOkUnless result (Memory alloc_error) }
{
    Buffer::from_vec(alloc, items)
}

/// Returns `n` values from offset `o`: the slice of the list.
pub fn slice_of_buffer<T: Copy>(buffer: Buffer<T>, o: usize, n: usize) -> Buffer<T>
    requires { o + n ≤ length buffer }
    ensures { result ≡ sublist buffer o n }
{
    buffer.sliced(o, n)
}

/// Returns the first `count` bits: bit `k` is bit `k % 8` of byte `k / 8`, least significant first ("Validity bitmaps").
/// Fails exactly where there are too few bytes, or when an allocation fails.
pub fn bitmap_from_bytes(alloc: Global, bytes: Vec<u8>, count: usize) -> Result<Bitmap, Error>
    ensures ok { IfOk result (λ b. b ≡ bits_from bytes.items 0 count) }
    ensures short { IsErrOf result (OutOfSpec ValidityLength) ↔ (8 * vec_len bytes < count) }
    ensures errors { IfErr result (λ e. (e ≡ OutOfSpec ValidityLength) ⊎ (e ≡ Memory alloc_error)) }
{
    Bitmap::try_new(alloc, bytes, count)
}

/// Returns the bit at an index.
pub fn bit_at(bits: &Bitmap, i: usize) -> bool
    requires { i < length bits.now }
    ensures { slice_get bits.now i ≡ Some result }
{
    bits.get_bit(i)
}

/// Returns the number of unset bits, also of a slice.
pub fn count_unset_bits(bits: &Bitmap) -> usize
    ensures { result ≡ count_by not bits.now }
{
    bits.unset_bits()
}

/// Slices the bitmap in place, also one that is a slice.
pub fn slice_bitmap(bits: &mut Bitmap, o: usize, n: usize)
    requires { o + n ≤ length bits.old }
    ensures { bits.new ≡ sublist bits.old o n }
{
    bits.slice(o, n);
}

/// Returns a second owner of the same bits.
pub fn clone_bitmap(bits: &Bitmap) -> Result<Bitmap, Error>
    ensures ok { IfOk result (λ b. b ≡ bits.now) }
    ensures err { IsOkUnless result (Memory alloc_error) }
{
    Ok(bits.clone()?)
}

/// Appends one bit, or changes nothing.
pub fn push_bit(bits: &mut MutableBitmap, value: bool) -> Result<(), Error>
    ensures ok { OnOk result (bits.new ≡ bits.old ++ value ∷ []) }
    ensures err { OnErr result (bits.new ≡ bits.old) }
    ensures overflow { IsErrOf result Overflow ↔ (2 ^ 64 ≤ length bits.old + 1) }
    ensures errors { IfErr result (λ e. (e ≡ Overflow) ⊎ (e ≡ Memory alloc_error)) }
{
    bits.push(value)
}

/// Returns the bits pushed so far and leaves none.
pub fn freeze_bits(bits: &mut MutableBitmap) -> Result<Bitmap, Error>
    ensures ok { IfOk result (λ b. b ≡ bits.old) }
    ensures emptied { bits.new ≡ [] }
    ensures err { IsOkUnless result (Memory alloc_error) }
{
    bits.freeze()
}

/// Returns the offsets. Fails exactly where there is none, one is negative or one is below the offset before it, or when an
/// allocation fails.
pub fn offsets_from_vec<O: Offset>(
    alloc: Global,
    offsets: Vec<O>,
) -> Result<OffsetsBuffer<O>, Error>
    ensures ok { IfOk result (λ b. b ≡ numbers O.value offsets.items) }
    ensures wrong { IsErrOf result (OutOfSpec WrongOffsets) ↔ (are_offsets (map O.value offsets.items) ≡ false) }
    ensures errors { IfErr result (λ e. (e ≡ OutOfSpec WrongOffsets) ⊎ (e ≡ Memory alloc_error)) }
{
    OffsetsBuffer::try_new(alloc, offsets)
}

/// Returns where a slot starts and ends: its offset and the next one.
pub fn slot_bounds<O: Offset>(offsets: &OffsetsBuffer<O>, i: usize) -> (usize, usize)
    requires { i + 1 < length offsets.now }
    ensures first { slice_get offsets.now i ≡ Some result.0 }
    ensures second { slice_get offsets.now (i + 1) ≡ Some result.1 }
    ensures ordered { result.0 ≤ result.1 }
{
    offsets.start_end(i)
}

/// Returns `n` offsets from index `o`: the slice of the list.
pub fn slice_of_offsets<O: Offset>(
    offsets: OffsetsBuffer<O>,
    o: usize,
    n: usize,
) -> OffsetsBuffer<O>
    requires within { o + n ≤ length offsets }
    requires some { 1 ≤ n }
    ensures { result ≡ sublist offsets o n }
{
    offsets.sliced(o, n)
}

/// Appends a slot of `count` items, or changes nothing. Fails exactly where its end exceeds the largest offset, or when an
/// allocation fails.
pub fn push_offset<O: Offset>(offsets: &mut Offsets<O>, count: usize) -> Result<(), Error>
    ensures ok { OnOk result (offsets.new ≡ offsets.old ++ (last_of offsets.old + count) ∷ []) }
    ensures err { OnErr result (offsets.new ≡ offsets.old) }
    ensures overflow { IsErrOf result Overflow ↔ (O.largest < last_of offsets.old + count) }
    ensures errors { IfErr result (λ e. (e ≡ Overflow) ⊎ (e ≡ Memory alloc_error)) }
{
    offsets.try_push_usize(count)
}

/// Appends one slot per length, or changes nothing.
pub fn push_lengths<O: Offset>(offsets: &mut Offsets<O>, lengths: &[usize]) -> Result<(), Error>
    ensures ok { OnOk result (offsets.new ≡ offsets.old ++ ends_from (last_of offsets.old) lengths.now) }
    ensures err { OnErr result (offsets.new ≡ offsets.old) }
    ensures overflow { IsErrOf result Overflow ↔ (O.largest < last_of offsets.old + sum lengths.now) }
    ensures errors { IfErr result (λ e. (e ≡ Overflow) ⊎ (e ≡ Memory alloc_error)) }
{
    offsets.try_extend_from_lengths(lengths)
}

/// Keeps the first `n` slots, which have `n + 1` offsets.
pub fn truncate_offsets<O: Offset>(offsets: &mut Offsets<O>, n: usize)
    requires { n < length offsets.old }
    ensures { offsets.new ≡ take (n + 1) offsets.old }
{
    offsets.truncate(n);
}

/// Returns the offsets built so far and leaves the single offset 0.
pub fn freeze_offsets<O: Offset>(offsets: &mut Offsets<O>) -> Result<OffsetsBuffer<O>, Error>
    ensures ok { IfOk result (λ b. b ≡ offsets.old) }
    ensures err { IsOkUnless result (Memory alloc_error) }
    ensures emptied { offsets.new ≡ 0 ∷ [] }
{
    offsets.freeze()
}

/// Returns whether two data types are equal in all parts.
pub fn types_are_equal(a: &DataType, b: &DataType) -> bool
    ensures { IsTrue result ↔ (type_of a.now ≡ type_of b.now) }
{
    *a == *b
}

/// Returns whether two fields are equal in name, data type, nullability and metadata.
pub fn fields_are_equal(field: &Field, other: &Field) -> bool
    ensures { IsTrue result ↔ (field_of field.now ≡ field_of other.now) }
{
    *field == *other
}

/// Returns a copy of a data type, equal in all parts.
pub fn clone_type(data_type: &DataType, alloc: Global) -> Result<DataType, Error>
    ensures ok { IfOk result (λ t. type_of t ≡ type_of data_type.now) }
    ensures err { IsOkUnless result (Memory alloc_error) }
{
    data_type.clone(alloc)
}

/// Returns the text that `Display` writes of a data type.
pub fn display_type(alloc: Global, data_type: &DataType) -> Result<String, AllocError>
    ensures { IfOk result (λ text. string_bytes text ≡ text_of_type (type_of data_type.now)) }
{
    format!(in alloc; "{data_type}")
}
