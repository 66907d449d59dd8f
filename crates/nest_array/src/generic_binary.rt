//! Traits of binary arrays: their bytes, and the offsets or the size of their slots.
ghost use Rattle.std.specs.Prelude.{◌≡◌, ◌≤◌, ◌<◌, ◌%◌, length};
ghost use Rattle.nest_memory.specs.Rising.{numbers};
ghost use Rattle.nest_model.specs.Accessors.{bytes_of};
ghost use Rattle.nest_model.specs.Array.{AreOffsets};
ghost use Rattle.nest_memory.specs.Rising.{last_of};
ghost use Rattle.nest_array.specs.Words.{Layout, layout_type, offsets_of, size_of};

use crate::array::Array;
use crate::fixed_size_binary::FixedSizeBinaryArray;
use nest_flat::binary::BinaryArray;
use nest_flat::utf8::Utf8Array;
use nest_memory::offset::Offset;

/// Arrays of the Variable-size Binary Layout: bytes or UTF-8 strings, by offsets. arrow2's `GenericBinaryArray`.
pub trait GenericBinaryArray<O: Offset>: Array {
    /// Returns the bytes, including those of no slot.
    fn values(&self) -> &[u8]
        ensures { result.now ≡ bytes_of (Self.layout self.now) };

    /// Returns the offsets, one more than slots. They never decrease, and the last one is at most the number of bytes.
    fn offsets(&self) -> &[O]
        ensures shown { numbers O.value result.now ≡ offsets_of (Self.layout self.now) }
        ensures rising { AreOffsets (offsets_of (Self.layout self.now)) }
        ensures within { last_of (offsets_of (Self.layout self.now)) ≤ length (bytes_of (Self.layout self.now)) };
}

impl GenericBinaryArray<i32> for BinaryArray<i32> {
    fn values(&self) -> &[u8] {
        BinaryArray::values(self).as_slice()
    }

    fn offsets(&self) -> &[i32] {
        self.known();
        BinaryArray::offsets(self).as_slice()
    }
}

impl GenericBinaryArray<i64> for BinaryArray<i64> {
    fn values(&self) -> &[u8] {
        BinaryArray::values(self).as_slice()
    }

    fn offsets(&self) -> &[i64] {
        self.known();
        BinaryArray::offsets(self).as_slice()
    }
}

impl GenericBinaryArray<i32> for Utf8Array<i32> {
    fn values(&self) -> &[u8] {
        Utf8Array::values(self).as_slice()
    }

    fn offsets(&self) -> &[i32] {
        self.known();
        Utf8Array::offsets(self).as_slice()
    }
}

impl GenericBinaryArray<i64> for Utf8Array<i64> {
    fn values(&self) -> &[u8] {
        Utf8Array::values(self).as_slice()
    }

    fn offsets(&self) -> &[i64] {
        self.known();
        Utf8Array::offsets(self).as_slice()
    }
}

/// Fixed-size binary arrays, whose values are contiguous. arrow2's `FixedSizeBinaryValues`.
pub trait FixedSizeBinaryValues {
    /// The layout of the array.
    ghost layout: { Self → Layout };

    /// Returns the bytes of all slots, including null slots.
    fn values(&self) -> &[u8]
        ensures bytes { result.now ≡ bytes_of (layout self.now) }
        ensures whole { length result.now % size_of (layout_type (layout self.now)) ≡ 0 };

    /// Returns the number of bytes per slot.
    fn size(&self) -> usize
        ensures typed { result ≡ size_of (layout_type (layout self.now)) }
        ensures some { 0 < result };
}

impl FixedSizeBinaryValues for FixedSizeBinaryArray {
    ghost layout = { λ a. a };

    fn values(&self) -> &[u8] {
        self.known();
        FixedSizeBinaryArray::values(self).as_slice()
    }

    fn size(&self) -> usize {
        FixedSizeBinaryArray::size(self)
    }
}
