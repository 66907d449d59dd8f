//! Native types of fixed width, as a body stores their values: little-endian, without padding between values.
ghost use Rattle.std.specs.Prelude.{◌≡◌, ◌≤◌, ◌++◌, length, OnOk, Some};
ghost use Rattle.std.specs.Int.{w128, from_le_bytes, to_le_bytes};
ghost use Rattle.nest_memory.specs.Native.{signed, unsigned};
ghost use Rattle.ipc_arrays.specs.FixedWidth.{ByteFormat, format_of, offset_format, unsigned_format};
ghost use Rattle.ipc_arrays.specs.FixedWidthLaws.{ValueRoundTrips};

use nest_memory::offset::Offset;
use nest_memory::types::{NativeType, days_ms, i256, months_days_ns};
use std::alloc::AllocError;

/// A native type whose values can be read from a body and written to one.
pub trait FixedWidth: NativeType {
    ghost format: { ByteFormat };

    /// Returns the size of a value in bytes.
    fn size() -> usize
        ensures { result ≡ format.size };

    /// Returns the value that the first bytes encode.
    fn from_bytes(bytes: &[u8]) -> Self
        requires { format.size ≤ length bytes.now }
        ensures { Self.numbers result ≡ format.numbers bytes.now };

    /// Appends the bytes that encode the value. They decode to the same value.
    fn put(self, out: &mut Vec<u8>) -> Result<(), AllocError>
        ensures ok { OnOk result (out.new.items ≡ out.old.items ++ format.bytes (Self.numbers self)) }
        ensures round_trips { ValueRoundTrips format (Self.numbers self) };

    // The primitive type of this native type has this byte format.
    ghost formed: { format_of Self.NativeType.PRIMITIVE ≡ Some format };
}

/// A native type of offsets: `i32` or `i64`.
pub trait FixedWidthOffset: FixedWidth + Offset {
    // A value consists of one number, which is the offset.
    ghost one: { (x : Self) → Self.numbers x ≡ signed (Self.value x) };

    // The byte format is that of offsets of this width.
    ghost width: { Self.format ≡ offset_format Self.IS_LARGE };
}

impl FixedWidthOffset for i32 {
    ghost use Rattle.std.proofs.Common.{refl};

    ghost one = { λ x. refl };

    ghost width = { refl };
}

impl FixedWidthOffset for i64 {
    ghost use Rattle.std.proofs.Common.{refl};

    ghost one = { λ x. refl };

    ghost width = { refl };
}

// Returns the number that the first 16 bytes encode.
fn u128_from_le(bytes: &[u8]) -> u128
    requires { 16 ≤ length bytes.now }
    ensures { result ≡ from_le_bytes w128 bytes.now }
{
    u128::from_le_bytes([
        bytes[0], bytes[1], bytes[2], bytes[3], bytes[4], bytes[5], bytes[6], bytes[7], bytes[8],
        bytes[9], bytes[10], bytes[11], bytes[12], bytes[13], bytes[14], bytes[15],
    ])
}

#[tactic(auto, using(crate::specs::FixedWidthLaws::round_trip_u128))]
fn write_u128(out: &mut Vec<u8>, number: u128) -> Result<(), AllocError>
    ensures ok { OnOk result (out.new.items ≡ out.old.items ++ to_le_bytes w128 number) }
    ensures round_trips { ValueRoundTrips (unsigned_format w128) (unsigned number) }
{
    out.extend_from_slice(&number.to_le_bytes())
}

impl FixedWidth for i8 {
    ghost use Rattle.std.proofs.Common.{refl};
    ghost use Rattle.std.specs.Int.{w8};
    ghost use Rattle.ipc_arrays.specs.FixedWidth.{signed_format};

    ghost format = { signed_format w8 };

    fn size() -> usize {
        1
    }

    fn from_bytes(bytes: &[u8]) -> i8 {
        i8::from_le_bytes([bytes[0]])
    }

    #[tactic(auto, using(crate::specs::FixedWidthLaws::round_trip_i8))]
    fn put(self, out: &mut Vec<u8>) -> Result<(), AllocError> {
        out.extend_from_slice(&self.to_le_bytes())
    }

    ghost formed = { refl };
}

impl FixedWidth for i16 {
    ghost use Rattle.std.proofs.Common.{refl};
    ghost use Rattle.std.specs.Int.{w16};
    ghost use Rattle.ipc_arrays.specs.FixedWidth.{signed_format};

    ghost format = { signed_format w16 };

    fn size() -> usize {
        2
    }

    fn from_bytes(bytes: &[u8]) -> i16 {
        i16::from_le_bytes([bytes[0], bytes[1]])
    }

    #[tactic(auto, using(crate::specs::FixedWidthLaws::round_trip_i16))]
    fn put(self, out: &mut Vec<u8>) -> Result<(), AllocError> {
        out.extend_from_slice(&self.to_le_bytes())
    }

    ghost formed = { refl };
}

impl FixedWidth for i32 {
    ghost use Rattle.std.proofs.Common.{refl};
    ghost use Rattle.std.specs.Int.{w32};
    ghost use Rattle.ipc_arrays.specs.FixedWidth.{signed_format};

    ghost format = { signed_format w32 };

    fn size() -> usize {
        4
    }

    fn from_bytes(bytes: &[u8]) -> i32 {
        i32::from_le_bytes([bytes[0], bytes[1], bytes[2], bytes[3]])
    }

    #[tactic(auto, using(crate::specs::FixedWidthLaws::round_trip_i32))]
    fn put(self, out: &mut Vec<u8>) -> Result<(), AllocError> {
        out.extend_from_slice(&self.to_le_bytes())
    }

    ghost formed = { refl };
}

impl FixedWidth for i64 {
    ghost use Rattle.std.proofs.Common.{refl};
    ghost use Rattle.std.specs.Int.{w64};
    ghost use Rattle.ipc_arrays.specs.FixedWidth.{signed_format};

    ghost format = { signed_format w64 };

    fn size() -> usize {
        8
    }

    fn from_bytes(bytes: &[u8]) -> i64 {
        i64::from_le_bytes([
            bytes[0], bytes[1], bytes[2], bytes[3], bytes[4], bytes[5], bytes[6], bytes[7],
        ])
    }

    #[tactic(auto, using(crate::specs::FixedWidthLaws::round_trip_i64))]
    fn put(self, out: &mut Vec<u8>) -> Result<(), AllocError> {
        out.extend_from_slice(&self.to_le_bytes())
    }

    ghost formed = { refl };
}

impl FixedWidth for u8 {
    ghost use Rattle.std.proofs.Common.{refl};
    ghost use Rattle.std.specs.Int.{w8};
    ghost use Rattle.ipc_arrays.specs.FixedWidth.{unsigned_format};

    ghost format = { unsigned_format w8 };

    fn size() -> usize {
        1
    }

    fn from_bytes(bytes: &[u8]) -> u8 {
        u8::from_le_bytes([bytes[0]])
    }

    #[tactic(auto, using(crate::specs::FixedWidthLaws::round_trip_u8))]
    fn put(self, out: &mut Vec<u8>) -> Result<(), AllocError> {
        out.extend_from_slice(&self.to_le_bytes())
    }

    ghost formed = { refl };
}

impl FixedWidth for u16 {
    ghost use Rattle.std.proofs.Common.{refl};
    ghost use Rattle.std.specs.Int.{w16};
    ghost use Rattle.ipc_arrays.specs.FixedWidth.{unsigned_format};

    ghost format = { unsigned_format w16 };

    fn size() -> usize {
        2
    }

    fn from_bytes(bytes: &[u8]) -> u16 {
        u16::from_le_bytes([bytes[0], bytes[1]])
    }

    #[tactic(auto, using(crate::specs::FixedWidthLaws::round_trip_u16))]
    fn put(self, out: &mut Vec<u8>) -> Result<(), AllocError> {
        out.extend_from_slice(&self.to_le_bytes())
    }

    ghost formed = { refl };
}

impl FixedWidth for u32 {
    ghost use Rattle.std.proofs.Common.{refl};
    ghost use Rattle.std.specs.Int.{w32};
    ghost use Rattle.ipc_arrays.specs.FixedWidth.{unsigned_format};

    ghost format = { unsigned_format w32 };

    fn size() -> usize {
        4
    }

    fn from_bytes(bytes: &[u8]) -> u32 {
        u32::from_le_bytes([bytes[0], bytes[1], bytes[2], bytes[3]])
    }

    #[tactic(auto, using(crate::specs::FixedWidthLaws::round_trip_u32))]
    fn put(self, out: &mut Vec<u8>) -> Result<(), AllocError> {
        out.extend_from_slice(&self.to_le_bytes())
    }

    ghost formed = { refl };
}

impl FixedWidth for u64 {
    ghost use Rattle.std.proofs.Common.{refl};
    ghost use Rattle.std.specs.Int.{w64};
    ghost use Rattle.ipc_arrays.specs.FixedWidth.{unsigned_format};

    ghost format = { unsigned_format w64 };

    fn size() -> usize {
        8
    }

    fn from_bytes(bytes: &[u8]) -> u64 {
        u64::from_le_bytes([
            bytes[0], bytes[1], bytes[2], bytes[3], bytes[4], bytes[5], bytes[6], bytes[7],
        ])
    }

    #[tactic(auto, using(crate::specs::FixedWidthLaws::round_trip_u64))]
    fn put(self, out: &mut Vec<u8>) -> Result<(), AllocError> {
        out.extend_from_slice(&self.to_le_bytes())
    }

    ghost formed = { refl };
}

impl FixedWidth for i128 {
    ghost use Rattle.std.proofs.Common.{refl};
    ghost use Rattle.std.specs.Int.{w128};
    ghost use Rattle.ipc_arrays.specs.FixedWidth.{signed_format};

    ghost format = { signed_format w128 };

    fn size() -> usize {
        16
    }

    fn from_bytes(bytes: &[u8]) -> i128 {
        u128_from_le(bytes).cast_signed()
    }

    #[tactic(auto, using(crate::specs::FixedWidthLaws::round_trip_i128))]
    fn put(self, out: &mut Vec<u8>) -> Result<(), AllocError> {
        write_u128(out, self.cast_unsigned())
    }

    ghost formed = { refl };
}

impl FixedWidth for i256 {
    ghost use Rattle.std.proofs.Common.{refl};
    ghost use Rattle.ipc_arrays.specs.FixedWidth.{i256_format};

    ghost format = { i256_format };

    fn size() -> usize {
        32
    }

    fn from_bytes(bytes: &[u8]) -> i256 {
        let (_, high) = bytes.split_at(16);
        i256::from_words(u128_from_le(high).cast_signed(), u128_from_le(bytes))
    }

    fn put(self, out: &mut Vec<u8>) -> Result<(), AllocError> {
        write_u128(out, self.low)?;
        self.high.put(out)
    }

    ghost formed = { refl };
}

impl FixedWidth for days_ms {
    ghost use Rattle.std.proofs.Common.{refl};
    ghost use Rattle.ipc_arrays.specs.FixedWidth.{days_ms_format};

    ghost format = { days_ms_format };

    fn size() -> usize {
        8
    }

    fn from_bytes(bytes: &[u8]) -> days_ms {
        let (_, rest) = bytes.split_at(4);
        days_ms {
            days: i32::from_bytes(bytes),
            milliseconds: i32::from_bytes(rest),
        }
    }

    fn put(self, out: &mut Vec<u8>) -> Result<(), AllocError> {
        self.days.put(out)?;
        self.milliseconds.put(out)
    }

    ghost formed = { refl };
}

impl FixedWidth for months_days_ns {
    ghost use Rattle.std.proofs.Common.{refl};
    ghost use Rattle.ipc_arrays.specs.FixedWidth.{months_days_ns_format};

    ghost format = { months_days_ns_format };

    fn size() -> usize {
        16
    }

    fn from_bytes(bytes: &[u8]) -> months_days_ns {
        let (_, days) = bytes.split_at(4);
        let (_, ns) = days.split_at(4);
        months_days_ns {
            months: i32::from_bytes(bytes),
            days: i32::from_bytes(days),
            ns: i64::from_bytes(ns),
        }
    }

    fn put(self, out: &mut Vec<u8>) -> Result<(), AllocError> {
        self.months.put(out)?;
        self.days.put(out)?;
        self.ns.put(out)
    }

    ghost formed = { refl };
}
