//! The native types of primitive arrays, after `types` of arrow2.

ghost use Rattle.std.specs.Prelude.{◌≡◌, ℕ, ℤ, pos, List, [], ◌∷◌, replicate, length};
ghost use Rattle.std.specs.Bool.{Decides};
ghost use Rattle.nest_memory.specs.Native.{parts_of};
ghost use Rattle.nest_memory.specs.declared.datatypes.physical_type.PrimitiveType.{PrimitiveType};

use crate::datatypes::physical_type::PrimitiveType;

/// A type of the values of a primitive array, after arrow2's `NativeType`.
///
/// Contracts represent a value as a list of integers: an integer as itself, [`i256`] as its high half and its low half,
/// [`days_ms`] and [`months_days_ns`] as their fields, longest unit first.
pub trait NativeType: Copy + Eq {
    ghost numbers: { Self → List ℤ };

    ghost PRIMITIVE: { PrimitiveType };

    /// The primitive type of arrays of these values.
    const PRIMITIVE: PrimitiveType;

    /// Returns the value whose integers are all 0.
    fn zero() -> Self
        ensures { numbers result ≡ replicate (parts_of PRIMITIVE) (pos 0) };

    // Values with equal integers are equal.
    ghost injective: { (a b : Self) → numbers a ≡ numbers b → a ≡ b };

    // `==` decides whether the integers are equal.
    ghost decides: { (a b : Self) → Decides (Self.eq a b) (numbers a ≡ numbers b) };

    // Each value has as many integers as its primitive type has parts.
    ghost parts: { (a : Self) → length (numbers a) ≡ parts_of PRIMITIVE };
}

/// A signed integer of 256 bits, `high * 2^128 + low`, without arithmetic.
#[allow(non_camel_case_types)]
#[derive(Clone, Copy, Debug, PartialEq, Eq, Hash)]
pub struct i256 {
    /// The upper half, with the sign.
    pub high: i128,
    /// The lower half.
    pub low: u128,
}

impl i256 {
    /// Returns the integer of these halves.
    pub const fn from_words(high: i128, low: u128) -> i256
        ensures { result ≡ record { high = high; low = low } }
    {
        i256 { high, low }
    }
}

/// An interval of days and milliseconds.
#[allow(non_camel_case_types)]
#[derive(Clone, Copy, Debug, PartialEq, Eq, Hash)]
pub struct days_ms {
    pub days: i32,
    pub milliseconds: i32,
}

/// An interval of months, days and nanoseconds.
#[allow(non_camel_case_types)]
#[derive(Clone, Copy, Debug, PartialEq, Eq, Hash)]
pub struct months_days_ns {
    pub months: i32,
    pub days: i32,
    pub ns: i64,
}

impl NativeType for i8 {
    ghost use Rattle.std.proofs.Common.{refl};
    ghost use Rattle.nest_memory.specs.Native.{signed, signed-one, signed-decides};
    ghost use Rattle.nest_memory.specs.declared.datatypes.physical_type.PrimitiveType.TheVariants.{Int8};

    ghost numbers = { signed };

    ghost PRIMITIVE = { Int8 };

    const PRIMITIVE: PrimitiveType = PrimitiveType::Int8;

    fn zero() -> i8 {
        0
    }

    ghost injective = { signed-one };

    ghost decides = { signed-decides };

    ghost parts = { λ _. refl };
}

impl NativeType for i16 {
    ghost use Rattle.std.proofs.Common.{refl};
    ghost use Rattle.nest_memory.specs.Native.{signed, signed-one, signed-decides};
    ghost use Rattle.nest_memory.specs.declared.datatypes.physical_type.PrimitiveType.TheVariants.{Int16};

    ghost numbers = { signed };

    ghost PRIMITIVE = { Int16 };

    const PRIMITIVE: PrimitiveType = PrimitiveType::Int16;

    fn zero() -> i16 {
        0
    }

    ghost injective = { signed-one };

    ghost decides = { signed-decides };

    ghost parts = { λ _. refl };
}

impl NativeType for i32 {
    ghost use Rattle.std.proofs.Common.{refl};
    ghost use Rattle.nest_memory.specs.Native.{signed, signed-one, signed-decides};
    ghost use Rattle.nest_memory.specs.declared.datatypes.physical_type.PrimitiveType.TheVariants.{Int32};

    ghost numbers = { signed };

    ghost PRIMITIVE = { Int32 };

    const PRIMITIVE: PrimitiveType = PrimitiveType::Int32;

    fn zero() -> i32 {
        0
    }

    ghost injective = { signed-one };

    ghost decides = { signed-decides };

    ghost parts = { λ _. refl };
}

impl NativeType for i64 {
    ghost use Rattle.std.proofs.Common.{refl};
    ghost use Rattle.nest_memory.specs.Native.{signed, signed-one, signed-decides};
    ghost use Rattle.nest_memory.specs.declared.datatypes.physical_type.PrimitiveType.TheVariants.{Int64};

    ghost numbers = { signed };

    ghost PRIMITIVE = { Int64 };

    const PRIMITIVE: PrimitiveType = PrimitiveType::Int64;

    fn zero() -> i64 {
        0
    }

    ghost injective = { signed-one };

    ghost decides = { signed-decides };

    ghost parts = { λ _. refl };
}

impl NativeType for i128 {
    ghost use Rattle.std.proofs.Common.{refl};
    ghost use Rattle.nest_memory.specs.Native.{signed, signed-one, signed-decides};
    ghost use Rattle.nest_memory.specs.declared.datatypes.physical_type.PrimitiveType.TheVariants.{Int128};

    ghost numbers = { signed };

    ghost PRIMITIVE = { Int128 };

    const PRIMITIVE: PrimitiveType = PrimitiveType::Int128;

    fn zero() -> i128 {
        0
    }

    ghost injective = { signed-one };

    ghost decides = { signed-decides };

    ghost parts = { λ _. refl };
}

impl NativeType for u8 {
    ghost use Rattle.std.proofs.Common.{refl};
    ghost use Rattle.nest_memory.specs.Native.{unsigned, unsigned-one, unsigned-decides};
    ghost use Rattle.nest_memory.specs.declared.datatypes.physical_type.PrimitiveType.TheVariants.{UInt8};

    ghost numbers = { unsigned };

    ghost PRIMITIVE = { UInt8 };

    const PRIMITIVE: PrimitiveType = PrimitiveType::UInt8;

    fn zero() -> u8 {
        0
    }

    ghost injective = { unsigned-one };

    ghost decides = { unsigned-decides };

    ghost parts = { λ _. refl };
}

impl NativeType for u16 {
    ghost use Rattle.std.proofs.Common.{refl};
    ghost use Rattle.nest_memory.specs.Native.{unsigned, unsigned-one, unsigned-decides};
    ghost use Rattle.nest_memory.specs.declared.datatypes.physical_type.PrimitiveType.TheVariants.{UInt16};

    ghost numbers = { unsigned };

    ghost PRIMITIVE = { UInt16 };

    const PRIMITIVE: PrimitiveType = PrimitiveType::UInt16;

    fn zero() -> u16 {
        0
    }

    ghost injective = { unsigned-one };

    ghost decides = { unsigned-decides };

    ghost parts = { λ _. refl };
}

impl NativeType for u32 {
    ghost use Rattle.std.proofs.Common.{refl};
    ghost use Rattle.nest_memory.specs.Native.{unsigned, unsigned-one, unsigned-decides};
    ghost use Rattle.nest_memory.specs.declared.datatypes.physical_type.PrimitiveType.TheVariants.{UInt32};

    ghost numbers = { unsigned };

    ghost PRIMITIVE = { UInt32 };

    const PRIMITIVE: PrimitiveType = PrimitiveType::UInt32;

    fn zero() -> u32 {
        0
    }

    ghost injective = { unsigned-one };

    ghost decides = { unsigned-decides };

    ghost parts = { λ _. refl };
}

impl NativeType for u64 {
    ghost use Rattle.std.proofs.Common.{refl};
    ghost use Rattle.nest_memory.specs.Native.{unsigned, unsigned-one, unsigned-decides};
    ghost use Rattle.nest_memory.specs.declared.datatypes.physical_type.PrimitiveType.TheVariants.{UInt64};

    ghost numbers = { unsigned };

    ghost PRIMITIVE = { UInt64 };

    const PRIMITIVE: PrimitiveType = PrimitiveType::UInt64;

    fn zero() -> u64 {
        0
    }

    ghost injective = { unsigned-one };

    ghost decides = { unsigned-decides };

    ghost parts = { λ _. refl };
}

impl NativeType for i256 {
    ghost use Rattle.std.proofs.Common.{refl};
    ghost use Rattle.nest_memory.specs.NativeStructs.{halves, halves-one, halves-decides};
    ghost use Rattle.nest_memory.specs.declared.datatypes.physical_type.PrimitiveType.TheVariants.{Int256};

    ghost numbers = { halves };

    ghost PRIMITIVE = { Int256 };

    const PRIMITIVE: PrimitiveType = PrimitiveType::Int256;

    fn zero() -> i256 {
        i256 { high: 0, low: 0 }
    }

    ghost injective = { halves-one };

    ghost decides = { halves-decides };

    ghost parts = { λ _. refl };
}

impl NativeType for days_ms {
    ghost use Rattle.std.proofs.Common.{refl};
    ghost use Rattle.nest_memory.specs.NativeStructs.{days_numbers, days-one, days-decides};
    ghost use Rattle.nest_memory.specs.declared.datatypes.physical_type.PrimitiveType.TheVariants.{DaysMs};

    ghost numbers = { days_numbers };

    ghost PRIMITIVE = { DaysMs };

    const PRIMITIVE: PrimitiveType = PrimitiveType::DaysMs;

    fn zero() -> days_ms {
        days_ms {
            days: 0,
            milliseconds: 0,
        }
    }

    ghost injective = { days-one };

    ghost decides = { days-decides };

    ghost parts = { λ _. refl };
}

impl NativeType for months_days_ns {
    ghost use Rattle.std.proofs.Common.{refl};
    ghost use Rattle.nest_memory.specs.NativeStructs.{months_numbers, months-one, months-decides};
    ghost use Rattle.nest_memory.specs.declared.datatypes.physical_type.PrimitiveType.TheVariants.{MonthDayNano};

    ghost numbers = { months_numbers };

    ghost PRIMITIVE = { MonthDayNano };

    const PRIMITIVE: PrimitiveType = PrimitiveType::MonthDayNano;

    fn zero() -> months_days_ns {
        months_days_ns {
            months: 0,
            days: 0,
            ns: 0,
        }
    }

    ghost injective = { months-one };

    ghost decides = { months-decides };

    ghost parts = { λ _. refl };
}
