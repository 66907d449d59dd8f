//! The array traits of primitive arrays; each native type has its own variant.
use crate::any::AnyArray;
use crate::array::{ArrayParts, ArrayVariant};
use nest_flat::any_primitive::AnyPrimitive;
use nest_flat::primitive::PrimitiveArray;
use nest_memory::bitmap::immutable::Bitmap;
use nest_memory::datatypes::DataType;
use nest_memory::error::Error;
use nest_memory::types::{NativeType, days_ms, i256, months_days_ns};
use std::alloc::Global;

impl<T: NativeType> ArrayParts for PrimitiveArray<T> {
    ghost parts = { λ a. a };

    fn len(&self) -> usize {
        PrimitiveArray::len(self)
    }

    fn data_type(&self) -> &DataType {
        PrimitiveArray::data_type(self)
    }

    fn validity(&self) -> Option<&Bitmap> {
        PrimitiveArray::validity(self)
    }

    fn is_null(&self, i: usize) -> bool {
        PrimitiveArray::is_null(self, i)
    }

    fn null_count(&self) -> usize {
        PrimitiveArray::null_count(self)
    }

    fn slice(&mut self, o: usize, n: usize) {
        PrimitiveArray::slice(self, o, n)
    }

    fn again(&self, alloc: Global) -> Result<PrimitiveArray<T>, Error> {
        self.clone(alloc)
    }

    fn part(&self, alloc: Global, o: usize, n: usize) -> Result<PrimitiveArray<T>, Error> {
        PrimitiveArray::part(self, alloc, o, n)
    }
}

impl ArrayVariant for PrimitiveArray<i8> {
    fn into_any(self) -> AnyArray {
        AnyArray::Primitive(AnyPrimitive::Int8(self))
    }
}

impl ArrayVariant for PrimitiveArray<i16> {
    fn into_any(self) -> AnyArray {
        AnyArray::Primitive(AnyPrimitive::Int16(self))
    }
}

impl ArrayVariant for PrimitiveArray<i32> {
    fn into_any(self) -> AnyArray {
        AnyArray::Primitive(AnyPrimitive::Int32(self))
    }
}

impl ArrayVariant for PrimitiveArray<i64> {
    fn into_any(self) -> AnyArray {
        AnyArray::Primitive(AnyPrimitive::Int64(self))
    }
}

impl ArrayVariant for PrimitiveArray<i128> {
    fn into_any(self) -> AnyArray {
        AnyArray::Primitive(AnyPrimitive::Int128(self))
    }
}

impl ArrayVariant for PrimitiveArray<i256> {
    fn into_any(self) -> AnyArray {
        AnyArray::Primitive(AnyPrimitive::Int256(self))
    }
}

impl ArrayVariant for PrimitiveArray<u8> {
    fn into_any(self) -> AnyArray {
        AnyArray::Primitive(AnyPrimitive::UInt8(self))
    }
}

impl ArrayVariant for PrimitiveArray<u16> {
    fn into_any(self) -> AnyArray {
        AnyArray::Primitive(AnyPrimitive::UInt16(self))
    }
}

impl ArrayVariant for PrimitiveArray<u32> {
    fn into_any(self) -> AnyArray {
        AnyArray::Primitive(AnyPrimitive::UInt32(self))
    }
}

impl ArrayVariant for PrimitiveArray<u64> {
    fn into_any(self) -> AnyArray {
        AnyArray::Primitive(AnyPrimitive::UInt64(self))
    }
}

impl ArrayVariant for PrimitiveArray<days_ms> {
    fn into_any(self) -> AnyArray {
        AnyArray::Primitive(AnyPrimitive::DaysMs(self))
    }
}

impl ArrayVariant for PrimitiveArray<months_days_ns> {
    fn into_any(self) -> AnyArray {
        AnyArray::Primitive(AnyPrimitive::MonthDayNano(self))
    }
}
