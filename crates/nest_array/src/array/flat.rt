//! The array traits of Boolean, binary and UTF-8 arrays.
use crate::any::AnyArray;
use crate::array::{ArrayParts, ArrayVariant};
use nest_flat::binary::BinaryArray;
use nest_flat::boolean::BooleanArray;
use nest_flat::utf8::Utf8Array;
use nest_memory::bitmap::immutable::Bitmap;
use nest_memory::datatypes::DataType;
use nest_memory::error::Error;
use nest_memory::offset::Offset;
use std::alloc::Global;

impl ArrayParts for BooleanArray {
    ghost parts = { λ a. a };

    fn len(&self) -> usize {
        BooleanArray::len(self)
    }

    fn data_type(&self) -> &DataType {
        BooleanArray::data_type(self)
    }

    fn validity(&self) -> Option<&Bitmap> {
        BooleanArray::validity(self)
    }

    fn is_null(&self, i: usize) -> bool {
        BooleanArray::is_null(self, i)
    }

    fn null_count(&self) -> usize {
        BooleanArray::null_count(self)
    }

    fn slice(&mut self, o: usize, n: usize) {
        BooleanArray::slice(self, o, n)
    }

    fn again(&self, alloc: Global) -> Result<BooleanArray, Error> {
        self.clone(alloc)
    }
}

impl<O: Offset> ArrayParts for BinaryArray<O> {
    ghost parts = { λ a. a };

    fn len(&self) -> usize {
        BinaryArray::len(self)
    }

    fn data_type(&self) -> &DataType {
        BinaryArray::data_type(self)
    }

    fn validity(&self) -> Option<&Bitmap> {
        BinaryArray::validity(self)
    }

    fn is_null(&self, i: usize) -> bool {
        BinaryArray::is_null(self, i)
    }

    fn null_count(&self) -> usize {
        BinaryArray::null_count(self)
    }

    fn slice(&mut self, o: usize, n: usize) {
        BinaryArray::slice(self, o, n)
    }

    fn again(&self, alloc: Global) -> Result<BinaryArray<O>, Error> {
        self.clone(alloc)
    }
}

impl<O: Offset> ArrayParts for Utf8Array<O> {
    ghost parts = { λ a. a };

    fn len(&self) -> usize {
        Utf8Array::len(self)
    }

    fn data_type(&self) -> &DataType {
        Utf8Array::data_type(self)
    }

    fn validity(&self) -> Option<&Bitmap> {
        Utf8Array::validity(self)
    }

    fn is_null(&self, i: usize) -> bool {
        Utf8Array::is_null(self, i)
    }

    fn null_count(&self) -> usize {
        Utf8Array::null_count(self)
    }

    fn slice(&mut self, o: usize, n: usize) {
        Utf8Array::slice(self, o, n)
    }

    fn again(&self, alloc: Global) -> Result<Utf8Array<O>, Error> {
        self.clone(alloc)
    }
}

impl ArrayVariant for BooleanArray {
    fn into_any(self) -> AnyArray {
        AnyArray::Boolean(self)
    }
}

impl ArrayVariant for BinaryArray<i32> {
    fn into_any(self) -> AnyArray {
        AnyArray::Binary(self)
    }
}

impl ArrayVariant for BinaryArray<i64> {
    fn into_any(self) -> AnyArray {
        AnyArray::LargeBinary(self)
    }
}

impl ArrayVariant for Utf8Array<i32> {
    fn into_any(self) -> AnyArray {
        AnyArray::Utf8(self)
    }
}

impl ArrayVariant for Utf8Array<i64> {
    fn into_any(self) -> AnyArray {
        AnyArray::LargeUtf8(self)
    }
}
