//! The array traits of null, fixed-size binary, nested and dictionary arrays.
use crate::any::AnyArray;
use crate::array::{ArrayParts, ArrayVariant};
use crate::dictionary::DictionaryArray;
use crate::fixed_size_binary::FixedSizeBinaryArray;
use crate::fixed_size_list::FixedSizeListArray;
use crate::list::ListArray;
use crate::list::large::LargeListArray;
use crate::map::MapArray;
use crate::null::NullArray;
use crate::struct_::StructArray;
use crate::union::UnionArray;
use nest_memory::bitmap::immutable::Bitmap;
use nest_memory::datatypes::DataType;
use nest_memory::error::Error;
use std::alloc::Global;

impl ArrayParts for NullArray {
    ghost parts = { λ a. a };

    fn len(&self) -> usize {
        NullArray::len(self)
    }

    fn data_type(&self) -> &DataType {
        NullArray::data_type(self)
    }

    fn validity(&self) -> Option<&Bitmap> {
        NullArray::validity(self)
    }

    fn is_null(&self, i: usize) -> bool {
        NullArray::is_null(self, i)
    }

    fn null_count(&self) -> usize {
        NullArray::null_count(self)
    }

    fn slice(&mut self, o: usize, n: usize) {
        NullArray::slice(self, o, n)
    }

    fn again(&self, alloc: Global) -> Result<NullArray, Error> {
        self.clone(alloc)
    }
}

impl ArrayVariant for NullArray {
    fn into_any(self) -> AnyArray {
        AnyArray::Null(self)
    }
}

impl ArrayParts for FixedSizeBinaryArray {
    ghost parts = { λ a. a };

    fn len(&self) -> usize {
        FixedSizeBinaryArray::len(self)
    }

    fn data_type(&self) -> &DataType {
        FixedSizeBinaryArray::data_type(self)
    }

    fn validity(&self) -> Option<&Bitmap> {
        FixedSizeBinaryArray::validity(self)
    }

    fn is_null(&self, i: usize) -> bool {
        FixedSizeBinaryArray::is_null(self, i)
    }

    fn null_count(&self) -> usize {
        FixedSizeBinaryArray::null_count(self)
    }

    fn slice(&mut self, o: usize, n: usize) {
        FixedSizeBinaryArray::slice(self, o, n)
    }

    fn again(&self, alloc: Global) -> Result<FixedSizeBinaryArray, Error> {
        self.clone(alloc)
    }
}

impl ArrayVariant for FixedSizeBinaryArray {
    fn into_any(self) -> AnyArray {
        AnyArray::FixedSizeBinary(self)
    }
}

impl ArrayParts for FixedSizeListArray {
    ghost parts = { λ a. a };

    fn len(&self) -> usize {
        FixedSizeListArray::len(self)
    }

    fn data_type(&self) -> &DataType {
        FixedSizeListArray::data_type(self)
    }

    fn validity(&self) -> Option<&Bitmap> {
        FixedSizeListArray::validity(self)
    }

    fn is_null(&self, i: usize) -> bool {
        FixedSizeListArray::is_null(self, i)
    }

    fn null_count(&self) -> usize {
        FixedSizeListArray::null_count(self)
    }

    fn slice(&mut self, o: usize, n: usize) {
        FixedSizeListArray::slice(self, o, n)
    }

    fn again(&self, alloc: Global) -> Result<FixedSizeListArray, Error> {
        self.clone(alloc)
    }
}

impl ArrayVariant for FixedSizeListArray {
    fn into_any(self) -> AnyArray {
        AnyArray::FixedSizeList(self)
    }
}

impl ArrayParts for ListArray {
    ghost parts = { λ a. a };

    fn len(&self) -> usize {
        ListArray::len(self)
    }

    fn data_type(&self) -> &DataType {
        ListArray::data_type(self)
    }

    fn validity(&self) -> Option<&Bitmap> {
        ListArray::validity(self)
    }

    fn is_null(&self, i: usize) -> bool {
        ListArray::is_null(self, i)
    }

    fn null_count(&self) -> usize {
        ListArray::null_count(self)
    }

    fn slice(&mut self, o: usize, n: usize) {
        ListArray::slice(self, o, n)
    }

    fn again(&self, alloc: Global) -> Result<ListArray, Error> {
        self.clone(alloc)
    }
}

impl ArrayVariant for ListArray {
    fn into_any(self) -> AnyArray {
        AnyArray::List(self)
    }
}

impl ArrayParts for LargeListArray {
    ghost parts = { λ a. a };

    fn len(&self) -> usize {
        LargeListArray::len(self)
    }

    fn data_type(&self) -> &DataType {
        LargeListArray::data_type(self)
    }

    fn validity(&self) -> Option<&Bitmap> {
        LargeListArray::validity(self)
    }

    fn is_null(&self, i: usize) -> bool {
        LargeListArray::is_null(self, i)
    }

    fn null_count(&self) -> usize {
        LargeListArray::null_count(self)
    }

    fn slice(&mut self, o: usize, n: usize) {
        LargeListArray::slice(self, o, n)
    }

    fn again(&self, alloc: Global) -> Result<LargeListArray, Error> {
        self.clone(alloc)
    }
}

impl ArrayVariant for LargeListArray {
    fn into_any(self) -> AnyArray {
        AnyArray::LargeList(self)
    }
}

impl ArrayParts for StructArray {
    ghost parts = { λ a. a };

    fn len(&self) -> usize {
        StructArray::len(self)
    }

    fn data_type(&self) -> &DataType {
        StructArray::data_type(self)
    }

    fn validity(&self) -> Option<&Bitmap> {
        StructArray::validity(self)
    }

    fn is_null(&self, i: usize) -> bool {
        StructArray::is_null(self, i)
    }

    fn null_count(&self) -> usize {
        StructArray::null_count(self)
    }

    fn slice(&mut self, o: usize, n: usize) {
        StructArray::slice(self, o, n)
    }

    fn again(&self, alloc: Global) -> Result<StructArray, Error> {
        self.clone(alloc)
    }
}

impl ArrayVariant for StructArray {
    fn into_any(self) -> AnyArray {
        AnyArray::Struct(self)
    }
}

impl ArrayParts for MapArray {
    ghost parts = { λ a. a };

    fn len(&self) -> usize {
        MapArray::len(self)
    }

    fn data_type(&self) -> &DataType {
        MapArray::data_type(self)
    }

    fn validity(&self) -> Option<&Bitmap> {
        MapArray::validity(self)
    }

    fn is_null(&self, i: usize) -> bool {
        MapArray::is_null(self, i)
    }

    fn null_count(&self) -> usize {
        MapArray::null_count(self)
    }

    fn slice(&mut self, o: usize, n: usize) {
        MapArray::slice(self, o, n)
    }

    fn again(&self, alloc: Global) -> Result<MapArray, Error> {
        self.clone(alloc)
    }
}

impl ArrayVariant for MapArray {
    fn into_any(self) -> AnyArray {
        AnyArray::Map(self)
    }
}

impl ArrayParts for UnionArray {
    ghost parts = { λ a. a };

    fn len(&self) -> usize {
        UnionArray::len(self)
    }

    fn data_type(&self) -> &DataType {
        UnionArray::data_type(self)
    }

    fn validity(&self) -> Option<&Bitmap> {
        UnionArray::validity(self)
    }

    fn is_null(&self, i: usize) -> bool {
        UnionArray::is_null(self, i)
    }

    fn null_count(&self) -> usize {
        UnionArray::null_count(self)
    }

    fn slice(&mut self, o: usize, n: usize) {
        UnionArray::slice(self, o, n)
    }

    fn again(&self, alloc: Global) -> Result<UnionArray, Error> {
        self.clone(alloc)
    }
}

impl ArrayVariant for UnionArray {
    fn into_any(self) -> AnyArray {
        AnyArray::Union(self)
    }
}

impl ArrayParts for DictionaryArray {
    ghost parts = { λ a. a };

    fn len(&self) -> usize {
        DictionaryArray::len(self)
    }

    fn data_type(&self) -> &DataType {
        DictionaryArray::data_type(self)
    }

    fn validity(&self) -> Option<&Bitmap> {
        DictionaryArray::validity(self)
    }

    fn is_null(&self, i: usize) -> bool {
        DictionaryArray::is_null(self, i)
    }

    fn null_count(&self) -> usize {
        DictionaryArray::null_count(self)
    }

    fn slice(&mut self, o: usize, n: usize) {
        DictionaryArray::slice(self, o, n)
    }

    fn again(&self, alloc: Global) -> Result<DictionaryArray, Error> {
        self.clone(alloc)
    }
}

impl ArrayVariant for DictionaryArray {
    fn into_any(self) -> AnyArray {
        AnyArray::Dictionary(self)
    }
}
