//! The traits of values that can be written as JSON: arrays of each type, windows and scalars.
ghost use Rattle.std.specs.Prelude.{◌+◌, ◌≤◌, ◌<◌, ℕ, List};
ghost use Rattle.std.specs.Fmt.{WritesOnOk};
ghost use Rattle.nest_model.specs.Meaning.{len, slot};
ghost use Rattle.json_write.specs.JsonText.{json_of_array, slot_json, slots_json};

use crate::flat::{
    write_binary, write_boolean, write_fixed_size_binary, write_primitive, write_primitive_items,
    write_string,
};
use crate::nested;
use crate::quoting::write_comma;
use crate::scalar::write_scalar;
use nest_array::array::ArrayParts;
use nest_array::{
    AnyArray, AnyScalar, DictionaryArray, FixedSizeBinaryArray, FixedSizeListArray, LargeListArray,
    ListArray, MapArray, NullArray, StructArray, UnionArray, Window,
};
use nest_flat::any_primitive::Native;
use nest_flat::binary::BinaryArray;
use nest_flat::boolean::BooleanArray;
use nest_flat::primitive::PrimitiveArray;
use nest_flat::utf8::Utf8Array;
use nest_memory::offset::Offset;
use std::fmt;
use std::fmt::Formatter;

/// A value that can be written as JSON: an array of any type, a window or a scalar.
pub trait WriteJson {
    /// The JSON text of a value.
    ghost json: { Self → List ℕ };

    /// Writes the value as JSON.
    fn write_json<W: fmt::Write>(&self, f: &mut Formatter<W>) -> fmt::Result
        ensures { WritesOnOk W.write_str_gives f.old result (json self.now) f.new };
}

/// An array whose slots can be written as JSON.
pub trait WriteSlot: ArrayParts {
    /// Writes slot `i`.
    fn write_slot<W: fmt::Write>(&self, f: &mut Formatter<W>, i: usize) -> fmt::Result
        requires { i < len (Self.parts self.now) }
        ensures { WritesOnOk W.write_str_gives f.old result (slot_json (Self.parts self.now) i) f.new };

    /// Writes `count` slots from index `start`, separated by commas.
    fn write_items<W: fmt::Write>(
        &self,
        f: &mut Formatter<W>,
        start: usize,
        count: usize,
    ) -> fmt::Result
        requires { start + count ≤ len (Self.parts self.now) }
        ensures { WritesOnOk W.write_str_gives f.old result (slots_json (Self.parts self.now) start count) f.new }
    {
        let _end = ArrayParts::len(self);
        for k in 0..count {
            write_comma(f, k > 0)?;
            self.write_slot(f, start + k)?;
        }
        Ok(())
    }
}

impl<A: WriteSlot> WriteJson for A {
    ghost use Rattle.json_write.specs.JsonText.{json_of_array};

    ghost json = { λ a. json_of_array (A.parts a) };

    fn write_json<W: fmt::Write>(&self, f: &mut Formatter<W>) -> fmt::Result {
        f.write_str("[")?;
        self.write_items(f, 0, ArrayParts::len(self))?;
        f.write_str("]")
    }
}

impl WriteJson for Window<'_> {
    ghost use Rattle.json_write.specs.JsonText.{json_of_window};

    ghost json = { json_of_window };

    fn write_json<W: fmt::Write>(&self, f: &mut Formatter<W>) -> fmt::Result {
        self.known();
        nested::write_array(f, self.array(), self.offset(), self.len())
    }
}

impl WriteJson for AnyScalar {
    ghost use Rattle.json_write.specs.JsonText.{json_of_slot};

    ghost json = { λ s. json_of_slot s.data_type s.slot };

    fn write_json<W: fmt::Write>(&self, f: &mut Formatter<W>) -> fmt::Result {
        write_scalar(f, self)
    }
}

impl WriteSlot for AnyArray {
    fn write_slot<W: fmt::Write>(&self, f: &mut Formatter<W>, i: usize) -> fmt::Result {
        nested::write_slot(f, self, i)
    }

    fn write_items<W: fmt::Write>(
        &self,
        f: &mut Formatter<W>,
        start: usize,
        count: usize,
    ) -> fmt::Result {
        nested::write_items(f, self, start, count)
    }
}

impl WriteSlot for BooleanArray {
    fn write_slot<W: fmt::Write>(&self, f: &mut Formatter<W>, i: usize) -> fmt::Result {
        write_boolean(f, self, i)
    }
}

impl<T: Native> WriteSlot for PrimitiveArray<T> {
    fn write_slot<W: fmt::Write>(&self, f: &mut Formatter<W>, i: usize) -> fmt::Result {
        write_primitive(f, self, i)
    }

    fn write_items<W: fmt::Write>(
        &self,
        f: &mut Formatter<W>,
        start: usize,
        count: usize,
    ) -> fmt::Result {
        write_primitive_items(f, self, start, count)
    }
}

impl<O: Offset> WriteSlot for BinaryArray<O> {
    fn write_slot<W: fmt::Write>(&self, f: &mut Formatter<W>, i: usize) -> fmt::Result {
        write_binary(f, self, i)
    }
}

impl<O: Offset> WriteSlot for Utf8Array<O> {
    fn write_slot<W: fmt::Write>(&self, f: &mut Formatter<W>, i: usize) -> fmt::Result {
        write_string(f, self, i)
    }
}

impl WriteSlot for FixedSizeBinaryArray {
    fn write_slot<W: fmt::Write>(&self, f: &mut Formatter<W>, i: usize) -> fmt::Result {
        write_fixed_size_binary(f, self, i)
    }
}

impl WriteSlot for ListArray {
    fn write_slot<W: fmt::Write>(&self, f: &mut Formatter<W>, i: usize) -> fmt::Result {
        nested::write_list(f, self, i)
    }
}

impl WriteSlot for LargeListArray {
    fn write_slot<W: fmt::Write>(&self, f: &mut Formatter<W>, i: usize) -> fmt::Result {
        nested::write_large_list(f, self, i)
    }
}

impl WriteSlot for FixedSizeListArray {
    fn write_slot<W: fmt::Write>(&self, f: &mut Formatter<W>, i: usize) -> fmt::Result {
        nested::write_fixed_size_list(f, self, i)
    }
}

impl WriteSlot for MapArray {
    fn write_slot<W: fmt::Write>(&self, f: &mut Formatter<W>, i: usize) -> fmt::Result {
        nested::write_map(f, self, i)
    }
}

impl WriteSlot for StructArray {
    fn write_slot<W: fmt::Write>(&self, f: &mut Formatter<W>, i: usize) -> fmt::Result {
        nested::write_struct(f, self, i)
    }
}

impl WriteSlot for UnionArray {
    fn write_slot<W: fmt::Write>(&self, f: &mut Formatter<W>, i: usize) -> fmt::Result {
        nested::write_union(f, self, i)
    }
}

impl WriteSlot for DictionaryArray {
    fn write_slot<W: fmt::Write>(&self, f: &mut Formatter<W>, i: usize) -> fmt::Result {
        nested::write_dictionary(f, self, i)
    }
}

impl WriteSlot for NullArray {
    fn write_slot<W: fmt::Write>(&self, f: &mut Formatter<W>, _i: usize) -> fmt::Result {
        self.known();
        f.write_str("null")
    }
}
