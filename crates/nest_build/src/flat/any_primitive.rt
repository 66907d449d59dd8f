//! `FlatBuilder` for primitive builders of any native type.
ghost use Rattle.std.specs.Prelude.{◌≡◌};
ghost use Rattle.nest_memory.specs.declared.datatypes.physical_type.PhysicalType.TheVariants as physical;
ghost use Rattle.nest_build.specs.Words.{built_kind, built_layout, layout_type, physical_type};

use crate::child::same_types;
use crate::flat::FlatBuilder;
use nest_array::AnyArray;
use nest_flat::any_primitive::Native;
use nest_flat::any_primitive::mutable::AnyMutablePrimitive;
use nest_flat::plain::Plain;
use nest_flat::primitive::mutable::MutablePrimitiveArray;
use nest_memory::bitmap::mutable::MutableBitmap;
use nest_memory::datatypes::DataType;
use nest_memory::error::{ArgumentError, Error};

// Evaluates an expression with the builder of any native type.
macro_rules! each_kind {
    ($any:expr, $builder:ident => $body:expr) => {
        match $any {
            AnyMutablePrimitive::Int8($builder) => $body,
            AnyMutablePrimitive::Int16($builder) => $body,
            AnyMutablePrimitive::Int32($builder) => $body,
            AnyMutablePrimitive::Int64($builder) => $body,
            AnyMutablePrimitive::Int128($builder) => $body,
            AnyMutablePrimitive::Int256($builder) => $body,
            AnyMutablePrimitive::UInt8($builder) => $body,
            AnyMutablePrimitive::UInt16($builder) => $body,
            AnyMutablePrimitive::UInt32($builder) => $body,
            AnyMutablePrimitive::UInt64($builder) => $body,
            AnyMutablePrimitive::DaysMs($builder) => $body,
            AnyMutablePrimitive::MonthDayNano($builder) => $body,
        }
    };
}

// Evaluates an expression with two builders of the same native type.
macro_rules! each_pair {
    ($any:expr, $other:expr, $builder:ident, $more:ident => $body:expr) => {
        match $any {
            AnyMutablePrimitive::Int8($builder) => match $other {
                AnyMutablePrimitive::Int8($more) => $body,
                _ => unreachable!(),
            },
            AnyMutablePrimitive::Int16($builder) => match $other {
                AnyMutablePrimitive::Int16($more) => $body,
                _ => unreachable!(),
            },
            AnyMutablePrimitive::Int32($builder) => match $other {
                AnyMutablePrimitive::Int32($more) => $body,
                _ => unreachable!(),
            },
            AnyMutablePrimitive::Int64($builder) => match $other {
                AnyMutablePrimitive::Int64($more) => $body,
                _ => unreachable!(),
            },
            AnyMutablePrimitive::Int128($builder) => match $other {
                AnyMutablePrimitive::Int128($more) => $body,
                _ => unreachable!(),
            },
            AnyMutablePrimitive::Int256($builder) => match $other {
                AnyMutablePrimitive::Int256($more) => $body,
                _ => unreachable!(),
            },
            AnyMutablePrimitive::UInt8($builder) => match $other {
                AnyMutablePrimitive::UInt8($more) => $body,
                _ => unreachable!(),
            },
            AnyMutablePrimitive::UInt16($builder) => match $other {
                AnyMutablePrimitive::UInt16($more) => $body,
                _ => unreachable!(),
            },
            AnyMutablePrimitive::UInt32($builder) => match $other {
                AnyMutablePrimitive::UInt32($more) => $body,
                _ => unreachable!(),
            },
            AnyMutablePrimitive::UInt64($builder) => match $other {
                AnyMutablePrimitive::UInt64($more) => $body,
                _ => unreachable!(),
            },
            AnyMutablePrimitive::DaysMs($builder) => match $other {
                AnyMutablePrimitive::DaysMs($more) => $body,
                _ => unreachable!(),
            },
            AnyMutablePrimitive::MonthDayNano($builder) => match $other {
                AnyMutablePrimitive::MonthDayNano($more) => $body,
                _ => unreachable!(),
            },
        }
    };
}

// The data type of a builder has the physical type of its native type.
fn typed<T: Native>(builder: &MutablePrimitiveArray<T>)
    ensures { physical_type (layout_type builder.now) ≡ physical.Primitive T.PRIMITIVE }
{
    builder.known();
}

/// Shows the prover that the data type has the physical type of the variant. Does nothing at run time.
pub fn known(any: &AnyMutablePrimitive)
    ensures { physical_type (layout_type (built_layout any.now)) ≡ physical.Primitive (built_kind any.now) }
{
    each_kind!(any, builder => typed(builder))
}

impl FlatBuilder for AnyMutablePrimitive {
    ghost parts = { built_layout };

    fn facts(&self) {
        each_kind!(self, builder => builder.facts())
    }

    fn count(&self) -> usize {
        self.len()
    }

    fn type_of_slots(&self) -> &DataType {
        self.data_type()
    }

    fn bits(&self) -> Option<&MutableBitmap> {
        self.validity()
    }

    fn bit(&self, i: usize) -> bool {
        self.is_valid(i)
    }

    fn is_value(&self, i: usize, value: &Plain<'_>) -> bool {
        each_kind!(self, builder => builder.is_value(i, value))
    }

    fn push_plain(&mut self, value: Option<Plain<'_>>) -> Result<(), Error> {
        each_kind!(self, builder => builder.push_plain(value))
    }

    fn join(&mut self, other: &AnyMutablePrimitive) -> Result<(), Error> {
        if !same_types(self.data_type(), other.data_type()) {
            return Err(Error::InvalidArgumentError(ArgumentError::ItemType));
        }
        known(self);
        known(other);
        each_pair!(self, other, builder, more => builder.join(more))
    }

    fn cut(&mut self, n: usize) {
        each_kind!(self, builder => builder.cut(n))
    }

    fn room(&mut self, additional: usize) -> Result<(), Error> {
        each_kind!(self, builder => builder.room(additional))
    }

    fn shrink(&mut self) {
        each_kind!(self, builder => builder.shrink())
    }

    fn frozen(&mut self) -> Result<AnyArray, Error> {
        each_kind!(self, builder => builder.frozen())
    }
}
