//! A flat builder of any kind.
ghost use Rattle.std.specs.Prelude.{◌≡◌};
ghost use Rattle.nest_any.specs.Flat.{flat_layout, flat_kind, values_tree};
ghost use Rattle.nest_any.specs.Words.{builder_len, builder_type, layout_type, physical_type, type_of};

use nest_array::AnyArray;
use nest_build::array::MutableArray;
use nest_build::child::same_types;
use nest_build::fixed_size_binary::MutableFixedSizeBinaryArray;
use nest_build::flat::{FlatBuilder, TakesValue, any_primitive};
use nest_flat::any_primitive::mutable::AnyMutablePrimitive;
use nest_flat::binary::mutable::MutableBinaryArray;
use nest_flat::boolean::mutable::MutableBooleanArray;
use nest_flat::plain::{AsPlain, Plain};
use nest_flat::utf8::mutable::MutableUtf8Array;
use nest_memory::bitmap::mutable::MutableBitmap;
use nest_memory::datatypes::DataType;
use nest_memory::error::{ArgumentError, Error};

/// A builder of values without children, in the variant of its kind. It accepts values of its kind only: `try_push` of
/// another value returns `ItemType`.
#[derive(Drop)]
pub enum AnyMutableFlat {
    Boolean(MutableBooleanArray),
    Primitive(AnyMutablePrimitive),
    Binary(MutableBinaryArray<i32>),
    LargeBinary(MutableBinaryArray<i64>),
    Utf8(MutableUtf8Array<i32>),
    LargeUtf8(MutableUtf8Array<i64>),
    FixedSizeBinary(MutableFixedSizeBinaryArray),
}

// Evaluates an expression with the builder of any kind.
macro_rules! each_flat {
    ($any:expr, $builder:ident => $body:expr) => {
        match $any {
            AnyMutableFlat::Boolean($builder) => $body,
            AnyMutableFlat::Primitive($builder) => $body,
            AnyMutableFlat::Binary($builder) => $body,
            AnyMutableFlat::LargeBinary($builder) => $body,
            AnyMutableFlat::Utf8($builder) => $body,
            AnyMutableFlat::LargeUtf8($builder) => $body,
            AnyMutableFlat::FixedSizeBinary($builder) => $body,
        }
    };
}

// Appends the rows of another builder of the same kind.
macro_rules! join_pair {
    ($kind:ident, $builder:ident, $other:expr) => {
        match $other {
            AnyMutableFlat::$kind(more) => FlatBuilder::join($builder, more),
            _ => unreachable!(),
        }
    };
}

// The data type of a builder has the physical type of its variant.
fn known(any: &AnyMutableFlat)
    ensures { physical_type (layout_type (flat_layout any.now)) ≡ flat_kind any.now }
{
    match any {
        AnyMutableFlat::Boolean(builder) => builder.known(),
        AnyMutableFlat::Primitive(builder) => any_primitive::known(builder),
        AnyMutableFlat::Binary(builder) => builder.known(),
        AnyMutableFlat::LargeBinary(builder) => builder.known(),
        AnyMutableFlat::Utf8(builder) => builder.known(),
        AnyMutableFlat::LargeUtf8(builder) => builder.known(),
        AnyMutableFlat::FixedSizeBinary(builder) => builder.known(),
    }
}

impl AnyMutableFlat {
    /// Returns the data type and the number of rows, with one match on the kind.
    pub(crate) fn typed_len(&self) -> (&DataType, usize)
        ensures data_type { type_of result.0.now ≡ builder_type (values_tree self.now) }
        ensures len { result.1 ≡ builder_len (values_tree self.now) }
    {
        each_flat!(self, builder => (MutableArray::data_type(builder), MutableArray::len(builder)))
    }
}

impl FlatBuilder for AnyMutableFlat {
    ghost parts = { flat_layout };

    fn facts(&self) {
        each_flat!(self, builder => FlatBuilder::facts(builder))
    }

    fn count(&self) -> usize {
        each_flat!(self, builder => FlatBuilder::count(builder))
    }

    fn type_of_slots(&self) -> &DataType {
        each_flat!(self, builder => FlatBuilder::type_of_slots(builder))
    }

    fn bits(&self) -> Option<&MutableBitmap> {
        each_flat!(self, builder => FlatBuilder::bits(builder))
    }

    fn bit(&self, i: usize) -> bool {
        each_flat!(self, builder => FlatBuilder::bit(builder, i))
    }

    fn is_value(&self, i: usize, value: &Plain<'_>) -> bool {
        each_flat!(self, builder => FlatBuilder::is_value(builder, i, value))
    }

    fn push_plain(&mut self, value: Option<Plain<'_>>) -> Result<(), Error> {
        each_flat!(self, builder => FlatBuilder::push_plain(builder, value))
    }

    fn join(&mut self, other: &AnyMutableFlat) -> Result<(), Error> {
        if !same_types(self.type_of_slots(), other.type_of_slots()) {
            return Err(Error::InvalidArgumentError(ArgumentError::ItemType));
        }
        known(self);
        known(other);
        match self {
            AnyMutableFlat::Boolean(builder) => join_pair!(Boolean, builder, other),
            AnyMutableFlat::Primitive(builder) => join_pair!(Primitive, builder, other),
            AnyMutableFlat::Binary(builder) => join_pair!(Binary, builder, other),
            AnyMutableFlat::LargeBinary(builder) => join_pair!(LargeBinary, builder, other),
            AnyMutableFlat::Utf8(builder) => join_pair!(Utf8, builder, other),
            AnyMutableFlat::LargeUtf8(builder) => join_pair!(LargeUtf8, builder, other),
            AnyMutableFlat::FixedSizeBinary(builder) => join_pair!(FixedSizeBinary, builder, other),
        }
    }

    fn cut(&mut self, n: usize) {
        each_flat!(self, builder => FlatBuilder::cut(builder, n))
    }

    fn room(&mut self, additional: usize) -> Result<(), Error> {
        each_flat!(self, builder => FlatBuilder::room(builder, additional))
    }

    fn shrink(&mut self) {
        each_flat!(self, builder => FlatBuilder::shrink(builder))
    }

    fn frozen(&mut self) -> Result<AnyArray, Error> {
        each_flat!(self, builder => FlatBuilder::frozen(builder))
    }
}

impl<A: AsPlain> TakesValue<A> for AnyMutableFlat {}
