//! `FlatBuilder` for binary.
ghost use Rattle.std.specs.Prelude.{◌≡◌, ◌⊎◌, None, Some, OnOk, OnErr, IfErr, option_map, alloc_error};
ghost use Rattle.std.specs.Option.{option_copied};
ghost use Rattle.nest_model.specs.BuilderItem as items;
ghost use Rattle.nest_build.specs.Words.{Accepted, Memory, Overflow, required_item, requirement_refusal, flat_tree};

use crate::flat::{FlatBuilder, TakesValue};
use nest_array::AnyArray;
use nest_array::array::ArrayVariant;
use nest_flat::binary::BinaryArray;
use nest_flat::binary::mutable::MutableBinaryArray;
use nest_flat::plain::Plain;
use nest_memory::bitmap::mutable::MutableBitmap;
use nest_memory::datatypes::DataType;
use nest_memory::error::{ArgumentError, Error};
use nest_memory::offset::Offset;

/// Appends bytes or a null. `Overflow` if their end exceeds the largest offset.
fn push_bytes<O: Offset>(
    values: &mut MutableBinaryArray<O>,
    item: Option<&[u8]>,
) -> Result<(), Error>
    ensures accepted { OnOk result (Accepted (required_item (option_map items.bytes (option_copied item.entry))) (flat_tree values.old) (flat_tree values.new)) }
    ensures unrefused { OnOk result (requirement_refusal (option_map items.bytes (option_copied item.entry)) (flat_tree values.old) ≡ None) }
    ensures err { OnErr result (values.new ≡ values.old) }
    ensures cause { IfErr result (λ e. (e ≡ Memory alloc_error) ⊎ ((e ≡ Overflow) × (requirement_refusal (option_map items.bytes (option_copied item.entry)) (flat_tree values.old) ≡ Some e))) }
{
    values.known();
    if let Err(error) = values.try_push(item) {
        return Err(error);
    }
    let _len = values.len();
    Ok(())
}

impl<O: Offset> FlatBuilder for MutableBinaryArray<O>
where
    BinaryArray<O>: ArrayVariant,
{
    ghost parts = { λ b. b };

    fn facts(&self) {
        self.known();
    }

    fn count(&self) -> usize {
        self.len()
    }

    fn type_of_slots(&self) -> &DataType {
        self.data_type()
    }

    fn bits(&self) -> Option<&MutableBitmap> {
        self.validity()
    }

    fn bit(&self, i: usize) -> bool {
        self.is_valid(i)
    }

    fn is_value(&self, i: usize, value: &Plain<'_>) -> bool {
        self.known();
        match value {
            Plain::Bytes(bytes) => self.is_valid(i) && self.value(i) == *bytes,
            _ => false,
        }
    }

    fn push_plain(&mut self, value: Option<Plain<'_>>) -> Result<(), Error> {
        self.known();
        match value {
            None => push_bytes(self, None),
            Some(Plain::Bytes(bytes)) => push_bytes(self, Some(bytes)),
            Some(_) => Err(Error::InvalidArgumentError(ArgumentError::ItemType)),
        }
    }

    fn join(&mut self, other: &MutableBinaryArray<O>) -> Result<(), Error> {
        self.known();
        other.known();
        if let Err(error) = self.try_extend_from_self(other) {
            return Err(error);
        }
        let _len = self.len();
        Ok(())
    }

    fn cut(&mut self, n: usize) {
        self.truncate(n);
    }

    fn room(&mut self, additional: usize) -> Result<(), Error> {
        self.known();
        self.reserve(additional)
    }

    fn shrink(&mut self) {
        self.shrink_to_fit();
    }

    fn frozen(&mut self) -> Result<AnyArray, Error> {
        match self.freeze() {
            Ok(array) => Ok(array.into_any()),
            Err(error) => Err(error),
        }
    }
}

impl<'a, O: Offset> TakesValue<&'a [u8]> for MutableBinaryArray<O> {}
