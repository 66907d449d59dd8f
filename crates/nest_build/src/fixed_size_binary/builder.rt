//! `FlatBuilder` for fixed-size binary.
ghost use Rattle.std.specs.Prelude.{◌≡◌, ◌⊎◌, None, Some, OnOk, OnErr, IfErr, option_map, alloc_error};
ghost use Rattle.std.specs.Option.{option_copied};
ghost use Rattle.nest_model.specs.BuilderItem as items;
ghost use Rattle.nest_build.specs.Words.{Accepted, InvalidArgumentError, ItemSize, Memory, bytes_refusal, required_item, flat_tree};

use crate::fixed_size_binary::MutableFixedSizeBinaryArray;
use crate::flat::{FlatBuilder, TakesValue};
use nest_array::{AnyArray, FixedSizeBinaryValues};
use nest_flat::plain::Plain;
use nest_memory::bitmap::mutable::MutableBitmap;
use nest_memory::datatypes::DataType;
use nest_memory::error::{ArgumentError, Error};

/// Appends bytes or a null. `ItemSize` if the bytes have another size.
fn push_sized(values: &mut MutableFixedSizeBinaryArray, item: Option<&[u8]>) -> Result<(), Error>
    ensures accepted { OnOk result (Accepted (required_item (option_map items.bytes (option_copied item.entry))) (flat_tree values.old) (flat_tree values.new)) }
    ensures unrefused { OnOk result (bytes_refusal (option_copied item.entry) values.old ≡ None) }
    ensures err { OnErr result (values.new ≡ values.old) }
    ensures cause { IfErr result (λ e. (e ≡ Memory alloc_error) ⊎ ((e ≡ InvalidArgumentError ItemSize) × (bytes_refusal (option_copied item.entry) values.old ≡ Some e))) }
{
    values.known();
    if let Err(error) = values.try_push(item) {
        return Err(error);
    }
    let _bytes = values.byte_count();
    let _len = values.len();
    Ok(())
}

impl FlatBuilder for MutableFixedSizeBinaryArray {
    ghost parts = { λ b. b };

    fn facts(&self) {
        self.known();
    }

    fn count(&self) -> usize {
        self.len()
    }

    fn type_of_slots(&self) -> &DataType {
        self.data_type()
    }

    fn bits(&self) -> Option<&MutableBitmap> {
        self.validity()
    }

    fn bit(&self, i: usize) -> bool {
        self.is_valid(i)
    }

    fn is_value(&self, i: usize, value: &Plain<'_>) -> bool {
        self.known();
        match value {
            Plain::Bytes(bytes) => self.is_valid(i) && self.value(i) == *bytes,
            _ => false,
        }
    }

    fn push_plain(&mut self, value: Option<Plain<'_>>) -> Result<(), Error> {
        self.known();
        match value {
            None => push_sized(self, None),
            Some(Plain::Bytes(bytes)) => push_sized(self, Some(bytes)),
            Some(_) => Err(Error::InvalidArgumentError(ArgumentError::ItemType)),
        }
    }

    fn join(&mut self, other: &MutableFixedSizeBinaryArray) -> Result<(), Error> {
        self.known();
        if let Err(error) = self.try_extend_from_self(other) {
            return Err(error);
        }
        let _bytes = self.byte_count();
        let _len = self.len();
        Ok(())
    }

    fn cut(&mut self, n: usize) {
        self.truncate(n);
    }

    fn room(&mut self, additional: usize) -> Result<(), Error> {
        self.known();
        self.reserve(additional)
    }

    fn shrink(&mut self) {
        self.shrink_to_fit();
    }

    fn frozen(&mut self) -> Result<AnyArray, Error> {
        match self.freeze() {
            Ok(array) => Ok(AnyArray::FixedSizeBinary(array)),
            Err(error) => Err(error),
        }
    }
}

impl<'a> TakesValue<&'a [u8]> for MutableFixedSizeBinaryArray {}

impl FixedSizeBinaryValues for MutableFixedSizeBinaryArray {
    ghost layout = { λ b. b };

    fn values(&self) -> &[u8] {
        self.known();
        MutableFixedSizeBinaryArray::values(self).as_slice()
    }

    fn size(&self) -> usize {
        MutableFixedSizeBinaryArray::size(self)
    }
}
