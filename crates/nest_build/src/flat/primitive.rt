//! `FlatBuilder` for primitive types.
ghost use Rattle.std.specs.Prelude.{◌≡◌, None, OnOk, OnErr, IsOkUnless, option_map, alloc_error};
ghost use Rattle.nest_model.specs.BuilderItem as items;
ghost use Rattle.nest_build.specs.Words.{Accepted, Memory, required_item, requirement_refusal, flat_tree};

use crate::flat::{FlatBuilder, TakesValue};
use nest_array::AnyArray;
use nest_array::array::ArrayVariant;
use nest_flat::any_primitive::Native;
use nest_flat::plain::Plain;
use nest_flat::primitive::PrimitiveArray;
use nest_flat::primitive::mutable::MutablePrimitiveArray;
use nest_memory::bitmap::mutable::MutableBitmap;
use nest_memory::datatypes::DataType;
use nest_memory::error::{ArgumentError, Error};

/// Appends a native value or a null. Fails only if an allocation fails.
fn push_native<T: Native>(
    values: &mut MutablePrimitiveArray<T>,
    item: Option<T>,
) -> Result<(), Error>
    ensures accepted { OnOk result (Accepted (required_item (option_map (λ x. items.native T.PRIMITIVE (T.numbers x)) item)) (flat_tree values.old) (flat_tree values.new)) }
    ensures unrefused { OnOk result (requirement_refusal (option_map (λ x. items.native T.PRIMITIVE (T.numbers x)) item) (flat_tree values.old) ≡ None) }
    ensures err { OnErr result (values.new ≡ values.old) }
    ensures memory { IsOkUnless result (Memory alloc_error) }
{
    values.known();
    values.try_push(item)?;
    let _len = values.len();
    Ok(())
}

impl<T: Native> FlatBuilder for MutablePrimitiveArray<T>
where
    PrimitiveArray<T>: ArrayVariant,
{
    ghost parts = { λ b. b };

    fn facts(&self) {
        self.known();
    }

    fn count(&self) -> usize {
        self.len()
    }

    fn type_of_slots(&self) -> &DataType {
        self.data_type()
    }

    fn bits(&self) -> Option<&MutableBitmap> {
        self.validity()
    }

    fn bit(&self, i: usize) -> bool {
        self.is_valid(i)
    }

    fn is_value(&self, i: usize, value: &Plain<'_>) -> bool {
        self.known();
        match value {
            Plain::Native(any) => match T::from_any(*any) {
                Some(_) => self.is_valid(i) && self.values()[i].to_any().same_numbers(*any),
                None => false,
            },
            _ => false,
        }
    }

    fn push_plain(&mut self, value: Option<Plain<'_>>) -> Result<(), Error> {
        self.known();
        match value {
            None => push_native(self, None),
            Some(Plain::Native(any)) => match T::from_any(any) {
                Some(value) => push_native(self, Some(value)),
                None => Err(Error::InvalidArgumentError(ArgumentError::ItemType)),
            },
            Some(_) => Err(Error::InvalidArgumentError(ArgumentError::ItemType)),
        }
    }

    fn join(&mut self, other: &MutablePrimitiveArray<T>) -> Result<(), Error> {
        self.known();
        if let Err(error) = self.try_extend_from_self(other) {
            return Err(error);
        }
        let _len = self.len();
        Ok(())
    }

    fn cut(&mut self, n: usize) {
        self.truncate(n);
    }

    fn room(&mut self, additional: usize) -> Result<(), Error> {
        self.known();
        self.reserve(additional)
    }

    fn shrink(&mut self) {
        self.shrink_to_fit();
    }

    fn frozen(&mut self) -> Result<AnyArray, Error> {
        match self.freeze() {
            Ok(array) => Ok(array.into_any()),
            Err(error) => Err(error),
        }
    }
}

impl<T: Native> TakesValue<T> for MutablePrimitiveArray<T> {}
