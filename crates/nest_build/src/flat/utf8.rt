//! `FlatBuilder` for UTF-8 strings.
ghost use Rattle.std.specs.Prelude.{◌≡◌, ◌<◌, ◌⊎◌, None, Some, OnOk, OnErr, IfErr, option_map, alloc_error};
ghost use Rattle.std.specs.Option.{option_copied};
ghost use Rattle.nest_model.specs.BuilderItem as items;
ghost use Rattle.nest_model.specs.Meaning.{where_valid};
ghost use Rattle.nest_model.specs.Slot as slots;
ghost use Rattle.nest_build.specs.Words.{Accepted, Memory, Overflow, required_item, requirement_refusal, flat_tree, len, slot, validity_of};

use crate::flat::{FlatBuilder, TakesValue};
use nest_array::AnyArray;
use nest_array::array::ArrayVariant;
use nest_flat::plain::Plain;
use nest_flat::utf8::Utf8Array;
use nest_flat::utf8::mutable::MutableUtf8Array;
use nest_memory::bitmap::mutable::MutableBitmap;
use nest_memory::datatypes::DataType;
use nest_memory::error::{ArgumentError, Error};
use nest_memory::offset::Offset;

/// Appends a string or a null. `Overflow` if its end exceeds the largest offset.
fn push_utf8<O: Offset>(values: &mut MutableUtf8Array<O>, item: Option<&str>) -> Result<(), Error>
    ensures accepted { OnOk result (Accepted (required_item (option_map items.utf8 (option_copied item.entry))) (flat_tree values.old) (flat_tree values.new)) }
    ensures unrefused { OnOk result (requirement_refusal (option_map items.utf8 (option_copied item.entry)) (flat_tree values.old) ≡ None) }
    ensures err { OnErr result (values.new ≡ values.old) }
    ensures cause { IfErr result (λ e. (e ≡ Memory alloc_error) ⊎ ((e ≡ Overflow) × (requirement_refusal (option_map items.utf8 (option_copied item.entry)) (flat_tree values.old) ≡ Some e))) }
{
    values.known();
    if let Err(error) = values.try_push(item) {
        return Err(error);
    }
    let _len = values.len();
    Ok(())
}

/// Returns the bytes of slot `i`. Unlike `value`, it does not check that they are UTF-8; a comparison does not need it.
fn bytes_at<O: Offset>(texts: &MutableUtf8Array<O>, i: usize) -> &[u8]
    requires { i < len texts.now }
    ensures { slot texts.now i ≡ where_valid (validity_of texts.now) i (slots.utf8 result.now) }
{
    texts.known();
    texts.offsets().known();
    let (start, end) = texts.offsets().start_end(i);
    &texts.values().as_slice()[start..end]
}

impl<O: Offset> FlatBuilder for MutableUtf8Array<O>
where
    Utf8Array<O>: ArrayVariant,
{
    ghost parts = { λ b. b };

    fn facts(&self) {
        self.known();
    }

    fn count(&self) -> usize {
        self.len()
    }

    fn type_of_slots(&self) -> &DataType {
        self.data_type()
    }

    fn bits(&self) -> Option<&MutableBitmap> {
        self.validity()
    }

    fn bit(&self, i: usize) -> bool {
        self.is_valid(i)
    }

    fn is_value(&self, i: usize, value: &Plain<'_>) -> bool {
        self.known();
        match value {
            Plain::Text(text) => self.is_valid(i) && *bytes_at(self, i) == *text.as_bytes(),
            _ => false,
        }
    }

    fn push_plain(&mut self, value: Option<Plain<'_>>) -> Result<(), Error> {
        self.known();
        match value {
            None => push_utf8(self, None),
            Some(Plain::Text(text)) => push_utf8(self, Some(text)),
            Some(_) => Err(Error::InvalidArgumentError(ArgumentError::ItemType)),
        }
    }

    fn join(&mut self, other: &MutableUtf8Array<O>) -> Result<(), Error> {
        self.known();
        other.known();
        if let Err(error) = self.try_extend_from_self(other) {
            return Err(error);
        }
        let _len = self.len();
        Ok(())
    }

    fn cut(&mut self, n: usize) {
        self.truncate(n);
    }

    fn room(&mut self, additional: usize) -> Result<(), Error> {
        self.known();
        self.reserve(additional)
    }

    fn shrink(&mut self) {
        self.shrink_to_fit();
    }

    fn frozen(&mut self) -> Result<AnyArray, Error> {
        match self.freeze() {
            Ok(array) => Ok(array.into_any()),
            Err(error) => Err(error),
        }
    }
}

impl<'a, O: Offset> TakesValue<&'a str> for MutableUtf8Array<O> {}
