//! Steps of iterators from both ends, as text.
use nest_array::{AnyArray, AnyScalar, ScalarValue};
use nest_flat::any_primitive::AnyPrimitive;
use nest_memory::error::Error;
use nest_scan::{DoubleEnded, Elements, ElementsIter};
use std::alloc::Global;
use std::process::Abort;

/// What an index returns. Spelling it lets it go.
pub(crate) trait Given: Drop {
    fn spell(self, text: &mut String) -> Result<(), Error>;
}

impl Given for usize {
    fn spell(self, text: &mut String) -> Result<(), Error> {
        write!(text, "{self}")?;
        Ok(())
    }
}

impl<'a> Given for &'a str {
    fn spell(self, text: &mut String) -> Result<(), Error> {
        text.push_str(self)?;
        Ok(())
    }
}

impl<'a> Given for &'a [u8] {
    fn spell(self, text: &mut String) -> Result<(), Error> {
        for byte in self {
            text.push(char::from(*byte))?;
        }
        Ok(())
    }
}

impl Given for AnyScalar {
    fn spell(self, text: &mut String) -> Result<(), Error> {
        let decoded = spell_scalar(&self, text);
        drop(self);
        decoded
    }
}

/// The scalars of a record in braces.
impl Given for Vec<AnyScalar> {
    fn spell(self, text: &mut String) -> Result<(), Error> {
        let decoded = spell_record(&self, text);
        drop(self);
        decoded
    }
}

/// The slots of an array in brackets, of records their columns in braces, of other arrays how many they are.
impl Given for AnyArray {
    fn spell(self, text: &mut String) -> Result<(), Error> {
        let decoded = spell_array(&self, text);
        drop(self);
        decoded
    }
}

impl<T: Given> Given for Option<T> {
    fn spell(self, text: &mut String) -> Result<(), Error> {
        match self {
            Some(item) => item.spell(text),
            None => Ok(text.push_str("null")?),
        }
    }
}

impl<T: Given> Given for Result<T, Error> {
    fn spell(self, text: &mut String) -> Result<(), Error> {
        match self {
            Ok(item) => item.spell(text),
            Err(error) => Err(error),
        }
    }
}

fn spell_scalar(scalar: &AnyScalar, text: &mut String) -> Result<(), Error> {
    match scalar.value() {
        ScalarValue::Boolean(boolean) => write!(text, "{boolean}")?,
        ScalarValue::Native(native) => write!(text, "{native:?}")?,
        ScalarValue::Text(letters) => text.push_str(letters)?,
        _ => text.push_str("another kind")?,
    }
    Ok(())
}

fn spell_record(scalars: &[AnyScalar], text: &mut String) -> Result<(), Error> {
    text.push_str("{")?;
    for scalar in scalars {
        spell_scalar(scalar, text)?;
        text.push_str(";")?;
    }
    text.push_str("}")?;
    Ok(())
}

fn spell_numbers(numbers: &[i32], text: &mut String) -> Result<(), Error> {
    text.push_str("[")?;
    for number in numbers {
        write!(text, "{number};")?;
    }
    text.push_str("]")?;
    Ok(())
}

fn spell_flat(array: &AnyArray, text: &mut String) -> Result<(), Error> {
    match array {
        AnyArray::Primitive(AnyPrimitive::Int32(numbers)) => {
            spell_numbers(numbers.values().as_slice(), text)
        }
        AnyArray::Utf8(texts) if texts.len() == 1 => Ok(text.push_str(texts.value(0))?),
        _ => Ok(write!(text, "{} slots", array.len())?),
    }
}

fn spell_columns(columns: &[AnyArray], text: &mut String) -> Result<(), Error> {
    text.push_str("{")?;
    for column in columns {
        spell_flat(column, text)?;
        text.push_str(";")?;
    }
    text.push_str("}")?;
    Ok(())
}

fn spell_array(array: &AnyArray, text: &mut String) -> Result<(), Error> {
    match array {
        AnyArray::Struct(records) => spell_columns(records.values(), text),
        _ => spell_flat(array, text),
    }
}

/// Appends the item as text, and a space; none is a dash.
pub(crate) fn spell<T: Given>(item: Option<T>, text: &mut String) -> Result<(), Error> {
    match item {
        Some(item) => item.spell(text)?,
        None => text.push_str("-")?,
    }
    text.push_str(" ")?;
    Ok(())
}

/// Goes the turns of a walk: `>` the next item, `<` the next from the back, and else how many are left.
pub(crate) fn walk<S: Elements + DoubleEnded>(
    items: &mut ElementsIter<S>,
    turns: &str,
    text: &mut String,
) -> Result<(), Error>
where
    S::Item: Given,
{
    for turn in turns.bytes() {
        match turn {
            b'>' => spell(items.next(), text)?,
            b'<' => spell(items.next_back(), text)?,
            _ => spell(Some(items.len()), text)?,
        }
    }
    Ok(())
}

/// What a walk over these items encodes.
pub(crate) fn walked<S: Elements + DoubleEnded>(
    alloc: Global,
    items: ElementsIter<S>,
    turns: &str,
) -> Result<String, Error>
where
    S::Item: Given,
{
    let mut items = items;
    let mut text = String::new(alloc);
    let outcome = walk(&mut items, turns, &mut text);
    drop(items);
    match outcome {
        Ok(()) => Ok(text),
        Err(error) => Err(error),
    }
}

/// That a walk encodes this.
pub(crate) fn expect_decoded(rt: &impl Abort, found: Result<String, Error>, wanted: &str) {
    match found {
        Ok(text) => {
            assert!(rt; text.as_str() == wanted);
            drop(text);
        }
        Err(_) => {
            assert!(rt; false);
        }
    }
}
