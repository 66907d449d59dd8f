//! The parts of a data type. Each method looks through extension types.
ghost use Rattle.std.specs.Prelude.{◌≡◌, ◌↔◌, IsTrue, Some, option_map, unwrap_or, length};
ghost use Rattle.nest_memory.specs.TypeOf.{type_of, field_of, field_list_of};
ghost use Rattle.nest_memory.specs.TypeTree.{count_fields, fields_of, fixed_size, has_pairs, ids_of, is_dense, is_ordered, is_pair, item_field, item_type, key_type, mode_of, own_fields, size_of, value_type};
ghost use Rattle.nest_memory.specs.declared.datatypes.UnionMode.TheVariants.{Dense};

use crate::datatypes::field::Field;
use crate::datatypes::{DataType, IntegerType, UnionMode};

impl DataType {
    /// Returns the field of the items of a list of any kind, or of the entries of a map.
    pub fn item_field(&self) -> Option<&Field>
        ensures field { option_map (λ f. field_of f.now) result ≡ item_field (type_of self.now) }
    {
        match self {
            DataType::List(field)
            | DataType::LargeList(field)
            | DataType::FixedSizeList(field, _)
            | DataType::Map(field, _) => Some(field),
            DataType::Extension(_, inner, _) => inner.item_field(),
            _ => None,
        }
    }

    /// Returns the data type of the items of a list of any kind, or of the entries of a map.
    pub fn item_type(&self) -> Option<&DataType>
        ensures { option_map (λ t. type_of t.now) result ≡ item_type (type_of self.now) }
    {
        match self {
            DataType::List(field)
            | DataType::LargeList(field)
            | DataType::FixedSizeList(field, _)
            | DataType::Map(field, _) => Some(&field.data_type),
            DataType::Extension(_, inner, _) => inner.item_type(),
            _ => None,
        }
    }

    /// Returns the number of bytes or items in each slot of a fixed-size binary or a fixed-size list.
    pub fn size(&self) -> Option<usize>
        ensures size { result ≡ fixed_size (type_of self.now) }
        ensures or_zero { unwrap_or result 0 ≡ size_of (type_of self.now) }
    {
        match self {
            DataType::FixedSizeBinary(size) | DataType::FixedSizeList(_, size) => Some(*size),
            DataType::Extension(_, inner, _) => inner.size(),
            _ => None,
        }
    }

    /// Returns the fields of a struct or a union; none of any other type.
    pub fn fields(&self) -> &[Field]
        ensures fields { field_list_of result.now ≡ fields_of (type_of self.now) }
        ensures count { length result.now ≡ count_fields (fields_of (type_of self.now)) }
    {
        match self {
            DataType::Struct(fields) | DataType::Union(fields, _, _) => fields.as_slice(),
            DataType::Extension(_, inner, _) => inner.fields(),
            _ => &[],
        }
    }

    /// Returns the type ids of a union, if it has any.
    pub fn union_ids(&self) -> Option<&[i32]>
        ensures { option_map (λ ids. ids.now) result ≡ ids_of (type_of self.now) }
    {
        match self {
            DataType::Union(_, Some(ids), _) => Some(ids.as_slice()),
            DataType::Extension(_, inner, _) => inner.union_ids(),
            _ => None,
        }
    }

    /// Returns the mode of a union.
    pub fn union_mode(&self) -> Option<UnionMode>
        ensures mode { result ≡ mode_of (type_of self.now) }
        ensures dense { IsTrue (is_dense (type_of self.now)) ↔ (result ≡ Some Dense) }
    {
        match self {
            DataType::Union(_, _, mode) => Some(*mode),
            DataType::Extension(_, inner, _) => inner.union_mode(),
            _ => None,
        }
    }

    /// Returns whether this is a map whose entries are a struct of exactly two fields, and not an extension type.
    pub fn has_pairs(&self) -> bool
        ensures { result ≡ has_pairs (type_of self.now) }
    {
        match self {
            DataType::Map(entries, _) => entries.data_type.is_pair(),
            DataType::Extension(_, inner, _) => inner.has_pairs(),
            _ => false,
        }
    }

    /// Returns whether this is a struct of exactly two fields, and not an extension type.
    fn is_pair(&self) -> bool
        ensures { result ≡ is_pair (type_of self.now) }
    {
        match self {
            DataType::Struct(fields) => fields.len() == 2,
            _ => false,
        }
    }

    /// Returns the type of the keys of a dictionary.
    pub fn key_type(&self) -> Option<IntegerType>
        ensures { result ≡ key_type (type_of self.now) }
    {
        match self {
            DataType::Dictionary(key, _, _) => Some(*key),
            DataType::Extension(_, inner, _) => inner.key_type(),
            _ => None,
        }
    }

    /// Returns the type of the values of a dictionary.
    pub fn value_type(&self) -> Option<&DataType>
        ensures { option_map (λ t. type_of t.now) result ≡ value_type (type_of self.now) }
    {
        match self {
            DataType::Dictionary(_, values, _) => Some(values),
            DataType::Extension(_, inner, _) => inner.value_type(),
            _ => None,
        }
    }

    /// Returns whether this is a dictionary whose values are ordered.
    pub fn is_ordered(&self) -> bool
        ensures { result ≡ is_ordered (type_of self.now) }
    {
        match self {
            DataType::Dictionary(_, _, ordered) => *ordered,
            DataType::Extension(_, inner, _) => inner.is_ordered(),
            _ => false,
        }
    }

    /// Returns the fields of a struct or a union, moved out of the type; `None` of any other type.
    pub fn into_fields(self) -> Option<Vec<Field>>
        ensures { option_map (λ fs. field_list_of fs.items) result ≡ own_fields (type_of self) }
    {
        match self {
            DataType::Struct(fields) => Some(fields),
            DataType::Union(fields, _ids, _mode) => Some(fields),
            DataType::Extension(_name, inner, _metadata) => Box::into_inner(inner).into_fields(),
            other => {
                drop(other);
                None
            }
        }
    }
}
