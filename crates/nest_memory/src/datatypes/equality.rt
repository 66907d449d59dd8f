//! Equality of data types and fields. All parts are compared, up to the first difference.
ghost use Rattle.std.specs.Prelude.{◌≡◌, ◌↔◌, IsTrue, option_map};
ghost use Rattle.nest_memory.specs.TypeOf.{type_of, field_of, field_list_of, entries_of, text_of};

use crate::datatypes::DataType;
use crate::datatypes::field::{Field, Metadata};

#[cycle(equality)]
fn same(a: &DataType, b: &DataType) -> bool
    ensures { IsTrue result ↔ (type_of a.now ≡ type_of b.now) }
{
    match a {
        DataType::Null => matches!(b, DataType::Null),
        DataType::Boolean => matches!(b, DataType::Boolean),
        DataType::Int8 => matches!(b, DataType::Int8),
        DataType::Int16 => matches!(b, DataType::Int16),
        DataType::Int32 => matches!(b, DataType::Int32),
        DataType::Int64 => matches!(b, DataType::Int64),
        DataType::UInt8 => matches!(b, DataType::UInt8),
        DataType::UInt16 => matches!(b, DataType::UInt16),
        DataType::UInt32 => matches!(b, DataType::UInt32),
        DataType::UInt64 => matches!(b, DataType::UInt64),
        DataType::Float16 => matches!(b, DataType::Float16),
        DataType::Float32 => matches!(b, DataType::Float32),
        DataType::Float64 => matches!(b, DataType::Float64),
        DataType::Date32 => matches!(b, DataType::Date32),
        DataType::Date64 => matches!(b, DataType::Date64),
        DataType::Binary => matches!(b, DataType::Binary),
        DataType::LargeBinary => matches!(b, DataType::LargeBinary),
        DataType::Utf8 => matches!(b, DataType::Utf8),
        DataType::LargeUtf8 => matches!(b, DataType::LargeUtf8),
        DataType::Timestamp(u, z) => match b {
            DataType::Timestamp(v, y) => *u == *v && same_text(z, y),
            _ => false,
        },
        DataType::Time32(u) => match b {
            DataType::Time32(v) => *u == *v,
            _ => false,
        },
        DataType::Time64(u) => match b {
            DataType::Time64(v) => *u == *v,
            _ => false,
        },
        DataType::Duration(u) => match b {
            DataType::Duration(v) => *u == *v,
            _ => false,
        },
        DataType::Interval(u) => match b {
            DataType::Interval(v) => *u == *v,
            _ => false,
        },
        DataType::Decimal(p, s) => match b {
            DataType::Decimal(q, r) => *p == *q && *s == *r,
            _ => false,
        },
        DataType::Decimal256(p, s) => match b {
            DataType::Decimal256(q, r) => *p == *q && *s == *r,
            _ => false,
        },
        DataType::FixedSizeBinary(n) => match b {
            DataType::FixedSizeBinary(m) => *n == *m,
            _ => false,
        },
        DataType::List(f) => match b {
            DataType::List(g) => same_field(f, g),
            _ => false,
        },
        DataType::LargeList(f) => match b {
            DataType::LargeList(g) => same_field(f, g),
            _ => false,
        },
        DataType::Map(f, n) => match b {
            DataType::Map(g, m) => *n == *m && same_field(f, g),
            _ => false,
        },
        DataType::FixedSizeList(f, n) => match b {
            DataType::FixedSizeList(g, m) => *n == *m && same_field(f, g),
            _ => false,
        },
        DataType::Struct(fs) => match b {
            DataType::Struct(gs) => same_fields(fs, gs),
            _ => false,
        },
        DataType::Union(fs, is, m) => match b {
            DataType::Union(gs, js, n) => *m == *n && same_ids(is, js) && same_fields(fs, gs),
            _ => false,
        },
        DataType::Dictionary(k, t, o) => match b {
            DataType::Dictionary(l, u, p) => *k == *l && *o == *p && same(t, u),
            _ => false,
        },
        DataType::Extension(n, t, z) => match b {
            DataType::Extension(m, u, y) => n.as_str() == m.as_str()
                && same_text(z, y)
                && same(t, u),
            _ => false,
        },
    }
}

#[cycle(equality)]
fn same_field(a: &Field, b: &Field) -> bool
    ensures { IsTrue result ↔ (field_of a.now ≡ field_of b.now) }
{
    if a.is_nullable != b.is_nullable {
        return false;
    }
    if a.name.as_str() != b.name.as_str() {
        return false;
    }
    if !same_metadata(&a.metadata, &b.metadata) {
        return false;
    }
    same(&a.data_type, &b.data_type)
}

#[cycle(equality)]
fn same_fields(a: &Vec<Field>, b: &Vec<Field>) -> bool
    ensures { IsTrue result ↔ (field_list_of a.now.items ≡ field_list_of b.now.items) }
{
    if a.len() != b.len() {
        return false;
    }
    for i in 0..a.len() {
        if !same_field(&a[i], &b[i]) {
            return false;
        }
    }
    true
}

fn same_text(a: &Option<String>, b: &Option<String>) -> bool
    ensures { IsTrue result ↔ (text_of a.now ≡ text_of b.now) }
{
    match a {
        None => b.is_none(),
        Some(s) => match b {
            None => false,
            Some(t) => s.as_str() == t.as_str(),
        },
    }
}

fn same_ids(a: &Option<Vec<i32>>, b: &Option<Vec<i32>>) -> bool
    ensures { IsTrue result ↔ (option_map (λ v. v.items) a.now ≡ option_map (λ v. v.items) b.now) }
{
    match a {
        None => b.is_none(),
        Some(v) => match b {
            None => false,
            Some(w) => same_numbers(v.as_slice(), w.as_slice()),
        },
    }
}

fn same_metadata(a: &Metadata, b: &Metadata) -> bool
    ensures { IsTrue result ↔ (entries_of a.now.entries ≡ entries_of b.now.entries) }
{
    *a == *b
}

fn same_numbers(a: &[i32], b: &[i32]) -> bool
    ensures { IsTrue result ↔ (a.now ≡ b.now) }
{
    a == b
}

impl PartialEq for DataType {
    ghost use Rattle.std.specs.Cmp.{on_per, partial_equiv_from_equiv};
    ghost use Rattle.nest_memory.specs.TypeEq.{same_type, same_type-equiv};

    ghost eq = { λ a b. same_type (type_of a) (type_of b) };

    ghost laws = { on_per type_of (partial_equiv_from_equiv same_type-equiv) };

    fn eq(&self, other: &DataType) -> bool
        ensures computes { result ≡ same_type (type_of self.now) (type_of other.now) }
        ensures decides { IsTrue result ↔ (type_of self.now ≡ type_of other.now) }
    {
        same(self, other)
    }
}

impl Eq for DataType {
    ghost use Rattle.std.specs.Cmp.{on_equiv};
    ghost use Rattle.nest_memory.specs.TypeEq.{same_type-equiv};

    ghost laws = { on_equiv type_of same_type-equiv };
}

impl PartialEq for Field {
    ghost use Rattle.std.specs.Cmp.{on_per, partial_equiv_from_equiv};
    ghost use Rattle.nest_memory.specs.TypeEq.{same_field, same_field-equiv};

    ghost eq = { λ a b. same_field (field_of a) (field_of b) };

    ghost laws = { on_per field_of (partial_equiv_from_equiv same_field-equiv) };

    fn eq(&self, other: &Field) -> bool
        ensures computes { result ≡ same_field (field_of self.now) (field_of other.now) }
        ensures decides { IsTrue result ↔ (field_of self.now ≡ field_of other.now) }
    {
        same_field(self, other)
    }
}

impl Eq for Field {
    ghost use Rattle.std.specs.Cmp.{on_equiv};
    ghost use Rattle.nest_memory.specs.TypeEq.{same_field-equiv};

    ghost laws = { on_equiv field_of same_field-equiv };
}
