//! Fields whose types are not supported.
ghost use Rattle.std.specs.Prelude.{◌≡◌, ◌<◌, ◌≤◌, ◌^◌, ◌+◌, ◌*◌, length, map, option_map, IfSome, Ok};
ghost use Rattle.std.specs.Fmt.{WritesOnOk};
ghost use Rattle.ipc_flatbuf.specs.Messages.{optional_model_of};
ghost use Rattle.ipc_flatbuf.specs.ReadResults.{ReturnsOrRunsOut};
ghost use Rattle.ipc_schema.specs.FieldSupport.{field_support_of, unsupported_field_of, first_unsupported, name_after, path_of, support_of, spec_type_name, spec_unsupported_type, spec_support_over, spec_support_at, spec_support_of_items, spec_columns_support_at, spec_columns_support};

use crate::reading::schema_message;
use ipc_flatbuf::message::Message;
use ipc_flatbuf::{
    IpcReadError, VectorItems, items_at, offset_at, offset_field, read_table, str_at, u8_field,
};
use std::alloc::Global;
use std::fmt;
use std::fmt::{Display, Formatter};

/// A type of the format that is not supported (Schema.fbs, union `Type`).
#[derive(Clone, Copy, Debug, PartialEq, Eq)]
pub enum UnsupportedType {
    /// Run-end encoded values.
    RunEndEncoded,
    /// Lists of offsets and sizes.
    ListView,
    /// Lists of 64-bit offsets and sizes.
    LargeListView,
}

impl UnsupportedType {
    /// Returns the name of the type, as pyarrow has it.
    pub fn name(self) -> &'static str
        ensures { result.now ≡ spec_type_name self }
    {
        match self {
            UnsupportedType::RunEndEncoded => "run_end_encoded",
            UnsupportedType::ListView => "list_view",
            UnsupportedType::LargeListView => "large_list_view",
        }
    }
}

/// A field whose type is not supported.
#[derive(Drop)]
pub struct UnsupportedField<'a> {
    /// The name of the field, then those of the fields that it is in. The name of the column is the last one.
    pub names: Vec<&'a str>,
    /// The type of the field.
    pub data_type: UnsupportedType,
}

impl UnsupportedField<'_> {
    /// Returns the path of the field: the names of the fields that it is in, from the column on, and its own name, joined by dots.
    pub fn path(&self) -> FieldPath<'_>
        ensures { map (λ name. name.now) result.names.now ≡ (unsupported_field_of self.now).names }
    {
        FieldPath { names: &self.names }
    }
}

/// The names of a field and of the fields that it is in, by `Display` joined by dots.
#[derive(Clone, Copy)]
pub struct FieldPath<'a> {
    /// The names, that of the column last.
    pub names: &'a [&'a str],
}

impl Display for FieldPath<'_> {
    ghost use Rattle.std.specs.Prelude.{Some, map};
    ghost use Rattle.ipc_schema.specs.FieldSupport.{path_of};

    ghost output = { λ p. Some (path_of (map (λ name. name.now) p.names.now)) };

    fn fmt<W: fmt::Write>(&self, f: &mut Formatter<W>) -> fmt::Result {
        write_path(f, self.names)
    }
}

// Writes the name that is after `k` others in a path.
fn write_name<W: fmt::Write>(f: &mut Formatter<W>, k: usize, name: &str) -> fmt::Result
    ensures { WritesOnOk W.write_str_gives f.old result (name_after k name.now) f.new }
{
    if k == 0 {
        f.write_str(name)
    } else {
        write!(f, ".{name}")
    }
}

fn write_path<W: fmt::Write>(f: &mut Formatter<W>, names: &[&str]) -> fmt::Result
    ensures { WritesOnOk W.write_str_gives f.old result (path_of (map (λ name. name.now) names.now)) f.new }
{
    for k in 0..names.len() {
        write_name(f, k, names[names.len() - 1 - k])?;
    }
    Ok(())
}

/// Whether a field is supported with its descendants.
#[derive(Drop)]
pub struct FieldSupport<'a> {
    /// The name of the field.
    pub name: &'a str,
    /// The first unsupported field, in pre-order, among the field and its descendants.
    pub unsupported: Option<UnsupportedField<'a>>,
}

fn unsupported_type(number: u8) -> Option<UnsupportedType>
    ensures { result ≡ spec_unsupported_type number }
{
    match number {
        22 => Some(UnsupportedType::RunEndEncoded),
        25 => Some(UnsupportedType::ListView),
        26 => Some(UnsupportedType::LargeListView),
        _ => None,
    }
}

// The first unsupported field of fields and their descendants.
fn first_of<'a>(fields: Vec<FieldSupport<'a>>) -> Option<UnsupportedField<'a>>
    ensures { option_map unsupported_field_of result ≡ first_unsupported (map field_support_of fields.entry.items) }
{
    let mut fields = fields;
    let mut first = None;
    while let Some(field) = fields.pop() {
        let FieldSupport { unsupported, .. } = field;
        first = unsupported.or(first);
    }
    first
}

// A field by its name, its type and its children.
fn support<'a>(
    alloc: Global,
    name: &'a str,
    own: Option<UnsupportedType>,
    children: Vec<FieldSupport<'a>>,
) -> Result<FieldSupport<'a>, IpcReadError>
    ensures { ReturnsOrRunsOut field_support_of result (Ok (support_of name.entry.now own (map field_support_of children.entry.items))) }
{
    let unsupported = match own {
        Some(data_type) => {
            drop(children);
            let names = vec![in alloc; name]?;
            Some(UnsupportedField { names, data_type })
        }
        None => match first_of(children) {
            None => None,
            Some(mut field) => {
                field.names.push(name)?;
                Some(field)
            }
        },
    };
    Ok(FieldSupport { name, unsupported })
}

// A field whose children have this depth at most.
#[cycle(supported)]
fn support_over(
    alloc: Global,
    depth: u8,
    bytes: &[u8],
    position: usize,
    left: usize,
) -> Result<(FieldSupport<'_>, usize), IpcReadError>
    requires { length bytes.now < 2 ^ 32 }
    ensures { ReturnsOrRunsOut (λ x. (field_support_of x.0, x.1)) result (spec_support_over (spec_support_at depth bytes.now) bytes.now position left) }
{
    let (table, left) = read_table(bytes, position, left)?;
    let (name, left) = str_at(bytes, offset_field(bytes, table, 0)?, left)?;
    let own = unsupported_type(u8_field(bytes, table, 2)?);
    let (items, left) = items_at(4, bytes, offset_field(bytes, table, 5)?, left)?;
    let (children, left) = support_of_items(alloc, depth, bytes, items, left)?;
    let field = support(alloc, name, own, children)?;
    Ok((field, left))
}

// The field at a position with its descendants, to a depth, and the budget left.
#[cycle(supported)]
fn support_at(
    alloc: Global,
    depth: u8,
    bytes: &[u8],
    position: usize,
    left: usize,
) -> Result<(FieldSupport<'_>, usize), IpcReadError>
    requires { length bytes.now < 2 ^ 32 }
    ensures { ReturnsOrRunsOut (λ x. (field_support_of x.0, x.1)) result (spec_support_at depth bytes.now position left) }
{
    if depth == 0 {
        return Err(IpcReadError::Depth);
    }
    support_over(alloc, depth - 1, bytes, position, left)
}

// The fields of a vector.
#[cycle(supported)]
fn support_of_items(
    alloc: Global,
    depth: u8,
    bytes: &[u8],
    items: VectorItems,
    left: usize,
) -> Result<(Vec<FieldSupport<'_>>, usize), IpcReadError>
    requires length { length bytes.now < 2 ^ 32 }
    requires within { items.first + items.count * 4 ≤ length bytes.now }
    ensures { ReturnsOrRunsOut (λ x. (map field_support_of x.0.items, x.1)) result (spec_support_of_items depth bytes.now items left) }
{
    let mut fields = Vec::new(alloc);
    let mut rest = left;
    for i in 0..items.count {
        let position = offset_at(bytes, items.first + 4 * i)?;
        let (field, after) = support_at(alloc, depth, bytes, position, rest)?;
        fields.push(field)?;
        rest = after;
    }
    Ok((fields, rest))
}

// The columns of the schema whose table is at a position.
#[tactic(auto, unfolding(crate::specs::FieldSupport::spec_columns_support_at))]
fn columns_support_at(
    alloc: Global,
    bytes: &[u8],
    position: usize,
    left: usize,
) -> Result<Vec<FieldSupport<'_>>, IpcReadError>
    requires { length bytes.now < 2 ^ 32 }
    ensures { ReturnsOrRunsOut (λ v. map field_support_of v.items) result (spec_columns_support_at bytes.now position left) }
{
    let (table, left) = read_table(bytes, position, left)?;
    let (items, left) = items_at(4, bytes, offset_field(bytes, table, 1)?, left)?;
    let (columns, _) = support_of_items(alloc, 64, bytes, items, left)?;
    Ok(columns)
}

/// Returns for each column of a schema its name and its first unsupported field. `first` is the first message of a stream.
///
/// Only names, types and children are read, so a schema with unsupported types can be described.
///
/// # Errors
/// [`IpcReadError::MissingSchema`] where the message is not a schema, [`IpcReadError::BodyLength`] where it has a body,
/// [`IpcReadError::Depth`] where fields nest deeper than 64 levels, and the errors of tables, strings and vectors.
///
/// Source: Schema.fbs, tables `Schema` and `Field`.
#[tactic(auto, unfolding(crate::specs::FieldSupport::spec_columns_support))]
pub fn columns_support<'a>(
    alloc: Global,
    first: Option<Message<'a>>,
) -> Result<Vec<FieldSupport<'a>>, IpcReadError>
    requires { IfSome first (λ m. length m.metadata.now < 2 ^ 31) }
    ensures { ReturnsOrRunsOut (λ v. map field_support_of v.items) result (spec_columns_support (optional_model_of first.entry)) }
{
    let message = schema_message(first)?;
    let root = message.root;
    columns_support_at(alloc, message.metadata, root.header, root.left)
}
