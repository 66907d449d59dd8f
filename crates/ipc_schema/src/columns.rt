//! Projections: which columns of a schema are read.
ghost use Rattle.std.specs.Prelude.{◌≡◌, ◌<◌, ◌^◌, length, List, ℕ, IfOk, Ok};
ghost use Rattle.std.specs.Ordering.{nat_cmp};
ghost use Rattle.std.specs.BTreeSet.{contains as set_contains, IsFromIterResult};
ghost use Rattle.std.specs.Borrow.{Bor};
ghost use Rattle.ipc_flatbuf.specs.ReadResults.{Returns};
ghost use Rattle.ipc_schema.specs.Projections.{columns_of, indices_in, names_in, indices_contain, names_contain, str_cmp, spec_name_at, spec_contains_field, IsColumnSet};

use ipc_flatbuf::{IpcReadError, offset_field, read_table, str_at};
use std::alloc::{AllocError, Global};
use std::collections::BTreeSet;

/// The columns of a schema to read.
///
/// Each column is read once, in the order of the schema. An index or a name that no column has is ignored.
#[derive(Clone, Copy)]
pub enum Projection<'a> {
    /// All columns.
    All,
    /// The columns at these indices, from 0.
    Indices(&'a [usize]),
    /// The columns of these names; all of them where several columns have one name.
    Names(&'a [&'a str]),
}

/// A [`Projection`] with its indices and names in sets.
#[derive(Drop)]
pub struct ColumnSet<'a> {
    pub columns: Projection<'a>,
    pub indices: BTreeSet<usize>,
    pub names: BTreeSet<&'a str>,
}

fn index_set(alloc: Global, indices: &[usize]) -> Result<BTreeSet<usize>, AllocError>
    ensures { IfOk result (λ s. IsFromIterResult nat_cmp indices.now s) }
{
    indices.iter().copied().collect(alloc)
}

fn name_set<'a>(alloc: Global, texts: &[&'a str]) -> Result<BTreeSet<&'a str>, AllocError>
    ensures { IfOk result (λ s. IsFromIterResult str_cmp texts.now s) }
{
    texts.iter().copied().collect(alloc)
}

fn indices_of(alloc: Global, columns: Projection<'_>) -> Result<BTreeSet<usize>, AllocError>
    ensures { IfOk result (λ s. (i : ℕ) → set_contains nat_cmp s i ≡ indices_contain (indices_in columns.entry) i) }
{
    match columns {
        Projection::Indices(indices) => index_set(alloc, indices),
        _ => Ok(BTreeSet::new(alloc)),
    }
}

fn names_of<'a>(alloc: Global, columns: Projection<'a>) -> Result<BTreeSet<&'a str>, AllocError>
    ensures { IfOk result (λ s. (name : Bor (List ℕ)) → set_contains str_cmp s name ≡ names_contain (names_in columns.entry) name.now) }
{
    match columns {
        Projection::Names(names) => name_set(alloc, names),
        _ => Ok(BTreeSet::new(alloc)),
    }
}

// The name of the field at a position.
#[tactic(auto, unfolding(crate::specs::Projections::spec_name_at))]
fn name_at(bytes: &[u8], position: usize, left: usize) -> Result<&str, IpcReadError>
    requires { length bytes.now < 2 ^ 32 }
    ensures { Returns (λ s. s.now) result (spec_name_at bytes.now position left) }
{
    let (table, left) = read_table(bytes, position, left)?;
    let (name, _) = str_at(bytes, offset_field(bytes, table, 0)?, left)?;
    Ok(name)
}

impl<'a> ColumnSet<'a> {
    /// Returns the set of the columns of a projection.
    pub fn new(alloc: Global, columns: Projection<'a>) -> Result<ColumnSet<'a>, AllocError>
        ensures columns { IfOk result (λ p. p.columns ≡ columns.entry) }
        ensures made { IfOk result IsColumnSet }
    {
        let indices = indices_of(alloc, columns)?;
        let names = names_of(alloc, columns)?;
        Ok(ColumnSet {
            columns,
            indices,
            names,
        })
    }

    fn has_index(&self, i: usize) -> bool
        requires { IsColumnSet self.now }
        ensures { result ≡ indices_contain (indices_in self.now.columns) i }
    {
        self.indices.contains(&i)
    }

    fn has_name(&self, name: &str) -> bool
        requires { IsColumnSet self.now }
        ensures { result ≡ names_contain (names_in self.now.columns) name.now }
    {
        self.names.contains(name)
    }

    /// Returns whether the field with index `i`, whose table is at a position of the metadata, is read.
    ///
    /// # Errors
    /// The errors of reading its name, where the projection is by names.
    pub fn contains_field(
        &self,
        bytes: &[u8],
        i: usize,
        position: usize,
        left: usize,
    ) -> Result<bool, IpcReadError>
        requires made { IsColumnSet self.now }
        requires length { length bytes.now < 2 ^ 32 }
        ensures { result ≡ spec_contains_field (columns_of self.now) bytes.now i position left }
    {
        match self.columns {
            Projection::All => Ok(true),
            Projection::Indices(_) => Ok(self.has_index(i)),
            Projection::Names(_) => Ok(self.has_name(name_at(bytes, position, left)?)),
        }
    }
}
