//! The fields that type ids of a union select: by a table with an entry per type id from 0 to 127, or by the ids.
ghost use Rattle.std.specs.Prelude.{◌≡◌, ◌≢◌, ◌≤◌, ◌↔◌, IsTrue, Some, None, length};
ghost use Rattle.nest_memory.specs.TypeTree.{ids_of};
ghost use Rattle.nest_model.specs.Checks.{most_fields, type_count};
ghost use Rattle.nest_model.specs.Fits.{EachNames, IdsCount, IdsInRange, MeansField};
ghost use Rattle.nest_model.specs.Part as part;
ghost use Rattle.nest_array.specs.Positions.{ArePositions, IsTable, meant};
ghost use Rattle.nest_array.specs.Words.{type_of};

use nest_memory::datatypes::DataType;

/// The entry of a type id that selects no field. A union has at most 127 fields.
const NO_FIELD: u8 = 127;

/// Returns the table of a union of `n` fields.
pub(crate) fn positions(data_type: &DataType, n: usize) -> [u8; 128]
    requires few { n ≤ most_fields }
    requires count { IdsCount (ids_of (type_of data_type.now)) n }
    requires range { IdsInRange (ids_of (type_of data_type.now)) }
    ensures { IsTable result (ids_of (type_of data_type.now)) }
{
    match data_type.union_ids() {
        Some(ids) => by_ids(ids),
        None => by_places(),
    }
}

/// Returns the table without ids: a type id selects the field at that index.
fn by_places() -> [u8; 128]
    ensures { IsTable result None }
{
    let mut table = [NO_FIELD; 128];
    for k in 0..128 {
        table[k] = k as u8;
    }
    table
}

/// Returns the table of ids: a type id selects the last field with that id.
fn by_ids(ids: &[i32]) -> [u8; 128]
    requires few { length ids.now ≤ most_fields }
    requires range { EachNames ids.now type_count }
    ensures { IsTable result (Some ids.now) }
{
    let mut table = [NO_FIELD; 128];
    for i in 0..ids.len() {
        table[ids[i] as usize] = i as u8;
    }
    table
}

/// Returns the entry of a type id, or `None` if the type id is negative.
pub(crate) fn position(table: &[u8; 128], kind: i8) -> Option<usize>
    requires { length table.now ≡ type_count }
    ensures { result ≡ meant table.now kind }
{
    if kind < 0 {
        return None;
    }
    Some(table[kind as usize] as usize)
}

/// Returns whether a type id selects one of `n` fields.
pub(crate) fn means_field(table: &[u8; 128], kind: i8, n: usize) -> bool
    requires { length table.now ≡ type_count }
    ensures { IsTrue result ↔ MeansField (meant table.now kind) n }
{
    match position(table, kind) {
        Some(field) => field < n,
        None => false,
    }
}

/// Returns the index of the last id that equals the type id.
pub(crate) fn last_position(ids: &[i32], kind: i8) -> usize
    requires { part.last_position ids.now kind ≢ None }
    ensures { part.last_position ids.now kind ≡ Some result }
{
    let mut place = 0;
    for k in 0..ids.len() {
        if ids[k] == kind as i32 {
            place = k;
        }
    }
    place
}

/// Returns whether type ids are known to be the indices of the fields that they select.
/// They are if there are no ids, or each id is its own index.
pub(crate) fn are_positions(data_type: &DataType) -> bool
    ensures { IsTrue result → ArePositions (ids_of (type_of data_type.now)) }
{
    match data_type.union_ids() {
        Some(ids) => stand_in_place(ids),
        None => true,
    }
}

fn stand_in_place(ids: &[i32]) -> bool
    ensures { IsTrue result → ArePositions (Some ids.now) }
{
    for k in 0..ids.len() {
        if 127 < k || ids[k] != k as i32 {
            return false;
        }
    }
    true
}
