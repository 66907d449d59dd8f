//! The values last emitted for each dictionary id.
ghost use Rattle.std.specs.Prelude.{◌≡◌, map, OnOk};
ghost use Rattle.std.specs.BTreeMap.{insert_entry};
ghost use Rattle.std.specs.Ordering.{int_cmp};
ghost use Rattle.nest_array.specs.Seen.{layout_of};
ghost use Rattle.ipc.specs.PendingDictionaries.{with_entries};
ghost use Rattle.ipc.specs.EntriesOf.{by_id, entry_of};

use nest_array::any::AnyArray;
use std::alloc::{AllocError, Global};
use std::collections::BTreeMap;

/// Sets the values of an id to a clone of these, which shares their buffers.
pub(crate) fn insert_clone(
    alloc: Global,
    entries: &mut BTreeMap<i64, AnyArray>,
    id: i64,
    values: &AnyArray,
) -> Result<(), AllocError>
    ensures { OnOk result (by_id entries.new.entries ≡ insert_entry int_cmp (by_id entries.old.entries) id (layout_of values.now)) }
{
    match values.clone(alloc) {
        Err(_) => Err(AllocError),
        Ok(values) => {
            entries.insert(id, values)?;
            Ok(())
        }
    }
}

/// Records pending dictionaries as emitted: clones, which share their buffers.
///
/// # Errors
/// `AllocError`, where an allocation fails; some of them may be recorded then.
pub fn record_emitted(
    alloc: Global,
    emitted: &mut BTreeMap<i64, AnyArray>,
    pending: &[(i64, &AnyArray)],
) -> Result<(), AllocError>
    ensures { OnOk result (by_id emitted.new.entries ≡ with_entries (by_id emitted.old.entries) (map entry_of pending.now)) }
{
    for (id, values) in pending {
        insert_clone(alloc, emitted, *id, values)?;
    }
    Ok(())
}
