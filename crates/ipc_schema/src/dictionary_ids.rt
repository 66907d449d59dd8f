//! The dictionary ids that are not nested in the value type of another.
ghost use Rattle.std.specs.Prelude.{◌≡◌, IfOk};
ghost use Rattle.ipc_schema.specs.DictionaryModels.{seen_of};
ghost use Rattle.ipc_schema.specs.OutermostIds.{spec_count_nested, spec_outermost_ids};

use crate::dictionaries::DictionaryTypes;
use std::alloc::{AllocError, Global};

// The number of ids that are nested in the value type of an id.
fn count_nested(dictionaries: &DictionaryTypes, id: &i64) -> usize
    ensures { result ≡ spec_count_nested (seen_of dictionaries.now).named id.now }
{
    match dictionaries.named.get(id) {
        None => 0,
        Some(values) => values.inside.len(),
    }
}

/// Returns the ids, of ids in pre-order, that are not nested in the value type of another.
///
/// Of the ids of a schema these are the dictionaries of its record batches. Of the ids nested in a value type they are
/// the dictionaries of its values.
pub fn outermost_ids(
    alloc: Global,
    ids: &[i64],
    dictionaries: &DictionaryTypes,
) -> Result<Vec<i64>, AllocError>
    ensures { IfOk result (λ v. v.items ≡ spec_outermost_ids (seen_of dictionaries.now).named ids.now) }
{
    let mut outer = Vec::new(alloc);
    let mut inside = 0;
    for id in ids {
        if inside > 0 {
            inside = inside - 1;
        } else {
            outer.push(*id)?;
            inside = count_nested(dictionaries, id);
        }
    }
    Ok(outer)
}
