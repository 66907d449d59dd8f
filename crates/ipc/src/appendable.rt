//! Which ids a delta may extend: no dictionary nested in their values was replaced since these were read.
ghost use Rattle.std.specs.Prelude.{◌≡◌, ◌∷◌, ◌++◌, [], IfOk, OnOk, if◌then◌else◌};
ghost use Rattle.std.specs.Option.{option_map};
ghost use Rattle.ipc_schema.specs.ProjectedSchemas.{projected_schema_of};
ghost use Rattle.ipc_schema.specs.DictionaryModels.{value_type_of};
ghost use Rattle.ipc.specs.Streams.{spec_contains_id, spec_has_nested, spec_stays_appendable, spec_appendable_after};

use ipc_schema::{DictionaryValueType, ProjectedSchema};
use std::alloc::{AllocError, Global};

/// Returns whether these ids contain an id.
pub(crate) fn contains_id(ids: &[i64], id: i64) -> bool
    ensures { result ≡ spec_contains_id ids.now id }
{
    ids.contains(&id)
}

// Returns whether an id is nested in these values.
fn has_nested(values: Option<&DictionaryValueType>, id: i64) -> bool
    ensures { result ≡ spec_has_nested (option_map (λ v. value_type_of v.now) values.entry) id }
{
    match values {
        None => false,
        Some(values) => contains_id(&values.inside, id),
    }
}

// Returns whether `id` stays appendable when `other` gets new values.
fn stays_appendable(picked: &ProjectedSchema, id: i64, other: i64) -> bool
    ensures { result ≡ spec_stays_appendable (projected_schema_of picked.now) id other }
{
    other != id && !has_nested(picked.dictionaries.named.get(&other), id)
}

// Appends an id if the condition holds.
fn push_if(ids: &mut Vec<i64>, id: i64, stays: bool) -> Result<(), AllocError>
    ensures { OnOk result (ids.new.items ≡ ids.old.items ++ (if stays then id ∷ [] else [])) }
{
    if stays {
        ids.push(id)?;
    }
    Ok(())
}

/// Returns the ids that are appendable after `id` gets new values.
pub(crate) fn appendable_after(
    alloc: Global,
    picked: &ProjectedSchema,
    id: i64,
    appendable: &[i64],
) -> Result<Vec<i64>, AllocError>
    ensures { IfOk result (λ v. v.items ≡ spec_appendable_after (projected_schema_of picked.now) id appendable.now) }
{
    let mut ids = Vec::new(alloc);
    ids.push(id)?;
    for other in appendable {
        let stays = stays_appendable(picked, id, *other);
        push_if(&mut ids, *other, stays)?;
    }
    Ok(ids)
}
