//! Fields by name.
ghost use Rattle.std.specs.Prelude.{◌≡◌, ◌≢◌, ◌<◌, ◌≤◌, ℕ, MatchOption, Some, bytes_eq, length};
ghost use Rattle.json_read.specs.StructMembers.{field_name_at_index, HasName, HasOtherName};
ghost use Rattle.nest_memory.specs.TypeOf.{field_list_of, field_of};
ghost use Rattle.json_write.specs.JsonText.{field_name};
ghost use Rattle.json_write.specs.TypedSlots.{LacksField};

use nest_memory::datatypes::Field;

// Returns whether the field has the name.
fn is_named(field: &Field, name: &str) -> bool
    ensures { result ≡ bytes_eq (field_name (field_of field.now)) name.now }
{
    field.name.as_bytes() == name.as_bytes()
}

// Returns the index of the first field of the name from `start` on.
fn named_from(fields: &[Field], start: usize, name: &str) -> Option<usize>
    ensures { let fs = field_list_of fields.now in MatchOption result
        ((i : ℕ) → start ≤ i → i < length fields.now → HasOtherName fs name.now i)
        (λ i. (i < length fields.now) × HasName fs name.now i) }
{
    for i in start..fields.len() {
        if is_named(&fields[i], name) {
            return Some(i);
        }
    }
    None
}

/// Returns the index of a field of the name. The search begins at `next`, since members mostly have the order of the fields.
pub(crate) fn field_at(fields: &[Field], next: usize, name: &str) -> Option<usize>
    ensures { MatchOption result
        (LacksField name.now (field_list_of fields.now))
        (λ i. (i < length fields.now) × (field_name_at_index (field_list_of fields.now) i ≡ Some name.now)) }
{
    if let Some(i) = named_from(fields, next, name) {
        return Some(i);
    }
    named_from(fields, 0, name)
}
