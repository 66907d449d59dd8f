//! Names that are similar to one that no column has.
ghost use Rattle.std.specs.Prelude.{◌≡◌, ◌++◌, IfOk, codes, map, string_bytes};
ghost use Rattle.std.specs.Fmt.{WritesOnOk};
ghost use Rattle.std.specs.List.{flat_map};
ghost use Rattle.nest_memory.specs.TypeOf.{field_of};
ghost use Rattle.json_write.specs.JsonText.{field_name};
ghost use Rattle.cli_rows.specs.NearNames.{quoted_name, similar_text, spec_is_similar, spec_similar_names, spec_unknown_name_text};

use nest_memory::datatypes::Field;
use std::alloc::{AllocError, Global};
use std::fmt;
use std::fmt::{Display, Formatter};
use strsim::osa_distance;

fn name_of(field: &Field) -> &str
    ensures { result.now ≡ field_name (field_of field.now) }
{
    field.name.as_str()
}

/// Returns whether a name is similar to a wanted one.
fn is_similar(alloc: Global, wanted: &str, name: &str) -> Result<bool, AllocError>
    ensures { IfOk result (λ similar. similar ≡ spec_is_similar wanted.now name.now) }
{
    if name.eq_ignore_ascii_case(wanted) {
        return Ok(true);
    }
    let limit = wanted.len().max(3) / 3;
    Ok(osa_distance(alloc, wanted, name)? <= limit)
}

/// Returns the names of fields that are similar to a wanted one, in the order of the fields. They are equal to it but for the case of ASCII
/// letters, or at most as many edits apart as rustc allows: a third of the bytes of the wanted name, and at least one.
///
/// # Errors
/// `AllocError` if an allocation fails.
pub fn similar_names<'a>(
    alloc: Global,
    wanted: &str,
    fields: &'a [Field],
) -> Result<Vec<&'a str>, AllocError>
    ensures { IfOk result (λ names. map (λ n. n.now) names.items ≡ spec_similar_names wanted.now (map field_of fields.now)) }
{
    let mut names = Vec::new(alloc);
    for field in fields {
        let name = name_of(field);
        if is_similar(alloc, wanted, name)? {
            names.push(name)?;
        }
    }
    Ok(names)
}

/// Similar names after a message, by `Display`.
#[derive(Drop)]
struct SimilarNames<'a> {
    names: &'a [&'a str],
}

impl Display for SimilarNames<'_> {
    ghost use Rattle.std.specs.Prelude.{Some, map};
    ghost use Rattle.cli_rows.specs.NearNames.{similar_text};

    ghost output = { λ l. Some (similar_text (map (λ n. n.now) l.names.now)) };

    fn fmt<W: fmt::Write>(&self, f: &mut Formatter<W>) -> fmt::Result {
        write_names(f, self.names)
    }
}

fn write_names<W: fmt::Write>(f: &mut Formatter<W>, names: &[&str]) -> fmt::Result
    ensures { WritesOnOk W.write_str_gives f.old result (similar_text (map (λ n. n.now) names.now)) f.new }
{
    match names.split_first() {
        None => Ok(()),
        Some((first, others)) => {
            write!(f, " (similar: \"{first}\"")?;
            write_others(f, others)?;
            f.write_str(")")
        }
    }
}

fn write_others<W: fmt::Write>(f: &mut Formatter<W>, names: &[&str]) -> fmt::Result
    ensures { WritesOnOk W.write_str_gives f.old result (flat_map (λ n. codes ", " ++ quoted_name n) (map (λ n. n.now) names.now)) f.new }
{
    for name in names {
        write!(f, ", \"{name}\"")?;
    }
    Ok(())
}

/// Returns the message of a name that no field has. It lists the names of fields that are similar.
///
/// # Errors
/// `AllocError` if an allocation fails.
pub fn unknown_name_text(
    alloc: Global,
    wanted: &str,
    fields: &[Field],
) -> Result<String, AllocError>
    ensures { IfOk result (λ text. string_bytes text ≡ spec_unknown_name_text wanted.now (map field_of fields.now)) }
{
    let names = similar_names(alloc, wanted, fields)?;
    let similar = SimilarNames { names: &names };
    format!(in alloc; "there is no column \"{wanted}\"{similar}")
}
