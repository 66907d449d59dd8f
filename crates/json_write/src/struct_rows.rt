//! Many slots of a struct array: the member names are formatted once.
ghost use Rattle.std.specs.Prelude.{◌≡◌, ◌+◌, ◌<◌, IfOk, false, map, string_bytes};
ghost use Rattle.std.specs.Fmt.{WritesOnOk};
ghost use Rattle.nest_array.specs.Seen.{layouts_of};
ghost use Rattle.nest_memory.specs.TypeOf.{field_list_of};
ghost use Rattle.nest_memory.specs.TypeTree.{fields_of};
ghost use Rattle.nest_model.specs.Fits.{EachCovers};
ghost use Rattle.nest_model.specs.Layout.{layout_type};
ghost use Rattle.nest_model.specs.Meaning.{len};
ghost use Rattle.json_write.specs.JsonText.{ForFields, members_json, prefixes_of, slot_json};

use crate::nested::{name, write_slot};
use crate::quoting::{write_comma, write_quoted};
use nest_array::{AnyArray, StructArray};
use nest_memory::datatypes::Field;
use std::alloc::{AllocError, Global};
use std::fmt;
use std::fmt::{Display, Formatter};

/// Displays what precedes the value of a member.
#[derive(Drop)]
struct MemberPrefix<'a> {
    after: bool,
    name: &'a str,
}

impl Display for MemberPrefix<'_> {
    ghost use Rattle.std.specs.Prelude.{Some};
    ghost use Rattle.json_write.specs.JsonText.{prefix_of};

    ghost output = { λ h. Some (prefix_of h.after h.name.now) };

    fn fmt<W: fmt::Write>(&self, f: &mut Formatter<W>) -> fmt::Result {
        write_comma(f, self.after)?;
        write_quoted(f, self.name)?;
        f.write_str(":")
    }
}

/// Returns what precedes the value of each member of a JSON object with these fields: a comma unless it is the first, the quoted
/// name and a colon.
///
/// # Errors
/// `AllocError` if an allocation fails.
pub fn member_prefixes(alloc: Global, fields: &[Field]) -> Result<Vec<String>, AllocError>
    ensures { IfOk result (λ prefixes. map string_bytes prefixes.items ≡ prefixes_of (field_list_of fields.now) false) }
{
    let mut prefixes = Vec::new(alloc);
    let mut after = false;
    for field in fields {
        let prefix = MemberPrefix {
            after,
            name: name(field),
        };
        prefixes.push(format!(in alloc; "{prefix}")?)?;
        after = true;
    }
    Ok(prefixes)
}

/// Writes slot `i` of a struct array with the member prefixes of its fields. The output is that of `write_slot`, which formats each
/// name again.
pub fn write_struct_slot<W: fmt::Write>(
    f: &mut Formatter<W>,
    array: &StructArray,
    prefixes: &[String],
    i: usize,
) -> fmt::Result
    requires within { i < len array.now }
    requires prefixes { map string_bytes prefixes.now ≡ prefixes_of (fields_of (layout_type array.now)) false }
    ensures { WritesOnOk W.write_str_gives f.old result (slot_json array.now i) f.new }
{
    array.known();
    if array.is_null(i) {
        return f.write_str("null");
    }
    f.write_str("{")?;
    write_prefixed_members(f, prefixes, array.values(), i)?;
    f.write_str("}")
}

/// Writes slot `i` of each child array after its prefix.
fn write_prefixed_members<W: fmt::Write>(
    f: &mut Formatter<W>,
    prefixes: &[String],
    children: &[AnyArray],
    i: usize,
) -> fmt::Result
    requires { EachCovers (layouts_of children.now) (i + 1) }
    ensures { ForFields (map string_bytes prefixes.now) (layouts_of children.now) (λ fs. WritesOnOk W.write_str_gives f.old result (members_json fs (layouts_of children.now) i) f.new) }
{
    for (prefix, child) in prefixes.iter().zip(children) {
        f.write_str(prefix.as_str())?;
        write_slot(f, child, i)?;
    }
    Ok(())
}
