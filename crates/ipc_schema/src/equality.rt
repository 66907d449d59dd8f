//! Equality of schemas. The fields are compared first, then the custom metadata.
ghost use Rattle.std.specs.Prelude.{◌≡◌, ◌↔◌, IsTrue};
ghost use Rattle.ipc_schema.specs.Schemas.{schema_of};
ghost use Rattle.ipc_schema.specs.SchemaEq.{same_schema, same_schema-equiv};

use crate::schema::Schema;

/// Two schemas are equal if their fields are equal, in order, and their custom metadata.
impl PartialEq for Schema {
    ghost use Rattle.std.specs.Cmp.{on_per, partial_equiv_from_equiv};

    ghost eq = { λ a b. same_schema (schema_of a) (schema_of b) };

    ghost laws = { on_per schema_of (partial_equiv_from_equiv same_schema-equiv) };

    fn eq(&self, other: &Schema) -> bool
        ensures computes { result ≡ same_schema (schema_of self.now) (schema_of other.now) }
        ensures decides { IsTrue result ↔ (schema_of self.now ≡ schema_of other.now) }
    {
        self.fields == other.fields && self.metadata == other.metadata
    }
}

impl Eq for Schema {
    ghost use Rattle.std.specs.Cmp.{on_equiv};

    ghost laws = { on_equiv schema_of same_schema-equiv };
}
