//! Theorems and worked examples about schemas, as functions with empty bodies.
ghost use Rattle.std.specs.Prelude.{◌≡◌, ◌<◌, ◌^◌, ◌++◌, List, ℕ, ℤ, true, false, [], ◌∷◌, drop, None, Some, Ok, Err};
ghost use Rattle.nest_memory.specs.TypeTree as types;
ghost use Rattle.nest_memory.specs.TypeTree.{field};
ghost use Rattle.ipc_flatbuf.specs.declared.error.IpcReadError.TheVariants.{BodyLength, ChildCount, Depth, Endianness, Flatbuffer, Metadata, MissingSchema, UnionIds};
ghost use Rattle.ipc_flatbuf.specs.declared.message.types.MessageKind.TheVariants as kinds;
ghost use Rattle.ipc_flatbuf.specs.MessageBytes.{metadata_size};
ghost use Rattle.ipc_schema.specs.Examples.{worked_message, worked_tree};
ghost use Rattle.ipc_schema.specs.NestedExamples.{AreNested, AreMaps, AreUnions, union_ids_metadata, union_sparse_metadata};
ghost use Rattle.ipc_schema.specs.SchemaErrorExamples.{field_bytes, message_of, schema_bytes};
ghost use Rattle.ipc_schema.specs.Types.{spec_union_at};
ghost use Rattle.ipc_schema.specs.ExtensionExamples.{AreExtended, ArePlain};
ghost use Rattle.ipc_schema.specs.FloatExamples.{AreFloats, IsReserved, AreSingleBytes, AreCheckedFloats};
ghost use Rattle.ipc_schema.specs.StoredExamples as stored;
ghost use Rattle.ipc_schema.specs.StoredExamples.{AreStored, AreReserved};
ghost use Rattle.ipc_schema.specs.DictionaryExamples.{AreKeyed, AreOuter, AreOfOneId, AreLookedAt};
ghost use Rattle.ipc_schema.specs.DictionaryWriteExamples.{AreWritten, AreNumbered, AreRefused};
ghost use Rattle.ipc_schema.specs.TypeExamples.{AreDecimals, AreMostDigits, ArePrecisions, AreTimes, AreZones, AreIntervals, AreSizes};
ghost use Rattle.ipc_schema.specs.Dictionaries.{no_dictionaries, progress};
ghost use Rattle.ipc_schema.specs.DictionaryIds.{have_dictionary};
ghost use Rattle.ipc_schema.specs.OutermostIds.{ValueTypes, spec_count_nested, spec_outermost_ids};
ghost use Rattle.ipc_schema.specs.OutermostIdLaws.{column_ids};
ghost use Rattle.ipc_flatbuf.specs.StoredArrays.{reads_as_stored};
ghost use Rattle.ipc_schema.specs.WriteChecks.{check_fields};
ghost use Rattle.ipc_schema.specs.Schemas.{SchemaModel, spec_read_schema, schema_parts, spec_field_at, spec_schema_at, stream_schema_at};
ghost use Rattle.ipc_schema.specs.SchemaBytes.{schema_message};
ghost use Rattle.ipc_schema.specs.SchemaLaws.{SchemaFits, with_dictionary_ids};
ghost use Rattle.ipc_schema.specs.Projections.{all};
ghost use Rattle.ipc_schema.specs.ProjectedSchemas.{stream_projected_schema_at};
ghost use Rattle.ipc_schema.specs.ProjectionLaws.{all_of_stream, all_written};
ghost use Rattle.ipc_schema.specs.FieldSupportExamples.{AreUnsupportedTags, AreFound, AreNamed, IsSupportRead};
ghost use Rattle.ipc_schema.specs.ProjectionExamples.{AreCounted, AreOfUnions, AreTags, AreOver, ArePicked};

/// The fields of types that are not supported are found, by their numbers, in a tree of fields, and in the metadata of Arrow C++.
pub fn unsupported_fields_are_found()
    ensures numbers { AreUnsupportedTags }
    ensures found { AreFound }
    ensures named { AreNamed }
    ensures read { IsSupportRead }
{}

/// The bytes of another writer decode to a schema of one field.
pub fn schema_is_read()
    ensures { stream_schema_at worked_message ≡ Ok ((worked_tree, no_dictionaries), []) }
{}

/// The bytes of another writer decode to fields of decimals, dates, times, timestamps, durations, intervals and
/// fixed-size binaries.
///
/// The precision of a decimal is at least 1 and at most the number of digits that fit in its width.
pub fn types_are_read()
    ensures decimals { AreDecimals }
    ensures digits { AreMostDigits }
    ensures precisions { ArePrecisions }
    ensures times { AreTimes }
    ensures zones { AreZones }
    ensures intervals { AreIntervals }
    ensures sizes { AreSizes }
{}

/// The bytes of another writer decode to fields of lists of each kind, maps, and unions with and without type ids.
pub fn nested_types_are_read()
    ensures fields { AreNested }
    ensures maps { AreMaps }
    ensures unions { AreUnions }
{}

/// Custom metadata decodes to extension types at any depth.
///
/// `ARROW:extension:metadata` alone is not an extension type, and the entries of a map cannot be one.
pub fn extensions_are_read()
    ensures fields { AreExtended }
    ensures plain { ArePlain }
{}

/// The bytes of another writer decode to floating-point types: alone, in a list, as dictionary values and as storage.
///
/// Only these types are written as floating-point, and the metadata of a field does not name them.
pub fn floats_are_read()
    ensures fields { AreFloats }
    ensures reserved { IsReserved }
    ensures bytes { AreSingleBytes }
    ensures checks { AreCheckedFloats }
{}

/// A schema of Arrow C++ with views and decimals of 32 and 64 bits decodes to the types that are read, and to how their arrays are stored.
///
/// No field names an extension type of these, and their precision is at most the number of digits that fit in their width.
pub fn stored_types_are_read()
    ensures fields { AreStored }
    ensures names { AreReserved }
    ensures digits { stored.AreMostDigits }
{}

/// A schema that can be written is read as it is stored.
pub fn written_types_are_stored_as_read()
    ensures { (s : SchemaModel) → check_fields s.fields ≡ Ok tt → (spec_read_schema s ≡ s) × (reads_as_stored (all_written s).arrays ≡ true) }
{}

/// The bytes of another writer decode to dictionary-encoded fields, at any depth and as storage of an extension type.
///
/// Fields of one id have one value type, a dictionary kind other than dense is an error, and a union is found in
/// extension types and in dictionary values.
pub fn dictionaries_are_read()
    ensures fields { AreKeyed }
    ensures ids { AreOfOneId }
    ensures looks { AreLookedAt }
{}

/// A schema round-trips, whatever bytes follow its message, and so does the projection of all columns.
///
/// Its dictionaries have the ids 0, 1, 2 and so on, in pre-order of the fields.
pub fn schemas_round_trip()
    ensures whole { (s : SchemaModel) (rest : List ℕ) → SchemaFits s → metadata_size (schema_message s) < 2 ^ 31 → stream_schema_at (schema_message s ++ rest) ≡ Ok (with_dictionary_ids s, rest) }
    ensures plain { (s : SchemaModel) → have_dictionary s.fields ≡ false → with_dictionary_ids s ≡ (s, no_dictionaries) }
    ensures columns { (s : SchemaModel) (rest : List ℕ) → SchemaFits s → metadata_size (schema_message s) < 2 ^ 31 → stream_projected_schema_at all (schema_message s ++ rest) ≡ Ok (all_written s, rest) }
{}

/// Worked examples of writing dictionary-encoded fields: the bytes, the ids in pre-order with their value types, and the
/// first error.
pub fn dictionaries_are_written()
    ensures bytes { AreWritten }
    ensures ids { AreNumbered }
    ensures reasons { AreRefused }
{}

/// Worked examples of projections by index and by name: the nodes and buffers of skipped fields, for each type.
///
/// A skipped union is an error in metadata of version V4.
pub fn projections_are_read()
    ensures buffers { AreCounted }
    ensures unions { AreOfUnions }
    ensures tags { AreTags }
    ensures over { AreOver }
    ensures fields { ArePicked }
{}

/// The outermost of ids in pre-order: the first one, and those after the ids that are nested in its value type.
///
/// Those of a schema are the dictionary ids that are not nested in the value type of another.
pub fn nested_ids_are_skipped()
    ensures none { (types : ValueTypes) → spec_outermost_ids types [] ≡ [] }
    ensures first { (types : ValueTypes) (id : ℤ) (ids : List ℤ) → spec_outermost_ids types (id ∷ ids) ≡ id ∷ spec_outermost_ids types (drop (spec_count_nested types id) ids) }
    ensures worked { AreOuter }
    ensures written { (s : SchemaModel) → spec_outermost_ids (with_dictionary_ids s).1.named (with_dictionary_ids s).1.ids ≡ column_ids s.fields }
{}

/// The projection of all columns returns the schema of the stream, or the same error.
pub fn projection_of_all_is_the_schema()
    ensures { (bytes : List ℕ) → stream_projected_schema_at all bytes ≡ all_of_stream bytes }
{}

/// The first error of a field: a number of children that its type does not have, more levels than are read, and type ids that are not one for
/// each of at most 127 fields.
pub fn invalid_fields_fail()
    ensures no_children { spec_field_at 64 (field_bytes 1 0) 20 (progress 200 no_dictionaries) ≡ Ok (field [] types.null false [], progress 176 no_dictionaries) }
    ensures null_with_child { spec_field_at 64 (field_bytes 1 1) 20 (progress 200 no_dictionaries) ≡ Err ChildCount }
    ensures list_without_child { spec_field_at 64 (field_bytes 12 0) 20 (progress 200 no_dictionaries) ≡ Err ChildCount }
    ensures too_deep { spec_field_at 0 (field_bytes 1 0) 20 (progress 200 no_dictionaries) ≡ Err Depth }
    ensures two_ids { spec_union_at 3 union_ids_metadata 108 20 ≡ Err UnionIds }
    ensures many_fields { spec_union_at 128 union_sparse_metadata 100 20 ≡ Err UnionIds }
{}

/// The first error of a schema, where what is read after it is invalid too, and of a message that is no schema or has a body.
pub fn invalid_schemas_fail()
    ensures big_endian { spec_schema_at (schema_bytes 1 100) 12 200 ≡ Err Endianness }
    ensures fields_outside { spec_schema_at (schema_bytes 0 100) 12 200 ≡ Err Flatbuffer }
    ensures no_pair { spec_schema_at (schema_bytes 0 8) 12 200 ≡ Err Metadata }
    ensures no_message { schema_parts None ≡ Err MissingSchema }
    ensures batch_first { schema_parts (Some (message_of kinds.RecordBatch)) ≡ Err MissingSchema }
    ensures schema_with_body { schema_parts (Some (message_of kinds.Schema)) ≡ Err BodyLength }
{}
