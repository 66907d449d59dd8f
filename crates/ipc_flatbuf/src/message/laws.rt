//! Theorems and worked examples about messages, as functions with empty bodies. Messages without the continuation indicator were written
//! before version 0.15 of the format.
ghost use Rattle.std.specs.Prelude.{◌≡◌, ◌++◌, ◌∷◌, [], None, Some, Ok, Err};
ghost use Rattle.ipc_flatbuf.specs.declared.error.IpcReadError.TheVariants.{ApparentSize, BodyLength, Flatbuffer, HeaderType, MetadataLength, Truncated, Version};
ghost use Rattle.ipc_flatbuf.specs.declared.message.types.MetadataVersion.TheVariants.{V4, V5};
ghost use Rattle.ipc_flatbuf.specs.Flatbuffers.{spec_read_table};
ghost use Rattle.ipc_flatbuf.specs.Messages.{message_at, root_at, spec_message_of_size};
ghost use Rattle.ipc_flatbuf.specs.MessageExamples.{legacy_schema, legacy_schema_of, legacy_end_of_stream};
ghost use Rattle.ipc_flatbuf.specs.MessageLaws.{ContinuationIsOptional};
ghost use Rattle.ipc_flatbuf.specs.RootExamples.{later_vtable, root_bytes, root_of};

/// The continuation indicator is optional: a message, or the end of a stream, that can be read with it is read alike without it.
pub fn continuation_is_optional()
    ensures { ContinuationIsOptional }
{}

/// The schema message of another writer and its end-of-stream marker.
pub fn legacy_messages_are_read()
    ensures schema { message_at (legacy_schema ++ legacy_end_of_stream) ≡ Ok (Some legacy_schema_of, legacy_end_of_stream) }
    ensures end { message_at legacy_end_of_stream ≡ Ok (None, []) }
{}

/// A negative length is an error, with the continuation indicator and without it; text is truncated.
pub fn invalid_lengths_fail()
    ensures without { message_at (254 ∷ 255 ∷ 255 ∷ 255 ∷ []) ≡ Err MetadataLength }
    ensures with { message_at (255 ∷ 255 ∷ 255 ∷ 255 ∷ 254 ∷ 255 ∷ 255 ∷ 255 ∷ []) ≡ Err MetadataLength }
    ensures text { message_at (105 ∷ 100 ∷ 44 ∷ 110 ∷ 10 ∷ []) ≡ Err Truncated }
{}

/// The root of a message has version 4 or 5. Its vtable may be behind its table.
pub fn roots_are_read()
    ensures version_5 { root_at (root_bytes 4 8 4 3 0) ≡ Ok (root_of V5 28) }
    ensures version_4 { root_at (root_bytes 4 8 3 3 0) ≡ Ok (root_of V4 28) }
    ensures later { root_at later_vtable ≡ Ok (root_of V5 16) }
{}

/// The first error of the root of a message, with errors in all that is read after it: the version, the kind of the header, the header, and
/// the length of the body.
pub fn invalid_roots_fail()
    ensures version_3 { root_at (root_bytes 4 8 2 9 255) ≡ Err Version }
    ensures no_version { root_at (root_bytes 0 8 4 3 0) ≡ Err Version }
    ensures tensor { root_at (root_bytes 4 8 4 4 255) ≡ Err HeaderType }
    ensures no_header { root_at (root_bytes 4 0 4 3 255) ≡ Err HeaderType }
    ensures body { root_at (root_bytes 4 8 4 3 255) ≡ Err BodyLength }
    ensures short { spec_message_of_size 37 (root_bytes 4 8 2 3 0) ≡ Err Truncated }
    ensures outside { root_at (5 ∷ 0 ∷ 0 ∷ 0 ∷ []) ≡ Err Flatbuffer }
    ensures budget { spec_read_table later_vtable 4 7 ≡ Err ApparentSize }
{}
