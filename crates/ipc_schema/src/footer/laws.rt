//! Theorems and worked examples about file footers, as functions with empty bodies.
ghost use Rattle.std.specs.Prelude.{◌≡◌, ◌<◌, ◌^◌, ◌++◌, List, ℕ, [], ◌∷◌, length, replicate, take, Ok, Err};
ghost use Rattle.ipc_flatbuf.specs.declared.error.IpcReadError.TheVariants.{FooterLength, Magic, Truncated};
ghost use Rattle.ipc_schema.specs.Projections.{ProjectionModel, all};
ghost use Rattle.ipc_schema.specs.Footers.{FooterModel, check_ends, footer_length, magic};
ghost use Rattle.ipc_schema.specs.ProjectedFooters.{projected_footer_in};
ghost use Rattle.ipc_schema.specs.FooterParts.{footer_by_parts, last_bytes_of, footer_bytes_in};
ghost use Rattle.ipc_schema.specs.FooterBytes.{footer_bytes};
ghost use Rattle.ipc_schema.specs.FooterLaws.{FooterFits, FooterRoundTrips};
ghost use Rattle.ipc_schema.specs.FooterExamples.{worked_file, worked_tree, unversioned_file, AreVersions};

/// The footer of a file round-trips where its blocks are within the bytes before it.
pub fn footers_round_trip()
    ensures { (f : FooterModel) → FooterFits f → length (footer_bytes f) < 2 ^ 31 → FooterRoundTrips f }
{}

/// The bytes of a file of another writer decode to a footer of one record batch and no columns.
///
/// So they do without a version of the footer, which is at most V5.
pub fn footer_is_read()
    ensures footer { projected_footer_in all worked_file ≡ Ok worked_tree }
    ensures unversioned { projected_footer_in all unversioned_file ≡ Ok worked_tree }
    ensures versions { AreVersions }
{}

/// The footer depends only on the length of the file, its first 6 and last 10 bytes, and the bytes of the footer.
pub fn footer_depends_on_its_parts()
    ensures { (picks : ProjectionModel) (bytes : List ℕ) → projected_footer_in picks bytes ≡ footer_by_parts picks (length bytes) (take 6 bytes) (last_bytes_of bytes) (footer_bytes_in bytes) }
{}

/// The first error of the ends of a file: fewer than 18 bytes, no magic, and the length of a footer that is not within the file.
pub fn invalid_ends_fail()
    ensures short_file { check_ends (replicate 17 0) ≡ Err Truncated }
    ensures no_magic { check_ends (replicate 18 0) ≡ Err Magic }
    ensures empty_footer { footer_length (replicate 12 0 ++ magic) ≡ Err FooterLength }
    ensures long_footer { footer_length (replicate 8 0 ++ (1 ∷ 0 ∷ 0 ∷ 0 ∷ magic)) ≡ Err FooterLength }
    ensures negative_footer { footer_length (replicate 8 0 ++ (255 ∷ 255 ∷ 255 ∷ 255 ∷ magic)) ≡ Err FooterLength }
    ensures one_byte_footer { footer_length (replicate 9 0 ++ (1 ∷ 0 ∷ 0 ∷ 0 ∷ magic)) ≡ Ok 1 }
{}
