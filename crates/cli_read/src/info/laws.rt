//! Examples of what is printed. Each function has an empty body: its contract is the example.
ghost use Rattle.std.specs.Prelude.{◌≡◌, ◌∷◌, [], codes};
ghost use Rattle.ipc_io.specs.BatchInfos.{record_batches};
ghost use Rattle.cli_read.specs.InfoExamples.{five_values, one_value, three_batches, two_rows};
ghost use Rattle.cli_read.specs.InfoText.{compression_in, version_in};
ghost use Rattle.cli_read.specs.InfoTotals.{spec_delta_count, spec_dictionary_count, spec_row_count};

/// A record batch of two rows, between a dictionary batch and a delta.
pub fn batches_are_counted()
    ensures batches { record_batches three_batches ≡ 1 }
    ensures rows { spec_row_count three_batches ≡ 2 }
    ensures dictionaries { spec_dictionary_count three_batches ≡ 2 }
    ensures deltas { spec_delta_count three_batches ≡ 1 }
{}

/// Versions and compression: of no batch, of one, of those that agree, and of those that differ.
pub fn differences_are_mixed()
    ensures none { version_in [] ≡ codes "none" }
    ensures one { version_in (one_value ∷ []) ≡ codes "V4" }
    ensures mixed { version_in three_batches ≡ codes "mixed" }
    ensures plain { compression_in (two_rows ∷ []) ≡ codes "none" }
    ensures lz4 { compression_in (five_values ∷ one_value ∷ []) ≡ codes "lz4" }
    ensures some { compression_in three_batches ≡ codes "mixed" }
{}
