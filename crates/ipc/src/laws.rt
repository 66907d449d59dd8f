//! Laws and examples of streams and files. Each function has an empty body: its contract is the law.
ghost use Rattle.std.specs.Prelude.{◌≡◌, ◌<◌, ◌∷◌, List, ℕ, ℤ, [], length, get_or, true, false, None, Some, Ok};
ghost use Rattle.nest_model.specs.Layout.{Layout};
ghost use Rattle.nest_concat.specs.Laid.{joined_layout};
ghost use Rattle.ipc_flatbuf.specs.Messages.{MessageModel};
ghost use Rattle.ipc_schema.specs.Projections.{ProjectionModel};
ghost use Rattle.ipc.specs.Streams.{StateTree, next_in, batches_in, first_and_others, stream_in, dictionary_in, known_at, with_delta, spec_with_values};
ghost use Rattle.ipc.specs.SliceStreamReaders.{SliceStreamReaderTree, batches_of, next_and_others, batches_of_stream, read_one_by_one};
ghost use Rattle.ipc.specs.Streams.{RecordBatchTree};
ghost use Rattle.ipc.specs.Examples.{worked_stream, worked_tree};
ghost use Rattle.ipc.specs.DeltaExamples.{AreDeltas};
ghost use Rattle.ipc.specs.DeltaLaws.{DeltasHaveSlots};
ghost use Rattle.ipc.specs.UnionOffsetExamples.{AreDense};
ghost use Rattle.ipc.specs.DictionaryExamples.{AreDictionaries};
ghost use Rattle.ipc.specs.Files.{SliceFileReaderTree, batch_of_file, batches_of_file, file_in};
ghost use Rattle.ipc.specs.FileLaws.{no_arrays};
ghost use Rattle.ipc.specs.FileExamples as files;
ghost use Rattle.ipc_schema.specs.FooterExamples.{worked_file};

/// The batches of a stream are its next batch and the batches of the rest.
pub fn batches_are_the_next_and_the_others()
    ensures { (s : StateTree) (bytes : List ℕ) → batches_in s bytes ≡ first_and_others s bytes }
{}

/// Without bytes there is no batch.
pub fn no_bytes_have_no_batch()
    ensures { (s : StateTree) → next_in s [] ≡ Ok ((None, s), []) }
{}

/// The batches of a reader are its next batch and those of the reader after it.
pub fn reader_batches_are_the_next_and_the_others()
    ensures { (r : SliceStreamReaderTree) → batches_of r ≡ next_and_others r }
{}

/// A reader returns all batches of its stream, or the same error.
pub fn slice_reader_returns_the_batches_of_its_stream()
    ensures { (picks : ProjectionModel) (bytes : List ℕ) → batches_of_stream picks bytes ≡ read_one_by_one picks bytes }
{}

/// The stream of another writer, byte by byte: one field, and a batch of 7 and null.
pub fn stream_is_read()
    ensures { stream_in worked_stream ≡ Ok worked_tree }
{}

/// If all batches of a file can be read, a reader returns each at its index.
pub fn slice_reader_returns_the_batches_of_its_file()
    ensures { (r : SliceFileReaderTree) (batches : List RecordBatchTree) (i : ℕ) → batches_of_file r ≡ Ok batches → i < length r.blocks → batch_of_file r i ≡ Ok (get_or batches i no_arrays) }
{}

/// The file of another writer, byte by byte: no column, and a batch of three rows.
pub fn file_is_read()
    ensures { file_in worked_file ≡ Ok files.worked_tree }
{}

/// The messages of another writer, byte by byte: a dictionary is read, names the values of a batch, and is replaced; that of a skipped
/// column is skipped. Errors: a second dictionary in a file, a missing one, an id of no field, and a delta of no dictionary.
pub fn dictionaries_are_read()
    ensures { AreDictionaries }
{}

/// A delta is appended: its id has its values and then those of the delta, and nothing else changes. A dictionary batch that is read in a
/// file is read alike in a stream.
pub fn deltas_are_appended()
    ensures joined { (s t : StateTree) (id : ℤ) (old more : Layout) → known_at s.known id ≡ Some old → spec_with_values true s id more ≡ Ok t → t ≡ with_delta s id (joined_layout (old ∷ more ∷ [])) }
    ensures slots { DeltasHaveSlots }
    ensures files { (s t : StateTree) (m : MessageModel) → dictionary_in true s m ≡ Ok t → dictionary_in false s m ≡ Ok t }
{
    nest_concat::laws::joined_layouts_have_their_slots();
}

/// Deltas, byte by byte and by their values: strings and records that are appended; which ids are appendable; and a delta over words that
/// were replaced.
pub fn deltas_are_read()
    ensures { AreDeltas }
{}

/// Offsets of dense unions after other values: the largest that fits, one more, of the field of a type id, and nested in other values, but
/// not in those of a dictionary.
pub fn union_offsets_are_checked()
    ensures { AreDense }
{}
