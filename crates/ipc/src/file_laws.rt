//! Laws of files that hold the messages of streams. Each function has an empty body: its contract is the law.
ghost use Rattle.std.specs.Prelude.{◌≡◌, ◌⊎◌, true, false, List, ℕ, Ok, Err};
ghost use Rattle.ipc_flatbuf.specs.declared.error.IpcReadError.TheVariants.{DuplicateDictionary};
ghost use Rattle.nest_memory.specs.TypeTree.{TypeTree};
ghost use Rattle.nest_model.specs.Array.{IsArray};
ghost use Rattle.nest_model.specs.Layout.{Layout};
ghost use Rattle.ipc_flatbuf.specs.Messages.{MessageModel};
ghost use Rattle.ipc_schema.specs.Projections.{all};
ghost use Rattle.ipc_arrays.specs.Decoding.{Rest, decoded_column};
ghost use Rattle.ipc_arrays.specs.declared.cursor.ExpectedLength.{ExpectedLength as WantedColumn};
ghost use Rattle.ipc.specs.Streams.{RecordBatchTree, StateTree, batches_in, record_batch_in, dictionary_in};
ghost use Rattle.ipc.specs.ExtendedDictionaries.{AreAllArrays, HasArrays, IsLater, BatchDecodesAlike};
ghost use Rattle.ipc.specs.ExtendedColumns.{AllColumnsDecodeAlike, AllBatchesDecodeAlike, AllProjectionsDecodeAlike};
ghost use Rattle.ipc.specs.StreamsInFilesLaws.{FilesAreReadAsStreams};
ghost use Rattle.ipc.specs.StreamsInFiles.{HoldsStream, batches_by, messages_in, batches_with_left};
ghost use Rattle.ipc.specs.StreamsInFilesExamples.{worked_stream};
ghost use Rattle.ipc_schema.specs.FooterExamples.{worked_file};

/// Over dictionaries that begin with the same slots, and may have more, a column decodes to the same array; so do all columns of a batch,
/// or the projected ones. Over arrays a column decodes to an array.
pub fn columns_decode_alike_over_extended_dictionaries()
    ensures same { AllColumnsDecodeAlike }
    ensures columns { AllBatchesDecodeAlike }
    ensures picked { AllProjectionsDecodeAlike }
    ensures arrays { (t : TypeTree) (wanted : WantedColumn) (body : List ℕ) (r : Rest) (x : Layout × Rest) → AreAllArrays r.dictionaries → decoded_column t wanted body r ≡ Ok x → IsArray x.0 }
{}

/// A dictionary batch in a file is read as in a stream, or refused as a second one with its id.
pub fn file_dictionaries_are_read_as_in_streams()
    ensures { (s : StateTree) (m : MessageModel) → (dictionary_in true s m ≡ dictionary_in false s m) ⊎ (dictionary_in true s m ≡ Err DuplicateDictionary) }
{}

/// After a dictionary batch of a file the projection is the same, and only more values are known.
pub fn dictionary_batches_only_add()
    ensures { (s t : StateTree) (m : MessageModel) → HasArrays s.known → dictionary_in true s m ≡ Ok t → IsLater s t }
{}

/// A record batch that can be read can be read where more values are known too, with the same rows and arrays.
pub fn batches_decode_alike_where_more_is_known()
    ensures { (s t : StateTree) (m : MessageModel) (b : RecordBatchTree) → IsLater s t → record_batch_in s m ≡ Ok b → BatchDecodesAlike b (record_batch_in t m) }
{}

/// The batches of a stream are those of its messages in order.
pub fn batches_are_those_of_the_messages()
    ensures { (s : StateTree) (bytes : List ℕ) (ms : List MessageModel) (after : List ℕ) → messages_in bytes ≡ Ok (ms, after) → batches_in s bytes ≡ batches_with_left after (batches_by s ms) }
{}

/// A file whose blocks are the dictionary and record batches of a stream in order is read as that stream, unless a dictionary replaces
/// another: with its schema, and batches of the same rows, data types and slots.
pub fn file_is_read_as_the_stream_it_holds()
    ensures { FilesAreReadAsStreams }
{}

/// The file of another writer, byte by byte, holds the stream after its first eight bytes.
pub fn file_holds_its_stream()
    ensures { HoldsStream all worked_stream worked_file }
{}
