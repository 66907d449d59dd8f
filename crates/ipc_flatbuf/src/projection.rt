//! The arrays of a record batch that are skipped, and those that are stored otherwise than they are read.
ghost use Rattle.std.specs.Prelude.{◌≡◌};
ghost use Rattle.ipc_flatbuf.specs.StoredArrays.{spec_is_read_as_stored, reads_as_stored, spec_is_view, reads_views};

/// The number of field nodes and buffers that a skipped field and its descendants have in each record batch.
#[derive(Clone, Copy, Debug, PartialEq, Eq)]
pub struct SkippedField {
    /// The number of field nodes.
    pub nodes: usize,
    /// The number of buffers, without the variadic buffers of views.
    pub buffers: usize,
    /// The number of view arrays: each has an entry in `variadicBufferCounts` of the record batch.
    pub views: usize,
    /// Whether the field or a descendant is a union.
    pub has_union: bool,
    /// Whether the field or a descendant is dictionary-encoded.
    pub has_dictionary: bool,
}

/// Whether a field of a schema is read or skipped.
#[derive(Clone, Copy, Debug, PartialEq, Eq)]
pub enum FieldAction {
    /// The field is read.
    Read,
    /// The field is skipped.
    Skip(SkippedField),
}

/// How an array of a record batch is stored, where it may be read as an array of another layout.
#[derive(Clone, Copy, Debug, PartialEq, Eq)]
pub enum StoredArray {
    /// This number of buffers, which are read as they are.
    Plain(usize),
    /// BinaryView or Utf8View: a validity buffer, the views, and the variadic buffers. Read as LargeBinary or LargeUtf8.
    View,
    /// Decimals of 32 bits: a validity buffer and the values. Read as decimals of 128 bits.
    Decimal32,
    /// Decimals of 64 bits: a validity buffer and the values. Read as decimals of 128 bits.
    Decimal64,
    /// The arrays of a skipped field.
    Skipped(SkippedField),
}

fn is_read_as_stored(array: StoredArray) -> bool
    ensures { result ≡ spec_is_read_as_stored array }
{
    match array {
        StoredArray::Plain(_) | StoredArray::Skipped(_) => true,
        StoredArray::View | StoredArray::Decimal32 | StoredArray::Decimal64 => false,
    }
}

/// Returns whether the buffers of each array are read as they are, or skipped.
pub fn are_read_as_stored(arrays: &[StoredArray]) -> bool
    ensures { result ≡ reads_as_stored arrays.now }
{
    arrays.iter().all(|array| is_read_as_stored(*array))
}

fn is_view(array: StoredArray) -> bool
    ensures { result ≡ spec_is_view array }
{
    match array {
        StoredArray::View => true,
        _ => false,
    }
}

/// Returns whether a view array is among them that is not skipped.
pub fn are_views_read(arrays: &[StoredArray]) -> bool
    ensures { result ≡ reads_views arrays.now }
{
    arrays.iter().any(|array| is_view(*array))
}
