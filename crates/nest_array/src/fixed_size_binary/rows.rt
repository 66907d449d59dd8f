//! Fixed-size binary arrays from rows, and with other data types.
ghost use Rattle.std.specs.Prelude.{◌≡◌, ◌⊎◌, ◌↔◌, ◌*◌, ◌≤◌, ◌<◌, ◌^◌, IfOk, IfErr, IsErrOf, IsOkUnless, None, length, map, alloc_error};
ghost use Rattle.std.specs.List.{concat, All};
ghost use Rattle.nest_memory.specs.declared.datatypes.physical_type.PhysicalType.TheVariants as physical;
ghost use Rattle.nest_memory.specs.declared.error.Error.TheVariants.{Overflow};
ghost use Rattle.nest_memory.specs.TypeTree as types;
ghost use Rattle.nest_model.specs.Accessors.{with_type};
ghost use Rattle.nest_model.specs.Layout as layouts;
ghost use Rattle.nest_model.specs.Slot as slots;
ghost use Rattle.nest_array.specs.Words.{Memory, layout_type, physical_type, size_of, slots_of, type_of};

use crate::fixed_size_binary::FixedSizeBinaryArray;
use nest_memory::buffer::Buffer;
use nest_memory::datatypes::DataType;
use nest_memory::error::Error;
use std::alloc::Global;

impl FixedSizeBinaryArray {
    /// Returns the fixed-size binary type of a size.
    pub fn default_datatype(size: usize) -> DataType
        ensures { type_of result ≡ types.fixed_size_binary size }
    {
        DataType::FixedSizeBinary(size)
    }

    /// Returns the array of these rows, without nulls.
    ///
    /// # Errors
    /// `Overflow` where the rows have 2^64 bytes or more, `Memory` where an allocation fails.
    pub fn from_slice<const N: usize>(
        alloc: Global,
        rows: &[[u8; N]],
    ) -> Result<FixedSizeBinaryArray, Error>
        requires { 0 < N }
        ensures parts { IfOk result (λ a. a ≡ layouts.fixed_size_binary (types.fixed_size_binary N) (concat rows.now) None) }
        ensures slots { IfOk result (λ a. slots_of a ≡ map (λ row. slots.bytes row) rows.now) }
        ensures overflow { IsErrOf result Overflow ↔ (2 ^ 64 ≤ length rows.now * N) }
        ensures err { IfErr result (λ e. (e ≡ Overflow) ⊎ (e ≡ Memory alloc_error)) }
    {
        if rows.len().checked_mul(N).is_none() {
            return Err(Error::Overflow);
        }
        let values = joined(alloc, rows)?;
        let data_type = FixedSizeBinaryArray::default_datatype(N);
        Ok(FixedSizeBinaryArray::new(data_type, values, None))
    }

    /// Returns the array with another data type: fixed-size binary of the same size, or an extension of it.
    pub fn to(self, data_type: DataType) -> FixedSizeBinaryArray
        requires kind { physical_type (type_of data_type) ≡ physical.FixedSizeBinary }
        requires same_size { size_of (type_of data_type) ≡ size_of (layout_type self) }
        ensures parts { result ≡ with_type self (type_of data_type) }
        ensures new_type { layout_type result ≡ type_of data_type }
        ensures same_slots { slots_of result ≡ slots_of self }
    {
        let FixedSizeBinaryArray {
            size,
            data_type: old_type,
            values,
            validity,
        } = self;
        drop(old_type);
        FixedSizeBinaryArray {
            size,
            data_type,
            values,
            validity,
        }
    }
}

/// Returns the concatenated bytes of the rows.
fn joined<const N: usize>(alloc: Global, rows: &[[u8; N]]) -> Result<Buffer<u8>, Error>
    ensures ok { IfOk result (λ b. b ≡ concat rows.now) }
    ensures each { IfOk result (λ _. All (λ row. length row ≡ N) rows.now) }
    ensures err { IsOkUnless result (Memory alloc_error) }
{
    let mut bytes = Vec::new(alloc);
    for row in rows {
        bytes.extend_from_slice(bytes_of(row))?;
    }
    Buffer::from_vec(alloc, bytes)
}

/// Returns the bytes of a row.
pub(crate) fn bytes_of<const N: usize>(row: &[u8; N]) -> &[u8]
    ensures bytes { result.now ≡ row.now }
    ensures count { length result.now ≡ N }
{
    row.as_slice()
}
