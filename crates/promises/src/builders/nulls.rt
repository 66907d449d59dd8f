//! Builders of nulls.
ghost use Rattle.std.specs.Prelude.{◌≡◌, IfOk, IsOkUnless, alloc_error};
ghost use Rattle.nest_memory.specs.Physical.{physical_type};
ghost use Rattle.nest_memory.specs.TypeOf.{type_of};
ghost use Rattle.nest_memory.specs.declared.datatypes.physical_type.PhysicalType.TheVariants as physical;
ghost use Rattle.nest_memory.specs.declared.error.Error.TheVariants.{Memory};
ghost use Rattle.nest_model.specs.Layout as layouts;
ghost use Rattle.nest_model.specs.Layout.{layout_type};

use nest_array::NullArray;
use nest_build::null::MutableNullArray;
use nest_memory::datatypes::DataType;
use nest_memory::error::Error;
use std::alloc::Global;

/// Returns a builder with `length` nulls of a null type, without allocation.
pub fn new_null_builder(alloc: Global, data_type: DataType, length: usize) -> MutableNullArray
    requires { physical_type (type_of data_type) ≡ physical.Null }
    ensures { result ≡ layouts.null (type_of data_type) length }
{
    MutableNullArray::new(alloc, data_type, length)
}

/// Returns the array of the nulls and leaves none, also when an allocation fails.
pub fn freeze_nulls(nulls: &mut MutableNullArray) -> Result<NullArray, Error>
    ensures ok { IfOk result (λ a. a ≡ nulls.old) }
    ensures emptied { nulls.new ≡ layouts.null (layout_type nulls.old) 0 }
    ensures memory { IsOkUnless result (Memory alloc_error) }
{
    nulls.freeze()
}
