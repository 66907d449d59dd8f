//! The builder of null arrays.
ghost use Rattle.std.specs.Prelude.{◌≡◌, ◌+◌, ◌^◌, ◌≤◌, ◌<◌, ⊤, None, Some, OnOk, OnErr, IfOk, IfErr, IsOkUnless, alloc_error};
ghost use Rattle.nest_model.specs.BuilderItem.{null as null_item};
ghost use Rattle.nest_memory.specs.declared.datatypes.physical_type.PhysicalType.TheVariants as physical;
ghost use Rattle.nest_model.specs.Layout as layouts;
ghost use Rattle.nest_build.specs.Words.{Accepted, Memory, Overflow, TopFits, flat_tree, item_refusal, layout_type, len, physical_type, type_of};

use crate::array::{MutableArray, shared};
use nest_array::{AnyArray, NullArray};
use nest_flat::plain::Plain;
use nest_memory::bitmap::mutable::MutableBitmap;
use nest_memory::datatypes::DataType;
use nest_memory::error::{ArgumentError, Error};
use std::alloc::Global;
use std::marker::Model;
use std::rc::Rc;

/// A builder of null arrays: arrow2's `MutableNullArray`.
///
/// It has no validity, and none of its rows is valid.
#[derive(Drop)]
pub struct MutableNullArray {
    data_type: DataType,
    count: usize,
    alloc: Global,
}

impl Model for MutableNullArray {
    ghost use Rattle.nest_model.specs.Layout as layouts;
    ghost use Rattle.nest_model.specs.Layout.{Layout};
    ghost use Rattle.nest_model.specs.LayoutCode.{coded_layout};

    ghost Value = { Layout };

    ghost coded = { coded_layout };

    ghost use Rattle.nest_memory.specs.TypeOf.{type_of};
    ghost use Rattle.nest_model.specs.Array.{TopFits};

    ghost view = { λ b. layouts.null (type_of b.data_type) b.count };

    ghost invariant = { λ b. TopFits (layouts.null (type_of b.data_type) b.count) };
}

impl MutableNullArray {
    /// Returns a builder of `length` nulls, of a data type whose physical type is `Null`.
    pub fn new(alloc: Global, data_type: DataType, length: usize) -> MutableNullArray
        requires { physical_type (type_of data_type) ≡ physical.Null }
        ensures { result ≡ layouts.null (type_of data_type) length }
    {
        MutableNullArray {
            data_type,
            count: length,
            alloc,
        }
    }

    /// Shows the prover the invariants of a null builder. Does nothing at run time.
    pub fn known(&self)
        ensures fits { TopFits self.now }
        ensures kind { self.now ≡ layouts.null (layout_type self.now) (len self.now) }
    {
        let _ = &self.data_type;
    }

    /// Returns the number of nulls.
    pub fn len(&self) -> usize
        ensures { result ≡ len self.now }
    {
        self.count
    }

    /// Returns the data type.
    pub fn data_type(&self) -> &DataType
        ensures { type_of result.now ≡ layout_type self.now }
    {
        &self.data_type
    }

    /// Appends a null.
    fn push(&mut self) -> Result<(), Error>
        ensures ok { OnOk result (self.new ≡ layouts.null (layout_type self.old) (len self.old + 1)) }
        ensures room { OnOk result (len self.old + 1 < 2 ^ 64) }
        ensures err { OnErr result (self.new ≡ self.old) }
        ensures full { IfErr result (λ e. (e ≡ Overflow) × (len self.old + 1 ≡ 2 ^ 64)) }
    {
        match self.count.checked_add(1) {
            None => Err(Error::Overflow),
            Some(count) => {
                self.count = count;
                Ok(())
            }
        }
    }

    /// Appends a null. `Overflow` if the length would exceed its limit.
    fn add(&mut self) -> Result<(), Error>
        ensures accepted { OnOk result (Accepted null_item (flat_tree self.old) (flat_tree self.new)) }
        ensures unrefused { OnOk result (item_refusal null_item (flat_tree self.old) ≡ None) }
        ensures err { OnErr result (self.new ≡ self.old) }
        ensures cause { IfErr result (λ e. (e ≡ Overflow) × (item_refusal null_item (flat_tree self.old) ≡ Some e)) }
    {
        self.known();
        if let Err(error) = self.push() {
            return Err(error);
        }
        Ok(())
    }

    /// Keeps the first `n` nulls.
    fn cut(&mut self, n: usize)
        requires { n ≤ len self.old }
        ensures { self.new ≡ layouts.null (layout_type self.old) n }
    {
        self.count = n;
    }

    /// Freezes the builder: returns the array of its nulls. The builder keeps its data type; it has no rows afterwards,
    /// also after an error.
    ///
    /// # Errors
    /// `Memory` if an allocation fails.
    pub fn freeze(&mut self) -> Result<NullArray, Error>
        ensures ok { IfOk result (λ a. a ≡ self.old) }
        ensures emptied { self.new ≡ layouts.null (layout_type self.old) 0 }
        ensures memory { IsOkUnless result (Memory alloc_error) }
    {
        let count = self.count;
        self.count = 0;
        match self.data_type.clone(self.alloc) {
            Ok(data_type) => Ok(NullArray::new(data_type, count)),
            Err(error) => Err(error),
        }
    }
}

impl MutableArray for MutableNullArray {
    ghost model = { flat_tree };

    ghost bare = { λ _. ⊤ };

    fn data_type(&self) -> &DataType {
        self.data_type()
    }

    fn len(&self) -> usize {
        self.len()
    }

    fn is_empty(&self) -> bool {
        self.len() == 0
    }

    fn validity(&self) -> Option<&MutableBitmap> {
        self.known();
        None
    }

    fn is_valid(&self, _i: usize) -> bool {
        self.known();
        false
    }

    fn is_complete(&self) -> bool {
        true
    }

    fn holds(&self, _i: usize, _value: &Plain<'_>) -> bool {
        self.known();
        false
    }

    fn push_null(&mut self) -> Result<(), Error> {
        self.add()
    }

    fn try_push_plain(&mut self, value: Option<Plain<'_>>) -> Result<(), Error> {
        self.known();
        match value {
            None => self.add(),
            Some(_) => Err(Error::InvalidArgumentError(ArgumentError::ItemType)),
        }
    }

    fn truncate(&mut self, n: usize) {
        self.known();
        self.cut(n);
    }

    fn reserve(&mut self, _additional: usize) -> Result<(), Error> {
        self.known();
        Ok(())
    }

    fn shrink_to_fit(&mut self) -> Result<(), Error> {
        Ok(())
    }

    fn as_box(&mut self) -> Result<AnyArray, Error> {
        match self.freeze() {
            Ok(array) => Ok(AnyArray::Null(array)),
            Err(error) => Err(error),
        }
    }

    fn as_arc(&mut self, alloc: Global) -> Result<Rc<AnyArray>, Error> {
        shared(MutableArray::as_box(self), alloc)
    }
}
