//! `MutableArray` for a box of any builder.
use crate::array::MutableArray;
use nest_array::AnyArray;
use nest_flat::plain::Plain;
use nest_memory::bitmap::mutable::MutableBitmap;
use nest_memory::datatypes::DataType;
use nest_memory::error::Error;
use std::alloc::Global;
use std::rc::Rc;

impl MutableArray for Box<dyn MutableArray> {
    ghost model = { λ b. (MutableArray-box b).model b.value };

    ghost bare = { λ b. (MutableArray-box b).bare b.value };

    fn data_type(&self) -> &DataType {
        (**self).data_type()
    }

    fn len(&self) -> usize {
        (**self).len()
    }

    fn is_empty(&self) -> bool {
        (**self).is_empty()
    }

    fn validity(&self) -> Option<&MutableBitmap> {
        (**self).validity()
    }

    fn is_valid(&self, i: usize) -> bool {
        (**self).is_valid(i)
    }

    fn is_complete(&self) -> bool {
        (**self).is_complete()
    }

    fn holds(&self, i: usize, value: &Plain<'_>) -> bool {
        (**self).holds(i, value)
    }

    fn push_null(&mut self) -> Result<(), Error> {
        (**self).push_null()
    }

    fn try_push_plain(&mut self, value: Option<Plain<'_>>) -> Result<(), Error> {
        (**self).try_push_plain(value)
    }

    fn truncate(&mut self, n: usize) {
        (**self).truncate(n)
    }

    fn reserve(&mut self, additional: usize) -> Result<(), Error> {
        (**self).reserve(additional)
    }

    fn shrink_to_fit(&mut self) -> Result<(), Error> {
        (**self).shrink_to_fit()
    }

    fn as_box(&mut self) -> Result<AnyArray, Error> {
        (**self).as_box()
    }

    fn as_arc(&mut self, alloc: Global) -> Result<Rc<AnyArray>, Error> {
        (**self).as_arc(alloc)
    }
}
