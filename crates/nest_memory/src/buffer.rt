//! A shared slice of a vector.
ghost use Rattle.std.specs.Prelude.{◌≡◌, ◌+◌, ◌≤◌, ◌<◌, IfOk, IsTrue, ◌↔◌, length, [], slice_get, Some, IsOkUnless, replicate, alloc_error};
ghost use Rattle.nest_memory.specs.declared.error.Error.TheVariants.{Memory};
ghost use Rattle.nest_memory.specs.Sublist.{sublist};

use crate::error::Error;
use std::alloc::Global;
use std::marker::Model;
use std::rc::Rc;

/// An immutable buffer, whose clones and slices share memory; arrow2's `Buffer`.
///
/// Values are contiguous, as in a `Vec` ("Buffer listing for each layout" of the Arrow columnar format). Each
/// `Result` is [`Error::Memory`] where an allocation fails.
#[derive(Drop)]
pub struct Buffer<T> {
    data: Rc<Vec<T>>,
    start: usize,
    len: usize,
}

impl<T> Model for Buffer<T> {
    ghost use Rattle.std.specs.Prelude.{List, ◌+◌, ◌≤◌, length};
    ghost use Rattle.nest_memory.specs.Sublist.{sublist};

    ghost Value = { List T };

    ghost view = { λ b. sublist b.data.value.items b.start b.len };

    ghost invariant = { λ b. b.start + b.len ≤ length b.data.value.items };
}

impl<T: Copy> Buffer<T> {
    /// Returns a buffer that takes over the memory of a vector.
    pub fn from_vec(alloc: Global, items: Vec<T>) -> Result<Buffer<T>, Error>
        ensures ok { IfOk result (λ b. b ≡ items.items) }
        ensures err { IsOkUnless result (Memory alloc_error) }
    {
        let len = items.len();
        let data = Rc::new(alloc, items)?;
        Ok(Buffer {
            data,
            start: 0,
            len,
        })
    }

    /// Returns an empty buffer.
    pub fn new(alloc: Global) -> Result<Buffer<T>, Error>
        ensures ok { IfOk result (λ b. b ≡ []) }
        ensures err { IsOkUnless result (Memory alloc_error) }
    {
        Buffer::from_vec(alloc, Vec::new(alloc))
    }

    /// Returns `length` copies of a value, in a single allocation of values.
    pub fn filled(alloc: Global, value: T, length: usize) -> Result<Buffer<T>, Error>
        ensures ok { IfOk result (λ b. b ≡ replicate length value) }
        ensures err { IsOkUnless result (Memory alloc_error) }
    {
        let mut items = Vec::with_capacity(alloc, length)?;
        items.resize(length, value)?;
        Buffer::from_vec(alloc, items)
    }

    /// Returns the number of values.
    pub fn len(&self) -> usize
        ensures { result ≡ length self.now }
    {
        self.len
    }

    /// Returns whether there are no values.
    pub fn is_empty(&self) -> bool
        ensures { IsTrue result ↔ (self.now ≡ []) }
    {
        self.len == 0
    }

    /// Returns the values as a slice.
    pub fn as_slice(&self) -> &[T]
        ensures { result.now ≡ self.now }
    {
        let end = self.start + self.len;
        &self.data.as_slice()[self.start..end]
    }

    /// Returns value `i`.
    pub fn get(&self, i: usize) -> T
        requires { i < length self.now }
        ensures { slice_get self.now i ≡ Some result }
    {
        self.data[self.start + i]
    }

    /// Slices the buffer to `len` values from index `offset`, without copying.
    pub fn slice(&mut self, offset: usize, len: usize)
        requires { offset + len ≤ length self.old }
        ensures { self.new ≡ sublist self.old offset len }
    {
        self.start += offset;
        self.len = len;
    }

    /// Returns the slice of `len` values from index `offset`, without copying.
    pub fn sliced(self, offset: usize, len: usize) -> Buffer<T>
        requires { offset + len ≤ length self }
        ensures { result ≡ sublist self offset len }
    {
        let mut cut = self;
        cut.slice(offset, len);
        cut
    }

    /// Returns a buffer that shares the values, or [`Error::Memory`] where the reference count would overflow.
    pub fn clone(&self) -> Result<Buffer<T>, Error>
        ensures ok { IfOk result (λ b. b ≡ self.now) }
        ensures err { IsOkUnless result (Memory alloc_error) }
    {
        Ok(Buffer {
            data: self.data.clone()?,
            start: self.start,
            len: self.len,
        })
    }
}
