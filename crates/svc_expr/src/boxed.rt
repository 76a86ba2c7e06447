// A box that contracts see as what stands in it.
ghost use Rattle.std.specs.Prelude.{◌≡◌, IfOk};

use std::alloc::{AllocError, Global};
use std::marker::Model;

/// A `Box` that contracts see as its content. So a tree of them is plain data: a copy of it is equal to it.
#[derive(Debug, Drop)]
pub struct Boxed<T> {
    inner: Box<T>,
}

impl<T> Model for Boxed<T> {
    ghost Value = { T };

    ghost coded = { T.code };

    ghost view = { λ boxed. boxed.inner.value };
}

impl<T> Boxed<T> {
    /// The content, lent.
    pub fn get(&self) -> &T
        ensures { result.now ≡ self.now }
    {
        &self.inner
    }

    /// The content, taken out.
    pub fn into_inner(self) -> T
        ensures { result ≡ self }
    {
        let Boxed { inner } = self;
        Box::into_inner(inner)
    }

    /// The allocator that holds the content.
    pub fn allocator(&self) -> Global {
        *Box::allocator(&self.inner)
    }
}

impl<T: Drop> Boxed<T> {
    /// A box of `content` in memory of `alloc`. After `AllocError` the content is dropped.
    pub fn new(alloc: Global, content: T) -> Result<Boxed<T>, AllocError>
        ensures { IfOk result (λ boxed. boxed ≡ content) }
    {
        Ok(Boxed {
            inner: Box::new(alloc, content)?,
        })
    }
}
