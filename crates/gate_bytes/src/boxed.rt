//! A value behind a pointer.
ghost use Rattle.std.specs.Prelude.{◌≡◌, IfOk};

use crate::copied::Copied;
use crate::memory::Memory;
use std::alloc::Global;
use std::marker::Model;

/// A value behind a pointer, for what is large and rare in an enum: the enum's other cases are moved in less time.
/// Contracts see the value.
#[derive(Drop)]
pub struct Boxed<T> {
    value: Box<T>,
}

impl<T> Model for Boxed<T> {
    ghost Value = { T };

    ghost view = { λ b. b.value.value };
}

impl<T> Boxed<T> {
    pub fn get(&self) -> &T
        ensures { result.now ≡ self.now }
    {
        &self.value
    }

    /// The value itself. The memory that held it is given back.
    pub fn into_inner(self) -> T
        ensures { result ≡ self }
    {
        let Boxed { value } = self;
        Box::into_inner(value)
    }

    /// Puts a new value in place of the old one, which is handed out. It takes no memory.
    pub fn replace(&mut self, value: T) -> T
        ensures value { result ≡ self.old }
        ensures after { self.new ≡ value }
    {
        std::mem::replace(&mut *self.value, value)
    }
}

impl<T: Drop> Boxed<T> {
    pub fn new(alloc: Global, value: T) -> Result<Boxed<T>, Memory>
        ensures { IfOk result (λ boxed. boxed ≡ value) }
    {
        Ok(Boxed {
            value: Box::new(alloc, value)?,
        })
    }
}

impl<T: Copied> Copied for Boxed<T> {
    fn copy(&self, alloc: Global) -> Result<Boxed<T>, Memory> {
        Boxed::new(alloc, self.get().copy(alloc)?)
    }
}

impl<T: PartialEq> PartialEq for Boxed<T> {
    ghost eq = { λ x y. T.eq x y };

    ghost laws = { T.laws };

    fn eq(&self, other: &Self) -> bool {
        *self.get() == *other.get()
    }
}

impl<T: Eq> Eq for Boxed<T> {
    ghost laws = { T.Eq.laws };
}
