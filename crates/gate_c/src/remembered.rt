//! A value that only clauses read, and of which there are copies.
ghost use Rattle.std.specs.Prelude.{◌≡◌};
ghost use base.Fml.{ftrue};

use std::marker::{Model, PhantomData};

/// The value that something had. It has no bytes, and owns nothing: only clauses read it.
pub struct Remembered<T> {
    marker: PhantomData<T>,
    pub ghost value: { T },
}

impl<T> Model for Remembered<T> {
    ghost also_owns = { λ _. ftrue };
}

impl<T> Remembered<T> {
    /// Remembers the value that something has now.
    pub fn of(x: &T) -> Remembered<T>
        ensures { result.value ≡ x.now }
    {
        let _ = x;
        Remembered {
            marker: PhantomData,
        }
    }

    pub fn copy(&self) -> Remembered<T>
        ensures { result.value ≡ self.now.value }
    {
        let _ = self;
        Remembered {
            marker: PhantomData,
        }
    }
}

impl<T> Drop for Remembered<T> {
    fn drop(self) {
        let Self { marker: _ } = self;
    }
}
