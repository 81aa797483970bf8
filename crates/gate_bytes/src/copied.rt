ghost use Rattle.std.specs.Prelude.{◌≡◌, ◌++◌, IfOk, OnOk};

use crate::memory::Memory;
use std::alloc::Global;

/// A value of which an equal one can be made in new memory.
pub trait Copied: Drop {
    fn copy(&self, alloc: Global) -> Result<Self, Memory>
    where
        Self: Sized,
        ensures { IfOk result (λ x. x ≡ self.now) };

    /// Copies each item of a list. For plain bytes this is one copy of all of them.
    fn copy_list(items: &[Self], alloc: Global) -> Result<Vec<Self>, Memory>
    where
        Self: Sized,
        ensures { IfOk result (λ copies. copies.items ≡ items.now) }
    {
        let mut copies = Vec::with_capacity(alloc, items.len())?;
        Self::put_copies(items, alloc, &mut copies)?;
        Ok(copies)
    }

    /// Puts a copy of each item at the end of a list.
    fn put_copies(items: &[Self], alloc: Global, list: &mut Vec<Self>) -> Result<(), Memory>
    where
        Self: Sized,
        ensures { OnOk result (list.new.items ≡ list.old.items ++ items.now) }
    {
        for item in items {
            list.push(item.copy(alloc)?)?;
        }
        Ok(())
    }
}

impl Copied for u8 {
    fn copy(&self, _alloc: Global) -> Result<u8, Memory> {
        Ok(*self)
    }

    fn copy_list(items: &[u8], alloc: Global) -> Result<Vec<u8>, Memory> {
        Ok(Vec::from_slice(alloc, items)?)
    }
}

impl Copied for u32 {
    fn copy(&self, _alloc: Global) -> Result<u32, Memory> {
        Ok(*self)
    }
}

impl Copied for u64 {
    fn copy(&self, _alloc: Global) -> Result<u64, Memory> {
        Ok(*self)
    }
}

impl Copied for bool {
    fn copy(&self, _alloc: Global) -> Result<bool, Memory> {
        Ok(*self)
    }
}

impl<T: Copied> Copied for Option<T> {
    fn copy(&self, alloc: Global) -> Result<Option<T>, Memory> {
        match self {
            Some(value) => Ok(Some(value.copy(alloc)?)),
            None => Ok(None),
        }
    }
}
