//! Copies of plain data that owns bytes, text or items.

ghost use Rattle.std.specs.Prelude.{◌≡◌, IfOk};

use crate::kinds::{Access, EntityType};
use crate::owned::Items;
use std::alloc::{AllocError, Global};

/// Plain data that can be copied. Its only refusal is want of memory.
pub trait Duplicate: Sized + Drop {
    /// A copy, which equals the original.
    fn copy(&self, alloc: Global) -> Result<Self, AllocError>
        ensures { IfOk result (λ copied. copied ≡ self.now) };
}

/// Copies a list, item by item.
pub fn copy_items<T: Duplicate>(alloc: Global, items: &Items<T>) -> Result<Items<T>, AllocError>
    ensures { IfOk result (λ copied. copied ≡ items.now) }
{
    let mut copied = Items::new(alloc);
    for item in items.all() {
        let item_copy = item.copy(alloc)?;
        copied.push(alloc, item_copy)?;
    }
    Ok(copied)
}

impl Duplicate for EntityType {
    fn copy(&self, _alloc: Global) -> Result<EntityType, AllocError> {
        Ok(*self)
    }
}

impl Duplicate for Access {
    fn copy(&self, _alloc: Global) -> Result<Access, AllocError> {
        Ok(*self)
    }
}

impl Duplicate for u64 {
    fn copy(&self, _alloc: Global) -> Result<u64, AllocError> {
        Ok(*self)
    }
}
