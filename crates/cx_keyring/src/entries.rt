//! Entries of a keyring.

use cx_base::{Duplicate, EntityName, Grant, Items, copy_items};
use cx_enc::Key;
use std::alloc::{AllocError, Global};

/// An entity with its secret key and its capabilities.
#[derive(Debug, PartialEq, Eq, Drop)]
pub struct Entry {
    pub name: EntityName,
    pub key: Key,
    pub caps: Items<Grant>,
}

impl Duplicate for Entry {
    fn copy(&self, alloc: Global) -> Result<Entry, AllocError> {
        let name = self.name.copy(alloc)?;
        let caps = copy_items(alloc, &self.caps)?;
        Ok(Entry {
            name,
            key: self.key,
            caps,
        })
    }
}
