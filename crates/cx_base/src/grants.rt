//! What an entity may do at a service.

use crate::copies::Duplicate;
use crate::kinds::EntityType;
use crate::owned::Text;
use std::alloc::{AllocError, Global};

/// The capability text that an entity has for a service.
#[derive(Debug, PartialEq, Eq, Drop)]
pub struct Grant {
    pub service: EntityType,
    pub caps: Text,
}

impl Duplicate for Grant {
    fn copy(&self, alloc: Global) -> Result<Grant, AllocError> {
        let caps = self.caps.copy(alloc)?;
        Ok(Grant {
            service: self.service,
            caps,
        })
    }
}
