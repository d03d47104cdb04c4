//! Operations that a client asks of a daemon.

use crate::copies::Duplicate;
use crate::kinds::Access;
use crate::owned::{Blob, Text};
use std::alloc::{AllocError, Global};

/// An operation on an object in a namespace of a pool, with its data. The type sets no bounds: who reads an operation says
/// which texts and how many bytes it takes.
#[derive(Debug, PartialEq, Eq, Drop)]
pub struct Operation {
    pub access: Access,
    pub pool: Text,
    pub namespace: Text,
    pub object: Text,
    pub bytes: Blob,
}

impl Duplicate for Operation {
    fn copy(&self, alloc: Global) -> Result<Operation, AllocError> {
        let pool = self.pool.copy(alloc)?;
        let namespace = self.namespace.copy(alloc)?;
        let object = self.object.copy(alloc)?;
        let bytes = self.bytes.copy(alloc)?;
        Ok(Operation {
            access: self.access,
            pool,
            namespace,
            object,
            bytes,
        })
    }
}
