//! Copies of the payloads that own bytes.

ghost use Rattle.std.specs.Prelude.{◌≡◌, IfOk};

use crate::auth::{AuthDone, AuthReplyMore, AuthRequest, AuthRequestMore};
use cx_base::{Duplicate, Items};
use std::alloc::{AllocError, Global};

impl Duplicate for AuthRequest {
    fn copy(&self, alloc: Global) -> Result<AuthRequest, AllocError> {
        Ok(AuthRequest {
            method: self.method,
            modes: copy_modes(alloc, &self.modes)?,
            payload: self.payload.copy(alloc)?,
        })
    }
}

impl Duplicate for AuthReplyMore {
    fn copy(&self, alloc: Global) -> Result<AuthReplyMore, AllocError> {
        Ok(AuthReplyMore {
            payload: self.payload.copy(alloc)?,
        })
    }
}

impl Duplicate for AuthRequestMore {
    fn copy(&self, alloc: Global) -> Result<AuthRequestMore, AllocError> {
        Ok(AuthRequestMore {
            payload: self.payload.copy(alloc)?,
        })
    }
}

impl Duplicate for AuthDone {
    fn copy(&self, alloc: Global) -> Result<AuthDone, AllocError> {
        Ok(AuthDone {
            gid: self.gid,
            mode: self.mode,
            payload: self.payload.copy(alloc)?,
        })
    }
}

fn copy_modes(alloc: Global, modes: &Items<u32>) -> Result<Items<u32>, AllocError>
    ensures { IfOk result (λ copied. copied ≡ modes.now) }
{
    let mut copied = Items::new(alloc);
    for mode in modes.all() {
        copied.push(alloc, *mode)?;
    }
    Ok(copied)
}
