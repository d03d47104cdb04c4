//! The first breach of a log as a whole.

ghost use Rattle.std.specs.Prelude.{IfOk};
ghost use Rattle.cx_steps.specs.Breach.{IsFound};

use crate::ledger::Ledger;
use cx_base::{Duplicate, EntityName};
use cx_journal::Broken;
use cx_steps::Logged;
use std::alloc::{AllocError, Global};

/// The first breach of this log, where these clients leaked; nothing exactly where it is sound and fresh.
pub fn first_breach(
    alloc: Global,
    leaked: &[EntityName],
    log: &[Logged],
) -> Result<Option<Broken>, AllocError>
    ensures { IfOk result (λ found. IsFound leaked.now log.now found) }
{
    let mut ledger = Ledger::new(alloc, leaked)?;
    for at in log {
        ledger.enter(alloc, at)?;
    }
    match ledger.first_breach() {
        None => Ok(None),
        Some(broken) => {
            let copied = broken.copy(alloc)?;
            Ok(Some(copied))
        }
    }
}
