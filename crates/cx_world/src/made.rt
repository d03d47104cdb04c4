//! What an event came to.

ghost use Rattle.std.specs.Prelude.{◌≡◌, true, false, filter, IfOk};
ghost use Rattle.cx_world_start.specs.cx_run.specs.Happenings.{failed_out, stays};
ghost use Rattle.cx_steps.specs.Nothing.{nothing};

use cx_base::{Duplicate, Items};
use cx_steps::{Effects, SealEntry};
use std::alloc::{AllocError, Global};

/// What an event came to: its effects; whether a save failed; and whether there was a node to which it came.
#[derive(Drop)]
pub struct Made {
    pub out: Effects,
    pub failed: bool,
    pub happened: bool,
}

impl Made {
    /// Nothing happened: there is no such node.
    pub(crate) fn nothing(alloc: Global) -> Made
        ensures { result ≡ record { out = nothing; failed = false; happened = false } }
    {
        Made {
            out: Effects::new(alloc),
            failed: false,
            happened: false,
        }
    }

    /// The effects of a step.
    pub(crate) fn of(out: Effects) -> Made
        ensures { result ≡ record { out = out; failed = false; happened = true } }
    {
        Made {
            out,
            failed: false,
            happened: true,
        }
    }

    /// A step whose save failed.
    pub(crate) fn failed(alloc: Global, out: &Effects) -> Result<Made, AllocError>
        ensures { IfOk result (λ made. made ≡ record { out = failed_out out.now; failed = true; happened = true }) }
    {
        let seals = remaining(alloc, out.seals.all())?;
        let mut left = Effects::new(alloc);
        left.seals = seals;
        left.turned = out.turned;
        Ok(Made {
            out: left,
            failed: true,
            happened: true,
        })
    }
}

// What stays of the log where a save failed.
fn remaining(alloc: Global, seals: &[SealEntry]) -> Result<Items<SealEntry>, AllocError>
    ensures { IfOk result (λ kept. kept ≡ filter stays seals.now) }
{
    let mut kept = Items::new(alloc);
    for seal in seals {
        if stays(seal) {
            let copied = seal.copy(alloc)?;
            kept.push(alloc, copied)?;
        }
    }
    Ok(kept)
}

fn stays(seal: &SealEntry) -> bool
    ensures { result ≡ stays seal.now }
{
    match seal {
        SealEntry::Sealed(_) => false,
        SealEntry::Signed(_) => false,
        SealEntry::Opened(_) => true,
        SealEntry::Checked(_) => true,
        SealEntry::Drawn(_) => true,
    }
}
