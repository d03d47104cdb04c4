//! The first entry that breaks a rule.

ghost use Rattle.std.specs.Prelude.{IfOk};
ghost use Rattle.cx_audit.specs.ruled.Rules.{IsFound};

use crate::judging::broken_by;
use crate::known::{Known, leaked};
use crate::rules::Breach;
use cx_journal::Entry;
use std::alloc::{AllocError, Global};

/// The first entry that breaks a rule, and the least rule that it breaks: nothing exactly where the five laws of a journal hold
/// of these entries. What the entries before one say of a ticket, a look or an operation is found by its key.
pub fn first_breach(alloc: Global, entries: &[Entry]) -> Result<Option<Breach>, AllocError>
    ensures { IfOk result (IsFound entries.now) }
{
    let leaks = leaked(alloc, entries)?;
    let mut known = Known::new(alloc, leaks);
    for place in 0..entries.len() {
        let entry = &entries[place];
        if let Some(rule) = broken_by(alloc, &known, entry)? {
            return Ok(Some(Breach { place, rule }));
        }
        known.note(alloc, entry)?;
    }
    Ok(None)
}
