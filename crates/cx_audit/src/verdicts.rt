//! What an audit comes to.

use crate::Rule;
use cx_audit_text::{JournalRefusal, WrongLine};
use std::alloc::AllocError;

/// What is said of a journal.
#[derive(Clone, Copy)]
pub enum Verdict {
    /// No line breaks a rule.
    Legal,
    /// The line of this number, from 1, is the first that breaks a rule, and this is the least that it breaks.
    Breaks { line: u64, rule: Rule },
}

/// Why nothing is said of a text.
#[derive(Drop)]
pub enum AuditRefusal {
    /// The line of this number, from 1, is the first that is no line of a journal.
    BadLine(u64, WrongLine),
    OutOfMemory,
}

impl From<AllocError> for AuditRefusal {
    ghost use Rattle.std.specs.Prelude.{◌≡◌};
    ghost use Rattle.cx_audit.specs.declared.verdicts.AuditRefusal.TheVariants.{OutOfMemory};

    ghost from_gives = { λ _ e. e ≡ OutOfMemory };

    fn from(_: AllocError) -> AuditRefusal {
        AuditRefusal::OutOfMemory
    }
}
