//! The list of entries.

ghost use Rattle.std.specs.Prelude.{◌≡◌, [], ◌∷◌, ◌++◌, OnOk, OnErr, take};

use crate::entries::{
    Admitted, Answered, Ended, Entry, Fetched, Handled, Issued, Looked, Refused, Sent,
};
use crate::faults::{BytesFault, LoginFault, SessionFault};
use crate::outcomes::{Outcome, Reason, TicketFault};
use crate::premises::{Broken, KeyKind, Premise};
use cx_base::{Duplicate, Items, NodeName, copy_items};
use std::alloc::{AllocError, Global};
use std::marker::Model;

/// The entries of a run, in their order.
#[derive(Debug, PartialEq, Eq, Drop)]
pub struct Journal {
    entries: Items<Entry>,
}

impl Model for Journal {
    ghost use Rattle.std.specs.Prelude.{List};
    ghost use Rattle.cx_journal.specs.declared.entries.Entry.{Entry};

    ghost Value = { List Entry };

    ghost view = { λ j. j.entries };

    ghost inverse = { λ es. record { entries = es } };
}

impl Journal {
    /// A journal with no entry.
    pub fn new(alloc: Global) -> Journal
        ensures { result ≡ [] }
    {
        Journal {
            entries: Items::new(alloc),
        }
    }

    /// Puts the entry last. Where memory is wanting the entry is given up.
    pub fn push(&mut self, alloc: Global, entry: Entry) -> Result<(), AllocError>
        ensures ok { OnOk result (self.new ≡ self.old ++ entry ∷ []) }
        ensures err { OnErr result (self.new ≡ self.old) }
    {
        self.entries.push(alloc, entry)
    }

    /// The entries.
    pub fn all(&self) -> &[Entry]
        ensures { result.now ≡ self.now }
    {
        self.entries.all()
    }

    /// Keeps the first `count` entries and gives up the others.
    pub fn truncate(&mut self, count: usize)
        ensures { self.new ≡ take count self.old }
    {
        self.entries.truncate(count);
    }
}

impl Duplicate for Journal {
    fn copy(&self, alloc: Global) -> Result<Journal, AllocError> {
        let entries = copy_items(alloc, &self.entries)?;
        Ok(Journal { entries })
    }
}

// Each of these goes to another thread, and is seen by several.
fn are_sendable() {
    is_sendable::<Issued>();
    is_sendable::<Fetched>();
    is_sendable::<Looked>();
    is_sendable::<Admitted>();
    is_sendable::<Sent>();
    is_sendable::<Handled>();
    is_sendable::<Answered>();
    is_sendable::<Refused>();
    is_sendable::<Ended>();
    is_sendable::<NodeName>();
    is_sendable::<Broken>();
    is_sendable::<Premise>();
    is_sendable::<KeyKind>();
    is_sendable::<Entry>();
    is_sendable::<Outcome>();
    is_sendable::<Reason>();
    is_sendable::<TicketFault>();
    is_sendable::<BytesFault>();
    is_sendable::<LoginFault>();
    is_sendable::<SessionFault>();
    is_sendable::<Journal>();
}

fn is_sendable<T: Send + Sync>() {}
