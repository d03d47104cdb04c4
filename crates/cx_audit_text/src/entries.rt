//! What a line of a journal says.

use crate::{AdminOutcome, Verb};
use cx_base::{EntityName, Reading, Text};
use cx_journal::Entry;

/// An administrator asked something of the entity of this name, and the monitor answered, at a reading of its own.
#[derive(Drop)]
pub struct Administered {
    pub actor: EntityName,
    pub verb: Verb,
    pub name: Text,
    pub at: Reading,
    pub outcome: AdminOutcome,
}

/// What a line of a journal says: an entry of a run, or what the monitor did for an administrator.
#[derive(Drop)]
pub enum JournalLine {
    Entry(Entry),
    Administered(Administered),
}
