//! The entries of a journal.

use crate::outcomes::{Outcome, Reason};
use crate::premises::Broken;
use cx_base::{Blob, EntityName, EntityType, NodeName, Operation, Reading, Text};
use cx_rotate::{Generations, View};
use std::fmt;

/// The monitor issued a ticket. Its number is its place among the issued tickets of the journal.
#[derive(Debug, PartialEq, Eq, Drop)]
pub struct Issued {
    pub entity: EntityName,
    pub service: EntityType,
    pub gid: u64,
    pub generation: u64,
    pub created: Reading,
    pub expires: Reading,
    pub caps: Text,
    pub blob: Blob,
}

/// A daemon took the generations of its own type, for which it had asked at this reading.
#[derive(Debug, PartialEq, Eq, Drop)]
pub struct Fetched {
    pub daemon: EntityName,
    pub asked: Reading,
    pub generations: Generations,
}

/// A daemon looked at its view for an authorizer that came on this link.
#[derive(Debug, PartialEq, Eq, Drop)]
pub struct Looked {
    pub daemon: EntityName,
    pub link: u32,
    pub view: View,
}

/// A daemon admitted a session for an entity, or resumed it under another epoch, at a reading of its own: what the session's
/// ticket gives from then on.
#[derive(Debug, PartialEq, Eq, Drop)]
pub struct Admitted {
    pub daemon: EntityName,
    pub session: u64,
    pub epoch: u64,
    pub cookie: u64,
    pub entity: EntityName,
    pub gid: u64,
    pub at: Reading,
    pub caps: Text,
}

/// A client sent an operation in the session of this cookie.
#[derive(Debug, PartialEq, Eq, Drop)]
pub struct Sent {
    pub client: EntityName,
    pub daemon: EntityName,
    pub cookie: u64,
    pub seq: u64,
    pub operation: Operation,
}

/// A daemon handled an operation in a session.
#[derive(Debug, PartialEq, Eq, Drop)]
pub struct Handled {
    pub daemon: EntityName,
    pub session: u64,
    pub epoch: u64,
    pub cookie: u64,
    pub seq: u64,
    pub operation: Operation,
    pub outcome: Outcome,
}

/// A client got the answer to the operation of this tid.
#[derive(Debug, PartialEq, Eq, Drop)]
pub struct Answered {
    pub client: EntityName,
    pub daemon: EntityName,
    pub cookie: u64,
    pub tid: u64,
    pub outcome: Outcome,
}

/// A node refused something, on this link or, at 0, on none.
#[derive(Debug, PartialEq, Eq, Drop)]
pub struct Refused {
    pub node: NodeName,
    pub link: u32,
    pub reason: Reason,
}

/// A daemon ended a session.
#[derive(Debug, PartialEq, Eq, Drop)]
pub struct Ended {
    pub daemon: EntityName,
    pub session: u64,
}

/// One entry of a journal.
#[derive(PartialEq, Eq, Drop)]
pub enum Entry {
    /// The monitor saved its state, with this next global id.
    Saved(u64),
    Issued(Issued),
    Fetched(Fetched),
    Looked(Looked),
    Admitted(Admitted),
    Resumed(Admitted),
    Sent(Sent),
    Handled(Handled),
    Answered(Answered),
    Refused(Refused),
    Ended(Ended),
    /// A node began anew, from what it keeps.
    Restarted(NodeName),
    /// A premise of the run was broken.
    Broken(Broken),
    /// The secret of this client, and all that is sealed for it, count as known to whoever wrote the schedule.
    Leaked(EntityName),
}

impl Entry {
    fn kind(&self) -> &'static str {
        match self {
            Entry::Saved(_) => "Saved",
            Entry::Issued(_) => "Issued",
            Entry::Fetched(_) => "Fetched",
            Entry::Looked(_) => "Looked",
            Entry::Admitted(_) => "Admitted",
            Entry::Resumed(_) => "Resumed",
            Entry::Sent(_) => "Sent",
            Entry::Handled(_) => "Handled",
            Entry::Answered(_) => "Answered",
            Entry::Refused(_) => "Refused",
            Entry::Ended(_) => "Ended",
            Entry::Restarted(_) => "Restarted",
            Entry::Broken(_) => "Broken",
            Entry::Leaked(_) => "Leaked",
        }
    }
}

/// The kind of entry alone: `put_text` writes what it says.
impl fmt::Debug for Entry {
    fn fmt<W: fmt::Write>(&self, f: &mut fmt::Formatter<W>) -> fmt::Result {
        f.write_str(self.kind())
    }
}
