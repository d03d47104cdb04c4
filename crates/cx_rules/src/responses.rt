//! What comes of a request on an open link, of which the rules speak.

use cx_base::{Blob, EntityName, Items};
use cx_login::{Entry, Reason, Request, SealEntry};
use cx_rotate::BoxedState;

/// An entity on an open link, as the monitor knows it.
#[derive(Drop)]
pub struct Bearer {
    pub name: EntityName,
    pub gid: u64,
    /// The session key of its ticket for AUTH.
    pub session: [u8; 16],
    /// The number of the last message that it sent on the link.
    pub last: u64,
}

/// What a message to the monitor asks for.
#[derive(Clone, Copy, PartialEq, Eq)]
pub struct Demand {
    pub seq: u64,
    pub tid: u64,
    /// None where the message is of another code or type.
    pub request: Option<Request>,
}

/// What the monitor replies to an entity.
#[derive(Drop)]
pub struct ReplyMade {
    /// The body of message 18.
    pub body: Blob,
    /// What was logged before it: the rotation.
    pub seals: Items<SealEntry>,
    /// What is logged of the tickets, or of the generations that are told.
    pub sealed: Items<SealEntry>,
    /// The state that is to be saved before anything is sent, where it differs from what was saved last.
    pub save: Option<BoxedState>,
    /// What is entered in the journal.
    pub entries: Items<Entry>,
}

/// What comes of a request.
#[derive(Drop)]
pub enum Response {
    /// It is refused; what is logged is the rotation.
    Refuses {
        why: Reason,
        seals: Items<SealEntry>,
    },
    Replies(ReplyMade),
}
