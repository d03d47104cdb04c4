//! What comes of a login, of which the rules speak.

use cx_base::{Blob, EntityName, Items};
use cx_login::{Entry, LoginFault, SealEntry};
use cx_rotate::BoxedState;

/// What the monitor hands out to an entity.
#[derive(Drop)]
pub struct HandedOut {
    pub name: EntityName,
    pub gid: u64,
    /// The session key of the ticket for AUTH, which signs the handshake.
    pub session: [u8; 16],
    /// The secret of the connection: its key and its nonces.
    pub secret: [u8; 64],
    /// The payload of AUTH_DONE.
    pub payload: Blob,
    /// What was logged before the tickets: the proof, the rotation, and what the old ticket opened to.
    pub seals: Items<SealEntry>,
    /// What is logged of the tickets and of the secret of the connection.
    pub sealed: Items<SealEntry>,
    /// The state that is to be saved before anything is sent, where it differs from what was saved last.
    pub save: Option<BoxedState>,
    /// What is entered in the journal.
    pub entries: Items<Entry>,
}

/// What comes of a login whose proof was found equal.
#[derive(Drop)]
pub enum Verdict {
    /// The entity gets nothing; what is logged is the proof, the rotation, and what the old ticket opened to.
    Denied {
        why: LoginFault,
        seals: Items<SealEntry>,
    },
    Granted(HandedOut),
}
