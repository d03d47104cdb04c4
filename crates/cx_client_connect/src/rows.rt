//! What the rows of a link to a daemon change of what the client has.

use crate::SessionChange;

/// What a row changes.
#[derive(Drop)]
pub enum Change {
    /// The session with the daemon.
    Session(SessionChange),
    /// The client's count of connections to daemons.
    Counts(u64),
}
