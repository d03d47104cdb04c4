//! What answers the monitor's challenge.

use cx_base::Blob;
use cx_wire::ServerChallenge;

/// A challenge that was answered.
#[derive(Drop)]
pub struct Answer {
    /// The monitor's challenge.
    pub server: ServerChallenge,
    /// The bytes of the Authenticate.
    pub bytes: Blob,
}
