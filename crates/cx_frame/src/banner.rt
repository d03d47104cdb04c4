//! What a peer says of itself in its banner.

/// The features of a peer, as bits. Bit 0 is REVISION_1, the one that this project has; bit 1 is COMPRESSION.
#[derive(Clone, Copy, PartialEq, Eq)]
pub struct Banner {
    /// What the peer can do.
    pub supported: u64,
    /// What it asks of the other side.
    pub required: u64,
}
