//! How a node regards a link.

/// How a node regards a link.
#[derive(Clone, Copy, Debug, PartialEq, Eq)]
pub enum Regard {
    /// The peer came to this node, and didn't prove itself yet.
    Stranger,
    /// The peer proved itself, and nothing is awaited there.
    Known,
    /// This node waits for an answer there.
    Awaited,
}
