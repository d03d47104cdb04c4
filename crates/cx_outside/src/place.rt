//! Where a node runs.

/// Where a node runs: its links, its clock and its dice.
#[derive(Debug, Drop)]
pub struct Place<L, C, D> {
    pub links: L,
    pub clock: C,
    pub dice: D,
}
