//! Why a run stops in a step.

/// Why a run stops in a step: the dice failed, or the keeper, or whoever drives the node wants memory. A node that wants memory in a
/// step loses a link, and goes on.
#[derive(Clone, Copy, Debug, PartialEq, Eq)]
pub enum Stop {
    Dice,
    Keeper,
    Memory,
}
