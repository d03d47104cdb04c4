//! What the monitor keeps: the spelling of its state, and the keeper that it is saved by.
#![tactic(auto)]

mod commits;
mod format;
mod in_memory;
mod keeper;

pub use commits::{CommitRefusal, commit};
pub use format::{BadState, decode_state, encode_state};
pub use in_memory::VecKeeper;
pub use keeper::{KeepError, Keeper, Slot};

// Each public type may be sent to another thread and shared with one.
fn is_sendable<T: Send + Sync>() {}

fn all_are_sendable() {
    is_sendable::<Slot>();
    is_sendable::<KeepError>();
    is_sendable::<VecKeeper>();
    is_sendable::<BadState>();
    is_sendable::<CommitRefusal>();
}
