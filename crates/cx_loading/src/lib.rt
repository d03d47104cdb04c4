//! What a node has before it runs: its script, the keyring or a key of it, and the monitor's state.
#![tactic(auto)]

mod ends;
mod loading;
mod scripts;
mod unloaded;

pub use ends::NodeEnd;
pub use loading::{key_of, ring_of, state_of};
pub use scripts::script_of;
pub use unloaded::Unloaded;

// Each of these goes to another thread, and is seen by several.
fn is_sendable<T: Send + Sync>() {}

fn all_are_sendable() {
    is_sendable::<Unloaded>();
    is_sendable::<NodeEnd>();
}
