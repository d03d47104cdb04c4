//! How the run of a schedule begins: what its head lines say, the monitor, the entities with their secrets, addresses and seeds, and what stands
//! in journal and log before all events.
//! What is under way between the ends of links.
#![tactic(auto)]

mod before;
mod busy_links;
mod declared;
mod ends;
mod head_places;
mod leaks;
mod links_places;
mod monitor;
mod names;
mod secrets;
mod setup;
mod wire;
mod wires;

pub use declared::Declared;
pub use leaks::Leak;
pub use setup::Setup;
// The monitor with which a run begins.
pub use cx_mon::Monitor;
pub use names::{peer_node, same_node};
pub use wire::{Wire, other};
pub use wires::Wires;

// Each public type may be sent to another thread and shared with one.
fn is_sendable<T: Send + Sync>() {}

fn head_types_are_sendable() {
    is_sendable::<Declared>();
    is_sendable::<Leak>();
    is_sendable::<Setup>();
}

fn links_types_are_sendable() {
    is_sendable::<Wire>();
    is_sendable::<Wires>();
}
