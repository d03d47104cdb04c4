//! The links of a node: what comes on them, what is done on them, and links in memory.
//! What a node reads as the time, and the place where a node runs.
//! One order of all that a node does outside of itself.
#![tactic(auto)]

mod clock;
mod events;
mod hosting;
mod linking_laws;
mod links;
mod listed;
mod place;
mod regard;
mod scripted;
mod site;
mod taped;
mod timing_laws;

pub use clock::Clock;
pub use events::{LinkCall, LinkEvent};
pub use hosting::Hosted;
pub use linking_laws::script_laws;
pub use links::Links;
pub use listed::ListClock;
pub use place::Place;
pub use regard::Regard;
pub use scripted::ScriptLinks;
pub use site::Site;
pub use taped::{Did, Taped};
pub use timing_laws::clock_law;

// Each public type may be sent to another thread and shared with one.
fn is_sendable<T: Send + Sync>() {}

fn linking_types_are_sendable() {
    is_sendable::<LinkEvent>();
    is_sendable::<LinkCall>();
    is_sendable::<Regard>();
    is_sendable::<ScriptLinks>();
}

fn timing_types_are_sendable() {
    is_sendable::<ListClock>();
    is_sendable::<Place<u64, ListClock, u64>>();
}
