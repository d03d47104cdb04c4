//! What is asked of the monitor on an open link.
//! The monitor on one of its links: what it does as the link opens and at each banner and frame that comes, and what it has of its own.
//! The monitor: what it has of its own, its links, and what it does at each event.
#![tactic(auto)]

mod events;
mod greetings;
mod hearing;
mod idents;
mod links;
mod logins;
mod making;
mod messages;
mod monitor;
mod own;
mod regards;
mod replies;
mod requests;
mod signatures;
mod turns;
mod upkeep;

pub use cx_node::send_message;
pub use cx_rules::{Bearer, Demand};
pub use greetings::greeting;
pub use hearing::hear;
pub use links::{Link, Stage};
pub use monitor::Monitor;
pub use own::{KeyChange, Mark, Own};
pub use turns::turned;
// What crates above name through this one, and so needn't list.
pub use cx_node::link_in;

// Each public type may be sent to another thread and shared with one.
fn is_sendable<T: Send + Sync>() {}

fn acceptor_types_are_sendable() {
    is_sendable::<Stage>();
    is_sendable::<Link>();
    is_sendable::<Own>();
    is_sendable::<Mark>();
    is_sendable::<KeyChange>();
}

fn all_are_sendable() {
    is_sendable::<Monitor>();
}
