//! What a client does in its sessions: a turn of a link of either kind, and operations that it sends.
//! A client: what it has of its own, its links to the monitor and to daemons, and what it does at each event.
#![tactic(auto)]

mod client;
mod links;
mod sending;
mod steps;
mod told;

pub use links::turn_link;
pub use sending::sends;
// What crates above name through this one, and so needn't list.
pub use client::Client;
pub use cx_client_events::{
    Link, MonClient, OfferedModes, Own, are_at_rest, client_forgetting_laws, comes, connects, goes,
    logs_in, opens, opens_none, renews, restarts,
};
pub use told::{can_be_told, can_come};

// A client may be sent to another thread and shared with one.
fn is_sendable<T: Send + Sync>() {}

fn all_are_sendable() {
    is_sendable::<Client>();
}
