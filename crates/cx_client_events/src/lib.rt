//! The links of a client, to the monitor and to daemons, and those that it waits for; and what is looked for among them.
//! What a client has of its own, and what it does at each event but a turn of a link and an operation that is sent: links that open, that can't be opened
//! and that are gone, bytes that come, and the commands Login, Renew and Connect.
#![tactic(auto)]

mod commands;
mod dials;
mod events;
mod kinds;
mod links;
mod own;
mod scans;

pub use dials::{Dial, Dials, Purpose};
pub use kinds::{BoxedCallChange, Change, came_of_daemon, came_of_monitor, of_daemon, of_monitor};
pub use links::{Kind, Link};
pub use scans::{are_at_rest, calls, first_call, first_open, numbers_to_monitor, shut_all};
// What crates above name through this one, and so needn't list.
pub use commands::{connects, logs_in, refuses, renews};
pub use cx_client_connect::{
    Called, Callee, Change as CallChange, HeldSession, Link as CallLink, Sessions,
    client_forgetting_laws, greeting as call_greeting, held_gid, ticket_for,
};
pub use cx_holdings::{MonClient, OfferedModes};
pub use cx_monclient::{
    Link as MonitorLink, OpenAhead, asks_tickets, greeting as monitor_greeting, named,
    turned as monitor_turned,
};
pub use events::{comes, goes, opens, opens_none, restarts};
pub use own::Own;

// Each public type may be sent to another thread and shared with one.
fn is_sendable<T: Send + Sync>() {}

fn linking_types_are_sendable() {
    is_sendable::<Kind>();
    is_sendable::<Link>();
    is_sendable::<Change>();
    is_sendable::<BoxedCallChange>();
    is_sendable::<Purpose>();
    is_sendable::<Dial>();
    is_sendable::<Dials>();
}

fn all_are_sendable() {
    is_sendable::<Own>();
}
