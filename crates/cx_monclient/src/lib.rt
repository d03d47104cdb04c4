//! What an entity asks the monitor on an open link, and how it takes the replies.
//! One that logs in, on its link to the monitor: a client, or a daemon. What it does at each banner and frame that comes.
#![tactic(auto)]

mod challenges;
mod connector_asking;
mod denials;
mod dones;
mod greetings;
mod idents;
mod kept;
mod links;
mod making;
mod replies;
mod requests_asking;
mod rows;
mod signatures;
mod taking;
mod turns;

pub use connector_asking::{asks_generations, asks_tickets};
pub use cx_rules::{Taken, Waiting, Want};
pub use greetings::greeting;
pub use kept::Requests;
pub use links::{Link, OpenAhead, Stage};
pub use making::named;
pub use requests_asking::{Asked, ask_rotating, ask_tickets};
pub use rows::{BoxedChange, Change};
pub use taking::take_reply;
pub use turns::turned;

// Each public type may be sent to another thread and shared with one.
fn is_sendable<T: Send + Sync>() {}

fn requests_types_are_sendable() {
    is_sendable::<Requests>();
    is_sendable::<Asked>();
    is_sendable::<OpenAhead>();
}

fn connector_types_are_sendable() {
    is_sendable::<Stage>();
    is_sendable::<Link>();
    is_sendable::<Change>();
    is_sendable::<BoxedChange>();
}
