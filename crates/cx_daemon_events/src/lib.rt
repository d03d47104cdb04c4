//! What a daemon has of its own and its links, and what it does at each event but a turn of an incoming link: links that open, that can't be opened and
//! that are gone, bytes that come, its fetches, its turns on its own link to the monitor, and sessions that end.
#![tactic(auto)]

mod ending;
mod events;
mod fetching;
mod kinds;
mod links;
mod own;
mod scans;
mod turns;

pub use ending::{Book, drops, goes};
pub use events::{comes, looks, opens, opens_none, restarts};
pub use fetching::{fetches, is_busy, ticks};
pub use kinds::came_of_incoming;
pub use links::{Kind, Link};
pub use own::Own;
pub use scans::{numbers_in, shut_all};
pub use turns::{own_turns, settles};

// What crates above name through this one, and so needn't list.
pub use cx_holdings::OfferedModes;
pub use cx_outside::Regard;
pub use cx_verifying::{Link as IncomingLink, SessionOwner, daemon_forgetting_laws};

// Each public type may be sent to another thread and shared with one.
fn is_sendable<T: Send + Sync>() {}

fn all_are_sendable() {
    is_sendable::<Kind>();
    is_sendable::<Link>();
    is_sendable::<Own>();
}
