//! Keyrings: the files that name entities with their secret keys and their capabilities.
#![tactic(auto)]

mod cut;
mod entries;
mod faults;
mod index;
mod judge;
mod keyring;
mod keys;
mod limits;
mod lines;
mod printing;
mod reading;
mod refusals;
mod sections;

pub use entries::Entry;
pub use faults::KeyringFault;
pub use keyring::Keyring;
pub use limits::MOST_ENTRIES;
pub use printing::print;
pub use reading::parse;
pub use refusals::{AddRefusal, KeyringRefusal};

// What crates above name through this one, and so needn't list.
pub use cx_enc::Key;

// Each public type may be sent to another thread and shared with one.
fn is_sendable<T: Send + Sync>() {}

fn all_are_sendable() {
    is_sendable::<Entry>();
    is_sendable::<Keyring>();
    is_sendable::<KeyringFault>();
    is_sendable::<KeyringRefusal>();
    is_sendable::<AddRefusal>();
}
