//! The bytes of a connection as a stream: first a banner, then plain frames, then secure ones.
#![tactic(auto)]

mod faults;
mod greeting;
mod laws;
mod plain;
mod room;
mod secure;
mod stages;

pub use faults::StreamFault;
pub use laws::{plain_stream_laws, secure_stream_laws};
pub use stages::{Ended, Greeted, Greeting, Plain, Secure};

// What crates above name through this one, and so needn't list.
pub use cx_secure::{SealedAhead, Sealing, SecureRefusal};

// Each public type may be sent to another thread and shared with one.
fn is_sendable<T: Send + Sync>() {}

fn all_are_sendable() {
    is_sendable::<StreamFault>();
    is_sendable::<Greeting>();
    is_sendable::<Greeted>();
    is_sendable::<Plain>();
    is_sendable::<Secure>();
    is_sendable::<Ended>();
}
