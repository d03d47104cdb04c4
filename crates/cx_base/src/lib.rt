//! The ground of every other crate: names, the types that own bytes, text and items, and the traits by which a program
//! reaches what lies outside, with their objects in memory.
#![tactic(auto)]

mod addresses;
mod copies;
mod entity;
mod grants;
mod in_memory;
mod kinds;
mod nodes;
mod operations;
mod outside;
mod owned;
mod owner;
mod refusals;
mod texts;

pub use addresses::Addr;
pub use copies::{Duplicate, copy_items};
pub use entity::{BadName, EntityName, is_id};
pub use grants::Grant;
pub use in_memory::{ByteSource, VecSink};
pub use kinds::{Access, EntityType};
pub use nodes::NodeName;
pub use operations::Operation;
pub use outside::{Failed, Sink, Source};
pub use owned::{Blob, Items, Text};
pub use owner::Owner;
pub use refusals::TextRefusal;
pub use texts::{is_caps, is_caps_byte, is_long_part, is_part};

/// A reading of a clock, in nanoseconds. A clock and a schedule stay below 4,000,000,000 s; an expiry may reach
/// 4,294,967,295.999999999 s.
pub type Reading = u64;

/// The nanoseconds of a second.
pub const SECOND: u64 = 1_000_000_000;

// Each public type may be sent to another thread and shared with one.
fn is_sendable<T: Send + Sync>() {}

fn all_are_sendable() {
    is_sendable::<Blob>();
    is_sendable::<Text>();
    is_sendable::<Items<EntityName>>();
    is_sendable::<EntityName>();
    is_sendable::<BadName>();
    is_sendable::<EntityType>();
    is_sendable::<Access>();
    is_sendable::<Addr>();
    is_sendable::<Operation>();
    is_sendable::<NodeName>();
    is_sendable::<Grant>();
    is_sendable::<TextRefusal>();
    is_sendable::<Failed>();
    is_sendable::<ByteSource>();
    is_sendable::<VecSink>();
}
