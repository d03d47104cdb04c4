//! A book of sessions that threads share, with one history of all calls.
#![tactic(auto)]

mod book;
mod entry;
mod hall;
mod history;
mod laws;
mod owners;
mod pass;
mod rule;
mod seated;
#[cfg(test)]
mod tests;

use cx_base::Owner;
pub use entry::HallEntry;
pub use hall::{Hall, UnnamedHall};
pub use laws::{hall_laws, pass_laws};
pub use pass::{Pass, Receipt};
pub use rule::{HallName, HallTable, Knowledge};
pub use seated::Seated;

// Each public type may be sent to another thread, and a hall and what is plain data may be seen by several.
fn is_sendable<T: Send>() {}

fn is_shareable<T: Send + Sync>() {}

fn all_are_sendable<O: Owner + Send, N: HallName + Send + Sync>() {
    is_sendable::<UnnamedHall<O>>();
    is_shareable::<Hall<O, N>>();
    is_sendable::<Pass<O, N>>();
    is_shareable::<Receipt>();
}
