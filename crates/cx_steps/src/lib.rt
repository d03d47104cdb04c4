//! What a node takes at each step of a run and what it gives: events, effects, and the log of what was sealed, opened, signed,
//! found equal and drawn, on which the two premises of a run are defined.
#![tactic(auto)]

mod effects;
mod events;
mod laws;
mod seals;

pub use effects::{Effects, Piece};
pub use events::{Command, Event, Peer};
pub use laws::seal_laws;
pub use seals::{DrawMark, Logged, SealEntry, SealMark};

// What crates above name through this one, and so needn't list.
pub use cx_journal::{BytesFault, Entry, KeyKind, LoginFault, Reason};

// Each public type may be sent to another thread and shared with one.
fn is_sendable<T: Send + Sync>() {}

fn all_are_sendable() {
    is_sendable::<Command>();
    is_sendable::<Event>();
    is_sendable::<Peer>();
    is_sendable::<Effects>();
    is_sendable::<Piece>();
    is_sendable::<SealMark>();
    is_sendable::<DrawMark>();
    is_sendable::<SealEntry>();
    is_sendable::<Logged>();
}
