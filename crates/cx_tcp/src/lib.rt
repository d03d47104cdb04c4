//! What lies outside of a node, of the system's: sockets, a folder, the time and random bytes.
#![tactic(auto)]

mod arrivals;
mod clock;
mod crowd;
mod dials;
mod dice;
mod displacing;
mod folder;
mod limits;
mod links;
mod sending;
mod socket;
mod table;

pub use clock::SystemClock;
pub use dice::SystemDice;
pub use folder::{FolderKeeper, NoNotes, RingNotes};
pub use links::TcpLinks;
