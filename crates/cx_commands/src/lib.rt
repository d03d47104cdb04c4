//! The top call over all commands: those that read a text and write one, and those that run a node.
#![tactic(auto)]

mod drills;
mod ends;
mod keys;
mod misread;
mod nodes;
mod running;
mod texts;

pub use ends::{CommandEnd, CommandStatus};
pub use running::run;

// What the program names beside them.
pub use cx_help::start_told;
pub use cx_top::Status;
