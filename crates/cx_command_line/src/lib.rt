//! The words of a command line, as the command that they spell.
#![tactic(auto)]

mod addresses;
mod commands;
mod forms;
mod names;
mod numbers;
mod peers;
mod reading;
mod seen;

pub use addresses::address;
pub use commands::{
    ClientCommand, DaemonCommand, DrillCommand, Invocation, MonitorCommand, invocation_of,
};
pub use forms::{Commands, Form, FormHelp, Guide, Help, form_of};
pub use names::{client_name, daemon_name};
pub use numbers::bounded;
pub use peers::peer;
pub use reading::{Misread, read};

// Each of these goes to another thread, and is seen by several.
fn is_sendable<T: Send + Sync>() {}

fn all_are_sendable() {
    is_sendable::<Invocation<'static>>();
    is_sendable::<Misread>();
    is_sendable::<Form>();
    is_sendable::<Commands>();
    is_sendable::<FormHelp>();
    is_sendable::<Guide>();
    is_sendable::<Help>();
}
