//! The commands that run a node: what it begins with, its run over links, clock, dice and keeper that are lent, and how it ended.
//! The command that runs a daemon: a daemon with the desk by which it serves, which is driven as any node, and what it begins with.
#![tactic(auto)]

mod clients;
mod daemons;
mod ends;
mod hosting;
mod kits;
mod monitors;
mod nodes_laws;
mod orders;
mod serving;

pub use clients::run_client;
pub use ends::NodeReport;
pub use hosting::{Ready, listens, room};
pub use kits::{Kit, named};
pub use monitors::run_monitor;
pub use nodes_laws::{kept_law, second_monitor_law};
// What drives a node.
pub use cx_drive::{Machine, Order, Peers, saving_laws};
pub use daemons::run_daemon;
pub use serving::Serving;
