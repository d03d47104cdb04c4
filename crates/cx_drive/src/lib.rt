//! What drives any node: each step is saved before anything of it is sent.
#![tactic(auto)]

mod carrying;
mod driving;
mod dues;
mod ends;
mod flow;
mod laws;
mod machine;
mod peers;
mod regarding;
mod steps;
mod stops;

pub use driving::drive;
pub use dues::Due;
pub use ends::{Driven, Ended};
pub use flow::{Order, Told};
pub use laws::order_law;
pub use machine::Machine;
pub use peers::{DaemonAt, Peers};
pub use steps::{Stepped, perform};
pub use stops::Stop;

// The law of those that save nothing, and the nodes that it drives.
pub use cx_client::Client;
pub use cx_laws_node::saving_laws;
pub use cx_mon::Monitor;
