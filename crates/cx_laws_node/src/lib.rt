//! No step of a client or of a daemon saves anything: what is kept over a restart is the monitor's alone.
//! What a run does at one node is what that node's rule gives on what comes to it alone.
#![tactic(auto)]

mod nodes_laws;
mod saves_laws;

pub use nodes_laws::node_laws;
pub use saves_laws::saving_laws;
