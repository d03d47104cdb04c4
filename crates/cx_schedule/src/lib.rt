//! Schedules: what a replay is told to do, line by line; and the scripts of single nodes.
#![tactic(auto)]

mod drilled;
mod node_lines;
mod node_names;
mod node_script;
mod refusals;
mod script;

pub use drilled::{drill, drill_law};
pub use node_lines::NodeLine;
pub use node_script::{NodeScript, read_node};
pub use refusals::ScheduleRefusal;
pub use script::{Script, read};
