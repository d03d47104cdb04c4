//! The nodes of a run with their clocks and dice: those with which the run of a schedule begins, and what one event of one
//! node comes to.
//! The run of a schedule, carried out: the nodes with their clocks and dice, the links between them, and the lines.
//! What comes of the run of a schedule, with the laws that hold of it.
#![tactic(auto)]

mod beginning;
mod deliveries;
mod ends;
mod events;
mod idle;
mod lines;
mod link_steps;
mod made;
mod members;
mod node_steps;
mod nodes;
mod opening;
mod posts;
mod records;
mod runs;
mod served;
mod settling;
mod texts;
mod world;

pub use idle::{IdleLine, IdleReason};
pub use made::Made;
pub use members::{Member, MemberNode};
pub use nodes::Nodes;
pub use opening::opening_nodes;
pub use posts::Post;
// With what a run begins.
pub use cx_world_start::Setup;
pub use runs::{Report, run};
pub use served::replay;
pub use texts::put_report;

// Each public type may be sent to another thread and shared with one.
fn is_sendable<T: Send + Sync>() {}

fn actors_types_are_sendable() {
    is_sendable::<Made>();
    is_sendable::<Member>();
    is_sendable::<MemberNode>();
    is_sendable::<Nodes>();
    is_sendable::<Post>();
}

fn all_are_sendable() {
    is_sendable::<IdleLine>();
    is_sendable::<Report>();
    is_sendable::<world::World>();
}
