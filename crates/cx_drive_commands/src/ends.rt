//! How a node command ended, and what its node entered.

ghost use Rattle.std.specs.Prelude.{◌≡◌};
ghost use Rattle.cx_drive_commands.specs.nodes.Runs.{end_by, end_of};

use cx_drive::{Driven, Ended, Stop};
use cx_journal::Journal;
use cx_loading::NodeEnd;

/// How a node command ended, and what its node entered until then.
#[derive(Drop)]
pub struct NodeReport {
    pub end: NodeEnd,
    pub journal: Journal,
}

/// How it ends, by how its node was driven.
pub(crate) fn end_of(driven: Driven) -> NodeEnd
    ensures { result ≡ end_of driven }
{
    if driven.short {
        return NodeEnd::OutOfMemory;
    }
    end_by(driven.ended)
}

fn end_by(ended: Ended) -> NodeEnd
    ensures { result ≡ end_by ended }
{
    match ended {
        Ended::Done => NodeEnd::Done,
        Ended::Links => NodeEnd::Links,
        Ended::Stopped(Stop::Dice) => NodeEnd::Dice,
        Ended::Stopped(Stop::Keeper) => NodeEnd::Keeper,
        Ended::Stopped(Stop::Memory) => NodeEnd::OutOfMemory,
    }
}
