//! The law of runs.

ghost use Rattle.std.specs.Prelude.{List, false};
ghost use Rattle.cx_drive.specs.Courses.{Taken, acts_from};
ghost use Rattle.cx_drive.specs.Order.{SavesFirst};
ghost use Rattle.cx_drive.specs.declared.peers.Peers.{Peers};

use crate::machine::Machine;

/// In each run of a node no save stands behind a send of its step.
pub fn order_law<M: Machine>()
    ensures { (peers : Peers) (node : M) (trace : List Taken) → SavesFirst false (acts_from M.rule M.lost M.regards peers node trace) }
{}
