//! How a node command ended.

ghost use Rattle.std.specs.Prelude.{◌≡◌};
ghost use Rattle.cx_loading.specs.Ends.{number_of, script_number, unloaded_number};

use crate::unloaded::Unloaded;
use cx_schedule::ScheduleRefusal;

/// How a node command ended.
#[derive(Clone, Copy, Debug, PartialEq, Eq)]
pub enum NodeEnd {
    /// So many events came, or the script said so.
    Done,
    /// The node doesn't run.
    Unloaded(Unloaded),
    /// Links failed: the node could not listen, or not wait for what comes next.
    Links,
    /// The dice failed in a step of the node.
    Dice,
    /// The keeper failed in a step of the node.
    Keeper,
    /// Memory was wanting, in a step of the node or to drive it.
    OutOfMemory,
}

impl NodeEnd {
    /// The number with which the program ends.
    pub fn number(self) -> u8
        ensures { result ≡ number_of self }
    {
        match self {
            NodeEnd::Done => 0,
            NodeEnd::Unloaded(why) => unloaded_number(why),
            NodeEnd::Links => 9,
            NodeEnd::Dice => 10,
            NodeEnd::Keeper => 8,
            NodeEnd::OutOfMemory => 5,
        }
    }
}

fn unloaded_number(why: Unloaded) -> u8
    ensures { result ≡ unloaded_number why }
{
    match why {
        Unloaded::Script(refusal) => script_number(refusal),
        Unloaded::Keeper => 8,
        Unloaded::NoKeyring => 6,
        Unloaded::Keyring(_) => 6,
        Unloaded::NoEntity => 6,
        Unloaded::State(_) => 11,
        Unloaded::OutOfMemory => 5,
    }
}

fn script_number(refusal: ScheduleRefusal) -> u8
    ensures { result ≡ script_number refusal }
{
    match refusal {
        ScheduleRefusal::TooLong => 12,
        ScheduleRefusal::BadLine { .. } => 2,
        ScheduleRefusal::OutOfMemory => 5,
    }
}
