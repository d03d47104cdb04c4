//! What stands at which place of a line.

use crate::choices::{CommandForm, LeftState, Modes, Side};
use crate::faults::FaultAt;
use crate::known::Known;
use crate::sight::Shown;

/// The kind of value that stands at a place of a line.
#[derive(Clone, Copy, Debug, PartialEq, Eq)]
pub enum WordPlace {
    /// Seconds of a lifetime.
    Life,
    /// A reading of a clock.
    Reading,
    /// A number.
    Number,
    /// The name that an entity line declares.
    Entity,
    /// A service for which an entity has caps, each once in a line.
    Service,
    /// A capability text.
    Caps,
    /// A declared client.
    Client,
    /// A declared client whose modes aren't given.
    Unmoded,
    /// A declared client that isn't leaked.
    Unleaked,
    /// A declared daemon.
    Daemon,
    /// The monitor, or a declared entity.
    Node,
    /// The same, where it has no seed.
    Unseeded,
    /// Services of which tickets are asked.
    Services,
    /// What an operation asks to do.
    Access,
    /// A pool, a namespace or an object.
    Part,
    /// The data of an operation.
    Data,
    /// Bytes.
    Bytes,
    /// The modes that a client offers.
    Modes,
    /// A side of a link.
    Side,
    /// The word `lossy`.
    Lossy,
    /// The state that a failed save leaves.
    LeftState,
    /// The first word of a command.
    Command,
    /// Whatever stands behind a first word that begins no command.
    Anything,
}

// Each of these goes to another thread, and is seen by several.
fn are_sendable() {
    is_sendable::<WordPlace>();
    is_sendable::<FaultAt>();
    is_sendable::<Shown>();
    is_sendable::<Known>();
    is_sendable::<Side>();
    is_sendable::<Modes>();
    is_sendable::<LeftState>();
    is_sendable::<CommandForm>();
}

fn is_sendable<T: Send + Sync>() {}
