//! What an entity asks the monitor for, and what comes of a reply, of which the rules speak.

use cx_base::{Items, Reading};
use cx_login::{HeldTicket, Reason, SealEntry};
use cx_rotate::Generations;

/// What a request asks for.
#[derive(Clone, Copy, Debug, PartialEq, Eq)]
pub enum Want {
    Tickets,
    /// The generations of a daemon's own type, at the reading at which it asked.
    Rotating(Reading),
}

/// A request that waits for its reply.
#[derive(Clone, Copy, Debug, PartialEq, Eq)]
pub struct Waiting {
    pub tid: u64,
    pub want: Want,
}

/// What comes of a reply, and what opened of it.
#[derive(Drop)]
pub enum Taken {
    Refuses {
        why: Reason,
        opened: Items<SealEntry>,
    },
    /// The tickets that it tells.
    Holds {
        held: Items<HeldTicket>,
        opened: Items<SealEntry>,
    },
    /// The generations that it tells, and the reading at which they were asked for.
    Views {
        asked: Reading,
        generations: Generations,
        opened: Items<SealEntry>,
    },
}
