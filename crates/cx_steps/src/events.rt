//! What comes to a node.

use cx_base::{Duplicate, EntityName, Operation};
use cx_journal::View;
use std::alloc::{AllocError, Global};

/// Whom a node opens a link to.
#[derive(Debug, PartialEq, Eq, Drop)]
pub enum Peer {
    Monitor,
    Daemon(EntityName),
}

impl Duplicate for Peer {
    fn copy(&self, alloc: Global) -> Result<Peer, AllocError> {
        match self {
            Peer::Monitor => Ok(Peer::Monitor),
            Peer::Daemon(name) => Ok(Peer::Daemon(name.copy(alloc)?)),
        }
    }
}

/// What a client or a daemon is told to do. Services are the bits that their types have in names.
#[derive(Debug, PartialEq, Eq, Drop)]
pub enum Command {
    /// Log in, and ask for tickets of these services.
    Login(u32),
    /// Ask for tickets of these services on the open link to the monitor.
    Renew(u32),
    /// Ask for the rotating secrets of one's own service.
    Fetch,
    Connect {
        daemon: EntityName,
        lossy: bool,
    },
    Send {
        daemon: EntityName,
        operation: Operation,
    },
    /// End the session of this number.
    Drop(u64),
}

impl Duplicate for Command {
    fn copy(&self, alloc: Global) -> Result<Command, AllocError> {
        match self {
            Command::Login(services) => Ok(Command::Login(*services)),
            Command::Renew(services) => Ok(Command::Renew(*services)),
            Command::Fetch => Ok(Command::Fetch),
            Command::Connect { daemon, lossy } => {
                let daemon = daemon.copy(alloc)?;
                Ok(Command::Connect {
                    daemon,
                    lossy: *lossy,
                })
            }
            Command::Send { daemon, operation } => {
                let daemon = daemon.copy(alloc)?;
                let operation = operation.copy(alloc)?;
                Ok(Command::Send { daemon, operation })
            }
            Command::Drop(session) => Ok(Command::Drop(*session)),
        }
    }
}

/// One event of one node. Links go by the numbers that they have at that node.
#[derive(Drop)]
pub enum Event<'a> {
    /// A link is there: to this peer where the node opened it, else from one that is not known yet.
    Opened(u32, Option<Peer>),
    /// No link to this peer could be opened.
    NoLink(Peer),
    /// These bytes came on the link.
    Bytes(u32, &'a [u8]),
    /// One banner or frame of what came on the link is to be handled.
    Turn(u32),
    /// The link is gone.
    Gone(u32),
    /// The daemon's view is this one from now on.
    Look(View),
    /// Some time passed.
    Tick,
    Submit(Command),
    /// The node begins anew, from what it keeps.
    Restart,
}
