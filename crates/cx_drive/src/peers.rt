//! Where the peers of a node are.

ghost use Rattle.std.specs.Prelude.{◌≡◌, find};
ghost use Rattle.std.specs.Option.{option_copied};
ghost use Rattle.cx_base.specs.Names.{same_name};
ghost use Rattle.cx_drive.specs.Steps.{address_of};

use cx_base::{Addr, EntityName, Items};
use cx_steps::Peer;

/// A daemon, and its address.
#[derive(Debug, PartialEq, Eq, Drop)]
pub struct DaemonAt {
    pub name: EntityName,
    pub at: Addr,
}

/// The addresses of a node's peers. One without an address is asked for nothing.
#[derive(Debug, PartialEq, Eq, Drop)]
pub struct Peers {
    pub monitor: Option<Addr>,
    pub daemons: Items<DaemonAt>,
}

impl Peers {
    /// The address of a peer, where it has one: that of the first daemon of its name.
    pub fn address_of(&self, peer: &Peer) -> Option<Addr>
        ensures { result ≡ address_of self.now peer.now }
    {
        match peer {
            Peer::Monitor => self.monitor,
            Peer::Daemon(name) => self.daemon_at(name),
        }
    }

    fn daemon_at(&self, name: &EntityName) -> Option<Addr>
        ensures { result ≡ address_of self.now (Peer.Daemon name.now) }
    {
        match self.find(name) {
            Some(daemon) => Some(daemon.at),
            None => None,
        }
    }

    fn find(&self, name: &EntityName) -> Option<&DaemonAt>
        ensures { option_copied result ≡ find (λ daemon. same_name daemon.name name.now) self.now.daemons }
    {
        self.daemons
            .all()
            .iter()
            .find(|daemon| daemon.name == *name)
    }
}
