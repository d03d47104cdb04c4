//! The names of nodes.

ghost use Rattle.std.specs.Prelude.{◌≡◌, IfOk};
ghost use Rattle.cx_base.specs.Names.{same_name};
ghost use Rattle.cx_run.specs.Wires.{same_node};
ghost use Rattle.cx_run.specs.Worlds.{node_of};

use cx_base::{Duplicate, EntityName, NodeName};
use cx_steps::Peer;
use std::alloc::{AllocError, Global};

/// Whether two nodes are one.
pub fn same_node(a: &NodeName, b: &NodeName) -> bool
    ensures { result ≡ same_node a.now b.now }
{
    match a {
        NodeName::Monitor => match b {
            NodeName::Monitor => true,
            NodeName::Entity(_) => false,
        },
        NodeName::Entity(name) => match b {
            NodeName::Monitor => false,
            NodeName::Entity(other) => same_name(name, other),
        },
    }
}

fn same_name(a: &EntityName, b: &EntityName) -> bool
    ensures { result ≡ same_name a.now b.now }
{
    *a == *b
}

/// The node to which a link is opened.
pub fn peer_node(alloc: Global, to: &Peer) -> Result<NodeName, AllocError>
    ensures { IfOk result (λ who. who ≡ node_of to.now) }
{
    match to {
        Peer::Monitor => Ok(NodeName::Monitor),
        Peer::Daemon(name) => {
            let name = name.copy(alloc)?;
            Ok(NodeName::Entity(name))
        }
    }
}
