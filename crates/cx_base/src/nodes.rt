//! The nodes of a run.

use crate::copies::Duplicate;
use crate::entity::EntityName;
use std::alloc::{AllocError, Global};
use std::fmt;

/// A node of a run: the monitor, which has no name in a schedule, or a declared entity's.
#[derive(Debug, PartialEq, Eq, Drop)]
pub enum NodeName {
    Monitor,
    Entity(EntityName),
}

impl fmt::Display for NodeName {
    ghost use Rattle.std.specs.Prelude.{Some};
    ghost use Rattle.cx_base.specs.Nodes.{node_text};

    ghost output = { λ node. Some (node_text node) };

    fn fmt<W: fmt::Write>(&self, f: &mut fmt::Formatter<W>) -> fmt::Result {
        match self {
            NodeName::Monitor => write!(f, "mon"),
            NodeName::Entity(name) => write!(f, "{}", name),
        }
    }
}

impl Duplicate for NodeName {
    fn copy(&self, alloc: Global) -> Result<NodeName, AllocError> {
        match self {
            NodeName::Monitor => Ok(NodeName::Monitor),
            NodeName::Entity(name) => {
                let copied = name.copy(alloc)?;
                Ok(NodeName::Entity(copied))
            }
        }
    }
}
