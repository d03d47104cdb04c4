//! What the lines above a line say, as far as it decides what may stand in it.

ghost use Rattle.std.specs.Prelude.{◌≡◌, IfOk};
ghost use Rattle.cx_words.specs.lines.Known.{is_client, is_daemon, is_node, is_seeded, nothing};

use crate::names::Names;
use cx_base::{EntityName, EntityType, NodeName};
use std::alloc::{AllocError, Global};

/// What the lines above a line say, as far as it decides what may stand in it.
#[derive(Drop)]
pub struct Known {
    /// The entities that are declared.
    pub declared: Names,
    /// The entities whose nodes have a seed.
    pub seeded: Names,
    /// Whether the monitor has one.
    pub is_monitor_seeded: bool,
    /// The clients whose modes are given.
    pub moded: Names,
    /// The clients that are leaked.
    pub leaked: Names,
    /// Whether the life of service tickets is given.
    pub has_life: bool,
    /// Whether the life of the monitor's own tickets is given.
    pub has_auth_life: bool,
    /// Whether a line stands that is no head line.
    pub has_begun: bool,
}

impl Known {
    /// What no lines say.
    pub fn new(alloc: Global) -> Known
        ensures { result ≡ nothing }
    {
        Known {
            declared: Names::new(alloc),
            seeded: Names::new(alloc),
            is_monitor_seeded: false,
            moded: Names::new(alloc),
            leaked: Names::new(alloc),
            has_life: false,
            has_auth_life: false,
            has_begun: false,
        }
    }

    /// Whether the name is a declared client's.
    pub fn is_client(&self, alloc: Global, name: &EntityName) -> Result<bool, AllocError>
        ensures { IfOk result (λ is. is ≡ is_client self.now name.now) }
    {
        let declared = self.declared.has(alloc, name)?;
        Ok(name.kind.is(EntityType::Client) && declared)
    }

    /// Whether the name is a declared daemon's.
    pub fn is_daemon(&self, alloc: Global, name: &EntityName) -> Result<bool, AllocError>
        ensures { IfOk result (λ is. is ≡ is_daemon self.now name.now) }
    {
        let declared = self.declared.has(alloc, name)?;
        Ok(name.kind.is_daemon() && declared)
    }

    /// Whether the node is the monitor, or a declared entity's.
    pub fn is_node(&self, alloc: Global, node: &NodeName) -> Result<bool, AllocError>
        ensures { IfOk result (λ is. is ≡ is_node self.now node.now) }
    {
        match node {
            NodeName::Monitor => Ok(true),
            NodeName::Entity(name) => self.declared.has(alloc, name),
        }
    }

    /// Whether the node has a seed.
    pub fn is_seeded(&self, alloc: Global, node: &NodeName) -> Result<bool, AllocError>
        ensures { IfOk result (λ is. is ≡ is_seeded self.now node.now) }
    {
        match node {
            NodeName::Monitor => Ok(self.is_monitor_seeded),
            NodeName::Entity(name) => self.seeded.has(alloc, name),
        }
    }
}
