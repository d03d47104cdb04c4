//! Who makes a row, where the link is refused.

ghost use Rattle.std.specs.Prelude.{◌≡◌, IfOk};
ghost use Rattle.cx_base.specs.declared.nodes.NodeName.TheVariants as node;
ghost use Rattle.cx_node.specs.steps.Making.{IsHandled, IsRowOf};

use crate::links::Link;
use crate::rows::Change;
use cx_base::Items;
use cx_holdings::MonClient;
use cx_node::{Came, Moment, NoRow, NodeRow};
use cx_steps::SealEntry;
use std::alloc::{AllocError, Global};

/// The row that was made, or that of the refusal, behind what was logged before.
pub fn unless_refused(
    alloc: Global,
    mon_client: &MonClient,
    at: &Moment<'_>,
    logged: Items<SealEntry>,
    made: Result<NodeRow<Link, Change>, NoRow>,
) -> Result<NodeRow<Link, Change>, AllocError>
    ensures { IfOk result (IsRowOf (node.Entity mon_client.now.name) at.now.number logged made) }
{
    let me = mon_client.node_name(alloc)?;
    cx_node::unless_refused(alloc, &me, at.number, logged, made)
}

/// What a turn comes to whose banner or frame is handled so, behind what opened of it.
pub fn handles(
    alloc: Global,
    mon_client: &MonClient,
    at: &Moment<'_>,
    opened: Items<SealEntry>,
    made: Result<NodeRow<Link, Change>, NoRow>,
) -> Result<Came<Link, Change>, AllocError>
    ensures { IfOk result (IsHandled (node.Entity mon_client.now.name) at.now.number opened made) }
{
    let me = mon_client.node_name(alloc)?;
    cx_node::handles(alloc, &me, at.number, opened, made)
}
