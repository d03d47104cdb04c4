//! Who makes a row, where the link is refused.

ghost use Rattle.std.specs.Prelude.{◌≡◌, Some, IfOk};
ghost use Rattle.cx_base.specs.declared.nodes.NodeName.TheVariants as node;
ghost use Rattle.cx_node.specs.steps.Making.{IsHandled, IsRowOf};

use crate::links::Link;
use crate::rows::{BoxedChange, Change};
use cx_base::{Items, NodeName};
use cx_holdings::MonClient;
use cx_node::{Came, Moment, NoRow, NodeRow, Row};
use cx_steps::SealEntry;
use std::alloc::{AllocError, Global};

/// Who it is, as a node.
pub fn named(alloc: Global, mon_client: &MonClient) -> Result<NodeName, AllocError>
    ensures { IfOk result (λ me. me ≡ node.Entity mon_client.now.name) }
{
    mon_client.node_name(alloc)
}

// A row behind which what is held is changed so.
pub(crate) fn changing(
    alloc: Global,
    row: Row<Link>,
    change: Change,
) -> Result<NodeRow<Link, BoxedChange>, AllocError>
    ensures { IfOk result (λ made. made ≡ record { row = row; change = Some change }) }
{
    let change = BoxedChange::new(alloc, change)?;
    Ok(NodeRow {
        row,
        change: Some(change),
    })
}

// The row that was made, or that of the refusal, behind what was logged before.
pub(crate) fn unless_refused(
    alloc: Global,
    mon_client: &MonClient,
    at: &Moment<'_>,
    logged: Items<SealEntry>,
    made: Result<NodeRow<Link, BoxedChange>, NoRow>,
) -> Result<NodeRow<Link, BoxedChange>, AllocError>
    ensures { IfOk result (IsRowOf (node.Entity mon_client.now.name) at.now.number logged made) }
{
    let me = named(alloc, mon_client)?;
    cx_node::unless_refused(alloc, &me, at.number, logged, made)
}

// What a turn comes to whose banner or frame is handled so, behind what opened of it.
pub(crate) fn handles(
    alloc: Global,
    mon_client: &MonClient,
    at: &Moment<'_>,
    opened: Items<SealEntry>,
    made: Result<NodeRow<Link, BoxedChange>, NoRow>,
) -> Result<Came<Link, BoxedChange>, AllocError>
    ensures { IfOk result (IsHandled (node.Entity mon_client.now.name) at.now.number opened made) }
{
    let me = named(alloc, mon_client)?;
    cx_node::handles(alloc, &me, at.number, opened, made)
}
