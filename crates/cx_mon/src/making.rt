//! What rows of the monitor are made of.

ghost use Rattle.std.specs.Prelude.{◌≡◌, ◌++◌, [], IfOk, OnOk};
ghost use Rattle.cx_base.specs.declared.nodes.NodeName.TheVariants as node;
ghost use Rattle.cx_node.specs.Made.{denying};
ghost use Rattle.cx_node.specs.steps.Making.{keeping};

use crate::links::Link;
use crate::own::KeyChange;
use cx_base::{Items, NodeName};
use cx_journal::LoginFault;
use cx_node::{Moment, NodeRow};
use cx_steps::SealEntry;
use std::alloc::{AllocError, Global};

// AUTH_BAD_METHOD is sent with a code, the link is shut, and why is entered.
pub(crate) fn denies(
    alloc: Global,
    at: &Moment<'_>,
    code: u32,
    why: LoginFault,
) -> Result<NodeRow<Link, KeyChange>, AllocError>
    ensures { IfOk result (λ row. row ≡ keeping (denying node.Monitor at.now.number code why [])) }
{
    let seals = Items::new(alloc);
    let row = cx_node::denies(alloc, &NodeName::Monitor, at.number, code, why, seals)?;
    Ok(NodeRow::keeping(row))
}

// Behind what was logged before come what was sealed of what is told, and what is sealed of the frames.
pub(crate) fn logs(
    alloc: Global,
    log: &mut Items<SealEntry>,
    sealed: Items<SealEntry>,
    framed: Items<SealEntry>,
) -> Result<(), AllocError>
    ensures { OnOk result (log.new ≡ log.old ++ (sealed ++ framed)) }
{
    log.append(alloc, sealed)?;
    log.append(alloc, framed)
}
