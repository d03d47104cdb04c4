//! Rows of an incoming link.

ghost use Rattle.std.specs.Prelude.{◌≡◌, IfOk};
ghost use Rattle.cx_journal.specs.declared.entries.Entry.{Entry};
ghost use Rattle.cx_verifying.specs.cx_rules_session.specs.IncomingLinks.{IncomingRow};
ghost use Rattle.cx_verifying.specs.cx_rules_session.specs.Hosting.{comes_to};
ghost use Rattle.cx_verifying.specs.cx_rules_session.specs.Kinds.{entered_before};
ghost use Rattle.cx_verifying.specs.Rows.{MakesRow, arrived};
ghost use Rattle.cx_verifying.specs.Stages.{IncomingLink};
ghost use Rattle.cx_daemon_session.specs.coming.Hosted.{IsCome};

use cx_base::Items;
use cx_journal::Entry;
use cx_steps::SealEntry;
use cx_verifying::{
    Came, Link, Moment, MonClient, NoRow, NodeRow, entered_before, handles, unless_refused,
};
use std::alloc::{AllocError, Global};

/// What was made, or the refusal, behind what is entered first: that stands whether or not the row can send.
pub fn entered(
    alloc: Global,
    mon_client: &MonClient,
    at: &Moment<'_>,
    first: Entry,
    made: Result<NodeRow<Link, ()>, NoRow>,
) -> Result<NodeRow<Link, ()>, NoRow>
    ensures { (link : IncomingLink) (due : IncomingRow) → link.number ≡ at.now.number → MakesRow (arrived mon_client.now at.now link) due made
        → MakesRow (arrived mon_client.now at.now link) (entered_before first due) result }
{
    let me = mon_client.node_name(alloc)?;
    let row = unless_refused(alloc, &me, at.number, Items::new(alloc), made)?;
    let behind = entered_before(alloc, first, row)?;
    Ok(behind)
}

/// What a turn comes to that is handled by the row that was made, or by the refusal, behind what opened before it.
pub fn come(
    alloc: Global,
    mon_client: &MonClient,
    at: &Moment<'_>,
    opened: Items<SealEntry>,
    made: Result<NodeRow<Link, ()>, NoRow>,
) -> Result<Came<Link, ()>, AllocError>
    ensures { (link : IncomingLink) (due : IncomingRow) → link.number ≡ at.now.number → MakesRow (arrived mon_client.now at.now link) due made
        → IfOk result (IsCome mon_client.now at.now.number opened (comes_to due)) }
{
    let me = mon_client.node_name(alloc)?;
    handles(alloc, &me, at.number, opened, made)
}
