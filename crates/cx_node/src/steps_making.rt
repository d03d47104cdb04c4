//! Rows that are made, and those of refusals.

ghost use Rattle.std.specs.Prelude.{◌≡◌, IfOk};
ghost use Rattle.cx_node.specs.Made.{going_on};
ghost use Rattle.cx_node.specs.steps.Making.{IsHandled, IsRowOf, entering, keeping, row_behind};

use crate::came::Came;
use crate::steps_rows::{NoRow, NodeRow};
use crate::{refuses, with_opened};
use cx_base::{Blob, Items, NodeName};
use cx_journal::Entry;
use cx_steps::SealEntry;
use std::alloc::{AllocError, Global};

/// The link goes on, and these bytes are sent on it. Nothing of the node's own is changed.
pub fn goes_on_unchanged<L, C>(
    alloc: Global,
    link: L,
    sends: Blob,
    seals: Items<SealEntry>,
) -> NodeRow<L, C>
    ensures { result ≡ keeping (going_on link sends seals) }
{
    NodeRow::keeping(crate::goes_on(alloc, link, sends, seals))
}

/// The row that was made; or, where none was, that of the refusal: the link of this number is shut, and why is entered. Either is logged behind
/// what opened before.
pub fn unless_refused<L: Drop, C: Drop>(
    alloc: Global,
    me: &NodeName,
    number: u32,
    opened: Items<SealEntry>,
    made: Result<NodeRow<L, C>, NoRow>,
) -> Result<NodeRow<L, C>, AllocError>
    ensures { IfOk result (IsRowOf me.now number opened made) }
{
    match made {
        Ok(made) => row_behind(alloc, opened, made),
        Err(NoRow::Refused(why)) => {
            let row = refuses(alloc, me, number, why, Items::new(alloc))?;
            row_behind(alloc, opened, NodeRow::keeping(row))
        }
        Err(NoRow::OutOfMemory) => Err(AllocError),
    }
}

/// What a turn comes to whose banner or frame is handled by the row that was made, or by that of the refusal, behind what opened of it.
pub fn handles<L: Drop, C: Drop>(
    alloc: Global,
    me: &NodeName,
    number: u32,
    opened: Items<SealEntry>,
    made: Result<NodeRow<L, C>, NoRow>,
) -> Result<Came<L, C>, AllocError>
    ensures { IfOk result (IsHandled me.now number opened made) }
{
    let row = unless_refused(alloc, me, number, opened, made)?;
    Ok(Came::Handles(row))
}

/// A row that is entered behind this, which stands whether or not the row can send.
pub fn entered_before<L: Drop, C: Drop>(
    alloc: Global,
    first: Entry,
    made: NodeRow<L, C>,
) -> Result<NodeRow<L, C>, AllocError>
    ensures { IfOk result (λ row. row ≡ entering first made) }
{
    let NodeRow { mut row, change } = made;
    let mut entries = Items::new(alloc);
    entries.push(alloc, first)?;
    entries.append(alloc, row.entries)?;
    row.entries = entries;
    Ok(NodeRow { row, change })
}

// The row behind what opened before it.
fn row_behind<L: Drop, C: Drop>(
    alloc: Global,
    opened: Items<SealEntry>,
    made: NodeRow<L, C>,
) -> Result<NodeRow<L, C>, AllocError>
    ensures { IfOk result (λ row. row ≡ row_behind opened made) }
{
    let NodeRow { row, change } = made;
    let row = with_opened(alloc, opened, row)?;
    Ok(NodeRow { row, change })
}
