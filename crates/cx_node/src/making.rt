//! The rows in which nodes don't differ.

ghost use Rattle.std.specs.Prelude.{◌≡◌, IfOk};
ghost use Rattle.cx_rules.specs.Rows.{refused_entry};
ghost use Rattle.cx_node.specs.Made.{going_on, refusing, refusing_bytes, denying, denying_for, behind_opened};

use crate::controls::bad_method_bytes;
use crate::rows::Row;
use cx_base::{Blob, Duplicate, Items, NodeName};
use cx_journal::{BytesFault, Entry, LoginFault, Reason, Refused};
use cx_steps::SealEntry;
use std::alloc::{AllocError, Global};

/// The link goes on, and these bytes are sent on it.
pub fn goes_on<L>(alloc: Global, link: L, sends: Blob, seals: Items<SealEntry>) -> Row<L>
    ensures { result ≡ going_on link sends seals }
{
    Row {
        link: Some(link),
        sends,
        save: None,
        entries: Items::new(alloc),
        seals,
    }
}

/// That a node refused something on the link of this number or, at 0, on none.
pub fn refused_entry(
    alloc: Global,
    me: &NodeName,
    number: u32,
    reason: Reason,
) -> Result<Entry, AllocError>
    ensures { IfOk result (λ entry. entry ≡ refused_entry me.now number reason) }
{
    let node = me.copy(alloc)?;
    Ok(Entry::Refused(Refused {
        node,
        link: number,
        reason,
    }))
}

/// The link of this number is shut, and why is entered.
pub fn refuses<L>(
    alloc: Global,
    me: &NodeName,
    number: u32,
    why: Reason,
    seals: Items<SealEntry>,
) -> Result<Row<L>, AllocError>
    ensures { IfOk result (λ row. row ≡ refusing me.now number why seals) }
{
    let entry = refused_entry(alloc, me, number, why)?;
    let mut entries = Items::new(alloc);
    entries.push(alloc, entry)?;
    Ok(Row {
        link: None,
        sends: Blob::new(alloc),
        save: None,
        entries,
        seals,
    })
}

/// The same for what came on the link.
pub fn refuses_bytes<L>(
    alloc: Global,
    me: &NodeName,
    number: u32,
    why: BytesFault,
    seals: Items<SealEntry>,
) -> Result<Row<L>, AllocError>
    ensures { IfOk result (λ row. row ≡ refusing_bytes me.now number why seals) }
{
    refuses(alloc, me, number, Reason::Bytes(why), seals)
}

/// An acceptor sends AUTH_BAD_METHOD with a code, shuts the link and enters why.
pub fn denies_for<L: Drop>(
    alloc: Global,
    me: &NodeName,
    number: u32,
    code: u32,
    why: Reason,
    seals: Items<SealEntry>,
) -> Result<Row<L>, AllocError>
    ensures { IfOk result (λ row. row ≡ denying_for me.now number code why seals) }
{
    let mut row = refuses(alloc, me, number, why, seals)?;
    row.sends = bad_method_bytes(alloc, code)?;
    Ok(row)
}

/// The same for what is wrong with a login.
pub fn denies<L: Drop>(
    alloc: Global,
    me: &NodeName,
    number: u32,
    code: u32,
    why: LoginFault,
    seals: Items<SealEntry>,
) -> Result<Row<L>, AllocError>
    ensures { IfOk result (λ row. row ≡ denying me.now number code why seals) }
{
    denies_for(alloc, me, number, code, Reason::Login(why), seals)
}

/// The row behind what opened before it.
pub fn with_opened<L: Drop>(
    alloc: Global,
    opened: Items<SealEntry>,
    row: Row<L>,
) -> Result<Row<L>, AllocError>
    ensures { IfOk result (λ behind. behind ≡ behind_opened opened row) }
{
    let mut row = row;
    let mut seals = opened;
    seals.append(alloc, row.seals)?;
    row.seals = seals;
    Ok(row)
}
