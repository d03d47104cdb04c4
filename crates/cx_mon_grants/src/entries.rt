//! What is entered of a login.

ghost use Rattle.std.specs.Prelude.{◌≡◌, ◌++◌, map, IfOk, OnOk};
ghost use Rattle.cx_rules.specs.Verdicts.{login_entries};
ghost use Rattle.cx_rules.specs.Tickets.{issued_entry};

use cx_base::{Duplicate, Items};
use cx_journal::{Entry, Issued};
use cx_keyserver::{Issuance, Ticket};
use cx_rotate::BoxedState;
use std::alloc::{AllocError, Global};

/// That the state was saved, where it was, and then each ticket.
pub(crate) fn login_entries(
    alloc: Global,
    save: &Option<BoxedState>,
    tickets: &[Issuance],
) -> Result<Items<Entry>, AllocError>
    ensures { IfOk result (λ entries. entries ≡ login_entries save.now tickets.now) }
{
    let mut entries = Items::new(alloc);
    match save {
        None => {}
        Some(state) => entries.push(alloc, Entry::Saved(state.state().next_gid))?,
    }
    push_issued(alloc, tickets, &mut entries)?;
    Ok(entries)
}

fn push_issued(
    alloc: Global,
    tickets: &[Issuance],
    entries: &mut Items<Entry>,
) -> Result<(), AllocError>
    ensures { OnOk result (entries.new ≡ entries.old ++ map issued_entry tickets.now) }
{
    for ticket in tickets {
        entries.push(alloc, issued_entry(alloc, ticket.ticket())?)?;
    }
    Ok(())
}

fn issued_entry(alloc: Global, ticket: &Ticket) -> Result<Entry, AllocError>
    ensures { IfOk result (λ entry. entry ≡ issued_entry ticket.now) }
{
    let entity = ticket.entity.copy(alloc)?;
    let caps = ticket.caps.copy(alloc)?;
    let blob = ticket.blob.copy(alloc)?;
    Ok(Entry::Issued(Issued {
        entity,
        service: ticket.service,
        gid: ticket.gid,
        generation: ticket.generation,
        created: ticket.created,
        expires: ticket.expires,
        caps,
        blob,
    }))
}
