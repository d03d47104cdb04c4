//! Lines of issued tickets.

ghost use Rattle.std.specs.Prelude.{◌≡◌, ◌∷◌, [], map, IfOk};
ghost use Rattle.cx_audit_text.specs.lines.Lines.{IsLineRead};
ghost use Rattle.cx_audit_text.specs.declared.choices.JournalHead.{JournalHead};

use crate::entries::JournalLine;
use crate::{CountedAbove, entity_type_named, next_ticket, printed_reading};
use cx_journal::{Entry, Issued};
use cx_words::{caps, name, number};
use std::alloc::{AllocError, Global};

/// The words of a ticket: which it is.
#[derive(Clone, Copy)]
struct Owner<'a> {
    number: &'a [u8],
    entity: &'a [u8],
    service: &'a [u8],
    gid: &'a [u8],
}

/// The words of a ticket: under which generation it is sealed, and how long it holds.
#[derive(Clone, Copy)]
struct Terms<'a> {
    generation: &'a [u8],
    created: &'a [u8],
    expires: &'a [u8],
    caps: &'a [u8],
}

/// What these words behind `issued` say.
pub fn issued_of(
    alloc: Global,
    counted: CountedAbove,
    words: &[&[u8]],
) -> Result<Option<JournalLine>, AllocError>
    ensures { IfOk result (IsLineRead counted JournalHead.Issued (map (λ w. w.now) words.now)) }
{
    let [number, entity, service, gid, rest @ ..] = words else {
        return Ok(None);
    };
    let owner = Owner {
        number,
        entity,
        service,
        gid,
    };
    issued_behind(alloc, counted, owner, rest)
}

fn issued_behind(
    alloc: Global,
    counted: CountedAbove,
    owner: Owner,
    words: &[&[u8]],
) -> Result<Option<JournalLine>, AllocError>
    ensures { IfOk result (IsLineRead counted JournalHead.Issued (owner.entry.number.now ∷ owner.entry.entity.now ∷ owner.entry.service.now ∷ owner.entry.gid.now ∷ map (λ w. w.now) words.now)) }
{
    let [generation, created, expires, caps] = words else {
        return Ok(None);
    };
    let terms = Terms {
        generation,
        created,
        expires,
        caps,
    };
    issued(alloc, counted, owner, terms)
}

fn issued(
    alloc: Global,
    counted: CountedAbove,
    owner: Owner,
    terms: Terms,
) -> Result<Option<JournalLine>, AllocError>
    ensures { IfOk result (IsLineRead counted JournalHead.Issued (owner.entry.number.now ∷ owner.entry.entity.now ∷ owner.entry.service.now ∷ owner.entry.gid.now ∷ terms.entry.generation.now ∷ terms.entry.created.now ∷ terms.entry.expires.now ∷ terms.entry.caps.now ∷ [])) }
{
    let Some(service) = entity_type_named(owner.service) else {
        return Ok(None);
    };
    let Some(gid) = number(owner.gid) else {
        return Ok(None);
    };
    let Some(generation) = number(terms.generation) else {
        return Ok(None);
    };
    let Some(created) = printed_reading(alloc, terms.created)? else {
        return Ok(None);
    };
    let Some(expires) = printed_reading(alloc, terms.expires)? else {
        return Ok(None);
    };
    let Some(blob) = next_ticket(alloc, counted, owner.number)? else {
        return Ok(None);
    };
    let Some(entity) = name(alloc, owner.entity)? else {
        return Ok(None);
    };
    let Some(caps) = caps(alloc, terms.caps)? else {
        return Ok(None);
    };
    Ok(Some(JournalLine::Entry(Entry::Issued(Issued {
        entity,
        service,
        gid,
        generation,
        created,
        expires,
        caps,
        blob,
    }))))
}
