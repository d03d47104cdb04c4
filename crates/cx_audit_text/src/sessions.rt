//! Lines of sessions that are admitted or resumed.

ghost use Rattle.std.specs.Prelude.{◌≡◌, ◌∷◌, [], map, IfOk};
ghost use Rattle.cx_audit_text.specs.lines.Lines.{IsLineRead, IsSessionRead};
ghost use Rattle.cx_audit_text.specs.declared.choices.JournalHead.{JournalHead};

use crate::entries::JournalLine;
use crate::{CountedAbove, cookie, printed_reading};
use cx_journal::{Admitted, Entry};
use cx_words::{caps, name, number};
use std::alloc::{AllocError, Global};

/// The words of a session: where it is.
#[derive(Clone, Copy)]
struct Place<'a> {
    daemon: &'a [u8],
    session: &'a [u8],
    epoch: &'a [u8],
    cookie: &'a [u8],
}

/// The words of a session: whose it is.
#[derive(Clone, Copy)]
struct Owner<'a> {
    entity: &'a [u8],
    gid: &'a [u8],
    at: &'a [u8],
    caps: &'a [u8],
}

/// What these words behind `admitted` say.
pub fn admitted_of(
    alloc: Global,
    counted: CountedAbove,
    words: &[&[u8]],
) -> Result<Option<JournalLine>, AllocError>
    ensures { IfOk result (IsLineRead counted JournalHead.Admitted (map (λ w. w.now) words.now)) }
{
    match session_of(alloc, counted, words)? {
        Some(session) => Ok(Some(JournalLine::Entry(Entry::Admitted(session)))),
        None => Ok(None),
    }
}

/// What these words behind `resumed` say.
pub fn resumed_of(
    alloc: Global,
    counted: CountedAbove,
    words: &[&[u8]],
) -> Result<Option<JournalLine>, AllocError>
    ensures { IfOk result (IsLineRead counted JournalHead.Resumed (map (λ w. w.now) words.now)) }
{
    match session_of(alloc, counted, words)? {
        Some(session) => Ok(Some(JournalLine::Entry(Entry::Resumed(session)))),
        None => Ok(None),
    }
}

fn session_of(
    alloc: Global,
    counted: CountedAbove,
    words: &[&[u8]],
) -> Result<Option<Admitted>, AllocError>
    ensures { IfOk result (IsSessionRead counted (map (λ w. w.now) words.now)) }
{
    let [daemon, session, epoch, cookie, rest @ ..] = words else {
        return Ok(None);
    };
    let place = Place {
        daemon,
        session,
        epoch,
        cookie,
    };
    session_behind(alloc, counted, place, rest)
}

fn session_behind(
    alloc: Global,
    counted: CountedAbove,
    place: Place,
    words: &[&[u8]],
) -> Result<Option<Admitted>, AllocError>
    ensures { IfOk result (IsSessionRead counted (place.entry.daemon.now ∷ place.entry.session.now ∷ place.entry.epoch.now ∷ place.entry.cookie.now ∷ map (λ w. w.now) words.now)) }
{
    let [entity, gid, at, caps] = words else {
        return Ok(None);
    };
    let owner = Owner {
        entity,
        gid,
        at,
        caps,
    };
    session_from(alloc, counted, place, owner)
}

fn session_from(
    alloc: Global,
    counted: CountedAbove,
    place: Place,
    owner: Owner,
) -> Result<Option<Admitted>, AllocError>
    ensures { IfOk result (IsSessionRead counted (place.entry.daemon.now ∷ place.entry.session.now ∷ place.entry.epoch.now ∷ place.entry.cookie.now ∷ owner.entry.entity.now ∷ owner.entry.gid.now ∷ owner.entry.at.now ∷ owner.entry.caps.now ∷ [])) }
{
    let Some(session) = number(place.session) else {
        return Ok(None);
    };
    let Some(epoch) = number(place.epoch) else {
        return Ok(None);
    };
    let Some(cookie) = cookie(counted, place.cookie) else {
        return Ok(None);
    };
    let Some(gid) = number(owner.gid) else {
        return Ok(None);
    };
    let Some(at) = printed_reading(alloc, owner.at)? else {
        return Ok(None);
    };
    let Some(daemon) = name(alloc, place.daemon)? else {
        return Ok(None);
    };
    let Some(entity) = name(alloc, owner.entity)? else {
        return Ok(None);
    };
    let Some(caps) = caps(alloc, owner.caps)? else {
        return Ok(None);
    };
    Ok(Some(Admitted {
        daemon,
        session,
        epoch,
        cookie,
        entity,
        gid,
        at,
        caps,
    }))
}
