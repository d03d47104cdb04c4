//! Lines of operations that are sent or handled.

ghost use Rattle.std.specs.Prelude.{◌≡◌, ◌∷◌, [], map, is_some, IfOk, IfSome};
ghost use Rattle.cx_audit_text.specs.lines.Lines.{IsLineRead, operation_items, operation_places};
ghost use Rattle.cx_audit_text.specs.lines.Reading.{nothing};
ghost use Rattle.cx_audit_text.specs.words.Items.{SpellsItems, are_good};
ghost use Rattle.cx_audit_text.specs.declared.choices.JournalHead.{JournalHead};

use crate::entries::JournalLine;
use crate::{CountedAbove, cookie, data, outcome_named};
use cx_base::Operation;
use cx_journal::{Entry, Handled, Sent};
use cx_words::{access, name, number, part};
use std::alloc::{AllocError, Global};

/// The words of an operation.
#[derive(Clone, Copy)]
struct Written<'a> {
    access: &'a [u8],
    pool: &'a [u8],
    namespace: &'a [u8],
    object: &'a [u8],
    bytes: &'a [u8],
}

/// The words of one that sends.
#[derive(Clone, Copy)]
struct Sender<'a> {
    client: &'a [u8],
    daemon: &'a [u8],
    cookie: &'a [u8],
    seq: &'a [u8],
}

/// What these words behind `sent` say.
pub fn sent_of(
    alloc: Global,
    counted: CountedAbove,
    words: &[&[u8]],
) -> Result<Option<JournalLine>, AllocError>
    ensures { IfOk result (IsLineRead counted JournalHead.Sent (map (λ w. w.now) words.now)) }
{
    let [client, daemon, cookie, seq, rest @ ..] = words else {
        return Ok(None);
    };
    let sender = Sender {
        client,
        daemon,
        cookie,
        seq,
    };
    sent_behind(alloc, counted, sender, rest)
}

fn sent_behind(
    alloc: Global,
    counted: CountedAbove,
    sender: Sender,
    words: &[&[u8]],
) -> Result<Option<JournalLine>, AllocError>
    ensures { IfOk result (IsLineRead counted JournalHead.Sent (sender.entry.client.now ∷ sender.entry.daemon.now ∷ sender.entry.cookie.now ∷ sender.entry.seq.now ∷ map (λ w. w.now) words.now)) }
{
    let [access, pool, namespace, object, bytes] = words else {
        return Ok(None);
    };
    let written = Written {
        access,
        pool,
        namespace,
        object,
        bytes,
    };
    sent(alloc, counted, sender, written)
}

fn sent(
    alloc: Global,
    counted: CountedAbove,
    sender: Sender,
    written: Written,
) -> Result<Option<JournalLine>, AllocError>
    ensures { IfOk result (IsLineRead counted JournalHead.Sent (sender.entry.client.now ∷ sender.entry.daemon.now ∷ sender.entry.cookie.now ∷ sender.entry.seq.now ∷ written.entry.access.now ∷ written.entry.pool.now ∷ written.entry.namespace.now ∷ written.entry.object.now ∷ written.entry.bytes.now ∷ [])) }
{
    let Some(cookie) = cookie(counted, sender.cookie) else {
        return Ok(None);
    };
    let Some(seq) = number(sender.seq) else {
        return Ok(None);
    };
    let Some(client) = name(alloc, sender.client)? else {
        return Ok(None);
    };
    let Some(daemon) = name(alloc, sender.daemon)? else {
        return Ok(None);
    };
    let Some(operation) = operation(alloc, written)? else {
        return Ok(None);
    };
    Ok(Some(JournalLine::Entry(Entry::Sent(Sent {
        client,
        daemon,
        cookie,
        seq,
        operation,
    }))))
}

/// The words of a session that handles.
#[derive(Clone, Copy)]
struct Place<'a> {
    daemon: &'a [u8],
    session: &'a [u8],
    epoch: &'a [u8],
    cookie: &'a [u8],
    seq: &'a [u8],
}

/// What these words behind `handled` say.
pub fn handled_of(
    alloc: Global,
    counted: CountedAbove,
    words: &[&[u8]],
) -> Result<Option<JournalLine>, AllocError>
    ensures { IfOk result (IsLineRead counted JournalHead.Handled (map (λ w. w.now) words.now)) }
{
    let [daemon, session, epoch, cookie, seq, rest @ ..] = words else {
        return Ok(None);
    };
    let place = Place {
        daemon,
        session,
        epoch,
        cookie,
        seq,
    };
    handled_behind(alloc, counted, place, rest)
}

fn handled_behind(
    alloc: Global,
    counted: CountedAbove,
    place: Place,
    words: &[&[u8]],
) -> Result<Option<JournalLine>, AllocError>
    ensures { IfOk result (IsLineRead counted JournalHead.Handled (place.entry.daemon.now ∷ place.entry.session.now ∷ place.entry.epoch.now ∷ place.entry.cookie.now ∷ place.entry.seq.now ∷ map (λ w. w.now) words.now)) }
{
    let [access, pool, namespace, object, rest @ ..] = words else {
        return Ok(None);
    };
    let target = Target {
        access,
        pool,
        namespace,
        object,
    };
    handled_end(alloc, counted, place, target, rest)
}

/// The words of an operation, but for its data.
#[derive(Clone, Copy)]
struct Target<'a> {
    access: &'a [u8],
    pool: &'a [u8],
    namespace: &'a [u8],
    object: &'a [u8],
}

fn handled_end(
    alloc: Global,
    counted: CountedAbove,
    place: Place,
    target: Target,
    words: &[&[u8]],
) -> Result<Option<JournalLine>, AllocError>
    ensures { IfOk result (IsLineRead counted JournalHead.Handled (place.entry.daemon.now ∷ place.entry.session.now ∷ place.entry.epoch.now ∷ place.entry.cookie.now ∷ place.entry.seq.now ∷ target.entry.access.now ∷ target.entry.pool.now ∷ target.entry.namespace.now ∷ target.entry.object.now ∷ map (λ w. w.now) words.now)) }
{
    let [bytes, outcome] = words else {
        return Ok(None);
    };
    let written = Written {
        access: target.access,
        pool: target.pool,
        namespace: target.namespace,
        object: target.object,
        bytes,
    };
    handled(alloc, counted, place, written, outcome)
}

#[tactic(auto, using(crate::proofs::lines::Wholes::front_bad))]
fn handled(
    alloc: Global,
    counted: CountedAbove,
    place: Place,
    written: Written,
    outcome: &[u8],
) -> Result<Option<JournalLine>, AllocError>
    ensures { IfOk result (IsLineRead counted JournalHead.Handled (place.entry.daemon.now ∷ place.entry.session.now ∷ place.entry.epoch.now ∷ place.entry.cookie.now ∷ place.entry.seq.now ∷ written.entry.access.now ∷ written.entry.pool.now ∷ written.entry.namespace.now ∷ written.entry.object.now ∷ written.entry.bytes.now ∷ outcome.now ∷ [])) }
{
    let Some(outcome) = outcome_named(outcome) else {
        return Ok(None);
    };
    let Some(session) = number(place.session) else {
        return Ok(None);
    };
    let Some(epoch) = number(place.epoch) else {
        return Ok(None);
    };
    let Some(cookie) = cookie(counted, place.cookie) else {
        return Ok(None);
    };
    let Some(seq) = number(place.seq) else {
        return Ok(None);
    };
    let Some(daemon) = name(alloc, place.daemon)? else {
        return Ok(None);
    };
    let Some(operation) = operation(alloc, written)? else {
        return Ok(None);
    };
    Ok(Some(JournalLine::Entry(Entry::Handled(Handled {
        daemon,
        session,
        epoch,
        cookie,
        seq,
        operation,
        outcome,
    }))))
}

/// The operation that the words spell; none where one of them is no value of its place.
fn operation(alloc: Global, written: Written) -> Result<Option<Operation>, AllocError>
    ensures read { IfOk result (λ found. is_some found ≡ are_good nothing (operation_places []) (written.entry.access.now ∷ written.entry.pool.now ∷ written.entry.namespace.now ∷ written.entry.object.now ∷ written.entry.bytes.now ∷ [])) }
    ensures spelled { IfOk result (λ found. IfSome found (λ operation. SpellsItems nothing (operation_items operation []) (written.entry.access.now ∷ written.entry.pool.now ∷ written.entry.namespace.now ∷ written.entry.object.now ∷ written.entry.bytes.now ∷ []))) }
{
    let Some(access) = access(written.access) else {
        return Ok(None);
    };
    let Some(pool) = part(alloc, written.pool)? else {
        return Ok(None);
    };
    let Some(namespace) = part(alloc, written.namespace)? else {
        return Ok(None);
    };
    let Some(object) = part(alloc, written.object)? else {
        return Ok(None);
    };
    let Some(bytes) = data(alloc, written.bytes)? else {
        return Ok(None);
    };
    Ok(Some(Operation {
        access,
        pool,
        namespace,
        object,
        bytes,
    }))
}
