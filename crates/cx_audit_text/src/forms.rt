//! The line of each kind, from the words behind its first one.

ghost use Rattle.std.specs.Prelude.{◌≡◌, ◌∷◌, [], map, IfOk};
ghost use Rattle.cx_audit_text.specs.lines.Lines.{IsLineRead};
ghost use Rattle.cx_audit_text.specs.declared.choices.JournalHead.{JournalHead};
ghost use Rattle.cx_audit_text.specs.declared.words_places.CountedAbove.{CountedAbove};

use crate::entries::{Administered, JournalLine};
use crate::lines_reasons::reason_of;
use crate::operations::{handled_of, sent_of};
use crate::sessions::{admitted_of, resumed_of};
use crate::tickets::issued_of;
use crate::{
    CountedAbove, JournalHead, admin_outcome_named, asked, ids, key_kind_named, node,
    outcome_named, premise_named, printed_reading, reason_named, short, verb_named,
};
use cx_base::NodeName;
use cx_journal::{Answered, Broken, Ended, Entry, Fetched, Looked, Reason, Refused};
use cx_rotate::View;
use cx_words::{name, number, part};
use std::alloc::{AllocError, Global};

/// What these words behind a first word of this kind say; none where one of them isn't good at its place.
pub fn line_behind(
    alloc: Global,
    counted: CountedAbove,
    head: JournalHead,
    words: &[&[u8]],
) -> Result<Option<JournalLine>, AllocError>
    ensures { IfOk result (IsLineRead counted head (map (λ w. w.now) words.now)) }
{
    match head {
        JournalHead::Saved => Ok(saved_of(words)),
        JournalHead::Issued => issued_of(alloc, counted, words),
        JournalHead::Fetched => fetched_of(alloc, words),
        JournalHead::Looked => looked_of(alloc, words),
        JournalHead::Admitted => admitted_of(alloc, counted, words),
        JournalHead::Resumed => resumed_of(alloc, counted, words),
        JournalHead::Sent => sent_of(alloc, counted, words),
        JournalHead::Handled => handled_of(alloc, counted, words),
        JournalHead::Answered => answered_of(alloc, words),
        JournalHead::Refused => refused_of(alloc, counted, words),
        JournalHead::Ended => ended_of(alloc, words),
        JournalHead::Restarted => restarted_of(alloc, words),
        JournalHead::Broken => broken_of(alloc, words),
        JournalHead::Leaked => leaked_of(alloc, words),
        JournalHead::Administered => administered_of(alloc, words),
    }
}

fn saved_of(words: &[&[u8]]) -> Option<JournalLine>
    ensures { (counted : CountedAbove) → IsLineRead counted JournalHead.Saved (map (λ w. w.now) words.now) result }
{
    let [next] = words else {
        return None;
    };
    let next = number(next)?;
    Some(JournalLine::Entry(Entry::Saved(next)))
}

fn fetched_of(alloc: Global, words: &[&[u8]]) -> Result<Option<JournalLine>, AllocError>
    ensures { (counted : CountedAbove) → IfOk result (IsLineRead counted JournalHead.Fetched (map (λ w. w.now) words.now)) }
{
    let [daemon, asked, generations] = words else {
        return Ok(None);
    };
    let Some(asked) = printed_reading(alloc, asked)? else {
        return Ok(None);
    };
    let Some(generations) = ids(alloc, generations)? else {
        return Ok(None);
    };
    let Some(daemon) = name(alloc, daemon)? else {
        return Ok(None);
    };
    Ok(Some(JournalLine::Entry(Entry::Fetched(Fetched {
        daemon,
        asked,
        generations,
    }))))
}

fn looked_of(alloc: Global, words: &[&[u8]]) -> Result<Option<JournalLine>, AllocError>
    ensures { (counted : CountedAbove) → IfOk result (IsLineRead counted JournalHead.Looked (map (λ w. w.now) words.now)) }
{
    let [daemon, link, generations, reading] = words else {
        return Ok(None);
    };
    let Some(link) = short(link) else {
        return Ok(None);
    };
    let Some(generations) = ids(alloc, generations)? else {
        return Ok(None);
    };
    let Some(asked) = asked(alloc, reading)? else {
        return Ok(None);
    };
    let Some(daemon) = name(alloc, daemon)? else {
        return Ok(None);
    };
    let view = View { generations, asked };
    Ok(Some(JournalLine::Entry(Entry::Looked(Looked { daemon, link, view }))))
}

fn answered_of(alloc: Global, words: &[&[u8]]) -> Result<Option<JournalLine>, AllocError>
    ensures { (counted : CountedAbove) → IfOk result (IsLineRead counted JournalHead.Answered (map (λ w. w.now) words.now)) }
{
    let [client, daemon, tid, outcome] = words else {
        return Ok(None);
    };
    let Some(tid) = number(tid) else {
        return Ok(None);
    };
    let Some(outcome) = outcome_named(outcome) else {
        return Ok(None);
    };
    let Some(client) = name(alloc, client)? else {
        return Ok(None);
    };
    let Some(daemon) = name(alloc, daemon)? else {
        return Ok(None);
    };
    Ok(Some(JournalLine::Entry(Entry::Answered(Answered {
        client,
        daemon,
        cookie: 0,
        tid,
        outcome,
    }))))
}

fn refused_of(
    alloc: Global,
    counted: CountedAbove,
    words: &[&[u8]],
) -> Result<Option<JournalLine>, AllocError>
    ensures { IfOk result (IsLineRead counted JournalHead.Refused (map (λ w. w.now) words.now)) }
{
    let [node, link, reason, rest @ ..] = words else {
        return Ok(None);
    };
    refused(alloc, counted, node, link, reason, rest)
}

fn refused(
    alloc: Global,
    counted: CountedAbove,
    refuser: &[u8],
    link: &[u8],
    reason: &[u8],
    rest: &[&[u8]],
) -> Result<Option<JournalLine>, AllocError>
    ensures { IfOk result (IsLineRead counted JournalHead.Refused (refuser.now ∷ link.now ∷ reason.now ∷ map (λ w. w.now) rest.now)) }
{
    let Some(form) = reason_named(reason) else {
        return Ok(None);
    };
    let Some(link) = short(link) else {
        return Ok(None);
    };
    let Some(node) = node(alloc, refuser)? else {
        return Ok(None);
    };
    match reason_of(alloc, counted, form, rest)? {
        Some(reason) => Ok(Some(refusal(node, link, reason))),
        None => Ok(None),
    }
}

fn refusal(node: NodeName, link: u32, reason: Reason) -> JournalLine
    ensures { result ≡ JournalLine.Entry (Entry.Refused (record { node = node; link = link; reason = reason })) }
{
    JournalLine::Entry(Entry::Refused(Refused { node, link, reason }))
}

fn ended_of(alloc: Global, words: &[&[u8]]) -> Result<Option<JournalLine>, AllocError>
    ensures { (counted : CountedAbove) → IfOk result (IsLineRead counted JournalHead.Ended (map (λ w. w.now) words.now)) }
{
    let [daemon, session] = words else {
        return Ok(None);
    };
    let Some(session) = number(session) else {
        return Ok(None);
    };
    let Some(daemon) = name(alloc, daemon)? else {
        return Ok(None);
    };
    Ok(Some(JournalLine::Entry(Entry::Ended(Ended { daemon, session }))))
}

fn restarted_of(alloc: Global, words: &[&[u8]]) -> Result<Option<JournalLine>, AllocError>
    ensures { (counted : CountedAbove) → IfOk result (IsLineRead counted JournalHead.Restarted (map (λ w. w.now) words.now)) }
{
    let [word] = words else {
        return Ok(None);
    };
    let Some(node) = node(alloc, word)? else {
        return Ok(None);
    };
    Ok(Some(JournalLine::Entry(Entry::Restarted(node))))
}

fn broken_of(alloc: Global, words: &[&[u8]]) -> Result<Option<JournalLine>, AllocError>
    ensures { (counted : CountedAbove) → IfOk result (IsLineRead counted JournalHead.Broken (map (λ w. w.now) words.now)) }
{
    let [why, at, kind, line] = words else {
        return Ok(None);
    };
    let Some(why) = premise_named(why) else {
        return Ok(None);
    };
    let Some(kind) = key_kind_named(kind) else {
        return Ok(None);
    };
    let Some(line) = short(line) else {
        return Ok(None);
    };
    let Some(node) = node(alloc, at)? else {
        return Ok(None);
    };
    Ok(Some(JournalLine::Entry(Entry::Broken(Broken {
        why,
        node,
        kind,
        line,
    }))))
}

fn leaked_of(alloc: Global, words: &[&[u8]]) -> Result<Option<JournalLine>, AllocError>
    ensures { (counted : CountedAbove) → IfOk result (IsLineRead counted JournalHead.Leaked (map (λ w. w.now) words.now)) }
{
    let [word] = words else {
        return Ok(None);
    };
    let Some(client) = name(alloc, word)? else {
        return Ok(None);
    };
    Ok(Some(JournalLine::Entry(Entry::Leaked(client))))
}

fn administered_of(alloc: Global, words: &[&[u8]]) -> Result<Option<JournalLine>, AllocError>
    ensures { (counted : CountedAbove) → IfOk result (IsLineRead counted JournalHead.Administered (map (λ w. w.now) words.now)) }
{
    let [actor, verb, object, at, outcome] = words else {
        return Ok(None);
    };
    let Some(verb) = verb_named(verb) else {
        return Ok(None);
    };
    let Some(outcome) = admin_outcome_named(outcome) else {
        return Ok(None);
    };
    let Some(at) = printed_reading(alloc, at)? else {
        return Ok(None);
    };
    let Some(actor) = name(alloc, actor)? else {
        return Ok(None);
    };
    let Some(name) = part(alloc, object)? else {
        return Ok(None);
    };
    Ok(Some(JournalLine::Administered(Administered {
        actor,
        verb,
        name,
        at,
        outcome,
    })))
}
