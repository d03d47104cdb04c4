//! Which rule an entry breaks first.

ghost use Rattle.std.specs.Prelude.{◌≡◌, drop, length, map, IfOk};
ghost use Rattle.std.specs.List.{list_any};
ghost use Rattle.cx_base.specs.declared.kinds.EntityType.TheVariants.{Auth};
ghost use Rattle.cx_journal.specs.KeepsKeys.{is_look};
ghost use Rattle.cx_journal.specs.Leaks.{is_leak};
ghost use Rattle.cx_journal.specs.Sessions.{last_such};
ghost use Rattle.cx_audit.specs.indexed.Keyed.{bytes_key, name_key, number_key, under};
ghost use Rattle.cx_audit.specs.ruled.Tests.{backs, broken_by, broken_generation, broken_handled, broken_order, broken_refusal, found_session, is_issued_as, is_next, is_this, keeps_key, lacks, same_access, same_operation, shares_gid, unless};

use crate::known::Known;
use crate::rules::Rule;
use crate::sessions::{count_under, session_of};
use crate::tickets::{is_backed, lacks_key, shares_gid, was_issued};
use crate::{Index, Key};
use cx_base::{Access, Blob, EntityName, NodeName, Operation};
use cx_journal::{Admitted, Entry, Handled, Issued, Reason, Refused, TicketFault};
use std::alloc::{AllocError, Global};

/// The least rule that the entry breaks behind those of which this is known.
pub fn broken_by(alloc: Global, known: &Known, entry: &Entry) -> Result<Option<Rule>, AllocError>
    ensures { IfOk result (λ rule. rule ≡ broken_by known.now entry.now) }
{
    match entry {
        Entry::Issued(t) => Ok(unless(keeps_gid(alloc, known, t), Rule::GidOnce)),
        Entry::Admitted(a) => Ok(unless(has_ticket(alloc, &known.tickets, a), Rule::Backed)),
        Entry::Resumed(a) => Ok(unless(has_ticket(alloc, &known.tickets, a), Rule::Backed)),
        Entry::Handled(h) => broken_handled(alloc, known, h),
        Entry::Refused(r) => broken_refusal(alloc, known, r),
        _ => Ok(None),
    }
}

fn unless(kept: bool, rule: Rule) -> Option<Rule>
    ensures { result ≡ unless kept rule }
{
    if kept { None } else { Some(rule) }
}

fn keeps_gid(alloc: Global, known: &Known, ticket: &Issued) -> bool
    ensures { result ≡ shares_gid (under known.now.owners (number_key ticket.now.gid)) (under known.now.tickets (number_key ticket.now.gid)) ticket.now }
{
    let key = Key::of_number(alloc, ticket.gid);
    shares_gid(&known.owners, &known.tickets, &key, ticket)
}

fn has_ticket(alloc: Global, tickets: &Index, session: &Admitted) -> bool
    ensures { result ≡ list_any (backs session.now) (under tickets.now (number_key session.now.gid)) }
{
    match tickets.under(&Key::of_number(alloc, session.gid)) {
        Some(entries) => is_backed(entries.as_slice(), session),
        None => false,
    }
}

fn broken_refusal(
    alloc: Global,
    known: &Known,
    refused: &Refused,
) -> Result<Option<Rule>, AllocError>
    ensures { IfOk result (λ rule. rule ≡ broken_refusal known.now refused.now.node refused.now.link refused.now.reason) }
{
    match &refused.node {
        NodeName::Monitor => Ok(None),
        NodeName::Entity(daemon) => match &refused.reason {
            Reason::Ticket(why, blob) => {
                broken_generation(alloc, known, daemon, refused.link, *why, blob)
            }
            _ => Ok(None),
        },
    }
}

fn broken_generation(
    alloc: Global,
    known: &Known,
    daemon: &EntityName,
    link: u32,
    why: TicketFault,
    blob: &Blob,
) -> Result<Option<Rule>, AllocError>
    ensures { IfOk result (λ rule. rule ≡ broken_generation known.now daemon.now link why blob.now) }
{
    match why {
        TicketFault::UnknownGeneration(generation) => {
            let kept = keeps_key(alloc, known, daemon, link, generation, blob)?;
            Ok(unless(kept, Rule::KeepsKeys))
        }
        TicketFault::TicketUnopened(generation) => {
            let kept = keeps_key(alloc, known, daemon, link, generation, blob)?;
            Ok(unless(kept, Rule::KeepsKeys))
        }
        _ => Ok(None),
    }
}

/// Whether a refusal of the ticket of this blob for this generation keeps the law of kept keys.
fn keeps_key(
    alloc: Global,
    known: &Known,
    daemon: &EntityName,
    link: u32,
    generation: u64,
    blob: &Blob,
) -> Result<bool, AllocError>
    ensures { IfOk result (λ kept. kept ≡ keeps_key (under known.now.blobs (bytes_key blob.now generation)) (under known.now.looks (name_key daemon.now link 0)) daemon.now link generation blob.now) }
{
    if !is_known(alloc, &known.blobs, daemon, generation, blob)? {
        return Ok(true);
    }
    looked_in_vain(alloc, &known.looks, daemon, link, generation)
}

fn is_known(
    alloc: Global,
    blobs: &Index,
    daemon: &EntityName,
    generation: u64,
    blob: &Blob,
) -> Result<bool, AllocError>
    ensures { IfOk result (λ known. known ≡ list_any (is_issued_as daemon.now generation blob.now) (under blobs.now (bytes_key blob.now generation))) }
{
    let key = Key::of_bytes(alloc, blob.bytes(), generation)?;
    match blobs.under(&key) {
        Some(entries) => Ok(was_issued(entries.as_slice(), daemon, generation, blob)),
        None => Ok(false),
    }
}

fn looked_in_vain(
    alloc: Global,
    looks: &Index,
    daemon: &EntityName,
    link: u32,
    generation: u64,
) -> Result<bool, AllocError>
    ensures { IfOk result (λ lacking. lacking ≡ lacks generation (last_such (is_look daemon.now link) (under looks.now (name_key daemon.now link 0)))) }
{
    let key = Key::of_entity(alloc, daemon, link as u64, 0)?;
    match looks.under(&key) {
        Some(entries) => Ok(lacks_key(entries.as_slice(), daemon, link, generation)),
        None => Ok(false),
    }
}

fn broken_handled(
    alloc: Global,
    known: &Known,
    handled: &Handled,
) -> Result<Option<Rule>, AllocError>
    ensures { IfOk result (λ rule. rule ≡ broken_handled known.now handled.now (found_session known.now handled.now)) }
{
    let Some(session) = session_of(alloc, known, handled)? else {
        return Ok(Some(Rule::InSession));
    };
    if is_leaked(alloc, &known.leaks, &session.entity)? {
        return Ok(None);
    }
    broken_order(alloc, known, handled, session)
}

fn is_leaked(alloc: Global, leaks: &Index, name: &EntityName) -> Result<bool, AllocError>
    ensures { IfOk result (λ leaked. leaked ≡ list_any (is_leak name.now) (under leaks.now (name_key name.now 0 0))) }
{
    let key = Key::of_entity(alloc, name, 0, 0)?;
    match leaks.under(&key) {
        Some(entries) => Ok(some_leak(entries.as_slice(), name)),
        None => Ok(false),
    }
}

fn some_leak(entries: &[&Entry], name: &EntityName) -> bool
    ensures { result ≡ list_any (is_leak name.now) (map (λ e. e.now) entries.now) }
{
    for entry in entries {
        if is_leak(name, entry) {
            return true;
        }
    }
    false
}

fn is_leak(name: &EntityName, entry: &Entry) -> bool
    ensures { result ≡ is_leak name.now entry.now }
{
    match entry {
        Entry::Leaked(other) => *other == *name,
        _ => false,
    }
}

fn broken_order(
    alloc: Global,
    known: &Known,
    handled: &Handled,
    session: &Admitted,
) -> Result<Option<Rule>, AllocError>
    ensures { IfOk result (λ rule. rule ≡ broken_order known.now handled.now session.now) }
{
    let key = Key::of_entity(alloc, &session.entity, handled.cookie, 0)?;
    let done = count_under(&known.handled, &key);
    Ok(unless(
        is_sent_next(&known.sent, &key, handled, done),
        Rule::PrefixOfSent,
    ))
}

/// Whether behind so many that were sent under this key the next one is this operation.
fn is_sent_next(sent: &Index, key: &Key, handled: &Handled, done: usize) -> bool
    ensures { result ≡ is_next (handled.now.seq, handled.now.operation) (drop done (under sent.now key.now)) }
{
    match sent.under(key) {
        Some(entries) => is_next(entries.as_slice(), handled, done),
        None => false,
    }
}

fn is_next(entries: &[&Entry], handled: &Handled, done: usize) -> bool
    ensures { result ≡ is_next (handled.now.seq, handled.now.operation) (map (λ e. e.now) (drop done entries.now)) }
{
    done < entries.len() && is_this(entries[done], handled)
}

fn is_this(entry: &Entry, handled: &Handled) -> bool
    ensures { result ≡ is_this (handled.now.seq, handled.now.operation) entry.now }
{
    match entry {
        Entry::Sent(s) => s.seq == handled.seq && same_operation(&s.operation, &handled.operation),
        _ => false,
    }
}

fn same_operation(a: &Operation, b: &Operation) -> bool
    ensures { result ≡ same_operation a.now b.now }
{
    same_access(a.access, b.access)
        && a.pool == b.pool
        && a.namespace == b.namespace
        && a.object == b.object
        && a.bytes == b.bytes
}

fn same_access(a: Access, b: Access) -> bool
    ensures { result ≡ same_access a b }
{
    match (a, b) {
        (Access::Read, Access::Read) => true,
        (Access::Write, Access::Write) => true,
        (Access::Exec, Access::Exec) => true,
        _ => false,
    }
}
