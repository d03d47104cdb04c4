//! Tests of tickets.

ghost use Rattle.std.specs.Prelude.{◌≡◌, ◌==◌, map};
ghost use Rattle.std.specs.List.{list_any};
ghost use Rattle.std.specs.Option.{option_copied};
ghost use Rattle.cx_journal.specs.KeepsKeys.{has_generation, is_look};
ghost use Rattle.cx_journal.specs.Sessions.{last_such};
ghost use Rattle.cx_audit.specs.indexed.Keyed.{under};
ghost use Rattle.cx_audit.specs.ruled.Tests.{backs, differs, has_gid, is_for, is_issued_as, lacks, owns, renews, shares_gid};

use crate::{Index, Key};
use cx_base::{Blob, EntityName, EntityType};
use cx_journal::{Admitted, Entry, Issued};
use cx_rotate::Generations;

/// Whether one of the entries issued a ticket that backs the session.
pub fn is_backed(entries: &[&Entry], session: &Admitted) -> bool
    ensures { result ≡ list_any (backs session.now) (map (λ e. e.now) entries.now) }
{
    for entry in entries {
        if backs(session, entry) {
            return true;
        }
    }
    false
}

fn backs(session: &Admitted, entry: &Entry) -> bool
    ensures { result ≡ backs session.now entry.now }
{
    match entry {
        Entry::Issued(t) => is_for(session, t) && session.at < t.expires,
        _ => false,
    }
}

fn is_for(session: &Admitted, t: &Issued) -> bool
    ensures { result ≡ is_for session.now t.now }
{
    t.entity == session.entity
        && t.gid == session.gid
        && t.caps == session.caps
        && t.service.is(session.daemon.kind)
}

/// Whether an entry under this key tells that the ticket's global id is its entity's.
pub fn is_owned(owners: &Index, key: &Key, ticket: &Issued) -> bool
    ensures { result ≡ list_any (owns ticket.now) (under owners.now key.now) }
{
    match owners.under(key) {
        Some(entries) => some_owns(entries.as_slice(), ticket),
        None => false,
    }
}

fn some_owns(entries: &[&Entry], ticket: &Issued) -> bool
    ensures { result ≡ list_any (owns ticket.now) (map (λ e. e.now) entries.now) }
{
    for entry in entries {
        if owns(ticket, entry) {
            return true;
        }
    }
    false
}

fn owns(ticket: &Issued, entry: &Entry) -> bool
    ensures { result ≡ owns ticket.now entry.now }
{
    match entry {
        Entry::Issued(other) => other.gid == ticket.gid && other.entity == ticket.entity,
        _ => false,
    }
}

/// Whether the ticket shares its global id with its entity's alone, and keeps it by renewal, by what stands under this key.
pub fn shares_gid(owners: &Index, tickets: &Index, key: &Key, ticket: &Issued) -> bool
    ensures { result ≡ shares_gid (under owners.now key.now) (under tickets.now key.now) ticket.now }
{
    if is_taken(owners, key, ticket) {
        return false;
    }
    if !ticket.service.is(EntityType::Auth) {
        return true;
    }
    !is_given(owners, key, ticket) || is_renewed(tickets, key, ticket)
}

fn is_taken(owners: &Index, key: &Key, ticket: &Issued) -> bool
    ensures { result ≡ list_any (differs ticket.now) (under owners.now key.now) }
{
    match owners.under(key) {
        Some(entries) => some_differs(entries.as_slice(), ticket),
        None => false,
    }
}

fn is_given(owners: &Index, key: &Key, ticket: &Issued) -> bool
    ensures { result ≡ list_any (has_gid ticket.now) (under owners.now key.now) }
{
    match owners.under(key) {
        Some(entries) => some_has_gid(entries.as_slice(), ticket),
        None => false,
    }
}

fn is_renewed(tickets: &Index, key: &Key, ticket: &Issued) -> bool
    ensures { result ≡ list_any (renews ticket.now) (under tickets.now key.now) }
{
    match tickets.under(key) {
        Some(entries) => some_renews(entries.as_slice(), ticket),
        None => false,
    }
}

fn some_differs(entries: &[&Entry], ticket: &Issued) -> bool
    ensures { result ≡ list_any (differs ticket.now) (map (λ e. e.now) entries.now) }
{
    for entry in entries {
        if differs(ticket, entry) {
            return true;
        }
    }
    false
}

fn differs(ticket: &Issued, entry: &Entry) -> bool
    ensures { result ≡ differs ticket.now entry.now }
{
    match entry {
        Entry::Issued(other) => other.gid == ticket.gid && !(other.entity == ticket.entity),
        _ => false,
    }
}

fn some_has_gid(entries: &[&Entry], ticket: &Issued) -> bool
    ensures { result ≡ list_any (has_gid ticket.now) (map (λ e. e.now) entries.now) }
{
    for entry in entries {
        if has_gid(ticket, entry) {
            return true;
        }
    }
    false
}

fn has_gid(ticket: &Issued, entry: &Entry) -> bool
    ensures { result ≡ has_gid ticket.now entry.now }
{
    match entry {
        Entry::Issued(other) => other.gid == ticket.gid,
        _ => false,
    }
}

fn some_renews(entries: &[&Entry], ticket: &Issued) -> bool
    ensures { result ≡ list_any (renews ticket.now) (map (λ e. e.now) entries.now) }
{
    for entry in entries {
        if renews(ticket, entry) {
            return true;
        }
    }
    false
}

fn renews(ticket: &Issued, entry: &Entry) -> bool
    ensures { result ≡ renews ticket.now entry.now }
{
    match entry {
        Entry::Issued(old) => {
            old.service.is(EntityType::Auth)
                && old.entity == ticket.entity
                && old.gid == ticket.gid
                && ticket.created < old.expires
        }
        _ => false,
    }
}

/// Whether one of the entries issued the ticket of this blob for the daemon's service under this generation.
pub fn was_issued(entries: &[&Entry], daemon: &EntityName, generation: u64, blob: &Blob) -> bool
    ensures { result ≡ list_any (is_issued_as daemon.now generation blob.now) (map (λ e. e.now) entries.now) }
{
    for entry in entries {
        if is_issued_as(daemon, generation, blob, entry) {
            return true;
        }
    }
    false
}

fn is_issued_as(daemon: &EntityName, generation: u64, blob: &Blob, entry: &Entry) -> bool
    ensures { result ≡ is_issued_as daemon.now generation blob.now entry.now }
{
    match entry {
        Entry::Issued(t) => {
            t.blob == *blob && t.service.is(daemon.kind) && t.generation == generation
        }
        _ => false,
    }
}

/// Whether there is a look of the daemon's for the link among the entries, and the last such doesn't list the generation.
pub fn lacks_key(entries: &[&Entry], daemon: &EntityName, link: u32, generation: u64) -> bool
    ensures { result ≡ lacks generation (last_such (is_look daemon.now link) (map (λ e. e.now) entries.now)) }
{
    lacks(generation, last_look(entries, daemon, link))
}

#[tactic(auto, using(crate::proofs::ruled::Walks::or_again))]
fn last_look<'a>(entries: &[&'a Entry], daemon: &EntityName, link: u32) -> Option<&'a Entry>
    ensures { option_copied result ≡ last_such (is_look daemon.now link) (map (λ e. e.now) entries.now) }
{
    let mut found = None;
    for entry in entries {
        if is_look(daemon, link, entry) {
            found = Some(*entry);
        }
    }
    found
}

fn is_look(daemon: &EntityName, link: u32, entry: &Entry) -> bool
    ensures { result ≡ is_look daemon.now link entry.now }
{
    match entry {
        Entry::Looked(look) => look.daemon == *daemon && look.link == link,
        _ => false,
    }
}

fn lacks(generation: u64, look: Option<&Entry>) -> bool
    ensures { result ≡ lacks generation (option_copied look.entry) }
{
    match look {
        Some(Entry::Looked(look)) => !has_generation(look.view.generations, generation),
        _ => false,
    }
}

fn has_generation(generations: Generations, id: u64) -> bool
    ensures { result ≡ has_generation generations id }
{
    match generations.all() {
        None => false,
        Some(all) => all[0].id == id || all[1].id == id || all[2].id == id,
    }
}
