//! What is known of the entries before one.

ghost use Rattle.std.specs.Prelude.{◌≡◌, if◌then◌else◌, None, Some, IfOk, OnOk};
ghost use Rattle.std.specs.List.{list_any};
ghost use Rattle.std.specs.Option.{option_copied, option_map};
ghost use Rattle.cx_audit.specs.indexed.Keyed.{Puts, name_key, number_key, under};
ghost use Rattle.cx_audit.specs.ruled.Tests.{AreLeaks, Starts, blob_key, gid_key, handled_key, leak_key, look_key, owner_key, owns, restart_key, rounds, sent_key, turn_key};

use crate::sessions::{session_key, session_of};
use crate::tickets::is_owned;
use crate::{Index, Key};
use cx_base::{EntityName, NodeName};
use cx_journal::{Admitted, Entry, Issued};
use std::alloc::{AllocError, Global};

/// What is known of the entries before one: the clients of the whole journal that leaked; whose the
/// global ids are; the issued tickets by these, and by their blobs and generations; a daemon's looks by their links; what was sent, and what was handled, by clients
/// and cookies; which daemons began anew; and what opened or ended sessions, by daemons, their rounds and numbers.
#[derive(Drop)]
pub struct Known<'a> {
    pub leaks: Index<'a>,
    pub owners: Index<'a>,
    pub tickets: Index<'a>,
    pub blobs: Index<'a>,
    pub looks: Index<'a>,
    pub sent: Index<'a>,
    pub handled: Index<'a>,
    pub restarts: Index<'a>,
    pub turns: Index<'a>,
}

impl<'a> Known<'a> {
    /// No entries, of a journal with these leaks.
    pub fn new(alloc: Global, leaks: Index<'a>) -> Known<'a>
        ensures { Starts leaks.entry result }
    {
        Known {
            leaks,
            owners: Index::new(alloc),
            tickets: Index::new(alloc),
            blobs: Index::new(alloc),
            looks: Index::new(alloc),
            sent: Index::new(alloc),
            handled: Index::new(alloc),
            restarts: Index::new(alloc),
            turns: Index::new(alloc),
        }
    }

    /// The next entry. Where memory is wanting, what is known is of no use any more.
    pub fn note(&mut self, alloc: Global, entry: &'a Entry) -> Result<(), AllocError>
        ensures leaks { OnOk result (self.new.leaks ≡ self.old.leaks) }
        ensures owners { OnOk result (Puts (owner_key self.old entry.now) entry.now self.old.owners self.new.owners) }
        ensures tickets { OnOk result (Puts (gid_key entry.now) entry.now self.old.tickets self.new.tickets) }
        ensures blobs { OnOk result (Puts (blob_key entry.now) entry.now self.old.blobs self.new.blobs) }
        ensures looks { OnOk result (Puts (look_key entry.now) entry.now self.old.looks self.new.looks) }
        ensures sent { OnOk result (Puts (sent_key entry.now) entry.now self.old.sent self.new.sent) }
        ensures handled { OnOk result (Puts (handled_key self.old entry.now) entry.now self.old.handled self.new.handled) }
        ensures restarts { OnOk result (Puts (restart_key entry.now) entry.now self.old.restarts self.new.restarts) }
        ensures turns { OnOk result (Puts (turn_key self.old entry.now) entry.now self.old.turns self.new.turns) }
    {
        let handled = handled_key(alloc, self, entry)?;
        let turn = turn_key(alloc, self, entry)?;
        let owner = owner_key(alloc, self, entry);
        self.handled.put(alloc, handled, entry)?;
        self.owners.put(alloc, owner, entry)?;
        self.turns.put(alloc, turn, entry)?;
        note_gid(&mut self.tickets, alloc, entry)?;
        note_blob(&mut self.blobs, alloc, entry)?;
        note_look(&mut self.looks, alloc, entry)?;
        note_sent(&mut self.sent, alloc, entry)?;
        note_restart(&mut self.restarts, alloc, entry)
    }
}

fn note_gid<'a>(index: &mut Index<'a>, alloc: Global, entry: &'a Entry) -> Result<(), AllocError>
    ensures { OnOk result (Puts (gid_key entry.now) entry.now index.old index.new) }
{
    let key = gid_key(alloc, entry);
    index.put(alloc, key, entry)
}

fn note_blob<'a>(index: &mut Index<'a>, alloc: Global, entry: &'a Entry) -> Result<(), AllocError>
    ensures { OnOk result (Puts (blob_key entry.now) entry.now index.old index.new) }
{
    let key = blob_key(alloc, entry)?;
    index.put(alloc, key, entry)
}

fn note_look<'a>(index: &mut Index<'a>, alloc: Global, entry: &'a Entry) -> Result<(), AllocError>
    ensures { OnOk result (Puts (look_key entry.now) entry.now index.old index.new) }
{
    let key = look_key(alloc, entry)?;
    index.put(alloc, key, entry)
}

fn note_sent<'a>(index: &mut Index<'a>, alloc: Global, entry: &'a Entry) -> Result<(), AllocError>
    ensures { OnOk result (Puts (sent_key entry.now) entry.now index.old index.new) }
{
    let key = sent_key(alloc, entry)?;
    index.put(alloc, key, entry)
}

fn note_restart<'a>(
    index: &mut Index<'a>,
    alloc: Global,
    entry: &'a Entry,
) -> Result<(), AllocError>
    ensures { OnOk result (Puts (restart_key entry.now) entry.now index.old index.new) }
{
    let key = restart_key(alloc, entry)?;
    index.put(alloc, key, entry)
}

fn note_leak<'a>(index: &mut Index<'a>, alloc: Global, entry: &'a Entry) -> Result<(), AllocError>
    ensures { OnOk result (Puts (leak_key entry.now) entry.now index.old index.new) }
{
    let key = leak_key(alloc, entry)?;
    index.put(alloc, key, entry)
}

/// The entries that say which clients leaked.
pub fn leaked<'a>(alloc: Global, entries: &'a [Entry]) -> Result<Index<'a>, AllocError>
    ensures { IfOk result (AreLeaks entries.now) }
{
    let mut leaks = Index::new(alloc);
    for place in 0..entries.len() {
        note_leak(&mut leaks, alloc, &entries[place])?;
    }
    Ok(leaks)
}

fn gid_key(alloc: Global, entry: &Entry) -> Option<Key>
    ensures { result ≡ gid_key entry.now }
{
    match entry {
        Entry::Issued(t) => Some(Key::of_number(alloc, t.gid)),
        _ => None,
    }
}

fn owner_key(alloc: Global, known: &Known, entry: &Entry) -> Option<Key>
    ensures { result ≡ owner_key known.now entry.now }
{
    match entry {
        Entry::Issued(t) => owner_of(alloc, &known.owners, t),
        _ => None,
    }
}

fn owner_of(alloc: Global, owners: &Index, ticket: &Issued) -> Option<Key>
    ensures { result ≡ (if list_any (owns ticket.now) (under owners.now (number_key ticket.now.gid)) then None else Some (number_key ticket.now.gid)) }
{
    let key = Key::of_number(alloc, ticket.gid);
    if is_owned(owners, &key, ticket) {
        None
    } else {
        Some(key)
    }
}

fn blob_key(alloc: Global, entry: &Entry) -> Result<Option<Key>, AllocError>
    ensures { IfOk result (λ key. key ≡ blob_key entry.now) }
{
    match entry {
        Entry::Issued(t) => {
            let key = Key::of_bytes(alloc, t.blob.bytes(), t.generation)?;
            Ok(Some(key))
        }
        _ => Ok(None),
    }
}

fn look_key(alloc: Global, entry: &Entry) -> Result<Option<Key>, AllocError>
    ensures { IfOk result (λ key. key ≡ look_key entry.now) }
{
    match entry {
        Entry::Looked(look) => {
            let key = Key::of_entity(alloc, &look.daemon, look.link as u64, 0)?;
            Ok(Some(key))
        }
        _ => Ok(None),
    }
}

fn sent_key(alloc: Global, entry: &Entry) -> Result<Option<Key>, AllocError>
    ensures { IfOk result (λ key. key ≡ sent_key entry.now) }
{
    match entry {
        Entry::Sent(s) => {
            let key = Key::of_entity(alloc, &s.client, s.cookie, 0)?;
            Ok(Some(key))
        }
        _ => Ok(None),
    }
}

fn leak_key(alloc: Global, entry: &Entry) -> Result<Option<Key>, AllocError>
    ensures { IfOk result (λ key. key ≡ leak_key entry.now) }
{
    match entry {
        Entry::Leaked(client) => {
            let key = Key::of_entity(alloc, client, 0, 0)?;
            Ok(Some(key))
        }
        _ => Ok(None),
    }
}

fn restart_key(alloc: Global, entry: &Entry) -> Result<Option<Key>, AllocError>
    ensures { IfOk result (λ key. key ≡ restart_key entry.now) }
{
    match entry {
        Entry::Restarted(NodeName::Entity(daemon)) => {
            let key = Key::of_entity(alloc, daemon, 0, 0)?;
            Ok(Some(key))
        }
        _ => Ok(None),
    }
}

fn turn_key(alloc: Global, known: &Known, entry: &Entry) -> Result<Option<Key>, AllocError>
    ensures { IfOk result (λ key. key ≡ turn_key known.now entry.now) }
{
    match entry {
        Entry::Admitted(a) => round_key(alloc, known, &a.daemon, a.session),
        Entry::Resumed(a) => round_key(alloc, known, &a.daemon, a.session),
        Entry::Ended(e) => round_key(alloc, known, &e.daemon, e.session),
        _ => Ok(None),
    }
}

fn round_key(
    alloc: Global,
    known: &Known,
    daemon: &EntityName,
    session: u64,
) -> Result<Option<Key>, AllocError>
    ensures { IfOk result (λ key. key ≡ Some (name_key daemon.now session (rounds known.now daemon.now))) }
{
    let key = session_key(alloc, known, daemon, session)?;
    Ok(Some(key))
}

fn handled_key(alloc: Global, known: &Known, entry: &Entry) -> Result<Option<Key>, AllocError>
    ensures { IfOk result (λ key. key ≡ handled_key known.now entry.now) }
{
    match entry {
        Entry::Handled(h) => {
            let session = session_of(alloc, known, h)?;
            entity_key(alloc, h.cookie, session)
        }
        _ => Ok(None),
    }
}

fn entity_key(
    alloc: Global,
    cookie: u64,
    session: Option<&Admitted>,
) -> Result<Option<Key>, AllocError>
    ensures { IfOk result (λ key. key ≡ option_map (λ s. name_key s.entity cookie 0) (option_copied session.entry)) }
{
    match session {
        Some(session) => {
            let key = Key::of_entity(alloc, &session.entity, cookie, 0)?;
            Ok(Some(key))
        }
        None => Ok(None),
    }
}
