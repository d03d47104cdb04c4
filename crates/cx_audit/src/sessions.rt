//! The sessions in which operations are handled.

ghost use Rattle.std.specs.Prelude.{◌≡◌, if◌then◌else◌, length, map, option_and_then, IfOk, Some, None};
ghost use Rattle.std.specs.Option.{option_copied};
ghost use Rattle.cx_journal.specs.Nodes.{is_node_of};
ghost use Rattle.cx_journal.specs.Sessions.{ends_session, is_opening, is_session_of, is_turn_of, last_such, opened_for};
ghost use Rattle.cx_audit.specs.indexed.Keyed.{name_key, under};
ghost use Rattle.cx_audit.specs.ruled.Tests.{found_session, rounds};

use crate::known::Known;
use crate::{Index, Key};
use cx_base::{EntityName, NodeName};
use cx_journal::{Admitted, Entry, Handled};
use std::alloc::{AllocError, Global};

/// The session in which the operation is handled, behind the entries of which this is known.
pub fn session_of<'a>(
    alloc: Global,
    known: &Known<'a>,
    handled: &Handled,
) -> Result<Option<&'a Admitted>, AllocError>
    ensures { IfOk result (λ session. option_copied session ≡ found_session known.now handled.now) }
{
    let key = session_key(alloc, known, &handled.daemon, handled.session)?;
    Ok(session_under(&known.turns, &key, handled))
}

/// What opens and ends the session of this number of the daemon, since the daemon began anew, stands under this key.
pub fn session_key(
    alloc: Global,
    known: &Known,
    daemon: &EntityName,
    session: u64,
) -> Result<Key, AllocError>
    ensures { IfOk result (λ key. key ≡ name_key daemon.now session (rounds known.now daemon.now)) }
{
    let key = Key::of_entity(alloc, daemon, 0, 0)?;
    let round = count_under(&known.restarts, &key);
    Key::of_entity(alloc, daemon, session, round as u64)
}

/// How many entries stand under the key.
pub fn count_under(index: &Index, key: &Key) -> usize
    ensures { result ≡ length (under index.now key.now) }
{
    match index.under(key) {
        Some(entries) => entries.len(),
        None => 0,
    }
}

fn session_under<'a>(turns: &Index<'a>, key: &Key, handled: &Handled) -> Option<&'a Admitted>
    ensures { option_copied result ≡ option_and_then (opened_for handled.now) (last_such (is_turn_of handled.now) (under turns.now key.now)) }
{
    match turns.under(key) {
        Some(entries) => session_among(entries.as_slice(), handled),
        None => None,
    }
}

fn session_among<'a>(entries: &[&'a Entry], handled: &Handled) -> Option<&'a Admitted>
    ensures { option_copied result ≡ option_and_then (opened_for handled.now) (last_such (is_turn_of handled.now) (map (λ e. e.now) entries.now)) }
{
    match last_turn(entries, handled) {
        Some(entry) => opened_for(handled, entry),
        None => None,
    }
}

#[tactic(auto, using(crate::proofs::ruled::Walks::or_again))]
fn last_turn<'a>(entries: &[&'a Entry], handled: &Handled) -> Option<&'a Entry>
    ensures { option_copied result ≡ last_such (is_turn_of handled.now) (map (λ e. e.now) entries.now) }
{
    let mut found = None;
    for entry in entries {
        if is_turn_of(handled, entry) {
            found = Some(*entry);
        }
    }
    found
}

fn opened_for<'a>(handled: &Handled, entry: &'a Entry) -> Option<&'a Admitted>
    ensures { option_copied result ≡ opened_for handled.now entry.now }
{
    match entry {
        Entry::Admitted(a) => session_if(handled, a),
        Entry::Resumed(a) => session_if(handled, a),
        _ => None,
    }
}

fn session_if<'a>(handled: &Handled, a: &'a Admitted) -> Option<&'a Admitted>
    ensures { option_copied result ≡ (if is_session_of handled.now a.now then Some a.now else None) }
{
    if is_session_of(handled, a) {
        Some(a)
    } else {
        None
    }
}

fn is_turn_of(handled: &Handled, entry: &Entry) -> bool
    ensures { result ≡ is_turn_of handled.now entry.now }
{
    is_opening(handled, entry) || ends_session(&handled.daemon, handled.session, entry)
}

fn is_opening(handled: &Handled, entry: &Entry) -> bool
    ensures { result ≡ is_opening handled.now entry.now }
{
    match entry {
        Entry::Admitted(a) => is_session_of(handled, a),
        Entry::Resumed(a) => is_session_of(handled, a),
        _ => false,
    }
}

fn ends_session(daemon: &EntityName, session: u64, entry: &Entry) -> bool
    ensures { result ≡ ends_session daemon.now session entry.now }
{
    match entry {
        Entry::Resumed(a) => a.daemon == *daemon && a.session == session,
        Entry::Ended(e) => e.daemon == *daemon && e.session == session,
        Entry::Restarted(at) => is_node_of(daemon, at),
        _ => false,
    }
}

fn is_node_of(daemon: &EntityName, at: &NodeName) -> bool
    ensures { result ≡ is_node_of daemon.now at.now }
{
    match at {
        NodeName::Monitor => false,
        NodeName::Entity(other) => *other == *daemon,
    }
}

fn is_session_of(handled: &Handled, a: &Admitted) -> bool
    ensures { result ≡ is_session_of handled.now a.now }
{
    a.cookie == handled.cookie
        && a.daemon == handled.daemon
        && a.session == handled.session
        && a.epoch == handled.epoch
}
