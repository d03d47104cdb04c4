//! Which word is wrong at its place, and why. Words that are good never come here.

ghost use Rattle.std.specs.Prelude.{◌≡◌, ◌∷◌, [], length, map, IfOk, None, option_map};
ghost use Rattle.cx_words.specs.lines.Faults.{extra, fault_among, fault_at, first_with, is_fault, missing, same_fault};
ghost use Rattle.cx_words.specs.lines.Places.{known_fault, name_fault, never, node_of, service_fault, unless, word_fault};
ghost use Rattle.cx_words.specs.lines.Known.{is_client, is_daemon, is_declarable, is_node, is_seeded, nothing};
ghost use Rattle.cx_words.specs.lines.Named.{is_among};
ghost use Rattle.cx_words.specs.declared.faults.LineFault.{LineFault};
ghost use Rattle.cx_words.specs.declared.places.WordPlace.{WordPlace};

use crate::choices::{command_named, modes_named, side_named, state_named};
use crate::faults::{FaultAt, LineFault};
use crate::known::Known;
use crate::places::WordPlace;
use crate::values::{is_declarable, is_lossy, life, named_node, operation_data, stands};
use crate::{access, caps, hex, name, number, part, reading, service, services};
use std::alloc::{AllocError, Global};

/// The first fault of these words at these places, and the word that has it. `spent` says that a line of their form may stand
/// once and stands already, `late` that none may stand any more.
pub fn first_fault(
    alloc: Global,
    known: &Known,
    spent: bool,
    late: bool,
    places: &[WordPlace],
    words: &[&[u8]],
) -> Result<Option<FaultAt>, AllocError>
    ensures { IfOk result (λ found. found ≡ fault_among known.now spent late places.now (map (λ w. w.now) words.now)) }
{
    if words.len() < places.len() {
        return Ok(Some(fault_at(LineFault::Missing, places.len() + 1)));
    }
    if places.len() < words.len() {
        return Ok(Some(fault_at(LineFault::Extra, places.len() + 2)));
    }
    if let Some(word) = first_with(alloc, known, LineFault::BadNumber, places, words)? {
        return Ok(Some(fault_at(LineFault::BadNumber, word)));
    }
    if let Some(word) = first_with(alloc, known, LineFault::BadName, places, words)? {
        return Ok(Some(fault_at(LineFault::BadName, word)));
    }
    if let Some(word) = first_with(alloc, known, LineFault::BadText, places, words)? {
        return Ok(Some(fault_at(LineFault::BadText, word)));
    }
    if let Some(word) = first_with(alloc, known, LineFault::UnknownNode, places, words)? {
        return Ok(Some(fault_at(LineFault::UnknownNode, word)));
    }
    if spent {
        return Ok(Some(fault_at(LineFault::Repeated, 1)));
    }
    if let Some(word) = first_with(alloc, known, LineFault::Repeated, places, words)? {
        return Ok(Some(fault_at(LineFault::Repeated, word)));
    }
    if late {
        return Ok(Some(fault_at(LineFault::Order, 1)));
    }
    Ok(None)
}

fn fault_at(why: LineFault, word: usize) -> FaultAt
    ensures { result ≡ fault_at why word }
{
    FaultAt { why, word }
}

/// The number of the first word that has this fault at its place.
fn first_with(
    alloc: Global,
    known: &Known,
    why: LineFault,
    places: &[WordPlace],
    words: &[&[u8]],
) -> Result<Option<usize>, AllocError>
    requires { length places.now ≡ length words.now }
    ensures { IfOk result (λ found. found ≡ first_with known.now why [] places.now (map (λ w. w.now) words.now)) }
{
    for i in 0..words.len() {
        if has(alloc, known, why, &words[..i], places[i], words[i])? {
            return Ok(Some(i + 2));
        }
    }
    Ok(None)
}

/// Whether this is the fault of the word at its place, behind the words before it in its line.
fn has(
    alloc: Global,
    known: &Known,
    why: LineFault,
    before: &[&[u8]],
    place: WordPlace,
    word: &[u8],
) -> Result<bool, AllocError>
    ensures { IfOk result (λ has. has ≡ is_fault why (word_fault known.now (map (λ w. w.now) before.now) place word.now)) }
{
    match place {
        WordPlace::Life => Ok(bad_number(why, life(word).is_some())),
        WordPlace::Reading => Ok(bad_number(why, reading(word).is_some())),
        WordPlace::Number => Ok(bad_number(why, number(word).is_some())),
        WordPlace::Entity => entity_has(alloc, known, why, word),
        WordPlace::Service => Ok(service_has(why, before, word)),
        WordPlace::Caps => Ok(bad_text(why, caps(alloc, word)?.is_some())),
        WordPlace::Client => client_has(alloc, known, why, word),
        WordPlace::Unmoded => unmoded_has(alloc, known, why, word),
        WordPlace::Unleaked => unleaked_has(alloc, known, why, word),
        WordPlace::Daemon => daemon_has(alloc, known, why, word),
        WordPlace::Node => node_has(alloc, known, why, word),
        WordPlace::Unseeded => unseeded_has(alloc, known, why, word),
        WordPlace::Services => Ok(bad_text(why, services(alloc, word)?.is_some())),
        WordPlace::Access => Ok(bad_text(why, access(word).is_some())),
        WordPlace::Part => Ok(bad_text(why, part(alloc, word)?.is_some())),
        WordPlace::Data => Ok(bad_text(why, operation_data(alloc, word)?.is_some())),
        WordPlace::Bytes => Ok(bad_text(why, hex(alloc, word)?.is_some())),
        WordPlace::Modes => Ok(bad_text(why, modes_named(word).is_some())),
        WordPlace::Side => Ok(bad_text(why, side_named(word).is_some())),
        WordPlace::Lossy => Ok(bad_text(why, is_lossy(word))),
        WordPlace::LeftState => Ok(bad_text(why, state_named(word).is_some())),
        WordPlace::Command => Ok(bad_text(why, command_named(word).is_some())),
        WordPlace::Anything => Ok(false),
    }
}

/// Whether this is the fault of a word that is no number or reading of its place unless it is good.
fn bad_number(why: LineFault, good: bool) -> bool
    ensures { result ≡ is_fault why (unless good LineFault.BadNumber) }
{
    !good && same_fault(why, LineFault::BadNumber)
}

/// The same of a word that is no other value of its place.
fn bad_text(why: LineFault, good: bool) -> bool
    ensures { result ≡ is_fault why (unless good LineFault.BadText) }
{
    !good && same_fault(why, LineFault::BadText)
}

/// The same of a name that may be unknown, or stand a second time.
fn known_fails(why: LineFault, known: bool, again: bool) -> bool
    ensures { result ≡ is_fault why (known_fault known again) }
{
    if known {
        again && same_fault(why, LineFault::Repeated)
    } else {
        same_fault(why, LineFault::UnknownNode)
    }
}

fn entity_has(alloc: Global, known: &Known, why: LineFault, word: &[u8]) -> Result<bool, AllocError>
    ensures { IfOk result (λ has. has ≡ is_fault why (word_fault known.now [] WordPlace.Entity word.now)) }
{
    let Some(name) = name(alloc, word)? else {
        return Ok(same_fault(why, LineFault::BadName));
    };
    let again = known.declared.has(alloc, &name)?;
    Ok(known_fails(why, is_declarable(&name), again))
}

fn client_has(alloc: Global, known: &Known, why: LineFault, word: &[u8]) -> Result<bool, AllocError>
    ensures { IfOk result (λ has. has ≡ is_fault why (word_fault known.now [] WordPlace.Client word.now)) }
{
    let Some(name) = name(alloc, word)? else {
        return Ok(same_fault(why, LineFault::BadName));
    };
    let is_known = known.is_client(alloc, &name)?;
    Ok(known_fails(why, is_known, false))
}

fn unmoded_has(
    alloc: Global,
    known: &Known,
    why: LineFault,
    word: &[u8],
) -> Result<bool, AllocError>
    ensures { IfOk result (λ has. has ≡ is_fault why (word_fault known.now [] WordPlace.Unmoded word.now)) }
{
    let Some(name) = name(alloc, word)? else {
        return Ok(same_fault(why, LineFault::BadName));
    };
    let is_known = known.is_client(alloc, &name)?;
    let again = known.moded.has(alloc, &name)?;
    Ok(known_fails(why, is_known, again))
}

fn unleaked_has(
    alloc: Global,
    known: &Known,
    why: LineFault,
    word: &[u8],
) -> Result<bool, AllocError>
    ensures { IfOk result (λ has. has ≡ is_fault why (word_fault known.now [] WordPlace.Unleaked word.now)) }
{
    let Some(name) = name(alloc, word)? else {
        return Ok(same_fault(why, LineFault::BadName));
    };
    let is_known = known.is_client(alloc, &name)?;
    let again = known.leaked.has(alloc, &name)?;
    Ok(known_fails(why, is_known, again))
}

fn daemon_has(alloc: Global, known: &Known, why: LineFault, word: &[u8]) -> Result<bool, AllocError>
    ensures { IfOk result (λ has. has ≡ is_fault why (word_fault known.now [] WordPlace.Daemon word.now)) }
{
    let Some(name) = name(alloc, word)? else {
        return Ok(same_fault(why, LineFault::BadName));
    };
    let is_known = known.is_daemon(alloc, &name)?;
    Ok(known_fails(why, is_known, false))
}

fn node_has(alloc: Global, known: &Known, why: LineFault, word: &[u8]) -> Result<bool, AllocError>
    ensures { IfOk result (λ has. has ≡ is_fault why (word_fault known.now [] WordPlace.Node word.now)) }
{
    let Some(node) = named_node(alloc, word)? else {
        return Ok(same_fault(why, LineFault::BadName));
    };
    let is_known = known.is_node(alloc, &node)?;
    Ok(known_fails(why, is_known, false))
}

fn unseeded_has(
    alloc: Global,
    known: &Known,
    why: LineFault,
    word: &[u8],
) -> Result<bool, AllocError>
    ensures { IfOk result (λ has. has ≡ is_fault why (word_fault known.now [] WordPlace.Unseeded word.now)) }
{
    let Some(node) = named_node(alloc, word)? else {
        return Ok(same_fault(why, LineFault::BadName));
    };
    let is_known = known.is_node(alloc, &node)?;
    let again = known.is_seeded(alloc, &node)?;
    Ok(known_fails(why, is_known, again))
}

/// A long line has few services that may stand, so the words before one are gone through for repeated ones alone.
fn service_has(why: LineFault, before: &[&[u8]], word: &[u8]) -> bool
    ensures { result ≡ is_fault why (word_fault nothing (map (λ w. w.now) before.now) WordPlace.Service word.now) }
{
    match why {
        LineFault::BadText => service(word).is_none(),
        LineFault::Repeated => service(word).is_some() && stands(before, word),
        _ => false,
    }
}

/// Whether two faults are one.
fn same_fault(one: LineFault, other: LineFault) -> bool
    ensures { result ≡ same_fault one other }
{
    match (one, other) {
        (LineFault::UnknownWord, LineFault::UnknownWord) => true,
        (LineFault::Missing, LineFault::Missing) => true,
        (LineFault::Extra, LineFault::Extra) => true,
        (LineFault::BadNumber, LineFault::BadNumber) => true,
        (LineFault::BadName, LineFault::BadName) => true,
        (LineFault::BadText, LineFault::BadText) => true,
        (LineFault::UnknownNode, LineFault::UnknownNode) => true,
        (LineFault::Repeated, LineFault::Repeated) => true,
        (LineFault::Order, LineFault::Order) => true,
        _ => false,
    }
}
