//! The values that words spell at their places. Each is none where the word isn't good there.

ghost use Rattle.std.specs.Prelude.{◌≡◌, true, [], is_some, IfOk, IfSome, map};
ghost use Rattle.std.specs.List.{list_any};
ghost use Rattle.std.specs.Str.{bytes_eq};
ghost use Rattle.cx_base.specs.Nodes.{node_text};
ghost use Rattle.cx_words.specs.lines.Known.{is_declarable, nothing};
ghost use Rattle.cx_words.specs.lines.Places.{is_good, node_of};
ghost use Rattle.cx_words.specs.lines.Values.{ClientOf, DaemonOf, DataOf, EntityOf, LifeOf, LossyWord, NodeOf, ServiceOf, UnleakedOf, UnmodedOf, UnseededOf, SpellsItem, IsWritable};
ghost use Rattle.cx_words.specs.declared.places.WordPlace.{WordPlace};

use crate::known::Known;
use crate::lines_limits::{LONGEST_LIFE, MOST_DATA};
use crate::{hex, is_word, name, number, service};
use cx_base::{Blob, EntityName, EntityType, NodeName};
use std::alloc::{AllocError, Global};

/// The seconds of a lifetime.
pub fn life(word: &[u8]) -> Option<u64>
    ensures read { is_some result ≡ is_good nothing [] WordPlace.Life word.now }
    ensures spelled { IfSome result (λ seconds. SpellsItem nothing [] (LifeOf seconds) word.now) }
{
    let seconds = number(word)?;
    if 1 <= seconds && seconds <= LONGEST_LIFE {
        Some(seconds)
    } else {
        None
    }
}

/// The name that an entity line declares: none that is declared already.
pub fn new_entity(
    alloc: Global,
    known: &Known,
    word: &[u8],
) -> Result<Option<EntityName>, AllocError>
    ensures read { IfOk result (λ found. is_some found ≡ is_good known.now [] WordPlace.Entity word.now) }
    ensures spelled { IfOk result (λ found. IfSome found (λ name. SpellsItem known.now [] (EntityOf name) word.now)) }
{
    let Some(name) = name(alloc, word)? else {
        return Ok(None);
    };
    if !is_declarable(&name) {
        return Ok(None);
    }
    if known.declared.has(alloc, &name)? {
        return Ok(None);
    }
    Ok(Some(name))
}

pub fn is_declarable(name: &EntityName) -> bool
    ensures { result ≡ is_declarable name.now }
{
    name.kind.is(EntityType::Client)
        || name.kind.is(EntityType::Mds)
        || name.kind.is(EntityType::Osd)
        || name.kind.is(EntityType::Mgr)
}

/// A service that isn't among the words before it in its line.
pub fn new_service(before: &[&[u8]], word: &[u8]) -> Option<EntityType>
    ensures read { is_some result ≡ is_good nothing (map (λ w. w.now) before.now) WordPlace.Service word.now }
    ensures spelled { IfSome result (λ kind. SpellsItem nothing (map (λ w. w.now) before.now) (ServiceOf kind) word.now) }
{
    let kind = service(word)?;
    if stands(before, word) {
        None
    } else {
        Some(kind)
    }
}

/// Whether the word is one of these.
pub fn stands(before: &[&[u8]], word: &[u8]) -> bool
    ensures { result ≡ list_any (bytes_eq word.now) (map (λ w. w.now) before.now) }
{
    any_is(before, word)
}

fn any_is(words: &[&[u8]], word: &[u8]) -> bool
    ensures { result ≡ list_any (λ other. bytes_eq word.now other.now) words.now }
{
    words.iter().any(|other| word == *other)
}

/// The name of a declared client.
pub fn client(alloc: Global, known: &Known, word: &[u8]) -> Result<Option<EntityName>, AllocError>
    ensures read { IfOk result (λ found. is_some found ≡ is_good known.now [] WordPlace.Client word.now) }
    ensures spelled { IfOk result (λ found. IfSome found (λ name. SpellsItem known.now [] (ClientOf name) word.now)) }
{
    let Some(name) = name(alloc, word)? else {
        return Ok(None);
    };
    if known.is_client(alloc, &name)? {
        Ok(Some(name))
    } else {
        Ok(None)
    }
}

/// The name of a declared client whose modes aren't given.
pub fn unmoded(alloc: Global, known: &Known, word: &[u8]) -> Result<Option<EntityName>, AllocError>
    ensures read { IfOk result (λ found. is_some found ≡ is_good known.now [] WordPlace.Unmoded word.now) }
    ensures spelled { IfOk result (λ found. IfSome found (λ name. SpellsItem known.now [] (UnmodedOf name) word.now)) }
{
    let Some(name) = name(alloc, word)? else {
        return Ok(None);
    };
    if !known.is_client(alloc, &name)? {
        return Ok(None);
    }
    if known.moded.has(alloc, &name)? {
        return Ok(None);
    }
    Ok(Some(name))
}

/// The name of a declared client that isn't leaked.
pub fn unleaked(alloc: Global, known: &Known, word: &[u8]) -> Result<Option<EntityName>, AllocError>
    ensures read { IfOk result (λ found. is_some found ≡ is_good known.now [] WordPlace.Unleaked word.now) }
    ensures spelled { IfOk result (λ found. IfSome found (λ name. SpellsItem known.now [] (UnleakedOf name) word.now)) }
{
    let Some(name) = name(alloc, word)? else {
        return Ok(None);
    };
    if !known.is_client(alloc, &name)? {
        return Ok(None);
    }
    if known.leaked.has(alloc, &name)? {
        return Ok(None);
    }
    Ok(Some(name))
}

/// The name of a declared daemon.
pub fn daemon(alloc: Global, known: &Known, word: &[u8]) -> Result<Option<EntityName>, AllocError>
    ensures read { IfOk result (λ found. is_some found ≡ is_good known.now [] WordPlace.Daemon word.now) }
    ensures spelled { IfOk result (λ found. IfSome found (λ name. SpellsItem known.now [] (DaemonOf name) word.now)) }
{
    let Some(name) = name(alloc, word)? else {
        return Ok(None);
    };
    if known.is_daemon(alloc, &name)? {
        Ok(Some(name))
    } else {
        Ok(None)
    }
}

/// The node that the word names, whether it is known or not: `mon`, or an entity's name.
pub fn named_node(alloc: Global, word: &[u8]) -> Result<Option<NodeName>, AllocError>
    ensures read { IfOk result (λ found. found ≡ node_of word.now) }
    ensures spelled { IfOk result (λ found. IfSome found (λ node. IsWritable node × (word.now ≡ node_text node))) }
{
    if is_word(word, "mon") {
        return Ok(Some(NodeName::Monitor));
    }
    let Some(name) = name(alloc, word)? else {
        return Ok(None);
    };
    Ok(Some(NodeName::Entity(name)))
}

/// The monitor, or a declared entity.
pub fn known_node(alloc: Global, known: &Known, word: &[u8]) -> Result<Option<NodeName>, AllocError>
    ensures read { IfOk result (λ found. is_some found ≡ is_good known.now [] WordPlace.Node word.now) }
    ensures spelled { IfOk result (λ found. IfSome found (λ node. SpellsItem known.now [] (NodeOf node) word.now)) }
{
    let Some(node) = named_node(alloc, word)? else {
        return Ok(None);
    };
    if known.is_node(alloc, &node)? {
        Ok(Some(node))
    } else {
        Ok(None)
    }
}

/// The same, where it has no seed.
pub fn unseeded(alloc: Global, known: &Known, word: &[u8]) -> Result<Option<NodeName>, AllocError>
    ensures read { IfOk result (λ found. is_some found ≡ is_good known.now [] WordPlace.Unseeded word.now) }
    ensures spelled { IfOk result (λ found. IfSome found (λ node. SpellsItem known.now [] (UnseededOf node) word.now)) }
{
    let Some(node) = named_node(alloc, word)? else {
        return Ok(None);
    };
    if !known.is_node(alloc, &node)? {
        return Ok(None);
    }
    if known.is_seeded(alloc, &node)? {
        return Ok(None);
    }
    Ok(Some(node))
}

/// Whether the word is `lossy`.
pub fn is_lossy(word: &[u8]) -> bool
    ensures read { result ≡ is_good nothing [] WordPlace.Lossy word.now }
    ensures spelled { result ≡ true → SpellsItem nothing [] LossyWord word.now }
{
    is_word(word, "lossy")
}

/// The data of an operation.
pub fn operation_data(alloc: Global, word: &[u8]) -> Result<Option<Blob>, AllocError>
    ensures read { IfOk result (λ found. is_some found ≡ is_good nothing [] WordPlace.Data word.now) }
    ensures spelled { IfOk result (λ found. IfSome found (λ bytes. SpellsItem nothing [] (DataOf bytes) word.now)) }
{
    let Some(bytes) = hex(alloc, word)? else {
        return Ok(None);
    };
    if bytes.bytes().len() > MOST_DATA {
        return Ok(None);
    }
    Ok(Some(bytes))
}
