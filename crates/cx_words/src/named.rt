//! Types of entities, their names, and accesses.

ghost use Rattle.std.specs.Prelude.{◌≡◌, false, IfOk, IfSome, IsTrue, None, option_map};
ghost use Rattle.std.specs.List.{position};
ghost use Rattle.cx_base.specs.Names.{access_word, is_daemon_type, is_id, name_text, type_word, with_id};
ghost use Rattle.cx_base.specs.Owners.{is_above_ascii};
ghost use Rattle.cx_words.specs.Words.{access_of, is_service, name_of, service_of, ticket_service_of, type_of};

use crate::cut::is_word;
use crate::numbers::point;
use cx_base::{Access, EntityName, EntityType, Text, TextRefusal};
use std::alloc::{AllocError, Global};

/// The type that the word names.
#[tactic(auto, unfolding(crate::specs::Words::type_of))]
fn type_of(word: &[u8]) -> Option<EntityType>
    ensures { result ≡ type_of word.now }
{
    if is_word(word, "mon") {
        return Some(EntityType::Mon);
    }
    if is_word(word, "mds") {
        return Some(EntityType::Mds);
    }
    if is_word(word, "osd") {
        return Some(EntityType::Osd);
    }
    if is_word(word, "client") {
        return Some(EntityType::Client);
    }
    if is_word(word, "mgr") {
        return Some(EntityType::Mgr);
    }
    if is_word(word, "auth") {
        return Some(EntityType::Auth);
    }
    None
}

/// The service, `mon`, `mds`, `osd` or `mgr`, that the word names: those for which an entity may have caps.
pub fn service(word: &[u8]) -> Option<EntityType>
    ensures read { result ≡ service_of word.now }
    ensures spelled { IfSome result (λ kind. IsTrue (is_service kind) × (word.now ≡ type_word kind)) }
{
    let kind = type_of(word)?;
    if is_service(kind) { Some(kind) } else { None }
}

fn is_service(kind: EntityType) -> bool
    ensures { result ≡ is_service kind }
{
    match kind {
        EntityType::Mon | EntityType::Mds | EntityType::Osd | EntityType::Mgr => true,
        EntityType::Client | EntityType::Auth => false,
    }
}

/// The service, `mds`, `osd` or `mgr`, that the word names: those of which a client may ask tickets.
pub fn ticket_service(word: &[u8]) -> Option<EntityType>
    ensures read { result ≡ ticket_service_of word.now }
    ensures spelled { IfSome result (λ kind. IsTrue (is_daemon_type kind) × (word.now ≡ type_word kind)) }
{
    let kind = type_of(word)?;
    if kind.is_daemon() { Some(kind) } else { None }
}

/// What an operation asks to do, `read`, `write` or `exec`, where the word names it.
#[tactic(auto, unfolding(crate::specs::Words::access_of))]
pub fn access(word: &[u8]) -> Option<Access>
    ensures read { result ≡ access_of word.now }
    ensures spelled { IfSome result (λ access. word.now ≡ access_word access) }
{
    if is_word(word, "read") {
        return Some(Access::Read);
    }
    if is_word(word, "write") {
        return Some(Access::Write);
    }
    if is_word(word, "exec") {
        return Some(Access::Exec);
    }
    None
}

/// The entity's name that the word spells: a type word, a point and an id of 1 to 64 bytes among letters, digits and
/// `_ - . : + /`; a monitor's id may be empty.
pub fn name(alloc: Global, word: &[u8]) -> Result<Option<EntityName>, AllocError>
    ensures read { IfOk result (λ found. found ≡ name_of word.now) }
    ensures spelled { IfOk result (λ found. IfSome found (λ name. IsTrue (is_id name.kind name.id) × (word.now ≡ name_text name))) }
{
    match point(word) {
        Some(place) => with_id(alloc, &word[place + 1..], type_of(&word[..place])),
        None => Ok(None),
    }
}

fn with_id(
    alloc: Global,
    id: &[u8],
    kind: Option<EntityType>,
) -> Result<Option<EntityName>, AllocError>
    ensures { IfOk result (λ found. found ≡ with_id id.now kind) }
{
    let Some(kind) = kind else {
        return Ok(None);
    };
    let id = match Text::of(alloc, id) {
        Ok(id) => id,
        Err(TextRefusal::NotAscii(_)) => return Ok(None),
        Err(TextRefusal::OutOfMemory) => return Err(AllocError),
    };
    match EntityName::new(kind, id) {
        Ok(name) => Ok(Some(name)),
        Err(_) => Ok(None),
    }
}
