//! Lists of services.

ghost use Rattle.std.specs.Prelude.{◌≡◌, ◌<◌, length, IfOk, IfSome, IsTrue};
ghost use Rattle.std.specs.List.{list_any, position_from};
ghost use Rattle.cx_base.specs.Names.{same_kind};
ghost use Rattle.cx_words.specs.Words.{all_services, is_comma, is_service_list, pieces_of, repeats, services_of, services_word};

use crate::named::ticket_service;
use cx_base::{EntityType, Items};
use std::alloc::{AllocError, Global};

/// The services that the word names, in the order written: `mds`, `osd` and `mgr` joined by commas, each at most once.
#[tactic(auto, unfolding(crate::specs::Words::services_of))]
pub fn services(alloc: Global, word: &[u8]) -> Result<Option<Items<EntityType>>, AllocError>
    ensures read { IfOk result (λ found. found ≡ services_of word.now) }
    ensures spelled { IfOk result (λ found. IfSome found (λ kinds. IsTrue (is_service_list kinds) × (word.now ≡ services_word kinds))) }
{
    let Some(kinds) = all_services(alloc, word)? else {
        return Ok(None);
    };
    if repeats(kinds.all()) {
        return Ok(None);
    }
    Ok(Some(kinds))
}

fn all_services(alloc: Global, word: &[u8]) -> Result<Option<Items<EntityType>>, AllocError>
    ensures { IfOk result (λ found. found ≡ all_services (pieces_of word.now)) }
{
    let mut kinds = Items::new(alloc);
    let mut rest = word;
    while let Some(place) = comma(rest) {
        let Some(kind) = ticket_service(&rest[..place]) else {
            return Ok(None);
        };
        kinds.push(alloc, kind)?;
        rest = &rest[place + 1..];
    }
    let Some(kind) = ticket_service(rest) else {
        return Ok(None);
    };
    kinds.push(alloc, kind)?;
    Ok(Some(kinds))
}

fn comma(word: &[u8]) -> Option<usize>
    ensures place { result ≡ position_from is_comma 0 word.now }
    ensures bound { IfSome result (λ place. place < length word.now) }
{
    word.iter().position(|b| *b == b',')
}

fn repeats(kinds: &[EntityType]) -> bool
    ensures { result ≡ repeats kinds.now }
{
    let mut rest = kinds;
    while let [kind, after @ ..] = rest {
        if has(after, *kind) {
            return true;
        }
        rest = after;
    }
    false
}

fn has(kinds: &[EntityType], kind: EntityType) -> bool
    ensures { result ≡ list_any (same_kind kind) kinds.now }
{
    kinds.iter().any(|other| kind.is(*other))
}
