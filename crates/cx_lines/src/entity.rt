//! The form of entity lines.

ghost use Rattle.std.specs.Prelude.{◌≡◌, ◌∷◌, [], ◌++◌, ◌&&◌, map, is_some, length, IfOk, IfSome};
ghost use Rattle.cx_words.specs.lines.Known.{nothing};
ghost use Rattle.cx_words.specs.lines.Places.{is_good};
ghost use Rattle.cx_words.specs.lines.Values.{CapsOf, ServiceOf, SpellsItem};
ghost use Rattle.cx_words.specs.declared.places.WordPlace.{WordPlace};
ghost use Rattle.cx_lines.specs.Settings.{entity_places, pair_places, IsSetting};
ghost use Rattle.cx_lines.specs.declared.settings.SettingForm.{SettingForm};

use crate::settings::Setting;
use cx_base::{Grant, Items};
use cx_words::{Known, WordPlace, caps, new_entity, new_service};
use std::alloc::{AllocError, Global};

/// The places behind `entity`, where these words stand there.
pub fn entity_places(alloc: Global, words: &[&[u8]]) -> Result<Vec<WordPlace>, AllocError>
    ensures { IfOk result (λ found. found.items ≡ entity_places (map (λ w. w.now) words.now)) }
{
    let mut found = Vec::from_slice(alloc, &[WordPlace::Entity])?;
    let [_, pairs @ ..] = words else {
        return Ok(found);
    };
    let mut rest = pairs;
    while let [_, _, after @ ..] = rest {
        found.push(WordPlace::Service)?;
        found.push(WordPlace::Caps)?;
        rest = after;
    }
    if rest.is_empty() {
        return Ok(found);
    }
    found.push(WordPlace::Service)?;
    found.push(WordPlace::Caps)?;
    Ok(found)
}

/// The head line that these words behind `entity` spell.
pub fn entity_of(
    alloc: Global,
    known: &Known,
    words: &[&[u8]],
) -> Result<Option<Setting>, AllocError>
    ensures { IfOk result (IsSetting known.now SettingForm.Entity (map (λ w. w.now) words.now)) }
{
    if words.is_empty() {
        return Ok(None);
    }
    let Some(name) = new_entity(alloc, known, words[0])? else {
        return Ok(None);
    };
    let mut grants = Items::new(alloc);
    let mut at = 1;
    'pairs: while at + 1 < words.len() {
        let Some(grant) = grant_of(alloc, &words[..at], words[at], words[at + 1])? else {
            return Ok(None);
        };
        grants.push(alloc, grant)?;
        at += 2;
    }
    if at < words.len() {
        return Ok(None);
    }
    Ok(Some(Setting::Entity(name, grants)))
}

/// The service and its caps that two words spell behind the words before them.
fn grant_of(
    alloc: Global,
    before: &[&[u8]],
    first: &[u8],
    second: &[u8],
) -> Result<Option<Grant>, AllocError>
    ensures read { IfOk result (λ found. is_some found ≡ (is_good nothing (map (λ w. w.now) before.now) WordPlace.Service first.now && is_good nothing [] WordPlace.Caps second.now)) }
    ensures spelled { IfOk result (λ found. IfSome found (λ grant. SpellsItem nothing (map (λ w. w.now) before.now) (ServiceOf grant.service) first.now × SpellsItem nothing [] (CapsOf grant.caps) second.now)) }
{
    let Some(service) = new_service(before, first) else {
        return Ok(None);
    };
    let Some(caps) = caps(alloc, second)? else {
        return Ok(None);
    };
    Ok(Some(Grant { service, caps }))
}
