//! Head lines, which stand before all others.

ghost use Rattle.std.specs.Prelude.{◌≡◌, ◌∷◌, [], map, IfOk, IfSome};
ghost use Rattle.cx_words.specs.declared.known.Known.{Known};
ghost use Rattle.cx_lines.specs.Settings.{setting_form, setting_form_of, setting_places, setting_word, IsSetting};
ghost use Rattle.cx_lines.specs.declared.settings.SettingForm.{SettingForm};

use crate::entity::{entity_of, entity_places};
use cx_base::{Duplicate, EntityName, Grant, Items, NodeName, copy_items};
use cx_words::{
    Known, Modes, WordPlace, is_word, life, modes_named, number, unleaked, unmoded, unseeded,
};
use std::alloc::{AllocError, Global};

/// A head line.
#[derive(PartialEq, Eq, Drop)]
pub enum Setting {
    /// The life of service secrets and tickets, 1 to 31,536,000 seconds.
    Lifetime(u64),
    /// The life of the monitor's own secrets and tickets, 1 to 31,536,000 seconds.
    AuthLifetime(u64),
    /// An entity and its caps, each for another service.
    Entity(EntityName, Items<Grant>),
    /// The seed of a node's draws.
    Seed(NodeName, u64),
    /// The modes that a client offers.
    Modes(EntityName, Modes),
    /// A client whose secret is known to whoever wrote the schedule.
    Leak(EntityName),
}

/// The form of a head line, told by its first word.
#[derive(Clone, Copy, Debug, PartialEq, Eq)]
pub enum SettingForm {
    Lifetime,
    AuthLifetime,
    Entity,
    Seed,
    Modes,
    Leak,
}

/// The form of a head line that begins with the word.
#[tactic(auto, unfolding(crate::specs::Settings::setting_form_of))]
pub fn setting_named(word: &[u8]) -> Option<SettingForm>
    ensures read { result ≡ setting_form_of word.now }
    ensures spelled { IfSome result (λ form. word.now ≡ setting_word form) }
{
    if is_word(word, "lifetime") {
        return Some(SettingForm::Lifetime);
    }
    if is_word(word, "auth-lifetime") {
        return Some(SettingForm::AuthLifetime);
    }
    if is_word(word, "entity") {
        return Some(SettingForm::Entity);
    }
    if is_word(word, "seed") {
        return Some(SettingForm::Seed);
    }
    if is_word(word, "modes") {
        return Some(SettingForm::Modes);
    }
    if is_word(word, "leak") {
        return Some(SettingForm::Leak);
    }
    None
}

impl Setting {
    /// The form of the line.
    pub fn form(&self) -> SettingForm
        ensures { result ≡ setting_form self.now }
    {
        match self {
            Setting::Lifetime(_) => SettingForm::Lifetime,
            Setting::AuthLifetime(_) => SettingForm::AuthLifetime,
            Setting::Entity(_, _) => SettingForm::Entity,
            Setting::Seed(_, _) => SettingForm::Seed,
            Setting::Modes(_, _) => SettingForm::Modes,
            Setting::Leak(_) => SettingForm::Leak,
        }
    }
}

/// The places behind the first word, where these words stand there.
pub fn setting_places(
    alloc: Global,
    form: SettingForm,
    words: &[&[u8]],
) -> Result<Vec<WordPlace>, AllocError>
    ensures { IfOk result (λ found. found.items ≡ setting_places form (map (λ w. w.now) words.now)) }
{
    match form {
        SettingForm::Lifetime => Vec::from_slice(alloc, &[WordPlace::Life]),
        SettingForm::AuthLifetime => Vec::from_slice(alloc, &[WordPlace::Life]),
        SettingForm::Entity => entity_places(alloc, words),
        SettingForm::Seed => Vec::from_slice(alloc, &[WordPlace::Unseeded, WordPlace::Number]),
        SettingForm::Modes => Vec::from_slice(alloc, &[WordPlace::Unmoded, WordPlace::Modes]),
        SettingForm::Leak => Vec::from_slice(alloc, &[WordPlace::Unleaked]),
    }
}

/// The head line that these words behind a first word of this form spell; none where one of them isn't good at its place.
pub fn setting_of(
    alloc: Global,
    known: &Known,
    form: SettingForm,
    words: &[&[u8]],
) -> Result<Option<Setting>, AllocError>
    ensures { IfOk result (IsSetting known.now form (map (λ w. w.now) words.now)) }
{
    match form {
        SettingForm::Lifetime => Ok(lifetime_of(words)),
        SettingForm::AuthLifetime => Ok(auth_lifetime_of(words)),
        SettingForm::Entity => entity_of(alloc, known, words),
        SettingForm::Seed => seed_of(alloc, known, words),
        SettingForm::Modes => modes_of(alloc, known, words),
        SettingForm::Leak => leak_of(alloc, known, words),
    }
}

fn lifetime_of(words: &[&[u8]]) -> Option<Setting>
    ensures { (known : Known) → IsSetting known SettingForm.Lifetime (map (λ w. w.now) words.now) result }
{
    let [word] = words else {
        return None;
    };
    Some(Setting::Lifetime(life(word)?))
}

fn auth_lifetime_of(words: &[&[u8]]) -> Option<Setting>
    ensures { (known : Known) → IsSetting known SettingForm.AuthLifetime (map (λ w. w.now) words.now) result }
{
    let [word] = words else {
        return None;
    };
    Some(Setting::AuthLifetime(life(word)?))
}

fn seed_of(alloc: Global, known: &Known, words: &[&[u8]]) -> Result<Option<Setting>, AllocError>
    ensures { IfOk result (IsSetting known.now SettingForm.Seed (map (λ w. w.now) words.now)) }
{
    let [word, seed] = words else {
        return Ok(None);
    };
    let Some(node) = unseeded(alloc, known, word)? else {
        return Ok(None);
    };
    let Some(seed) = number(seed) else {
        return Ok(None);
    };
    Ok(Some(Setting::Seed(node, seed)))
}

fn modes_of(alloc: Global, known: &Known, words: &[&[u8]]) -> Result<Option<Setting>, AllocError>
    ensures { IfOk result (IsSetting known.now SettingForm.Modes (map (λ w. w.now) words.now)) }
{
    let [word, list] = words else {
        return Ok(None);
    };
    let Some(client) = unmoded(alloc, known, word)? else {
        return Ok(None);
    };
    let Some(modes) = modes_named(list) else {
        return Ok(None);
    };
    Ok(Some(Setting::Modes(client, modes)))
}

fn leak_of(alloc: Global, known: &Known, words: &[&[u8]]) -> Result<Option<Setting>, AllocError>
    ensures { IfOk result (IsSetting known.now SettingForm.Leak (map (λ w. w.now) words.now)) }
{
    let [word] = words else {
        return Ok(None);
    };
    let Some(client) = unleaked(alloc, known, word)? else {
        return Ok(None);
    };
    Ok(Some(Setting::Leak(client)))
}

impl Duplicate for Setting {
    fn copy(&self, alloc: Global) -> Result<Setting, AllocError> {
        match self {
            Setting::Lifetime(seconds) => Ok(Setting::Lifetime(*seconds)),
            Setting::AuthLifetime(seconds) => Ok(Setting::AuthLifetime(*seconds)),
            Setting::Entity(name, grants) => {
                let name = name.copy(alloc)?;
                let grants = copy_items(alloc, grants)?;
                Ok(Setting::Entity(name, grants))
            }
            Setting::Seed(node, seed) => {
                let node = node.copy(alloc)?;
                Ok(Setting::Seed(node, *seed))
            }
            Setting::Modes(client, modes) => {
                let client = client.copy(alloc)?;
                Ok(Setting::Modes(client, *modes))
            }
            Setting::Leak(client) => {
                let client = client.copy(alloc)?;
                Ok(Setting::Leak(client))
            }
        }
    }
}
