//! Which word of an entity line with too few words doesn't fit at its place, whatever the lines above say.

ghost use Rattle.std.specs.Prelude.{ℕ, ◌≡◌, ◌%◌, ◌==◌, map, IfOk, Some};
ghost use Rattle.cx_help.specs.line.Misfits.{entity_place, is_entity, lacks_words, misfit_from, misfit_of, misfitting, or_bad, shape_fault, told_of};
ghost use Rattle.cx_words.specs.lines.Places.{unless};
ghost use Rattle.cx_words.specs.declared.faults.LineFault.{LineFault};

use cx_lines::{BadWord, Head, SettingForm};
use cx_words::{FaultAt, LineFault, WordPlace, caps, hint_in, name, service, shown_of, word_at};
use std::alloc::{AllocError, Global};

/// What is told of words that have this first fault.
pub(crate) fn told_of(alloc: Global, words: &[&[u8]], bad: &BadWord) -> Result<BadWord, AllocError>
    ensures { IfOk result (λ told. told ≡ told_of (map (λ w. w.now) words.now) bad.now) }
{
    if !lacks_words(bad) {
        return Ok(*bad);
    }
    match misfit_of(alloc, words)? {
        Some(fault) => Ok(misfitting(words, fault)),
        None => Ok(*bad),
    }
}

/// Whether it is an entity line with too few words.
fn lacks_words(bad: &BadWord) -> bool
    ensures { result ≡ lacks_words bad.now }
{
    match bad.fault.why {
        LineFault::Missing => is_entity(bad.form),
        _ => false,
    }
}

fn is_entity(form: Option<Head>) -> bool
    ensures { result ≡ is_entity form }
{
    matches!(form, Some(Head::Setting(SettingForm::Entity)))
}

/// What stands where the words of an entity line have this fault.
fn misfitting(words: &[&[u8]], fault: FaultAt) -> BadWord
    ensures { result ≡ misfitting (map (λ w. w.now) words.now) fault }
{
    let word = word_at(words, fault.word);
    BadWord {
        fault,
        form: Some(Head::Setting(SettingForm::Entity)),
        takes: Some(entity_place(fault.word)),
        shown: shown_of(word),
        hint: hint_in(word, words),
    }
}

/// The first of the words of an entity line that doesn't fit.
fn misfit_of(alloc: Global, words: &[&[u8]]) -> Result<Option<FaultAt>, AllocError>
    ensures { IfOk result (λ found. found ≡ misfit_of (map (λ w. w.now) words.now)) }
{
    match words {
        [] => Ok(None),
        [_, behind @ ..] => misfit_from(alloc, behind),
    }
}

fn misfit_from(alloc: Global, words: &[&[u8]]) -> Result<Option<FaultAt>, AllocError>
    ensures { IfOk result (λ found. found ≡ misfit_from 2 (map (λ w. w.now) words.now)) }
{
    let mut number: usize = 2;
    let mut rest = words;
    while let [word, after @ ..] = rest {
        if let Some(why) = shape_fault(alloc, entity_place(number), word)? {
            return Ok(Some(FaultAt { why, word: number }));
        }
        number += 1;
        rest = after;
    }
    Ok(None)
}

/// The place of the word of this number in an entity line, from 2 on.
fn entity_place(number: usize) -> WordPlace
    ensures { result ≡ entity_place number }
{
    if number == 2 {
        return WordPlace::Entity;
    }
    if number % 2 == 1 {
        WordPlace::Service
    } else {
        WordPlace::Caps
    }
}

/// What is wrong with a word there, whatever the lines above say.
fn shape_fault(
    alloc: Global,
    place: WordPlace,
    word: &[u8],
) -> Result<Option<LineFault>, AllocError>
    ensures { IfOk result (λ found. found ≡ shape_fault place word.now) }
{
    match place {
        WordPlace::Entity => Ok(unless(name(alloc, word)?.is_some(), LineFault::BadName)),
        WordPlace::Service => Ok(unless(service(word).is_some(), LineFault::BadText)),
        _ => Ok(unless(caps(alloc, word)?.is_some(), LineFault::BadText)),
    }
}

fn unless(good: bool, why: LineFault) -> Option<LineFault>
    ensures { result ≡ unless good why }
{
    if good { None } else { Some(why) }
}
