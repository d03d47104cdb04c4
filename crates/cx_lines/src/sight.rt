//! What stands where a line is wrong, as a sentence needs it.

ghost use Rattle.std.specs.Prelude.{◌≡◌, map, IfOk};
ghost use Rattle.cx_lines.specs.Sights.{described, form_in, place_at, takes_at};

use crate::lines::{Head, head_of, places};
use cx_words::{FaultAt, Hint, Shown, WordPlace, hint_in, shown_of, word_at};
use std::alloc::{AllocError, Global};

/// The first fault of a line, where it is, and what stands there.
#[derive(Clone, Copy, Debug, PartialEq, Eq)]
pub struct BadWord {
    pub fault: FaultAt,
    /// The form of the line, if its first word begins one.
    pub form: Option<Head>,
    /// What the place of the word takes, if it has one.
    pub takes: Option<WordPlace>,
    /// The word; where words are missing, the last one of the line.
    pub shown: Shown,
    /// What is to be hinted at in the word, or else in the first word of the line that has such a thing.
    pub hint: Option<Hint>,
}

/// What stands where these words have this fault.
#[tactic(auto, unfolding(crate::specs::Sights::described))]
pub fn described(alloc: Global, words: &[&[u8]], fault: FaultAt) -> Result<BadWord, AllocError>
    ensures { IfOk result (λ bad. bad ≡ described (map (λ w. w.now) words.now) fault) }
{
    let form = form_in(words);
    let takes = takes_at(alloc, form, words, fault.word)?;
    let word = word_at(words, fault.word);
    Ok(BadWord {
        fault,
        form,
        takes,
        shown: shown_of(word),
        hint: hint_in(word, words),
    })
}

/// The form that the first of these words begins.
fn form_in(words: &[&[u8]]) -> Option<Head>
    ensures { result ≡ form_in (map (λ w. w.now) words.now) }
{
    let [first, ..] = words else {
        return None;
    };
    head_of(first)
}

/// What the place of the word of this number takes.
fn takes_at(
    alloc: Global,
    form: Option<Head>,
    words: &[&[u8]],
    number: usize,
) -> Result<Option<WordPlace>, AllocError>
    ensures { IfOk result (λ found. found ≡ takes_at form (map (λ w. w.now) words.now) number) }
{
    let Some(form) = form else {
        return Ok(None);
    };
    let [_, rest @ ..] = words else {
        return Ok(None);
    };
    let places = places(alloc, form, rest)?;
    Ok(place_at(&places, number))
}

/// The place of the word of this number among those behind the first word.
fn place_at(places: &[WordPlace], number: usize) -> Option<WordPlace>
    ensures { result ≡ place_at places.now number }
{
    if number < 2 {
        return None;
    }
    places.get(number - 2).copied()
}
