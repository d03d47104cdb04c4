//! Which word of a line is wrong. Lines that are good never come here.

ghost use Rattle.std.specs.Prelude.{◌≡◌, ◌≤◌, map, IfOk};
ghost use Rattle.cx_audit_text.specs.words.Items.{is_good};
ghost use Rattle.cx_audit_text.specs.words.Wrong.{wrong_from};

use crate::choices::{
    admin_outcome_named, entity_type_named, key_kind_named, outcome_named, premise_named,
    verb_named,
};
use crate::numbers::{
    asked, byte, cookie, ids, is_full, is_full_book, next_ticket, printed_reading, refused_ticket,
    short,
};
use crate::texts::{data, node};
use crate::words_places::{CountedAbove, JournalPlace};
use crate::words_reasons::reason_named;
use cx_words::{access, caps, name, number, part};
use std::alloc::{AllocError, Global};

/// The first word of a line, from the left, that its place doesn't take. Words are counted from 1.
#[derive(Clone, Copy, Debug, PartialEq, Eq)]
pub enum WrongWord {
    /// The first word begins no line.
    UnknownWord,
    /// The word of this number isn't good at this place.
    Unfit(usize, JournalPlace),
    /// The line ends before the word of this number, at this place.
    Missing(usize, JournalPlace),
    /// From the word of this number on there are too many.
    Extra(usize),
}

/// The first of these words that is wrong at these places; none where all are good. The first has this number.
#[tactic(auto, using(crate::proofs::words::Steps::wrong_step))]
pub fn wrong_word(
    alloc: Global,
    counted: CountedAbove,
    number: usize,
    places: &[JournalPlace],
    words: &[&[u8]],
) -> Result<Option<WrongWord>, AllocError>
    requires { number ≤ 2 }
    ensures { IfOk result (λ found. found ≡ wrong_from counted number places.now (map (λ w. w.now) words.now)) }
{
    let shared = places.len().min(words.len());
    for i in 0..shared {
        if !is_good(alloc, counted, places[i], words[i])? {
            return Ok(Some(WrongWord::Unfit(number + i, places[i])));
        }
    }
    if shared < places.len() {
        return Ok(Some(WrongWord::Missing(number + shared, places[shared])));
    }
    if shared < words.len() {
        return Ok(Some(WrongWord::Extra(number + shared)));
    }
    Ok(None)
}

/// Whether the word is good at its place.
fn is_good(
    alloc: Global,
    counted: CountedAbove,
    place: JournalPlace,
    word: &[u8],
) -> Result<bool, AllocError>
    ensures { IfOk result (λ good. good ≡ is_good counted place word.now) }
{
    match place {
        JournalPlace::Number => Ok(number(word).is_some()),
        JournalPlace::Short => Ok(short(word).is_some()),
        JournalPlace::Byte => Ok(byte(word).is_some()),
        JournalPlace::Next => Ok(next_ticket(alloc, counted, word)?.is_some()),
        JournalPlace::Reading => Ok(printed_reading(alloc, word)?.is_some()),
        JournalPlace::Asked => Ok(asked(alloc, word)?.is_some()),
        JournalPlace::Entity => Ok(name(alloc, word)?.is_some()),
        JournalPlace::Node => Ok(node(alloc, word)?.is_some()),
        JournalPlace::Type => Ok(entity_type_named(word).is_some()),
        JournalPlace::Caps => Ok(caps(alloc, word)?.is_some()),
        JournalPlace::Ids => Ok(ids(alloc, word)?.is_some()),
        JournalPlace::Cookie => Ok(cookie(counted, word).is_some()),
        JournalPlace::Access => Ok(access(word).is_some()),
        JournalPlace::Part => Ok(part(alloc, word)?.is_some()),
        JournalPlace::Data => Ok(data(alloc, word)?.is_some()),
        JournalPlace::Outcome => Ok(outcome_named(word).is_some()),
        JournalPlace::Premise => Ok(premise_named(word).is_some()),
        JournalPlace::KeyKind => Ok(key_kind_named(word).is_some()),
        JournalPlace::Reason => Ok(reason_named(word).is_some()),
        JournalPlace::Full => Ok(is_full(word)),
        JournalPlace::FullBook => Ok(is_full_book(word)),
        JournalPlace::Ticket => Ok(refused_ticket(alloc, counted, word)?.is_some()),
        JournalPlace::Verb => Ok(verb_named(word).is_some()),
        JournalPlace::AdminOutcome => Ok(admin_outcome_named(word).is_some()),
    }
}
