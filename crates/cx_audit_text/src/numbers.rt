//! Numbers of a journal's lines, readings in their printed form, ids, cookies and tickets.

ghost use Rattle.std.specs.Prelude.{ℕ, ◌≡◌, ◌<◌, ◌≤◌, ◌+◌, ◌==◌, ◌&&◌, ◌++◌, nat_le, true, length, codes, decimal, is_some, IfOk, IfSome, None, Some, option_and_then, string_bytes};
ghost use Rattle.std.specs.List.{position_from};
ghost use Rattle.std.specs.Option.{option_copied};
ghost use Rattle.std.specs.Str.{bytes_eq};
ghost use Rattle.cx_base.specs.Joined.{◌<>◌};
ghost use Rattle.cx_words.specs.Words.{is_comma, is_point, number_of};
ghost use Rattle.cx_words.specs.lines.Places.{passes};
ghost use Rattle.cx_journal.specs.Words.{asked_text, ids_text, reading_text};
ghost use Rattle.cx_audit_text.specs.words.Items.{AreTold, IsAsked};
ghost use Rattle.cx_audit_text.specs.words.Readings.{asked_of, behind, byte_of, cookie_of, ids_at, ids_of, instant_at, printed_reading_of, short_of, three_from, three_of, ticket_of, told_by_id, whole_instant, with_digits, with_part};

use crate::words_places::CountedAbove;
use cx_base::{Blob, Reading, SECOND};
use cx_rotate::{Generation, Generations};
use cx_words::{is_word, number, reading};
use std::alloc::{AllocError, Global};

/// An instant stays below so many seconds.
const SECONDS: u64 = 18_446_744_073;

/// The number below 2^32 that the word spells.
#[tactic(auto, using(crate::proofs::words::Bounds::short_spelled))]
pub fn short(word: &[u8]) -> Option<u32>
    ensures read { result ≡ short_of word.now }
    ensures spelled { IfSome result (λ n. (n < 4294967296) × (word.now ≡ decimal n)) }
{
    short_of(word)
}

#[tactic(auto, unfolding(crate::specs::words::Readings::short_of))]
fn short_of(word: &[u8]) -> Option<u32>
    ensures { result ≡ short_of word.now }
{
    let n = number(word)?;
    if n < 4_294_967_296 {
        Some(n as u32)
    } else {
        None
    }
}

/// The number below 256 that the word spells.
#[tactic(auto, using(crate::proofs::words::Bounds::byte_spelled))]
pub fn byte(word: &[u8]) -> Option<u8>
    ensures read { result ≡ byte_of word.now }
    ensures spelled { IfSome result (λ n. (n < 256) × (word.now ≡ decimal n)) }
{
    byte_of(word)
}

#[tactic(auto, unfolding(crate::specs::words::Readings::byte_of))]
fn byte_of(word: &[u8]) -> Option<u8>
    ensures { result ≡ byte_of word.now }
{
    let n = number(word)?;
    if n < 256 { Some(n as u8) } else { None }
}

/// The instant, where the word is its printed form: a reading of a clock, or when something expires, which may be later than
/// any reading.
#[tactic(auto, unfolding(crate::specs::words::Readings::printed_reading_of))]
pub fn printed_reading(alloc: Global, word: &[u8]) -> Result<Option<Reading>, AllocError>
    ensures read { IfOk result (λ found. found ≡ printed_reading_of word.now) }
    ensures spelled { IfOk result (λ found. IfSome found (λ reading. (reading < 18446744073000000000) × (word.now ≡ reading_text reading))) }
{
    let Some(reading) = instant(alloc, word)? else {
        return Ok(None);
    };
    let text = reading_text(alloc, reading)?;
    if is_word(word, text.as_str()) {
        Ok(Some(reading))
    } else {
        Ok(None)
    }
}

fn instant(alloc: Global, word: &[u8]) -> Result<Option<Reading>, AllocError>
    ensures read { IfOk result (λ found. found ≡ instant_at word.now (position_from is_point 0 word.now)) }
    ensures bound { IfOk result (λ found. IfSome found (λ reading. reading < 18446744073000000000)) }
{
    match point(word) {
        Some(place) => {
            let (seconds, rest) = word.split_at(place);
            let (_, digits) = rest.split_at(1);
            with_digits(alloc, digits, number(seconds))
        }
        None => Ok(whole_instant(number(word))),
    }
}

fn point(word: &[u8]) -> Option<usize>
    ensures place { result ≡ position_from is_point 0 word.now }
    ensures bound { IfSome result (λ place. place < length word.now) }
{
    word.iter().position(|b| *b == b'.')
}

fn whole_instant(seconds: Option<u64>) -> Option<Reading>
    ensures read { result ≡ option_and_then whole_instant seconds }
    ensures bound { IfSome result (λ reading. reading < 18446744073000000000) }
{
    let seconds = seconds?;
    if seconds < SECONDS {
        Some(seconds * SECOND)
    } else {
        None
    }
}

fn with_digits(
    alloc: Global,
    digits: &[u8],
    seconds: Option<u64>,
) -> Result<Option<Reading>, AllocError>
    ensures read { IfOk result (λ found. found ≡ with_digits digits.now seconds) }
    ensures bound { IfOk result (λ found. IfSome found (λ reading. reading < 18446744073000000000)) }
{
    let Some(seconds) = seconds else {
        return Ok(None);
    };
    let mut part = Vec::from_slice(alloc, b"0.")?;
    part.extend_from_slice(digits)?;
    match reading(part.as_slice()) {
        Some(part) => Ok(with_part(seconds, part)),
        None => Ok(None),
    }
}

fn with_part(seconds: u64, part: Reading) -> Option<Reading>
    ensures read { result ≡ with_part seconds part }
    ensures bound { IfSome result (λ reading. reading < 18446744073000000000) }
{
    if seconds < SECONDS && part < SECOND {
        Some(seconds * SECOND + part)
    } else {
        None
    }
}

#[tactic(auto, using(cx_journal::proofs::Digits::nine))]
fn reading_text(alloc: Global, reading: Reading) -> Result<String, AllocError>
    ensures { IfOk result (λ text. string_bytes text ≡ reading_text reading) }
{
    let nanoseconds = reading % SECOND;
    if nanoseconds == 0 {
        format!(in alloc; "{}", reading / SECOND)
    } else {
        format!(in alloc; "{}.{:09}", reading / SECOND, nanoseconds)
    }
}

/// The reading at which a view was asked for, `-` where none was.
#[tactic(auto, unfolding(crate::specs::words::Readings::asked_of))]
pub fn asked(alloc: Global, word: &[u8]) -> Result<Option<Option<Reading>>, AllocError>
    ensures read { IfOk result (λ found. found ≡ asked_of word.now) }
    ensures spelled { IfOk result (λ found. IfSome found (λ asked. IsAsked asked × (word.now ≡ asked_text asked))) }
{
    if is_word(word, "-") {
        return Ok(Some(None));
    }
    match printed_reading(alloc, word)? {
        Some(reading) => Ok(Some(Some(reading))),
        None => Ok(None),
    }
}

/// Generations of which the ids alone are told, `-` for none.
#[tactic(auto, unfolding(crate::specs::words::Readings::ids_of))]
pub fn ids(alloc: Global, word: &[u8]) -> Result<Option<Generations>, AllocError>
    ensures read { IfOk result (λ found. found ≡ ids_of word.now) }
    ensures spelled { IfOk result (λ found. IfSome found (λ generations. AreTold generations × (word.now ≡ ids_text generations))) }
{
    if is_word(word, "-") {
        return Ok(Some(Generations::empty()));
    }
    match comma(word) {
        Some(place) => three_of(alloc, word, number(&word[..place])),
        None => Ok(None),
    }
}

fn comma(word: &[u8]) -> Option<usize>
    ensures place { result ≡ position_from is_comma 0 word.now }
    ensures bound { IfSome result (λ place. place < length word.now) }
{
    word.iter().position(|b| *b == b',')
}

fn three_of(
    alloc: Global,
    word: &[u8],
    first: Option<u64>,
) -> Result<Option<Generations>, AllocError>
    ensures read { IfOk result (λ found. found ≡ three_of word.now first) }
    ensures spelled { IfOk result (λ found. IfSome found (λ generations. AreTold generations × (word.now ≡ ids_text generations))) }
{
    let Some(id) = first else {
        return Ok(None);
    };
    if id >= u64::MAX - 1 {
        return Ok(None);
    }
    let text = ids_text(alloc, id)?;
    if is_word(word, text.as_str()) {
        Ok(Some(three_from(id)))
    } else {
        Ok(None)
    }
}

fn ids_text(alloc: Global, id: u64) -> Result<String, AllocError>
    requires { id < 18446744073709551614 }
    ensures { IfOk result (λ text. string_bytes text ≡ ids_text (three_from id)) }
{
    format!(in alloc; "{},{},{}", id, id + 1, id + 2)
}

fn three_from(id: u64) -> Generations
    requires { id < 18446744073709551614 }
    ensures { result ≡ three_from id }
{
    let all = [told_by_id(id), told_by_id(id + 1), told_by_id(id + 2)];
    match Generations::of(&all) {
        Some(generations) => generations,
        None => unreachable!(),
    }
}

fn told_by_id(id: u64) -> Generation
    ensures { result ≡ told_by_id id }
{
    Generation {
        id,
        key: [0; 16],
        expires: 0,
    }
}

/// What stands behind this front of a word.
fn behind<'a>(front: &str, word: &'a [u8]) -> Option<&'a [u8]>
    ensures read { option_copied result ≡ behind front.now word.now }
    ensures spelled { IfSome result (λ rest. word.now ≡ front.now <> rest.now) }
{
    let size = front.len();
    if word.len() < size {
        return None;
    }
    let (first, rest) = word.split_at(size);
    if is_word(first, front) {
        Some(rest)
    } else {
        None
    }
}

/// The rank of a cookie: of one above, or the next one.
pub fn cookie(counted: CountedAbove, word: &[u8]) -> Option<u64>
    ensures read { is_some result ≡ passes (λ rank. nat_le 1 rank && nat_le rank (counted.cookies + 1)) (cookie_of word.now) }
    ensures spelled { IfSome result (λ rank. (1 ≤ rank) × (rank ≤ counted.cookies + 1) × (word.now ≡ codes "c" <> decimal rank)) }
{
    let rank = cookie_of(word)?;
    if 1 <= rank && rank - 1 <= counted.cookies {
        Some(rank)
    } else {
        None
    }
}

#[tactic(auto, unfolding(crate::specs::words::Readings::cookie_of))]
fn cookie_of(word: &[u8]) -> Option<u64>
    ensures read { result ≡ cookie_of word.now }
    ensures spelled { IfSome result (λ rank. word.now ≡ codes "c" <> decimal rank) }
{
    let rank = behind("c", word)?;
    number(rank)
}

/// The digits of the number of the ticket that is issued next.
pub fn next_ticket(
    alloc: Global,
    counted: CountedAbove,
    word: &[u8],
) -> Result<Option<Blob>, AllocError>
    ensures read { IfOk result (λ found. is_some found ≡ passes (λ n. n == counted.issued + 1) (number_of word.now)) }
    ensures spelled { IfOk result (λ found. IfSome found (λ digits. (digits ≡ decimal (counted.issued + 1)) × (word.now ≡ digits))) }
{
    let Some(n) = number(word) else {
        return Ok(None);
    };
    if !follows(n, counted.issued) {
        return Ok(None);
    }
    let digits = Blob::of(alloc, word)?;
    Ok(Some(digits))
}

// Whether the number is the one behind the other.
fn follows(n: u64, before: u64) -> bool
    ensures read { result ≡ (n == before + 1) }
    ensures same { result ≡ true → n ≡ before + 1 }
{
    1 <= n && n - 1 == before
}

/// The digits of the number of the ticket that was refused: that of one issued above, or 0.
#[tactic(auto, unfolding(crate::specs::words::Readings::ticket_of))]
pub fn refused_ticket(
    alloc: Global,
    counted: CountedAbove,
    word: &[u8],
) -> Result<Option<Blob>, AllocError>
    ensures read { IfOk result (λ found. is_some found ≡ passes (λ k. nat_le k counted.issued) (ticket_of word.now)) }
    ensures spelled { IfOk result (λ found. IfSome found (λ digits. ((k : ℕ) × (k ≤ counted.issued) × (digits ≡ decimal k)) × (word.now ≡ codes "ticket=" <> digits))) }
{
    let Some(rest) = behind("ticket=", word) else {
        return Ok(None);
    };
    let Some(k) = number(rest) else {
        return Ok(None);
    };
    if counted.issued < k {
        return Ok(None);
    }
    let digits = Blob::of(alloc, rest)?;
    Ok(Some(digits))
}

/// Whether the word is the number of links that a node has places for.
pub fn is_full(word: &[u8]) -> bool
    ensures read { result ≡ bytes_eq word.now (codes "1024") }
    ensures spelled { result ≡ true → word.now ≡ codes "1024" }
{
    is_word(word, "1024")
}

/// Whether the word is the number of sessions that a book has places for.
pub fn is_full_book(word: &[u8]) -> bool
    ensures read { result ≡ bytes_eq word.now (codes "4096") }
    ensures spelled { result ≡ true → word.now ≡ codes "4096" }
{
    is_word(word, "4096")
}
