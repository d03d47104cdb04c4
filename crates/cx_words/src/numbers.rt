//! Numbers and readings of a clock.

ghost use Rattle.std.specs.Prelude.{◌≡◌, ◌<◌, ◌≤◌, ◌^◌, true, length, decimal, IfSome, option_and_then};
ghost use Rattle.std.specs.List.{list_all, position_from};
ghost use Rattle.std.specs.Str.Parse.{digits_value};
ghost use Rattle.cx_words.specs.Words.{below, is_digit, is_nine, is_plain, is_point, number_of, reading_of, whole_seconds, with_nine, IsReadingWord};

use cx_base::{Reading, SECOND};

/// A reading stays below so many seconds.
const SECONDS: u64 = 4_000_000_000;

/// The number that the word spells: decimal digits without a leading zero, or `0`, below 2^64.
pub fn number(word: &[u8]) -> Option<u64>
    ensures read { result ≡ number_of word.now }
    ensures spelled { IfSome result (λ n. word.now ≡ decimal n) }
{
    if !is_plain(word) {
        return None;
    }
    digits(word)
}

fn is_plain(word: &[u8]) -> bool
    ensures { result ≡ is_plain word.now }
{
    all_digits(word) && !word.is_empty() && (word.len() == 1 || word[0] != b'0')
}

fn all_digits(word: &[u8]) -> bool
    ensures { result ≡ list_all is_digit word.now }
{
    word.iter().all(|b| is_digit(*b))
}

fn is_digit(b: u8) -> bool
    ensures { result ≡ is_digit b }
{
    b >= b'0' && b <= b'9'
}

/// The number that these digits write, where it is below 2^64.
fn digits(word: &[u8]) -> Option<u64>
    requires shown { list_all is_digit word.now ≡ true }
    requires some { 0 < length word.now }
    ensures { result ≡ below (2 ^ 64) (digits_value 10 word.now) }
{
    match str::from_utf8(word) {
        Ok(text) => text.parse::<u64>().ok(),
        Err(_) => unreachable!(),
    }
}

/// The reading that the word spells, in nanoseconds: seconds alone, or seconds, a point and nine digits; below
/// 4,000,000,000 s.
pub fn reading(word: &[u8]) -> Option<Reading>
    ensures read { result ≡ reading_of word.now }
    ensures spelled { IfSome result (λ n. IsReadingWord word.now n) }
    ensures bound { IfSome result (λ n. n < 4000000000000000000) }
{
    match point(word) {
        Some(place) => with_nine(&word[place + 1..], number(&word[..place])),
        None => whole_seconds(number(word)),
    }
}

/// The place of the first point.
pub fn point(word: &[u8]) -> Option<usize>
    ensures place { result ≡ position_from is_point 0 word.now }
    ensures bound { IfSome result (λ place. place < length word.now) }
{
    word.iter().position(|b| *b == b'.')
}

fn whole_seconds(seconds: Option<u64>) -> Option<Reading>
    ensures { result ≡ option_and_then whole_seconds seconds }
{
    let seconds = seconds?;
    if seconds < SECONDS {
        Some(seconds * SECOND)
    } else {
        None
    }
}

fn with_nine(nine: &[u8], seconds: Option<u64>) -> Option<Reading>
    ensures { result ≡ with_nine nine.now seconds }
{
    let seconds = seconds?;
    if seconds < SECONDS && is_nine(nine) {
        Some(seconds * SECOND + nanoseconds(nine))
    } else {
        None
    }
}

fn is_nine(word: &[u8]) -> bool
    ensures { result ≡ is_nine word.now }
{
    word.len() == 9 && all_digits(word)
}

fn nanoseconds(nine: &[u8]) -> u64
    requires { is_nine nine.now ≡ true }
    ensures value { result ≡ digits_value 10 nine.now }
    ensures bound { result < 1000000000 }
{
    match digits(nine) {
        Some(value) => value,
        None => unreachable!(),
    }
}
