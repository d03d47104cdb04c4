//! What stands where in a line of a keyring.

ghost use Rattle.std.specs.Prelude.{◌≡◌, ◌≤◌, ◌==◌, not, ◌&&◌, drop, length, take};
ghost use Rattle.std.specs.List.{list_any, take_while};
ghost use Rattle.cx_base.specs.Texts.{is_caps_byte};
ghost use Rattle.cx_keyring.specs.Lines.{is_blank};
ghost use Rattle.cx_help.specs.line.Remarks.{starts};
ghost use Rattle.cx_help.specs.keyring.Settings.{behind_blanks, behind_caps, behind_word, blanks, caps_count, column, first_name, has_caps_letters, has_key_letters, has_return, is_return, looks_like_auid, looks_like_caps, looks_like_journal, is_before_equals, is_either, is_filling, is_first_step, is_head_line, is_of_name, looks_like_key, looks_like_schedule, looks_like_secret, opens_section, service_word, stands_for_key, value_of, without_return, word_count};

use cx_base::is_caps_byte;

/// Whether a text begins with another one.
pub fn starts(text: &[u8], front: &str) -> bool
    ensures { result ≡ starts front.now text.now }
{
    text.starts_with(front.as_bytes())
}

/// A line without a CR at its end.
pub(crate) fn without_return(line: &[u8]) -> &[u8]
    ensures { result.now ≡ without_return line.now }
{
    if line.is_empty() {
        return line;
    }
    if line[line.len() - 1] == b'\r' {
        return &line[..line.len() - 1];
    }
    line
}

/// What stands behind so many bytes.
#[tactic(auto, using(crate::proofs::keyring::Tails::none_behind))]
pub(crate) fn behind(text: &[u8], count: usize) -> &[u8]
    ensures { result.now ≡ drop count text.now }
{
    if count >= text.len() {
        return &[];
    }
    &text[count..]
}

/// So many first bytes.
#[tactic(auto, using(crate::proofs::keyring::Tails::all_of))]
pub(crate) fn front(text: &[u8], count: usize) -> &[u8]
    ensures { result.now ≡ take count text.now }
{
    if count >= text.len() {
        return text;
    }
    &text[..count]
}

pub(crate) fn is_blank(b: u8) -> bool
    ensures { result ≡ is_blank b }
{
    matches!(b, b' ' | b'\t')
}

fn blanks(text: &[u8]) -> usize
    ensures { result ≡ blanks text.now }
{
    text.iter().take_while(|b| is_blank(**b)).count()
}

pub(crate) fn behind_blanks(text: &[u8]) -> &[u8]
    ensures { result.now ≡ behind_blanks text.now }
{
    behind(text, blanks(text))
}

/// How many bytes its first word has.
pub(crate) fn word_count(text: &[u8]) -> usize
    ensures { result ≡ word_count text.now }
{
    text.iter().take_while(|b| is_filling(**b)).count()
}

fn is_filling(b: u8) -> bool
    ensures { result ≡ is_filling b }
{
    !is_blank(b)
}

pub(crate) fn behind_word(text: &[u8]) -> &[u8]
    ensures { result.now ≡ behind_word text.now }
{
    behind(text, word_count(text))
}

/// How many bytes it begins with that a capability text may have.
pub(crate) fn caps_count(text: &[u8]) -> usize
    ensures { result ≡ caps_count text.now }
{
    text.iter().take_while(|b| is_caps_byte(**b)).count()
}

pub(crate) fn behind_caps(text: &[u8]) -> &[u8]
    ensures { result.now ≡ behind_caps text.now }
{
    behind(text, caps_count(text))
}

/// The service of a line that begins with `caps`.
pub(crate) fn service_word(line: &[u8]) -> &[u8]
    ensures { result.now ≡ service_word line.now }
{
    let text = behind_blanks(behind(behind_blanks(line), 4));
    &text[..name_count(text)]
}

fn name_count(text: &[u8]) -> usize
    ensures value { result ≡ length (first_name text.now) }
    ensures bound { result ≤ length text.now }
{
    text.iter().take_while(|b| is_of_name(**b)).count()
}

fn is_of_name(b: u8) -> bool
    ensures { result ≡ is_of_name b }
{
    !is_blank(b) && b != b'='
}

/// What stands behind the first equals sign and the blanks there.
pub(crate) fn value_of(line: &[u8]) -> &[u8]
    ensures { result.now ≡ value_of line.now }
{
    behind_blanks(behind(line, before_equals(line) + 1))
}

fn before_equals(line: &[u8]) -> usize
    ensures value { result ≡ length (take_while is_before_equals line.now) }
    ensures bound { result ≤ length line.now }
{
    line.iter().take_while(|b| is_before_equals(**b)).count()
}

fn is_before_equals(b: u8) -> bool
    ensures { result ≡ is_before_equals b }
{
    b != b'='
}

/// The number in a line, from 1, of the byte with which this end of it begins.
pub(crate) fn column(line: &[u8], end: &[u8]) -> usize
    ensures { result ≡ column line.now end.now }
{
    line.len().saturating_sub(end.len()) + 1
}

/// Whether it begins a section.
pub(crate) fn opens_section(line: &[u8]) -> bool
    ensures { result ≡ opens_section line.now }
{
    behind_blanks(line).starts_with(b"[")
}

/// Whether it begins with `key`, in letters of either case.
pub(crate) fn looks_like_key(line: &[u8]) -> bool
    ensures { result ≡ looks_like_key line.now }
{
    has_key_letters(behind_blanks(line))
}

fn has_key_letters(text: &[u8]) -> bool
    ensures { result ≡ has_key_letters text.now }
{
    text.len() >= 3
        && is_either(b'k', b'K', text[0])
        && is_either(b'e', b'E', text[1])
        && is_either(b'y', b'Y', text[2])
}

fn is_either(small: u8, large: u8, b: u8) -> bool
    ensures { result ≡ is_either small large b }
{
    b == small || b == large
}

/// Whether it begins with `cap`, in letters of either case.
pub(crate) fn looks_like_caps(line: &[u8]) -> bool
    ensures { result ≡ looks_like_caps line.now }
{
    has_caps_letters(behind_blanks(line))
}

fn has_caps_letters(text: &[u8]) -> bool
    ensures { result ≡ has_caps_letters text.now }
{
    text.len() >= 3
        && is_either(b'c', b'C', text[0])
        && is_either(b'a', b'A', text[1])
        && is_either(b'p', b'P', text[2])
}

/// Whether it begins with a word of older keyrings.
pub(crate) fn looks_like_auid(line: &[u8]) -> bool
    ensures { result ≡ looks_like_auid line.now }
{
    starts(behind_blanks(line), "auid")
}

/// Whether it begins with `secret`, by which mount options and other files give a key.
pub(crate) fn looks_like_secret(line: &[u8]) -> bool
    ensures { result ≡ looks_like_secret line.now }
{
    starts(behind_blanks(line), "secret")
}

/// Whether it is meant for a key.
pub(crate) fn stands_for_key(line: &[u8]) -> bool
    ensures { result ≡ stands_for_key line.now }
{
    looks_like_key(line) || looks_like_secret(line)
}

/// Whether a CR stands in it.
pub(crate) fn has_return(line: &[u8]) -> bool
    ensures { result ≡ has_return line.now }
{
    line.iter().any(|b| is_return(*b))
}

fn is_return(b: u8) -> bool
    ensures { result ≡ is_return b }
{
    b == b'\r'
}

/// Whether it begins as lines do that stand first in a journal.
pub(crate) fn looks_like_journal(line: &[u8]) -> bool
    ensures { result ≡ looks_like_journal line.now }
{
    starts(line, "saved ") || starts(line, "issued ")
}

/// Whether it begins as lines do that stand first in a schedule.
pub(crate) fn looks_like_schedule(line: &[u8]) -> bool
    ensures { result ≡ looks_like_schedule line.now }
{
    is_head_line(line) || is_first_step(line)
}

fn is_head_line(line: &[u8]) -> bool
    ensures { result ≡ is_head_line line.now }
{
    starts(line, "entity ")
        || starts(line, "lifetime ")
        || starts(line, "auth-lifetime ")
        || starts(line, "seed ")
}

fn is_first_step(line: &[u8]) -> bool
    ensures { result ≡ is_first_step line.now }
{
    starts(line, "clock ") || starts(line, "login ") || starts(line, "fetch ")
}
