//! What stands in a line of a keyring that is wrong, where that helps.

ghost use Rattle.std.specs.Prelude.{ℕ, ◌≡◌, ◌==◌, IfOk};
ghost use Rattle.std.specs.List.{list_any};
ghost use Rattle.cx_words.specs.Cutting.{lines_of};
ghost use Rattle.cx_help.specs.keyring.Details.{begins_comment, bracket_detail, caps_in, closed_detail, detail_of, front_detail, is_closing, key_behind, key_in, marked_behind, meant_detail, meant_for, or_meant, plain_behind, stood_detail};
ghost use Rattle.cx_help.specs.keyring.Standing.{label_of, stood_from};

use crate::settings::{
    behind, behind_blanks, behind_caps, behind_word, caps_count, column, has_return,
    looks_like_auid, looks_like_caps, looks_like_journal, looks_like_key, looks_like_schedule,
    looks_like_secret, opens_section, service_word, value_of, without_return, word_count,
};
use crate::standing::{key_like_behind, label_of, stood_before};
use crate::{is_no_text, line_at};
use cx_keyring::KeyringFault;
use cx_words::{Shown, shown_of};
use std::alloc::{AllocError, Global};

/// What stands in a line of a keyring that is wrong, where that helps. Columns count the bytes of a line from 1.
#[derive(Clone, Copy, Debug, PartialEq, Eq)]
pub enum Detail {
    /// Nothing that helps.
    Nothing,
    /// The line has a byte that no text has.
    NoText,
    /// It begins with a byte-order mark.
    ByteOrderMark,
    /// It begins as a line of a schedule does.
    Schedule,
    /// The bracket of a section isn't closed.
    OpenSection,
    /// Something stands behind the bracket of a section.
    BehindSection,
    /// It begins as a journal does.
    Journal,
    /// A CR stands in it.
    ReturnInside,
    /// It begins as a key does.
    LooksLikeKey,
    /// It begins as caps do.
    LooksLikeCaps,
    /// It begins with a word of older keyrings.
    Auid,
    /// It begins with the word of a key that is given elsewhere.
    Secret,
    /// What stands in place of a name or a service.
    Standing(Shown),
    /// A key in quotation marks.
    KeyInMarks,
    /// A key of so many characters.
    KeyLength(usize),
    /// A blank in a key, at this column.
    KeyBlankAt(usize),
    /// A comment that begins at this column.
    CommentAt(usize),
    /// This byte stands at this column.
    ByteAt(u8, usize),
    /// A quotation mark at this column isn't closed.
    OpenMarkAt(usize),
    /// Caps of so many bytes.
    CapsLength(usize),
    /// The section stands at this line already.
    SectionAt(u64),
    /// The section's key does.
    KeyAt(u64),
    /// Caps for this service do.
    CapsAt(Shown, u64),
    /// This line looks like the key of the section.
    KeyLikeAt(u64),
}

/// What stands in the line of this number, from 1, of these bytes, which has this fault.
pub fn detail_of(
    alloc: Global,
    bytes: &[u8],
    number: u64,
    why: KeyringFault,
) -> Result<Detail, AllocError>
    ensures { IfOk result (λ detail. detail ≡ detail_of (lines_of bytes.now) number why) }
{
    let line = without_return(line_at(bytes, number));
    match why {
        KeyringFault::NoSection => Ok(front_detail(line)),
        KeyringFault::BadName => Ok(Detail::Standing(shown_of(behind_blanks(line)))),
        KeyringFault::BadKey => Ok(key_in(line, value_of(line))),
        KeyringFault::BadService => Ok(Detail::Standing(shown_of(service_word(line)))),
        KeyringFault::BadCaps => Ok(caps_in(line, value_of(line))),
        KeyringFault::Repeated => stood_detail(alloc, bytes, number, line),
        KeyringFault::NoKey => Ok(meant_detail(key_like_behind(bytes, number))),
        KeyringFault::Unreadable => Ok(or_meant(front_detail(line), line)),
    }
}

/// A line of no form of a keyring's.
fn front_detail(line: &[u8]) -> Detail
    ensures { result ≡ front_detail line.now }
{
    if is_no_text(line) {
        return Detail::NoText;
    }
    if line.starts_with(&[0xef, 0xbb, 0xbf]) {
        return Detail::ByteOrderMark;
    }
    if has_return(line) {
        return Detail::ReturnInside;
    }
    if opens_section(line) {
        return bracket_detail(has_closing(line));
    }
    if looks_like_schedule(line) {
        return Detail::Schedule;
    }
    if looks_like_journal(line) {
        return Detail::Journal;
    }
    Detail::Nothing
}

fn has_closing(line: &[u8]) -> bool
    ensures { result ≡ list_any is_closing line.now }
{
    line.iter().any(|b| *b == b']')
}

/// A section whose line doesn't end with its bracket.
fn bracket_detail(closed: bool) -> Detail
    ensures { result ≡ bracket_detail closed }
{
    if closed {
        Detail::BehindSection
    } else {
        Detail::OpenSection
    }
}

/// The same in a section.
fn or_meant(found: Detail, line: &[u8]) -> Detail
    ensures { result ≡ or_meant found line.now }
{
    match found {
        Detail::Nothing => meant_for(line),
        other => other,
    }
}

/// What a line of a section may be meant for.
fn meant_for(line: &[u8]) -> Detail
    ensures { result ≡ meant_for line.now }
{
    if looks_like_key(line) {
        return Detail::LooksLikeKey;
    }
    if looks_like_caps(line) {
        return Detail::LooksLikeCaps;
    }
    if looks_like_auid(line) {
        return Detail::Auid;
    }
    if looks_like_secret(line) {
        return Detail::Secret;
    }
    Detail::Nothing
}

fn begins_comment(text: &[u8]) -> bool
    ensures { result ≡ begins_comment text.now }
{
    text.starts_with(b"#") || text.starts_with(b";")
}

fn key_in(line: &[u8], text: &[u8]) -> Detail
    ensures { result ≡ key_in line.now text.now }
{
    if text.starts_with(b"\"") {
        return Detail::KeyInMarks;
    }
    let rest = behind_word(text);
    key_behind(line, word_count(text), rest, behind_blanks(rest))
}

/// What is wrong with the text of a key, of which the first word has so many bytes, by what stands behind that and behind the
/// blanks there.
fn key_behind(line: &[u8], count: usize, rest: &[u8], after: &[u8]) -> Detail
    ensures { result ≡ key_behind line.now count rest.now after.now }
{
    match after {
        [] => Detail::KeyLength(count),
        [..] => {
            if begins_comment(after) {
                Detail::CommentAt(column(line, after))
            } else {
                Detail::KeyBlankAt(column(line, rest))
            }
        }
    }
}

fn caps_in(line: &[u8], text: &[u8]) -> Detail
    ensures { result ≡ caps_in line.now text.now }
{
    if text.starts_with(b"\"") {
        let inner = behind(text, 1);
        return marked_behind(line, text, caps_count(inner), behind_caps(inner));
    }
    plain_behind(line, caps_count(text), behind_caps(text))
}

/// What is wrong with so many bytes of caps behind an opening mark, by what stands behind them.
fn marked_behind(line: &[u8], text: &[u8], count: usize, rest: &[u8]) -> Detail
    ensures { result ≡ marked_behind line.now text.now count rest.now }
{
    match rest {
        [] => Detail::OpenMarkAt(column(line, text)),
        [b, after @ ..] => {
            if *b == b'"' {
                closed_detail(line, count, rest, behind_blanks(after))
            } else {
                Detail::ByteAt(*b, column(line, rest))
            }
        }
    }
}

/// What is wrong with so many bytes of caps between two marks, by the closing one with all behind it, and what stands behind
/// the blanks there.
fn closed_detail(line: &[u8], count: usize, mark: &[u8], after: &[u8]) -> Detail
    ensures { result ≡ closed_detail line.now count mark.now after.now }
{
    match after {
        [] => Detail::CapsLength(count),
        [..] => {
            if begins_comment(after) {
                Detail::CommentAt(column(line, after))
            } else {
                Detail::ByteAt(b'"', column(line, mark))
            }
        }
    }
}

/// What is wrong with so many bytes of caps without marks, by what stands behind them.
fn plain_behind(line: &[u8], count: usize, rest: &[u8]) -> Detail
    ensures { result ≡ plain_behind line.now count rest.now }
{
    match rest {
        [] => Detail::CapsLength(count),
        [b, ..] => Detail::ByteAt(*b, column(line, rest)),
    }
}

/// What the line repeats, and where that stands.
fn stood_detail(alloc: Global, bytes: &[u8], number: u64, line: &[u8]) -> Result<Detail, AllocError>
    ensures { IfOk result (λ detail. detail ≡ stood_detail line.now (stood_from (label_of line.now) number 1 0 (lines_of bytes.now))) }
{
    let label = label_of(alloc, line)?;
    let stood = stood_before(alloc, bytes, number, label.as_slice())?;
    if opens_section(line) {
        return Ok(Detail::SectionAt(stood));
    }
    if looks_like_key(line) {
        return Ok(Detail::KeyAt(stood));
    }
    Ok(Detail::CapsAt(shown_of(service_word(line)), stood))
}

/// A section without a key.
fn meant_detail(place: Option<u64>) -> Detail
    ensures { result ≡ meant_detail place }
{
    match place {
        Some(number) => Detail::KeyLikeAt(number),
        None => Detail::Nothing,
    }
}
