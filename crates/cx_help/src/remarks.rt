//! What a line shows as a whole, beside its words.

ghost use Rattle.std.specs.Prelude.{◌≡◌, ◌==◌, ◌%◌, length, take, map, count_by};
ghost use Rattle.std.specs.List.{list_any};
ghost use Rattle.cx_help.specs.line.Remarks.{beside_text, has_open_mark, is_binary, is_comment, is_no_text, remark_of, remark_text, starts};
ghost use Rattle.cx_schedule.specs.Grammars.{groups, line_words};
ghost use Rattle.cx_words.specs.Cutting.{is_mark};

use crate::hints::hint;
use cx_words::Hint;

/// What a line shows as a whole, beside its words.
#[derive(Clone, Copy, Debug, PartialEq, Eq)]
pub enum Remark {
    /// It has a byte that no text has: the file is UTF-16, or compressed.
    NoText,
    /// It begins as a section of a keyring does.
    Section,
    /// A word of it begins a comment.
    Comment,
    /// A quotation mark of an entity line isn't closed.
    OpenMark,
}

/// What a line with these words shows as a whole.
pub(crate) fn remark_of(line: &[u8], words: &[&[u8]]) -> Option<Remark>
    requires { map (λ w. w.now) words.now ≡ line_words line.now }
    ensures { result ≡ remark_of line.now }
{
    if is_no_text(line) {
        return Some(Remark::NoText);
    }
    if line.starts_with(b"[") {
        return Some(Remark::Section);
    }
    if has_comment(words) {
        return Some(Remark::Comment);
    }
    if has_open_mark(line) {
        return Some(Remark::OpenMark);
    }
    None
}

/// Whether the line has a byte that no text has, or begins with a byte-order mark of two bytes.
pub fn is_no_text(line: &[u8]) -> bool
    ensures { result ≡ is_no_text line.now }
{
    any_binary(line) || line.starts_with(&[0xff, 0xfe]) || line.starts_with(&[0xfe, 0xff])
}

fn any_binary(line: &[u8]) -> bool
    ensures { result ≡ list_any is_binary line.now }
{
    line.iter().any(|b| is_binary(*b))
}

fn is_binary(b: u8) -> bool
    ensures { result ≡ is_binary b }
{
    b < 32 && b != b'\t' && b != b'\r'
}

fn has_comment(words: &[&[u8]]) -> bool
    ensures { result ≡ list_any is_comment (map (λ w. w.now) words.now) }
{
    for word in words {
        if is_comment(word) {
            return true;
        }
    }
    false
}

fn is_comment(word: &[u8]) -> bool
    ensures { result ≡ is_comment word.now }
{
    word.starts_with(b"#")
}

fn has_open_mark(line: &[u8]) -> bool
    ensures { result ≡ has_open_mark line.now }
{
    groups(line) && count_marks(line) % 2 == 1
}

fn count_marks(line: &[u8]) -> usize
    ensures { result ≡ count_by is_mark line.now }
{
    line.iter().filter(|b| **b == b'"').count()
}

/// Whether quotation marks group the words of this line.
pub(crate) fn groups(line: &[u8]) -> bool
    ensures { result ≡ groups line.now }
{
    line.starts_with(b"entity ")
}

/// What is said of the line as a whole, or else of a word in which an eye may not see something.
pub fn beside(remark: Option<Remark>, bad: Option<Hint>) -> &'static str
    ensures { result.now ≡ beside_text remark bad }
{
    match remark {
        Some(remark) => remark_text(remark),
        None => hint(bad),
    }
}

fn remark_text(remark: Remark) -> &'static str
    ensures { result.now ≡ remark_text remark }
{
    match remark {
        Remark::NoText => {
            " (the file is no text: it has bytes as those of UTF-16 or of a compressed file; unpack it, or save it as ASCII \
            text)"
        }
        Remark::Section => " (this looks like a keyring, which cephx_cli keyring reads)",
        Remark::Comment => " (a comment stands on a line of its own, with # as its first byte)",
        Remark::OpenMark => {
            " (a quotation mark isn't closed, and holds no words together; close it)"
        }
    }
}
