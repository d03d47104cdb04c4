//! What a line that is none of a journal shows as a whole.

ghost use Rattle.std.specs.Prelude.{◌≡◌, ◌≢◌, []};
ghost use Rattle.std.specs.List.{list_any};
ghost use Rattle.cx_help.specs.audit.Asides.{aside_text, first_aside, hint_at, is_cr, is_high, is_tab};

use crate::{Remark, beside, is_no_text, or_kin};
use cx_words::{Hint, Shown};

/// What is said besides of a line of which this word is wrong.
pub(crate) fn aside(line: &[u8], shown: &Shown) -> &'static str
    ensures { result.now ≡ aside_text line.now shown.now }
{
    match line {
        [] => " (a journal has no empty lines; leave it out)",
        [..] => filled_aside(line, shown),
    }
}

fn filled_aside(line: &[u8], shown: &Shown) -> &'static str
    requires { line.now ≢ [] }
    ensures { result.now ≡ aside_text line.now shown.now }
{
    if line.starts_with(b"#") {
        return " (a journal has no comments; leave the line out)";
    }
    if is_no_text(line) {
        return beside(Some(Remark::NoText), None);
    }
    if line.starts_with(b"[") {
        return beside(Some(Remark::Section), None);
    }
    beside(None, hint_at(line, shown))
}

/// Where its first word is wrong also what else has such lines.
pub(crate) fn first_aside(line: &[u8], shown: &Shown) -> &'static str
    ensures { result.now ≡ first_aside line.now shown.now }
{
    or_kin(aside(line, shown), shown)
}

/// What an eye may not see in the line.
fn hint_at(line: &[u8], shown: &Shown) -> Option<Hint>
    ensures { result ≡ hint_at line.now shown.now }
{
    if line.starts_with(&[0xef, 0xbb, 0xbf]) {
        return Some(Hint::ByteOrderMark);
    }
    if has_cr(line) {
        return Some(Hint::CarriageReturn);
    }
    if has_tab(line) {
        return Some(Hint::Tab);
    }
    if has_high(line) {
        return Some(Hint::NotAscii);
    }
    if shown.length == 0 {
        return Some(Hint::Empty);
    }
    None
}

fn has_cr(line: &[u8]) -> bool
    ensures { result ≡ list_any is_cr line.now }
{
    line.iter().any(|b| is_cr(*b))
}

fn is_cr(b: u8) -> bool
    ensures { result ≡ is_cr b }
{
    b == b'\r'
}

fn has_tab(line: &[u8]) -> bool
    ensures { result ≡ list_any is_tab line.now }
{
    line.iter().any(|b| is_tab(*b))
}

fn is_tab(b: u8) -> bool
    ensures { result ≡ is_tab b }
{
    b == b'\t'
}

fn has_high(line: &[u8]) -> bool
    ensures { result ≡ list_any is_high line.now }
{
    line.iter().any(|b| is_high(*b))
}

fn is_high(b: u8) -> bool
    ensures { result ≡ is_high b }
{
    b >= 128
}
