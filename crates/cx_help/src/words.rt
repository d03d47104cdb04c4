//! A word as a user is shown it, and what can be told of it by its first bytes.

ghost use Rattle.std.specs.Prelude.{◌≡◌, ◌==◌, ◌<◌};
ghost use Rattle.std.specs.List.{list_all, list_any};
ghost use Rattle.cx_help.specs.line.Words.{are_digits, begins, digit, front, has_leading_zero, has_slash, is_daemon_word, is_digit_byte, is_monitor_word, rest_text};

use cx_words::Shown;
use std::fmt;

/// A word as it is shown: control bytes made visible, cut at 40 bytes. A blank stands in a word between quotation marks alone.
#[derive(Clone, Copy)]
pub struct Word<'a>(pub &'a Shown);

impl fmt::Display for Word<'_> {
    ghost use Rattle.std.specs.Prelude.{Some};
    ghost use Rattle.cx_help.specs.line.Words.{word_text};

    ghost output = { λ word. Some (word_text word.0.now) };

    fn fmt<W: fmt::Write>(&self, f: &mut fmt::Formatter<W>) -> fmt::Result {
        let shown = self.0;
        if shown.length == 0 {
            return write!(f, "an empty word");
        }
        write!(f, "`{}{}", Bytes(front(shown)), rest(shown.is_cut))
    }
}

fn rest(is_cut: bool) -> &'static str
    ensures { result.now ≡ rest_text is_cut }
{
    if is_cut { "..`" } else { "`" }
}

#[derive(Clone, Copy)]
struct Bytes<'a>(&'a [u8]);

impl fmt::Display for Bytes<'_> {
    ghost use Rattle.std.specs.Prelude.{Some};
    ghost use Rattle.cx_help.specs.line.Words.{bytes_text};

    ghost output = { λ bytes. Some (bytes_text bytes.0.now) };

    fn fmt<W: fmt::Write>(&self, f: &mut fmt::Formatter<W>) -> fmt::Result {
        let bytes = self.0;
        for byte in bytes {
            write!(f, "{}", Byte(*byte))?;
        }
        Ok(())
    }
}

/// A byte as it is shown in a word.
#[derive(Clone, Copy)]
pub struct Byte(pub u8);

impl fmt::Display for Byte {
    ghost use Rattle.std.specs.Prelude.{Some};
    ghost use Rattle.cx_help.specs.line.Words.{byte_text};

    ghost output = { λ byte. Some (byte_text byte.0) };

    fn fmt<W: fmt::Write>(&self, f: &mut fmt::Formatter<W>) -> fmt::Result {
        let byte = self.0;
        if byte == b'\t' {
            return write!(f, "<tab>");
        }
        if byte == b'\r' {
            return write!(f, "<CR>");
        }
        if byte >= 32 && byte < 127 {
            return write!(f, "{}", char::from(byte));
        }
        write!(
            f,
            "<{}{}>",
            char::from(hex_digit(byte / 16)),
            char::from(hex_digit(byte % 16))
        )
    }
}

/// A hexadecimal digit, in lower case.
fn hex_digit(n: u8) -> u8
    requires { n < 16 }
    ensures digit { result ≡ digit n }
    ensures ascii { result < 127 }
{
    if n < 10 { 48 + n } else { 87 + n }
}

/// Whether it is a number of two digits or more that begins with 0.
pub fn has_leading_zero(shown: &Shown) -> bool
    ensures { result ≡ has_leading_zero shown.now }
{
    shown.length > 1 && shown.bytes[0] == b'0' && are_digits(shown)
}

pub(crate) fn are_digits(shown: &Shown) -> bool
    ensures { result ≡ are_digits shown.now }
{
    shown.length > 0 && all_digits(front(shown))
}

fn all_digits(bytes: &[u8]) -> bool
    ensures { result ≡ list_all is_digit_byte bytes.now }
{
    bytes.iter().all(|b| is_digit_byte(*b))
}

fn is_digit_byte(byte: u8) -> bool
    ensures { result ≡ is_digit_byte byte }
{
    byte >= b'0' && byte <= b'9'
}

pub(crate) fn has_slash(shown: &Shown) -> bool
    ensures { result ≡ has_slash shown.now }
{
    any_slash(front(shown))
}

fn any_slash(bytes: &[u8]) -> bool
    ensures { result ≡ list_any (λ b. b == 47) bytes.now }
{
    bytes.iter().any(|b| *b == b'/')
}

pub(crate) fn begins(shown: &Shown, text: &str) -> bool
    ensures { result ≡ begins text.now shown.now }
{
    front(shown).starts_with(text.as_bytes())
}

pub(crate) fn is_daemon_word(shown: &Shown) -> bool
    ensures { result ≡ is_daemon_word shown.now }
{
    begins(shown, "mds.") || begins(shown, "osd.") || begins(shown, "mgr.")
}

pub(crate) fn is_monitor_word(shown: &Shown) -> bool
    ensures { result ≡ is_monitor_word shown.now }
{
    shown.length == 3 && begins(shown, "mon")
}

/// The bytes that are shown.
pub(crate) fn front(shown: &Shown) -> &[u8]
    ensures { result.now ≡ front shown.now }
{
    let length = shown.length.min(40);
    &shown.bytes[..length]
}
