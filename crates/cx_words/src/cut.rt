//! Lines of a file and words of a line.

ghost use Rattle.std.specs.Prelude.{◌≡◌, ◌<◌, ◌==◌, [], ◌∷◌, true, length, map, IfOk, IfSome, MatchOption};
ghost use Rattle.std.specs.List.{position_from, list_any};
ghost use Rattle.std.specs.Str.{bytes_eq};
ghost use Rattle.cx_words.specs.Cutting.{is_line_end, is_mark, is_skipped, lines_of, parts, quoted_after, words_of};

use std::alloc::{AllocError, Global};

/// The first line of these bytes and what stands behind its LF; none where there are no bytes. Lines end in LF, the last
/// one's may be left out.
pub fn first_line(bytes: &[u8]) -> Option<(&[u8], &[u8])>
    ensures cut { MatchOption result (bytes.now ≡ []) (λ found. lines_of bytes.now ≡ found.0.now ∷ lines_of found.1.now) }
    ensures shorter { IfSome result (λ found. length found.1.now < length bytes.now) }
{
    if bytes.is_empty() {
        return None;
    }
    match line_end(bytes) {
        Some(place) => Some((&bytes[..place], &bytes[place + 1..])),
        None => Some((bytes, &bytes[bytes.len()..])),
    }
}

fn line_end(bytes: &[u8]) -> Option<usize>
    ensures place { result ≡ position_from is_line_end 0 bytes.now }
    ensures bound { IfSome result (λ place. place < length bytes.now) }
{
    bytes.iter().position(|b| *b == b'\n')
}

/// Whether the line is empty or a comment, which begins with `#` in its first byte.
pub fn is_skipped(line: &[u8]) -> bool
    ensures { result ≡ is_skipped line.now }
{
    if line.is_empty() {
        return true;
    }
    line[0] == b'#'
}

/// The words of a line, each two of them parted by one blank: two blanks, or one at either end, make an empty word. Where
/// `groups`, a quotation mark that has a closing one behind it groups: blanks up to that one belong to the word, and so do
/// the marks.
pub fn words(alloc: Global, groups: bool, line: &[u8]) -> Result<Vec<&[u8]>, AllocError>
    ensures { IfOk result (λ found. map (λ word. word.now) found.items ≡ words_of groups line.now) }
{
    let mut found = Vec::new(alloc);
    let mut start = 0;
    let mut quoted = false;
    for (i, byte) in line.iter().enumerate() {
        if parts(quoted, *byte) {
            found.push(&line[start..i])?;
            start = i + 1;
        } else {
            quoted = quoted_after(groups, quoted, *byte, &line[i + 1..]);
        }
    }
    found.push(&line[start..])?;
    Ok(found)
}

fn parts(quoted: bool, byte: u8) -> bool
    ensures { result ≡ parts quoted byte }
{
    byte == b' ' && !quoted
}

fn quoted_after(groups: bool, quoted: bool, byte: u8, rest: &[u8]) -> bool
    ensures { result ≡ quoted_after groups quoted byte rest.now }
{
    if byte != b'"' {
        return quoted;
    }
    groups && !quoted && has_mark(rest)
}

fn has_mark(bytes: &[u8]) -> bool
    ensures { result ≡ list_any is_mark bytes.now }
{
    bytes.iter().any(|b| *b == b'"')
}

/// Whether the word is this text.
pub fn is_word(word: &[u8], text: &str) -> bool
    ensures same { result ≡ bytes_eq word.now text.now }
    ensures spelled { result ≡ true → word.now ≡ text.now }
{
    word == text.as_bytes()
}
