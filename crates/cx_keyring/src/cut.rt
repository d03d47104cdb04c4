//! Cutting a line of a keyring into its parts.

ghost use Rattle.std.specs.Prelude.{◌≡◌, ◌<◌, ◌==◌, false, true, length, IfOk, IfSome};
ghost use Rattle.std.specs.List.{position_from};
ghost use Rattle.cx_words.specs.Words.{inside};
ghost use Rattle.cx_keyring.specs.Lines.{begins_caps, caps_text_of, is_blank, is_bracketed, is_equals, is_skipped, line_of, said_by, setting, setting_at, trimmed, without_back, without_cr, without_front};

use crate::keys::key;
use crate::lines::Line;
use cx_base::{Text, is_caps};
use cx_words::{caps, is_word, name, service};
use std::alloc::{AllocError, Global};

/// What the line says. A CR at its end is dropped, and then the blanks at both ends.
#[tactic(auto, unfolding(crate::specs::Lines::line_of))]
pub fn line_of(alloc: Global, line: &[u8]) -> Result<Line, AllocError>
    ensures { IfOk result (λ said. said ≡ line_of line.now) }
{
    said_by(alloc, trimmed(without_cr(line)))
}

/// What a line without a CR at its end and blanks at both ends says.
#[tactic(auto, unfolding(crate::specs::Lines::said_by))]
fn said_by(alloc: Global, line: &[u8]) -> Result<Line, AllocError>
    ensures { IfOk result (λ said. said ≡ said_by line.now) }
{
    if is_skipped(line) {
        return Ok(Line::Skipped);
    }
    if is_bracketed(line) {
        let named = name(alloc, &line[1..line.len() - 1])?;
        return Ok(Line::Section(named));
    }
    match equals(line) {
        Some(place) => setting(alloc, trimmed(&line[..place]), trimmed(&line[place + 1..])),
        None => Ok(Line::Other),
    }
}

/// What a line with an equals sign says, by what stands on either side of the first one.
#[tactic(auto, unfolding(crate::specs::Lines::setting))]
fn setting(alloc: Global, left: &[u8], right: &[u8]) -> Result<Line, AllocError>
    ensures { IfOk result (λ said. said ≡ setting left.now right.now) }
{
    if is_word(left, "key") {
        let read = key(alloc, right)?;
        return Ok(Line::Key(read));
    }
    if !begins_caps(left) {
        return Ok(Line::Other);
    }
    let text = caps_text(alloc, right)?;
    Ok(Line::Caps(service(trimmed(&left[4..])), text))
}

/// The capability text, in quotation marks or plain.
#[tactic(auto, unfolding(crate::specs::Lines::caps_text_of))]
fn caps_text(alloc: Global, text: &[u8]) -> Result<Option<Text>, AllocError>
    ensures { IfOk result (λ found. found ≡ caps_text_of text.now) }
{
    if let Some(found) = caps(alloc, text)? {
        return Ok(Some(found));
    }
    if !is_caps(text) {
        return Ok(None);
    }
    let plain = Text::from_ascii(alloc, text)?;
    Ok(Some(plain))
}

fn is_skipped(line: &[u8]) -> bool
    ensures { result ≡ is_skipped line.now }
{
    matches!(line, [] | [b'#' | b';', ..])
}

fn is_bracketed(line: &[u8]) -> bool
    ensures { result ≡ is_bracketed line.now }
{
    matches!(line, [b'[', .., b']'])
}

fn begins_caps(left: &[u8]) -> bool
    ensures { result ≡ begins_caps left.now }
{
    left.len() >= 5 && is_word(&left[..4], "caps") && is_blank(left[4])
}

/// The place of the first equals sign.
fn equals(line: &[u8]) -> Option<usize>
    ensures place { result ≡ position_from is_equals 0 line.now }
    ensures bound { IfSome result (λ place. place < length line.now) }
{
    line.iter().position(|b| *b == b'=')
}

#[tactic(auto, unfolding(crate::specs::Lines::without_cr))]
fn without_cr(line: &[u8]) -> &[u8]
    ensures { result.now ≡ without_cr line.now }
{
    if line.is_empty() {
        return line;
    }
    if line[line.len() - 1] == b'\r' {
        return &line[..line.len() - 1];
    }
    line
}

#[tactic(auto, unfolding(crate::specs::Lines::trimmed))]
fn trimmed(text: &[u8]) -> &[u8]
    ensures { result.now ≡ trimmed text.now }
{
    without_front(without_back(text))
}

fn without_front(text: &[u8]) -> &[u8]
    ensures { result.now ≡ without_front text.now }
{
    let mut rest = text;
    while let [first, after @ ..] = rest {
        if !is_blank(*first) {
            return rest;
        }
        rest = after;
    }
    rest
}

fn without_back(text: &[u8]) -> &[u8]
    ensures { result.now ≡ without_back text.now }
{
    let mut rest = text;
    while let [before @ .., last] = rest {
        if !is_blank(*last) {
            return rest;
        }
        rest = before;
    }
    rest
}

fn is_blank(b: u8) -> bool
    ensures { result ≡ is_blank b }
{
    matches!(b, b' ' | b'\t')
}
