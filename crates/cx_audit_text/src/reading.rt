//! Reading the text of a journal.

ghost use Rattle.std.specs.Prelude.{ℕ, ◌≡◌, ◌+◌, ◌<◌, ◌^◌, ◌++◌, ◌∷◌, [], List, true, map, IfOk, IfErr, MatchResult, OnOk};
ghost use Rattle.cx_words.specs.Cutting.{IsShort, lines_of, words_of};
ghost use Rattle.cx_audit_text.specs.lines.Lines.{Spells};
ghost use Rattle.cx_audit_text.specs.lines.Reading.{counted_behind, described, nothing, with_cookie, wrong_number, IsFirstBad, IsJournal, IsJournalCause, IsJudged, IsJudgedBehind, IsLineCause, IsRefusedAt};
ghost use Rattle.cx_audit_text.specs.declared.entries.JournalLine.{JournalLine};
ghost use Rattle.cx_audit_text.specs.declared.refusals.JournalRefusal.{JournalRefusal};
ghost use Rattle.cx_audit_text.specs.declared.refusals.WrongLine.{WrongLine};

use crate::entries::JournalLine;
use crate::forms::line_behind;
use crate::lines_places::places;
use crate::refusals::{JournalRefusal, LineRefusal, WrongLine};
use crate::{CountedAbove, JournalHead, WrongWord, head_named, wrong_word};
use cx_journal::Entry;
use cx_words::{first_line, shown_of, word_at, words};
use std::alloc::{AllocError, Global};

/// What the text of a journal says, line by line. The first line that is none is told with its first wrong word.
#[tactic(auto, using(crate::proofs::lines::Once::only_memory, crate::proofs::lines::Once::refused_at, crate::proofs::lines::Once::not_both_of))]
pub fn read(alloc: Global, bytes: &[u8]) -> Result<Vec<JournalLine>, JournalRefusal>
    ensures found { IfOk result (λ said. IsJournal bytes.now said.items) }
    ensures bad { IfErr result (IsJournalCause bytes.now) }
    // Where the bytes are the text of a journal, it is read, or memory is wanting.
    ensures only { (said : List JournalLine) → IsShort bytes.now → IsJournal bytes.now said
        → IfErr result (λ why. why ≡ JournalRefusal.OutOfMemory) }
    // Where a line is the first that says nothing, they are refused for it, or memory is wanting.
    ensures exact { (number : ℕ) (bad : WrongLine) → IsShort bytes.now → IsFirstBad nothing (lines_of bytes.now) number bad
        → MatchResult result (λ said. ⊥) (IsRefusedAt number bad) }
{
    said_in(alloc, bytes)
}

fn said_in(alloc: Global, bytes: &[u8]) -> Result<Vec<JournalLine>, JournalRefusal>
    ensures found { IfOk result (λ said. IsJournal bytes.now said.items) }
    ensures bad { IfErr result (IsJournalCause bytes.now) }
{
    let mut said = Vec::new(alloc);
    let mut counted = CountedAbove {
        issued: 0,
        cookies: 0,
    };
    let mut number = 0;
    let mut rest = bytes;
    'lines: while let Some((line, after)) = first_line(rest) {
        number += 1;
        match next_line(alloc, counted, line) {
            Ok(next) => {
                counted = counted_behind(counted, &next);
                add(&mut said, next)?;
            }
            Err(LineRefusal::Wrong(bad)) => return Err(JournalRefusal::BadLine(number, bad)),
            Err(LineRefusal::OutOfMemory) => return Err(JournalRefusal::OutOfMemory),
        }
        rest = after;
    }
    Ok(said)
}

fn add(said: &mut Vec<JournalLine>, next: JournalLine) -> Result<(), AllocError>
    ensures { OnOk result (said.new.items ≡ said.old.items ++ next ∷ []) }
{
    said.push(next)?;
    Ok(())
}

/// What the line says, where so much is counted above it.
fn next_line(alloc: Global, counted: CountedAbove, line: &[u8]) -> Result<JournalLine, LineRefusal>
    ensures ok { IfOk result (λ said. Spells counted said (words_of true line.now)) }
    ensures err { IfErr result (IsLineCause counted (words_of true line.now)) }
{
    let words = words(alloc, true, line)?;
    line_of(alloc, counted, words.as_slice())
}

/// What the words of a line say, where so much is counted of the lines above. Words that say nothing are refused for the first
/// that is wrong.
pub fn line_of(
    alloc: Global,
    counted: CountedAbove,
    words: &[&[u8]],
) -> Result<JournalLine, LineRefusal>
    ensures ok { IfOk result (λ said. Spells counted said (map (λ w. w.now) words.now)) }
    ensures err { IfErr result (IsLineCause counted (map (λ w. w.now) words.now)) }
{
    match judge_words(alloc, counted, words)? {
        Judged::Said(said) => Ok(said),
        Judged::Wrong(wrong) => Err(LineRefusal::Wrong(described(words, wrong))),
    }
}

/// What words are found to be.
#[derive(Drop)]
pub enum Judged {
    Said(JournalLine),
    Wrong(WrongWord),
}

fn judge_words(alloc: Global, counted: CountedAbove, words: &[&[u8]]) -> Result<Judged, AllocError>
    ensures { IfOk result (IsJudged counted (map (λ w. w.now) words.now)) }
{
    let [first, rest @ ..] = words else {
        return Ok(Judged::Wrong(WrongWord::UnknownWord));
    };
    let Some(head) = head_named(first) else {
        return Ok(Judged::Wrong(WrongWord::UnknownWord));
    };
    judge_behind(alloc, counted, head, rest)
}

fn judge_behind(
    alloc: Global,
    counted: CountedAbove,
    head: JournalHead,
    words: &[&[u8]],
) -> Result<Judged, AllocError>
    ensures { IfOk result (IsJudgedBehind counted head (map (λ w. w.now) words.now)) }
{
    if let Some(said) = line_behind(alloc, counted, head, words)? {
        return Ok(Judged::Said(said));
    }
    let places = places(alloc, head, words)?;
    match wrong_word(alloc, counted, 2, places.as_slice(), words)? {
        Some(wrong) => Ok(Judged::Wrong(wrong)),
        None => unreachable!(),
    }
}

fn described(words: &[&[u8]], wrong: WrongWord) -> WrongLine
    ensures { result ≡ described (map (λ w. w.now) words.now) wrong }
{
    let word = word_at(words, wrong_number(wrong));
    WrongLine {
        wrong,
        shown: shown_of(word),
    }
}

fn wrong_number(wrong: WrongWord) -> usize
    ensures { result ≡ wrong_number wrong }
{
    match wrong {
        WrongWord::UnknownWord => 1,
        WrongWord::Unfit(number, _) => number,
        WrongWord::Missing(number, _) => number,
        WrongWord::Extra(number) => number,
    }
}

/// What is counted behind the line.
pub fn counted_behind(counted: CountedAbove, said: &JournalLine) -> CountedAbove
    requires { counted.issued + 1 < 2 ^ 64 }
    ensures { result ≡ counted_behind counted said.now }
{
    match said {
        JournalLine::Entry(Entry::Issued(_)) => CountedAbove {
            issued: counted.issued + 1,
            cookies: counted.cookies,
        },
        JournalLine::Entry(Entry::Admitted(a)) => with_cookie(counted, a.cookie),
        JournalLine::Entry(Entry::Resumed(a)) => with_cookie(counted, a.cookie),
        JournalLine::Entry(Entry::Sent(s)) => with_cookie(counted, s.cookie),
        JournalLine::Entry(Entry::Handled(h)) => with_cookie(counted, h.cookie),
        _ => counted,
    }
}

fn with_cookie(counted: CountedAbove, cookie: u64) -> CountedAbove
    ensures { result ≡ with_cookie counted cookie }
{
    CountedAbove {
        issued: counted.issued,
        cookies: counted.cookies.max(cookie),
    }
}
