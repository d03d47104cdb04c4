//! Reading the words of one line.

ghost use Rattle.std.specs.Prelude.{◌≡◌, map, IfOk, IfErr, IfNone, IfSome};
ghost use Rattle.cx_lines.specs.Lines.{unknown_word, IsFaulty, IsJudged, IsJudgedBehind, Spells, SpellsHere, fault_behind};
ghost use Rattle.cx_lines.specs.Refusals.{IsLineCause};

use crate::knowing::{is_late, is_spent};
use crate::lines::{Head, Line, head_of, line_behind, places};
use crate::refusals::LineRefusal;
use crate::sight::described;
use cx_words::{FaultAt, Known, LineFault, first_fault};
use std::alloc::{AllocError, Global};

/// The line that these words spell, where this is known of the lines above.
pub fn line_of(alloc: Global, known: &Known, words: &[&[u8]]) -> Result<Line, LineRefusal>
    ensures ok { IfOk result (λ l. Spells known.now l (map (λ w. w.now) words.now)) }
    ensures err { IfErr result (IsLineCause known.now (map (λ w. w.now) words.now)) }
{
    match judge_words(alloc, known, words)? {
        Judged::Spelled(line) => Ok(line),
        Judged::Faulty(fault) => {
            let bad = described(alloc, words, fault)?;
            Err(LineRefusal::Fault(bad))
        }
    }
}

/// What words are found to be.
#[derive(Drop)]
pub enum Judged {
    Spelled(Line),
    Faulty(FaultAt),
}

/// The line that these words spell, or their first fault.
fn judge_words(alloc: Global, known: &Known, words: &[&[u8]]) -> Result<Judged, AllocError>
    ensures { IfOk result (IsJudged known.now (map (λ w. w.now) words.now)) }
{
    let [first, rest @ ..] = words else {
        return Ok(Judged::Faulty(unknown_word()));
    };
    let Some(head) = head_of(first) else {
        return Ok(Judged::Faulty(unknown_word()));
    };
    judge_behind(alloc, known, head, rest)
}

fn unknown_word() -> FaultAt
    ensures { result ≡ unknown_word }
{
    FaultAt {
        why: LineFault::UnknownWord,
        word: 1,
    }
}

/// The same of words behind a first word of this form.
fn judge_behind(
    alloc: Global,
    known: &Known,
    head: Head,
    words: &[&[u8]],
) -> Result<Judged, AllocError>
    ensures { IfOk result (IsJudgedBehind known.now head (map (λ w. w.now) words.now)) }
{
    if let Some(line) = good_line(alloc, known, head, words)? {
        return Ok(Judged::Spelled(line));
    }
    match fault_behind(alloc, known, head, words)? {
        Some(fault) => Ok(Judged::Faulty(fault)),
        None => unreachable!(),
    }
}

/// The line; none where one of the words isn't good, or the line may not stand here.
fn good_line(
    alloc: Global,
    known: &Known,
    head: Head,
    words: &[&[u8]],
) -> Result<Option<Line>, AllocError>
    ensures some { IfOk result (λ found. IfSome found (SpellsHere known.now head (map (λ w. w.now) words.now))) }
    ensures none { IfOk result (λ found. IfNone found (IsFaulty known.now head (map (λ w. w.now) words.now))) }
{
    if is_spent(known, head) {
        return Ok(None);
    }
    if is_late(known, head) {
        return Ok(None);
    }
    line_behind(alloc, known, head, words)
}

/// The first fault of the words, and the word that has it.
fn fault_behind(
    alloc: Global,
    known: &Known,
    head: Head,
    words: &[&[u8]],
) -> Result<Option<FaultAt>, AllocError>
    ensures { IfOk result (λ found. found ≡ fault_behind known.now head (map (λ w. w.now) words.now)) }
{
    let wanted = places(alloc, head, words)?;
    first_fault(
        alloc,
        known,
        is_spent(known, head),
        is_late(known, head),
        wanted.as_slice(),
        words,
    )
}
