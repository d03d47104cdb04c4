//! The words of a journal's lines.

ghost use Rattle.std.specs.Prelude.{◌≡◌, IfOk, string_bytes};
ghost use Rattle.std.specs.Fmt.{WritesOnOk};
ghost use Rattle.cx_journal.specs.Numbered.{numbered};
ghost use Rattle.cx_journal.specs.Words.{word_text, data_text, operation_text};

use cx_base::{Blob, Operation, Reading, SECOND, Text};
use cx_rotate::Generations;
use std::alloc::{AllocError, Global};
use std::fmt;

/// A reading in seconds, with a point and nine digits where its nanoseconds aren't zero.
#[derive(Clone, Copy)]
pub struct Seconds(pub Reading);

impl fmt::Display for Seconds {
    ghost use Rattle.std.specs.Prelude.{Some};
    ghost use Rattle.cx_journal.specs.Words.{reading_text};

    ghost output = { λ seconds. Some (reading_text seconds.0) };

    #[tactic(auto, using(crate::proofs::Digits::nine))]
    fn fmt<W: fmt::Write>(&self, f: &mut fmt::Formatter<W>) -> fmt::Result {
        let nanoseconds = self.0 % SECOND;
        if nanoseconds == 0 {
            write!(f, "{}", self.0 / SECOND)
        } else {
            write!(f, "{}.{:09}", self.0 / SECOND, nanoseconds)
        }
    }
}

/// The reading at which a view was asked for, `-` where no fetch was.
#[derive(Clone, Copy)]
pub struct Asked(pub Option<Reading>);

impl fmt::Display for Asked {
    ghost use Rattle.std.specs.Prelude.{Some};
    ghost use Rattle.cx_journal.specs.Words.{asked_text};

    ghost output = { λ asked. Some (asked_text asked.0) };

    fn fmt<W: fmt::Write>(&self, f: &mut fmt::Formatter<W>) -> fmt::Result {
        match self.0 {
            None => write!(f, "-"),
            Some(reading) => write!(f, "{}", Seconds(reading)),
        }
    }
}

/// The ids of generations, joined by commas, `-` where there are none.
#[derive(Clone, Copy)]
pub struct Ids(pub Generations);

impl fmt::Display for Ids {
    ghost use Rattle.std.specs.Prelude.{Some};
    ghost use Rattle.cx_journal.specs.Words.{ids_text};

    ghost output = { λ ids. Some (ids_text ids.0) };

    fn fmt<W: fmt::Write>(&self, f: &mut fmt::Formatter<W>) -> fmt::Result {
        let generations = self.0;
        match generations.all() {
            None => write!(f, "-"),
            Some(all) => {
                let (first, second, third) = (all[0].id, all[1].id, all[2].id);
                write!(f, "{},{},{}", first, second, third)
            }
        }
    }
}

/// Writes a word, and the numbers behind it: a second one only behind a first.
pub fn put_numbered<W: fmt::Write>(
    f: &mut fmt::Formatter<W>,
    word: &str,
    first: Option<u64>,
    second: Option<u64>,
) -> fmt::Result
    ensures { WritesOnOk W.write_str_gives f.old result (numbered word.now first second) f.new }
{
    match first {
        None => f.write_str(word),
        Some(first) => match second {
            None => write!(f, "{} {}", word, first),
            Some(second) => write!(f, "{} {} {}", word, first, second),
        },
    }
}

/// The five words of an operation.
pub fn operation_text(alloc: Global, operation: &Operation) -> Result<String, AllocError>
    ensures { IfOk result (λ text. string_bytes text ≡ operation_text operation.now) }
{
    let data = data_text(alloc, &operation.bytes)?;
    format!(in alloc;
        "{} {} {} {} {}",
        operation.access,
        word_text(&operation.pool),
        word_text(&operation.namespace),
        word_text(&operation.object),
        data
    )
}

fn word_text(word: &Text) -> &str
    ensures { result.now ≡ word_text word.now }
{
    if word.bytes().is_empty() {
        "-"
    } else {
        word.as_str()
    }
}

fn data_text(alloc: Global, bytes: &Blob) -> Result<String, AllocError>
    ensures { IfOk result (λ text. string_bytes text ≡ data_text bytes.now) }
{
    if bytes.bytes().is_empty() {
        return String::from_str(alloc, "-");
    }
    hex::encode(alloc, bytes.bytes())
}
