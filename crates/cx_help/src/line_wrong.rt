//! What is wrong with a line of a schedule.

ghost use Rattle.std.specs.Prelude.{◌≡◌};
ghost use Rattle.cx_help.specs.line.Wrong.{first_words_text};

use crate::kin::or_kin;
use crate::line_forms::form;
use crate::problems::problem;
use crate::remarks::beside;
use crate::sights::LineSight;
use crate::words::Word;
use cx_lines::BadWord;
use cx_words::LineFault;
use std::fmt;

/// A line that is none, by what is told of it: which word is wrong, what stands there, what is wrong with it and what to write,
/// what the line shows besides, and the form of the line with an example.
#[derive(Clone, Copy)]
pub struct Wrong<'a>(pub &'a LineSight);

impl fmt::Display for Wrong<'_> {
    ghost use Rattle.std.specs.Prelude.{Some};
    ghost use Rattle.cx_help.specs.line.Wrong.{wrong_text};

    ghost output = { λ wrong. Some (wrong_text wrong.0.now) };

    fn fmt<W: fmt::Write>(&self, f: &mut fmt::Formatter<W>) -> fmt::Result {
        let bad = &self.0.bad;
        let beside = beside(self.0.remark, bad.hint);
        match bad.fault.why {
            LineFault::UnknownWord => {
                let beside = or_kin(beside, &bad.shown);
                write!(f, "{}", Unknown(bad, beside, first_words()))
            }
            LineFault::Missing => write!(f, "{}", Missing(bad, beside, form(bad.form))),
            LineFault::Extra => write!(f, "{}", Extra(bad, beside, form(bad.form))),
            LineFault::Order => write!(
                f,
                "it stands too low: lifetime, auth-lifetime, entity, seed, modes and leak lines stand above all others; move it up{}",
                form(bad.form)
            ),
            LineFault::BadNumber => {
                write!(f, "{}", Problem(bad, problem(bad), beside, form(bad.form)))
            }
            LineFault::BadName => {
                write!(f, "{}", Problem(bad, problem(bad), beside, form(bad.form)))
            }
            LineFault::BadText => {
                write!(f, "{}", Problem(bad, problem(bad), beside, form(bad.form)))
            }
            LineFault::UnknownNode => {
                write!(f, "{}", Problem(bad, problem(bad), beside, form(bad.form)))
            }
            LineFault::Repeated => {
                write!(f, "{}", Problem(bad, problem(bad), beside, form(bad.form)))
            }
        }
    }
}

/// The words that begin a line.
fn first_words() -> &'static str
    ensures { result.now ≡ first_words_text }
{
    "; a line begins with lifetime, auth-lifetime, entity, seed, modes, leak, clock, fetch, login, renew, connect, send, drop, tick, \
    do, carry, lose, inject, again, cut, restart, failsave or settle, and a comment with #"
}

/// A first word that begins no line, what is said besides, and the words that begin one.
#[derive(Clone, Copy)]
pub(crate) struct Unknown<'a>(
    pub(crate) &'a BadWord,
    pub(crate) &'static str,
    pub(crate) &'static str,
);

impl fmt::Display for Unknown<'_> {
    ghost use Rattle.std.specs.Prelude.{Some};
    ghost use Rattle.cx_help.specs.line.Wrong.{unknown_text};

    ghost output = { λ wrong. Some (unknown_text wrong.0.now wrong.1.now wrong.2.now) };

    fn fmt<W: fmt::Write>(&self, f: &mut fmt::Formatter<W>) -> fmt::Result {
        let bad = self.0;
        write!(
            f,
            "its first word, {}, begins no line{}{}",
            Word(&bad.shown),
            self.1,
            self.2
        )
    }
}

/// Too few words, what is said besides, and the form of the line.
#[derive(Clone, Copy)]
pub(crate) struct Missing<'a>(
    pub(crate) &'a BadWord,
    pub(crate) &'static str,
    pub(crate) &'static str,
);

impl fmt::Display for Missing<'_> {
    ghost use Rattle.std.specs.Prelude.{Some};
    ghost use Rattle.cx_help.specs.line.Wrong.{missing_text};

    ghost output = { λ wrong. Some (missing_text wrong.0.now wrong.1.now wrong.2.now) };

    fn fmt<W: fmt::Write>(&self, f: &mut fmt::Formatter<W>) -> fmt::Result {
        let bad = self.0;
        write!(
            f,
            "it ends with {}{}, and has too few words: {} at least are wanted{}",
            Word(&bad.shown),
            self.1,
            bad.fault.word,
            self.2
        )
    }
}

/// A word too many, what is said besides, and the form of the line.
#[derive(Clone, Copy)]
pub(crate) struct Extra<'a>(
    pub(crate) &'a BadWord,
    pub(crate) &'static str,
    pub(crate) &'static str,
);

impl fmt::Display for Extra<'_> {
    ghost use Rattle.std.specs.Prelude.{Some};
    ghost use Rattle.cx_help.specs.line.Wrong.{extra_text};

    ghost output = { λ wrong. Some (extra_text wrong.0.now wrong.1.now wrong.2.now) };

    fn fmt<W: fmt::Write>(&self, f: &mut fmt::Formatter<W>) -> fmt::Result {
        let bad = self.0;
        write!(
            f,
            "word {}, {}, is one too many{}{}",
            bad.fault.word,
            Word(&bad.shown),
            self.1,
            self.2
        )
    }
}

/// A word that is wrong at its place, what is wrong with it, what is said besides, and the form of the line.
#[derive(Clone, Copy)]
pub(crate) struct Problem<'a>(
    pub(crate) &'a BadWord,
    pub(crate) &'static str,
    pub(crate) &'static str,
    pub(crate) &'static str,
);

impl fmt::Display for Problem<'_> {
    ghost use Rattle.std.specs.Prelude.{Some};
    ghost use Rattle.cx_help.specs.line.Wrong.{problem_text};

    ghost output = { λ wrong. Some (problem_text wrong.0.now wrong.1.now wrong.2.now wrong.3.now) };

    fn fmt<W: fmt::Write>(&self, f: &mut fmt::Formatter<W>) -> fmt::Result {
        let bad = self.0;
        write!(
            f,
            "word {}, {}, {}{}{}",
            bad.fault.word,
            Word(&bad.shown),
            self.1,
            self.2,
            self.3
        )
    }
}
