//! The sentence on a line that is none of a journal.

ghost use Rattle.std.specs.Prelude.{◌≡◌};
ghost use Rattle.cx_help.specs.audit.Wrong.{anew_text, counts_anew, journal_words_text};

use crate::asides::{aside, first_aside};
use crate::audit_forms::line_form;
use crate::audit_places::place_text;
use crate::{Word, has_leading_zero};
use cx_audit_text::{JournalPlace, WrongLine, WrongWord};
use cx_words::Shown;
use std::fmt;

/// The first line of a text that is none of a journal: its number, its first wrong word, what the place of that takes, what the line
/// shows besides, and its form with an example.
#[derive(Clone, Copy)]
pub struct WrongInJournal<'a> {
    /// The number of the line, from 1.
    pub number: u64,
    /// Its bytes; none where they aren't known.
    pub line: &'a [u8],
    pub bad: WrongLine,
}

impl fmt::Display for WrongInJournal<'_> {
    ghost use Rattle.std.specs.Prelude.{Some};
    ghost use Rattle.cx_help.specs.audit.Wrong.{wrong_in_journal_text};

    ghost output = { λ wrong. Some (wrong_in_journal_text wrong.number wrong.line.now wrong.bad) };

    fn fmt<W: fmt::Write>(&self, f: &mut fmt::Formatter<W>) -> fmt::Result {
        write!(
            f,
            "line {} of the journal: {}",
            self.number,
            WrongThere(self.line, &self.bad)
        )
    }
}

/// The first wrong word of a line.
#[derive(Clone, Copy)]
struct WrongThere<'a>(&'a [u8], &'a WrongLine);

impl fmt::Display for WrongThere<'_> {
    ghost use Rattle.std.specs.Prelude.{Some};
    ghost use Rattle.cx_help.specs.audit.Wrong.{wrong_text};

    ghost output = { λ there. Some (wrong_text there.0.now there.1.now.wrong there.1.now.shown) };

    fn fmt<W: fmt::Write>(&self, f: &mut fmt::Formatter<W>) -> fmt::Result {
        let line = self.0;
        let shown = &self.1.shown;
        match self.1.wrong {
            WrongWord::UnknownWord => write!(
                f,
                "its first word, {}, begins no line{}{}",
                Word(shown),
                first_aside(line, shown),
                journal_words()
            ),
            WrongWord::Unfit(number, place) => write!(
                f,
                "word {}, {}, {}{}{}",
                number,
                Word(shown),
                Unfit(place, shown),
                aside(line, shown),
                line_form(line)
            ),
            WrongWord::Missing(number, place) => {
                let missing = MissingWord(
                    number,
                    place_text(place),
                    aside(line, shown),
                    line_form(line),
                );
                write!(f, "{}", missing)
            }
            WrongWord::Extra(number) => write!(
                f,
                "word {}, {}, is one too many{}{}",
                number,
                Word(shown),
                aside(line, shown),
                line_form(line)
            ),
        }
    }
}

/// A word that is missing: its number, what its place takes, what the line shows besides, and its form.
#[derive(Clone, Copy)]
struct MissingWord(usize, &'static str, &'static str, &'static str);

impl fmt::Display for MissingWord {
    ghost use Rattle.std.specs.Prelude.{Some};
    ghost use Rattle.cx_help.specs.audit.Wrong.{missing_word_text};

    ghost output = { λ word. Some (missing_word_text word.0 word.1.now word.2.now word.3.now) };

    fn fmt<W: fmt::Write>(&self, f: &mut fmt::Formatter<W>) -> fmt::Result {
        write!(
            f,
            "word {} is missing: {}{}{}",
            self.0, self.1, self.2, self.3
        )
    }
}

/// What is wrong with a word at its place.
#[derive(Clone, Copy)]
struct Unfit<'a>(JournalPlace, &'a Shown);

impl fmt::Display for Unfit<'_> {
    ghost use Rattle.std.specs.Prelude.{Some};
    ghost use Rattle.cx_help.specs.audit.Wrong.{unfit_text};

    ghost output = { λ word. Some (unfit_text word.0 word.1.now) };

    fn fmt<W: fmt::Write>(&self, f: &mut fmt::Formatter<W>) -> fmt::Result {
        let place = place_text(self.0);
        if has_leading_zero(self.1) {
            return write!(f, "has a leading zero; its place takes {place}");
        }
        let anew = anew(counts_anew(self.0, self.1));
        write!(f, "isn't what its place takes: {place}{anew}")
    }
}

/// Whether a ticket is counted from 1 again.
fn counts_anew(place: JournalPlace, shown: &Shown) -> bool
    ensures { result ≡ counts_anew place shown.now }
{
    match place {
        JournalPlace::Next => shown.length == 1 && shown.bytes[0] == b'1',
        _ => false,
    }
}

/// Where a second journal stands behind the first.
fn anew(counts_anew: bool) -> &'static str
    ensures { result.now ≡ anew_text counts_anew }
{
    if counts_anew {
        return " (where a second journal begins here, audit it by itself)";
    }
    ""
}

/// The words that begin a line.
fn journal_words() -> &'static str
    ensures { result.now ≡ journal_words_text }
{
    "; a line of a journal begins with saved, issued, fetched, looked, admitted, resumed, sent, handled, answered, refused, ended, \
    restarted, broken, leaked or administered"
}
