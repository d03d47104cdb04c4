//! What a user reads of a word of a command line that is wrong.

ghost use Rattle.std.specs.Prelude.{◌≡◌};
ghost use Rattle.cx_help.specs.command.Sentences.{place_text, reads_a_file, version_text};

use crate::Word;
use crate::command_places::Place;
use crate::command_wrong::{Why, WrongUsage};
use cx_command_line::{Commands, Form, FormHelp, Guide};
use cx_words::shown_of;
use std::fmt;

/// A word that is wrong, with what stands there.
#[derive(Clone, Copy)]
pub struct WrongWords<'a> {
    pub wrong: WrongUsage,
    pub word: &'a str,
}

impl fmt::Display for WrongWords<'_> {
    ghost use Rattle.std.specs.Prelude.{Some};
    ghost use Rattle.cx_help.specs.command.Sentences.{why_text};

    ghost output = { λ words. Some (why_text words.wrong.number words.wrong.why words.word.now) };

    fn fmt<W: fmt::Write>(&self, f: &mut fmt::Formatter<W>) -> fmt::Result {
        let shown = Shown(self.wrong.number, self.word);
        match self.wrong.why {
            Why::Unknown => write!(
                f,
                "{}, begins no command; those that are served are {}",
                shown, Commands
            ),
            Why::Bad(place) => write!(
                f,
                "{}, is wrong there; it is to be {}",
                shown,
                place_text(place)
            ),
            Why::Missing(place) => write!(
                f,
                "word {} is missing; it is to be {}",
                self.wrong.number,
                place_text(place)
            ),
            Why::Extra(form) => write!(f, "{}, is one too many; {}", shown, Hint(form)),
            Why::Asked(form) => write!(f, "the command is:\n\n{}{}", FormHelp(form), Guide),
            Why::Version => write!(f, "{}", version()),
        }
    }
}

/// A word with its number.
#[derive(Clone, Copy)]
struct Shown<'a>(usize, &'a str);

impl fmt::Display for Shown<'_> {
    ghost use Rattle.std.specs.Prelude.{Some};
    ghost use Rattle.cx_help.specs.command.Sentences.{shown_text};

    ghost output = { λ word. Some (shown_text word.0 word.1.now) };

    fn fmt<W: fmt::Write>(&self, f: &mut fmt::Formatter<W>) -> fmt::Result {
        let shown = shown_of(self.1.as_bytes());
        write!(f, "word {}, {}", self.0, Word(&shown))
    }
}

/// How a command of this form is to be written, behind whose words there is one too many.
#[derive(Clone, Copy)]
struct Hint(Form);

impl fmt::Display for Hint {
    ghost use Rattle.std.specs.Prelude.{Some};
    ghost use Rattle.cx_help.specs.command.Sentences.{hint_text};

    ghost output = { λ hint. Some (hint_text hint.0) };

    fn fmt<W: fmt::Write>(&self, f: &mut fmt::Formatter<W>) -> fmt::Result {
        if reads_a_file(self.0) {
            return write!(
                f,
                "what a command reads is given by <, as in: cephx_cli {} < FILE",
                self.0
            );
        }
        write!(f, "its form is: cephx_cli {}", self.0)
    }
}

// Whether a command of this form reads a file, and has one word.
fn reads_a_file(form: Form) -> bool
    ensures { result ≡ reads_a_file form }
{
    matches!(form, Form::Replay | Form::Keyring | Form::Audit)
}

// What the program is.
fn version() -> &'static str
    ensures { result.now ≡ version_text }
{
    "version 0.1.0, proved with rattle-kit-13f, logic dac8208d650f15bf"
}

fn place_text(place: Place) -> &'static str
    ensures { result.now ≡ place_text place }
{
    match place {
        Place::Clients =>
            "how many clients a drill has: a number from 1 to 1,000, in digits alone, as 1000",
        Place::Seed =>
            "the seed of a drill: a number below 18,446,744,073,709,551,616, in digits alone, as 0",
        Place::Events =>
            "how many events the node takes: a number from 1 to 1,000,000, in digits alone, as 1000000",
        Place::Address => {
            "an address: four numbers from 0 to 255 with points, a colon and a port from 1 to 65,535, as 127.0.0.1:6789"
        }
        Place::Lifetime => {
            "a lifetime: a number of seconds from 1 to 31,536,000, in digits alone, as 3600; a monitor is given two of them, or none"
        }
        Place::Daemon => "a daemon's name: mds, osd or mgr, a point and an id, as osd.0",
        Place::Client => "a client's name: client, a point and an id, as client.admin",
        Place::Peer => "a daemon's name with its address, as osd.0@127.0.0.1:6800",
    }
}
