//! Which word of a command line is wrong, and why; and which ask for help.

ghost use Rattle.std.specs.Prelude.{◌≡◌, ◌<◌, ◌≤◌, length, map};
ghost use Rattle.std.specs.Str.{bytes_eq};
ghost use Rattle.cx_help.specs.command.Places.{place_at};
ghost use Rattle.cx_help.specs.command.Wrong.{asks_help, asks_version, is_help, missing, wrong_at, wrong_behind, wrong_by, wrong_from, wrong_of, wrong_seen};

use crate::command_places::{Place, fits, least_of, place_at};
use cx_command_line::{Form, form_of};

/// What is wrong with a word.
#[derive(Clone, Copy, Debug, PartialEq, Eq)]
pub enum Why {
    /// It begins no command.
    Unknown,
    /// It isn't what stands at its place.
    Bad(Place),
    /// It isn't there.
    Missing(Place),
    /// No word stands at its place in a command of this form.
    Extra(Form),
    /// It asks for this form.
    Asked(Form),
    /// It asks for the version.
    Version,
}

/// A word of the command line that is wrong, by its number from 1.
#[derive(Clone, Copy, Debug, PartialEq, Eq)]
pub struct WrongUsage {
    pub number: usize,
    pub why: Why,
}

/// The first word that is wrong, or that is missing, or that asks for the form of its command or for the version; none where there are
/// no words, or all commands are asked for.
pub fn wrong_of(words: &[&str]) -> Option<WrongUsage>
    ensures { result ≡ wrong_of (map (λ w. w.now) words.now) }
{
    match words {
        [command, values @ ..] => wrong_behind(command, values),
        [] => None,
    }
}

fn wrong_behind(command: &str, values: &[&str]) -> Option<WrongUsage>
    ensures { result ≡ wrong_behind command.now (map (λ w. w.now) values.now) }
{
    if asks_help(command) {
        return None;
    }
    if asks_version(command) {
        return Some(WrongUsage {
            number: 1,
            why: Why::Version,
        });
    }
    wrong_by(form_of(command), values)
}

/// Whether a first word asks for all commands.
fn asks_help(word: &str) -> bool
    ensures { result ≡ asks_help word.now }
{
    is_text(word, "help") || is_help(word)
}

/// Whether a word behind that of a command asks for its form.
fn is_help(word: &str) -> bool
    ensures { result ≡ is_help word.now }
{
    is_text(word, "--help") || is_text(word, "-h")
}

fn asks_version(word: &str) -> bool
    ensures { result ≡ asks_version word.now }
{
    is_text(word, "--version")
}

fn is_text(word: &str, text: &str) -> bool
    ensures { result ≡ bytes_eq word.now text.now }
{
    word.as_bytes() == text.as_bytes()
}

fn wrong_by(form: Option<Form>, values: &[&str]) -> Option<WrongUsage>
    ensures { result ≡ wrong_by form (map (λ w. w.now) values.now) }
{
    let Some(form) = form else {
        return Some(WrongUsage {
            number: 1,
            why: Why::Unknown,
        });
    };
    match first_wrong(form, values) {
        Some(wrong) => Some(wrong),
        None => missing(form, values.len()),
    }
}

// The first of the words behind that of a command of this form that is wrong.
#[tactic(auto, using(crate::proofs::command::Seen::seen_so))]
fn first_wrong(form: Form, values: &[&str]) -> Option<WrongUsage>
    ensures { result ≡ wrong_from form 0 (map (λ w. w.now) values.now) }
{
    wrong_seen(form, values)
}

fn wrong_seen(form: Form, values: &[&str]) -> Option<WrongUsage>
    ensures { result ≡ wrong_seen form 0 values.now }
{
    let mut number: usize = 0;
    for word in values {
        let wrong = wrong_at(form, number, word);
        if wrong.is_some() {
            return wrong;
        }
        number += 1;
    }
    None
}

fn wrong_at(form: Form, number: usize, word: &str) -> Option<WrongUsage>
    requires { number < 4611686018427387904 }
    ensures { result ≡ wrong_at form number word.now }
{
    if is_help(word) {
        return Some(WrongUsage {
            number: number + 2,
            why: Why::Asked(form),
        });
    }
    let Some(place) = place_at(form, number) else {
        return Some(WrongUsage {
            number: number + 2,
            why: Why::Extra(form),
        });
    };
    if fits(place, word) {
        return None;
    }
    Some(WrongUsage {
        number: number + 2,
        why: Why::Bad(place),
    })
}

// A word that is missing behind so many.
fn missing(form: Form, count: usize) -> Option<WrongUsage>
    requires { count < 4611686018427387904 }
    ensures { result ≡ missing form count }
{
    if count >= least_of(form, count) {
        return None;
    }
    match place_at(form, count) {
        Some(place) => Some(WrongUsage {
            number: count + 2,
            why: Why::Missing(place),
        }),
        None => None,
    }
}
