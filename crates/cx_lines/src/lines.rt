//! The lines of a schedule.

ghost use Rattle.std.specs.Prelude.{ℕ, ◌≡◌, ◌∷◌, [], ◌++◌, List, map, IfOk, IfSome};
ghost use Rattle.cx_lines.specs.Lines.{anything, behind_do, do_places, form_of, head_of, head_word, places, IsDo, IsLine};

use crate::commands::{LineCommand, command_of, command_places};
use crate::link_steps::{LinkForm, LinkStep, link_places, link_step_named, link_step_of};
use crate::node_steps::{NodeForm, NodeStep, node_places, node_step_named, node_step_of};
use crate::settings::{Setting, SettingForm, setting_named, setting_of, setting_places};
use crate::sight::BadWord;
use cx_base::Duplicate;
use cx_words::{CommandForm, Known, WordPlace, command_named, is_word};
use std::alloc::{AllocError, Global};

/// A line of a schedule.
#[derive(PartialEq, Eq, Drop)]
pub enum Line {
    /// A head line.
    Setting(Setting),
    /// A node is told to do something, and then all settles.
    Submit(LineCommand),
    /// A node is told to do something, and nothing settles.
    Do(LineCommand),
    /// Something happens to a link.
    Link(LinkStep),
    /// Something happens to a clock, a node or a save.
    Node(NodeStep),
}

/// The form of a line, told by its first word.
#[derive(Clone, Copy, Debug, PartialEq, Eq)]
pub enum Head {
    Setting(SettingForm),
    Submit(CommandForm),
    Do,
    Link(LinkForm),
    Node(NodeForm),
}

/// A line with its number in its file, from 1.
#[derive(PartialEq, Eq, Drop)]
pub struct Numbered {
    pub number: u32,
    pub line: Line,
}

/// The form that the first word begins.
pub fn head_of(word: &[u8]) -> Option<Head>
    ensures read { result ≡ head_of word.now }
    ensures spelled { IfSome result (λ head. word.now ≡ head_word head) }
{
    if let Some(form) = command_named(word) {
        return Some(Head::Submit(form));
    }
    if let Some(form) = setting_named(word) {
        return Some(Head::Setting(form));
    }
    if is_word(word, "do") {
        return Some(Head::Do);
    }
    if let Some(form) = link_step_named(word) {
        return Some(Head::Link(form));
    }
    if let Some(form) = node_step_named(word) {
        return Some(Head::Node(form));
    }
    None
}

impl Line {
    /// The form of the line.
    pub fn form(&self) -> Head
        ensures { result ≡ form_of self.now }
    {
        match self {
            Line::Setting(setting) => Head::Setting(setting.form()),
            Line::Submit(command) => Head::Submit(command.form()),
            Line::Do(_) => Head::Do,
            Line::Link(step) => Head::Link(step.form()),
            Line::Node(step) => Head::Node(step.form()),
        }
    }
}

/// The places behind the first word, in the form that these words come closest to.
pub fn places(alloc: Global, form: Head, words: &[&[u8]]) -> Result<Vec<WordPlace>, AllocError>
    ensures { IfOk result (λ found. found.items ≡ places form (map (λ w. w.now) words.now)) }
{
    match form {
        Head::Setting(form) => setting_places(alloc, form, words),
        Head::Submit(form) => Vec::from_slice(alloc, command_places(form, words)),
        Head::Do => do_places(alloc, words),
        Head::Link(form) => Vec::from_slice(alloc, link_places(form, words)),
        Head::Node(form) => Vec::from_slice(alloc, node_places(form, words)),
    }
}

fn do_places(alloc: Global, words: &[&[u8]]) -> Result<Vec<WordPlace>, AllocError>
    ensures { IfOk result (λ found. found.items ≡ do_places (map (λ w. w.now) words.now)) }
{
    let mut found = Vec::from_slice(alloc, &[WordPlace::Command])?;
    let [first, rest @ ..] = words else {
        return Ok(found);
    };
    let behind = behind_do(alloc, command_named(first), rest)?;
    found.extend_from_slice(behind.as_slice())?;
    Ok(found)
}

/// The places behind a word that begins this command, or none.
fn behind_do(
    alloc: Global,
    form: Option<CommandForm>,
    words: &[&[u8]],
) -> Result<Vec<WordPlace>, AllocError>
    ensures { IfOk result (λ found. found.items ≡ behind_do form (map (λ w. w.now) words.now)) }
{
    match form {
        Some(form) => Vec::from_slice(alloc, command_places(form, words)),
        None => anything(alloc, words),
    }
}

/// A place for each word, whatever it is.
fn anything(alloc: Global, words: &[&[u8]]) -> Result<Vec<WordPlace>, AllocError>
    ensures { IfOk result (λ found. found.items ≡ anything (map (λ w. w.now) words.now)) }
{
    let mut found = Vec::new(alloc);
    let mut rest = words;
    while let [_, after @ ..] = rest {
        found.push(WordPlace::Anything)?;
        rest = after;
    }
    Ok(found)
}

/// The line that these words behind a first word of this form spell; none where one of them isn't good at its place.
pub fn line_behind(
    alloc: Global,
    known: &Known,
    form: Head,
    words: &[&[u8]],
) -> Result<Option<Line>, AllocError>
    ensures { IfOk result (IsLine known.now form (map (λ w. w.now) words.now)) }
{
    match form {
        Head::Setting(form) => Ok(setting_of(alloc, known, form, words)?.map(Line::Setting)),
        Head::Submit(form) => Ok(command_of(alloc, known, form, words)?.map(Line::Submit)),
        Head::Do => Ok(do_of(alloc, known, words)?.map(Line::Do)),
        Head::Link(form) => Ok(link_step_of(alloc, form, words)?.map(Line::Link)),
        Head::Node(form) => Ok(node_step_of(alloc, known, form, words)?.map(Line::Node)),
    }
}

/// The command that these words behind `do` spell.
fn do_of(alloc: Global, known: &Known, words: &[&[u8]]) -> Result<Option<LineCommand>, AllocError>
    ensures { IfOk result (IsDo known.now (map (λ w. w.now) words.now)) }
{
    let [first, rest @ ..] = words else {
        return Ok(None);
    };
    do_behind(alloc, known, first, rest)
}

fn do_behind(
    alloc: Global,
    known: &Known,
    first: &[u8],
    rest: &[&[u8]],
) -> Result<Option<LineCommand>, AllocError>
    ensures { IfOk result (IsDo known.now (first.now ∷ map (λ w. w.now) rest.now)) }
{
    let Some(form) = command_named(first) else {
        return Ok(None);
    };
    command_of(alloc, known, form, rest)
}

impl Duplicate for Line {
    fn copy(&self, alloc: Global) -> Result<Line, AllocError> {
        match self {
            Line::Setting(setting) => {
                let setting = setting.copy(alloc)?;
                Ok(Line::Setting(setting))
            }
            Line::Submit(command) => {
                let command = command.copy(alloc)?;
                Ok(Line::Submit(command))
            }
            Line::Do(command) => {
                let command = command.copy(alloc)?;
                Ok(Line::Do(command))
            }
            Line::Link(step) => {
                let step = step.copy(alloc)?;
                Ok(Line::Link(step))
            }
            Line::Node(step) => {
                let step = step.copy(alloc)?;
                Ok(Line::Node(step))
            }
        }
    }
}

impl Duplicate for Numbered {
    fn copy(&self, alloc: Global) -> Result<Numbered, AllocError> {
        let line = self.line.copy(alloc)?;
        Ok(Numbered {
            number: self.number,
            line,
        })
    }
}

// Each of these goes to another thread, and is seen by several.
fn are_sendable() {
    is_sendable::<Line>();
    is_sendable::<Numbered>();
    is_sendable::<Head>();
    is_sendable::<BadWord>();
}

fn is_sendable<T: Send + Sync>() {}
