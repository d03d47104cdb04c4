//! The lines of the script of a node.

ghost use Rattle.std.specs.Prelude.{◌≡◌, ◌∷◌, [], true, false, map, IfOk, IfErr, IfNone, IfSome, Some};
ghost use Rattle.std.specs.Option.{option_map};
ghost use Rattle.cx_words.specs.lines.Known.{nothing};
ghost use Rattle.cx_words.specs.lines.Places.{is_whole};
ghost use Rattle.cx_words.specs.lines.Values.{NumberOf, SpellsItems};
ghost use Rattle.cx_lines.specs.Lines.{head_word, unknown_word};
ghost use Rattle.cx_lines.specs.Refusals.{IsLineCause};
ghost use Rattle.cx_lines.specs.Sights.{place_at};
ghost use Rattle.cx_schedule.specs.NodeLines.{bad_own, described_at, is_shared, script_form_of, script_places, script_word, shared_form_of, shared_line, unknown_first, BeginsShared, IsNodeLineCause, IsOwnCause, IsSharedCause, SpellsNodeLine, SpellsOwnLine, SpellsSharedAs};
ghost use Rattle.cx_schedule.specs.declared.node_lines.NodeLine.{NodeLine};
ghost use Rattle.cx_schedule.specs.declared.node_lines.ScriptForm.{ScriptForm};

use crate::node_names::NodeNames;
use cx_base::{Duplicate, EntityName};
use cx_lines::{BadWord, Head, Line, LineCommand, LineRefusal, NodeForm, NodeStep, line_of};
use cx_words::{
    FaultAt, Known, LineFault, WordPlace, command_named, first_fault, hint_in, is_word, number,
    shown_of, word_at,
};
use std::alloc::{AllocError, Global};

/// A line of the script of a node.
#[derive(PartialEq, Eq, Drop)]
pub enum NodeLine {
    /// The node is told to do something, where it is idle.
    Submit(LineCommand),
    /// A daemon drops its session of this number.
    DropSession(EntityName, u64),
    /// The next line waits until so many links were gone.
    Gone(u64),
    /// The node ends.
    Stop,
}

/// The form of a line that schedules don't have, told by its first word.
#[derive(Clone, Copy, Debug, PartialEq, Eq)]
pub enum ScriptForm {
    Gone,
    Stop,
}

/// The line that these words spell in the script of a node with these names.
pub(crate) fn node_line_of(
    alloc: Global,
    names: &Option<NodeNames>,
    words: &[&[u8]],
) -> Result<NodeLine, LineRefusal>
    ensures ok { IfOk result (λ l. SpellsNodeLine names.now l (map (λ w. w.now) words.now)) }
    ensures err { IfErr result (IsNodeLineCause names.now (map (λ w. w.now) words.now)) }
{
    let [first, rest @ ..] = words else {
        return Err(LineRefusal::Fault(unknown_first(words)));
    };
    match script_form_named(first) {
        Some(form) => own_line(alloc, form, words, rest),
        None => shared_with(alloc, names, shared_form_named(first), words),
    }
}

/// The form of a line that schedules don't have and that begins with the word.
#[tactic(auto, unfolding(crate::specs::NodeLines::script_form_of))]
fn script_form_named(word: &[u8]) -> Option<ScriptForm>
    ensures read { result ≡ script_form_of word.now }
    ensures spelled { IfSome result (λ form. word.now ≡ script_word form) }
{
    if is_word(word, "gone") {
        return Some(ScriptForm::Gone);
    }
    if is_word(word, "stop") {
        return Some(ScriptForm::Stop);
    }
    None
}

/// The form of a line of a schedule that scripts have too and that begins with the word.
fn shared_form_named(word: &[u8]) -> Option<Head>
    ensures read { result ≡ shared_form_of word.now }
    ensures spelled { IfSome result (λ form. word.now ≡ head_word form) }
{
    if let Some(form) = command_named(word) {
        return Some(Head::Submit(form));
    }
    if is_word(word, "drop") {
        return Some(Head::Node(NodeForm::DropSession));
    }
    None
}

/// The line that words with a first word of this form spell, or their first fault.
fn own_line(
    alloc: Global,
    form: ScriptForm,
    words: &[&[u8]],
    rest: &[&[u8]],
) -> Result<NodeLine, LineRefusal>
    requires { map (λ w. w.now) words.now ≡ script_word form ∷ map (λ w. w.now) rest.now }
    ensures ok { IfOk result (λ l. SpellsOwnLine form l (map (λ w. w.now) words.now)) }
    ensures err { IfErr result (IsOwnCause form (map (λ w. w.now) rest.now)) }
{
    if let Some(line) = own_behind(form, rest) {
        return Ok(line);
    }
    let bad = own_fault(alloc, form, words, rest)?;
    Err(LineRefusal::Fault(bad))
}

/// The line that these words behind a first word of this form spell.
fn own_behind(form: ScriptForm, words: &[&[u8]]) -> Option<NodeLine>
    ensures some { IfSome result (λ l. SpellsOwnLine form l (script_word form ∷ map (λ w. w.now) words.now)) }
    ensures none { IfNone result (is_whole nothing [] (script_places form) (map (λ w. w.now) words.now) ≡ false) }
{
    match form {
        ScriptForm::Gone => gone_behind(words),
        ScriptForm::Stop => stop_behind(words),
    }
}

fn gone_behind(words: &[&[u8]]) -> Option<NodeLine>
    ensures some { IfSome result (λ l. SpellsOwnLine ScriptForm.Gone l (script_word ScriptForm.Gone ∷ map (λ w. w.now) words.now)) }
    ensures none { IfNone result (is_whole nothing [] (script_places ScriptForm.Gone) (map (λ w. w.now) words.now) ≡ false) }
{
    let [word] = words else {
        return None;
    };
    Some(NodeLine::Gone(number(word)?))
}

fn stop_behind(words: &[&[u8]]) -> Option<NodeLine>
    ensures some { IfSome result (λ l. SpellsOwnLine ScriptForm.Stop l (script_word ScriptForm.Stop ∷ map (λ w. w.now) words.now)) }
    ensures none { IfNone result (is_whole nothing [] (script_places ScriptForm.Stop) (map (λ w. w.now) words.now) ≡ false) }
{
    let [] = words else {
        return None;
    };
    Some(NodeLine::Stop)
}

fn own_places(form: ScriptForm) -> &'static [WordPlace]
    ensures { result.now ≡ script_places form }
{
    match form {
        ScriptForm::Gone => &[WordPlace::Number],
        ScriptForm::Stop => &[],
    }
}

/// The first fault of such words, and what stands there.
fn own_fault(
    alloc: Global,
    form: ScriptForm,
    words: &[&[u8]],
    rest: &[&[u8]],
) -> Result<BadWord, AllocError>
    requires whole { map (λ w. w.now) words.now ≡ script_word form ∷ map (λ w. w.now) rest.now }
    requires faulty { is_whole nothing [] (script_places form) (map (λ w. w.now) rest.now) ≡ false }
    ensures { IfOk result (λ bad. bad_own form (script_word form) (map (λ w. w.now) rest.now) ≡ Some bad) }
{
    let places = own_places(form);
    let known = Known::new(alloc);
    match first_fault(alloc, &known, false, false, places, rest)? {
        Some(fault) => Ok(described_at(places, words, fault)),
        None => unreachable!(),
    }
}

/// What stands where these words have this fault.
fn described_at(places: &[WordPlace], words: &[&[u8]], fault: FaultAt) -> BadWord
    ensures { result ≡ described_at places.now (map (λ w. w.now) words.now) fault }
{
    let word = word_at(words, fault.word);
    BadWord {
        fault,
        form: None,
        takes: place_at(places, fault.word),
        shown: shown_of(word),
        hint: hint_in(word, words),
    }
}

fn place_at(places: &[WordPlace], number: usize) -> Option<WordPlace>
    ensures { result ≡ place_at places.now number }
{
    if number < 2 {
        return None;
    }
    places.get(number - 2).copied()
}

/// What stands where the first word begins no line.
fn unknown_first(words: &[&[u8]]) -> BadWord
    ensures { result ≡ unknown_first (map (λ w. w.now) words.now) }
{
    described_at(&[], words, unknown_word())
}

fn unknown_word() -> FaultAt
    ensures { result ≡ unknown_word }
{
    FaultAt {
        why: LineFault::UnknownWord,
        word: 1,
    }
}

/// The line that words spell which may begin with that of a form of a schedule's line, or their first fault.
fn shared_with(
    alloc: Global,
    names: &Option<NodeNames>,
    form: Option<Head>,
    words: &[&[u8]],
) -> Result<NodeLine, LineRefusal>
    requires { IfSome form (λ f. BeginsShared f (map (λ w. w.now) words.now)) }
    ensures ok { IfOk result (λ l. SpellsNodeLine names.now l (map (λ w. w.now) words.now)) }
    ensures err { IfErr result (IsSharedCause names.now (map (λ w. w.now) words.now) form) }
{
    let Some(names) = names else {
        return Err(LineRefusal::Fault(unknown_first(words)));
    };
    let Some(form) = form else {
        return Err(LineRefusal::Fault(unknown_first(words)));
    };
    shared_line(alloc, names.known_at(form), form, words)
}

fn shared_line(
    alloc: Global,
    known: &Known,
    form: Head,
    words: &[&[u8]],
) -> Result<NodeLine, LineRefusal>
    requires { BeginsShared form (map (λ w. w.now) words.now) }
    ensures ok { IfOk result (λ l. SpellsSharedAs known.now form l (map (λ w. w.now) words.now)) }
    ensures err { IfErr result (IsLineCause known.now (map (λ w. w.now) words.now)) }
{
    let line = line_of(alloc, known, words)?;
    Ok(of_schedule(line))
}

/// The line of a script that this line of a schedule is.
fn of_schedule(line: Line) -> NodeLine
    requires { is_shared line ≡ true }
    ensures { shared_line result ≡ Some line }
{
    match line {
        Line::Submit(command) => NodeLine::Submit(command),
        Line::Node(NodeStep::DropSession(daemon, session)) => {
            NodeLine::DropSession(daemon, session)
        }
        _ => unreachable!(),
    }
}

impl Duplicate for NodeLine {
    fn copy(&self, alloc: Global) -> Result<NodeLine, AllocError> {
        match self {
            NodeLine::Submit(command) => {
                let command = command.copy(alloc)?;
                Ok(NodeLine::Submit(command))
            }
            NodeLine::DropSession(daemon, session) => {
                let daemon = daemon.copy(alloc)?;
                Ok(NodeLine::DropSession(daemon, *session))
            }
            NodeLine::Gone(links) => Ok(NodeLine::Gone(*links)),
            NodeLine::Stop => Ok(NodeLine::Stop),
        }
    }
}
