//! Lines on clocks, nodes and saves.

ghost use Rattle.std.specs.Prelude.{◌≡◌, ◌∷◌, [], map, IfOk, IfSome};
ghost use Rattle.cx_words.specs.declared.known.Known.{Known};
ghost use Rattle.cx_lines.specs.NodeSteps.{node_form, node_form_of, node_places, node_step_word, IsNodeStep};
ghost use Rattle.cx_lines.specs.declared.node_steps.NodeForm.{NodeForm};

use cx_base::{Duplicate, EntityName, NodeName, Reading};
use cx_words::{
    Known, LeftState, WordPlace, daemon, is_word, known_node, number, reading, state_named,
};
use std::alloc::{AllocError, Global};

/// What happens to clocks, nodes and saves.
#[derive(PartialEq, Eq, Drop)]
pub enum NodeStep {
    /// All clocks read this from here on, below 4,000,000,000 s.
    Clock(Reading),
    /// The clock of one node does.
    ClockOf(NodeName, Reading),
    /// A daemon drops its session of this number.
    DropSession(EntityName, u64),
    /// A node is told that time has passed.
    Tick(NodeName),
    /// A node starts again.
    Restart(NodeName),
    /// The monitor's next save fails, and leaves this state.
    FailSave(LeftState),
    /// All that is in flight arrives, and all that this sends.
    Settle,
}

/// The form of such a line, told by its first word.
#[derive(Clone, Copy, Debug, PartialEq, Eq)]
pub enum NodeForm {
    Clock,
    DropSession,
    Tick,
    Restart,
    FailSave,
    Settle,
}

/// The form of such a line that begins with the word.
#[tactic(auto, unfolding(crate::specs::NodeSteps::node_form_of))]
pub fn node_step_named(word: &[u8]) -> Option<NodeForm>
    ensures read { result ≡ node_form_of word.now }
    ensures spelled { IfSome result (λ form. word.now ≡ node_step_word form) }
{
    if is_word(word, "clock") {
        return Some(NodeForm::Clock);
    }
    if is_word(word, "drop") {
        return Some(NodeForm::DropSession);
    }
    if is_word(word, "tick") {
        return Some(NodeForm::Tick);
    }
    if is_word(word, "restart") {
        return Some(NodeForm::Restart);
    }
    if is_word(word, "failsave") {
        return Some(NodeForm::FailSave);
    }
    if is_word(word, "settle") {
        return Some(NodeForm::Settle);
    }
    None
}

impl NodeStep {
    /// The form of the line.
    pub fn form(&self) -> NodeForm
        ensures { result ≡ node_form self.now }
    {
        match self {
            NodeStep::Clock(_) => NodeForm::Clock,
            NodeStep::ClockOf(_, _) => NodeForm::Clock,
            NodeStep::DropSession(_, _) => NodeForm::DropSession,
            NodeStep::Tick(_) => NodeForm::Tick,
            NodeStep::Restart(_) => NodeForm::Restart,
            NodeStep::FailSave(_) => NodeForm::FailSave,
            NodeStep::Settle => NodeForm::Settle,
        }
    }
}

/// The places behind the first word, where these words stand there.
pub fn node_places(form: NodeForm, words: &[&[u8]]) -> &'static [WordPlace]
    ensures { result.now ≡ node_places form (map (λ w. w.now) words.now) }
{
    match form {
        NodeForm::Clock => clock_places(words),
        NodeForm::DropSession => &[WordPlace::Daemon, WordPlace::Number],
        NodeForm::Tick => &[WordPlace::Node],
        NodeForm::Restart => &[WordPlace::Node],
        NodeForm::FailSave => &[WordPlace::LeftState],
        NodeForm::Settle => &[],
    }
}

fn clock_places(words: &[&[u8]]) -> &'static [WordPlace]
    ensures { result.now ≡ node_places NodeForm.Clock (map (λ w. w.now) words.now) }
{
    if words.len() <= 1 {
        &[WordPlace::Reading]
    } else {
        &[WordPlace::Node, WordPlace::Reading]
    }
}

/// The line that these words behind a first word of this form spell; none where one of them isn't good at its place.
pub fn node_step_of(
    alloc: Global,
    known: &Known,
    form: NodeForm,
    words: &[&[u8]],
) -> Result<Option<NodeStep>, AllocError>
    ensures { IfOk result (IsNodeStep known.now form (map (λ w. w.now) words.now)) }
{
    match form {
        NodeForm::Clock => clock_of(alloc, known, words),
        NodeForm::DropSession => drop_of(alloc, known, words),
        NodeForm::Tick => tick_of(alloc, known, words),
        NodeForm::Restart => restart_of(alloc, known, words),
        NodeForm::FailSave => Ok(failsave_of(words)),
        NodeForm::Settle => Ok(settle_of(words)),
    }
}

fn clock_of(alloc: Global, known: &Known, words: &[&[u8]]) -> Result<Option<NodeStep>, AllocError>
    ensures { IfOk result (IsNodeStep known.now NodeForm.Clock (map (λ w. w.now) words.now)) }
{
    match words {
        [word] => {
            let Some(reading) = reading(word) else {
                return Ok(None);
            };
            Ok(Some(NodeStep::Clock(reading)))
        }
        [node, word] => clock_of_node(alloc, known, node, word),
        _ => Ok(None),
    }
}

fn clock_of_node(
    alloc: Global,
    known: &Known,
    node: &[u8],
    word: &[u8],
) -> Result<Option<NodeStep>, AllocError>
    ensures { IfOk result (IsNodeStep known.now NodeForm.Clock (node.now ∷ word.now ∷ [])) }
{
    let Some(node) = known_node(alloc, known, node)? else {
        return Ok(None);
    };
    let Some(reading) = reading(word) else {
        return Ok(None);
    };
    Ok(Some(NodeStep::ClockOf(node, reading)))
}

fn drop_of(alloc: Global, known: &Known, words: &[&[u8]]) -> Result<Option<NodeStep>, AllocError>
    ensures { IfOk result (IsNodeStep known.now NodeForm.DropSession (map (λ w. w.now) words.now)) }
{
    let [word, session] = words else {
        return Ok(None);
    };
    let Some(daemon) = daemon(alloc, known, word)? else {
        return Ok(None);
    };
    let Some(session) = number(session) else {
        return Ok(None);
    };
    Ok(Some(NodeStep::DropSession(daemon, session)))
}

fn tick_of(alloc: Global, known: &Known, words: &[&[u8]]) -> Result<Option<NodeStep>, AllocError>
    ensures { IfOk result (IsNodeStep known.now NodeForm.Tick (map (λ w. w.now) words.now)) }
{
    let [word] = words else {
        return Ok(None);
    };
    let Some(node) = known_node(alloc, known, word)? else {
        return Ok(None);
    };
    Ok(Some(NodeStep::Tick(node)))
}

fn restart_of(alloc: Global, known: &Known, words: &[&[u8]]) -> Result<Option<NodeStep>, AllocError>
    ensures { IfOk result (IsNodeStep known.now NodeForm.Restart (map (λ w. w.now) words.now)) }
{
    let [word] = words else {
        return Ok(None);
    };
    let Some(node) = known_node(alloc, known, word)? else {
        return Ok(None);
    };
    Ok(Some(NodeStep::Restart(node)))
}

fn failsave_of(words: &[&[u8]]) -> Option<NodeStep>
    ensures { (known : Known) → IsNodeStep known NodeForm.FailSave (map (λ w. w.now) words.now) result }
{
    let [word] = words else {
        return None;
    };
    Some(NodeStep::FailSave(state_named(word)?))
}

fn settle_of(words: &[&[u8]]) -> Option<NodeStep>
    ensures { (known : Known) → IsNodeStep known NodeForm.Settle (map (λ w. w.now) words.now) result }
{
    let [] = words else {
        return None;
    };
    Some(NodeStep::Settle)
}

impl Duplicate for NodeStep {
    fn copy(&self, alloc: Global) -> Result<NodeStep, AllocError> {
        match self {
            NodeStep::Clock(reading) => Ok(NodeStep::Clock(*reading)),
            NodeStep::ClockOf(node, reading) => {
                let node = node.copy(alloc)?;
                Ok(NodeStep::ClockOf(node, *reading))
            }
            NodeStep::DropSession(daemon, session) => {
                let daemon = daemon.copy(alloc)?;
                Ok(NodeStep::DropSession(daemon, *session))
            }
            NodeStep::Tick(node) => {
                let node = node.copy(alloc)?;
                Ok(NodeStep::Tick(node))
            }
            NodeStep::Restart(node) => {
                let node = node.copy(alloc)?;
                Ok(NodeStep::Restart(node))
            }
            NodeStep::FailSave(state) => Ok(NodeStep::FailSave(*state)),
            NodeStep::Settle => Ok(NodeStep::Settle),
        }
    }
}
