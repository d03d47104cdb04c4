//! The script of a node, and its reader.

ghost use Rattle.std.specs.Prelude.{ℕ, ◌≡◌, ◌≤◌, List, length, IfOk, IfErr, OnOk};
ghost use Rattle.std.specs.Option.{option_map};
ghost use Rattle.cx_words.specs.Cutting.{lines_of, IsShort};
ghost use Rattle.cx_schedule.specs.Files.{Refuses, RefusesAt};
ghost use Rattle.cx_schedule.specs.Grammars.{line_words};
ghost use Rattle.cx_schedule.specs.NodeFiles.{AddsToScript, IsFirstOutsideScript, IsScriptCause, IsScriptLineCause, IsScriptReason, NodeLines};
ghost use Rattle.cx_schedule.specs.NodeLines.{node_names, IsNodeLineCause, SpellsNodeLine};
ghost use Rattle.cx_schedule.specs.declared.node_lines.NodeLine.{NodeLine};
ghost use Rattle.cx_schedule.specs.declared.refusals.ScheduleRefusal.{ScheduleRefusal};

use crate::node_lines::{NodeLine, node_line_of};
use crate::node_names::{NodeNames, node_names};
use crate::refusals::ScheduleRefusal;
use crate::script::groups;
use cx_base::{Duplicate, EntityName, Items, copy_items};
use cx_lines::LineRefusal;
use cx_words::{first_line, is_short, is_skipped, words};
use std::alloc::{AllocError, Global};
use std::marker::Model;

/// The script of a node: its lines in order, without those that are empty or comments.
#[derive(Drop)]
pub struct NodeScript {
    lines: Items<NodeLine>,
}

impl Model for NodeScript {
    ghost use Rattle.std.specs.Prelude.{List};
    ghost use Rattle.cx_schedule.specs.declared.node_lines.NodeLine.{NodeLine};

    ghost Value = { List NodeLine };

    ghost view = { λ s. s.lines };
}

impl NodeScript {
    /// The lines.
    pub fn lines(&self) -> &[NodeLine]
        ensures { result.now ≡ self.now }
    {
        self.lines.all()
    }
}

impl Duplicate for NodeScript {
    fn copy(&self, alloc: Global) -> Result<NodeScript, AllocError> {
        let lines = copy_items(alloc, &self.lines)?;
        Ok(NodeScript { lines })
    }
}

/// Reads the script of the node of this name and with these peers, or of the monitor, which has no name and knows the lines
/// `gone` and `stop` alone. It is a text as a schedule is. Peers that are no daemons count for nothing.
#[tactic(auto, using(crate::proofs::NodeLaws::only_memory))]
pub fn read_node(
    alloc: Global,
    bytes: &[u8],
    name: Option<&EntityName>,
    peers: &[EntityName],
) -> Result<NodeScript, ScheduleRefusal>
    // The lines of the bytes, or the first of them that is outside of the grammar, or too many bytes or lines.
    ensures found { IfOk result (λ s. NodeLines (node_names (option_map (λ n. n.now) name.entry) peers.now) bytes.now s) }
    ensures short { OnOk result (IsShort bytes.now) }
    ensures bad { IfErr result (IsScriptCause (node_names (option_map (λ n. n.now) name.entry) peers.now) bytes.now) }
    // Bytes are those of one script at most.
    ensures one { (s : List NodeLine) → NodeLines (node_names (option_map (λ n. n.now) name.entry) peers.now) bytes.now s → IfOk result (λ read. read ≡ s) }
    // Where the bytes are a script, it is read, or memory is wanting.
    ensures only { (s : List NodeLine) → IsShort bytes.now → NodeLines (node_names (option_map (λ n. n.now) name.entry) peers.now) bytes.now s
        → IfErr result (λ e. e ≡ ScheduleRefusal.OutOfMemory) }
    // Where a limit or a line is a reason to refuse them, they are refused for it, or memory is wanting. The n-th line is one
    // exactly where it is the first that spells none.
    ensures exact { (why : ScheduleRefusal) → IsScriptReason (node_names (option_map (λ n. n.now) name.entry) peers.now) bytes.now why → Refuses result why }
    ensures outside { (n : ℕ) → IsShort bytes.now → IsFirstOutsideScript (node_names (option_map (λ n. n.now) name.entry) peers.now) (lines_of bytes.now) n
        → RefusesAt result n }
    // What may be relied on.
    ensures few { IfOk result (λ s. length s ≤ 20000) }
{
    if !is_short(bytes) {
        return Err(ScheduleRefusal::TooLong);
    }
    let names = node_names(alloc, name, peers)?;
    let lines = read_script(alloc, &names, bytes)?;
    Ok(NodeScript { lines })
}

fn read_script(
    alloc: Global,
    names: &Option<NodeNames>,
    bytes: &[u8],
) -> Result<Items<NodeLine>, ScheduleRefusal>
    requires { IsShort bytes.now }
    ensures found { IfOk result (λ s. NodeLines names.now bytes.now s) }
    ensures bad { IfErr result (IsScriptCause names.now bytes.now) }
{
    let mut script: Items<NodeLine> = Items::new(alloc);
    let mut number: u32 = 1;
    let mut rest = bytes;
    'lines: while let Some((line, after)) = first_line(rest) {
        match add(alloc, names, &mut script, line) {
            Ok(()) => {}
            Err(LineRefusal::Fault(bad)) => {
                return Err(ScheduleRefusal::BadLine { line: number, bad });
            }
            Err(LineRefusal::OutOfMemory) => return Err(ScheduleRefusal::OutOfMemory),
        }
        number += 1;
        rest = after;
    }
    Ok(script)
}

/// Puts what the line of the file says behind the earlier lines: nothing where it is skipped.
fn add(
    alloc: Global,
    names: &Option<NodeNames>,
    script: &mut Items<NodeLine>,
    line: &[u8],
) -> Result<(), LineRefusal>
    ensures ok { (number : ℕ) → OnOk result (AddsToScript names.now number script.old line.now script.new) }
    ensures err { IfErr result (IsScriptLineCause names.now line.now) }
{
    if is_skipped(line) {
        return Ok(());
    }
    let read = spelled(alloc, names, line)?;
    script.push(alloc, read)?;
    Ok(())
}

// What a line of the file says that isn't skipped.
fn spelled(alloc: Global, names: &Option<NodeNames>, line: &[u8]) -> Result<NodeLine, LineRefusal>
    ensures ok { IfOk result (λ read. SpellsNodeLine names.now read (line_words line.now)) }
    ensures err { IfErr result (IsNodeLineCause names.now (line_words line.now)) }
{
    let words = words(alloc, groups(line), line)?;
    node_line_of(alloc, names, &words)
}

// Each of these goes to another thread, and is seen by several.
fn are_sendable() {
    is_sendable::<NodeScript>();
    is_sendable::<NodeLine>();
}

fn is_sendable<T: Send + Sync>() {}
