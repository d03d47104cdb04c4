//! How the program ended, and what is said of it.

ghost use Rattle.std.specs.Prelude.{◌≡◌, [], IfOk, string_bytes};
ghost use Rattle.cx_top.specs.Told.{or_told};
ghost use Rattle.cx_commands.specs.Ends.{is_node_done, number_of, ring_told};

use cx_help::{Ending, ring_end_told};
use cx_loading::NodeEnd;
use cx_top::{ProgramEnd, Status, StatusLine};
use std::alloc::{AllocError, Global};
use std::fmt;

/// How the program ended.
#[derive(Clone, Copy, Debug, PartialEq, Eq)]
pub enum CommandStatus {
    /// As a command that reads a text and writes one, or before a node ran or behind it.
    Text(Status),
    /// As its node.
    Node(NodeEnd),
}

impl CommandStatus {
    /// The number with which the program ends.
    pub fn number(self) -> u8
        ensures { result ≡ number_of self }
    {
        match self {
            CommandStatus::Text(status) => status.number(),
            CommandStatus::Node(end) => end.number(),
        }
    }
}

/// How the program ended, and what is said of it on standard error.
#[derive(Debug, Drop)]
pub struct CommandEnd {
    pub status: CommandStatus,
    /// Lines for standard error. Where there are none, the sentence of the status says all.
    pub told: String,
}

impl CommandEnd {
    /// Of which the sentence of the status says all.
    pub fn plain(alloc: Global, status: CommandStatus) -> CommandEnd
        ensures status { result.status ≡ status }
        ensures told { string_bytes result.told ≡ [] }
    {
        CommandEnd {
            status,
            told: String::new(alloc),
        }
    }

    /// As a command that reads a text and writes one.
    pub fn of_text(ended: ProgramEnd) -> CommandEnd
        ensures status { result.status ≡ CommandStatus.Text ended.status }
        ensures told { result.told ≡ ended.told }
    {
        CommandEnd {
            status: CommandStatus::Text(ended.status),
            told: ended.told,
        }
    }

    /// With what is said of the keyring that a node loaded, where a line of it is wrong.
    pub fn with_keyring(self, alloc: Global, bytes: &[u8]) -> Result<CommandEnd, AllocError>
        ensures status { IfOk result (λ ended. ended.status ≡ self.status) }
        ensures told { IfOk result (λ ended. string_bytes ended.told ≡ or_told (ring_told bytes.now self.status) (string_bytes self.told)) }
    {
        let told = ring_told(alloc, bytes, self.status)?;
        match told.as_bytes() {
            [] => Ok(self),
            [..] => Ok(CommandEnd {
                status: self.status,
                told,
            }),
        }
    }
}

// What is said of the keyring that a node loaded.
fn ring_told(alloc: Global, bytes: &[u8], status: CommandStatus) -> Result<String, AllocError>
    ensures { IfOk result (λ told. string_bytes told ≡ ring_told bytes.now status) }
{
    match status {
        CommandStatus::Text(_) => Ok(String::new(alloc)),
        CommandStatus::Node(end) => ring_end_told(alloc, bytes, end),
    }
}

/// The lines for standard error: those that are told, or else the sentence of the status.
impl fmt::Display for CommandEnd {
    ghost use Rattle.std.specs.Prelude.{Some};
    ghost use Rattle.cx_commands.specs.Ends.{printed};

    ghost output = { λ ended. Some (printed ended) };

    fn fmt<W: fmt::Write>(&self, f: &mut fmt::Formatter<W>) -> fmt::Result {
        match self.told.as_bytes() {
            [] => write!(f, "{}", Sentence(self.status)),
            [..] => write!(f, "{}", self.told),
        }
    }
}

/// The sentence of a status.
#[derive(Clone, Copy)]
struct Sentence(CommandStatus);

impl fmt::Display for Sentence {
    ghost use Rattle.std.specs.Prelude.{Some};
    ghost use Rattle.cx_commands.specs.Ends.{sentence_of};

    ghost output = { λ sentence. Some (sentence_of sentence.0) };

    fn fmt<W: fmt::Write>(&self, f: &mut fmt::Formatter<W>) -> fmt::Result {
        match self.0 {
            CommandStatus::Text(status) => write!(f, "{}", StatusLine(status)),
            CommandStatus::Node(end) => write!(f, "{}", NodeLine(end)),
        }
    }
}

/// The line of how a node ended.
#[derive(Clone, Copy)]
struct NodeLine(NodeEnd);

impl fmt::Display for NodeLine {
    ghost use Rattle.std.specs.Prelude.{Some};
    ghost use Rattle.cx_commands.specs.Ends.{sentence_of};
    ghost use Rattle.cx_commands.specs.declared.ends.CommandStatus.TheVariants.{Node};

    ghost output = { λ line. Some (sentence_of (Node line.0)) };

    fn fmt<W: fmt::Write>(&self, f: &mut fmt::Formatter<W>) -> fmt::Result {
        if is_node_done(self.0) {
            return Ok(());
        }
        write!(f, "cephx_cli: {}\n", Ending(self.0))
    }
}

fn is_node_done(end: NodeEnd) -> bool
    ensures { result ≡ is_node_done end }
{
    matches!(end, NodeEnd::Done)
}
