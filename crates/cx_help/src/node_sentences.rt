//! What a user reads of how a node command ended: what was wrong, and what to try.

ghost use Rattle.std.specs.Prelude.{◌≡◌};
ghost use Rattle.cx_help.specs.node.Sentences.{no_memory};

use crate::{Detail, LineSight, NodeKind, WrongInKeyring, WrongInScript};
use cx_keyring::KeyringRefusal;
use cx_loading::{NodeEnd, Unloaded};
use cx_schedule::ScheduleRefusal;
use std::fmt;

/// How a node command ended, as a user reads it: a sentence for each end but `Done`, which has none.
#[derive(Clone, Copy)]
pub struct Ending(pub NodeEnd);

impl fmt::Display for Ending {
    ghost use Rattle.std.specs.Prelude.{Some};
    ghost use Rattle.cx_help.specs.node.Sentences.{end_text};

    ghost output = { λ end. Some (end_text end.0) };

    fn fmt<W: fmt::Write>(&self, f: &mut fmt::Formatter<W>) -> fmt::Result {
        match self.0 {
            NodeEnd::Done => Ok(()),
            NodeEnd::Unloaded(why) => write!(f, "{}", Unready(why)),
            NodeEnd::Links => write!(
                f,
                "links failed: the node could not listen at its address, or the system gave no news of its links; see whether \
                another program listens there"
            ),
            NodeEnd::Dice => write!(f, "the system gave no random bytes, and the command ended"),
            NodeEnd::Keeper => write!(
                f,
                "the monitor's state could not be saved, and nothing of that step was sent; see that this folder may be written and \
                has room"
            ),
            NodeEnd::OutOfMemory => write!(
                f,
                "memory was wanting while the node ran; give the program more memory"
            ),
        }
    }
}

/// Why a node doesn't run.
#[derive(Clone, Copy)]
struct Unready(Unloaded);

impl fmt::Display for Unready {
    ghost use Rattle.std.specs.Prelude.{Some};
    ghost use Rattle.cx_help.specs.node.Sentences.{unloaded_text};

    ghost output = { λ why. Some (unloaded_text why.0) };

    fn fmt<W: fmt::Write>(&self, f: &mut fmt::Formatter<W>) -> fmt::Result {
        match self.0 {
            Unloaded::Script(refusal) => write!(f, "{}", OfScript(&refusal)),
            Unloaded::Keeper => write!(
                f,
                "what is kept in this folder could not be loaded; see that its files keyring and state may be read, and that no other \
                monitor runs in it"
            ),
            Unloaded::NoKeyring => write!(
                f,
                "this folder has no keyring; put one with the node's section into the file keyring"
            ),
            Unloaded::Keyring(refusal) => write!(f, "{}", OfKeyring(&refusal)),
            Unloaded::NoEntity => write!(
                f,
                "the keyring has no section of the node's name; add one, or run a node whose section it has"
            ),
            Unloaded::State(bad) => write!(
                f,
                "the file state is no state of a monitor, from its byte {} on; put back the one that was kept",
                bad.0
            ),
            Unloaded::OutOfMemory => write!(f, "{}", no_memory()),
        }
    }
}

/// Why a script isn't read.
#[derive(Clone, Copy)]
struct OfScript<'a>(&'a ScheduleRefusal);

impl fmt::Display for OfScript<'_> {
    ghost use Rattle.std.specs.Prelude.{Some};
    ghost use Rattle.cx_help.specs.node.Sentences.{script_text};

    ghost output = { λ refusal. Some (script_text refusal.0.now) };

    fn fmt<W: fmt::Write>(&self, f: &mut fmt::Formatter<W>) -> fmt::Result {
        match self.0 {
            ScheduleRefusal::TooLong => write!(
                f,
                "the script is too long: at most 1,048,576 bytes and 20,000 lines are read"
            ),
            ScheduleRefusal::BadLine { line, bad } => {
                let sight = LineSight {
                    bad: *bad,
                    remark: None,
                };
                write!(f, "{}", WrongScript(None, *line, &sight))
            }
            ScheduleRefusal::OutOfMemory => write!(f, "{}", no_memory()),
        }
    }
}

/// A line of the script of a node of this kind, where that is told, that is none, by its number and what is told of it.
#[derive(Clone, Copy)]
pub struct WrongScript<'a>(pub Option<NodeKind>, pub u32, pub &'a LineSight);

impl fmt::Display for WrongScript<'_> {
    ghost use Rattle.std.specs.Prelude.{Some};
    ghost use Rattle.cx_help.specs.node.Sentences.{script_line_text};

    ghost output = { λ wrong. Some (script_line_text wrong.0 wrong.1 wrong.2.now) };

    fn fmt<W: fmt::Write>(&self, f: &mut fmt::Formatter<W>) -> fmt::Result {
        let wrong = WrongInScript {
            kind: self.0,
            sight: self.2,
        };
        write!(f, "line {} of the script: {}", self.1, wrong)
    }
}

/// Why a keyring isn't read.
#[derive(Clone, Copy)]
struct OfKeyring<'a>(&'a KeyringRefusal);

impl fmt::Display for OfKeyring<'_> {
    ghost use Rattle.std.specs.Prelude.{Some};
    ghost use Rattle.cx_help.specs.node.Sentences.{keyring_text};

    ghost output = { λ refusal. Some (keyring_text refusal.0.now) };

    fn fmt<W: fmt::Write>(&self, f: &mut fmt::Formatter<W>) -> fmt::Result {
        match self.0 {
            KeyringRefusal::BadLine { line, why } => {
                let wrong = WrongInKeyring {
                    line: *line,
                    why: *why,
                    detail: Detail::Nothing,
                };
                write!(f, "{}", wrong)
            }
            KeyringRefusal::TooMany(_) => write!(
                f,
                "the keyring has more than 4,096 sections; keep those of the entities that are in use"
            ),
            KeyringRefusal::OutOfMemory => write!(f, "{}", no_memory()),
        }
    }
}

fn no_memory() -> &'static str
    ensures { result.now ≡ no_memory }
{
    "memory was wanting before the node ran; give the program more memory"
}
