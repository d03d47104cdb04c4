//! What a user reads of each status: what was wrong, and what to try; and what is said of an input or a run besides.

ghost use Rattle.std.specs.Prelude.{◌≡◌};
ghost use Rattle.cx_top.specs.Told.{cure_by, cure_text, side_text};

use crate::status::Status;
use cx_base::NodeName;
use cx_command_line::Help;
use cx_help::{Detail, LineSight, Word, Wrong, WrongInJournal, WrongInKeyring};
use cx_journal::{Broken, Premise};
use cx_words::{Side, shown_of};
use cx_world::{IdleLine, IdleReason};
use std::fmt;

/// A sentence for each status but `Done`, which has none: what it tells by itself; for wrong words the commands that are served,
/// with examples.
impl fmt::Display for Status {
    ghost use Rattle.std.specs.Prelude.{Some};
    ghost use Rattle.cx_top.specs.Sentences.{status_text};

    ghost output = { λ status. Some (status_text status) };

    fn fmt<W: fmt::Write>(&self, f: &mut fmt::Formatter<W>) -> fmt::Result {
        match self {
            Status::Done => Ok(()),
            Status::Usage => write!(f, "{}", Help),
            Status::BadSchedule { line, bad } => {
                let sight = LineSight {
                    bad: *bad,
                    remark: None,
                };
                write!(f, "{}", OfSchedule(*line, &sight))
            }
            Status::BadKeyring {
                line,
                why: Some(why),
            } => {
                let wrong = WrongInKeyring {
                    line: *line,
                    why: *why,
                    detail: Detail::Nothing,
                };
                write!(f, "{}", wrong)
            }
            Status::BadKeyring { why: None, .. } => write!(
                f,
                "the keyring has more than 4,096 sections; keep those of the entities that are in use"
            ),
            Status::ReadFault => write!(
                f,
                "standard input could not be read, and nothing was written; give a file that can be read, as in: \
                cephx_cli replay < FILE"
            ),
            Status::WriteFault => write!(
                f,
                "standard output could not take the whole text; see that there is room for it and that its reader \
                doesn't end early, and run the command again"
            ),
            Status::OutOfMemory => write!(
                f,
                "memory was wanting, and nothing was written; give the program more memory, or a shorter input"
            ),
            Status::Broken => write!(f, "a premise of the run is broken"),
            Status::TooLong => write!(
                f,
                "the input is too long: at most 1,048,576 bytes and 20,000 lines are read; cut it into files of their own"
            ),
            Status::BadJournal { line, bad } => {
                let wrong = WrongInJournal {
                    number: *line,
                    line: &[],
                    bad: *bad,
                };
                write!(f, "{}", wrong)
            }
        }
    }
}

/// A line of a schedule, and what is told of it.
#[derive(Clone, Copy)]
pub(crate) struct OfSchedule<'a>(pub(crate) u32, pub(crate) &'a LineSight);

impl fmt::Display for OfSchedule<'_> {
    ghost use Rattle.std.specs.Prelude.{Some};
    ghost use Rattle.cx_top.specs.Sentences.{bad_line_text};

    ghost output = { λ wrong. Some (bad_line_text wrong.0 wrong.1.now) };

    fn fmt<W: fmt::Write>(&self, f: &mut fmt::Formatter<W>) -> fmt::Result {
        write!(f, "line {} of the schedule: {}", self.0, Wrong(self.1))
    }
}

/// The word of a command, and one too many behind it.
#[derive(Clone, Copy)]
pub(crate) struct ExtraWord<'a>(pub(crate) &'a str, pub(crate) &'a str);

impl fmt::Display for ExtraWord<'_> {
    ghost use Rattle.std.specs.Prelude.{Some};
    ghost use Rattle.cx_top.specs.Told.{extra_word_text};

    ghost output = { λ words. Some (extra_word_text words.0.now words.1.now) };

    fn fmt<W: fmt::Write>(&self, f: &mut fmt::Formatter<W>) -> fmt::Result {
        let shown = shown_of(self.1.as_bytes());
        write!(
            f,
            "word 2, {}, is one too many: {} reads standard input, as in: cephx_cli {} < FILE",
            Word(&shown),
            self.0,
            self.0
        )
    }
}

/// The line for standard error on the first breach of a premise, if there is one.
#[derive(Clone, Copy)]
pub(crate) struct BreachTold<'a>(pub(crate) &'a Option<Broken>);

impl fmt::Display for BreachTold<'_> {
    ghost use Rattle.std.specs.Prelude.{Some};
    ghost use Rattle.cx_top.specs.Told.{broken_told};

    ghost output = { λ breach. Some (broken_told breach.0.now) };

    fn fmt<W: fmt::Write>(&self, f: &mut fmt::Formatter<W>) -> fmt::Result {
        match self.0 {
            Some(broken) => write!(f, "cephx_cli: {}\n", BrokenAt(broken)),
            None => Ok(()),
        }
    }
}

/// The first breach of a premise.
#[derive(Clone, Copy)]
struct BrokenAt<'a>(&'a Broken);

impl fmt::Display for BrokenAt<'_> {
    ghost use Rattle.std.specs.Prelude.{Some};
    ghost use Rattle.cx_top.specs.Told.{broken_text};

    ghost output = { λ breach. Some (broken_text breach.0.now) };

    fn fmt<W: fmt::Write>(&self, f: &mut fmt::Formatter<W>) -> fmt::Result {
        write!(f, "{}: {}", Status::Broken, Breach(self.0))
    }
}

/// What broke a premise, and what to do.
#[derive(Clone, Copy)]
struct Breach<'a>(&'a Broken);

impl fmt::Display for Breach<'_> {
    ghost use Rattle.std.specs.Prelude.{Some};
    ghost use Rattle.cx_top.specs.Told.{breach_of};

    ghost output = { λ breach. Some (breach_of breach.0.now) };

    fn fmt<W: fmt::Write>(&self, f: &mut fmt::Formatter<W>) -> fmt::Result {
        let broken = self.0;
        match broken.why {
            Premise::Sealing => write!(
                f,
                "what opens was sealed before, and what is found equal was made before; but {}, {} opened or found equal what \
                nobody had made under its key, of the kind {}; {}",
                Place(broken.line),
                broken.node,
                broken.kind,
                cure_text(&broken.node)
            ),
            Premise::Draw => write!(
                f,
                "no draw repeats; but {}, {} drew what had been drawn before, of the kind {}; give the nodes different seeds",
                Place(broken.line),
                broken.node,
                broken.kind
            ),
        }
    }
}

/// What to do about what opened at this node: what opens under the keys of a leaked client is excepted at the monitor and at daemons.
fn cure_text(node: &NodeName) -> &'static str
    ensures { result.now ≡ cure_text node.now }
{
    match node {
        NodeName::Monitor => cure_by(true),
        NodeName::Entity(name) => cure_by(name.kind.is_daemon()),
    }
}

fn cure_by(is_excepted: bool) -> &'static str
    ensures { result.now ≡ cure_by is_excepted }
{
    if is_excepted {
        "leave out what is injected there, or, where a client's key made it, leak that client"
    } else {
        "leave out what is injected there; at a client's own node nothing is excepted, whoever is leaked"
    }
}

/// Where in a schedule.
#[derive(Clone, Copy)]
struct Place(u32);

impl fmt::Display for Place {
    ghost use Rattle.std.specs.Prelude.{Some};
    ghost use Rattle.cx_top.specs.Told.{place_text};

    ghost output = { λ place. Some (place_text place.0) };

    fn fmt<W: fmt::Write>(&self, f: &mut fmt::Formatter<W>) -> fmt::Result {
        if self.0 == 0 {
            return write!(f, "before the first line");
        }
        write!(f, "at line {}", self.0)
    }
}

/// The line for standard error on a line that did nothing.
#[derive(Clone, Copy)]
pub(crate) struct IdleTold(pub(crate) IdleLine);

impl fmt::Display for IdleTold {
    ghost use Rattle.std.specs.Prelude.{Some};
    ghost use Rattle.cx_top.specs.Told.{idle_line_told};

    ghost output = { λ idle. Some (idle_line_told idle.0) };

    fn fmt<W: fmt::Write>(&self, f: &mut fmt::Formatter<W>) -> fmt::Result {
        write!(f, "cephx_cli: {}\n", OfIdle(self.0))
    }
}

/// That a line did nothing, and why.
#[derive(Clone, Copy)]
struct OfIdle(IdleLine);

impl fmt::Display for OfIdle {
    ghost use Rattle.std.specs.Prelude.{Some};
    ghost use Rattle.cx_top.specs.Told.{idle_text};

    ghost output = { λ idle. Some (idle_text idle.0) };

    fn fmt<W: fmt::Write>(&self, f: &mut fmt::Formatter<W>) -> fmt::Result {
        write!(
            f,
            "line {} did nothing: {}",
            self.0.number,
            WhyIdle(self.0.why)
        )
    }
}

/// Why a line did nothing.
#[derive(Clone, Copy)]
struct WhyIdle(IdleReason);

impl fmt::Display for WhyIdle {
    ghost use Rattle.std.specs.Prelude.{Some};
    ghost use Rattle.cx_top.specs.Told.{idle_reason_text};

    ghost output = { λ why. Some (idle_reason_text why.0) };

    fn fmt<W: fmt::Write>(&self, f: &mut fmt::Formatter<W>) -> fmt::Result {
        match self.0 {
            IdleReason::NoLink(link) => write!(f, "link {link} isn't there"),
            IdleReason::NothingUnderWay(link, side) => write!(
                f,
                "on link {link} {} has nothing under way",
                side_text(side)
            ),
            IdleReason::EndGone(link, side) => {
                write!(f, "on link {link} {} is gone", side_text(side))
            }
            IdleReason::NoPiece(link, side, place) => {
                write!(
                    f,
                    "on link {link} {} sent no piece {place}",
                    side_text(side)
                )
            }
            IdleReason::BothGone(link) => write!(f, "link {link} has no end left"),
            IdleReason::NoSession(session) => write!(f, "session {session} isn't there"),
            IdleReason::NoSave => write!(
                f,
                "the monitor had nothing to save before the next failsave line or the end"
            ),
        }
    }
}

/// An end of a link, by who opened it.
fn side_text(side: Side) -> &'static str
    ensures { result.now ≡ side_text side }
{
    match side {
        Side::Connector => "the side that opened it (c)",
        Side::Acceptor => "the side that it was opened to (a)",
    }
}
