//! How a run ended: the number and the sentence of each status.

ghost use Rattle.std.specs.Prelude.{◌≡◌};
ghost use Rattle.cx_top.specs.Statuses.{number_of};

use crate::input::Unread;
use cx_audit::AuditRefusal;
use cx_audit_text::WrongLine;
use cx_keyring::{KeyringFault, KeyringRefusal};
use cx_lines::BadWord;
use cx_schedule::ScheduleRefusal;
use std::alloc::AllocError;

/// How a run ended.
#[derive(Clone, Copy, Debug, PartialEq, Eq)]
pub enum Status {
    /// The command did its work.
    Done,
    /// The words of the command line are no command that is served.
    Usage,
    /// This line, from 1, is the first outside the grammar of a schedule, and `bad` is its first fault, with the word that
    /// has it.
    BadSchedule {
        line: u32,
        bad: BadWord,
    },
    /// The input could not be read.
    ReadFault,
    /// The output could not be written; a front of it was.
    WriteFault,
    /// Memory was wanting.
    OutOfMemory,
    /// This line, from 1, is the first of the keyring that is wrong, and `why` is the first fault that it has. The line 0 has
    /// none: there are more than 4,096 sections.
    BadKeyring {
        line: u64,
        why: Option<KeyringFault>,
    },
    /// A premise of the run is broken. The whole journal was written, and the first breach as its last line.
    Broken,
    /// The input has more than 1,048,576 bytes or 20,000 lines.
    TooLong,
    /// This line, from 1, is the first that is none of a journal, and `bad` is its first wrong word.
    BadJournal {
        line: u64,
        bad: WrongLine,
    },
}

impl Status {
    /// The number with which the program ends.
    pub fn number(self) -> u8
        ensures { result ≡ number_of self }
    {
        match self {
            Status::Done => 0,
            Status::Usage => 1,
            Status::BadSchedule { .. } => 2,
            Status::ReadFault => 3,
            Status::WriteFault => 4,
            Status::OutOfMemory => 5,
            Status::BadKeyring { .. } => 6,
            Status::Broken => 7,
            Status::TooLong => 12,
            Status::BadJournal { .. } => 14,
        }
    }
}

impl From<AllocError> for Status {
    ghost use Rattle.std.specs.Prelude.{◌≡◌};
    ghost use Rattle.cx_top.specs.declared.status.Status.TheVariants.{OutOfMemory};

    ghost from_gives = { λ _ status. status ≡ OutOfMemory };

    fn from(_error: AllocError) -> Status {
        Status::OutOfMemory
    }
}

impl From<ScheduleRefusal> for Status {
    ghost use Rattle.std.specs.Prelude.{◌≡◌};
    ghost use Rattle.cx_top.specs.Statuses.{schedule_status};

    ghost from_gives = { λ refusal status. status ≡ schedule_status refusal };

    fn from(refusal: ScheduleRefusal) -> Status {
        match refusal {
            ScheduleRefusal::TooLong => Status::TooLong,
            ScheduleRefusal::BadLine { line, bad } => Status::BadSchedule { line, bad },
            ScheduleRefusal::OutOfMemory => Status::OutOfMemory,
        }
    }
}

impl From<KeyringRefusal> for Status {
    ghost use Rattle.std.specs.Prelude.{◌≡◌};
    ghost use Rattle.cx_top.specs.Statuses.{keyring_status};

    ghost from_gives = { λ refusal status. status ≡ keyring_status refusal };

    fn from(refusal: KeyringRefusal) -> Status {
        match refusal {
            KeyringRefusal::BadLine { line, why } => Status::BadKeyring {
                line,
                why: Some(why),
            },
            KeyringRefusal::TooMany(_) => Status::BadKeyring { line: 0, why: None },
            KeyringRefusal::OutOfMemory => Status::OutOfMemory,
        }
    }
}

impl From<AuditRefusal> for Status {
    ghost use Rattle.std.specs.Prelude.{◌≡◌};
    ghost use Rattle.cx_top.specs.Statuses.{audit_status};

    ghost from_gives = { λ refusal status. status ≡ audit_status refusal };

    fn from(refusal: AuditRefusal) -> Status {
        match refusal {
            AuditRefusal::BadLine(line, bad) => Status::BadJournal { line, bad },
            AuditRefusal::OutOfMemory => Status::OutOfMemory,
        }
    }
}

impl From<Unread> for Status {
    ghost use Rattle.std.specs.Prelude.{◌≡◌};
    ghost use Rattle.cx_top.specs.Statuses.{input_status};

    ghost from_gives = { λ unread status. status ≡ input_status unread };

    fn from(unread: Unread) -> Status {
        match unread {
            Unread::Fault => Status::ReadFault,
            Unread::TooLong => Status::TooLong,
            Unread::OutOfMemory => Status::OutOfMemory,
        }
    }
}

// It goes to another thread, and is seen by several.
fn is_sendable<T: Send + Sync>() {}

fn status_is_sendable() {
    is_sendable::<Status>();
}
