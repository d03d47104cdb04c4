//! How a run ended, and what is said of it.

ghost use Rattle.std.specs.Prelude.{◌≡◌, [], string_bytes};
ghost use Rattle.cx_top.specs.Told.{is_done};

use crate::status::Status;
use std::alloc::Global;
use std::fmt;

/// How a run ended, and what is said of it on standard error.
#[derive(Debug, Drop)]
pub struct ProgramEnd {
    pub status: Status,
    /// Lines for standard error. Where there are none, the sentence of the status says all.
    pub told: String,
}

impl ProgramEnd {
    /// Of which the sentence of the status says all.
    pub fn plain(alloc: Global, status: Status) -> ProgramEnd
        ensures status { result.status ≡ status }
        ensures told { string_bytes result.told ≡ [] }
    {
        ProgramEnd {
            status,
            told: String::new(alloc),
        }
    }
}

/// The lines for standard error: those that are told, or else the sentence of the status.
impl fmt::Display for ProgramEnd {
    ghost use Rattle.std.specs.Prelude.{Some, string_bytes};
    ghost use Rattle.cx_top.specs.Told.{or_told, status_told};

    ghost output = { λ ended. Some (or_told (string_bytes ended.told) (status_told ended.status)) };

    fn fmt<W: fmt::Write>(&self, f: &mut fmt::Formatter<W>) -> fmt::Result {
        match self.told.as_bytes() {
            [] => write!(f, "{}", StatusLine(self.status)),
            [..] => write!(f, "{}", self.told),
        }
    }
}

/// The sentence of a status as a line of standard error; `Done` has none.
#[derive(Clone, Copy)]
pub struct StatusLine(pub Status);

impl fmt::Display for StatusLine {
    ghost use Rattle.std.specs.Prelude.{Some};
    ghost use Rattle.cx_top.specs.Told.{status_told};

    ghost output = { λ line. Some (status_told line.0) };

    fn fmt<W: fmt::Write>(&self, f: &mut fmt::Formatter<W>) -> fmt::Result {
        if is_done(self.0) {
            return Ok(());
        }
        write!(f, "cephx_cli: {}\n", self.0)
    }
}

fn is_done(status: Status) -> bool
    ensures { result ≡ is_done status }
{
    matches!(status, Status::Done)
}
