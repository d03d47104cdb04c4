//! The text of what comes of a run.

ghost use Rattle.std.specs.Prelude.{◌≡◌, ◌++◌, OnErr, OnOk};
ghost use Rattle.cx_journal.specs.JournalText.{journal_text};
ghost use Rattle.cx_world.specs.replayed.Serving.{told};

use crate::Report;
use cx_base::Blob;
use cx_journal::{Entry, put_text};
use std::alloc::{AllocError, Global};

/// Puts the text of the journal behind these bytes, with the first breach as its last entry, where a premise is broken.
pub fn put_report(alloc: Global, report: Report, into: &mut Blob) -> Result<(), AllocError>
    ensures ok { OnOk result (into.new ≡ into.old ++ journal_text (told report.journal report.broken)) }
    ensures err { OnErr result (into.new ≡ into.old) }
{
    let Report {
        mut journal,
        broken,
        idle: _,
    } = report;
    if let Some(breach) = broken {
        journal.push(alloc, Entry::Broken(breach))?;
    }
    put_text(alloc, &journal, into)
}
