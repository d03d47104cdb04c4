//! The text of a journal.

ghost use Rattle.std.specs.Prelude.{◌≡◌, ◌+◌, ◌<◌, ◌^◌, List, [], ◌∷◌, ◌++◌, IfOk, OnOk, OnErr};
ghost use Rattle.cx_journal.specs.Counted.{IsCountOf};
ghost use Rattle.cx_journal.specs.JournalText.{line, journal_text};
ghost use Rattle.cx_journal.specs.declared.entries.Entry.{Entry};

use crate::counts::Counts;
use crate::entries::Entry;
use crate::journals::Journal;
use cx_base::Blob;
use std::alloc::{AllocError, Global};

/// Puts the text of the journal behind these bytes: one line for each entry, each ended by LF.
pub fn put_text(alloc: Global, journal: &Journal, into: &mut Blob) -> Result<(), AllocError>
    ensures ok { OnOk result (into.new ≡ into.old ++ journal_text journal.now) }
    ensures err { OnErr result (into.new ≡ into.old) }
{
    let text = text_of(alloc, journal.all())?;
    into.append(alloc, text.bytes())
}

fn text_of(alloc: Global, entries: &[Entry]) -> Result<Blob, AllocError>
    ensures { IfOk result (λ text. text ≡ journal_text entries.now) }
{
    let mut counts = Counts::new(alloc);
    let mut text = Blob::new(alloc);
    for entry in entries {
        put_line(alloc, &mut counts, entry, &mut text)?;
    }
    Ok(text)
}

// The line of the next entry, behind the lines of those that are counted.
fn put_line(
    alloc: Global,
    counts: &mut Counts,
    entry: &Entry,
    text: &mut Blob,
) -> Result<(), AllocError>
    requires { counts.old.numbers.issued + 1 < 2 ^ 64 }
    ensures counted { (earlier : List Entry) → IsCountOf counts.old earlier
        → OnOk result (IsCountOf counts.new (earlier ++ entry.now ∷ [])) }
    ensures text { (earlier : List Entry) → IsCountOf counts.old earlier
        → OnOk result (text.new ≡ text.old ++ line earlier entry.now) }
{
    counts.enter(alloc, entry)?;
    let line = counts.line(alloc, entry)?;
    text.append(alloc, line.as_bytes())
}
