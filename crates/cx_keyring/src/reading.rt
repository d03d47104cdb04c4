//! Reading a keyring.

ghost use Rattle.std.specs.Prelude.{◌≡◌, ◌<◌, ◌≤◌, List, length, IfErr, IfOk, IsTrue};
ghost use Rattle.cx_keyring.specs.Entries.{is_ring};
ghost use Rattle.cx_keyring.specs.Lines.{lines_said};
ghost use Rattle.cx_keyring.specs.Rings.{IsKeyringCause, IsReason, KeyringText, Refuses};
ghost use Rattle.cx_keyring.specs.declared.entries.Entry.{Entry};
ghost use Rattle.cx_keyring.specs.declared.refusals.KeyringRefusal.{KeyringRefusal};

use crate::cut::line_of;
use crate::entries::Entry;
use crate::judge::judge;
use crate::keyring::Keyring;
use crate::limits::MOST_ENTRIES;
use crate::lines::Line;
use crate::refusals::KeyringRefusal;
use crate::sections::entries_of;
use cx_base::Items;
use cx_words::first_line;
use std::alloc::{AllocError, Global};

/// Reads a keyring: ASCII lines ended by LF, the last one's may be left out. Numbers of lines count from 1, and empty lines
/// and comments count too.
#[tactic(auto, using(crate::proofs::Reasons::only_memory))]
pub fn parse(alloc: Global, bytes: &[u8]) -> Result<Keyring, KeyringRefusal>
    // The keyring that the bytes are, or the first line that is wrong with its first fault, or too many sections.
    ensures found { IfOk result (λ ring. KeyringText bytes.now ring) }
    ensures few { IfOk result (λ ring. length ring ≤ 4096) }
    ensures bad { IfErr result (IsKeyringCause bytes.now) }
    // Bytes are those of one keyring at most.
    ensures one { (ring : List Entry) → KeyringText bytes.now ring → IfOk result (λ read. read ≡ ring) }
    // Where the bytes are a keyring that isn't too long, it is read, or memory is wanting.
    ensures only { (ring : List Entry) → KeyringText bytes.now ring → length ring ≤ 4096 → IfErr result (λ e. e ≡ KeyringRefusal.OutOfMemory) }
    // Where a line or their number is a reason to refuse them, they are refused for it, or memory is wanting.
    ensures exact { (why : KeyringRefusal) → IsReason bytes.now why → Refuses result why }
    // What may be relied on: names differ, and caps are such as an entry may have.
    ensures ring { IfOk result (λ ring. IsTrue (is_ring ring)) }
{
    let entries = entries_in(alloc, bytes)?;
    if entries.all().len() > MOST_ENTRIES {
        return Err(KeyringRefusal::TooMany(MOST_ENTRIES));
    }
    let ring = Keyring::of(alloc, entries)?;
    Ok(ring)
}

/// The entries of a keyring of any length.
fn entries_in(alloc: Global, bytes: &[u8]) -> Result<Items<Entry>, KeyringRefusal>
    ensures found { IfOk result (λ entries. KeyringText bytes.now entries) }
    ensures bad { IfErr result (IsKeyringCause bytes.now) }
{
    let lines = lines_said(alloc, bytes)?;
    judge(alloc, lines.all())?;
    let entries = entries_of(alloc, lines.all())?;
    Ok(entries)
}

/// What each line says.
fn lines_said(alloc: Global, bytes: &[u8]) -> Result<Items<Line>, AllocError>
    ensures { IfOk result (λ lines. lines ≡ lines_said bytes.now) }
{
    let mut lines = Items::new(alloc);
    let mut rest = bytes;
    'lines: while let Some((line, after)) = first_line(rest) {
        let said = line_of(alloc, line)?;
        lines.push(alloc, said)?;
        rest = after;
    }
    Ok(lines)
}
