//! Schedules and their reader.

ghost use Rattle.std.specs.Prelude.{ℕ, ◌≡◌, ◌+◌, ◌≤◌, List, [], ◌∷◌, ◌++◌, length, IfOk, IfErr, OnOk, OnErr, IsTrue};
ghost use Rattle.std.specs.List.{list_all};
ghost use Rattle.cx_words.specs.Cutting.{lines_of, IsShort};
ghost use Rattle.cx_schedule.specs.Files.{Adds, IsFileLineCause, IsFirstOutside, IsReason, IsScheduleCause, Lines, Refuses, RefusesAt};
ghost use Rattle.cx_schedule.specs.Grammars.{groups, line_words};
ghost use Rattle.cx_lines.specs.Knowing.{known_of};
ghost use Rattle.cx_lines.specs.Lines.{Spells, is_numbered_in_range};
ghost use Rattle.cx_lines.specs.Refusals.{IsLineCause};
ghost use Rattle.cx_lines.specs.declared.lines.Numbered.{Numbered};
ghost use Rattle.cx_schedule.specs.declared.refusals.ScheduleRefusal.{ScheduleRefusal};

use crate::refusals::ScheduleRefusal;
use cx_base::{Duplicate, Items, copy_items};
use cx_lines::{Line, LineRefusal, Numbered, line_of, note};
use cx_words::{Known, first_line, is_short, is_skipped, words};
use std::alloc::{AllocError, Global};
use std::marker::Model;

/// A schedule: its lines in order with their numbers, without those that are empty or comments.
#[derive(Drop)]
pub struct Script {
    lines: Items<Numbered>,
}

impl Model for Script {
    ghost use Rattle.std.specs.Prelude.{List};
    ghost use Rattle.cx_lines.specs.declared.lines.Numbered.{Numbered};

    ghost Value = { List Numbered };

    ghost view = { λ s. s.lines };
}

impl Script {
    /// The lines.
    pub fn lines(&self) -> &[Numbered]
        ensures { result.now ≡ self.now }
    {
        self.lines.all()
    }
}

impl Duplicate for Script {
    fn copy(&self, alloc: Global) -> Result<Script, AllocError> {
        let lines = copy_items(alloc, &self.lines)?;
        Ok(Script { lines })
    }
}

/// Reads a schedule: ASCII lines ended by LF, the last one's may be left out. Numbers of lines count from 1, and empty lines
/// and comments count too.
#[tactic(auto, using(crate::proofs::Whole::only_memory))]
pub fn read(alloc: Global, bytes: &[u8]) -> Result<Script, ScheduleRefusal>
    // The lines of the bytes, or the first of them that is outside of the grammar, or too many bytes or lines.
    ensures found { IfOk result (λ s. Lines bytes.now s) }
    ensures short { OnOk result (IsShort bytes.now) }
    ensures bad { IfErr result (IsScheduleCause bytes.now) }
    // Bytes are those of one schedule at most.
    ensures one { (s : List Numbered) → Lines bytes.now s → IfOk result (λ read. read ≡ s) }
    // Where the bytes are a schedule, it is read, or memory is wanting.
    ensures only { (s : List Numbered) → IsShort bytes.now → Lines bytes.now s → IfErr result (λ e. e ≡ ScheduleRefusal.OutOfMemory) }
    // Where a limit or a line is a reason to refuse them, they are refused for it, or memory is wanting. The n-th line is one
    // exactly where it is the first that spells none.
    ensures exact { (why : ScheduleRefusal) → IsReason bytes.now why → Refuses result why }
    ensures outside { (n : ℕ) → IsShort bytes.now → IsFirstOutside 1 [] (lines_of bytes.now) n → RefusesAt result n }
    // What may be relied on.
    ensures few { IfOk result (λ s. length s ≤ 20000) }
    ensures in_range { IfOk result (λ s. IsTrue (list_all is_numbered_in_range s)) }
{
    if !is_short(bytes) {
        return Err(ScheduleRefusal::TooLong);
    }
    let lines = read_lines(alloc, bytes)?;
    Ok(Script { lines })
}

fn read_lines(alloc: Global, bytes: &[u8]) -> Result<Items<Numbered>, ScheduleRefusal>
    requires { IsShort bytes.now }
    ensures found { IfOk result (λ s. Lines bytes.now s) }
    ensures bad { IfErr result (IsScheduleCause bytes.now) }
{
    let mut known = Known::new(alloc);
    let mut script: Items<Numbered> = Items::new(alloc);
    let mut number: u32 = 1;
    let mut rest = bytes;
    'lines: while let Some((line, after)) = first_line(rest) {
        match add(alloc, &mut known, &mut script, number, line) {
            Ok(()) => {}
            Err(LineRefusal::Fault(bad)) => {
                return Err(ScheduleRefusal::BadLine { line: number, bad });
            }
            Err(LineRefusal::OutOfMemory) => return Err(ScheduleRefusal::OutOfMemory),
        }
        number += 1;
        rest = after;
    }
    Ok(script)
}

/// Puts what the line of the file says behind the earlier lines: nothing where it is skipped.
fn add(
    alloc: Global,
    known: &mut Known,
    script: &mut Items<Numbered>,
    number: u32,
    line: &[u8],
) -> Result<(), LineRefusal>
    requires { known.old ≡ known_of script.old }
    ensures ok { OnOk result (Adds number script.old line.now script.new) }
    ensures known { OnOk result (known.new ≡ known_of script.new) }
    ensures err { IfErr result (IsFileLineCause script.old line.now) }
{
    if is_skipped(line) {
        return Ok(());
    }
    let read = spelled(alloc, known, line)?;
    append(alloc, known, script, Numbered { number, line: read })?;
    Ok(())
}

// What a line of the file says that isn't skipped.
fn spelled(alloc: Global, known: &Known, line: &[u8]) -> Result<Line, LineRefusal>
    ensures ok { IfOk result (λ read. Spells known.now read (line_words line.now)) }
    ensures err { IfErr result (IsLineCause known.now (line_words line.now)) }
{
    let words = words(alloc, groups(line), line)?;
    line_of(alloc, known, &words)
}

// Puts a line behind the earlier ones, and notes what it declares. It is handed on before want of memory is answered.
fn append(
    alloc: Global,
    known: &mut Known,
    script: &mut Items<Numbered>,
    line: Numbered,
) -> Result<(), AllocError>
    requires { known.old ≡ known_of script.old }
    ensures ok { OnOk result (script.new ≡ script.old ++ line ∷ []) }
    ensures known { OnOk result (known.new ≡ known_of script.new) }
{
    let noted = note(alloc, known, &line.line);
    script.push(alloc, line)?;
    noted
}

/// Whether quotation marks group the words of this line.
pub(crate) fn groups(line: &[u8]) -> bool
    ensures { result ≡ groups line.now }
{
    line.starts_with(b"entity ")
}

// Each of these goes to another thread, and is seen by several.
fn are_sendable() {
    is_sendable::<ScheduleRefusal>();
    is_sendable::<Script>();
}

fn is_sendable<T: Send + Sync>() {}
