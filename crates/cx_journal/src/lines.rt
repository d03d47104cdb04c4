//! The line of each kind of entry. What a line says of the entries before it is given as a number.

ghost use Rattle.std.specs.Prelude.{◌≡◌, [], IfOk, string_bytes};
ghost use Rattle.cx_journal.specs.JournalText.{saved_line, issued_line, fetched_line, looked_line, admitted_line, resumed_line, session_text, sent_line, handled_line, answered_line, ticket_text, refused_line, ended_line, restarted_line, broken_line, leaked_line};

use crate::entries::{Admitted, Answered, Ended, Fetched, Handled, Issued, Looked, Refused, Sent};
use crate::premises::Broken;
use crate::words::{Asked, Ids, Seconds, operation_text};
use cx_base::{EntityName, NodeName};
use std::alloc::{AllocError, Global};
use std::fmt::Write;

/// A line is seldom longer, so that it seldom moves while it is written.
const LINE_ROOM: usize = 112;

// No text yet, with room for that of a line.
fn roomy(alloc: Global) -> Result<String, AllocError>
    ensures { IfOk result (λ line. string_bytes line ≡ []) }
{
    String::with_capacity(alloc, LINE_ROOM)
}

pub fn saved_line(alloc: Global, next: u64) -> Result<String, AllocError>
    ensures { IfOk result (λ line. string_bytes line ≡ saved_line next) }
{
    format!(in alloc; "saved {}\n", next)
}

pub fn issued_line(alloc: Global, number: u64, t: &Issued) -> Result<String, AllocError>
    ensures { IfOk result (λ line. string_bytes line ≡ issued_line number t.now) }
{
    let mut line = roomy(alloc)?;
    write!(
        line,
        "issued {} {} {} {}",
        number, t.entity, t.service, t.gid
    )?;
    write!(
        line,
        " {} {} {} \"{}\"\n",
        t.generation,
        Seconds(t.created),
        Seconds(t.expires),
        t.caps
    )?;
    Ok(line)
}

pub fn fetched_line(alloc: Global, f: &Fetched) -> Result<String, AllocError>
    ensures { IfOk result (λ line. string_bytes line ≡ fetched_line f.now) }
{
    format!(in alloc;
        "fetched {} {} {}\n",
        f.daemon,
        Seconds(f.asked),
        Ids(f.generations)
    )
}

pub fn looked_line(alloc: Global, l: &Looked) -> Result<String, AllocError>
    ensures { IfOk result (λ line. string_bytes line ≡ looked_line l.now) }
{
    format!(in alloc;
        "looked {} {} {} {}\n",
        l.daemon,
        l.link,
        Ids(l.view.generations),
        Asked(l.view.asked)
    )
}

pub fn admitted_line(alloc: Global, rank: u64, a: &Admitted) -> Result<String, AllocError>
    ensures { IfOk result (λ line. string_bytes line ≡ admitted_line rank a.now) }
{
    let session = session_text(alloc, rank, a)?;
    format!(in alloc; "admitted {}\n", session)
}

pub fn resumed_line(alloc: Global, rank: u64, a: &Admitted) -> Result<String, AllocError>
    ensures { IfOk result (λ line. string_bytes line ≡ resumed_line rank a.now) }
{
    let session = session_text(alloc, rank, a)?;
    format!(in alloc; "resumed {}\n", session)
}

fn session_text(alloc: Global, rank: u64, a: &Admitted) -> Result<String, AllocError>
    ensures { IfOk result (λ text. string_bytes text ≡ session_text rank a.now) }
{
    let mut text = roomy(alloc)?;
    write!(
        text,
        "{} {} {} c{} {}",
        a.daemon, a.session, a.epoch, rank, a.entity
    )?;
    write!(text, " {} {} \"{}\"", a.gid, Seconds(a.at), a.caps)?;
    Ok(text)
}

pub fn sent_line(alloc: Global, rank: u64, s: &Sent) -> Result<String, AllocError>
    ensures { IfOk result (λ line. string_bytes line ≡ sent_line rank s.now) }
{
    let operation = operation_text(alloc, &s.operation)?;
    format!(in alloc;
        "sent {} {} c{} {} {}\n",
        s.client, s.daemon, rank, s.seq, operation
    )
}

pub fn handled_line(alloc: Global, rank: u64, h: &Handled) -> Result<String, AllocError>
    ensures { IfOk result (λ line. string_bytes line ≡ handled_line rank h.now) }
{
    let operation = operation_text(alloc, &h.operation)?;
    let mut line = roomy(alloc)?;
    write!(
        line,
        "handled {} {} {} c{}",
        h.daemon, h.session, h.epoch, rank
    )?;
    write!(line, " {} {} {}\n", h.seq, operation, h.outcome)?;
    Ok(line)
}

pub fn answered_line(alloc: Global, a: &Answered) -> Result<String, AllocError>
    ensures { IfOk result (λ line. string_bytes line ≡ answered_line a.now) }
{
    format!(in alloc;
        "answered {} {} {} {}\n",
        a.client, a.daemon, a.tid, a.outcome
    )
}

/// The number is that of the refused ticket, where one was refused.
pub fn refused_line(alloc: Global, number: Option<u64>, r: &Refused) -> Result<String, AllocError>
    ensures { IfOk result (λ line. string_bytes line ≡ refused_line number r.now) }
{
    let ticket = ticket_text(alloc, number)?;
    format!(in alloc; "refused {} {} {}{}\n", r.node, r.link, r.reason, ticket)
}

fn ticket_text(alloc: Global, number: Option<u64>) -> Result<String, AllocError>
    ensures { IfOk result (λ text. string_bytes text ≡ ticket_text number) }
{
    match number {
        None => String::from_str(alloc, ""),
        Some(number) => format!(in alloc; " ticket={}", number),
    }
}

pub fn ended_line(alloc: Global, e: &Ended) -> Result<String, AllocError>
    ensures { IfOk result (λ line. string_bytes line ≡ ended_line e.now) }
{
    format!(in alloc; "ended {} {}\n", e.daemon, e.session)
}

pub fn restarted_line(alloc: Global, node: &NodeName) -> Result<String, AllocError>
    ensures { IfOk result (λ line. string_bytes line ≡ restarted_line node.now) }
{
    format!(in alloc; "restarted {}\n", node)
}

pub fn broken_line(alloc: Global, b: &Broken) -> Result<String, AllocError>
    ensures { IfOk result (λ line. string_bytes line ≡ broken_line b.now) }
{
    format!(in alloc; "broken {} {} {} {}\n", b.why, b.node, b.kind, b.line)
}

pub fn leaked_line(alloc: Global, client: &EntityName) -> Result<String, AllocError>
    ensures { IfOk result (λ line. string_bytes line ≡ leaked_line client.now) }
{
    format!(in alloc; "leaked {}\n", client)
}
