//! What was done at a node, as it is printed.

use crate::driven::Record;
use cx_answers_rows::{Ascii, Hex};
use cx_base::Blob;
use cx_drive::{Driven, Ended, Stop};
use cx_journal::{Journal, put_text};
use cx_outside::{Did, LinkEvent};
use std::alloc::{AllocError, Global};
use std::fmt::Write;

/// What was done, with the bytes that were taken; how the run ended; and the journal.
pub fn told_run(alloc: Global, record: &Record, taken: &[u8]) -> Result<String, AllocError> {
    let mut told = String::new(alloc);
    let mut left = taken;
    for did in record.tape.iter() {
        left = put_did(&mut told, *did, left)?;
    }
    put_ended(&mut told, record.driven)?;
    put_journal(alloc, &mut told, &record.journal)?;
    Ok(told)
}

// What was done, but for readings, rolls that went well, and how links are regarded. Answers the bytes behind those that were sent.
fn put_did<'a>(told: &mut String, did: Did, taken: &'a [u8]) -> Result<&'a [u8], AllocError> {
    match did {
        Did::Came(event) => put_came(told, event)?,
        Did::Sent(link, count, true) => return put_sent(told, link, count, taken),
        Did::Sent(link, _, false) => write!(told, "  send {link} fails\n")?,
        Did::Opened(Some(number)) => write!(told, "  open {number}\n")?,
        Did::Opened(None) => write!(told, "  open fails\n")?,
        Did::Saved(true) => write!(told, "  save\n")?,
        Did::Saved(false) => write!(told, "  save fails\n")?,
        Did::Shut(link) => write!(told, "  shut {link}\n")?,
        Did::Rolled(false) => write!(told, "  roll fails\n")?,
        Did::Broke => write!(told, "wait fails\n")?,
        Did::Rolled(true) => {}
        Did::Read(_) => {}
        Did::Listened(_) => {}
        Did::Regarded(_, _) => {}
    }
    Ok(taken)
}

fn put_came(told: &mut String, event: LinkEvent) -> Result<(), AllocError> {
    match event {
        LinkEvent::Opened(link) => write!(told, "opened {link}\n"),
        LinkEvent::Bytes(link, count) => {
            let count = count as u64;
            write!(told, "bytes {link} {count}\n")
        }
        LinkEvent::Gone(link) => write!(told, "gone {link}\n"),
        LinkEvent::Quiet => write!(told, "quiet\n"),
    }
}

fn put_sent<'a>(
    told: &mut String,
    link: u32,
    count: usize,
    taken: &'a [u8],
) -> Result<&'a [u8], AllocError> {
    let count = count.min(taken.len());
    let bytes = Hex(&taken[..count]);
    write!(told, "  send {link} {bytes}\n")?;
    Ok(&taken[count..])
}

fn put_ended(told: &mut String, driven: Driven) -> Result<(), AllocError> {
    let how = match driven.ended {
        Ended::Done => "done",
        Ended::Links => "links",
        Ended::Stopped(Stop::Dice) => "dice",
        Ended::Stopped(Stop::Keeper) => "keeper",
        Ended::Stopped(Stop::Memory) => "memory",
    };
    if driven.short {
        return write!(told, "ended {how}, short of memory\n");
    }
    write!(told, "ended {how}\n")
}

fn put_journal(alloc: Global, told: &mut String, journal: &Journal) -> Result<(), AllocError> {
    let mut text = Blob::new(alloc);
    put_text(alloc, journal, &mut text)?;
    write!(told, "{}", Ascii(text.bytes()))
}
