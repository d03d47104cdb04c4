//! Rows of kinds and bytes, and what is told of them.

use crate::answered::{Answered, Refused};
use crate::control::control;
use crate::fields::field;
use crate::logins::login;
use crate::messages::message;
use crate::sealed::record;
use crate::shown::Hex;
use crate::states::state;
use cx_base::Blob;
use std::alloc::{AllocError, Global};

// Rows of more bytes are not cut.
const MOST_CUT: usize = 1000;

/// What is told of a row: an empty one and one that begins with `#` as they are; else what the bytes mean, or why they are refused.
pub fn told(alloc: Global, row: &str) -> Result<String, AllocError> {
    if row.is_empty() || row.starts_with('#') {
        return format!(in alloc; "{row}\n");
    }
    let (kind, digits) = row.split_once(' ').unwrap_or((row, ""));
    match bytes_of(alloc, digits)? {
        Some(bytes) => told_of(alloc, kind, bytes.bytes()),
        None => format!(in alloc; "{kind}: no bytes\n"),
    }
}

// The bytes of pieces in hexadecimal, of which one with `*N` behind it stands for N of them.
fn bytes_of(alloc: Global, digits: &str) -> Result<Option<Blob>, AllocError> {
    let mut bytes = Blob::new(alloc);
    for piece in digits.split_ascii_whitespace() {
        let (once, times) = piece.split_once('*').unwrap_or((piece, "1"));
        let Ok(times) = times.parse::<u32>() else {
            return Ok(None);
        };
        let Ok(part) = hex::decode(alloc, once) else {
            return Ok(None);
        };
        for _ in 0..times {
            bytes.append(alloc, &part)?;
        }
    }
    Ok(Some(bytes))
}

// What the bytes mean, by the first list of kinds that has this one.
fn answer(alloc: Global, kind: &str, bytes: &[u8]) -> Result<Answered, Refused> {
    match control(alloc, kind, bytes) {
        Err(Refused::NoKind) => {}
        answered => return answered,
    }
    match login(alloc, kind, bytes) {
        Err(Refused::NoKind) => {}
        answered => return answered,
    }
    match message(alloc, kind, bytes) {
        Err(Refused::NoKind) => {}
        answered => return answered,
    }
    match field(alloc, kind, bytes) {
        Err(Refused::NoKind) => {}
        answered => return answered,
    }
    match state(alloc, kind, bytes) {
        Err(Refused::NoKind) => record(alloc, kind, bytes),
        answered => answered,
    }
}

fn told_of(alloc: Global, kind: &str, bytes: &[u8]) -> Result<String, AllocError> {
    match answer(alloc, kind, bytes) {
        Ok(answered) => {
            let mut told = format!(in alloc; "{kind} {}\n", answered.meaning)?;
            tell_again(&mut told, bytes, answered.again.bytes())?;
            if bytes.len() <= MOST_CUT {
                tell_cuts(alloc, &mut told, kind, bytes)?;
            }
            Ok(told)
        }
        Err(refused) => format!(in alloc; "{kind} refused {refused}\n"),
    }
}

fn tell_again(told: &mut String, bytes: &[u8], again: &[u8]) -> Result<(), AllocError> {
    if again == bytes {
        write!(told, "  written again\n")
    } else {
        write!(told, "  written as {}\n", Hex(again))
    }
}

// Why the bytes are refused where they are cut, with the count of the lengths that are refused so, from length 0 on; and why
// where a byte 0 stands behind them.
fn tell_cuts(alloc: Global, told: &mut String, kind: &str, bytes: &[u8]) -> Result<(), AllocError> {
    let mut last = None;
    let mut count = 0u32;
    write!(told, "  cut")?;
    for length in 0..bytes.len() {
        let now = answer(alloc, kind, &bytes[..length]).err();
        if now != last {
            tell_run(told, last, count)?;
            last = now;
            count = 0;
        }
        count = count.saturating_add(1);
    }
    tell_run(told, last, count)?;
    let mut longer = Blob::of(alloc, bytes)?;
    longer.append(alloc, &[0])?;
    match answer(alloc, kind, longer.bytes()) {
        Ok(_) => write!(told, "; longer read\n"),
        Err(refused) => write!(told, "; longer {refused}\n"),
    }
}

fn tell_run(told: &mut String, last: Option<Refused>, count: u32) -> Result<(), AllocError> {
    match last {
        _ if count == 0 => Ok(()),
        Some(refused) => write!(told, " {refused} x{count}"),
        None => write!(told, " read x{count}"),
    }
}
