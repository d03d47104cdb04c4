//! A stream that is driven to its end.

use crate::stream_shown::{Shown, name_of};
use cx_base::{Blob, Items};
use cx_frame::Frame;
use cx_secure::Sealing;
use cx_stream::{Greeted, Greeting, Plain, Secure, StreamFault};
use std::alloc::{AllocError, Global};
use std::fmt::Write;
use std::mem;

/// A stream: what one side of a connection sends.
#[derive(Drop)]
pub struct Sample {
    /// The plain frames behind the banner.
    plains: u32,
    /// The secret of the connection.
    secret: [u8; 64],
    /// Whether the connector reads.
    connector: bool,
    bytes: Blob,
}

impl Sample {
    /// The stream of a row.
    pub fn of(alloc: Global, row: &str) -> Result<Option<Sample>, AllocError> {
        let mut words = row.split(' ');
        let plains = words.next().unwrap_or("").parse::<u32>().unwrap_or(0);
        let connector = words.next().unwrap_or("") == "c";
        let Ok(secret) = hex::decode(alloc, words.next().unwrap_or("")) else {
            return Ok(None);
        };
        let Ok(bytes) = hex::decode(alloc, words.next().unwrap_or("")) else {
            return Ok(None);
        };
        let Some((secret, _)) = secret.as_slice().split_first_chunk::<64>() else {
            return Ok(None);
        };
        let bytes = Blob::of(alloc, bytes.as_slice())?;
        Ok(Some(Sample {
            plains,
            secret: *secret,
            connector,
            bytes,
        }))
    }
}

/// The stages of a stream.
#[derive(Drop)]
enum Stage {
    Greeting(Greeting),
    Plain(Plain, u32),
    Secure(Secure),
    Over,
}

/// Feeds a stream in pieces of a size, with one byte changed, and tells what it gave.
pub fn driven(
    alloc: Global,
    sample: &Sample,
    size: usize,
    change: Option<(usize, u8)>,
) -> Result<String, AllocError> {
    let mut told = String::new(alloc);
    let mut bytes = Vec::from_slice(alloc, sample.bytes.bytes())?;
    if let Some((place, mask)) = change {
        if place < bytes.len() {
            bytes[place] ^= mask;
        }
    }
    let mut stage = Stage::Greeting(Greeting::new(alloc));
    if size == 0 {
        feed(alloc, &mut stage, &bytes)?;
        turns(alloc, &mut told, &mut stage, sample)?;
    } else {
        for piece in bytes.chunks(size) {
            feed(alloc, &mut stage, piece)?;
            turns(alloc, &mut told, &mut stage, sample)?;
        }
    }
    put_end(&mut told, &stage)?;
    Ok(told)
}

fn feed(alloc: Global, stage: &mut Stage, piece: &[u8]) -> Result<(), AllocError> {
    match stage {
        Stage::Greeting(stream) => stream.feed(alloc, piece),
        Stage::Plain(stream, _) => stream.feed(alloc, piece),
        Stage::Secure(stream) => stream.feed(alloc, piece),
        Stage::Over => Ok(()),
    }
}

// Turns until nothing more comes.
fn turns(
    alloc: Global,
    told: &mut String,
    stage: &mut Stage,
    sample: &Sample,
) -> Result<(), AllocError> {
    for _ in 0..1000 {
        if !turn(alloc, told, stage, sample)? {
            break;
        }
    }
    Ok(())
}

// Whether something came.
fn turn(
    alloc: Global,
    told: &mut String,
    stage: &mut Stage,
    sample: &Sample,
) -> Result<bool, AllocError> {
    match mem::replace(stage, Stage::Over) {
        Stage::Greeting(stream) => greeted(told, stage, sample, stream.turn()),
        Stage::Plain(stream, left) => plain(alloc, told, stage, sample, stream, left),
        Stage::Secure(stream) => secure(alloc, told, stage, stream),
        Stage::Over => Ok(false),
    }
}

fn greeted(
    told: &mut String,
    stage: &mut Stage,
    sample: &Sample,
    greeted: Greeted,
) -> Result<bool, AllocError> {
    match greeted {
        Greeted::NotYet(stream) => {
            *stage = Stage::Greeting(stream);
            Ok(false)
        }
        Greeted::Done(banner, stream) => {
            write!(told, "banner {} {}\n", banner.supported, banner.required)?;
            *stage = Stage::Plain(stream, sample.plains);
            Ok(true)
        }
        Greeted::Refused(fault, _) => {
            write!(told, "fault {}\n", name_of(fault))?;
            Ok(false)
        }
    }
}

fn plain(
    alloc: Global,
    told: &mut String,
    stage: &mut Stage,
    sample: &Sample,
    mut stream: Plain,
    left: u32,
) -> Result<bool, AllocError> {
    if left == 0 {
        write!(told, "received {}\n", stream.received().len())?;
        let sealing = Sealing::new(&sample.secret, sample.connector);
        *stage = Stage::Secure(stream.secure(sealing));
        return Ok(true);
    }
    let given = stream.turn(alloc);
    let came = put_given(told, &given)?;
    if given.is_err() {
        let again = stream.turn(alloc);
        put_given(told, &again)?;
    }
    *stage = Stage::Plain(stream, left - u32::from(came));
    Ok(came)
}

fn secure(
    alloc: Global,
    told: &mut String,
    stage: &mut Stage,
    mut stream: Secure,
) -> Result<bool, AllocError> {
    let mut opened = Items::new(alloc);
    let given = stream.turn(alloc, &mut opened);
    let came = put_given(told, &given)?;
    if given.is_err() {
        let again = stream.turn(alloc, &mut opened);
        put_given(told, &again)?;
    }
    *stage = Stage::Secure(stream);
    Ok(came)
}

// Prints what was given, and tells whether it is a frame.
fn put_given(
    told: &mut String,
    given: &Result<Option<Frame>, StreamFault>,
) -> Result<bool, AllocError> {
    match given {
        Ok(Some(frame)) => {
            write!(told, "{}\n", Shown(frame))?;
            Ok(true)
        }
        Ok(None) => Ok(false),
        Err(fault) => {
            write!(told, "fault {}\n", name_of(*fault))?;
            Ok(false)
        }
    }
}

fn put_end(told: &mut String, stage: &Stage) -> Result<(), AllocError> {
    match stage {
        Stage::Greeting(_) => write!(told, "end in the banner\n")?,
        Stage::Plain(stream, _) => write!(told, "end in plain, kept {}\n", stream.kept())?,
        Stage::Secure(stream) => write!(told, "end in secure, kept {}\n", stream.kept())?,
        Stage::Over => write!(told, "over\n")?,
    }
    Ok(())
}
