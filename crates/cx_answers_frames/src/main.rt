//! Known answers of banners, frames and streams. A row of standard input is a kind and bytes in hexadecimal, or the lengths of segments; for
//! each the program prints what the bytes mean and whether they are written again, or why they are refused. A row
//! `stream PLAINS SIDE SECRET BYTES` names a stream; `cut SIZE` feeds it in pieces of this size (0: all at once), `break PLACE XX` feeds it
//! with one byte changed, and the program prints what the stream gave.
#![tactic(auto)]

mod banners;
mod frames;
mod rows;
mod secure;
mod shown;
mod stream_driven;
mod stream_shown;
mod streams;

use rows::told;
use std::io;
use streams::Streams;

fn main(rt: HostRuntime) -> io::Result<()> {
    let alloc = rt.alloc();
    let text = io::read_to_string(alloc, rt.stdin())?;
    let mut streams = Streams::new();
    for row in text.lines() {
        let told = told(alloc, &mut streams, row)?;
        print!(rt; "{told}")?;
    }
    Ok(())
}
