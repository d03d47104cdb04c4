//! Known answers of the ciphers and digests. Each row of standard input is a kind and words of bytes in hexadecimal; for each the program
//! prints what the crates answer.
#![tactic(auto)]

mod blocks;
mod digests;
mod envelopes;
mod frames;
mod rows;
mod words;

use rows::told;
use std::io;

fn main(rt: HostRuntime) -> io::Result<()> {
    let alloc = rt.alloc();
    let rows = io::read_to_string(alloc, rt.stdin())?;
    for row in rows.lines() {
        let told = told(alloc, row)?;
        print!(rt; "{told}")?;
    }
    Ok(())
}
