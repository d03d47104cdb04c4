//! Known answers of the payloads of frames and the bodies of messages. Each row of standard input is a kind and bytes in hexadecimal;
//! for each the program prints what the bytes mean and whether they are written again, or the place at which they are refused.
#![tactic(auto)]

mod answered;
mod bounds;
mod control;
mod fields;
mod logins;
mod messages;
mod rows;
mod sealed;
mod shown;
mod states;

use rows::told;
use std::io;

fn main(rt: HostRuntime) -> io::Result<()> {
    let alloc = rt.alloc();
    let rows = io::read_to_string(alloc, rt.stdin())?;
    for row in rows.lines() {
        let told = told(alloc, row)?;
        print!(rt; "{told}")?;
    }
    Ok(())
}
