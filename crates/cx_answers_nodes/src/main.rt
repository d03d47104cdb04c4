//! Known answers of nodes that are driven alone. Rows name a node, what comes on its links, what its clock reads and what it is told; then it is driven
//! over links, a clock, dice and a keeper in memory. The program prints what was done in its order, with the bytes that were sent, how the run ended,
//! and the journal.
#![tactic(auto)]

mod driven;
mod rows;
mod shown;

use rows::Rows;
use std::io;

fn main(rt: HostRuntime) -> io::Result<()> {
    let alloc = rt.alloc();
    let text = io::read_to_string(alloc, rt.stdin())?;
    let mut rows = Rows::new(alloc);
    for row in text.lines() {
        let told = rows.told(alloc, row)?;
        print!(rt; "{told}")?;
    }
    Ok(())
}
