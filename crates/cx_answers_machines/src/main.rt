//! Known answers of the machines of the monitor and of clients. Rows name the keyring and the nodes of a recorded run, and what comes to them, event by
//! event with its reading and its draw. For each event the program prints what the node gave, and at the end of a run its journal.
#![tactic(auto)]

mod asked;

use asked::Requests;
use cx_answers_rows::Rows;
use std::io;

fn main(rt: HostRuntime) -> io::Result<()> {
    let alloc = rt.alloc();
    let text = io::read_to_string(alloc, rt.stdin())?;
    let mut rows = Rows::new(alloc, Requests {});
    for row in text.lines() {
        let told = rows.told(alloc, row)?;
        print!(rt; "{told}")?;
    }
    Ok(())
}
