//! Known answers of a client's links to daemons. Rows name the keyring and the clients of a run, and what comes to them, event by event with its reading
//! and its draw. For each event the program prints what the client gave, and at the end of a run its journal.
#![tactic(auto)]

mod links;

use crate::links::calls;
use cx_answers_rows::{Nobody, Rows};
use std::io;

fn main(rt: HostRuntime) -> io::Result<()> {
    let alloc = rt.alloc();
    let text = io::read_to_string(alloc, rt.stdin())?;
    let mut rows = Rows::new(alloc, Nobody {});
    for row in text.lines() {
        let told = match row.strip_prefix("calls ") {
            Some(rest) => calls(alloc, &mut rows, rest)?,
            None => rows.told(alloc, row)?,
        };
        print!(rt; "{told}")?;
    }
    Ok(())
}
