//! Known answers of logs and of the auditor. A row `log CLIENT..` begins a log in which these clients leaked; a row `NODE LINE WHAT ..` is an entry of it, and
//! `many` is many of them, as the README lists them; a row `told` prints what is found in the log so far. A row that begins with `>` is a
//! line of a journal, and a row `audit` prints what is said of the lines since the last one.
#![tactic(auto)]

mod audits;
mod entries;
mod marks;
mod rows;

use rows::Rows;
use std::io;

fn main(rt: HostRuntime) -> io::Result<()> {
    let alloc = rt.alloc();
    let text = io::read_to_string(alloc, rt.stdin())?;
    let mut rows = Rows::new(alloc)?;
    for row in text.split('\n') {
        let told = rows.told(alloc, row)?;
        print!(rt; "{told}")?;
    }
    Ok(())
}
