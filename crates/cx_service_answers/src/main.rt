//! Known answers of daemons. Rows name the keyring and the nodes of a run, and what comes to them, event by event with its reading and its draw. For
//! each event the program prints what the node gave, and at the end of a run its journal.
#![tactic(auto)]

mod daemons;

use cx_answers_rows::Rows;
use cx_base::{Access, Blob};
use cx_caps::Permitted;
use cx_desk::Desk;
use daemons::Daemons;
use std::alloc::{AllocError, Global};
use std::io;

fn main(rt: HostRuntime) -> io::Result<()> {
    let alloc = rt.alloc();
    let text = io::read_to_string(alloc, rt.stdin())?;
    let mut desk = Desk::empty();
    let read = |alloc: Global, ask: &Permitted| Blob::of(alloc, ask.operation().object.bytes());
    desk.set(Access::Read, Box::new(alloc, read)?);
    let write = |alloc: Global, ask: &Permitted| -> Result<Blob, AllocError> {
        let count = ask.operation().bytes.bytes().len();
        let printed = format!(in alloc; "{count}")?;
        Blob::of(alloc, printed.as_bytes())
    };
    desk.set(Access::Write, Box::new(alloc, write)?);
    let exec = |alloc: Global, ask: &Permitted| Blob::of(alloc, ask.operation().bytes.bytes());
    desk.set(Access::Exec, Box::new(alloc, exec)?);
    let mut rows = Rows::new(alloc, Daemons::new(alloc, &desk));
    for row in text.lines() {
        let told = rows.told(alloc, row)?;
        print!(rt; "{told}")?;
    }
    Ok(())
}
