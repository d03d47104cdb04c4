//! The program `cephx_cli`: the top call over the words of the command line, standard input and standard output, sockets, the folder in which it runs,
//! the time and random bytes of the system.
#![tactic(auto)]

use cx_base::{Access, Blob};
use cx_caps::Permitted;
use cx_commands::{CommandEnd, CommandStatus, Status, run, start_told};
use cx_desk::Desk;
use cx_edge::{Input, Output};
use cx_tcp::{FolderKeeper, RingNotes, SystemClock, SystemDice, TcpLinks};
use std::alloc::{AllocError, Global};
use std::process::ExitCode;
use std::{env, io};

fn main(rt: HostRuntime) -> ExitCode {
    let ended = match words(&rt) {
        Ok(words) => match serve(&rt, &words) {
            Ok(ended) => ended,
            Err(_) => plain(&rt, Status::OutOfMemory),
        },
        Err(error) => plain(&rt, unreadable(&error)),
    };
    // Where standard error fails too, the number is left.
    let _ = eprint!(rt; "{ended}");
    ExitCode::from(ended.status.number())
}

fn plain(rt: &HostRuntime, status: Status) -> CommandEnd {
    CommandEnd::plain(rt.alloc(), CommandStatus::Text(status))
}

// The words of the command line, without the program's name.
fn words(rt: &HostRuntime) -> io::Result<Vec<String>> {
    let words = env::args(rt)?.skip(1).collect(rt.alloc())?;
    Ok(words)
}

// A word that is no text names no command.
fn unreadable(error: &io::Error) -> Status {
    match error.kind() {
        io::ErrorKind::OutOfMemory => Status::OutOfMemory,
        _ => Status::Usage,
    }
}

fn serve(rt: &HostRuntime, words: &[String]) -> Result<CommandEnd, AllocError> {
    let mut texts = Vec::new(rt.alloc());
    for word in words {
        texts.push(word.as_str())?;
    }
    // What serves the operations that are allowed: a read answers the name of its object, a write how many bytes came, an exec those bytes.
    let mut desk = Desk::empty();
    let read = |alloc: Global, ask: &Permitted| Blob::of(alloc, ask.operation().object.bytes());
    desk.set(Access::Read, Box::new(rt.alloc(), read)?);
    let write = |alloc: Global, ask: &Permitted| -> Result<Blob, AllocError> {
        let count = ask.operation().bytes.bytes().len();
        let printed = format!(in alloc; "{count}")?;
        Blob::of(alloc, printed.as_bytes())
    };
    desk.set(Access::Write, Box::new(rt.alloc(), write)?);
    let exec = |alloc: Global, ask: &Permitted| Blob::of(alloc, ask.operation().bytes.bytes());
    desk.set(Access::Exec, Box::new(rt.alloc(), exec)?);
    let mut input = Input::new(rt.stdin());
    let mut output = Output::new(rt.stdout());
    let keyring = Blob::new(rt.alloc());
    let mut keeper = FolderKeeper::with_notes(rt, StartNotes { keyring });
    let mut links = TcpLinks::new(rt.alloc(), rt)?;
    let mut clock = SystemClock::new(rt);
    let mut dice = SystemDice::new(rt.alloc(), rt);
    let ended = run(
        rt.alloc(),
        &texts,
        &mut input,
        &mut output,
        &mut keeper,
        &mut links,
        &mut clock,
        &mut dice,
        &desk,
    );
    links.send_on();
    ended.with_keyring(rt.alloc(), keeper.notes().keyring.bytes())
}

// Of a keyring with which a node begins, why clauses of its caps grant nothing. The last one that was loaded is kept, for what is said
// of the end of a node that it stops.
#[derive(Drop)]
struct StartNotes {
    keyring: Blob,
}

impl RingNotes for StartNotes {
    fn notes(&mut self, alloc: Global, keyring: &[u8]) -> Result<String, AllocError> {
        self.keyring = Blob::of(alloc, keyring)?;
        start_told(alloc, keyring)
    }
}
