//! What no clause says of the edge: that a failed flush is told, and that a replay goes on over a reader that reads short and
//! is interrupted, and a writer that does so.

use cx_desk::Desk;
use cx_edge::{Input, Output};
use cx_top::{Status, run};
use std::alloc::Global;
use std::io;
use std::io::{ErrorKind, Read, Write};
use std::process::Abort;

/// What a call of the reader or the writer does.
enum Call {
    /// It gives these bytes, as many as fit.
    Gives(&'static str),
    /// It takes so many bytes.
    Takes(usize),
    Interrupted,
    Fails,
}

/// A reader whose calls go as listed; behind the list it is at its end.
#[derive(Drop)]
struct Listed {
    calls: &'static [Call],
}

impl Read for Listed {
    fn read(&mut self, buf: &mut [u8]) -> io::Result<usize> {
        let [call, rest @ ..] = self.calls else {
            return Ok(0);
        };
        self.calls = rest;
        match call {
            Call::Gives(text) => {
                let count = text.len().min(buf.len());
                buf[..count].copy_from_slice(&text.as_bytes()[..count]);
                Ok(count)
            }
            Call::Takes(_) => Ok(0),
            Call::Interrupted => Err(io::Error::from(ErrorKind::Interrupted)),
            Call::Fails => Err(io::Error::from(ErrorKind::BrokenPipe)),
        }
    }
}

/// A writer whose calls go as listed, and take all behind the list; its flush fails or not.
#[derive(Drop)]
struct Kept {
    bytes: Vec<u8>,
    calls: &'static [Call],
    is_flushed: bool,
}

impl Write for Kept {
    fn write(&mut self, buf: &[u8]) -> io::Result<usize> {
        let [call, rest @ ..] = self.calls else {
            return self.bytes.write(buf);
        };
        self.calls = rest;
        match call {
            Call::Gives(_) => Ok(0),
            Call::Takes(count) => {
                let count = buf.len().min(*count);
                self.bytes.write(&buf[..count])
            }
            Call::Interrupted => Err(io::Error::from(ErrorKind::Interrupted)),
            Call::Fails => Err(io::Error::from(ErrorKind::BrokenPipe)),
        }
    }

    fn flush(&mut self) -> io::Result<()> {
        if self.is_flushed {
            Ok(())
        } else {
            Err(io::Error::from(ErrorKind::BrokenPipe))
        }
    }
}

/// How the reader and the writer of a replay go, how it ends, and what the writer then holds.
struct Row {
    shows: &'static str,
    reads: &'static [Call],
    writes: &'static [Call],
    is_flushed: bool,
    status: Status,
    kept: &'static str,
}

/// A schedule that is read whole.
const WHOLE: [Call; 1] = [Call::Gives("entity client.a\nclock 5\nlogin client.a\n")];

const JOURNAL: &str = "saved 2\nissued 1 client.a auth 1 2 5 43205 \"\"\n";

static ROWS: [Row; 7] = [
    Row {
        shows: "a reader and a writer that do all at once",
        reads: &WHOLE,
        writes: &[],
        is_flushed: true,
        status: Status::Done,
        kept: JOURNAL,
    },
    Row {
        shows: "short and interrupted reads and writes",
        reads: &[
            Call::Gives("entity client.a\nclo"),
            Call::Interrupted,
            Call::Gives("ck 5\nlogin client.a\n"),
            Call::Interrupted,
        ],
        writes: &[Call::Takes(3), Call::Interrupted, Call::Takes(1)],
        is_flushed: true,
        status: Status::Done,
        kept: JOURNAL,
    },
    Row {
        shows: "a read that fails behind a whole line",
        reads: &[Call::Gives("entity client.a\n"), Call::Fails],
        writes: &[],
        is_flushed: true,
        status: Status::ReadFault,
        kept: "",
    },
    Row {
        shows: "a write that fails at once",
        reads: &WHOLE,
        writes: &[Call::Fails],
        is_flushed: true,
        status: Status::WriteFault,
        kept: "",
    },
    Row {
        shows: "a write that fails behind another",
        reads: &WHOLE,
        writes: &[Call::Takes(3), Call::Fails],
        is_flushed: true,
        status: Status::WriteFault,
        kept: "sav",
    },
    Row {
        shows: "a writer that takes nothing more",
        reads: &WHOLE,
        writes: &[Call::Takes(5), Call::Takes(0)],
        is_flushed: true,
        status: Status::WriteFault,
        kept: "saved",
    },
    Row {
        shows: "a flush that fails",
        reads: &WHOLE,
        writes: &[],
        is_flushed: false,
        status: Status::WriteFault,
        kept: JOURNAL,
    },
];

fn check(rt: &impl Abort, alloc: Global, row: &Row) {
    let mut input = Input::new(Listed { calls: row.reads });
    let mut kept = Kept {
        bytes: Vec::new(alloc),
        calls: row.writes,
        is_flushed: row.is_flushed,
    };
    let mut output = Output::new(&mut kept);
    let ended = run(alloc, &["replay"], &mut input, &mut output, &Desk::empty());
    assert_eq!(rt; ended.status, row.status, "{}", row.shows);
    assert_eq!(rt; kept.bytes.as_slice(), row.kept.as_bytes(), "{}", row.shows);
}

#[test]
fn each_way_of_a_reader_and_a_writer_is_told(rt: HostRuntime) {
    for row in &ROWS {
        check(&rt, rt.alloc(), row);
    }
}
