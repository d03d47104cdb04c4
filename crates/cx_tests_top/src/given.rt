//! What a run is given, with ample memory and a desk that serves reads alone.

use cx_base::{Access, Blob, ByteSource, VecSink};
use cx_caps::Permitted;
use cx_desk::Desk;
use cx_top::{Status, run};
use std::alloc::Global;
use std::process::Abort;

/// The room of a sink that takes all that most runs write.
pub(crate) const ROOM: usize = 65_536;

static REPLAY: [&str; 1] = ["replay"];

static KEYRING: [&str; 1] = ["keyring"];

static AUDIT: [&str; 1] = ["audit"];

/// The words of the command line, the input with the numbers of its calls that fail, and how many bytes the sink takes.
#[derive(Clone, Copy)]
pub(crate) struct Given<'a> {
    pub words: &'a [&'a str],
    pub input: &'a [u8],
    pub fails: &'a [u8],
    pub room: usize,
}

/// A replay of a schedule.
pub(crate) fn replay_of(schedule: &[u8]) -> Given<'_> {
    Given {
        words: &REPLAY,
        input: schedule,
        fails: &[],
        room: ROOM,
    }
}

/// A print of a keyring.
pub(crate) fn print_of(keyring: &[u8]) -> Given<'_> {
    Given {
        words: &KEYRING,
        input: keyring,
        fails: &[],
        room: ROOM,
    }
}

/// An audit of a journal.
pub(crate) fn audit_of(journal: &[u8]) -> Given<'_> {
    Given {
        words: &AUDIT,
        input: journal,
        fails: &[],
        room: ROOM,
    }
}

/// How a run ends, and its sink behind it.
pub(crate) fn run_over(rt: &impl Abort, alloc: Global, given: &Given<'_>) -> (Status, VecSink) {
    let mut desk = Desk::empty();
    let read = |alloc: Global, ask: &Permitted| Blob::of(alloc, ask.operation().object.bytes());
    desk.set(Access::Read, Box::new(alloc, read).expect(rt, "memory"));
    let input = Blob::of(alloc, given.input).expect(rt, "memory");
    let fails = Blob::of(alloc, given.fails).expect(rt, "memory");
    let mut source = ByteSource::new(input, fails);
    let mut sink = VecSink::new(alloc, given.room, Blob::new(alloc)).expect(rt, "memory");
    let ended = run(alloc, given.words, &mut source, &mut sink, &desk);
    (ended.status, sink)
}

/// Whether a run ends so and writes this.
pub(crate) fn writes(
    rt: &impl Abort,
    alloc: Global,
    given: &Given<'_>,
    wanted: Status,
    text: &str,
) -> bool {
    let (status, sink) = run_over(rt, alloc, given);
    status == wanted && sink.taken() == text.as_bytes()
}

/// Whether a run ends so.
pub(crate) fn ends(rt: &impl Abort, alloc: Global, given: &Given<'_>, wanted: Status) -> bool {
    let (status, _) = run_over(rt, alloc, given);
    status == wanted
}
