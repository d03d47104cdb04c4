//! Sockets, files, the clock and the dice of the system, tried on this machine: a line for each thing that is seen. With a word it tries what takes
//! much memory, and nothing else.
#![tactic(auto)]

mod folders;
mod heavy;
mod lines;
mod readings;
mod sockets;
mod traffic;

use std::{env, io};

fn main(rt: HostRuntime) -> io::Result<()> {
    let rt = &rt;
    let words: Vec<String> = env::args(rt)?.skip(1).collect(rt.alloc())?;
    if !words.is_empty() {
        return println!(rt;
            "where more than 256 MiB wait, the link with the most is gone: {}",
            heavy::relieves(rt)
        );
    }
    println!(rt; "a word goes and comes back: {}", sockets::echoes(rt))?;
    println!(rt;
        "what is sent before the connect is done comes: {}",
        sockets::sends_early(rt)
    )?;
    println!(rt;
        "a connect that is refused is gone: {}",
        sockets::is_refused(rt)
    )?;
    println!(rt;
        "a dial behind one that failed waits: {}",
        sockets::waits(rt)
    )?;
    println!(rt;
        "a port that is taken is a fault: {}",
        sockets::is_taken(rt)
    )?;
    println!(rt;
        "the last word comes before the end: {}",
        sockets::ends_well(rt)
    )?;
    println!(rt;
        "three megabytes wait and come in order: {}",
        traffic::comes_whole(rt)
    )?;
    println!(rt;
        "a peer that doesn't read is given up: {}",
        traffic::is_given_up(rt)
    )?;
    println!(rt;
        "two that talk at once are served in turn: {}",
        traffic::is_fair(rt)
    )?;
    println!(rt; "400 links at once: {}", traffic::serves_many(rt))?;
    println!(rt;
        "nothing comes within 50 ms and more: {}",
        readings::waits(rt)
    )?;
    println!(rt;
        "strangers are gone after 10 s, and who is known stays: {}",
        traffic::tires(rt)
    )?;
    println!(rt; "nothing is kept at first: {}", folders::is_empty(rt))?;
    println!(rt; "what was saved is loaded: {}", folders::keeps(rt))?;
    println!(rt;
        "the state is its owner's alone: {}",
        folders::is_private(rt)
    )?;
    println!(rt;
        "what stands as state.new is not written: {}",
        folders::is_written_anew(rt)
    )?;
    println!(rt;
        "what others may write isn't loaded: {}",
        folders::is_guarded(rt)
    )?;
    println!(rt; "one monitor a folder: {}", folders::is_locked(rt))?;
    println!(rt;
        "a file of over 16 MiB is no state: {}",
        folders::is_bounded(rt)
    )?;
    println!(rt;
        "a folder in place of the file is a fault: {}",
        folders::is_no_file(rt)
    )?;
    println!(rt; "the clock reads on: {}", readings::goes_on(rt))?;
    println!(rt;
        "a clock that is refused reads the last reading: {}",
        readings::is_late()
    )?;
    println!(rt; "two thousand draws differ: {}", readings::differ(rt))
}
