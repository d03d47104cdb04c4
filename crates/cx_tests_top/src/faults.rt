//! Words that name no command, a read that fails, and a sink that is full.

use crate::given::{Given, ends, replay_of, run_over, writes};
use crate::replays::{FIRST, FIRST_JOURNAL};
use cx_base::Sink;
use cx_top::Status;

/// Words that aren't the one word of a command.
static NO_COMMANDS: [&[&str]; 3] = [&[], &["replay", "keyring"], &["replays"]];

#[test]
fn only_the_one_word_of_a_command_is_served(rt: HostRuntime) {
    for words in NO_COMMANDS {
        let given = Given {
            words,
            ..replay_of(FIRST.as_bytes())
        };
        assert!(rt; writes(&rt, rt.alloc(), &given, Status::Usage, ""));
    }
}

// The first call gives the whole schedule, and the second fails where the end of input is to be told.
#[test]
fn a_failed_read_is_told(rt: HostRuntime) {
    let given = Given {
        fails: &[2],
        ..replay_of(FIRST.as_bytes())
    };
    assert!(rt; writes(&rt, rt.alloc(), &given, Status::ReadFault, ""));
}

#[test]
fn a_failed_write_is_told_behind_a_front_of_the_journal(rt: HostRuntime) {
    let given = Given {
        room: 100,
        ..replay_of(FIRST.as_bytes())
    };
    let (status, sink) = run_over(&rt, rt.alloc(), &given);
    assert!(rt; status == Status::WriteFault);
    assert!(rt; sink.taken().len() == 100);
    assert!(rt; FIRST_JOURNAL.as_bytes().starts_with(sink.taken()));
}
