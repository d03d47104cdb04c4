//! The limits of an input, reached and passed, for both commands.

use crate::given::{ends, print_of, replay_of};
use cx_top::Status;
use std::alloc::Global;
use std::process::Abort;

/// So many lines, each a comment of one byte.
fn comments(rt: &impl Abort, alloc: Global, count: usize) -> Vec<u8> {
    let mut lines = Vec::new(alloc);
    for _ in 0..count {
        lines.extend_from_slice(b"#\n").expect(rt, "memory");
    }
    lines
}

/// One comment of so many bytes.
fn comment(rt: &impl Abort, alloc: Global, count: usize) -> Vec<u8> {
    vec![in alloc; b'#'; count].expect(rt, "memory")
}

/// Whether both commands end so over this input.
fn both_end(rt: &impl Abort, alloc: Global, input: &[u8], wanted: Status) -> bool {
    ends(rt, alloc, &replay_of(input), wanted) && ends(rt, alloc, &print_of(input), wanted)
}

#[test]
fn an_input_has_20_000_lines_and_no_more(rt: HostRuntime) {
    let most = comments(&rt, rt.alloc(), 20_000);
    assert!(rt; both_end(&rt, rt.alloc(), &most, Status::Done));
    let more = comments(&rt, rt.alloc(), 20_001);
    assert!(rt; both_end(&rt, rt.alloc(), &more, Status::TooLong));
}

#[test]
fn an_input_has_1048576_bytes_and_no_more(rt: HostRuntime) {
    let most = comment(&rt, rt.alloc(), 1_048_576);
    assert!(rt; both_end(&rt, rt.alloc(), &most, Status::Done));
    let more = comment(&rt, rt.alloc(), 1_048_577);
    assert!(rt; both_end(&rt, rt.alloc(), &more, Status::TooLong));
}
