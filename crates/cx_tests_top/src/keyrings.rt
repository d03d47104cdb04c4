//! Keyrings, printed.

use crate::given::{Given, ends, print_of, run_over, writes};
use cx_base::Sink;
use cx_top::Status;
use std::alloc::Global;
use std::process::Abort;

/// A keyring and its printed form. Others are those of `examples/keyrings`.
const KEYRING: &str =
    "[client.vm]\nkey = AQAAAAAAAAAAABAAAAECAwQFBgcICQoLDA0ODw==\ncaps mon = \"profile rbd\"\n";

const PRINTED: &str =
    "[client.vm]\n\tkey = AQAAAAAAAAAAABAAAAECAwQFBgcICQoLDA0ODw==\n\tcaps mon = \"profile rbd\"\n";

#[test]
fn a_keyring_is_printed_with_ample_memory(rt: HostRuntime) {
    let given = print_of(KEYRING.as_bytes());
    assert!(rt; writes(&rt, rt.alloc(), &given, Status::Done, PRINTED));
}

fn put_section(rt: &impl Abort, alloc: Global, text: &mut String, place: u32) {
    let section = format!(in alloc;
        "[client.c{place}]\n\tkey = AQAAAAAAAAAAABAAAAECAwQFBgcICQoLDA0ODw==\n"
    ).expect(rt, "memory");
    text.push_str(&section).expect(rt, "memory");
}

/// So many sections, as they are printed.
fn sections(rt: &impl Abort, alloc: Global, count: u32) -> String {
    let mut text = String::new(alloc);
    for place in 0..count {
        put_section(rt, alloc, &mut text, place);
    }
    text
}

#[test]
fn a_keyring_of_4096_sections_is_printed(rt: HostRuntime) {
    let most = sections(&rt, rt.alloc(), 4096);
    let given = Given {
        room: most.len(),
        ..print_of(most.as_bytes())
    };
    let (status, sink) = run_over(&rt, rt.alloc(), &given);
    assert!(rt; status == Status::Done);
    assert!(rt; sink.taken() == most.as_bytes());
}

#[test]
fn no_longer_one_is_printed(rt: HostRuntime) {
    let more = sections(&rt, rt.alloc(), 4097);
    let given = print_of(more.as_bytes());
    assert!(rt;
        ends(
            &rt,
            rt.alloc(),
            &given,
            Status::BadKeyring { line: 0, why: None }
        )
    );
}
