//! What no clause says: that each call answers something other than want of memory.

use cx_base::{Access, Blob, Operation, Text};
use cx_caps::{CapText, Permitted};
use cx_desk::{Desk, ServeRefusal};
use std::alloc::{AllocError, Global};
use std::process::Abort;

fn text(rt: &impl Abort, alloc: Global, bytes: &[u8]) -> Text {
    Text::of(alloc, bytes).expect(rt, "ASCII")
}

/// An operation of this access on the object `o`, with the data `data`.
fn permitted(rt: &impl Abort, alloc: Global, access: Access) -> Permitted {
    let caps = CapText::read(alloc, &text(rt, alloc, b"allow *")).expect(rt, "a capability text");
    let ask = Operation {
        access,
        pool: text(rt, alloc, b"rbd"),
        namespace: text(rt, alloc, b""),
        object: text(rt, alloc, b"o"),
        bytes: Blob::of(alloc, b"twelve bytes").expect(rt, "memory is ample"),
    };
    caps.permit(ask).expect(rt, "allowed")
}

/// The desk serves an operation of this access with this reply.
fn expect_reply(rt: &impl Abort, alloc: Global, desk: &Desk, access: Access, reply: &[u8]) {
    let served = desk.serve(alloc, &permitted(rt, alloc, access));
    assert!(rt; served.expect(rt, "there is a handler").bytes() == reply);
}

#[test]
fn each_kind_is_served_by_its_own_handler(rt: HostRuntime) -> Result<(), AllocError> {
    let alloc = rt.alloc();
    let mut desk = Desk::empty();
    let read = |alloc: Global, ask: &Permitted| Blob::of(alloc, ask.operation().object.bytes());
    desk.set(Access::Read, Box::new(alloc, read)?);
    let write = |alloc: Global, ask: &Permitted| -> Result<Blob, AllocError> {
        let count = ask.operation().bytes.bytes().len();
        let printed = format!(in alloc; "{count}")?;
        Blob::of(alloc, printed.as_bytes())
    };
    desk.set(Access::Write, Box::new(alloc, write)?);
    let exec = |alloc: Global, ask: &Permitted| Blob::of(alloc, ask.operation().bytes.bytes());
    desk.set(Access::Exec, Box::new(alloc, exec)?);
    expect_reply(&rt, alloc, &desk, Access::Read, b"o");
    expect_reply(&rt, alloc, &desk, Access::Write, b"12");
    expect_reply(&rt, alloc, &desk, Access::Exec, b"twelve bytes");
    Ok(())
}

#[test]
fn an_operation_of_a_kind_without_handler_is_refused(rt: HostRuntime) -> Result<(), AllocError> {
    let alloc = rt.alloc();
    let mut desk = Desk::empty();
    let read = |alloc: Global, ask: &Permitted| Blob::of(alloc, ask.operation().object.bytes());
    desk.set(Access::Read, Box::new(alloc, read)?);
    let refused = desk.serve(alloc, &permitted(&rt, alloc, Access::Exec));
    assert!(rt; refused.err() == Some(ServeRefusal::NoHandler { kind: Access::Exec }));
    expect_reply(&rt, alloc, &desk, Access::Read, b"o");
    Ok(())
}
