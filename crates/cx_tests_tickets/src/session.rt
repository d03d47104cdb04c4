//! Books of sessions and outboxes: grown past round numbers, with what they refuse there, and each call once.

use cx_base::{Access, Blob, EntityName, EntityType, Operation, Owner, Reading, Text};
use cx_session::{
    AdmitFault, BookCall, BookFault, BookReply, Outbox, QueueFault, ResumeFault, SessionBook,
    book_laws, told_laws,
};
use std::alloc::{AllocError, Global};
use std::process::Abort;

#[derive(Drop)]
struct Holder {
    entity: EntityName,
    gid: u64,
    caps: Text,
}

impl Owner for Holder {
    ghost entity_of = { λ h. h.entity };

    ghost gid_of = { λ h. h.gid };

    ghost caps_of = { λ h. h.caps };

    ghost reading_of = { λ _. 0 };

    fn entity(&self) -> &EntityName {
        &self.entity
    }

    fn gid(&self) -> u64 {
        self.gid
    }

    fn caps(&self) -> &Text {
        &self.caps
    }

    fn at(&self) -> Reading {
        0
    }
}

fn name(rt: &impl Abort, alloc: Global, id: u8) -> EntityName {
    let id = Text::of(alloc, &[id]).expect(rt, "ASCII");
    EntityName::new(EntityType::Client, id).expect(rt, "a name")
}

fn owned_by(rt: &impl Abort, alloc: Global, id: u8, gid: u64) -> Holder {
    Holder {
        entity: name(rt, alloc, id),
        gid,
        caps: Text::new(alloc).expect(rt, "memory"),
    }
}

// ---- past round numbers

/// The number that a session of this owner gets under this client cookie.
fn admitted(
    alloc: Global,
    book: &mut SessionBook<Holder>,
    owner: Holder,
    cookie: u64,
) -> Result<u64, AdmitFault> {
    match book.admit(alloc, owner, cookie, 9, 5, true) {
        Ok((number, _)) => Ok(number),
        Err(refusal) => Err(refusal.fault),
    }
}

/// Whether the session under this number as the client cookie gets it.
fn is_admitted(
    rt: &impl Abort,
    alloc: Global,
    book: &mut SessionBook<Holder>,
    number: u64,
) -> bool {
    admitted(alloc, book, owned_by(rt, alloc, b'a', 2), number) == Ok(number)
}

fn end(book: &mut SessionBook<Holder>, number: u64) {
    book.end(number);
}

/// A book in which each number was given under itself as the cookie, from 1 to this one, while the last 4,096 live.
fn full_book(rt: &impl Abort, alloc: Global, last: u64) -> SessionBook<Holder> {
    let mut book = SessionBook::new(alloc);
    for number in 1..=last {
        end(&mut book, number.saturating_sub(4096));
        assert!(rt; is_admitted(rt, alloc, &mut book, number), "{number}");
    }
    book
}

fn count(book: &SessionBook<Holder>) -> usize {
    book.count()
}

/// Whether no session is admitted under this client cookie, for this reason.
fn is_refused(
    rt: &impl Abort,
    alloc: Global,
    book: &mut SessionBook<Holder>,
    cookie: u64,
    fault: AdmitFault,
) -> bool {
    admitted(alloc, book, owned_by(rt, alloc, b'a', 2), cookie) == Err(fault)
}

#[test]
fn at_most_4096_sessions_live(rt: HostRuntime) {
    let mut book = full_book(&rt, rt.alloc(), 70_000);
    assert!(rt; count(&book) == 4096);
    let full = AdmitFault::BookFull { limit: 4096 };
    assert!(rt; is_refused(&rt, rt.alloc(), &mut book, 70_001, full));
    let in_use = AdmitFault::CookieInUse { number: 69_999 };
    assert!(rt; is_refused(&rt, rt.alloc(), &mut book, 69_999, in_use));
    end(&mut book, 70_000);
    assert!(rt; is_admitted(&rt, rt.alloc(), &mut book, 70_001));
}

fn write(alloc: Global) -> Result<Operation, AllocError> {
    Ok(Operation {
        access: Access::Write,
        pool: Text::new(alloc)?,
        namespace: Text::new(alloc)?,
        object: Text::new(alloc)?,
        bytes: Blob::new(alloc),
    })
}

/// The number that an operation gets.
fn pushed(alloc: Global, outbox: &mut Outbox) -> Result<u64, QueueFault> {
    let Ok(operation) = write(alloc) else {
        return Err(QueueFault::OutOfMemory);
    };
    match outbox.push(alloc, operation) {
        Ok(number) => Ok(number),
        Err(refusal) => Err(refusal.fault),
    }
}

/// Whether an operation gets this number.
fn is_pushed(alloc: Global, outbox: &mut Outbox, number: u64) -> bool {
    match pushed(alloc, outbox) {
        Ok(given) => given == number,
        Err(_) => false,
    }
}

fn acknowledge(outbox: &mut Outbox, seq: u64) {
    outbox.acknowledge(seq);
}

/// An outbox in which operations got the numbers from 1 to this one, of which the last so many wait.
fn outbox_of(rt: &impl Abort, alloc: Global, last: u64, waiting: u64) -> Outbox {
    let mut outbox = Outbox::new(alloc);
    for number in 1..=last {
        acknowledge(&mut outbox, number.saturating_sub(waiting));
        assert!(rt; is_pushed(alloc, &mut outbox, number), "{number}");
    }
    outbox
}

/// The number of an operation for which memory is reserved first.
fn pushed_reserved(rt: &impl Abort, alloc: Global, outbox: &mut Outbox) -> Result<u64, QueueFault> {
    outbox.push_reply()?;
    outbox.reserve(alloc).expect(rt, "memory is ample");
    let operation = write(alloc).expect(rt, "memory is ample");
    Ok(outbox.push_reserved(operation))
}

#[test]
fn at_most_1024_operations_wait(rt: HostRuntime) {
    let mut outbox = outbox_of(&rt, rt.alloc(), 1024, 1024);
    let full = Err(QueueFault::QueueFull { limit: 1024 });
    assert!(rt; pushed(rt.alloc(), &mut outbox) == full);
    assert!(rt; pushed_reserved(&rt, rt.alloc(), &mut outbox) == full);
    acknowledge(&mut outbox, 1);
    assert!(rt; pushed_reserved(&rt, rt.alloc(), &mut outbox) == Ok(1025));
}

fn waiting(outbox: &Outbox) -> usize {
    outbox.waiting().len()
}

#[test]
fn operations_are_counted_past_65536(rt: HostRuntime) {
    let outbox = outbox_of(&rt, rt.alloc(), 70_000, 2);
    assert!(rt; waiting(&outbox) == 2);
}

// ---- each call once

fn admission_of(owner: Holder) -> BookCall<Holder> {
    BookCall::Admit {
        owner,
        client_cookie: 7,
        server_cookie: 9,
        global_seq: 5,
        lossy: true,
    }
}

fn resumption_of(owner: Holder) -> BookCall<Holder> {
    BookCall::Resume {
        owner,
        client_cookie: 7,
        server_cookie: 9,
        global_seq: 5,
        connect_seq: 1,
    }
}

/// The reply to a call, which is made by what it takes.
fn replied(
    rt: &impl Abort,
    alloc: Global,
    book: &mut SessionBook<Holder>,
    call: BookCall<Holder>,
) -> BookReply {
    let reply = book.reply(alloc, &call);
    book.reserve(alloc, &call).expect(rt, "memory is ample");
    book.apply(call);
    reply
}

fn expect_reply(
    rt: &impl Abort,
    alloc: Global,
    book: &mut SessionBook<Holder>,
    call: BookCall<Holder>,
    expected: BookReply,
) {
    assert!(rt; replied(rt, alloc, book, call) == expected);
}

/// A book with the session 1 of the owner `a` of this global id under the client cookie 7.
fn book_of_one(rt: &impl Abort, alloc: Global, gid: u64) -> SessionBook<Holder> {
    let mut book = SessionBook::new(alloc);
    let call = admission_of(owned_by(rt, alloc, b'a', gid));
    let number = 1;
    expect_reply(
        rt,
        alloc,
        &mut book,
        call,
        BookReply::Admitted { number, epoch: 1 },
    );
    book
}

#[test]
fn a_session_is_resumed_by_its_owner_alone(rt: HostRuntime) {
    let mut book = book_of_one(&rt, rt.alloc(), 2);
    let call = resumption_of(owned_by(&rt, rt.alloc(), b'b', 2));
    let entity = name(&rt, rt.alloc(), b'a');
    let refusal = BookReply::Refused(BookFault::OwnerDiffers { entity, gid: 2 });
    expect_reply(&rt, rt.alloc(), &mut book, call, refusal);
    let call = resumption_of(owned_by(&rt, rt.alloc(), b'a', 2));
    let resumed = BookReply::Resumed {
        number: 1,
        epoch: 2,
        last: 0,
        lossy: true,
    };
    expect_reply(&rt, rt.alloc(), &mut book, call, resumed);
}

/// Global ids about each round number, and the greatest one.
const LARGE: [u64; 8] = [
    255,
    256,
    65_535,
    65_536,
    4_294_967_295,
    4_294_967_296,
    9_223_372_036_854_775_808,
    18_446_744_073_709_551_615,
];

#[test]
fn an_owner_of_a_large_global_id_is_told(rt: HostRuntime) {
    for gid in &LARGE {
        let mut book = book_of_one(&rt, rt.alloc(), *gid);
        let call = resumption_of(owned_by(&rt, rt.alloc(), b'b', *gid));
        let entity = name(&rt, rt.alloc(), b'a');
        let refusal = BookReply::Refused(BookFault::OwnerDiffers { entity, gid: *gid });
        expect_reply(&rt, rt.alloc(), &mut book, call, refusal);
    }
}

fn answered(alloc: Global, book: &mut SessionBook<Holder>, call: BookCall<Holder>) -> BookReply {
    book.answer(alloc, call)
}

/// The fault, and the global id of the owner who is given back, where this one is not given the session.
fn given_back(
    alloc: Global,
    book: &mut SessionBook<Holder>,
    owner: Holder,
) -> Option<(ResumeFault, u64)> {
    match book.resume(alloc, owner, 7, 8, 5, 1) {
        Ok(_) => None,
        Err(refusal) => Some((refusal.fault, refusal.owner.gid)),
    }
}

fn is_taken(book: &mut SessionBook<Holder>, seq: u64) -> bool {
    book.take(1, 1, seq).is_ok()
}

fn has_owner(book: &SessionBook<Holder>, number: u64) -> bool {
    book.owner(number).is_some()
}

fn laws() {
    book_laws::<Holder>();
    told_laws::<Holder>();
}

#[test]
fn each_call_is_answered(rt: HostRuntime) {
    let mut book = book_of_one(&rt, rt.alloc(), 2);
    let other = owned_by(&rt, rt.alloc(), b'a', 3);
    assert!(rt; given_back(rt.alloc(), &mut book, other) == Some((ResumeFault::Unknown, 3)));
    assert!(rt; is_taken(&mut book, 1));
    assert!(rt; has_owner(&book, 1));
    let end = BookCall::End { number: 1 };
    assert!(rt; answered(rt.alloc(), &mut book, end) == BookReply::Ended(true));
    laws();
}
