//! Calls in turn, and calls of many threads, which are answered as those of one.

ghost use Rattle.std.specs.Prelude.{◌≡◌};

use crate::{Hall, HallName, Pass, Receipt, Seated, UnnamedHall};
use cx_base::{EntityName, EntityType, Owner, Reading, Text};
use cx_session::{BookCall, BookFault, BookReply, SessionBook, TakeRefusal};
use std::alloc::Global;
use std::marker::Brand;
use std::process::Abort;
use std::sync::Wait;
use std::thread;
use std::thread::Threads;

#[derive(Drop)]
struct Holder {
    entity: EntityName,
    caps: Text,
}

impl Owner for Holder {
    ghost entity_of = { λ h. h.entity };

    ghost gid_of = { λ _. 2 };

    ghost caps_of = { λ h. h.caps };

    ghost reading_of = { λ _. 0 };

    fn entity(&self) -> &EntityName {
        &self.entity
    }

    fn gid(&self) -> u64 {
        2
    }

    fn caps(&self) -> &Text {
        &self.caps
    }

    fn at(&self) -> Reading {
        0
    }
}

fn owned_by(rt: &impl Abort, alloc: Global, id: u8) -> Holder {
    let id = Text::of(alloc, &[id]).expect(rt, "ASCII");
    Holder {
        entity: EntityName::new(EntityType::Client, id).expect(rt, "a name"),
        caps: Text::new(alloc).expect(rt, "memory"),
    }
}

// ---- calls in turn

fn expect_admitted<N: HallName, R: Wait + Abort>(
    rt: &R,
    alloc: Global,
    hall: &Hall<Holder, N>,
    pass: &mut Pass<Holder, N>,
) {
    let (given, receipt) = hall.admit(rt, alloc, pass, owned_by(rt, alloc, b'a'), 7, 8, 1, false);
    assert!(rt; given.is_ok_and(|given| given == (1, 1)));
    assert!(rt; receipt == Some(Receipt { place: 0 }));
}

fn expect_taken<N: HallName, R: Wait + Abort>(
    rt: &R,
    alloc: Global,
    hall: &Hall<Holder, N>,
    pass: &mut Pass<Holder, N>,
) {
    let taken = hall.take(rt, alloc, pass, 1, 1, 1);
    let (answer, receipt) = taken.expect(rt, "ample memory");
    assert!(rt; answer == Ok(()));
    assert!(rt; receipt.place == 1);
}

fn expect_repeated<N: HallName, R: Wait + Abort>(
    rt: &R,
    hall: &Hall<Holder, N>,
    pass: &mut Pass<Holder, N>,
) {
    let (answer, receipt) = hall.check(rt, pass, 1, 1, 1);
    assert!(rt; answer == Err(TakeRefusal::Repeat { last: 1 }));
    assert!(rt; receipt.place == 2);
}

fn expect_resumed<N: HallName, R: Wait + Abort>(
    rt: &R,
    alloc: Global,
    hall: &Hall<Holder, N>,
    pass: &mut Pass<Holder, N>,
) {
    let (given, receipt) = hall.resume(rt, alloc, pass, owned_by(rt, alloc, b'a'), 7, 8, 1, 1);
    assert!(rt; given.is_ok_and(|given| given == (1, 2, 1, false)));
    assert!(rt; receipt == Some(Receipt { place: 2 }));
}

fn expect_another_owner_refused<N: HallName, R: Wait + Abort>(
    rt: &R,
    alloc: Global,
    hall: &Hall<Holder, N>,
    pass: &mut Pass<Holder, N>,
) {
    let (given, receipt) = hall.resume(rt, alloc, pass, owned_by(rt, alloc, b'b'), 7, 8, 1, 2);
    assert!(rt; given.is_err_and(|refusal| refusal.owner.entity.id.bytes() == [b'b'].as_slice()));
    assert!(rt; receipt == Some(Receipt { place: 3 }));
}

fn expect_ended<N: HallName, R: Wait + Abort>(
    rt: &R,
    alloc: Global,
    hall: &Hall<Holder, N>,
    pass: &mut Pass<Holder, N>,
) {
    let ended = hall.end(rt, alloc, pass, 1);
    let (lived, receipt) = ended.expect(rt, "ample memory");
    assert!(rt; lived && receipt.place == 4);
}

fn expect_stale<N: HallName, R: Wait + Abort>(
    rt: &R,
    alloc: Global,
    hall: &Hall<Holder, N>,
    pass: &mut Pass<Holder, N>,
) {
    let mut seated = Seated { rt, hall, pass };
    let call = BookCall::Check {
        number: 1,
        epoch: 2,
        seq: 2,
    };
    let stale = BookReply::Refused(BookFault::Stale { epoch: 0 });
    assert!(rt; seated.answer(alloc, call) == stale);
}

fn expect_calls_in_turn<N: HallName, R: Wait + Abort>(
    rt: &R,
    alloc: Global,
    unnamed: UnnamedHall<Holder>,
)
    requires { unnamed ≡ N.table }
{
    let made = Hall::<Holder, N>::new(alloc, unnamed, 1);
    let (hall, mut passes) = made.expect(rt, "ample memory");
    let mut pass = passes.pop().expect(rt, "one pass");
    expect_admitted(rt, alloc, &hall, &mut pass);
    expect_taken(rt, alloc, &hall, &mut pass);
    expect_repeated(rt, &hall, &mut pass);
    expect_resumed(rt, alloc, &hall, &mut pass);
    expect_another_owner_refused(rt, alloc, &hall, &mut pass);
    expect_ended(rt, alloc, &hall, &mut pass);
    expect_stale(rt, alloc, &hall, &mut pass);
}

#[test]
fn receipts_are_places_of_the_history(rt: HostRuntime) {
    let unnamed = UnnamedHall::new(rt.alloc()).expect(&rt, "ample memory");
    expect_calls_in_turn::<Brand, _>(&rt, rt.alloc(), unnamed);
}

// ---- calls of many threads

const PASSES: u32 = 8;

const CALLS_OF_A_PASS: u64 = 1250;

// Which call a pass makes in a turn: few cookies, sessions and sequence numbers, so that passes meet.
fn call_of(rt: &impl Abort, alloc: Global, by: u64, turn: u64) -> BookCall<Holder> {
    let draw = turn
        .wrapping_mul(8)
        .wrapping_add(by)
        .wrapping_mul(0x9e37_79b9_7f4a_7c15)
        >> 20;
    let cookie = draw % 16;
    let number = draw / 16 % (16 + turn / 4);
    let id = if draw & 0x200_0000 == 0 { b'a' } else { b'b' };
    match draw / 0x40_0000 % 8 {
        0 => BookCall::End { number },
        1 => BookCall::Resume {
            owner: owned_by(rt, alloc, id),
            client_cookie: cookie,
            server_cookie: cookie,
            global_seq: 1,
            connect_seq: turn,
        },
        2 | 3 => BookCall::Admit {
            owner: owned_by(rt, alloc, id),
            client_cookie: cookie,
            server_cookie: cookie,
            global_seq: 1,
            lossy: false,
        },
        _ => BookCall::Take {
            number,
            epoch: 1 + draw / 0x400_0000 % 2,
            seq: draw / 0x10_0000 % 4,
        },
    }
}

// An answer, with its place and with which call it answers.
#[derive(Drop)]
struct Answer {
    place: u64,
    by: u64,
    turn: u64,
    reply: BookReply,
}

fn answer_one<N: HallName, R: Wait + Abort>(
    rt: &R,
    alloc: Global,
    hall: &Hall<Holder, N>,
    pass: &mut Pass<Holder, N>,
    by: u64,
    turn: u64,
) -> Answer {
    let (reply, receipt) = hall.answer(rt, alloc, pass, call_of(rt, alloc, by, turn));
    Answer {
        place: receipt.expect(rt, "ample memory").place,
        by,
        turn,
        reply,
    }
}

fn answers_of<N: HallName, R: Wait + Abort>(
    rt: &R,
    alloc: Global,
    hall: &Hall<Holder, N>,
    mut pass: Pass<Holder, N>,
    by: u64,
) -> Vec<Answer> {
    let mut answers = Vec::new(alloc);
    for turn in 0..CALLS_OF_A_PASS {
        let answer = answer_one(rt, alloc, hall, &mut pass, by, turn);
        answers.push(answer).expect(rt, "ample memory");
    }
    answers
}

// The answers to all passes, each of which makes its calls in a thread of its own.
fn answers_to_all<N: HallName + Send + Sync, R: Threads + Wait + Abort + Sync>(
    rt: &R,
    alloc: Global,
    unnamed: UnnamedHall<Holder>,
) -> Vec<Vec<Answer>>
    requires { unnamed ≡ N.table }
{
    let made = Hall::<Holder, N>::new(alloc, unnamed, PASSES);
    let (hall, passes) = made.expect(rt, "ample memory");
    let jobs = numbered(rt, alloc, passes);
    let answers = thread::map_vec(
        rt,
        jobs,
        &|job: (u64, Pass<Holder, N>)| { answers_of(rt, alloc, &hall, job.1, job.0) },
    );
    answers.expect(rt, "ample memory")
}

fn numbered<N: HallName>(
    rt: &impl Abort,
    alloc: Global,
    passes: Vec<Pass<Holder, N>>,
) -> Vec<(u64, Pass<Holder, N>)> {
    let mut jobs = Vec::new(alloc);
    let mut number = 0u64;
    for pass in passes {
        jobs.push((number, pass)).expect(rt, "ample memory");
        number = number.wrapping_add(1);
    }
    jobs
}

// All answers in the order of their places.
fn in_order(rt: &impl Abort, alloc: Global, answers: Vec<Vec<Answer>>) -> Vec<Answer> {
    let mut all = Vec::new(alloc);
    for of_one in answers {
        for answer in of_one {
            all.push(answer).expect(rt, "ample memory");
        }
    }
    all.sort_by_key(|answer: &Answer| answer.place)
        .expect(rt, "ample memory");
    all
}

// Whether the call was answered at this place, as this book answers it.
fn is_answered(
    rt: &impl Abort,
    alloc: Global,
    book: &mut SessionBook<Holder>,
    answer: &Answer,
    place: u64,
) -> bool {
    let call = call_of(rt, alloc, answer.by, answer.turn);
    answer.place == place && book.answer(alloc, call) == answer.reply
}

// How many of the answers, from the first on, stand at each place in turn and are those of a book of one thread.
fn answered_by_one(rt: &impl Abort, alloc: Global, answers: &[Answer]) -> u64 {
    let mut book = SessionBook::new(alloc);
    let mut place = 0u64;
    for answer in answers {
        if !is_answered(rt, alloc, &mut book, answer, place) {
            return place;
        }
        place = place.wrapping_add(1);
    }
    place
}

#[test]
fn calls_of_many_threads_are_answered_as_those_of_one(rt: HostRuntime) {
    let unnamed = UnnamedHall::new(rt.alloc()).expect(&rt, "ample memory");
    let answers = answers_to_all::<Brand, _>(&rt, rt.alloc(), unnamed);
    let all = in_order(&rt, rt.alloc(), answers);
    assert!(rt; all.len() == 10_000);
    assert!(rt; answered_by_one(&rt, rt.alloc(), &all) == 10_000);
}
