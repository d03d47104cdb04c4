//! What a reader sees in turn, and that readers look while a renewal waits.

use crate::rule::Sees;
use crate::{Look, SecretsReader, SecretsWriter, Told, share};
use cx_base::SECOND;
use cx_rotate::{Generations, View};
use std::alloc::Global;
use std::process::Abort;
use std::sync::Wait;
use std::sync::atomic::{AtomicU64, Ordering};
use std::thread;
use std::time::{Clock, Duration};

// The view behind a fetch that was asked for at this second.
fn fetched(second: u16) -> View {
    let asked = u64::from(second) * SECOND;
    let mut generations = Generations::empty();
    generations.rotate(asked, 3600 * SECOND, &[[1; 16], [2; 16], [3; 16]]);
    View {
        generations,
        asked: Some(asked),
    }
}

fn empty_look() -> Look {
    Look {
        view: View {
            generations: Generations::empty(),
            asked: None,
        },
        count: 0,
    }
}

#[test]
fn a_renewal_that_is_told_is_seen(rt: HostRuntime) {
    let shared = share(&rt, rt.alloc(), 1, 1);
    let (mut writer, mut readers) = shared.expect(&rt, "ample memory");
    let mut reader = readers.pop().expect(&rt, "one reader");
    assert!(rt; reader.look() == empty_look());
    assert!(rt; writer.renew(&rt, fetched(1000)).is_ok());
    reader.learn(writer.tell().expect(&rt, "a place for it"));
    let seen = Look {
        view: fetched(1000),
        count: 1,
    };
    assert!(rt; reader.look() == seen);
    writer.end(&rt);
    assert!(rt; reader.look() == seen);
}

#[test]
fn a_telling_that_was_learned_makes_room_for_another(rt: HostRuntime) {
    let shared = share(&rt, rt.alloc(), 1, 1);
    let (mut writer, mut readers) = shared.expect(&rt, "ample memory");
    let mut reader = readers.pop().expect(&rt, "one reader");
    assert!(rt; writer.renew(&rt, fetched(1)).is_ok());
    let told = writer.tell().expect(&rt, "a place for the first");
    assert!(rt; writer.tell().is_err());
    reader.learn(told);
    let again = writer.tell().expect(&rt, "a place for another");
    reader.learn(again);
    assert!(rt; reader.look().count == 1);
    writer.end(&rt);
}

// The look behind so many renewals, each of which was asked for at the second of its number.
fn look_behind(renewals: u16) -> Look {
    Look {
        view: fetched(renewals),
        count: u64::from(renewals),
    }
}

// Publishes a view, which an untold reader sees at once.
fn expect_renewed<R: Wait + Abort>(
    rt: &R,
    writer: &mut SecretsWriter,
    untold: &mut SecretsReader,
    second: u16,
) {
    assert!(rt; writer.renew(rt, fetched(second)).is_ok());
    assert!(rt; untold.look() == look_behind(second));
}

// What a reader looks at that learns one telling, and then another.
fn looks_behind(reader: &mut SecretsReader, one: Told, other: Told) -> (Look, Look) {
    reader.learn(one);
    let look = reader.look();
    reader.learn(other);
    (look, reader.look())
}

// What a reader looks at behind each of two tellings that are out at a time, of one renewal and of three, which it learns once
// the writer has ended: the earlier one first, or the later one.
fn looks_behind_two<R: Wait + Abort>(rt: &R, alloc: Global, is_later_first: bool) -> (Look, Look) {
    let (mut writer, mut readers) = share(rt, alloc, 2, 2).expect(rt, "ample memory");
    let mut untold = readers.pop().expect(rt, "two readers");
    let mut reader = readers.pop().expect(rt, "one more reader");
    expect_renewed(rt, &mut writer, &mut untold, 1);
    let earlier = writer.tell().expect(rt, "a place for the first");
    expect_renewed(rt, &mut writer, &mut untold, 2);
    expect_renewed(rt, &mut writer, &mut untold, 3);
    let later = writer.tell().expect(rt, "a place for the second");
    assert!(rt; writer.tell().is_err());
    writer.end(rt);
    if is_later_first {
        looks_behind(&mut reader, later, earlier)
    } else {
        looks_behind(&mut reader, earlier, later)
    }
}

#[test]
fn two_tellings_are_out_and_learned_in_either_order(rt: HostRuntime) {
    let in_order = looks_behind_two(&rt, rt.alloc(), false);
    assert!(rt; in_order == (look_behind(1), look_behind(3)));
    let later_first = looks_behind_two(&rt, rt.alloc(), true);
    assert!(rt; later_first == (look_behind(3), look_behind(3)));
}

// Whether so many renewals were published.
fn are_renewed(rt: &impl Wait, writer: &mut SecretsWriter, times: u32) -> bool {
    for _ in 0..times {
        if writer.renew(rt, fetched(1)).is_err() {
            return false;
        }
    }
    true
}

#[test]
fn many_renewals_are_published(rt: HostRuntime) {
    let shared = share(&rt, rt.alloc(), 2, 0);
    let (mut writer, mut readers) = shared.expect(&rt, "ample memory");
    let mut reader = readers.pop().expect(&rt, "two readers");
    assert!(rt; are_renewed(&rt, &mut writer, 70_000));
    assert!(rt; reader.look().count == 70_000);
    writer.end(&rt);
}

// How far the test with two threads is: a slow reader has begun to look, and how many renewals were made since.
const SLOW_READER_LOOKS: u64 = 1;

const FIRST_IS_MADE: u64 = 2;

const SECOND_IS_MADE: u64 = 3;

// Whether the stage comes to this one within half a minute.
fn comes_to(clock: &impl Clock, stage: &AtomicU64, to: u64) -> bool {
    for _ in 0..30_000 {
        if stage.load(Ordering::SeqCst) == to {
            return true;
        }
        thread::sleep(clock, Duration::from_millis(1));
    }
    false
}

// One renewal and then another, once the slow reader looks.
fn renew_twice<R: Wait + Clock>(rt: &R, writer: &mut SecretsWriter, stage: &AtomicU64) -> bool {
    let is_begun = comes_to(rt, stage, SLOW_READER_LOOKS);
    let is_first_made = writer.renew(rt, fetched(1)).is_ok();
    stage.store(FIRST_IS_MADE, Ordering::SeqCst);
    let is_second_made = writer.renew(rt, fetched(2)).is_ok();
    stage.store(SECOND_IS_MADE, Ordering::SeqCst);
    is_begun && is_first_made && is_second_made
}

// Whether each of a thousand looks has this count.
fn all_count(reader: &mut SecretsReader, count: u64) -> bool {
    for _ in 0..1000 {
        if reader.look().count != count {
            return false;
        }
    }
    true
}

// Looks while a slow reader, which was told, stays with the first look, so that the second renewal waits for it. Then that
// one leaves.
fn look_beside(
    clock: &impl Clock,
    reader: &mut SecretsReader,
    told: Told,
    stage: &AtomicU64,
) -> bool {
    let Ok(slow) = told.carrier.enter_as::<Sees>() else {
        return false;
    };
    stage.store(SLOW_READER_LOOKS, Ordering::SeqCst);
    let is_first_made = comes_to(clock, stage, FIRST_IS_MADE);
    thread::sleep(clock, Duration::from_millis(20));
    let is_first_seen = all_count(reader, 1);
    let does_second_wait = stage.load(Ordering::SeqCst) == FIRST_IS_MADE;
    drop(slow.leave());
    let is_second_made = comes_to(clock, stage, SECOND_IS_MADE);
    is_first_made && is_first_seen && does_second_wait && is_second_made && all_count(reader, 2)
}

#[test]
fn an_untold_reader_moves_on_and_looks_while_a_renewal_waits(rt: HostRuntime) {
    let shared = share(&rt, rt.alloc(), 1, 1);
    let (mut writer, mut readers) = shared.expect(&rt, "ample memory");
    let mut reader = readers.pop().expect(&rt, "one reader");
    assert!(rt; all_count(&mut reader, 0));
    let told = writer.tell().expect(&rt, "a place for it");
    let stage = AtomicU64::new(0);
    let ends = thread::join(
        &rt,
        || renew_twice(&rt, &mut writer, &stage),
        || look_beside(&rt, &mut reader, told, &stage),
    );
    writer.end(&rt);
    assert_eq!(rt; ends, (true, true));
}
