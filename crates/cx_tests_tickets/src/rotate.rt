//! Rotations with known figures, and each call once.

use cx_base::SECOND;
use cx_rotate::{Generation, Generations, KeptState, View, rotation_laws};
use std::test::Fail;

const KEYS: [[u8; 16]; 3] = [[1; 16], [2; 16], [3; 16]];

const LATER_KEYS: [[u8; 16]; 3] = [[4; 16], [5; 16], [6; 16]];

const HOUR: u64 = 3600 * SECOND;

fn generation(id: u64, byte: u8, seconds: u32) -> Generation {
    Generation {
        id,
        key: [byte; 16],
        expires: u64::from(seconds) * SECOND,
    }
}

#[test]
fn the_first_rotation_adds_three(rt: HostRuntime) {
    let mut held = Generations::empty();
    assert!(rt; held.get(1).is_none());
    assert_eq!(rt; held.rotate(1000 * SECOND, HOUR, &KEYS), 3);
    let first = generation(1, 1, 4600);
    let second = generation(2, 2, 8200);
    let third = generation(3, 3, 11800);
    assert!(rt; held.get(0) == Some(first));
    assert!(rt; held.get(1) == Some(second));
    assert!(rt; held.get(2) == Some(third));
    assert!(rt; held.get(3).is_none());
    assert!(rt; held.get(1) == Some(second));
    assert!(rt; held.find(1) == Some([1; 16]));
    assert!(rt; held.find(3) == Some([3; 16]));
    assert!(rt; held.find(4).is_none());
    assert!(rt; Generations::of(&[first, second, third]) == Some(held));
    assert!(rt; Generations::of(&[first, third, second]).is_none());
    assert!(rt; held.all() == Some([first, second, third]));
    assert!(rt; Generations::empty().all().is_none());
    let view = View {
        generations: held,
        asked: Some(1000 * SECOND),
    };
    assert!(rt; view == view);
    rotation_laws();
}

#[test]
fn a_second_that_expires_now_is_followed_by_one(rt: HostRuntime) {
    let mut held = Generations::empty();
    held.rotate(1000 * SECOND, HOUR, &KEYS);
    let before = held;
    assert_eq!(rt; held.rotate(8200 * SECOND - 1, HOUR, &LATER_KEYS), 0);
    assert!(rt; held == before);
    assert_eq!(rt; held.rotate(8200 * SECOND, HOUR, &LATER_KEYS), 1);
    assert!(rt; held.get(0) == Some(generation(2, 2, 8200)));
    assert!(rt; held.get(2) == Some(generation(4, 4, 15400)));
}

#[test]
fn a_long_jump_is_followed_by_two(rt: HostRuntime) {
    let mut held = Generations::empty();
    held.rotate(1000 * SECOND, HOUR, &KEYS);
    assert_eq!(rt; held.rotate(12000 * SECOND, HOUR, &LATER_KEYS), 2);
    assert!(rt; held.get(0) == Some(generation(3, 3, 11800)));
    assert!(rt; held.get(1) == Some(generation(4, 4, 19200)));
    assert!(rt; held.get(2) == Some(generation(5, 5, 22800)));
}

#[test]
fn nothing_is_added_at_the_bounds(rt: HostRuntime) {
    let table: [(u64, u32, u8); 4] = [
        (u64::MAX - 4, 3, 2),
        (u64::MAX - 3, 3, 0),
        (3, 4_199_999_999, 1),
        (3, 4_200_000_000, 0),
    ];
    for (newest, seconds, added) in table {
        let mut held = Generations::of(&[
            generation(newest - 2, 1, 1),
            generation(newest - 1, 2, 2),
            generation(newest, 3, seconds),
        ]);
        let count = held
            .as_mut()
            .map(|held| held.rotate(100 * SECOND, HOUR, &KEYS));
        assert!(rt; count == Some(added), "at {newest} and {seconds}");
    }
}

#[test]
fn a_state_is_told_from_another(rt: HostRuntime) {
    let none = Generations::empty();
    let state = KeptState {
        next_gid: 1,
        life: HOUR,
        auth_life: 12 * HOUR,
        mds: none,
        osd: none,
        mgr: none,
        auth: none,
    };
    let mut later = state;
    assert!(rt; later == state);
    later.next_gid = 2;
    assert!(rt; later != state);
}
