use asc_guess::{Kind, choose, guess, targets};
use asc_shape::{Shape, Snapshot, State};
use std::alloc::Global;
use std::process::Abort;
use std::sync::Arc;
use std::test::Fail;

// Chooses from a copy of the pairs.
fn choice<R: Abort>(rt: &R, alloc: Global, pairs: &[(u32, u64)], least: u64) -> Option<u32> {
    assert!(rt; least >= 2 && pairs.len() < 10 && pairs.windows(2).all(|w| w[0].1 < w[1].1));
    let mut visits = pairs.to_vec(alloc).expect(rt, "memory");
    choose(&mut visits, least)
}

#[test]
fn choices(rt: HostRuntime) {
    let alternating = [
        (0x10008, 2),
        (0x1000C, 3),
        (0x10008, 4),
        (0x1000C, 5),
        (0x10008, 6),
        (0x1000C, 7),
    ];
    let around = [
        (0x10000, 0),
        (0x10004, 1),
        (0x10004, 4),
        (0x10004, 7),
        (0x10000, 10),
    ];
    let alloc = rt.alloc();
    assert_eq!(rt; choice(&rt, alloc, &alternating, 3), Some(0x10008));
    assert_eq!(rt; choice(&rt, alloc, &alternating, 4), None);
    assert_eq!(rt; choice(&rt, alloc, &around, 2), Some(0x10000));
    assert_eq!(rt; choice(&rt, alloc, &around, 3), Some(0x10004));
    assert_eq!(rt; choice(&rt, alloc, &[], 2), None);
}

// The state of a shape whose register 1 is a word.
fn state<R: Abort>(rt: &R, alloc: Global, shape: Shape, word: u32) -> State {
    let mut state = State::new(alloc, shape).expect(rt, "memory");
    state.set_reg(1, word);
    state
}

// A word as it is guessed from two states in which it is `prev` and `last`.
fn guessed<R: Abort>(rt: &R, alloc: Global, kind: Kind, ahead: u32, prev: u32, last: u32) -> u32 {
    let shape = Shape::new(65_536, 65_536).expect(rt, "a good shape");
    let prev = Snapshot::of(alloc, &state(rt, alloc, shape, prev)).expect(rt, "memory");
    let last = Snapshot::of(alloc, &state(rt, alloc, shape, last)).expect(rt, "memory");
    assert!(rt; prev.shape() == last.shape());
    let guess = guess(kind, prev, last, ahead);
    assert!(rt; guess.shape().start() == 128);
    guess.word(4)
}

#[test]
fn words(rt: HostRuntime) {
    for (kind, ahead, wanted) in [
        (Kind::Stride, 1, 4),
        (Kind::Stride, 0xFFFF_FFFF, 0xFFFF_FFFE),
        (Kind::Stride, 0, 1),
        (Kind::Last, 1, 1),
    ] {
        let word = guessed(&rt, rt.alloc(), kind, ahead, 0xFFFF_FFFE, 1);
        assert_eq!(rt; word, wanted);
    }
}

#[test]
fn visits_ahead(rt: HostRuntime) {
    for (issued, visit, ahead, wanted) in [
        (0, 1, 4, 0..0),
        (0, 2, 2, 3..5),
        (5, 4, 2, 6..7),
        (9, 4, 2, 10..10),
    ] {
        assert_eq!(rt; targets(issued, visit, ahead), wanted);
    }
}
