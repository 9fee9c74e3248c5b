use asc_depvec::Tracer;
use asc_find::{Finder, ListFinder, Noted, Nothing};
use asc_shape::{Guess, Shape, Snapshot, State};
use asc_traj::{Entry, Made, Never, Stop};
use std::alloc::Global;
use std::process::Abort;
use std::sync::Arc;

/// The loop `addi x5, x5, 1` and `bne x5, x6, -4`.
const LOOP: [u8; 8] = [0x93, 0x82, 0x12, 0x00, 0xE3, 0x9E, 0x62, 0xFE];

/// A state at the head of that loop, which counts x5 up to x6. It is at 0x10008.
fn counting<R: Abort>(rt: &R, alloc: Global, x6: u32) -> State {
    let shape = Shape::new(0x10000, 65_536).expect(rt, "a good shape");
    let mut state = State::new(alloc, shape).expect(rt, "memory");
    assert!(rt; state.holds(0x10008, 8));
    state.write(0x10008, &LOOP);
    state.set_pc(0x10008);
    state.set_reg(6, x6);
    state
}

/// The entry of so many laps of it.
fn entry_of<R: Abort>(rt: &R, alloc: Global, state: &State, laps: u64) -> Arc<Entry> {
    let stop = Stop {
        pc: 0x10008,
        laps,
        span: 100,
    };
    assert!(rt; laps >= 1);
    let mut tracer = Tracer::new(alloc, state.shape(), 96).expect(rt, "memory");
    let guess = Guess::last(Snapshot::of(alloc, state).expect(rt, "memory"));
    match Entry::traced(alloc, &mut tracer, guess, &stop, &mut Never) {
        Made::One(entry) => entry,
        _ => panic!(rt; "no entry"),
    }
}

/// Asks a finder for a jump.
fn ask<F: Finder, R: Abort>(rt: &R, finder: &mut F, state: &mut State, left: u64) -> Option<u64> {
    assert!(rt; finder.asked() < 1 << 62 && finder.given() < 1 << 62 && left <= 1 << 40);
    finder.jump(state, left)
}

#[test]
fn finders(rt: HostRuntime) {
    let alloc = rt.alloc();
    let mut list: Vec<Arc<Entry>> = Vec::new(alloc);
    for laps in [1, 2] {
        let entry = entry_of(&rt, alloc, &counting(&rt, alloc, 4), laps);
        assert_eq!(rt; entry.steps(), 2 * laps);
        list.push(entry).expect(&rt, "memory");
    }
    let mut noted = Noted::new(alloc, ListFinder::new(list), 3).expect(&rt, "memory");
    for (left, given, x5) in [(4, Some(4), 2), (3, Some(2), 1), (1, None, 0)] {
        let mut state = counting(&rt, alloc, 4);
        assert_eq!(rt; ask(&rt, &mut noted, &mut state, left), given);
        assert_eq!(rt; (state.pc(), state.reg(5)), (0x10008, x5));
    }
    assert!(rt; noted.are_all());
    assert_eq!(rt; (noted.asked(), noted.given(), noted.hits()), (3, 6, 2));
    // One reply more than are told.
    let mut state = counting(&rt, alloc, 5);
    assert_eq!(rt; ask(&rt, &mut noted, &mut state, 4), None);
    assert_eq!(rt; noted.replies(), [Some(4), Some(2), None].as_slice());
    assert!(rt; !noted.are_all());
    let mut nothing = Nothing::new();
    assert_eq!(rt; ask(&rt, &mut nothing, &mut state, 4), None);
    assert_eq!(rt;
        (nothing.asked(), nothing.given(), nothing.hits()),
        (1, 0, 0)
    );
}
