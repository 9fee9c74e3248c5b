//! A trace of a state whose bytes are all 0xFF.
use asc_depvec::Tracer;
use asc_model::{Fault, FaultKind, Why};
use asc_shape::{Guess, Shape, Snapshot, State};
use asc_traj::{Never, Stop, Traced, trace};

/// Its pc is no multiple of 4. So no step goes on, and nothing is touched.
#[test]
fn all_ones(rt: HostRuntime) {
    let shape = Shape::two(0x10000, 0x10000).expect(&rt, "a shape");
    let mut state = State::new(rt.alloc(), shape).expect(&rt, "memory");
    for place in 0..65_672 {
        if (place as usize) < state.len() {
            state.set(place, 0xFF);
        }
    }
    let mut tracer = Tracer::new(rt.alloc(), state.shape(), 64).expect(&rt, "memory");
    let guess = Guess::last(Snapshot::of(rt.alloc(), &state).expect(&rt, "memory"));
    assert!(rt; guess.shape() == state.shape());
    tracer.start(guess);
    let stop = Stop {
        pc: 0x10000,
        laps: 1,
        span: 10,
    };
    let traced = trace(&mut tracer, &stop, &mut Never);
    let fault = Fault {
        kind: FaultKind::Misaligned,
        pc: 0xFFFF_FFFF,
        value: 0xFFFF_FFFF,
    };
    assert_eq!(rt;
        traced,
        Traced {
            steps: 0,
            why: Why::Fault(fault)
        }
    );
    assert_eq!(rt; tracer.touched_count(), 0);
}
