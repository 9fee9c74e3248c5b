//! Steps, entries, jumps and a state of its own kind, with values worked out by hand.
ghost use Rattle.std.specs.Prelude.{◌≡◌, ◌<◌, Some, IfSome, length, slice_get};
ghost use Rattle.std.specs.Arc.{arc_value};
ghost use Rattle.asc_model.specs.Entry.{IsTrueEntry};

use crate::counted::Counted;
use crate::entries::{entry_from, jump, keep};
use crate::walk::{Walked, walk};
use asc_outside::{Memory, Steps};
use asc_shape::{Shape, State};
use asc_step::{Stepped, step_many, try_step};
use asc_traj::{Entry, Stop, cells_of};
use std::alloc::{AllocError, Global};
use std::marker::Brand;
use std::process::Abort;
use std::sync::Arc;
use std::sync::ledger::{Blank, Ledger};
use std::test::Fail;

/// The pc, x5, x6, and the two words of the loop.
static READS: [(u32, u8); 20] = [
    (0, 0x08),
    (1, 0x00),
    (2, 0x01),
    (3, 0x00),
    (20, 0),
    (21, 0),
    (22, 0),
    (23, 0),
    (24, 4),
    (25, 0),
    (26, 0),
    (27, 0),
    (136, 0x93),
    (137, 0x82),
    (138, 0x12),
    (139, 0x00),
    (140, 0xE3),
    (141, 0x9E),
    (142, 0x62),
    (143, 0xFE),
];

/// A state at a loop of two words, ADDI x5,x5,1 and BNE x5,x6,-4, with ECALL behind it. x5 is 0 and x6 is 4.
fn looping<R: Abort>(rt: &R, alloc: Global) -> State {
    let shape = Shape::new(0x10000, 0x10000).expect(rt, "a shape");
    let mut state = State::new(alloc, shape).expect(rt, "memory");
    let words: [(u32, u32); 3] = [
        (0x10008, 0x0012_8293),
        (0x1000C, 0xFE62_9EE3),
        (0x10010, 0x0000_0073),
    ];
    for (at, word) in words {
        assert!(rt; state.holds(at, 4), "memory at {at:#x}");
        state.write(at, &word.to_le_bytes());
    }
    state.set_pc(0x10008);
    state.set_reg(6, 4);
    state
}

/// It does nothing. A caller's proof learns from it what holds of an entry of a list.
fn tells(entries: &[Arc<Entry>], i: usize)
    requires { i < length entries.now }
    ensures { IfSome (slice_get entries.now i) (λ entry. IsTrueEntry (arc_value entry)) }
{
    entries[i].truth();
}

/// A lap from one visit of the loop's head to the next.
static LAP: Stop = Stop {
    pc: 0x10008,
    laps: 1,
    span: 1000,
};

/// Takes steps with a counter of its own.
fn walk_counted<L: Ledger>(state: &mut State, most: u64, blank: Blank) -> (u64, Stepped)
    requires name { blank.name ≡ L.name }
    requires parts { blank.parts ≡ L.parts }
    requires some { 0 < L.parts }
{
    step_many(state, most, &mut Steps::<L>::new(blank))
}

/// Walks by entries with a counter of its own.
fn walk_by<L: Ledger>(
    alloc: Global,
    state: &mut State,
    entries: &mut Vec<Arc<Entry>>,
    blank: Blank,
) -> Result<Walked, Memory>
    requires name { blank.name ≡ L.name }
    requires parts { blank.parts ≡ L.parts }
    requires some { 0 < L.parts }
{
    walk(alloc, state, entries, &LAP, &mut Steps::<L>::new(blank))
}

/// Walks through the loop by entries, and looks at how many steps were executed and jumped over, and at the end.
fn check_loop<R: Abort>(
    rt: &R,
    alloc: Global,
    entries: &mut Vec<Arc<Entry>>,
    x7: u32,
    executed: u64,
    jumped: u64,
) {
    let mut state = looping(rt, alloc);
    state.set_reg(7, x7);
    let walked = walk_by::<Brand>(alloc, &mut state, entries, Blank::new(1));
    let ended = Stepped::Call;
    let want = Walked {
        executed,
        jumped,
        ended,
    };
    assert_eq!(rt; walked.expect(rt, "memory"), want);
    assert_eq!(rt; (state.pc(), state.reg(5)), (0x10010, 4));
}

/// Takes steps so far, and looks at the answer.
fn check_walk<R: Abort>(rt: &R, state: &mut State, most: u64, want: (u64, Stepped)) {
    let got = walk_counted::<Brand>(state, most, Blank::new(1));
    assert_eq!(rt; got, want, "at most {most} steps");
}

fn check_same<R: Abort>(rt: &R, a: &State, b: &State) {
    assert_eq!(rt; a.pc(), b.pc());
    for k in 0..32 {
        assert_eq!(rt; a.reg(k), b.reg(k), "x{k}");
    }
    assert!(rt; a.holds(0x10000, 0x10000) && b.holds(0x10000, 0x10000));
    assert!(rt; a.mem(0x10000, 0x10000) == b.mem(0x10000, 0x10000));
}

/// Looks at what an entry reads, and at what it writes: the pc, and x5.
fn check_cells<R: Abort>(rt: &R, alloc: Global, entry: &Entry, x5: u8) -> Result<(), AllocError> {
    assert_eq!(rt;
        cells_of(alloc, entry.reads())?.as_slice(),
        READS.as_slice()
    );
    let writes = [
        (0, 0x08),
        (1, 0x00),
        (2, 0x01),
        (3, 0x00),
        (20, x5),
        (21, 0),
        (22, 0),
        (23, 0),
    ];
    assert_eq!(rt;
        cells_of(alloc, entry.writes())?.as_slice(),
        writes.as_slice()
    );
    Ok(())
}

#[test]
fn walks(rt: HostRuntime) {
    let mut state = looping(&rt, rt.alloc());
    check_walk(&rt, &mut state, 3, (3, Stepped::Went));
    assert_eq!(rt; (state.pc(), state.reg(5)), (0x1000C, 2));
    check_walk(&rt, &mut state, 100, (5, Stepped::Call));
    assert_eq!(rt; (state.pc(), state.reg(5)), (0x10010, 4));
    let none = entry_from(rt.alloc(), &state, &LAP).expect(&rt, "memory");
    assert!(rt; none.is_none());
}

/// Entries of two laps and of one, traced from x5 = 0, put at x5 = 0 with another x7, and at x5 = 2.
#[test]
fn jumps(rt: HostRuntime) -> Result<(), Fail> {
    let alloc = rt.alloc();
    let start = looping(&rt, alloc);
    let mut entries = Vec::new(alloc);
    for (laps, steps, x5) in [(2, 4, 2), (1, 2, 1)] {
        let stop = Stop {
            pc: 0x10008,
            laps,
            span: 1000,
        };
        let found = entry_from(alloc, &start, &stop).expect(&rt, "memory");
        let entry = found.expect(&rt, "an entry");
        assert_eq!(rt; (entry.shape(), entry.steps()), (start.shape(), steps));
        check_cells(&rt, alloc, &entry, x5)?;
        entries.push(entry)?;
    }
    assert!(rt; entries.len() == 2);
    tells(&entries, 0);
    let mut jumped = looping(&rt, alloc);
    jumped.set_reg(7, 9);
    assert_eq!(rt; jump(&entries, &mut jumped), Some(4));
    assert_eq!(rt;
        (jumped.pc(), jumped.reg(5), jumped.reg(7)),
        (0x10008, 2, 9)
    );
    let mut walked = looping(&rt, alloc);
    walked.set_reg(7, 9);
    check_walk(&rt, &mut walked, 4, (4, Stepped::Went));
    check_same(&rt, &jumped, &walked);
    assert_eq!(rt; jump(&entries, &mut jumped), None);
    check_same(&rt, &jumped, &walked);
    check_walk(&rt, &mut jumped, 100, (4, Stepped::Call));
    Ok(())
}

/// The four laps are traced the first time, and jumped over the second time, where another register differs.
#[test]
fn walks_by_entries(rt: HostRuntime) {
    let alloc = rt.alloc();
    let mut entries = Vec::new(alloc);
    check_loop(&rt, alloc, &mut entries, 0, 8, 0);
    assert_eq!(rt; entries.len(), 4);
    check_loop(&rt, alloc, &mut entries, 9, 0, 8);
    assert_eq!(rt; entries.len(), 4);
    let state = looping(&rt, alloc);
    keep(alloc, &mut entries, &state, &LAP).expect(&rt, "memory");
    assert_eq!(rt; entries.len(), 5);
}

/// Each step puts the pc, and each ADDI also x5.
#[test]
fn counts_puts(rt: HostRuntime) {
    let state = looping(&rt, rt.alloc());
    let mut counted = Counted { state, puts: 0 };
    for _ in 0..8 {
        assert_eq!(rt; try_step(&mut counted), Stepped::Went);
    }
    assert_eq!(rt; try_step(&mut counted), Stepped::Call);
    assert_eq!(rt;
        (counted.state.pc(), counted.state.reg(5), counted.puts),
        (0x10010, 4, 48)
    );
}
