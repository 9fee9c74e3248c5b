ghost use Rattle.std.specs.Prelude.{◌≡◌, ◌<◌, ◌≤◌, ◌^◌};

use asc_find::{Finder, Guessing, Helper, Nothing};
use asc_guess::Kind;
use asc_jobs::{Jobs, Taker};
use asc_live::{Budget, Live};
use asc_outside::{Gate, Point};
use asc_run::LastVisits;
use asc_shape::{Shape, State};
use crossbeam_utils::sync::{Parker, Unparker};
use std::alloc::Global;
use std::process::Abort;
use std::slice::Iter;
use std::sync::Wait;
use std::sync::atomic::{AtomicU64, Ordering};
use std::test::Fail;

/// A gate that notes at which visit it was passed last.
#[derive(Drop)]
struct Noting {
    visit: AtomicU64,
}

impl Noting {
    fn new() -> Noting {
        Noting {
            visit: AtomicU64::new(0),
        }
    }
}

impl Gate for Noting {
    fn pass(&self, point: Point, ticket: u64) {
        if point == Point::Visit {
            self.visit.store(ticket, Ordering::SeqCst);
        }
    }
}

/// It does nothing. Its call shows that a value may be handed to a thread.
fn is_sent<T: Send>(_value: &T) {}

/// A job: the pcs of the visit before and of the visit, how many visits ahead, and the kind.
type Row = (u32, u32, u32, Kind);

/// So many visits, the steps to each of them from the visit before, the jobs taken before them, and what is counted after
/// them: jobs pushed, and guesses that found no room or were not offered.
///
/// The queue holds 3 jobs. Both kinds are on, and 2 visits ahead are guessed. So at visit 2 jobs are due for visits 3 and
/// 4, and at each later visit for one visit more.
///
/// From visit 3 on the queue had been filled up, and the share of one worker is offered: the guesses of visits of even
/// number. So visits 4, 6 and 8 offer theirs, and 5 and 7 do not, where there is room too.
///
/// With one worker a visit costs 2,500 steps, and the budget is 80,000 at most, with which it begins. So 32 visits are
/// made: the last of them finds room for one job. Visits 33 to 69 are passed over, whatever room there is. The 200,000
/// steps fill the budget again: visit 70 keeps its state, and those after it are made. Of these 72 offers its guesses.
static VISITS: [(u64, u64, u64, u64, u64); 14] = [
    (1, 0, 0, 0, 0),
    (1, 10, 0, 3, 1),
    (1, 10, 0, 3, 3),
    (1, 10, 1, 4, 4),
    (1, 10, 2, 4, 6),
    (1, 10, 1, 6, 6),
    (1, 10, 0, 6, 8),
    (1, 10, 0, 7, 9),
    (23, 10, 0, 7, 55),
    (1, 10, 1, 8, 56),
    (36, 10, 3, 8, 128),
    (1, 200_000, 0, 8, 130),
    (3, 10, 0, 10, 134),
    (1, 10, 0, 10, 136),
];

/// The jobs in the order in which they are taken. A visit's pc is 4 times its number.
static JOBS: [Row; 10] = [
    (4, 8, 1, Kind::Last),
    (4, 8, 1, Kind::Stride),
    (4, 8, 2, Kind::Last),
    (12, 16, 2, Kind::Last),
    (20, 24, 2, Kind::Last),
    (20, 24, 2, Kind::Stride),
    (28, 32, 2, Kind::Last),
    (124, 128, 2, Kind::Last),
    (284, 288, 2, Kind::Last),
    (284, 288, 2, Kind::Stride),
];

/// 2 visits ahead are guessed, of both kinds or of none.
fn guessing(on: bool) -> Guessing
    ensures { result.ahead ≡ 2 }
{
    Guessing {
        last: on,
        stride: on,
        laps: 1,
        span: 100,
        ahead: 2,
        join: false,
    }
}

/// A helper whose queue holds 3 jobs, and who takes these. It wakes these workers.
fn live_of<'a, R: Wait>(
    rt: &'a R,
    alloc: Global,
    gate: &'a Noting,
    workers: &'a Vec<Unparker>,
    guessing: Guessing,
) -> Result<(Live<'a, Nothing, Noting, R>, Vec<Taker>), Fail>
    requires least { 1 ≤ guessing.ahead }
    requires most { guessing.ahead ≤ 64 }
{
    let (giver, takers) = Jobs::open(alloc, 3, 1)?;
    let visits = LastVisits::new(alloc, guessing)?;
    let live = Live::new(
        alloc,
        rt,
        gate,
        Nothing::new(),
        giver,
        workers,
        visits,
        false,
    );
    Ok((live, takers))
}

/// Takes the jobs of so many rows, and answers how many there were. They are those of the rows, if all jobs were pushed
/// that are due.
fn pop<R: Abort + Wait>(
    rt: &R,
    taker: &mut Taker,
    rows: &mut Iter<'_, Row>,
    times: u64,
    all: bool,
) -> u64 {
    let mut popped = 0;
    for _ in 0..times {
        let found = match taker.pop(rt) {
            Some(job) => Some((job.prev.pc(), job.last.pc(), job.ahead, job.kind)),
            None => None,
        };
        assert!(rt; popped < 12 && (!all || found == rows.next().copied()));
        popped += u64::from(found.is_some());
    }
    popped
}

/// A visit of this number, and a look-up where so many steps are left.
fn visit<R: Abort + Wait>(
    rt: &R,
    live: &mut Live<'_, Nothing, Noting, R>,
    gate: &Noting,
    state: &mut State,
    number: u64,
    left: u64,
) {
    assert!(rt; number < 99 && left < 999_999 && live.made() < 999 && live.full() < 999);
    assert!(rt; live.asked() < 99 && live.given() < 99);
    state.set_pc(4 * number as u32);
    live.visit(state, number);
    assert_eq!(rt; gate.visit.load(Ordering::SeqCst), number);
    assert_eq!(rt; live.jump(state, left), None);
}

/// The visits of the table, and the jobs that are taken before them. It answers how many these were.
fn go<R: Abort + Wait>(
    rt: &R,
    live: &mut Live<'_, Nothing, Noting, R>,
    gate: &Noting,
    state: &mut State,
    taker: &mut Taker,
    rows: &mut Iter<'_, Row>,
) -> u64 {
    let mut popped = 0;
    let mut number = 0;
    let mut left = 500_000;
    for &(times, lap, taken, made, full) in &VISITS {
        let more = pop(rt, taker, rows, taken, live.refused() == 0);
        assert!(rt; popped < 99 && more < 99);
        popped += more;
        for _ in 0..times {
            assert!(rt; number < 98 && lap <= left);
            number += 1;
            left -= lap;
            visit(rt, live, gate, state, number, left);
        }
        let counts = (live.made(), live.full());
        assert_eq!(rt; (live.refused(), counts), (0, (made, full)));
    }
    popped
}

#[test]
fn visits(rt: HostRuntime) -> Result<(), Fail> {
    let alloc = rt.alloc();
    let shape = Shape::new(65_536, 65_536).expect(&rt, "a good shape");
    let mut state = State::new(alloc, shape)?;
    let parker = Parker::new(alloc)?;
    let gate = Noting::new();
    let mut workers = Vec::new(alloc);
    workers.push(parker.unparker().clone()?)?;
    let (mut live, mut takers) = live_of(&rt, alloc, &gate, &workers, guessing(true))?;
    let mut taker = takers.pop().expect(&rt, "a taker");
    is_sent(&live);
    let mut rows = JOBS.iter();
    let popped = go(&rt, &mut live, &gate, &mut state, &mut taker, &mut rows);
    // Where memory was wanting for a state, jobs were left out.
    let (made, full) = (live.made(), live.full());
    assert!(rt; live.refused() == 0 || made < 147 && full < 147 && made + full < 147);
    // The worker was woken.
    if live.made() > 0 {
        parker.park(&rt);
    }
    let last = pop(&rt, &mut taker, &mut rows, 4, live.refused() == 0);
    assert!(rt; popped < 99 && last < 99);
    assert_eq!(rt; popped + last, live.made());
    assert_eq!(rt; live.finder().asked(), 73);
    let (_finder, _giver) = live.into_parts();
    Ok(())
}

/// Visits of a state of 96 KiB that was written as a whole before each of them. A row has the visit's number, the steps left
/// at its look-up, and how many jobs were pushed after it. There is always room for one, from visit 3 on.
///
/// With one worker, and 97 pages to copy, a visit is charged 27,332 steps. Of 80,000 the third visit takes 1,996 more than
/// there are. So visit 4 is passed over, and so is visit 5, since 81,995 steps leave 79,999. One step more makes that a row:
/// visit 6 keeps its state. Visit 7 offers no guess, and visit 8 two.
static WRITTEN: [(u64, u64, u64); 8] = [
    (1, 500_000, 0),
    (2, 500_000, 3),
    (3, 500_000, 3),
    (4, 418_005, 3),
    (5, 418_004, 3),
    (6, 418_004, 3),
    (7, 418_004, 3),
    (8, 418_004, 5),
];

/// Writes zeros into all memory.
fn write(state: &mut State) {
    let shape = state.shape();
    if state.holds(shape.base(), shape.size()) {
        state.write_zeros(shape.base(), shape.size());
    }
}

#[test]
fn pages_are_charged(rt: HostRuntime) -> Result<(), Fail> {
    let alloc = rt.alloc();
    let shape = Shape::new(65_536, 98_304).expect(&rt, "a good shape");
    let mut state = State::new(alloc, shape)?;
    let parker = Parker::new(alloc)?;
    let gate = Noting::new();
    let mut workers = Vec::new(alloc);
    workers.push(parker.unparker().clone()?)?;
    let (mut live, mut takers) = live_of(&rt, alloc, &gate, &workers, guessing(true))?;
    let mut taker = takers.pop().expect(&rt, "a taker");
    for &(number, left, made) in &WRITTEN {
        let _job = taker.pop(&rt);
        write(&mut state);
        visit(&rt, &mut live, &gate, &mut state, number, left);
        assert!(rt; live.refused() > 0 || live.made() == made, "visit {number}");
    }
    Ok(())
}

/// Visits where guesses go by the last state alone, and how many jobs are taken before each. There is room for all jobs.
///
/// With one worker visits 5, 7 and 9 offer no guess. So they keep no state: the jobs of visits 6 and 8 have those of visits
/// 4 and 6 as the states before.
static LEFT: [(u64, u64); 9] = [
    (1, 0),
    (2, 0),
    (3, 1),
    (4, 1),
    (5, 1),
    (6, 1),
    (7, 1),
    (8, 0),
    (9, 1),
];

static LEFT_JOBS: [Row; 6] = [
    (4, 8, 1, Kind::Last),
    (4, 8, 2, Kind::Last),
    (8, 12, 2, Kind::Last),
    (12, 16, 2, Kind::Last),
    (16, 24, 2, Kind::Last),
    (24, 32, 2, Kind::Last),
];

#[test]
fn states_are_left(rt: HostRuntime) -> Result<(), Fail> {
    let alloc = rt.alloc();
    let shape = Shape::new(65_536, 65_536).expect(&rt, "a good shape");
    let mut state = State::new(alloc, shape)?;
    let parker = Parker::new(alloc)?;
    let gate = Noting::new();
    let mut workers = Vec::new(alloc);
    workers.push(parker.unparker().clone()?)?;
    let last = Guessing {
        stride: false,
        ..guessing(true)
    };
    let (mut live, mut takers) = live_of(&rt, alloc, &gate, &workers, last)?;
    let mut taker = takers.pop().expect(&rt, "a taker");
    let mut rows = LEFT_JOBS.iter();
    for &(number, taken) in &LEFT {
        let _ = pop(&rt, &mut taker, &mut rows, taken, live.refused() == 0);
        visit(&rt, &mut live, &gate, &mut state, number, 500_000);
    }
    assert!(rt; live.refused() > 0 || live.made() == 6 && live.full() == 3);
    Ok(())
}

/// The first visit of 1 MiB that was written as a whole takes more than the budget has. So the second one is not paid for,
/// and its jobs wake the worker all the same: it would sleep with a full queue for ever.
#[test]
fn jobs_of_an_unpaid_visit(rt: HostRuntime) -> Result<(), Fail> {
    let alloc = rt.alloc();
    let shape = Shape::new(65_536, 1 << 20).expect(&rt, "a good shape");
    let mut state = State::new(alloc, shape)?;
    let parker = Parker::new(alloc)?;
    let gate = Noting::new();
    let mut workers = Vec::new(alloc);
    workers.push(parker.unparker().clone()?)?;
    let (mut live, _takers) = live_of(&rt, alloc, &gate, &workers, guessing(true))?;
    write(&mut state);
    for number in 1..3 {
        visit(&rt, &mut live, &gate, &mut state, number, 500_000);
    }
    if live.refused() == 0 {
        assert_eq!(rt; live.made(), 3);
        parker.park(&rt);
    }
    Ok(())
}

/// Where no kind of guess is on, each visit is passed over: nothing is pushed. No state is kept, so memory is never wanting.
#[test]
fn no_kinds(rt: HostRuntime) -> Result<(), Fail> {
    let alloc = rt.alloc();
    let shape = Shape::new(65_536, 65_536).expect(&rt, "a good shape");
    let mut state = State::new(alloc, shape)?;
    let gate = Noting::new();
    let workers = Vec::new(alloc);
    let (mut live, _takers) = live_of(&rt, alloc, &gate, &workers, guessing(false))?;
    for number in 1..70 {
        visit(&rt, &mut live, &gate, &mut state, number, 500_000 - number);
    }
    assert_eq!(rt; (live.made(), live.full(), live.refused()), (0, 0, 0));
    Ok(())
}

/// Whether a visit is made that copies so many pages, once the queue had been filled up: then it is charged.
fn is_made(budget: &mut Budget, pages: usize) -> bool
    requires { pages < 2 ^ 23 }
{
    if budget.passes(true, true) {
        budget.pass();
        return false;
    }
    budget.charge(pages);
    true
}

/// How many of 50 visits are made and paid for.
fn paid<R: Abort>(rt: &R, budget: &mut Budget) -> u64 {
    let mut visits = 0;
    for _ in 0..50 {
        assert!(rt; visits < 50);
        visits += u64::from(is_made(budget, 0));
    }
    visits
}

/// With 3 workers a visit costs 3,500 steps, and a row 112,000. The budget grows to that by 52,000 steps, and by 3 more for
/// each of 20,000 that were jumped over. It never has more than a row.
///
/// A visit that copies 1,000 pages costs 259,500 steps: of a whole budget it leaves 147,500 owed. Of these 100,000 are paid
/// by 25,000 steps that were jumped over, which count four times. Then 47,500 steps pay the rest, and 112,000 fill the
/// budget.
#[test]
fn budget(rt: HostRuntime) -> Result<(), Fail> {
    let mut budget = Budget::new(3, false);
    budget.look_up(2_000_000, None);
    assert_eq!(rt; paid(&rt, &mut budget), 32);
    budget.look_up(1_948_001, Some(20_000));
    assert_eq!(rt; (budget.is_passing(), paid(&rt, &mut budget)), (true, 0));
    budget.look_up(1_948_000, None);
    assert_eq!(rt; paid(&rt, &mut budget), 32);
    budget.look_up(900_000, Some(1_000_000));
    assert_eq!(rt; paid(&rt, &mut budget), 32);
    assert!(rt; budget.passes(false, false));
    budget.pass();
    budget.look_up(3_000_000, Some(300_000));
    assert!(rt; is_made(&mut budget, 1_000));
    assert_eq!(rt; paid(&rt, &mut budget), 0);
    budget.look_up(2_975_000, Some(25_000));
    budget.look_up(2_815_501, None);
    assert_eq!(rt; paid(&rt, &mut budget), 0);
    budget.look_up(2_815_500, None);
    assert_eq!(rt; paid(&rt, &mut budget), 32);
    Ok(())
}
