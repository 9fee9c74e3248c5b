ghost use Rattle.std.specs.Prelude.{◌≡◌, ◌≤◌, ◌^◌, length, IfOk, OnErr, IsNone, None, Some, true, false};
ghost use Rattle.asc_calls.specs.World.{outside_of, outside_with};
ghost use Rattle.asc_cache.specs.Cache.{AreLater};
ghost use Rattle.asc_run.specs.Helped.{HasRoom};
ghost use Rattle.asc_run.specs.Walk.{jumps};
ghost use Rattle.atomic_table.specs.Seated.{TableId};
ghost use Rattle.asc_live.specs.Crew.{AreSameWorkers, IsForRun, Walks, WentBeside};

use crate::Live;
use crate::ground::Ground;
use crate::lent::{Lending, Lent};
use crate::open_crew::{OpenCrew, RunParts};
use asc_cache::{ShardReaders, ShardWriter};
use asc_calls::Devices;
use asc_find::{Guessing, Helper};
use asc_model::{MOST_AHEAD, MOST_WAITING, MOST_WORKERS};
use asc_outside::{Gate, Memory, Point, Sink, Source, Steps};
use asc_run::{Ended, Walk};
use asc_traj::Entry;
use asc_work::{Flag, Halter, TakenIn, Team};
use crossbeam_utils::sync::Unparker;
use std::alloc::Global;
use std::sync::ledger::Ledger;
use std::sync::{Arc, Wait};
use std::thread::Threads;

/// How many workers run beside a walk, and how many jobs are kept for them.
#[derive(Clone, Copy, Debug, PartialEq, Eq)]
pub struct Crew {
    /// How many workers: 1 to 64.
    pub workers: usize,
    /// How many jobs the queue holds: 1 to 1,024.
    pub queue: usize,
}

/// How a walk with workers beside it ended, and what became of its guesses.
#[derive(Clone, Copy, Debug, PartialEq, Eq)]
pub struct Worked {
    /// How the walk ended.
    pub ended: Ended,
    /// How many jobs were pushed.
    pub made: u64,
    /// How often memory was wanting for a job.
    pub refused: u64,
    /// How many guesses found no room, or were not offered once the queue had been filled up.
    pub full: u64,
    /// What became of the jobs that were pushed.
    pub taken: TakenIn,
    /// How many workers were beside it.
    pub workers: usize,
}

/// Runs a walk to its end beside workers, and takes these in. The gate is passed at `Ended` once the walk has ended,
/// before the workers are stopped; its ticket is how many jobs were pushed.
///
/// The walk knows the entries of `first` from its first look-up on. They lie in the shard of one worker, whose later
/// entries may drive out the oldest of them.
///
/// All memory that the crew needs is taken before the first step. Later on, only states that are kept, and entries, take
/// any: where it is wanting for these, a guess is given up, or a join is left out. A worker fills the memory of its tracer
/// in its own thread, once it is woken for a job. It does so in pieces, between which it may be stopped. So the walk waits
/// for none of it.
pub fn go_beside<
    R: Threads + Wait + Sync + Copy + Drop + Send,
    G: Gate + Sync,
    I: Source,
    O: Sink,
    E: Sink,
    L: Ledger,
>(
    rt: &R,
    alloc: Global,
    walk: &mut Walk,
    guessing: Guessing,
    crew: Crew,
    first: &[Arc<Entry>],
    gate: &G,
    devices: &mut Devices<I, O, E>,
    steps: &mut Steps<L>,
) -> Result<Worked, Memory>
    requires new { IsNone walk.old.ended }
    requires workers { (1 ≤ crew.workers) × (crew.workers ≤ MOST_WORKERS) }
    requires queue { (1 ≤ crew.queue) × (crew.queue ≤ MOST_WAITING) }
    requires ahead { (1 ≤ guessing.ahead) × (guessing.ahead ≤ MOST_AHEAD) }
    requires laps { 1 ≤ guessing.laps }
    requires span { 1 ≤ guessing.span }
    ensures went { IfOk result (λ worked. WentBeside guessing crew walk.old walk.new (outside_of devices.old steps.old)
        (outside_of devices.new steps.new) worked) }

    // Where memory was wanting for the crew, nothing was done.
    ensures memory { OnErr result ((walk.new ≡ walk.old) × (devices.new ≡ devices.old) × (steps.new ≡ steps.old)) }
{
    let mut open = OpenCrew::open(alloc, *rt, walk.shape(), guessing, crew, first, 1)?;
    Ok(open.go(rt, alloc, walk, gate, devices, steps))
}

/// Runs a walk to its end beside a team that has no queue yet, with the parts of one run, and takes the team in. The
/// readers are lent to the walk, and handed back.
pub(crate) fn go_lent<
    'a,
    N: Lending,
    R: Threads + Wait + Sync + Copy + Drop + Send,
    G: Gate + Sync,
    I: Source,
    O: Sink,
    E: Sink,
    L: Ledger,
>(
    rt: &'a R,
    alloc: Global,
    crew: Crew,
    team: &mut Team<ShardWriter<R>, Flag>,
    readers: ShardReaders<R>,
    parts: RunParts,
    wakers: &'a Vec<Unparker>,
    knows: bool,
    walk: &mut Walk,
    gate: &'a G,
    devices: &mut Devices<I, O, E>,
    steps: &mut Steps<L>,
) -> (Worked, ShardReaders<R>)
    requires new { IsNone walk.old.ended }
    requires ahead { (1 ≤ parts.visits.guessing.ahead) × (parts.visits.guessing.ahead ≤ MOST_AHEAD) }
    requires parts { IsForRun parts.visits.guessing crew parts }
    requires workers { length team.old.posts ≡ crew.workers }
    requires idle { team.old.queue ≡ None }
    requires lent { N.lent ≡ readers.readers }
    requires none_asked { readers.jumps ≡ jumps 0 0 0 }
    ensures went { WentBeside parts.visits.guessing crew walk.old walk.new (outside_of devices.old steps.old)
        (outside_of devices.new steps.new) result.0 }
    ensures idle { team.new.queue ≡ None }
    ensures team { AreSameWorkers team.old.posts team.new.posts }
    ensures readers { AreLater readers.readers result.1.readers }
{
    let RunParts {
        visits,
        mut halter,
        flags,
        giver,
        takers,
    } = parts;
    let workers = team.len();
    team.begin(&giver, takers, flags);
    let lent = Lent::<N, R>::new(readers);
    // The helper is made anew for each run: its numbers are the run's own, its budget is new, and no count ever falls.
    let mut live = Live::new(alloc, rt, gate, lent, giver, wakers, visits, knows);
    let (ended, (made, refused, full)) = go_served(
        rt,
        team,
        walk,
        &mut live,
        &mut halter,
        wakers,
        gate,
        devices,
        steps,
    );
    let (lent, giver) = live.into_parts();
    let taken = team.take_in(rt, giver);
    let worked = Worked {
        ended,
        made,
        refused,
        full,
        taken,
        workers,
    };
    (worked, lent.back())
}

// Runs a walk to its end beside workers. It answers also what the helper has counted: how many guesses were made, how often
// memory was wanting, and how many guesses were not pushed.
fn go_served<
    R: Threads + Wait + Sync + Drop + Send,
    H: Helper,
    G: Gate + Sync,
    D: Ground<H, L>,
    L: Ledger,
>(
    rt: &R,
    team: &mut Team<ShardWriter<R>, Flag>,
    walk: &mut Walk,
    helper: &mut H,
    halter: &mut Halter,
    wakers: &[Unparker],
    gate: &G,
    devices: &mut D,
    steps: &mut Steps<L>,
) -> (Ended, (u64, u64, u64))
    requires new { IsNone walk.old.ended }
    requires running { halter.old.halted ≡ false }
    requires queue { (queue : TableId) × (team.old.queue ≡ Some queue) }
    requires room { HasRoom (2 ^ 61) (H.aid helper.old) }
    ensures walks { Walks walk.old walk.new (outside_with (D.told devices.old) steps.old)
        (outside_with (D.told devices.new) steps.new) (H.aid helper.old) (H.aid helper.new) result.0 }
    ensures made { result.1.0 ≡ (H.aid helper.new).plan.made }
    ensures refused { result.1.1 ≡ (H.aid helper.new).plan.refused }
    ensures full { result.1.2 ≡ (H.aid helper.new).plan.full }
    ensures queue { team.new.queue ≡ team.old.queue }
    ensures team { AreSameWorkers team.old.posts team.new.posts }
    ensures halted { halter.new.halted ≡ true }
{
    let ended = team.beside(
        rt,
        gate,
        &mut || { go_and_halt(walk, helper, halter, wakers, gate, devices, steps) },
    );
    (ended, (helper.made(), helper.refused(), helper.full()))
}

// Runs a walk to its end while the workers may go on, and then stops them.
fn go_and_halt<H: Helper, G: Gate, D: Ground<H, L>, L: Ledger>(
    walk: &mut Walk,
    helper: &mut H,
    halter: &mut Halter,
    wakers: &[Unparker],
    gate: &G,
    devices: &mut D,
    steps: &mut Steps<L>,
) -> Ended
    requires new { IsNone walk.old.ended }
    requires running { halter.old.halted ≡ false }
    requires room { HasRoom (2 ^ 61) (H.aid helper.old) }
    ensures walks { Walks walk.old walk.new (outside_with (D.told devices.old) steps.old)
        (outside_with (D.told devices.new) steps.new) (H.aid helper.old) (H.aid helper.new) result }
    ensures halted { halter.new.halted ≡ true }
{
    let ended = go_unhalted(walk, helper, halter, gate, devices, steps);
    halter.halt();
    wake(wakers);
    ended
}

// Runs a walk to its end, and passes the gate. The halter of the workers is lent, and they are not stopped until then.
fn go_unhalted<H: Helper, G: Gate, D: Ground<H, L>, L: Ledger>(
    walk: &mut Walk,
    helper: &mut H,
    _halter: &Halter,
    gate: &G,
    devices: &mut D,
    steps: &mut Steps<L>,
) -> Ended
    requires new { IsNone walk.old.ended }
    requires running { _halter.now.halted ≡ false }
    requires room { HasRoom (2 ^ 61) (H.aid helper.old) }
    ensures { Walks walk.old walk.new (outside_with (D.told devices.old) steps.old)
        (outside_with (D.told devices.new) steps.new) (H.aid helper.old) (H.aid helper.new) result }
{
    let ended = devices.go(walk, helper, steps);
    gate.pass(Point::Ended, helper.made());
    ended
}

// Wakes all workers.
fn wake(wakers: &[Unparker]) {
    for waker in wakers {
        waker.unpark();
    }
}
