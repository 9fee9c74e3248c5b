//! What serves the runs of a batch, one after the other.
ghost use Rattle.std.specs.Prelude.{◌≡◌, ◌+◌, ◌≤◌, ℕ, [], IfOk, IsNone, None};
ghost use Rattle.asc_calls.specs.World.{outside_of};
ghost use Rattle.asc_words.specs.Line.{IsRunWithin};
ghost use Rattle.asc_top.specs.Runner.{Keeps, RunsOnce, IsRunnerFor};

use crate::run::{run_with, worked_conclusion};
use crate::settings::{crew_of, guessing_of, keeps_entries};
use asc_calls::Devices;
use asc_find::{Bare, Nothing};
use asc_live::OpenCrew;
use asc_outside::{Gate, Memory, Sink, Source, Steps};
use asc_run::{Serial, Walk};
use asc_shape::Shape;
use asc_words::{Conclusion, RunLine};
use std::alloc::Global;
use std::sync::Wait;
use std::sync::ledger::Ledger;
use std::thread::Threads;

/// What serves the runs of a batch, one after the other. What one run learns holds in the next.
#[derive(Drop)]
pub(crate) enum Runner<T: Wait + Drop> {
    /// Nothing is kept: each is run plainly.
    Plain,
    /// A helper that keeps its entries.
    Alone(Serial),
    /// Workers that keep theirs.
    Beside(OpenCrew<T>),
}

impl<T: Threads + Wait + Sync + Copy + Drop + Send> Runner<T> {
    /// What serves so many runs that a line asks for, of images of this shape. All memory that it needs is taken here, but
    /// for states and entries that are kept.
    pub(crate) fn open(
        rt: &T,
        alloc: Global,
        line: &RunLine,
        shape: Shape,
        runs: usize,
    ) -> Result<Runner<T>, Memory>
        requires line { IsRunWithin line.now }
        requires unloaded { line.now.load ≡ None }
        requires runs { (1 ≤ runs) × (runs ≤ 64) }
        ensures serves { IfOk result (λ runner. IsRunnerFor line.now runs runner) }
        ensures empty { IfOk result (λ runner. Keeps line.now shape [] runner) }
    {
        if line.workers > 0 {
            let (guessing, crew) = (guessing_of(line), crew_of(line));
            let crew = OpenCrew::open(alloc, *rt, shape, guessing, crew, &[], runs)?;
            return Ok(Runner::Beside(crew));
        }
        if !keeps_entries(line) {
            return Ok(Runner::Plain);
        }
        Ok(Runner::Alone(Serial::new(alloc, shape, guessing_of(line))?))
    }

    /// Runs a walk that has not begun to its end, as a line asks, and tells its numbers where they are asked for. It is a
    /// further run of those that it serves.
    pub(crate) fn run<G: Gate + Sync, I: Source, O: Sink, E: Sink, L: Ledger>(
        &mut self,
        rt: &T,
        alloc: Global,
        line: &RunLine,
        walk: &mut Walk,
        gate: &G,
        devices: &mut Devices<I, O, E>,
        steps: &mut Steps<L>,
    ) -> Conclusion
        requires new { IsNone walk.old.ended }
        requires line { IsRunWithin line.now }
        requires serves { (runs : ℕ) × IsRunnerFor line.now (runs + 1) self.old }
        ensures serves { (runs : ℕ) → IsRunnerFor line.now (runs + 1) self.old → IsRunnerFor line.now runs self.new }
        ensures runs { RunsOnce line.now walk.old walk.new self.old self.new (outside_of devices.old steps.old)
            (outside_of devices.new steps.new) result }
    {
        match self {
            Runner::Plain => {
                let mut helper = Bare::new(Nothing::new());
                run_with(line.report, walk, &mut helper, devices, steps)
            }
            Runner::Alone(helper) => {
                helper.begin();
                run_with(line.report, walk, helper, devices, steps)
            }
            Runner::Beside(crew) => {
                let worked = crew.go(rt, alloc, walk, gate, devices, steps);
                worked_conclusion(line.report, walk.count(), walk.counts(), &worked)
            }
        }
    }
}
