ghost use Rattle.std.specs.Prelude.{◌≡◌, ◌≤◌, ◌+◌, ◌^◌, List, ℕ, IfOk, IfSome, IsNone, Some, None};

use crate::process::Process;
use crate::recognised::Recognised;
use crate::visited::Visited;
use asc_calls::Devices;
use asc_elf::Image;
use asc_find::{Finder, Helper};
use asc_model::{Fault, MOST_STEPS, RunCounts};
use asc_outside::{Memory, Sink, Source, Steps};
use asc_seek::Seeker;
use asc_shape::{Shape, State};
use std::alloc::Global;
use std::marker::Model;
use std::sync::ledger::Ledger;

/// How a run ended.
#[derive(Clone, Copy, Debug, PartialEq, Eq)]
pub enum Ended {
    /// The program ended with this code.
    Exit(u8),
    /// An instruction met a fault. It counts no step.
    Fault(Fault),
    /// The limit on steps was reached.
    Limit,
    /// The input failed in a call, which counts no step.
    ReadFault,
    /// The sink of file 1 failed in a call, which counts no step.
    WriteFault,
    /// The sink of file 2 failed in a call, which counts no step.
    ErrFault,
}

/// How a program is run.
#[derive(Clone, Copy, Debug, PartialEq, Eq)]
pub struct Settings {
    /// The greatest number of steps, at most `MOST_STEPS`.
    pub limit: u64,
    /// The recognised address: where the program stands there the helper is visited, and asked for a jump.
    pub recognised: Recognised,
}

impl Default for Settings {
    ghost use Rattle.std.specs.Prelude.{◌≡◌, ◌^◌};
    ghost use Rattle.asc_run.specs.declared.recognised.Recognised.TheVariants.{Nowhere};

    ghost is_default = { λ s. (s.limit ≡ 2 ^ 40) × (s.recognised ≡ Nowhere) };

    /// The greatest limit on steps, and no address.
    fn default() -> Settings {
        Settings {
            limit: MOST_STEPS,
            recognised: Recognised::Nowhere,
        }
    }
}

/// One run of a program, from its image's first state.
#[derive(Drop)]
pub struct Walk {
    visited: Visited,
    settings: Settings,
    /// Where the program stood in its first steps, of which an address is chosen.
    notes: Vec<(u32, u64)>,
    /// The search for an address, where one is sought.
    seeker: Option<Seeker>,
    ended: Option<Ended>,
}

impl Model for Walk {
    ghost use Rattle.std.specs.Prelude.{◌≡◌, ◌≤◌, ◌^◌, [], None, vec_capacity};
    ghost use Rattle.asc_run.specs.Visits.{HasBounds, noted_counts};
    ghost use Rattle.asc_run.specs.Sought.{HasNewSeeker, HasSeeker};
    ghost use Rattle.asc_run.specs.Walk as model;

    ghost Value = { model.Walk };

    ghost view = { λ w. record {
      state = w.visited.process.state;
      calls = w.visited.process.calls;
      settings = w.settings;
      count = w.visited.process.count;
      jumps = model.jumps w.visited.asked w.visited.skipped w.visited.hits;
      ended = w.ended;
    } };

    ghost invariant = { λ w. (w.settings.limit ≤ 2 ^ 40) × (w.visited.process.count ≤ w.settings.limit)
        × (w.visited.skipped ≤ w.visited.process.count) × HasBounds w.settings.recognised
        × (noted_counts w.settings.recognised ≤ vec_capacity w.notes)
        × HasSeeker w.settings.recognised w.seeker
        × (w.ended ≡ None → model.HasNotBegun w.visited.process.count w.visited.process.calls
        × (model.jumps w.visited.asked w.visited.skipped w.visited.hits ≡ model.jumps 0 0 0)
        × (w.notes.items ≡ []) × HasNewSeeker w.seeker) };
}

impl Walk {
    ghost use Rattle.asc_calls.specs.World.{faults, BlamesOnly, outside_of};
    ghost use Rattle.asc_run.specs.Execution.{device_of};
    ghost use Rattle.asc_run.specs.Helped.{HasRoom};
    ghost use Rattle.asc_run.specs.VisitedBy.{IsVisit, MayVisit, MakesVisits};
    ghost use Rattle.asc_run.specs.Visits.{HasBounds};
    ghost use Rattle.asc_model.specs.State.{IsState};
    ghost use Rattle.asc_run.specs.Walk.{new_walk, device_in, GoesFirst, HelpsFirst};

    /// A walk that has not begun. It takes the memory of one state, and of what is noted where an address is to be chosen or
    /// sought.
    pub fn new(alloc: Global, image: &Image<'_>, settings: Settings) -> Result<Walk, Memory>
        requires limit { settings.limit ≤ 2 ^ 40 }
        requires bounds { HasBounds settings.recognised }
        ensures walk { IfOk result (λ walk. walk ≡ new_walk image.now settings) }
        ensures new { IfOk result (λ walk. IsNone walk.ended) }
    {
        let process = Process::new(alloc, image)?;
        let notes = Vec::with_capacity(alloc, settings.recognised.noted_counts() as usize)?;
        let seeker = settings.recognised.seeker(alloc)?;
        Ok(Walk {
            visited: Visited {
                process,
                skipped: 0,
                asked: 0,
                hits: 0,
            },
            settings,
            notes,
            seeker,
            ended: None,
        })
    }

    /// Begins anew, at the first state of an image of the same shape: nothing was done, jumped over or asked for, and no
    /// answer is kept. The settings stay. It takes no memory.
    pub fn again(&mut self, image: &Image<'_>)
        requires { image.now.start.shape ≡ self.old.state.shape }
        ensures walk { self.new ≡ new_walk image.now self.old.settings }
        ensures new { IsNone self.new.ended }
    {
        self.notes.clear();
        if let Some(seeker) = &mut self.seeker {
            seeker.begin();
        }
        let visited = &mut self.visited;
        visited.process.again(image);
        visited.skipped = 0;
        visited.asked = 0;
        visited.hits = 0;
        self.ended = None;
    }

    /// Runs the program to its end, its limit, or a call in which a device fails. No allocator is handed in.
    ///
    /// Wherever the program stands at the recognised address, the helper is visited and then asked for a jump, each
    /// once. Where the address is to be chosen, that begins when the steps are done of which it is. Where it is sought, it
    /// may change between two visits. Where none is recognised the helper is neither visited nor asked.
    ///
    /// A second call answers as the first did, and changes nothing, unless the walk began anew.
    pub fn go<H: Helper, I: Source, O: Sink, E: Sink, L: Ledger>(
        &mut self,
        helper: &mut H,
        devices: &mut Devices<I, O, E>,
        steps: &mut Steps<L>,
    ) -> Ended
        requires { IsNone self.old.ended → HasRoom (2 ^ 61) (H.aid helper.old) }

        // The first call goes as plain execution does, or stops where a device failed. The helper's visits are those
        // that its replies leave on that run.
        ensures first { IsNone self.old.ended → GoesFirst self.old self.new (outside_of devices.old steps.old)
            (outside_of devices.new steps.new) (H.aid helper.old) (H.aid helper.new) result }

        // The helper's counts rise by the walk's. Where no address is to be recognised, the helper stays as it was.
        ensures helper { IsNone self.old.ended → HelpsFirst self.old.settings.recognised self.new.jumps helper.old
            helper.new (H.aid helper.old).jumps (H.aid helper.new).jumps }

        // A second one answers the same, and changes nothing.
        ensures again { IfSome self.old.ended (λ ended. (result ≡ ended) × (self.new ≡ self.old)
            × (helper.new ≡ helper.old) × (devices.new ≡ devices.old)
            × (steps.new ≡ steps.old)) }
        ensures limit { self.new.count ≤ self.old.settings.limit }

        // Where no device failed its state has the shape that it had, so that it may begin anew.
        ensures shape { device_of result ≡ None → self.new.state.shape ≡ self.old.state.shape }

        // The count of faults of the device that failed in this call rises by one, and those of the others stay.
        ensures faults { BlamesOnly (device_in self.old.ended result) devices.old.told.faults devices.new.told.faults }
    {
        let visit = |helper: &mut H, state: &mut State, number: u64|
            requires { MayVisit number (H.aid helper.now) }
            ensures { IsVisit number state.entry.now state.exit.now (H.aid helper.entry.now) (H.aid helper.exit.now) }
        { helper.visit(state, number) };
        self.go_by(helper, &visit, devices, steps)
    }

    /// The same, with a helper that is visited by a function: each of its calls is what a visit of a `Helper` is.
    #[tactic(auto, using(crate::proofs::Seeings::unvisited))]
    pub fn go_by<H: Finder, V: Fn(&mut H, &mut State, u64), I: Source, O: Sink, E: Sink, L: Ledger>(
        &mut self,
        helper: &mut H,
        visit: &V,
        devices: &mut Devices<I, O, E>,
        steps: &mut Steps<L>,
    ) -> Ended
        requires visit { MakesVisits H.aid V.Fn visit.now }
        requires room { IsNone self.old.ended → HasRoom (2 ^ 61) (H.aid helper.old) }

        // The first call goes as plain execution does, or stops where a device failed. The helper's visits are those
        // that its replies leave on that run.
        ensures first { IsNone self.old.ended → GoesFirst self.old self.new (outside_of devices.old steps.old)
            (outside_of devices.new steps.new) (H.aid helper.old) (H.aid helper.new) result }

        // The helper's counts rise by the walk's. Where no address is to be recognised, the helper stays as it was.
        ensures helper { IsNone self.old.ended → HelpsFirst self.old.settings.recognised self.new.jumps helper.old
            helper.new (H.aid helper.old).jumps (H.aid helper.new).jumps }

        // A second one answers the same, and changes nothing.
        ensures again { IfSome self.old.ended (λ ended. (result ≡ ended) × (self.new ≡ self.old)
            × (helper.new ≡ helper.old) × (devices.new ≡ devices.old)
            × (steps.new ≡ steps.old)) }
        ensures limit { self.new.count ≤ self.old.settings.limit }

        // Where no device failed its state has the shape that it had, so that it may begin anew.
        ensures shape { device_of result ≡ None → self.new.state.shape ≡ self.old.state.shape }

        // The count of faults of the device that failed in this call rises by one, and those of the others stay.
        ensures faults { BlamesOnly (device_in self.old.ended result) devices.old.told.faults devices.new.told.faults }
    {
        if let Some(ended) = self.ended {
            return ended;
        }
        let settings = self.settings;
        let visited = &mut self.visited;
        if let Some(seeker) = &mut self.seeker {
            let ended = visited.seek(settings.limit, seeker, helper, visit, devices, steps);
            self.ended = Some(ended);
            return ended;
        }
        let process = &mut visited.process;
        let address = match process.recognise(settings, &mut self.notes, devices, steps) {
            Ok(address) => address,
            Err(ended) => {
                self.ended = Some(ended);
                return ended;
            }
        };
        let ended = visited.run(settings.limit, address, helper, visit, devices, steps);
        self.ended = Some(ended);
        ended
    }

    /// The shape of its state. A caller's proof learns from it that this is a state.
    pub fn shape(&self) -> Shape
        ensures shape { result ≡ self.now.state.shape }
        ensures state { IsState self.now.state }
    {
        self.visited.process.state.shape()
    }

    /// How many steps were done or jumped over.
    pub fn count(&self) -> u64
        ensures { result ≡ self.now.count }
    {
        self.visited.process.count
    }

    /// The numbers so far. Steps done and steps jumped over are `count` together.
    pub fn counts(&self) -> RunCounts
        ensures executed { result.executed + result.skipped ≡ self.now.count }
        ensures skipped { result.skipped ≡ self.now.jumps.given }
        ensures asked { result.asked ≡ self.now.jumps.asked }
        ensures hits { result.hits ≡ self.now.jumps.hits }
    {
        let visited = &self.visited;
        RunCounts {
            executed: visited.process.count - visited.skipped,
            skipped: visited.skipped,
            asked: visited.asked,
            hits: visited.hits,
        }
    }
}
