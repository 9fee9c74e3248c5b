ghost use Rattle.std.specs.Prelude.{◌≡◌, ◌+◌, ◌-◌, ◌*◌, ◌^◌, ◌<◌, ◌≤◌, [], length, vec_capacity, vec_len, IfOk, OnErr, MatchOption, None, Some};
ghost use Rattle.std.specs.List.{range_with_len};
ghost use Rattle.std.specs.Option.{is_some};
ghost use Rattle.asc_guess.specs.Guess.{targets_of};
ghost use Rattle.asc_run.specs.LastVisits.{forgotten, kept, listed, no_visits, planned, skipped};
ghost use Rattle.asc_run.specs.SerialInside.{tasks_for};

use asc_find::Guessing;
use asc_guess::{Kind, targets};
use asc_model::{MOST_AHEAD, MOST_GUESSES};
use asc_outside::Memory;
use asc_shape::{Snapshot, State};
use std::alloc::Global;
use std::marker::Model;
use std::ops::Range;
use std::sync::Arc;

/// The last two visits of a walk, by whose states later ones are guessed, and the jobs that are due at the last one.
#[derive(Drop)]
pub struct LastVisits {
    guessing: Guessing,
    // The states of the visit before the last one and of the last one, where they are kept.
    prev: Option<Arc<Snapshot>>,
    last: Option<Arc<Snapshot>>,
    // The last visit that was guessed.
    issued: u64,
    // The guesses that were listed last: each one's kind, and how many visits ahead it is.
    jobs: Vec<(Kind, u32)>,
}

impl Model for LastVisits {
    ghost use Rattle.std.specs.Prelude.{◌≡◌, ◌≤◌, ◌^◌, vec_capacity, vec_len, None};
    ghost use Rattle.asc_model.specs.declared.limits.TheConstants.{MOST_AHEAD, MOST_GUESSES};
    ghost use Rattle.asc_run.specs.LastVisits as model;

    ghost Value = { model.LastVisits };

    ghost view = { λ s. record {
      guessing = s.guessing;
      prev = model.state_in s.prev;
      last = model.state_in s.last;
      issued = s.issued;
      jobs = s.jobs.items;
    } };

    ghost invariant = { λ s. (s.guessing.ahead ≤ MOST_AHEAD) × (s.issued ≤ 2 ^ 41)
        × (MOST_GUESSES ≤ vec_capacity s.jobs) × (vec_len s.jobs ≤ MOST_GUESSES) × (s.last ≡ None → s.prev ≡ None) };
}

impl LastVisits {
    /// Before the first visit. The memory of its jobs is taken here.
    pub fn new(alloc: Global, guessing: Guessing) -> Result<LastVisits, Memory>
        requires { guessing.ahead ≤ MOST_AHEAD }
        ensures { IfOk result (λ visits. visits ≡ no_visits guessing) }
    {
        let jobs = Vec::with_capacity(alloc, MOST_GUESSES)?;
        Ok(LastVisits {
            guessing,
            prev: None,
            last: None,
            issued: 0,
            jobs,
        })
    }

    /// What is guessed.
    pub fn guessing(&self) -> Guessing
        ensures { result ≡ self.now.guessing }
    {
        self.guessing
    }

    /// Keeps the state of a visit, in the memory of that before the last, which it lets go of. The copy costs what
    /// changed since the last one. Where memory is wanting, both states are given up.
    pub fn keep(&mut self, alloc: Global, state: &mut State) -> Result<(), Memory>
        ensures kept { IfOk result (λ _. self.new ≡ kept state.old self.old) }
        ensures refused { OnErr result (self.new ≡ forgotten self.old) }
        ensures stays { state.new ≡ state.old }
    {
        let spare = self.prev.take();
        self.prev = self.last.take();
        match state.freeze_over(alloc, spare) {
            Ok(now) => {
                self.last = Some(now);
                Ok(())
            }
            Err(memory) => {
                self.prev = None;
                Err(memory)
            }
        }
    }

    /// Before the first visit, again. It takes no memory.
    pub fn begin(&mut self)
        ensures { self.new ≡ no_visits self.old.guessing }
    {
        self.forget();
        self.clear_jobs();
        self.issued = 0;
    }

    /// Gives up both states.
    #[inline(never)]
    pub fn forget(&mut self)
        ensures { self.new ≡ forgotten self.old }
    {
        self.prev = None;
        self.last = None;
    }

    /// Gives up the state of the visit before. The guesses of a visit count as made, and none of them is listed: the jobs
    /// of an earlier one stay.
    pub fn skip(&mut self, number: u64)
        requires { number ≤ 2 ^ 40 }
        ensures { self.new ≡ skipped number self.old }
    {
        self.prev = None;
        self.note(number);
    }

    /// Gives up both states, and the guesses of a visit count as made. None of them is listed: the jobs of an earlier one
    /// stay.
    #[inline]
    pub fn pass_over(&mut self, number: u64)
        requires { number ≤ 2 ^ 40 }
        ensures { self.new ≡ skipped number (forgotten self.old) }
    {
        // Mostly there is none.
        if self.last.is_some() {
            self.forget();
        }
        self.note(number);
    }

    /// The states of the visit before the last one and of the last one, where both are kept.
    pub fn pair(&self) -> Option<(&Arc<Snapshot>, &Arc<Snapshot>)>
        ensures { MatchOption result (self.now.prev ≡ None)
            (λ pair. (self.now.prev ≡ Some pair.0.now.value) × (self.now.last ≡ Some pair.1.now.value)) }
    {
        match (&self.prev, &self.last) {
            (Some(prev), Some(last)) => Some((prev, last)),
            _ => None,
        }
    }

    /// Whether the state of the last visit is kept.
    pub fn has_last(&self) -> bool
        ensures { result ≡ is_some self.now.last }
    {
        self.last.is_some()
    }

    /// The visits that are to be guessed at a visit.
    pub fn targets(&self, number: u64) -> Range<u64>
        requires { number ≤ 2 ^ 40 }
        ensures targets { range_with_len result.start (result.end - result.start)
            ≡ targets_of self.now.issued number self.now.guessing.ahead }
        ensures rises { result.start ≤ result.end }
    {
        targets(self.issued, number, self.guessing.ahead)
    }

    /// Lists the jobs that are due at a visit, which then count as made. Where no two states are kept, there are none.
    pub fn plan(&mut self, number: u64)
        requires { number ≤ 2 ^ 40 }
        ensures { self.new ≡ planned number self.old }
    {
        if self.prev.is_some() {
            self.list(number);
        } else {
            self.jobs.clear();
        }
    }

    /// Lists the jobs of a visit, which then count as made: of the targets in rising order, and of each kind that is on,
    /// `Last` before `Stride`. It does so whether two states are kept or not.
    pub fn list(&mut self, number: u64)
        requires { number ≤ 2 ^ 40 }
        ensures { self.new ≡ listed number self.old }
    {
        let due = self.targets(number);
        self.jobs.clear();
        list_jobs(&mut self.jobs, &self.guessing, number, due.start, due.end);
        self.note(number);
    }

    /// Lists no job.
    pub fn clear_jobs(&mut self)
        ensures { self.new ≡ record self.old { jobs = [] } }
    {
        self.jobs.clear();
    }

    /// The jobs that were listed last: each one's kind, and how many visits after the last one it guesses.
    pub fn jobs(&self) -> &[(Kind, u32)]
        ensures jobs { result.now ≡ self.now.jobs }
        ensures few { length result.now ≤ MOST_GUESSES }
    {
        self.jobs.as_slice()
    }

    // The guesses of a visit count as made.
    fn note(&mut self, number: u64)
        requires { number ≤ 2 ^ 40 }
        ensures { self.new ≡ record self.old { issued = number + self.old.guessing.ahead } }
    {
        self.issued = number + u64::from(self.guessing.ahead);
    }
}

// Lists the guesses of these targets, which are visits after this one, each once for each kind that is on.
fn list_jobs(jobs: &mut Vec<(Kind, u32)>, guessing: &Guessing, number: u64, start: u64, end: u64)
    requires none { jobs.old.items ≡ [] }
    requires room { 2 * (end - start) ≤ vec_capacity jobs.old }
    requires rises { start ≤ end }
    requires later { start < end → number ≤ start }
    requires near { start < end → end ≤ number + 2 ^ 32 }
    ensures jobs { jobs.new.items ≡ tasks_for guessing.now number start (end - start) }
    ensures few { vec_len jobs.new ≤ 2 * (end - start) }
    ensures room { vec_capacity jobs.new ≡ vec_capacity jobs.old }
{
    for target in start..end {
        let ahead = (target - number) as u32;
        if guessing.last {
            jobs.push_reserved((Kind::Last, ahead));
        }
        if guessing.stride {
            jobs.push_reserved((Kind::Stride, ahead));
        }
    }
}
