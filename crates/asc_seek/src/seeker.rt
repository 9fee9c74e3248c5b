//! A search for the address at which a run is visited.
ghost use Rattle.std.specs.Prelude.{◌≡◌, ◌+◌, ◌*◌, ◌<◌, ◌≤◌, ◌^◌, max, ℕ, None, Some, true, false, IfOk};
ghost use Rattle.asc_seek.specs.Heads.{AreEarlier, no_heads, note};
ghost use Rattle.asc_seek.specs.Inside.{HasLaps, HasShortLap, MayFollow, first_candidate};
ghost use Rattle.asc_seek.specs.Seek.{IsBehind, IsSeeking, candidate_behind, end_in, first_stretch, given_at, hopeless_steps, is_best_yet, is_candidate, begun_at, is_over, looked_steps, new_seek, next_candidate, pays, reached_from, rest_ratio, score_at, scored_steps, advanced, seek_visit, serving, settled, reply_steps, trial_end, tried_at, waited_steps, advanced_from, try_next, watched_in};

use crate::heads::{Head, clear, no_heads, note};
use std::alloc::{AllocError, Global};
use std::marker::Model;

/// The steps of the first stretch.
const FIRST_STRETCH: u64 = 65_536;

/// The least steps that an address is kept, or that a rest lasts.
const LEAST_KEPT: u64 = 65_536;

/// No further head is tried once so many stretches have passed behind that of the search.
const TRIED_STRETCHES: u64 = 8;

/// Of a thousand steps, how many have to be jumped over for an address to be kept.
const KEPT_SCORE: u64 = 250;

/// Of a thousand steps, how many have to be jumped over for an address to be kept at once.
const SURE_SCORE: u64 = 900;

/// How many times as many steps as all searches took a run has to have come, before it searches anew.
const REST_RATIO: u64 = 8;

/// What is sought.
#[derive(Clone, Copy, Debug, PartialEq, Eq)]
pub struct Seeking {
    /// How often a step has to lead back to an address in a stretch: 2 to 65,536.
    pub least: u32,
    /// How many steps its laps have to have on average: 1 to 2^40.
    pub least_lap: u64,
    /// How many visits ahead are guessed: 1 to 64.
    pub ahead: u32,
}

impl Seeking {
    // The count from which on each visit can have been guessed, where an address was new at this count.
    fn reached_from(&self, from: u64, lap: u64) -> u64
        requires ahead { self.now.ahead ≤ 64 }
        requires from { from ≤ 2 ^ 41 }
        requires lap { lap ≤ 2 ^ 41 }
        ensures { result ≡ reached_from self.now from lap }
    {
        from + (u64::from(self.ahead) + 1) * lap
    }
}

/// An address that was tried, and how well it did.
#[derive(Clone, Copy, Debug, PartialEq, Eq)]
pub struct Scored {
    /// The address.
    pub address: u32,
    /// The steps of its laps on average.
    pub lap: u64,
    /// How many of a thousand steps were jumped over.
    pub score: u64,
}

/// A head that is tried.
#[derive(Clone, Copy, Debug, PartialEq, Eq)]
pub struct Trial {
    /// The head.
    pub head: Head,
    /// Whether it has begun: its first visit begins it.
    pub begun: bool,
    /// At which count of steps it began, or since which it waits for its first visit.
    pub from: u64,
    /// How many steps were jumped over from where each visit can have been guessed.
    pub given: u64,
}

/// An address that is kept.
#[derive(Clone, Copy, Debug, PartialEq, Eq)]
pub struct Service {
    /// The address.
    pub address: u32,
    /// The steps of its laps on average.
    pub lap: u64,
    /// Since which count of steps.
    pub from: u64,
    /// How many steps were jumped over from where each visit can have been guessed.
    pub given: u64,
    /// At which count it is looked at whether it pays.
    pub until: u64,
}

/// What a search does.
#[derive(Clone, Copy, Debug, PartialEq, Eq)]
pub enum Phase {
    /// It notes the heads of a stretch. Nothing is visited.
    Profile,
    /// A head is tried.
    Trial(Trial),
    /// The best is kept for a while.
    Service(Service),
    /// None is kept. Nothing is visited.
    Rest {
        /// At which count another search begins.
        until: u64,
    },
}

/// A search for the address at which a run is visited.
///
/// Contracts see it as the `Seek` of `specs/`.
#[derive(Drop)]
pub struct Seeker {
    seeking: Seeking,
    since: u64,
    stretch: u64,
    spent: u64,
    table: Vec<Option<Head>>,
    best: Option<Scored>,
    phase: Phase,
}

impl Model for Seeker {
    ghost use Rattle.asc_seek.specs.Seek as model;
    ghost use Rattle.asc_seek.specs.Inside.{IsSeek};

    ghost Value = { model.Seek };

    ghost view = { λ s. record {
      seeking = s.seeking;
      since = s.since;
      stretch = s.stretch;
      spent = s.spent;
      table = s.table.items;
      best = s.best;
      phase = s.phase;
    } };

    ghost invariant = { λ s. IsSeek (record {
      seeking = s.seeking;
      since = s.since;
      stretch = s.stretch;
      spent = s.spent;
      table = s.table.items;
      best = s.best;
      phase = s.phase;
    }) };
}

impl Seeker {
    /// A search that begins with the first step. All memory that it needs is taken here.
    pub fn new(alloc: Global, seeking: Seeking) -> Result<Seeker, AllocError>
        requires { IsSeeking seeking }
        ensures { IfOk result (λ seeker. seeker ≡ new_seek seeking) }
    {
        Ok(Seeker {
            seeking,
            since: 0,
            stretch: FIRST_STRETCH,
            spent: 0,
            table: no_heads(alloc)?,
            best: None,
            phase: Phase::Profile,
        })
    }

    /// Begins anew, with the first step.
    pub fn begin(&mut self)
        ensures { self.new ≡ new_seek self.old.seeking }
    {
        self.spent = 0;
        self.search_from(0, FIRST_STRETCH);
    }

    /// The address at which the run is visited.
    pub fn watched(&self) -> Option<u32>
        ensures { result ≡ watched_in self.now.phase }
    {
        match self.phase {
            Phase::Profile | Phase::Rest { .. } => None,
            Phase::Trial(trial) => Some(trial.head.address),
            Phase::Service(service) => Some(service.address),
        }
    }

    /// Whether the addresses are noted that steps lead back to.
    pub fn is_noting(&self) -> bool
        ensures { (result ≡ true → self.now.phase ≡ Phase.Profile) × (self.now.phase ≡ Phase.Profile → result ≡ true) }
    {
        matches!(self.phase, Phase::Profile)
    }

    /// At which count of steps its phase is over. A visit may move that.
    pub fn end(&self) -> u64
        ensures { result ≡ end_in self.now self.now.phase }
    {
        match self.phase {
            Phase::Profile => self.since + self.stretch,
            Phase::Trial(trial) => trial.end(self.seeking, self.stretch),
            Phase::Service(service) => service.until,
            Phase::Rest { until } => until,
        }
    }

    /// A law: when the search that is on began, the run had come eight times as far as all searches before it took.
    pub fn begins_late(&self)
        ensures profile { self.now.phase ≡ Phase.Profile → rest_ratio * self.now.spent ≤ self.now.since }
        ensures trial { (t : Trial) → self.now.phase ≡ Phase.Trial t → rest_ratio * self.now.spent ≤ self.now.since }
    {
        let _spent = self.spent;
    }

    /// Notes that a step led back to an address, while heads are noted. Its count comes behind those that were noted
    /// before.
    pub fn note(&mut self, address: u32, count: u64)
        requires phase { self.old.phase ≡ Phase.Profile }
        requires earlier { AreEarlier count self.old.table }
        requires count { (1 ≤ count) × (count ≤ 2 ^ 41) }
        ensures seek { self.new ≡ record self.old { table = note count (Some address) self.old.table } }
        ensures earlier { AreEarlier (count + 1) self.new.table }
    {
        note(self.table.as_mut_slice(), address, count);
    }

    /// Learns of a visit at a count, and of how many steps it jumped over, if it did.
    #[tactic(auto, unfolding(crate::specs::Seek::seek_visit))]
    pub fn visit(&mut self, at: u64, reply: Option<u64>)
        requires behind { IsBehind at self.old }
        requires most { at + reply_steps reply ≤ 2 ^ 41 }
        ensures seek { self.new ≡ seek_visit at reply self.old }
        ensures behind { (count : ℕ) → at + reply_steps reply ≤ count → IsBehind count self.new }
    {
        let seeking = self.seeking;
        match &mut self.phase {
            Phase::Profile | Phase::Rest { .. } => {}
            Phase::Trial(trial) => trial.visit(seeking, at, reply),
            Phase::Service(service) => {
                let reached = seeking.reached_from(service.from, service.lap);
                service.given += given_at(reached, at, reply);
            }
        }
    }

    /// At a count of steps, which is not before its phase began: where the phase is over, the next begins.
    #[tactic(auto, unfolding(crate::specs::Seek::advanced))]
    pub fn advance(&mut self, count: u64)
        requires behind { IsBehind count self.old }
        requires count { count ≤ 2 ^ 41 }
        ensures seek { self.new ≡ advanced count self.old }
        ensures going { is_over count self.new ≡ false }
        ensures behind { IsBehind count self.new }
    {
        if count < self.end() {
            return;
        }
        match self.phase {
            Phase::Profile => self.try_next(count, None),
            Phase::Trial(trial) => self.end_trial(count, &trial),
            Phase::Service(service) => self.look_at(count, &service),
            Phase::Rest { .. } => self.search_from(count, 2 * self.stretch),
        }
    }

    // A search begins at a count, with a stretch.
    fn search_from(&mut self, count: u64, stretch: u64)
        requires count { count ≤ 2 ^ 41 }
        requires spent { rest_ratio * self.old.spent ≤ count }
        requires stretch { (1 ≤ stretch) × (stretch ≤ first_stretch + count) }
        ensures { self.new
            ≡ record self.old { since = count; stretch = stretch; table = no_heads; best = None; phase = Phase.Profile } }
    {
        self.since = count;
        self.stretch = stretch;
        clear(self.table.as_mut_slice());
        self.best = None;
        self.phase = Phase::Profile;
    }

    // How many of a thousand steps a trial that ends at a count jumped over.
    fn score(&self, trial: &Trial, count: u64) -> u64
        requires trial { self.now.phase ≡ Phase.Trial trial.now }
        requires over { is_over count self.now ≡ true }
        ensures { result ≡ score_at self.now.seeking count trial.now }
    {
        if !trial.begun {
            return 0;
        }
        let reached = self.seeking.reached_from(trial.from, trial.head.lap());
        1000 * trial.given / (count - reached)
    }

    // A trial ends at a count. Its head is the best where none before it was better.
    fn end_trial(&mut self, count: u64, trial: &Trial)
        requires trial { self.old.phase ≡ Phase.Trial trial.now }
        requires over { is_over count self.old ≡ true }
        requires behind { IsBehind count self.old }
        requires count { count ≤ 2 ^ 41 }
        ensures seek { self.new ≡ advanced_from count self.old (Phase.Trial trial.now) }
        ensures going { is_over count self.new ≡ false }
        ensures behind { IsBehind count self.new }
    {
        let score = self.score(trial, count);
        if self.is_best_yet(score) {
            self.best = Some(Scored {
                address: trial.head.address,
                lap: trial.head.lap(),
                score,
            });
        }
        if SURE_SCORE <= score {
            self.settle(count);
        } else {
            self.try_next(count, Some(trial.head));
        }
    }

    // Whether a score is good enough to be kept, and better than the best so far.
    fn is_best_yet(&self, score: u64) -> bool
        ensures { result ≡ is_best_yet score self.now.best }
    {
        match self.best {
            None => KEPT_SCORE <= score,
            Some(best) => best.score < score,
        }
    }

    // A kept address is looked at: where it pays it goes on, and else a search begins.
    fn look_at(&mut self, count: u64, service: &Service)
        requires service { self.old.phase ≡ Phase.Service service.now }
        requires over { is_over count self.old ≡ true }
        requires behind { IsBehind count self.old }
        requires count { count ≤ 2 ^ 41 }
        ensures seek { self.new ≡ advanced_from count self.old (Phase.Service service.now) }
        ensures going { is_over count self.new ≡ false }
        ensures behind { IsBehind count self.new }
    {
        if self.pays(count, service) {
            self.phase = Phase::Service(Service {
                until: count + looked_steps(service.lap),
                ..*service
            });
        } else {
            self.search_from(count, 2 * self.stretch);
        }
    }

    // Whether a kept address pays.
    fn pays(&self, count: u64, service: &Service) -> bool
        requires service { self.now.phase ≡ Phase.Service service.now }
        requires count { count ≤ 2 ^ 41 }
        ensures { result ≡ pays self.now.seeking count service.now }
    {
        let reached = self.seeking.reached_from(service.from, service.lap);
        3 * count.saturating_sub(reached) <= 4 * service.given
    }

    // The candidate behind one that was tried is tried, if there is one.
    fn try_next(&mut self, count: u64, tried: Option<Head>)
        requires count { (self.old.since + self.old.stretch ≤ count) × (count ≤ 2 ^ 41) }
        requires spent { rest_ratio * self.old.spent ≤ self.old.since }
        requires tried { HasLaps tried }
        ensures seek { self.new ≡ try_next count tried self.old }
        ensures going { is_over count self.new ≡ false }
        ensures behind { IsBehind count self.new }
    {
        match self.next_candidate(count, tried) {
            Some(head) => {
                self.phase = Phase::Trial(Trial {
                    head,
                    begun: false,
                    from: count,
                    given: 0,
                });
            }
            None => self.settle(count),
        }
    }

    // The candidate behind one that was tried, if there is one and the trials did not take too long.
    fn next_candidate(&self, count: u64, tried: Option<Head>) -> Option<Head>
        requires { HasLaps tried }
        ensures next { result ≡ next_candidate count tried self.now }
        ensures fit { MayFollow self.now result }
    {
        if count < self.since + (1 + TRIED_STRETCHES) * self.stretch {
            self.candidate_behind(tried)
        } else {
            None
        }
    }

    // The best address is kept, or there is a rest.
    fn settle(&mut self, count: u64)
        requires count { (self.old.since + self.old.stretch ≤ count) × (count ≤ 2 ^ 41) }
        requires spent { rest_ratio * self.old.spent ≤ self.old.since }
        ensures seek { self.new ≡ settled count self.old }
        ensures going { is_over count self.new ≡ false }
        ensures behind { IsBehind count self.new }
    {
        let spent = self.spent + (count - self.since);
        self.phase = self.serving(count, spent);
        self.spent = spent;
    }

    // Behind a search that ended at a count, where all searches took so many steps: the best address is kept, or there is a
    // rest.
    fn serving(&self, count: u64, spent: u64) -> Phase
        requires count { count ≤ 2 ^ 41 }
        requires spent { spent ≤ 2 ^ 41 }
        ensures { result ≡ serving self.now.seeking count self.now.best spent }
    {
        let rested = REST_RATIO * spent;
        match self.best {
            Some(best) => {
                let reached = self.seeking.reached_from(count, best.lap);
                Phase::Service(Service {
                    address: best.address,
                    lap: best.lap,
                    from: count,
                    given: 0,
                    until: rested.max(reached + looked_steps(best.lap)),
                })
            }
            None => Phase::Rest {
                until: rested.max(count + LEAST_KEPT),
            },
        }
    }

    // The first of the candidates that come behind one that was tried.
    fn candidate_behind(&self, tried: Option<Head>) -> Option<Head>
        requires { HasLaps tried }
        ensures first { result ≡ candidate_behind self.now.seeking tried self.now.table }
    {
        let mut first = None;
        for met in &self.table {
            if let Some(head) = met {
                first = self.first_candidate(tried, first, head);
            }
        }
        first
    }

    // The first candidate so far, with one more head.
    fn first_candidate(
        &self,
        tried: Option<Head>,
        so_far: Option<Head>,
        head: &Head,
    ) -> Option<Head>
        requires tried { HasLaps tried }
        requires so_far { HasLaps so_far }
        ensures first { result ≡ first_candidate self.now.seeking tried so_far (Some head.now) }
        ensures laps { HasLaps result }
    {
        if !self.is_candidate(head) || !head.is_behind(tried) {
            return so_far;
        }
        match so_far {
            Some(other) if !head.comes_before(&other) => Some(other),
            _ => Some(*head),
        }
    }

    // Whether a head may be tried.
    fn is_candidate(&self, head: &Head) -> bool
        ensures candidate { result ≡ is_candidate self.now.seeking head.now }
        ensures times { result ≡ true → 2 ≤ head.now.times }
    {
        u64::from(self.seeking.least) <= head.times && self.seeking.least_lap <= head.lap()
    }
}

impl Trial {
    // Learns of a visit at a count, the first of which begins it.
    fn visit(&mut self, seeking: Seeking, at: u64, reply: Option<u64>)
        requires ahead { seeking.ahead ≤ 64 }
        requires times { 2 ≤ self.old.head.times }
        requires last { self.old.head.last ≤ 2 ^ 41 }
        requires behind { self.old.from + self.old.given ≤ at }
        requires most { at + reply_steps reply ≤ 2 ^ 41 }
        ensures trial { self.new ≡ tried_at seeking at reply (begun_at at self.old) }
        ensures behind { self.new.from + self.new.given ≤ at + reply_steps reply }
        ensures later { self.old.from ≤ self.new.from }
    {
        self.begin(at);
        let reached = seeking.reached_from(self.from, self.head.lap());
        self.given += given_at(reached, at, reply);
    }

    // Begins at this count, unless it has begun.
    fn begin(&mut self, at: u64)
        requires behind { self.old.from + self.old.given ≤ at }
        ensures begun { self.new ≡ begun_at at self.old }
        ensures behind { self.new.from + self.new.given ≤ at }
        ensures later { self.old.from ≤ self.new.from }
    {
        if !self.begun {
            *self = Trial {
                head: self.head,
                begun: true,
                from: at,
                given: 0,
            };
        }
    }

    // At which count it is over.
    fn end(&self, seeking: Seeking, stretch: u64) -> u64
        requires ahead { seeking.ahead ≤ 64 }
        requires stretch { stretch ≤ 2 ^ 43 }
        requires times { 2 ≤ self.now.head.times }
        requires last { self.now.head.last ≤ 2 ^ 41 }
        requires from { self.now.from ≤ 2 ^ 41 }
        ensures { result ≡ trial_end seeking stretch self.now }
    {
        let lap = self.head.lap();
        if !self.begun {
            return self.from + waited_steps(lap, stretch);
        }
        let more = if self.given == 0 {
            hopeless_steps(lap, stretch)
        } else {
            scored_steps(lap, stretch)
        };
        seeking.reached_from(self.from, lap) + more
    }
}

// How long the first visit of a head is waited for.
fn waited_steps(lap: u64, stretch: u64) -> u64
    requires lap { lap ≤ 2 ^ 41 }
    ensures { result ≡ waited_steps lap stretch }
{
    (4 * lap).max(stretch / 4)
}

// How long a trial is scored.
fn scored_steps(lap: u64, stretch: u64) -> u64
    requires lap { lap ≤ 2 ^ 41 }
    ensures { result ≡ scored_steps lap stretch }
{
    (12 * lap).max(stretch / 4)
}

// How long it is scored where no step is jumped over.
fn hopeless_steps(lap: u64, stretch: u64) -> u64
    requires lap { lap ≤ 2 ^ 41 }
    ensures { result ≡ hopeless_steps lap stretch }
{
    (4 * lap).max(stretch / 16)
}

// How long an address is kept, from where each visit can have been guessed, before it is looked at.
fn looked_steps(lap: u64) -> u64
    requires { lap ≤ 2 ^ 41 }
    ensures { result ≡ looked_steps lap }
{
    (64 * lap).max(LEAST_KEPT)
}

// What counts of a visit: the steps that it jumped over from a count on.
fn given_at(reached: u64, at: u64, reply: Option<u64>) -> u64
    requires most { at + reply_steps reply ≤ 2 ^ 41 }
    ensures given { result ≡ given_at reached at reply }
    ensures most { result ≤ reply_steps reply }
{
    (at + reply.unwrap_or(0)).saturating_sub(at.max(reached))
}
