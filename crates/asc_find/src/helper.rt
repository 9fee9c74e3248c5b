ghost use Rattle.std.specs.Prelude.{◌≡◌, ◌<◌, ◌≤◌, ◌^◌};
ghost use Rattle.asc_find.specs.Helper.{Plans, VisitsMachine, Sees};

use crate::Finder;
use asc_shape::State;
use std::marker::Model;

/// What a walk tells of the states at which it then asks for a jump.
pub trait Helper: Finder {
    /// Learns of the state at a visit, which is the walk's `number`th. The state is lent for writing so that a copy of it
    /// costs what changed since the last one, and stays as it is. At most `MOST_GUESSES` guesses are made of it.
    fn visit(&mut self, state: &mut State, number: u64)
        requires number { number ≤ 2 ^ 40 }
        requires made { (Self.aid self.old).plan.made < 2 ^ 62 }
        requires full { (Self.aid self.old).plan.full < 2 ^ 62 }
        ensures jumps { (Self.aid self.new).jumps ≡ (Self.aid self.old).jumps }
        ensures replies { (Self.aid self.new).replies ≡ (Self.aid self.old).replies }
        ensures plan { Plans 1 (Self.aid self.old).plan (Self.aid self.new).plan }
        ensures seen { Sees number (Self.aid self.old).plan (Self.aid self.new).plan }
        ensures stays { state.new ≡ state.old }
        ensures machine { VisitsMachine number state.old (Self.aid self.old) (Self.aid self.new) };

    /// How many guesses were made.
    fn made(&self) -> u64
        ensures { result ≡ (Self.aid self.now).plan.made };

    /// How often memory was wanting.
    fn refused(&self) -> u64
        ensures { result ≡ (Self.aid self.now).plan.refused };

    /// How many guesses found no room, or were not offered.
    fn full(&self) -> u64
        ensures { result ≡ (Self.aid self.now).plan.full };
}

/// A helper that only finds jumps: it makes nothing of a visit.
///
/// Contracts see it as its finder.
#[derive(Drop)]
pub struct Bare<F> {
    finder: F,
}

impl<F> Model for Bare<F> {
    ghost Value = { F };

    ghost view = { λ b. b.finder };
}

impl<F> Bare<F> {
    /// A helper that asks this finder.
    pub fn new(finder: F) -> Bare<F>
        ensures { result ≡ finder }
    {
        Bare { finder }
    }

    /// The finder that it asks.
    pub fn finder(&self) -> &F
        ensures { result.now ≡ self.now }
    {
        &self.finder
    }
}

impl<F: Finder> Finder for Bare<F> {
    ghost use Rattle.std.specs.Prelude.{None};
    ghost use Rattle.asc_find.specs.Finder.{no_plan};

    ghost aid = { λ finder. record (F.aid finder) { plan = no_plan; machine = None } };

    fn jump(&mut self, state: &mut State, left: u64) -> Option<u64> {
        self.finder.jump(state, left)
    }

    fn asked(&self) -> u64 {
        self.finder.asked()
    }

    fn given(&self) -> u64 {
        self.finder.given()
    }

    fn hits(&self) -> u64 {
        self.finder.hits()
    }
}

impl<F: Finder> Helper for Bare<F> {
    fn visit(&mut self, _state: &mut State, _number: u64) {}

    fn made(&self) -> u64 {
        0
    }

    fn refused(&self) -> u64 {
        0
    }

    fn full(&self) -> u64 {
        0
    }
}
