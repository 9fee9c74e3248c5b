ghost use Rattle.std.specs.Prelude.{◌≡◌, ◌<◌, ◌≤◌, ◌^◌, ℕ, List, [], ◌∷◌, Option, Some, IfOk, length, map};
ghost use Rattle.std.specs.Arc.{arc_value};
ghost use Rattle.asc_traj.specs.Content.{longest};
ghost use Rattle.asc_find.specs.Serial.{Serial, serial_reply};
ghost use Rattle.asc_traj.specs.Jump.{IsJump};
ghost use Rattle.asc_find.specs.Finder.{Aid, bare_aid, jumps_after, Tells};

use asc_shape::State;
use asc_traj::{Entry, jump_longest};
use std::marker::Model;
use std::sync::Arc;

/// Finds jumps of states, which are plain runs.
pub trait Finder {
    /// What it tells: how often it was asked and what it gave, its replies, what was made for it, and the machine that it is.
    ghost aid: { Self → Aid };

    /// Jumps ahead by at most `left` steps, and answers by how many; where it finds no jump the state stays.
    fn jump(&mut self, state: &mut State, left: u64) -> Option<u64>
        requires left { left ≤ 2 ^ 40 }
        requires asked { (aid self.old).jumps.asked < 2 ^ 62 }
        requires given { (aid self.old).jumps.given < 2 ^ 62 }
        ensures jump { IsJump result left state.old state.new }
        ensures jumps { (aid self.new).jumps ≡ jumps_after (aid self.old).jumps result }
        ensures replies { Tells (result ∷ []) (aid self.old).replies (aid self.new).replies }
        ensures plan { (aid self.new).plan ≡ (aid self.old).plan }
        ensures machine { (aid self.new).machine ≡ (aid self.old).machine }
        ensures longest { (m : Serial) → (aid self.old).machine ≡ Some m → result ≡ serial_reply m state.old left };

    /// How often it was asked.
    fn asked(&self) -> u64
        ensures { result ≡ (aid self.now).jumps.asked };

    /// How many steps it gave.
    fn given(&self) -> u64
        ensures { result ≡ (aid self.now).jumps.given };

    /// How often it found a jump.
    fn hits(&self) -> u64
        ensures hits { result ≡ (aid self.now).jumps.hits }
        ensures few { result ≤ (aid self.now).jumps.asked };
}

/// It finds no jump.
///
/// Contracts see it as the number of times that it was asked.
#[derive(Drop)]
pub struct Nothing {
    asked: u64,
}

impl Model for Nothing {
    ghost use Rattle.std.specs.Prelude.{ℕ};

    ghost Value = { ℕ };

    ghost view = { λ s. s.asked };
}

impl Nothing {
    /// It was not asked yet.
    pub fn new() -> Nothing
        ensures { result ≡ 0 }
    {
        Nothing { asked: 0 }
    }
}

impl Finder for Nothing {
    ghost aid = { λ asked. bare_aid (record { asked = asked; given = 0; hits = 0 }) };

    fn jump(&mut self, _state: &mut State, _left: u64) -> Option<u64> {
        self.asked += 1;
        None
    }

    fn asked(&self) -> u64 {
        self.asked
    }

    fn given(&self) -> u64 {
        0
    }

    fn hits(&self) -> u64 {
        0
    }
}

/// It finds the longest jump of a list of shared entries.
#[derive(Drop)]
pub struct ListFinder {
    entries: Vec<Arc<Entry>>,
    asked: u64,
    given: u64,
    hits: u64,
}

impl Model for ListFinder {
    ghost use Rattle.std.specs.Prelude.{◌≤◌, map};
    ghost use Rattle.std.specs.Arc.{arc_value};
    ghost use Rattle.asc_find.specs.Finders.{Listed};

    ghost Value = { Listed };

    ghost view = { λ s. record {
      entries = map arc_value s.entries.items;
      jumps = record { asked = s.asked; given = s.given; hits = s.hits };
    } };

    ghost invariant = { λ s. s.hits ≤ s.asked };
}

impl ListFinder {
    /// A finder over these entries, which was not asked yet.
    pub fn new(entries: Vec<Arc<Entry>>) -> ListFinder
        ensures { result ≡ record {
          entries = map arc_value entries.items;
          jumps = record { asked = 0; given = 0; hits = 0 };
        } }
    {
        ListFinder {
            entries,
            asked: 0,
            given: 0,
            hits: 0,
        }
    }
}

impl Finder for ListFinder {
    ghost use Rattle.std.specs.Prelude.{None};

    ghost aid = { λ s. bare_aid s.jumps };

    fn jump(&mut self, state: &mut State, left: u64) -> Option<u64>
        requires left { left ≤ 2 ^ 40 }
        requires asked { self.old.jumps.asked < 2 ^ 62 }
        requires given { self.old.jumps.given < 2 ^ 62 }
        ensures entries { self.new.entries ≡ self.old.entries }
        ensures found { result ≡ longest self.old.entries state.old left }
        ensures jump { IsJump result left state.old state.new }
        ensures jumps { self.new.jumps ≡ jumps_after self.old.jumps result }
        ensures replies { Tells (result ∷ []) None None }
        ensures plan { Unit {0} }
        ensures machine { Unit {0} }
        ensures longest { (m : Serial) → None ≡ Some m → result ≡ serial_reply m state.old left }
    {
        self.asked += 1;
        let found = jump_longest(&self.entries, state, left);
        if let Some(steps) = found {
            self.given += steps;
            self.hits += 1;
        }
        found
    }

    fn asked(&self) -> u64 {
        self.asked
    }

    fn given(&self) -> u64 {
        self.given
    }

    fn hits(&self) -> u64 {
        self.hits
    }
}
