ghost use Rattle.std.specs.Prelude.{◌≡◌, ◌<◌, ◌≤◌, true, Some, None, IfOk};
ghost use Rattle.asc_traj.specs.Trace.{CountsAnswer, CountsAsk, LosesPatience};
ghost use Rattle.asc_work.specs.Halting.{AreOpened, flag_after};

use asc_model::MOST_WORKERS;
use asc_outside::Memory;
use asc_traj::Halt;
use atomic_table::{Play, Seat, Split, Table, TableRule};
use std::alloc::Global;
use std::marker::Model;
use std::sync::Arc;

// The steps at the word are of four kinds. Each keeps the rule, by a lemma of its own in proofs/HaltSteps.antt:
// - the halter stores 1 (`stores`);
// - a flag's load gives 0, and it answers no (`loads_zero`);
// - a flag's load gives 1, and it answers yes (`loads_one`);
// - a flag's seat is split off the halter's, before any load (`splits`).

// What a seat at the word knows. No value of it is made.
struct Sight {
    // Whether it is the halter's.
    halts: bool,
    // Whether it has stored 1.
    halted: bool,
    // How often it has loaded the word.
    asks: u64,
    // How many of its loads gave 1, up to 2^64 - 1.
    count: u64,
}

// The rule of the word: it is 1 where the halter has asked to stop, and else 0. Until then no flag has answered yes.
struct Halting;

impl TableRule<(), Sight, ()> for Halting {
    ghost use Rattle.asc_work.specs.Halting.{HaltRule, first_sight};

    ghost holds = { λ _. HaltRule };

    ghost first = { λ _. first_sight };
}

struct Stores;

impl Play<(), Sight> for Stores {
    ghost use Rattle.std.specs.Prelude.{◌≡◌};
    ghost use Rattle.asc_work.specs.Halting.{stored};

    ghost then = { λ st m n w. (w.0 ≡ stored m.0) × (w.1 ≡ m.1) };
}

struct Loads;

impl Play<(), Sight> for Loads {
    ghost use Rattle.std.specs.Prelude.{◌≡◌};
    ghost use Rattle.asc_work.specs.Halting.{loaded};

    ghost then = { λ st m n w. (w.0 ≡ loaded m.0 n) × (w.1 ≡ m.1) };
}

struct Splits;

impl Split<Sight> for Splits {
    ghost use Rattle.asc_work.specs.Halting.{new_sight};

    ghost left = { λ v. v };

    ghost right = { λ v. new_sight };
}

type Word = Table<(), Sight, (), Halting, Global>;

/// What asks the flags of its word to stop.
#[derive(Drop)]
pub struct Halter {
    word: Arc<Word, Global>,
    seat: Seat<(), Sight>,
}

impl Model for Halter {
    ghost use Rattle.std.specs.Prelude.{◌≡◌, true, []};
    ghost use Rattle.std.specs.Arc.{arc_value};
    ghost use Rattle.asc_work.specs.Halting as model;

    ghost Value = { model.Halter };

    ghost view = { λ h. record { word = h.seat.table_id; halted = h.seat.me.0.halted } };

    ghost invariant = { λ h. (h.seat.table_id ≡ (arc_value h.word).shared.table_id)
        × ((arc_value h.word).shared.table_id.words ≡ 1) × (h.seat.me.1 ≡ []) × (h.seat.me.0.halts ≡ true) };
}

impl Halter {
    /// A halter that has not asked to stop, and its flags.
    pub fn open(alloc: Global, flags: usize) -> Result<(Halter, Vec<Flag>), Memory>
        requires { (0 < flags) × (flags ≤ MOST_WORKERS) }
        ensures { IfOk result (λ r. AreOpened flags r.0 r.1.items) }
    {
        let (table, seat) = Word::of_words(alloc, &[0], &())?;
        let word = Arc::new(alloc, table)?;
        let mut halter = Halter { word, seat };
        let mut made = Vec::with_capacity(alloc, flags)?;
        for _ in 0..flags {
            made.push(halter.flag()?)?;
        }
        Ok((halter, made))
    }

    /// Asks all flags to stop, from now on.
    pub fn halt(&mut self)
        ensures { self.new ≡ record self.old { halted = true } }
    {
        self.word.shared.store::<Stores>(&mut self.seat, 0, 1);
    }

    // One flag more.
    fn flag(&mut self) -> Result<Flag, Memory>
        ensures same { self.new ≡ self.old }
        ensures flag { IfOk result (λ f. f ≡ record { word = self.old.word; asks = 0; count = 0 }) }
    {
        let word = Arc::try_clone(&self.word)?;
        let seat = self.word.shared.split_seat::<Splits>(&mut self.seat);
        Ok(Flag { word, seat })
    }
}

/// A halt that says yes once its halter has asked to stop: the answer is whether its load of the word gave 1.
#[derive(Drop)]
pub struct Flag {
    word: Arc<Word, Global>,
    seat: Seat<(), Sight>,
}

impl Model for Flag {
    ghost use Rattle.std.specs.Prelude.{◌≡◌, []};
    ghost use Rattle.std.specs.Arc.{arc_value};
    ghost use Rattle.asc_work.specs.Halting as model;

    ghost Value = { model.Flag };

    ghost view = { λ f. record { word = f.seat.table_id; asks = f.seat.me.0.asks; count = f.seat.me.0.count } };

    ghost invariant = { λ f. (f.seat.table_id ≡ (arc_value f.word).shared.table_id)
        × ((arc_value f.word).shared.table_id.words ≡ 1) × (f.seat.me.1 ≡ []) };
}

impl Halt for Flag {
    ghost count = { λ f. f.count };

    ghost asks = { λ f. Some f.asks };

    ghost patience = { λ _. None };

    fn asked(&mut self) -> bool
        ensures asked { self.new ≡ flag_after self.old result }
        ensures count { CountsAnswer self.old.count self.new.count result }
        ensures asks { CountsAsk (Some self.old.asks) (Some self.new.asks) }
        ensures patience { LosesPatience None None result }
    {
        self.word.shared.load::<Loads>(&mut self.seat, 0) == 1
    }
}
