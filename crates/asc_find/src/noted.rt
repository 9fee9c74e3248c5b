ghost use Rattle.std.specs.Prelude.{◌≡◌, ◌<◌, ◌≤◌, ◌^◌, ◌∷◌, [], true, Some, IfOk};
ghost use Rattle.asc_find.specs.Serial.{Serial, serial_reply};
ghost use Rattle.asc_traj.specs.Jump.{IsJump};
ghost use Rattle.asc_find.specs.Finder.{jumps_after, Tells};
ghost use Rattle.asc_find.specs.Finders.{noted_after, told_of};

use crate::Finder;
use asc_outside::Memory;
use asc_shape::State;
use std::alloc::Global;
use std::marker::Model;

/// It asks a finder for each jump, and tells its replies while they are at most `cap`.
#[derive(Drop)]
pub struct Noted<F> {
    finder: F,
    cap: usize,
    first: Vec<Option<u64>>,
    all: bool,
}

impl<F> Model for Noted<F> {
    ghost use Rattle.std.specs.Prelude.{◌≤◌, vec_capacity};
    ghost use Rattle.asc_find.specs.Finders.{Noting};

    ghost Value = { Noting F };

    ghost view = { λ s. record {
      finder = s.finder;
      cap = s.cap;
      notes = record { first = s.first.items; all = s.all };
    } };

    ghost invariant = { λ s. s.cap ≤ vec_capacity s.first };
}

impl<F> Noted<F> {
    /// A finder that asks this one, and has noted no reply yet. The room for `cap` replies is reserved here.
    pub fn new(alloc: Global, finder: F, cap: usize) -> Result<Noted<F>, Memory>
    where
        F: Drop,
        ensures { IfOk result (λ n. n ≡ record {
          finder = finder;
          cap = cap;
          notes = record { first = []; all = true };
        }) }
    {
        let first = Vec::with_capacity(alloc, cap)?;
        Ok(Noted {
            finder,
            cap,
            first,
            all: true,
        })
    }

    /// Its first replies, at most `cap`.
    pub fn replies(&self) -> &[Option<u64>]
        ensures { result.now ≡ self.now.notes.first }
    {
        self.first.as_slice()
    }

    /// Whether these are all of its replies.
    pub fn are_all(&self) -> bool
        ensures { result ≡ self.now.notes.all }
    {
        self.all
    }

    fn note(&mut self, reply: Option<u64>)
        ensures { self.new ≡ record self.old { notes = noted_after self.old.cap self.old.notes reply } }
    {
        if self.first.len() < self.cap {
            self.first.push_reserved(reply);
        } else {
            self.all = false;
        }
    }
}

impl<F: Finder> Finder for Noted<F> {
    ghost aid = { λ n. record (F.aid n.finder) { replies = told_of n.notes } };

    fn jump(&mut self, state: &mut State, left: u64) -> Option<u64>
        requires left { left ≤ 2 ^ 40 }
        requires asked { (F.aid self.old.finder).jumps.asked < 2 ^ 62 }
        requires given { (F.aid self.old.finder).jumps.given < 2 ^ 62 }
        ensures cap { self.new.cap ≡ self.old.cap }
        ensures noted { self.new.notes ≡ noted_after self.old.cap self.old.notes result }
        ensures jump { IsJump result left state.old state.new }
        ensures jumps { (F.aid self.new.finder).jumps ≡ jumps_after (F.aid self.old.finder).jumps result }
        ensures replies { Tells (result ∷ []) (told_of self.old.notes) (told_of self.new.notes) }
        ensures plan { (F.aid self.new.finder).plan ≡ (F.aid self.old.finder).plan }
        ensures machine { (F.aid self.new.finder).machine ≡ (F.aid self.old.finder).machine }
        ensures longest { (m : Serial) → (F.aid self.old.finder).machine ≡ Some m
            → result ≡ serial_reply m state.old left }
    {
        let reply = self.finder.jump(state, left);
        self.note(reply);
        reply
    }

    fn asked(&self) -> u64 {
        self.finder.asked()
    }

    fn given(&self) -> u64 {
        self.finder.given()
    }

    fn hits(&self) -> u64 {
        self.finder.hits()
    }
}
