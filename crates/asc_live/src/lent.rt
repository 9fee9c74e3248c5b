ghost use Rattle.std.specs.Prelude.{◌≡◌, ◌≤◌, ◌<◌, ◌^◌, ◌∷◌, [], None, Some};
ghost use Rattle.asc_traj.specs.Jump.{IsJump};
ghost use Rattle.asc_find.specs.Finder.{Tells, bare_aid, jumps_after};
ghost use Rattle.asc_find.specs.Serial.{Serial, serial_reply};
ghost use Rattle.asc_cache.specs.Cache.{AreLater};

use asc_cache::ShardReaders;
use asc_find::Finder;
use asc_shape::State;
use std::marker::{Brand, Model, PhantomData};
use std::sync::Wait;

/// Names the readers that a walk is lent.
pub(crate) trait Lending {
    ghost use Rattle.std.specs.Prelude.{List};
    ghost use Rattle.asc_cache.specs.Cache.{ShardReader};

    /// The readers, as they were then.
    ghost lent: { List ShardReader };
}

impl Lending for Brand {
    ghost use Rattle.std.specs.Prelude.{[]};

    ghost lent = { [] };
}

/// Readers that a walk is lent. They stay those of the same shards, and see no less, whatever the walk does with them.
///
/// Contracts see them as the readers.
#[derive(Drop)]
pub(crate) struct Lent<N: Lending, R: Wait + Drop> {
    readers: ShardReaders<R>,
    of: PhantomData<N>,
}

impl<N: Lending, R: Wait + Drop> Model for Lent<N, R> {
    ghost use Rattle.asc_cache.specs.Cache as model;

    ghost Value = { model.ShardReaders };

    ghost view = { λ l. l.readers };

    ghost invariant = { λ l. model.AreLater N.lent l.readers.readers };
}

impl<N: Lending, R: Wait + Drop> Lent<N, R> {
    /// These readers, lent.
    pub fn new(readers: ShardReaders<R>) -> Lent<N, R>
        requires { N.lent ≡ readers.readers }
        ensures { result ≡ readers }
    {
        Lent {
            readers,
            of: PhantomData,
        }
    }

    /// The readers that were lent.
    pub fn back(self) -> ShardReaders<R>
        ensures readers { result ≡ self }
        ensures later { AreLater N.lent result.readers }
    {
        self.readers
    }
}

/// It passes all on to the readers.
impl<N: Lending, R: Wait + Drop> Finder for Lent<N, R> {
    ghost aid = { λ l. bare_aid l.jumps };

    fn jump(&mut self, state: &mut State, left: u64) -> Option<u64>
        requires left { left ≤ 2 ^ 40 }
        requires asked { self.old.jumps.asked < 2 ^ 62 }
        requires given { self.old.jumps.given < 2 ^ 62 }
        ensures jump { IsJump result left state.old state.new }
        ensures jumps { self.new.jumps ≡ jumps_after self.old.jumps result }
        ensures replies { Tells (result ∷ []) None None }
        ensures plan { Unit {0} }
        ensures machine { Unit {0} }
        ensures longest { (m : Serial) → None ≡ Some m → result ≡ serial_reply m state.old left }
        ensures later { AreLater self.old.readers self.new.readers }
    {
        self.readers.jump(state, left)
    }

    fn asked(&self) -> u64 {
        self.readers.asked()
    }

    fn given(&self) -> u64 {
        self.readers.given()
    }

    fn hits(&self) -> u64 {
        self.readers.hits()
    }
}
