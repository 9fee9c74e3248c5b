ghost use Rattle.std.specs.Prelude.{◌≡◌, ◌≢◌, ◌^◌, ◌<◌, ◌≤◌, ◌∷◌, [], length, true, None, Some};
ghost use Rattle.std.specs.Option.{is_some};
ghost use Rattle.asc_traj.specs.Jump.{IsJump};
ghost use Rattle.asc_find.specs.Finder.{Tells, jumps_after};
ghost use Rattle.asc_find.specs.Serial.{Serial as machine, serial_reply};
ghost use Rattle.asc_run.specs.SerialHelper.{aid_of, told_machine};
ghost use Rattle.asc_run.specs.VisitedBy.{IsVisit, MayVisit};
ghost use Rattle.asc_live.specs.Rounds.{AreFor, HaveRun, told_by};

use asc_find::{Finder, Helper};
use asc_outside::Gate;
use asc_run::Serial;
use asc_shape::State;
use asc_work::Lanes;
use std::marker::Model;
use std::thread::Threads;

/// The helper of a run in rounds. At a visit it hands all guesses to lanes at once, and waits for them. Then it keeps the
/// entries in the order of the guesses. So it is the machine of a run without workers, to the digit, for any number of
/// lanes.
///
/// Where memory is wanting less is guessed, and that is counted, as in a run without workers. Each jump is a plain run all
/// the same.
#[derive(Drop)]
pub struct Rounds {
    serial: Serial,
    lanes: Lanes,
}

impl Model for Rounds {
    ghost use Rattle.asc_live.specs.Rounds as model;

    ghost Value = { model.Rounds };

    ghost view = { λ r. record { helper = r.serial; lanes = r.lanes } };

    ghost invariant = { λ r. model.AreFor r.serial r.lanes };
}

impl Rounds {
    /// A helper that goes on where `serial` stands. The lanes are to trace guesses as it does.
    pub fn new(serial: Serial, lanes: Lanes) -> Rounds
        requires { AreFor serial lanes }
        ensures { result ≡ record { helper = serial; lanes = lanes } }
    {
        Rounds { serial, lanes }
    }

    /// Learns of the state at a visit, which is the walk's `number`th, and makes its guesses. The gate is passed at
    /// `Traced` once one was traced, whose ticket is how many were made before it.
    ///
    /// At a state of another shape there is no guess. It is a call of its own, and not a `Helper`'s, since it starts
    /// threads.
    pub fn visit<R: Threads + Sync, G: Gate + Sync>(
        &mut self,
        rt: &R,
        state: &mut State,
        number: u64,
        gate: &G,
    )
        requires { MayVisit number (told_by self.old) }
        ensures visit { IsVisit number state.old state.new (told_by self.old) (told_by self.new) }
        ensures lanes { self.new.lanes.lanes ≡ self.old.lanes.lanes }
        ensures other { state.old.shape ≢ self.old.helper.machine.shape → told_by self.new ≡ told_by self.old }
    {
        let first = self.serial.made();
        let jobs = self.serial.plan(state, number);
        run_jobs(rt, &self.serial, &mut self.lanes, first, gate);
        for i in 0..jobs {
            let made = self.lanes.take(i);
            self.serial.settle(made);
        }
    }

    /// The helper that keeps the entries.
    pub fn serial(&self) -> &Serial
        ensures { result.now ≡ self.now.helper }
    {
        &self.serial
    }

    /// How many guesses were made.
    pub fn made(&self) -> u64
        ensures { result ≡ self.now.helper.made }
    {
        self.serial.made()
    }

    /// How often memory was wanting.
    pub fn refused(&self) -> u64
        ensures { result ≡ self.now.helper.refused }
    {
        self.serial.refused()
    }
}

/// Where a walk lands on a visit it learns of the state there, and is asked for a jump by its entries.
impl Finder for Rounds {
    ghost aid = { λ r. aid_of r.helper };

    fn jump(&mut self, state: &mut State, left: u64) -> Option<u64>
        requires left { left ≤ 2 ^ 40 }
        requires asked { self.old.helper.jumps.asked < 2 ^ 62 }
        requires given { self.old.helper.jumps.given < 2 ^ 62 }
        ensures found { result ≡ serial_reply self.old.helper.machine state.old left }
        ensures jump { IsJump result left state.old state.new }
        ensures jumps { self.new.helper.jumps ≡ jumps_after self.old.helper.jumps result }
        ensures replies { Tells (result ∷ []) None None }
        ensures plan { (aid_of self.new.helper).plan ≡ (aid_of self.old.helper).plan }
        ensures machine { told_machine self.new.helper ≡ told_machine self.old.helper }
        ensures longest { (m : machine) → told_machine self.old.helper ≡ Some m → result ≡ serial_reply m state.old left }
    {
        self.serial.jump(state, left)
    }

    fn asked(&self) -> u64 {
        self.serial.asked()
    }

    fn given(&self) -> u64 {
        self.serial.given()
    }

    fn hits(&self) -> u64 {
        self.serial.hits()
    }
}

// Has lanes run the jobs of a helper's last plan, of which the first one's ticket is this.
fn run_jobs<R: Threads + Sync, G: Gate + Sync>(
    rt: &R,
    serial: &Serial,
    lanes: &mut Lanes,
    first: u64,
    gate: &G,
)
    requires lanes { AreFor serial.now lanes.old }
    requires first { first < 2 ^ 62 }
    requires prev { 0 < length serial.now.jobs → is_some serial.now.machine.prev ≡ true }
    ensures { HaveRun serial.now lanes.old lanes.new }
{
    if let Some((prev, last)) = serial.pair() {
        lanes.run(rt, prev, last, serial.jobs(), first, gate);
    }
}
