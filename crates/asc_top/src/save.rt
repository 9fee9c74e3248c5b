//! `asc save`.
ghost use Rattle.std.specs.Prelude.{◌≡◌, ◌≤◌, List, Option, Ok, ℕ, IsNone, length};
ghost use Rattle.asc_outside.specs.Outside.{Given};
ghost use Rattle.asc_calls.specs.World.{faults, outside};
ghost use Rattle.asc_words.specs.Line.{IsRunWithin, file_limit};
ghost use Rattle.asc_top.specs.Numbers.{visited_settings};
ghost use Rattle.asc_top.specs.Ran.{IsWalkOf};
ghost use Rattle.asc_top.specs.Saves.{EndsSave};
ghost use Rattle.asc_top.specs.Answered.{IsAnswerFor, around};

use crate::opened::walk_in;
use crate::run::run_with;
use crate::settings::{guessing_of, visited_settings};
use asc_calls::no_devices;
use asc_find::Helper;
use asc_outside::{Failed, Sink, Steps, Store};
use asc_run::{Serial, Walk};
use asc_save::write;
use asc_words::{Answer, Conclusion, Line, RunLine};
use std::alloc::Global;
use std::sync::ledger::Ledger;

/// Runs the image that a line names, and puts the file of the entries that its run leaves to out, however the guest ended.
/// The program has no input, and what it writes is only counted.
pub(crate) fn save<F: Store, O: Sink, L: Ledger>(
    alloc: Global,
    line: &RunLine,
    store: &mut F,
    out: &mut O,
    steps: &mut Steps<L>,
) -> Conclusion
    requires { IsRunWithin line.now }
    ensures { (left : Option (List ℕ)) (err : Given) (input_faults err_faults : ℕ)
        → IsAnswerFor (Ok (Line.Save line.now))
        (around (F.files store.old) (F.asked store.old) (F.faults store.old)
        (outside left (O.given out.old) err steps.old (faults input_faults (O.faults out.old) err_faults)))
        (around (F.files store.new) (F.asked store.new) (F.faults store.new)
        (outside left (O.given out.new) err steps.new (faults input_faults (O.faults out.new) err_faults))) result }
{
    match walk_in(alloc, line, visited_settings(line), store) {
        Ok(mut walk) => Conclusion::of(save_walk(alloc, line, &mut walk, out, steps)),
        Err(answer) => Conclusion::of(answer),
    }
}

/// Runs a walk that has not begun to its end, and puts the file of the entries that it leaves to out.
fn save_walk<O: Sink, L: Ledger>(
    alloc: Global,
    line: &RunLine,
    walk: &mut Walk,
    out: &mut O,
    steps: &mut Steps<L>,
) -> Answer
    requires new { IsNone walk.old.ended }
    requires line { IsRunWithin line.now }
    requires walk { (content : List ℕ) × IsWalkOf line.now (visited_settings line.now) content walk.old }
    ensures { (content : List ℕ) (is : IsWalkOf line.now (visited_settings line.now) content walk.old)
        → EndsSave line.now is.image steps.old steps.new (O.given out.old) (O.given out.new)
        (O.faults out.old) (O.faults out.new) result }
{
    let shape = walk.shape();
    let Ok(mut helper) = Serial::new(alloc, shape, guessing_of(line)) else {
        return Answer::Memory;
    };
    let mut guest = no_devices(alloc);
    // Only the entries are kept of what it comes to.
    let _ = run_with(false, walk, &mut helper, &mut guest, steps);
    // That its devices never failed.
    let _ = guest.into_parts();
    if helper.refused() != 0 {
        return Answer::Memory;
    }
    match write(shape, helper.content(), out) {
        Ok(()) => Answer::Done(0),
        Err(Failed) => Answer::WriteFault,
    }
}
