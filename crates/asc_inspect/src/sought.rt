//! Where a run without workers is visited that seeks its address.
ghost use Rattle.std.specs.Prelude.{◌≡◌, IfErr, IfOk};
ghost use Rattle.asc_calls.specs.World.{BlamesOnly, outside_of};
ghost use Rattle.asc_words.specs.Line.{IsRunWithin};
ghost use Rattle.asc_inspect.specs.Shown.{device_of_result, first_world};
ghost use Rattle.asc_inspect.specs.Sought.{EndsSought, ShowsSought, last_address};

use crate::answer::{Answer, Reached};
use crate::sought_text::sought_text;
use asc_calls::Devices;
use asc_elf::Image;
use asc_find::Helper;
use asc_outside::{CountSink, Source, Steps};
use asc_run::{Ended, Serial, Walk};
use asc_top::{guessing_of, visited_settings};
use asc_words::RunLine;
use std::alloc::Global;
use std::sync::ledger::Ledger;

/// Runs the program of an image to its end or its limit as a line asks, without workers, and gives the text of where it was
/// visited. Where memory was wanting for a guess, there is none.
pub(crate) fn sought<I: Source, L: Ledger>(
    alloc: Global,
    image: &Image<'_>,
    line: &RunLine,
    guest: &mut Devices<I, CountSink, CountSink>,
    steps: &mut Steps<L>,
) -> Result<Vec<u8>, Answer>
    requires within { IsRunWithin line.now }
    ensures shown { IfOk result (λ text. ShowsSought line.now
        (first_world image.now (outside_of guest.old steps.old)) guest.new.told.left steps.new text.items) }
    ensures ended { IfErr result (λ answer. EndsSought line.now
        (first_world image.now (outside_of guest.old steps.old)) guest.new.told.left steps.new answer) }
    ensures faults { BlamesOnly (device_of_result result) guest.old.told.faults guest.new.told.faults }
{
    let mut walk = Walk::new(alloc, image, visited_settings(line))?;
    let mut helper = Serial::new(alloc, walk.shape(), guessing_of(line))?;
    let ended = walk.go(&mut helper, guest, steps);
    let count = walk.count();
    let counts = walk.counts();
    match ended {
        Ended::Exit(_) | Ended::Fault(_) | Ended::Limit => {}
        Ended::ReadFault | Ended::WriteFault | Ended::ErrFault => {
            return Err(Answer::Ended(ended, Reached::Steps(count)));
        }
    }
    if helper.refused() > 0 {
        return Err(Answer::Memory);
    }
    match sought_text(alloc, ended, count, counts, last_address(&helper)) {
        Ok(text) => Ok(text),
        Err(_) => Err(Answer::Memory),
    }
}

/// The address of the last of two visits or more.
fn last_address(helper: &Serial) -> Option<u32>
    ensures { result ≡ last_address helper.now.machine.prev helper.now.machine.last }
{
    match helper.pair() {
        Some((_, last)) => Some(last.pc()),
        None => None,
    }
}
