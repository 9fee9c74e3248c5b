//! A small program over the crates, to be copied: it runs an image, and at each visit of an address jumps by the entry of
//! an earlier lap, where one matches. A lap is the steps from one visit to the next.
//!
//!     asc_embed IMAGE ADDRESS
//!
//! Its functions are proved to be safe and to return. What those of `entries` and `walk` answer their clauses say, and of
//! the others none does.
#![tactic(auto)]

ghost use Rattle.std.specs.Prelude.{◌≡◌, ◌<◌, ◌≤◌};

#[cfg(test)]
mod counted;
mod entries;
#[cfg(test)]
mod tests;
mod walk;

use crate::walk::walk;
use asc_calls::{Calls, Devices, Served};
use asc_elf::read;
use asc_model::{MOST_STEPS, Version};
use asc_outside::{Memory, Sink, Source, Steps};
use asc_shape::State;
use asc_step::Stepped;
use asc_streams::{StreamSink, StreamSource};
use asc_traj::{Entry, Stop};
use std::alloc::Global;
use std::marker::Brand;
use std::process::ExitCode;
use std::sync::Arc;
use std::sync::ledger::{Blank, Ledger};
use std::{env, fs, io};

/// The guest's memory, 128 KiB.
const MEMORY: u32 = 0x2_0000;

/// The most steps of a lap that is traced.
const MOST_IN_LAP: u64 = 1_000_000;

/// Why there is no exit status of the guest.
enum Trouble {
    Words,
    File,
    Image,
    Memory,
    Report,
}

impl From<Memory> for Trouble {
    fn from(_: Memory) -> Trouble {
        Trouble::Memory
    }
}

impl From<io::Error> for Trouble {
    fn from(_: io::Error) -> Trouble {
        Trouble::Report
    }
}

fn main(rt: HostRuntime) -> ExitCode {
    let trouble = match run::<Brand>(&rt, Blank::new(1)) {
        Ok(code) => return ExitCode::from(code),
        Err(Trouble::Words) => "wants the name of an image, and an address in hexadecimal digits",
        Err(Trouble::File) => "the file can't be read",
        Err(Trouble::Image) => "the file is no image",
        Err(Trouble::Memory) => "out of memory",
        Err(Trouble::Report) => "standard error failed",
    };
    let _ = eprintln!(rt; "asc_embed: {trouble}");
    ExitCode::FAILURE
}

/// Loads the image that the words name, and runs it to its end.
fn run<L: Ledger>(rt: &HostRuntime, blank: Blank) -> Result<u8, Trouble>
    requires name { blank.name ≡ L.name }
    requires parts { blank.parts ≡ L.parts }
    requires some { 0 < L.parts }
{
    let (name, pc) = words(rt)?;
    let file = fs::read(rt, &name).map_err(|_| Trouble::File)?;
    let image = read(&file, MEMORY, Version::Two).map_err(|_| Trouble::Image)?;
    let mut state = State::new(rt.alloc(), image.shape())?;
    image.put(&mut state);
    let mut guest = Guest {
        state,
        calls: Calls::new(image.low(), image.high()),
        devices: Devices::new(
            StreamSource::new(rt.stdin()),
            StreamSink::new(rt.stdout()),
            StreamSink::new(rt.stderr()),
        ),
        steps: Steps::<L>::new(blank),
        entries: Vec::new(rt.alloc()),
        executed: 0,
        jumped: 0,
    };
    let stop = Stop {
        pc,
        laps: 1,
        span: MOST_IN_LAP,
    };
    let code = guest.run(rt.alloc(), &stop)?;
    eprintln!(rt;
        "steps executed {}, jumped over {}",
        guest.executed, guest.jumped
    )?;
    Ok(code.unwrap_or(255))
}

/// The words of the command line: the name of an image, and an address.
fn words(rt: &HostRuntime) -> Result<(String, u32), Trouble> {
    let mut words = env::args(rt).map_err(|_| Trouble::Words)?;
    let _ = words.next();
    match (words.next(), words.next(), words.next()) {
        (Some(name), Some(address), None) => match u32::from_str_radix(&address, 16) {
            Ok(pc) => Ok((name, pc)),
            Err(_) => Err(Trouble::Words),
        },
        _ => Err(Trouble::Words),
    }
}

/// A program on its way, with its devices, the entries of laps that it made, and its counts of steps.
#[derive(Drop)]
struct Guest<I: Source, O: Sink, E: Sink, L: Ledger> {
    state: State,
    calls: Calls,
    devices: Devices<I, O, E>,
    steps: Steps<L>,
    entries: Vec<Arc<Entry>>,
    executed: u64,
    jumped: u64,
}

impl<I: Source, O: Sink, E: Sink, L: Ledger> Guest<I, O, E, L> {
    /// Walks, and serves the guest's calls, to the program's end. It answers the status, or none where the program met a
    /// fault, a device failed, or it took as many steps as it may.
    fn run(&mut self, alloc: Global, stop: &Stop) -> Result<Option<u8>, Memory>
        requires laps { 1 ≤ stop.now.laps }
        requires span { 1 ≤ stop.now.span }
    {
        for _call in 0..MOST_STEPS {
            let walked = walk(
                alloc,
                &mut self.state,
                &mut self.entries,
                stop,
                &mut self.steps,
            )?;
            self.executed = self.executed.saturating_add(walked.executed);
            self.jumped = self.jumped.saturating_add(walked.jumped);
            if walked.ended != Stepped::Call {
                return Ok(None);
            }
            self.executed = self.executed.saturating_add(1);
            match self.serve() {
                Served::Went => (),
                Served::Exit(code) => return Ok(Some(code)),
                _ => return Ok(None),
            }
        }
        Ok(None)
    }

    /// Serves the call at which the program stands.
    fn serve(&mut self) -> Served {
        self.calls
            .serve(&mut self.state, &mut self.devices, &mut self.steps)
    }
}
