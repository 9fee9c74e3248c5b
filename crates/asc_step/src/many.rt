//! Many steps of a state, one after another.
ghost use Rattle.std.specs.Prelude.{◌≡◌, ◌≢◌, ◌⊎◌, ◌+◌, ◌≤◌, ◌<◌, true, false};
ghost use Rattle.asc_model.specs.Machine.{view_of};
ghost use Rattle.asc_model.specs.Plain.{plain};
ghost use Rattle.asc_model.specs.Step.{Went, next};
ghost use Rattle.asc_step.specs.Step.{Climbs, Lowers, PassesBy, stepped_of};

use crate::Stepped;
use crate::stepping::step_of;
use asc_outside::Steps;
use asc_shape::State;
use std::sync::ledger::Ledger;

/// The loop of `step_many`.
struct Many;

/// The loop of `step_until`.
struct Until;

/// The loop of `step_down`.
struct Down;

/// Takes steps of a state until `most` are done, or the next one would be a guest call or a fault. It answers how many
/// were done, and what the last attempt answered: `Went` where all were.
///
/// It is never taken into its caller, so that all that a step needs stays in the processor's registers.
#[inline(never)]
pub fn step_many<L: Ledger>(state: &mut State, most: u64, steps: &mut Steps<L>) -> (u64, Stepped)
    ensures goes { plain result.0 state.old ≡ Went state.new }
    ensures counter { steps.new ≡ steps.old + result.0 }
    ensures most { result.0 ≤ most }
    ensures all { result.1 ≡ Stepped.Went → result.0 ≡ most }
    ensures fewer { result.1 ≢ Stepped.Went → result.0 < most }
    ensures ends { result.1 ≢ Stepped.Went → result.1 ≡ stepped_of (next state.new) }
{
    let shape = state.shape();
    let mut count = 0;
    while count < most {
        match step_of::<State, L, Many>(state, shape, steps) {
            Stepped::Went => count += 1,
            ended => return (count, ended),
        }
    }
    (count, Stepped::Went)
}

/// Takes steps of a state as `step_many` does, but no further than the first one that leads to this pc. A state that
/// stands there at first goes on.
#[inline(never)]
pub fn step_until<L: Ledger>(
    state: &mut State,
    pc: u32,
    most: u64,
    steps: &mut Steps<L>,
) -> (u64, Stepped)
    ensures goes { plain result.0 state.old ≡ Went state.new }
    ensures passes { PassesBy state.old pc result.0 }
    ensures counter { steps.new ≡ steps.old + result.0 }
    ensures most { result.0 ≤ most }
    ensures all { result.1 ≡ Stepped.Went → (result.0 ≡ most) ⊎ ((0 < result.0) × ((view_of state.new).pc ≡ pc)) }
    ensures fewer { result.1 ≢ Stepped.Went → result.0 < most }
    ensures ends { result.1 ≢ Stepped.Went → result.1 ≡ stepped_of (next state.new) }
{
    let shape = state.shape();
    let mut done = 0;
    while done < most {
        match step_of::<State, L, Until>(state, shape, steps) {
            Stepped::Went => done += 1,
            ended => return (done, ended),
        }
        if state.pc() == pc {
            break;
        }
    }
    (done, Stepped::Went)
}

/// Takes steps of a state as `step_many` does, but no further than the first one that lowers the pc. It answers how many
/// were done, whether the last of them lowered it, and what the last attempt answered.
#[inline(never)]
pub fn step_down<L: Ledger>(
    state: &mut State,
    most: u64,
    steps: &mut Steps<L>,
) -> (u64, bool, Stepped)
    ensures goes { plain result.0 state.old ≡ Went state.new }
    ensures climbs { Climbs state.old result.0 }
    ensures down { result.1 ≡ true → Lowers state.old result.0 }
    ensures last { result.1 ≡ true → result.2 ≡ Stepped.Went }
    ensures up { result.1 ≡ false → Climbs state.old (result.0 + 1) }
    ensures counter { steps.new ≡ steps.old + result.0 }
    ensures most { result.0 ≤ most }
    ensures all { result.2 ≡ Stepped.Went → (result.0 ≡ most) ⊎ (result.1 ≡ true) }
    ensures fewer { result.2 ≢ Stepped.Went → result.0 < most }
    ensures ends { result.2 ≢ Stepped.Went → result.2 ≡ stepped_of (next state.new) }
{
    let shape = state.shape();
    let mut done = 0;
    let mut from = state.pc();
    while done < most {
        match step_of::<State, L, Down>(state, shape, steps) {
            Stepped::Went => done += 1,
            ended => return (done, false, ended),
        }
        let pc = state.pc();
        if pc < from {
            return (done, true, Stepped::Went);
        }
        from = pc;
    }
    (done, false, Stepped::Went)
}
