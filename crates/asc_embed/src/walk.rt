//! Steps of a state, and jumps in their place.
ghost use Rattle.std.specs.Prelude.{◌≡◌, ◌≢◌, ◌+◌, ◌-◌, ◌^◌, ◌<◌, ◌≤◌, IfOk};
ghost use Rattle.asc_model.specs.Plain.{plain};
ghost use Rattle.asc_model.specs.Step.{Went, next};
ghost use Rattle.asc_step.specs.Step.{stepped_of};

use crate::entries::{jump, keep};
use asc_model::MOST_STEPS;
use asc_outside::{Memory, Steps};
use asc_shape::State;
use asc_step::{Stepped, step_until};
use asc_traj::{Entry, Stop};
use std::alloc::Global;
use std::sync::Arc;
use std::sync::ledger::Ledger;

/// What a walk did, and how it ended.
#[derive(Clone, Copy, Debug, PartialEq, Eq)]
pub struct Walked {
    /// The steps that were executed.
    pub executed: u64,
    /// The steps that were jumped over. The count stops at 2^64 - 1.
    pub jumped: u64,
    /// The guest call or the fault at which the state stands, or that the walk came to its bound.
    pub ended: Stepped,
}

/// Walks until a guest call or a fault stands next. At each visit of `stop.pc` it jumps by an entry that matches, or keeps
/// the one from there and goes on by steps.
pub fn walk<L: Ledger>(
    alloc: Global,
    state: &mut State,
    entries: &mut Vec<Arc<Entry>>,
    stop: &Stop,
    steps: &mut Steps<L>,
) -> Result<Walked, Memory>
    requires laps { 1 ≤ stop.now.laps }
    requires span { 1 ≤ stop.now.span }
    ensures goes { IfOk result (λ walked. walked.jumped < 2 ^ 64 - 1
        → plain (walked.executed + walked.jumped) state.old ≡ Went state.new) }
    ensures counter { IfOk result (λ walked. steps.new ≡ steps.old + walked.executed) }
    ensures ends { IfOk result (λ walked. walked.ended ≢ Stepped.Went → walked.ended ≡ stepped_of (next state.new)) }
{
    let mut executed = 0;
    let mut jumped: u64 = 0;
    // Each function has to return, so the visits have a bound too.
    for _visit in 0..MOST_STEPS {
        if state.pc() == stop.pc {
            match jump(entries.as_slice(), state) {
                Some(n) => {
                    jumped = jumped.saturating_add(n);
                    continue;
                }
                None => keep(alloc, entries, state, stop)?,
            }
        }
        let (n, ended) = step_until(state, stop.pc, MOST_STEPS - executed, steps);
        executed += n;
        if ended != Stepped::Went || executed == MOST_STEPS {
            return Ok(Walked {
                executed,
                jumped,
                ended,
            });
        }
    }
    Ok(Walked {
        executed,
        jumped,
        ended: Stepped::Went,
    })
}
