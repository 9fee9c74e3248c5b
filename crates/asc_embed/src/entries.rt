//! Entries: they are traced and kept, and a state jumps by a list of them.
ghost use Rattle.std.specs.Prelude.{◌≡◌, ◌≤◌, ◌<◌, ◌+◌, All, Some, IfOk, IfSome, IsNone, drop, take, vec_len};
ghost use Rattle.std.specs.Arc.{arc_value};
ghost use Rattle.asc_model.specs.Entry as model;
ghost use Rattle.asc_model.specs.Entry.{Matches, entry_of};
ghost use Rattle.asc_model.specs.Plain.{plain};
ghost use Rattle.asc_model.specs.Reach.{reach_of};
ghost use Rattle.asc_model.specs.declared.limits.TheConstants.{MOST_PLACES};
ghost use Rattle.asc_model.specs.Step.{Went};
ghost use Rattle.asc_traj.specs.Trace.{bounds_of};

use asc_depvec::Tracer;
use asc_model::MOST_PLACES;
use asc_outside::Memory;
use asc_shape::{Guess, Snapshot, State};
use asc_traj::{Entry, Made, Never, Stop};
use std::alloc::Global;
use std::sync::Arc;

/// The most entries that `keep` keeps.
pub const MOST_KEPT: usize = 64;

/// The entry of the steps from a state to where `stop` ends them, or none where no step goes on.
pub fn entry_from(alloc: Global, state: &State, stop: &Stop) -> Result<Option<Arc<Entry>>, Memory>
    requires laps { 1 ≤ stop.now.laps }
    requires span { 1 ≤ stop.now.span }
    ensures some { IfOk result (λ found. IfSome found
        (λ entry. entry_of (arc_value entry).steps state.now ≡ Some (arc_value entry))) }
    ensures none { IfOk result (λ found. IsNone found
        → reach_of (bounds_of stop.now MOST_PLACES) state.now ≡ 0) }
{
    let mut tracer = Tracer::new(alloc, state.shape(), MOST_PLACES)?;
    let guess = Guess::last(Snapshot::of(alloc, state)?);
    match Entry::traced(alloc, &mut tracer, guess, stop, &mut Never) {
        Made::One(entry) => Ok(Some(entry)),
        Made::Empty | Made::Stopped => Ok(None),
        Made::Refused => Err(Memory),
    }
}

/// Puts the entry of the steps from a state behind others, while these are fewer than 64.
pub fn keep(
    alloc: Global,
    entries: &mut Vec<Arc<Entry>>,
    state: &State,
    stop: &Stop,
) -> Result<(), Memory>
    requires laps { 1 ≤ stop.now.laps }
    requires span { 1 ≤ stop.now.span }
    ensures old { take (vec_len entries.old) entries.new.items ≡ entries.old.items }
    ensures new { All (λ held. let entry : model.Entry = arc_value held in entry_of entry.steps state.now ≡ Some entry)
        (drop (vec_len entries.old) entries.new.items) }
    ensures most { vec_len entries.old ≤ MOST_KEPT → vec_len entries.new ≤ MOST_KEPT }
    ensures more { IfOk result (λ _. vec_len entries.old < MOST_KEPT
        → 1 ≤ reach_of (bounds_of stop.now MOST_PLACES) state.now → vec_len entries.new ≡ vec_len entries.old + 1) }
{
    if entries.len() < MOST_KEPT {
        if let Some(entry) = entry_from(alloc, state, stop)? {
            entries.push(entry)?;
        }
    }
    Ok(())
}

/// Puts the first of these entries that matches a state, and answers how many steps it stands for.
pub fn jump(entries: &[Arc<Entry>], state: &mut State) -> Option<u64>
    ensures some { IfSome result (λ n. plain n state.old ≡ Went state.new) }
    ensures none { IsNone result → state.new ≡ state.old }
    ensures unmatched { IsNone result → All (λ entry. Matches (arc_value entry) state.old → ⊥) entries.now }
{
    for entry in entries {
        if entry.matches(state) {
            entry.put(state);
            return Some(entry.steps());
        }
    }
    None
}
