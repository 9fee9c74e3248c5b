ghost use Rattle.std.specs.Prelude.{◌≡◌, ◌≤◌, ◌&&◌, nat_le, nat_lt, true, map, Some, None, IfSome, IfNone};
ghost use Rattle.std.specs.Arc.{arc_value};
ghost use Rattle.asc_model.specs.Step.{Went};
ghost use Rattle.asc_model.specs.Plain.{plain};
ghost use Rattle.asc_traj.specs.Content.{longest, matches};
ghost use Rattle.asc_traj.specs.Jump.{IsJump};

use crate::Entry;
use asc_shape::State;
use std::sync::Arc;

/// The longest entry of at most `left` steps that matches a state; of several the first.
pub fn longest_match<'a>(entries: &'a [Arc<Entry>], state: &State, left: u64) -> Option<&'a Entry>
    ensures none { IfNone result (longest (map arc_value entries.now) state.now left ≡ None) }
    ensures some { IfSome result (λ e. (longest (map arc_value entries.now) state.now left ≡ Some e.now.steps)
        × (matches state.now e.now ≡ true) × (e.now.steps ≤ left)) }
{
    let mut best = None;
    let mut most = 0;
    for held in entries {
        let entry: &Entry = held;
        if is_longer(entry, state, left, most) {
            best = Some(entry);
            most = entry.steps();
        }
    }
    best
}

/// Whether an entry matches a state and has more steps than `most`, and at most `left`.
pub fn is_longer(entry: &Entry, state: &State, left: u64, most: u64) -> bool
    ensures is { result
        ≡ (matches state.now entry.now && nat_le entry.now.steps left && nat_lt most entry.now.steps) }
    ensures least { 1 ≤ entry.now.steps }
{
    entry.truth();
    most < entry.steps() && entry.steps() <= left && entry.matches(state)
}

/// Puts an entry that matches, and answers its steps.
pub fn jump_by(entry: &Entry, state: &mut State) -> u64
    requires { matches state.old entry.now ≡ true }
    ensures steps { result ≡ entry.now.steps }
    ensures least { 1 ≤ entry.now.steps }
    ensures goes { plain entry.now.steps state.old ≡ Went state.new }
{
    entry.truth();
    entry.put(state);
    entry.steps()
}

/// Jumps ahead by the longest of these entries, of at most `left` steps, that matches. Where there is none the state
/// stays.
pub fn jump_longest(entries: &[Arc<Entry>], state: &mut State, left: u64) -> Option<u64>
    ensures longest { result ≡ longest (map arc_value entries.now) state.old left }
    ensures jump { IsJump result left state.old state.new }
{
    match longest_match(entries, state, left) {
        Some(entry) => Some(jump_by(entry, state)),
        None => None,
    }
}
