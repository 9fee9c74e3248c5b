//! What is noted of the addresses that a run meets.
ghost use Rattle.std.specs.Prelude.{◌≡◌, ◌+◌, ◌*◌, ◌<◌, ◌≤◌, ◌^◌, ◌==◌, ◌||◌, ◌∷◌, ◌++◌, ℕ, [], IfOk, length, nat_lt, slice_index_or, vec_capacity, if◌then◌else◌};
ghost use Rattle.asc_inspect.specs.Profile.{met_again, no_meetings};

use std::alloc::{AllocError, Global};

/// How a run meets an address.
#[derive(Clone, Copy, Debug, PartialEq, Eq)]
pub(crate) struct Meetings {
    /// At how many counts of steps it goes on there.
    pub(crate) times: u64,
    /// The first of them, or 0.
    pub(crate) first: u64,
    /// The last of them, or 0.
    pub(crate) last: u64,
    /// Whether at one of them it came from no lower address.
    pub(crate) back: bool,
}

/// An address that was not met.
const NONE: Meetings = Meetings {
    times: 0,
    first: 0,
    last: 0,
    back: false,
};

/// What is noted of a run.
#[derive(Drop)]
pub(crate) struct Notes {
    /// How each word of memory is met.
    pub(crate) table: Vec<Meetings>,
    /// The address of the first word.
    pub(crate) base: u32,
    /// At how many counts the address is also put into the list.
    pub(crate) profile: u32,
    /// The addresses at these counts, each with its count.
    pub(crate) list: Vec<(u32, u64)>,
}

impl Notes {
    /// Nothing is noted yet.
    pub(crate) fn new(
        alloc: Global,
        base: u32,
        words: usize,
        profile: u32,
    ) -> Result<Notes, AllocError>
        ensures unmet { IfOk result (λ notes. (k : ℕ) → k < words → slice_index_or notes.table.items k no_meetings ≡ no_meetings) }
        ensures words { IfOk result (λ notes. length notes.table.items ≡ words) }
        ensures base { IfOk result (λ notes. notes.base ≡ base) }
        ensures profile { IfOk result (λ notes. notes.profile ≡ profile) }
        ensures none_listed { IfOk result (λ notes. notes.list.items ≡ []) }
        ensures room { IfOk result (λ notes. profile ≤ vec_capacity notes.list) }
    {
        Ok(Notes {
            table: vec![in alloc; NONE; words]?,
            base,
            profile,
            list: Vec::with_capacity(alloc, profile as usize)?,
        })
    }

    /// Notes that the run goes on at `pc` at a count of steps.
    #[inline]
    pub(crate) fn note(&mut self, pc: u32, count: u64, back: bool)
        requires few { (k : ℕ) → k < length self.old.table.items → (slice_index_or self.old.table.items k no_meetings).times ≤ count }
        requires count { count < 2 ^ 63 }
        requires room { count < self.old.profile → length self.old.list.items < vec_capacity self.old.list }
        ensures table { (k : ℕ) → k < length self.old.table.items → slice_index_or self.new.table.items k no_meetings
            ≡ (if pc == self.old.base + 4 * k then met_again count back (slice_index_or self.old.table.items k no_meetings)
            else slice_index_or self.old.table.items k no_meetings) }
        ensures list { self.new.list.items
            ≡ self.old.list.items ++ (if nat_lt count self.old.profile then (pc, count) ∷ [] else []) }
        ensures kept { self.new ≡ record self.old { table = self.new.table; list = self.new.list } }
        ensures words { length self.new.table.items ≡ length self.old.table.items }
        ensures room { vec_capacity self.new.list ≡ vec_capacity self.old.list }
    {
        if count < u64::from(self.profile) {
            self.list.push_reserved((pc, count));
        }
        meet(self.table.as_mut_slice(), self.base, pc, count, back);
    }
}

/// Notes in a table of the words from `base` on that a run goes on at `pc` at a count of steps.
#[inline]
fn meet(table: &mut [Meetings], base: u32, pc: u32, count: u64, back: bool)
    requires few { (k : ℕ) → k < length table.old → (slice_index_or table.old k no_meetings).times ≤ count }
    requires count { count < 2 ^ 63 }
    ensures { (k : ℕ) → k < length table.old → slice_index_or table.new k no_meetings
        ≡ (if pc == base + 4 * k then met_again count back (slice_index_or table.old k no_meetings)
        else slice_index_or table.old k no_meetings) }
{
    if pc < base || !(pc - base).is_multiple_of(4) {
        return;
    }
    let word = (pc - base) as usize / 4;
    if word < table.len() {
        table[word].meet(count, back);
    }
}

impl Meetings {
    /// It is met at one count more.
    #[inline]
    fn meet(&mut self, count: u64, back: bool)
        requires { self.old.times + 1 < 2 ^ 64 }
        ensures { self.new ≡ met_again count back self.old }
    {
        if self.times == 0 {
            self.first = count;
        }
        self.times += 1;
        self.last = count;
        self.back |= back;
    }
}
