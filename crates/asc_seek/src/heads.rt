//! The heads of a stretch of a run.
ghost use Rattle.std.specs.Prelude.{◌≡◌, ◌+◌, ◌≤◌, Some, IfOk, length};
ghost use Rattle.asc_seek.specs.Inside.{AreMetSeldom, HasLaps};
ghost use Rattle.asc_seek.specs.Seek.{is_behind};
ghost use Rattle.asc_seek.specs.Heads.{AreEarlier, comes_before, lap_of, no_heads, note, table_slots};

use std::alloc::{AllocError, Global};

/// How many heads a table has at most.
const TABLE_SLOTS: usize = 4096;

/// An address that steps led back to.
#[derive(Clone, Copy, Debug, PartialEq, Eq)]
pub struct Head {
    /// The address.
    pub address: u32,
    /// How often a step led back to it.
    pub times: u64,
    /// The count of steps at which one did so first.
    pub first: u64,
    /// The count at which one did so last.
    pub last: u64,
}

impl Head {
    /// The steps of its laps on average: they are counted from one meeting to the next.
    pub(crate) fn lap(&self) -> u64
        requires times { 2 ≤ self.now.times }
        ensures lap { result ≡ lap_of self.now }
        ensures most { result ≤ self.now.last }
    {
        self.last.saturating_sub(self.first) / (self.times - 1)
    }

    /// Whether it is tried before another: its laps are shorter, or as long, and it is at the lower address.
    pub(crate) fn comes_before(&self, other: &Head) -> bool
        requires times { 2 ≤ self.now.times }
        requires others { 2 ≤ other.now.times }
        ensures { result ≡ comes_before self.now other.now }
    {
        let (own, others) = (self.lap(), other.lap());
        own < others || (own == others && self.address < other.address)
    }

    /// Whether it is tried behind one that was tried.
    pub(crate) fn is_behind(&self, tried: Option<Head>) -> bool
        requires times { 2 ≤ self.now.times }
        requires tried { HasLaps tried }
        ensures { result ≡ is_behind tried self.now }
    {
        match tried {
            None => true,
            Some(tried) => tried.comes_before(self),
        }
    }
}

/// A table without heads.
pub(crate) fn no_heads(alloc: Global) -> Result<Vec<Option<Head>>, AllocError>
    ensures { IfOk result (λ table. table.items ≡ no_heads) }
{
    let mut table = Vec::with_capacity(alloc, TABLE_SLOTS)?;
    for _ in 0..TABLE_SLOTS {
        table.push(None)?;
    }
    Ok(table)
}

/// Takes all heads out of a table.
pub(crate) fn clear(table: &mut [Option<Head>])
    requires { length table.old ≡ table_slots }
    ensures { table.new ≡ no_heads }
{
    for slot in table.iter_mut() {
        *slot = None;
    }
}

/// Notes in a table that a step led back to an address. Of two addresses with the same slot, the one that was met first
/// keeps it.
pub(crate) fn note(table: &mut [Option<Head>], address: u32, count: u64)
    requires slots { length table.old ≡ table_slots }
    requires some { 1 ≤ count }
    requires earlier { AreEarlier count table.old }
    requires seldom { AreMetSeldom table.old }
    ensures table { table.new ≡ note count (Some address) table.old }
    ensures slots { length table.new ≡ table_slots }
    ensures earlier { AreEarlier (count + 1) table.new }
    ensures seldom { AreMetSeldom table.new }
{
    let met = &mut table[address as usize / 4 % TABLE_SLOTS];
    match met {
        None => {
            *met = Some(Head {
                address,
                times: 1,
                first: count,
                last: count,
            });
        }
        Some(head) if head.address == address => {
            head.times += 1;
            head.last = count;
        }
        Some(_) => {}
    }
}
