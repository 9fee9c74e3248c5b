ghost use Rattle.std.specs.Prelude.{◌≡◌, ◌<◌, ◌≤◌, ℕ, List, [], ◌∷◌, ◌++◌, length};
ghost use Rattle.asc_pages.specs.Numbers.{place_of};

use crate::pages::{GROUP, MOST_PATCHES};
use std::marker::Model;

/// The numbers of a few pages. Of most others one test tells that they are none of these.
///
/// Contracts see them as their list.
#[derive(Drop)]
pub(crate) struct Numbers {
    // The first ones are the numbers. What lies behind those is of no account.
    list: [usize; MOST_PATCHES],
    count: usize,
    // Whether one of them may have this remainder by 32.
    has: [bool; GROUP],
}

impl Model for Numbers {
    ghost use Rattle.asc_pages.specs.Numbers.{HasRemainders};
    ghost use Rattle.std.specs.Prelude.{◌≤◌, ℕ, List, take};

    ghost Value = { List ℕ };

    ghost view = { λ n. take n.count n.list };

    ghost invariant = { λ n. (n.count ≤ 4) × HasRemainders n.has (take n.count n.list) };
}

impl Numbers {
    /// No numbers.
    #[inline]
    pub(crate) fn new() -> Numbers
        ensures { result ≡ [] }
    {
        Numbers {
            list: [0; MOST_PATCHES],
            count: 0,
            has: [false; GROUP],
        }
    }

    /// The numbers, in the order in which they came.
    #[inline]
    pub(crate) fn list(&self) -> &[usize]
        ensures numbers { result.now ≡ self.now }
        ensures most { length result.now ≤ 4 }
    {
        &self.list[..self.count]
    }

    /// How many there are.
    #[inline]
    pub(crate) fn len(&self) -> usize
        ensures { result ≡ length self.now }
    {
        self.count
    }

    /// The place of a number in the list, or the count of the numbers where it is none of them.
    #[inline]
    pub(crate) fn place(&self, p: usize) -> usize
        ensures { result ≡ place_of self.now p }
    {
        if self.has[p % GROUP] {
            place_in(self.list(), p)
        } else {
            self.len()
        }
    }

    /// Takes all numbers away.
    #[inline]
    pub(crate) fn clear(&mut self)
        ensures { self.new ≡ [] }
    {
        self.count = 0;
        self.has = [false; GROUP];
    }

    /// Makes these the same as others.
    #[inline]
    pub(crate) fn copy(&mut self, others: &Numbers)
        ensures { self.new ≡ others.now }
    {
        self.list = others.list;
        self.count = others.count;
        self.has = others.has;
    }

    /// Puts a number behind the others. There must be room.
    #[inline]
    pub(crate) fn push(&mut self, p: usize)
        requires { length self.old < 4 }
        ensures { self.new ≡ self.old ++ p ∷ [] }
    {
        self.has[p % GROUP] = true;
        self.list[self.count] = p;
        self.count += 1;
    }
}

// The place of a number in a list, or the list's length where it is not there. It stands out of line, so that one test tells
// of most pages.
#[inline(never)]
fn place_in(list: &[usize], p: usize) -> usize
    ensures { result ≡ place_of list.now p }
{
    for (k, number) in list.iter().enumerate() {
        if *number == p {
            return k;
        }
    }
    list.len()
}
