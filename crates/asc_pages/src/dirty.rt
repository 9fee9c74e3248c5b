ghost use Rattle.std.specs.Prelude.{◌≡◌, ◌⊎◌, ◌+◌, ◌*◌, ◌-◌, ◌/◌, ◌^◌, ◌<◌, ◌≤◌, ℕ, [], ◌∷◌, ◌++◌, true, false, IfNone, IfOk, IfSome, length, nat_eq, replicate, slice_index, slice_index_or, slice_set};
ghost use Rattle.asc_pages.specs.DirtyPages.{AreDirty, IsUnlisted, IsClean, dirty_in};

use crate::pages::GROUP;
use asc_outside::Memory;
use std::alloc::Global;
use std::marker::Model;

/// Which pages are dirty: changed since they were last shared. Up to where they may be is told group by group, and they are
/// listed.
///
/// Contracts see it as a list that has, for each page, whether it is dirty.
#[derive(Drop)]
pub struct DirtyPages {
    pages: Vec<bool>,
    // For each group, up to which of its pages one may be dirty.
    groups: Vec<usize>,
    // The dirty pages, as they became so, unless all are.
    listed: Vec<usize>,
    all: bool,
    // How many pages are dirty.
    dirtied: usize,
}

impl Model for DirtyPages {
    ghost use Rattle.asc_pages.specs.DirtyPages.{AreDirty, dirty_in};
    ghost use Rattle.std.specs.Prelude.{◌≡◌, ◌≤◌, List, Bool, length, vec_capacity};

    ghost Value = { List Bool };

    ghost view = { λ m. m.pages.items };

    ghost invariant = { λ m. AreDirty m.all m.listed.items m.groups.items m.pages.items
        × ((m.dirtied ≡ dirty_in m.pages.items) × (length m.pages.items ≤ vec_capacity m.listed)) };
}

impl DirtyPages {
    /// So many pages, none of which is dirty.
    pub fn new(alloc: Global, count: usize) -> Result<DirtyPages, Memory>
        requires { count < 2 ^ 32 }
        ensures { IfOk result (λ page. page ≡ replicate count false) }
    {
        let groups = count.div_ceil(GROUP);
        Ok(DirtyPages {
            pages: vec![in alloc; false; count]?,
            groups: vec![in alloc; 0; groups]?,
            listed: Vec::with_capacity(alloc, count)?,
            all: false,
            dirtied: 0,
        })
    }

    /// How many pages there are.
    #[inline]
    pub fn len(&self) -> usize
        ensures { result ≡ length self.now }
    {
        self.pages.len()
    }

    /// How many pages are dirty.
    #[inline]
    pub fn count(&self) -> usize
        ensures { result ≡ dirty_in self.now }
    {
        self.dirtied
    }

    /// Whether page p is dirty.
    #[inline]
    pub fn is_dirty(&self, p: usize) -> bool
        requires { p < length self.now }
        ensures { result ≡ slice_index_or self.now p true }
    {
        self.pages[p]
    }

    /// Whether no page is dirty.
    #[inline]
    pub fn is_clear(&self) -> bool
        ensures count { result ≡ nat_eq (dirty_in self.now) 0 }
        ensures pages { result ≡ true → IsClean self.now 0 (length self.now) }
    {
        self.dirtied == 0
    }

    /// The dirty pages, in the order in which they became so, unless all are.
    #[inline]
    pub(crate) fn listed(&self) -> Option<&[usize]>
        ensures pages { IfSome result (λ pages. (p : ℕ) → p < length self.now → IsUnlisted pages.now p
            → slice_index_or self.now p true ≡ false) }
        ensures count { IfSome result (λ pages. length pages.now ≡ dirty_in self.now) }
        ensures all { IfNone result (dirty_in self.now ≡ length self.now) }
    {
        if self.all { None } else { Some(&self.listed) }
    }

    /// A part of the groups from one on up to another one in which no page is dirty.
    #[inline]
    pub(crate) fn free_run(&self, from: usize, to: usize) -> (usize, usize)
        requires { from ≤ to }
        ensures order { result.0 ≤ result.1 }
        ensures within { (from ≤ result.0) × (result.1 ≤ to) }
        ensures free { IsClean self.now (32 * result.0) (32 * (result.1 - result.0)) }
    {
        if self.all {
            (to, to)
        } else {
            without_pages(from, to, &self.listed)
        }
    }

    /// How many pages of group g there are up to the last one that may be dirty.
    #[inline]
    pub(crate) fn used_pages(&self, g: usize) -> usize
        requires { 32 * g < length self.now }
        ensures { IsClean self.now (32 * g + result) (32 - result) }
    {
        self.groups[g]
    }

    /// Page p becomes dirty.
    #[inline(always)]
    pub fn add(&mut self, p: usize)
        requires { p < length self.old }
        ensures { self.new ≡ slice_set self.old p true }
    {
        // Mostly it is, and then nothing is written.
        if !self.pages[p] {
            self.add_new(p);
        }
    }

    // Page p, which was clean, becomes dirty. It stands out of the loops that add a page at each store.
    #[cold]
    #[inline(never)]
    fn add_new(&mut self, p: usize)
        requires page { p < length self.old }
        requires clean { slice_index_or self.old p true ≡ false }
        ensures { self.new ≡ slice_set self.old p true }
    {
        let g = p / GROUP;
        self.pages[p] = true;
        self.dirtied += 1;
        self.groups[g] = self.groups[g].max(p % GROUP + 1);
        self.listed.push_reserved(p);
    }

    /// All pages become dirty.
    pub fn add_all(&mut self)
        ensures { self.new ≡ replicate (length self.old) true }
    {
        self.pages.fill(true);
        self.groups.fill(GROUP);
        self.all = true;
        self.dirtied = self.pages.len();
    }

    /// All pages become clean.
    pub fn clear(&mut self)
        requires { length self.old < 2 ^ 32 }
        ensures { self.new ≡ replicate (length self.old) false }
    {
        clean_listed(&mut self.pages, &mut self.groups, &self.listed, self.all);
        self.listed.clear();
        self.all = false;
        self.dirtied = 0;
    }
}

/// A part of the groups from one on up to another one in which none of these pages lies.
#[inline]
pub(crate) fn without_pages(from: usize, to: usize, pages: &[usize]) -> (usize, usize)
    requires { from ≤ to }
    ensures order { result.0 ≤ result.1 }
    ensures within { (from ≤ result.0) × (result.1 ≤ to) }
    ensures other { (j : ℕ) → j < length pages.now
        → (slice_index pages.now j / 32 < result.0) ⊎ (result.1 ≤ slice_index pages.now j / 32) }
{
    let mut run = (from, to);
    for p in pages {
        run = without_group(run.0, run.1, *p / GROUP);
    }
    run
}

// The longer one of the parts of a run of groups before and behind group g.
#[inline]
fn without_group(from: usize, to: usize, g: usize) -> (usize, usize)
    requires { from ≤ to }
    ensures order { result.0 ≤ result.1 }
    ensures within { (from ≤ result.0) × (result.1 ≤ to) }
    ensures other { (g < result.0) ⊎ (result.1 ≤ g) }
{
    if g < from || g >= to {
        (from, to)
    } else if g - from < to - g {
        (g + 1, to)
    } else {
        (from, g)
    }
}

// All pages become clean: those that are listed, or where all are dirty, every one.
#[inline]
fn clean_listed(pages: &mut [bool], groups: &mut [usize], listed: &[usize], all: bool)
    requires dirty { AreDirty all listed.now groups.old pages.old }
    ensures pages { pages.new ≡ replicate (length pages.old) false }
    ensures groups { groups.new ≡ replicate (length groups.old) 0 }
{
    if all {
        pages.fill(false);
        groups.fill(0);
        return;
    }
    for p in listed {
        pages[*p] = false;
        groups[*p / GROUP] = 0;
    }
}
