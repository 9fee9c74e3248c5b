ghost use Rattle.std.specs.Prelude.{◌≡◌, ◌≢◌, ◌⊎◌, ◌+◌, ◌-◌, ◌*◌, ◌/◌, ◌%◌, ◌^◌, ◌<◌, ◌≤◌, ℕ, List, [], Option, max, min, true, false, IfOk, IfSome, MatchResult, None, length, slice_index, slice_index_or};
ghost use Rattle.asc_model.specs.Number.{word_at};
ghost use Rattle.asc_pages.specs.DirtyPages.{IsUnlisted, IsClean};
ghost use Rattle.asc_pages.specs.Pages.{Group, IsPage, ArePages, AreGroups, Keeps, Tells, IsShared, base_bytes, group_in, held, page_bytes, page_in, with_gap};
ghost use Rattle.asc_pages.specs.Tops.{bytes_in, groups_in, page_of};

use crate::DirtyPages;
use crate::dirty::without_pages;
use crate::numbers::Numbers;
use asc_outside::Memory;
use std::alloc::Global;
use std::marker::Model;
use std::mem;
use std::sync::Arc;

/// How many places a page has.
pub const PAGE: usize = 1024;

/// How many pages a group has.
pub const GROUP: usize = 32;

/// So many places at the front are of no account here: who keeps pages keeps those himself.
pub const FRONT: usize = 136;

/// At most so many pages stand in the place of their groups'.
pub(crate) const MOST_PATCHES: usize = 4;

// A page that is left out is blank.
type Page = Option<Arc<[u8; PAGE]>>;

// No pages in the place of their groups'.
const NO_PATCHES: [Page; MOST_PATCHES] = [None, None, None, None];

// A group of pages that is left out is blank.
type Group = Option<Arc<Vec<Page>>>;

// Groups. A run of them that are blank is left out of the list: so memory of which the first and the last pages are used has
// a short one.
//
// Contracts see them as the list of all.
#[derive(Drop)]
struct Groups {
    list: Vec<Group>,
    // How many lie before those that are left out, and how many those are.
    low: usize,
    gap: usize,
}

impl Model for Groups {
    ghost use Rattle.asc_pages.specs.Pages.{Group, with_gap};
    ghost use Rattle.std.specs.Prelude.{◌≤◌, List, Option, length};

    ghost Value = { List (Option Group) };

    ghost view = { λ s. with_gap s.list.items s.low s.gap };

    ghost invariant = { λ s. s.low ≤ length s.list.items };
}

// Groups, and a few pages that stand in the place of theirs. So copies that differ in a few pages share their groups.
#[derive(Drop)]
struct Top {
    // Where they are left out they are blank.
    groups: Option<Arc<Groups>>,
    // The numbers of those pages, and the pages. Behind those all are blank.
    patched: Numbers,
    patches: [Page; MOST_PATCHES],
}

/// Pages of bytes that do not change. They can be shared, also by threads, and share what they have in common with
/// others.
///
/// Contracts see them as their bytes. Behind the last one all are 0.
#[derive(Drop)]
pub struct Pages {
    top: Arc<Top>,
}

impl Model for Pages {
    ghost use Rattle.asc_pages.specs.Tops.{bytes_in};
    ghost use Rattle.std.specs.Prelude.{ℕ, List};

    ghost Value = { List ℕ };

    ghost view = { λ s. bytes_in s.top.value };
}

impl Pages {
    /// Pages of which all are blank.
    pub fn none(alloc: Global) -> Result<Pages, Memory>
        ensures { IfOk result (λ pages. pages ≡ []) }
    {
        Ok(Pages {
            top: Arc::new(alloc, no_top())?,
        })
    }

    /// The same pages, shared.
    #[inline]
    pub fn share(&self) -> Result<Pages, Memory>
        ensures { IfOk result (λ pages. pages ≡ self.now) }
    {
        Ok(Pages {
            top: Arc::try_clone(&self.top)?,
        })
    }

    /// The pages of these bytes. Those that are not dirty are shared with the base.
    pub fn of(
        alloc: Global,
        bytes: &[u8],
        changed: &DirtyPages,
        base: &Option<Pages>,
    ) -> Result<Pages, Memory>
        requires most { length bytes.now < 2 ^ 32 }
        requires dirty { length changed.now ≡ length bytes.now / 1024 + 1 }
        requires kept { Keeps changed.now (base_bytes base.now) bytes.now }
        ensures { IfOk result (λ pages. Tells pages bytes.now) }
    {
        match base {
            Some(base) if changed.is_clear() => base.share(),
            _ => {
                let mut pages = Pages::none(alloc)?;
                pages.renew(alloc, bytes, changed, base)?;
                Ok(pages)
            }
        }
    }

    /// Makes these the pages of bytes, as `of` does. What they were is of no account, but memory that nobody else has is
    /// used again. Where memory is wanting they stay, or are all blank.
    #[inline]
    pub fn renew(
        &mut self,
        alloc: Global,
        bytes: &[u8],
        changed: &DirtyPages,
        base: &Option<Pages>,
    ) -> Result<(), Memory>
        requires most { length bytes.now < 2 ^ 32 }
        requires dirty { length changed.now ≡ length bytes.now / 1024 + 1 }
        requires kept { Keeps changed.now (base_bytes base.now) bytes.now }
        ensures { MatchResult result (λ _. Tells self.new bytes.now)
            (λ _. (self.new ≡ self.old) ⊎ (self.new ≡ [])) }
    {
        match base {
            None => self.write(alloc, bytes, changed, &Pages::none(alloc)?),
            Some(base) if changed.is_clear() => {
                *self = base.share()?;
                Ok(())
            }
            Some(base) => self.write(alloc, bytes, changed, base),
        }
    }

    // The same, where there is a base.
    #[inline(never)]
    fn write(
        &mut self,
        alloc: Global,
        bytes: &[u8],
        changed: &DirtyPages,
        base: &Pages,
    ) -> Result<(), Memory>
        requires most { length bytes.now < 2 ^ 32 }
        requires dirty { length changed.now ≡ length bytes.now / 1024 + 1 }
        requires kept { Keeps changed.now base.now bytes.now }
        ensures { MatchResult result (λ _. Tells self.new bytes.now)
            (λ _. (self.new ≡ self.old) ⊎ (self.new ≡ [])) }
    {
        match Arc::get_mut(&mut self.top) {
            Some(top) => {
                let done = put_top(alloc, bytes, changed, &base.top, top);
                if done.is_err() {
                    *top = no_top();
                }
                done
            }
            None => {
                let mut top = no_top();
                put_top(alloc, bytes, changed, &base.top, &mut top)?;
                self.top = Arc::new(alloc, top)?;
                Ok(())
            }
        }
    }

    /// The word at a place that is a multiple of 4.
    #[inline]
    pub fn word(&self, place: usize) -> u32
        requires { place % 4 ≡ 0 }
        ensures { result ≡ word_at self.now place }
    {
        let page = self.page(place / PAGE);
        if page.is_empty() {
            return 0;
        }
        word_in(page, place % PAGE)
    }

    /// Page p, or nothing where it is blank and left out.
    #[inline]
    pub fn page(&self, p: usize) -> &[u8]
        ensures page { (i : ℕ) → i / 1024 ≡ p → slice_index self.now i ≡ slice_index result.now (i % 1024) }
        ensures size { 0 < length result.now → length result.now ≡ 1024 }
    {
        top_page(&self.top, p)
    }
}

/// The word in the four bytes from a place on.
#[inline]
pub fn word_in(bytes: &[u8], at: usize) -> u32
    requires { at + 4 ≤ length bytes.now }
    ensures { result ≡ word_at bytes.now at }
{
    let part = &bytes[at..at + 4];
    u32::from_le_bytes([part[0], part[1], part[2], part[3]])
}

// Page p, or nothing where it is blank and left out.
#[inline]
fn top_page(top: &Top, p: usize) -> &[u8]
    ensures page { result.now ≡ page_of top.now p }
    ensures size { 0 < length result.now → length result.now ≡ 1024 }
{
    let k = top.patched.place(p);
    if k < top.patched.len() {
        page_at(&top.patches, k)
    } else {
        page_at(pages_in(&top.groups, p / GROUP), p % GROUP)
    }
}

// The pages of group g, or none where it is left out.
#[inline]
fn pages_in(groups: &Option<Arc<Groups>>, g: usize) -> &[Page]
    ensures { result.now ≡ group_in (groups_in groups.now) g }
{
    match groups {
        Some(groups) => pages_among(groups, g),
        None => &[],
    }
}

// The same of groups that are not left out.
#[inline]
fn pages_among(groups: &Groups, g: usize) -> &[Page]
    ensures { result.now ≡ group_in groups.now g }
{
    if g < groups.low {
        group_pages(&groups.list[g])
    } else {
        pages_above(groups, g)
    }
}

// The same of a group behind those that come first in the list.
#[inline]
fn pages_above(groups: &Groups, g: usize) -> &[Page]
    ensures { result.now ≡ group_in groups.now g }
{
    let place = position(groups.low, groups.gap, groups.list.len(), g);
    match groups.list.get(place) {
        Some(group) => group_pages(group),
        None => &[],
    }
}

// The pages of a group, or none where it is left out.
#[inline]
fn group_pages(group: &Group) -> &[Page]
    ensures { result.now ≡ held group.now }
{
    match group {
        Some(group) => &group[..],
        None => &[],
    }
}

// Where group g stands in a list of so many, from which `gap` groups behind the first `low` are left out. Of these it gives
// the list's end.
#[inline]
fn position(low: usize, gap: usize, len: usize, g: usize) -> usize
    requires { low ≤ len }
    ensures { (list : List (Option Group)) → length list ≡ len
        → slice_index_or (with_gap list low gap) g None ≡ slice_index_or list result None }
{
    if g < low {
        g
    } else if g - low < gap {
        len
    } else {
        g - gap
    }
}

// The bytes of page k, or none where it is left out.
#[inline]
fn page_at(pages: &[Page], k: usize) -> &[u8]
    ensures page { result.now ≡ page_in pages.now k }
    ensures size { 0 < length result.now → length result.now ≡ 1024 }
{
    match pages.get(k) {
        Some(Some(page)) => &page[..],
        _ => &[],
    }
}

// A part, shared.
#[inline]
fn share<T>(part: &Option<Arc<T>>) -> Result<Option<Arc<T>>, Memory>
    ensures { IfOk result (λ share. IsShared share part.now) }
{
    match part {
        Some(part) => Ok(Some(Arc::try_clone(part)?)),
        None => Ok(None),
    }
}

// Part k of a list, shared.
#[inline]
fn share_part<T>(parts: &[Option<Arc<T>>], k: usize) -> Result<Option<Arc<T>>, Memory>
    ensures { IfOk result (λ part. IsShared part (slice_index_or parts.now k None)) }
{
    match parts.get(k) {
        Some(part) => share(part),
        None => Ok(None),
    }
}

// Page p, shared, where these are the pages of its group.
#[inline]
fn share_page(top: &Top, kept: &[Page], p: usize) -> Result<Page, Memory>
    requires { kept.now ≡ group_in (groups_in top.now.groups) (p / 32) }
    ensures { IfOk result (λ page. page_bytes page ≡ page_of top.now p) }
{
    let k = top.patched.place(p);
    if k < top.patched.len() {
        share_part(&top.patches, k)
    } else {
        share_part(kept, p % GROUP)
    }
}

// Group g, shared.
#[inline]
fn share_group(groups: &Option<Arc<Groups>>, g: usize) -> Result<Group, Memory>
    ensures { IfOk result (λ group. IsShared group (slice_index_or (groups_in groups.now) g None)) }
{
    match groups {
        Some(groups) => share_among(groups, g),
        None => Ok(None),
    }
}

// The same of groups that are not left out.
#[inline]
fn share_among(groups: &Groups, g: usize) -> Result<Group, Memory>
    ensures { IfOk result (λ group. IsShared group (slice_index_or groups.now g None)) }
{
    let place = position(groups.low, groups.gap, groups.list.len(), g);
    share_part(&groups.list, place)
}

// A run of groups of `count` that are blank.
#[inline]
fn blank_run(groups: &Option<Arc<Groups>>, count: usize) -> (usize, usize)
    ensures order { result.0 ≤ result.1 }
    ensures most { result.1 ≤ count }
    ensures blank { (g : ℕ) → result.0 ≤ g → g < result.1 → slice_index_or (groups_in groups.now) g None ≡ None }
{
    match groups {
        Some(groups) => blank_among(groups, count),
        None => (0, count),
    }
}

// The same of groups that are not left out.
fn blank_among(groups: &Groups, count: usize) -> (usize, usize)
    ensures order { result.0 ≤ result.1 }
    ensures most { result.1 ≤ count }
    ensures blank { (g : ℕ) → result.0 ≤ g → g < result.1 → slice_index_or groups.now g None ≡ None }
{
    if groups.list.is_empty() {
        (0, count)
    } else {
        (
            groups.low.min(count),
            groups.low.saturating_add(groups.gap).min(count),
        )
    }
}

// The number of the group in place k of a list from which `gap` groups behind the first `low` are left out.
#[inline]
fn number(low: usize, gap: usize, k: usize) -> usize
    requires { k + gap < 2 ^ 64 }
    ensures below { k < low → result ≡ k }
    ensures above { low ≤ k → result ≡ k + gap }
{
    if k < low { k } else { k + gap }
}

// No pages. They take no memory.
#[inline]
fn no_top() -> Top
    ensures { bytes_in result ≡ [] }
{
    Top {
        groups: None,
        patched: Numbers::new(),
        patches: NO_PATCHES,
    }
}

// No groups. They take no memory.
#[inline]
fn no_groups(alloc: Global) -> Groups {
    Groups {
        list: Vec::new(alloc),
        low: 0,
        gap: 0,
    }
}

// A list of so many parts, in the memory of another one. What they are is of no account.
#[inline]
fn sized<T: Drop>(
    mut parts: Vec<Option<Arc<T>>>,
    size: usize,
) -> Result<Vec<Option<Arc<T>>>, Memory>
    ensures { IfOk result (λ parts. length parts.items ≡ size) }
{
    parts.reserve_exact(size.saturating_sub(parts.len()))?;
    parts.resize_with(size, || None)?;
    Ok(parts)
}

// Puts the pages of bytes in the place of others. Where few are changed since the base got its groups, they share those.
#[inline]
fn put_top(
    alloc: Global,
    bytes: &[u8],
    changed: &DirtyPages,
    base: &Top,
    top: &mut Top,
) -> Result<(), Memory>
    requires most { length bytes.now < 2 ^ 32 }
    requires dirty { length changed.now ≡ length bytes.now / 1024 + 1 }
    requires kept { Keeps changed.now (bytes_in base.now) bytes.now }
    ensures { IfOk result (λ _. Tells (bytes_in top.new) bytes.now) }
{
    if list_patched(&mut top.patched, base, changed) {
        top.groups = share(&base.groups)?;
        put_patches(
            alloc,
            bytes,
            changed,
            base,
            top.patched.list(),
            &mut top.patches,
        )
    } else {
        top.patched.clear();
        top.patches = NO_PATCHES;
        put_groups(alloc, bytes, changed, base, &mut top.groups)
    }
}

// Lists the pages that stand in the place of others in the base, and those that are changed, and answers whether it did:
// they may be too many, and the base may have no groups.
#[inline]
fn list_patched(patched: &mut Numbers, base: &Top, changed: &DirtyPages) -> bool
    ensures { result ≡ true → (p : ℕ) → IsUnlisted patched.new p
        → IsUnlisted base.now.patched p × (p < length changed.now → slice_index_or changed.now p true ≡ false) }
{
    if base.groups.is_none() {
        return false;
    }
    let Some(dirtied) = changed.listed() else {
        return false;
    };
    patched.copy(&base.patched);
    for p in dirtied {
        if !list_changed(patched, &base.patched, *p) {
            return false;
        }
    }
    true
}

// Lists a page that is changed, unless it is one of the base's, and answers whether there was room.
#[inline]
fn list_changed(patched: &mut Numbers, base: &Numbers, p: usize) -> bool
    ensures { result ≡ true → (q : ℕ) → IsUnlisted patched.new q
        → IsUnlisted patched.old q × (IsUnlisted base.now q → p ≢ q) }
{
    if base.place(p) < base.len() {
        return true;
    }
    if patched.len() >= MOST_PATCHES {
        return false;
    }
    patched.push(p);
    true
}

// Puts the pages of bytes of these numbers in the place of others.
#[inline]
fn put_patches(
    alloc: Global,
    bytes: &[u8],
    changed: &DirtyPages,
    base: &Top,
    patched: &[usize],
    patches: &mut [Page; MOST_PATCHES],
) -> Result<(), Memory>
    requires most { length bytes.now < 2 ^ 32 }
    requires dirty { length changed.now ≡ length bytes.now / 1024 + 1 }
    requires few { length patched.now ≤ 4 }
    requires kept { Keeps changed.now (bytes_in base.now) bytes.now }
    ensures { IfOk result (λ _. (k : ℕ) → k < length patched.now
        → IsPage bytes.now (slice_index patched.now k) (page_in patches.new k)) }
{
    for k in 0..MOST_PATCHES {
        put_patch(alloc, bytes, changed, base, patched.get(k), &mut patches[k])?;
    }
    Ok(())
}

// Puts the page of bytes of a number in the place of another one. Where there is no number it is left out, and behind the
// bytes, where it is of no account.
#[inline]
fn put_patch(
    alloc: Global,
    bytes: &[u8],
    changed: &DirtyPages,
    base: &Top,
    number: Option<&usize>,
    page: &mut Page,
) -> Result<(), Memory>
    requires most { length bytes.now < 2 ^ 32 }
    requires dirty { length changed.now ≡ length bytes.now / 1024 + 1 }
    requires kept { Keeps changed.now (bytes_in base.now) bytes.now }
    ensures { IfOk result (λ _. IfSome number.entry (λ p. IsPage bytes.now p.now (page_bytes page.new))) }
{
    match number {
        Some(p) if *p < changed.len() => {
            let kept = pages_in(&base.groups, *p / GROUP);
            put_page(alloc, bytes, changed, base, kept, *p, page)
        }
        _ => {
            *page = None;
            Ok(())
        }
    }
}

// Writes the groups of bytes over others where those are nobody else's, and else puts them in their place.
#[inline(never)]
fn put_groups(
    alloc: Global,
    bytes: &[u8],
    changed: &DirtyPages,
    base: &Top,
    groups: &mut Option<Arc<Groups>>,
) -> Result<(), Memory>
    requires most { length bytes.now < 2 ^ 32 }
    requires dirty { length changed.now ≡ length bytes.now / 1024 + 1 }
    requires kept { Keeps changed.now (bytes_in base.now) bytes.now }
    ensures { IfOk result (λ _. AreGroups bytes.now (groups_in groups.new)) }
{
    if let Some(part) = groups {
        if let Some(old) = Arc::get_mut(part) {
            let spare = mem::replace(old, no_groups(alloc));
            *old = groups_of(alloc, bytes, changed, base, spare)?;
            return Ok(());
        }
    }
    let made = groups_of(alloc, bytes, changed, base, no_groups(alloc))?;
    *groups = Some(Arc::new(alloc, made)?);
    Ok(())
}

// The groups of bytes, in the memory of spare ones.
#[inline]
fn groups_of(
    alloc: Global,
    bytes: &[u8],
    changed: &DirtyPages,
    base: &Top,
    spare: Groups,
) -> Result<Groups, Memory>
    requires most { length bytes.now < 2 ^ 32 }
    requires dirty { length changed.now ≡ length bytes.now / 1024 + 1 }
    requires kept { Keeps changed.now (bytes_in base.now) bytes.now }
    ensures { IfOk result (λ groups. AreGroups bytes.now groups) }
{
    let count = changed.len().div_ceil(GROUP);
    let blank = blank_run(&base.groups, count);
    let free = changed.free_run(blank.0, blank.1);
    let (low, end) = without_pages(free.0, free.1, base.patched.list());
    let used = low + (count - end);
    let mut list = sized(spare.list, used)?;
    for k in 0..used {
        let g = number(low, end - low, k);
        put_group(alloc, bytes, changed, base, g, &mut list[k])?;
    }
    Ok(Groups {
        list,
        low,
        gap: end - low,
    })
}

// How many pages of group g there are up to the last one that may be changed, or stand in the place of its own.
#[inline]
fn used_pages(changed: &DirtyPages, patched: &[usize], g: usize) -> usize
    requires { 32 * g < length changed.now }
    ensures clean { IsClean changed.now (32 * g + result) (32 - result) }
    ensures unlisted { (k : ℕ) → result ≤ k → k < 32 → IsUnlisted patched.now (32 * g + k) }
{
    for p in patched {
        if *p / GROUP == g {
            return GROUP;
        }
    }
    changed.used_pages(g)
}

// Puts group g of bytes in the place of another one: that of the base, shared, where no page of it is another one.
#[inline]
fn put_group(
    alloc: Global,
    bytes: &[u8],
    changed: &DirtyPages,
    base: &Top,
    g: usize,
    group: &mut Group,
) -> Result<(), Memory>
    requires most { length bytes.now < 2 ^ 32 }
    requires dirty { length changed.now ≡ length bytes.now / 1024 + 1 }
    requires group { 32 * g < length changed.now }
    requires kept { Keeps changed.now (bytes_in base.now) bytes.now }
    ensures { IfOk result (λ _. ArePages bytes.now (32 * g) (held group.new)) }
{
    if used_pages(changed, base.patched.list(), g) == 0 {
        *group = share_group(&base.groups, g)?;
        Ok(())
    } else {
        write_group(alloc, bytes, changed, base, g, group)
    }
}

// Writes group g of bytes over another one where that is nobody else's, and else puts it in its place.
#[inline]
fn write_group(
    alloc: Global,
    bytes: &[u8],
    changed: &DirtyPages,
    base: &Top,
    g: usize,
    group: &mut Group,
) -> Result<(), Memory>
    requires most { length bytes.now < 2 ^ 32 }
    requires dirty { length changed.now ≡ length bytes.now / 1024 + 1 }
    requires group { 32 * g < length changed.now }
    requires kept { Keeps changed.now (bytes_in base.now) bytes.now }
    ensures { IfOk result (λ _. ArePages bytes.now (32 * g) (held group.new)) }
{
    if let Some(part) = group {
        if let Some(pages) = Arc::get_mut(part) {
            let spare = mem::replace(pages, Vec::new(alloc));
            *pages = pages_of(alloc, bytes, changed, base, g, spare)?;
            return Ok(());
        }
    }
    let pages = pages_of(alloc, bytes, changed, base, g, Vec::new(alloc))?;
    *group = Some(Arc::new(alloc, pages)?);
    Ok(())
}

// The pages of group g of bytes, in the memory of spare ones: copies of those that are changed, and the others of the base,
// shared.
#[inline(never)]
fn pages_of(
    alloc: Global,
    bytes: &[u8],
    changed: &DirtyPages,
    base: &Top,
    g: usize,
    spare: Vec<Page>,
) -> Result<Vec<Page>, Memory>
    requires most { length bytes.now < 2 ^ 32 }
    requires dirty { length changed.now ≡ length bytes.now / 1024 + 1 }
    requires group { 32 * g < length changed.now }
    requires kept { Keeps changed.now (bytes_in base.now) bytes.now }
    ensures { IfOk result (λ pages. ArePages bytes.now (32 * g) pages.items) }
{
    let kept = pages_in(&base.groups, g);
    let from = g * GROUP;
    let room = GROUP.min(changed.len() - from);
    let used = room.min(kept.len().max(used_pages(changed, base.patched.list(), g)));
    let mut pages = sized(spare, used)?;
    for k in 0..used {
        put_page(alloc, bytes, changed, base, kept, from + k, &mut pages[k])?;
    }
    Ok(pages)
}

// Puts page p of bytes in the place of another one: a copy where it is changed, and else that of the base, shared, of whose
// group these are the pages.
#[inline]
fn put_page(
    alloc: Global,
    bytes: &[u8],
    changed: &DirtyPages,
    base: &Top,
    kept: &[Page],
    p: usize,
    page: &mut Page,
) -> Result<(), Memory>
    requires most { length bytes.now < 2 ^ 32 }
    requires dirty { length changed.now ≡ length bytes.now / 1024 + 1 }
    requires page { p < length changed.now }
    requires group { kept.now ≡ group_in (groups_in base.now.groups) (p / 32) }
    requires kept { Keeps changed.now (bytes_in base.now) bytes.now }
    ensures { IfOk result (λ _. IsPage bytes.now p (page_bytes page.new)) }
{
    if changed.is_dirty(p) {
        copy_to(alloc, &bytes[p * PAGE..], page)
    } else {
        *page = share_page(base, kept, p)?;
        Ok(())
    }
}

// Puts a page of the first bytes of a list, with zeros behind those that there are, in the place of another one. Where that
// one is nobody else's, it is written over.
//
// It stands out of the loop over a group's pages, which then keeps what it has in registers.
#[inline(never)]
fn copy_to(alloc: Global, bytes: &[u8], page: &mut Page) -> Result<(), Memory>
    ensures { IfOk result (λ _. (i : ℕ) → i < 1024 → slice_index (page_bytes page.new) i ≡ slice_index bytes.now i) }
{
    if let Some(part) = page {
        if let Some(old) = Arc::get_mut(part) {
            write_over(old, bytes);
            return Ok(());
        }
    }
    *page = Some(new_page(alloc, bytes)?);
    Ok(())
}

// A page of the first bytes of a list, and zeros behind those that there are.
//
// It stands out of `copy_to`, which would else fill the room for it at each call.
#[inline(never)]
fn new_page(alloc: Global, bytes: &[u8]) -> Result<Arc<[u8; PAGE]>, Memory>
    ensures { IfOk result (λ page. (i : ℕ) → i < 1024 → slice_index page.value i ≡ slice_index bytes.now i) }
{
    match bytes.first_chunk() {
        Some(whole) => Ok(Arc::new(alloc, *whole)?),
        None => last_page(alloc, bytes),
    }
}

// The same where there are fewer bytes than a page has.
//
// It stands out of `new_page`, which fills nothing with zeros.
#[inline(never)]
fn last_page(alloc: Global, bytes: &[u8]) -> Result<Arc<[u8; PAGE]>, Memory>
    requires { length bytes.now < 1024 }
    ensures { IfOk result (λ page. (i : ℕ) → i < 1024 → slice_index page.value i ≡ slice_index bytes.now i) }
{
    let mut page = [0; PAGE];
    write_part(&mut page, bytes);
    Ok(Arc::new(alloc, page)?)
}

// Writes the first bytes of a list over a page, and zeros behind those that there are.
#[inline]
fn write_over(page: &mut [u8; PAGE], bytes: &[u8])
    ensures { (i : ℕ) → i < 1024 → slice_index page.new i ≡ slice_index bytes.now i }
{
    match bytes.first_chunk() {
        Some(whole) => *page = *whole,
        None => write_part(page, bytes),
    }
}

// The same where there are fewer bytes than a page has.
//
// It stands out of the copy of a whole page.
#[inline(never)]
fn write_part(page: &mut [u8; PAGE], bytes: &[u8])
    requires { length bytes.now < 1024 }
    ensures { (i : ℕ) → i < 1024 → slice_index page.new i ≡ slice_index bytes.now i }
{
    let len = bytes.len();
    page[..len].copy_from_slice(bytes);
    page[len..].fill(0);
}
