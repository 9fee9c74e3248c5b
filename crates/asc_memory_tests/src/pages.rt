//! Dirty pages and their copies.
ghost use Rattle.std.specs.Prelude.{◌+◌, ◌*◌, ◌^◌, ◌<◌, ◌≤◌, length};

use asc_outside::Memory;
use asc_pages::{DirtyPages, FRONT, GROUP, PAGE, Pages};
use std::alloc::Global;
use std::marker::Model;

// How many bytes there are, of which the last one is 9 and the others are 7.
static LENGTHS: [usize; 5] = [137, 1024, 1025, 33_000, 100_001];

#[test]
fn pages_of_bytes(rt: HostRuntime) {
    for len in LENGTHS {
        let pages = pages_of(rt.alloc(), len).expect(&rt, "memory");
        let shared = pages.share().expect(&rt, "memory");
        for pages in [pages, shared] {
            assert_eq!(rt;
                pages.page((len - 1) / PAGE).get((len - 1) % PAGE),
                Some(&9),
                "{len} bytes"
            );
            assert!(rt; pages.page(len / PAGE + 1).is_empty());
            assert!(rt; pages.page(len / PAGE + GROUP).is_empty());
            assert_eq!(rt; pages.word(len / PAGE * PAGE + PAGE), 0);
        }
    }
}

fn pages_of(alloc: Global, len: usize) -> Option<Pages> {
    first_row(alloc, len)?.pages
}

// Pages over others that are longer or shorter, and shared or not, and the others where they are shared.
#[test]
fn pages_over_others(rt: HostRuntime) {
    for (len, old) in [(1024, 33_000), (33_000, 1025), (70_000, 70_001)] {
        for is_shared in [false, true] {
            let spare = pages_of(rt.alloc(), old).expect(&rt, "memory");
            let other = if is_shared { spare.share().ok() } else { None };
            let pages = over(rt.alloc(), spare, len).expect(&rt, "memory");
            assert!(rt; has_bytes(&pages, len, 5), "{len} over {old}");
            if let Some(other) = other {
                assert!(rt; has_bytes(&other, old, 7), "{old} under {len}");
            }
        }
    }
}

// Pages over some that share all but one with others, which stay.
#[test]
fn pages_over_shared_ones(rt: HostRuntime) {
    for len in [5000, 70_000] {
        let row = first_row(rt.alloc(), len).expect(&rt, "memory");
        let first = share(&row.pages).expect(&rt, "memory");
        let row = next_row(rt.alloc(), row, 1).expect(&rt, "memory");
        assert!(rt; is_told(&row.pages, &row.bytes), "{len}");
        let second = row.pages.expect(&rt, "pages");
        let pages = over(rt.alloc(), second, len).expect(&rt, "memory");
        assert!(rt;
            has_bytes(&pages, len, 5) && has_bytes(&first, len, 7),
            "{len}"
        );
    }
}

// Pages of bytes of which the last one is 9 and the others are 5, in the memory of spare ones.
fn over(alloc: Global, spare: Pages, len: usize) -> Option<Pages> {
    if len == 0 || len >= 1 << 20 {
        return None;
    }
    let mut bytes = vec![in alloc; 5; len].ok()?;
    bytes[len - 1] = 9;
    let mut dirty = DirtyPages::new(alloc, len / PAGE + 1).ok()?;
    dirty.add_all();
    let base = Some(Pages::none(alloc).ok()?);
    let mut pages = spare;
    if dirty.len() != bytes.len() / PAGE + 1 {
        return None;
    }
    pages.renew(alloc, &bytes, &dirty, &base).ok()?;
    Some(pages)
}

// Whether pages have so many bytes, of which the last one is 9 and the others are this one.
fn has_bytes(pages: &Pages, len: usize, byte: u8) -> bool {
    for place in 0..len {
        let wanted = if len - place == 1 { 9 } else { byte };
        if pages.page(place / PAGE).get(place % PAGE) != Some(&wanted) {
            return false;
        }
    }
    true
}

// Bytes, their pages, and pages of no account. Contracts see it as the bytes.
#[derive(Drop)]
struct Row {
    bytes: Vec<u8>,
    pages: Option<Pages>,
    spare: Pages,
}

impl Model for Row {
    ghost use Rattle.asc_pages.specs.Pages.{Tells, base_bytes};
    ghost use Rattle.std.specs.Prelude.{◌<◌, ◌^◌, List, ℕ, length};

    ghost Value = { List ℕ };

    ghost view = { λ r. r.bytes.items };

    ghost invariant = { λ r. (length r.bytes.items < 2 ^ 32) × Tells (base_bytes r.pages) r.bytes.items };
}

// Pages over those of two changes before, where up to seven pages are changed, the last one three times. Then over shared ones.
#[test]
fn renewals_in_a_row(rt: HostRuntime) {
    let mut row = first_row(rt.alloc(), 70_000).expect(&rt, "memory");
    for p in [3, 40, 66, 35, 1, 10, 64, 64, 64] {
        row = next_row(rt.alloc(), row, p).expect(&rt, "memory");
        assert!(rt; is_told(&row.pages, &row.bytes), "page {p}");
    }
    let mut bytes = Vec::new(rt.alloc());
    bytes.extend_from_slice(&row.bytes).expect(&rt, "memory");
    let pages = share(&row.pages);
    for p in [9, 64] {
        row = next_row(rt.alloc(), row, p).expect(&rt, "memory");
        assert!(rt; is_told(&row.pages, &row.bytes), "page {p}");
    }
    assert!(rt; is_told(&pages, &bytes));
}

// Bytes of which the last one is 9 and the others are 7.
fn first_row(alloc: Global, len: usize) -> Option<Row> {
    if len == 0 || len >= 1 << 20 {
        return None;
    }
    made_row(alloc, len).ok()
}

fn made_row(alloc: Global, len: usize) -> Result<Row, Memory>
    requires least { 0 < len }
    requires most { len < 2 ^ 20 }
{
    let mut bytes = vec![in alloc; 7; len]?;
    bytes[len - 1] = 9;
    let mut dirty = DirtyPages::new(alloc, len / PAGE + 1)?;
    dirty.add_all();
    let spare = Pages::none(alloc)?;
    let pages = Pages::of(alloc, &bytes, &dirty, &None)?;
    Ok(Row {
        bytes,
        pages: Some(pages),
        spare,
    })
}

// Changes page p, and makes the spare pages those of the bytes. The pages that they had are the next spare ones.
fn next_row(alloc: Global, row: Row, p: usize) -> Option<Row> {
    if p >= row.bytes.len() / PAGE {
        return None;
    }
    changed_row(alloc, row, p).ok()
}

fn changed_row(alloc: Global, row: Row, p: usize) -> Result<Row, Memory>
    requires { 1024 * p + 1024 ≤ length row }
{
    let mut bytes = row.bytes;
    let mut dirty = DirtyPages::new(alloc, bytes.len() / PAGE + 1)?;
    dirty.add(p);
    bytes[p * PAGE + FRONT] = bytes[p * PAGE + FRONT].wrapping_add(1);
    let mut pages = row.spare;
    pages.renew(alloc, &bytes, &dirty, &row.pages)?;
    let spare = match row.pages {
        Some(pages) => pages,
        None => Pages::none(alloc)?,
    };
    Ok(Row {
        bytes,
        pages: Some(pages),
        spare,
    })
}

fn share(pages: &Option<Pages>) -> Option<Pages> {
    match pages {
        Some(pages) => pages.share().ok(),
        None => None,
    }
}

// Whether these are the pages of bytes of which none is 0.
fn is_told(pages: &Option<Pages>, bytes: &[u8]) -> bool {
    let Some(pages) = pages else {
        return false;
    };
    for place in FRONT..bytes.len() {
        if pages.page(place / PAGE).get(place % PAGE) != bytes.get(place) {
            return false;
        }
    }
    true
}

#[test]
fn no_pages(rt: HostRuntime) {
    let pages = Pages::none(rt.alloc()).expect(&rt, "memory");
    assert!(rt; pages.page(0).is_empty());
    assert_eq!(rt; pages.word(4096), 0);
}

#[test]
fn dirty_pages(rt: HostRuntime) {
    let mut dirty = DirtyPages::new(rt.alloc(), 70).expect(&rt, "memory");
    assert!(rt; dirty.is_clear());
    for (p, count) in [(69, 1), (0, 2), (69, 2), (32, 3), (31, 4)] {
        add(&mut dirty, p);
        assert!(rt; is_dirty(&dirty, p) && !is_dirty(&dirty, 33) && !dirty.is_clear());
        assert_eq!(rt; dirty.count(), count);
    }
    clear(&mut dirty);
    assert!(rt; dirty.is_clear() && dirty.count() == 0);
    dirty.add_all();
    assert!(rt; is_dirty(&dirty, 33) && dirty.count() == 70);
    clear(&mut dirty);
    assert_eq!(rt; dirty.count(), 0);
    for p in 0..70 {
        assert!(rt; !is_dirty(&dirty, p), "page {p}");
    }
}

fn add(dirty: &mut DirtyPages, p: usize) {
    if p < dirty.len() {
        dirty.add(p);
    }
}

fn is_dirty(dirty: &DirtyPages, p: usize) -> bool {
    p < dirty.len() && dirty.is_dirty(p)
}

fn clear(dirty: &mut DirtyPages) {
    if dirty.len() == 70 {
        dirty.clear();
    }
}
