ghost use Rattle.std.specs.Prelude.{◌≡◌, ◌==◌, ◌+◌, ◌<◌, ◌≤◌, ◌*◌, All, true, false, drop, length, slice_index};
ghost use Rattle.std.specs.List.{list_all};
ghost use Rattle.asc_traj.specs.Content.{matches};
ghost use Rattle.std.specs.Ordering.{nat_cmp};
ghost use Rattle.std.specs.Cmp.Lexicographic.{slice_cmp};
ghost use Rattle.asc_model.specs.Shape.{length_of};
ghost use Rattle.asc_traj.specs.Parts.{IsPart, all_cells, cells_from, part_cells, word_place};
ghost use Rattle.asc_shard.specs.Inside.{bytes_at, bytes_of, compare_with, key_of, places_of, rank_of, by_all, by_group, by_shape};

use asc_model::Version;
use asc_shape::{Shape, State};
use asc_traj::{Entry, Part, has_parts, next_cell};
use std::cmp::Ordering;

/// Which of two entries of one key is first in the index.
pub fn compare_alike(a: &Entry, b: &Entry) -> Ordering
    requires { key_of a.now ≡ key_of b.now }
    ensures { result ≡ by_all a.now b.now }
{
    compare_groups(a, b)
        .then_with(|| compare_bytes(a.reads(), b.reads()))
        .then_with(|| a.steps().cmp(&b.steps()))
}

/// Which of two entries is of the first group: equal where both are of one shape and one list of read places.
pub fn compare_groups(a: &Entry, b: &Entry) -> Ordering
    ensures { result ≡ by_group a.now b.now }
{
    compare_shapes(a.shape(), b.shape()).then_with(|| compare_places(a.reads(), b.reads()))
}

fn compare_shapes(a: Shape, b: Shape) -> Ordering
    ensures { result ≡ by_shape a b }
{
    a.base()
        .cmp(&b.base())
        .then(a.size().cmp(&b.size()))
        .then(rank_of(a.version()).cmp(&rank_of(b.version())))
}

fn rank_of(version: Version) -> u8
    ensures { result ≡ rank_of version }
{
    match version {
        Version::One => 1,
        Version::Two => 2,
    }
}

/// Which places are first, as in a dictionary. Words of which both have the same bytes are passed over.
fn compare_places(a: &[Part], b: &[Part]) -> Ordering
    ensures { result ≡ slice_cmp nat_cmp (places_of (all_cells a.now)) (places_of (all_cells b.now)) }
{
    let mut i = 0;
    while i < a.len() && i < b.len() && a[i].at == b[i].at {
        i += 1;
    }
    compare_places_from(a, b, 4 * i)
}

/// The same from a byte on, place by place.
#[inline(never)]
fn compare_places_from(a: &[Part], b: &[Part], from: usize) -> Ordering
    requires a { from ≤ 4 * length a.now }
    requires b { from ≤ 4 * length b.now }
    ensures { result ≡ slice_cmp nat_cmp (places_of (cells_from a.now from)) (places_of (cells_from b.now from)) }
{
    let mut at = from;
    let mut other = from;
    loop {
        match (next_cell(a, at), next_cell(b, other)) {
            (Some(first), Some(second)) => {
                if first.place != second.place {
                    return first.place.cmp(&second.place);
                }
                at = first.next;
                other = second.next;
            }
            (None, None) => return Ordering::Equal,
            (None, Some(_)) => return Ordering::Less,
            (Some(_), None) => return Ordering::Greater,
        }
    }
}

/// Which bytes are first, as in a dictionary. Words that are the same are passed over.
fn compare_bytes(a: &[Part], b: &[Part]) -> Ordering
    ensures { result ≡ slice_cmp nat_cmp (bytes_of (all_cells a.now)) (bytes_of (all_cells b.now)) }
{
    let mut i = 0;
    while i < a.len() && i < b.len() && a[i].word == b[i].word && a[i].at == b[i].at {
        i += 1;
    }
    compare_bytes_from(a, b, 4 * i)
}

/// The same from a byte on, byte by byte.
#[inline(never)]
fn compare_bytes_from(a: &[Part], b: &[Part], from: usize) -> Ordering
    requires a { from ≤ 4 * length a.now }
    requires b { from ≤ 4 * length b.now }
    ensures { result ≡ slice_cmp nat_cmp (bytes_of (cells_from a.now from)) (bytes_of (cells_from b.now from)) }
{
    let mut at = from;
    let mut other = from;
    loop {
        match (next_cell(a, at), next_cell(b, other)) {
            (Some(first), Some(second)) => {
                if first.byte != second.byte {
                    return first.byte.cmp(&second.byte);
                }
                at = first.next;
                other = second.next;
            }
            (None, None) => return Ordering::Equal,
            (None, Some(_)) => return Ordering::Less,
            (Some(_), None) => return Ordering::Greater,
        }
    }
}

/// Which are first, the bytes that an entry reads or those that a state of its shape has at their places.
pub fn compare_with(entry: &Entry, state: &State) -> Ordering
    requires { entry.now.shape ≡ state.now.shape }
    ensures { result ≡ compare_with entry.now state.now }
{
    entry.truth();
    compare_parts(entry.reads(), state)
}

/// The same of parts.
#[inline]
fn compare_parts(parts: &[Part], state: &State) -> Ordering
    requires parts { All IsPart parts.now }
    requires within { All (λ part. word_place part + 4 ≤ length_of state.now.shape) parts.now }
    ensures { result ≡ slice_cmp nat_cmp (bytes_of (all_cells parts.now)) (bytes_at state.now (all_cells parts.now)) }
{
    compare_parts_from(parts, state, 4 * count_alike(parts, state))
}

/// The same from a byte on, byte by byte.
#[inline(never)]
fn compare_parts_from(parts: &[Part], state: &State, from: usize) -> Ordering
    requires from { from ≤ 4 * length parts.now }
    requires within { All (λ cell. cell.0 < length_of state.now.shape) (cells_from parts.now from) }
    ensures { result ≡ slice_cmp nat_cmp (bytes_of (cells_from parts.now from))
        (bytes_at state.now (cells_from parts.now from)) }
{
    let mut at = from;
    while let Some(cell) = next_cell(parts, at) {
        let byte = state.get(cell.place);
        if cell.byte != byte {
            return cell.byte.cmp(&byte);
        }
        at = cell.next;
    }
    Ordering::Equal
}

/// Whether a state has all that an entry of its shape reads. Its parts from one on are compared before the others.
pub fn has_reads(entry: &Entry, state: &State, from: usize) -> bool
    requires { entry.now.shape ≡ state.now.shape }
    ensures { result ≡ matches state.now entry.now }
{
    entry.truth();
    let parts = entry.reads();
    let middle = if from < parts.len() { from } else { 0 };
    has_parts(state, &parts[middle..]) && has_parts(state, &parts[..middle])
}

/// A part that a state had not, of what the last entry reads that was compared with it. The next ones are tried at it first.
#[derive(Clone, Copy, Debug)]
pub struct Unlike {
    // Its word and bytes, as in a part. 0 where there was none.
    pub at: u32,
    // How many parts stood before it.
    pub number: usize,
}

/// Whether a state surely has not all that an entry reads: it is of another shape, or has not the part where another differed.
#[inline]
pub fn lacks(state: &State, entry: &Entry, unlike: Unlike) -> bool
    ensures { result ≡ true → matches state.now entry.now ≡ false }
{
    if entry.shape() != state.shape() {
        return true;
    }
    entry.truth();
    let parts = entry.reads();
    let number = number_of(parts, unlike);
    number < parts.len() && !parts[number].is_in(state)
}

/// Which part is to be tried, where there is one: mostly it stands behind as many as before.
#[inline]
fn number_of(parts: &[Part], unlike: Unlike) -> usize {
    let number = unlike.number;
    if number < parts.len() && parts[number].at == unlike.at {
        return number;
    }
    parts.partition_point(|part| part.at < unlike.at)
}

/// The first part that an entry reads and a state has not.
pub fn first_unlike(entry: &Entry, state: &State) -> Unlike {
    let none = Unlike { at: 0, number: 0 };
    if entry.shape() != state.shape() {
        return none;
    }
    entry.truth();
    let parts = entry.reads();
    let number = count_alike(parts, state);
    match parts.get(number) {
        Some(part) => Unlike {
            at: part.at,
            number,
        },
        None => none,
    }
}

/// How many of these parts a state has, up to the first that it has not. They tell nothing of which bytes are first.
#[inline]
fn count_alike(parts: &[Part], state: &State) -> usize
    requires parts { All IsPart parts.now }
    requires within { All (λ part. word_place part + 4 ≤ length_of state.now.shape) parts.now }
    ensures few { result ≤ length parts.now }
    ensures rest { slice_cmp nat_cmp (bytes_of (all_cells parts.now)) (bytes_at state.now (all_cells parts.now))
        ≡ slice_cmp nat_cmp (bytes_of (all_cells (drop result parts.now))) (bytes_at state.now (all_cells (drop result parts.now))) }
{
    let mut i = 0;
    while i < parts.len() && parts[i].is_in(state) {
        i += 1;
    }
    i
}
