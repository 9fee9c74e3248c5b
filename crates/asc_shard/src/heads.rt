ghost use Rattle.std.specs.Prelude.{◌≡◌, ℕ, ◌+◌, ◌^◌, ◌<◌, ◌≤◌, All, length, map, take, true, slice_index_or, vec_len, vec_capacity};
ghost use Rattle.std.specs.List.{AllPairs, insert, remove};
ghost use Rattle.asc_traj.specs.Parts.{all_cells};
ghost use Rattle.asc_shard.specs.Inside.{AreHeads, IsBeginning, IsHead, count_at, key_of, places_of, runs, total, word_places};

use crate::key::first_parts;
use asc_traj::{Entry, Part};

/// A list of first places that entries read, and how many entries do.
#[derive(Clone, Copy, Debug)]
pub struct Head {
    // The places, as bits.
    pub mask: u128,
    // At least one.
    pub count: usize,
    // Their words, so many of them, where the places are whole words, and else none.
    pub words: [u8; 32],
    pub len: usize,
}

/// Where the entries of a list of first places begin in an index, or would.
#[derive(Clone, Copy, Debug)]
pub struct Beginning {
    // Its head, where it has one, and else the first of a higher mask.
    pub head: usize,
    pub known: bool,
    // How many entries stand before, and before the next head.
    pub from: usize,
    pub next: usize,
}

/// Where the entries of a mask begin.
pub fn beginning_of(heads: &[Head], mask: u128) -> Beginning
    requires heads { AreHeads heads.now }
    requires few { total heads.now < 2 ^ 32 }
    ensures { IsBeginning heads.now mask result }
{
    let mut head = 0;
    let mut from = 0;
    while head < heads.len() && heads[head].mask < mask {
        from += heads[head].count;
        head += 1;
    }
    let known = head < heads.len() && heads[head].mask == mask;
    let next = if known {
        from + heads[head].count
    } else {
        from
    };
    Beginning {
        head,
        known,
        from,
        next,
    }
}

/// One entry more of a mask.
pub fn raise(heads: &mut Vec<Head>, beginning: Beginning, entry: &Entry, mask: u128)
    requires room { vec_len heads.old < vec_capacity heads.old }
    requires few { total heads.old.items < 2 ^ 32 }
    requires heads { AreHeads heads.old.items }
    requires mask { mask ≡ (key_of entry.now).mask }
    requires beginning { IsBeginning heads.old.items mask beginning }
    ensures runs { (at : ℕ) → beginning.from ≤ at → at ≤ beginning.next
        → runs heads.new.items ≡ insert (runs heads.old.items) at mask }
    ensures heads { AreHeads heads.new.items }
    ensures capacity { vec_capacity heads.new ≡ vec_capacity heads.old }
{
    if beginning.known {
        heads[beginning.head].count += 1;
    } else {
        // There is room for it.
        let _ = heads.insert(beginning.head, head_of(entry, mask));
    }
}

/// One entry less of the mask of a head.
pub fn lower(heads: &mut Vec<Head>, head: usize)
    requires some { head < length heads.old.items }
    requires heads { AreHeads heads.old.items }
    ensures runs { (at : ℕ) → total (take head heads.old.items) ≤ at
        → at < total (take head heads.old.items) + count_at heads.old.items head
        → runs heads.new.items ≡ remove (runs heads.old.items) at }
    ensures heads { AreHeads heads.new.items }
    ensures capacity { vec_capacity heads.new ≡ vec_capacity heads.old }
{
    if heads[head].count > 1 {
        heads[head].count -= 1;
    } else {
        heads.remove(head);
    }
}

/// The head of an entry's mask, with that entry alone.
fn head_of(entry: &Entry, mask: u128) -> Head
    requires { mask ≡ (key_of entry.now).mask }
    ensures mask { result.mask ≡ mask }
    ensures count { result.count ≡ 1 }
    ensures head { IsHead result }
{
    entry.truth();
    let (words, len) = words_of(first_parts(entry));
    Head {
        mask,
        count: 1,
        words,
        len,
    }
}

/// The words of parts, and how many there are, or none where one is not whole.
fn words_of(parts: &[Part]) -> ([u8; 32], usize)
    requires { All (λ part. part.at < 512) parts.now }
    ensures fit { result.1 ≤ length result.0 }
    ensures low { All (λ word. word < 32) (take result.1 result.0) }
    ensures places { 0 < result.1 → places_of (all_cells parts.now) ≡ word_places (take result.1 result.0) }
{
    let mut words = [0; 32];
    let mut len = 0;
    while len < parts.len() {
        if len == words.len() || parts[len].at % 16 != 15 {
            return (words, 0);
        }
        words[len] = (parts[len].at / 16) as u8;
        len += 1;
    }
    (words, len)
}
