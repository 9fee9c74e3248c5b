ghost use Rattle.std.specs.Prelude.{◌≡◌, ℕ, true, ◌+◌, ◌*◌, ◌/◌, ◌%◌, ◌^◌, ◌<◌, ◌≤◌, ◌==◌, ◌||◌, Bool, [], ◌++◌, All, IfOk, filter, count_ones, length, map, slice_index, sum_by, take, vec_capacity, vec_len};
ghost use Rattle.std.specs.Int.{bit_at};
ghost use Rattle.std.specs.List.{list_any};
ghost use Rattle.std.specs.List.Sorted.{IsNonDecreasingBy};
ghost use Rattle.asc_model.specs.Places.{places_from};
ghost use Rattle.asc_depvec.specs.Tracer.{places_of, places_of_item};
ghost use Rattle.asc_depvec.specs.Bits.{AreListed, AreNoted, block_at, has_bit, has_word, live};
ghost use Rattle.asc_depvec.specs.Inside.{is_bit_of};

use std::alloc::{AllocError, Global};

/// Some of 64 words in a row.
#[derive(Clone, Copy, Debug)]
pub struct Block {
    /// The number of the first of the 64 words.
    pub first: u32,
    /// A bit for each of the 64 words, the lowest one for the first.
    pub bits: u64,
}

/// Sets the bits of the words in which the places of items stand, where no bit was set. For each block of these bits it
/// sets the bit in `groups`, and lists the blocks of `groups`.
#[inline]
pub(crate) fn set_items(blocks: &mut [u64], groups: &mut [u64], used: &mut Vec<u32>, items: &[u32])
    requires within { All (λ place. place / 256 < length blocks.old) (places_of items.now) }
    requires low { All (λ place. place < 2 ^ 30) (places_of items.now) }
    requires groups { length blocks.old ≤ 64 * length groups.old }
    requires clear { (block : ℕ) → slice_index blocks.old block ≡ 0 }
    requires clear_groups { (group : ℕ) → slice_index groups.old group ≡ 0 }
    requires none { used.old.items ≡ [] }
    requires room { length groups.old ≤ vec_capacity used.old }
    ensures bits { (word : ℕ) → has_word blocks.new word
        ≡ list_any (λ place. place / 4 == word) (places_of items.now) }
    ensures noted { AreNoted blocks.new groups.new used.new.items }
    ensures capacity { vec_capacity used.new ≡ vec_capacity used.old }
{
    let mut at = 0;
    while at < items.len() {
        let item = items[at];
        set_item(blocks, groups, used, item);
        let (bits, next) = bits_of(items, at + 1, item / 512 * 512 + 1);
        set_bits(blocks, groups, used, item / 512, bits);
        at = next;
    }
}

// The bits of the items from one on that are for words of one block, and the number of the first other item. `first` is
// the item of the block's first word.
#[inline]
fn bits_of(items: &[u32], from: usize, first: u32) -> (u64, usize)
    requires from { from ≤ length items.now }
    requires first { first % 512 ≡ 1 }
    ensures least { from ≤ result.1 }
    ensures most { result.1 ≤ length items.now }
    ensures bits { (word : ℕ) → list_any (λ place. place / 4 == word) (places_of (take result.1 items.now))
        ≡ (list_any (λ place. place / 4 == word) (places_of (take from items.now)) || is_bit_of (first / 512) result.0 word) }
{
    let mut bits = 0;
    let mut at = from;
    while at < items.len() {
        // Of the item of a word of that block this is the word's number in it, and of any other it is 64 or more.
        let word = items[at].wrapping_sub(first).rotate_right(3);
        if word >= 64 {
            break;
        }
        bits |= 1 << word;
        at += 1;
    }
    (bits, at)
}

// Sets these bits of a block.
#[inline]
fn set_bits(blocks: &mut [u64], groups: &mut [u64], used: &mut Vec<u32>, block: u32, bits: u64)
    requires within { (bits ≡ 0 → ⊥) → block < length blocks.old }
    requires groups { length blocks.old ≤ 64 * length groups.old }
    requires noted { AreNoted blocks.old groups.old used.old.items }
    requires room { length groups.old ≤ vec_capacity used.old }
    ensures bits { (word : ℕ) → has_word blocks.new word ≡ (has_word blocks.old word || is_bit_of block bits word) }
    ensures noted { AreNoted blocks.new groups.new used.new.items }
    ensures capacity { vec_capacity used.new ≡ vec_capacity used.old }
{
    if bits != 0 {
        let before = blocks[block as usize];
        note(groups, used, block, before);
        blocks[block as usize] = before | bits;
    }
}

// Sets the bits of the words in which the places of an item stand.
#[inline]
fn set_item(blocks: &mut [u64], groups: &mut [u64], used: &mut Vec<u32>, item: u32)
    requires within { All (λ place. place / 256 < length blocks.old) (places_of_item item) }
    requires low { All (λ place. place < 2 ^ 30) (places_of_item item) }
    requires groups { length blocks.old ≤ 64 * length groups.old }
    requires noted { AreNoted blocks.old groups.old used.old.items }
    requires room { length groups.old ≤ vec_capacity used.old }
    ensures bits { (word : ℕ) → has_word blocks.new word
        ≡ (has_word blocks.old word || list_any (λ place. place / 4 == word) (places_of_item item)) }
    ensures noted { AreNoted blocks.new groups.new used.new.items }
    ensures capacity { vec_capacity used.new ≡ vec_capacity used.old }
{
    let place = item / 2;
    set_word(blocks, groups, used, place / 4);
    if place % 4 != 0 && item % 2 == 1 {
        set_word(blocks, groups, used, place / 4 + 1);
    }
}

// Sets the bit of a word.
#[inline]
fn set_word(blocks: &mut [u64], groups: &mut [u64], used: &mut Vec<u32>, word: u32)
    requires within { word / 64 < length blocks.old }
    requires groups { length blocks.old ≤ 64 * length groups.old }
    requires noted { AreNoted blocks.old groups.old used.old.items }
    requires room { length groups.old ≤ vec_capacity used.old }
    ensures bits { (other : ℕ) → has_word blocks.new other ≡ (has_word blocks.old other || word == other) }
    ensures noted { AreNoted blocks.new groups.new used.new.items }
    ensures capacity { vec_capacity used.new ≡ vec_capacity used.old }
{
    set_bits(blocks, groups, used, word / 64, 1 << (word % 64));
}

// Sets the bit of a block in `groups`, which it has where the block is not 0.
#[inline]
fn note(groups: &mut [u64], used: &mut Vec<u32>, block: u32, before: u64)
    requires within { block / 64 < length groups.old }
    requires had { (before ≡ 0 → ⊥) → has_word groups.old block ≡ true }
    requires listed { AreListed groups.old used.old.items }
    requires used { All (λ group. group < length groups.old) used.old.items }
    requires few { length used.old.items ≤ live groups.old }
    requires room { length groups.old ≤ vec_capacity used.old }
    ensures bits { (other : ℕ) → has_word groups.new other ≡ (has_word groups.old other || block == other) }
    ensures listed { AreListed groups.new used.new.items }
    ensures used { All (λ group. group < length groups.new) used.new.items }
    ensures few { length used.new.items ≤ live groups.new }
    ensures capacity { vec_capacity used.new ≡ vec_capacity used.old }
{
    if before != 0 {
        return;
    }
    set_block(groups, used, block);
}

// Sets the bit of a block, and lists its group where that had none.
fn set_block(groups: &mut [u64], used: &mut Vec<u32>, block: u32)
    requires within { block / 64 < length groups.old }
    requires listed { AreListed groups.old used.old.items }
    requires used { All (λ group. group < length groups.old) used.old.items }
    requires few { length used.old.items ≤ live groups.old }
    requires room { length groups.old ≤ vec_capacity used.old }
    ensures bits { (other : ℕ) → has_word groups.new other ≡ (has_word groups.old other || block == other) }
    ensures listed { AreListed groups.new used.new.items }
    ensures used { All (λ group. group < length groups.new) used.new.items }
    ensures few { length used.new.items ≤ live groups.new }
    ensures capacity { vec_capacity used.new ≡ vec_capacity used.old }
{
    let group = block / 64;
    let before = groups[group as usize];
    if before == 0 {
        used.push_reserved(group);
    }
    groups[group as usize] = before | 1 << (block % 64);
}

/// Takes the blocks that have a bit, rising: all are 0 again, with memory or without.
#[inline]
pub(crate) fn take_blocks(
    alloc: Global,
    blocks: &mut [u64],
    groups: &mut [u64],
    used: &[u32],
) -> Result<Vec<Block>, AllocError>
    requires few { length used.now ≤ 2 ^ 32 }
    requires low { 64 * length groups.old ≤ 2 ^ 26 }
    requires groups { length blocks.old ≡ 64 * length groups.old }
    requires noted { AreNoted blocks.old groups.old used.now }
    requires rising { IsNonDecreasingBy (λ group. group) used.now }
    ensures blocks { IfOk result (λ found. found.items
        ≡ map (block_at blocks.old) (filter (has_word groups.old) (places_from 0 (64 * length groups.old)))) }
    ensures clear { (block : ℕ) → slice_index blocks.new block ≡ 0 }
    ensures clear_groups { (group : ℕ) → slice_index groups.new group ≡ 0 }
{
    let found = blocks_of(alloc, blocks, groups, used);
    clear(groups, used);
    match found {
        Ok(found) => {
            clear_blocks(blocks, &found);
            Ok(found)
        }
        Err(error) => {
            clear_all(blocks);
            Err(error)
        }
    }
}

// The blocks that have a bit, rising.
#[inline]
fn blocks_of(
    alloc: Global,
    blocks: &[u64],
    groups: &[u64],
    used: &[u32],
) -> Result<Vec<Block>, AllocError>
    requires few { length used.now ≤ 2 ^ 32 }
    requires low { 64 * length groups.now ≤ 2 ^ 26 }
    requires groups { length blocks.now ≡ 64 * length groups.now }
    requires listed { AreListed groups.now used.now }
    requires used { All (λ group. group < length groups.now) used.now }
    requires rising { IsNonDecreasingBy (λ group. group) used.now }
    ensures { IfOk result (λ found. found.items
        ≡ map (block_at blocks.now) (filter (has_word groups.now) (places_from 0 (64 * length groups.now)))) }
{
    let mut found = Vec::with_capacity(alloc, count_blocks(groups, used))?;
    // All groups before it are done.
    let mut next = 0;
    for &group in used {
        if group >= next {
            push_blocks(blocks, groups[group as usize], 64 * group, &mut found);
            next = group + 1;
        }
    }
    Ok(found)
}

// How many blocks groups have, each as often as it is listed.
#[inline]
fn count_blocks(groups: &[u64], used: &[u32]) -> usize
    requires few { length used.now ≤ 2 ^ 32 }
    requires used { All (λ group. group < length groups.now) used.now }
    ensures { result ≡ sum_by (λ group. count_ones (slice_index groups.now group)) used.now }
{
    let mut count = 0;
    for &group in used {
        count += ones(groups[group as usize]);
    }
    count
}

// How many bits are set.
#[inline]
fn ones(bits: u64) -> usize
    ensures ones { result ≡ count_ones bits }
    ensures most { result ≤ 64 }
{
    bits.count_ones() as usize
}

// Puts the blocks of a group whose bits are set behind others.
#[inline]
fn push_blocks(blocks: &[u64], group: u64, from: u32, found: &mut Vec<Block>)
    requires within { from + 64 ≤ length blocks.now }
    requires low { length blocks.now ≤ 2 ^ 26 }
    requires room { vec_len found.old + count_ones group ≤ vec_capacity found.old }
    ensures blocks { found.new.items
        ≡ found.old.items ++ map (block_at blocks.now) (filter (has_bit group from) (places_from from 64)) }
    ensures few { vec_len found.new ≤ vec_len found.old + count_ones group }
    ensures capacity { vec_capacity found.new ≡ vec_capacity found.old }
{
    let mut rest = group;
    let mut at = 0;
    while rest != 0 {
        let skip = rest.trailing_zeros();
        at += skip;
        let block = from + at;
        found.push_reserved(Block {
            first: 64 * block,
            bits: blocks[block as usize],
        });
        rest = (rest >> skip) >> 1;
        at += 1;
    }
}

// Makes the listed blocks of a map 0 again.
#[inline]
fn clear(blocks: &mut [u64], used: &[u32])
    requires listed { AreListed blocks.old used.now }
    requires used { All (λ block. block < length blocks.old) used.now }
    ensures { (block : ℕ) → slice_index blocks.new block ≡ 0 }
{
    for &block in used {
        blocks[block as usize] = 0;
    }
}

// Makes the blocks that were found 0 again.
#[inline]
fn clear_blocks(blocks: &mut [u64], found: &[Block])
    requires listed { AreListed blocks.old (map (λ block. block.first / 64) found.now) }
    requires used { All (λ block. block.first / 64 < length blocks.old) found.now }
    ensures { (block : ℕ) → slice_index blocks.new block ≡ 0 }
{
    for block in found {
        blocks[(block.first / 64) as usize] = 0;
    }
}

// Makes all blocks 0, where memory for a list of them is wanting.
#[cold]
#[inline(never)]
fn clear_all(blocks: &mut [u64])
    ensures { (block : ℕ) → slice_index blocks.new block ≡ 0 }
{
    for block in blocks.iter_mut() {
        *block = 0;
    }
}
