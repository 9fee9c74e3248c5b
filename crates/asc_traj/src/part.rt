ghost use Rattle.std.specs.Prelude.{◌≡◌, ◌==◌, ◌+◌, ◌*◌, ◌%◌, ◌^◌, ◌<◌, ◌≤◌, ◌++◌, All, true, slice_index, vec_capacity, vec_len};
ghost use Rattle.std.specs.List.{list_all};
ghost use Rattle.asc_model.specs.Shape.{length_of};
ghost use Rattle.asc_model.specs.Number.{word_at};
ghost use Rattle.asc_model.specs.Places.{bytes_after};
ghost use Rattle.asc_traj.specs.Parts.{IsPart, all_cells, kept, masked, part_cells, word_place};

use asc_shape::State;

/// Some of the four bytes of an aligned word of a state.
#[derive(Clone, Copy, Debug)]
pub struct Part {
    /// 16 times the number of the word, and a bit for each of the bytes, the lowest bit for the first.
    pub at: u32,
    /// The bytes as a number, the first one lowest, and 0 for the others.
    pub word: u32,
}

// For each mask of four bytes all bits of them.
static BYTES: [u32; 16] = [
    0,
    0xFF,
    0xFF00,
    0xFFFF,
    0xFF_0000,
    0xFF_00FF,
    0xFF_FF00,
    0xFF_FFFF,
    0xFF00_0000,
    0xFF00_00FF,
    0xFF00_FF00,
    0xFF00_FFFF,
    0xFFFF_0000,
    0xFFFF_00FF,
    0xFFFF_FF00,
    0xFFFF_FFFF,
];

impl Part {
    /// The place of the first byte of its word.
    #[inline]
    pub fn place(&self) -> u32
        ensures place { result ≡ word_place self.now }
        ensures most { result < 2 ^ 30 }
    {
        self.at / 16 * 4
    }

    /// Its bytes of a state as a number, and 0 for the others.
    #[inline]
    pub fn of(&self, state: &State) -> u32
        requires { word_place self.now + 4 ≤ length_of state.now.shape }
        ensures { result ≡ kept 4 (self.now.at % 16) (word_at state.now.bytes (word_place self.now)) }
    {
        kept(self.at % 16, state.word(self.at / 16 * 4))
    }

    /// Whether a state has its bytes.
    #[inline]
    pub fn is_in(&self, state: &State) -> bool
        requires part { IsPart self.now }
        requires within { word_place self.now + 4 ≤ length_of state.now.shape }
        ensures { result ≡ list_all (λ cell. slice_index state.now.bytes cell.0 == cell.1) (part_cells self.now) }
    {
        // That its bytes are bytes.
        let _ = state.shape();
        self.of(state) == self.word
    }

    // Whether the whole word is the same. If so the state has its bytes, and no mask is needed to see it.
    #[inline(always)]
    fn is_word_of(&self, state: &State) -> bool
        requires part { IsPart self.now }
        requires within { word_place self.now + 4 ≤ length_of state.now.shape }
        ensures { result ≡ true
            → list_all (λ cell. slice_index state.now.bytes cell.0 == cell.1) (part_cells self.now) ≡ true }
    {
        // That its bytes are bytes.
        let _ = state.shape();
        state.word(self.at / 16 * 4) == self.word
    }

    /// Puts its bytes into a state.
    #[inline]
    pub fn put(&self, state: &mut State)
        requires { word_place self.now + 4 ≤ length_of state.old.shape }
        ensures { state.new ≡ record state.old { bytes = bytes_after state.old.bytes (part_cells self.now) } }
    {
        // That it is a state.
        let _ = state.shape();
        if self.at % 16 == 15 {
            state.set_word(self.at / 16 * 4, self.word);
        } else {
            put_bytes(state, self.at / 16 * 4, self.at % 16, self.word);
        }
    }
}

/// Those of the four bytes of a word that a mask has, and 0 for the others.
#[inline]
pub(crate) fn kept(mask: u32, word: u32) -> u32
    requires { mask < 16 }
    ensures { result ≡ kept 4 mask word }
{
    word & BYTES[mask as usize]
}

/// Whether a state has each of these parts. The first one tells most of those that it does not have.
#[inline]
pub fn has_parts(state: &State, parts: &[Part]) -> bool
    requires parts { All IsPart parts.now }
    requires within { All (λ part. word_place part + 4 ≤ length_of state.now.shape) parts.now }
    ensures { result ≡ list_all (λ part. list_all (λ cell. slice_index state.now.bytes cell.0 == cell.1)
        (part_cells part)) parts.now }
{
    match parts.split_first() {
        Some((first, rest)) => first.is_in(state) && has_fours(state, rest),
        None => true,
    }
}

// Whether a state has each of these parts. Four are compared at once, mostly by their whole words.
#[inline(always)]
fn has_fours(state: &State, parts: &[Part]) -> bool
    requires parts { All IsPart parts.now }
    requires within { All (λ part. word_place part + 4 ≤ length_of state.now.shape) parts.now }
    ensures { result ≡ list_all (λ part. list_all (λ cell. slice_index state.now.bytes cell.0 == cell.1)
        (part_cells part)) parts.now }
{
    let mut rest = parts;
    while let Some((four, behind)) = rest.split_first_chunk::<4>() {
        if !has_four(state, four) {
            return false;
        }
        rest = behind;
    }
    has_each(state, rest)
}

// Whether a state has each of four parts.
#[inline(always)]
fn has_four(state: &State, four: &[Part; 4]) -> bool
    requires parts { All IsPart four.now }
    requires within { All (λ part. word_place part + 4 ≤ length_of state.now.shape) four.now }
    ensures { result ≡ list_all (λ part. list_all (λ cell. slice_index state.now.bytes cell.0 == cell.1)
        (part_cells part)) four.now }
{
    let [a, b, c, d] = four;
    a.is_word_of(state) & b.is_word_of(state) & c.is_word_of(state) & d.is_word_of(state)
        || has_each(state, four)
}

// Whether a state has each of these parts, one by one.
#[cold]
#[inline(never)]
fn has_each(state: &State, parts: &[Part]) -> bool
    requires parts { All IsPart parts.now }
    requires within { All (λ part. word_place part + 4 ≤ length_of state.now.shape) parts.now }
    ensures { result ≡ list_all (λ part. list_all (λ cell. slice_index state.now.bytes cell.0 == cell.1)
        (part_cells part)) parts.now }
{
    for part in parts {
        if !part.is_in(state) {
            return false;
        }
    }
    true
}

// Puts those of the four bytes of a word that a mask has.
#[inline(never)]
fn put_bytes(state: &mut State, place: u32, mask: u32, word: u32)
    requires { place + 4 ≤ length_of state.old.shape }
    ensures { state.new ≡ record state.old { bytes = bytes_after state.old.bytes (masked 4 mask place word) } }
{
    // That it is a state.
    let _ = state.shape();
    let mut rest = mask;
    let mut left = word;
    for k in 0..4 {
        if rest % 2 == 1 {
            state.set(place + k, (left % 256) as u8);
        }
        rest /= 2;
        left /= 256;
    }
}

/// Puts those of the four bytes of a word that a mask has behind parts, where it has any.
#[inline]
pub(crate) fn push(parts: &mut Vec<Part>, index: u32, mask: u32, word: u32)
    requires index { index < 2 ^ 28 }
    requires mask { mask < 16 }
    requires parts { All IsPart parts.old.items }
    requires room { 0 < mask → vec_len parts.old < vec_capacity parts.old }
    ensures parts { All IsPart parts.new.items }
    ensures cells { all_cells parts.new.items ≡ all_cells parts.old.items ++ masked 4 mask (4 * index) word }
    ensures few { vec_len parts.new ≤ vec_len parts.old + 1 }
    ensures none { mask ≡ 0 → vec_len parts.new ≡ vec_len parts.old }
    ensures capacity { vec_capacity parts.new ≡ vec_capacity parts.old }
{
    if mask != 0 {
        parts.push_reserved(Part {
            at: 16 * index + mask,
            word: kept(mask, word),
        });
    }
}
