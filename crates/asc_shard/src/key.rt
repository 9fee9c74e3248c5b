ghost use Rattle.std.specs.Prelude.{sum_by, ◌≡◌, ℕ, ◌+◌, ◌*◌, ◌/◌, ◌%◌, ◌^◌, ◌<◌, ◌≤◌, All, Bool, false, length, slice_index, slice_index_or};
ghost use Rattle.asc_model.specs.Entry.{IsTrueEntry};
ghost use Rattle.asc_model.specs.Number.{word_at};
ghost use Rattle.asc_model.specs.Shape.{length_of};
ghost use Rattle.asc_traj.specs.Parts.{IsPart, all_cells};
ghost use Rattle.asc_shard.specs.Fingerprints.{factor, first_reads_of, fingerprint, print_in, print_of};
ghost use Rattle.asc_shard.specs.Inside.{AreProducts, key_of, mask_of, places_of};
ghost use Rattle.std.specs.List.Sorted.{IsStrictlyIncreasing};

use asc_shape::State;
use asc_traj::{Entry, Part};

// What each of the first words counts in a fingerprint: the powers of the first factor, modulo 2^64.
static FACTORS: [u64; 32] = [
    0x9E37_79B9_7F4A_7C15,
    0xDF44_2D22_CE48_59B9,
    0x604A_5CE3_ADDE_F82D,
    0xD943_63FC_5382_27B1,
    0x2E2B_795F_2D10_FD85,
    0x4BE7_956E_30A3_37E9,
    0x5ECB_31E4_CCD2_721D,
    0x06D4_B261_1BEB_6861,
    0x0F10_CD6A_9BE8_8BF5,
    0x80E0_DCF7_6DB0_2719,
    0x7790_23CF_069D_510D,
    0x4114_E343_9EEB_F211,
    0x8FC1_5A19_BA85_1765,
    0x5068_7085_A271_D749,
    0x82FE_791B_E9B8_04FD,
    0xF53F_7DFF_42A4_F4C1,
    0xC171_2BCB_DCDF_8FD5,
    0x204D_B59C_A693_F879,
    0xE1A2_1604_3077_FDED,
    0x07DD_E4BF_1258_A071,
    0x657D_F06E_DEA5_E545,
    0xFB5E_617F_1F9B_3AA9,
    0xB39A_FCD6_93FF_ABDD,
    0x761A_F329_4C1A_2521,
    0x3737_5913_02AB_07B5,
    0xA6A1_40EA_1515_4DD9,
    0xA09B_3202_342E_7ECD,
    0x590D_D8F2_277D_B2D1,
    0x3710_DF12_7F56_E725,
    0xF0F4_B4B9_B5C8_E209,
    0x196A_94FE_0490_E6BD,
    0xCDFB_8AFC_0548_7981,
];

/// A fingerprint of the bytes at some of the first 128 places, those of the pc and of the registers.
#[derive(Clone, Copy, Debug)]
pub struct Key {
    // The places, as bits.
    pub mask: u128,
    pub print: u64,
}

/// The key of the bytes that an entry reads at the first places.
pub fn key_of(entry: &Entry) -> Key
    ensures { result ≡ key_of entry.now }
{
    let parts = first_parts(entry);
    Key {
        mask: mask_of(parts),
        print: print_of(parts),
    }
}

/// The fingerprint of the bytes that a state has at the first places that an entry reads.
#[inline]
pub fn print_in(state: &State, entry: &Entry) -> u64
    ensures { result ≡ print_in state.now entry.now }
{
    entry.truth();
    // That it is a state.
    let _ = state.shape();
    let parts = entry.reads();
    let mut print = 0;
    let mut i = 0;
    while i < parts.len() && parts[i].at < 512 {
        print = added(print, parts[i].of(state), parts[i].at / 16);
        i += 1;
    }
    print
}

/// The fingerprint of whole words of a state.
#[inline]
pub fn print_of_state(state: &State, words: &[u8]) -> u64
    requires { All (λ word. word < 32) words.now }
    ensures { result ≡ sum_by (λ word. word_at state.now.bytes (word * 4) * factor word) words.now % 2 ^ 64 }
{
    // That it is a state.
    let _ = state.shape();
    let mut print = 0;
    for word in words {
        let word = u32::from(*word);
        print = added(print, state.word(4 * word), word);
    }
    print
}

/// What each of the first words of a state counts in a fingerprint.
pub fn products_of(state: &State) -> [u64; 32]
    ensures { AreProducts state.now result }
{
    // That it is a state.
    let _ = state.shape();
    let mut products = [0; 32];
    for i in 0..products.len() {
        products[i] = u64::wrapping_mul(u64::from(state.word(4 * i as u32)), factor(i));
    }
    products
}

/// The fingerprint of whole words, by what each counts.
#[inline]
pub fn print_of_words(products: &[u64; 32], words: &[u8]) -> u64
    requires size { length products.now ≡ 32 }
    requires words { All (λ word. word < 32) words.now }
    ensures { result ≡ sum_by (slice_index products.now) words.now % 2 ^ 64 }
{
    let mut print: u64 = 0;
    for word in words {
        print = u64::wrapping_add(print, products[*word as usize]);
    }
    print
}

/// The parts of what an entry reads at the first places.
pub fn first_parts(entry: &Entry) -> &[Part]
    ensures first { all_cells result.now ≡ first_reads_of entry.now }
    ensures places { All (λ part. part.at < 512) result.now }
    ensures rise { IsStrictlyIncreasing (places_of (all_cells result.now)) }
    ensures parts { All IsPart result.now }
{
    entry.truth();
    let parts = entry.reads();
    let mut count = 0;
    while count < parts.len() && parts[count].at < 512 {
        count += 1;
    }
    &parts[..count]
}

/// The places of parts, as bits.
fn mask_of(parts: &[Part]) -> u128
    requires places { All (λ part. part.at < 512) parts.now }
    requires rise { IsStrictlyIncreasing (places_of (all_cells parts.now)) }
    ensures { result ≡ mask_of (places_of (all_cells parts.now)) }
{
    let mut mask = 0;
    for part in parts {
        mask += u128::from(part.at % 16) << (part.at / 16 * 4);
    }
    mask
}

/// The fingerprint of the bytes of parts.
fn print_of(parts: &[Part]) -> u64
    requires places { All (λ part. part.at < 512) parts.now }
    requires parts { All IsPart parts.now }
    ensures { result ≡ fingerprint (λ cell. cell.1) (all_cells parts.now) }
{
    let mut print = 0;
    for part in parts {
        print = added(print, part.word, part.at / 16);
    }
    print
}

/// A fingerprint with the bytes of one word more.
#[inline]
fn added(print: u64, word: u32, index: u32) -> u64
    requires { index < 32 }
    ensures { result ≡ (print + word * factor index) % 2 ^ 64 }
{
    u64::wrapping_add(
        print,
        u64::wrapping_mul(u64::from(word), factor(index as usize)),
    )
}

/// The factor of one of the first words.
#[inline]
fn factor(word: usize) -> u64
    requires { word < 32 }
    ensures { result ≡ factor word }
{
    FACTORS[word]
}
