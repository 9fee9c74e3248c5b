//! Registers and memory of a state, by their places.
ghost use Rattle.std.specs.Prelude.{◌≡◌, true, ◌+◌, ◌*◌, ◌^◌, ◌<◌, ◌≤◌, [], ◌∷◌, length};
ghost use Rattle.asc_model.specs.Number.{bytes_of, number_at, word_at};
ghost use Rattle.asc_model.specs.State.{IsState};
ghost use Rattle.asc_model.specs.Machine.{register, is_reserved, view_of, reserve, release, Pc, Register};
ghost use Rattle.asc_model.specs.Places.{places_from, register_places, reservation_places, cells};
ghost use Rattle.asc_shape.specs.Face.{face_after_reads, face_after_puts, room_of, untouched_count};
ghost use Rattle.asc_shape.specs.Settled.{unwritten_count};
ghost use Rattle.asc_model.specs.declared.version.Version.TheVariants.{Two};
ghost use Rattle.asc_step.specs.Effect.{bytes_in};
ghost use Rattle.asc_step.specs.Execute.{Puts};

use crate::effect::Size;
use asc_shape::Words;

/// The place of the reserved address.
const RESERVED: u32 = 128;

/// The place of the byte that is 1 where an address is reserved.
const VALID: u32 = 132;

/// The word in the four bytes from a place on.
#[inline(always)]
pub(crate) fn read_word<B: Words>(bytes: &mut B, place: u32) -> u32
    requires place { place + 4 ≤ length (B.face bytes.old).state.bytes }
    requires room { 4 ≤ room_of (B.face bytes.old).marks }
    ensures value { result ≡ word_at (B.face bytes.old).state.bytes place }
    ensures state { (B.face bytes.new).state ≡ (B.face bytes.old).state }
    ensures face { B.face bytes.new ≡ face_after_reads (B.face bytes.old) (places_from place 4) }
{
    bytes.get_word(place)
}

/// The word in the four bytes from a place on, which are touched where `SETTLED` says so.
#[inline(always)]
fn read_settled<B: Words, const SETTLED: bool>(bytes: &mut B, place: u32) -> u32
    requires place { place + 4 ≤ length (B.face bytes.old).state.bytes }
    requires room { 4 ≤ room_of (B.face bytes.old).marks }
    requires settled { SETTLED ≡ true → untouched_count (B.face bytes.old).marks (places_from place 4) ≡ 0 }
    ensures value { result ≡ word_at (B.face bytes.old).state.bytes place }
    ensures face { B.face bytes.new ≡ face_after_reads (B.face bytes.old) (places_from place 4) }
{
    if SETTLED {
        bytes.get_touched(place)
    } else {
        bytes.get_word(place)
    }
}

/// Puts a word in the four bytes from a place on, which are written where `SETTLED` says so.
#[inline(always)]
fn put_settled<B: Words, const SETTLED: bool>(bytes: &mut B, place: u32, word: u32)
    requires place { place + 4 ≤ length (B.face bytes.old).state.bytes }
    requires room { 4 ≤ room_of (B.face bytes.old).marks }
    requires settled { SETTLED ≡ true → unwritten_count (B.face bytes.old).marks (places_from place 4) ≡ 0 }
    ensures { B.face bytes.new ≡ face_after_puts (B.face bytes.old) (cells place (bytes_of 4 word)) }
{
    if SETTLED {
        bytes.put_written(place, word);
    } else {
        bytes.put_word(place, word);
    }
}

/// The number in as many bytes from a place on as the size says.
#[inline(always)]
pub(crate) fn read_number<B: Words>(bytes: &mut B, place: u32, size: Size) -> u32
    requires place { place + bytes_in size ≤ length (B.face bytes.old).state.bytes }
    requires room { 4 ≤ room_of (B.face bytes.old).marks }
    ensures value { result ≡ number_at (bytes_in size) (B.face bytes.old).state.bytes place }
    ensures bound { result < 2 ^ (8 * bytes_in size) }
    ensures state { (B.face bytes.new).state ≡ (B.face bytes.old).state }
    ensures face { B.face bytes.new ≡ face_after_reads (B.face bytes.old)
        (places_from place (bytes_in size)) }
{
    match size {
        Size::Byte => u32::from(bytes.get(place)),
        Size::Half => read_half(bytes, place),
        Size::Word => read_word(bytes, place),
    }
}

/// The number in two bytes from a place on.
#[inline(always)]
fn read_half<B: Words>(bytes: &mut B, place: u32) -> u32
    requires place { place + 2 ≤ length (B.face bytes.old).state.bytes }
    requires room { 4 ≤ room_of (B.face bytes.old).marks }
    ensures value { result ≡ number_at 2 (B.face bytes.old).state.bytes place }
    ensures bound { result < 2 ^ 16 }
    ensures state { (B.face bytes.new).state ≡ (B.face bytes.old).state }
    ensures face { B.face bytes.new ≡ face_after_reads (B.face bytes.old) (places_from place 2) }
{
    // Its shape bounds the places of a state, so that the sum below fits.
    let _ = bytes.shape();
    u32::from(u16::from_le_bytes([bytes.get(place), bytes.get(place + 1)]))
}

/// Puts the lowest bytes of a number from a place on, as many as the size says.
#[inline(always)]
pub(crate) fn put_number<B: Words>(bytes: &mut B, place: u32, size: Size, value: u32)
    requires place { place + bytes_in size ≤ length (B.face bytes.old).state.bytes }
    requires room { 4 ≤ room_of (B.face bytes.old).marks }
    ensures { B.face bytes.new ≡ face_after_puts (B.face bytes.old)
        (cells place (bytes_of (bytes_in size) value)) }
{
    match size {
        Size::Byte => bytes.put(place, (value & 0xFF) as u8),
        Size::Half => put_half(bytes, place, value),
        Size::Word => bytes.put_word(place, value),
    }
}

/// Puts the lowest two bytes of a number from a place on.
#[inline(always)]
fn put_half<B: Words>(bytes: &mut B, place: u32, value: u32)
    requires place { place + 2 ≤ length (B.face bytes.old).state.bytes }
    requires room { 4 ≤ room_of (B.face bytes.old).marks }
    ensures { B.face bytes.new ≡ face_after_puts (B.face bytes.old) (cells place (bytes_of 2 value)) }
{
    // Its shape bounds the places of a state, so that the sum below fits.
    let _ = bytes.shape();
    let [low, high, _, _] = value.to_le_bytes();
    bytes.put(place, low);
    bytes.put(place + 1, high);
}

/// x\[k\]. Register 0 is 0, and no place is read for it. Its places are touched where `SETTLED` says so.
#[inline(always)]
#[tactic(auto, using(crate::proofs::Touches::reads_none, crate::proofs::Touches::register_read))]
pub(crate) fn register<B: Words, const SETTLED: bool>(bytes: &mut B, k: u8) -> u32
    requires k { k < 32 }
    requires length { 128 ≤ length (B.face bytes.old).state.bytes }
    requires room { 4 ≤ room_of (B.face bytes.old).marks }
    requires settled { SETTLED ≡ true → untouched_count (B.face bytes.old).marks (register_places k) ≡ 0 }
    ensures value { result ≡ register (view_of (B.face bytes.old).state) k }
    ensures state { (B.face bytes.new).state ≡ (B.face bytes.old).state }
    ensures face { B.face bytes.new ≡ face_after_reads (B.face bytes.old) (register_places k) }
{
    let k = u32::from(k);
    if k == 0 {
        0
    } else {
        read_settled::<B, SETTLED>(bytes, 4 * k)
    }
}

/// Sets the pc. Its places are written where `SETTLED` says so.
#[inline(always)]
pub(crate) fn set_pc<B: Words, const SETTLED: bool>(bytes: &mut B, value: u32)
    requires length { 128 ≤ length (B.face bytes.old).state.bytes }
    requires room { 4 ≤ room_of (B.face bytes.old).marks }
    requires settled { SETTLED ≡ true → unwritten_count (B.face bytes.old).marks (places_from 0 4) ≡ 0 }
    ensures { Puts (B.face bytes.old) (B.face bytes.new) (Pc value ∷ []) }
{
    put_settled::<B, SETTLED>(bytes, 0, value);
}

/// Sets x\[k\]. Setting register 0 changes nothing. Its places are written where `SETTLED` says so.
#[inline(always)]
#[tactic(auto, using(crate::proofs::Touches::puts_none))]
pub(crate) fn set_register<B: Words, const SETTLED: bool>(bytes: &mut B, k: u8, value: u32)
    requires k { k < 32 }
    requires length { 128 ≤ length (B.face bytes.old).state.bytes }
    requires room { 4 ≤ room_of (B.face bytes.old).marks }
    requires settled { SETTLED ≡ true → unwritten_count (B.face bytes.old).marks (register_places k) ≡ 0 }
    ensures { Puts (B.face bytes.old) (B.face bytes.new) (Register k value ∷ []) }
{
    if k != 0 {
        put_settled::<B, SETTLED>(bytes, place_of_register(k), value);
    }
}

/// The place of a register. By the remainder a compiler sees that it is below 128, so that no code that marks memory is
/// made for a put there.
#[inline(always)]
fn place_of_register(k: u8) -> u32
    requires { k < 32 }
    ensures { result ≡ 4 * k }
{
    4 * u32::from(k % 32)
}

/// Whether an address is reserved, in version Two.
#[inline(always)]
pub(crate) fn is_reserved<B: Words>(bytes: &mut B, address: u32) -> bool
    requires version { (B.face bytes.old).state.shape.version ≡ Two }
    requires length { 136 ≤ length (B.face bytes.old).state.bytes }
    requires room { 5 ≤ room_of (B.face bytes.old).marks }
    ensures value { result ≡ is_reserved (view_of (B.face bytes.old).state) address }
    ensures state { (B.face bytes.new).state ≡ (B.face bytes.old).state }
    ensures face { B.face bytes.new ≡ face_after_reads (B.face bytes.old) reservation_places }
{
    let reserved = read_word(bytes, RESERVED);
    let valid = bytes.get(VALID);
    valid == 1 && reserved == address
}

/// Reserves an address.
#[inline(always)]
pub(crate) fn reserve<B: Words>(bytes: &mut B, address: u32)
    requires length { 136 ≤ length (B.face bytes.old).state.bytes }
    requires room { 5 ≤ room_of (B.face bytes.old).marks }
    ensures { Puts (B.face bytes.old) (B.face bytes.new) (reserve address ∷ []) }
{
    bytes.put_word(RESERVED, address);
    bytes.put(VALID, 1);
}

/// Gives up what is reserved.
#[inline(always)]
pub(crate) fn release<B: Words>(bytes: &mut B)
    requires length { 136 ≤ length (B.face bytes.old).state.bytes }
    requires room { 1 ≤ room_of (B.face bytes.old).marks }
    ensures { Puts (B.face bytes.old) (B.face bytes.new) (release ∷ []) }
{
    bytes.put(VALID, 0);
}
