//! Doing what an effect asks for: all its tests, then all its reads, then all its puts.
ghost use Rattle.std.specs.Prelude.{◌≡◌, true, ◌<◌, ◌≤◌, ℕ, [], ◌∷◌, length};
ghost use Rattle.asc_model.specs.Machine.{Pc, Register};
ghost use Rattle.asc_model.specs.Arithmetic.{◌+w◌};
ghost use Rattle.asc_model.specs.Places.{places_from};
ghost use Rattle.asc_shape.specs.Face.{room_of, untouched_count};
ghost use Rattle.asc_shape.specs.Settled.{unwritten_count};
ghost use Rattle.asc_model.specs.Effect.{Set, Load, Store, Jump, LoadReserved, StoreConditional, Modify};
ghost use Rattle.asc_model.specs.declared.version.Version.TheVariants.{Two};
ghost use Rattle.asc_model.specs.declared.fault.FaultKind.TheVariants.{AtomicMisaligned};
ghost use Rattle.asc_step.specs.Effect.{bytes_in, changed, model_effect};
ghost use Rattle.asc_step.specs.Execute.{AtInstruction, Finishes, IsOfVersion, Puts, PutsSettled, word_fault};

use crate::Stepped;
use crate::arithmetic::one_if;
use crate::effect::{Amo, Effect, Size, changed, loaded_word};
use crate::faults::{fault, holds, is_aligned, word_fault};
use crate::places::{
    is_reserved, put_number, read_number, read_word, release, reserve, set_pc, set_register,
};
use asc_model::FaultKind;
use asc_shape::{Shape, Words};

/// Carries out the effect of the instruction at this pc. The pc and the destination are written where `SETTLED` says so.
#[inline(always)]
pub(crate) fn finish<B: Words, const SETTLED: bool>(
    bytes: &mut B,
    shape: Shape,
    pc: u32,
    rd: u8,
    effect: Effect,
) -> Stepped
    requires shape { shape ≡ (B.face bytes.old).state.shape }
    requires rd { rd < 32 }
    requires at { AtInstruction (B.face bytes.old) pc }
    requires version { IsOfVersion (B.face bytes.old).state.shape.version (model_effect effect) }
    requires settled { PutsSettled SETTLED (B.face bytes.old).marks rd }
    requires room { 14 ≤ room_of (B.face bytes.old).marks }
    ensures { Finishes (B.face bytes.old) (B.face bytes.new) rd (model_effect effect) result }
{
    match effect {
        Effect::Set(value) => set::<B, SETTLED>(bytes, pc, rd, value),
        Effect::Load {
            size,
            signed,
            address,
        } => load::<B, SETTLED>(bytes, shape, pc, rd, size, signed, address),
        Effect::Store {
            size,
            address,
            value,
        } => store::<B, SETTLED>(bytes, shape, pc, size, address, value),
        Effect::Jump(target) => jump::<B, SETTLED>(bytes, pc, rd, target),
        Effect::LoadReserved(address) => load_reserved::<B, SETTLED>(bytes, shape, pc, rd, address),
        Effect::StoreConditional { address, value } => {
            store_conditional::<B, SETTLED>(bytes, shape, pc, rd, address, value)
        }
        Effect::Modify {
            amo,
            address,
            value,
        } => modify::<B, SETTLED>(bytes, shape, pc, rd, amo, address, value),
        Effect::GuestCall => Stepped::Call,
        Effect::Breakpoint => fault(FaultKind::Break, pc, 0),
    }
}

/// Goes on behind the instruction, with a value in its destination.
#[inline(always)]
fn go_on<B: Words, const SETTLED: bool>(bytes: &mut B, pc: u32, rd: u8, value: u32)
    requires rd { rd < 32 }
    requires length { 128 ≤ length (B.face bytes.old).state.bytes }
    requires touched { untouched_count (B.face bytes.old).marks (places_from 0 4) ≡ 0 }
    requires settled { PutsSettled SETTLED (B.face bytes.old).marks rd }
    requires room { 4 ≤ room_of (B.face bytes.old).marks }
    ensures { Puts (B.face bytes.old) (B.face bytes.new) (Pc (pc +w 4) ∷ Register rd value ∷ []) }
{
    set_pc::<B, SETTLED>(bytes, pc.wrapping_add(4));
    set_register::<B, SETTLED>(bytes, rd, value);
}

#[inline(always)]
fn set<B: Words, const SETTLED: bool>(bytes: &mut B, pc: u32, rd: u8, value: u32) -> Stepped
    requires rd { rd < 32 }
    requires at { AtInstruction (B.face bytes.old) pc }
    requires settled { PutsSettled SETTLED (B.face bytes.old).marks rd }
    requires room { 14 ≤ room_of (B.face bytes.old).marks }
    ensures { Finishes (B.face bytes.old) (B.face bytes.new) rd (Set value) result }
{
    go_on::<B, SETTLED>(bytes, pc, rd, value);
    Stepped::Went
}

#[inline(always)]
fn load<B: Words, const SETTLED: bool>(
    bytes: &mut B,
    shape: Shape,
    pc: u32,
    rd: u8,
    size: Size,
    signed: bool,
    address: u32,
) -> Stepped
    requires shape { shape ≡ (B.face bytes.old).state.shape }
    requires rd { rd < 32 }
    requires at { AtInstruction (B.face bytes.old) pc }
    requires settled { PutsSettled SETTLED (B.face bytes.old).marks rd }
    requires room { 14 ≤ room_of (B.face bytes.old).marks }
    ensures { Finishes (B.face bytes.old) (B.face bytes.new) rd
        (Load (bytes_in size) signed address) result }
{
    // That its state is one, and its marks fit it.
    let _ = bytes.shape();
    if !holds(shape, address, size.bytes()) {
        return fault(FaultKind::LoadOutside, pc, address);
    }
    let number = read_number(bytes, shape.place_of(address), size);
    go_on::<B, SETTLED>(bytes, pc, rd, loaded_word(size, signed, number));
    Stepped::Went
}

#[inline(always)]
fn store<B: Words, const SETTLED: bool>(
    bytes: &mut B,
    shape: Shape,
    pc: u32,
    size: Size,
    address: u32,
    value: u32,
) -> Stepped
    requires shape { shape ≡ (B.face bytes.old).state.shape }
    requires at { AtInstruction (B.face bytes.old) pc }
    requires settled { SETTLED ≡ true → unwritten_count (B.face bytes.old).marks (places_from 0 4) ≡ 0 }
    requires room { 14 ≤ room_of (B.face bytes.old).marks }
    ensures { (rd : ℕ) → Finishes (B.face bytes.old) (B.face bytes.new) rd
        (Store (bytes_in size) address value) result }
{
    // That its state is one, and its marks fit it.
    let _ = bytes.shape();
    if !holds(shape, address, size.bytes()) {
        return fault(FaultKind::StoreOutside, pc, address);
    }
    set_pc::<B, SETTLED>(bytes, pc.wrapping_add(4));
    put_number(bytes, shape.place_of(address), size, value);
    Stepped::Went
}

#[inline(always)]
fn jump<B: Words, const SETTLED: bool>(bytes: &mut B, pc: u32, rd: u8, target: u32) -> Stepped
    requires rd { rd < 32 }
    requires at { AtInstruction (B.face bytes.old) pc }
    requires settled { PutsSettled SETTLED (B.face bytes.old).marks rd }
    requires room { 14 ≤ room_of (B.face bytes.old).marks }
    ensures { Finishes (B.face bytes.old) (B.face bytes.new) rd (Jump target) result }
{
    if !is_aligned(target) {
        return fault(FaultKind::Misaligned, pc, target);
    }
    set_pc::<B, SETTLED>(bytes, target);
    set_register::<B, SETTLED>(bytes, rd, pc.wrapping_add(4));
    Stepped::Went
}

/// Why an atomic cannot act on the word at an address.
#[inline(always)]
fn atomic_fault(shape: Shape, address: u32, outside: FaultKind) -> Option<FaultKind>
    ensures { result ≡ word_fault shape address AtomicMisaligned outside }
{
    word_fault(shape, address, FaultKind::AtomicMisaligned, outside)
}

#[inline(always)]
fn load_reserved<B: Words, const SETTLED: bool>(
    bytes: &mut B,
    shape: Shape,
    pc: u32,
    rd: u8,
    address: u32,
) -> Stepped
    requires shape { shape ≡ (B.face bytes.old).state.shape }
    requires rd { rd < 32 }
    requires at { AtInstruction (B.face bytes.old) pc }
    requires settled { PutsSettled SETTLED (B.face bytes.old).marks rd }
    requires room { 14 ≤ room_of (B.face bytes.old).marks }
    ensures { Finishes (B.face bytes.old) (B.face bytes.new) rd (LoadReserved address) result }
{
    // That its state is one, and its marks fit it.
    let _ = bytes.shape();
    if let Some(kind) = atomic_fault(shape, address, FaultKind::LoadOutside) {
        return fault(kind, pc, address);
    }
    let old = read_word(bytes, shape.place_of(address));
    go_on::<B, SETTLED>(bytes, pc, rd, old);
    reserve(bytes, address);
    Stepped::Went
}

#[inline(always)]
fn store_conditional<B: Words, const SETTLED: bool>(
    bytes: &mut B,
    shape: Shape,
    pc: u32,
    rd: u8,
    address: u32,
    value: u32,
) -> Stepped
    requires shape { shape ≡ (B.face bytes.old).state.shape }
    requires rd { rd < 32 }
    requires at { AtInstruction (B.face bytes.old) pc }
    requires settled { PutsSettled SETTLED (B.face bytes.old).marks rd }
    requires version { (B.face bytes.old).state.shape.version ≡ Two }
    requires room { 14 ≤ room_of (B.face bytes.old).marks }
    ensures { Finishes (B.face bytes.old) (B.face bytes.new) rd
        (StoreConditional address value) result }
{
    // That its state is one, and its marks fit it.
    let _ = bytes.shape();
    if let Some(kind) = atomic_fault(shape, address, FaultKind::StoreOutside) {
        return fault(kind, pc, address);
    }
    let reserved = is_reserved(bytes, address);
    go_on::<B, SETTLED>(bytes, pc, rd, one_if(!reserved));
    release(bytes);
    if reserved {
        bytes.put_word(shape.place_of(address), value);
    }
    Stepped::Went
}

#[inline(always)]
fn modify<B: Words, const SETTLED: bool>(
    bytes: &mut B,
    shape: Shape,
    pc: u32,
    rd: u8,
    amo: Amo,
    address: u32,
    value: u32,
) -> Stepped
    requires shape { shape ≡ (B.face bytes.old).state.shape }
    requires rd { rd < 32 }
    requires at { AtInstruction (B.face bytes.old) pc }
    requires settled { PutsSettled SETTLED (B.face bytes.old).marks rd }
    requires room { 14 ≤ room_of (B.face bytes.old).marks }
    ensures { Finishes (B.face bytes.old) (B.face bytes.new) rd
        (Modify address (λ old. changed amo old value)) result }
{
    // That its state is one, and its marks fit it.
    let _ = bytes.shape();
    if let Some(kind) = atomic_fault(shape, address, FaultKind::StoreOutside) {
        return fault(kind, pc, address);
    }
    let place = shape.place_of(address);
    let old = read_word(bytes, place);
    go_on::<B, SETTLED>(bytes, pc, rd, old);
    bytes.put_word(place, changed(amo, old, value));
    Stepped::Went
}
