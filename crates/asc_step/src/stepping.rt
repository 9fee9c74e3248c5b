//! One step of the machine.
ghost use Rattle.std.specs.Prelude.{◌≡◌, ◌+◌, ◌≤◌, true, false, Some};
ghost use Rattle.asc_model.specs.declared.instruction.Instr.{Instr};
ghost use Rattle.asc_model.specs.Instruction.{decode};
ghost use Rattle.asc_model.specs.Machine.{view_of};
ghost use Rattle.asc_model.specs.Places.{operand_places};
ghost use Rattle.asc_model.specs.Step.{fetch, outcome_of_word};
ghost use Rattle.asc_shape.specs.Face.{room_of};
ghost use Rattle.asc_step.specs.Execute.{AtInstruction, RunsSettled, answer_of, face_after_outcome};
ghost use Rattle.asc_step.specs.Step.{Attempts, counted_steps};
ghost use Rattle.asc_step.specs.declared.stepped.Stepped.TheVariants.{Went};

use crate::Stepped;
use crate::execute::execute;
use crate::faults::{fault, word_fault};
use crate::places::read_word;
use crate::specialized::{execute_likely, step_specialized};
use crate::version::has_atomics;
use asc_isa::{decode, decode_likely};
use asc_model::{FaultKind, STEP_ROOM};
use asc_outside::Steps;
use asc_shape::{Shape, Words};
use std::sync::ledger::Ledger;

/// Takes one step, where the program goes on: the instruction at the pc is fetched, decoded and carried out.
///
/// All that the step reads is read before anything is put. A step that calls or faults puts nothing.
#[inline(always)]
pub fn try_step<B: Words>(bytes: &mut B) -> Stepped
    requires room { STEP_ROOM ≤ room_of (B.face bytes.old).marks }
    ensures { Attempts (B.face bytes.old) (B.face bytes.new) result }
{
    let shape = bytes.shape();
    let mut stepped = Stepped::Went;
    if step_settled::<B, ()>(bytes, shape, &mut stepped) {
        return Stepped::Went;
    }
    step_anew(bytes, &mut stepped);
    stepped
}

/// Takes one step where the word at the pc is known to be settled and the program goes on, and tells whether it did.
/// Otherwise nothing changes, and `step_anew` tells why, or takes the step. So a loop of steps has no faults in it.
///
/// Only the operations that programs do most have code of their own, so that the rest of a tracer's step takes no room
/// in the loop of a trace. `step` has code of its own for each operation.
///
/// `K` is any type. It tells loops of such steps apart: each has a copy of this that is called there alone, which the
/// compiler then takes into the loop.
///
/// `rare` is memory for what a step out of the loop came to, whatever stands in it. So a loop fills none at each step.
#[inline(always)]
pub fn step_settled<B: Words, K>(bytes: &mut B, shape: Shape, rare: &mut Stepped) -> bool
    requires shape { shape ≡ (B.face bytes.old).state.shape }
    requires room { STEP_ROOM ≤ room_of (B.face bytes.old).marks }
    ensures went { result ≡ true → Attempts (B.face bytes.old) (B.face bytes.new) Went }
    ensures stays { result ≡ false → B.face bytes.new ≡ B.face bytes.old }
{
    // That its state is one, and its marks fit it.
    let _ = bytes.shape();
    let pc = bytes.peek_pc();
    if let Some(_) = word_fault(shape, pc, FaultKind::Misaligned, FaultKind::FetchOutside) {
        return false;
    }
    let place = shape.place_of(pc);
    if !bytes.is_settled(place) {
        return false;
    }
    let word = bytes.get_touched(place);
    match execute_fetched::<B, K, true>(bytes, shape, pc, word, rare) {
        Stepped::Went => true,
        _ => false,
    }
}

/// Takes one step, touches all its places, and lets its word be remembered as settled where the program goes on. What it
/// came to is put into `rare`. It is long, and for a function that stands out of its caller's loop.
#[inline(always)]
pub fn step_anew<B: Words>(bytes: &mut B, rare: &mut Stepped)
    requires room { STEP_ROOM ≤ room_of (B.face bytes.old).marks }
    ensures { Attempts (B.face bytes.old) (B.face bytes.new) rare.new }
{
    let shape = bytes.shape();
    let pc = read_word(bytes, 0);
    if let Some(kind) = word_fault(shape, pc, FaultKind::Misaligned, FaultKind::FetchOutside) {
        *rare = fault(kind, pc, pc);
        return;
    }
    let place = shape.place_of(pc);
    let word = read_word(bytes, place);
    let stepped = execute_fetched::<B, (), false>(bytes, shape, pc, word, rare);
    *rare = stepped;
    if let Stepped::Went = *rare {
        bytes.settle(place);
    }
}

/// Carries out the word that was fetched from this pc, whatever it is. Its registers are settled where `SETTLED` says so.
#[inline(always)]
fn execute_fetched<B: Words, K, const SETTLED: bool>(
    bytes: &mut B,
    shape: Shape,
    pc: u32,
    word: u32,
    rare: &mut Stepped,
) -> Stepped
    requires shape { shape ≡ (B.face bytes.old).state.shape }
    requires at { AtInstruction (B.face bytes.old) pc }
    requires word { let s = (B.face bytes.old).state in word ≡ fetch s.shape (view_of s) }
    requires settled { (i : Instr) → Some i ≡ decode (B.face bytes.old).state.shape.version word
        → RunsSettled SETTLED (B.face bytes.old).marks i }
    requires room { 22 ≤ room_of (B.face bytes.old).marks }
    ensures answer { let s = (B.face bytes.old).state in
        result ≡ answer_of (outcome_of_word s.shape (view_of s) (decode s.shape.version word)) }
    ensures face { let s = (B.face bytes.old).state in
        B.face bytes.new ≡ face_after_outcome (B.face bytes.old)
        (operand_places s.shape (view_of s) (decode s.shape.version word))
        (outcome_of_word s.shape (view_of s) (decode s.shape.version word)) }
{
    match decode_likely::<K>(word) {
        Some(instruction) => {
            execute_likely::<B, K, SETTLED>(bytes, shape, pc, instruction, rare)
        }
        None => {
            execute_word(bytes, pc, word, rare);
            *rare
        }
    }
}

/// The copy of the decoder for words that are not likely.
struct Rest;

/// Carries out the word that was fetched from this pc, whatever it is. It is not handed the shape, which a loop would
/// keep in memory for it alone. What it came to is put into `rare`.
#[cold]
#[inline(never)]
fn execute_word<B: Words>(bytes: &mut B, pc: u32, word: u32, rare: &mut Stepped)
    requires at { AtInstruction (B.face bytes.old) pc }
    requires word { let s = (B.face bytes.old).state in word ≡ fetch s.shape (view_of s) }
    requires room { 22 ≤ room_of (B.face bytes.old).marks }
    ensures answer { let s = (B.face bytes.old).state in
        rare.new ≡ answer_of (outcome_of_word s.shape (view_of s) (decode s.shape.version word)) }
    ensures face { let s = (B.face bytes.old).state in
        B.face bytes.new ≡ face_after_outcome (B.face bytes.old)
        (operand_places s.shape (view_of s) (decode s.shape.version word))
        (outcome_of_word s.shape (view_of s) (decode s.shape.version word)) }
{
    let shape = bytes.shape();
    *rare = match decode::<Rest>(word, has_atomics(shape.version())) {
        Some(instruction) => execute::<B, false>(bytes, shape, pc, instruction),
        None => fault(FaultKind::Illegal, pc, word),
    };
}

/// Takes one step of a state of this shape as `try_step` does, and counts it where the program went on. `K` tells loops of
/// steps apart, as in `step_specialized`.
#[inline]
pub(crate) fn step_of<B: Words, L: Ledger, K>(
    bytes: &mut B,
    shape: Shape,
    steps: &mut Steps<L>,
) -> Stepped
    requires shape { shape ≡ (B.face bytes.old).state.shape }
    requires room { STEP_ROOM ≤ room_of (B.face bytes.old).marks }
    ensures step { Attempts (B.face bytes.old) (B.face bytes.new) result }
    ensures counter { steps.new ≡ steps.old + counted_steps result }
{
    let stepped = step_specialized::<B, K>(bytes, shape);
    if let Stepped::Went = stepped {
        steps.tick();
    }
    stepped
}

/// Takes one step as `try_step` does, and counts it where the program went on.
#[inline]
pub fn step<B: Words, L: Ledger>(bytes: &mut B, steps: &mut Steps<L>) -> Stepped
    requires room { STEP_ROOM ≤ room_of (B.face bytes.old).marks }
    ensures step { Attempts (B.face bytes.old) (B.face bytes.new) result }
    ensures counter { steps.new ≡ steps.old + counted_steps result }
{
    let shape = bytes.shape();
    step_of::<B, L, ()>(bytes, shape, steps)
}
