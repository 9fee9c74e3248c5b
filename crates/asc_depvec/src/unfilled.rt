ghost use Rattle.std.specs.Prelude.{◌≡◌, ℕ, ◌+◌, ◌^◌, ◌==◌, ◌≤◌, [], IfOk, length, min, replicate, vec_capacity};
ghost use Rattle.asc_model.specs.Shape.{length_of};
ghost use Rattle.asc_shape.specs.State.{zero_state};
ghost use Rattle.asc_depvec.specs.Tracer.{fresh};
ghost use Rattle.asc_depvec.specs.Unfilled.{piece};

use crate::touched::Touched;
use crate::tracer::{MOST_CAP, Tracer, UNTOUCHED};
use asc_model::STEP_ROOM;
use asc_outside::Memory;
use asc_shape::{Guess, Shape, Snapshot};
use std::alloc::Global;
use std::marker::Model;

/// For how many places at most `Unfilled::fill_some` fills memory: 64 Ki.
pub const PIECE: usize = 65_536;

/// Memory of a tracer, taken and not filled yet. A tracer has a byte and a mark for each place of its state. It may be
/// taken in one thread, and filled in another one in pieces, between which that thread does something else.
///
/// Only `new` takes memory. Contracts see it as the `Filling` of `specs/`.
#[derive(Drop)]
pub struct Unfilled {
    shape: Shape,
    cap: usize,
    start: Guess,
    // Those of the first places, with room for all.
    bytes: Vec<u8>,
    marks: Vec<u8>,
    touched: Touched,
    // Room for all blocks.
    blocks: Vec<u64>,
    groups: Vec<u64>,
    used: Vec<u32>,
}

impl Model for Unfilled {
    ghost use Rattle.asc_depvec.specs.Unfilled.{Filling};

    ghost Value = { Filling };

    ghost use Rattle.asc_depvec.specs.Unfilled.{filling_of, IsUnfilled};

    ghost view = { filling_of };

    ghost invariant = { IsUnfilled };
}

impl Unfilled {
    /// Takes all memory of a tracer of a state of this shape, with room for `cap` touched places, from `STEP_ROOM` to
    /// `MOST_CAP`. Nothing of it is filled that grows with the shape, but for a bit for each 256 places.
    pub fn new(alloc: Global, shape: Shape, cap: usize) -> Result<Unfilled, Memory>
        requires least { STEP_ROOM ≤ cap }
        requires most { cap ≤ MOST_CAP }
        ensures shape { IfOk result (λ u. u.shape ≡ shape) }
        ensures cap { IfOk result (λ u. u.cap ≡ cap) }
        ensures filled { IfOk result (λ u. u.filled ≡ 0) }
    {
        let len = places_of(shape);
        let start = Guess::last(Snapshot::zeros(alloc, shape)?);
        // That it is a state.
        let _ = start.shape();
        Ok(Unfilled {
            shape,
            cap,
            start,
            bytes: Vec::with_capacity(alloc, len)?,
            marks: Vec::with_capacity(alloc, len)?,
            touched: Touched::none(alloc, cap)?,
            blocks: Vec::with_capacity(alloc, 64 * (len / 0x4000 + 1))?,
            groups: vec![in alloc; 0; len / 0x4000 + 1]?,
            used: Vec::with_capacity(alloc, len / 0x4000 + 1)?,
        })
    }

    /// Fills memory for `PIECE` places more, or for all that are left. It answers whether that of all places is filled.
    /// It takes no memory.
    pub fn fill_some(&mut self) -> bool
        ensures shape { self.new.shape ≡ self.old.shape }
        ensures cap { self.new.cap ≡ self.old.cap }
        ensures filled { self.new.filled ≡ min (length_of self.old.shape) (self.old.filled + piece) }
        ensures all { result ≡ (self.new.filled == length_of self.old.shape) }
    {
        let len = places_of(self.shape);
        let next = len.min(self.bytes.len() + PIECE);
        fill(&mut self.bytes, next, 0);
        fill(&mut self.marks, next, UNTOUCHED);
        next == len
    }

    /// The tracer of the state of this shape whose bytes are all 0. It fills what is not filled yet, and takes no memory.
    pub fn into_tracer(self) -> Tracer
        ensures { result ≡ fresh self.shape self.cap (zero_state self.shape) }
    {
        let Unfilled {
            shape,
            cap,
            start,
            mut bytes,
            mut marks,
            touched,
            mut blocks,
            groups,
            used,
        } = self;
        let len = places_of(shape);
        fill(&mut bytes, len, 0);
        fill(&mut marks, len, UNTOUCHED);
        fill_blocks(&mut blocks, 64 * (len / 0x4000 + 1));
        Tracer {
            shape,
            cap,
            start,
            bytes,
            marks,
            touched,
            blocks,
            groups,
            used,
        }
    }
}

// How many places a state of this shape has.
fn places_of(shape: Shape) -> usize
    ensures places { result ≡ length_of shape }
    ensures low { result ≤ 2 ^ 30 }
{
    (shape.start() + shape.size()) as usize
}

// Fills memory up to so many bytes, for which it has room.
fn fill(bytes: &mut Vec<u8>, len: usize, byte: u8)
    requires more { length bytes.old.items ≤ len }
    requires room { len ≤ vec_capacity bytes.old }
    ensures bytes { bytes.old.items ≡ replicate (length bytes.old.items) byte → bytes.new.items ≡ replicate len byte }
    ensures capacity { vec_capacity bytes.old ≤ vec_capacity bytes.new }
{
    let Ok(()) = bytes.resize(len, byte) else {
        unreachable!()
    };
}

// Fills memory for so many blocks with 0, for which it has room.
fn fill_blocks(blocks: &mut Vec<u64>, len: usize)
    requires none { blocks.old.items ≡ [] }
    requires room { len ≤ vec_capacity blocks.old }
    ensures { blocks.new.items ≡ replicate len 0 }
{
    let Ok(()) = blocks.resize(len, 0) else {
        unreachable!()
    };
}
