ghost use Rattle.std.specs.Prelude.{◌≡◌, ℕ, ◌+◌, ◌*◌, ◌≤◌, ◌<◌, ◌^◌, ◌==◌, true, false, [], ◌++◌, All, IfOk, OnErr, Some, length, slice_index, vec_capacity, vec_len};
ghost use Rattle.std.specs.List.{list_all};
ghost use Rattle.std.specs.Arc.{arc_value};
ghost use Rattle.std.specs.Option.{option_map};
ghost use Rattle.asc_model.specs.declared.status.Status.TheVariants.{Read};
ghost use Rattle.asc_model.specs.Shape.{length_of};
ghost use Rattle.asc_model.specs.State.{IsState};
ghost use Rattle.asc_model.specs.Entry.{IsTrueEntry, Matches, put_entry, entry_of};
ghost use Rattle.asc_model.specs.Join.{can_join, join_of};
ghost use Rattle.asc_model.specs.Step.{Went};
ghost use Rattle.asc_model.specs.Plain.{plain};
ghost use Rattle.asc_model.specs.Places.{bytes_after, cells, places_from};
ghost use Rattle.asc_model.specs.Number.{bytes_of};
ghost use Rattle.asc_shape.specs.Face.{status_at};
ghost use Rattle.asc_depvec.specs.Bits.{words_in, words_of_blocks};
ghost use Rattle.asc_depvec.specs.Tracer.{HaveStatus, IsTracing};
ghost use Rattle.asc_traj.specs.Content.{matches};
ghost use Rattle.asc_traj.specs.Parts.{IsPart, all_cells, part_cells, word_place};
ghost use Rattle.asc_traj.specs.Trace.{StandsFor, origin_of};
ghost use Rattle.asc_traj.specs.Inside.{AreHalves, HasGrown, HasSplit, is_read_first, is_written, mask_at, mask_of, now_at, places_of_words, read_first, started, written};

use crate::join::{can_join, join_halves};
use crate::part::{Part, has_parts, push};
use crate::tracing::known;
use asc_depvec::{Block, Tracer};
use asc_model::Status;
use asc_outside::Memory;
use asc_shape::{Bytes, Shape, State};
use std::alloc::{AllocError, Global};
use std::marker::Model;
use std::sync::Arc;

/// An entry of a trajectory cache: the bytes that some steps read first, and those that they leave.
///
/// Every entry holds everywhere, whoever made it: from every state that has its read bytes, its steps go on, without a
/// guest call or a fault, to that state with its written bytes put in. And every entry is its own: it is what tracing
/// its steps gives from the state that has its read bytes, and 0 at all other places.
#[derive(Drop)]
pub struct Entry {
    shape: Shape,
    halves: Halves,
    steps: u64,
}

/// The parts of an entry: of the places that were read first, and of those that were written.
#[derive(Drop)]
pub(crate) struct Halves {
    pub(crate) reads: Vec<Part>,
    pub(crate) writes: Vec<Part>,
}

impl Model for Entry {
    ghost use Rattle.asc_model.specs.Entry as model;
    ghost use Rattle.std.specs.Prelude.{All};
    ghost use Rattle.asc_model.specs.Entry.{IsTrueEntry};
    ghost use Rattle.asc_traj.specs.Parts.{IsPart, all_cells};

    ghost Value = { model.Entry };

    ghost view = { λ e. record { shape = e.shape; reads = all_cells e.halves.reads.items; writes = all_cells e.halves.writes.items; steps = e.steps } };

    ghost invariant = { λ e. IsTrueEntry (record {
      shape = e.shape;
      reads = all_cells e.halves.reads.items;
      writes = all_cells e.halves.writes.items;
      steps = e.steps;
    }) × (All IsPart e.halves.reads.items) × (All IsPart e.halves.writes.items) };
}

impl Entry {
    /// The entry of the steps that a tracer stands for, as `trace` leaves it.
    #[inline(never)]
    pub fn of(alloc: Global, tracer: &mut Tracer, steps: u64) -> Result<Arc<Entry>, Memory>
        requires steps { 1 ≤ steps }
        requires stands { StandsFor steps tracer.old }
        ensures entry { IfOk result (λ entry. entry_of steps (origin_of tracer.old) ≡ Some (arc_value entry)) }
        ensures tracer { tracer.new ≡ tracer.old }
    {
        known(tracer);
        // That its start is a state.
        let _ = tracer.started().shape();
        let blocks = tracer.touched_blocks(alloc)?;
        let halves = split(alloc, tracer, &blocks)?;
        Ok(Arc::new(
            alloc,
            Entry {
                shape: Bytes::shape(tracer),
                halves,
                steps,
            },
        )?)
    }

    /// The entry of the first one's steps and then the second one's. There is one exactly where the second may follow the
    /// first: both are of one shape, and have together at most 1,000,000,000 steps, and 4,096 reads and writes. The second
    /// reads each byte as the first leaves it, or reads and does not write it. Memory is wanting only where there is one.
    pub fn join(alloc: Global, first: &Entry, second: &Entry) -> Result<Option<Arc<Entry>>, Memory>
        ensures joined { IfOk result (λ joined. option_map arc_value joined ≡ join_of first.now second.now) }
        ensures memory { OnErr result (can_join first.now second.now ≡ true) }
    {
        if !can_join(first, second) {
            return Ok(None);
        }
        first.truth();
        second.truth();
        let halves = join_halves(alloc, first, second)?;
        let entry = Entry {
            shape: first.shape(),
            halves,
            steps: first.steps() + second.steps(),
        };
        Ok(Some(Arc::new(alloc, entry)?))
    }

    /// It does nothing. A caller's proof learns from it what holds of every entry.
    pub fn truth(&self)
        ensures { IsTrueEntry self.now }
    {
        let _ = &self.steps;
    }

    /// The shape of the states that it may match.
    #[inline]
    pub fn shape(&self) -> Shape
        ensures { result ≡ self.now.shape }
    {
        self.shape
    }

    /// The places that its steps read first, rising, each with the byte that it must have, as parts of words.
    #[inline]
    pub fn reads(&self) -> &[Part]
        ensures cells { all_cells result.now ≡ self.now.reads }
        ensures parts { All IsPart result.now }
    {
        &self.halves.reads
    }

    /// The places that its steps write, rising, each with the byte that they leave there, as parts of words.
    #[inline]
    pub fn writes(&self) -> &[Part]
        ensures cells { all_cells result.now ≡ self.now.writes }
        ensures parts { All IsPart result.now }
    {
        &self.halves.writes
    }

    /// How many steps it stands for, at least 1.
    #[inline]
    pub fn steps(&self) -> u64
        ensures { result ≡ self.now.steps }
    {
        self.steps
    }

    /// Whether a state has its shape and each of its read bytes.
    pub fn matches(&self, state: &State) -> bool
        ensures yes { result ≡ true → Matches self.now state.now }
        ensures no { result ≡ false → Matches self.now state.now → ⊥ }
        ensures test { result ≡ matches state.now self.now }
    {
        self.shape == state.shape() && has_parts(state, &self.halves.reads)
    }

    /// Puts its written bytes into a state of its shape. Where it matches the state, that is what its steps, plainly
    /// run, leave.
    pub fn put(&self, state: &mut State)
        requires { state.old.shape ≡ self.now.shape }
        ensures put { state.new ≡ put_entry self.now state.old }
        ensures steps { Matches self.now state.old → plain self.now.steps state.old ≡ Went state.new }
    {
        // That it is a state.
        let _ = state.shape();
        put_parts(state, &self.halves.writes);
    }
}

/// Puts parts into a state.
#[inline]
fn put_parts(state: &mut State, parts: &[Part])
    requires { All (λ part. word_place part + 4 ≤ length_of state.old.shape) parts.now }
    ensures { state.new ≡ record state.old { bytes = bytes_after state.old.bytes (all_cells parts.now) } }
{
    for part in parts {
        part.put(state);
    }
}

/// The parts of the touched places, whose words stand in blocks.
#[inline]
fn split(alloc: Global, tracer: &Tracer, blocks: &[Block]) -> Result<Halves, AllocError>
    requires start { IsState (origin_of tracer.now) }
    requires words { All (λ word. 4 * word + 4 ≤ length_of tracer.now.state.shape) (words_of_blocks blocks.now) }
    requires few { length (words_of_blocks blocks.now) ≤ 2 ^ 32 }
    requires low { All (λ block. block.first < 2 ^ 30) blocks.now }
    ensures parts { IfOk result (λ halves. AreHalves halves) }
    ensures reads { IfOk result (λ halves. all_cells halves.reads.items
        ≡ read_first tracer.now (started tracer.now (places_of_words (words_of_blocks blocks.now)))) }
    ensures writes { IfOk result (λ halves. all_cells halves.writes.items
        ≡ written tracer.now (started tracer.now (places_of_words (words_of_blocks blocks.now)))) }
{
    let words = count_words(blocks);
    let mut halves = Halves {
        reads: Vec::with_capacity(alloc, words)?,
        writes: Vec::with_capacity(alloc, words)?,
    };
    for block in blocks {
        split_block(tracer, block.first, block.bits, &mut halves);
    }
    Ok(halves)
}

/// How many words blocks have.
#[inline]
fn count_words(blocks: &[Block]) -> usize
    requires { length (words_of_blocks blocks.now) ≤ 2 ^ 32 }
    ensures { result ≡ length (words_of_blocks blocks.now) }
{
    let mut words = 0;
    for block in blocks {
        words += word_count(block.first, block.bits);
    }
    words
}

/// How many words a block has.
#[inline]
fn word_count(first: u32, bits: u64) -> usize
    ensures { result ≡ length (words_in (record { first = first; bits = bits })) }
{
    let _ = first;
    bits.count_ones() as usize
}

/// Puts the parts of the words of a block behind others.
#[inline]
fn split_block(tracer: &Tracer, first: u32, bits: u64, halves: &mut Halves)
    requires start { IsState (origin_of tracer.now) }
    requires low { first < 2 ^ 30 }
    requires words { All (λ word. 4 * word + 4 ≤ length_of tracer.now.state.shape) (words_in (record { first = first; bits = bits })) }
    requires halves { AreHalves halves.old }
    requires reads { vec_len halves.old.reads + length (words_in (record { first = first; bits = bits })) ≤ vec_capacity halves.old.reads }
    requires writes { vec_len halves.old.writes + length (words_in (record { first = first; bits = bits })) ≤ vec_capacity halves.old.writes }
    ensures halves { AreHalves halves.new }
    ensures grown { HasGrown (length (words_in (record { first = first; bits = bits }))) halves.old halves.new }
    ensures split { HasSplit tracer.now (places_of_words (words_in (record { first = first; bits = bits }))) halves.old halves.new }
{
    let mut rest = bits;
    while rest != 0 {
        let at = rest.trailing_zeros();
        rest &= rest - 1;
        split_word(tracer, first + at, halves);
    }
}

/// Puts the parts of a word's places behind others, at once where these have one status.
#[inline]
fn split_word(tracer: &Tracer, word: u32, halves: &mut Halves)
    requires start { IsState (origin_of tracer.now) }
    requires place { 4 * word + 4 ≤ length_of tracer.now.state.shape }
    requires halves { AreHalves halves.old }
    requires reads { vec_len halves.old.reads < vec_capacity halves.old.reads }
    requires writes { vec_len halves.old.writes < vec_capacity halves.old.writes }
    ensures halves { AreHalves halves.new }
    ensures grown { HasGrown 1 halves.old halves.new }
    ensures split { HasSplit tracer.now (places_from (4 * word) 4) halves.old halves.new }
{
    known(tracer);
    let place = 4 * word;
    match tracer.word_status(place) {
        Some(Status::Read) => push(&mut halves.reads, word, 15, kept_word(tracer, place)),
        Some(Status::Written) => push(&mut halves.writes, word, 15, last_word(tracer, place)),
        Some(Status::ReadWritten) => {
            push(&mut halves.reads, word, 15, first_word(tracer, place));
            push(&mut halves.writes, word, 15, last_word(tracer, place));
        }
        Some(Status::Untouched) | None => {
            let read = read_mask(tracer, place);
            push(&mut halves.reads, word, read, first_word(tracer, place));
            let written = written_mask(tracer, place);
            push(&mut halves.writes, word, written, last_word(tracer, place));
        }
    }
}

/// Which of the four places from a place on were read first.
///
/// It is out of line, as `written_mask` is, and is handed no list: so the lists of the parts stay in registers.
#[cold]
#[inline(never)]
fn read_mask(tracer: &Tracer, place: u32) -> u32
    requires { place + 4 ≤ length_of tracer.now.state.shape }
    ensures mask { result ≡ mask_at is_read_first tracer.now.statuses place }
    ensures most { result < 16 }
{
    known(tracer);
    mask_of(
        is_read_first(tracer.status(place)),
        is_read_first(tracer.status(place + 1)),
        is_read_first(tracer.status(place + 2)),
        is_read_first(tracer.status(place + 3)),
    )
}

/// Which of the four places from a place on were written.
#[cold]
#[inline(never)]
fn written_mask(tracer: &Tracer, place: u32) -> u32
    requires { place + 4 ≤ length_of tracer.now.state.shape }
    ensures mask { result ≡ mask_at is_written tracer.now.statuses place }
    ensures most { result < 16 }
{
    known(tracer);
    mask_of(
        is_written(tracer.status(place)),
        is_written(tracer.status(place + 1)),
        is_written(tracer.status(place + 2)),
        is_written(tracer.status(place + 3)),
    )
}

/// The mask of four bytes.
fn mask_of(first: bool, second: bool, third: bool, fourth: bool) -> u32
    ensures mask { result ≡ mask_of first second third fourth }
    ensures most { result < 16 }
{
    u32::from(first) + 2 * u32::from(second) + 4 * u32::from(third) + 8 * u32::from(fourth)
}

/// Whether a place was read before it was written.
fn is_read_first(status: Status) -> bool
    ensures { result ≡ is_read_first status }
{
    match status {
        Status::Read | Status::ReadWritten => true,
        Status::Untouched | Status::Written => false,
    }
}

/// Whether a place was written.
fn is_written(status: Status) -> bool
    ensures { result ≡ is_written status }
{
    match status {
        Status::Written | Status::ReadWritten => true,
        Status::Untouched | Status::Read => false,
    }
}

/// The word that stood at the start in four places that were only read.
#[inline]
fn kept_word(tracer: &Tracer, place: u32) -> u32
    requires start { IsState (origin_of tracer.now) }
    requires place { place + 4 ≤ length_of tracer.now.state.shape }
    requires read { HaveStatus tracer.now.statuses Read place 4 }
    ensures { cells place (bytes_of 4 result) ≡ started tracer.now (places_from place 4) }
{
    tracer.read_word(place)
}

/// The word that stood in four places at the start. It is out of line, as `read_mask` is.
#[cold]
#[inline(never)]
fn first_word(tracer: &Tracer, place: u32) -> u32
    requires start { IsState (origin_of tracer.now) }
    requires place { place + 4 ≤ length_of tracer.now.state.shape }
    ensures { cells place (bytes_of 4 result) ≡ started tracer.now (places_from place 4) }
{
    tracer.started().word(place)
}

/// The word in four places.
#[inline]
fn last_word(tracer: &Tracer, place: u32) -> u32
    requires { place + 4 ≤ length_of tracer.now.state.shape }
    ensures { cells place (bytes_of 4 result) ≡ now_at tracer.now (places_from place 4) }
{
    known(tracer);
    tracer.word(place)
}
