ghost use Rattle.std.specs.Prelude.{◌≡◌, ◌≢◌, ℕ, true, ◌+◌, ◌^◌, ◌<◌, ◌≤◌, ◌*◌, [], ◌∷◌, ◌++◌, All, IfOk, IfSome, IsNone, length, map, take, drop, replicate, slice_index, if◌then◌else◌};
ghost use Rattle.asc_model.specs.declared.status.Status.{Status};
ghost use Rattle.asc_model.specs.declared.status.Status.TheVariants.{Read, Untouched};
ghost use Rattle.asc_model.specs.Machine.{view_of};
ghost use Rattle.asc_model.specs.Number.{AreBytes, bytes_of, word_at};
ghost use Rattle.asc_model.specs.Places.{bytes_after, cells, places_from};
ghost use Rattle.asc_model.specs.Shape.{length_of};
ghost use Rattle.asc_model.specs.State.{IsState};
ghost use Rattle.asc_shape.specs.Face.{Told, status_at, is_untouched, status_after_read, status_after_write, face_after_read, face_after_reads, face_after_puts, untouched_count, room_of};
ghost use Rattle.asc_shape.specs.State.{zero_state};
ghost use Rattle.asc_depvec.specs.Bits.{words_of_blocks};
ghost use Rattle.asc_depvec.specs.Tracer.{HaveStatus, IsTracing, face_of, fresh, undone, places_of, places_of_item, start_of_face, touched_words};
ghost use Rattle.asc_depvec.specs.Inside.{AreWritten, HaveMark, TellAmong, TellNoMore, given, marked, settled_mark, status_of, statuses_of, with_statuses, without};

use crate::bitmap::{Block, set_items, take_blocks};
use crate::touched::Touched;
use crate::unfilled::Unfilled;
use asc_model::{STEP_ROOM, Status};
use asc_outside::Memory;
use asc_shape::{Bytes, Guess, Shape, Words, get_by_bytes, put_by_bytes};
use std::alloc::Global;
use std::marker::Model;

/// The greatest number of places that a tracer may be made to touch: 64 Ki. The least is `asc_model::STEP_ROOM`.
pub const MOST_CAP: usize = 65_536;

/// A state that tells how each of its places was touched, and what byte each touched place held before.
///
/// A place is `Untouched` at first. A read of an untouched place makes it `Read`; a put makes `Untouched` into
/// `Written` and `Read` into `ReadWritten`; nothing else but `start`, `reset` and `undo` changes a status.
///
/// The bytes of untouched places are the start's, and stand there alone. So a start costs what was touched before it,
/// however large the state is.
///
/// Only `new` and `touched_blocks` are handed an allocator. Contracts see a tracer as the `Tracing` of `specs/`.
#[derive(Drop)]
pub struct Tracer {
    pub(crate) shape: Shape,
    pub(crate) cap: usize,
    pub(crate) start: Guess,
    // Those of the touched places, and of the pc. What stands at others is of no account.
    pub(crate) bytes: Vec<u8>,
    pub(crate) marks: Vec<u8>,
    pub(crate) touched: Touched,
    // A bit for each word, and one for each 64 words. They are set inside of `touched_blocks` alone.
    pub(crate) blocks: Vec<u64>,
    pub(crate) groups: Vec<u64>,
    // Memory for a list of the groups that have a bit.
    pub(crate) used: Vec<u32>,
}

impl Model for Tracer {
    ghost use Rattle.asc_depvec.specs.Tracer.{Tracing};

    ghost Value = { Tracing };

    ghost use Rattle.asc_depvec.specs.Inside.{tracing_of, IsTracer};

    ghost view = { tracing_of };

    ghost invariant = { IsTracer };
}

impl Tracer {
    /// A tracer of the state of this shape whose bytes are all 0, with room for `cap` touched places, from `STEP_ROOM`
    /// to `MOST_CAP`. Memory for all of them is taken and filled here.
    pub fn new(alloc: Global, shape: Shape, cap: usize) -> Result<Tracer, Memory>
        requires least { STEP_ROOM ≤ cap }
        requires most { cap ≤ MOST_CAP }
        ensures { IfOk result (λ t. t ≡ fresh shape cap (zero_state shape)) }
    {
        Ok(Unfilled::new(alloc, shape, cap)?.into_tracer())
    }

    /// Makes this a tracer of another state of its shape, nothing of it touched. It costs what was touched.
    pub fn start(&mut self, from: Guess)
        requires { from.shape ≡ self.old.shape }
        ensures { self.new ≡ fresh self.old.shape self.old.cap from }
    {
        // That it is a state.
        let _ = from.shape();
        untouch_all(&mut self.marks, self.touched.all());
        self.touched.clear();
        put_word(&mut self.bytes, 0, from.word(0));
        self.start = from;
    }

    /// Makes this a tracer of the state that it started from. It costs what was touched.
    pub fn reset(&mut self)
        ensures { self.new ≡ fresh self.old.shape self.old.cap (start_of_face (face_of self.old)) }
    {
        // That it is a state.
        let _ = self.start.shape();
        untouch_all(&mut self.marks, self.touched.all());
        self.touched.clear();
        put_word(&mut self.bytes, 0, self.start.word(0));
    }

    /// The state that it started from.
    #[inline]
    pub fn started(&self) -> &Guess
        ensures { result.now ≡ start_of_face (face_of self.now) }
    {
        &self.start
    }

    /// The byte at a place, which this does not touch.
    #[inline]
    pub fn byte(&self, place: u32) -> u8
        requires { place < length_of self.now.state.shape }
        ensures { result ≡ slice_index self.now.state.bytes place }
    {
        // That its state is one, and its marks fit it.
        let _ = Bytes::shape(self);
        if self.marks[place as usize] == UNTOUCHED {
            self.start.byte(place)
        } else {
            self.bytes[place as usize]
        }
    }

    /// The word in the four bytes from a place on, which this does not touch.
    #[inline]
    pub fn word(&self, place: u32) -> u32
        requires { place + 4 ≤ length_of self.now.state.shape }
        ensures { result ≡ word_at self.now.state.bytes place }
    {
        // That its state is one, and its marks fit it.
        let _ = Bytes::shape(self);
        if are_touched(&self.marks, place) {
            word_of(&self.bytes, place)
        } else {
            self.word_by_bytes(place)
        }
    }

    // The same, byte by byte.
    #[cold]
    #[inline(never)]
    fn word_by_bytes(&self, place: u32) -> u32
        requires { place + 4 ≤ length_of self.now.state.shape }
        ensures { result ≡ word_at self.now.state.bytes place }
    {
        // That its state is one, and its marks fit it.
        let _ = Bytes::shape(self);
        u32::from_le_bytes([
            self.byte(place),
            self.byte(place + 1),
            self.byte(place + 2),
            self.byte(place + 3),
        ])
    }

    /// The pc.
    #[inline]
    pub fn pc(&self) -> u32
        ensures { result ≡ (view_of self.now.state).pc }
    {
        // That its state is one.
        let _ = Bytes::shape(self);
        word_of(&self.bytes, 0)
    }

    /// How a place was touched. A place past the last one is untouched.
    #[inline]
    pub fn status(&self, place: u32) -> Status
        ensures { result ≡ status_at self.now.statuses place }
    {
        let mark = self.marks.get(place as usize);
        status_of(mark.copied().unwrap_or(UNTOUCHED))
    }

    /// The status that the four places from a place on have, where it is one.
    #[inline]
    pub fn word_status(&self, place: u32) -> Option<Status>
        requires place { place + 4 ≤ length_of self.now.state.shape }
        ensures one { IfSome result (λ status. HaveStatus self.now.statuses status place 4) }
        ensures none { IsNone result → (status : Status) → HaveStatus self.now.statuses status place 4 → ⊥ }
    {
        // That its state is one, and its marks fit it.
        let _ = Bytes::shape(self);
        if have_mark(&self.marks, place, WRITTEN) {
            Some(Status::Written)
        } else if are_read(&self.marks, place) {
            Some(Status::Read)
        } else if have_mark(&self.marks, place, READ_WRITTEN) {
            Some(Status::ReadWritten)
        } else {
            self.one_status(place)
        }
    }

    // The status that four places have, where it is one, place by place.
    #[cold]
    #[inline(never)]
    fn one_status(&self, place: u32) -> Option<Status>
        requires { place + 4 ≤ 2 ^ 32 }
        ensures one { IfSome result (λ status. HaveStatus self.now.statuses status place 4) }
        ensures none { IsNone result → (status : Status) → HaveStatus self.now.statuses status place 4 → ⊥ }
    {
        let status = self.status(place);
        if self.status(place + 1) != status {
            return None;
        }
        if self.status(place + 2) != status {
            return None;
        }
        if self.status(place + 3) != status {
            return None;
        }
        Some(status)
    }

    /// The touched places as items, in the order of their first touches. The places of a word that was touched as a
    /// whole are one item.
    #[inline]
    pub fn items(&self) -> &[u32]
        ensures { places_of result.now ≡ map (λ cell. cell.0) self.now.touched }
    {
        self.touched.all()
    }

    /// The words with a touched place, rising, as the blocks of 64 words that have one.
    pub fn touched_blocks(&mut self, alloc: Global) -> Result<Vec<Block>, Memory>
        ensures words { IfOk result (λ blocks. words_of_blocks blocks.items ≡ touched_words self.old) }
        ensures low { IfOk result (λ blocks. All (λ block. block.first < 2 ^ 30) blocks.items) }
        ensures tracer { self.new ≡ self.old }
    {
        // That its state is one, and its marks fit it.
        let _ = Bytes::shape(self);
        let items = self.touched.all();
        set_items(&mut self.blocks, &mut self.groups, &mut self.used, items);
        self.used.sort_unstable();
        let found = take_blocks(alloc, &mut self.blocks, &mut self.groups, &self.used);
        self.used.clear();
        Ok(found?)
    }

    /// The word that stood at the start in four places that were only read.
    #[inline]
    pub fn read_word(&self, place: u32) -> u32
        requires place { place + 4 ≤ length_of self.now.state.shape }
        requires read { HaveStatus self.now.statuses Read place 4 }
        ensures { result ≡ word_at (start_of_face (face_of self.now)).bytes place }
    {
        // That its state is one, and its marks fit it.
        let _ = Bytes::shape(self);
        word_of(&self.bytes, place)
    }

    /// How many more places may be touched: as many as `new` was told less those that are.
    #[inline]
    pub fn room(&self) -> usize
        ensures { result ≡ room_of (face_of self.now).marks }
    {
        self.touched.room()
    }

    /// How many places are touched, for `undo`. A caller's proof learns from it what holds of every tracer.
    #[inline]
    pub fn touched_count(&self) -> usize
        ensures count { result ≡ length self.now.touched }
        ensures tracer { IsTracing self.now }
    {
        self.touched.len()
    }

    /// Makes the touched places behind the first `count` untouched again, with the bytes that they had. Where they were
    /// only read, and nothing was put since so many were touched, all is as it was then. It costs what was touched since
    /// the start, and not since then alone. Registers of a word may be untouched again, so no word is settled any more.
    pub fn undo(&mut self, count: usize)
        requires { count ≤ length self.old.touched }
        ensures { self.new ≡ undone self.old count }
    {
        // That it is a state.
        let _ = self.start.shape();
        forget_all(&mut self.marks, self.touched.all());
        take_back(
            &self.start,
            &mut self.bytes,
            &mut self.marks,
            &mut self.touched,
            count,
        );
    }

    // The word in four places that are not all touched, at once where all are untouched.
    #[cold]
    #[inline(never)]
    fn get_new(&mut self, place: u32) -> u32
        requires place { place + 4 ≤ length self.old.state.bytes }
        requires room { 4 ≤ room_of (face_of self.old).marks }
        ensures word { result ≡ word_at self.old.state.bytes place }
        ensures face { face_of self.new ≡ face_after_reads (face_of self.old) (places_from place 4) }
    {
        // That its state is one, and its marks fit it.
        let _ = Bytes::shape(self);
        if have_mark(&self.marks, place, UNTOUCHED) {
            let word = self.start.word(place);
            put_word(&mut self.bytes, place, word);
            mark_word(&mut self.marks, place, READ);
            self.touched.push_word(place);
            word
        } else {
            self.get_partly(place)
        }
    }

    // The word in four places, place by place. It is out of line, so that the common case saves no registers for it.
    #[cold]
    #[inline(never)]
    fn get_partly(&mut self, place: u32) -> u32
        requires place { place + 4 ≤ length self.old.state.bytes }
        requires room { 4 ≤ room_of (face_of self.old).marks }
        ensures word { result ≡ word_at self.old.state.bytes place }
        ensures face { face_of self.new ≡ face_after_reads (face_of self.old) (places_from place 4) }
    {
        get_by_bytes(self, place)
    }

    // Puts a word in four places that are not all written, at once where all are only read.
    #[cold]
    #[inline(never)]
    fn put_new(&mut self, place: u32, word: u32)
        requires place { place + 4 ≤ length self.old.state.bytes }
        requires room { 4 ≤ room_of (face_of self.old).marks }
        ensures face { face_of self.new ≡ face_after_puts (face_of self.old) (cells place (bytes_of 4 word)) }
    {
        // That its state is one, and its marks fit it.
        let _ = Bytes::shape(self);
        if have_mark(&self.marks, place, READ) {
            mark_word(&mut self.marks, place, READ_WRITTEN);
            put_word(&mut self.bytes, place, word);
        } else {
            self.put_first(place, word);
        }
    }

    // Puts a word in four places, at once where all are untouched. It is out of line, so that a put of a word that was
    // read saves no registers for it.
    #[cold]
    #[inline(never)]
    fn put_first(&mut self, place: u32, word: u32)
        requires place { place + 4 ≤ length self.old.state.bytes }
        requires room { 4 ≤ room_of (face_of self.old).marks }
        ensures face { face_of self.new ≡ face_after_puts (face_of self.old) (cells place (bytes_of 4 word)) }
    {
        // That its state is one, and its marks fit it.
        let _ = Bytes::shape(self);
        if have_mark(&self.marks, place, UNTOUCHED) {
            mark_word(&mut self.marks, place, WRITTEN);
            self.touched.push_word(place);
            put_word(&mut self.bytes, place, word);
        } else {
            self.put_partly(place, word);
        }
    }

    // Puts a word in four places, place by place. It is rarely needed and long, so it stands out of line.
    #[cold]
    #[inline(never)]
    fn put_partly(&mut self, place: u32, word: u32)
        requires place { place + 4 ≤ length self.old.state.bytes }
        requires room { 4 ≤ room_of (face_of self.old).marks }
        ensures face { face_of self.new ≡ face_after_puts (face_of self.old) (cells place (bytes_of 4 word)) }
    {
        put_by_bytes(self, place, word);
    }

    // The byte at an untouched place.
    #[cold]
    #[inline(never)]
    fn get_first(&mut self, place: u32) -> u8
        requires place { place < length self.old.state.bytes }
        requires room { 1 ≤ room_of (face_of self.old).marks }
        requires untouched { status_at self.old.statuses place ≡ Untouched }
        ensures byte { result ≡ slice_index self.old.state.bytes place }
        ensures face { face_of self.new ≡ face_after_read (face_of self.old) place }
    {
        // That its state is one, and its marks fit it.
        let _ = Bytes::shape(self);
        let byte = self.start.byte(place);
        self.bytes[place as usize] = byte;
        self.marks[place as usize] = READ;
        self.touched.push(place);
        byte
    }
}

/// It tells how its places were touched. Its room falls by one with each place that is touched for the first time.
impl Bytes for Tracer {
    ghost face = { face_of };

    #[inline]
    fn shape(&self) -> Shape {
        are_bytes(&self.bytes);
        self.shape
    }

    #[inline]
    fn room(&self) -> usize {
        Tracer::room(self)
    }

    #[inline]
    fn get(&mut self, place: u32) -> u8 {
        // That its state is one, and its marks fit it.
        let _ = Bytes::shape(self);
        if self.marks[place as usize] == UNTOUCHED {
            self.get_first(place)
        } else {
            self.bytes[place as usize]
        }
    }

    #[inline]
    fn put(&mut self, place: u32, byte: u8) {
        // That its state is one, and its marks fit it.
        let _ = Bytes::shape(self);
        let status = status_of(self.marks[place as usize]);
        note(&mut self.touched, status, place);
        self.marks[place as usize] = mark_of(after_write(status));
        self.bytes[place as usize] = byte;
    }
}

/// A word whose four places were touched alike is read and put at once, and any other byte by byte.
impl Words for Tracer {
    /// Where the four places are touched, a read changes nothing.
    #[inline]
    fn get_word(&mut self, place: u32) -> u32 {
        // That its state is one, and its marks fit it.
        let _ = Bytes::shape(self);
        if are_touched(&self.marks, place) {
            word_of(&self.bytes, place)
        } else {
            self.get_new(place)
        }
    }

    /// Where the four places are written a put changes no status.
    #[inline]
    fn put_word(&mut self, place: u32, word: u32) {
        // That its state is one, and its marks fit it.
        let _ = Bytes::shape(self);
        if are_written(&self.marks, place) {
            put_word(&mut self.bytes, place, word);
        } else {
            self.put_new(place, word);
        }
    }

    /// The pc stands in memory, touched or not.
    #[inline]
    fn peek_pc(&self) -> u32 {
        // That its state is one, and its marks fit it.
        let _ = Bytes::shape(self);
        word_of(&self.bytes, 0)
    }

    #[inline]
    fn get_touched(&mut self, place: u32) -> u32 {
        // That its state is one, and its marks fit it.
        let _ = Bytes::shape(self);
        word_of(&self.bytes, place)
    }

    #[inline]
    fn put_written(&mut self, place: u32, word: u32) {
        // That its state is one, and its marks fit it.
        let _ = Bytes::shape(self);
        put_word(&mut self.bytes, place, word);
    }

    /// What was learnt of a word stands in the marks of its places.
    #[inline]
    fn is_settled(&self, place: u32) -> bool {
        // That its state is one, and its marks fit it.
        let _ = Bytes::shape(self);
        have_mark(&self.marks, place, SETTLED)
    }

    #[inline]
    fn settle(&mut self, place: u32) {
        // That its state is one, and its marks fit it.
        let _ = Bytes::shape(self);
        if have_mark(&self.marks, place, READ) {
            mark_word(&mut self.marks, place, SETTLED);
        }
    }
}

// Lists a place where its status says that it is not touched yet.
#[inline]
fn note(touched: &mut Touched, status: Status, place: u32)
    requires low { place < 2 ^ 31 }
    requires room { length (places_of touched.old.items) < touched.old.cap }
    ensures touched { touched.new.items
        ≡ (if is_untouched status then touched.old.items ++ 2 * place ∷ [] else touched.old.items) }
    ensures cap { touched.new.cap ≡ touched.old.cap }
{
    if let Status::Untouched = status {
        touched.push(place);
    }
}

// The mark of a place tells its status. Bit 0 is set where the place is untouched, and bit 1 where it isn't written.
pub(crate) const UNTOUCHED: u8 = 3;

const READ: u8 = 2;

const WRITTEN: u8 = 4;

const READ_WRITTEN: u8 = 0;

// Of a place that was only read, in a word of code of which it is known that carrying it out again changes no status of a
// register or of the pc.
const SETTLED: u8 = 130;

#[inline]
fn status_of(mark: u8) -> Status
    ensures { result ≡ status_of mark }
{
    if mark == UNTOUCHED {
        Status::Untouched
    } else if mark == READ || mark == SETTLED {
        Status::Read
    } else if mark == WRITTEN {
        Status::Written
    } else {
        Status::ReadWritten
    }
}

#[inline]
fn mark_of(status: Status) -> u8
    ensures status { status_of result ≡ status }
    ensures other { result ≢ settled_mark }
{
    match status {
        Status::Untouched => UNTOUCHED,
        Status::Read => READ,
        Status::Written => WRITTEN,
        Status::ReadWritten => READ_WRITTEN,
    }
}

// Gives the four places from a place on one mark.
#[inline]
fn mark_word(marks: &mut [u8], place: u32, mark: u8)
    requires { place + 4 ≤ length marks.old }
    ensures statuses { statuses_of marks.new ≡ with_statuses (statuses_of marks.old) place (status_of mark) 4 }
    ensures marks { marks.new ≡ marked marks.old place mark }
{
    let at = place as usize;
    marks[at] = mark;
    marks[at + 1] = mark;
    marks[at + 2] = mark;
    marks[at + 3] = mark;
}

// Puts the word of four places.
#[inline]
fn put_word(bytes: &mut [u8], place: u32, word: u32)
    requires { place + 4 ≤ length bytes.old }
    ensures { bytes.new ≡ bytes_after bytes.old (cells place (bytes_of 4 word)) }
{
    let at = place as usize;
    bytes[at..at + 4].copy_from_slice(&word.to_le_bytes());
}

// Makes the places of all items untouched.
#[inline]
fn untouch_all(marks: &mut [u8], items: &[u32])
    requires { All (λ place. place < length marks.old) (places_of items.now) }
    ensures { statuses_of marks.new ≡ without (statuses_of marks.old) (places_of items.now) }
{
    for &item in items {
        untouch(marks, item);
    }
}

// Makes the places of an item untouched.
#[inline]
fn untouch(marks: &mut [u8], item: u32)
    requires { All (λ place. place < length marks.old) (places_of_item item) }
    ensures { statuses_of marks.new ≡ without (statuses_of marks.old) (places_of_item item) }
{
    let place = item / 2;
    if item % 2 == 1 {
        mark_word(marks, place, UNTOUCHED);
    } else {
        marks[place as usize] = UNTOUCHED;
    }
}

// Forgets of all items' places that their words are settled.
fn forget_all(marks: &mut [u8], items: &[u32])
    requires within { All (λ place. place < length marks.old) (places_of items.now) }
    requires among { TellAmong marks.old (places_of items.now) }
    ensures statuses { statuses_of marks.new ≡ statuses_of marks.old }
    ensures none { TellAmong marks.new [] }
{
    for &item in items {
        forget(marks, item);
    }
}

// Forgets of an item's places that their words are settled.
fn forget(marks: &mut [u8], item: u32)
    requires { All (λ place. place < length marks.old) (places_of_item item) }
    ensures statuses { statuses_of marks.new ≡ statuses_of marks.old }
    ensures less { TellNoMore marks.old marks.new }
    ensures none { All (λ place. slice_index marks.new place ≢ settled_mark) (places_of_item item) }
{
    let place = item / 2;
    forget_place(marks, place);
    if item % 2 == 1 {
        forget_place(marks, place + 1);
        forget_place(marks, place + 2);
        forget_place(marks, place + 3);
    }
}

// Forgets of a place that its word is settled.
fn forget_place(marks: &mut [u8], place: u32)
    requires { place < length marks.old }
    ensures statuses { statuses_of marks.new ≡ statuses_of marks.old }
    ensures less { TellNoMore marks.old marks.new }
    ensures none { slice_index marks.new place ≢ settled_mark }
{
    if marks[place as usize] == SETTLED {
        marks[place as usize] = READ;
    }
}

// Takes the places behind the first `count` off the list, and makes them untouched with the start's bytes, the last one
// first.
fn take_back(start: &Guess, bytes: &mut [u8], marks: &mut [u8], touched: &mut Touched, count: usize)
    requires count { count ≤ length (places_of touched.old.items) }
    requires low { length marks.old ≤ 2 ^ 30 }
    requires start { length_of start.now.shape ≡ length marks.old }
    requires bytes { length bytes.old ≡ length marks.old }
    requires places { All (λ place. place < length marks.old) (places_of touched.old.items) }
    ensures bytes { bytes.new
        ≡ given start.now.bytes bytes.old (drop count (places_of touched.old.items)) }
    ensures statuses { statuses_of marks.new
        ≡ without (statuses_of marks.old) (drop count (places_of touched.old.items)) }
    ensures less { TellNoMore marks.old marks.new }
    ensures places { places_of touched.new.items ≡ take count (places_of touched.old.items) }
    ensures cap { touched.new.cap ≡ touched.old.cap }
{
    while touched.len() > count {
        let place = touched.pop();
        marks[place as usize] = UNTOUCHED;
        bytes[place as usize] = start.byte(place);
    }
}

// The word of four bytes or marks from a place on.
#[inline]
fn word_of(marks: &[u8], place: u32) -> u32
    requires { place + 4 ≤ length marks.now }
    ensures { result ≡ word_at marks.now place }
{
    let at = place as usize;
    let four = &marks[at..at + 4];
    u32::from_le_bytes([four[0], four[1], four[2], four[3]])
}

// Where it is so, none of the four places from a place on is untouched.
#[inline]
fn are_touched(marks: &[u8], place: u32) -> bool
    requires { place + 4 ≤ length marks.now }
    ensures { result ≡ true → untouched_count (Told 0 (statuses_of marks.now) []) (places_from place 4) ≡ 0 }
{
    are_bytes(marks);
    word_of(marks, place) & 0x0101_0101 == 0
}

// Where it is so, the four places from a place on have this mark.
#[inline]
fn have_mark(marks: &[u8], place: u32, mark: u8) -> bool
    requires { place + 4 ≤ length marks.now }
    ensures status { result ≡ true → HaveStatus (statuses_of marks.now) (status_of mark) place 4 }
    ensures mark { result ≡ true → HaveMark marks.now mark place }
{
    are_bytes(marks);
    word_of(marks, place) == u32::from_le_bytes([mark, mark, mark, mark])
}

// Where it is so, the four places from a place on were only read. Without bit 7 both marks that say so are one.
#[inline]
fn are_read(marks: &[u8], place: u32) -> bool
    requires { place + 4 ≤ length marks.now }
    ensures { result ≡ true → HaveStatus (statuses_of marks.now) Read place 4 }
{
    are_bytes(marks);
    word_of(marks, place) & 0x7F7F_7F7F == 0x0202_0202
}

// Where it is so, the four places from a place on are written.
#[inline]
fn are_written(marks: &[u8], place: u32) -> bool
    requires { place + 4 ≤ length marks.now }
    ensures { result ≡ true → AreWritten (statuses_of marks.now) (places_from place 4) }
{
    are_bytes(marks);
    word_of(marks, place) & 0x0202_0202 == 0
}

// The elements of a slice of bytes are bytes.
#[inline]
fn are_bytes(_slice: &[u8])
    ensures { AreBytes _slice.now }
{}

#[inline]
fn after_read(status: Status) -> Status
    ensures { result ≡ status_after_read status }
{
    match status {
        Status::Untouched | Status::Read => Status::Read,
        Status::Written | Status::ReadWritten => status,
    }
}

#[inline]
fn after_write(status: Status) -> Status
    ensures { result ≡ status_after_write status }
{
    match status {
        Status::Untouched | Status::Written => Status::Written,
        Status::Read | Status::ReadWritten => Status::ReadWritten,
    }
}
