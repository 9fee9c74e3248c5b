ghost use Rattle.std.specs.Prelude.{◌≡◌, ◌≢◌, ℕ, List, ◌+◌, ◌-◌, ◌*◌, ◌/◌, ◌^◌, ◌<◌, ◌≤◌, true, false, IfOk, IsTrue, length, replicate, slice_index, slice_index_or, slice_set, take};
ghost use Rattle.asc_model.specs.Shape.{length_of, place_of, holds};
ghost use Rattle.asc_model.specs.Number.{word_at, bytes_of};
ghost use Rattle.asc_model.specs.Places.{cells, bytes_after};
ghost use Rattle.asc_model.specs.State.{IsState};
ghost use Rattle.asc_model.specs.Machine.{register, view_of, Pc, Register};
ghost use Rattle.asc_model.specs.Machine as machine;
ghost use Rattle.asc_shape.specs.Face.{Untold};
ghost use Rattle.std.specs.Borrow.{Lends, Array, sem, u8 as byte};
ghost use Rattle.asc_shape.specs.contracts.state.State.{the_row};
ghost use Rattle.asc_pages.specs.Pages.{IsPage, Keeps, base_bytes};
ghost use Rattle.asc_shape.specs.Inside.{Dirties};
ghost use Rattle.asc_shape.specs.Stride.{strided, strided_byte};
ghost use Rattle.asc_outside.specs.Outside.{HasCause, IsAtEnd};
ghost use Rattle.asc_shape.specs.TakesIn.{TakesIn};
ghost use Rattle.asc_shape.specs.State.{with_memory, zero_state, state_after, memory_at};

use crate::page::{elements_are_bytes, put_page, put_pages, stride, stride_pages};
use crate::snapshot::front_of;
use crate::{Bytes, Shape, Snapshot, Words};
use asc_outside::{Failed, Memory, Source};
use asc_pages::{DirtyPages, FRONT, PAGE, Pages};
use std::alloc::Global;
use std::marker::Model;
use std::sync::Arc;

/// A machine's state, as one list of bytes: the pc, registers 1 to 31, in version Two the load reservation, and
/// memory. Every number is little-endian.
///
/// Contracts see it as the `State` of the model.
pub struct State {
    shape: Shape,
    bytes: Vec<u8>,
    // What the pages that are not changed have; zeros where there are none.
    base: Option<Pages>,
    // For each page, whether it may differ from the base's.
    changed: DirtyPages,
}

impl Model for State {
    ghost use Rattle.std.specs.Prelude.{◌≡◌, length};
    ghost use Rattle.asc_model.specs.Shape.{length_of, IsShape};
    ghost use Rattle.asc_model.specs.State as model;

    ghost Value = { model.State };

    ghost view = { λ s. record { shape = s.shape; bytes = s.bytes.items } };

    ghost use Rattle.asc_shape.specs.Inside.{IsInside};

    ghost invariant = { IsInside };
}

// Written out, so that a function that lets a state go calls it, and its proof does not go into the fields.
impl Drop for State {
    fn drop(self) {
        let State {
            shape: _,
            bytes: _,
            base: _,
            changed: _,
        } = self;
    }
}

impl State {
    /// The state of this shape whose bytes are all 0.
    pub fn new(alloc: Global, shape: Shape) -> Result<State, Memory>
        ensures { IfOk result (λ s. s ≡ zero_state shape) }
    {
        // That it is a shape bounds how many bytes there are.
        let _ = shape.base();
        let len = (shape.start() + shape.size()) as usize;
        Ok(State {
            shape,
            bytes: vec![in alloc; 0; len]?,
            base: None,
            changed: DirtyPages::new(alloc, len / PAGE + 1)?,
        })
    }

    /// The shape. A caller's proof learns from it that this is a state.
    #[inline]
    pub fn shape(&self) -> Shape
        ensures shape { result ≡ self.now.shape }
        ensures state { IsState self.now }
    {
        elements_are_bytes(&self.bytes);
        self.shape
    }

    /// The number of places.
    #[inline]
    pub fn len(&self) -> usize
        ensures { result ≡ length_of self.now.shape }
    {
        self.bytes.len()
    }

    /// The byte at a place.
    #[inline]
    pub fn get(&self, place: u32) -> u8
        requires { place < length_of self.now.shape }
        ensures { result ≡ slice_index self.now.bytes place }
    {
        self.bytes[place as usize]
    }

    /// Puts a byte at a place.
    #[inline]
    pub fn set(&mut self, place: u32, byte: u8)
        requires { place < length_of self.old.shape }
        ensures { self.new ≡ record self.old { bytes = slice_set self.old.bytes place byte } }
    {
        self.bytes[place as usize] = byte;
        // Its page comes last: so a function that ends with a put need not keep anything for it.
        self.changed.add(place as usize / PAGE);
    }

    /// The word in the four bytes from a place on.
    #[inline]
    pub fn word(&self, place: u32) -> u32
        requires { place + 4 ≤ length_of self.now.shape }
        ensures { result ≡ word_at self.now.bytes place }
    {
        let at = place as usize;
        let bytes = &self.bytes[at..at + 4];
        u32::from_le_bytes([bytes[0], bytes[1], bytes[2], bytes[3]])
    }

    /// Puts a word into the four bytes from a place on.
    #[inline(always)]
    pub fn set_word(&mut self, place: u32, word: u32)
        requires { place + 4 ≤ length_of self.old.shape }
        ensures { self.new ≡ record self.old { bytes = bytes_after self.old.bytes (cells place (bytes_of 4 word)) } }
    {
        let at = place as usize;
        self.bytes[at..at + 4].copy_from_slice(&word.to_le_bytes());
        // Last, as in `set`.
        add_word(&mut self.changed, at);
    }

    /// The pc.
    #[inline]
    pub fn pc(&self) -> u32
        ensures { result ≡ (view_of self.now).pc }
    {
        let _ = self.shape();
        self.word(0)
    }

    /// Sets the pc, to any word.
    #[inline]
    pub fn set_pc(&mut self, pc: u32)
        ensures { self.new ≡ state_after self.old (Pc pc) }
    {
        let _ = self.shape();
        self.set_word(0, pc);
    }

    /// Register k. Register 0 is 0.
    #[inline]
    pub fn reg(&self, k: u32) -> u32
        requires { k ≤ 31 }
        ensures { result ≡ register (view_of self.now) k }
    {
        let _ = self.shape();
        if k == 0 { 0 } else { self.word(4 * k) }
    }

    /// Sets register k. Setting register 0 changes nothing.
    #[inline]
    pub fn set_reg(&mut self, k: u32, value: u32)
        requires { k ≤ 31 }
        ensures { self.new ≡ state_after self.old (Register k value) }
    {
        let _ = self.shape();
        if k != 0 {
            self.set_word(4 * k, value);
        }
    }

    /// Whether the n bytes from an address on are all in memory. The sums do not wrap.
    #[inline]
    pub fn holds(&self, at: u32, n: u32) -> bool
        ensures { result ≡ holds self.now.shape at n }
    {
        self.shape.holds(at, n)
    }

    /// The n bytes of memory from an address on.
    pub fn mem(&self, at: u32, n: u32) -> &[u8]
        requires { IsTrue (holds self.now.shape at n) }
        ensures bytes { result.now ≡ memory_at self.now at n }
        ensures len { length result.now ≡ n }
    {
        let from = self.place(at);
        &self.bytes[from..from + n as usize]
    }

    /// The n bytes of memory from an address on, for writing. All pages from there to the end of memory count as
    /// changed; `write` and `take_in` add theirs alone.
    pub fn mem_mut(&mut self, at: u32, n: u32) -> &mut [u8]
        requires { IsTrue (holds self.old.shape at n) }
        ensures* writes_back { sem 𝓛 (Lends the_row (Array byte 0) self.entry result (with_memory self.old at)) }
        ensures bytes { result.now ≡ memory_at self.old at n }
        ensures len { length result.now ≡ n }
    {
        let from = self.place(at);
        let len = self.bytes.len();
        add_pages(&mut self.changed, from, len - from);
        self.bytes.slice_mut(from..from + n as usize)
    }

    /// Puts bytes into memory, from an address on.
    pub fn write(&mut self, at: u32, bytes: &[u8])
        requires { IsTrue (holds self.old.shape at (length bytes.now)) }
        ensures { self.new ≡ state_after self.old (machine.Memory at bytes.now) }
    {
        let _ = self.shape();
        elements_are_bytes(bytes);
        let from = self.place(at);
        add_pages(&mut self.changed, from, bytes.len());
        self.bytes[from..from + bytes.len()].copy_from_slice(bytes);
    }

    /// Takes bytes of a source into the n bytes of memory from an address on, at least one, in one call of the source.
    pub fn take_in<I: Source>(&mut self, at: u32, n: u32, input: &mut I) -> Result<usize, Failed>
        requires within { IsTrue (holds self.old.shape at n) }
        requires some { 0 < n }
        ensures takes { (held : List ℕ) ×
            TakesIn (I.left input.old) (I.left input.new) self.old self.new at n result held }
        ensures end { result ≡ Ok 0 → IsAtEnd (I.left input.old) }
        ensures cause { HasCause (I.faults input.old) (I.faults input.new) result }
    {
        let from = self.place(at);
        add_pages(&mut self.changed, from, n as usize);
        input.take(&mut self.bytes[from..from + n as usize])
    }

    /// Puts n zeros into memory, from an address on.
    pub fn write_zeros(&mut self, at: u32, n: u32)
        requires { IsTrue (holds self.old.shape at n) }
        ensures { self.new ≡ state_after self.old (machine.Memory at (replicate n 0)) }
    {
        let _ = self.shape();
        let from = self.place(at);
        add_pages(&mut self.changed, from, n as usize);
        self.bytes[from..from + n as usize].fill(0);
    }

    /// Makes all bytes 0. It costs what this state uses.
    pub fn fill(&mut self)
        ensures { self.new ≡ zero_state self.old.shape }
    {
        // That it is a shape bounds how many bytes there are.
        let _ = self.shape.base();
        fill_bytes(&mut self.bytes, &self.changed, &self.base);
        self.changed.clear();
        self.base = None;
    }

    /// Makes this state equal to another one of its shape. No allocator is handed in.
    pub fn copy_from(&mut self, from: &State)
        requires { self.old.shape ≡ from.now.shape }
        ensures { self.new ≡ from.now }
    {
        self.bytes.copy_from_slice(&from.bytes);
        self.changed.add_all();
        self.base = None;
    }

    /// Makes this state equal to a copy of a state of its shape.
    pub(crate) fn put_snapshot(&mut self, from: &Snapshot)
        requires { self.old.shape ≡ from.now.shape }
        ensures { self.new ≡ from.now }
    {
        // That they are states: so they have as many bytes.
        let _ = (self.shape(), from.shape());
        put_snapshot(&mut self.bytes, from);
        self.changed.add_all();
        self.base = None;
    }

    /// Strides all words by those of a copy of a state of its shape.
    pub(crate) fn stride(&mut self, prev: &Snapshot, ahead: u32)
        requires { self.old.shape ≡ prev.now.shape }
        ensures { self.new ≡ record self.old { bytes = strided ahead self.old.bytes prev.now.bytes } }
    {
        // That they are states: so they have as many bytes.
        let _ = (self.shape(), prev.shape());
        stride_by(&mut self.bytes, prev, ahead);
        self.changed.add_all();
        self.base = None;
    }

    /// A copy of this state, which costs what changed since the base, in the memory of another one as far as nobody else
    /// has that.
    #[inline]
    pub(crate) fn snapshot(
        &self,
        alloc: Global,
        spare: Option<Arc<Snapshot>>,
    ) -> Result<Arc<Snapshot>, Memory>
        ensures { IfOk result (λ s. s.value ≡ self.now) }
    {
        Snapshot::made(
            alloc,
            self.shape,
            &self.bytes,
            &self.changed,
            &self.base,
            spare,
        )
    }

    /// A copy of this state, which stays. It costs what changed since the last one that was made so; after `new` and
    /// `fill` what the state uses, and after `copy_from` all of it.
    pub fn freeze(&mut self, alloc: Global) -> Result<Arc<Snapshot>, Memory>
        ensures stays { self.new ≡ self.old }
        ensures frozen { IfOk result (λ s. s.value ≡ self.old) }
    {
        self.freeze_over(alloc, None)
    }

    /// As `freeze`, in the memory of another copy, as far as nobody else has that.
    pub fn freeze_over(
        &mut self,
        alloc: Global,
        spare: Option<Arc<Snapshot>>,
    ) -> Result<Arc<Snapshot>, Memory>
        ensures stays { self.new ≡ self.old }
        ensures frozen { IfOk result (λ s. s.value ≡ self.old) }
    {
        let snapshot = self.snapshot(alloc, spare)?;
        if !self.changed.is_clear() {
            let base = snapshot.pages().share()?;
            self.base = Some(base);
            self.changed.clear();
        }
        Ok(snapshot)
    }

    /// How many pages of 1,024 places a freeze would copy: those that were written since the last freeze. After `new` and
    /// `fill` these are the pages that were written since, and after `copy_from` all.
    ///
    /// No clause says more than how many there are at most. Right after a freeze it is 0.
    #[inline]
    pub fn changed_pages(&self) -> usize
        ensures { result ≤ length_of self.now.shape / 1024 + 1 }
    {
        self.changed.count()
    }

    // The place of an address from the base of memory to its end, as an index.
    #[inline]
    fn place(&self, at: u32) -> usize
        requires least { self.now.shape.base ≤ at }
        requires most { at ≤ self.now.shape.base + self.now.shape.size }
        ensures { result ≡ place_of self.now.shape at }
    {
        self.shape.place_of(at) as usize
    }
}

/// It does not tell how its places were touched, and has no end of room.
impl Bytes for State {
    ghost face = { λ s. record { state = s; marks = Untold } };

    #[inline]
    fn shape(&self) -> Shape {
        State::shape(self)
    }

    #[inline]
    fn room(&self) -> usize {
        usize::MAX
    }

    #[inline]
    fn get(&mut self, place: u32) -> u8 {
        let _ = State::shape(self);
        State::get(self, place)
    }

    #[inline]
    fn put(&mut self, place: u32, byte: u8) {
        let _ = State::shape(self);
        self.set(place, byte);
    }
}

/// It reads and writes a word at once.
impl Words for State {
    #[inline]
    fn get_word(&mut self, place: u32) -> u32 {
        let _ = State::shape(self);
        self.word(place)
    }

    #[inline(always)]
    fn put_word(&mut self, place: u32, word: u32) {
        let _ = State::shape(self);
        self.set_word(place, word);
    }

    #[inline]
    fn peek_pc(&self) -> u32 {
        let _ = State::shape(self);
        self.word(0)
    }
}

// The pages of the word at a place become dirty. Those of the front alone need not.
//
// It is always taken into its caller: where that puts a register, the compiler then sees that no page is to be added.
#[inline(always)]
fn add_word(changed: &mut DirtyPages, at: usize)
    requires within { at + 4 < 2 ^ 32 }
    requires pages { (at + 3) / 1024 < length changed.old }
    ensures { Dirties at 4 changed.old changed.new }
{
    if at + 3 >= FRONT {
        // A word at a multiple of 4 lies in one page.
        if at.is_multiple_of(4) {
            changed.add(at / PAGE);
        } else {
            add_both(changed, at);
        }
    }
}

// The pages of the first and of the last byte of the word at a place become dirty. It stands out of the loops, so that they
// have one page to add at most.
#[cold]
#[inline(never)]
fn add_both(changed: &mut DirtyPages, at: usize)
    requires within { at + 4 < 2 ^ 32 }
    requires pages { (at + 3) / 1024 < length changed.old }
    ensures { Dirties at 4 changed.old changed.new }
{
    changed.add(at / PAGE);
    changed.add((at + 3) / PAGE);
}

// The pages of the n places from a place on become dirty.
fn add_pages(changed: &mut DirtyPages, from: usize, n: usize)
    requires within { from + n < 2 ^ 32 }
    requires pages { (from + n) / 1024 < length changed.old }
    ensures { Dirties from n changed.old changed.new }
{
    for p in from / PAGE..(from + n + (PAGE - 1)) / PAGE {
        changed.add(p);
    }
}

// Makes all bytes 0, where those of pages that are not changed are the base's.
fn fill_bytes(bytes: &mut [u8], changed: &DirtyPages, base: &Option<Pages>)
    requires least { 136 ≤ length bytes.old }
    requires most { length bytes.old < 2 ^ 32 }
    requires pages { length changed.now ≡ length bytes.old / 1024 + 1 }
    requires kept { Keeps changed.now (base_bytes base.now) bytes.old }
    ensures { bytes.new ≡ replicate (length bytes.old) 0 }
{
    fill_pages(bytes, changed, base);
    bytes[0..FRONT].fill(0);
}

// Fills the pages with zeros that are changed or that the base has.
fn fill_pages(bytes: &mut [u8], changed: &DirtyPages, base: &Option<Pages>)
    requires most { length bytes.old < 2 ^ 32 }
    requires pages { length changed.now ≡ length bytes.old / 1024 + 1 }
    requires kept { Keeps changed.now (base_bytes base.now) bytes.old }
    ensures size { length bytes.new ≡ length bytes.old }
    ensures zeros { (i : ℕ) → 136 ≤ i → i < length bytes.new → slice_index bytes.new i ≡ 0 }
{
    if base.is_none() && changed.is_clear() {
        return;
    }
    for p in 0..changed.len() {
        if changed.is_dirty(p) || !is_blank_in(base, p) {
            put_page(bytes, p, &[]);
        }
    }
}

// Whether a base is known to have only zeros in page p. Where there is no base, all is zeros.
fn is_blank_in(base: &Option<Pages>, p: usize) -> bool
    ensures { result ≡ true → (i : ℕ) → i / 1024 ≡ p → slice_index (base_bytes base.now) i ≡ 0 }
{
    match base {
        None => true,
        Some(base) => base.page(p).is_empty(),
    }
}

// Writes a copy of a state over the bytes of one.
fn put_snapshot(bytes: &mut [u8], from: &Snapshot)
    requires { length bytes.old ≡ length from.now.bytes }
    ensures { bytes.new ≡ from.now.bytes }
{
    // That it is a shape bounds how many bytes there are.
    let _ = from.shape().base();
    put_pages(bytes, from.pages());
    bytes[0..FRONT].copy_from_slice(from.front());
}

// Strides the words of a state by those of a copy of one.
fn stride_by(bytes: &mut [u8], prev: &Snapshot, ahead: u32)
    requires { length bytes.old ≡ length prev.now.bytes }
    ensures { bytes.new ≡ strided ahead bytes.old prev.now.bytes }
{
    // That it is a shape bounds how many bytes there are.
    let _ = prev.shape().base();
    let front = strided_front(bytes, prev.front(), ahead);
    stride_pages(bytes, prev.pages(), ahead);
    bytes[0..FRONT].copy_from_slice(&front);
}

// The first bytes of a state, strided by those of another one.
fn strided_front(bytes: &[u8], prev: &[u8], ahead: u32) -> [u8; FRONT]
    requires least { 136 ≤ length bytes.now }
    requires size { length prev.now ≡ 136 }
    ensures { (i : ℕ) → i < 136 → slice_index result i ≡ strided_byte ahead (take 136 bytes.now) prev.now i }
{
    let mut front = *front_of(bytes);
    stride(&mut front, prev, ahead);
    front
}
