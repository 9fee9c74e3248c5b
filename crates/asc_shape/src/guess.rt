ghost use Rattle.std.specs.Prelude.{◌≡◌, ◌+◌, ◌%◌, ◌<◌, ◌≤◌, slice_index};
ghost use Rattle.asc_model.specs.Shape.{length_of};
ghost use Rattle.asc_model.specs.Number.{word_at};
ghost use Rattle.asc_model.specs.State.{IsState};
ghost use Rattle.asc_shape.specs.Stride.{strided};

use crate::page::strided;
use crate::{Shape, Snapshot, State};
use std::marker::Model;
use std::sync::Arc;

/// A state that is not filled in: a snapshot's, or one to which two snapshots lead. Its words are computed as they are
/// asked for. It takes no memory but shares of the snapshots.
///
/// Contracts see it as the `State` of the model.
#[derive(Drop)]
pub struct Guess {
    last: Arc<Snapshot>,
    // The one before it, where its words go on as they went from there.
    prev: Option<Arc<Snapshot>>,
    // How many times.
    ahead: u32,
}

impl Model for Guess {
    ghost use Rattle.asc_model.specs.State as model;
    ghost use Rattle.asc_shape.specs.Guess.{guessed, HasShape};

    ghost Value = { model.State };

    ghost view = { λ s. guessed s.ahead s.prev s.last.value };

    ghost invariant = { λ s. HasShape s.last.value.shape s.prev };
}

impl Guess {
    /// The state of a snapshot.
    pub fn last(last: Arc<Snapshot>) -> Guess
        ensures { result ≡ last.value }
    {
        Guess {
            last,
            prev: None,
            ahead: 0,
        }
    }

    /// Each aligned word is that of `last`, and `ahead` times what it rose by from `prev`, modulo 2^32.
    pub fn stride(prev: Arc<Snapshot>, last: Arc<Snapshot>, ahead: u32) -> Guess
        requires { prev.value.shape ≡ last.value.shape }
        ensures { result ≡ record last.value { bytes = strided ahead last.value.bytes prev.value.bytes } }
    {
        Guess {
            last,
            prev: Some(prev),
            ahead,
        }
    }

    /// The shape. A caller's proof learns from it that this is a state.
    pub fn shape(&self) -> Shape
        ensures shape { result ≡ self.now.shape }
        ensures state { IsState self.now }
    {
        self.last.shape()
    }

    /// The byte at a place.
    #[inline(never)]
    pub fn byte(&self, place: u32) -> u8
        requires { place < length_of self.now.shape }
        ensures { result ≡ slice_index self.now.bytes place }
    {
        let _ = self.shape();
        let bytes = self.aligned(place - place % 4).to_le_bytes();
        bytes[(place % 4) as usize]
    }

    /// The word in the four bytes from a place on.
    #[inline]
    pub fn word(&self, place: u32) -> u32
        requires { place + 4 ≤ length_of self.now.shape }
        ensures { result ≡ word_at self.now.bytes place }
    {
        if place.is_multiple_of(4) {
            self.aligned(place)
        } else {
            self.by_bytes(place)
        }
    }

    /// Writes it into a whole state of its shape. It takes no memory.
    pub fn fill(&self, into: &mut State)
        requires { into.old.shape ≡ self.now.shape }
        ensures { into.new ≡ self.now }
    {
        into.put_snapshot(&self.last);
        if let Some(prev) = &self.prev {
            into.stride(prev, self.ahead);
        }
    }

    // A word, byte by byte.
    #[cold]
    #[inline(never)]
    fn by_bytes(&self, place: u32) -> u32
        requires { place + 4 ≤ length_of self.now.shape }
        ensures { result ≡ word_at self.now.bytes place }
    {
        let _ = self.shape();
        u32::from_le_bytes([
            self.byte(place),
            self.byte(place + 1),
            self.byte(place + 2),
            self.byte(place + 3),
        ])
    }

    // The word at a place that is a multiple of 4.
    #[inline(always)]
    fn aligned(&self, place: u32) -> u32
        requires aligned { place % 4 ≡ 0 }
        requires within { place < length_of self.now.shape }
        ensures { result ≡ word_at self.now.bytes place }
    {
        // That it is a state.
        let _ = self.last.shape();
        let last = self.last.word(place);
        match &self.prev {
            None => last,
            Some(prev) => strided(last, prev.word(place), self.ahead),
        }
    }
}
