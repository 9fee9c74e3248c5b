//! A state of its own kind, which steps as any does.
ghost use Rattle.asc_shape.specs.Face.{Untold};

use asc_shape::{Bytes, Shape, State, Words};

/// A state that counts the bytes that are put. The count stops at 2^64 - 1.
#[derive(Drop)]
pub struct Counted {
    /// The state.
    pub state: State,
    /// How many bytes were put.
    pub puts: u64,
}

/// It does not tell how its places were touched, and has no end of room.
impl Bytes for Counted {
    ghost face = { λ c. record { state = c.state; marks = Untold } };

    #[inline]
    fn shape(&self) -> Shape {
        self.state.shape()
    }

    #[inline]
    fn room(&self) -> usize {
        usize::MAX
    }

    #[inline]
    #[tactic(auto, unfolding(asc_shape::specs::Face::face_after_read))]
    fn get(&mut self, place: u32) -> u8 {
        // That it is a state, with a byte at each place.
        let _ = self.state.shape();
        self.state.get(place)
    }

    #[inline]
    #[tactic(auto, unfolding(asc_shape::specs::Face::face_after_put))]
    fn put(&mut self, place: u32, byte: u8) {
        // That it is a state, with a byte at each place.
        let _ = self.state.shape();
        self.state.set(place, byte);
        self.puts = self.puts.saturating_add(1);
    }
}

/// Its words are put byte by byte, and so are counted.
impl Words for Counted {
    #[inline]
    fn peek_pc(&self) -> u32 {
        // That it is a state, with a byte at each place.
        let _ = self.state.shape();
        self.state.word(0)
    }
}
