ghost use Rattle.std.specs.Prelude.{◌≡◌, ◌<◌, ◌≤◌, length, slice_index};
ghost use Rattle.asc_model.specs.State.{IsState};
ghost use Rattle.asc_shape.specs.Face.{Face, FitPlaces, face_after_read, face_after_put, room_of};

use crate::Shape;

/// A state that code reads and writes byte by byte.
///
/// Its face is the state, and how each place was touched where the type tells that, with the number of places that may
/// be touched. Room is that number less the places touched; a type that doesn't tell its marks has no end of it.
pub trait Bytes {
    /// The state, how its places were touched, and how many may be.
    ghost face: { Self → Face };

    /// The shape. A caller's proof learns from it that this is a state, and that its marks fit it.
    fn shape(&self) -> Shape
        ensures shape { result ≡ (face self.now).state.shape }
        ensures state { IsState (face self.now).state }
        ensures marks { FitPlaces (length (face self.now).state.bytes) (face self.now).marks };

    /// How many more places may be touched: the greatest `usize` where marks are not told.
    fn room(&self) -> usize
        ensures { result ≡ room_of (face self.now).marks };

    /// The byte at a place.
    fn get(&mut self, place: u32) -> u8
        requires place { place < length (face self.old).state.bytes }
        requires room { 1 ≤ room_of (face self.old).marks }
        ensures byte { result ≡ slice_index (face self.old).state.bytes place }
        ensures face { face self.new ≡ face_after_read (face self.old) place };

    /// Puts a byte at a place.
    fn put(&mut self, place: u32, byte: u8)
        requires place { place < length (face self.old).state.bytes }
        requires room { 1 ≤ room_of (face self.old).marks }
        ensures face { face self.new ≡ face_after_put (face self.old) place byte };
}
