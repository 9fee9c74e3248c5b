ghost use Rattle.std.specs.Prelude.{◌≡◌, ◌+◌, ◌%◌, ◌≤◌, true, length};
ghost use Rattle.asc_model.specs.Number.{bytes_of, word_at};
ghost use Rattle.asc_model.specs.Places.{places_from, cells};
ghost use Rattle.asc_shape.specs.Face.{face_after_reads, face_after_puts, room_of, untouched_count};
ghost use Rattle.asc_shape.specs.Settled.{IsReadWord, IsSettled, unwritten_count};

use crate::Bytes;

/// A state that code also reads and writes word by word.
///
/// Its words have bodies of single bytes. A type with quicker words has its own, and may use `get_by_bytes` and
/// `put_by_bytes` for the rest.
pub trait Words: Bytes {
    /// The word in the four bytes from a place on, the lowest byte first.
    fn get_word(&mut self, place: u32) -> u32
        requires place { place + 4 ≤ length (Self.face self.old).state.bytes }
        requires room { 4 ≤ room_of (Self.face self.old).marks }
        ensures word { result ≡ word_at (Self.face self.old).state.bytes place }
        ensures face { Self.face self.new ≡ face_after_reads (Self.face self.old) (places_from place 4) }
    {
        get_by_bytes(self, place)
    }

    /// Puts a word in the four bytes from a place on, the lowest byte first.
    fn put_word(&mut self, place: u32, word: u32)
        requires place { place + 4 ≤ length (Self.face self.old).state.bytes }
        requires room { 4 ≤ room_of (Self.face self.old).marks }
        ensures face { Self.face self.new ≡ face_after_puts (Self.face self.old) (cells place (bytes_of 4 word)) }
    {
        put_by_bytes(self, place, word);
    }

    /// The pc, which this does not touch.
    fn peek_pc(&self) -> u32
        ensures { result ≡ word_at (Self.face self.now).state.bytes 0 };

    /// The word in four bytes that are touched, as `get_word` reads it. No status changes by it.
    fn get_touched(&mut self, place: u32) -> u32
        requires place { place + 4 ≤ length (Self.face self.old).state.bytes }
        requires room { 4 ≤ room_of (Self.face self.old).marks }
        requires touched { untouched_count (Self.face self.old).marks (places_from place 4) ≡ 0 }
        ensures word { result ≡ word_at (Self.face self.old).state.bytes place }
        ensures face { Self.face self.new ≡ face_after_reads (Self.face self.old) (places_from place 4) }
    {
        self.get_word(place)
    }

    /// Puts a word in four bytes that are written, as `put_word` does. No status changes by it.
    fn put_written(&mut self, place: u32, word: u32)
        requires place { place + 4 ≤ length (Self.face self.old).state.bytes }
        requires room { 4 ≤ room_of (Self.face self.old).marks }
        requires written { unwritten_count (Self.face self.old).marks (places_from place 4) ≡ 0 }
        ensures face { Self.face self.new ≡ face_after_puts (Self.face self.old) (cells place (bytes_of 4 word)) }
    {
        self.put_word(place, word);
    }

    /// Whether the word of code at a place is known to be settled. A type that remembers none says that none is.
    fn is_settled(&self, place: u32) -> bool
        requires place { place + 4 ≤ length (Self.face self.now).state.bytes }
        requires aligned { place % 4 ≡ 0 }
        ensures { result ≡ true → IsSettled (Self.face self.now) place }
    {
        let _ = place;
        false
    }

    /// Lets the word of code at a place be remembered as settled, where its bytes were only read. A type that remembers
    /// none does nothing.
    fn settle(&mut self, place: u32)
        requires place { place + 4 ≤ length (Self.face self.old).state.bytes }
        requires aligned { place % 4 ≡ 0 }
        requires settled { IsReadWord (Self.face self.old).marks place → IsSettled (Self.face self.old) place }
        ensures { Self.face self.new ≡ Self.face self.old }
    {
        let _ = place;
    }
}

/// The word in the four bytes from a place on, read one after another.
pub fn get_by_bytes<B: Bytes>(bytes: &mut B, place: u32) -> u32
    requires place { place + 4 ≤ length (B.face bytes.old).state.bytes }
    requires room { 4 ≤ room_of (B.face bytes.old).marks }
    ensures word { result ≡ word_at (B.face bytes.old).state.bytes place }
    ensures face { B.face bytes.new ≡ face_after_reads (B.face bytes.old) (places_from place 4) }
{
    // Its shape bounds the places of a state, so that the sums below fit.
    let _ = bytes.shape();
    u32::from_le_bytes([
        bytes.get(place),
        bytes.get(place + 1),
        bytes.get(place + 2),
        bytes.get(place + 3),
    ])
}

/// Puts a word in the four bytes from a place on, one after another.
pub fn put_by_bytes<B: Bytes>(bytes: &mut B, place: u32, word: u32)
    requires place { place + 4 ≤ length (B.face bytes.old).state.bytes }
    requires room { 4 ≤ room_of (B.face bytes.old).marks }
    ensures face { B.face bytes.new ≡ face_after_puts (B.face bytes.old) (cells place (bytes_of 4 word)) }
{
    // Its shape bounds the places of a state, so that the sums below fit.
    let _ = bytes.shape();
    let [first, second, third, fourth] = word.to_le_bytes();
    bytes.put(place, first);
    bytes.put(place + 1, second);
    bytes.put(place + 2, third);
    bytes.put(place + 3, fourth);
}
