//! The numbers of a file, by their names in the definition.

ghost use Rattle.std.specs.Prelude.{◌≡◌, ◌+◌, ◌*◌, ◌≤◌, length};
ghost use Rattle.asc_model.specs.Number.{number_at, word_at};
ghost use Rattle.asc_model.specs.EntryFile.{header_size, counts_size, count_in, steps_in, read_count, write_count, reads_end, writes_end};

use byteorder::{ByteOrder, LittleEndian};

/// The bytes of a header.
pub(crate) const HEADER_SIZE: usize = 20;

/// The bytes of an entry's steps and counts.
pub(crate) const COUNTS_SIZE: usize = 16;

/// The bytes of a place and its byte.
pub(crate) const CELL_SIZE: usize = 5;

/// The number in the four bytes from a place on.
pub(crate) fn word(bytes: &[u8], at: usize) -> u32
    requires { at + 4 ≤ length bytes.now }
    ensures { result ≡ word_at bytes.now at }
{
    LittleEndian::read_u32(&bytes[at..])
}

/// How many entries a file tells of.
pub(crate) fn count(file: &[u8]) -> u32
    requires { header_size ≤ length file.now }
    ensures { result ≡ count_in file.now }
{
    word(file, 16)
}

/// The steps of the entry at the front of bytes.
pub(crate) fn steps(bytes: &[u8]) -> u64
    requires { counts_size ≤ length bytes.now }
    ensures { result ≡ steps_in bytes.now }
{
    LittleEndian::read_u64(bytes)
}

/// How many reads it has.
pub(crate) fn read_count(bytes: &[u8]) -> u32
    requires { counts_size ≤ length bytes.now }
    ensures { result ≡ read_count bytes.now }
{
    word(bytes, 8)
}

/// How many writes it has.
pub(crate) fn write_count(bytes: &[u8]) -> u32
    requires { counts_size ≤ length bytes.now }
    ensures { result ≡ write_count bytes.now }
{
    word(bytes, 12)
}

/// Where its reads end.
pub(crate) fn reads_end(bytes: &[u8]) -> usize
    requires { counts_size ≤ length bytes.now }
    ensures { result ≡ reads_end bytes.now }
{
    COUNTS_SIZE + CELL_SIZE * read_count(bytes) as usize
}

/// Where its writes end, and the entry.
pub(crate) fn writes_end(bytes: &[u8]) -> usize
    requires { counts_size ≤ length bytes.now }
    ensures { result ≡ writes_end bytes.now }
{
    COUNTS_SIZE + CELL_SIZE * (read_count(bytes) as usize + write_count(bytes) as usize)
}
