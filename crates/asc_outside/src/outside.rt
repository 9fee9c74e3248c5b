ghost use Rattle.std.specs.Prelude.{◌≡◌, ◌<◌, ◌≤◌, ℕ, List, Option, [], length, take, drop, vec_len, IfOk, OnOk, OnErr};
ghost use Rattle.asc_outside.specs.Outside.{HasCause, HasStoreCause, AsksFor, Takes, IsAtEnd, Given, given_after, PutsPart, File, MayHold, MayHoldLonger};

use std::alloc::{AllocError, AllocFailed};

/// Want of memory.
#[derive(Clone, Copy, Debug, PartialEq, Eq)]
pub struct Memory;

impl From<AllocError> for Memory {
    fn from(_: AllocError) -> Memory {
        Memory
    }
}

impl<T: Drop> From<AllocFailed<T>> for Memory {
    fn from(_: AllocFailed<T>) -> Memory {
        Memory
    }
}

/// A source or a sink failed.
#[derive(Clone, Copy, Debug, PartialEq, Eq)]
pub struct Failed;

/// A stream of bytes that is read.
pub trait Source {
    /// The bytes that are left, where they are told.
    ghost left: { Self → Option (List ℕ) };

    /// How often it has failed.
    ghost faults: { Self → ℕ };

    /// Takes bytes from the front of what is left into the front of a buffer that is not empty, and tells how many.
    ///
    /// It may take fewer than the buffer holds. Zero is the end of the input. The buffer stays as it was behind the
    /// bytes taken.
    fn take(&mut self, into: &mut [u8]) -> Result<usize, Failed>
        requires { 0 < length into.old }
        ensures count { IfOk result (λ k. k ≤ length into.old) }
        ensures taken { IfOk result (λ k. Takes (left self.old) (left self.new) (take k into.new)) }
        ensures behind { IfOk result (λ k. drop k into.new ≡ drop k into.old) }
        ensures end { result ≡ Ok 0 → IsAtEnd (left self.old) }

        // A call that fails takes nothing.
        ensures nothing { OnErr result (left self.new ≡ left self.old) }
        ensures buffer { OnErr result (into.new ≡ into.old) }
        ensures cause { HasCause (faults self.old) (faults self.new) result };
}

/// A stream of bytes that is written.
pub trait Sink {
    /// The bytes that it was given and their number, where they are told.
    ghost given: { Self → Given };

    /// How often it has failed.
    ghost faults: { Self → ℕ };

    /// Takes bytes from the front of a piece that is not empty, at least one, and tells how many.
    fn put(&mut self, piece: &[u8]) -> Result<usize, Failed>
        requires { 0 < length piece.now }
        ensures some { IfOk result (λ k. 0 < k) }
        ensures count { IfOk result (λ k. k ≤ length piece.now) }
        ensures given { IfOk result (λ k. given self.new ≡ given_after (given self.old) (take k piece.now)) }

        // A call that fails appends nothing.
        ensures nothing { OnErr result (given self.new ≡ given self.old) }
        ensures cause { HasCause (faults self.old) (faults self.new) result };
}

/// Puts all bytes of a piece to a sink, which may take fewer than it is offered, and is then asked again for the rest.
///
/// Where the sink fails, it was given the first bytes of the piece, and not all. Where the piece is empty the sink is
/// not asked.
pub fn put_all<S: Sink>(sink: &mut S, piece: &[u8]) -> Result<(), Failed>
    ensures all { OnOk result (S.given sink.new ≡ given_after (S.given sink.old) piece.now) }
    ensures part { OnErr result (PutsPart (S.given sink.old) (S.given sink.new) piece.now) }
    ensures cause { HasCause (S.faults sink.old) (S.faults sink.new) result }
{
    let mut put = 0;
    while put < piece.len() {
        put += sink.put(&piece[put..])?;
    }
    Ok(())
}

/// How a file was read.
#[derive(Clone, Copy, Debug, PartialEq, Eq)]
pub enum Loaded {
    /// The buffer is the file.
    Whole,
    /// The file has more bytes than were asked for.
    Longer,
}

/// Why a file was not read.
#[derive(Clone, Copy, Debug, PartialEq, Eq)]
pub enum StoreFault {
    /// The store failed, or has no such file.
    Failed,
    /// Want of memory.
    Memory,
}

/// Files by name.
pub trait Store {
    /// Its files, where they are told.
    ghost files: { Self → Option (List File) };

    /// The names that it was asked for, in order, where they are told.
    ghost asked: { Self → Option (List (List ℕ)) };

    /// How often it has failed.
    ghost faults: { Self → ℕ };

    /// Reads a file of at most `most` bytes into a buffer, whose content before the call is dropped.
    ///
    /// After `Longer` and after an error the buffer is empty.
    fn read(&mut self, name: &str, into: &mut Vec<u8>, most: usize) -> Result<Loaded, StoreFault>
        ensures files { files self.new ≡ files self.old }
        ensures asked { AsksFor name.now (asked self.old) (asked self.new) }
        ensures whole { result ≡ Ok Loaded.Whole → MayHold (files self.old) name.now into.new.items }
        ensures within { vec_len into.new ≤ most }
        ensures longer { result ≡ Ok Loaded.Longer → MayHoldLonger (files self.old) name.now most }
        ensures empty { result ≡ Ok Loaded.Longer → into.new.items ≡ [] }
        ensures err { OnErr result (into.new.items ≡ []) }
        ensures cause { HasStoreCause (faults self.old) (faults self.new) result };
}
