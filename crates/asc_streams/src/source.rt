ghost use Rattle.std.specs.Prelude.{◌≡◌};

use crate::SteadyRead;
use asc_outside::{Failed, Source};

/// The most bytes that one call takes.
const PIECE: usize = 4096;

/// A reader as a source. What is left is what the reader tells, where it does.
#[derive(Drop)]
pub struct StreamSource<R> {
    reader: R,
    faults: u64,
}

impl<R> StreamSource<R> {
    /// A source that has not failed yet.
    pub fn new(reader: R) -> StreamSource<R>
        ensures { result ≡ record { reader = reader; faults = 0 } }
    {
        StreamSource { reader, faults: 0 }
    }
}

impl<R: SteadyRead> Source for StreamSource<R> {
    ghost left = { λ s. R.remaining s.reader };

    ghost faults = { λ s. s.faults };

    /// Takes at most 4096 bytes by one read, which goes into a buffer of its own, so that a read that fails, or that
    /// writes past what it tells, changes nothing of the caller's.
    ///
    /// Any error of the reader is a failure, also an interruption: nothing is read again.
    fn take(&mut self, into: &mut [u8]) -> Result<usize, Failed> {
        let mut piece = [0; PIECE];
        let most = into.len().min(PIECE);
        match self.reader.read(&mut piece[..most]) {
            Ok(count) => {
                into[..count].copy_from_slice(&piece[..count]);
                Ok(count)
            }
            Err(_) => {
                self.faults = self.faults.saturating_add(1);
                Err(Failed)
            }
        }
    }
}
