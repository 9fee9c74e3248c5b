ghost use Rattle.std.specs.Prelude.{◌≡◌};
ghost use Rattle.asc_outside.specs.Outside.{one_more};

use crate::SteadyWrite;
use asc_outside::{Failed, Sink};

/// A writer as a sink. It was given what the writer tells that it holds, where it tells that.
///
/// Where a flush fails the put fails, though the writer took bytes. Those were not given, and nothing can be given
/// behind them: so the sink fails from then on and writes nothing more. Their number is kept in `unflushed`.
#[derive(Drop)]
pub struct StreamSink<W> {
    writer: W,
    unflushed: usize,
    faults: u64,
}

impl<W> StreamSink<W> {
    /// A sink that has not failed yet.
    pub fn new(writer: W) -> StreamSink<W>
        ensures { result ≡ record { writer = writer; unflushed = 0; faults = 0 } }
    {
        StreamSink {
            writer,
            unflushed: 0,
            faults: 0,
        }
    }
}

impl<W: SteadyWrite> Sink for StreamSink<W> {
    ghost use Rattle.asc_streams.specs.Told.{given_of};

    ghost given = { λ s. given_of (W.contents s.writer) s.unflushed };

    ghost faults = { λ s. s.faults };

    /// Writes the front of a piece through to where it goes, so that a full device or a closed pipe fails here.
    ///
    /// A write that takes no byte is a failure, and so is an interruption: nothing is written again.
    fn put(&mut self, piece: &[u8]) -> Result<usize, Failed> {
        if self.unflushed > 0 {
            return Err(self.fail());
        }
        let Ok(count) = self.writer.write(piece) else {
            return Err(self.fail());
        };
        if count == 0 {
            return Err(self.fail());
        }
        if self.writer.flush().is_err() {
            self.unflushed = count;
            return Err(self.fail());
        }
        Ok(count)
    }
}

impl<W> StreamSink<W> {
    /// Counts a failure.
    fn fail(&mut self) -> Failed
        ensures { self.new ≡ record self.old { faults = one_more self.old.faults } }
    {
        self.faults = self.faults.saturating_add(1);
        Failed
    }
}
