ghost use Rattle.std.specs.Prelude.{◌≡◌, ◌+◌, ◌-◌, ◌^◌, ◌≤◌, ◌<◌, min, Some, None, Ok, IfOk, OnErr, length, take};
ghost use Rattle.asc_outside.specs.Outside.{HasCause, given_after};
ghost use Rattle.asc_outside.specs.Lists.{given_number};

use crate::{Failed, Sink};
use std::marker::Model;

/// A sink that never fails, and keeps only how many bytes it was given. The number stops at 2^64 - 1.
///
/// Contracts see it as that number.
#[derive(Drop)]
pub struct CountSink {
    count: u64,
}

impl Model for CountSink {
    ghost use Rattle.std.specs.Prelude.{ℕ};

    ghost Value = { ℕ };

    ghost view = { λ s. s.count };
}

impl CountSink {
    /// A sink that was given nothing.
    pub fn new() -> CountSink
        ensures { result ≡ 0 }
    {
        CountSink { count: 0 }
    }

    /// How many bytes it was given, or 2^64 - 1 where they are more.
    pub fn count(&self) -> u64
        ensures { result ≡ self.now }
    {
        self.count
    }
}

impl Sink for CountSink {
    ghost given = { given_number };

    ghost faults = { λ _. 0 };

    fn put(&mut self, piece: &[u8]) -> Result<usize, Failed>
        requires { 0 < length piece.now }
        ensures takes { result ≡ Ok (length piece.now) }
        ensures some { IfOk result (λ k. 0 < k) }
        ensures count { IfOk result (λ k. k ≤ length piece.now) }
        ensures given { IfOk result
            (λ k. given_number self.new ≡ given_after (given_number self.old) (take k piece.now)) }
        ensures nothing { OnErr result (given_number self.new ≡ given_number self.old) }
        ensures cause { HasCause 0 0 result }
    {
        self.count = self.count.saturating_add(piece.len() as u64);
        Ok(piece.len())
    }
}
