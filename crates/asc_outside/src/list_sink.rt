ghost use Rattle.std.specs.Prelude.{◌≡◌, ◌≤◌, ◌<◌, [], IfOk, OnErr, length, take};
ghost use Rattle.asc_outside.specs.Outside.{HasCause, given_after};
ghost use Rattle.asc_outside.specs.Failures.{failures_of};
ghost use Rattle.asc_outside.specs.Lists.{given_to, accepted_count, after_put};

use crate::failures::Failures;
use crate::{Failed, Memory, Sink};
use std::alloc::Global;
use std::marker::Model;

/// A sink that keeps its bytes in a list with a fixed room, and takes few a call. Chosen calls of it fail, and calls
/// that find the room used up.
#[derive(Drop)]
pub struct ListSink {
    bytes: Vec<u8>,
    room: usize,
    most: usize,
    failures: Failures,
}

impl Model for ListSink {
    ghost use Rattle.std.specs.Prelude.{◌≤◌, ◌+◌, vec_len, vec_capacity};
    ghost use Rattle.asc_outside.specs.Lists.{Writing};

    ghost Value = { Writing };

    ghost view = { λ s. record { bytes = s.bytes.items; room = s.room; most = s.most; failures = s.failures } };

    ghost invariant = { λ s. (1 ≤ s.most) × (vec_len s.bytes + s.room ≤ vec_capacity s.bytes) };
}

impl ListSink {
    /// A sink with room for `room` bytes, all reserved here, that takes at most `most` bytes a call, and fails the
    /// calls whose numbers, from 1, stand in `fails`.
    pub fn new(alloc: Global, room: usize, most: usize, fails: Vec<u64>) -> Result<ListSink, Memory>
        requires { 1 ≤ most }
        ensures { IfOk result
            (λ s. s ≡ record { bytes = []; room = room; most = most; failures = failures_of fails.items }) }
    {
        Ok(ListSink {
            bytes: Vec::with_capacity(alloc, room)?,
            room,
            most,
            failures: Failures::new(fails),
        })
    }

    /// The bytes that it was given.
    pub fn bytes(&self) -> &[u8]
        ensures { result.now ≡ self.now.bytes }
    {
        self.bytes.as_slice()
    }
}

impl Sink for ListSink {
    ghost given = { given_to };

    ghost faults = { λ s. s.failures.faults };

    fn put(&mut self, piece: &[u8]) -> Result<usize, Failed>
        ensures accepts { IfOk result (λ k. k ≡ accepted_count self.old (length piece.now)) }
        ensures fails { OnErr result (accepted_count self.old (length piece.now) ≡ 0) }
        ensures after { self.new ≡ after_put self.old piece.now }
        ensures some { IfOk result (λ k. 0 < k) }
        ensures count { IfOk result (λ k. k ≤ length piece.now) }
        ensures given { IfOk result
            (λ k. given_to self.new ≡ given_after (given_to self.old) (take k piece.now)) }
        ensures nothing { OnErr result (given_to self.new ≡ given_to self.old) }
        ensures cause { HasCause self.old.failures.faults self.new.failures.faults result }
    {
        self.failures.call()?;
        let n = self.most.min(piece.len()).min(self.room);
        if n == 0 {
            return Err(self.failures.fail());
        }
        self.bytes.extend_from_slice(&piece[..n]).unwrap();
        self.room -= n;
        Ok(n)
    }
}
