ghost use Rattle.std.specs.Prelude.{◌≡◌, ◌≤◌, ◌<◌, Some, Ok, IfOk, OnErr, min, length, take, drop};
ghost use Rattle.asc_outside.specs.Outside.{HasCause, Takes, IsAtEnd};

use crate::{Failed, Source};
use std::marker::Model;

/// A source of the bytes of a list that never fails, and gives as many as a buffer holds.
///
/// Contracts see it as the list of the bytes that are left.
#[derive(Drop)]
pub struct SureSource {
    bytes: Vec<u8>,
    at: usize,
}

impl Model for SureSource {
    ghost use Rattle.std.specs.Prelude.{ℕ, List, ◌≤◌, drop, length};

    ghost Value = { List ℕ };

    ghost view = { λ s. drop s.at s.bytes.items };

    ghost invariant = { λ s. s.at ≤ length s.bytes.items };
}

impl SureSource {
    /// A source of these bytes.
    pub fn new(bytes: Vec<u8>) -> SureSource
        ensures { result ≡ bytes.items }
    {
        SureSource { bytes, at: 0 }
    }
}

impl Source for SureSource {
    ghost left = { λ s. Some s };

    ghost faults = { λ _. 0 };

    fn take(&mut self, into: &mut [u8]) -> Result<usize, Failed>
        requires { 0 < length into.old }
        ensures gives { result ≡ Ok (min (length into.old) (length self.old)) }
        ensures count { IfOk result (λ k. k ≤ length into.old) }
        ensures taken { IfOk result (λ k. Takes (Some self.old) (Some self.new) (take k into.new)) }
        ensures behind { IfOk result (λ k. drop k into.new ≡ drop k into.old) }
        ensures end { result ≡ Ok 0 → IsAtEnd (Some self.old) }
        ensures nothing { OnErr result (self.new ≡ self.old) }
        ensures buffer { OnErr result (into.new ≡ into.old) }
        ensures cause { HasCause 0 0 result }
    {
        let n = into.len().min(self.bytes.len() - self.at);
        into[..n].copy_from_slice(&self.bytes[self.at..self.at + n]);
        self.at += n;
        Ok(n)
    }
}
