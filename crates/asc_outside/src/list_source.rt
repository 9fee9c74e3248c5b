ghost use Rattle.std.specs.Prelude.{◌≡◌, ◌≤◌, ◌<◌, Some, IfOk, OnErr, is_err, length, take, drop};
ghost use Rattle.asc_outside.specs.Outside.{HasCause, Takes, IsAtEnd};
ghost use Rattle.asc_outside.specs.Failures.{failures_of, fails_next};
ghost use Rattle.asc_outside.specs.Lists.{given_count, after_take};

use crate::failures::Failures;
use crate::{Failed, Source};
use std::marker::Model;

/// A source of the bytes of a list, of which it gives few a call. Chosen calls of it fail.
#[derive(Drop)]
pub struct ListSource {
    bytes: Vec<u8>,
    at: usize,
    most: usize,
    failures: Failures,
}

impl Model for ListSource {
    ghost use Rattle.std.specs.Prelude.{◌≤◌, drop, length};
    ghost use Rattle.asc_outside.specs.Lists.{Reading};

    ghost Value = { Reading };

    ghost view = { λ s. record { left = drop s.at s.bytes.items; most = s.most; failures = s.failures } };

    ghost invariant = { λ s. (1 ≤ s.most) × (s.at ≤ length s.bytes.items) };
}

impl ListSource {
    /// A source of these bytes that gives at most `most` of them a call, and fails the calls whose numbers, from 1,
    /// stand in `fails`.
    pub fn new(bytes: Vec<u8>, most: usize, fails: Vec<u64>) -> ListSource
        requires { 1 ≤ most }
        ensures { result ≡ record { left = bytes.items; most = most; failures = failures_of fails.items } }
    {
        ListSource {
            bytes,
            at: 0,
            most,
            failures: Failures::new(fails),
        }
    }
}

impl Source for ListSource {
    ghost left = { λ s. Some s.left };

    ghost faults = { λ s. s.failures.faults };

    fn take(&mut self, into: &mut [u8]) -> Result<usize, Failed>
        requires { 0 < length into.old }
        ensures fails { is_err result ≡ fails_next self.old.failures }
        ensures gives { IfOk result (λ k. k ≡ given_count self.old (length into.old)) }
        ensures after { self.new ≡ after_take self.old (length into.old) }
        ensures count { IfOk result (λ k. k ≤ length into.old) }
        ensures taken { IfOk result (λ k. Takes (Some self.old.left) (Some self.new.left) (take k into.new)) }
        ensures behind { IfOk result (λ k. drop k into.new ≡ drop k into.old) }
        ensures end { result ≡ Ok 0 → IsAtEnd (Some self.old.left) }
        ensures nothing { OnErr result (self.new.left ≡ self.old.left) }
        ensures buffer { OnErr result (into.new ≡ into.old) }
        ensures cause { HasCause self.old.failures.faults self.new.failures.faults result }
    {
        self.failures.call()?;
        let n = self.most.min(into.len()).min(self.bytes.len() - self.at);
        into[..n].copy_from_slice(&self.bytes[self.at..self.at + n]);
        self.at += n;
        Ok(n)
    }
}
