//! The reads and the writes of an entry in a file.

ghost use Rattle.std.specs.Prelude.{◌≡◌, ◌≤◌, ℕ, length};
ghost use Rattle.std.specs.Iterator.{YieldsFirst, item_count};
ghost use Rattle.asc_model.specs.EntryFile.{reads_in, writes_in, reads_end, writes_end};

use crate::fields::{CELL_SIZE, COUNTS_SIZE, read_count, reads_end, word, write_count};
use std::marker::Model;

/// An iterator over places, each with its byte. Contracts see it as the list of those that are left.
#[derive(Drop)]
pub(crate) struct Cells<'a> {
    rest: &'a [u8],
    left: u32,
}

impl<'a> Model for Cells<'a> {
    ghost use Rattle.std.specs.Prelude.{ℕ, ◌*◌, ◌≤◌, List, length};
    ghost use Rattle.asc_model.specs.EntryFile.{cell_size, cells_in};

    ghost Value = { List (ℕ × ℕ) };

    ghost view = { λ cells. cells_in cells.left cells.rest.now };

    ghost invariant = { λ cells. cell_size * cells.left ≤ length cells.rest.now };
}

/// The reads of the entry at the front of bytes.
pub(crate) fn reads(bytes: &[u8]) -> Cells<'_>
    requires { reads_end bytes.now ≤ length bytes.now }
    ensures { result ≡ reads_in bytes.now }
{
    Cells {
        rest: &bytes[COUNTS_SIZE..],
        left: read_count(bytes),
    }
}

/// The writes of the entry at the front of bytes.
pub(crate) fn writes(bytes: &[u8]) -> Cells<'_>
    requires { writes_end bytes.now ≤ length bytes.now }
    ensures { result ≡ writes_in bytes.now }
{
    Cells {
        rest: &bytes[reads_end(bytes)..],
        left: write_count(bytes),
    }
}

impl Iterator for Cells<'_> {
    type Item = (u32, u8);

    ghost next_gives = { YieldsFirst {A = ℕ × ℕ} (λ left. left) };

    ghost remaining = { item_count (λ left. left) };

    fn next(&mut self) -> Option<(u32, u8)> {
        if self.left == 0 {
            return None;
        }
        let cell = (word(self.rest, 0), self.rest[4]);
        self.rest = &self.rest[CELL_SIZE..];
        self.left -= 1;
        Some(cell)
    }
}
