//! The program headers of a file, one after another.

ghost use Rattle.std.specs.Prelude.{◌≡◌};
ghost use Rattle.std.specs.Iterator.{YieldsFirst, item_count};
ghost use Rattle.asc_elf.specs.File.{Header, headers};
ghost use Rattle.asc_elf.specs.Checked.{HasTable};

use crate::file::{Header, PROGRAM_HEADER_SIZE, e_phnum, e_phoff};
use std::marker::Model;

/// An iterator over the program headers of a file. Contracts see it as the list of those that are left.
#[derive(Drop)]
pub(crate) struct HeadersLeft<'a> {
    file: &'a [u8],
    next: u32,
}

impl<'a> Model for HeadersLeft<'a> {
    ghost use Rattle.std.specs.Prelude.{List, drop};
    ghost use Rattle.asc_elf.specs.File as model;
    ghost use Rattle.asc_elf.specs.Checked.{HasTable};

    ghost Value = { List model.Header };

    ghost view = { λ left. drop left.next (model.headers left.file.now) };

    ghost invariant = { λ left. HasTable left.file.now };
}

/// The program headers of a file, in their order.
pub(crate) fn headers(file: &[u8]) -> HeadersLeft<'_>
    requires { HasTable file.now }
    ensures { result ≡ headers file.now }
{
    HeadersLeft { file, next: 0 }
}

impl Iterator for HeadersLeft<'_> {
    type Item = Header;

    ghost next_gives = { YieldsFirst {A = Header} (λ left. left) };

    ghost remaining = { item_count (λ left. left) };

    fn next(&mut self) -> Option<Header> {
        if self.next < e_phnum(self.file) {
            let at = e_phoff(self.file) as usize + PROGRAM_HEADER_SIZE * self.next as usize;
            self.next += 1;
            Some(Header::at(self.file, at))
        } else {
            None
        }
    }
}
