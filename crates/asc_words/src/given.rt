ghost use Rattle.std.specs.Prelude.{◌≡◌, IfOk, IfErr, IsOkAnd};
ghost use Rattle.std.specs.Vec.Iter.{into_iter_items};
ghost use Rattle.asc_words.specs.Given.{IsUnread};

use crate::answer::Bad;
use crate::line::LineFault;
use std::alloc::Global;
use std::env::Args;
use std::io;
use std::io::ErrorKind;

/// The words of the command line, as the system gave them. Where they are not all text, they are no command's. Want of
/// memory is the other refusal.
pub fn given_words(alloc: Global, given: io::Result<Args>) -> Result<Vec<String>, LineFault>
    ensures given { IfOk result (λ words. IsOkAnd given (λ args. words.items ≡ into_iter_items args)) }
    ensures refused { IfErr result (λ fault. IsUnread given fault) }
{
    match given {
        Ok(words) => Ok(words.collect(alloc)?),
        Err(error) if error.kind() == ErrorKind::OutOfMemory => Err(LineFault::Memory),
        Err(_) => Err(LineFault::Usage(Bad::Words)),
    }
}
