ghost use Rattle.std.specs.Prelude.{◌≡◌, ◌≤◌, ◌<◌, [], vec_len, IfOk, IfErr, IsOkAnd, IsErrAnd, OnErr};
ghost use Rattle.std.specs.IoError.{error_kind};
ghost use Rattle.asc_outside.specs.Outside.{HasStoreCause, one_more};
ghost use Rattle.asc_streams.specs.Told.{Remains, MoreRemains, IsFaultOf};

use asc_outside::{Loaded, Store, StoreFault};
use std::fs::File;
use std::io;
use std::io::{ErrorKind, Read};
use std::rt::Files;

/// A file system as a store. It tells nothing of its files.
#[derive(Drop)]
pub struct FileStore<'a, R> {
    system: &'a R,
    faults: u64,
}

impl<'a, R> FileStore<'a, R> {
    /// A store that has not failed yet.
    pub fn new(system: &'a R) -> FileStore<'a, R>
        ensures { result.faults ≡ 0 }
    {
        FileStore { system, faults: 0 }
    }
}

impl<R: Files> Store for FileStore<'_, R> {
    ghost use Rattle.std.specs.Prelude.{None};

    ghost files = { λ _. None };

    ghost asked = { λ _. None };

    ghost faults = { λ s. s.faults };

    /// Reads the file at a path. Reading stops one byte past `most`.
    ///
    /// A path that leads nowhere, a folder and a file that gives no end within 2^64 reads are failures.
    fn read(&mut self, name: &str, into: &mut Vec<u8>, most: usize) -> Result<Loaded, StoreFault> {
        load(File::open(self.system, name), into, most, &mut self.faults)
    }
}

/// Reads all that remains of a reader that was opened, where that is at most `most` bytes, and counts a failure.
fn load<R: Read + Drop>(
    opened: io::Result<R>,
    into: &mut Vec<u8>,
    most: usize,
    faults: &mut u64,
) -> Result<Loaded, StoreFault>
    ensures whole { result ≡ Ok Loaded.Whole → IsOkAnd opened (λ reader. Remains (R.remaining reader) into.new.items) }
    ensures within { vec_len into.new ≤ most }
    ensures longer { result ≡ Ok Loaded.Longer → IsOkAnd opened (λ reader. MoreRemains (R.remaining reader) most) }
    ensures empty { result ≡ Ok Loaded.Longer → into.new.items ≡ [] }
    ensures err { OnErr result (into.new.items ≡ []) }
    ensures unopened { IfErr opened (λ error. IsErrAnd result (IsFaultOf (error_kind error))) }
    ensures cause { HasStoreCause faults.old faults.new result }
{
    into.clear();
    let read = match opened {
        Ok(reader) => read_past(reader, into, most),
        Err(error) => Err(error),
    };
    match read {
        Ok(count) if count <= most => Ok(Loaded::Whole),
        Ok(_) => {
            into.clear();
            Ok(Loaded::Longer)
        }
        Err(error) => {
            into.clear();
            Err(fault_of(error, faults))
        }
    }
}

/// Reads all that remains of a reader into an empty buffer, or one byte more than `most`, and tells how many.
fn read_past<R: Read + Drop>(reader: R, into: &mut Vec<u8>, most: usize) -> io::Result<usize>
    requires { into.old.items ≡ [] }
    ensures count { IfOk result (λ count. vec_len into.new ≡ count) }
    ensures whole { IfOk result (λ count. count ≤ most → Remains (R.remaining reader) into.new.items) }
    ensures longer { IfOk result (λ count. most < count → MoreRemains (R.remaining reader) most) }
{
    reader
        .take((most as u64).saturating_add(1))
        .read_to_end(into)
}

/// What an error of the file system is here. Each one counts but for want of memory.
fn fault_of(error: io::Error, faults: &mut u64) -> StoreFault
    ensures kind { IsFaultOf (error_kind error) result }
    ensures memory { result ≡ StoreFault.Memory → faults.new ≡ faults.old }
    ensures failed { result ≡ StoreFault.Failed → faults.new ≡ one_more faults.old }
{
    if error.kind() == ErrorKind::OutOfMemory {
        return StoreFault::Memory;
    }
    *faults = faults.saturating_add(1);
    StoreFault::Failed
}
