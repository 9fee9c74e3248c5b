ghost use Rattle.std.specs.Prelude.{◌≡◌, None};
ghost use Rattle.asc_model.specs.Case.{first_fault};
ghost use Rattle.asc_model.specs.EntryFile.{header_cases, shape_in};
ghost use Rattle.asc_save.specs.Load.{IsLoaded};

use crate::Saved;
use crate::faults::{entries_fault, header_fault};
use crate::fields::{HEADER_SIZE, count, word};
use crate::trace::retraced;
use asc_model::{SaveFault, Version};
use asc_outside::Memory;
use asc_shape::Shape;
use std::alloc::{AllocError, AllocFailed, Global};

/// Why a file was not loaded.
#[derive(Clone, Copy, Debug, PartialEq, Eq)]
pub enum LoadFault {
    /// The file is not one of saved entries.
    Bad(SaveFault),
    /// Want of memory.
    Memory,
}

impl From<Memory> for LoadFault {
    ghost use Rattle.asc_save.specs.declared.loading.LoadFault.TheVariants as faults;

    ghost from_gives = { λ _ fault. fault ≡ faults.Memory };

    fn from(_: Memory) -> LoadFault {
        LoadFault::Memory
    }
}

impl From<AllocError> for LoadFault {
    ghost use Rattle.asc_save.specs.declared.loading.LoadFault.TheVariants as faults;

    ghost from_gives = { λ _ fault. fault ≡ faults.Memory };

    fn from(_: AllocError) -> LoadFault {
        LoadFault::Memory
    }
}

impl<T: Drop> From<AllocFailed<T>> for LoadFault {
    ghost use Rattle.asc_save.specs.declared.loading.LoadFault.TheVariants as faults;

    ghost from_gives = { λ _ fault. fault ≡ faults.Memory };

    fn from(_: AllocFailed<T>) -> LoadFault {
        LoadFault::Memory
    }
}

/// The entries of a file, or the first of its faults.
///
/// The whole file is read before the first entry is traced. Each is then traced anew, from the state that has its reads
/// and else zeros, and what the traces make is handed out. A trace takes at most as many steps as the entry says, so a file
/// of 1,024 entries may ask for 1,024 times 1,000,000,000.
///
/// It takes the memory of a state and of a tracer of the file's shape.
pub fn load(alloc: Global, bytes: &[u8]) -> Result<Saved, LoadFault>
    ensures { IsLoaded bytes.now result }
{
    if let Some(fault) = header_fault(bytes) {
        return Err(LoadFault::Bad(fault));
    }
    let shape = shape(bytes);
    let count = count(bytes) as usize;
    let rest = &bytes[HEADER_SIZE..];
    if let Some(fault) = entries_fault(shape, count, rest) {
        return Err(LoadFault::Bad(fault));
    }
    let entries = retraced(alloc, shape, count, rest)?;
    Ok(Saved { shape, entries })
}

/// The shape of a file whose header has no fault.
fn shape(file: &[u8]) -> Shape
    requires { first_fault (header_cases file.now) ≡ None }
    ensures { result ≡ shape_in file.now }
{
    let version = if file[5] == 1 {
        Version::One
    } else {
        Version::Two
    };
    match Shape::of(word(file, 8), word(file, 12), version) {
        Ok(shape) => shape,
        Err(_) => unreachable!(),
    }
}
