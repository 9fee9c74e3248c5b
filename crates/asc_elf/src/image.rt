ghost use Rattle.std.specs.Prelude.{◌≡◌, IsTrue};
ghost use Rattle.asc_model.specs.Shape.{IsShape, is_size};
ghost use Rattle.asc_elf.specs.Image.{image_of, high_of};
ghost use Rattle.asc_elf.specs.Checked.{IsWhole};

use crate::ElfFault;
use crate::cases::{header_fault, segment_fault, table_fault};
use crate::file::e_entry;
use crate::segment::{highest, lowest, put_segments};
use asc_model::{PAGE_SIZE, Version};
use asc_shape::{Shape, State};
use std::marker::Model;

/// The bytes from the first stack pointer to the end of memory.
const BELOW_TOP: u32 = 64;

/// The bytes at the end of memory that are kept for the stack: 64 KiB.
const STACK_RESERVE: u32 = 65_536;

/// An accepted file, for a machine with a size and a version. It borrows the file's bytes.
///
/// Contracts see it as the state in which its program begins, and the program's first break.
#[derive(Drop)]
pub struct Image<'a> {
    file: &'a [u8],
    shape: Shape,
    entry: u32,
    low: u32,
}

impl<'a> Model for Image<'a> {
    ghost use Rattle.asc_elf.specs.Image as model;
    ghost use Rattle.asc_elf.specs.Checked.{IsAccepted};

    ghost Value = { model.Image };

    ghost view = { λ i. model.image_for i.file.now i.shape };

    ghost invariant = { λ i. IsAccepted i.file.now i.shape i.entry i.low };
}

/// The image that a file's bytes are, in a machine of this version with `size` bytes of memory, or the first fault.
pub fn read(bytes: &[u8], size: u32, version: Version) -> Result<Image<'_>, ElfFault>
    requires { IsTrue (is_size size) }
    ensures { result ≡ image_of bytes.now size version }
{
    if let Some(fault) = header_fault(bytes) {
        return Err(fault);
    }
    if let Some(fault) = table_fault(bytes) {
        return Err(fault);
    }
    if let Some(fault) = segment_fault(bytes) {
        return Err(fault);
    }
    laid_out(bytes, size, version)
}

/// The image of a file with no other fault than one of its place in memory, or that fault.
fn laid_out(file: &[u8], size: u32, version: Version) -> Result<Image<'_>, ElfFault>
    requires size { IsTrue (is_size size) }
    requires whole { IsWhole file.now }
    ensures { result ≡ image_of file.now size version }
{
    let lowest = lowest(file);
    let Ok(shape) = Shape::of(lowest - lowest % PAGE_SIZE, size, version) else {
        return Err(ElfFault::TooLarge);
    };
    let highest = highest(file);
    let stack = u64::from(shape.base()) + u64::from(size) - u64::from(BELOW_TOP);
    if stack < highest {
        return Err(ElfFault::TooLarge);
    }
    let entry = e_entry(file);
    if !entry.is_multiple_of(4) || !shape.holds(entry, 4) {
        return Err(ElfFault::Entry);
    }
    Ok(Image {
        file,
        shape,
        entry,
        low: ((highest + 15) / 16 * 16) as u32,
    })
}

impl Image<'_> {
    /// The shape of its machine.
    pub fn shape(&self) -> Shape
        ensures shape { result ≡ self.now.start.shape }
        ensures good { IsShape self.now.start.shape }
    {
        let _good = self.shape.base();
        self.shape
    }

    /// The program's break at first: behind its last segment, a multiple of 16.
    pub fn low(&self) -> u32
        ensures { result ≡ self.now.low }
    {
        self.low
    }

    /// The greatest break: where the stack's 64 KiB begin, or `low` where that lies above.
    pub fn high(&self) -> u32
        ensures { result ≡ high_of self.now }
    {
        self.low
            .max(self.shape.base() + (self.shape.size() - STACK_RESERVE))
    }

    /// Makes a state of the image's shape the one in which its program begins.
    pub fn put(&self, s: &mut State)
        requires { s.old.shape ≡ self.now.start.shape }
        ensures { s.new ≡ self.now.start }
    {
        s.fill();
        put_segments(self.file, s);
        s.set_pc(self.entry);
        s.set_reg(2, self.shape.base() + (self.shape.size() - BELOW_TOP));
    }
}
