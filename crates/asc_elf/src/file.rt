//! The fields of a file, and its program headers.

ghost use Rattle.std.specs.Prelude.{◌≡◌, ◌+◌, ◌≤◌, true, false, length, take, drop};
ghost use Rattle.asc_shape.specs.State.{state_after_all};
ghost use Rattle.asc_elf.specs.File.{elf_header_size, program_header_size, half, word, e_type, e_machine, e_entry, e_phoff, e_flags, e_phentsize, e_phnum};
ghost use Rattle.asc_elf.specs.File.{header_at, is_load, is_segment};
ghost use Rattle.asc_elf.specs.Image.{is_interp, is_cut, segment_changes};
ghost use Rattle.asc_elf.specs.Checked.{HasPlace};

use asc_shape::State;
use byteorder::{ByteOrder, LittleEndian};
use std::marker::Model;

// The names are those of the System V ABI and the RISC-V ELF psABI, but for those of the two sizes.

/// The bytes of an ELF header.
pub(crate) const ELF_HEADER_SIZE: usize = 52;

/// The bytes of a program header.
pub(crate) const PROGRAM_HEADER_SIZE: usize = 32;

/// The place of the class in a file.
pub(crate) const EI_CLASS: usize = 4;

/// The place of the byte order.
pub(crate) const EI_DATA: usize = 5;

/// The place of the file version.
pub(crate) const EI_VERSION: usize = 6;

/// The class of 32-bit files.
pub(crate) const ELFCLASS32: u8 = 1;

/// The byte order that begins with the least byte.
pub(crate) const ELFDATA2LSB: u8 = 1;

/// The only file version.
pub(crate) const EV_CURRENT: u8 = 1;

/// The type of executable files.
pub(crate) const ET_EXEC: u16 = 2;

/// The machine RISC-V.
pub(crate) const EM_RISCV: u16 = 243;

/// The flag of programs that rely on total store order.
pub(crate) const EF_RISCV_TSO: u32 = 0x10;

/// The type of headers to load.
const PT_LOAD: u32 = 1;

/// The type of headers that ask for an interpreter.
const PT_INTERP: u32 = 3;

/// The number in the two bytes from a place on.
fn half(file: &[u8], at: usize) -> u16
    requires { at + 2 ≤ length file.now }
    ensures { result ≡ half file.now at }
{
    LittleEndian::read_u16(&file[at..])
}

/// The number in the four bytes from a place on.
fn word(file: &[u8], at: usize) -> u32
    requires { at + 4 ≤ length file.now }
    ensures { result ≡ word file.now at }
{
    LittleEndian::read_u32(&file[at..])
}

/// The kind of file.
pub(crate) fn e_type(file: &[u8]) -> u16
    requires { elf_header_size ≤ length file.now }
    ensures { result ≡ e_type file.now }
{
    half(file, 16)
}

/// The machine that it is for.
pub(crate) fn e_machine(file: &[u8]) -> u16
    requires { elf_header_size ≤ length file.now }
    ensures { result ≡ e_machine file.now }
{
    half(file, 18)
}

/// The address at which its program begins.
pub(crate) fn e_entry(file: &[u8]) -> u32
    requires { elf_header_size ≤ length file.now }
    ensures { result ≡ e_entry file.now }
{
    word(file, 24)
}

/// The place of the table of program headers.
pub(crate) fn e_phoff(file: &[u8]) -> u32
    requires { elf_header_size ≤ length file.now }
    ensures { result ≡ e_phoff file.now }
{
    word(file, 28)
}

/// The flags of its machine.
pub(crate) fn e_flags(file: &[u8]) -> u32
    requires { elf_header_size ≤ length file.now }
    ensures { result ≡ e_flags file.now }
{
    word(file, 36)
}

/// The bytes of a program header.
pub(crate) fn e_phentsize(file: &[u8]) -> u16
    requires { elf_header_size ≤ length file.now }
    ensures { result ≡ e_phentsize file.now }
{
    half(file, 42)
}

/// The number of program headers.
pub(crate) fn e_phnum(file: &[u8]) -> u32
    requires { elf_header_size ≤ length file.now }
    ensures { result ≡ e_phnum file.now }
{
    u32::from(half(file, 44))
}

/// A program header, without the fields that are passed over. The names are those of the System V ABI.
#[derive(Drop)]
pub(crate) struct Header {
    p_type: u32,
    p_offset: u32,
    p_vaddr: u32,
    p_filesz: u32,
    p_memsz: u32,
}

impl Model for Header {
    ghost use Rattle.asc_elf.specs.File as model;

    ghost Value = { model.Header };

    ghost view = { λ h. record {
      p_type = h.p_type;
      p_offset = h.p_offset;
      p_vaddr = h.p_vaddr;
      p_filesz = h.p_filesz;
      p_memsz = h.p_memsz;
    } };
}

impl Header {
    /// The program header at a place.
    #[tactic(auto, unfolding(crate::specs::File::header_at))]
    pub(crate) fn at(file: &[u8], at: usize) -> Header
        requires { at + program_header_size ≤ length file.now }
        ensures { result ≡ header_at file.now at }
    {
        Header {
            p_type: word(file, at),
            p_offset: word(file, at + 4),
            p_vaddr: word(file, at + 8),
            p_filesz: word(file, at + 16),
            p_memsz: word(file, at + 20),
        }
    }

    /// Whether it asks for an interpreter.
    pub(crate) fn is_interp(&self) -> bool
        ensures { result ≡ is_interp self.now }
    {
        self.p_type == PT_INTERP
    }

    /// Whether it is a header to load.
    pub(crate) fn is_load(&self) -> bool
        ensures { result ≡ is_load self.now }
    {
        self.p_type == PT_LOAD
    }

    /// Whether it loads something, which takes memory.
    pub(crate) fn is_segment(&self) -> bool
        ensures { result ≡ is_segment self.now }
    {
        self.is_load() && self.p_memsz > 0
    }

    /// Whether a header to load has more bytes in the file than in memory, or bytes past the end of the file.
    pub(crate) fn is_cut(&self, file: &[u8]) -> bool
        ensures { result ≡ is_cut file.now self.now }
    {
        let end = self.p_offset as usize + self.p_filesz as usize;
        self.is_load() && (self.p_memsz < self.p_filesz || self.p_filesz > 0 && file.len() < end)
    }

    /// The bytes that it loads, of a header that is not cut off.
    fn bytes<'a>(&self, file: &'a [u8]) -> &'a [u8]
        requires load { is_load self.now ≡ true }
        requires whole { is_cut file.now self.now ≡ false }
        ensures bytes { result.now ≡ take self.now.p_filesz (drop self.now.p_offset file.now) }
        ensures length { length result.now ≡ self.now.p_filesz }
        ensures fits { self.now.p_filesz ≤ self.now.p_memsz }
    {
        let at = self.p_offset as usize;
        let size = self.p_filesz as usize;
        if size == 0 { &[] } else { &file[at..at + size] }
    }

    /// Puts a segment into memory: its bytes of the file, and zeros behind them.
    pub(crate) fn put(&self, file: &[u8], s: &mut State)
        requires { HasPlace file.now s.old.shape self.now }
        ensures { s.new ≡ state_after_all s.old (segment_changes file.now self.now) }
    {
        let _ = s.shape();
        s.write(self.p_vaddr, self.bytes(file));
        s.write_zeros(self.p_vaddr + self.p_filesz, self.p_memsz - self.p_filesz);
    }

    /// The address of its first byte in memory.
    pub(crate) fn address(&self) -> u32
        ensures { result ≡ self.now.p_vaddr }
    {
        self.p_vaddr
    }

    /// The address behind its bytes in memory, which may be past the last address.
    pub(crate) fn end(&self) -> u64
        ensures { result ≡ self.now.p_vaddr + self.now.p_memsz }
    {
        u64::from(self.p_vaddr) + u64::from(self.p_memsz)
    }
}
