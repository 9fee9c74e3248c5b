//! The faults of a file, in the order in which they are looked for, but for those of its place in memory.

ghost use Rattle.std.specs.Prelude.{◌≡◌, ◌≤◌, length, nat_lt};
ghost use Rattle.std.specs.List.{list_any};
ghost use Rattle.asc_elf.specs.File.{elf_header_size, headers, segments};
ghost use Rattle.asc_model.specs.Case.{first_fault};
ghost use Rattle.asc_elf.specs.Image.{header_cases, table_cases, segment_cases, is_interp, cut_header};
ghost use Rattle.asc_elf.specs.Checked.{HasTable};

use crate::ElfFault;
use crate::file::{
    EF_RISCV_TSO, EI_CLASS, EI_DATA, EI_VERSION, ELF_HEADER_SIZE, ELFCLASS32, ELFDATA2LSB,
    EM_RISCV, ET_EXEC, EV_CURRENT, PROGRAM_HEADER_SIZE, e_flags, e_machine, e_phentsize, e_phnum,
    e_phoff, e_type,
};
use crate::table::headers;

/// The first fault of the header.
pub(crate) fn header_fault(file: &[u8]) -> Option<ElfFault>
    ensures { result ≡ first_fault (header_cases file.now) }
{
    if file.len() < ELF_HEADER_SIZE {
        Some(ElfFault::Short)
    } else if !file.starts_with(b"\x7FELF") {
        Some(ElfFault::Magic)
    } else if file[EI_CLASS] != ELFCLASS32 {
        Some(ElfFault::Class)
    } else if file[EI_DATA] != ELFDATA2LSB {
        Some(ElfFault::Data)
    } else if file[EI_VERSION] != EV_CURRENT {
        Some(ElfFault::Version)
    } else if e_type(file) != ET_EXEC {
        Some(ElfFault::FileType)
    } else if e_machine(file) != EM_RISCV {
        Some(ElfFault::Machine)
    } else if !matches!(e_flags(file), 0 | EF_RISCV_TSO) {
        Some(ElfFault::Flags)
    } else {
        None
    }
}

/// The first fault of the table of program headers.
pub(crate) fn table_fault(file: &[u8]) -> Option<ElfFault>
    requires { elf_header_size ≤ length file.now }
    ensures { result ≡ first_fault (table_cases file.now) }
{
    let count = e_phnum(file) as usize;
    if count == 0 {
        None
    } else if usize::from(e_phentsize(file)) != PROGRAM_HEADER_SIZE {
        Some(ElfFault::HeaderSize)
    } else if file.len() < e_phoff(file) as usize + PROGRAM_HEADER_SIZE * count {
        Some(ElfFault::Table)
    } else {
        None
    }
}

/// The first fault of the program headers.
pub(crate) fn segment_fault(file: &[u8]) -> Option<ElfFault>
    requires { HasTable file.now }
    ensures { result ≡ first_fault (segment_cases file.now) }
{
    if has_interp(file) {
        Some(ElfFault::Interp)
    } else if let Some(index) = cut_header(file) {
        Some(ElfFault::Segment(index as u32))
    } else if !has_segment(file) {
        Some(ElfFault::NoLoad)
    } else {
        None
    }
}

/// Whether an interpreter is asked for.
fn has_interp(file: &[u8]) -> bool
    requires { HasTable file.now }
    ensures { result ≡ list_any is_interp (headers file.now) }
{
    headers(file).any(|header| header.is_interp())
}

/// The first header that the file cuts off.
fn cut_header(file: &[u8]) -> Option<usize>
    requires { HasTable file.now }
    ensures { result ≡ cut_header file.now }
{
    headers(file).position(|header| header.is_cut(file))
}

/// Whether a header loads something.
fn has_segment(file: &[u8]) -> bool
    requires { HasTable file.now }
    ensures { result ≡ nat_lt 0 (length (segments file.now)) }
{
    headers(file).any(|header| header.is_segment())
}
