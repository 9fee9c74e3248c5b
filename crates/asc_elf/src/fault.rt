/// Why a file is no image: the first of these, in this order, that stands.
#[derive(Clone, Copy, Debug, PartialEq, Eq)]
pub enum ElfFault {
    /// Fewer than 52 bytes.
    Short,
    /// The first four bytes are not 7F 45 4C 46.
    Magic,
    /// Not of class 32.
    Class,
    /// Not little-endian.
    Data,
    /// Not of file version 1.
    Version,
    /// Not an executable file.
    FileType,
    /// Not for RISC-V.
    Machine,
    /// A flag other than 0x10 (TSO) is set.
    Flags,
    /// There are program headers, and they do not have 32 bytes each.
    HeaderSize,
    /// The program headers pass the end of the file.
    Table,
    /// An interpreter is asked for.
    Interp,
    /// The header of this index, the first such, has more bytes in the file than in memory, or bytes past the end of
    /// the file.
    Segment(u32),
    /// No header loads anything.
    NoLoad,
    /// Memory would pass address 2^32 - 1, or a segment passes 64 bytes below the end of memory.
    TooLarge,
    /// The entry is not a multiple of 4, or its four bytes are not in memory.
    Entry,
}
