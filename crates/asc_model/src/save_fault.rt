/// Why a file is not one of saved entries. It is read from its front, and the first fault that is met is told. `Untrue` is
/// looked for where there is none of the others.
#[derive(Clone, Copy, Debug, PartialEq, Eq)]
pub enum SaveFault {
    /// Fewer than 20 bytes, or the next part of an entry passes the end of the file.
    Short,
    /// The first four bytes are not `ASCE`.
    Magic,
    /// Byte 4 is not 1.
    Version,
    /// Byte 5 is neither 1 nor 2, or one of bytes 6 and 7 is not 0.
    Machine,
    /// No shape has this base and this size of memory.
    Shape,
    /// More than 1,024 entries.
    Count,
    /// The entry of this index has no step or more than 1,000,000,000, or more than 4,096 reads or writes. Or its places do
    /// not rise, or are not below the length of a state.
    Entry(usize),
    /// Bytes follow the last entry.
    Long,
    /// The entry of this index is the first that is not what tracing it anew gives.
    Untrue(usize),
}
