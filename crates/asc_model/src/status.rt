/// How a place of a state was touched.
#[derive(Clone, Copy, Debug, PartialEq, Eq)]
pub enum Status {
    /// Neither read nor written.
    Untouched,
    /// Read before it was written, and not written.
    Read,
    /// Written, and not read before that.
    Written,
    /// Read, and written later.
    ReadWritten,
}
