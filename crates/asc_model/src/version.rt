/// Which machine a shape is of.
#[derive(Clone, Copy, Debug, PartialEq, Eq)]
pub enum Version {
    /// RV32IM with Zifencei: memory begins at place 128.
    One,
    /// The same with RV32A: eight bytes, five of them the load reservation, stand before the memory, which begins at
    /// place 136.
    Two,
}
