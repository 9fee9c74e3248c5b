/// What an instruction did that ends the program. Each kind has its number.
#[derive(Clone, Copy, Debug, PartialEq, Eq)]
pub enum FaultKind {
    /// The pc, or the target of a taken transfer, is not a multiple of 4. The value is that address.
    Misaligned = 1,
    /// The four bytes at the pc are not all in memory. The value is the pc.
    FetchOutside = 2,
    /// The word is no instruction of the machine's version. The value is the word.
    Illegal = 3,
    /// A load or a load-reserved reaches outside memory. The value is its address.
    LoadOutside = 4,
    /// A store, a store-conditional, also one that would fail, or an AMO reaches outside memory. The value is its
    /// address.
    StoreOutside = 5,
    /// EBREAK. The value is 0.
    Break = 6,
    /// An atomic's address is not a multiple of 4. The value is that address.
    AtomicMisaligned = 7,
}

/// A fault, with the pc of the instruction that met it.
#[derive(Clone, Copy, Debug, PartialEq, Eq)]
pub struct Fault {
    /// What the instruction did.
    pub kind: FaultKind,
    /// The address of the instruction.
    pub pc: u32,
    /// The address or the word that its kind speaks of; 0 where it speaks of none.
    pub value: u32,
}
