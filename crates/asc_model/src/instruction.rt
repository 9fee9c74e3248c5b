/// What an instruction does, by its name in the manual.
#[derive(Clone, Copy, Debug, PartialEq, Eq)]
pub enum Op {
    /// Load upper immediate.
    Lui,
    /// Add upper immediate to pc.
    Auipc,
    /// Jump and link.
    Jal,
    /// Jump and link register.
    Jalr,
    /// Branch if equal.
    Beq,
    /// Branch if not equal.
    Bne,
    /// Branch if less, signed.
    Blt,
    /// Branch if greater or equal, signed.
    Bge,
    /// Branch if less, unsigned.
    Bltu,
    /// Branch if greater or equal, unsigned.
    Bgeu,
    /// Load byte, signed.
    Lb,
    /// Load halfword, signed.
    Lh,
    /// Load word.
    Lw,
    /// Load byte, unsigned.
    Lbu,
    /// Load halfword, unsigned.
    Lhu,
    /// Store byte.
    Sb,
    /// Store halfword.
    Sh,
    /// Store word.
    Sw,
    /// Add immediate.
    Addi,
    /// Set if less than immediate, signed.
    Slti,
    /// Set if less than immediate, unsigned.
    Sltiu,
    /// Exclusive or with immediate.
    Xori,
    /// Or with immediate.
    Ori,
    /// And with immediate.
    Andi,
    /// Shift left by immediate.
    Slli,
    /// Shift right by immediate, with zeros.
    Srli,
    /// Shift right by immediate, with the sign.
    Srai,
    /// Add.
    Add,
    /// Subtract.
    Sub,
    /// Shift left.
    Sll,
    /// Set if less, signed.
    Slt,
    /// Set if less, unsigned.
    Sltu,
    /// Exclusive or.
    Xor,
    /// Shift right, with zeros.
    Srl,
    /// Shift right, with the sign.
    Sra,
    /// Or.
    Or,
    /// And.
    And,
    /// Order memory accesses, which are in order anyway.
    Fence,
    /// Order stores and instruction fetches, which are in order anyway.
    FenceI,
    /// Environment call.
    Ecall,
    /// Environment break.
    Ebreak,
    /// Multiply: the low word of the product.
    Mul,
    /// The high word of the product, signed by signed.
    Mulh,
    /// The high word of the product, signed by unsigned.
    Mulhsu,
    /// The high word of the product, unsigned by unsigned.
    Mulhu,
    /// Divide, signed.
    Div,
    /// Divide, unsigned.
    Divu,
    /// Remainder, signed.
    Rem,
    /// Remainder, unsigned.
    Remu,
    /// Load a word and reserve its address.
    LrW,
    /// Store a word if its address is reserved.
    ScW,
    /// Swap with a word in memory.
    AmoswapW,
    /// Add to a word in memory.
    AmoaddW,
    /// Exclusive or into a word in memory.
    AmoxorW,
    /// And into a word in memory.
    AmoandW,
    /// Or into a word in memory.
    AmoorW,
    /// Replace a word in memory by the lesser of it and a register, signed.
    AmominW,
    /// Replace a word in memory by the greater of it and a register, signed.
    AmomaxW,
    /// Replace a word in memory by the lesser of it and a register, unsigned.
    AmominuW,
    /// Replace a word in memory by the greater of it and a register, unsigned.
    AmomaxuW,
}

/// An instruction by its format, with its operation, registers and immediate.
///
/// The immediate is the one that the format spells, as a word (RISC-V unprivileged manual 20191213, section 2.3). A
/// shift by an immediate is of format I, with the shift amount as its immediate. A load-reserved has `rs2` 0.
#[derive(Clone, Copy, Debug, PartialEq, Eq)]
pub enum Instr {
    /// An upper immediate.
    U { op: Op, rd: u8, imm: u32 },
    /// A jump's offset.
    J { op: Op, rd: u8, imm: u32 },
    /// One source register and an immediate.
    I { op: Op, rd: u8, rs1: u8, imm: u32 },
    /// A store: two source registers and an offset.
    S { op: Op, rs1: u8, rs2: u8, imm: u32 },
    /// A branch: two source registers and an offset.
    B { op: Op, rs1: u8, rs2: u8, imm: u32 },
    /// Two source registers; one, `rs1`, for a load-reserved.
    R { op: Op, rd: u8, rs1: u8, rs2: u8 },
    /// No operand, or none that matters.
    Plain { op: Op },
}
