//! What a word's opcode and funct3 tell of its operation, as a table.
ghost use Rattle.std.specs.Prelude.{◌≡◌};
ghost use Rattle.asc_isa.specs.Encodings.{IsOfEncoding};

use crate::fields::{funct3, opcode};

/// The words that share an opcode and, where it counts, a funct3. An encoding is named by its operation, or by the one with 0
/// in funct7 where the rest of the word tells several apart.
///
/// A `match` that names all encodings is one jump by a table, without a test.
#[derive(Clone, Copy)]
pub(crate) enum Encoding {
    Lui,
    Jal,
    Jalr,
    Beq,
    Bne,
    Blt,
    Bge,
    Bltu,
    Bgeu,
    Lw,
    Lbu,
    Sb,
    Sw,
    Addi,
    Andi,
    Slli,
    Srli,
    Add,
    Sltu,
    Xor,
    Or,
    And,
    Auipc,
    Lb,
    Lh,
    Lhu,
    Sh,
    Slti,
    Sltiu,
    Xori,
    Ori,
    Sll,
    Slt,
    Srl,
    Fence,
    FenceI,
    /// ECALL and EBREAK.
    System,
    /// The atomics on words.
    Atomic,
    /// No instruction has this opcode and funct3.
    Other,
}

/// The encodings of an opcode's words, by funct3 from 0 to 7.
macro_rules! encodings {
    ($($encoding:ident)*) => { [$(Encoding::$encoding),*] };
}

const NONE: [Encoding; 8] = [Encoding::Other; 8];

const LUI: [Encoding; 8] = [Encoding::Lui; 8];

const AUIPC: [Encoding; 8] = [Encoding::Auipc; 8];

const JAL: [Encoding; 8] = [Encoding::Jal; 8];

const JALR: [Encoding; 8] = encodings!(Jalr Other Other Other Other Other Other Other);

const BRANCH: [Encoding; 8] = encodings!(Beq Bne Other Other Blt Bge Bltu Bgeu);

const LOAD: [Encoding; 8] = encodings!(Lb Lh Lw Other Lbu Lhu Other Other);

const STORE: [Encoding; 8] = encodings!(Sb Sh Sw Other Other Other Other Other);

const OP_IMM: [Encoding; 8] = encodings!(Addi Slli Slti Sltiu Xori Srli Ori Andi);

const OP: [Encoding; 8] = encodings!(Add Sll Slt Sltu Xor Srl Or And);

const MISC_MEM: [Encoding; 8] = encodings!(Fence FenceI Other Other Other Other Other Other);

const SYSTEM: [Encoding; 8] = encodings!(System Other Other Other Other Other Other Other);

const AMO: [Encoding; 8] = encodings!(Other Other Atomic Other Other Other Other Other);

/// The encodings by opcode, of the encodings by bits 6 to 2 of an opcode. Bits 1 and 0 of each opcode are 1.
macro_rules! opcode_map {
    ($($encodings:ident)*) => { [$(NONE, NONE, NONE, $encodings),*] };
}

/// The encodings by opcode, and then by funct3: the base opcode map (RISC-V unprivileged manual 20191213, table 24.1), with
/// `NONE` for opcodes of other instructions.
static ENCODINGS: [[Encoding; 8]; 128] = opcode_map!(
    LOAD   NONE NONE MISC_MEM OP_IMM AUIPC NONE NONE
    STORE  NONE NONE AMO      OP     LUI   NONE NONE
    NONE   NONE NONE NONE     NONE   NONE  NONE NONE
    BRANCH JALR NONE JAL      SYSTEM NONE  NONE NONE
);

/// The encoding of a word.
#[inline(always)]
pub(crate) fn encoding_of(word: u32) -> Encoding
    ensures { IsOfEncoding result word }
{
    ENCODINGS[opcode(word) as usize][funct3(word) as usize]
}
