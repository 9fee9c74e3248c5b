//! The words of the generated program.
ghost use Rattle.std.specs.Prelude.{◌≡◌};
ghost use Rattle.asc_make.specs.Table.{filled_words, seed, words_of};

/// How many words the program has.
pub(crate) const WORDS: usize = 24;

/// The program of a number, which fills 16 to 256 words of memory and writes them.
pub(crate) fn program(n: u64) -> [u32; WORDS]
    ensures { result ≡ words_of n }
{
    [
        0x0001_13B7, // LUI x7,0x11
        0x0019_69B7, // LUI x19,0x196
        0x60D9_8993, // ADDI x19,x19,0x60D
        seed(n) * 4096 + 0x937, // LUI x18,seed
        filled_words(n) * (1 << 20) + 0x313, // ADDI x6,x0,filled_words
        0x0000_0293, // ADDI x5,x0,0
        0x0122_8433, // ADD x8,x5,x18
        0x0320_0493, // ADDI x9,x0,50
        0x0334_0433, // MUL x8,x8,x19
        0x0014_0413, // ADDI x8,x8,1
        0xFFF4_8493, // ADDI x9,x9,-1
        0xFE04_9AE3, // BNE x9,x0,-12
        0x0083_A023, // SW x8,0(x7)
        0x0043_8393, // ADDI x7,x7,4
        0x0012_8293, // ADDI x5,x5,1
        0xFC62_9EE3, // BNE x5,x6,-36
        0x0400_0893, // ADDI x17,x0,64
        0x0010_0513, // ADDI x10,x0,1
        0x0001_15B7, // LUI x11,0x11
        0x0023_1613, // SLLI x12,x6,2
        0x0000_0073, // ECALL
        0x05D0_0893, // ADDI x17,x0,93
        0x0000_0513, // ADDI x10,x0,0
        0x0000_0073, // ECALL
    ]
}

/// How many words the program fills.
fn filled_words(n: u64) -> u32
    ensures { result ≡ filled_words n }
{
    16 + (n % 241) as u32
}

/// Where their values begin.
fn seed(n: u64) -> u32
    ensures { result ≡ seed n }
{
    (n % (1 << 20)) as u32
}
