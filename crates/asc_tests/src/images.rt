use std::alloc::{AllocError, Global};

/// An executable of 96 bytes whose three words end the program with status 7: ADDI x17,x0,93; ADDI x10,x0,7; ECALL. It
/// is loaded and entered at 0x10000.
pub(crate) const FIRST: [u8; 96] = [
    0x7F, 0x45, 0x4C, 0x46, 0x01, 0x01, 0x01, 0x00, 0, 0, 0, 0, 0, 0, 0, 0, //
    0x02, 0x00, 0xF3, 0x00, 0x01, 0x00, 0x00, 0x00, 0x00, 0x00, 0x01, 0x00, 0x34, 0x00, 0x00, 0x00, //
    0x00, 0x00, 0x00, 0x00, 0x00, 0x00, 0x00, 0x00, 0x34, 0x00, 0x20, 0x00, 0x01, 0x00, 0x00, 0x00, //
    0x00, 0x00, 0x00, 0x00, // the program header
    0x01, 0x00, 0x00, 0x00, 0x54, 0x00, 0x00, 0x00, 0x00, 0x00, 0x01, 0x00, 0x00, 0x00, 0x01, 0x00, //
    0x0C, 0x00, 0x00, 0x00, 0x0C, 0x00, 0x00, 0x00, 0x07, 0x00, 0x00, 0x00, 0x04, 0x00, 0x00, 0x00, //
    0x93, 0x08, 0xD0, 0x05, 0x13, 0x05, 0x70, 0x00, 0x73, 0x00, 0x00, 0x00,
];

/// Where the program header of `FIRST` stands, and its code.
pub(crate) const HEADER: usize = 52;

pub(crate) const CODE: usize = 84;

/// A word, and the place in a file over which it is put.
#[derive(Clone, Copy)]
pub(crate) struct Patch {
    pub(crate) at: usize,
    pub(crate) word: u32,
}

/// `FIRST` with words put over it.
pub(crate) fn patched(alloc: Global, patches: &[Patch]) -> Result<Vec<u8>, AllocError> {
    let mut file = FIRST.to_vec(alloc)?;
    for patch in patches {
        put_word(&mut file, patch.at, patch.word);
    }
    Ok(file)
}

/// Puts a word over the four bytes from a place on, the lowest byte first, as far as they are there.
pub(crate) fn put_word(file: &mut Vec<u8>, at: usize, word: u32) {
    for (byte, new) in file.iter_mut().skip(at).zip(word.to_le_bytes()) {
        *byte = new;
    }
}

/// The smallest executable around these words, which are loaded and entered at 0x10000.
pub(crate) fn wrap(alloc: Global, words: &[u32]) -> Result<Vec<u8>, AllocError> {
    let mut file = FIRST.to_vec(alloc)?;
    file.truncate(CODE);
    let mut size: u32 = 0;
    for word in words {
        file.extend_from_slice(&word.to_le_bytes())?;
        size = size.wrapping_add(4);
    }
    // The sizes of the segment in the file and in memory.
    put_word(&mut file, HEADER + 16, size);
    put_word(&mut file, HEADER + 20, size);
    Ok(file)
}
