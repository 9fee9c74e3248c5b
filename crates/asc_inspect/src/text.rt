//! The text of an entry.
ghost use Rattle.std.specs.Prelude.{◌≡◌, ◌==◌, ◌+◌, ◌*◌, ◌≤◌, ◌<◌, ◌++◌, [], ◌∷◌, decimal, drop, length, All, IfOk, OnOk, option_map};
ghost use Rattle.hex.specs.Hex.{encode_lower};
ghost use Rattle.asc_model.specs.Shape.{length_of};
ghost use Rattle.asc_inspect.specs.Text.{cells_text, entry_text, line_text, names, place_text, why_text, word_of};

use asc_model::Why;
use asc_shape::Shape;
use asc_traj::{Entry, cells_of};
use itoa::Buffer;
use std::alloc::{AllocError, Global};

/// The text of an entry whose trace ended for this reason.
pub(crate) fn entry_text(alloc: Global, entry: &Entry, why: Why) -> Result<Vec<u8>, AllocError>
    ensures { IfOk result (λ text. text.items ≡ entry_text entry.now why) }
{
    entry.truth();
    let shape = entry.shape();
    let mut text = Vec::new(alloc);
    text.extend_from_slice(b"steps ")?;
    put_number(&mut text, entry.steps())?;
    text.extend_from_slice(why_text(why).as_bytes())?;
    text.extend_from_slice(b"\nreads\n")?;
    put_cells(&mut text, shape, &cells_of(alloc, entry.reads())?)?;
    text.extend_from_slice(b"writes\n")?;
    put_cells(&mut text, shape, &cells_of(alloc, entry.writes())?)?;
    Ok(text)
}

/// Where a trace ended.
pub(crate) fn why_text(why: Why) -> &'static str
    ensures { result.now ≡ why_text why }
{
    match why {
        Why::Lap => " up to the visit",
        Why::Span => " up to the span",
        Why::Room => " up to the most places",
        Why::Stopped => " up to a halt",
        Why::Call => " up to a guest call",
        Why::Fault(_) => " up to a fault",
    }
}

/// Appends a number in decimal.
pub(crate) fn put_number(text: &mut Vec<u8>, number: u64) -> Result<(), AllocError>
    ensures { OnOk result (text.new.items ≡ text.old.items ++ decimal number) }
{
    let mut buffer = Buffer::new();
    text.extend_from_slice(buffer.format(number).as_bytes())
}

/// Appends the lines of cells.
pub(crate) fn put_cells(
    text: &mut Vec<u8>,
    shape: Shape,
    cells: &[(u32, u8)],
) -> Result<(), AllocError>
    requires { All (λ cell. cell.0 < length_of shape) cells.now }
    ensures { OnOk result (text.new.items ≡ text.old.items ++ cells_text shape 0 cells.now) }
{
    let mut from = 0;
    while from < cells.len() {
        from += put_first(text, shape, &cells[from..])?;
    }
    Ok(())
}

/// Appends the line of the first cells, and answers how many it is of.
fn put_first(text: &mut Vec<u8>, shape: Shape, cells: &[(u32, u8)]) -> Result<usize, AllocError>
    requires some { 0 < length cells.now }
    requires places { All (λ cell. cell.0 < length_of shape) cells.now }
    ensures some { IfOk result (λ n. 0 < n) }
    ensures most { IfOk result (λ n. n ≤ length cells.now) }
    ensures text { IfOk result (λ n. text.new.items ++ cells_text shape 0 (drop n cells.now)
        ≡ text.old.items ++ cells_text shape 0 cells.now) }
{
    let (place, byte) = cells[0];
    if let Some(bytes) = word_of(cells) {
        put_line(text, shape, place, &bytes)?;
        Ok(4)
    } else {
        put_line(text, shape, place, &[byte])?;
        Ok(1)
    }
}

/// The bytes of the first four cells, the highest first, where they are a word.
pub(crate) fn word_of(cells: &[(u32, u8)]) -> Option<[u8; 4]>
    ensures { option_map (λ bytes. bytes) result ≡ word_of cells.now }
{
    match cells {
        [a, b, c, d, ..]
            if a.0.is_multiple_of(4) && follows(*a, *b) && follows(*b, *c) && follows(*c, *d) => {
            Some([d.1, c.1, b.1, a.1])
        }
        _ => None,
    }
}

/// Whether the second cell is at the place behind that of the first.
fn follows(first: (u32, u8), second: (u32, u8)) -> bool
    ensures { result ≡ (second.0 == first.0 + 1) }
{
    u64::from(second.0) == u64::from(first.0) + 1
}

/// Appends the line of some bytes from a place on.
fn put_line(text: &mut Vec<u8>, shape: Shape, place: u32, bytes: &[u8]) -> Result<(), AllocError>
    requires place { place < length_of shape }
    requires few { length bytes.now ≤ 4 }
    ensures { OnOk result (text.new.items ≡ text.old.items ++ line_text shape place bytes.now) }
{
    text.extend_from_slice(b"  ")?;
    put_place(text, shape, place)?;
    text.extend_from_slice(b" ")?;
    put_hex(text, bytes)?;
    text.extend_from_slice(b"\n")
}

/// Appends a place's name, or its address in memory.
pub(crate) fn put_place(text: &mut Vec<u8>, shape: Shape, place: u32) -> Result<(), AllocError>
    requires { place < length_of shape }
    ensures { OnOk result (text.new.items ≡ text.old.items ++ place_text shape place) }
{
    let start = shape.start();
    if place < start {
        let name = 8 * (place as usize / 4);
        text.extend_from_slice(&names()[name..name + 8])
    } else {
        let address = shape.base() + (place - start);
        put_hex(text, &address.to_be_bytes())
    }
}

/// Eight letters for each word before memory.
fn names() -> &'static [u8]
    ensures { result.now ≡ names }
{
    b"pc      ra      sp      gp      tp      t0      t1      t2      s0      s1      a0      a1      \
      a2      a3      a4      a5      a6      a7      s2      s3      s4      s5      s6      s7      \
      s8      s9      s10     s11     t3      t4      t5      t6      reservedvalid   "
}

/// Appends two hexadecimal digits for each byte.
pub(crate) fn put_hex(text: &mut Vec<u8>, bytes: &[u8]) -> Result<(), AllocError>
    requires { length bytes.now ≤ 4 }
    ensures { OnOk result (text.new.items ≡ text.old.items ++ encode_lower bytes.now) }
{
    let mut digits = [0; 8];
    let length = 2 * bytes.len();
    hex::encode_to_slice(bytes, &mut digits[..length]).unwrap();
    text.extend_from_slice(&digits[..length])
}
