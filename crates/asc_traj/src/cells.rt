ghost use Rattle.std.specs.Prelude.{◌≡◌, ◌+◌, ◌*◌, ◌/◌, ◌%◌, ◌^◌, ◌<◌, ◌≤◌, [], ◌∷◌, IfOk, IfNone, IfSome, length};
ghost use Rattle.asc_traj.specs.Parts.{all_cells, cells_from, has_byte};

use crate::part::Part;
use std::alloc::{AllocError, Global};

/// A place with its byte, and from where on to look for the next one.
#[derive(Clone, Copy, Debug)]
pub struct Cell {
    pub place: u32,
    pub byte: u8,
    pub next: usize,
}

/// The first place of parts from one of their bytes on, four to a part.
pub fn next_cell(parts: &[Part], from: usize) -> Option<Cell>
    requires { from ≤ 4 * length parts.now }
    ensures none { IfNone result (cells_from parts.now from ≡ []) }
    ensures some { IfSome result (λ cell. (cells_from parts.now from
        ≡ (cell.place, cell.byte) ∷ cells_from parts.now cell.next)
        × (from < cell.next) × (cell.next ≤ 4 * length parts.now)) }
{
    let mut at = from;
    while at < 4 * parts.len() {
        let part = parts[at / 4];
        let k = (at % 4) as u32;
        if has_byte(&part, k) {
            return Some(Cell {
                place: part.place() + k,
                byte: byte_of(&part, k),
                next: at + 1,
            });
        }
        at += 1;
    }
    None
}

// Whether a part has one of the four bytes.
fn has_byte(part: &Part, k: u32) -> bool
    requires { k < 4 }
    ensures { result ≡ has_byte part.now k }
{
    let mask = part.at % 16;
    match k {
        0 => mask % 2 == 1,
        1 => mask / 2 % 2 == 1,
        2 => mask / 4 % 2 == 1,
        _ => mask / 8 % 2 == 1,
    }
}

// One of the four bytes of a part.
fn byte_of(part: &Part, k: u32) -> u8
    requires { k < 4 }
    ensures { result ≡ part.now.word / 256 ^ k % 256 }
{
    let word = part.word;
    let shifted = match k {
        0 => word,
        1 => word / 256,
        2 => word / 65_536,
        _ => word / 16_777_216,
    };
    (shifted % 256) as u8
}

/// All places of parts, each with its byte.
pub fn cells_of(alloc: Global, parts: &[Part]) -> Result<Vec<(u32, u8)>, AllocError>
    ensures { IfOk result (λ cells. cells.items ≡ all_cells parts.now) }
{
    let mut cells = Vec::new(alloc);
    let mut from = 0;
    while let Some(cell) = next_cell(parts, from) {
        cells.push((cell.place, cell.byte))?;
        from = cell.next;
    }
    Ok(cells)
}
