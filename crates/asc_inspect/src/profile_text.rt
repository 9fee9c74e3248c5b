//! The text of a profile.
ghost use Rattle.std.specs.Prelude.{◌≡◌, ◌+◌, ◌*◌, ◌≤◌, ◌<◌, ◌^◌, ◌++◌, [], if◌then◌else◌, IfOk, OnOk, length, slice_index_or};
ghost use Rattle.asc_inspect.specs.Profile.{back_text, chosen_text, counts_text, is_listed, meetings_text, no_meetings, profile_text, rows_text, until_text};

use crate::meetings::{Meetings, Notes};
use crate::request::Addresses;
use crate::text::{put_hex, put_number};
use asc_run::Ended;
use std::alloc::{AllocError, Global};

/// The text of a run that ended so after a count of steps, where this address is chosen, and this is noted.
pub(crate) fn profile_text(
    alloc: Global,
    ended: Ended,
    count: u64,
    chosen: Option<u32>,
    addresses: Addresses,
    notes: &Notes,
) -> Result<Vec<u8>, AllocError>
    requires { notes.now.base + 4 * length notes.now.table.items ≤ 2 ^ 32 }
    ensures { IfOk result (λ text. text.items ≡ profile_text ended count chosen addresses notes.now.base
        (length notes.now.table.items) (λ k. slice_index_or notes.now.table.items k no_meetings)) }
{
    let mut text = Vec::new(alloc);
    text.extend_from_slice(b"steps ")?;
    put_number(&mut text, count)?;
    text.extend_from_slice(until_text(ended).as_bytes())?;
    text.extend_from_slice(b"\nchosen ")?;
    put_chosen(&mut text, chosen)?;
    text.extend_from_slice(b"\n")?;
    put_rows(&mut text, addresses, notes.base, &notes.table)?;
    Ok(text)
}

/// How far a run went.
pub(crate) fn until_text(ended: Ended) -> &'static str
    ensures { result.now ≡ until_text ended }
{
    match ended {
        Ended::Exit(_) => " up to its end",
        Ended::Fault(_) => " up to a fault",
        _ => " up to the limit",
    }
}

/// Appends the address that is chosen.
pub(crate) fn put_chosen(text: &mut Vec<u8>, chosen: Option<u32>) -> Result<(), AllocError>
    ensures { OnOk result (text.new.items ≡ text.old.items ++ chosen_text chosen) }
{
    match chosen {
        None => text.extend_from_slice(b"none"),
        Some(address) => put_hex(text, &address.to_be_bytes()),
    }
}

/// Appends the lines of the addresses that are asked for.
fn put_rows(
    text: &mut Vec<u8>,
    addresses: Addresses,
    base: u32,
    table: &[Meetings],
) -> Result<(), AllocError>
    requires { base + 4 * length table.now ≤ 2 ^ 32 }
    ensures { OnOk result (text.new.items ≡ text.old.items ++ rows_text addresses base (length table.now)
        (λ k. slice_index_or table.now k no_meetings)) }
{
    for (k, row) in table.iter().enumerate() {
        put_listed(text, addresses, base + 4 * k as u32, row)?;
    }
    Ok(())
}

/// Appends the line of an address, where it gets one.
fn put_listed(
    text: &mut Vec<u8>,
    addresses: Addresses,
    address: u32,
    row: &Meetings,
) -> Result<(), AllocError>
    ensures { OnOk result (text.new.items ≡ text.old.items
        ++ (if is_listed addresses row.now then meetings_text address row.now else [])) }
{
    if is_listed(addresses, row) {
        put_row(text, address, row)
    } else {
        Ok(())
    }
}

/// Whether an address gets a line.
fn is_listed(addresses: Addresses, row: &Meetings) -> bool
    ensures { result ≡ is_listed addresses row.now }
{
    match addresses {
        Addresses::Heads => row.back,
        Addresses::All => row.times > 0,
    }
}

/// Appends the line of an address.
fn put_row(text: &mut Vec<u8>, address: u32, row: &Meetings) -> Result<(), AllocError>
    ensures { OnOk result (text.new.items ≡ text.old.items ++ meetings_text address row.now) }
{
    text.extend_from_slice(b"  ")?;
    put_hex(text, &address.to_be_bytes())?;
    put_counts(text, row)?;
    text.extend_from_slice(back_text(row.back).as_bytes())
}

/// Appends how often an address is met, and when.
fn put_counts(text: &mut Vec<u8>, row: &Meetings) -> Result<(), AllocError>
    ensures { OnOk result (text.new.items ≡ text.old.items ++ counts_text row.now) }
{
    text.extend_from_slice(b" met ")?;
    put_number(text, row.times)?;
    text.extend_from_slice(b" first ")?;
    put_number(text, row.first)?;
    text.extend_from_slice(b" last ")?;
    put_number(text, row.last)
}

/// What stands at the end of the line of an address, by whether the run came back to it.
fn back_text(back: bool) -> &'static str
    ensures { result.now ≡ back_text back }
{
    if back { " back\n" } else { "\n" }
}
