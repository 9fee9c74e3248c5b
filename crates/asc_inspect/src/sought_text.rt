//! The text of where a run is visited.
ghost use Rattle.std.specs.Prelude.{◌≡◌, IfOk};
ghost use Rattle.asc_run.specs.Walk.{jumps};
ghost use Rattle.asc_inspect.specs.Sought.{sought_text};

use crate::profile_text::{put_chosen, until_text};
use crate::text::put_number;
use asc_model::RunCounts;
use asc_run::Ended;
use std::alloc::{AllocError, Global};

/// The text of a run that ended so after a count of steps, has these numbers, and was visited last at this address.
pub(crate) fn sought_text(
    alloc: Global,
    ended: Ended,
    count: u64,
    counts: RunCounts,
    address: Option<u32>,
) -> Result<Vec<u8>, AllocError>
    ensures { IfOk result (λ text. text.items ≡ sought_text ended count address
        (jumps counts.asked counts.skipped counts.hits)) }
{
    let mut text = Vec::new(alloc);
    text.extend_from_slice(b"steps ")?;
    put_number(&mut text, count)?;
    text.extend_from_slice(until_text(ended).as_bytes())?;
    text.extend_from_slice(b"\naddress ")?;
    put_chosen(&mut text, address)?;
    text.extend_from_slice(b"\nvisits ")?;
    put_number(&mut text, counts.asked)?;
    text.extend_from_slice(b" jumps ")?;
    put_number(&mut text, counts.hits)?;
    text.extend_from_slice(b" skipped ")?;
    put_number(&mut text, counts.skipped)?;
    text.extend_from_slice(b"\n")?;
    Ok(text)
}
