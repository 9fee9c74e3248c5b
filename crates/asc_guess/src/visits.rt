ghost use Rattle.std.specs.Prelude.{◌≡◌, ◌-◌, ◌<◌, ◌≤◌, ◌^◌};
ghost use Rattle.std.specs.List.{range_with_len};
ghost use Rattle.asc_guess.specs.Guess.{targets_of};

use std::ops::Range;

/// The numbers of the visits that are guessed at a visit, where those up to `issued` were guessed before. Visits count
/// from 1.
pub fn targets(issued: u64, visit: u64, ahead: u32) -> Range<u64>
    requires issued { issued < 2 ^ 62 }
    requires visit { visit < 2 ^ 62 }
    ensures targets { range_with_len result.start (result.end - result.start) ≡ targets_of issued visit ahead }
    ensures rises { result.start ≤ result.end }
    ensures most { result.end ≤ 2 ^ 63 }
{
    if visit < 2 {
        return 0..0;
    }
    let before = issued.max(visit);
    let last = before.max(visit + u64::from(ahead));
    before + 1..last + 1
}
