//! The segments of a file: where they lie, and how they are put into memory.

ghost use Rattle.std.specs.Prelude.{◌≡◌, ◌<◌, length};
ghost use Rattle.std.specs.List.{All, flat_map};
ghost use Rattle.asc_shape.specs.State.{state_after_all};
ghost use Rattle.asc_elf.specs.File.{segments};
ghost use Rattle.asc_elf.specs.Image.{lowest_address, highest_end, segment_changes};
ghost use Rattle.asc_elf.specs.Checked.{HasTable, HasPlace};

use crate::file::Header;
use crate::table::headers;
use asc_shape::State;

/// The lowest address of a file's segments.
pub(crate) fn lowest(file: &[u8]) -> u32
    requires table { HasTable file.now }
    requires some { 0 < length (segments file.now) }
    ensures { result ≡ lowest_address (segments file.now) }
{
    headers(file)
        .filter(Header::is_segment)
        .map(|segment| segment.address())
        .min()
        .unwrap_or(u32::MAX)
}

/// The greatest end of a file's segments.
pub(crate) fn highest(file: &[u8]) -> u64
    requires { HasTable file.now }
    ensures { result ≡ highest_end (segments file.now) }
{
    headers(file)
        .filter(Header::is_segment)
        .map(|segment| segment.end())
        .max()
        .unwrap_or(0)
}

/// Puts a file's segments into memory, in the order of their headers.
pub(crate) fn put_segments(file: &[u8], s: &mut State)
    requires table { HasTable file.now }
    requires place { All (HasPlace file.now s.old.shape) (segments file.now) }
    ensures { s.new
        ≡ state_after_all s.old (flat_map (segment_changes file.now) (segments file.now)) }
{
    for segment in headers(file).filter(Header::is_segment) {
        segment.put(file, s);
    }
}
