//! What a version of the machine has.
ghost use Rattle.std.specs.Prelude.{◌≡◌};
ghost use Rattle.asc_isa.specs.Decode.{version_of};

/// Whether a version of the machine has RV32A.
#[inline(always)]
pub(crate) fn has_atomics(version: Version) -> bool
    ensures { version_of result ≡ version }
{
    match version {
        Version::One => false,
        Version::Two => true,
    }
}

use asc_model::Version;
