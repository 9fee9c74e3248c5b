ghost use Rattle.std.specs.Prelude.{◌≡◌, IfOk};
ghost use Rattle.asc_run.specs.Sought.{HasNewSeeker, HasSeeker};
ghost use Rattle.asc_run.specs.Visits.{HasBounds, noted_counts};

use asc_seek::{Seeker, Seeking};
use std::alloc::{AllocError, Global};

/// Which address is recognised: wherever a program stands there, its helper is visited and asked for a jump.
#[derive(Clone, Copy, Debug, PartialEq, Eq)]
pub enum Recognised {
    /// None.
    Nowhere,
    /// This one.
    At(u32),
    /// The one that `asc_guess::choose` picks of the first steps, once these are done. Before that there is no visit.
    Chosen {
        /// At how many counts of steps, from 0 on, the address is noted: 2 to 65,536.
        profile: u32,
        /// How often an address has to stand there to be picked: 2 to 65,536.
        least: u32,
    },
    /// One that is sought while the run goes on, and may change.
    Sought(Seeking),
}

impl Recognised {
    /// At how many counts of steps the address is noted.
    pub(crate) fn noted_counts(self) -> u32
        ensures { result ≡ noted_counts self }
    {
        match self {
            Recognised::Nowhere | Recognised::At(_) | Recognised::Sought(_) => 0,
            Recognised::Chosen { profile, .. } => profile,
        }
    }

    /// The search for an address that has not begun, where one is sought. All memory that it needs is taken here.
    pub(crate) fn seeker(self, alloc: Global) -> Result<Option<Seeker>, AllocError>
        requires { HasBounds self }
        ensures seeker { IfOk result (λ seeker. HasSeeker self seeker) }
        ensures new { IfOk result (λ seeker. HasNewSeeker seeker) }
    {
        match self {
            Recognised::Sought(seeking) => Ok(Some(Seeker::new(alloc, seeking)?)),
            Recognised::Nowhere | Recognised::At(_) | Recognised::Chosen { .. } => Ok(None),
        }
    }
}
