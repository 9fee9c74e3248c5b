//! How a line is run.
ghost use Rattle.std.specs.Prelude.{◌≡◌, if◌then◌else◌};
ghost use Rattle.asc_run.specs.declared.recognised.Recognised.TheVariants.{Chosen, Sought};
ghost use Rattle.asc_run.specs.Visits.{HasBounds};
ghost use Rattle.asc_words.specs.Line.{IsRunWithin, seeking_of};
ghost use Rattle.asc_top.specs.Numbers.{guessing_of, has_visits, keeps_entries, recognised_by, settings_of, visited_settings};
ghost use Rattle.asc_top.specs.Workers.{crew_of};

use asc_find::Guessing;
use asc_live::Crew;
use asc_run::{Recognised, Settings};
use asc_words::RunLine;

/// Whether a line without workers has entries kept.
pub(crate) fn keeps_entries(line: &RunLine) -> bool
    ensures { result ≡ keeps_entries line.now }
{
    line.load.is_some() || (line.report && (line.last || line.stride))
}

/// Whether a run's visits matter: its numbers are reported, or it has workers or saved entries.
fn has_visits(line: &RunLine) -> bool
    ensures { result ≡ has_visits line.now }
{
    line.report || line.workers > 0 || line.load.is_some()
}

/// What a line asks to be guessed at a visit.
pub fn guessing_of(line: &RunLine) -> Guessing
    ensures { result ≡ guessing_of line.now }
{
    Guessing {
        last: line.last,
        stride: line.stride,
        laps: line.laps,
        span: line.span,
        ahead: line.ahead,
        join: line.join,
    }
}

/// The workers that a line asks for.
pub(crate) fn crew_of(line: &RunLine) -> Crew
    ensures { result ≡ crew_of line.now }
{
    Crew {
        workers: line.workers,
        queue: line.queue,
    }
}

/// How a line asks for a walk that is visited: how far it goes, and at which address.
pub fn visited_settings(line: &RunLine) -> Settings
    requires { IsRunWithin line.now }
    ensures settings { result ≡ visited_settings line.now }
    ensures bounds { HasBounds result.recognised }
{
    Settings {
        limit: line.limit,
        recognised: recognised_by(line),
    }
}

/// How a line asks for the walk of a run.
pub(crate) fn settings_of(line: &RunLine) -> Settings
    requires { IsRunWithin line.now }
    ensures settings { result ≡ settings_of line.now }
    ensures bounds { HasBounds result.recognised }
{
    Settings {
        limit: line.limit,
        recognised: if has_visits(line) {
            recognised_by(line)
        } else {
            Recognised::Nowhere
        },
    }
}

/// Which address a line has recognised.
fn recognised_by(line: &RunLine) -> Recognised
    requires { IsRunWithin line.now }
    ensures recognised { result ≡ recognised_by line.now }
    ensures bounds { HasBounds result }
{
    match line.pc {
        Some(address) => Recognised::At(address),
        None if line.last || line.stride => sought_or_chosen(line),
        None => Recognised::Nowhere,
    }
}

/// How a line that gives no address has one recognised.
fn sought_or_chosen(line: &RunLine) -> Recognised
    requires { IsRunWithin line.now }
    ensures recognised { result ≡ (if line.now.seek then Sought (seeking_of line.now)
        else Chosen line.now.profile line.now.least) }
    ensures bounds { HasBounds result }
{
    if line.seek {
        return Recognised::Sought(line.seeking());
    }
    Recognised::Chosen {
        profile: line.profile,
        least: line.least,
    }
}
