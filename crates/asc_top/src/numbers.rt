//! The answer of a run, and its numbers.
ghost use Rattle.std.specs.Prelude.{◌≡◌};
ghost use Rattle.asc_top.specs.Program.{answer_at};
ghost use Rattle.asc_top.specs.Numbers.{counts_of, reported_at};
ghost use Rattle.asc_top.specs.Workers.{workers_of};

use asc_live::Worked;
use asc_model::RunCounts;
use asc_run::Ended;
use asc_words::{Answer, Counts, WorkerCounts};

/// The answer of a run that ended so after `count` steps.
pub(crate) fn answer_at(ended: Ended, count: u64) -> Answer
    ensures { result ≡ answer_at ended count }
{
    match ended {
        Ended::Exit(code) => Answer::Exit(code),
        Ended::Fault(fault) => Answer::Fault(fault, count),
        Ended::Limit => Answer::Limit(count),
        Ended::ReadFault => Answer::ReadFault,
        Ended::WriteFault => Answer::WriteFault,
        Ended::ErrFault => Answer::ErrFault,
    }
}

/// What a run reports which ended so: nothing where it isn't asked for, or a device stopped it.
pub(crate) fn reported_at<T: Copy>(is_asked: bool, ended: Ended, told: T) -> Option<T>
    ensures { result ≡ reported_at is_asked ended told }
{
    match ended {
        Ended::Exit(_) | Ended::Fault(_) | Ended::Limit if is_asked => Some(told),
        _ => None,
    }
}

/// The numbers of a walk, beside how many guesses were made and how often memory was wanting.
pub(crate) fn counts_of(walk: RunCounts, made: u64, refused: u64) -> Counts
    ensures { result ≡ counts_of walk made refused }
{
    Counts {
        run: walk,
        made,
        refused,
    }
}

/// The numbers of workers that ran beside a walk.
pub(crate) fn workers_of(worked: &Worked) -> WorkerCounts
    ensures { result ≡ workers_of worked.now }
{
    WorkerCounts {
        tally: worked.taken.tally,
        left: worked.taken.left,
        full: worked.full,
    }
}
