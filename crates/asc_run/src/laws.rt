//! The laws that tie plain execution to the steps of the machine, and a walk's visits to its helper's replies. Each
//! function stands for the laws that it ensures, and does nothing.

ghost use Rattle.asc_run.specs.Laws.{ProgressIsPlain, RepliesDetermineVisits, SerialVisitsAreOne, SerialRunsAreOne, SerialRunsAreSavable};
ghost use Rattle.asc_run.specs.Rows.{Laps, Targets, Strides, Both, Joins, LoopVisits};

/// Plain execution without guest calls is plain steps: where `n` plain steps of the state at which a program stands
/// reach a state, the program comes to that state in `n` steps. It goes on there, its break and the input still to come
/// are what they were, and it has taken and put nothing more.
pub fn progress_is_plain()
    ensures { ProgressIsPlain }
{}

/// A list of replies is that of one walk: where the visits up to a count, and those up to another, have the same
/// replies, they are the same visits.
pub fn replies_determine_visits()
    ensures { RepliesDetermineVisits }
{}

/// A run without workers has one list of visits up to its limit: its machine, from where it begins, gives each reply. So
/// the machine at its end is one, and so are its numbers: what was executed and what was jumped over, its visits and its
/// jumps, and the guesses that were made. One are its entries, too.
pub fn serial_runs_are_one()
    ensures visits { SerialVisitsAreOne }
    ensures numbers { SerialRunsAreOne }
{}

/// What a run without workers keeps may be written to a file of entries. The run is one from a state, over an input of
/// bytes. Its first entries may be written to a file too, and no guess is of more steps than a file may tell.
pub fn serial_runs_are_savable()
    ensures { SerialRunsAreSavable }
{}

/// A loop that counts, computed from the definitions: its visits for some replies, and what the machine of a run without
/// workers makes of its visits, which are the visits guessed, the entries and the replies, with joins and without.
pub fn rows_are_computed()
    ensures visits { LoopVisits }
    ensures laps { Laps }
    ensures targets { Targets }
    ensures strides { Strides }
    ensures both { Both }
    ensures joins { Joins }
{}
