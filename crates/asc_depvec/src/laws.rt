//! The laws of tracers. Each function stands for the law that it ensures, and does nothing.

ghost use Rattle.asc_depvec.specs.Laws.{LimitsStay, ReadsAreUndone, StartsStay, StartsAreTold, NoStatuses, StatusesFollow};

/// Where nothing but reads came since, `undo` leaves what code saw before: each status and the list of touched places are as
/// they were.
pub fn reads_are_undone()
    ensures { ReadsAreUndone }
{}

/// Where a tracer started, which is its state with the first byte of each touched place put back, stays the same
/// through reads and puts.
pub fn starts_stay()
    ensures { StartsStay }
{}

/// A tracer tells its start: each touched place is listed with the byte that stood there, and every untouched place
/// holds its byte still.
pub fn starts_are_told()
    ensures { StartsAreTold }
{}

/// The face tells the cap. So calls that tell only the face keep the shape and the cap of a tracer that may touch a
/// place.
pub fn limits_stay()
    ensures { LimitsStay }
{}

/// After no steps each place is untouched, as it is in a tracer that was made, started or reset.
pub fn no_statuses()
    ensures { NoStatuses }
{}

/// Each status is that of the steps from where a tracer started: where it is so after `n` steps, and one step more is
/// read and put as `try_step` does, it is so after `n + 1` steps.
pub fn statuses_follow()
    ensures { StatusesFollow }
{}
