/// A place in a run at which a gate is passed.
#[derive(Clone, Copy, Debug, PartialEq, Eq)]
pub enum Point {
    /// A worker has taken a job.
    Taken,
    /// A worker has traced a job, and has not inserted its entry.
    Traced,
    /// A worker is done with a job.
    Done,
    /// The walk has made a visit.
    Visit,
    /// The walk has ended.
    Ended,
}

/// What may hold up a run at its points. It changes nothing of what the run gives.
pub trait Gate {
    /// Passes a point. The ticket tells which job or visit it is.
    fn pass(&self, point: Point, ticket: u64);
}

/// The gate that holds up nothing.
#[derive(Clone, Copy, Debug)]
pub struct Open;

impl Gate for Open {
    fn pass(&self, _point: Point, _ticket: u64) {}
}
