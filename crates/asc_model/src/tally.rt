ghost use Rattle.std.specs.Prelude.{◌≡◌, ◌+◌, ◌<◌, ◌^◌};

/// What became of a job that was run.
#[derive(Clone, Copy, Debug, PartialEq, Eq)]
pub enum Column {
    /// Its entry was stored.
    Stored,
    /// Its entry was held already.
    Known,
    /// Its guess made no step.
    Empty,
    /// Memory was wanting.
    Dropped,
    /// It was asked to stop.
    Stopped,
}

/// How many jobs were run, and what became of them. Each is in one column, so `ran` is the sum of the five others.
#[derive(Clone, Copy, Debug, PartialEq, Eq)]
pub struct Tally {
    /// How many jobs were run.
    pub ran: u64,
    /// How many entries were stored.
    pub stored: u64,
    /// How many entries were held already.
    pub known: u64,
    /// How many guesses made no step.
    pub empty: u64,
    /// How often memory was wanting.
    pub dropped: u64,
    /// How many jobs were asked to stop.
    pub stopped: u64,
    pub ghost sums: { ran ≡ stored + known + empty + dropped + stopped },
}

impl Tally {
    ghost use Rattle.asc_model.specs.Tally.{job_counts, no_jobs, noted, added};

    /// No job was run.
    pub fn new() -> Tally
        ensures { job_counts result ≡ no_jobs }
    {
        Tally {
            ran: 0,
            stored: 0,
            known: 0,
            empty: 0,
            dropped: 0,
            stopped: 0,
        }
    }

    /// One job more, in a column.
    pub fn note(&mut self, column: Column)
        requires { self.old.ran + 1 < 2 ^ 64 }
        ensures { job_counts self.new ≡ noted column (job_counts self.old) }
    {
        self.ran += 1;
        match column {
            Column::Stored => self.stored += 1,
            Column::Known => self.known += 1,
            Column::Empty => self.empty += 1,
            Column::Dropped => self.dropped += 1,
            Column::Stopped => self.stopped += 1,
        }
    }

    /// Adds the jobs of another tally. Of 64 tallies of at most 2^57 jobs each, all can be added.
    pub fn add(&mut self, other: &Tally)
        requires { self.old.ran + other.now.ran < 2 ^ 64 }
        ensures { job_counts self.new ≡ added (job_counts self.old) (job_counts other.now) }
    {
        self.ran += other.ran;
        self.stored += other.stored;
        self.known += other.known;
        self.empty += other.empty;
        self.dropped += other.dropped;
        self.stopped += other.stopped;
    }
}
