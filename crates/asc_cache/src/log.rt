ghost use Rattle.std.specs.Prelude.{◌≡◌, ◌++◌, ◌∷◌, [], length, true, false};
ghost use Rattle.asc_cache.specs.LogRule.{AreOfOneList, head_of};

use asc_traj::Entry;
use logbook::{Gain, Offer, Plain, Play, Rule, Seen, Start, Word};
use std::snapshot::Snapshot;

/// A note of the log, which keeps no bytes of it.
#[derive(Drop)]
pub(crate) enum Note {
    /// This entry is tried behind all that is stored.
    Tries(Snapshot<Entry>),
    /// What was tried last is stored.
    Stores,
}

// The rule of the log: its word is its length.
pub(crate) struct Counted;

impl Rule<Note, ()> for Counted {
    ghost use Rattle.std.specs.Prelude.{[]};
    ghost use base.Fml.{ftrue};
    ghost use Rattle.asc_cache.specs.LogRule.{LogRule};

    ghost holds = { λ cells log. LogRule cells log };

    ghost first = { [] };

    ghost hinted = { λ n log. Unit {0} };

    ghost shows = { λ log. [] };

    ghost keeps = { λ names log. ftrue };

    ghost moves = { λ ask before after answer. Unit {0} };
}

struct NoGain;

impl Gain<Note, ()> for NoGain {
    ghost use base.Fml.{ftrue};

    ghost after = { λ names about answer. ftrue };
}

struct Append;

impl Play<Note, ()> for Append {
    ghost use Rattle.asc_cache.specs.LogRule.{Appends};

    ghost then = { Appends };
}

impl Plain<Note, Note, ()> for Append {
    ghost use Rattle.std.specs.Prelude.{None};

    ghost ask = { λ n. n };

    ghost state = { λ n. None };
}

/// A beginning of the log. It has no bytes, and `again` copies it.
pub(crate) type Front = Seen<Note, (), Counted>;

/// The whole log, with the right to append.
#[derive(Drop)]
pub(crate) struct Log {
    head: Word<Note, (), Counted>,
    pub count: u64,
    pub whole: Front,
    ghost head_is: { head ≡ head_of whole.book },
    ghost counted: { length whole.log ≡ count },
}

impl Log {
    /// An empty log.
    pub fn new() -> Log
        ensures { result.whole.log ≡ [] }
    {
        let (whole, mut first, _second) = Seen::open(Start::alone(), 0, 0);
        Log {
            head: Word::tracked(0, &mut first),
            count: 0,
            whole,
        }
    }

    /// Appends a note, and answers whether that was done: it always is below 2^64 - 1 notes, since no one else appends.
    pub fn append(&mut self, note: &Note) -> bool
        ensures book { self.new.whole.book ≡ self.old.whole.book }
        ensures appended { result ≡ true → self.new.whole.log ≡ self.old.whole.log ++ note.now ∷ [] }
        ensures refused { result ≡ false → self.new ≡ self.old }
    {
        if self.count == u64::MAX {
            return false;
        }
        let mut whole = self.whole.again();
        let mut offer: Offer<Note, (), Counted, NoGain> = whole.plain::<NoGain, Note, Append>(note);
        let mut pen = whole.no_pen();
        let count = self.count;
        let found = self
            .head
            .compare_exchange::<Append, NoGain>(count, count + 1, &mut whole, &mut offer, &mut pen);
        if found != count {
            return false;
        }
        self.whole = whole;
        self.count = count + 1;
        true
    }
}

/// Of two beginnings of one list the shorter begins the longer. It does nothing.
pub(crate) fn compare(one: &Front, other: &Front)
    requires { one.now.book ≡ other.now.book }
    ensures { AreOfOneList one.now.log other.now.log }
{
    let mut both = one.again();
    both.learn(other);
}
