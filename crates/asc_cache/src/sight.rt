use crate::instance::Instance;
use crate::log::Front;
use atomic_table::{Join, Split};
use crossbeam_utils::rule::{Outcome, Protocol};

// The steps at a shard are of six kinds. Each keeps the rule, by a lemma of its own in proofs/Steps.antt:
// - a reader enters, and has seen the log of what is shown (`enters`);
// - the writer publishes an insertion, and its own seat knows what it knew (`publishes`);
// - the writer publishes what there is, at opening, and its seat knows that (`opens`);
// - a reader is made at opening, which knows nothing (`admits`);
// - what the writer knows at opening is copied (`tells`);
// - the reader takes the copy in (`learns`).
// At the log there is one kind: its word rises by one, and a note is appended (`appends_moves` in proofs/Appending.antt).

// What a seat at the shard knows. No value of it is made.
pub(crate) struct Sight {
    // Its capacity, or 0 until it has looked.
    pub capacity: usize,
    // The log up to the last insertion that it has seen.
    pub front: Front,
}

// The rule of a doubled shard: it is what its list of insertions leaves, and each seat has seen a beginning of that.
pub(crate) struct Logged;

impl Protocol<Instance, Sight> for Logged {
    ghost use Rattle.asc_cache.specs.ShardRule.{first_sight, ShardRule};

    ghost holds = { ShardRule };

    ghost first = { first_sight };
}

// A reader enters.
pub(crate) struct Enters;

impl Outcome<Instance, Sight> for Enters {
    ghost use Rattle.asc_cache.specs.ShardRule.{Looks};

    ghost then = { λ v x y w. Looks v y w };
}

// The writer publishes an insertion.
pub(crate) struct Publishes;

impl Outcome<Instance, Sight> for Publishes {
    ghost use Rattle.std.specs.Prelude.{◌≡◌};

    ghost then = { λ v x y w. w ≡ v };
}

// The writer publishes what there is.
pub(crate) struct Opens;

impl Outcome<Instance, Sight> for Opens {
    ghost use Rattle.std.specs.Prelude.{◌≡◌};
    ghost use Rattle.asc_cache.specs.ShardRule.{sight};

    ghost then = { λ v x y w. w ≡ sight y.shard.capacity y.front };
}

// What the writer knows is copied, and the reader takes it in.
pub(crate) struct Copies;

impl Split<Sight> for Copies {
    ghost left = { λ v. v };

    ghost right = { λ v. v };
}

impl Join<Sight> for Copies {
    ghost use Rattle.asc_cache.specs.ShardRule.{first_sight};

    ghost both = { λ v w. w };

    ghost spent = { first_sight };
}
