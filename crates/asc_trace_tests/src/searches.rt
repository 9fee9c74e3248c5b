//! Tests.
ghost use Rattle.std.specs.Prelude.{◌≡◌, ◌+◌, ◌≤◌, ◌^◌, ℕ, false};
ghost use Rattle.asc_seek.specs.Heads.{AreEarlier};
ghost use Rattle.asc_seek.specs.Seek.{IsBehind, Seek, is_over};

use asc_seek::{Seeker, Seeking};
use std::alloc::Global;
use std::marker::Model;
use std::process::Abort;

/// A search, and how far the run has come.
#[derive(Drop)]
struct Searched {
    seeker: Seeker,
    count: u64,
}

impl Model for Searched {
    ghost Value = { Seek × ℕ };

    ghost view = { λ s. (s.seeker, s.count) };

    ghost invariant = { λ s. (IsBehind s.count s.seeker) × (is_over s.count s.seeker ≡ false)
        × (AreEarlier (s.count + 1) s.seeker.table) × (s.count ≤ 2 ^ 41) };
}

impl Searched {
    fn new<R: Abort>(rt: &R, alloc: Global, seeking: Seeking) -> Searched {
        assert!(rt; seeking.least >= 2 && seeking.least < 10);
        assert!(rt; seeking.least_lap >= 1 && seeking.least_lap < 1000);
        assert!(rt; seeking.ahead >= 1 && seeking.ahead < 10);
        Searched {
            seeker: Seeker::new(alloc, seeking).expect(rt, "memory"),
            count: 0,
        }
    }

    fn begin(&mut self) {
        self.seeker.begin();
        self.count = 0;
    }

    // Steps led back to these addresses at these counts.
    fn note<R: Abort>(&mut self, rt: &R, heads: &[(u32, u64)]) {
        for &(address, count) in heads {
            assert!(rt; self.seeker.is_noting());
            assert!(rt; self.count < count && count < self.seeker.end() && count < 1 << 40);
            self.seeker.note(address, count);
            self.count = count;
        }
    }

    // The run comes to a count.
    fn go<R: Abort>(&mut self, rt: &R, count: u64) {
        assert!(rt; self.count <= count);
        assert!(rt; count < 1 << 40);
        self.seeker.advance(count);
        self.count = count;
    }

    // A visit, which jumps over some steps or executes one.
    fn visit<R: Abort>(&mut self, rt: &R, jumped: Option<u64>) {
        let steps = jumped.unwrap_or(1);
        assert!(rt; steps >= 1);
        assert!(rt; steps < 1 << 40);
        assert!(rt; self.count < 1 << 40);
        let count = self.count + steps;
        self.seeker.visit(self.count, jumped);
        self.seeker.advance(count);
        self.count = count;
    }

    // The run comes to these counts, where these addresses are visited from then on, up to these counts.
    fn follow<R: Abort>(&mut self, rt: &R, rows: &[(u64, Option<u32>, u64)]) {
        for &(count, watched, end) in rows {
            assert!(rt; 1 <= count);
            self.go(rt, count - 1);
            self.go(rt, count);
            self.expect(rt, watched, end);
        }
    }

    // The address at which the run is visited is this, and the phase is over at this count.
    fn expect<R: Abort>(&self, rt: &R, watched: Option<u32>, end: u64) {
        self.seeker.begins_late();
        assert_eq!(rt; self.seeker.watched(), watched);
        assert_eq!(rt; self.seeker.end(), end);
    }
}

const FIRST: u32 = 0x1000;

const SECOND: u32 = 0x1004;

const THIRD: u32 = 0x1008;

// At 0x1000 and 0x5000 there is one place. 0x6000 stands before 0x2004 in the table, and has laps as long. 0x300C has
// laps of 15 on average, 0x3000 was met twice, and 0x3004 has short laps.
#[test]
fn heads(rt: HostRuntime) {
    let seeking = Seeking {
        least: 3,
        least_lap: 4,
        ahead: 1,
    };
    let mut searched = Searched::new(&rt, rt.alloc(), seeking);
    let met = [
        (0x1000, 10),
        (0x5000, 11),
        (0x1000, 20),
        (0x1000, 30),
        (0x6000, 40),
        (0x2004, 41),
        (0x3000, 50),
        (0x3004, 51),
        (0x3004, 53),
        (0x3004, 55),
        (0x6000, 61),
        (0x2004, 62),
        (0x300C, 70),
        (0x300C, 71),
        (0x6000, 80),
        (0x2004, 81),
        (0x300C, 100),
        (0x5000, 111),
        (0x5000, 211),
        (0x3000, 500),
    ];
    searched.note(&rt, &met);
    searched.expect(&rt, None, 65_536);
    let rows = [
        (65_536, Some(0x1000), 81_920),
        (81_920, Some(0x300C), 98_304),
        (98_304, Some(0x2004), 114_688),
        (114_688, Some(0x6000), 131_072),
        (131_072, None, 1_048_576),
        (1_048_576, None, 1_179_648),
    ];
    searched.follow(&rt, &rows);
    assert!(rt; searched.seeker.is_noting());
}

// A search for addresses that were met twice.
fn twice<R: Abort>(rt: &R, alloc: Global) -> Searched {
    let seeking = Seeking {
        least: 2,
        least_lap: 10,
        ahead: 1,
    };
    Searched::new(rt, alloc, seeking)
}

// A stretch with three heads. What the third head jumps over at its first two visits does not count, since a later one can't
// have been guessed yet. It jumps over 183 of a thousand steps. The second head is visited 1000 steps after its turn came, and
// the first one 2000. These count for nothing: of a thousand steps the heads jump over 488 and 427.
fn try_three<R: Abort>(rt: &R, searched: &mut Searched) {
    let met = [
        (FIRST, 1_000),
        (SECOND, 1_100),
        (THIRD, 1_200),
        (THIRD, 1_300),
        (SECOND, 1_600),
        (FIRST, 2_000),
    ];
    searched.note(rt, &met);
    searched.follow(rt, &[(65_536, Some(THIRD), 81_920)]);
    searched.visit(rt, Some(100));
    searched.visit(rt, Some(99));
    searched.expect(rt, Some(THIRD), 69_832);
    searched.visit(rt, None);
    searched.visit(rt, Some(3_000));
    searched.expect(rt, Some(THIRD), 82_120);
    let rows = [
        (82_120, Some(SECOND), 98_504),
        (83_120, Some(SECOND), 98_504),
    ];
    searched.follow(rt, &rows);
    searched.visit(rt, Some(9_000));
    searched.expect(rt, Some(SECOND), 100_504);
    let rows = [
        (100_504, Some(FIRST), 116_888),
        (102_504, Some(FIRST), 116_888),
    ];
    searched.follow(rt, &rows);
    searched.visit(rt, Some(9_000));
    searched.expect(rt, Some(FIRST), 120_888);
    searched.follow(rt, &[(120_888, Some(SECOND), 967_104)]);
}

// Of the steps that guesses can have reached 700,000 are jumped over, which is three quarters of 933,333.
fn give_up<R: Abort>(rt: &R, searched: &mut Searched) {
    searched.visit(rt, Some(999));
    searched.visit(rt, None);
    searched.visit(rt, Some(700_000));
    let rows = [
        (967_104, Some(SECOND), 1_032_640),
        (1_032_640, Some(SECOND), 1_098_176),
        (1_098_176, None, 1_229_248),
    ];
    searched.follow(rt, &rows);
}

// The first head that is tried jumps over 915 of a thousand.
fn keep_a_sure_one<R: Abort>(rt: &R, searched: &mut Searched) {
    let met = [
        (FIRST, 1_098_200),
        (SECOND, 1_098_201),
        (SECOND, 1_098_701),
        (FIRST, 1_099_200),
    ];
    searched.note(rt, &met);
    let rows = [
        (1_229_248, Some(SECOND), 1_262_016),
        (1_230_248, Some(SECOND), 1_262_016),
    ];
    searched.follow(rt, &rows);
    searched.visit(rt, Some(31_000));
    searched.expect(rt, Some(SECOND), 1_264_016);
    searched.follow(rt, &[(1_264_016, Some(SECOND), 2_293_824)]);
}

#[test]
fn phases(rt: HostRuntime) {
    let mut searched = twice(&rt, rt.alloc());
    try_three(&rt, &mut searched);
    give_up(&rt, &mut searched);
    keep_a_sure_one(&rt, &mut searched);
}

// Once a search began anew, one head is visited and jumps over nothing, and one is not visited. Then of three heads with
// long laps the third is not tried: the trials of the others took more than eight stretches.
#[test]
fn none_is_kept(rt: HostRuntime) {
    let mut searched = twice(&rt, rt.alloc());
    searched.note(&rt, &[(SECOND, 7), (SECOND, 9_000)]);
    searched.go(&rt, 65_536);
    searched.begin();
    searched.expect(&rt, None, 65_536);
    let met = [
        (FIRST, 1_000),
        (FIRST, 2_000),
        (SECOND, 2_001),
        (SECOND, 7_001),
    ];
    searched.note(&rt, &met);
    searched.follow(&rt, &[(65_536, Some(FIRST), 81_920)]);
    searched.visit(&rt, None);
    let rows = [(71_632, Some(SECOND), 91_632), (91_632, None, 733_056)];
    searched.follow(&rt, &rows);
    searched.begin();
    let met = [
        (FIRST, 1_000),
        (SECOND, 1_001),
        (THIRD, 1_002),
        (FIRST, 61_000),
        (SECOND, 61_002),
        (THIRD, 61_004),
    ];
    searched.note(&rt, &met);
    searched.follow(&rt, &[(65_536, Some(FIRST), 305_536)]);
    searched.visit(&rt, None);
    searched.follow(&rt, &[(425_536, Some(SECOND), 665_540)]);
    searched.visit(&rt, None);
    searched.follow(&rt, &[(785_542, None, 6_284_336)]);
}
