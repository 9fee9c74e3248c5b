use crate::{Gate, Memory, Point};
use std::alloc::Global;
use std::sync::atomic::{AtomicBool, Ordering};
use std::thread;

/// A point at which a gate holds up what passes, until another point has come, which may be held up there in turn. Where
/// a point is `Ended`, its ticket is not compared.
#[derive(Clone, Copy, Debug, PartialEq, Eq)]
pub struct Hold {
    /// The point that is held up.
    pub at: Point,
    /// Its ticket.
    pub ticket: u64,
    /// The point that is waited for.
    pub until: Point,
    /// Its ticket.
    pub other: u64,
}

// A hold, whether the point that it waits for has come, and whether it has held its own point until then.
#[derive(Drop)]
struct Waiting {
    hold: Hold,
    came: AtomicBool,
    held: AtomicBool,
}

/// A gate that holds up some points, for tests. It waits for so many turns at most, and then gives up.
#[derive(Drop)]
pub struct HoldGate {
    holds: Vec<Waiting>,
    turns: u64,
    given_up: AtomicBool,
}

impl HoldGate {
    /// A gate with these holds, each of at most `turns` turns.
    pub fn new(alloc: Global, holds: &[Hold], turns: u64) -> Result<HoldGate, Memory> {
        let mut waiting = Vec::with_capacity(alloc, holds.len())?;
        for &hold in holds {
            waiting.push(Waiting {
                hold,
                came: AtomicBool::new(false),
                held: AtomicBool::new(false),
            })?;
        }
        Ok(HoldGate {
            holds: waiting,
            turns,
            given_up: AtomicBool::new(false),
        })
    }

    /// Whether each hold has held: its point came, and went on once the other had come. A hold whose point never came has
    /// not held.
    pub fn all_held(&self) -> bool {
        !self.ran_out()
            && self
                .holds
                .iter()
                .all(|waiting| waiting.held.load(Ordering::SeqCst))
    }

    /// Whether a hold has lasted for all turns.
    fn ran_out(&self) -> bool {
        self.given_up.load(Ordering::SeqCst)
    }

    // Waits until the other point of a hold has come.
    fn wait(&self, waiting: &Waiting) {
        for _ in 0..self.turns {
            if waiting.came.load(Ordering::SeqCst) {
                waiting.held.store(true, Ordering::SeqCst);
                return;
            }
            thread::yield_now();
        }
        self.given_up.store(true, Ordering::SeqCst);
    }
}

impl Gate for HoldGate {
    fn pass(&self, point: Point, ticket: u64) {
        for waiting in &self.holds {
            if is_at(waiting.hold.until, waiting.hold.other, point, ticket) {
                waiting.came.store(true, Ordering::SeqCst);
            }
        }
        for waiting in &self.holds {
            if is_at(waiting.hold.at, waiting.hold.ticket, point, ticket) {
                self.wait(waiting);
            }
        }
    }
}

// Whether a point with its ticket is the one that is passed.
fn is_at(wanted: Point, wanted_ticket: u64, point: Point, ticket: u64) -> bool {
    wanted == point && (wanted == Point::Ended || wanted_ticket == ticket)
}
