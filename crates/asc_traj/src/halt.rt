ghost use Rattle.std.specs.Prelude.{ℕ, Option, None};
ghost use Rattle.asc_traj.specs.Trace.{CountsAnswer, CountsAsk, LosesPatience};

/// Whether a trace is to stop. `trace` asks before each of its steps.
pub trait Halt {
    /// How many of its answers were yes, up to 2^64 - 1.
    ghost count: { Self → ℕ };

    /// How often it was asked, where that is told.
    ghost asks: { Self → Option ℕ };

    /// At most how many more times the answer is no, where that is told.
    ghost patience: { Self → Option ℕ };

    /// Whether to stop.
    fn asked(&mut self) -> bool
        ensures count { CountsAnswer (count self.old) (count self.new) result }
        ensures asks { CountsAsk (asks self.old) (asks self.new) }
        ensures patience { LosesPatience (patience self.old) (patience self.new) result };
}

/// It never asks to stop.
#[derive(Clone, Copy, Debug, Default, PartialEq, Eq)]
pub struct Never;

impl Halt for Never {
    ghost count = { λ _. 0 };

    ghost asks = { λ _. None };

    ghost patience = { λ _. None };

    #[inline]
    fn asked(&mut self) -> bool {
        false
    }
}
