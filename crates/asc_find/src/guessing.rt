/// What is guessed at a visit, how far a guess is traced, and whether its entry is joined with another.
#[derive(Clone, Copy, Debug, PartialEq, Eq)]
pub struct Guessing {
    /// Whether later states are guessed as the last one.
    pub last: bool,
    /// Whether later states are guessed as going on as it went from the one before the last.
    pub stride: bool,
    /// After how many laps a trace ends: from 1 to 1,000,000.
    pub laps: u64,
    /// After how many steps a trace ends at the latest: from 1 to 1,000,000,000.
    pub span: u64,
    /// How many visits ahead are guessed: from 1 to 64.
    pub ahead: u32,
    /// Whether the entry of a guess is also joined with an earlier one that it may follow.
    pub join: bool,
}
