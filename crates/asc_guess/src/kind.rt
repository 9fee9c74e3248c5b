/// How a later state is guessed.
#[derive(Clone, Copy, Debug, PartialEq, Eq)]
pub enum Kind {
    /// As the last one.
    Last,
    /// Going on as it went from the one before the last.
    Stride,
}
