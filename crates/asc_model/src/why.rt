use crate::Fault;

/// Why a trace of steps ended.
#[derive(Clone, Copy, Debug, PartialEq, Eq)]
pub enum Why {
    /// Steps have led to the given pc as often as was asked for.
    Lap,
    /// As many steps were taken as was asked for.
    Span,
    /// Fewer than 32 further places may be touched. A step touches at most 29.
    Room,
    /// It was told to stop.
    Stopped,
    /// The next step would be a guest call.
    Call,
    /// The next step would meet this fault.
    Fault(Fault),
}
