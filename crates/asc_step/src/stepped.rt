/// What a step came to.
#[derive(Clone, Copy, Debug, PartialEq, Eq)]
pub enum Stepped {
    /// The step was taken.
    Went,
    /// The program calls its environment. The state is as it was, with the pc at the call.
    Call,
    /// The program faults. The state is as it was.
    Faulted(Fault),
}

use asc_model::Fault;
