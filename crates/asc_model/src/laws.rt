//! The laws that tie states, their machines and their steps to one another. Each function stands for the law that it
//! ensures, and does nothing.

ghost use Rattle.asc_model.specs.Laws.{ViewsDetermineStates, StatesDetermineViews, StepWritesBytes, StepsKeepStates, StepsTouchPlaces, PlainStepsJoin, PlainStepsKeepStates, RowsDiffer, DecodeIsTheTable, RegistersFollowWords, RepeatedWordsTouchNoNewRegister, OneStepFrame, ManyStepsFrame, EntriesAreTrue, JoinsAreTrue, ReachesAreOne, ReachesAreComputed};

/// A state is known from its shape and its machine, which is one of that shape: turned into its machine and back, it is
/// the same state.
pub fn views_determine_states()
    ensures { ViewsDetermineStates }
{}

/// A machine is known from its state: turned into its state and back, it is the same machine.
pub fn states_determine_views()
    ensures { StatesDetermineViews }
{}

/// One step of the machine is what its writes do to the bytes of the state: after a step, each place that was written
/// has its new byte, and every other place has the byte that it had. A guest call and a fault write nothing.
pub fn step_writes_bytes()
    ensures { StepWritesBytes }
{}

/// A step leads from a state to a state, and the shape stays the same.
pub fn steps_keep_states()
    ensures { StepsKeepStates }
{}

/// A step reads and writes places of its state alone: each place that it reads, and each place that it writes, is below
/// the number of bytes of the state.
pub fn steps_touch_places()
    ensures { StepsTouchPlaces }
{}

/// Plain steps may be taken in parts: where `m` of them reach a state, `m + n` of them come to what `n` steps of that
/// state come to, be it a state, a guest call or a fault.
pub fn plain_steps_join()
    ensures { PlainStepsJoin }
{}

/// However many plain steps are taken, they lead from a state to a state, and the shape stays the same.
pub fn plain_steps_keep_states()
    ensures { PlainStepsKeepStates }
{}

/// No word is for two rows of a version's instruction table. So it is the same which row is asked first.
pub fn rows_differ()
    ensures { RowsDiffer }
{}

/// A word decodes to the instruction of the one row that is for it, and to none exactly where no row is.
pub fn decode_is_the_table()
    ensures { DecodeIsTheTable }
{}

/// Which registers a step reads and writes depends on its fetched word alone, where it goes on. Steps of two states of one
/// version that fetch the same word read and write the same places of registers and of the pc.
pub fn registers_follow_words()
    ensures { RegistersFollowWords }
{}

/// A step carried out before in a trace, on the same word, touches no new register place. Of the registers and the pc it
/// reads only what the steps before it read first or write. It writes only what they write.
pub fn repeated_words_touch_no_new_register()
    ensures { RepeatedWordsTouchNoNewRegister }
{}

/// Two states of one shape that agree on the places that a step of one of them reads step alike: both go on, both meet a
/// guest call or both the same fault. They read the same places and write the same bytes to the same places, and every
/// place that is not written keeps its byte.
pub fn one_step_frame()
    ensures { OneStepFrame }
{}

/// Where `n` plain steps of a state reach another, and a second state of the same shape agrees with the first one on the
/// places that these steps read first, `n` plain steps of the second one reach a state too. It has the same bytes on the
/// places written, and every other place keeps its byte. These steps read first and write the same places as the first
/// state's.
pub fn many_steps_frame()
    ensures { ManyStepsFrame }
{}

/// The entry of `n` steps of a state holds everywhere: from every state that has its read bytes, its steps go on and
/// lead to that state with its written bytes put in. And it is its own: it is the entry of as many steps from the state
/// that has its read bytes, and 0 at all other places.
pub fn entries_are_true()
    ensures { EntriesAreTrue }
{}

/// Two entries that each hold everywhere and are their own are joined into one that is so too.
pub fn joins_are_true()
    ensures { JoinsAreTrue }
{}

/// A trace of steps ends in at most one way: after one number of steps, for one reason.
pub fn reaches_are_one()
    ensures { ReachesAreOne }
{}

/// How many steps a trace takes is computed by `reach_of`: where it ends after a number of steps, that is the number.
pub fn reaches_are_computed()
    ensures { ReachesAreComputed }
{}
