//! The edge of the program: what the words of a command line mean, how they are answered, and the answer's text.
#![tactic(auto)]

mod answer;
mod command;
mod given;
mod laws;
mod line;
mod report;

pub use answer::{
    Answer, Bad, BatchRun, Conclusion, Counts, RunEnd, SavedFault, TrialRun, WorkerCounts,
};
pub use given::given_words;
pub use laws::{lines_are_within, taken_words_have_lines};
pub use line::{BatchLine, FILE_LIMIT, FileName, Line, LineFault, RunLine, parse};
pub use report::{batch_text, text, trial_text};
