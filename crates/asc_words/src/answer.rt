ghost use Rattle.std.specs.Prelude.{◌≡◌};

use crate::line::LineFault;
use asc_elf::ElfFault;
use asc_model::{Fault, RunCounts, SaveFault, Tally};

/// What is wrong with a command line.
#[derive(Clone, Copy, Debug, PartialEq, Eq)]
pub enum Bad {
    /// The words are of no command.
    Words,
    /// The value of `--pc` is no address.
    Pc,
    /// There are more inputs than 64.
    Inputs,
}

/// Why the file that `--load` names is refused.
#[derive(Clone, Copy, Debug, PartialEq, Eq)]
pub enum SavedFault {
    /// It is no file of saved entries.
    File(SaveFault),
    /// Its shape is not the image's.
    OtherShape,
    /// It has more than `FILE_LIMIT` bytes.
    TooLong,
}

/// How the program ends.
#[derive(Clone, Copy, Debug, PartialEq, Eq)]
pub enum Answer {
    /// The guest ended with this code.
    Exit(u8),
    /// `asc make`, `asc trial` or `asc save` has written its text. A trial's helper was refused memory so often, and else
    /// it is 0.
    Done(u64),
    /// The guest had done this many steps when its limit was reached.
    Limit(u64),
    /// An instruction of the guest met a fault after this many steps.
    Fault(Fault, u64),
    /// The command line is wrong.
    Usage(Bad),
    /// The file is no image that can be run.
    Image(ElfFault),
    /// The file has more than `FILE_LIMIT` bytes.
    TooLong,
    /// The input of this number, counted from 0, has more than `FILE_LIMIT` bytes.
    InputTooLong(usize),
    /// The file of saved entries is refused.
    Saved(SavedFault),
    /// The store failed, or has no file of that name.
    StoreFault,
    /// Want of memory, before the guest's first step. On `asc save` also where memory was wanting for an entry.
    Memory,
    /// The guest's input failed.
    ReadFault,
    /// The guest's output failed.
    WriteFault,
    /// The guest's error output failed.
    ErrFault,
    /// The report failed, while it took the text of another answer.
    ReportFault,
}

/// The numbers of a run and of what was guessed for it.
#[derive(Clone, Copy, Debug, PartialEq, Eq)]
pub struct Counts {
    /// Those of its walk.
    pub run: RunCounts,
    /// Guesses made.
    pub made: u64,
    /// How often memory was wanting.
    pub refused: u64,
}

/// The numbers of a run's workers: of the jobs that they took, and of those that they did not.
#[derive(Clone, Copy, Debug, PartialEq, Eq)]
pub struct WorkerCounts {
    /// Jobs that workers took, and what became of them.
    pub tally: Tally,
    /// Jobs that were left in the queue.
    pub left: u64,
    /// Guesses for which the queue had no room, or that were not offered once it had been filled up.
    pub full: u64,
}

/// What the words of a command line come to: an answer, and the numbers of its run where they are reported.
#[derive(Clone, Copy, Debug, PartialEq, Eq)]
pub struct Conclusion {
    /// How the program ends.
    pub answer: Answer,
    /// The numbers of the run.
    pub counts: Option<Counts>,
    /// The numbers of its workers.
    pub workers: Option<WorkerCounts>,
}

/// What a trial came to whose guest ended.
#[derive(Clone, Copy, Debug, PartialEq, Eq)]
pub struct TrialRun {
    /// The number of its image.
    pub n: u64,
    /// The guest's code.
    pub status: u8,
    /// Steps done and steps jumped over.
    pub steps: u64,
    /// How many bytes the guest wrote.
    pub output: u64,
    /// The numbers of the run, where there were no workers.
    pub counts: Option<Counts>,
}

/// How a run of a batch ended.
#[derive(Clone, Copy, Debug, PartialEq, Eq)]
pub enum RunEnd {
    /// The guest ended with this code.
    Exit(u8),
    /// The limit of its steps was reached.
    Limit,
    /// An instruction of the guest met a fault.
    Fault(Fault),
}

/// What a run of a batch came to.
#[derive(Clone, Copy, Debug, PartialEq, Eq)]
pub struct BatchRun {
    /// Its number, counted from 0.
    pub number: usize,
    /// How it ended.
    pub end: RunEnd,
    /// Steps done and steps jumped over.
    pub steps: u64,
    /// The numbers of the run, where they are reported.
    pub counts: Option<Counts>,
    /// The numbers of its workers.
    pub workers: Option<WorkerCounts>,
}

impl Conclusion {
    ghost use Rattle.asc_words.specs.Answer.{conclusion_of};

    /// An answer of which no numbers are reported.
    pub fn of(answer: Answer) -> Conclusion
        ensures { result ≡ conclusion_of answer }
    {
        Conclusion {
            answer,
            counts: None,
            workers: None,
        }
    }
}

impl Answer {
    ghost use Rattle.asc_words.specs.Answer.{code_of};

    /// The exit status that stands for an answer: the guest's own, 0 for a text written, or one of BSD's sysexits where
    /// it has one.
    pub fn code(&self) -> u8
        ensures { result ≡ code_of self.now }
    {
        match self {
            Answer::Exit(code) => *code,
            Answer::Done(_) => 0,
            Answer::Usage(_) => 64,
            Answer::Image(_) | Answer::TooLong | Answer::InputTooLong(_) | Answer::Saved(_) => 65,
            Answer::StoreFault => 66,
            Answer::Memory => 71,
            Answer::ReadFault | Answer::WriteFault | Answer::ErrFault | Answer::ReportFault => 74,
            Answer::Limit(_) => 75,
            Answer::Fault(..) => 76,
        }
    }
}

impl From<LineFault> for Answer {
    ghost use Rattle.std.specs.Prelude.{◌≡◌};
    ghost use Rattle.asc_words.specs.Answer.{refusal_of};

    ghost from_gives = { λ fault answer. answer ≡ refusal_of fault };

    fn from(fault: LineFault) -> Answer {
        match fault {
            LineFault::Usage(bad) => Answer::Usage(bad),
            LineFault::Memory => Answer::Memory,
        }
    }
}
