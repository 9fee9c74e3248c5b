//! The answers of the program, with their lines and statuses.
ghost use Rattle.std.specs.Prelude.{◌≡◌, ◌+◌, ◌≤◌, ◌++◌, codes, decimal, length};
ghost use Rattle.arrayvec.specs.ArrayVec.{array_vec_len};
ghost use Rattle.asc_inspect.specs.Shown.{answer_text, before_text, code_of, code_of_end, end_text, number_of};

use arrayvec::ArrayVec;
use asc_elf::ElfFault;
use asc_outside::Memory;
use asc_run::Ended;
use asc_words::LineFault;
use itoa::Buffer;

/// How the program ends.
#[derive(Clone, Copy, Debug, PartialEq, Eq)]
pub enum Answer {
    /// What was asked for was put to the output.
    Shown,
    /// At the visit stands a guest call, or an instruction that meets a fault: there is no entry.
    NoStep,
    /// The guest's program ended before it came to what was asked for, and had come so far.
    Ended(Ended, Reached),
    /// The command line is wrong.
    Usage,
    /// The file is no image that can be run.
    Image(ElfFault),
    /// The file has more than `asc_words::FILE_LIMIT` bytes.
    TooLong,
    /// The file was not read.
    StoreFault,
    /// Want of memory.
    Memory,
    /// The output failed, while it took what was asked for.
    OutFault,
}

/// How far a program came.
#[derive(Clone, Copy, Debug, PartialEq, Eq)]
pub enum Reached {
    /// How often it had been at the address.
    Visits(u64),
    /// How many steps it had done.
    Steps(u64),
}

/// A line as far as it is built.
pub type Line = ArrayVec<u8, 128>;

impl Answer {
    /// The exit status: 0 where what was asked for was shown, or one of BSD's sysexits where it has one.
    pub fn code(&self) -> u8
        ensures { result ≡ code_of self.now }
    {
        match self {
            Answer::Shown => 0,
            Answer::Usage => 64,
            Answer::Image(_) | Answer::TooLong => 65,
            Answer::StoreFault => 66,
            Answer::NoStep => 69,
            Answer::Memory => 71,
            Answer::OutFault => 74,
            Answer::Ended(ended, _) => code_of_end(*ended),
        }
    }

    /// The line of an answer, or nothing where what was asked for was shown.
    #[tactic(auto, unfolding(crate::specs::Shown::answer_text))]
    pub fn line(&self) -> Line
        ensures { result.items ≡ answer_text self.now }
    {
        let mut line = Line::new();
        match self {
            Answer::Shown => {}
            Answer::Usage => put(
                &mut line,
                b"asc_show: wants entry|miss IMAGE ADDRESS VISIT, at IMAGE STEPS, profile [--all] IMAGE, or seek IMAGE, and options of asc run\n",
            ),
            Answer::Image(_) => put(
                &mut line,
                b"asc_show: the file is no image; asc run tells its fault\n",
            ),
            Answer::TooLong => put(
                &mut line,
                b"asc_show: the file has more than 67,108,864 bytes\n",
            ),
            Answer::StoreFault => put(&mut line, b"asc_show: the file can't be read\n"),
            Answer::NoStep => put(
                &mut line,
                b"asc_show: no entry: a guest call or a fault stands at that visit\n",
            ),
            Answer::Memory => put(&mut line, b"asc_show: out of memory\n"),
            Answer::OutFault => put(&mut line, b"asc_show: standard output failed\n"),
            Answer::Ended(ended, reached) => put_end(&mut line, *ended, *reached),
        }
        line
    }
}

impl From<LineFault> for Answer {
    ghost use Rattle.std.specs.Prelude.{◌≡◌};
    ghost use Rattle.asc_inspect.specs.Shown.{refusal_of};

    ghost from_gives = { λ fault answer. answer ≡ refusal_of fault };

    fn from(fault: LineFault) -> Answer {
        match fault {
            LineFault::Usage(_) => Answer::Usage,
            LineFault::Memory => Answer::Memory,
        }
    }
}

impl From<Memory> for Answer {
    ghost use Rattle.std.specs.Prelude.{◌≡◌};
    ghost use Rattle.asc_inspect.specs.declared.answer.Answer.TheVariants as answers;

    ghost from_gives = { λ _ answer. answer ≡ answers.Memory };

    fn from(_: Memory) -> Answer {
        Answer::Memory
    }
}

/// The status where a program ended before it came so far.
fn code_of_end(ended: Ended) -> u8
    ensures { result ≡ code_of_end ended }
{
    match ended {
        Ended::Exit(_) => 69,
        Ended::ReadFault | Ended::WriteFault | Ended::ErrFault => 74,
        Ended::Limit => 75,
        Ended::Fault(_) => 76,
    }
}

/// Appends the line of a program that ended before it came so far.
fn put_end(line: &mut Line, ended: Ended, reached: Reached)
    requires { array_vec_len line.old ≡ 0 }
    ensures { line.new.items ≡ line.old.items ++ codes "asc_show: " ++ end_text ended ++ before_text reached
        ++ decimal (number_of reached) ++ codes "\n" }
{
    put(line, b"asc_show: ");
    put(line, end_text(ended).as_bytes());
    put(line, before_text(reached).as_bytes());
    put_number(line, reached.number());
    put(line, b"\n");
}

impl Reached {
    /// The number of visits or steps.
    fn number(self) -> u64
        ensures { result ≡ number_of self }
    {
        match self {
            Reached::Visits(visits) => visits,
            Reached::Steps(steps) => steps,
        }
    }
}

/// What a program came not to, and what is counted.
fn before_text(reached: Reached) -> &'static str
    ensures text { result.now ≡ before_text reached }
    ensures short { length result.now ≤ 40 }
{
    match reached {
        Reached::Visits(_) => " before that visit; visits so far: ",
        Reached::Steps(_) => " before that step; steps so far: ",
    }
}

/// How a program ended.
fn end_text(ended: Ended) -> &'static str
    ensures text { result.now ≡ end_text ended }
    ensures short { length result.now ≤ 40 }
{
    match ended {
        Ended::Exit(_) => "the program ended",
        Ended::Fault(_) => "the program met a fault",
        Ended::Limit => "the limit on steps was reached",
        Ended::ReadFault => "standard input failed",
        Ended::WriteFault => "the guest's output failed",
        Ended::ErrFault => "the guest's error output failed",
    }
}

/// Appends bytes.
fn put(line: &mut Line, piece: &[u8])
    requires { array_vec_len line.old + length piece.now ≤ 128 }
    ensures { line.new.items ≡ line.old.items ++ piece.now }
{
    line.try_extend_from_slice(piece).unwrap();
}

/// Appends a number in decimal.
fn put_number(line: &mut Line, number: u64)
    requires { array_vec_len line.old + 20 ≤ 128 }
    ensures number { line.new.items ≡ line.old.items ++ decimal number }
    ensures room { array_vec_len line.new ≤ array_vec_len line.old + 20 }
{
    let mut buffer = Buffer::new();
    put(line, buffer.format(number).as_bytes());
}
