ghost use Rattle.std.specs.Prelude.{codes, ℕ, ◌≡◌, ◌<◌, ◌≤◌, IfOk, IfErr, Ok, Err, length, map, option_map};
ghost use Rattle.std.specs.String.{string_bytes};
ghost use Rattle.clap.specs.Words.{found_of, rows_of};
ghost use Rattle.asc_seek.specs.Seek.{IsSeeking};
ghost use Rattle.asc_words.specs.Rows.{HasFlag, HasNumber, HasShared, IsBatch, IsRun};
ghost use Rattle.asc_words.specs.Line.{IsRunWithin, IsWithin, address_of, batch_of, beside_in, flag_in, guesses_of, inputs_in, is_address, lanes_in, line_of, most_inputs, number_in, run_of, seeking_of, shared_of, version_numbered};

use crate::answer::Bad;
use crate::command::asc_command;
use asc_model::{MOST_WORKERS, Version};
use asc_seek::Seeking;
use clap::ArgMatches;
use clap::error::ErrorKind;
use std::alloc::{AllocError, Global};
use std::marker::Model;

/// The greatest file that is read, in bytes: 64 MiB.
pub const FILE_LIMIT: usize = 67_108_864;

/// The most inputs of a batch.
const MOST_INPUTS: usize = 64;

/// The steps that the laps of a sought address have to have beside workers: a jump over fewer gains less than a visit takes.
const WORTH_STEPS: u64 = 500;

/// The name of a file in a store. Contracts see it as its bytes.
#[derive(Debug, Drop)]
pub struct FileName {
    text: String,
}

impl Model for FileName {
    ghost use Rattle.std.specs.Prelude.{ℕ, List};
    ghost use Rattle.std.specs.String.{string_bytes};

    ghost Value = { List ℕ };

    ghost view = { λ n. string_bytes n.text };
}

impl FileName {
    /// The name with this text.
    pub fn new(text: String) -> FileName
        ensures { result ≡ string_bytes text }
    {
        FileName { text }
    }

    /// Its text.
    pub fn as_str(&self) -> &str
        ensures { result.now ≡ self.now }
    {
        self.text.as_str()
    }
}

/// What `asc run`, `asc save` or `asc batch` is asked for: a field for each argument, and two for `--guess`.
#[derive(Debug, Drop)]
pub struct RunLine {
    /// The image's name in the store.
    pub image: FileName,
    /// The guest's memory in KiB, from 64 to 65,536.
    pub memory: u32,
    /// The most steps that the guest may do, at most 2^40.
    pub limit: u64,
    /// The machine's version.
    pub version: Version,
    /// Whether states are guessed whose words are those of the last visit.
    pub last: bool,
    /// Whether states are guessed whose words go on by their differences between the last two visits.
    pub stride: bool,
    /// The recognised address.
    pub pc: Option<u32>,
    /// How many steps are watched before an address is recognised, from 2 to 65,536.
    pub profile: u32,
    /// How often an address must be met to be recognised, from 2 to 65,536.
    pub least: u32,
    /// How many visits on a guess is followed, from 1 to 1,000,000.
    pub laps: u64,
    /// The most steps that a guess is followed, from 1 to 1,000,000,000.
    pub span: u64,
    /// How many visits ahead states are guessed, from 1 to 64.
    pub ahead: u32,
    /// How many workers go beside the run, at most 64. None do where it goes in rounds.
    pub workers: usize,
    /// How many workers follow the guesses of each visit in rounds, beside the run's own thread: at most 64, and 0 where it
    /// does not go in rounds.
    pub lanes: usize,
    /// How many guesses wait for workers at most, from 1 to 1,024.
    pub queue: usize,
    /// Whether the entry of a guess is also joined with an earlier one that it may follow.
    pub join: bool,
    /// Whether the recognised address is sought while the run goes on, where none is given.
    pub seek: bool,
    /// Whether the numbers of the run are reported.
    pub report: bool,
    /// The file of saved entries that is loaded before the run.
    pub load: Option<FileName>,
}

impl RunLine {
    /// What is sought in the run, where it has no address.
    pub fn seeking(&self) -> Seeking
        requires { IsRunWithin self.now }
        ensures seeking { result ≡ seeking_of self.now }
        ensures bounds { IsSeeking result }
    {
        Seeking {
            least: self.least,
            least_lap: if self.workers > 0 { WORTH_STEPS } else { 1 },
            ahead: self.ahead,
        }
    }
}

/// What `asc batch` is asked for. Contracts see the list of its inputs.
#[derive(Debug, Drop)]
pub struct BatchLine {
    /// How each input's run goes: it has no lanes, and loads no entries.
    pub run: RunLine,
    /// The inputs' names in the store, in the order of their runs: 1 to 64.
    pub inputs: Vec<FileName>,
}

impl Model for BatchLine {
    ghost use Rattle.asc_words.specs.Batch.{BatchLine};

    ghost Value = { BatchLine };

    ghost view = { λ line. record { run = line.run; inputs = line.inputs.items } };
}

/// What a command line asks for: a variant for each subcommand.
#[derive(Debug, Drop)]
pub enum Line {
    /// `asc run`.
    Run(RunLine),
    /// `asc save`: no workers, no lanes, no report, and no entries to load.
    Save(RunLine),
    /// `asc make`: the generated image of this number.
    Make {
        /// The number.
        n: u64,
    },
    /// `asc trial`: a run of the generated image of this number.
    Trial {
        /// The number.
        n: u64,
        /// How many workers go beside the run, at most 64.
        workers: usize,
        /// How many follow its guesses in rounds, at most 64: 0 where any go beside it.
        lanes: usize,
    },
    /// `asc batch`.
    Batch(BatchLine),
}

/// Why there is no line.
#[derive(Clone, Copy, Debug, PartialEq, Eq)]
pub enum LineFault {
    /// The words are wrong.
    Usage(Bad),
    /// Want of memory.
    Memory,
}

impl From<AllocError> for LineFault {
    ghost use Rattle.asc_words.specs.declared.line.LineFault.{LineFault};

    ghost from_gives = { λ _ fault. fault ≡ LineFault.Memory };

    fn from(_: AllocError) -> LineFault {
        LineFault::Memory
    }
}

impl From<Bad> for LineFault {
    ghost use Rattle.std.specs.Prelude.{◌≡◌};
    ghost use Rattle.asc_words.specs.declared.line.LineFault.{LineFault};

    ghost from_gives = { λ bad fault. fault ≡ LineFault.Usage bad };

    fn from(bad: Bad) -> LineFault {
        LineFault::Usage(bad)
    }
}

impl From<clap::Error> for LineFault {
    ghost use Rattle.std.specs.Prelude.{◌≡◌};
    ghost use Rattle.clap.specs.Words.{kind_of};
    ghost use Rattle.asc_words.specs.Rows.{line_fault};

    ghost from_gives = { λ error fault. fault ≡ line_fault (kind_of error) };

    fn from(error: clap::Error) -> LineFault {
        match error.kind() {
            ErrorKind::OutOfMemory => LineFault::Memory,
            _ => LineFault::Usage(Bad::Words),
        }
    }
}

/// The line that the words of a command line mean, or what is wrong with them. The first word is the program's name.
pub fn parse(alloc: Global, words: &[String]) -> Result<Line, LineFault>
    // It is what the words mean, unless memory is wanting.
    ensures line { IfOk result (λ line. line_of (map string_bytes words.now) ≡ Ok line) }
    ensures usage { (bad : Bad) → result ≡ Err (LineFault.Usage bad) → line_of (map string_bytes words.now) ≡ Err bad }
    ensures within { IfOk result (λ line. IsWithin line) }
{
    let matches = asc_command(alloc)?.try_get_matches_from(words)?;
    let (name, found) = matches.subcommand().unwrap();
    match name {
        "run" => Ok(Line::Run(run_line(alloc, found)?)),
        "save" => Ok(Line::Save(shared_line(alloc, found)?)),
        "make" => Ok(Line::Make {
            n: number(found, "number"),
        }),
        "trial" => {
            let n = number(found, "number");
            let (workers, lanes) = workers_of(found);
            Ok(Line::Trial { n, workers, lanes })
        }
        "batch" => Ok(Line::Batch(batch_line(alloc, found)?)),
        _ => unreachable!(),
    }
}

/// Which guesses a run makes.
#[derive(Clone, Copy, Debug, PartialEq, Eq)]
pub(crate) struct Guesses {
    last: bool,
    stride: bool,
}

/// What `asc run` is asked for, of what was found for its arguments.
fn run_line(alloc: Global, found: &ArgMatches<'_>) -> Result<RunLine, LineFault>
    requires { IsRun (rows_of (found_of found.now)) }
    ensures line { IfOk result (λ line. run_of (rows_of (found_of found.now)) ≡ Ok (Line.Run line)) }
    ensures usage { (bad : Bad) → result ≡ Err (LineFault.Usage bad)
        → run_of (rows_of (found_of found.now)) ≡ Err bad }
{
    let line = shared_line(alloc, found)?;
    let load = file_name(alloc, found.get_str("load"))?;
    let (workers, lanes) = workers_of(found);
    Ok(RunLine {
        workers,
        lanes,
        report: flag(found, "report"),
        load,
        ..line
    })
}

/// What `asc batch` is asked for, of what was found for its arguments.
fn batch_line(alloc: Global, found: &ArgMatches<'_>) -> Result<BatchLine, LineFault>
    requires { IsBatch (rows_of (found_of found.now)) }
    ensures line { IfOk result (λ line. batch_of (rows_of (found_of found.now)) ≡ Ok (Line.Batch line)) }
    ensures usage { (bad : Bad) → result ≡ Err (LineFault.Usage bad)
        → batch_of (rows_of (found_of found.now)) ≡ Err bad }
{
    let line = shared_line(alloc, found)?;
    let inputs = few(found.get_strs("inputs").unwrap())?;
    Ok(BatchLine {
        run: RunLine {
            workers: number(found, "workers") as usize,
            report: flag(found, "report"),
            ..line
        },
        inputs: file_names(alloc, inputs)?,
    })
}

/// The inputs that a batch is given, which are few enough.
fn few<'a, 'b>(inputs: &'b [&'a str]) -> Result<&'b [&'a str], Bad>
    ensures few { IfOk result (λ given. (given.now ≡ inputs.now) × (length inputs.now ≤ most_inputs)) }
    ensures many { IfErr result (λ bad. (bad ≡ Bad.Inputs) × (most_inputs < length inputs.now)) }
{
    if inputs.len() > MOST_INPUTS {
        return Err(Bad::Inputs);
    }
    Ok(inputs)
}

/// The files' names that these texts are, in order.
fn file_names(alloc: Global, texts: &[&str]) -> Result<Vec<FileName>, AllocError>
    ensures { IfOk result (λ names. names.items ≡ map (λ s. s.now) texts.now) }
{
    let mut names = Vec::new(alloc);
    for text in texts {
        names.push(FileName::new(String::from_str(alloc, text)?))?;
    }
    Ok(names)
}

/// What `asc run`, `asc save` and `asc batch` are all asked for, of what was found for their arguments.
fn shared_line(alloc: Global, found: &ArgMatches<'_>) -> Result<RunLine, LineFault>
    requires { HasShared (rows_of (found_of found.now)) }
    ensures line { IfOk result (λ line. shared_of (rows_of (found_of found.now)) ≡ Ok line) }
    ensures usage { (bad : Bad) → result ≡ Err (LineFault.Usage bad)
        → shared_of (rows_of (found_of found.now)) ≡ Err bad }
{
    let guesses = guesses_of(found.get_str("guess").unwrap())?;
    let pc = address(found.get_str("pc"))?;
    Ok(RunLine {
        image: FileName::new(String::from_str(alloc, found.get_str("image").unwrap())?),
        memory: number(found, "memory") as u32,
        limit: number(found, "steps"),
        version: version_numbered(number(found, "machine")),
        last: guesses.last,
        stride: guesses.stride,
        pc,
        profile: number(found, "profile") as u32,
        least: number(found, "min") as u32,
        laps: number(found, "laps"),
        span: number(found, "span"),
        ahead: number(found, "ahead") as u32,
        workers: 0,
        lanes: 0,
        queue: number(found, "queue") as usize,
        join: flag(found, "join"),
        seek: flag(found, "seek"),
        report: false,
        load: None,
    })
}

/// The file's name that a text is, where there is one.
fn file_name(alloc: Global, text: Option<&str>) -> Result<Option<FileName>, AllocError>
    ensures { IfOk result (λ name. name ≡ option_map (λ s. s.now) text.entry) }
{
    match text {
        None => Ok(None),
        Some(text) => Ok(Some(FileName::new(String::from_str(alloc, text)?))),
    }
}

/// The guesses that a word asks for.
fn guesses_of(word: &str) -> Result<Guesses, Bad>
    ensures { result ≡ guesses_of word.now }
{
    let (last, stride) = match word {
        "none" => (false, false),
        "last" => (true, false),
        "stride" => (false, true),
        "both" => (true, true),
        _ => return Err(Bad::Words),
    };
    Ok(Guesses { last, stride })
}

/// The number that was found for an option.
fn number(found: &ArgMatches<'_>, id: &str) -> u64
    requires { (least : ℕ) × (most : ℕ) × HasNumber id.now least most (rows_of (found_of found.now)) }
    ensures { result ≡ number_in id.now (rows_of (found_of found.now)) }
{
    found.get_one::<u64>(id).unwrap()
}

/// How many workers go beside a run, and how many lanes run the guesses of each visit in rounds.
fn workers_of(found: &ArgMatches<'_>) -> (usize, usize)
    requires workers { HasNumber (codes "workers") 0 MOST_WORKERS (rows_of (found_of found.now)) }
    requires rounds { HasFlag (codes "rounds") (rows_of (found_of found.now)) }
    ensures { result ≡ (beside_in (rows_of (found_of found.now)), lanes_in (rows_of (found_of found.now))) }
{
    let workers = number(found, "workers") as usize;
    match flag(found, "rounds") {
        true => (0, workers),
        false => (workers, 0),
    }
}

/// Whether a flag was given.
fn flag(found: &ArgMatches<'_>, id: &str) -> bool
    requires { HasFlag id.now (rows_of (found_of found.now)) }
    ensures { result ≡ flag_in id.now (rows_of (found_of found.now)) }
{
    found.get_flag(id)
}

/// The address of an option that may be absent.
fn address(text: Option<&str>) -> Result<Option<u32>, Bad>
    ensures { result ≡ address_of (option_map (λ s. s.now) text.entry) }
{
    match text {
        None => Ok(None),
        Some(text) if is_address(text) => Ok(u32::from_str_radix(text, 16).ok()),
        Some(_) => Err(Bad::Pc),
    }
}

/// Whether a text is an address.
fn is_address(text: &str) -> bool
    ensures { result ≡ is_address text.now }
{
    !text.is_empty() && text.len() <= 8 && text.bytes().all(|digit| digit.is_ascii_hexdigit())
}

/// The version of a number that `--machine` takes.
fn version_numbered(number: u64) -> Version
    ensures { result ≡ version_numbered number }
{
    match number {
        1 => Version::One,
        _ => Version::Two,
    }
}
