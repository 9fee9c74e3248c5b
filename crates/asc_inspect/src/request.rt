//! The words of the command line.
ghost use Rattle.std.specs.Prelude.{ℕ, ◌≡◌, ◌≢◌, ◌≤◌, ◌++◌, true, false, [], ◌∷◌, codes, IfOk, IfSome, IsNone, OnOk, Ok, Err, length, map};
ghost use Rattle.std.specs.String.{string_bytes};
ghost use Rattle.asc_words.specs.Line.{IsRunWithin, line_of};
ghost use Rattle.asc_words.specs.declared.line.Line.TheVariants.{Run};
ghost use Rattle.asc_inspect.specs.Asked.{Asks, AsksAddresses, AsksCount, AsksSeek, AsksVisit, HasNumber, IsNumber, word_at};

use asc_words::{Bad, Line, LineFault, RunLine, parse};
use std::alloc::{AllocError, Global};

/// What a command line asks for.
#[derive(Debug, Drop)]
pub struct Request {
    /// How the image is run. What it says of reports means nothing here, and what it says of workers only to
    /// `Question::Seek`, which starts none.
    pub line: RunLine,
    /// What is asked of that run.
    pub question: Question,
}

/// What is asked of the run of an image.
#[derive(Clone, Copy, Debug, PartialEq, Eq)]
pub enum Question {
    /// The entry of the lap that begins at a visit.
    Entry(Visit),
    /// What a guess of a visit from the two before it has wrong; the number is at least 3.
    Miss(Visit),
    /// The registers after so many steps.
    At(u64),
    /// How often addresses are met.
    Profile(Addresses),
    /// Where the run is visited, without workers, when its address is sought.
    Seek,
}

/// A visit of an address.
#[derive(Clone, Copy, Debug, PartialEq, Eq)]
pub struct Visit {
    /// The address.
    pub pc: u32,
    /// Which visit of it, from 1 on.
    pub number: u64,
}

/// Which addresses of those that a run meets.
#[derive(Clone, Copy, Debug, PartialEq, Eq)]
pub enum Addresses {
    /// Those that a step led back to.
    Heads,
    /// All.
    All,
}

const WRONG: LineFault = LineFault::Usage(Bad::Words);

/// What the words of a command line ask for. The first word is the program's name.
pub fn request_of(alloc: Global, words: &[String]) -> Result<Request, LineFault>
    ensures asks { IfOk result (λ request. Asks (map string_bytes words.now) request) }
    ensures within { IfOk result (λ request. IsRunWithin request.line) }
    ensures number { IfOk result (λ request. HasNumber request.question) }
    ensures usage { (bad : Bad) → result ≡ Err (LineFault.Usage bad)
        → (request : Request) → Asks (map string_bytes words.now) request → ⊥ }
{
    if words.len() < 2 {
        return Err(WRONG);
    }
    match words[1].as_str() {
        "entry" => {
            let (line, visit) = visit_of(alloc, words, 1)?;
            let question = Question::Entry(visit);
            Ok(Request { line, question })
        }
        "miss" => {
            let (line, visit) = visit_of(alloc, words, 3)?;
            let question = Question::Miss(visit);
            Ok(Request { line, question })
        }
        "at" => {
            let (line, count) = count_of(alloc, words)?;
            let question = Question::At(count);
            Ok(Request { line, question })
        }
        "profile" => {
            let (line, addresses) = addresses_of(alloc, words)?;
            let question = Question::Profile(addresses);
            Ok(Request { line, question })
        }
        "seek" => {
            let line = seeking_line(alloc, words)?;
            let question = Question::Seek;
            Ok(Request { line, question })
        }
        _ => Err(WRONG),
    }
}

/// The run and the visit of a question with an image, an address and a visit's number, which is at least this.
fn visit_of(alloc: Global, words: &[String], least: u64) -> Result<(RunLine, Visit), LineFault>
    ensures asks { IfOk result (λ asked. AsksVisit least (map string_bytes words.now) asked.0 asked.1) }
    ensures within { IfOk result (λ asked. IsRunWithin asked.0) }
    ensures usage { (bad : Bad) → result ≡ Err (LineFault.Usage bad)
        → (line : RunLine) (visit : Visit) → AsksVisit least (map string_bytes words.now) line visit → ⊥ }
{
    if words.len() < 5 {
        return Err(WRONG);
    }
    let Some(number) = number(words[4].as_str()) else {
        return Err(WRONG);
    };
    if number < least {
        return Err(WRONG);
    }
    let mut asked = run_words(alloc)?;
    put_word(alloc, &mut asked, words[2].as_str())?;
    put_word(alloc, &mut asked, "--pc")?;
    put_word(alloc, &mut asked, words[3].as_str())?;
    let line = line_with(alloc, asked, &words[5..])?;
    match line.pc {
        Some(pc) => Ok((line, Visit { pc, number })),
        None => Err(WRONG),
    }
}

/// The run and the count of a question with an image and a count of steps.
fn count_of(alloc: Global, words: &[String]) -> Result<(RunLine, u64), LineFault>
    ensures asks { IfOk result (λ asked. AsksCount (map string_bytes words.now) asked.0 asked.1) }
    ensures within { IfOk result (λ asked. IsRunWithin asked.0) }
    ensures usage { (bad : Bad) → result ≡ Err (LineFault.Usage bad)
        → (line : RunLine) (count : ℕ) → AsksCount (map string_bytes words.now) line count → ⊥ }
{
    if words.len() < 4 {
        return Err(WRONG);
    }
    let Some(count) = number(words[3].as_str()) else {
        return Err(WRONG);
    };
    let mut asked = run_words(alloc)?;
    put_word(alloc, &mut asked, words[2].as_str())?;
    let line = line_with(alloc, asked, &words[4..])?;
    Ok((line, count))
}

/// The run and the addresses of a question with an image, maybe behind `--all`.
fn addresses_of(alloc: Global, words: &[String]) -> Result<(RunLine, Addresses), LineFault>
    requires { 2 ≤ length words.now }
    ensures asks { IfOk result (λ asked. AsksAddresses (map string_bytes words.now) asked.0 asked.1) }
    ensures within { IfOk result (λ asked. IsRunWithin asked.0) }
    ensures usage { (bad : Bad) → result ≡ Err (LineFault.Usage bad)
        → (line : RunLine) (addresses : Addresses) → AsksAddresses (map string_bytes words.now) line addresses → ⊥ }
{
    let asked = run_words(alloc)?;
    if has_all(words) {
        let line = line_with(alloc, asked, &words[3..])?;
        Ok((line, Addresses::All))
    } else {
        let line = line_with(alloc, asked, &words[2..])?;
        Ok((line, Addresses::Heads))
    }
}

/// The run of the question with an image alone, whose address is sought.
fn seeking_line(alloc: Global, words: &[String]) -> Result<RunLine, LineFault>
    requires { 2 ≤ length words.now }
    ensures asks { IfOk result (λ line. AsksSeek (map string_bytes words.now) line) }
    ensures within { IfOk result (λ line. IsRunWithin line) }
    ensures usage { (bad : Bad) → result ≡ Err (LineFault.Usage bad)
        → (line : RunLine) → AsksSeek (map string_bytes words.now) line → ⊥ }
{
    let mut asked = run_words(alloc)?;
    put_word(alloc, &mut asked, "--seek")?;
    line_with(alloc, asked, &words[2..])
}

/// Whether the third word is `--all`.
fn has_all(words: &[String]) -> bool
    ensures yes { result ≡ true → word_at 2 (map string_bytes words.now) ≡ codes "--all" }
    ensures no { result ≡ false → word_at 2 (map string_bytes words.now) ≢ codes "--all" }
    ensures enough { result ≡ true → 3 ≤ length words.now }
{
    words.len() > 2 && words[2].as_str() == "--all"
}

/// The number of a text, where it is one.
fn number(text: &str) -> Option<u64>
    ensures some { IfSome result (λ number. IsNumber text.now number) }
    ensures none { IsNone result → (number : ℕ) → IsNumber text.now number → ⊥ }
{
    u64::from_str_radix(text, 10).ok()
}

/// The line of some words and options behind them, where it is one of `asc run`.
fn line_with(
    alloc: Global,
    mut asked: Vec<String>,
    options: &[String],
) -> Result<RunLine, LineFault>
    ensures line { IfOk result (λ line.
        line_of (map string_bytes asked.items ++ map string_bytes options.now) ≡ Ok (Run line)) }
    ensures within { IfOk result (λ line. IsRunWithin line) }
    ensures usage { (bad : Bad) → result ≡ Err (LineFault.Usage bad) → (line : RunLine)
        → line_of (map string_bytes asked.items ++ map string_bytes options.now) ≡ Ok (Run line) → ⊥ }
{
    for word in options {
        put_word(alloc, &mut asked, word.as_str())?;
    }
    match parse(alloc, &asked)? {
        Line::Run(line) => Ok(line),
        _ => Err(WRONG),
    }
}

/// The words with which a line of `asc run` begins.
fn run_words(alloc: Global) -> Result<Vec<String>, AllocError>
    ensures { IfOk result (λ asked. map string_bytes asked.items ≡ codes "asc" ∷ codes "run" ∷ []) }
{
    let mut asked = Vec::new(alloc);
    put_word(alloc, &mut asked, "asc")?;
    put_word(alloc, &mut asked, "run")?;
    Ok(asked)
}

/// Puts a copy of a word behind others.
fn put_word(alloc: Global, words: &mut Vec<String>, word: &str) -> Result<(), AllocError>
    ensures { OnOk result (map string_bytes words.new.items ≡ map string_bytes words.old.items ++ word.now ∷ []) }
{
    words.push(String::from_str(alloc, word)?)?;
    Ok(())
}
