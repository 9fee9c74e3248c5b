//! The command that `clap` reads.
ghost use Rattle.std.specs.Prelude.{◌≡◌, IfOk, false};
ghost use Rattle.clap.specs.Words.{app_of, rule_of};
ghost use Rattle.asc_words.specs.Command.{asc_command, batch_command, flag, inputs_argument, number_argument, make_command, number_option, required, rounds_flag, run_command, save_command, shared_arguments, subcommand_with, text_option, text_with_default, trial_command, workers_option};
ghost use Rattle.asc_words.specs.Subcommands.{IsSubcommand};

use asc_model::{MOST_AHEAD, MOST_ENTRY_STEPS, MOST_WAITING, MOST_WORKERS};
use clap::builder::ValueParser;
use clap::{Arg, ArgAction, Command};
use std::alloc::{AllocError, Global};

/// `asc` with its subcommands.
pub(crate) fn asc_command<'a>(alloc: Global) -> Result<Command<'a>, AllocError>
    ensures { IfOk result (λ command. app_of command ≡ asc_command) }
{
    Command::new(alloc, "asc")
        .subcommand_required(true)
        .disable_help_flag(true)
        .disable_help_subcommand(true)
        .subcommand(run_command(alloc)?)?
        .subcommand(save_command(alloc)?)?
        .subcommand(make_command(alloc)?)?
        .subcommand(trial_command(alloc)?)?
        .subcommand(batch_command(alloc)?)
}

/// `asc run`.
fn run_command<'a>(alloc: Global) -> Result<Command<'a>, AllocError>
    ensures { IfOk result (λ command. IsSubcommand command run_command) }
{
    shared_command(alloc, "run")?
        .arg(workers(alloc))?
        .arg(rounds(alloc))?
        .arg(text(alloc, "load"))?
        .arg(flag(alloc, "report"))
}

/// `asc save`.
fn save_command<'a>(alloc: Global) -> Result<Command<'a>, AllocError>
    ensures { IfOk result (λ command. IsSubcommand command save_command) }
{
    shared_command(alloc, "save")
}

/// A subcommand of this name, with what `asc run`, `asc save` and `asc batch` all take: a row for each argument.
fn shared_command<'a>(alloc: Global, name: &'a str) -> Result<Command<'a>, AllocError>
    ensures { IfOk result (λ command. IsSubcommand command (subcommand_with name.entry.now shared_arguments)) }
{
    Command::new(alloc, name)
        .arg(required(alloc, "image"))?
        .arg(number(alloc, "memory", 64, 65_536, "1024"))?
        .arg(number(alloc, "steps", 0, 1 << 40, "1099511627776"))?
        .arg(number(alloc, "machine", 1, 2, "2"))?
        .arg(text_with_default(alloc, "guess", "stride"))?
        .arg(text(alloc, "pc"))?
        .arg(number(alloc, "profile", 2, 65_536, "4096"))?
        .arg(number(alloc, "min", 2, 65_536, "4"))?
        .arg(number(alloc, "laps", 1, 1_000_000, "1"))?
        .arg(number(alloc, "span", 1, MOST_ENTRY_STEPS, "1000000"))?
        .arg(number(alloc, "ahead", 1, MOST_AHEAD as u64, "4"))?
        .arg(number(alloc, "queue", 1, MOST_WAITING as u64, "256"))?
        .arg(flag(alloc, "join"))?
        .arg(flag(alloc, "seek"))
}

/// `asc make`.
fn make_command<'a>(alloc: Global) -> Result<Command<'a>, AllocError>
    ensures { IfOk result (λ command. IsSubcommand command make_command) }
{
    Command::new(alloc, "make").arg(number_argument(alloc))
}

/// `asc trial`.
fn trial_command<'a>(alloc: Global) -> Result<Command<'a>, AllocError>
    ensures { IfOk result (λ command. IsSubcommand command trial_command) }
{
    Command::new(alloc, "trial")
        .arg(number_argument(alloc))?
        .arg(workers(alloc))?
        .arg(rounds(alloc))
}

/// `asc batch`.
fn batch_command<'a>(alloc: Global) -> Result<Command<'a>, AllocError>
    ensures { IfOk result (λ command. IsSubcommand command batch_command) }
{
    shared_command(alloc, "batch")?
        .arg(workers(alloc))?
        .arg(flag(alloc, "report"))?
        .arg(inputs(alloc))
}

/// How many workers a run has.
fn workers<'a>(alloc: Global) -> Arg<'a>
    ensures rule { rule_of result ≡ workers_option }
    ensures local { result.global ≡ false }
{
    number(alloc, "workers", 0, MOST_WORKERS as u64, "0")
}

/// Whether they run the guesses of each visit in rounds.
fn rounds<'a>(alloc: Global) -> Arg<'a>
    ensures rule { rule_of result ≡ rounds_flag }
    ensures local { result.global ≡ false }
{
    flag(alloc, "rounds")
}

/// The names of the inputs of a batch: each word that is no option, behind the image.
fn inputs<'a>(alloc: Global) -> Arg<'a>
    ensures rule { rule_of result ≡ inputs_argument }
    ensures local { result.global ≡ false }
{
    required(alloc, "inputs").action(ArgAction::Append)
}

/// The number of a generated image.
fn number_argument<'a>(alloc: Global) -> Arg<'a>
    ensures rule { rule_of result ≡ number_argument }
    ensures local { result.global ≡ false }
{
    required(alloc, "number").value_parser(ValueParser::unsigned(0, u64::MAX))
}

/// An argument without a name, which must be there.
fn required<'a>(alloc: Global, id: &'a str) -> Arg<'a>
    ensures rule { rule_of result ≡ required id.entry.now }
    ensures local { result.global ≡ false }
{
    Arg::new(alloc, id).required(true)
}

/// `--NAME N`: a number from `least` to `most`, and what it is where it is absent.
fn number<'a>(alloc: Global, name: &'a str, least: u64, most: u64, default: &'a str) -> Arg<'a>
    ensures rule { rule_of result ≡ number_option name.entry.now least most default.entry.now }
    ensures local { result.global ≡ false }
{
    Arg::new(alloc, name)
        .long(name)
        .value_parser(ValueParser::unsigned(least, most))
        .default_value(default)
}

/// `--NAME TEXT`, which may be absent.
fn text<'a>(alloc: Global, name: &'a str) -> Arg<'a>
    ensures rule { rule_of result ≡ text_option name.entry.now }
    ensures local { result.global ≡ false }
{
    Arg::new(alloc, name).long(name)
}

/// `--NAME TEXT`, and what it is where it is absent.
fn text_with_default<'a>(alloc: Global, name: &'a str, default: &'a str) -> Arg<'a>
    ensures rule { rule_of result ≡ text_with_default name.entry.now default.entry.now }
    ensures local { result.global ≡ false }
{
    text(alloc, name).default_value(default)
}

/// `--NAME`, which takes no value.
fn flag<'a>(alloc: Global, name: &'a str) -> Arg<'a>
    ensures rule { rule_of result ≡ flag name.entry.now }
    ensures local { result.global ≡ false }
{
    Arg::new(alloc, name).long(name).action(ArgAction::SetTrue)
}
