ghost use Rattle.std.specs.Prelude.{◌≡◌, ◌≢◌, ℕ, ◌<◌, ◌^◌, ◌≤ℤ◌, pos, unsigned_abs, [], Some, IfOk, IfErr, MatchOption, map, string_bytes, false};
ghost use Rattle.clap.specs.Words.{app_of, found_of, rows_of, subcommand_rows_of, subcommand_of, rule_of, fault_of, kind_of};
ghost use Rattle.clap.specs.declared.builder.command.Command.TheViews.{out-Command as fields_of};
ghost use Rattle.graph_model.specs.CommandLines.{HasRange, Generates};
ghost use Rattle.graph_model.specs.CommandLines as lines;
ghost use Rattle.command_line.specs.Words.{AsksFor, AreRefused, Enters, HasNumber, asked_of, txgraph, base_app, gen_app, number_rule};

use clap::error::ErrorKind;
use clap::{Arg, ArgAction, ArgMatches, Command, Error, value_parser};
use std::alloc::{AllocError, Global};

/// The greatest seed.
const MAX_SEED: i64 = 2_147_483_647;

/// The most commands that may be generated.
const MAX_COMMANDS: i64 = 1_000_000;

/// What the words ask for.
#[derive(Clone, Copy, Debug, PartialEq, Eq)]
pub enum Asked {
    /// `replay`: lines of commands are answered.
    Replay,
    /// `check`: a text is checked.
    Check,
    /// `load`: a text is loaded as a graph.
    Load,
    /// `gen SEED COUNT`: so many commands are made of the seed, below 2^31 and at most 1,000,000, and answered.
    Gen(u64, u64),
}

/// Why words ask for nothing.
#[derive(Clone, Copy, Debug, PartialEq, Eq)]
pub enum WordsFault {
    /// The command line doesn't take the words.
    Refused,
    /// There was no memory to parse them.
    Memory,
}

/// Reads the words of a command line, of which the first is the program's name.
pub fn read_words(alloc: Global, words: &[String]) -> Result<Asked, WordsFault>
    ensures asked { IfOk result (λ asked. AsksFor (map string_bytes words.now) (asked_of asked)) }
    ensures refused { IfErr result (λ fault. fault ≡ WordsFault.Refused → AreRefused (map string_bytes words.now)) }
{
    match parse(alloc, words) {
        Ok(matches) => asked_by(&matches),
        Err(error) if error.kind() == ErrorKind::OutOfMemory => Err(WordsFault::Memory),
        Err(_) => Err(WordsFault::Refused),
    }
}

/// Parses the words.
fn parse<'a>(alloc: Global, words: &'a [String]) -> Result<ArgMatches<'a>, Error>
    ensures matches { IfOk result (λ matches. (fault_of txgraph (map string_bytes words.now) ≡ [])
        × (subcommand_rows_of matches ≡ subcommand_of txgraph (map string_bytes words.now))) }
    ensures refused { IfErr result (λ error. kind_of error ≢ ErrorKind.OutOfMemory
        → fault_of txgraph (map string_bytes words.now) ≢ []) }
{
    command_line(alloc)?.try_get_matches_from(words)
}

/// The command line, as `clap` is told it.
pub fn command_line<'a>(alloc: Global) -> Result<Command<'a>, AllocError>
    ensures { IfOk result (λ command. app_of command ≡ txgraph) }
{
    let load = Command::new(alloc, "load");
    let generate = gen_command(alloc)?;
    base_command(alloc)?.subcommand(load)?.subcommand(generate)
}

/// `txgraph` with the first two of its subcommands, `replay` and `check`.
fn base_command<'a>(alloc: Global) -> Result<Command<'a>, AllocError>
    ensures { IfOk result (λ command. app_of command ≡ base_app) }
{
    let replay = Command::new(alloc, "replay");
    let check = Command::new(alloc, "check");
    Command::new(alloc, "txgraph")
        .subcommand_required(true)
        .subcommand(replay)?
        .subcommand(check)
}

/// `gen SEED COUNT`
fn gen_command<'a>(alloc: Global) -> Result<Command<'a>, AllocError>
    ensures { IfOk result (λ command. (app_of command ≡ gen_app) × ((fields_of command).has_globals ≡ false)) }
{
    let seed = number_arg(alloc, "SEED", MAX_SEED);
    let count = number_arg(alloc, "COUNT", MAX_COMMANDS);
    Command::new(alloc, "gen").arg(seed)?.arg(count)
}

/// A required whole number of at most `most`.
fn number_arg<'a>(alloc: Global, id: &'a str, most: i64) -> Arg<'a>
    requires { pos 0 ≤ℤ most }
    ensures rule { rule_of result ≡ number_rule id.entry.now (unsigned_abs most) }
    ensures local { result.global ≡ false }
{
    Arg::new(alloc, id)
        .action(ArgAction::Set)
        .required(true)
        .value_parser(value_parser!(u64).range(0..=most))
}

/// What the subcommand asks for.
fn asked_by(matches: &ArgMatches<'_>) -> Result<Asked, WordsFault>
    ensures asked { IfOk result (λ asked. Enters (subcommand_rows_of matches.now) (asked_of asked)
        × HasRange (asked_of asked)) }
    ensures refused { IfErr result (λ fault. (asked : lines.Asked) → Enters (subcommand_rows_of matches.now) asked
        → HasRange asked → ⊥) }
{
    match matches.subcommand() {
        Some((name, given)) => named(name, given),
        None => Err(WordsFault::Refused),
    }
}

/// What a subcommand of this name with these arguments asks for.
fn named(name: &str, given: &ArgMatches<'_>) -> Result<Asked, WordsFault>
    ensures asked { IfOk result (λ asked. Enters (Some (name.now, rows_of (found_of given.now))) (asked_of asked)
        × HasRange (asked_of asked)) }
    ensures refused { IfErr result (λ fault. (asked : lines.Asked) → Enters (Some (name.now, rows_of (found_of given.now))) asked
        → HasRange asked → ⊥) }
{
    if name == "replay" {
        return Ok(Asked::Replay);
    }
    if name == "check" {
        return Ok(Asked::Check);
    }
    if name == "load" {
        return Ok(Asked::Load);
    }
    if name == "gen" {
        let seed = number(given, "SEED");
        let count = number(given, "COUNT");
        return generated_by(seed, count);
    }
    Err(WordsFault::Refused)
}

/// What `gen` asks for with these numbers, where they are in range.
fn generated_by(seed: Option<u64>, count: Option<u64>) -> Result<Asked, WordsFault>
    ensures asked { IfOk result (λ asked. (s n : ℕ) × (seed ≡ Some s) × (count ≡ Some n) × (asked ≡ Asked.Gen s n)
        × HasRange (Generates s n)) }
    ensures refused { IfErr result (λ fault. (s n : ℕ) → seed ≡ Some s → count ≡ Some n → HasRange (Generates s n) → ⊥) }
{
    match (seed, count) {
        (Some(seed), Some(count)) if seed <= MAX_SEED as u64 && count <= MAX_COMMANDS as u64 => {
            Ok(Asked::Gen(seed, count))
        }
        _ => Err(WordsFault::Refused),
    }
}

/// The number that an argument is given.
fn number(given: &ArgMatches<'_>, id: &str) -> Option<u64>
    ensures { MatchOption result ((n : ℕ) → HasNumber id.now (rows_of (found_of given.now)) n → n < 2 ^ 64 → ⊥)
        (λ n. HasNumber id.now (rows_of (found_of given.now)) n) }
{
    given.get_one::<u64>(id)
}
