//! The words of the command line.

ghost use Rattle.std.specs.Prelude.{◌≡◌, false, IfOk, map, option_map, option_and_then, string_bytes};
ghost use Rattle.clap.specs.Words.{app_of, rule_of, subcommand_rows_of};
ghost use Rattle.clap.specs.declared.builder.command.Command.TheViews.{out-Command};
ghost use Rattle.lois_run.specs.CommandLine.{are_expected, seen_behind, is_option, decider_option, run_command, make_command, equal_command, census_command, bare_program, with_script_commands, with_answer_commands, program, kind_given, script_command, command_named, command_found};
ghost use Rattle.lois_command.specs.FreeNames.{free_name};
ghost use Rattle.lois_run.specs.Words.{command_of, kind_named, number_named, command_with_names};

use clap::error::ErrorKind;
use clap::{Arg, ArgAction, ArgMatches};
use lois_base::{Kind, Name, NoMemory};
use lois_command::{free_name, is_dashed};
use std::alloc::{AllocError, Global};

/// What the program is asked for.
#[derive(Drop)]
pub(crate) enum Command {
    /// To run a script, with the first decider or the first of a kind.
    Run(Option<Kind>),
    /// To read a script and to write its printed form.
    Check,
    /// To read a results text or a trace and to write it again.
    Reread,
    /// To make the script of this number and to run it, with the first decider or the first of a kind.
    Make(u32, Option<Kind>),
    /// To read a results text and to compare the automata of the lines with these names in each case.
    Equal(Name, Name),
    /// To read a register automaton and to write it as an automaton over atoms.
    Registers,
    /// To read a results text and to list one member of each orbit of the set of the lines with this name.
    Census(Name),
}

/// What these words ask for; `None` where they are none that the program takes.
pub(crate) fn parse_command(alloc: Global, words: &[String]) -> Result<Option<Command>, NoMemory>
    ensures { IfOk result (λ o. o ≡ command_of (map string_bytes words.now)) }
{
    if !are_expected(words) {
        return Ok(None);
    }
    match program(alloc)?.try_get_matches_from(words) {
        Ok(matches) => command_found(alloc, &matches),
        Err(error) if error.kind() == ErrorKind::OutOfMemory => Err(NoMemory),
        Err(_) => Ok(None),
    }
}

// Whether no word starts with a hyphen but the option, once.
fn are_expected(words: &[String]) -> bool
    ensures { result ≡ are_expected false (map string_bytes words.now) }
{
    let mut seen = false;
    for word in words {
        match seen_behind(seen, word.as_str()) {
            Some(behind) => seen = behind,
            None => return false,
        }
    }
    true
}

// Whether the option was seen, behind one more word; `None` where it starts with a hyphen otherwise.
fn seen_behind(seen: bool, word: &str) -> Option<bool>
    ensures { result ≡ seen_behind seen word.now }
{
    if !is_dashed(word) {
        Some(seen)
    } else if !seen && is_option(word) {
        Some(true)
    } else {
        None
    }
}

fn is_option(word: &str) -> bool
    ensures { result ≡ is_option word.now }
{
    word == "--decider" || word.as_bytes().starts_with(b"--decider=")
}

// One command with one level of subcommands.
fn program<'a>(alloc: Global) -> Result<clap::Command<'a>, AllocError>
    ensures { IfOk result (λ c. app_of c ≡ program) }
{
    let scripts = with_script_commands(alloc, bare_program(alloc))?;
    with_answer_commands(alloc, scripts)
}

fn bare_program<'a>(alloc: Global) -> clap::Command<'a>
    ensures { app_of result ≡ bare_program }
{
    clap::Command::new(alloc, "lois")
        .no_binary_name(true)
        .disable_help_flag(true)
        .disable_help_subcommand(true)
        .subcommand_required(true)
}

fn with_script_commands<'a>(
    alloc: Global,
    program: clap::Command<'a>,
) -> Result<clap::Command<'a>, AllocError>
    ensures { IfOk result (λ c. app_of c ≡ with_script_commands (app_of program.entry)) }
{
    program
        .subcommand(run_command(alloc)?)?
        .subcommand(make_command(alloc)?)?
        .subcommand(clap::Command::new(alloc, "check"))
}

fn with_answer_commands<'a>(
    alloc: Global,
    program: clap::Command<'a>,
) -> Result<clap::Command<'a>, AllocError>
    ensures { IfOk result (λ c. app_of c ≡ with_answer_commands (app_of program.entry)) }
{
    program
        .subcommand(clap::Command::new(alloc, "reread"))?
        .subcommand(equal_command(alloc)?)?
        .subcommand(clap::Command::new(alloc, "registers"))?
        .subcommand(census_command(alloc)?)
}

fn run_command<'a>(alloc: Global) -> Result<clap::Command<'a>, AllocError>
    ensures shape { IfOk result (λ c. app_of c ≡ run_command) }
    ensures local { IfOk result (λ c. (out-Command c).has_globals ≡ false) }
{
    clap::Command::new(alloc, "run").arg(decider(alloc))
}

// Its number is read by hand, as the kind of decider is.
fn make_command<'a>(alloc: Global) -> Result<clap::Command<'a>, AllocError>
    ensures shape { IfOk result (λ c. app_of c ≡ make_command) }
    ensures local { IfOk result (λ c. (out-Command c).has_globals ≡ false) }
{
    clap::Command::new(alloc, "make")
        .arg(decider(alloc))?
        .arg(Arg::new(alloc, "first"))
}

// The names are read by hand too.
fn equal_command<'a>(alloc: Global) -> Result<clap::Command<'a>, AllocError>
    ensures shape { IfOk result (λ c. app_of c ≡ equal_command) }
    ensures local { IfOk result (λ c. (out-Command c).has_globals ≡ false) }
{
    clap::Command::new(alloc, "equal")
        .arg(Arg::new(alloc, "first"))?
        .arg(Arg::new(alloc, "second"))
}

fn census_command<'a>(alloc: Global) -> Result<clap::Command<'a>, AllocError>
    ensures shape { IfOk result (λ c. app_of c ≡ census_command) }
    ensures local { IfOk result (λ c. (out-Command c).has_globals ≡ false) }
{
    clap::Command::new(alloc, "census").arg(Arg::new(alloc, "first"))
}

fn decider<'a>(alloc: Global) -> Arg<'a>
    ensures rule { rule_of result ≡ decider_option }
    ensures local { result.global ≡ false }
{
    Arg::new(alloc, "decider")
        .long("decider")
        .action(ArgAction::Set)
}

fn command_found(alloc: Global, matches: &ArgMatches) -> Result<Option<Command>, NoMemory>
    ensures { IfOk result (λ o. o ≡ command_found (subcommand_rows_of matches.now)) }
{
    match matches.subcommand() {
        Some((name, given)) => command_named(
            alloc,
            name,
            given.get_str("decider"),
            given.get_str("first"),
            given.get_str("second"),
        ),
        None => Ok(None),
    }
}

// The command of a subcommand, of the value of its option and of its positional arguments.
fn command_named(
    alloc: Global,
    name: &str,
    decider: Option<&str>,
    first: Option<&str>,
    second: Option<&str>,
) -> Result<Option<Command>, NoMemory>
    ensures { IfOk result (λ o. o ≡ command_named name.now (option_map (λ kind. kind.now) decider.entry) (option_map (λ word. word.now) first.entry) (option_map (λ word. word.now) second.entry)) }
{
    if name == "equal" {
        return equal_named(alloc, first, second);
    }
    if name == "census" {
        return census_named(alloc, first);
    }
    if name == "registers" {
        return Ok(Some(Command::Registers));
    }
    Ok(script_command(name, decider, first))
}

fn equal_named(
    alloc: Global,
    first: Option<&str>,
    second: Option<&str>,
) -> Result<Option<Command>, NoMemory>
    ensures { IfOk result (λ o. o ≡ command_with_names (option_and_then free_name (option_map (λ word. word.now) first.entry)) (option_and_then free_name (option_map (λ word. word.now) second.entry))) }
{
    let Some(one) = free_name(alloc, first)? else {
        return Ok(None);
    };
    let Some(other) = free_name(alloc, second)? else {
        return Ok(None);
    };
    Ok(Some(Command::Equal(one, other)))
}

fn census_named(alloc: Global, first: Option<&str>) -> Result<Option<Command>, NoMemory>
    ensures { IfOk result (λ o. o ≡ option_map (λ n. Command.Census n) (option_and_then free_name (option_map (λ word. word.now) first.entry))) }
{
    let Some(name) = free_name(alloc, first)? else {
        return Ok(None);
    };
    Ok(Some(Command::Census(name)))
}

// The command of a subcommand about scripts, or `reread`.
fn script_command(name: &str, decider: Option<&str>, first: Option<&str>) -> Option<Command>
    ensures { result ≡ script_command name.now (option_map (λ kind. kind.now) decider.entry) (option_map (λ word. word.now) first.entry) }
{
    if name == "run" {
        Some(Command::Run(kind_given(decider)?))
    } else if name == "make" {
        Some(Command::Make(number_named(first?)?, kind_given(decider)?))
    } else if name == "check" {
        Some(Command::Check)
    } else if name == "reread" {
        Some(Command::Reread)
    } else {
        None
    }
}

// The kind that the value of the option names, where it was given.
fn kind_given(decider: Option<&str>) -> Option<Option<Kind>>
    ensures { result ≡ kind_given (option_map (λ kind. kind.now) decider.entry) }
{
    match decider {
        Some(word) => Some(Some(kind_named(word)?)),
        None => Some(None),
    }
}

fn kind_named(word: &str) -> Option<Kind>
    ensures { result ≡ kind_named word.now }
{
    if word == "plain" {
        Some(Kind::Plain)
    } else if word == "graph" {
        Some(Kind::Graph)
    } else if word == "memo" {
        Some(Kind::Memo)
    } else {
        None
    }
}

fn number_named(word: &str) -> Option<u32>
    ensures { result ≡ number_named word.now }
{
    // `parse` takes a plus sign and leading zeros too
    let bytes = word.as_bytes();
    if bytes.starts_with(b"+") || bytes.starts_with(b"0") {
        return None;
    }
    let Ok(number) = word.parse::<u32>() else {
        return None;
    };
    if 1 <= number && number <= 10000 {
        Some(number)
    } else {
        None
    }
}
