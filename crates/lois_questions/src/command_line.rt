//! The words of the command line.

ghost use Rattle.std.specs.Prelude.{◌≡◌, false, IfOk, map, option_map, option_and_then, string_bytes};
ghost use Rattle.clap.specs.Words.{app_of, subcommand_rows_of};
ghost use Rattle.clap.specs.declared.builder.command.Command.TheViews.{out-Command};
ghost use Rattle.lois_command.specs.CommandWords.{are_plain};
ghost use Rattle.lois_command.specs.FreeNames.{free_name};
ghost use Rattle.lois_questions.specs.CommandLine.{bare_program, word_command, within_command, same_command, picture_command, program, question_named, question_found};
ghost use Rattle.lois_questions.specs.Words.{limit_of, question_of, question_with_name, question_with_names, question_with_graph};

use clap::error::ErrorKind;
use clap::{Arg, ArgMatches};
use lois_base::limits::LONGEST_TEXT;
use lois_base::{Name, NoMemory};
use lois_command::{are_plain, free_name};
use std::alloc::{AllocError, Global};

/// What the program is asked.
#[derive(Drop)]
pub(crate) enum Question {
    /// For a shortest word that the lines of this name accept.
    Word(Name),
    /// Whether each word of the lines of the first name is one of those of the second.
    Within(Name, Name),
    /// Whether two results print the same.
    Same,
    /// For the graph of the line of this name.
    Picture(Name),
}

// How many bytes the texts of two results may have together.
const LONGEST_PAIR: usize = 2 * LONGEST_TEXT;

impl Question {
    /// How many bytes are read for it at most.
    pub(crate) fn limit(&self) -> usize
        ensures { result ≡ limit_of self.now }
    {
        match self {
            Question::Same => LONGEST_PAIR,
            _ => LONGEST_TEXT,
        }
    }
}

/// What these words ask; `None` where they are none that the program takes.
pub(crate) fn parse_question(alloc: Global, words: &[String]) -> Result<Option<Question>, NoMemory>
    ensures { IfOk result (λ o. o ≡ question_of (map string_bytes words.now)) }
{
    if !are_plain(words) {
        return Ok(None);
    }
    match program(alloc)?.try_get_matches_from(words) {
        Ok(matches) => question_found(alloc, &matches),
        Err(error) if error.kind() == ErrorKind::OutOfMemory => Err(NoMemory),
        Err(_) => Ok(None),
    }
}

// One command with one level of subcommands.
fn program<'a>(alloc: Global) -> Result<clap::Command<'a>, AllocError>
    ensures { IfOk result (λ c. app_of c ≡ program) }
{
    bare_program(alloc)
        .subcommand(word_command(alloc)?)?
        .subcommand(within_command(alloc)?)?
        .subcommand(same_command(alloc))?
        .subcommand(picture_command(alloc)?)
}

fn bare_program<'a>(alloc: Global) -> clap::Command<'a>
    ensures { app_of result ≡ bare_program }
{
    clap::Command::new(alloc, "lois_ask")
        .no_binary_name(true)
        .disable_help_flag(true)
        .disable_help_subcommand(true)
        .subcommand_required(true)
}

// Names are read by hand.
fn word_command<'a>(alloc: Global) -> Result<clap::Command<'a>, AllocError>
    ensures shape { IfOk result (λ c. app_of c ≡ word_command) }
    ensures local { IfOk result (λ c. (out-Command c).has_globals ≡ false) }
{
    clap::Command::new(alloc, "word").arg(Arg::new(alloc, "first"))
}

fn within_command<'a>(alloc: Global) -> Result<clap::Command<'a>, AllocError>
    ensures shape { IfOk result (λ c. app_of c ≡ within_command) }
    ensures local { IfOk result (λ c. (out-Command c).has_globals ≡ false) }
{
    clap::Command::new(alloc, "within")
        .arg(Arg::new(alloc, "first"))?
        .arg(Arg::new(alloc, "second"))
}

fn same_command<'a>(alloc: Global) -> clap::Command<'a>
    ensures shape { app_of result ≡ same_command }
    ensures local { (out-Command result).has_globals ≡ false }
{
    clap::Command::new(alloc, "same")
}

fn picture_command<'a>(alloc: Global) -> Result<clap::Command<'a>, AllocError>
    ensures shape { IfOk result (λ c. app_of c ≡ picture_command) }
    ensures local { IfOk result (λ c. (out-Command c).has_globals ≡ false) }
{
    clap::Command::new(alloc, "picture").arg(Arg::new(alloc, "first"))
}

fn question_found(alloc: Global, matches: &ArgMatches) -> Result<Option<Question>, NoMemory>
    ensures { IfOk result (λ o. o ≡ question_found (subcommand_rows_of matches.now)) }
{
    match matches.subcommand() {
        Some((name, given)) => question_named(
            alloc,
            name,
            given.get_str("first"),
            given.get_str("second"),
        ),
        None => Ok(None),
    }
}

// The question of a subcommand and of its positional arguments.
fn question_named(
    alloc: Global,
    name: &str,
    first: Option<&str>,
    second: Option<&str>,
) -> Result<Option<Question>, NoMemory>
    ensures { IfOk result (λ o. o ≡ question_named name.now (option_map (λ word. word.now) first.entry) (option_map (λ word. word.now) second.entry)) }
{
    if name == "word" {
        return word_named(alloc, first);
    }
    if name == "within" {
        return within_named(alloc, first, second);
    }
    if name == "same" {
        return Ok(Some(Question::Same));
    }
    if name == "picture" {
        return picture_named(alloc, first);
    }
    Ok(None)
}

fn word_named(alloc: Global, first: Option<&str>) -> Result<Option<Question>, NoMemory>
    ensures { IfOk result (λ o. o ≡ question_with_name (option_and_then free_name (option_map (λ word. word.now) first.entry))) }
{
    let Some(name) = free_name(alloc, first)? else {
        return Ok(None);
    };
    Ok(Some(Question::Word(name)))
}

fn within_named(
    alloc: Global,
    first: Option<&str>,
    second: Option<&str>,
) -> Result<Option<Question>, NoMemory>
    ensures { IfOk result (λ o. o ≡ question_with_names (option_and_then free_name (option_map (λ word. word.now) first.entry)) (option_and_then free_name (option_map (λ word. word.now) second.entry))) }
{
    let Some(one) = free_name(alloc, first)? else {
        return Ok(None);
    };
    let Some(other) = free_name(alloc, second)? else {
        return Ok(None);
    };
    Ok(Some(Question::Within(one, other)))
}

fn picture_named(alloc: Global, first: Option<&str>) -> Result<Option<Question>, NoMemory>
    ensures { IfOk result (λ o. o ≡ question_with_graph (option_and_then free_name (option_map (λ word. word.now) first.entry))) }
{
    let Some(name) = free_name(alloc, first)? else {
        return Ok(None);
    };
    Ok(Some(Question::Picture(name)))
}
