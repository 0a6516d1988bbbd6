//! Whole scripts.

ghost use Rattle.std.specs.Prelude.{◌≤◌, length, IfOk};
ghost use Rattle.lois_lexer.specs.Tokens.{HasTokens};
ghost use Rattle.lois_script.specs.View.{script_tree, param_tree, params_list};
ghost use Rattle.lois_descent.specs.Descent as descent;
ghost use Rattle.lois_descent.specs.Reading.{ResultIs};
ghost use Rattle.lois_descent.specs.Refusals.{tokens_in};
ghost use Rattle.lois_parser.specs.Ahead.{ahead};
ghost use Rattle.lois_parser.specs.Nests.{GivesStmts};

use crate::nesting::block;
use crate::rest::Rest;
use crate::statements::Statements;
use lois_base::limits::MOST_OPEN_BRACKETS;
use lois_descent::lexemes::{OptionalStart, Terminal};
use lois_descent::parse_error::ParseError;
use lois_lexer::Token;
use lois_script::{Param, Params, Script, Stmts};
use std::alloc::Global;

/// Parameters, or none.
#[tactic(auto, unfolding(lois_descent::specs::Descent::parameters))]
fn parameters(alloc: Global, at: Rest<'_>) -> Result<(Params, Rest<'_>), ParseError>
    ensures read { ResultIs (λ x. (params_list x.0, ahead x.1)) result (descent.parameters (ahead at.entry)) }
{
    match at.lexeme().optional_start() {
        OptionalStart::Parameter => {
            let (first, behind) = at.behind().name(alloc)?;
            let (names, close) = more_names(alloc, first, behind)?;
            let end = close.pass(Terminal::Semicolon)?;
            Ok((names, end))
        }
        _ => Ok((Params::new(alloc), at)),
    }
}

/// A parameter, and those behind it, each behind a comma.
fn more_names(alloc: Global, first: Param, at: Rest<'_>) -> Result<(Params, Rest<'_>), ParseError>
    ensures read { ResultIs (λ x. (params_list x.0, ahead x.1)) result (descent.listed descent.name (param_tree first) (ahead at.entry)) }
    ensures shorter { IfOk result (λ x. length (ahead x.1) ≤ length (ahead at.entry)) }
{
    let mut names = Params::new(alloc);
    names.push(first)?;
    let mut rest = at;
    while rest.begins(Terminal::Comma) {
        let (name, behind) = rest.behind().name(alloc)?;
        names.push(name)?;
        rest = behind;
    }
    Ok((names, rest))
}

/// Statements up to the end.
fn body(alloc: Global, at: Rest<'_>) -> Result<(Stmts, Rest<'_>), ParseError>
    ensures read { GivesStmts descent.body at.entry result }
{
    Statements {
        alloc,
        depth_left: MOST_OPEN_BRACKETS,
        block,
    }
    .body(at)
}

/// A script, up to the end.
#[tactic(auto, unfolding(lois_descent::specs::Descent::script))]
fn whole(alloc: Global, at: Rest<'_>) -> Result<Script, ParseError>
    ensures read { ResultIs script_tree result (descent.script (ahead at.entry)) }
{
    let (order, close) = at.pass(Terminal::Atoms)?.structure()?;
    let (parameters, behind) = parameters(alloc, close.pass(Terminal::Semicolon)?)?;
    let (body, _end) = body(alloc, behind)?;
    Ok(Script {
        order,
        parameters,
        body,
    })
}

/// The script that the tokens of the text spell, with its places.
///
/// # Errors
/// Why the reader stops, with how many tokens are left there.
pub fn read_tokens(alloc: Global, tokens: &[Token], text: &[u8]) -> Result<Script, ParseError>
    requires cut { HasTokens text.now tokens.now }
    // What the descent over these tokens gives, unless memory ran out.
    ensures read { ResultIs script_tree result (descent.script (tokens_in text.now tokens.now)) }
{
    whole(alloc, Rest::new(tokens, text))
}
