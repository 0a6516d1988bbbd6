//! From a text to its script, or to the first thing that is wrong with it.

ghost use Rattle.std.specs.Prelude.{◌≡◌, IfOk, MatchResult};
ghost use Rattle.lois_lexer.specs.declared.LexError.{LexError};
ghost use Rattle.lois_scope.specs.declared.checking.ScopeError.{ScopeError};
ghost use Rattle.lois_syntax.specs.declared.SyntaxError.{SyntaxError};
ghost use Rattle.lois_command.specs.Places.{IsPlaceOf};
ghost use Rattle.lois_run.specs.Refusals.{token_place, LexicalTells, SyntaxTells};
ghost use Rattle.lois_run.specs.Read.{IsReadOf, ScopeTells};

use crate::Refusal;
use lois_base::NoMemory;
use lois_command::place_at;
use lois_lexer::{LexError, Place, Token, lex};
use lois_scope::{ScopeError, Scoped, check};
use lois_syntax::{SyntaxError, read_script};
use std::alloc::Global;

/// What a text is.
#[derive(Drop)]
pub(crate) enum Read {
    /// A well-scoped script.
    Script(Scoped),
    /// None, and why.
    Refused(Refusal),
}

/// The script that the text spells, if it is well scoped; else the first refusal.
pub(crate) fn read_text(alloc: Global, text: &[u8]) -> Result<Read, NoMemory>
    ensures { IfOk result (IsReadOf text.now) }
{
    let tokens = match lex(alloc, text) {
        Ok(tokens) => tokens,
        Err(error) => return Ok(Read::Refused(lexical_refusal(text, error)?)),
    };
    let script = match read_script(alloc, &tokens, text) {
        Ok(script) => script,
        Err(error) => return Ok(Read::Refused(syntax_refusal(text, &tokens, error)?)),
    };
    match check(alloc, script) {
        Ok(scoped) => Ok(Read::Script(scoped)),
        Err(error) => Ok(Read::Refused(scope_refusal(text, error)?)),
    }
}

// The place of a token's first byte, or the end of the text where there is no such token.
fn place_of_token(text: &[u8], tokens: &[Token], index: usize) -> Place
    ensures { IsPlaceOf text.now (token_place text.now tokens.now index) result }
{
    match tokens.get(index) {
        Some(token) => place_at(text, token.from),
        None => place_at(text, text.len()),
    }
}

fn lexical_refusal(text: &[u8], error: LexError) -> Result<Refusal, NoMemory>
    ensures { MatchResult result (LexicalTells text.now error) (λ e. error ≡ LexError.NoMemory) }
{
    match error {
        LexError::BadByte(at) | LexError::LongName(at) | LexError::BadNumber(at) => {
            Ok(Refusal::Lexical(error.number(), place_at(text, at)))
        }
        LexError::NoMemory => Err(NoMemory),
    }
}

fn syntax_refusal(text: &[u8], tokens: &[Token], error: SyntaxError) -> Result<Refusal, NoMemory>
    ensures { MatchResult result (SyntaxTells text.now tokens.now error) (λ e. error ≡ SyntaxError.NoMemory) }
{
    match error {
        SyntaxError::NoScript(index)
        | SyntaxError::TooNested(index)
        | SyntaxError::WideTuple(index)
        | SyntaxError::TurnsTooMany(index) => Ok(Refusal::Syntax(
            error.number(),
            place_of_token(text, tokens, index),
        )),
        SyntaxError::NoMemory => Err(NoMemory),
    }
}

fn scope_refusal(text: &[u8], error: ScopeError) -> Result<Refusal, NoMemory>
    ensures { MatchResult result (ScopeTells text.now error) (λ e. error ≡ ScopeError.NoMemory) }
{
    let number = error.number();
    match error {
        ScopeError::Unknown(pos)
        | ScopeError::Again(pos)
        | ScopeError::OuterAssign(pos)
        | ScopeError::PrintInLoop(pos)
        | ScopeError::OrderInEquality(pos) => {
            Ok(Refusal::Scope(number, place_at(text, pos.offset)))
        }
        ScopeError::NoMemory => Err(NoMemory),
    }
}
