//! Whole scripts.

ghost use Rattle.std.specs.Prelude.{◌≡◌, ◌≢◌, ◌⊎◌, IfOk, IfErr, IsErrOf};
ghost use Rattle.lois_lexer.specs.Tokens.{HasTokens};
ghost use Rattle.lois_script.specs.Limits.{Spells};
ghost use Rattle.lois_script.specs.Tree.{ScriptD};
ghost use Rattle.lois_script.specs.View.{script_tree};
ghost use Rattle.lois_syntax.specs.Causes.{error_of};
ghost use Rattle.lois_syntax.specs.Refusals.{IsSyntaxRefusal, tokens_in};
ghost use Rattle.lois_syntax.specs.declared.SyntaxError.{SyntaxError};
ghost use Rattle.lois_syntax.specs.declared.SyntaxError.TheVariants.{NoMemory};

use crate::SyntaxError;
use lois_descent::parse_error::ParseError;
use lois_lexer::Token;
use lois_parser::read_tokens;
use lois_script::Script;
use std::alloc::Global;

/// The error of a halt, where there are so many tokens.
fn error_of(count: usize, halt: ParseError) -> SyntaxError
    ensures { result ≡ error_of count halt }
{
    match halt {
        ParseError::NoScript(left) => SyntaxError::NoScript(count.saturating_sub(left)),
        ParseError::TooNested(left) => SyntaxError::TooNested(count.saturating_sub(left)),
        ParseError::WideTuple(left) => SyntaxError::WideTuple(count.saturating_sub(left)),
        ParseError::TurnsTooMany(left) => SyntaxError::TurnsTooMany(count.saturating_sub(left)),
        ParseError::NoMemory => SyntaxError::NoMemory,
    }
}

/// The script that the tokens of the text spell, with its places.
///
/// # Errors
/// `NoScript` at the first token with which no script of the grammar goes on, or behind the last where a script would go
/// on; `TooNested`, `WideTuple`, `TurnsTooMany` at the first token that goes over the limit; the least token where there
/// are several. `NoMemory` where memory ran out.
pub fn read_script(alloc: Global, tokens: &[Token], text: &[u8]) -> Result<Script, SyntaxError>
    requires cut { HasTokens text.now tokens.now }
    // Ok gives the script of the text, and comes exactly where it spells one, unless memory ran out.
    ensures script { IfOk result (λ s. Spells text.now (script_tree s)) }
    ensures exact { (other : ScriptD) → Spells text.now other → IfOk result (λ s. script_tree s ≡ other) }
    ensures accepts { IfErr result (λ e. (s : ScriptD) → Spells text.now s → e ≡ NoMemory) }

    // Each refusal comes exactly where the tokens are refused so, unless memory ran out.
    ensures refused { IfErr result (λ e. e ≢ NoMemory → IsSyntaxRefusal (tokens_in text.now tokens.now) e) }
    ensures refuses { (error : SyntaxError) → IsSyntaxRefusal (tokens_in text.now tokens.now) error → IsErrOf result error ⊎ IsErrOf result NoMemory }
{
    match read_tokens(alloc, tokens, text) {
        Ok(script) => Ok(script),
        Err(halt) => Err(error_of(tokens.len(), halt)),
    }
}
