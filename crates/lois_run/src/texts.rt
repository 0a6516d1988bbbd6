//! The words that refusals of scripts are told by.

ghost use Rattle.std.specs.Prelude.{◌≡◌};
ghost use Rattle.lois_run.specs.Texts.{lexical_text, syntax_text, scope_text};

use lois_lexer::LexError;
use lois_scope::ScopeError;
use lois_script::Pos;
use lois_syntax::SyntaxError;

pub(crate) fn lexical_text(number: u8) -> &'static str
    ensures { result.now ≡ lexical_text number }
{
    match number {
        1 => LexError::BadByte(0).text(),
        2 => LexError::LongName(0).text(),
        _ => LexError::BadNumber(0).text(),
    }
}

pub(crate) fn syntax_text(number: u8) -> &'static str
    ensures { result.now ≡ syntax_text number }
{
    match number {
        1 => SyntaxError::NoScript(0).text(),
        2 => SyntaxError::TooNested(0).text(),
        3 => SyntaxError::WideTuple(0).text(),
        _ => SyntaxError::TurnsTooMany(0).text(),
    }
}

pub(crate) fn scope_text(number: u8) -> &'static str
    ensures { result.now ≡ scope_text number }
{
    let start = Pos { offset: 0 };
    match number {
        1 => ScopeError::Unknown(start).text(),
        2 => ScopeError::Again(start).text(),
        3 => ScopeError::OuterAssign(start).text(),
        4 => ScopeError::PrintInLoop(start).text(),
        _ => ScopeError::OrderInEquality(start).text(),
    }
}
