//! The tokens that are still to come.

ghost use Rattle.std.specs.Prelude.{◌≡◌, ◌<◌, ◌≤◌, true, IfOk, IsTrue, length, drop, IfErr, Ok, Err};
ghost use Rattle.lois_base.specs.Names.{IsName};
ghost use Rattle.lois_lexer.specs.Tokens.{HasTokens};
ghost use Rattle.lois_script.specs.Grammar.{decimal};
ghost use Rattle.lois_parser.specs.Readable.{is_digits, are_readable};

use lois_base::Name;
use lois_descent::lexemes::{
    Connective, Keyword, Lexeme, OptionalStart, Relation, Terminal, lexeme_of, relation_of,
};
use lois_descent::parse_error::ParseError;
use lois_lexer::Token;
use lois_script::{Param, Pos};
use std::alloc::Global;

/// The tokens of a text that are still to come.
#[derive(Clone, Copy)]
pub(crate) struct Rest<'a> {
    text: &'a [u8],
    tokens: &'a [Token],
    ghost readable: { IsTrue (are_readable text.now tokens.now) },
}

impl<'a> Rest<'a> {
    ghost use Rattle.lois_script.specs.View.{param_tree};
    ghost use Rattle.lois_parser.specs.Ahead.{ahead};
    ghost use Rattle.lois_descent.specs.Descent as descent;
    ghost use Rattle.lois_descent.specs.Lexemes.{accepts};
    ghost use Rattle.lois_descent.specs.Reading.{ResultIs};
    ghost use Rattle.lois_descent.specs.Refusals.{tokens_in};
    ghost use Rattle.lois_descent.specs.Steps.{first_lexeme, first_place, first_bytes};

    /// All tokens of a text.
    #[tactic(auto, unfolding(crate::specs::Ahead::ahead))]
    pub(crate) fn new(tokens: &'a [Token], text: &'a [u8]) -> Self
        requires cut { HasTokens text.now tokens.now }
        ensures { ahead result ≡ tokens_in text.now tokens.now }
    {
        Rest { text, tokens }
    }

    /// How many tokens there are.
    #[tactic(auto, unfolding(crate::specs::Ahead::ahead))]
    pub(crate) fn len(self) -> usize
        ensures { result ≡ length (ahead self.entry) }
    {
        self.tokens.len()
    }

    /// What the first token is to the grammar; `End` where there is none.
    #[tactic(auto, unfolding(crate::specs::Ahead::ahead))]
    pub(crate) fn lexeme(self) -> Lexeme
        ensures { result ≡ first_lexeme (ahead self.entry) }
    {
        match self.tokens.split_first() {
            Some((token, _)) => lexeme_of(token.kind, token.bytes(self.text)),
            None => Lexeme::End,
        }
    }

    /// The place of the first token.
    #[tactic(auto, unfolding(crate::specs::Ahead::ahead))]
    pub(crate) fn pos(self) -> Pos
        ensures { result.offset ≡ first_place (ahead self.entry) }
    {
        match self.tokens.split_first() {
            Some((token, _)) => Pos { offset: token.from },
            None => Pos { offset: 0 },
        }
    }

    /// What stands behind the first token.
    #[tactic(auto, unfolding(crate::specs::Ahead::ahead))]
    pub(crate) fn behind(self) -> Rest<'a>
        ensures rest { ahead result ≡ drop 1 (ahead self.entry) }
        ensures longer { length (ahead result) ≤ length (ahead self.entry) }
    {
        let Some((_first, tokens)) = self.tokens.split_first() else {
            return self;
        };
        Rest {
            text: self.text,
            tokens,
        }
    }

    /// The bytes of the first token.
    #[tactic(auto, unfolding(crate::specs::Ahead::ahead))]
    fn bytes(self) -> &'a [u8]
        ensures bytes { result.now ≡ first_bytes (ahead self.entry) }
        ensures named { descent.begins Terminal.Name (ahead self.entry) ≡ true → IsName result.now }
        ensures tagged { first_lexeme (ahead self.entry) ≡ Lexeme.Tag → (1 ≤ length result.now) × IsName (drop 1 result.now) }
        ensures counted { descent.begins Terminal.Number (ahead self.entry) ≡ true → is_digits result.now ≡ true }
    {
        match self.tokens.split_first() {
            Some((token, _)) => token.bytes(self.text),
            None => &[],
        }
    }

    /// Whether the first token is of this part.
    pub(crate) fn begins(self, wanted: Terminal) -> bool
        ensures { result ≡ descent.begins wanted (ahead self.entry) }
    {
        wanted.accepts(self.lexeme())
    }

    /// Whether `and` is the first token.
    pub(crate) fn begins_and(self) -> bool
        ensures { result ≡ descent.begins_and (ahead self.entry) }
    {
        matches!(self.lexeme().connective(), Connective::And)
    }

    /// Whether `or` is the first token.
    pub(crate) fn begins_or(self) -> bool
        ensures { result ≡ descent.begins_or (ahead self.entry) }
    {
        matches!(self.lexeme().connective(), Connective::Or)
    }

    /// Goes past one token.
    #[tactic(auto, unfolding(lois_descent::specs::Descent::pass))]
    pub(crate) fn pass(self, wanted: Terminal) -> Result<Rest<'a>, ParseError>
        ensures read { ResultIs ahead result (descent.pass wanted (ahead self.entry)) }
        ensures shorter { IfOk result (λ r. length (ahead r) < length (ahead self.entry)) }
    {
        if self.begins(wanted) {
            Ok(self.behind())
        } else {
            Err(ParseError::NoScript(self.len()))
        }
    }

    /// Goes past one token, with what was read before it.
    pub(crate) fn pass_with<T: Drop>(
        self,
        value: T,
        wanted: Terminal,
    ) -> Result<(T, Rest<'a>), ParseError>
        ensures same { IfOk result (λ x. x.0 ≡ value) }
        ensures read { ResultIs (λ x. ahead x.1) result (descent.pass wanted (ahead self.entry)) }
        ensures shorter { IfOk result (λ x. length (ahead x.1) < length (ahead self.entry)) }
    {
        let end = self.pass(wanted)?;
        Ok((value, end))
    }

    /// Goes past an opening bracket, where `depth_left` more may be open.
    #[tactic(auto, unfolding(lois_descent::specs::Descent::enter))]
    pub(crate) fn enter(self, depth_left: usize) -> Result<Rest<'a>, ParseError>
        ensures read { ResultIs ahead result (descent.enter depth_left (ahead self.entry)) }
        ensures shorter { IfOk result (λ r. length (ahead r) ≤ length (ahead self.entry)) }
        ensures depth_left { IfOk result (λ _. 0 < depth_left) }
    {
        if depth_left == 0 {
            Err(ParseError::TooNested(self.len()))
        } else {
            Ok(self.behind())
        }
    }

    /// Goes past the `(` of a call, where `depth_left` more brackets may be open.
    #[tactic(auto, unfolding(lois_descent::specs::Descent::enter_call))]
    pub(crate) fn enter_call(self, depth_left: usize) -> Result<Rest<'a>, ParseError>
        ensures read { ResultIs ahead result (descent.enter_call depth_left (ahead self.entry)) }
        ensures shorter { IfOk result (λ r. length (ahead r) ≤ length (ahead self.entry)) }
        ensures depth_left { IfOk result (λ _. 0 < depth_left) }
    {
        match self.lexeme().optional_start() {
            OptionalStart::OpenRound => self.enter(depth_left),
            _ => Err(ParseError::NoScript(self.len())),
        }
    }

    /// A name, with its place.
    #[tactic(auto, unfolding(lois_descent::specs::Descent::name))]
    pub(crate) fn name(self, alloc: Global) -> Result<(Param, Rest<'a>), ParseError>
        ensures read { ResultIs (λ x. (param_tree x.0, ahead x.1)) result (descent.name (ahead self.entry)) }
        ensures shorter { IfOk result (λ x. length (ahead x.1) < length (ahead self.entry)) }
    {
        if !self.begins(Terminal::Name) {
            return Err(ParseError::NoScript(self.len()));
        }
        let name = Name::from_bytes(alloc, self.bytes())?;
        let pos = self.pos();
        Ok((Param { pos, name }, self.behind()))
    }

    /// The name behind the quote of a tag.
    #[tactic(auto, unfolding(lois_descent::specs::Descent::tag))]
    pub(crate) fn tag(self, alloc: Global) -> Result<(Name, Rest<'a>), ParseError>
        ensures read { ResultIs (λ x. (x.0, ahead x.1)) result (descent.tag (ahead self.entry)) }
        ensures shorter { IfOk result (λ x. length (ahead x.1) < length (ahead self.entry)) }
    {
        match self.lexeme() {
            Lexeme::Tag => Ok((Name::from_bytes(alloc, &self.bytes()[1..])?, self.behind())),
            _ => Err(ParseError::NoScript(self.len())),
        }
    }

    /// A number.
    #[tactic(auto, unfolding(lois_descent::specs::Descent::number))]
    pub(crate) fn number(self) -> Result<(u32, Rest<'a>), ParseError>
        ensures read { ResultIs (λ x. (x.0, ahead x.1)) result (descent.number (ahead self.entry)) }
        ensures shorter { IfOk result (λ x. length (ahead x.1) < length (ahead self.entry)) }
    {
        if !self.begins(Terminal::Number) {
            return Err(ParseError::NoScript(self.len()));
        }
        Ok((value(self.bytes()), self.behind()))
    }

    /// The relation of a comparison.
    #[tactic(auto, unfolding(lois_descent::specs::Descent::relation))]
    pub(crate) fn relation(self) -> Result<(Relation, Rest<'a>), ParseError>
        ensures read { ResultIs (λ x. (x.0, ahead x.1)) result (descent.relation (ahead self.entry)) }
        ensures shorter { IfOk result (λ x. length (ahead x.1) < length (ahead self.entry)) }
    {
        match relation_of(self.lexeme()) {
            Some(relation) => Ok((relation, self.behind())),
            None => Err(ParseError::NoScript(self.len())),
        }
    }

    /// The structure: whether the atoms are ordered.
    #[tactic(auto, unfolding(lois_descent::specs::Descent::structure))]
    pub(crate) fn structure(self) -> Result<(bool, Rest<'a>), ParseError>
        ensures read { ResultIs (λ x. (x.0, ahead x.1)) result (descent.structure (ahead self.entry)) }
    {
        match self.lexeme() {
            Lexeme::Word(Keyword::Equality) => Ok((false, self.behind())),
            Lexeme::Word(Keyword::Order) => Ok((true, self.behind())),
            _ => Err(ParseError::NoScript(self.len())),
        }
    }
}

/// What decimal digits stand for.
fn value(digits: &[u8]) -> u32
    requires { is_digits digits.now ≡ true }
    ensures { result ≡ decimal digits.now }
{
    let mut value = 0;
    for digit in digits {
        value = 10 * value + u32::from(*digit - b'0');
    }
    value
}

/// What was read before, and what was read now. So no tree is alive at the question mark of the call.
pub(crate) fn with<'a, T: Drop, U: Drop>(
    before: T,
    read: Result<(U, Rest<'a>), ParseError>,
) -> Result<((T, U), Rest<'a>), ParseError>
    ensures ok { IfOk result (λ x. (x.0.0 ≡ before) × (read.entry ≡ Ok (x.0.1, x.1))) }
    ensures stopped { IfErr result (λ e. read.entry ≡ Err e) }
{
    let (now, end) = read?;
    Ok(((before, now), end))
}
