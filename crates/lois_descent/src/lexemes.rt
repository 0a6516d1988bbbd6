//! What a token is to the grammar.

ghost use Rattle.std.specs.Prelude.{◌≡◌};
ghost use Rattle.std.specs.List.{find, position};
ghost use Rattle.std.specs.Str.{bytes_eq};
ghost use Rattle.lois_descent.specs.Lexemes.{word_of, punctuator_text, as_tag, lexeme_from, accepts, relation_of, unit_form, expr_form, base_form, stmt_form, connective, optional_start, has_two_operands};

use lois_lexer::{RESERVED, TokenKind};
use lois_script::Operation;

/// A token as the grammar sees it.
#[derive(Clone, Copy)]
pub enum Lexeme {
    /// The end of the tokens.
    End,
    Name,
    Tag,
    Number,
    Word(Keyword),
    Symbol(Punctuator),
    /// A word that no form of a script has.
    Other,
}

/// A word with a meaning in scripts.
#[derive(Clone, Copy)]
pub enum Keyword {
    Atoms,
    Equality,
    Order,
    Parameter,
    Let,
    Add,
    To,
    For,
    In,
    Where,
    If,
    Else,
    While,
    Turns,
    Assert,
    Print,
    True,
    False,
    Not,
    And,
    Or,
    Exists,
    Forall,
    Subset,
    Empty,
    Part,
    Apply(Operation),
}

/// A symbol.
#[derive(Clone, Copy)]
pub enum Punctuator {
    Semicolon,
    Comma,
    OpenRound,
    CloseRound,
    OpenSquare,
    CloseSquare,
    OpenCurly,
    CloseCurly,
    Becomes,
    Colon,
    Equal,
    Differs,
    Below,
}

/// What the reserved words mean, in the order of `RESERVED`. Its last two, `case` and `end`, have no meaning in scripts.
pub const KEYWORDS: [Keyword; 34] = [
    Keyword::Atoms,
    Keyword::Equality,
    Keyword::Order,
    Keyword::Parameter,
    Keyword::Let,
    Keyword::Add,
    Keyword::To,
    Keyword::For,
    Keyword::In,
    Keyword::Where,
    Keyword::If,
    Keyword::Else,
    Keyword::While,
    Keyword::Turns,
    Keyword::Assert,
    Keyword::Print,
    Keyword::True,
    Keyword::False,
    Keyword::Not,
    Keyword::And,
    Keyword::Or,
    Keyword::Exists,
    Keyword::Forall,
    Keyword::Subset,
    Keyword::Empty,
    Keyword::Apply(Operation::Union),
    Keyword::Apply(Operation::Inter),
    Keyword::Apply(Operation::Minus),
    Keyword::Apply(Operation::Flatten),
    Keyword::Part,
    Keyword::Apply(Operation::Reach),
    Keyword::Apply(Operation::Product),
    Keyword::Apply(Operation::Complement),
    Keyword::Apply(Operation::Minimise),
];

pub const PUNCTUATORS: [Punctuator; 13] = [
    Punctuator::Semicolon,
    Punctuator::Comma,
    Punctuator::OpenRound,
    Punctuator::CloseRound,
    Punctuator::OpenSquare,
    Punctuator::CloseSquare,
    Punctuator::OpenCurly,
    Punctuator::CloseCurly,
    Punctuator::Becomes,
    Punctuator::Colon,
    Punctuator::Equal,
    Punctuator::Differs,
    Punctuator::Below,
];

/// Where the word stands in the table.
fn place_in(table: &[&[u8]], word: &[u8]) -> Option<usize>
    ensures { result ≡ position (λ entry. bytes_eq entry.now word.now) table.now }
{
    table.iter().position(|entry| *entry == word)
}

impl Keyword {
    /// The word with this spelling, if it has a meaning in scripts.
    pub fn from_bytes(bytes: &[u8]) -> Option<Keyword>
        ensures { result ≡ find (λ k. bytes_eq (word_of k) bytes.now) KEYWORDS }
    {
        let place = place_in(&RESERVED, bytes)?;
        KEYWORDS.get(place).copied()
    }
}

impl Punctuator {
    /// How the symbol is spelled.
    pub fn spelling(self) -> &'static [u8]
        ensures { result.now ≡ punctuator_text self }
    {
        match self {
            Punctuator::Semicolon => b";",
            Punctuator::Comma => b",",
            Punctuator::OpenRound => b"(",
            Punctuator::CloseRound => b")",
            Punctuator::OpenSquare => b"[",
            Punctuator::CloseSquare => b"]",
            Punctuator::OpenCurly => b"{",
            Punctuator::CloseCurly => b"}",
            Punctuator::Becomes => b":=",
            Punctuator::Colon => b":",
            Punctuator::Equal => b"=",
            Punctuator::Differs => b"!=",
            Punctuator::Below => b"<",
        }
    }

    /// The symbol with this spelling.
    pub fn from_bytes(bytes: &[u8]) -> Option<Punctuator>
        ensures { result ≡ find (λ s. bytes_eq (punctuator_text s) bytes.now) PUNCTUATORS }
    {
        PUNCTUATORS
            .iter()
            .copied()
            .find(|sign| sign.spelling() == bytes)
    }
}

/// The lexeme of a token of this kind with these bytes.
pub fn lexeme_of(kind: TokenKind, bytes: &[u8]) -> Lexeme
    requires { kind ≡ TokenKind.Tag → as_tag bytes.now ≡ Lexeme.Tag }
    ensures { result ≡ lexeme_from kind bytes.now }
{
    match kind {
        TokenKind::Name => Lexeme::Name,
        TokenKind::Tag => Lexeme::Tag,
        TokenKind::Number => Lexeme::Number,
        TokenKind::Word => Keyword::from_bytes(bytes).map_or(Lexeme::Other, Lexeme::Word),
        TokenKind::Symbol => Punctuator::from_bytes(bytes).map_or(Lexeme::Other, Lexeme::Symbol),
    }
}

/// How a unit of a condition begins.
#[derive(Clone, Copy)]
pub enum UnitForm {
    Not,
    Exists,
    Every,
    Base,
}

impl Lexeme {
    pub fn unit_form(self) -> UnitForm
        ensures { result ≡ unit_form self }
    {
        match self {
            Lexeme::Word(Keyword::Not) => UnitForm::Not,
            Lexeme::Word(Keyword::Exists) => UnitForm::Exists,
            Lexeme::Word(Keyword::Forall) => UnitForm::Every,
            _ => UnitForm::Base,
        }
    }
}

/// A part of a form that is one token.
#[derive(Clone, Copy)]
pub enum Terminal {
    Atoms,
    Structure,
    Semicolon,
    Comma,
    CloseRound,
    CloseSquare,
    OpenCurly,
    CloseCurly,
    Colon,
    Equal,
    Becomes,
    In,
    To,
    Relation,
    Name,
    Number,
}

impl Terminal {
    /// Whether the token is of this part.
    pub fn accepts(self, lexeme: Lexeme) -> bool
        ensures { result ≡ accepts self lexeme }
    {
        match self {
            Terminal::Atoms => matches!(lexeme, Lexeme::Word(Keyword::Atoms)),
            Terminal::Structure => matches!(
                lexeme,
                Lexeme::Word(Keyword::Equality | Keyword::Order)
            ),
            Terminal::Semicolon => matches!(lexeme, Lexeme::Symbol(Punctuator::Semicolon)),
            Terminal::Comma => matches!(lexeme, Lexeme::Symbol(Punctuator::Comma)),
            Terminal::CloseRound => matches!(lexeme, Lexeme::Symbol(Punctuator::CloseRound)),
            Terminal::CloseSquare => matches!(lexeme, Lexeme::Symbol(Punctuator::CloseSquare)),
            Terminal::OpenCurly => matches!(lexeme, Lexeme::Symbol(Punctuator::OpenCurly)),
            Terminal::CloseCurly => matches!(lexeme, Lexeme::Symbol(Punctuator::CloseCurly)),
            Terminal::Colon => matches!(lexeme, Lexeme::Symbol(Punctuator::Colon)),
            Terminal::Equal => matches!(lexeme, Lexeme::Symbol(Punctuator::Equal)),
            Terminal::Becomes => matches!(lexeme, Lexeme::Symbol(Punctuator::Becomes)),
            Terminal::In => matches!(lexeme, Lexeme::Word(Keyword::In)),
            Terminal::To => matches!(lexeme, Lexeme::Word(Keyword::To)),
            Terminal::Relation => relation_of(lexeme).is_some(),
            Terminal::Name => matches!(lexeme, Lexeme::Name),
            Terminal::Number => matches!(lexeme, Lexeme::Number),
        }
    }
}

/// What a comparison asks.
#[derive(Clone, Copy)]
pub enum Relation {
    Same,
    Differ,
    Below,
    Member,
    Included,
}

/// The relation that the token stands for, if any.
pub fn relation_of(lexeme: Lexeme) -> Option<Relation>
    ensures { result ≡ relation_of lexeme }
{
    match lexeme {
        Lexeme::Symbol(Punctuator::Equal) => Some(Relation::Same),
        Lexeme::Symbol(Punctuator::Differs) => Some(Relation::Differ),
        Lexeme::Symbol(Punctuator::Below) => Some(Relation::Below),
        Lexeme::Word(Keyword::In) => Some(Relation::Member),
        Lexeme::Word(Keyword::Subset) => Some(Relation::Included),
        _ => None,
    }
}

/// How an expression begins.
#[derive(Clone, Copy)]
pub enum ExprForm {
    Atoms,
    Var,
    Tag,
    Tuple,
    Braces,
    Part,
    Apply(Operation),
    NoExpr,
}

/// How a base of a condition begins.
#[derive(Clone, Copy)]
pub enum BaseForm {
    True,
    False,
    Empty,
    Brackets,
    Comparison,
}

/// How a statement begins.
#[derive(Clone, Copy)]
pub enum StmtForm {
    Let,
    Assign,
    Add,
    For,
    If,
    While,
    Assert,
    Print,
    NoStmt,
}

/// What joins a further unit to a condition.
#[derive(Clone, Copy)]
pub enum Connective {
    And,
    Or,
    NoConnective,
}

impl Lexeme {
    pub fn expr_form(self) -> ExprForm
        ensures { result ≡ expr_form self }
    {
        match self {
            Lexeme::Word(Keyword::Atoms) => ExprForm::Atoms,
            Lexeme::Name => ExprForm::Var,
            Lexeme::Tag => ExprForm::Tag,
            Lexeme::Symbol(Punctuator::OpenRound) => ExprForm::Tuple,
            Lexeme::Symbol(Punctuator::OpenCurly) => ExprForm::Braces,
            Lexeme::Word(Keyword::Part) => ExprForm::Part,
            Lexeme::Word(Keyword::Apply(operation)) => ExprForm::Apply(operation),
            _ => ExprForm::NoExpr,
        }
    }

    pub fn base_form(self) -> BaseForm
        ensures { result ≡ base_form self }
    {
        match self {
            Lexeme::Word(Keyword::True) => BaseForm::True,
            Lexeme::Word(Keyword::False) => BaseForm::False,
            Lexeme::Word(Keyword::Empty) => BaseForm::Empty,
            Lexeme::Symbol(Punctuator::OpenSquare) => BaseForm::Brackets,
            _ => BaseForm::Comparison,
        }
    }

    pub fn stmt_form(self) -> StmtForm
        ensures { result ≡ stmt_form self }
    {
        match self {
            Lexeme::Word(Keyword::Let) => StmtForm::Let,
            Lexeme::Name => StmtForm::Assign,
            Lexeme::Word(Keyword::Add) => StmtForm::Add,
            Lexeme::Word(Keyword::For) => StmtForm::For,
            Lexeme::Word(Keyword::If) => StmtForm::If,
            Lexeme::Word(Keyword::While) => StmtForm::While,
            Lexeme::Word(Keyword::Assert) => StmtForm::Assert,
            Lexeme::Word(Keyword::Print) => StmtForm::Print,
            _ => StmtForm::NoStmt,
        }
    }

    pub fn connective(self) -> Connective
        ensures { result ≡ connective self }
    {
        match self {
            Lexeme::Word(Keyword::And) => Connective::And,
            Lexeme::Word(Keyword::Or) => Connective::Or,
            _ => Connective::NoConnective,
        }
    }
}

/// A word or a symbol that begins what may be left out.
#[derive(Clone, Copy)]
pub enum OptionalStart {
    OpenRound,
    Parameter,
    For,
    Where,
    Else,
    NoOptionalStart,
}

impl Lexeme {
    pub fn optional_start(self) -> OptionalStart
        ensures { result ≡ optional_start self }
    {
        match self {
            Lexeme::Symbol(Punctuator::OpenRound) => OptionalStart::OpenRound,
            Lexeme::Word(Keyword::Parameter) => OptionalStart::Parameter,
            Lexeme::Word(Keyword::For) => OptionalStart::For,
            Lexeme::Word(Keyword::Where) => OptionalStart::Where,
            Lexeme::Word(Keyword::Else) => OptionalStart::Else,
            _ => OptionalStart::NoOptionalStart,
        }
    }
}

/// Whether the operation has two operands; else it has one.
pub fn has_two_operands(operation: Operation) -> bool
    ensures { result ≡ has_two_operands operation }
{
    matches!(
        operation,
        Operation::Union | Operation::Inter | Operation::Minus | Operation::Product
    )
}
