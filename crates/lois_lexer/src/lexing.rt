//! From bytes to tokens.

ghost use Rattle.std.specs.Prelude.{◌≡◌, ◌≢◌, ℕ, ◌<◌, ◌⊎◌, ◌↔◌, List, [], ◌∷◌, length, ◌+◌, ◌^◌, take, slice_index, All, IfOk, IfErr, IfSome, IfNone, IsErrOf, IsTrue, IsFalse, Contains};
ghost use Rattle.std.specs.List.{prefix_len};
ghost use Rattle.std.specs.Char.{is_ascii_alphabetic, is_ascii_digit};
ghost use Rattle.lois_lexer.specs.declared.TokenKind.{TokenKind};
ghost use Rattle.lois_lexer.specs.declared.Token.{Token};
ghost use Rattle.lois_lexer.specs.declared.LexError.{LexError};
ghost use Rattle.lois_lexer.specs.Bytes.{is_word_byte, is_blank, is_comment_byte};
ghost use Rattle.lois_lexer.specs.Words.{symbols};
ghost use Rattle.lois_lexer.specs.Forms.{HasForm, is_within_limits};
ghost use Rattle.lois_lexer.specs.Tokens.{Longest, IsTrivia, HasTokens};
ghost use Rattle.lois_lexer.specs.InText.{IsTokenOf, AreInOrder, IsPlaceInText};
ghost use Rattle.lois_lexer.specs.Refusals.{IsWrongAt, IsLexicalRefusal};
ghost use Rattle.lois_lexer.specs.Laws.{OneList, OneRefusal, NeverBoth, WrittenIsRead};

use crate::words::is_reserved;
use crate::{LexError, Token, TokenKind};
use std::alloc::Global;

/// Whether the byte is a space, a tab, LF or CR.
fn is_blank(byte: u8) -> bool
    ensures { result ≡ is_blank byte }
{
    matches!(byte, b' ' | b'\t' | b'\n' | b'\r')
}

/// How many bytes at the front may stand in a word.
fn word_len(bytes: &[u8]) -> usize
    ensures { result ≡ prefix_len is_word_byte bytes.now }
{
    bytes
        .iter()
        .take_while(|b| b.is_ascii_alphanumeric() || **b == b'_')
        .count()
}

/// How many digits stand at the front.
fn digits_len(bytes: &[u8]) -> usize
    ensures { result ≡ prefix_len is_ascii_digit bytes.now }
{
    bytes.iter().take_while(|b| b.is_ascii_digit()).count()
}

/// How many bytes at the front may stand in a comment.
fn comment_len(bytes: &[u8]) -> usize
    ensures { result ≡ prefix_len is_comment_byte bytes.now }
{
    bytes
        .iter()
        .take_while(|b| matches!(**b, b'\t' | b'\r' | b' '..=b'~'))
        .count()
}

/// The word or name at the front, which begins with a letter.
fn word_at(bytes: &[u8]) -> (TokenKind, usize)
    requires nonempty { 0 < length bytes.now }
    requires letter { IsTrue (is_ascii_alphabetic (slice_index bytes.now 0)) }
    ensures { Longest bytes.now result.0 result.1 }
{
    let len = word_len(bytes);
    let kind = if is_reserved(&bytes[..len]) {
        TokenKind::Word
    } else {
        TokenKind::Name
    };
    (kind, len)
}

/// The tag at the front, which begins with a quote, where a letter follows.
fn tag_at(bytes: &[u8]) -> Option<(TokenKind, usize)>
    requires nonempty { 0 < length bytes.now }
    requires quote { slice_index bytes.now 0 ≡ 39 }
    ensures some { IfSome result (λ token. Longest bytes.now token.0 token.1) }
    ensures none { IfNone result ((kind : TokenKind) (n : ℕ) → HasForm kind (take n bytes.now) → ⊥) }
{
    let word = &bytes[1..];
    if word.is_empty() || !word[0].is_ascii_alphabetic() {
        return None;
    }
    Some((TokenKind::Tag, 1 + word_len(word)))
}

/// The number at the front, which begins with a digit.
fn number_at(bytes: &[u8]) -> (TokenKind, usize)
    requires nonempty { 0 < length bytes.now }
    requires digit { IsTrue (is_ascii_digit (slice_index bytes.now 0)) }
    ensures { Longest bytes.now result.0 result.1 }
{
    (TokenKind::Number, digits_len(bytes))
}

/// Whether the byte alone is a symbol.
fn is_symbol(byte: u8) -> bool
    ensures { IsTrue result ↔ Contains symbols (byte ∷ []) }
{
    b";,()[]{}:=<".contains(&byte)
}

/// Whether the two bytes are a symbol.
fn is_pair(first: u8, second: u8) -> bool
    ensures { IsTrue result ↔ Contains symbols (first ∷ second ∷ []) }
{
    if first != b':' && first != b'!' {
        return false;
    }
    second == b'='
}

/// The symbol at the front, which begins with neither letter, digit nor quote.
fn symbol_at(bytes: &[u8]) -> Option<(TokenKind, usize)>
    requires nonempty { 0 < length bytes.now }
    requires no_letter { IsFalse (is_ascii_alphabetic (slice_index bytes.now 0)) }
    requires no_digit { IsFalse (is_ascii_digit (slice_index bytes.now 0)) }
    requires no_quote { slice_index bytes.now 0 ≢ 39 }
    ensures some { IfSome result (λ token. Longest bytes.now token.0 token.1) }
    ensures none { IfNone result ((kind : TokenKind) (n : ℕ) → HasForm kind (take n bytes.now) → ⊥) }
{
    if bytes.len() > 1 && is_pair(bytes[0], bytes[1]) {
        Some((TokenKind::Symbol, 2))
    } else if is_symbol(bytes[0]) {
        Some((TokenKind::Symbol, 1))
    } else {
        None
    }
}

/// The longest token at the front, limits left aside.
fn longest_token(bytes: &[u8]) -> Option<(TokenKind, usize)>
    requires { 0 < length bytes.now }
    ensures some { IfSome result (λ token. Longest bytes.now token.0 token.1) }
    ensures none { IfNone result ((kind : TokenKind) (n : ℕ) → HasForm kind (take n bytes.now) → ⊥) }
{
    let first = bytes[0];
    if first.is_ascii_alphabetic() {
        Some(word_at(bytes))
    } else if first.is_ascii_digit() {
        Some(number_at(bytes))
    } else if first == b'\'' {
        tag_at(bytes)
    } else {
        symbol_at(bytes)
    }
}

/// Whether a token of this kind is within the limits.
fn is_within_limits(kind: TokenKind, bytes: &[u8]) -> bool
    requires { 0 < length bytes.now }
    ensures { result ≡ is_within_limits kind bytes.now }
{
    match kind {
        TokenKind::Word | TokenKind::Name => bytes.len() <= 64,
        TokenKind::Tag => bytes.len() <= 65,
        TokenKind::Number => bytes.len() <= 9 && (bytes.len() == 1 || bytes[0] != b'0'),
        TokenKind::Symbol => true,
    }
}

/// How many bytes the blank or the comment at the front has, or `None` where another byte stands there.
/// The bytes are those of a text from `at` on.
fn gap_at(at: usize, bytes: &[u8]) -> Result<Option<usize>, LexError>
    requires nonempty { 0 < length bytes.now }
    requires in_text { at + length bytes.now < 2 ^ 64 }
    ensures gap { IfOk result (λ found. IfSome found (IsTrivia bytes.now)) }
    ensures no_blank { IfOk result (λ found. IfNone found (IsFalse (is_blank (slice_index bytes.now 0)))) }
    ensures no_comment { IfOk result (λ found. IfNone found (slice_index bytes.now 0 ≢ 35)) }
    ensures wrong { IfErr result (IsWrongAt at bytes.now) }
{
    if is_blank(bytes[0]) {
        return Ok(Some(1));
    }
    if bytes[0] != b'#' {
        return Ok(None);
    }
    let len = comment_len(bytes);
    if len < bytes.len() && bytes[len] != b'\n' {
        return Err(LexError::BadByte(at + len));
    }
    Ok(Some(len))
}

/// The kind and the length of the token at the front, where no blank or comment stands.
/// The bytes are those of a text from `at` on.
fn token_at(at: usize, bytes: &[u8]) -> Result<(TokenKind, usize), LexError>
    requires nonempty { 0 < length bytes.now }
    requires no_blank { IsFalse (is_blank (slice_index bytes.now 0)) }
    requires no_comment { slice_index bytes.now 0 ≢ 35 }
    ensures longest { IfOk result (λ token. Longest bytes.now token.0 token.1) }
    ensures limits { IfOk result (λ token. IsTrue (is_within_limits token.0 (take token.1 bytes.now))) }
    ensures wrong { IfErr result (IsWrongAt at bytes.now) }
{
    let Some((kind, len)) = longest_token(bytes) else {
        return Err(LexError::BadByte(at));
    };
    if is_within_limits(kind, &bytes[..len]) {
        return Ok((kind, len));
    }
    match kind {
        TokenKind::Number => Err(LexError::BadNumber(at)),
        _ => Err(LexError::LongName(at)),
    }
}

/// Cuts the text from its start to its end.
fn cut(alloc: Global, text: &[u8]) -> Result<Vec<Token>, LexError>
    ensures tokens { IfOk result (λ tokens. HasTokens text.now tokens.items) }
    ensures refused { IfErr result (λ error. error ≢ LexError.NoMemory → IsLexicalRefusal text.now error) }
{
    let mut tokens = Vec::new(alloc);
    let mut from = 0;
    while from < text.len() {
        let rest = &text[from..];
        match gap_at(from, rest)? {
            Some(len) => from += len,
            None => {
                let (kind, len) = token_at(from, rest)?;
                tokens.push(Token {
                    kind,
                    from,
                    to: from + len,
                })?;
                from += len;
            }
        }
    }
    Ok(tokens)
}

/// The tokens of a text, in order. Between them stand blanks and comments.
///
/// # Errors
/// The first place at which the text has no token, and why; `NoMemory` where memory ran out, whatever the text is.
pub fn lex(alloc: Global, text: &[u8]) -> Result<Vec<Token>, LexError>
    // Ok gives the tokens of the text, and comes exactly where it has some, unless memory ran out.
    ensures tokens { IfOk result (λ tokens. HasTokens text.now tokens.items) }
    ensures exact { (others : List Token) → HasTokens text.now others → IfOk result (λ tokens. tokens.items ≡ others) }
    ensures accepts { (others : List Token) → HasTokens text.now others → IfErr result (λ error. error ≡ LexError.NoMemory) }

    // Each refusal comes exactly where the text is refused so, unless memory ran out.
    ensures refused { IfErr result (λ error. error ≢ LexError.NoMemory → IsLexicalRefusal text.now error) }
    ensures refuses { (error : LexError) → IsLexicalRefusal text.now error → IsErrOf result error ⊎ IsErrOf result LexError.NoMemory }

    // Each token lies in the text, has the form of its kind, and ends before the next begins.
    ensures forms { IfOk result (λ tokens. All (IsTokenOf text.now) tokens.items) }
    ensures in_order { IfOk result (λ tokens. AreInOrder tokens.items) }

    // A refusal's place is a byte of the text.
    ensures inside { IfErr result (IsPlaceInText text.now) }
{
    cut(alloc, text)
}

/// A text has at most one list of tokens, is refused in one way at most, and never both. It does nothing.
pub fn one_reading()
    ensures list { OneList }
    ensures refusal { OneRefusal }
    ensures never_both { NeverBoth }
{}

/// Tokens that are written with a blank behind each are the tokens of what was written. It does nothing.
pub fn written_is_read()
    ensures { WrittenIsRead }
{}
