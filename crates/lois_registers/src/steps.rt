//! The lines of the steps.

ghost use Rattle.std.specs.Prelude.{◌≡◌, ℕ, ◌+◌, ◌≤◌, List, ◌∷◌, ◌++◌, map, length, take, drop, ◌<◌, IfOk, IfErr, IfSome, IfNone, IsTrue};
ghost use Rattle.std.specs.List.{All};
ghost use Rattle.lois_answers.specs.TermText.{literal_text, op_text};
ghost use Rattle.lois_base.specs.Names.{IsName};
ghost use Rattle.lois_base.specs.Validity.{is_admitted, is_strict};
ghost use Rattle.lois_registers.specs.Reading.{IsLeftAt, BeginsWithNoLine, AreOf, IsCutAt, operand_text};
ghost use Rattle.lois_registers.specs.Texts.{text_of_words, operand_names, digit, guard_words, linked_words, stored_words, step_words};
ghost use Rattle.lois_registers.specs.Valid.{IsLiteral, IsGuard, AreIncreasing, IsRegStep};
ghost use Rattle.lois_registers.specs.ReadParts.{IsCount, AreLiterals};
ghost use Rattle.lois_base.specs.declared.guards.Lit.{Lit};
ghost use Rattle.lois_base.specs.declared.guards.Op.{Op};

use crate::lines::{is, line_words};
use crate::parse_error::ParseError;
use crate::states::is_among;
use crate::{RegStep, Stores};
use lois_base::{Cube, Lit, Name, NoMemory, Op};
use std::alloc::Global;

/// The most literals of a guard.
const MOST_LITERALS: usize = 16;

/// The operand at the front, and what follows it.
fn operand(registers: u32, text: &[u8]) -> Option<(usize, &[u8])>
    requires count { IsCount registers }
    ensures some { IfSome result (λ x. (x.0 ≤ registers) × (text.now ≡ operand_text x.0 ++ x.1.now)) }
    ensures none { IfNone result ((i : ℕ) (rest : List ℕ) → i ≤ registers → text.now ≡ operand_text i ++ rest → ⊥) }
{
    match text {
        [b'x', rest @ ..] => Some((0, rest)),
        [b'r', digit, rest @ ..] => {
            let level = number(*digit, registers)?;
            Some((level as usize, rest))
        }
        _ => None,
    }
}

/// The register that the digit names.
fn number(digit: u8, registers: u32) -> Option<u32>
    requires count { IsCount registers }
    ensures some { IfSome result (λ i. (1 ≤ i) × (i ≤ registers) × (digit ≡ 48 + i)) }
    ensures none { IfNone result ((i : ℕ) → 1 ≤ i → i ≤ registers → digit ≡ 48 + i → ⊥) }
{
    if digit <= b'0' {
        return None;
    }
    let register = u32::from(digit - b'0');
    if register <= registers {
        Some(register)
    } else {
        None
    }
}

/// The operator at the front, and what follows it.
fn operator(ordered: bool, text: &[u8]) -> Option<(Op, &[u8])>
    ensures some { IfSome result (λ x. IsTrue (is_admitted ordered x.0) × IsTrue (is_strict x.0) × (text.now ≡ op_text x.0 ++ x.1.now)) }
    ensures none { IfNone result ((op : Op) (rest : List ℕ) → IsTrue (is_admitted ordered op) → IsTrue (is_strict op) → text.now ≡ op_text op ++ rest → ⊥) }
{
    match text {
        [b'=', rest @ ..] => Some((Op::Eq, rest)),
        [b'!', b'=', rest @ ..] => Some((Op::Ne, rest)),
        [b'<', rest @ ..] if ordered => Some((Op::Lt, rest)),
        _ => None,
    }
}

/// The literal that the word spells.
fn literal(ordered: bool, registers: u32, word: &[u8]) -> Option<Lit>
    requires count { IsCount registers }
    ensures some { IfSome result (λ l. IsLiteral ordered registers l × (word.now ≡ literal_text operand_names l)) }
    ensures none { IfNone result ((l : Lit) → IsLiteral ordered registers l → word.now ≡ literal_text operand_names l → ⊥) }
{
    let Some((left, rest)) = operand(registers, word) else {
        return None;
    };
    let Some((op, rest)) = operator(ordered, rest) else {
        return None;
    };
    let Some((right, rest)) = operand(registers, rest) else {
        return None;
    };
    if rest.is_empty() {
        Some(Lit { op, left, right })
    } else {
        None
    }
}

/// The literals that stand between the words `and`.
fn literals(
    alloc: Global,
    ordered: bool,
    registers: u32,
    words: &[&[u8]],
) -> Result<Option<Cube>, NoMemory>
    requires count { IsCount registers }
    ensures { IfOk result (AreOf (AreLiterals ordered registers) linked_words (map (λ w. w.now) words.now)) }
{
    let mut cube = Cube::new(alloc);
    for (i, word) in words.iter().enumerate() {
        if i % 2 == 1 {
            if !is(word, b"and") {
                return Ok(None);
            }
        } else {
            let Some(lit) = literal(ordered, registers, word) else {
                return Ok(None);
            };
            cube.push(lit)?;
        }
    }
    if words.len() % 2 == 1 {
        Ok(Some(cube))
    } else {
        Ok(None)
    }
}

/// The guard that the words spell.
fn guard(
    alloc: Global,
    ordered: bool,
    registers: u32,
    words: &[&[u8]],
) -> Result<Option<Cube>, NoMemory>
    requires count { IsCount registers }
    ensures { IfOk result (AreOf (IsGuard ordered registers) guard_words (map (λ w. w.now) words.now)) }
{
    if words.len() == 1 && is(words[0], b"true") {
        return Ok(Some(Cube::new(alloc)));
    }
    if words.len() >= 2 * MOST_LITERALS {
        return Ok(None);
    }
    literals(alloc, ordered, registers, words)
}

/// The register that the word names.
fn register(registers: u32, word: &[u8]) -> Option<u32>
    requires count { IsCount registers }
    ensures some { IfSome result (λ i. (1 ≤ i) × (i ≤ registers) × (word.now ≡ digit i)) }
    ensures none { IfNone result ((i : ℕ) → 1 ≤ i → i ≤ registers → word.now ≡ digit i → ⊥) }
{
    match word {
        [digit] => number(*digit, registers),
        _ => None,
    }
}

/// The registers that the words name, which increase strictly.
fn increasing(alloc: Global, registers: u32, words: &[&[u8]]) -> Result<Option<Stores>, NoMemory>
    requires count { IsCount registers }
    ensures { IfOk result (AreOf (AreIncreasing 0 registers) (map digit) (map (λ w. w.now) words.now)) }
{
    let mut stores = Stores::new(alloc);
    let mut last = 0;
    for word in words {
        let Some(next) = register(registers, word) else {
            return Ok(None);
        };
        if next <= last {
            return Ok(None);
        }
        stores.push(next)?;
        last = next;
    }
    Ok(Some(stores))
}

/// The registers that the words say are stored.
fn stored(alloc: Global, registers: u32, words: &[&[u8]]) -> Result<Option<Stores>, NoMemory>
    requires count { IsCount registers }
    ensures { IfOk result (AreOf (AreIncreasing 0 registers) stored_words (map (λ w. w.now) words.now)) }
{
    if words.len() == 1 && is(words[0], b"none") {
        return Ok(Some(Stores::new(alloc)));
    }
    if words.is_empty() {
        return Ok(None);
    }
    increasing(alloc, registers, words)
}

/// Where the word stands first.
fn first_of(words: &[&[u8]], word: &[u8]) -> Option<usize>
    ensures inside { IfSome result (λ n. n < length words.now) }
    ensures cut { IfSome result (λ n. IsCutAt
        word.now
        (map (λ w. w.now) words.now)
        (map (λ w. w.now) (take n words.now))
        (map (λ w. w.now) (drop (n + 1) words.now))) }
    ensures none { IfNone result ((before after : List (List ℕ)) → map (λ w. w.now) words.now ≡ before ++ word.now ∷ after → ⊥) }
{
    for (i, other) in words.iter().enumerate() {
        if is(other, word) {
            return Some(i);
        }
    }
    None
}

/// What the steps of a text may be: over which atoms, how many registers and which states.
#[derive(Clone, Copy)]
pub struct Header<'a> {
    pub order: bool,
    pub registers: u32,
    pub states: &'a [Name],
}

/// The step that the words spell.
fn step(alloc: Global, frame: Header<'_>, words: &[&[u8]]) -> Result<Option<RegStep>, NoMemory>
    requires count { IsCount frame.registers }
    requires form { All IsName frame.states.now }
    ensures { IfOk result (AreOf (IsRegStep frame.entry.order frame.entry.registers frame.entry.states.now) step_words (map (λ w. w.now) words.now)) }
{
    if words.len() < 4 || !is(words[0], b"step") || !is(words[3], b"when") {
        return Ok(None);
    }
    if !is_among(frame.states, words[1]) || !is_among(frame.states, words[2]) {
        return Ok(None);
    }
    let behind = &words[4..];
    let Some(store) = first_of(behind, b"store") else {
        return Ok(None);
    };
    let Some(guard) = guard(alloc, frame.order, frame.registers, &behind[..store])? else {
        return Ok(None);
    };
    let Some(stored) = stored(alloc, frame.registers, &behind[store + 1..])? else {
        return Ok(None);
    };
    Ok(Some(RegStep {
        from: Name::from_bytes(alloc, words[1])?,
        to: Name::from_bytes(alloc, words[2])?,
        guard,
        stored,
    }))
}

/// The step of the line at the front, and what follows the line.
pub fn step_line<'a>(
    alloc: Global,
    frame: Header<'_>,
    text: &'a [u8],
) -> Result<(RegStep, &'a [u8]), ParseError>
    requires count { IsCount frame.registers }
    requires form { All IsName frame.states.now }
    ensures read { IfOk result (λ x. IsRegStep frame.entry.order frame.entry.registers frame.entry.states.now x.0
        × (text.now ≡ text_of_words (step_words x.0) ++ x.1.now)) }
    ensures left { IfErr result (IsLeftAt
        text.now
        (BeginsWithNoLine (IsRegStep frame.entry.order frame.entry.registers frame.entry.states.now) step_words text.now)) }
{
    let (words, rest) = line_words(alloc, text)?;
    match step(alloc, frame, &words)? {
        Some(step) => Ok((step, rest)),
        None => Err(ParseError::Left(text.len())),
    }
}
