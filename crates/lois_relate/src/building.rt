//! Formulas put together from smaller ones. What is seen to be true or false everywhere is absorbed.

ghost use Rattle.std.specs.Prelude.{◌≡◌, IfOk, OnOk, IsTrue, ◌↔◌, [], ◌∷◌, ◌++◌};
ghost use Rattle.lois_base.specs.FormulaData.{all, any, no_formulas, formulas_of};
ghost use Rattle.lois_base.specs.FormulaView.{view, views};
ghost use Rattle.lois_relate.specs.Built.{IsBoth, IsEither, IsNegation, IsImplied, IsForSome};

use lois_base::{Formula, Formulas, NoMemory};
use std::alloc::Global;

/// True at each choice.
pub fn true_formula(alloc: Global) -> Formula
    ensures { view result ≡ all no_formulas }
{
    Formula::All(Formulas::new(alloc))
}

/// False at each choice.
pub fn false_formula(alloc: Global) -> Formula
    ensures { view result ≡ any no_formulas }
{
    Formula::Any(Formulas::new(alloc))
}

/// Whether the formula is written as `true_formula` is.
pub fn is_true_formula(f: &Formula) -> bool
    ensures { IsTrue result ↔ (view f.now ≡ all no_formulas) }
{
    match f {
        Formula::All(parts) => parts.len() == 0,
        _ => false,
    }
}

/// Whether the formula is written as `false_formula` is.
pub fn is_false_formula(f: &Formula) -> bool
    ensures { IsTrue result ↔ (view f.now ≡ any no_formulas) }
{
    match f {
        Formula::Any(parts) => parts.len() == 0,
        _ => false,
    }
}

/// Where both hold.
pub fn conjunction(alloc: Global, f: Formula, g: Formula) -> Result<Formula, NoMemory>
    ensures { IfOk result (λ r. IsBoth (view f) (view g) (view r)) }
{
    if is_false_formula(&f) {
        return Ok(f);
    }
    if is_false_formula(&g) {
        return Ok(g);
    }
    if is_true_formula(&f) {
        return Ok(g);
    }
    if is_true_formula(&g) {
        return Ok(f);
    }
    joined_by_all(alloc, f, g)
}

fn joined_by_all(alloc: Global, f: Formula, g: Formula) -> Result<Formula, NoMemory>
    ensures { IfOk result (λ r. IsBoth (view f) (view g) (view r)) }
{
    match f {
        Formula::All(mut parts) => {
            add_parts(&mut parts, g)?;
            Ok(Formula::All(parts))
        }
        other => Ok(Formula::All(pair(alloc, other, g)?)),
    }
}

// The formula becomes a part, or its parts do, so that what takes the parts one by one meets no conjunction among them.
fn add_parts(parts: &mut Formulas, g: Formula) -> Result<(), NoMemory>
    ensures { OnOk result (IsBoth (all (formulas_of (views parts.old))) (view g) (all (formulas_of (views parts.new)))) }
{
    match g {
        Formula::All(more) => append(parts, more),
        other => parts.push(other),
    }
}

fn append(parts: &mut Formulas, more: Formulas) -> Result<(), NoMemory>
    ensures { OnOk result (views parts.new ≡ views parts.old ++ views more) }
{
    for part in more.into_vec() {
        parts.push(part)?;
    }
    Ok(())
}

/// Where one of them holds.
pub fn disjunction(alloc: Global, f: Formula, g: Formula) -> Result<Formula, NoMemory>
    ensures { IfOk result (λ r. IsEither (view f) (view g) (view r)) }
{
    if is_true_formula(&f) {
        return Ok(f);
    }
    if is_true_formula(&g) {
        return Ok(g);
    }
    if is_false_formula(&f) {
        return Ok(g);
    }
    if is_false_formula(&g) {
        return Ok(f);
    }
    joined_by_any(alloc, f, g)
}

fn joined_by_any(alloc: Global, f: Formula, g: Formula) -> Result<Formula, NoMemory>
    ensures { IfOk result (λ r. IsEither (view f) (view g) (view r)) }
{
    match f {
        Formula::Any(mut parts) => {
            parts.push(g)?;
            Ok(Formula::Any(parts))
        }
        other => Ok(Formula::Any(pair(alloc, other, g)?)),
    }
}

fn pair(alloc: Global, f: Formula, g: Formula) -> Result<Formulas, NoMemory>
    ensures { IfOk result (λ r. views r ≡ view f ∷ view g ∷ []) }
{
    let mut parts = Formulas::new(alloc);
    parts.push(f)?;
    parts.push(g)?;
    Ok(parts)
}

/// Where the formula doesn't hold.
pub fn negation(alloc: Global, f: Formula) -> Result<Formula, NoMemory>
    ensures { IfOk result (λ r. IsNegation (view f) (view r)) }
{
    if is_false_formula(&f) {
        return Ok(true_formula(alloc));
    }
    if is_true_formula(&f) {
        return Ok(false_formula(alloc));
    }
    Ok(Formula::Not(f.boxed(alloc)?))
}

/// Where the second holds, or the first doesn't.
pub fn implication(alloc: Global, f: Formula, g: Formula) -> Result<Formula, NoMemory>
    ensures { IfOk result (λ r. IsImplied (view f) (view g) (view r)) }
{
    let absent = negation(alloc, f)?;
    disjunction(alloc, absent, g)
}

/// For some atoms at the `count` highest levels.
pub fn for_some(alloc: Global, f: Formula, count: usize) -> Result<Formula, NoMemory>
    ensures { IfOk result (λ r. IsForSome count (view f) (view r)) }
{
    if is_false_formula(&f) {
        return Ok(f);
    }
    if is_true_formula(&f) {
        return Ok(f);
    }
    let mut bound = f;
    for _ in 0..count {
        bound = Formula::Exists(bound.boxed(alloc)?);
    }
    Ok(bound)
}
