//! Two terms level by level: a tuple has the value of another exactly where the levels at the same places have the same atom.

ghost use Rattle.std.specs.Prelude.{◌≡◌, ℕ, ◌+◌, ◌<◌, ◌^◌, IsTrue, IfOk, length, map};
ghost use Rattle.std.specs.List.{All};
ghost use Rattle.lois_base.specs.Data.{terms_of};
ghost use Rattle.lois_base.specs.Fits.{Fits, PartsFit};
ghost use Rattle.lois_base.specs.Tree.{tree};
ghost use Rattle.lois_base.specs.Values.{SameAt, SamePartsAt};
ghost use Rattle.lois_minimise.specs.Ties.{AddsTies, AreNames, IsName, TiesFit, tie_lit};

use lois_base::{Cube, Lit, NoMemory, Op, Term, Terms};
use std::alloc::Global;

/// A level of one term and a level of another.
#[derive(Clone, Copy)]
pub struct Tie {
    pub own: usize,
    pub other: usize,
}

/// Adds the ties that say that the two terms have the same value. `false` where levels don't say it: where there is a set,
/// and where the values are never the same.
#[cycle(tying)]
pub fn tie_terms(one: &Term, other: &Term, ties: &mut Vec<Tie>) -> Result<bool, NoMemory>
    ensures { IfOk result (λ b. IsTrue b → AddsTies (λ c d. SameAt (tree one.now) c (tree other.now) d) (λ n m. Fits n (tree one.now) × Fits m (tree other.now)) ties.old.items ties.new.items) }
{
    match (one, other) {
        (Term::Var(i), Term::Var(j)) => {
            ties.push(Tie { own: *i, other: *j })?;
            Ok(true)
        }
        (Term::Tag(name), Term::Tag(label)) => Ok(name == label),
        (Term::Tup(parts), Term::Tup(partners)) => tie_parts(parts, partners, ties),
        _ => Ok(false),
    }
}

#[cycle(tying)]
fn tie_parts(terms: &Terms, others: &Terms, ties: &mut Vec<Tie>) -> Result<bool, NoMemory>
    ensures { IfOk result (λ b. IsTrue b → AddsTies (λ c d. SamePartsAt (terms_of terms.now) c (terms_of others.now) d) (λ n m. PartsFit n (terms_of terms.now) × PartsFit m (terms_of others.now)) ties.old.items ties.new.items) }
{
    let parts = terms.as_slice();
    let partners = others.as_slice();
    if parts.len() != partners.len() {
        return Ok(false);
    }
    for (i, part) in parts.iter().enumerate() {
        if !tie_terms(part, &partners[i], ties)? {
            return Ok(false);
        }
    }
    Ok(true)
}

// Among `by` more levels behind the first `size`, the name of one of these or of a binder: the level that it is tied to, or else its own.
fn name_of(ties: &[Tie], level: usize, size: usize, by: usize) -> usize
    requires room { level + by < 2 ^ 64 }
    requires ties { All (λ t. t.other < size + by) ties.now }
    ensures { IsName size by ties.now level result }
{
    if level < size {
        return level;
    }
    for tie in ties {
        if tie.own == level {
            return tie.other;
        }
    }
    level + by
}

/// Names for the levels of a comprehension, among `by` more levels behind the first `size`.
pub fn tied_names(
    alloc: Global,
    ties: &[Tie],
    size: usize,
    by: usize,
    binders: usize,
) -> Result<Vec<usize>, NoMemory>
    requires room { size + by + binders < 2 ^ 64 }
    requires ties { All (λ t. t.other < size + by) ties.now }
    ensures { IfOk result (λ r. AreNames size by binders ties.now r.items) }
{
    let mut names = Vec::new(alloc);
    for level in 0..size + binders {
        names.push(name_of(ties, level, size, by))?;
    }
    Ok(names)
}

/// The literals that say that each level's name and the level that it is tied to have the same atom.
pub fn tie_literals(alloc: Global, ties: &[Tie], names: &[usize]) -> Result<Cube, NoMemory>
    requires { All (λ t. t.own < length names.now) ties.now }
    ensures { IfOk result (λ r. r ≡ map (tie_lit names.now) ties.now) }
{
    let mut cube = Cube::new(alloc);
    for tie in ties {
        cube.push(Lit {
            op: Op::Eq,
            left: names[tie.own],
            right: tie.other,
        })?;
    }
    Ok(cube)
}
