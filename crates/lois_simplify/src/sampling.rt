//! Formulas that a sample shows to fail.

ghost use Rattle.std.specs.Prelude.{◌++◌, List, IfOk, IsTrue};
ghost use Rattle.lois_base.specs.Atom.{Atom};
ghost use Rattle.lois_base.specs.Fits.{ConstraintFits};
ghost use Rattle.lois_base.specs.FormulaData.{formulas_of};
ghost use Rattle.lois_base.specs.FormulaTruth.{FormulaHolds, AllHold, AnyHolds};
ghost use Rattle.lois_base.specs.FormulaView.{view, views};
ghost use Rattle.lois_base.specs.Truth.{lit_holds, sampled};
ghost use Rattle.lois_simplify.specs.Candidates.{FailsSomewhere};

use crate::oracle::Oracle;
use lois_base::{Constraint, Formula, Formulas, Lit, NoMemory};
use std::alloc::Global;

/// Whether the formula is seen to fail at a sample of the constraint. It isn't where a negation or a universal quantifier decides.
pub(crate) fn fails_at_sample<D: Oracle>(
    alloc: Global,
    f: &Formula,
    here: &Constraint,
    size: usize,
    decider: &mut D,
) -> Result<bool, NoMemory>
    requires sound { D.sound }
    requires here { ConstraintFits size here.now }
    ensures fails { IfOk result (λ b. IsTrue b → FailsSomewhere size here.now (view f.now)) }
    ensures asked { D.reaches decider.old decider.new }
{
    match decider.sample(alloc, here, size)? {
        Some(sample) => Ok(fails_at(f, &sample)),
        None => Ok(false),
    }
}

// Whether it fails at the sample, whatever stands at the levels behind it.
#[cycle(failing)]
fn fails_at(f: &Formula, sample: &[u64]) -> bool
    ensures { IsTrue result → (e : List Atom) → FormulaHolds (sampled sample.now ++ e) (view f.now) → ⊥ }
{
    match f {
        Formula::Lit(lit) => literal_fails_at(*lit, sample),
        Formula::All(parts) => some_fails_at(parts, sample),
        Formula::Any(parts) => each_fails_at(parts, sample),
        Formula::Exists(body) => fails_at(body, sample),
        Formula::Not(_) | Formula::Forall(_) => false,
    }
}

#[tactic(auto, using(crate::proofs::Inserted::literal_fails))]
fn literal_fails_at(lit: Lit, sample: &[u64]) -> bool
    ensures { IsTrue result → (e : List Atom) → IsTrue (lit_holds (sampled sample.now ++ e) lit) → ⊥ }
{
    if !lit.fits(sample.len()) {
        return false;
    }
    !lit.at(sample)
}

#[cycle(failing)]
fn some_fails_at(parts: &Formulas, sample: &[u64]) -> bool
    ensures { IsTrue result → (e : List Atom) → AllHold (sampled sample.now ++ e) (formulas_of (views parts.now)) → ⊥ }
{
    for part in parts.as_slice() {
        if fails_at(part, sample) {
            return true;
        }
    }
    false
}

#[cycle(failing)]
fn each_fails_at(parts: &Formulas, sample: &[u64]) -> bool
    ensures { IsTrue result → (e : List Atom) → AnyHolds (sampled sample.now ++ e) (formulas_of (views parts.now)) → ⊥ }
{
    for part in parts.as_slice() {
        if !fails_at(part, sample) {
            return false;
        }
    }
    true
}
