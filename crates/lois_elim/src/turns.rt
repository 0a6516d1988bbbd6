//! The parts of a conjunction that are literals, as one cube, and when the others are met.

ghost use Rattle.std.specs.Prelude.{◌≡◌, ℕ, ◌+◌, ◌≤◌, Bool, List, length, IfOk, IsTrue, IsFalse, MatchOption, ◌↔◌};
ghost use Rattle.lois_base.specs.Atom.{Atom};
ghost use Rattle.lois_base.specs.Fits.{CubeFits};
ghost use Rattle.lois_base.specs.FormulaData.{FormulasFit, formulas_of, lit};
ghost use Rattle.lois_base.specs.FormulaView.{view, views};
ghost use Rattle.lois_base.specs.Truth.{cube_holds};
ghost use Rattle.lois_base.specs.Validity.{AdmitsCube};
ghost use Rattle.lois_base.specs.FormulaOperators.{AdmitsFormulas};
ghost use Rattle.lois_elim.specs.Names.{named_atoms, AreNames};
ghost use Rattle.lois_elim.specs.Turns.{is_literal, in_turn, HoldWhere};

use crate::names::literal_named;
use lois_base::{Cube, Formula, Formulas, Lit, NoMemory};
use std::alloc::Global;

/// Whether a part is met in the turn of the negations, or in that of the other parts that aren't literals.
pub(crate) fn is_in_turn(part: &Formula, negations: bool) -> bool
    ensures { result ≡ in_turn negations (view part.now) }
{
    match part {
        Formula::Lit(_) => false,
        Formula::Not(_) => negations,
        Formula::All(_) | Formula::Any(_) | Formula::Exists(_) | Formula::Forall(_) => !negations,
    }
}

// The literal that the formula is, or `None` where it is none.
fn as_literal(part: &Formula) -> Option<Lit>
    ensures { MatchOption result (IsFalse (is_literal (view part.now))) (λ l. view part.now ≡ lit l) }
{
    match part {
        Formula::Lit(literal) => Some(*literal),
        Formula::All(_)
        | Formula::Any(_)
        | Formula::Not(_)
        | Formula::Exists(_)
        | Formula::Forall(_) => None,
    }
}

/// The literals among the parts, over the levels that their own name.
pub(crate) fn literals_of(
    alloc: Global,
    parts: &Formulas,
    free: usize,
    bound: &[usize],
) -> Result<Cube, NoMemory>
    requires { FormulasFit (free + length bound.now) (formulas_of (views parts.now)) }
    ensures truth { IfOk result (λ r. (c : List Atom) → free ≤ length c → IsTrue (cube_holds c r) ↔ HoldWhere is_literal (named_atoms free bound.now c) (formulas_of (views parts.now))) }
    ensures levels { IfOk result (λ r. (n : ℕ) → AreNames n free bound.now → CubeFits n r) }
    ensures operators { IfOk result (λ r. (o : Bool) → AdmitsFormulas o (formulas_of (views parts.now)) → AdmitsCube o r) }
{
    let mut cube = Cube::new(alloc);
    for part in parts.as_slice() {
        match as_literal(part) {
            Some(lit) => cube.push(literal_named(lit, free, bound))?,
            None => {}
        }
    }
    Ok(cube)
}
