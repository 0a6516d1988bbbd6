//! Levels that a formula forces to have the atom of a lower level.

ghost use Rattle.std.specs.Prelude.{◌<◌, IfSome};
ghost use Rattle.lois_base.specs.FormulaData.{lit, all, formulas_of};
ghost use Rattle.lois_base.specs.FormulaView.{view, views};
ghost use Rattle.lois_elim.specs.Names.{Forces};

use lois_base::{Formula, Formulas, Lit, Op};

fn forced_by_literal(literal: Lit, level: usize) -> Option<usize>
    ensures lower { IfSome result (λ x. x < level) }
    ensures forced { IfSome result (Forces (lit literal) level) }
{
    let Lit { op, left, right } = literal;
    match op {
        Op::Eq if left == level && right < level => Some(right),
        Op::Eq if right == level && left < level => Some(left),
        Op::Eq | Op::Ne | Op::Lt | Op::AtMost => None,
    }
}

/// A level below the given one that has an equal atom wherever the formula holds, or `None` where no equation of the formula says so.
#[cycle(forcing)]
pub(crate) fn forced(f: &Formula, level: usize) -> Option<usize>
    ensures lower { IfSome result (λ x. x < level) }
    ensures forced { IfSome result (Forces (view f.now) level) }
{
    match f {
        Formula::Lit(literal) => forced_by_literal(*literal, level),
        Formula::All(parts) => forced_by_one(parts, level),
        // It binds a level above the given one.
        Formula::Exists(body) => forced(body, level),
        Formula::Any(_) | Formula::Not(_) | Formula::Forall(_) => None,
    }
}

#[cycle(forcing)]
fn forced_by_one(parts: &Formulas, level: usize) -> Option<usize>
    ensures lower { IfSome result (λ x. x < level) }
    ensures forced { IfSome result (Forces (all (formulas_of (views parts.now))) level) }
{
    for part in parts.as_slice() {
        if let Some(lower) = forced(part, level) {
            return Some(lower);
        }
    }
    None
}
