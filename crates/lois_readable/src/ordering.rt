//! Whether a term compares by the order of atoms.

ghost use Rattle.std.specs.Prelude.{Bool, IsTrue};
ghost use Rattle.lois_base.specs.Data.{terms_of, comps_of};
ghost use Rattle.lois_base.specs.Tree.{tree, comp_of};
ghost use Rattle.lois_base.specs.Validity.{AdmitsCube, AdmitsConstraint, AdmitsTerm, AdmitsParts, AdmitsComp, AdmitsItems};

use lois_base::{Comp, Comps, Constraint, Cube, Op, Term, Terms};

fn cube_has_order(cube: &Cube) -> bool
    ensures { IsTrue result → (ordered : Bool) → AdmitsCube ordered cube.now → IsTrue ordered }
{
    for lit in cube.as_slice() {
        if lit.op == Op::Lt || lit.op == Op::AtMost {
            return true;
        }
    }
    false
}

fn guard_has_order(guard: &Constraint) -> bool
    ensures { IsTrue result → (ordered : Bool) → AdmitsConstraint ordered guard.now → IsTrue ordered }
{
    for cube in guard.as_slice() {
        if cube_has_order(cube) {
            return true;
        }
    }
    false
}

#[cycle(ordering)]
fn has_order(term: &Term) -> bool
    ensures { IsTrue result → (ordered : Bool) → AdmitsTerm ordered (tree term.now) → IsTrue ordered }
{
    match term {
        Term::Var(_) | Term::Tag(_) => false,
        Term::Tup(parts) => parts_have_order(parts),
        Term::Coll(comps) => items_have_order(comps),
    }
}

#[cycle(ordering)]
fn parts_have_order(parts: &Terms) -> bool
    ensures { IsTrue result → (ordered : Bool) → AdmitsParts ordered (terms_of parts.now) → IsTrue ordered }
{
    for part in parts.as_slice() {
        if has_order(part) {
            return true;
        }
    }
    false
}

#[cycle(ordering)]
fn items_have_order(comps: &Comps) -> bool
    ensures { IsTrue result → (ordered : Bool) → AdmitsItems ordered (comps_of comps.now) → IsTrue ordered }
{
    for comp in comps.as_slice() {
        if comp_has_order(comp) {
            return true;
        }
    }
    false
}

/// Whether `<` or `<=` stands in the guard or in the item. Where it does, the atoms are ordered.
#[cycle(ordering)]
pub(crate) fn comp_has_order(comp: &Comp) -> bool
    ensures { IsTrue result → (ordered : Bool) → AdmitsComp ordered (comp_of comp.now) → IsTrue ordered }
{
    guard_has_order(&comp.guard) || has_order(&comp.item)
}
