//! Terms whose shapes rule out that they have the same value.

ghost use Rattle.std.specs.Prelude.{List, IsTrue};
ghost use Rattle.lois_base.specs.Atom.{Atom};
ghost use Rattle.lois_base.specs.Data.{terms_of};
ghost use Rattle.lois_base.specs.Tree.{tree, comp_of};
ghost use Rattle.lois_base.specs.Values.{SamePartsAt};
ghost use Rattle.lois_relate.specs.Apart.{AreNeverSame, LeavesOut};

use lois_base::{Comp, Term, Terms};

/// Whether the shapes of the two terms rule out that they have the same value, at any two choices: they are of other kinds, other tags, tuples of other lengths, or tuples with parts that clash. Terms that don't clash may be apart for other reasons.
#[cycle(clashing)]
pub fn clash(s: &Term, t: &Term) -> bool
    ensures { IsTrue result → AreNeverSame (tree s.now) (tree t.now) }
{
    match (s, t) {
        (Term::Var(_), Term::Var(_)) => false,
        (Term::Tag(name), Term::Tag(other)) => name != other,
        (Term::Tup(parts), Term::Tup(others)) => parts_clash(parts, others),
        (Term::Coll(_), Term::Coll(_)) => false,
        _ => true,
    }
}

#[cycle(clashing)]
fn parts_clash(terms: &Terms, others: &Terms) -> bool
    ensures { IsTrue result → (c d : List Atom) → SamePartsAt (terms_of terms.now) c (terms_of others.now) d → ⊥ }
{
    let parts = terms.as_slice();
    let partners = others.as_slice();
    if parts.len() != partners.len() {
        return true;
    }
    for (i, part) in parts.iter().enumerate() {
        if clash(part, &partners[i]) {
            return true;
        }
    }
    false
}

/// Whether the comprehension has no cube, or an item that clashes with the term.
pub fn leaves_out(comp: &Comp, s: &Term) -> bool
    ensures { IsTrue result → LeavesOut (comp_of comp.now) (tree s.now) }
{
    comp.guard.len() == 0 || clash(&comp.item, s)
}
