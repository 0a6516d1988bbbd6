//! Terms that are written alike, so that they have the same value everywhere.

ghost use Rattle.std.specs.Prelude.{map, length, IsTrue, ◌↔◌};
ghost use Rattle.lois_base.specs.Data.{terms_of, comps_of};
ghost use Rattle.lois_base.specs.Tree.{tree, comp_of};
ghost use Rattle.lois_relate.specs.Alike.{LevelsMatch, LitsMatch, CubesMatch, GuardsMatch, TermsAlike, PartsAlike, CompsAlike, ItemsAlike, IsListed};
ghost use Rattle.lois_relate.specs.Named.{AreBelow};

use crate::candidates::Candidates;
use lois_base::{Comp, Comps, Constraint, Cube, Lit, Term, Terms};

// Whether both levels have one name, or are the same binder inside of the terms.
fn levels_match(i: usize, s_names: &[usize], j: usize, t_names: &[usize]) -> bool
    ensures { IsTrue result ↔ LevelsMatch s_names.now t_names.now i j }
{
    if i < s_names.len() {
        return j < t_names.len() && s_names[i] == t_names[j];
    }
    j >= t_names.len() && i - s_names.len() == j - t_names.len()
}

fn literals_match(l: Lit, s_names: &[usize], m: Lit, t_names: &[usize]) -> bool
    ensures { IsTrue result ↔ LitsMatch s_names.now t_names.now l m }
{
    l.op == m.op
        && levels_match(l.left, s_names, m.left, t_names)
        && levels_match(l.right, s_names, m.right, t_names)
}

fn cubes_match(k: &Cube, s_names: &[usize], q: &Cube, t_names: &[usize]) -> bool
    ensures { IsTrue result ↔ CubesMatch s_names.now t_names.now k.now q.now }
{
    let literals = k.as_slice();
    let others = q.as_slice();
    if literals.len() != others.len() {
        return false;
    }
    for (i, lit) in literals.iter().enumerate() {
        if !literals_match(*lit, s_names, others[i], t_names) {
            return false;
        }
    }
    true
}

fn guards_match(g: &Constraint, s_names: &[usize], h: &Constraint, t_names: &[usize]) -> bool
    ensures { IsTrue result ↔ GuardsMatch s_names.now t_names.now g.now h.now }
{
    let cubes = g.as_slice();
    let others = h.as_slice();
    if cubes.len() != others.len() {
        return false;
    }
    for (i, cube) in cubes.iter().enumerate() {
        if !cubes_match(cube, s_names, &others[i], t_names) {
            return false;
        }
    }
    true
}

#[cycle(matching)]
fn terms_match(s: &Term, s_names: &[usize], t: &Term, t_names: &[usize]) -> bool
    ensures { IsTrue result ↔ TermsAlike s_names.now t_names.now (tree s.now) (tree t.now) }
{
    match (s, t) {
        (Term::Var(i), Term::Var(j)) => levels_match(*i, s_names, *j, t_names),
        (Term::Tag(name), Term::Tag(other)) => name == other,
        (Term::Tup(parts), Term::Tup(others)) => parts_match(parts, s_names, others, t_names),
        (Term::Coll(comps), Term::Coll(others)) => sets_match(comps, s_names, others, t_names),
        _ => false,
    }
}

#[cycle(matching)]
fn parts_match(terms: &Terms, s_names: &[usize], others: &Terms, t_names: &[usize]) -> bool
    ensures { IsTrue result ↔ PartsAlike s_names.now t_names.now (terms_of terms.now) (terms_of others.now) }
{
    let parts = terms.as_slice();
    let partners = others.as_slice();
    if parts.len() != partners.len() {
        return false;
    }
    for (i, part) in parts.iter().enumerate() {
        if !terms_match(part, s_names, &partners[i], t_names) {
            return false;
        }
    }
    true
}

// Whether the two sets are written alike, comprehension by comprehension.
#[cycle(matching)]
pub fn sets_match(comps: &Comps, s_names: &[usize], others: &Comps, t_names: &[usize]) -> bool
    ensures { IsTrue result ↔ ItemsAlike s_names.now t_names.now (comps_of comps.now) (comps_of others.now) }
{
    let items = comps.as_slice();
    let partners = others.as_slice();
    if items.len() != partners.len() {
        return false;
    }
    for (i, comp) in items.iter().enumerate() {
        if !comps_match(comp, s_names, &partners[i], t_names) {
            return false;
        }
    }
    true
}

// Whether the two comprehensions are written alike.
#[cycle(matching)]
fn comps_match(comp: &Comp, s_names: &[usize], other: &Comp, t_names: &[usize]) -> bool
    ensures { IsTrue result ↔ CompsAlike s_names.now t_names.now (comp_of comp.now) (comp_of other.now) }
{
    comp.binders == other.binders
        && guards_match(&comp.guard, s_names, &other.guard, t_names)
        && terms_match(&comp.item, s_names, &other.item, t_names)
}

// Whether one of the candidates is written as this comprehension is.
pub fn is_listed(comp: &Comp, s_names: &[usize], others: Candidates<'_>, t_names: &[usize]) -> bool
    requires { AreBelow (length others.comps.now) others.places.now }
    ensures { IsTrue result → IsListed s_names.now t_names.now (comp_of comp.now) (comps_of (map comp_of others.entry.comps.now)) }
{
    for place in others.places {
        if comps_match(comp, s_names, &others.comps[*place], t_names) {
            return true;
        }
    }
    false
}
