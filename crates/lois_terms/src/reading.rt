//! Which levels occur in a term, whether it binds any of its own, and how deeply it is nested.

ghost use Rattle.std.specs.Prelude.{◌≡◌, ℕ, ◌<◌, ◌≤◌, ◌^◌, IsTrue, ◌↔◌, List};
ghost use Rattle.lois_base.specs.Atom.{Atom};
ghost use Rattle.lois_base.specs.Data.{depth, terms_of, comps_of};
ghost use Rattle.lois_base.specs.ListDepth.{depth_of_terms, depth_of_comps};
ghost use Rattle.lois_base.specs.Fits.{Fits};
ghost use Rattle.lois_base.specs.Normal.{LitUses, GuardUses, Occurs, OccursInPart, OccursInComp, OccursInItem};
ghost use Rattle.lois_base.specs.Shift.{shift};
ghost use Rattle.lois_base.specs.Tree.{tree, comp_of};
ghost use Rattle.lois_base.specs.Values.{point, IsDeeper};
ghost use Rattle.lois_terms.specs.Binding.{BindsNothing, PartsBindNothing, ItemsBindNothing};
ghost use Rattle.std.specs.List.{Any};

use lois_base::{Comp, Comps, Constraint, Cube, Term, Terms};

/// Whether the level stands in the term, its guards included.
#[cycle(occurs)]
pub fn occurs(level: usize, t: &Term) -> bool
    ensures { IsTrue result ↔ Occurs level (tree t.now) }
{
    match t {
        Term::Var(own) => *own == level,
        Term::Tag(_) => false,
        Term::Tup(parts) => occurs_in_parts(level, parts),
        Term::Coll(comps) => occurs_in_items(level, comps),
    }
}

#[cycle(occurs)]
fn occurs_in_parts(level: usize, terms: &Terms) -> bool
    ensures { IsTrue result ↔ OccursInPart level (terms_of terms.now) }
{
    for part in terms.as_slice() {
        if occurs(level, part) {
            return true;
        }
    }
    false
}

#[cycle(occurs)]
fn occurs_in_items(level: usize, comps: &Comps) -> bool
    ensures { IsTrue result ↔ OccursInItem level (comps_of comps.now) }
{
    for comp in comps.as_slice() {
        if occurs_in_comp(level, comp) {
            return true;
        }
    }
    false
}

#[cycle(occurs)]
fn occurs_in_comp(level: usize, comp: &Comp) -> bool
    ensures { IsTrue result ↔ OccursInComp level (comp_of comp.now) }
{
    guard_uses(level, &comp.guard) || occurs(level, &comp.item)
}

fn guard_uses(level: usize, guard: &Constraint) -> bool
    ensures { IsTrue result ↔ GuardUses level guard.now }
{
    guard.as_slice().iter().any(|cube| cube_uses(level, cube))
}

fn cube_uses(level: usize, cube: &Cube) -> bool
    ensures { IsTrue result ↔ Any (LitUses level) cube.now }
{
    cube.as_slice()
        .iter()
        .any(|lit| lit.left == level || lit.right == level)
}

/// Whether no comprehension in the term has binders. Then all of its levels are those of the choice at which it is read, so among more
/// levels it is the same term, and no shift from its size on changes it.
#[cycle(binding)]
pub fn binds_nothing(t: &Term) -> bool
    ensures written { IsTrue result ↔ BindsNothing (tree t.now) }
    ensures unchanged { IsTrue result → (n by : ℕ) → Fits n (tree t.now) → shift n by (tree t.now) ≡ tree t.now }
    ensures levels { IsTrue result → (n k : ℕ) → n ≤ k → k < 2 ^ 64 → Fits n (tree t.now) → Fits k (tree t.now) }
{
    match t {
        Term::Var(_) | Term::Tag(_) => true,
        Term::Tup(parts) => parts_bind_nothing(parts),
        Term::Coll(comps) => items_bind_nothing(comps),
    }
}

#[cycle(binding)]
fn parts_bind_nothing(terms: &Terms) -> bool
    ensures { IsTrue result ↔ PartsBindNothing (terms_of terms.now) }
{
    for part in terms.as_slice() {
        if !binds_nothing(part) {
            return false;
        }
    }
    true
}

#[cycle(binding)]
fn items_bind_nothing(comps: &Comps) -> bool
    ensures { IsTrue result ↔ ItemsBindNothing (comps_of comps.now) }
{
    for comp in comps.as_slice() {
        if comp.binders > 0 || !binds_nothing(&comp.item) {
            return false;
        }
    }
    true
}

/// Whether the term is written at most `limit` deep: an atom or a tag is 0 deep, a tuple or a set one more than its deepest part or item. No value of such a term is deeper than `limit`.
#[cycle(depth)]
pub fn is_within_depth(t: &Term, limit: usize) -> bool
    ensures written { IsTrue result ↔ (depth (tree t.now) ≤ limit) }
    ensures values { IsTrue result → (c : List Atom) → IsDeeper (point (tree t.now) c) limit → ⊥ }
{
    match t {
        Term::Var(_) | Term::Tag(_) => true,
        Term::Tup(parts) => limit > 0 && are_parts_within_depth(parts, limit - 1),
        Term::Coll(comps) => limit > 0 && are_items_within_depth(comps, limit - 1),
    }
}

#[cycle(depth)]
fn are_parts_within_depth(terms: &Terms, limit: usize) -> bool
    ensures { IsTrue result ↔ (depth_of_terms terms.now ≤ limit) }
{
    for part in terms.as_slice() {
        if !is_within_depth(part, limit) {
            return false;
        }
    }
    true
}

#[cycle(depth)]
fn are_items_within_depth(comps: &Comps, limit: usize) -> bool
    ensures { IsTrue result ↔ (depth_of_comps comps.now ≤ limit) }
{
    for comp in comps.as_slice() {
        if !is_within_depth(&comp.item, limit) {
            return false;
        }
    }
    true
}

/// How deep the term is written: 0 for an atom or a tag, else one more than the deepest part or item. No value of the term is deeper.
#[cycle(height)]
pub fn height(t: &Term) -> usize
    requires { depth (tree t.now) < 2 ^ 64 }
    ensures exact { result ≡ depth (tree t.now) }
    ensures values { (c : List Atom) → IsDeeper (point (tree t.now) c) result → ⊥ }
{
    match t {
        Term::Var(_) | Term::Tag(_) => 0,
        Term::Tup(parts) => greatest_height_of_parts(parts) + 1,
        Term::Coll(comps) => greatest_height_of_items(comps) + 1,
    }
}

#[cycle(height)]
fn greatest_height_of_parts(terms: &Terms) -> usize
    requires { depth_of_terms terms.now < 2 ^ 64 }
    ensures { result ≡ depth_of_terms terms.now }
{
    let mut greatest = 0;
    for part in terms.as_slice() {
        greatest = greatest.max(height(part));
    }
    greatest
}

#[cycle(height)]
fn greatest_height_of_items(comps: &Comps) -> usize
    requires { depth_of_comps comps.now < 2 ^ 64 }
    ensures { result ≡ depth_of_comps comps.now }
{
    let mut greatest = 0;
    for comp in comps.as_slice() {
        greatest = greatest.max(height(&comp.item));
    }
    greatest
}
