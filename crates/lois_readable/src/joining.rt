//! Terms in which comprehensions of a set that have the same item are one.

ghost use Rattle.std.specs.Prelude.{◌≡◌, ◌∷◌, ◌++◌, [], map, IfOk, IfSome, IsTrue, OnOk};
ghost use Rattle.lois_base.specs.Data.{tup, terms_of};
ghost use Rattle.lois_base.specs.Tree.{tree, comp_of};
ghost use Rattle.lois_readable.specs.Joined.{IsKept, HasSameItemAt};
ghost use Rattle.lois_simplify.specs.Simplification.{set_of};

use lois_base::{Comp, Comps, NoMemory, Term, Terms};
use lois_constraint::or;
use lois_terms::{Index, hash_term};
use std::alloc::Global;

fn has_item_at(comp: &Comp, joined: &[Comp], place: usize) -> bool
    ensures { IsTrue result → HasSameItemAt (comp_of comp.now) (map comp_of joined.now) place }
{
    match joined.get(place) {
        Some(other) => comp.binders == other.binders && comp.item.is_equal(&other.item),
        None => false,
    }
}

// Where a comprehension with this item and as many binders stands. Nothing rests on the index, which has the hashes of the items.
fn place_of(comp: &Comp, joined: &[Comp], index: &Index, hash: u64) -> Option<usize>
    ensures { IfSome result (HasSameItemAt (comp_of comp.now) (map comp_of joined.now)) }
{
    for place in index.positions(hash) {
        if has_item_at(comp, joined, *place) {
            return Some(*place);
        }
    }
    None
}

// Puts the comprehension behind the others, or widens the guard of the one that has its item.
fn put_joined(
    alloc: Global,
    joined: &mut Vec<Comp>,
    index: &mut Index,
    comp: Comp,
) -> Result<(), NoMemory>
    ensures { OnOk result (IsKept (set_of (map comp_of joined.old.items ++ comp_of comp ∷ [])) (set_of (map comp_of joined.new.items))) }
{
    let hash = hash_term(comp.binders as u64, &comp.item);
    match place_of(&comp, joined, index, hash) {
        Some(place) => {
            let guard = or(alloc, &joined[place].guard, &comp.guard)?;
            joined[place] = Comp {
                binders: comp.binders,
                guard,
                item: comp.item,
            };
            Ok(())
        }
        None => {
            index.push(alloc, hash)?;
            joined.push(comp)?;
            Ok(())
        }
    }
}

fn comps_from(alloc: Global, joined: Vec<Comp>) -> Result<Comps, NoMemory>
    ensures { IfOk result (λ r. r ≡ map comp_of joined.items) }
{
    let mut comps = Comps::new(alloc);
    for comp in joined {
        comps.push(comp)?;
    }
    Ok(comps)
}

/// The term with the comprehensions of each set joined that have the same item and as many binders.
#[cycle(joining)]
pub(crate) fn join(alloc: Global, term: &Term) -> Result<Term, NoMemory>
    ensures { IfOk result (λ r. IsKept (tree term.now) (tree r)) }
{
    match term {
        Term::Var(level) => Ok(Term::Var(*level)),
        Term::Tag(_) => term.copy(alloc),
        Term::Tup(parts) => Ok(Term::Tup(join_parts(alloc, parts)?)),
        Term::Coll(comps) => Ok(Term::Coll(join_comps(alloc, comps)?)),
    }
}

#[cycle(joining)]
fn join_parts(alloc: Global, parts: &Terms) -> Result<Terms, NoMemory>
    ensures { IfOk result (λ r. IsKept (tup (terms_of parts.now)) (tup (terms_of r))) }
{
    let mut joined = Terms::new(alloc);
    for part in parts.as_slice() {
        joined.push(join(alloc, part)?)?;
    }
    Ok(joined)
}

#[cycle(joining)]
fn join_comps(alloc: Global, comps: &Comps) -> Result<Comps, NoMemory>
    ensures { IfOk result (λ r. IsKept (set_of comps.now) (set_of r)) }
{
    let mut joined = Vec::new(alloc);
    let mut index = Index::new(alloc);
    for comp in comps.as_slice() {
        let own = join_item(alloc, comp)?;
        put_joined(alloc, &mut joined, &mut index, own)?;
    }
    comps_from(alloc, joined)
}

#[cycle(joining)]
fn join_item(alloc: Global, comp: &Comp) -> Result<Comp, NoMemory>
    ensures { IfOk result (λ r. IsKept (set_of (comp_of comp.now ∷ [])) (set_of (comp_of r ∷ []))) }
{
    Ok(Comp {
        binders: comp.binders,
        guard: comp.guard.copy(alloc)?,
        item: join(alloc, &comp.item)?,
    })
}
