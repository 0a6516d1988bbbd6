//! Where a comprehension is worth a split: two levels of which literals speak, so that in each part a binder is fixed or idle.

ghost use Rattle.std.specs.Prelude.{◌≡◌, ◌<◌, Bool, [], ◌∷◌, IfOk, IfSome, IsTrue};
ghost use Rattle.lois_base.specs.Fits.{LitFits};
ghost use Rattle.lois_base.specs.Tree.{comp_of};
ghost use Rattle.lois_base.specs.Validity.{AdmitsComp, AdmitsLit};

use crate::losing::{count_fixed, count_lost, has_loose_binder};
use crate::ordering::comp_has_order;
use lois_base::{Comp, Comps, Constraint, Cube, Lit, NoMemory, Op, Term, Terms};
use lois_constraint::{and_not, implies, meet};
use std::alloc::Global;

// All ways are tried on all of what holds in a comprehension, so one with more cubes isn't split.
const MOST_CUBES: usize = 16;

/// Two levels, the lower one on the left.
#[derive(Clone, Copy, PartialEq, Eq, Debug)]
struct Pair {
    left: usize,
    right: usize,
}

fn literal(op: Op, left: usize, right: usize) -> Lit
    ensures { result ≡ record { op = op; left = left; right = right } }
{
    Lit { op, left, right }
}

/// The constraint of one literal.
pub(crate) fn only_literal(alloc: Global, lit: Lit) -> Result<Constraint, NoMemory>
    ensures { IfOk result (λ r. r ≡ (lit ∷ []) ∷ []) }
{
    let mut cube = Cube::new(alloc);
    cube.push(lit)?;
    let mut constraint = Constraint::new(alloc);
    constraint.push(cube)?;
    Ok(constraint)
}

fn put_pair(pairs: &mut Vec<Pair>, lit: Lit) -> Result<(), NoMemory> {
    let pair = Pair {
        left: lit.left.min(lit.right),
        right: lit.left.max(lit.right),
    };
    if !pairs.contains(&pair) {
        pairs.push(pair)?;
    }
    Ok(())
}

fn put_pairs_of_cube(pairs: &mut Vec<Pair>, cube: &Cube) -> Result<(), NoMemory> {
    for lit in cube.as_slice() {
        put_pair(pairs, *lit)?;
    }
    Ok(())
}

fn put_pairs_of_guard(pairs: &mut Vec<Pair>, guard: &Constraint) -> Result<(), NoMemory> {
    for cube in guard.as_slice() {
        put_pairs_of_cube(pairs, cube)?;
    }
    Ok(())
}

#[cycle(pairs)]
fn put_pairs(pairs: &mut Vec<Pair>, term: &Term) -> Result<(), NoMemory> {
    match term {
        Term::Var(_) | Term::Tag(_) => Ok(()),
        Term::Tup(parts) => put_pairs_of_parts(pairs, parts),
        Term::Coll(comps) => put_pairs_of_items(pairs, comps),
    }
}

#[cycle(pairs)]
fn put_pairs_of_parts(pairs: &mut Vec<Pair>, parts: &Terms) -> Result<(), NoMemory> {
    for part in parts.as_slice() {
        put_pairs(pairs, part)?;
    }
    Ok(())
}

#[cycle(pairs)]
fn put_pairs_of_items(pairs: &mut Vec<Pair>, comps: &Comps) -> Result<(), NoMemory> {
    for comp in comps.as_slice() {
        put_pairs_of_comp(pairs, comp)?;
    }
    Ok(())
}

#[cycle(pairs)]
fn put_pairs_of_comp(pairs: &mut Vec<Pair>, comp: &Comp) -> Result<(), NoMemory> {
    put_pairs_of_guard(pairs, &comp.guard)?;
    put_pairs(pairs, &comp.item)
}

// A comprehension that may be split: `size` levels stand around it, `inner` with its binders, of which so many are `lost`.
#[derive(Clone, Copy)]
struct Whole<'a> {
    item: &'a Term,
    here: &'a Constraint,
    size: usize,
    inner: usize,
    loose: bool,
    lost: usize,
    ordered: bool,
}

// How many binders are fixed or idle where `here` holds. Only a loose one can be idle.
fn lost_binders(
    alloc: Global,
    item: &Term,
    here: &Constraint,
    size: usize,
    inner: usize,
    loose: bool,
) -> Result<usize, NoMemory> {
    if loose {
        return count_lost(alloc, item, here, size, inner);
    }
    count_fixed(alloc, here, size, inner)
}

// Whether in the part one more binder is fixed or idle. In a part without members none is.
fn loses_binder(alloc: Global, whole: Whole, part: &Constraint) -> Result<bool, NoMemory> {
    if part.len() == 0 {
        return Ok(false);
    }
    let lost = lost_binders(
        alloc,
        whole.item,
        part,
        whole.size,
        whole.inner,
        whole.loose,
    )?;
    Ok(lost > whole.lost)
}

fn loses_where(alloc: Global, whole: Whole, lit: Lit) -> Result<bool, NoMemory> {
    let only = only_literal(alloc, lit)?;
    let part = meet(alloc, whole.here, &only)?;
    loses_binder(alloc, whole, &part)
}

fn loses_where_not(alloc: Global, whole: Whole, lit: Lit) -> Result<bool, NoMemory> {
    let only = only_literal(alloc, lit)?;
    let part = and_not(alloc, whole.here, &only)?;
    loses_binder(alloc, whole, &part)
}

fn is_met(alloc: Global, whole: Whole, lit: Lit) -> Result<bool, NoMemory> {
    let only = only_literal(alloc, lit)?;
    let part = meet(alloc, whole.here, &only)?;
    Ok(part.len() != 0)
}

fn cubes_where_not(alloc: Global, here: &Constraint, equal: Lit) -> Result<Constraint, NoMemory> {
    let mut rest = Constraint::new(alloc);
    for cube in here.as_slice() {
        if !implies(alloc, cube, equal)? {
            rest.push(cube.copy(alloc)?)?;
        }
    }
    Ok(rest)
}

// Whether a binder is lost where the levels differ. In a cube that lets them differ no other one is fixed where they do.
fn loses_where_differ(alloc: Global, whole: Whole, equal: Lit) -> Result<bool, NoMemory> {
    if whole.loose {
        return loses_where_not(alloc, whole, equal);
    }
    let rest = cubes_where_not(alloc, whole.here, equal)?;
    loses_binder(alloc, whole, &rest)
}

// The literal of the two levels by which the comprehension is split. Where the levels are equal the right one is fixed. Where `<`
// and `>` each lose a binder, what differs is split once more in the next round.
fn split_at(alloc: Global, whole: Whole, pair: Pair) -> Result<Option<Lit>, NoMemory>
    requires left { pair.left < whole.inner }
    requires right { pair.right < whole.inner }
    ensures levels { IfOk result (λ o. IfSome o (LitFits whole.entry.inner)) }
    ensures operators { IfOk result (λ o. IfSome o (λ l. (ordered : Bool) → (IsTrue whole.entry.ordered → IsTrue ordered) → AdmitsLit ordered l)) }
{
    let equal = literal(Op::Eq, pair.left, pair.right);
    let differ = loses_where_differ(alloc, whole, equal)?;
    if differ && is_met(alloc, whole, equal)? {
        return Ok(Some(equal));
    }
    if !whole.ordered {
        return Ok(None);
    }
    let below = literal(Op::Lt, pair.left, pair.right);
    let above = literal(Op::Lt, pair.right, pair.left);
    let lower = loses_where(alloc, whole, below)?;
    if lower && loses_where_not(alloc, whole, below)? {
        return Ok(Some(below));
    }
    let upper = loses_where(alloc, whole, above)?;
    if upper && loses_where_not(alloc, whole, above)? {
        return Ok(Some(above));
    }
    if lower && upper && is_met(alloc, whole, equal)? {
        return Ok(Some(equal));
    }
    Ok(None)
}

/// A literal that the comprehension is worth a split by, of `size` levels and its binders.
pub(crate) fn split_of(
    alloc: Global,
    comp: &Comp,
    under: &Constraint,
    size: usize,
    inner: usize,
) -> Result<Option<Lit>, NoMemory>
    ensures levels { IfOk result (λ o. IfSome o (LitFits inner)) }
    ensures operators { IfOk result (λ o. IfSome o (λ l. (ordered : Bool) → AdmitsComp ordered (comp_of comp.now) → AdmitsLit ordered l)) }
{
    if comp.binders == 0 || comp.guard.len() > MOST_CUBES {
        return Ok(None);
    }
    let here = meet(alloc, under, &comp.guard)?;
    if here.len() > MOST_CUBES {
        return Ok(None);
    }
    let mut pairs = Vec::new(alloc);
    put_pairs_of_comp(&mut pairs, comp)?;
    let loose = has_loose_binder(&comp.item, size, inner);
    let whole = Whole {
        item: &comp.item,
        here: &here,
        size,
        inner,
        loose,
        lost: lost_binders(alloc, &comp.item, &here, size, inner, loose)?,
        ordered: comp_has_order(comp),
    };
    for pair in pairs.iter() {
        if pair.left < inner && pair.right < inner && pair.right >= size {
            let split = split_at(alloc, whole, *pair)?;
            if split.is_some() {
                return Ok(split);
            }
        }
    }
    Ok(None)
}
