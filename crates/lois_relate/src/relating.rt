//! Equality, membership and inclusion, by recursion on both terms.

ghost use Rattle.std.specs.List.{All};
ghost use Rattle.std.specs.Prelude.{◌≡◌, ℕ, ◌+◌, ◌<◌, Bool, [], ◌∷◌, ◌++◌, length, map, IfOk, IfSome, IfNone, IsTrue};
ghost use Rattle.lois_base.specs.Atom.{equal};
ghost use Rattle.lois_base.specs.Data.{coll, more, no_comps, terms_of, comps_of};
ghost use Rattle.lois_base.specs.Fits.{ConstraintFits, Fits, PartsFit, CompFits, ItemsFit};
ghost use Rattle.lois_base.specs.FormulaData.{FormulaFits};
ghost use Rattle.lois_base.specs.FormulaView.{view};
ghost use Rattle.lois_base.specs.Truth.{atom_at};
ghost use Rattle.lois_base.specs.Tree.{tree, comp_of};
ghost use Rattle.lois_base.specs.Validity.{AdmitsTerm, AdmitsParts, AdmitsComp, AdmitsItems};
ghost use Rattle.lois_base.specs.FormulaOperators.{AdmitsFormula};
ghost use Rattle.lois_base.specs.Values.{SameAt, SamePartsAt, AllInAt, EachInAt, SomeIsAt, OneIsAt};
ghost use Rattle.lois_terms.specs.Collections.{IsColl};
ghost use Rattle.lois_terms.specs.Shapes.{item_shape};
ghost use Rattle.lois_relate.specs.Candidates.{comps_at, AreCandidates};
ghost use Rattle.lois_relate.specs.Built.{Defines};
ghost use Rattle.lois_relate.specs.Compared.{IsForEach, DefinesPaired, DefinesItem, DefinesFound, IsCached, IsRow, AreRows};
ghost use Rattle.lois_relate.specs.Named.{atoms_named, AreBelow, level_range};
ghost use Rattle.lois_relate.specs.Singles.{IsSingleItem};
ghost use Rattle.lois_relate.specs.Relations.{HoldsWhereSame, HoldsWhereIn, HoldsWhereItemIn, HoldsWhereIncluded};

use crate::building::{
    conjunction, disjunction, false_formula, for_some, implication, is_false_formula,
    is_true_formula, negation, true_formula,
};
use crate::candidates::{Candidates, IndexedComps, all_places};
use crate::clashes::leaves_out;
use crate::comparing::{Comparison, Pair, PairCache, both_ways};
use crate::matching::{is_listed, sets_match};
use crate::naming::{extend_names, guard_formula, inner_size};
use lois_base::{Comp, Comps, Formula, Lit, NoMemory, Op, Term, Terms};
use lois_terms::{Index, index_by_shape};
use std::alloc::Global;

/// A formula that holds at each choice of `size` atoms exactly where the two terms have the same value. It has `<` only where a term has it. Errors: `NoMemory`, also where a level would pass the greatest usize.
pub fn equal_formula(alloc: Global, s: &Term, t: &Term, size: usize) -> Result<Formula, NoMemory>
    requires left { Fits size (tree s.now) }
    requires right { Fits size (tree t.now) }
    ensures truth { IfOk result (λ f. HoldsWhereSame size (tree s.now) (tree t.now) (view f)) }
    ensures levels { IfOk result (λ f. FormulaFits size (view f)) }
    ensures operators { IfOk result (λ f. (ordered : Bool) → AdmitsTerm ordered (tree s.now) → AdmitsTerm ordered (tree t.now) → AdmitsFormula ordered (view f)) }
{
    let levels = extend_names(alloc, &[], 0, size)?;
    let own = levels.as_slice();
    same(alloc, s, own, t, own, size)
}

/// A formula that holds at each choice of `size` atoms exactly where the value of `s` is in the set `t`. It has `<` only where a term has it. Errors: `NoMemory`, also where a level would pass the greatest usize.
pub fn member_formula(alloc: Global, s: &Term, t: &Term, size: usize) -> Result<Formula, NoMemory>
    requires element { Fits size (tree s.now) }
    requires levels { Fits size (tree t.now) }
    requires set { IsColl (tree t.now) }
    ensures truth { IfOk result (λ f. HoldsWhereIn size (tree s.now) (tree t.now) (view f)) }
    ensures levels { IfOk result (λ f. FormulaFits size (view f)) }
    ensures operators { IfOk result (λ f. (ordered : Bool) → AdmitsTerm ordered (tree s.now) → AdmitsTerm ordered (tree t.now) → AdmitsFormula ordered (view f)) }
{
    let levels = extend_names(alloc, &[], 0, size)?;
    let own = levels.as_slice();
    match t {
        Term::Coll(comps) => {
            let items = comps.as_slice();
            let places = all_places(alloc, items.len())?;
            let all = Candidates {
                comps: items,
                places: places.as_slice(),
            };
            member(alloc, s, own, all, own, size)
        }
        _ => unreachable!(),
    }
}

/// A formula that says of a comprehension of `binders` binders, inside of `size` levels, where its item is in the set of other comprehensions that stand beside it: at each choice of `size` atoms and `binders` more. The others use the first `size` levels and binders of their own, and nothing is copied. It has `<` only where the item or the others have it. Errors: `NoMemory`, also where a level would pass the greatest usize.
pub fn item_formula(
    alloc: Global,
    item: &Term,
    others: &[Comp],
    size: usize,
    binders: usize,
) -> Result<Formula, NoMemory>
    requires element { Fits (size + binders) (tree item.now) }
    requires levels { ItemsFit size (comps_of (map comp_of others.now)) }
    ensures truth { IfOk result (λ f. HoldsWhereItemIn size binders (tree item.now) (comps_of (map comp_of others.now)) (view f)) }
    ensures levels { IfOk result (λ f. FormulaFits (size + binders) (view f)) }
    ensures operators { IfOk result (λ f. (ordered : Bool) → AdmitsTerm ordered (tree item.now) → AdmitsItems ordered (comps_of (map comp_of others.now)) → AdmitsFormula ordered (view f)) }
{
    let places = all_places(alloc, others.len())?;
    item_formula_among(alloc, item, others, places.as_slice(), size, binders)
}

/// As `item_formula`, with the index of the others' shapes, so that only those are looked at that may have the item: for a set that is asked often.
pub fn item_formula_indexed(
    alloc: Global,
    item: &Term,
    others: &[Comp],
    index: &Index,
    size: usize,
    binders: usize,
) -> Result<Formula, NoMemory>
    requires element { Fits (size + binders) (tree item.now) }
    requires levels { ItemsFit size (comps_of (map comp_of others.now)) }
    requires shapes { index.now ≡ map item_shape (map comp_of others.now) }
    ensures truth { IfOk result (λ f. HoldsWhereItemIn size binders (tree item.now) (comps_of (map comp_of others.now)) (view f)) }
    ensures levels { IfOk result (λ f. FormulaFits (size + binders) (view f)) }
    ensures operators { IfOk result (λ f. (ordered : Bool) → AdmitsTerm ordered (tree item.now) → AdmitsItems ordered (comps_of (map comp_of others.now)) → AdmitsFormula ordered (view f)) }
{
    let all = IndexedComps {
        comps: others,
        index,
    };
    let places = all.candidates(item);
    item_formula_among(alloc, item, others, places, size, binders)
}

/// As `item_formula`, of those of the others that stand at the places.
pub fn item_formula_among(
    alloc: Global,
    item: &Term,
    others: &[Comp],
    places: &[usize],
    size: usize,
    binders: usize,
) -> Result<Formula, NoMemory>
    requires element { Fits (size + binders) (tree item.now) }
    requires levels { ItemsFit size (comps_of (map comp_of others.now)) }
    requires places { All (λ i. i < length others.now) places.now }
    ensures truth { IfOk result (λ f. HoldsWhereItemIn size binders (tree item.now) (comps_at (map comp_of others.now) places.now) (view f)) }
    ensures levels { IfOk result (λ f. FormulaFits (size + binders) (view f)) }
    ensures operators { IfOk result (λ f. (ordered : Bool) → AdmitsTerm ordered (tree item.now) → AdmitsItems ordered (comps_of (map comp_of others.now)) → AdmitsFormula ordered (view f)) }
{
    let inner = inner_size(size, binders)?;
    let levels = extend_names(alloc, &[], 0, size)?;
    let own = levels.as_slice();
    let longer = extend_names(alloc, own, size, binders)?;
    let among = Candidates {
        comps: others,
        places,
    };
    member(alloc, item, longer.as_slice(), among, own, inner)
}

/// A formula that holds at each choice of `size` atoms exactly where each member of the set `s` is in the set `t`. It has `<` only where a term has it. Errors: `NoMemory`, also where a level would pass the greatest usize.
pub fn included_formula(alloc: Global, s: &Term, t: &Term, size: usize) -> Result<Formula, NoMemory>
    requires left { Fits size (tree s.now) }
    requires left_set { IsColl (tree s.now) }
    requires right { Fits size (tree t.now) }
    requires right_set { IsColl (tree t.now) }
    ensures truth { IfOk result (λ f. HoldsWhereIncluded size (tree s.now) (tree t.now) (view f)) }
    ensures levels { IfOk result (λ f. FormulaFits size (view f)) }
    ensures operators { IfOk result (λ f. (ordered : Bool) → AdmitsTerm ordered (tree s.now) → AdmitsTerm ordered (tree t.now) → AdmitsFormula ordered (view f)) }
{
    let levels = extend_names(alloc, &[], 0, size)?;
    let own = levels.as_slice();
    match (s, t) {
        (Term::Coll(comps), Term::Coll(others)) => {
            let other_items = others.as_slice();
            let index = index_by_shape(alloc, other_items)?;
            let all = IndexedComps {
                comps: other_items,
                index: &index,
            };
            included(alloc, &[], comps, own, all, own, size)
        }
        _ => unreachable!(),
    }
}

// Where the two have the same value, each with its levels under names below `size`.
#[cycle(relating)]
fn same(
    alloc: Global,
    s: &Term,
    s_names: &[usize],
    t: &Term,
    t_names: &[usize],
    size: usize,
) -> Result<Formula, NoMemory>
    requires left { Fits (length s_names.now) (tree s.now) }
    requires left_names { AreBelow size s_names.now }
    requires right { Fits (length t_names.now) (tree t.now) }
    requires right_names { AreBelow size t_names.now }
    ensures { IfOk result (λ f. Defines size (λ c. SameAt (tree s.now) (atoms_named s_names.now c) (tree t.now) (atoms_named t_names.now c)) (λ o. AdmitsTerm o (tree s.now) × AdmitsTerm o (tree t.now)) (view f)) }
{
    match (s, t) {
        (Term::Var(i), Term::Var(j)) => Ok(same_atoms(alloc, s_names[*i], t_names[*j])),
        (Term::Tag(name), Term::Tag(other)) => {
            if name == other {
                Ok(true_formula(alloc))
            } else {
                Ok(false_formula(alloc))
            }
        }
        (Term::Tup(parts), Term::Tup(others)) => {
            same_parts(alloc, parts, s_names, others, t_names, size)
        }
        (Term::Coll(comps), Term::Coll(others)) => {
            same_sets(alloc, comps, s_names, others, t_names, size)
        }
        _ => Ok(false_formula(alloc)),
    }
}

// The literal that two levels have the same atom.
fn same_atoms(alloc: Global, left: usize, right: usize) -> Formula
    ensures { (n : ℕ) → left < n → right < n → Defines n (λ c. IsTrue (equal (atom_at c left) (atom_at c right))) (λ o. Unit {0}) (view result) }
{
    if left == right {
        return true_formula(alloc);
    }
    Formula::Lit(Lit {
        op: Op::Eq,
        left,
        right,
    })
}

#[cycle(relating)]
fn same_parts(
    alloc: Global,
    terms: &Terms,
    s_names: &[usize],
    others: &Terms,
    t_names: &[usize],
    size: usize,
) -> Result<Formula, NoMemory>
    requires left { PartsFit (length s_names.now) (terms_of terms.now) }
    requires left_names { AreBelow size s_names.now }
    requires right { PartsFit (length t_names.now) (terms_of others.now) }
    requires right_names { AreBelow size t_names.now }
    ensures { IfOk result (λ f. Defines size (λ c. SamePartsAt (terms_of terms.now) (atoms_named s_names.now c) (terms_of others.now) (atoms_named t_names.now c)) (λ o. AdmitsParts o (terms_of terms.now) × AdmitsParts o (terms_of others.now)) (view f)) }
{
    let parts = terms.as_slice();
    let partners = others.as_slice();
    if parts.len() != partners.len() {
        return Ok(false_formula(alloc));
    }
    let mut met = true_formula(alloc);
    for (i, part) in parts.iter().enumerate() {
        let one = same(alloc, part, s_names, &partners[i], t_names, size)?;
        met = conjunction(alloc, met, one)?;
        if is_false_formula(&met) {
            return Ok(met);
        }
    }
    Ok(met)
}

// Sets are the same where each is included in the other. Each pair of comprehensions is compared once.
#[cycle(relating)]
fn same_sets(
    alloc: Global,
    comps: &Comps,
    s_names: &[usize],
    others: &Comps,
    t_names: &[usize],
    size: usize,
) -> Result<Formula, NoMemory>
    requires left { ItemsFit (length s_names.now) (comps_of comps.now) }
    requires left_names { AreBelow size s_names.now }
    requires right { ItemsFit (length t_names.now) (comps_of others.now) }
    requires right_names { AreBelow size t_names.now }
    ensures { IfOk result (λ f. Defines size (λ c. SameAt (coll (comps_of comps.now)) (atoms_named s_names.now c) (coll (comps_of others.now)) (atoms_named t_names.now c)) (λ o. AdmitsItems o (comps_of comps.now) × AdmitsItems o (comps_of others.now)) (view f)) }
{
    if sets_match(comps, s_names, others, t_names) {
        return Ok(true_formula(alloc));
    }
    if let Some(one) = single(comps) {
        if let Some(other) = single(others) {
            return same_singles(alloc, one, s_names, other, t_names, size);
        }
    }
    let other_items = others.as_slice();
    let other_index = index_by_shape(alloc, other_items)?;
    let other_set = IndexedComps {
        comps: other_items,
        index: &other_index,
    };
    let there = sets_compared(alloc, comps, s_names, other_set, t_names, size)?;
    if is_false_formula(&there.included) {
        return Ok(there.included);
    }
    let items = comps.as_slice();
    let index = index_by_shape(alloc, items)?;
    let set = IndexedComps {
        comps: items,
        index: &index,
    };
    let rows = there.rows.as_slice();
    let back = included(alloc, rows, others, t_names, set, s_names, size)?;
    conjunction(alloc, there.included, back)
}

// The comprehension of a set that has no other, and no binders.
fn single(comps: &Comps) -> Option<&Comp>
    ensures some { IfSome result (λ k. (comps.now ≡ comp_of k.now ∷ []) × (k.now.binders ≡ 0)) }
    ensures none { IfNone result (¬ IsSingleItem (comps_of comps.now)) }
{
    let items = comps.as_slice();
    if items.len() != 1 {
        return None;
    }
    let comp = &items[0];
    if comp.binders == 0 { Some(comp) } else { None }
}

// Sets of at most one member, whose items are compared once: where the one is there, so is the other, and it is the same; and the other way round. Two inclusions would compare the items twice, at each depth.
#[cycle(relating)]
fn same_singles(
    alloc: Global,
    one: &Comp,
    s_names: &[usize],
    other: &Comp,
    t_names: &[usize],
    size: usize,
) -> Result<Formula, NoMemory>
    requires left { CompFits (length s_names.now) (comp_of one.now) }
    requires left_names { AreBelow size s_names.now }
    requires left_binders { one.now.binders ≡ 0 }
    requires right { CompFits (length t_names.now) (comp_of other.now) }
    requires right_names { AreBelow size t_names.now }
    requires right_binders { other.now.binders ≡ 0 }
    ensures { IfOk result (λ f. Defines size (λ c. SameAt (coll (more (comp_of one.now) no_comps)) (atoms_named s_names.now c) (coll (more (comp_of other.now) no_comps)) (atoms_named t_names.now c)) (λ o. AdmitsComp o (comp_of one.now) × AdmitsComp o (comp_of other.now)) (view f)) }
{
    let equal = same(alloc, &one.item, s_names, &other.item, t_names, size)?;
    let one_there = guard_formula(alloc, &one.guard, s_names)?;
    let other_there = guard_formula(alloc, &other.guard, t_names)?;
    let back = implication(alloc, other_there.copy(alloc)?, one_there.copy(alloc)?)?;
    let partner = conjunction(alloc, other_there, equal)?;
    let forth = implication(alloc, one_there, partner)?;
    conjunction(alloc, forth, back)
}

// Where each member of the one set is in the other.
#[cycle(relating)]
fn included(
    alloc: Global,
    rows: &[Vec<Pair>],
    comps: &Comps,
    s_names: &[usize],
    others: IndexedComps<'_>,
    t_names: &[usize],
    size: usize,
) -> Result<Formula, NoMemory>
    requires left { ItemsFit (length s_names.now) (comps_of comps.now) }
    requires left_names { AreBelow size s_names.now }
    requires right { ItemsFit (length t_names.now) (comps_of (map comp_of others.comps.now)) }
    requires right_names { AreBelow size t_names.now }
    requires shapes { others.index.now ≡ map item_shape (map comp_of others.comps.now) }
    requires rows { AreRows size (map comp_of others.comps.now) t_names.now comps.now s_names.now rows.now }
    ensures { IfOk result (λ f. Defines size (λ c. AllInAt (comps_of comps.now) (atoms_named s_names.now c) (comps_of (map comp_of others.entry.comps.now)) (atoms_named t_names.now c)) (λ o. AdmitsItems o (comps_of comps.now) × AdmitsItems o (comps_of (map comp_of others.entry.comps.now))) (view f)) }
{
    let mut met = true_formula(alloc);
    let items = comps.as_slice();
    for (place, comp) in items.iter().enumerate() {
        let known = PairCache { rows, place };
        let near = Candidates {
            comps: others.comps,
            places: others.candidates(&comp.item),
        };
        let one = each_in(alloc, known, comp, s_names, near, t_names, size)?;
        met = conjunction(alloc, met, one)?;
        if is_false_formula(&met) {
            return Ok(met);
        }
    }
    Ok(met)
}

// Where no item of the comprehension, at no choice of its binders that its guard admits, is missing in the set.
#[cycle(relating)]
fn each_in(
    alloc: Global,
    known: PairCache<'_>,
    comp: &Comp,
    s_names: &[usize],
    others: Candidates<'_>,
    t_names: &[usize],
    size: usize,
) -> Result<Formula, NoMemory>
    requires left { CompFits (length s_names.now) (comp_of comp.now) }
    requires left_names { AreBelow size s_names.now }
    requires right { ItemsFit (length t_names.now) (comps_of (map comp_of others.comps.now)) }
    requires right_names { AreBelow size t_names.now }
    requires places { AreBelow (length others.comps.now) others.places.now }
    requires candidates { AreCandidates (map comp_of others.comps.now) (tree comp.now.item) others.places.now }
    requires known { IsCached size (map comp_of others.comps.now) t_names.now (comp_of comp.now) s_names.now known.rows.now known.place }
    ensures { IfOk result (λ f. Defines size (λ c. EachInAt (comp_of comp.now) (atoms_named s_names.now c) (comps_of (map comp_of others.entry.comps.now)) (atoms_named t_names.now c)) (λ o. AdmitsComp o (comp_of comp.now) × AdmitsItems o (comps_of (map comp_of others.entry.comps.now))) (view f)) }
{
    if is_listed(comp, s_names, others, t_names) {
        return Ok(true_formula(alloc));
    }
    let longer = extend_names(alloc, s_names, size, comp.binders)?;
    let found = found_in(alloc, known, comp, s_names, others, t_names, size)?;
    none_missing(alloc, found, comp, longer.as_slice())
}

// Where something is found for each choice of the binders that the guard admits.
fn none_missing(
    alloc: Global,
    found: Formula,
    comp: &Comp,
    names: &[usize],
) -> Result<Formula, NoMemory>
    requires { ConstraintFits (length names.now) comp.now.guard }
    ensures { IfOk result (λ r. (n : ℕ) → AreBelow (n + comp.now.binders) names.now → FormulaFits (n + comp.now.binders) (view found) → IsForEach n comp.now.binders names.now comp.now.guard (view found) (view r)) }
{
    let guard = guard_formula(alloc, &comp.guard, names)?;
    let missing = conjunction(alloc, guard, negation(alloc, found)?)?;
    negation(alloc, for_some(alloc, missing, comp.binders)?)
}

// Where the guard admits the item of the comprehension, and it is in the set.
#[cycle(relating)]
fn found_in(
    alloc: Global,
    known: PairCache<'_>,
    comp: &Comp,
    s_names: &[usize],
    others: Candidates<'_>,
    t_names: &[usize],
    size: usize,
) -> Result<Formula, NoMemory>
    requires left { CompFits (length s_names.now) (comp_of comp.now) }
    requires left_names { AreBelow size s_names.now }
    requires right { ItemsFit (length t_names.now) (comps_of (map comp_of others.comps.now)) }
    requires right_names { AreBelow size t_names.now }
    requires places { AreBelow (length others.comps.now) others.places.now }
    requires candidates { AreCandidates (map comp_of others.comps.now) (tree comp.now.item) others.places.now }
    requires known { IsCached size (map comp_of others.comps.now) t_names.now (comp_of comp.now) s_names.now known.rows.now known.place }
    ensures { IfOk result (λ f. DefinesFound size s_names.now (comp_of comp.now) t_names.now (comps_of (map comp_of others.entry.comps.now)) (view f)) }
{
    let mut found = false_formula(alloc);
    for place in others.places {
        let other = &others.comps[*place];
        let one = one_found(alloc, known.of(*place), comp, s_names, other, t_names, size)?;
        found = disjunction(alloc, found, one)?;
        if is_true_formula(&found) {
            return Ok(found);
        }
    }
    Ok(found)
}

// The same of one comprehension of the set.
#[cycle(relating)]
fn one_found(
    alloc: Global,
    known: Option<&Formula>,
    comp: &Comp,
    s_names: &[usize],
    other: &Comp,
    t_names: &[usize],
    size: usize,
) -> Result<Formula, NoMemory>
    requires left { CompFits (length s_names.now) (comp_of comp.now) }
    requires left_names { AreBelow size s_names.now }
    requires right { CompFits (length t_names.now) (comp_of other.now) }
    requires right_names { AreBelow size t_names.now }
    requires known { IfSome known (λ f. DefinesPaired size s_names.now (comp_of comp.now) t_names.now (comp_of other.now) (view f.now)) }
    ensures { IfOk result (λ f. DefinesItem size s_names.now (comp_of comp.now) t_names.now (comp_of other.now) (view f)) }
{
    if let Some(paired) = known {
        return for_some(alloc, paired.copy(alloc)?, other.binders);
    }
    if leaves_out(other, &comp.item) {
        return Ok(false_formula(alloc));
    }
    let inner = inner_size(size, comp.binders)?;
    let longer = extend_names(alloc, s_names, size, comp.binders)?;
    let names = longer.as_slice();
    let one = is_item(alloc, &comp.item, names, other, t_names, inner)?;
    conjunction(alloc, guard_formula(alloc, &comp.guard, names)?, one)
}

// Where the value is in the set of the comprehensions at the places.
fn member(
    alloc: Global,
    s: &Term,
    s_names: &[usize],
    among: Candidates<'_>,
    t_names: &[usize],
    size: usize,
) -> Result<Formula, NoMemory>
    requires left { Fits (length s_names.now) (tree s.now) }
    requires left_names { AreBelow size s_names.now }
    requires right { ItemsFit (length t_names.now) (comps_of (map comp_of among.comps.now)) }
    requires right_names { AreBelow size t_names.now }
    requires places { AreBelow (length among.comps.now) among.places.now }
    ensures { IfOk result (λ f. Defines size (λ c. SomeIsAt (comps_at (map comp_of among.entry.comps.now) among.entry.places.now) (atoms_named t_names.now c) (tree s.now) (atoms_named s_names.now c)) (λ o. AdmitsItems o (comps_of (map comp_of among.entry.comps.now)) × AdmitsTerm o (tree s.now)) (view f)) }
{
    let mut found = false_formula(alloc);
    for place in among.places {
        let comp = &among.comps[*place];
        if !leaves_out(comp, s) {
            let one = is_item(alloc, s, s_names, comp, t_names, size)?;
            found = disjunction(alloc, found, one)?;
            if is_true_formula(&found) {
                return Ok(found);
            }
        }
    }
    Ok(found)
}

// Where the value is an item of the comprehension at some choice of its binders that its guard admits: nowhere, where the item is never the value.
#[cycle(relating)]
fn is_item(
    alloc: Global,
    s: &Term,
    s_names: &[usize],
    comp: &Comp,
    t_names: &[usize],
    size: usize,
) -> Result<Formula, NoMemory>
    requires left { Fits (length s_names.now) (tree s.now) }
    requires left_names { AreBelow size s_names.now }
    requires right { CompFits (length t_names.now) (comp_of comp.now) }
    requires right_names { AreBelow size t_names.now }
    ensures { IfOk result (λ f. Defines size (λ c. OneIsAt (comp_of comp.now) (atoms_named t_names.now c) (tree s.now) (atoms_named s_names.now c)) (λ o. AdmitsComp o (comp_of comp.now) × AdmitsTerm o (tree s.now)) (view f)) }
{
    let inner = inner_size(size, comp.binders)?;
    let longer = extend_names(alloc, t_names, size, comp.binders)?;
    let names = longer.as_slice();
    let equal = same(alloc, &comp.item, names, s, s_names, inner)?;
    if is_false_formula(&equal) {
        return Ok(equal);
    }
    let guard = guard_formula(alloc, &comp.guard, names)?;
    for_some(alloc, conjunction(alloc, equal, guard)?, comp.binders)
}

// Where the one set is included in the other, and where pairs of comprehensions are there, as the other inclusion asks for it: a row for each of the one set's.
#[derive(Drop)]
struct Compared {
    included: Formula,
    rows: Vec<Vec<Pair>>,
}

// The same of one comprehension: where it is included, or found, and its row.
#[derive(Drop)]
struct Row {
    there: Formula,
    pairs: Vec<Pair>,
}

// The first of two inclusions of sets.
#[cycle(relating)]
fn sets_compared(
    alloc: Global,
    comps: &Comps,
    s_names: &[usize],
    others: IndexedComps<'_>,
    t_names: &[usize],
    size: usize,
) -> Result<Compared, NoMemory>
    requires left { ItemsFit (length s_names.now) (comps_of comps.now) }
    requires left_names { AreBelow size s_names.now }
    requires right { ItemsFit (length t_names.now) (comps_of (map comp_of others.comps.now)) }
    requires right_names { AreBelow size t_names.now }
    requires shapes { others.index.now ≡ map item_shape (map comp_of others.comps.now) }
    ensures included { IfOk result (λ r. Defines size (λ c. AllInAt (comps_of comps.now) (atoms_named s_names.now c) (comps_of (map comp_of others.entry.comps.now)) (atoms_named t_names.now c)) (λ o. AdmitsItems o (comps_of comps.now) × AdmitsItems o (comps_of (map comp_of others.entry.comps.now))) (view r.included)) }
    ensures rows { IfOk result (λ r. AreRows size comps.now s_names.now (map comp_of others.entry.comps.now) t_names.now r.rows.items) }
{
    let mut met = true_formula(alloc);
    let mut rows = Vec::new(alloc);
    for comp in comps.as_slice() {
        let near = Candidates {
            comps: others.comps,
            places: others.candidates(&comp.item),
        };
        let Row { there, pairs } = each_compared(alloc, comp, s_names, near, t_names, size)?;
        rows.push(pairs)?;
        met = conjunction(alloc, met, there)?;
        if is_false_formula(&met) {
            return Ok(Compared {
                included: met,
                rows,
            });
        }
    }
    Ok(Compared {
        included: met,
        rows,
    })
}

// A comprehension that is listed is in the other set, and no pair of it is compared.
#[cycle(relating)]
fn each_compared(
    alloc: Global,
    comp: &Comp,
    s_names: &[usize],
    others: Candidates<'_>,
    t_names: &[usize],
    size: usize,
) -> Result<Row, NoMemory>
    requires left { CompFits (length s_names.now) (comp_of comp.now) }
    requires left_names { AreBelow size s_names.now }
    requires right { ItemsFit (length t_names.now) (comps_of (map comp_of others.comps.now)) }
    requires right_names { AreBelow size t_names.now }
    requires places { AreBelow (length others.comps.now) others.places.now }
    requires candidates { AreCandidates (map comp_of others.comps.now) (tree comp.now.item) others.places.now }
    ensures there { IfOk result (λ r. Defines size (λ c. EachInAt (comp_of comp.now) (atoms_named s_names.now c) (comps_of (map comp_of others.entry.comps.now)) (atoms_named t_names.now c)) (λ o. AdmitsComp o (comp_of comp.now) × AdmitsItems o (comps_of (map comp_of others.entry.comps.now))) (view r.there)) }
    ensures pairs { IfOk result (λ r. IsRow size (comp_of comp.now) s_names.now (map comp_of others.entry.comps.now) t_names.now r.pairs.items) }
{
    if is_listed(comp, s_names, others, t_names) {
        return Ok(Row {
            there: true_formula(alloc),
            pairs: Vec::new(alloc),
        });
    }
    let longer = extend_names(alloc, s_names, size, comp.binders)?;
    let found = item_compared(alloc, comp, s_names, others, t_names, size)?;
    Ok(Row {
        there: none_missing(alloc, found.there, comp, longer.as_slice())?,
        pairs: found.pairs,
    })
}

// The item beside those of a set that may have it: where it is one of them, and where it is each.
#[cycle(relating)]
fn item_compared(
    alloc: Global,
    comp: &Comp,
    s_names: &[usize],
    others: Candidates<'_>,
    t_names: &[usize],
    size: usize,
) -> Result<Row, NoMemory>
    requires left { CompFits (length s_names.now) (comp_of comp.now) }
    requires left_names { AreBelow size s_names.now }
    requires right { ItemsFit (length t_names.now) (comps_of (map comp_of others.comps.now)) }
    requires right_names { AreBelow size t_names.now }
    requires places { AreBelow (length others.comps.now) others.places.now }
    requires candidates { AreCandidates (map comp_of others.comps.now) (tree comp.now.item) others.places.now }
    ensures there { IfOk result (λ r. DefinesFound size s_names.now (comp_of comp.now) t_names.now (comps_of (map comp_of others.entry.comps.now)) (view r.there)) }
    ensures pairs { IfOk result (λ r. IsRow size (comp_of comp.now) s_names.now (map comp_of others.entry.comps.now) t_names.now r.pairs.items) }
{
    let mut found = false_formula(alloc);
    let mut pairs = Vec::new(alloc);
    for place in others.places {
        let other = &others.comps[*place];
        let Comparison { forth, back } = pair_compared(alloc, comp, s_names, other, t_names, size)?;
        pairs.push(Pair {
            place: *place,
            there: back,
        })?;
        found = disjunction(alloc, found, for_some(alloc, forth, other.binders)?)?;
    }
    Ok(Row {
        there: found,
        pairs,
    })
}

// Where both guards hold and both items are the same, with the binders in either order. Whatever asks for it asks for the guards too, and where guards repeat those around them the items alone have a case for each literal that fails.
#[cycle(relating)]
fn pair_compared(
    alloc: Global,
    comp: &Comp,
    s_names: &[usize],
    other: &Comp,
    t_names: &[usize],
    size: usize,
) -> Result<Comparison, NoMemory>
    requires left { CompFits (length s_names.now) (comp_of comp.now) }
    requires left_names { AreBelow size s_names.now }
    requires right { CompFits (length t_names.now) (comp_of other.now) }
    requires right_names { AreBelow size t_names.now }
    ensures forth { IfOk result (λ r. DefinesPaired size s_names.now (comp_of comp.now) t_names.now (comp_of other.now) (view r.forth)) }
    ensures back { IfOk result (λ r. DefinesPaired size t_names.now (comp_of other.now) s_names.now (comp_of comp.now) (view r.back)) }
{
    if leaves_out(other, &comp.item) {
        return Ok(Comparison {
            forth: false_formula(alloc),
            back: false_formula(alloc),
        });
    }
    let inner = inner_size(size, comp.binders)?;
    let whole = inner_size(inner, other.binders)?;
    let own = extend_names(alloc, s_names, size, comp.binders)?;
    let longer = extend_names(alloc, t_names, inner, other.binders)?;
    let left = own.as_slice();
    let right = longer.as_slice();
    let equal = same(alloc, &other.item, right, &comp.item, left, whole)?;
    let guard = guard_formula(alloc, &comp.guard, left)?;
    let other_guard = guard_formula(alloc, &other.guard, right)?;
    let there = conjunction(alloc, guard, other_guard)?;
    let paired = conjunction(alloc, there, equal)?;
    both_ways(alloc, &paired, size, comp.binders, other.binders)
}
