//! Normal terms.

ghost use Rattle.std.specs.Prelude.{◌+◌, ◌<◌, ◌≤◌, ◌↔◌, Bool, IfOk, IfSome, IsNone, IsTrue};
ghost use Rattle.std.specs.List.{All};
ghost use Rattle.lois_base.specs.Data.{depth, tup, terms_of, comps_of};
ghost use Rattle.lois_base.specs.Fits.{ConstraintFits, Fits};
ghost use Rattle.lois_base.specs.Normal.{IsNormal, PartsAreNormal};
ghost use Rattle.lois_base.specs.Over.{IsOver, PartsAreOver, CompIsOver, ItemsAreOver, ConstraintIsOver};
ghost use Rattle.lois_base.specs.Tree.{tree, comp_of};
ghost use Rattle.lois_base.specs.Validity.{AdmitsTerm, HasBoundedWidths};
ghost use Rattle.lois_deciders.specs.Satisfaction.{IsConstraintSample, IsEntailed};
ghost use Rattle.lois_deciders.specs.Satisfiability.{ConstraintIsSatisfiable, IsCounterexample};
ghost use Rattle.lois_deciders.specs.Conjunction.{IsSampledConjunction, AreInconsistent};
ghost use Rattle.lois_deciders.specs.OnlyAsked.{HasOnlyAsked};
ghost use Rattle.lois_simplify.specs.Simplification.{IsSimplification, IsSameWhere, set_of};
ghost use Rattle.lois_simplify.specs.Irredundant.{HasNormalGuards, PartsHaveNormalGuards};
ghost use Rattle.lois_simplify.specs.Plain.{HasPlainGuards, PartsHavePlainGuards};
ghost use Rattle.lois_simplify.specs.Lean.{IsLeanComp};
ghost use Rattle.lois_simplify.specs.Rounds.{only, listed_comp, IsRoundOf};

use crate::covering::uncovered;
use crate::distinct::distinct;
use crate::guards::is_always;
use crate::oracle::{Oracle, Queries};
use crate::rounds::{Open, Opening, Round, close_round, open_round};
use lois_base::{Comp, Comps, Constraint, Decider, NoMemory, Structure, Term, Terms};
use lois_deciders::Chosen;
use std::alloc::Global;

/// A normal term with the value of the given one at each choice of `size` atoms at which `under` holds. Its guards are
/// normalised, and it has no operator that the term hasn't. The decider is asked whatever turns on a choice of atoms.
/// Errors: `NoMemory`.
pub fn simplify<T: Structure>(
    alloc: Global,
    term: &Term,
    under: &Constraint,
    size: usize,
    chosen: &mut Chosen,
) -> Result<Term, NoMemory>
    requires over { IsOver T.ordered size (tree term.now) }
    requires under { ConstraintIsOver T.ordered size under.now }
    ensures value { IfOk result (λ r. IsSameWhere under.now size (tree term.now) (tree r)) }
    ensures normal { IfOk result (λ r. IsNormal (tree r) under.now size) }
    ensures guards { IfOk result (λ r. HasNormalGuards (tree r)) }
    ensures levels { IfOk result (λ r. Fits size (tree r)) }
    ensures operators { IfOk result (λ r. (ordered : Bool) → AdmitsTerm ordered (tree term.now) → AdmitsTerm ordered (tree r)) }
    ensures widths { IfOk result (λ r. HasBoundedWidths (tree term.now) → HasBoundedWidths (tree r)) }
    ensures depth { IfOk result (λ r. depth (tree r) ≤ depth (tree term.now)) }

    // whatever is answered
    ensures only_asked { HasOnlyAsked (λ b. (⟦<dyn Decider as Decider>⟧ b.vtable).kind_of b.value) (λ b. (⟦<dyn Decider as Decider>⟧ b.vtable).questions b.value) chosen.old chosen.new }
{
    simplify_worded::<T>(alloc, term, under, false, size, chosen)
}

/// The same for a reader: a guard that holds wherever what surrounds it does is `true`, and the others are as short as they are
/// found to be. That takes its time, so what is only kept is given to `simplify`. Errors: `NoMemory`.
pub fn simplify_to_read<T: Structure>(
    alloc: Global,
    term: &Term,
    under: &Constraint,
    size: usize,
    chosen: &mut Chosen,
) -> Result<Term, NoMemory>
    requires over { IsOver T.ordered size (tree term.now) }
    requires under { ConstraintIsOver T.ordered size under.now }
    ensures value { IfOk result (λ r. IsSameWhere under.now size (tree term.now) (tree r)) }
    ensures normal { IfOk result (λ r. IsNormal (tree r) under.now size) }
    ensures guards { IfOk result (λ r. HasNormalGuards (tree r)) }
    ensures plain { IfOk result (λ r. HasPlainGuards (tree r) under.now size) }
    ensures levels { IfOk result (λ r. Fits size (tree r)) }
    ensures operators { IfOk result (λ r. (ordered : Bool) → AdmitsTerm ordered (tree term.now) → AdmitsTerm ordered (tree r)) }
    ensures widths { IfOk result (λ r. HasBoundedWidths (tree term.now) → HasBoundedWidths (tree r)) }
    ensures depth { IfOk result (λ r. depth (tree r) ≤ depth (tree term.now)) }

    // whatever is answered
    ensures only_asked { HasOnlyAsked (λ b. (⟦<dyn Decider as Decider>⟧ b.vtable).kind_of b.value) (λ b. (⟦<dyn Decider as Decider>⟧ b.vtable).questions b.value) chosen.old chosen.new }
{
    simplify_worded::<T>(alloc, term, under, true, size, chosen)
}

// `brief` says that the guards are to be read.
fn simplify_worded<T: Structure>(
    alloc: Global,
    term: &Term,
    under: &Constraint,
    brief: bool,
    size: usize,
    chosen: &mut Chosen,
) -> Result<Term, NoMemory>
    requires over { IsOver T.ordered size (tree term.now) }
    requires under { ConstraintIsOver T.ordered size under.now }
    ensures kept { IfOk result (λ r. IsSimplification under.now size (tree term.now) (tree r)) }
    ensures normal { IfOk result (λ r. IsNormal (tree r) under.now size) }
    ensures guards { IfOk result (λ r. HasNormalGuards (tree r)) }
    ensures plain { IfOk result (λ r. IsTrue brief → HasPlainGuards (tree r) under.now size) }
    ensures only_asked { HasOnlyAsked (λ b. (⟦<dyn Decider as Decider>⟧ b.vtable).kind_of b.value) (λ b. (⟦<dyn Decider as Decider>⟧ b.vtable).questions b.value) chosen.old chosen.new }
{
    let mut asking = Queries {
        decider: chosen,
        sample: |asked: &mut Chosen, alloc: Global, c: &Constraint, size: usize|
            requires levels { ConstraintFits size c.now }
            ensures some { IfOk result (λ o. IfSome o (λ s. IsConstraintSample size c.now s.items)) }
            ensures none { IfOk result (λ o. IsNone o ↔ (ConstraintIsSatisfiable size c.now → ⊥)) }
            ensures only_asked { HasOnlyAsked (λ b. kind_of (b.vtable, b.value)) (λ b. questions (b.vtable, b.value)) asked.old asked.new }
        { asked.ask(alloc, c, size) },
        both: |asked: &mut Chosen, alloc: Global, a: &Constraint, b: &Constraint, size: usize|
            requires first { ConstraintFits size a.now }
            requires second { ConstraintFits size b.now }
            ensures met { IfOk result (λ o. IfSome o (λ m. IsSampledConjunction size a.now b.now m.constraint m.sample)) }
            ensures none { IfOk result (λ o. IsNone o ↔ AreInconsistent size a.now b.now) }
            ensures only_asked { HasOnlyAsked (λ b. kind_of (b.vtable, b.value)) (λ b. questions (b.vtable, b.value)) asked.old asked.new }
        { asked.meet(alloc, a, b, size) },
        counterexample: |asked: &mut Chosen, alloc: Global, c: &Constraint, d: &Constraint, size: usize|
            requires first { ConstraintFits size c.now }
            requires second { ConstraintFits size d.now }
            ensures some { IfOk result (λ o. IfSome o (λ s. IsCounterexample size c.now d.now s.items)) }
            ensures none { IfOk result (λ o. IsNone o ↔ IsEntailed size c.now d.now) }
            ensures only_asked { HasOnlyAsked (λ b. kind_of (b.vtable, b.value)) (λ b. questions (b.vtable, b.value)) asked.old asked.new }
        { asked.entails(alloc, c, d, size) },
    };
    simplified_copy::<T, _>(alloc, term, under, brief, size, &mut asking)
}

fn is_plain(term: &Term) -> bool {
    match term {
        Term::Var(_) => true,
        Term::Tag(_) => true,
        _ => false,
    }
}

fn are_plain(parts: &Terms) -> bool {
    for part in parts.as_slice() {
        if !is_plain(part) {
            return false;
        }
    }
    true
}

// Whether the term may have sets. Nothing rests on the answer but whether a question is worth its time.
fn may_have_sets(term: &Term) -> bool {
    match term {
        Term::Tup(parts) => !are_plain(parts),
        other => !is_plain(other),
    }
}

// Whether `under` is known to be met somewhere. That isn't asked for a term without sets.
fn is_known_met<D: Oracle>(
    alloc: Global,
    term: &Term,
    under: &Constraint,
    size: usize,
    decider: &mut D,
) -> Result<bool, NoMemory>
    requires sound { D.sound }
    requires levels { ConstraintFits size under.now }
    ensures met { IfOk result (λ b. IsTrue b → ConstraintIsSatisfiable size under.now) }
    ensures asked { D.reaches decider.old decider.new }
{
    if !may_have_sets(term) {
        return Ok(false);
    }
    if is_always(alloc, under)? {
        return Ok(true);
    }
    let sample = decider.sample(alloc, under, size)?;
    Ok(sample.is_some())
}

// A copy of the term, simplified: below, whatever is kept is moved.
fn simplified_copy<T: Structure, D: Oracle>(
    alloc: Global,
    term: &Term,
    under: &Constraint,
    brief: bool,
    size: usize,
    decider: &mut D,
) -> Result<Term, NoMemory>
    requires sound { D.sound }
    requires over { IsOver T.ordered size (tree term.now) }
    requires under { ConstraintIsOver T.ordered size under.now }
    ensures kept { IfOk result (λ r. IsSimplification under.now size (tree term.now) (tree r)) }
    ensures normal { IfOk result (λ r. IsNormal (tree r) under.now size) }
    ensures guards { IfOk result (λ r. HasNormalGuards (tree r)) }
    ensures plain { IfOk result (λ r. IsTrue brief → HasPlainGuards (tree r) under.now size) }
    ensures asked { D.reaches decider.old decider.new }
{
    let own = term.copy(alloc)?;
    let met = is_known_met(alloc, term, under, size, decider)?;
    simplified::<T, D>(alloc, own, under, met, brief, size, decider)
}

#[cycle(simplifying)]
fn simplified<T: Structure, D: Oracle>(
    alloc: Global,
    term: Term,
    under: &Constraint,
    met: bool,
    brief: bool,
    size: usize,
    decider: &mut D,
) -> Result<Term, NoMemory>
    requires sound { D.sound }
    requires over { IsOver T.ordered size (tree term) }
    requires under { ConstraintIsOver T.ordered size under.now }
    requires met { IsTrue met → ConstraintIsSatisfiable size under.now }
    ensures kept { IfOk result (λ r. IsSimplification under.now size (tree term) (tree r)) }
    ensures normal { IfOk result (λ r. IsNormal (tree r) under.now size) }
    ensures guards { IfOk result (λ r. HasNormalGuards (tree r)) }
    ensures plain { IfOk result (λ r. IsTrue brief → HasPlainGuards (tree r) under.now size) }
    ensures asked { D.reaches decider.old decider.new }
{
    match term {
        Term::Var(level) => Ok(Term::Var(level)),
        Term::Tag(name) => Ok(Term::Tag(name)),
        Term::Tup(parts) => Ok(Term::Tup(simplified_parts::<T, D>(
            alloc, parts, under, met, brief, size, decider,
        )?)),
        Term::Coll(comps) => {
            let lean = irredundant_comps::<T, D>(alloc, comps, under, met, brief, size, decider)?;
            Ok(Term::Coll(uncovered::<T, D>(alloc, lean, under, size, decider)?))
        }
    }
}

#[cycle(simplifying)]
fn simplified_parts<T: Structure, D: Oracle>(
    alloc: Global,
    parts: Terms,
    under: &Constraint,
    met: bool,
    brief: bool,
    size: usize,
    decider: &mut D,
) -> Result<Terms, NoMemory>
    requires sound { D.sound }
    requires over { PartsAreOver T.ordered size (terms_of parts) }
    requires under { ConstraintIsOver T.ordered size under.now }
    requires met { IsTrue met → ConstraintIsSatisfiable size under.now }
    ensures kept { IfOk result (λ r. IsSimplification under.now size (tup (terms_of parts)) (tup (terms_of r))) }
    ensures normal { IfOk result (λ r. PartsAreNormal (terms_of r) under.now size) }
    ensures guards { IfOk result (λ r. PartsHaveNormalGuards (terms_of r)) }
    ensures plain { IfOk result (λ r. IsTrue brief → PartsHavePlainGuards (terms_of r) under.now size) }
    ensures asked { D.reaches decider.old decider.new }
{
    let mut simple = Terms::new(alloc);
    for part in parts.into_vec() {
        simple.push(simplified::<T, D>(alloc, part, under, met, brief, size, decider)?)?;
    }
    Ok(simple)
}

// Each comprehension made lean by itself. Those that are written alike are cut first, before a decider is asked, and again
// at the end.
#[cycle(simplifying)]
fn irredundant_comps<T: Structure, D: Oracle>(
    alloc: Global,
    comps: Comps,
    under: &Constraint,
    met: bool,
    brief: bool,
    size: usize,
    decider: &mut D,
) -> Result<Comps, NoMemory>
    requires sound { D.sound }
    requires over { ItemsAreOver T.ordered size (comps_of comps) }
    requires under { ConstraintIsOver T.ordered size under.now }
    requires met { IsTrue met → ConstraintIsSatisfiable size under.now }
    ensures kept { IfOk result (λ r. IsSimplification under.now size (set_of comps) (set_of r)) }
    ensures lean { IfOk result (All (IsLeanComp brief under.now size)) }
    ensures asked { D.reaches decider.old decider.new }
{
    let several = distinct(alloc, comps)?;
    let mut found = Comps::new(alloc);
    for comp in several.into_vec() {
        if let Some(simple) = irredundant_comp::<T, D>(
            alloc, comp, under, met, brief, size, decider,
        )? {
            found.push(simple)?;
        }
    }
    distinct(alloc, found)
}

// The comprehension made lean by itself, or `None` where it has no members.
#[cycle(simplifying)]
fn irredundant_comp<T: Structure, D: Oracle>(
    alloc: Global,
    comp: Comp,
    under: &Constraint,
    met: bool,
    brief: bool,
    size: usize,
    decider: &mut D,
) -> Result<Option<Comp>, NoMemory>
    requires sound { D.sound }
    requires over { CompIsOver T.ordered size (comp_of comp) }
    requires under { ConstraintIsOver T.ordered size under.now }
    requires met { IsTrue met → ConstraintIsSatisfiable size under.now }
    ensures kept { IfOk result (λ o. IsSimplification under.now size (set_of (only (comp_of comp))) (set_of (listed_comp o))) }
    ensures lean { IfOk result (λ o. IfSome o (λ k. IsLeanComp brief under.now size (comp_of k))) }
    ensures asked { D.reaches decider.old decider.new }
{
    let mut current = comp;
    'rounds: loop {
        match one_round::<T, D>(alloc, current, under, met, brief, size, decider)? {
            Round::Lean(simple) => return Ok(Some(simple)),
            Round::Empty => return Ok(None),
            Round::Shorter(shorter) => current = shorter,
        }
    }
}

// Whatever a round has changed is looked at afresh in the next one.
#[cycle(simplifying)]
fn one_round<T: Structure, D: Oracle>(
    alloc: Global,
    comp: Comp,
    under: &Constraint,
    met: bool,
    brief: bool,
    size: usize,
    decider: &mut D,
) -> Result<Round, NoMemory>
    requires sound { D.sound }
    requires over { CompIsOver T.ordered size (comp_of comp) }
    requires under { ConstraintIsOver T.ordered size under.now }
    requires met { IsTrue met → ConstraintIsSatisfiable size under.now }
    ensures round { IfOk result (IsRoundOf brief under.now size comp) }
    ensures asked { D.reaches decider.old decider.new }
{
    let Open { comp, here } = match open_round::<T, D>(
        alloc, comp, under, met, brief, size, decider,
    )? {
        Opening::Over(round) => return Ok(round),
        Opening::Open(open) => open,
    };
    let inner = size + comp.binders;
    let Comp {
        binders,
        guard,
        item,
    } = comp;
    let item = simplified::<T, D>(alloc, item, &here, true, brief, inner, decider)?;
    let comp = Comp {
        binders,
        guard,
        item,
    };
    close_round::<T>(alloc, comp, size)
}
