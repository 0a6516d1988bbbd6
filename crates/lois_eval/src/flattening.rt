//! The members of a set that are sets.

ghost use Rattle.std.specs.Prelude.{◌↔◌, [], ◌∷◌, IfOk, IfErr, OnOk, IsTrue};
ghost use Rattle.lois_base.specs.Data.{comps_of, coll};
ghost use Rattle.lois_base.specs.Over.{IsOver, CompIsOver, ItemsAreOver};
ghost use Rattle.lois_base.specs.Tree.{tree, comp_of};
ghost use Rattle.lois_terms.specs.Collections.{IsColl};
ghost use Rattle.lois_context.specs.Entered.{HasNoMembers};
ghost use Rattle.lois_eval.specs.Operands.{HasSetsOf, IsKeptIfSet, IsMemberFault};
ghost use Rattle.lois_eval.specs.Throughout.{IfFault};

use crate::faults::fault;
use crate::oracle::Oracle;
use lois_answers::FaultKind;
use lois_base::{Comp, Comps, Structure, Term};
use lois_context::Context;
use lois_meaning::Stop;
use lois_script::Pos;
use std::alloc::Global;

/// The comprehensions whose items are sets. Errors: a fault at the place where another has members at some choice that the
/// context admits.
pub(crate) fn sets_in<T: Structure, D: Oracle<T>>(
    alloc: Global,
    pos: Pos,
    set: &Term,
    context: &Context,
    decider: &mut D,
) -> Result<Term, Stop>
    requires sound { D.sound }
    requires over { IsOver T.ordered context.now.size (tree set.now) }
    requires set { IsColl (tree set.now) }
    ensures sets { IfOk result (λ r. HasSetsOf context.now (tree set.now) (tree r)) }
    ensures fault { IfErr result (λ s. IfFault s (IsMemberFault T.ordered context.now (tree set.now) pos.offset)) }
    ensures asked { D.reaches decider.old decider.new }
{
    match set {
        Term::Coll(comps) => Ok(Term::Coll(kept::<T, D>(alloc, pos, comps, context, decider)?)),
        _ => unreachable!(),
    }
}

fn kept<T: Structure, D: Oracle<T>>(
    alloc: Global,
    pos: Pos,
    comps: &Comps,
    context: &Context,
    decider: &mut D,
) -> Result<Comps, Stop>
    requires sound { D.sound }
    requires over { ItemsAreOver T.ordered context.now.size (comps_of comps.now) }
    ensures sets { IfOk result (λ r. HasSetsOf context.now (coll (comps_of comps.now)) (coll (comps_of r))) }
    ensures fault { IfErr result (λ s. IfFault s (IsMemberFault T.ordered context.now (coll (comps_of comps.now)) pos.offset)) }
    ensures asked { D.reaches decider.old decider.new }
{
    let mut kept = Comps::new(alloc);
    for comp in comps.as_slice() {
        put_set::<T, D>(alloc, pos, comp, &mut kept, context, decider)?;
    }
    Ok(kept)
}

// Puts the comprehension to the others where its item is a set.
fn put_set<T: Structure, D: Oracle<T>>(
    alloc: Global,
    pos: Pos,
    comp: &Comp,
    kept: &mut Comps,
    context: &Context,
    decider: &mut D,
) -> Result<(), Stop>
    requires sound { D.sound }
    requires over { CompIsOver T.ordered context.now.size (comp_of comp.now) }
    ensures kept { OnOk result (IsKeptIfSet context.now (comp_of comp.now) kept.old kept.new) }
    ensures fault { IfErr result (λ s. IfFault s (IsMemberFault T.ordered context.now (coll (comps_of (comp_of comp.now ∷ []))) pos.offset)) }
    ensures asked { D.reaches decider.old decider.new }
{
    if is_set(&comp.item) {
        kept.push(comp.copy(alloc)?)?;
        return Ok(());
    }
    check_empty::<T, D>(alloc, pos, comp, context, decider)
}

fn is_set(term: &Term) -> bool
    ensures { IsTrue result ↔ IsColl (tree term.now) }
{
    matches!(term, Term::Coll(_))
}

// Errors: a fault at the place where the comprehension, whose item is no set, has members at some choice that the context admits.
fn check_empty<T: Structure, D: Oracle<T>>(
    alloc: Global,
    pos: Pos,
    comp: &Comp,
    context: &Context,
    decider: &mut D,
) -> Result<(), Stop>
    requires sound { D.sound }
    requires over { CompIsOver T.ordered context.now.size (comp_of comp.now) }
    requires item { IsColl (tree comp.now.item) → ⊥ }
    ensures empty { OnOk result (HasNoMembers context.now (comp_of comp.now)) }
    ensures fault { IfErr result (λ s. IfFault s (IsMemberFault T.ordered context.now (coll (comps_of (comp_of comp.now ∷ []))) pos.offset)) }
    ensures asked { D.reaches decider.old decider.new }
{
    let inner = context.size + comp.binders;
    match decider.sample(alloc, &context.when, &comp.guard, inner)? {
        Some(mut sample) => {
            sample.truncate(context.size);
            Err(fault(alloc, pos, FaultKind::NotASet, sample))
        }
        None => Ok(()),
    }
}
