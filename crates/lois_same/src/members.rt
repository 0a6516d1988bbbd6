//! Members of one set that another lacks.

ghost use Rattle.std.specs.Prelude.{◌≡◌, ◌+◌, IfOk, IfSome, IsNone};
ghost use Rattle.lois_base.specs.Fits.{ConstraintFits};
ghost use Rattle.lois_base.specs.Over.{IsOver, CompIsOver};
ghost use Rattle.lois_base.specs.Tree.{tree, comp_of};
ghost use Rattle.lois_deciders.specs.OnlyAsked.{HasOnlyAsked};
ghost use Rattle.lois_terms.specs.Collections.{IsColl};
ghost use Rattle.lois_same.specs.Members.{IsIncludedUnder, IsMemberAlone, CompIsIncluded, IsSampleAlone};

use lois_automata::membership;
use lois_base::{Comp, Constraint, Decider, NoMemory, Numbers, Structure, Term};
use lois_constraint::{and_not, meet};
use lois_deciders::Chosen;
use std::alloc::Global;

/// A term that is a member of one set and of another isn't, with the numbers of its levels.
#[derive(Drop)]
pub(crate) struct MemberAlone {
    pub sample: Numbers,
    pub item: Term,
}

/// A member of the one set that isn't one of the other, at some choice that `under` admits.
pub(crate) fn find_member_alone<T: Structure>(
    alloc: Global,
    set: &Term,
    other: &Term,
    under: &Constraint,
    size: usize,
    chosen: &mut Chosen,
) -> Result<Option<MemberAlone>, NoMemory>
    requires over { IsOver T.ordered size (tree set.now) }
    requires set { IsColl (tree set.now) }
    requires other { IsOver T.ordered size (tree other.now) }
    requires other_set { IsColl (tree other.now) }
    requires under { ConstraintFits size under.now }
    ensures none { IfOk result (λ o. IsNone o → IsIncludedUnder size under.now (tree set.now) (tree other.now)) }
    ensures member { IfOk result (λ o. IfSome o (IsMemberAlone size under.now (tree set.now) (tree other.now))) }
    ensures only_asked { HasOnlyAsked (λ b. (⟦<dyn Decider as Decider>⟧ b.vtable).kind_of b.value) (λ b. (⟦<dyn Decider as Decider>⟧ b.vtable).questions b.value) chosen.old chosen.new }
{
    let Term::Coll(comps) = set else {
        unreachable!()
    };
    for comp in comps.as_slice() {
        let found = find_item_alone::<T>(alloc, comp, other, under, size, chosen)?;
        if let Some(sample) = found {
            let item = comp.item.copy(alloc)?;
            return Ok(Some(MemberAlone { sample, item }));
        }
    }
    Ok(None)
}

// Numbers at which `under` and the guard hold and the item isn't in the set.
fn find_item_alone<T: Structure>(
    alloc: Global,
    comp: &Comp,
    other: &Term,
    under: &Constraint,
    size: usize,
    chosen: &mut Chosen,
) -> Result<Option<Numbers>, NoMemory>
    requires over { CompIsOver T.ordered size (comp_of comp.now) }
    requires other { IsOver T.ordered size (tree other.now) }
    requires other_set { IsColl (tree other.now) }
    requires under { ConstraintFits size under.now }
    ensures none { IfOk result (λ o. IsNone o → CompIsIncluded size under.now (comp_of comp.now) (tree other.now)) }
    ensures sample { IfOk result (λ o. IfSome o (IsSampleAlone size under.now (comp_of comp.now) (tree other.now))) }
    ensures only_asked { HasOnlyAsked (λ b. (⟦<dyn Decider as Decider>⟧ b.vtable).kind_of b.value) (λ b. (⟦<dyn Decider as Decider>⟧ b.vtable).questions b.value) chosen.old chosen.new }
{
    let admitted = meet(alloc, under, &comp.guard)?;
    let found = membership::<T>(alloc, &comp.item, other, size, comp.binders)?;
    let left = and_not(alloc, &admitted, &found)?;
    match chosen.ask(alloc, &left, size + comp.binders)? {
        Some(sample) => Ok(Some(Numbers::from_vec(sample))),
        None => Ok(None),
    }
}
