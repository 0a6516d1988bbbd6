//! Contexts split by conditions.

ghost use Rattle.std.specs.Prelude.{Bool, not, List, ◌↔◌, IfOk, IfSome, IsTrue, IsFalse};
ghost use Rattle.lois_base.specs.Atom.{Atom};
ghost use Rattle.lois_base.specs.Fits.{ConstraintFits};
ghost use Rattle.lois_base.specs.Truth.{holds};
ghost use Rattle.lois_base.specs.Validity.{AdmitsConstraint};
ghost use Rattle.lois_deciders.specs.OnlyAsked.{HasOnlyAsked};
ghost use Rattle.lois_context.specs.Choices.{IsAdmitted, IsAdmittedBy, AdmitsContext};
ghost use Rattle.lois_context.specs.Sides.{IsSide, HasPathCondition, HasSamplePathCondition, CanHavePathCondition};

use crate::{Context, Split};
use lois_base::{Constraint, Decider, NoMemory};
use lois_constraint::negate;
use lois_deciders::{Chosen, SampledConstraint};
use std::alloc::Global;

/// Splits a context by a condition: each choice that it admits is admitted by exactly the side that the condition's truth
/// there names. Errors: `NoMemory`.
pub fn split(
    alloc: Global,
    context: Context,
    condition: &Constraint,
    chosen: &mut Chosen,
) -> Result<Split, NoMemory>
    requires { ConstraintFits context.size condition.now }
    ensures yes { IfOk result (λ s. IfSome s.yes (IsSide context (λ c. holds c condition.now))) }
    ensures no { IfOk result (λ s. IfSome s.no (IsSide context (λ c. not (holds c condition.now)))) }
    ensures yes_choices { IfOk result (λ s. (c : List Atom) → IsAdmittedBy c s.yes ↔ (IsAdmitted c context × IsTrue (holds c condition.now))) }
    ensures no_choices { IfOk result (λ s. (c : List Atom) → IsAdmittedBy c s.no ↔ (IsAdmitted c context × IsFalse (holds c condition.now))) }
    ensures yes_operators { IfOk result (λ s. (ordered : Bool) → AdmitsContext ordered context → AdmitsConstraint ordered condition.now → IfSome s.yes (AdmitsContext ordered)) }
    ensures no_operators { IfOk result (λ s. (ordered : Bool) → AdmitsContext ordered context → AdmitsConstraint ordered condition.now → IfSome s.no (AdmitsContext ordered)) }

    // whatever is answered
    ensures only_asked { HasOnlyAsked (λ b. (⟦<dyn Decider as Decider>⟧ b.vtable).kind_of b.value) (λ b. (⟦<dyn Decider as Decider>⟧ b.vtable).questions b.value) chosen.old chosen.new }
{
    let denied = negate(alloc, condition)?;
    let yes = chosen.meet(alloc, &context.when, condition, context.size)?;
    let no = chosen.meet(alloc, &context.when, &denied, context.size)?;
    sides(alloc, context, yes, no)
}

/// The context where the condition holds too, or `None` where that is at no choice. Nothing is asked about where it doesn't
/// hold. Errors: `NoMemory`.
pub fn side(
    alloc: Global,
    context: &Context,
    condition: &Constraint,
    chosen: &mut Chosen,
) -> Result<Option<Context>, NoMemory>
    requires { ConstraintFits context.now.size condition.now }
    ensures side { IfOk result (λ o. IfSome o (IsSide context.now (λ c. holds c condition.now))) }
    ensures choices { IfOk result (λ o. (c : List Atom) → IsAdmittedBy c o ↔ (IsAdmitted c context.now × IsTrue (holds c condition.now))) }
    ensures operators { IfOk result (λ o. (ordered : Bool) → AdmitsContext ordered context.now → AdmitsConstraint ordered condition.now → IfSome o (AdmitsContext ordered)) }

    // whatever is answered
    ensures only_asked { HasOnlyAsked (λ b. (⟦<dyn Decider as Decider>⟧ b.vtable).kind_of b.value) (λ b. (⟦<dyn Decider as Decider>⟧ b.vtable).questions b.value) chosen.old chosen.new }
{
    let met = chosen.meet(alloc, &context.when, condition, context.size)?;
    match met {
        Some(met) => Ok(Some(narrowed_copy(alloc, context, met)?)),
        None => Ok(None),
    }
}

// The context is copied where both sides can be met, and else moved.
fn sides(
    alloc: Global,
    context: Context,
    yes: Option<SampledConstraint>,
    no: Option<SampledConstraint>,
) -> Result<Split, NoMemory>
    requires yes { IfSome yes (CanHavePathCondition context) }
    requires no { IfSome no (CanHavePathCondition context) }
    ensures yes { IfOk result (λ s. HasSamplePathCondition context yes s.yes) }
    ensures no { IfOk result (λ s. HasSamplePathCondition context no s.no) }
{
    let Some(no) = no else {
        return Ok(Split {
            yes: narrowed_if(context, yes),
            no: None,
        });
    };
    let yes = match yes {
        Some(met) => Some(narrowed_copy(alloc, &context, met)?),
        None => None,
    };
    Ok(Split {
        yes,
        no: Some(narrowed(context, no)),
    })
}

fn narrowed_if(context: Context, met: Option<SampledConstraint>) -> Option<Context>
    requires { IfSome met (CanHavePathCondition context) }
    ensures { HasSamplePathCondition context met result }
{
    match met {
        Some(met) => Some(narrowed(context, met)),
        None => None,
    }
}

// The context where what was met holds.
fn narrowed(context: Context, met: SampledConstraint) -> Context
    requires { CanHavePathCondition context met }
    ensures { HasPathCondition context met.constraint result }
{
    Context {
        size: context.size,
        when: met.constraint,
        sample: met.sample,
        store: context.store,
        lines: context.lines,
    }
}

fn narrowed_copy(
    alloc: Global,
    context: &Context,
    met: SampledConstraint,
) -> Result<Context, NoMemory>
    requires { CanHavePathCondition context.now met }
    ensures { IfOk result (HasPathCondition context.now met.constraint) }
{
    Ok(Context {
        size: context.size,
        when: met.constraint,
        sample: met.sample,
        store: context.store.copy(alloc)?,
        lines: context.lines.share()?,
    })
}
