//! The sets that loops run through, and the elements that faults name.

ghost use Rattle.std.specs.Prelude.{◌≡◌, ℕ, ◌≤◌, Bool, length, IfOk, IfErr, IfSome, IsSome};
ghost use Rattle.lois_base.specs.Data.{TermD, depth};
ghost use Rattle.lois_base.specs.Fits.{Fits};
ghost use Rattle.lois_base.specs.Tree.{tree as term_tree};
ghost use Rattle.lois_base.specs.Validity.{AdmitsTerm, HasBoundedWidths};
ghost use Rattle.lois_deciders.specs.OnlyAsked.{HasOnlyAsked};
ghost use Rattle.lois_script.specs.View.{tree};
ghost use Rattle.lois_terms.specs.Collections.{IsColl};
ghost use Rattle.lois_context.specs.Choices.{ContextHasBoundedWidths};
ghost use Rattle.lois_context.specs.Slots.{IsNew};
ghost use Rattle.lois_eval.specs.WellFormed.{IsWellFormedIn, IsWellFormed};
ghost use Rattle.lois_eval.specs.Throughout.{IsValueThroughout, IsFaultOf, IfFault};
ghost use Rattle.lois_interp.specs.Elements.{SetFails, NamesElement, StopNamesElement};
ghost use Rattle.lois_interp.specs.Entered.{IsEntered};
ghost use Rattle.lois_interp.specs.Looped.{Holds};

use crate::values::normal_value;
use lois_answers::{FaultKind, Line, Lines};
use lois_base::{Decider, Name, NoMemory, Structure, Term};
use lois_context::{Content, Context, Store, enter_loop};
use lois_deciders::Chosen;
use lois_eval::fault_under;
use lois_meaning::{Fault, Stop};
use lois_script::Expr;
use lois_terms::shift_term;
use std::alloc::Global;

/// One context for each comprehension of the set that an expression gives. The set is a normal term, so that the elements of a
/// fault are written within 64 brackets.
pub(crate) fn enter_members<T: Structure>(
    alloc: Global,
    e: &Expr,
    name: &Name,
    context: &Context,
    chosen: &mut Chosen,
) -> Result<Vec<Context>, Stop>
    requires placed { IsWellFormedIn (IsWellFormed (tree e.now)) T.ordered context.now }
    requires new_name { IsNew name.now context.now.store }
    ensures entered { IfOk result (λ r. IsEntered (tree e.now) name.now context.now r.items) }
    ensures fault { IfErr result (λ s. IfFault s (IsFaultOf T.ordered context.now (SetFails (tree e.now)))) }

    // whatever is answered
    ensures only_asked { HasOnlyAsked (λ b. (⟦<dyn Decider as Decider>⟧ b.vtable).kind_of b.value) (λ b. (⟦<dyn Decider as Decider>⟧ b.vtable).questions b.value) chosen.old chosen.new }
{
    let elements = elements_of::<T>(alloc, e, context, chosen)?;
    Ok(enter_loop(alloc, context, &elements, name, chosen)?)
}

// The set that an expression gives.
fn elements_of<T: Structure>(
    alloc: Global,
    e: &Expr,
    context: &Context,
    chosen: &mut Chosen,
) -> Result<Term, Stop>
    requires { IsWellFormedIn (IsWellFormed (tree e.now)) T.ordered context.now }
    ensures value { IfOk result (λ t. IsValueThroughout context.now (tree e.now) (term_tree t)) }
    ensures set { IfOk result (λ t. IsColl (term_tree t)) }
    ensures brackets { IfOk result (λ t. depth (term_tree t) ≤ 64) }
    ensures levels { IfOk result (λ t. Fits context.now.size (term_tree t)) }
    ensures operators { IfOk result (λ t. (ordered : Bool) → IsWellFormedIn (IsWellFormed (tree e.now)) ordered context.now → AdmitsTerm ordered (term_tree t)) }
    ensures widths { IfOk result (λ t. ContextHasBoundedWidths context.now → HasBoundedWidths (term_tree t)) }
    ensures fault { IfErr result (λ s. IfFault s (IsFaultOf T.ordered context.now (SetFails (tree e.now)))) }

    // whatever is answered
    ensures only_asked { HasOnlyAsked (λ b. (⟦<dyn Decider as Decider>⟧ b.vtable).kind_of b.value) (λ b. (⟦<dyn Decider as Decider>⟧ b.vtable).questions b.value) chosen.old chosen.new }
{
    let term = normal_value::<T>(alloc, e, context, chosen)?;
    match term {
        Term::Coll(comps) => Ok(Term::Coll(comps)),
        _ => Err(fault_under(alloc, e.pos(), FaultKind::NotASet, &context.sample)),
    }
}

/// Puts a loop's element before those that a fault has named.
fn with_element(
    alloc: Global,
    name: &Name,
    item: &Term,
    size: usize,
    fault: Fault,
) -> Result<Fault, NoMemory>
    requires levels { Fits size (term_tree item.now) }
    requires sample { size ≤ length fault.sample.items }
    ensures { IfOk result (NamesElement name.now (term_tree item.now) size fault) }
{
    // with as many levels more a binder may pass the greatest usize
    if !item.fits(fault.sample.len()) {
        return Err(NoMemory);
    }
    let term = shift_term(alloc, item, size, fault.sample.len() - size)?;
    let mut elements = Lines::new(alloc);
    elements.push(Line {
        name: name.copy(alloc)?,
        term,
    })?;
    for line in fault.elements.as_slice() {
        elements.push(line.copy(alloc)?)?;
    }
    Ok(Fault {
        pos: fault.pos,
        kind: fault.kind,
        sample: fault.sample,
        elements,
    })
}

/// The same of what a run has stopped for.
pub(crate) fn named_inside(alloc: Global, name: &Name, item: &Term, size: usize, stop: Stop) -> Stop
    requires levels { Fits size (term_tree item.now) }
    requires sample { IfFault stop (λ f. size ≤ length f.sample.items) }
    ensures { StopNamesElement name.now (term_tree item.now) size stop result }
{
    match stop {
        Stop::NoMemory => Stop::NoMemory,
        Stop::Fault(fault) => match with_element(alloc, name, item, size, fault) {
            Ok(named) => Stop::Fault(named),
            Err(_) => Stop::NoMemory,
        },
    }
}

/// What a name holds.
pub(crate) fn held_by<'a>(store: &'a Store, name: &Name) -> Option<&'a Content>
    ensures found { IfSome result (λ t. Holds name.now store.now (term_tree t.now)) }
    ensures some { (t : TermD) → Holds name.now store.now t → IsSome result }
{
    for slot in store.as_slice() {
        if slot.name == *name {
            return Some(&slot.term);
        }
    }
    None
}

/// The term that a name holds.
pub(crate) fn item_of(alloc: Global, store: &Store, name: &Name) -> Result<Term, NoMemory>
    requires { (t : TermD) × Holds name.now store.now t }
    ensures { IfOk result (λ t. Holds name.now store.now (term_tree t)) }
{
    match held_by(store, name) {
        Some(term) => term.copy(alloc),
        None => unreachable!(),
    }
}
