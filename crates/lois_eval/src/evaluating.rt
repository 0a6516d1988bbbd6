//! Expressions and conditions.

ghost use Rattle.std.specs.Prelude.{◌≡◌, ◌≤◌, ◌↔◌, Bool, true, false, List, length, map, drop, IfOk, IfErr, IfSome, IsNone, IsTrue};
ghost use Rattle.std.specs.List.{All};
ghost use Rattle.lois_base.specs.Atom.{Atom};
ghost use Rattle.lois_base.specs.Data.{comps_of, coll, terms_of};
ghost use Rattle.lois_base.specs.Fits.{ConstraintFits, Fits};
ghost use Rattle.lois_base.specs.Over.{IsOver};
ghost use Rattle.lois_base.specs.Tree.{tree as term_tree};
ghost use Rattle.lois_base.specs.Truth.{holds};
ghost use Rattle.lois_base.specs.Validity.{AdmitsConstraint, AdmitsTerm, HasBoundedWidths};
ghost use Rattle.lois_deciders.specs.Conjunction.{AreInconsistent};
ghost use Rattle.lois_deciders.specs.OnlyAsked.{HasOnlyAsked};
ghost use Rattle.lois_meaning.specs.Expressions.{Gives, Makes, HasTruth};
ghost use Rattle.lois_meaning.specs.Faults.{Fails, Breaks, SomeFails, CondFails, IsNoAutomaton};
ghost use Rattle.lois_script.specs.Tree.{each, pos};
ghost use Rattle.lois_script.specs.View.{tree, cond_tree, binding_tree, exprs_of, bindings_of, conds_of};
ghost use Rattle.lois_script.specs.Lists.{exprs_list, conds_list};
ghost use Rattle.lois_terms.specs.Collections.{IsColl};
ghost use Rattle.lois_context.specs.Choices.{IsAdmitted, IsAdmittedBy, AdmitsContext, ContextHasBoundedWidths};
ghost use Rattle.lois_context.specs.Entered.{AreEntered};
ghost use Rattle.lois_context.specs.Sides.{IsSide};
ghost use Rattle.lois_context.specs.Slots.{IsNew};
ghost use Rattle.lois_eval.specs.Automata.{AreOperands, IsEmptiness, IsOperationResult, IsValueFault};
ghost use Rattle.lois_eval.specs.Checks.{MeetsBoth};
ghost use Rattle.lois_eval.specs.Evaluated.{IsTermOf, AreTermsOf, IsConstraintOf, HasMembersOnlyWhereAdmitted};
ghost use Rattle.lois_eval.specs.Folded.{IsGatheredInside, IsFoundInside, IsFaultInside};
ghost use Rattle.lois_eval.specs.Forms.{each_from, joint, quantifier, two};
ghost use Rattle.lois_eval.specs.LeftToRight.{IsOfLeftmost, IsOfLeftmostOperand, IsOfLeftmostSide};
ghost use Rattle.lois_eval.specs.Sides.{sides_listed};
ghost use Rattle.lois_eval.specs.Operands.{IsUnfitFault};
ghost use Rattle.lois_eval.specs.WellFormed.{IsWellFormedIn, IsWellFormed, AreWellFormed, CondIsWellFormed};
ghost use Rattle.lois_eval.specs.Throughout.{IsValueThroughout, IsTruthThroughout, FailsNowhere, IsFaultOf, IfFault};

use crate::checks::shallow;
use crate::entering::{entered, leave_loop_with_comps, leave_loop_with_constraint};
use crate::folding::{found_too, put_outward};
use crate::forms::{Sides, compared, composed, named_value, shared, simple, wordless};
use crate::joining::{joined, unit};
use crate::machines::{applied_to_automata, where_empty};
use crate::making::{part, singleton_set};
use crate::oracle::{Oracle, Queries, sample};
use lois_base::{Comps, Constraint, Decider, Name, Structure, Term, Terms};
use lois_constraint::negate;
use lois_context::{Context, Shared, enter_loop, side};
use lois_deciders::Chosen;
use lois_meaning::Stop;
use lois_script::{Binding, Cond, Conds, Expr, Exprs, Operation};
use std::alloc::Global;

/// The value of an expression at all choices that a context admits. Ok comes exactly where it fails at none of them.
/// Errors: a fault at some choice that the context admits, of the leftmost operand that fails at any of them, and else of the
/// leftmost whose value is unfit at any of them; and `NoMemory`, also where a level would pass the greatest usize.
pub fn eval<T: Structure>(
    alloc: Global,
    e: &Expr,
    context: &Context,
    chosen: &mut Chosen,
) -> Result<Term, Stop>
    requires { IsWellFormedIn (IsWellFormed (tree e.now)) T.ordered context.now }
    ensures value { IfOk result (λ t. IsValueThroughout context.now (tree e.now) (term_tree t)) }
    ensures nowhere { IfOk result (λ t. FailsNowhere context.now (Fails (tree e.now))) }
    ensures levels { IfOk result (λ t. Fits context.now.size (term_tree t)) }
    ensures operators { IfOk result (λ t. (ordered : Bool) → IsWellFormedIn (IsWellFormed (tree e.now)) ordered context.now → AdmitsTerm ordered (term_tree t)) }
    ensures widths { IfOk result (λ t. ContextHasBoundedWidths context.now → HasBoundedWidths (term_tree t)) }
    ensures fault { IfErr result (λ s. IfFault s (IsFaultOf T.ordered context.now (Fails (tree e.now)))) }
    ensures leftmost { IfErr result (λ s. IfFault s (IsOfLeftmostOperand T.ordered context.now (tree e.now))) }

    // whatever is answered
    ensures only_asked { HasOnlyAsked (λ b. (⟦<dyn Decider as Decider>⟧ b.vtable).kind_of b.value) (λ b. (⟦<dyn Decider as Decider>⟧ b.vtable).questions b.value) chosen.old chosen.new }
{
    let mut asking = Queries {
        decider: chosen,
        sample: |asked: &mut Chosen, alloc: Global, a: &Constraint, b: &Constraint, size: usize|
            requires first { ConstraintFits size a.now }
            requires second { ConstraintFits size b.now }
            ensures some { IfOk result (λ o. IfSome o (λ s. MeetsBoth size a.now b.now s.items)) }
            ensures none { IfOk result (λ o. IsNone o ↔ AreInconsistent size a.now b.now) }
            ensures only_asked { HasOnlyAsked (λ b. kind_of (b.vtable, b.value)) (λ b. questions (b.vtable, b.value)) asked.old asked.new }
        { sample(asked, alloc, a, b, size) },
        enter: |asked: &mut Chosen, alloc: Global, context: &Context, elements: &Term, name: &Name|
            requires levels { Fits context.now.size (term_tree elements.now) }
            requires set { IsColl (term_tree elements.now) }
            requires new_name { IsNew name.now context.now.store }
            ensures entered { IfOk result (λ r. AreEntered context.now name.now (term_tree elements.now) r.items) }
            ensures only_asked { HasOnlyAsked (λ b. kind_of (b.vtable, b.value)) (λ b. questions (b.vtable, b.value)) asked.old asked.new }
        { enter_loop(alloc, context, elements, name, asked) },
        keep: |asked: &mut Chosen, alloc: Global, context: &Context, condition: &Constraint|
            requires levels { ConstraintFits context.now.size condition.now }
            ensures side { IfOk result (λ o. IfSome o (IsSide context.now (λ c. holds c condition.now))) }
            ensures choices { IfOk result (λ o. (c : List Atom) → IsAdmittedBy c o ↔ (IsAdmitted c context.now × IsTrue (holds c condition.now))) }
            ensures operators { IfOk result (λ o. (ordered : Bool) → AdmitsContext ordered context.now → AdmitsConstraint ordered condition.now → IfSome o (AdmitsContext ordered)) }
            ensures only_asked { HasOnlyAsked (λ b. kind_of (b.vtable, b.value)) (λ b. questions (b.vtable, b.value)) asked.old asked.new }
        { side(alloc, context, condition, asked) },
        apply: |asked: &mut Chosen, alloc: Global, operation: Operation, operands: &Exprs, values: &Terms, context: &Context|
            requires operands { AreOperands T.ordered context.now operation (exprs_list operands.now) values.now }
            ensures made { IfOk result (λ r. IsOperationResult context.now operation values.now (term_tree r)) }
            ensures fault { IfErr result (λ s. IfFault s (IsUnfitFault T.ordered context.now operation (exprs_of (exprs_list operands.now)) (terms_of values.now))) }
            ensures only_asked { HasOnlyAsked (λ b. kind_of (b.vtable, b.value)) (λ b. questions (b.vtable, b.value)) asked.old asked.new }
        { applied_to_automata::<T>(alloc, operation, operands, values, context, asked) },
        empty: |asked: &mut Chosen, alloc: Global, operand: &Expr, automaton: &Term, context: &Context|
            requires given { IsValueThroughout context.now (tree operand.now) (term_tree automaton.now) }
            requires over { IsOver T.ordered context.now.size (term_tree automaton.now) }
            requires context_operators { AdmitsContext T.ordered context.now }
            ensures emptiness { IfOk result (IsEmptiness context.now (term_tree automaton.now)) }
            ensures fault { IfErr result (λ s. IfFault s (IsValueFault T.ordered context.now IsNoAutomaton (term_tree automaton.now) (pos (tree operand.now)))) }
            ensures only_asked { HasOnlyAsked (λ b. kind_of (b.vtable, b.value)) (λ b. questions (b.vtable, b.value)) asked.old asked.new }
        { where_empty::<T>(alloc, operand, automaton, context, asked) },
    };
    evaluated::<T, _>(alloc, e, context, &mut asking)
}

/// Where a condition is true, among all choices that a context admits. Ok comes exactly where it fails at none of them.
/// Errors: a fault at some choice that the context admits, of the leftmost side of a comparison that fails at any of them, and
/// else of the leftmost whose value is unfit; and `NoMemory`, also where a level would pass the greatest usize.
pub fn decide<T: Structure>(
    alloc: Global,
    c: &Cond,
    context: &Context,
    chosen: &mut Chosen,
) -> Result<Constraint, Stop>
    requires { IsWellFormedIn (CondIsWellFormed (cond_tree c.now)) T.ordered context.now }
    ensures truth { IfOk result (λ r. IsTruthThroughout context.now (cond_tree c.now) r) }
    ensures nowhere { IfOk result (λ r. FailsNowhere context.now (CondFails (cond_tree c.now))) }
    ensures levels { IfOk result (λ r. ConstraintFits context.now.size r) }
    ensures operators { IfOk result (λ r. (ordered : Bool) → IsWellFormedIn (CondIsWellFormed (cond_tree c.now)) ordered context.now → AdmitsConstraint ordered r) }
    ensures fault { IfErr result (λ s. IfFault s (IsFaultOf T.ordered context.now (CondFails (cond_tree c.now)))) }
    ensures leftmost { IfErr result (λ s. IfFault s (IsOfLeftmostSide T.ordered context.now (cond_tree c.now))) }

    // whatever is answered
    ensures only_asked { HasOnlyAsked (λ b. (⟦<dyn Decider as Decider>⟧ b.vtable).kind_of b.value) (λ b. (⟦<dyn Decider as Decider>⟧ b.vtable).questions b.value) chosen.old chosen.new }
{
    let mut asking = Queries {
        decider: chosen,
        sample: |asked: &mut Chosen, alloc: Global, a: &Constraint, b: &Constraint, size: usize|
            requires first { ConstraintFits size a.now }
            requires second { ConstraintFits size b.now }
            ensures some { IfOk result (λ o. IfSome o (λ s. MeetsBoth size a.now b.now s.items)) }
            ensures none { IfOk result (λ o. IsNone o ↔ AreInconsistent size a.now b.now) }
            ensures only_asked { HasOnlyAsked (λ b. kind_of (b.vtable, b.value)) (λ b. questions (b.vtable, b.value)) asked.old asked.new }
        { sample(asked, alloc, a, b, size) },
        enter: |asked: &mut Chosen, alloc: Global, context: &Context, elements: &Term, name: &Name|
            requires levels { Fits context.now.size (term_tree elements.now) }
            requires set { IsColl (term_tree elements.now) }
            requires new_name { IsNew name.now context.now.store }
            ensures entered { IfOk result (λ r. AreEntered context.now name.now (term_tree elements.now) r.items) }
            ensures only_asked { HasOnlyAsked (λ b. kind_of (b.vtable, b.value)) (λ b. questions (b.vtable, b.value)) asked.old asked.new }
        { enter_loop(alloc, context, elements, name, asked) },
        keep: |asked: &mut Chosen, alloc: Global, context: &Context, condition: &Constraint|
            requires levels { ConstraintFits context.now.size condition.now }
            ensures side { IfOk result (λ o. IfSome o (IsSide context.now (λ c. holds c condition.now))) }
            ensures choices { IfOk result (λ o. (c : List Atom) → IsAdmittedBy c o ↔ (IsAdmitted c context.now × IsTrue (holds c condition.now))) }
            ensures operators { IfOk result (λ o. (ordered : Bool) → AdmitsContext ordered context.now → AdmitsConstraint ordered condition.now → IfSome o (AdmitsContext ordered)) }
            ensures only_asked { HasOnlyAsked (λ b. kind_of (b.vtable, b.value)) (λ b. questions (b.vtable, b.value)) asked.old asked.new }
        { side(alloc, context, condition, asked) },
        apply: |asked: &mut Chosen, alloc: Global, operation: Operation, operands: &Exprs, values: &Terms, context: &Context|
            requires operands { AreOperands T.ordered context.now operation (exprs_list operands.now) values.now }
            ensures made { IfOk result (λ r. IsOperationResult context.now operation values.now (term_tree r)) }
            ensures fault { IfErr result (λ s. IfFault s (IsUnfitFault T.ordered context.now operation (exprs_of (exprs_list operands.now)) (terms_of values.now))) }
            ensures only_asked { HasOnlyAsked (λ b. kind_of (b.vtable, b.value)) (λ b. questions (b.vtable, b.value)) asked.old asked.new }
        { applied_to_automata::<T>(alloc, operation, operands, values, context, asked) },
        empty: |asked: &mut Chosen, alloc: Global, operand: &Expr, automaton: &Term, context: &Context|
            requires given { IsValueThroughout context.now (tree operand.now) (term_tree automaton.now) }
            requires over { IsOver T.ordered context.now.size (term_tree automaton.now) }
            requires context_operators { AdmitsContext T.ordered context.now }
            ensures emptiness { IfOk result (IsEmptiness context.now (term_tree automaton.now)) }
            ensures fault { IfErr result (λ s. IfFault s (IsValueFault T.ordered context.now IsNoAutomaton (term_tree automaton.now) (pos (tree operand.now)))) }
            ensures only_asked { HasOnlyAsked (λ b. kind_of (b.vtable, b.value)) (λ b. questions (b.vtable, b.value)) asked.old asked.new }
        { where_empty::<T>(alloc, operand, automaton, context, asked) },
    };
    decided::<T, _>(alloc, c, context, &mut asking)
}

// What the expression makes, where that isn't too deep.
#[cycle(evaluation)]
fn evaluated<T: Structure, D: Oracle<T>>(
    alloc: Global,
    e: &Expr,
    context: &Context,
    decider: &mut D,
) -> Result<Term, Stop>
    requires sound { D.sound }
    requires placed { IsWellFormedIn (IsWellFormed (tree e.now)) T.ordered context.now }
    ensures term { IfOk result (λ t. IsTermOf context.now (Gives (tree e.now)) (IsWellFormed (tree e.now)) (term_tree t)) }
    ensures fault { IfErr result (λ s. IfFault s (IsFaultOf T.ordered context.now (Fails (tree e.now)))) }
    ensures leftmost { IfErr result (λ s. IfFault s (IsOfLeftmostOperand T.ordered context.now (tree e.now))) }
    ensures asked { D.reaches decider.old decider.new }
{
    let pos = e.pos();
    shallow::<T, D>(
        alloc,
        pos,
        made::<T, D>(alloc, e, context, decider)?,
        context,
        decider,
    )
}

// What the expression makes, however deep that is.
#[cycle(evaluation)]
fn made<T: Structure, D: Oracle<T>>(
    alloc: Global,
    e: &Expr,
    context: &Context,
    decider: &mut D,
) -> Result<Term, Stop>
    requires sound { D.sound }
    requires placed { IsWellFormedIn (IsWellFormed (tree e.now)) T.ordered context.now }
    ensures term { IfOk result (λ t. IsTermOf context.now (Makes (tree e.now)) (IsWellFormed (tree e.now)) (term_tree t)) }
    ensures fault { IfErr result (λ s. IfFault s (IsFaultOf T.ordered context.now (Breaks (tree e.now)))) }
    ensures leftmost { IfErr result (λ s. IfFault s (IsOfLeftmostOperand T.ordered context.now (tree e.now))) }
    ensures asked { D.reaches decider.old decider.new }
{
    match e {
        Expr::Atoms(_) => simple::<T>(alloc, e, context),
        Expr::Var(_, _) => simple::<T>(alloc, e, context),
        Expr::Tag(_, _) => simple::<T>(alloc, e, context),
        Expr::Tuple(_, parts) => {
            let values = all_evaluated::<T, D>(alloc, parts, context, decider)?;
            composed::<T, D>(alloc, e, values, context, decider)
        }
        Expr::Listed(_, items) => {
            let values = all_evaluated::<T, D>(alloc, items, context, decider)?;
            composed::<T, D>(alloc, e, values, context, decider)
        }
        Expr::Apply(_, _, operands) => {
            let values = all_evaluated::<T, D>(alloc, operands, context, decider)?;
            composed::<T, D>(alloc, e, values, context, decider)
        }
        Expr::Each(_, item, bindings, condition) => Ok(Term::Coll(gathered::<T, D>(
            alloc,
            item,
            bindings.as_slice(),
            0,
            condition,
            context,
            decider,
        )?)),
        Expr::Part(_, whole, n) => {
            let pos = whole.pos();
            part(
                alloc,
                pos,
                evaluated::<T, D>(alloc, whole, context, decider)?,
                *n,
                context,
            )
        }
    }
}

#[cycle(evaluation)]
fn all_evaluated<T: Structure, D: Oracle<T>>(
    alloc: Global,
    es: &Exprs,
    context: &Context,
    decider: &mut D,
) -> Result<Terms, Stop>
    requires sound { D.sound }
    requires placed { IsWellFormedIn (AreWellFormed (exprs_of (exprs_list es.now))) T.ordered context.now }
    ensures terms { IfOk result (λ ts. AreTermsOf context.now (exprs_of (exprs_list es.now)) (AreWellFormed (exprs_of (exprs_list es.now))) ts) }
    ensures fault { IfErr result (λ s. IfFault s (IsFaultOf T.ordered context.now (SomeFails (exprs_of (exprs_list es.now))))) }
    ensures leftmost { IfErr result (λ s. IfFault s (IsOfLeftmost T.ordered context.now (exprs_of (exprs_list es.now)))) }
    ensures asked { D.reaches decider.old decider.new }
{
    let mut values = Terms::new(alloc);
    for e in es.as_slice() {
        values.push(evaluated::<T, D>(alloc, e, context, decider)?)?;
    }
    Ok(values)
}

// The values of both sides of a comparison.
#[cycle(evaluation)]
fn both_evaluated<T: Structure, D: Oracle<T>>(
    alloc: Global,
    e: &Expr,
    f: &Expr,
    context: &Context,
    decider: &mut D,
) -> Result<Sides, Stop>
    requires sound { D.sound }
    requires placed { IsWellFormedIn (AreWellFormed (two (tree e.now) (tree f.now))) T.ordered context.now }
    ensures terms { IfOk result (λ r. AreTermsOf context.now (two (tree e.now) (tree f.now)) (AreWellFormed (two (tree e.now) (tree f.now))) (sides_listed r)) }
    ensures fault { IfErr result (λ s. IfFault s (IsFaultOf T.ordered context.now (SomeFails (two (tree e.now) (tree f.now))))) }
    ensures leftmost { IfErr result (λ s. IfFault s (IsOfLeftmost T.ordered context.now (two (tree e.now) (tree f.now)))) }
    ensures asked { D.reaches decider.old decider.new }
{
    let left = side_evaluated::<T, D>(alloc, e, context, decider)?;
    let right = side_evaluated::<T, D>(alloc, f, context, decider)?;
    Ok(Sides { left, right })
}

// The value of an expression, which isn't copied where a name holds it.
#[cycle(evaluation)]
fn side_evaluated<T: Structure, D: Oracle<T>>(
    alloc: Global,
    e: &Expr,
    context: &Context,
    decider: &mut D,
) -> Result<Shared<Term>, Stop>
    requires sound { D.sound }
    requires placed { IsWellFormedIn (IsWellFormed (tree e.now)) T.ordered context.now }
    ensures term { IfOk result (λ t. IsTermOf context.now (Gives (tree e.now)) (IsWellFormed (tree e.now)) (term_tree t)) }
    ensures fault { IfErr result (λ s. IfFault s (IsFaultOf T.ordered context.now (Fails (tree e.now)))) }
    ensures leftmost { IfErr result (λ s. IfFault s (IsOfLeftmostOperand T.ordered context.now (tree e.now))) }
    ensures asked { D.reaches decider.old decider.new }
{
    match e {
        Expr::Var(_, _) => named_value::<T, D>(alloc, e, context, decider),
        _ => shared(alloc, evaluated::<T, D>(alloc, e, context, decider)?),
    }
}

// The set of an item for the bindings from an index on.
#[cycle(evaluation)]
fn gathered<T: Structure, D: Oracle<T>>(
    alloc: Global,
    item: &Expr,
    bindings: &[Binding],
    from: usize,
    condition: &Cond,
    context: &Context,
    decider: &mut D,
) -> Result<Comps, Stop>
    requires sound { D.sound }
    requires index { from ≤ length bindings.now }
    requires placed { IsWellFormedIn (IsWellFormed (each_from item.now bindings.now from condition.now)) T.ordered context.now }
    ensures term { IfOk result (λ r. IsTermOf context.now (Makes (each_from item.now bindings.now from condition.now)) (IsWellFormed (each_from item.now bindings.now from condition.now)) (coll (comps_of r))) }
    ensures within { IfOk result (λ r. HasMembersOnlyWhereAdmitted context.now (coll (comps_of r))) }
    ensures fault { IfErr result (λ s. IfFault s (IsFaultOf T.ordered context.now (Breaks (each_from item.now bindings.now from condition.now)))) }
    ensures asked { D.reaches decider.old decider.new }
{
    if from == bindings.len() {
        return gathered_here::<T, D>(alloc, item, bindings, condition, context, decider);
    }
    let binding = &bindings[from];
    let elements = evaluated::<T, D>(alloc, &binding.from, context, decider)?;
    let inner = entered::<T, D>(
        alloc,
        &binding.name,
        binding.from.pos(),
        elements,
        context,
        decider,
    )?;
    leave_loop_with_comps(
        gathered_inside::<T, D>(
            alloc,
            item,
            bindings,
            from + 1,
            condition,
            &inner,
            context.size,
            decider,
        ),
        context.size,
    )
}

// The set of the item alone, where the condition holds: no binding is left.
#[cycle(evaluation)]
fn gathered_here<T: Structure, D: Oracle<T>>(
    alloc: Global,
    item: &Expr,
    bindings: &[Binding],
    condition: &Cond,
    context: &Context,
    decider: &mut D,
) -> Result<Comps, Stop>
    requires sound { D.sound }
    requires placed { IsWellFormedIn (IsWellFormed (each_from item.now bindings.now (length bindings.now) condition.now)) T.ordered context.now }
    ensures term { IfOk result (λ r. IsTermOf context.now (Makes (each_from item.now bindings.now (length bindings.now) condition.now)) (IsWellFormed (each_from item.now bindings.now (length bindings.now) condition.now)) (coll (comps_of r))) }
    ensures within { IfOk result (λ r. HasMembersOnlyWhereAdmitted context.now (coll (comps_of r))) }
    ensures fault { IfErr result (λ s. IfFault s (IsFaultOf T.ordered context.now (Breaks (each_from item.now bindings.now (length bindings.now) condition.now)))) }
    ensures asked { D.reaches decider.old decider.new }
{
    let wanted = decided::<T, D>(alloc, condition, context, decider)?;

    // for the prover: a size that is read is less than 2^64, as the levels below a comprehension have to be
    let _size = context.size;
    let Some(here) = decider.keep(alloc, context, &wanted)? else {
        return Ok(Comps::new(alloc));
    };
    singleton_set(
        alloc,
        &here.when,
        evaluated::<T, D>(alloc, item, &here, decider)?,
    )
}

// The sets of all contexts inside, with the levels from `size` on as binders.
#[cycle(evaluation)]
fn gathered_inside<T: Structure, D: Oracle<T>>(
    alloc: Global,
    item: &Expr,
    bindings: &[Binding],
    from: usize,
    condition: &Cond,
    inner: &[Context],
    size: usize,
    decider: &mut D,
) -> Result<Comps, Stop>
    requires sound { D.sound }
    requires index { from ≤ length bindings.now }
    requires sizes { All (λ d. size ≤ d.size) inner.now }
    requires placed { All (IsWellFormedIn (IsWellFormed (each_from item.now bindings.now from condition.now)) T.ordered) inner.now }
    ensures comps { IfOk result (λ r. IsGatheredInside size (Makes (each_from item.now bindings.now from condition.now)) (IsWellFormed (each_from item.now bindings.now from condition.now)) inner.now (comps_of r)) }
    ensures fault { IfErr result (λ s. IfFault s (IsFaultInside T.ordered inner.now (Breaks (each_from item.now bindings.now from condition.now)))) }
    ensures asked { D.reaches decider.old decider.new }
{
    let mut comps = Comps::new(alloc);
    for context in inner {
        let more = gathered::<T, D>(alloc, item, bindings, from, condition, context, decider)?;
        put_outward(alloc, &mut comps, &more, context.size - size)?;
    }
    Ok(comps)
}

#[cycle(evaluation)]
fn decided<T: Structure, D: Oracle<T>>(
    alloc: Global,
    c: &Cond,
    context: &Context,
    decider: &mut D,
) -> Result<Constraint, Stop>
    requires sound { D.sound }
    requires placed { IsWellFormedIn (CondIsWellFormed (cond_tree c.now)) T.ordered context.now }
    ensures constraint { IfOk result (IsConstraintOf context.now (HasTruth (cond_tree c.now)) (CondIsWellFormed (cond_tree c.now))) }
    ensures fault { IfErr result (λ s. IfFault s (IsFaultOf T.ordered context.now (CondFails (cond_tree c.now)))) }
    ensures leftmost { IfErr result (λ s. IfFault s (IsOfLeftmostSide T.ordered context.now (cond_tree c.now))) }
    ensures asked { D.reaches decider.old decider.new }
{
    match c {
        Cond::True => Ok(unit(alloc, true)?),
        Cond::False => Ok(unit(alloc, false)?),
        Cond::Same(e, f) => {
            let values = both_evaluated::<T, D>(alloc, e, f, context, decider)?;
            compared::<T>(alloc, c, &values, context)
        }
        Cond::Differ(e, f) => {
            let values = both_evaluated::<T, D>(alloc, e, f, context, decider)?;
            compared::<T>(alloc, c, &values, context)
        }
        Cond::Below(_, e, f) => {
            let values = both_evaluated::<T, D>(alloc, e, f, context, decider)?;
            compared::<T>(alloc, c, &values, context)
        }
        Cond::Member(e, f) => {
            let values = both_evaluated::<T, D>(alloc, e, f, context, decider)?;
            compared::<T>(alloc, c, &values, context)
        }
        Cond::Included(e, f) => {
            let values = both_evaluated::<T, D>(alloc, e, f, context, decider)?;
            compared::<T>(alloc, c, &values, context)
        }
        Cond::Empty(e) => wordless::<T, D>(
            alloc,
            e,
            evaluated::<T, D>(alloc, e, context, decider)?,
            context,
            decider,
        ),
        Cond::Not(negated) => {
            let held = decided::<T, D>(alloc, negated, context, decider)?;
            Ok(negate(alloc, &held)?)
        }
        Cond::All(parts) => all_decided::<T, D>(alloc, parts, true, context, decider),
        Cond::Any(parts) => all_decided::<T, D>(alloc, parts, false, context, decider),
        Cond::Exists(binding, body) => quantified::<T, D>(
            alloc, binding, body, true, context, decider,
        ),
        Cond::Every(binding, body) => quantified::<T, D>(
            alloc, binding, body, false, context, decider,
        ),
    }
}

// All of the conditions, or one of them.
#[cycle(evaluation)]
fn all_decided<T: Structure, D: Oracle<T>>(
    alloc: Global,
    parts: &Conds,
    every: bool,
    context: &Context,
    decider: &mut D,
) -> Result<Constraint, Stop>
    requires sound { D.sound }
    requires placed { IsWellFormedIn (CondIsWellFormed (joint every (conds_of (conds_list parts.now)))) T.ordered context.now }
    ensures constraint { IfOk result (IsConstraintOf context.now (HasTruth (joint every (conds_of (conds_list parts.now)))) (CondIsWellFormed (joint every (conds_of (conds_list parts.now))))) }
    ensures fault { IfErr result (λ s. IfFault s (IsFaultOf T.ordered context.now (CondFails (joint every (conds_of (conds_list parts.now)))))) }
    ensures asked { D.reaches decider.old decider.new }
{
    let mut found = unit(alloc, every)?;
    for part in parts.as_slice() {
        let one = decided::<T, D>(alloc, part, context, decider)?;
        found = joined(alloc, every, &found, &one)?;
    }
    Ok(found)
}

// For some member of a set, or for every one.
#[cycle(evaluation)]
fn quantified<T: Structure, D: Oracle<T>>(
    alloc: Global,
    binding: &Binding,
    body: &Cond,
    some: bool,
    context: &Context,
    decider: &mut D,
) -> Result<Constraint, Stop>
    requires sound { D.sound }
    requires placed { IsWellFormedIn (CondIsWellFormed (quantifier some (binding_tree binding.now) (cond_tree body.now))) T.ordered context.now }
    ensures constraint { IfOk result (IsConstraintOf context.now (HasTruth (quantifier some (binding_tree binding.now) (cond_tree body.now))) (CondIsWellFormed (quantifier some (binding_tree binding.now) (cond_tree body.now)))) }
    ensures fault { IfErr result (λ s. IfFault s (IsFaultOf T.ordered context.now (CondFails (quantifier some (binding_tree binding.now) (cond_tree body.now))))) }
    ensures asked { D.reaches decider.old decider.new }
{
    let elements = evaluated::<T, D>(alloc, &binding.from, context, decider)?;
    let inner = entered::<T, D>(
        alloc,
        &binding.name,
        binding.from.pos(),
        elements,
        context,
        decider,
    )?;
    leave_loop_with_constraint(
        alloc,
        found_inside::<T, D>(alloc, body, some, &inner, context.size, decider),
        some,
        context.size,
    )
}

// Where the condition has the wanted truth somewhere inside.
#[cycle(evaluation)]
fn found_inside<T: Structure, D: Oracle<T>>(
    alloc: Global,
    body: &Cond,
    wanted: bool,
    inner: &[Context],
    size: usize,
    decider: &mut D,
) -> Result<Constraint, Stop>
    requires sound { D.sound }
    requires sizes { All (λ d. size ≤ d.size) inner.now }
    requires placed { All (IsWellFormedIn (CondIsWellFormed (cond_tree body.now)) T.ordered) inner.now }
    ensures constraint { IfOk result (IsFoundInside size (HasTruth (cond_tree body.now)) wanted (CondIsWellFormed (cond_tree body.now)) inner.now) }
    ensures fault { IfErr result (λ s. IfFault s (IsFaultInside T.ordered inner.now (CondFails (cond_tree body.now)))) }
    ensures asked { D.reaches decider.old decider.new }
{
    let mut found = Constraint::new(alloc);
    for context in inner {
        let held = decided::<T, D>(alloc, body, context, decider)?;
        found = found_too::<T>(alloc, found, held, wanted, context, size)?;
    }
    Ok(found)
}
