//! Single forms of expressions and conditions, whose operands have their values.

ghost use Rattle.std.specs.Prelude.{◌≡◌, [], ◌∷◌, Bool, IfOk, IfErr};
ghost use Rattle.lois_base.specs.Fits.{Fits};
ghost use Rattle.lois_base.specs.Over.{IsOver};
ghost use Rattle.lois_base.specs.Tree.{tree as term_tree};
ghost use Rattle.lois_base.specs.Validity.{AdmitsTerm, HasBoundedWidths};
ghost use Rattle.lois_algebra.specs.Sets.{HasAllAtoms};
ghost use Rattle.lois_terms.specs.Collections.{IsColl};
ghost use Rattle.lois_meaning.specs.Expressions.{Gives, Makes, HasTruth};
ghost use Rattle.lois_meaning.specs.Faults.{Breaks, Fails, CondFails, IsNoAutomaton};
ghost use Rattle.lois_script.specs.Tree.{pos};
ghost use Rattle.lois_script.specs.View.{tree, cond_tree};
ghost use Rattle.lois_context.specs.Choices.{AdmitsContext};
ghost use Rattle.lois_eval.specs.Automata.{IsEmptiness, IsValueFault};
ghost use Rattle.lois_eval.specs.Evaluated.{IsTermOf, AreTermsOf, IsConstraintOf};
ghost use Rattle.lois_eval.specs.Forms.{parts_of, sides_of, IsName, IsSimple, IsComposed, IsComparisonCond};
ghost use Rattle.lois_eval.specs.LeftToRight.{IsOfLeftmostOperand, IsOfLeftmostSide};
ghost use Rattle.lois_eval.specs.Sides.{sides_listed};
ghost use Rattle.lois_eval.specs.WellFormed.{IsWellFormedIn, IsWellFormed, CondIsWellFormed};
ghost use Rattle.lois_eval.specs.Throughout.{IsFaultOf, IfFault, IsValueThroughout};

use crate::checks::{check_depth, check_set};
use crate::making::{look_up, set_of, share_named};
use crate::operations::applied;
use crate::oracle::Oracle;
use crate::relations::{below, equal, included, unequal, within};
use lois_algebra::all_atoms;
use lois_base::{Constraint, NoMemory, Structure, Term, Terms};
use lois_context::{Context, Shared};
use lois_meaning::Stop;
use lois_script::{Cond, Expr};
use std::alloc::Global;

// The greatest usize can't be a binder's level.
fn atoms(alloc: Global, size: usize) -> Result<Term, NoMemory>
    ensures members { IfOk result (λ r. HasAllAtoms size (term_tree r)) }
    ensures set { IfOk result (λ r. IsColl (term_tree r)) }
    ensures levels { IfOk result (λ r. Fits size (term_tree r)) }
    ensures operators { IfOk result (λ r. (ordered : Bool) → AdmitsTerm ordered (term_tree r)) }
    ensures widths { IfOk result (λ r. HasBoundedWidths (term_tree r)) }
{
    if size == usize::MAX {
        return Err(NoMemory);
    }
    all_atoms(alloc, size)
}

/// What an expression without parts makes.
pub(crate) fn simple<T: Structure>(alloc: Global, e: &Expr, context: &Context) -> Result<Term, Stop>
    requires form { IsSimple (tree e.now) }
    requires placed { IsWellFormedIn (IsWellFormed (tree e.now)) T.ordered context.now }
    ensures term { IfOk result (λ t. IsTermOf context.now (Makes (tree e.now)) (IsWellFormed (tree e.now)) (term_tree t)) }
    ensures fault { IfErr result (λ s. IfFault s (IsFaultOf T.ordered context.now (Breaks (tree e.now)))) }
{
    match e {
        Expr::Atoms(_) => Ok(atoms(alloc, context.size)?),
        Expr::Var(_, name) => Ok(look_up(alloc, name, context)?),
        Expr::Tag(_, name) => Ok(Term::Tag(name.copy(alloc)?)),
        _ => unreachable!(),
    }
}

/// What a tuple, a list or an operation makes of operands with these values.
pub(crate) fn composed<T: Structure, D: Oracle<T>>(
    alloc: Global,
    e: &Expr,
    values: Terms,
    context: &Context,
    decider: &mut D,
) -> Result<Term, Stop>
    requires sound { D.sound }
    requires form { IsComposed (tree e.now) }
    requires placed { IsWellFormedIn (IsWellFormed (tree e.now)) T.ordered context.now }
    requires values { AreTermsOf context.now (parts_of (tree e.now)) (IsWellFormed (tree e.now)) values }
    ensures term { IfOk result (λ t. IsTermOf context.now (Makes (tree e.now)) (IsWellFormed (tree e.now)) (term_tree t)) }
    ensures fault { IfErr result (λ s. IfFault s (IsFaultOf T.ordered context.now (Breaks (tree e.now)))) }
    ensures leftmost { IfErr result (λ s. IfFault s (IsOfLeftmostOperand T.ordered context.now (tree e.now))) }
    ensures asked { D.reaches decider.old decider.new }
{
    match e {
        Expr::Tuple(_, _) => Ok(Term::Tup(values)),
        Expr::Listed(_, _) => {
            // for the prover: a size that is read is less than 2^64, as the levels below a comprehension have to be
            let _size = context.size;
            Ok(set_of(alloc, &values)?)
        }
        Expr::Apply(_, operation, operands) => {
            applied::<T, D>(alloc, *operation, operands, &values, context, decider)
        }
        _ => unreachable!(),
    }
}

/// The values of the sides of a comparison. A value that a name holds is shared with the context.
#[derive(Drop)]
pub(crate) struct Sides {
    pub(crate) left: Shared<Term>,
    pub(crate) right: Shared<Term>,
}

pub(crate) fn shared(alloc: Global, term: Term) -> Result<Shared<Term>, Stop>
    ensures same { IfOk result (λ r. term_tree r ≡ term_tree term) }
    ensures fault { IfErr result (λ s. IfFault s (λ f. ⊥)) }
{
    Ok(Shared::new(alloc, term)?)
}

/// What a name holds, where that isn't too deep: shared with the context. Errors: a fault at the place of the name.
pub(crate) fn named_value<T: Structure, D: Oracle<T>>(
    alloc: Global,
    e: &Expr,
    context: &Context,
    decider: &mut D,
) -> Result<Shared<Term>, Stop>
    requires sound { D.sound }
    requires form { IsName (tree e.now) }
    requires placed { IsWellFormedIn (IsWellFormed (tree e.now)) T.ordered context.now }
    ensures term { IfOk result (λ t. IsTermOf context.now (Gives (tree e.now)) (IsWellFormed (tree e.now)) (term_tree t)) }
    ensures fault { IfErr result (λ s. IfFault s (IsFaultOf T.ordered context.now (Fails (tree e.now)))) }
    ensures asked { D.reaches decider.old decider.new }
{
    let held = held_by::<T>(alloc, e, context)?;
    check_depth::<T, D>(alloc, e.pos(), held.get(), context, decider)?;
    Ok(held)
}

fn held_by<T: Structure>(alloc: Global, e: &Expr, context: &Context) -> Result<Shared<Term>, Stop>
    requires form { IsName (tree e.now) }
    requires placed { IsWellFormedIn (IsWellFormed (tree e.now)) T.ordered context.now }
    ensures term { IfOk result (λ t. IsTermOf context.now (Makes (tree e.now)) (IsWellFormed (tree e.now)) (term_tree t)) }
    ensures fault { IfErr result (λ s. IfFault s (λ f. ⊥)) }
{
    match e {
        Expr::Var(_, name) => Ok(share_named(alloc, name, context)?),
        _ => unreachable!(),
    }
}

/// Where a comparison is true whose sides have these values. Errors: a fault at a side that is unfit for it.
pub(crate) fn compared<T: Structure>(
    alloc: Global,
    c: &Cond,
    values: &Sides,
    context: &Context,
) -> Result<Constraint, Stop>
    requires form { IsComparisonCond (cond_tree c.now) }
    requires placed { IsWellFormedIn (CondIsWellFormed (cond_tree c.now)) T.ordered context.now }
    requires values { AreTermsOf context.now (sides_of (cond_tree c.now)) (CondIsWellFormed (cond_tree c.now)) (sides_listed values.now) }
    ensures constraint { IfOk result (IsConstraintOf context.now (HasTruth (cond_tree c.now)) (CondIsWellFormed (cond_tree c.now))) }
    ensures fault { IfErr result (λ s. IfFault s (IsFaultOf T.ordered context.now (CondFails (cond_tree c.now)))) }
    ensures leftmost { IfErr result (λ s. IfFault s (IsOfLeftmostSide T.ordered context.now (cond_tree c.now))) }
{
    compared_with::<T>(alloc, c, values.left.get(), values.right.get(), context)
}

// The same of the two values by themselves.
fn compared_with<T: Structure>(
    alloc: Global,
    c: &Cond,
    s: &Term,
    t: &Term,
    context: &Context,
) -> Result<Constraint, Stop>
    requires form { IsComparisonCond (cond_tree c.now) }
    requires values { AreTermsOf context.now (sides_of (cond_tree c.now)) (CondIsWellFormed (cond_tree c.now)) (term_tree s.now ∷ term_tree t.now ∷ []) }
    requires left { IsOver T.ordered context.now.size (term_tree s.now) }
    requires right { IsOver T.ordered context.now.size (term_tree t.now) }
    requires context_operators { AdmitsContext T.ordered context.now }
    ensures constraint { IfOk result (IsConstraintOf context.now (HasTruth (cond_tree c.now)) (CondIsWellFormed (cond_tree c.now))) }
    ensures fault { IfErr result (λ s. IfFault s (IsFaultOf T.ordered context.now (CondFails (cond_tree c.now)))) }
    ensures leftmost { IfErr result (λ s. IfFault s (IsOfLeftmostSide T.ordered context.now (cond_tree c.now))) }
{
    match c {
        Cond::Same(_, _) => Ok(equal::<T>(alloc, s, t, context.size)?),
        Cond::Differ(_, _) => Ok(unequal::<T>(alloc, s, t, context.size)?),
        Cond::Below(_, e, f) => below(alloc, s, e.pos(), t, f.pos(), context),
        Cond::Member(_, f) => {
            check_set(alloc, f.pos(), t, context)?;
            Ok(within::<T>(alloc, s, t, context.size)?)
        }
        Cond::Included(e, f) => {
            check_set(alloc, e.pos(), s, context)?;
            check_set(alloc, f.pos(), t, context)?;
            Ok(included::<T>(alloc, s, t, context.size)?)
        }
        _ => unreachable!(),
    }
}

/// Where the automaton that is the operand's value accepts no word. Errors: a fault at the operand where that is none.
pub(crate) fn wordless<T: Structure, D: Oracle<T>>(
    alloc: Global,
    operand: &Expr,
    automaton: Term,
    context: &Context,
    decider: &mut D,
) -> Result<Constraint, Stop>
    requires sound { D.sound }
    requires given { IsValueThroughout context.now (tree operand.now) (term_tree automaton) }
    requires over { IsOver T.ordered context.now.size (term_tree automaton) }
    requires context_operators { AdmitsContext T.ordered context.now }
    ensures emptiness { IfOk result (IsEmptiness context.now (term_tree automaton)) }
    ensures fault { IfErr result (λ s. IfFault s (IsValueFault T.ordered context.now IsNoAutomaton (term_tree automaton) (pos (tree operand.now)))) }
    ensures asked { D.reaches decider.old decider.new }
{
    decider.empty(alloc, operand, &automaton, context)
}
