//! What is asked of values: that they are sets, atoms, and not too deep.

ghost use Rattle.std.specs.Prelude.{◌≡◌, ◌↔◌, List, length, IfOk, OnOk, IfErr, IsTrue};
ghost use Rattle.lois_base.specs.Atom.{Atom};
ghost use Rattle.lois_base.specs.Fits.{ConstraintFits};
ghost use Rattle.lois_base.specs.Over.{IsOver};
ghost use Rattle.lois_base.specs.Tree.{tree};
ghost use Rattle.lois_base.specs.Truth.{holds};
ghost use Rattle.lois_base.specs.Validity.{AdmitsConstraint};
ghost use Rattle.lois_base.specs.Values.{point, IsDeeper};
ghost use Rattle.lois_meaning.specs.Store.{depth_limit, IsShallow};
ghost use Rattle.lois_terms.specs.Collections.{IsColl};
ghost use Rattle.lois_context.specs.Choices.{IsAdmitted};
ghost use Rattle.lois_eval.specs.Checks.{IsSetFault, IsDepthFault};
ghost use Rattle.lois_eval.specs.Throughout.{IfFault};

use crate::faults::{fault, fault_under};
use crate::oracle::Oracle;
use lois_algebra::depth_formula;
use lois_answers::FaultKind;
use lois_base::limits::GREATEST_DEPTH;
use lois_base::{Constraint, NoMemory, Structure, Term};
use lois_context::Context;
use lois_elim::quantifier_free;
use lois_meaning::Stop;
use lois_script::Pos;
use lois_terms::is_within_depth;
use std::alloc::Global;

/// Errors: a fault at the place where the term is no set.
pub(crate) fn check_set(alloc: Global, pos: Pos, term: &Term, context: &Context) -> Result<(), Stop>
    ensures set { OnOk result (IsColl (tree term.now)) }
    ensures fault { IfErr result (λ s. IfFault s (IsSetFault context.now (tree term.now) pos.offset)) }
{
    match term {
        Term::Coll(_) => Ok(()),
        _ => Err(fault_under(alloc, pos, FaultKind::NotASet, &context.sample)),
    }
}

/// The term again. Errors: a fault at the place where its value is too deep at some choice that the context admits.
pub(crate) fn shallow<T: Structure, D: Oracle<T>>(
    alloc: Global,
    pos: Pos,
    term: Term,
    context: &Context,
    decider: &mut D,
) -> Result<Term, Stop>
    requires sound { D.sound }
    requires over { IsOver T.ordered context.now.size (tree term) }
    ensures same { IfOk result (λ r. tree r ≡ tree term) }
    ensures shallow { OnOk result ((c : List Atom) → IsAdmitted c context.now → IsShallow (point (tree term) c)) }
    ensures fault { IfErr result (λ s. IfFault s (IsDepthFault T.ordered context.now (tree term) pos.offset)) }
    ensures asked { D.reaches decider.old decider.new }
{
    check_depth::<T, D>(alloc, pos, &term, context, decider)?;
    Ok(term)
}

/// Errors: a fault at the place where the value of the term is too deep at some choice that the context admits.
pub(crate) fn check_depth<T: Structure, D: Oracle<T>>(
    alloc: Global,
    pos: Pos,
    term: &Term,
    context: &Context,
    decider: &mut D,
) -> Result<(), Stop>
    requires sound { D.sound }
    requires over { IsOver T.ordered context.now.size (tree term.now) }
    ensures shallow { OnOk result ((c : List Atom) → IsAdmitted c context.now → IsShallow (point (tree term.now) c)) }
    ensures fault { IfErr result (λ s. IfFault s (IsDepthFault T.ordered context.now (tree term.now) pos.offset)) }
    ensures asked { D.reaches decider.old decider.new }
{
    if is_within_depth(term, GREATEST_DEPTH) {
        return Ok(());
    }
    let deep = too_deep::<T>(alloc, term, context.size)?;
    match decider.sample(alloc, &context.when, &deep, context.size)? {
        Some(sample) => Err(fault(alloc, pos, FaultKind::DepthLimit, sample)),
        None => Ok(()),
    }
}

/// Where the value of the term, which uses the first `size` levels, is deeper than values may be. Errors: `NoMemory`.
pub fn too_deep<T: Structure>(
    alloc: Global,
    term: &Term,
    size: usize,
) -> Result<Constraint, NoMemory>
    requires over { IsOver T.ordered size (tree term.now) }
    ensures truth { IfOk result (λ r. (c : List Atom) → length c ≡ size → IsTrue (holds c r) ↔ IsDeeper (point (tree term.now) c) depth_limit) }
    ensures levels { IfOk result (ConstraintFits size) }
    ensures operators { IfOk result (AdmitsConstraint T.ordered) }
{
    let formula = depth_formula(alloc, term, GREATEST_DEPTH, size)?;
    quantifier_free::<T>(alloc, &formula, size)
}
