//! Constraints narrowed to one cube that can be met.

ghost use Rattle.std.specs.Prelude.{◌≡◌, List, [], ◌∷◌, length, IfOk, IfSome, IsNone, IsTrue};
ghost use Rattle.lois_base.specs.Atom.{Atom};
ghost use Rattle.lois_base.specs.Fits.{ConstraintFits};
ghost use Rattle.lois_base.specs.Truth.{holds, sampled};
ghost use Rattle.lois_deciders.specs.Satisfiability.{ConstraintIsSatisfiable};
ghost use Rattle.lois_deciders.specs.OnlyAsked.{HasOnlyAsked};
ghost use Rattle.lois_shortest_word.specs.SymbolicStates.{IsSatisfiableCube};

use lois_base::{Constraint, Decider, NoMemory, Numbers};
use lois_constraint::singleton;
use lois_deciders::{Chosen, SampledConstraint};
use std::alloc::Global;

/// One cube of the constraint, with `size` numbers at which it holds, or `None` where it holds at no choice of atoms.
pub fn satisfiable_cube(
    alloc: Global,
    wanted: &Constraint,
    size: usize,
    chosen: &mut Chosen,
) -> Result<Option<SampledConstraint>, NoMemory>
    requires { ConstraintFits size wanted.now }
    ensures some { IfOk result (λ o. IfSome o (λ m. IsSatisfiableCube size wanted.now m.constraint m.sample)) }
    ensures none { IfOk result (λ o. IsNone o → ConstraintIsSatisfiable size wanted.now → ⊥) }
    ensures only_asked { HasOnlyAsked (λ b. (⟦<dyn Decider as Decider>⟧ b.vtable).kind_of b.value) (λ b. (⟦<dyn Decider as Decider>⟧ b.vtable).questions b.value) chosen.old chosen.new }
{
    let Some(found) = chosen.ask(alloc, wanted, size)? else {
        return Ok(None);
    };
    let sample = Numbers::from_vec(found);
    let constraint = cube_at(alloc, wanted, sample.as_slice())?;
    Ok(Some(SampledConstraint { constraint, sample }))
}

// The first cube that holds at the sample.
fn cube_at(alloc: Global, wanted: &Constraint, sample: &[u64]) -> Result<Constraint, NoMemory>
    requires { ConstraintFits (length sample.now) wanted.now }
    ensures truth { IfOk result (λ r. holds (sampled sample.now) r ≡ holds (sampled sample.now) wanted.now) }
    ensures narrower { IfOk result (λ r. (c : List Atom) → IsTrue (holds c r) → IsTrue (holds c wanted.now)) }
    ensures levels { IfOk result (ConstraintFits (length sample.now)) }
{
    for cube in wanted.as_slice() {
        if cube.at(sample) {
            return singleton(alloc, cube);
        }
    }
    Ok(Constraint::new(alloc))
}
