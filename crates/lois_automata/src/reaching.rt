//! What moves lead to.

ghost use Rattle.std.specs.Prelude.{◌≡◌, ℕ, ◌+◌, Bool, IfOk, List};
ghost use Rattle.lois_base.specs.Atom.{Atom};
ghost use Rattle.lois_base.specs.Data.{coll, comps_of};
ghost use Rattle.lois_base.specs.Fits.{ConstraintFits, Fits, ItemsFit};
ghost use Rattle.lois_base.specs.Tree.{tree};
ghost use Rattle.lois_base.specs.Validity.{AdmitsConstraint, AdmitsTerm, AdmitsItems, HasBoundedWidths};
ghost use Rattle.lois_base.specs.Values.{point};
ghost use Rattle.lois_meaning.specs.Kinds.{IsSetOf};
ghost use Rattle.lois_terms.specs.Collections.{IsColl};
ghost use Rattle.lois_automata.specs.Reachability.{graph_at, IsReached};
ghost use Rattle.lois_automata.specs.Throughout.{HoldsThroughout};

use crate::frontier::FrontierRound;
use crate::joining::{first_family, set_of_family};
use lois_base::{Comps, Constraint, NoMemory, Term};
use lois_order::OrderAtoms;
use lois_rounds::{Family, grow};
use std::alloc::Global;

/// The members of the set `nodes` that moves lead to from those in the set `start`, over nodes alone. A move is a pair in the
/// set `moves`. Said of the choices that `under` admits. Errors: `NoMemory`, also where a level would pass the greatest usize.
pub fn reachable_set(
    alloc: Global,
    nodes: &Comps,
    start: &Term,
    moves: &Comps,
    under: &Constraint,
    size: usize,
) -> Result<Term, NoMemory>
    requires nodes { ItemsFit size (comps_of nodes.now) }
    requires start { Fits size (tree start.now) }
    requires start_set { IsColl (tree start.now) }
    requires moves { ItemsFit size (comps_of moves.now) }
    requires under { ConstraintFits size under.now }
    ensures members { IfOk result (λ r. HoldsThroughout size under.now (λ c. IsSetOf (point (tree r) c) (IsReached (graph_at (coll (comps_of nodes.now)) (tree start.now) (coll (comps_of moves.now)) c)))) }
    ensures set { IfOk result (λ r. IsColl (tree r)) }
    ensures levels { IfOk result (λ r. Fits size (tree r)) }
    ensures operators { IfOk result (λ r. (o : Bool) → AdmitsItems o (comps_of nodes.now) → AdmitsTerm o (tree start.now) → AdmitsItems o (comps_of moves.now) → AdmitsConstraint o under.now → AdmitsTerm o (tree r)) }
    ensures widths { IfOk result (λ r. HasBoundedWidths (coll (comps_of nodes.now)) → HasBoundedWidths (tree r)) }
{
    let first = first_family::<OrderAtoms>(alloc, nodes, start, under, size)?;
    let mut round = FrontierRound {
        size,
        under: under.copy(alloc)?,
        nodes: nodes.copy(alloc)?,
        moves: moves.copy(alloc)?,
        known: Family::new(alloc),
        frontier: Family::new(alloc),
    };
    let family = grow(alloc, &mut round, first)?;
    set_of_family(alloc, nodes, &family)
}
