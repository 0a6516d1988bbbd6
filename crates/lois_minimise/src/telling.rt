//! What moves lead to from pairs that are told apart.

ghost use Rattle.std.specs.Prelude.{◌≡◌, ℕ, Bool, List, map, slice_get, Some, IfOk, OnOk, IsTrue};
ghost use Rattle.lois_base.specs.Data.{CompD, coll, comps_of};
ghost use Rattle.lois_base.specs.Fits.{ItemsFit};
ghost use Rattle.lois_base.specs.Over.{CompIsOver, ItemsAreOver};
ghost use Rattle.lois_base.specs.Tree.{tree, comp_of};
ghost use Rattle.lois_base.specs.Validity.{AdmitsItems};
ghost use Rattle.lois_terms.specs.Shapes.{shape_of, item_shape};
ghost use Rattle.lois_minimise.specs.Classes.{AddsTold, AreTold};

use crate::indexed::indexed_membership;
use lois_algebra::push_comp;
use lois_automata::pair_parts;
use lois_base::{Comp, Comps, NoMemory, Structure, Term};
use lois_constraint::meet;
use lois_terms::{Index, index_by_shape, shape};
use std::alloc::Global;

/// What pairs lead to from members of the set `held`, as far as it is in the set `left`: of what has no shape of an item of
/// `left` nothing is made.
pub fn told_pairs<T: Structure>(
    alloc: Global,
    moves: &Comps,
    held: &Comps,
    left: &Comps,
    size: usize,
) -> Result<Comps, NoMemory>
    requires over { ItemsAreOver T.ordered size (comps_of moves.now) }
    requires held { ItemsAreOver T.ordered size (comps_of held.now) }
    ensures members { IfOk result (λ r. AreTold size (coll (comps_of moves.now)) (coll (comps_of held.now)) (coll (comps_of left.now)) (coll (comps_of r))) }
    ensures levels { IfOk result (λ r. ItemsFit size (comps_of r)) }
    ensures operators { IfOk result (λ r. (o : Bool) → AdmitsItems o (comps_of moves.now) → AdmitsItems o (comps_of held.now) → AdmitsItems o (comps_of r)) }
{
    let index = index_by_shape(alloc, held.as_slice())?;
    let wanted = index_by_shape(alloc, left.as_slice())?;
    let mut told = Comps::new(alloc);
    for comp in moves.as_slice() {
        add_told::<T>(alloc, &mut told, comp, held, &index, &wanted, size)?;
    }
    Ok(told)
}

fn add_told<T: Structure>(
    alloc: Global,
    told: &mut Comps,
    comp: &Comp,
    held: &Comps,
    index: &Index,
    wanted: &Index,
    size: usize,
) -> Result<(), NoMemory>
    requires over { CompIsOver T.ordered size (comp_of comp.now) }
    requires held { ItemsAreOver T.ordered size (comps_of held.now) }
    requires shapes { index.now ≡ map item_shape held.now }
    ensures { OnOk result ((left : List CompD) → wanted.now ≡ map item_shape left → AddsTold size (comp_of comp.now) (coll (comps_of held.now)) (coll (comps_of left)) (comps_of told.old) (comps_of told.new)) }
{
    let Some((from, to)) = pair_parts(&comp.item) else {
        return Ok(());
    };
    if !has_shape(index, from) {
        return Ok(());
    }
    if !has_shape(wanted, to) {
        return Ok(());
    }
    let found = indexed_membership::<T>(alloc, from, held, index, size, comp.binders)?;
    if found.len() == 0 {
        return Ok(());
    }
    let guard = meet(alloc, &comp.guard, &found)?;
    let item = to.copy(alloc)?;
    push_comp(
        told,
        Comp {
            binders: comp.binders,
            guard,
            item,
        },
    )
}

// Whether the index has the term's shape: no other set has its value as a member.
fn has_shape(index: &Index, t: &Term) -> bool
    ensures { (i : ℕ) → slice_get index.now i ≡ Some (shape_of (tree t.now)) → IsTrue result }
{
    index.positions(shape(t)).len() > 0
}
