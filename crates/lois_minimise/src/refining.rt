//! Which states words don't tell apart.

ghost use Rattle.std.specs.Prelude.{◌≡◌, Bool, List, length, IfOk};
ghost use Rattle.lois_base.specs.Atom.{Atom};
ghost use Rattle.lois_base.specs.Data.{coll, comps_of};
ghost use Rattle.lois_base.specs.Fits.{ItemsFit};
ghost use Rattle.lois_base.specs.Over.{ItemsAreOver};
ghost use Rattle.lois_base.specs.Validity.{AdmitsItems, ItemsHaveBoundedWidths};
ghost use Rattle.lois_base.specs.Values.{point};
ghost use Rattle.lois_automata.specs.FiveSets.{automaton_of};
ghost use Rattle.lois_minimise.specs.Classes.{IsCompleteDeterministicWithReach, AreIndistinguishable, ArePairsAcross, AreSplitPairs};

use crate::moving::backward;
use crate::ordering::{both_ways, pairs_in_order};
use crate::partitioning::{Partition, partition_by};
use crate::telling::told_pairs;
use lois_algebra::union;
use lois_automata::{FiveSets, pairs};
use lois_base::{Comps, NoMemory, Structure, Term};
use std::alloc::Global;

/// The pairs of reachable states from which the same words are accepted. First these are the pairs of nodes that are both
/// final or both not; each round takes those away from which a letter leads to a pair that the round before took away.
/// Of a pair and the same pair turned one alone is kept, in the order of shapes, until the end.
pub fn indistinguishable_pairs<T: Structure>(
    alloc: Global,
    sets: FiveSets<'_>,
    nodes: &Comps,
    size: usize,
) -> Result<Comps, NoMemory>
    requires steps { ItemsAreOver T.ordered size (comps_of sets.steps.now) }
    requires accepting { ItemsAreOver T.ordered size (comps_of sets.accepting.now) }
    requires nodes { ItemsAreOver T.ordered size (comps_of nodes.now) }
    ensures alike { IfOk result (λ r. (c : List Atom) → length c ≡ size → IsCompleteDeterministicWithReach (automaton_of sets.entry c) (point (coll (comps_of nodes.now)) c) → AreIndistinguishable (automaton_of sets.entry c) (point (coll (comps_of r)) c)) }
    ensures levels { IfOk result (λ r. ItemsFit size (comps_of r)) }
    ensures operators { IfOk result (λ r. (o : Bool) → AdmitsItems o (comps_of sets.entry.steps.now) → AdmitsItems o (comps_of sets.entry.accepting.now) → AdmitsItems o (comps_of nodes.now) → AdmitsItems o (comps_of r)) }
    ensures widths { IfOk result (λ r. ItemsHaveBoundedWidths (comps_of nodes.now) → ItemsHaveBoundedWidths (comps_of r)) }
{
    let moves = backward::<T>(alloc, sets.steps, size)?;
    let split = split_pairs::<T>(alloc, nodes, sets.accepting, size)?;
    let inside = pairs_in_order(alloc, &split.inside)?;
    let outside = pairs_in_order(alloc, &split.outside)?;
    let mut shares = Partition { inside, outside };
    let mut count: usize = 0;
    'refining: while shares.inside.len() > 0 {
        if count == usize::MAX {
            return Err(NoMemory);
        }
        count += 1;
        let told = told_pairs::<T>(alloc, &moves, &shares.inside, &shares.outside, size)?;
        let next = partition_by::<T>(alloc, &shares.outside, &told, size)?;
        shares = next;
    }
    both_ways(alloc, &shares.outside)
}

// The pairs of nodes of which one is in the set and the other isn't, and the other pairs of nodes.
fn split_pairs<T: Structure>(
    alloc: Global,
    nodes: &Comps,
    set: &Comps,
    size: usize,
) -> Result<Partition, NoMemory>
    requires nodes { ItemsAreOver T.ordered size (comps_of nodes.now) }
    requires set { ItemsAreOver T.ordered size (comps_of set.now) }
    ensures pairs { IfOk result (λ r. (c : List Atom) → length c ≡ size → AreSplitPairs (point (coll (comps_of nodes.now)) c) (point (coll (comps_of set.now)) c) (point (coll (comps_of r.inside)) c) (point (coll (comps_of r.outside)) c)) }
    ensures levels { IfOk result (λ r. ItemsFit size (comps_of r.inside) × ItemsFit size (comps_of r.outside)) }
    ensures operators { IfOk result (λ r. (o : Bool) → AdmitsItems o (comps_of nodes.now) → AdmitsItems o (comps_of set.now) → AdmitsItems o (comps_of r.inside) × AdmitsItems o (comps_of r.outside)) }
    ensures widths { IfOk result (λ r. ItemsHaveBoundedWidths (comps_of nodes.now) → ItemsHaveBoundedWidths (comps_of r.outside)) }
{
    let shares = partition_by::<T>(alloc, nodes, set, size)?;
    let inside = pairs_across(
        alloc,
        &shares.inside,
        &shares.outside,
        &shares.outside,
        &shares.inside,
        size,
    )?;
    let outside = pairs_across(
        alloc,
        &shares.inside,
        &shares.inside,
        &shares.outside,
        &shares.outside,
        size,
    )?;
    Ok(Partition { inside, outside })
}

// The pairs of a member of the first set and one of the second, and those of a member of the third and one of the fourth.
fn pairs_across(
    alloc: Global,
    first: &Comps,
    second: &Comps,
    third: &Comps,
    fourth: &Comps,
    size: usize,
) -> Result<Comps, NoMemory>
    requires first { ItemsFit size (comps_of first.now) }
    requires second { ItemsFit size (comps_of second.now) }
    requires third { ItemsFit size (comps_of third.now) }
    requires fourth { ItemsFit size (comps_of fourth.now) }
    ensures members { IfOk result (λ r. ArePairsAcross size (coll (comps_of first.now)) (coll (comps_of second.now)) (coll (comps_of third.now)) (coll (comps_of fourth.now)) (coll (comps_of r))) }
    ensures levels { IfOk result (λ r. ItemsFit size (comps_of r)) }
    ensures operators { IfOk result (λ r. (o : Bool) → AdmitsItems o (comps_of first.now) → AdmitsItems o (comps_of second.now) → AdmitsItems o (comps_of third.now) → AdmitsItems o (comps_of fourth.now) → AdmitsItems o (comps_of r)) }
    ensures widths { IfOk result (λ r. ItemsHaveBoundedWidths (comps_of first.now) → ItemsHaveBoundedWidths (comps_of second.now) → ItemsHaveBoundedWidths (comps_of third.now) → ItemsHaveBoundedWidths (comps_of fourth.now) → ItemsHaveBoundedWidths (comps_of r)) }
{
    let one = pairs(alloc, first, second, size)?;
    let other = pairs(alloc, third, fourth, size)?;
    let Term::Coll(both) = union(alloc, &one, &other)? else {
        unreachable!()
    };
    Ok(both)
}
