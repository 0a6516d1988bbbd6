//! Whether two results say the same.

ghost use Rattle.std.specs.Prelude.{◌≡◌, ◌↔◌, length, IfOk, IsTrue};
ghost use Rattle.lois_answers.specs.Sound.{IsSound};
ghost use Rattle.lois_deciders.specs.OnlyAsked.{HasOnlyAsked};
ghost use Rattle.lois_same.specs.ContrastText.{ContrastFits};
ghost use Rattle.lois_cases.specs.declared.partitions.Partition.TheVariants.{Whole};
ghost use Rattle.lois_same.specs.Contrasts.{ContrastIsStrict};
ghost use Rattle.lois_same.specs.Likenesses.{ArePartitions, IsLikeness, IfDiffer};
ghost use Rattle.lois_same.specs.Rows.{IsCasesContrastOrNone};

use crate::contrasts::Contrast;
use crate::rows::compare_cases;
use lois_answers::Results;
use lois_base::{Decider, Names, NoMemory, Structure};
use lois_cases::{Partition, check_partition};
use lois_deciders::Chosen;
use lois_equality::EqualityAtoms;
use lois_order::OrderAtoms;
use std::alloc::Global;

/// What is found where two results are compared.
#[derive(Drop)]
pub enum Likeness {
    Same,
    // the one has atoms of equality, the other of an order
    Structure,
    // the parameters differ, or stand in another order
    Parameters,
    Differ(Contrast),
    // the cases of the first are no partition; those of the second aren't
    First(Partition),
    Second(Partition),
}

/// Whether at each choice of the parameters the cases of the two that hold there have the same lines: equal names and the same values,
/// one by one. Both have to be partitions, of one structure and with the same parameters, in this order. Errors: `NoMemory`, also where
/// a level would pass the greatest usize.
pub fn compare_results(
    alloc: Global,
    first: &Results,
    second: &Results,
    chosen: &mut Chosen,
) -> Result<Likeness, NoMemory>
    requires first { IsSound first.now }
    requires second { IsSound second.now }
    ensures likeness { IfOk result (IsLikeness first.now second.now) }
    ensures levels { IfOk result (IfDiffer ContrastFits) }
    ensures strict { IfOk result (IfDiffer ContrastIsStrict) }

    // whatever is answered
    ensures only_asked { HasOnlyAsked (λ b. (⟦<dyn Decider as Decider>⟧ b.vtable).kind_of b.value) (λ b. (⟦<dyn Decider as Decider>⟧ b.vtable).questions b.value) chosen.old chosen.new }
{
    let ours = check_partition(alloc, &first.cases, first.parameters.len(), chosen)?;
    if !is_whole(&ours) {
        return Ok(Likeness::First(ours));
    }
    let theirs = check_partition(alloc, &second.cases, second.parameters.len(), chosen)?;
    if !is_whole(&theirs) {
        return Ok(Likeness::Second(theirs));
    }
    compare_partitions(alloc, first, second, chosen)
}

// The same of partitions.
fn compare_partitions(
    alloc: Global,
    first: &Results,
    second: &Results,
    chosen: &mut Chosen,
) -> Result<Likeness, NoMemory>
    requires first { IsSound first.now }
    requires second { IsSound second.now }
    requires partitions { ArePartitions first.now second.now }
    ensures likeness { IfOk result (IsLikeness first.now second.now) }
    ensures levels { IfOk result (IfDiffer ContrastFits) }
    ensures strict { IfOk result (IfDiffer ContrastIsStrict) }
    ensures only_asked { HasOnlyAsked (λ b. (⟦<dyn Decider as Decider>⟧ b.vtable).kind_of b.value) (λ b. (⟦<dyn Decider as Decider>⟧ b.vtable).questions b.value) chosen.old chosen.new }
{
    if first.order != second.order {
        return Ok(Likeness::Structure);
    }
    if !are_equal(&first.parameters, &second.parameters) {
        return Ok(Likeness::Parameters);
    }
    match find_contrast(alloc, first, second, chosen)? {
        Some(contrast) => Ok(Likeness::Differ(contrast)),
        None => Ok(Likeness::Same),
    }
}

fn is_whole(parted: &Partition) -> bool
    ensures { IsTrue result ↔ (parted.now ≡ Whole) }
{
    matches!(parted, Partition::Whole)
}

// Whether the names are equal, in the same order.
fn are_equal(names: &Names, others: &Names) -> bool
    ensures { IsTrue result ↔ (names.now ≡ others.now) }
{
    let ours = names.as_slice();
    let theirs = others.as_slice();
    if ours.len() != theirs.len() {
        return false;
    }
    for (i, name) in ours.iter().enumerate() {
        if *name != theirs[i] {
            return false;
        }
    }
    true
}

// How two cases differ, over atoms of the structure of both.
fn find_contrast(
    alloc: Global,
    first: &Results,
    second: &Results,
    chosen: &mut Chosen,
) -> Result<Option<Contrast>, NoMemory>
    requires first { IsSound first.now }
    requires second { IsSound second.now }
    requires structure { first.now.order ≡ second.now.order }
    requires parameters { first.now.parameters ≡ second.now.parameters }
    ensures contrast { IfOk result (IsCasesContrastOrNone (length first.now.parameters) first.now.cases second.now.cases) }
    ensures only_asked { HasOnlyAsked (λ b. (⟦<dyn Decider as Decider>⟧ b.vtable).kind_of b.value) (λ b. (⟦<dyn Decider as Decider>⟧ b.vtable).questions b.value) chosen.old chosen.new }
{
    if first.order {
        find_contrast_over::<OrderAtoms>(alloc, first, second, chosen)
    } else {
        find_contrast_over::<EqualityAtoms>(alloc, first, second, chosen)
    }
}

fn find_contrast_over<T: Structure>(
    alloc: Global,
    first: &Results,
    second: &Results,
    chosen: &mut Chosen,
) -> Result<Option<Contrast>, NoMemory>
    requires first { IsSound first.now }
    requires second { IsSound second.now }
    requires atoms { T.ordered ≡ first.now.order }
    requires structure { first.now.order ≡ second.now.order }
    requires parameters { first.now.parameters ≡ second.now.parameters }
    ensures contrast { IfOk result (IsCasesContrastOrNone (length first.now.parameters) first.now.cases second.now.cases) }
    ensures only_asked { HasOnlyAsked (λ b. (⟦<dyn Decider as Decider>⟧ b.vtable).kind_of b.value) (λ b. (⟦<dyn Decider as Decider>⟧ b.vtable).questions b.value) chosen.old chosen.new }
{
    let size = first.parameters.len();
    compare_cases::<T>(alloc, &first.cases, &second.cases, size, chosen)
}
