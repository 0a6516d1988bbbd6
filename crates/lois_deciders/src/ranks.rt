//! Ranks for labels: a number for each, greater than those of the labels below it.

ghost use Rattle.std.specs.Prelude.{◌≡◌, ℕ, ◌+◌, ◌≤◌, length, IfOk, OnOk, IfSome, IfNone, slice_index};
ghost use Rattle.std.specs.List.{count_by};
ghost use Rattle.lois_base.specs.Fits.{CubeFits};
ghost use Rattle.lois_deciders.specs.Labels.{IsLabelling, IsUnmet};
ghost use Rattle.lois_deciders.specs.Ranks.{AreAbove, is_step_to, occurrences, IsReleased, AreUnheld, IsFullRanking};

use lois_base::{Cube, NoMemory, Op};
use smallvec::SmallVec;
use std::alloc::Global;

// Most labels have few others above them, which need no allocation.
type Above = SmallVec<usize, 2>;

// For each label the labels that a `<` sets above it.
fn labels_above(alloc: Global, cube: &Cube, labels: &[usize]) -> Result<Vec<Above>, NoMemory>
    requires levels { CubeFits (length labels.now) cube.now }
    requires labelling { IsLabelling (length labels.now) cube.now (length cube.now) labels.now }
    ensures { IfOk result (λ r. AreAbove labels.now cube.now r.items) }
{
    let mut above = Vec::with_capacity(alloc, labels.len())?;
    for _level in labels {
        above.push_reserved(SmallVec::new(alloc));
    }
    'literals: for lit in cube.as_slice() {
        if lit.op == Op::Lt {
            let lower = labels[lit.left];
            above[lower].push(labels[lit.right])?;
        }
    }
    Ok(above)
}

// For each label how many `<` set another one below it.
fn steps_to(alloc: Global, cube: &Cube, labels: &[usize]) -> Result<Vec<usize>, NoMemory>
    requires levels { CubeFits (length labels.now) cube.now }
    requires labelling { IsLabelling (length labels.now) cube.now (length cube.now) labels.now }
    ensures count { IfOk result (λ r. length r.items ≡ length labels.now) }
    ensures steps { IfOk result (λ r. (y : ℕ) → slice_index r.items y ≡ count_by (is_step_to labels.now y) cube.now) }
{
    let mut steps = vec![in alloc; 0usize; labels.len()]?;
    for lit in cube.as_slice() {
        if lit.op == Op::Lt {
            steps[labels[lit.right]] += 1;
        }
    }
    Ok(steps)
}

// The labels that nothing holds back.
fn unheld_labels(alloc: Global, steps: &[usize]) -> Result<Vec<usize>, NoMemory>
    ensures { IfOk result (λ r. AreUnheld steps.now r.items) }
{
    let mut unheld = Vec::with_capacity(alloc, steps.len())?;
    for (label, count) in steps.iter().enumerate() {
        if *count == 0 {
            unheld.push(label)?;
        }
    }
    Ok(unheld)
}

// One step less to each of the labels above one that has its rank.
fn release(steps: &mut Vec<usize>, unheld: &mut Vec<usize>, above: &[usize]) -> Result<(), NoMemory>
    requires { (y : ℕ) → occurrences y above.now ≤ slice_index steps.old.items y }
    ensures steps { OnOk result ((y : ℕ) → slice_index steps.new.items y + occurrences y above.now ≡ slice_index steps.old.items y) }
    ensures unheld { OnOk result (IsReleased steps.old.items steps.new.items unheld.old.items unheld.new.items) }
{
    for label in above {
        let left = steps[*label] - 1;
        steps[*label] = left;
        if left == 0 {
            unheld.push(*label)?;
        }
    }
    Ok(())
}

/// A rank for each label, or `None` where the `<` between labels go round.
pub fn rank_labels(
    alloc: Global,
    cube: &Cube,
    labels: &[usize],
) -> Result<Option<Vec<u64>>, NoMemory>
    requires levels { CubeFits (length labels.now) cube.now }
    requires labelling { IsLabelling (length labels.now) cube.now (length cube.now) labels.now }
    ensures found { IfOk result (λ o. IfSome o (λ r. IsFullRanking cube.now labels.now r.items)) }
    ensures none { IfOk result (λ o. IfNone o (IsUnmet (length labels.now) cube.now)) }
{
    let above = labels_above(alloc, cube, labels)?;
    let mut steps = steps_to(alloc, cube, labels)?;
    let mut unheld = unheld_labels(alloc, &steps)?;
    let mut ranks = vec![in alloc; 0u64; labels.len()]?;
    for rank in 0..labels.len() {
        let Some(label) = unheld.pop() else {
            return Ok(None);
        };
        ranks[label] = rank as u64;
        release(&mut steps, &mut unheld, &above[label])?;
    }
    Ok(Some(ranks))
}
