//! Levels that a cube's equations identify.

ghost use Rattle.std.specs.Prelude.{◌≡◌, ℕ, ◌<◌, [], ◌∷◌, map, length, get_or, IfOk, OnOk, IsTrue, IsFalse, slice_index};
ghost use Rattle.std.specs.List.{All};
ghost use Rattle.smallvec.specs.SmallVec.{SmallVec as Items};
ghost use Rattle.lois_base.specs.Fits.{CubeFits};
ghost use Rattle.lois_base.specs.declared.guards.Op.TheVariants.{Ne};
ghost use Rattle.lois_constraint.specs.Substitution.{put_level};
ghost use Rattle.lois_deciders.specs.Labels.{IsLabelling, IsUnmet, IsKeptApart, AreClasses, Joins};

use lois_base::{Cube, NoMemory, Op};
use smallvec::SmallVec;
use std::alloc::Global;
use std::mem;

// The levels with one label. Most are one or two, which need no allocation.
type Class = SmallVec<usize, 2>;

fn own_labels(alloc: Global, size: usize) -> Result<Vec<usize>, NoMemory>
    ensures count { IfOk result (λ r. length r.items ≡ size) }
    ensures own { IfOk result (λ r. (i : ℕ) → i < size → slice_index r.items i ≡ i) }
{
    let mut labels = Vec::with_capacity(alloc, size)?;
    for level in 0..size {
        labels.push_reserved(level);
    }
    Ok(labels)
}

// Each level in a class of its own.
fn own_classes(alloc: Global, size: usize) -> Result<Vec<Class>, NoMemory>
    ensures count { IfOk result (λ r. length r.items ≡ size) }
    ensures own { IfOk result (λ r. (i : ℕ) (d : Items ℕ) → i < size → (get_or r.items i d).items ≡ i ∷ []) }
{
    let mut classes = Vec::with_capacity(alloc, size)?;
    for level in 0..size {
        let mut class = SmallVec::new(alloc);
        class.push(level)?;
        classes.push_reserved(class);
    }
    Ok(classes)
}

// The levels labelled `old` get the label `new`.
fn move_class(
    alloc: Global,
    labels: &mut Vec<usize>,
    classes: &mut Vec<Class>,
    old: usize,
    new: usize,
) -> Result<(), NoMemory>
    requires classes { AreClasses labels.old.items classes.old.items }
    requires old { old < length labels.old.items }
    requires new { new < length labels.old.items }
    requires apart { old ≡ new → ⊥ }
    ensures labels { OnOk result (labels.new.items ≡ map (put_level old new) labels.old.items) }
    ensures classes { OnOk result (AreClasses labels.new.items classes.new.items) }
{
    let levels = mem::replace(&mut classes[old], SmallVec::new(alloc));
    for level in levels.as_slice() {
        labels[*level] = new;
    }
    classes[new].extend_from_slice(levels.as_slice())?;
    Ok(())
}

// One label for both levels, which is that of the larger class.
fn join(
    alloc: Global,
    labels: &mut Vec<usize>,
    classes: &mut Vec<Class>,
    left: usize,
    right: usize,
) -> Result<(), NoMemory>
    requires classes { AreClasses labels.old.items classes.old.items }
    requires left { left < length labels.old.items }
    requires right { right < length labels.old.items }
    ensures joined { OnOk result (Joins left right labels.old.items labels.new.items) }
    ensures classes { OnOk result (AreClasses labels.new.items classes.new.items) }
{
    let first = labels[left];
    let second = labels[right];
    if first == second {
        return Ok(());
    }
    if classes[first].len() < classes[second].len() {
        move_class(alloc, labels, classes, first, second)?;
    } else {
        move_class(alloc, labels, classes, second, first)?;
    }
    Ok(())
}

/// One of the levels for each level, the same for those that the cube's equations identify.
pub fn label_levels(alloc: Global, cube: &Cube, size: usize) -> Result<Vec<usize>, NoMemory>
    requires { CubeFits size cube.now }
    ensures { IfOk result (λ r. IsLabelling size cube.now (length cube.now) r.items) }
{
    let mut labels = own_labels(alloc, size)?;
    let mut classes = own_classes(alloc, size)?;
    for lit in cube.as_slice() {
        if lit.op == Op::Eq {
            join(alloc, &mut labels, &mut classes, lit.left, lit.right)?;
        }
    }
    Ok(labels)
}

/// Whether some `!=` stands between levels with one label.
pub fn has_conflicting_disequality(cube: &Cube, labels: &[usize]) -> bool
    requires levels { CubeFits (length labels.now) cube.now }
    requires labelling { IsLabelling (length labels.now) cube.now (length cube.now) labels.now }
    ensures unmet { IsTrue result → IsUnmet (length labels.now) cube.now }
    ensures apart { IsFalse result → All (IsKeptApart labels.now) cube.now }
{
    for lit in cube.as_slice() {
        if lit.op == Op::Ne && labels[lit.left] == labels[lit.right] {
            return true;
        }
    }
    false
}
