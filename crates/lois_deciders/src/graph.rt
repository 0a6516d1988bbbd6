//! The decider by identified and ordered levels.

ghost use Rattle.std.specs.Prelude.{◌≡◌, List, [], IfOk, IfSome, IfNone, IsTrue, IsFalse};
ghost use Rattle.lois_base.specs.Atom.{Atom};
ghost use Rattle.lois_base.specs.Fits.{CubeFits};
ghost use Rattle.lois_base.specs.Theory.{IsSampleOf};
ghost use Rattle.lois_base.specs.Truth.{cube_holds};
ghost use Rattle.lois_base.specs.Validity.{IsStrictCube};
ghost use Rattle.lois_base.specs.declared.deciding.Kind.{Kind};
ghost use Rattle.lois_deciders.specs.Labels.{IsUnmet};

use crate::labels::{has_conflicting_disequality, label_levels};
use crate::ranks::rank_labels;
use crate::strict::{is_strict, strict_part, tightest_part};
use lois_base::{Cube, Decider, Kind, NoMemory};
use lois_constraint::tighten;
use std::alloc::Global;

/// Takes a part without `<=`, identifies the levels that are equal there, and orders the rest by `<`. The part is met
/// unless a `!=` stands between identified levels, or the `<` go round.
#[derive(Drop)]
pub struct GraphDecider {
    asked: u64,
}

impl GraphDecider {
    /// A decider that was asked nothing yet.
    pub fn new() -> Self
        ensures { result.asked ≡ 0 }
    {
        GraphDecider { asked: 0 }
    }
}

// The rank of each level's label.
fn ranked_sample(alloc: Global, cube: &Cube, size: usize) -> Result<Option<Vec<u64>>, NoMemory>
    requires levels { CubeFits size cube.now }
    requires strict { IsStrictCube cube.now }
    ensures found { IfOk result (λ o. IfSome o (λ s. IsSampleOf size cube.now s.items)) }
    ensures none { IfOk result (λ o. IfNone o (IsUnmet size cube.now)) }
{
    let labels = label_levels(alloc, cube, size)?;
    if has_conflicting_disequality(cube, &labels) {
        return Ok(None);
    }
    let Some(ranks) = rank_labels(alloc, cube, &labels)? else {
        return Ok(None);
    };
    let mut sample = Vec::with_capacity(alloc, labels.len())?;
    for label in &labels {
        sample.push_reserved(ranks[*label]);
    }
    Ok(Some(sample))
}

// Whether the cube is found to hold nowhere, by one look at all its literals.
fn is_contradictory(alloc: Global, cube: &Cube) -> Result<bool, NoMemory>
    ensures { IfOk result (λ b. IsTrue b → (e : List Atom) → IsFalse (cube_holds e cube.now)) }
{
    match tighten(alloc, cube)? {
        Some(_) => Ok(false),
        None => Ok(true),
    }
}

// The levels as numbers: a sample of the cube without literals.
fn level_numbers(alloc: Global, size: usize) -> Result<Vec<u64>, NoMemory>
    ensures { IfOk result (λ s. IsSampleOf size [] s.items) }
{
    let mut numbers = Vec::with_capacity(alloc, size)?;
    for level in 0..size {
        numbers.push(level as u64)?;
    }
    Ok(numbers)
}

// Of a `<=` one of its two parts is enough, and mostly all may be `<`.
fn sample(alloc: Global, cube: &Cube, size: usize) -> Result<Option<Vec<u64>>, NoMemory>
    requires { CubeFits size cube.now }
    ensures found { IfOk result (λ o. IfSome o (λ s. IsSampleOf size cube.now s.items)) }
    ensures none { IfOk result (λ o. IfNone o (IsUnmet size cube.now)) }
{
    if cube.len() == 0 {
        return Ok(Some(level_numbers(alloc, size)?));
    }
    if is_strict(cube) {
        return ranked_sample(alloc, cube, size);
    }
    let tightest = tightest_part(alloc, cube)?;
    if let Some(sample) = ranked_sample(alloc, &tightest, size)? {
        return Ok(Some(sample));
    }
    if is_contradictory(alloc, cube)? {
        return Ok(None);
    }
    let part = strict_part(alloc, cube)?;
    ranked_sample(alloc, &part, size)
}

impl Decider for GraphDecider {
    ghost kind_of = { λ _. Kind.Graph };

    ghost questions = { λ d. d.asked };

    fn name(&self) -> Kind {
        Kind::Graph
    }

    fn satisfiable(
        &mut self,
        alloc: Global,
        cube: &Cube,
        size: usize,
    ) -> Result<Option<Vec<u64>>, NoMemory> {
        self.asked = self.asked.saturating_add(1);
        sample(alloc, cube, size)
    }

    fn asked(&self) -> u64 {
        self.asked
    }
}
