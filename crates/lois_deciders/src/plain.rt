//! The decider by elimination.

ghost use Rattle.std.specs.Prelude.{◌≡◌, IfOk, IfSome, IfNone};
ghost use Rattle.lois_base.specs.Fits.{CubeFits};
ghost use Rattle.lois_base.specs.Theory.{IsSampleOf};
ghost use Rattle.lois_base.specs.declared.deciding.Kind.{Kind};
ghost use Rattle.lois_deciders.specs.Labels.{IsUnmet};

use crate::places::with_one_more;
use crate::stages::eliminate_levels;
use lois_base::{Cube, Decider, Kind, NoMemory};
use std::alloc::Global;

/// Eliminates the levels one after another, and then puts an atom at each level, from the first.
#[derive(Drop)]
pub struct PlainDecider {
    asked: u64,
}

impl PlainDecider {
    /// A decider that was asked nothing yet.
    pub fn new() -> Self
        ensures { result.asked ≡ 0 }
    {
        PlainDecider { asked: 0 }
    }
}

fn sample(alloc: Global, cube: &Cube, size: usize) -> Result<Option<Vec<u64>>, NoMemory>
    requires { CubeFits size cube.now }
    ensures found { IfOk result (λ o. IfSome o (λ s. IsSampleOf size cube.now s.items)) }
    ensures none { IfOk result (λ o. IfNone o (IsUnmet size cube.now)) }
{
    let stages = eliminate_levels(alloc, cube, size)?;
    if !stages[size].at(&[]) {
        return Ok(None);
    }
    let mut sample = Vec::new(alloc);
    for level in 0..size {
        let Some(longer) = with_one_more(alloc, &sample, &stages[size - level - 1])? else {
            return Ok(None);
        };
        sample = longer;
    }
    Ok(Some(sample))
}

impl Decider for PlainDecider {
    ghost kind_of = { λ _. Kind.Plain };

    ghost questions = { λ d. d.asked };

    fn name(&self) -> Kind {
        Kind::Plain
    }

    fn satisfiable(
        &mut self,
        alloc: Global,
        cube: &Cube,
        size: usize,
    ) -> Result<Option<Vec<u64>>, NoMemory> {
        self.asked = self.asked.saturating_add(1);
        sample(alloc, cube, size)
    }

    fn asked(&self) -> u64 {
        self.asked
    }
}
