//! Questions that are asked again: a cube in one order, and a number of levels.

ghost use Rattle.std.specs.Prelude.{◌≡◌, List, IfOk};
ghost use Rattle.lois_base.specs.Atom.{Atom};
ghost use Rattle.lois_base.specs.Truth.{lit_holds, cube_holds};

use lois_base::{Cube, Lit, NoMemory, Op};
use std::alloc::Global;

/// A cube and a number of levels. The literals are turned and sorted, and none stands twice.
#[derive(PartialEq, Eq, Hash, Drop)]
pub struct Question {
    pub literals: Vec<Lit>,
    pub size: usize,
}

// `=` and `!=` with the lower level on the left.
fn turned(lit: Lit) -> Lit
    ensures { (c : List Atom) → lit_holds c result ≡ lit_holds c lit }
{
    if matches!(lit.op, Op::Eq | Op::Ne) && lit.right < lit.left {
        return Lit {
            op: lit.op,
            left: lit.right,
            right: lit.left,
        };
    }
    lit
}

fn turned_literals(alloc: Global, cube: &Cube) -> Result<Vec<Lit>, NoMemory>
    ensures { IfOk result (λ r. (c : List Atom) → cube_holds c r.items ≡ cube_holds c cube.now) }
{
    let mut literals = Vec::with_capacity(alloc, cube.len())?;
    for lit in cube.as_slice() {
        literals.push(turned(*lit))?;
    }
    Ok(literals)
}

// Of equal literals that stand side by side the first.
fn distinct(alloc: Global, literals: &[Lit]) -> Result<Vec<Lit>, NoMemory>
    ensures { IfOk result (λ r. (c : List Atom) → cube_holds c r.items ≡ cube_holds c literals.now) }
{
    let mut distinct = Vec::with_capacity(alloc, literals.len())?;
    for index in 0..literals.len() {
        if index == 0 || literals[index] != literals[index - 1] {
            distinct.push(literals[index])?;
        }
    }
    Ok(distinct)
}

impl Question {
    /// The question about a cube, in the order of a normalised cube. Errors: `NoMemory`.
    pub fn new(alloc: Global, cube: &Cube, size: usize) -> Result<Self, NoMemory>
        ensures truth { IfOk result (λ q. (c : List Atom) → cube_holds c q.literals.items ≡ cube_holds c cube.now) }
        ensures size { IfOk result (λ q. q.size ≡ size) }
    {
        let mut literals = turned_literals(alloc, cube)?;
        literals.sort_unstable_by_key(|lit| (lit.left, lit.right, lit.op));
        Ok(Question {
            literals: distinct(alloc, &literals)?,
            size,
        })
    }
}
