//! Constraints with their levels under names.

ghost use Rattle.std.specs.Prelude.{◌≡◌, IfOk, length, map};
ghost use Rattle.lois_base.specs.Fits.{LitFits, CubeFits, ConstraintFits};
ghost use Rattle.lois_relate.specs.Named.{named_lit};
ghost use Rattle.lois_minimise.specs.Ties.{named_constraint};

use lois_base::{Constraint, Cube, Lit, NoMemory};
use std::alloc::Global;

fn named_literal(lit: Lit, names: &[usize]) -> Lit
    requires { LitFits (length names.now) lit }
    ensures { result ≡ named_lit names.now lit }
{
    Lit {
        op: lit.op,
        left: names[lit.left],
        right: names[lit.right],
    }
}

fn named_cube(alloc: Global, cube: &Cube, names: &[usize]) -> Result<Cube, NoMemory>
    requires { CubeFits (length names.now) cube.now }
    ensures { IfOk result (λ r. r ≡ map (named_lit names.now) cube.now) }
{
    let mut named = Cube::new(alloc);
    for lit in cube.as_slice() {
        named.push(named_literal(*lit, names))?;
    }
    Ok(named)
}

/// The constraint with each level's name in its place.
pub fn under_names(alloc: Global, c: &Constraint, names: &[usize]) -> Result<Constraint, NoMemory>
    requires { ConstraintFits (length names.now) c.now }
    ensures { IfOk result (λ r. r ≡ named_constraint names.now c.now) }
{
    let mut named = Constraint::new(alloc);
    for cube in c.as_slice() {
        named.push(named_cube(alloc, cube, names)?)?;
    }
    Ok(named)
}
