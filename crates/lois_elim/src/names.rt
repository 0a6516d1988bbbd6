//! The levels that a formula's levels stand for.

ghost use Rattle.std.specs.Prelude.{◌≡◌, ℕ, ◌+◌, ◌<◌, ◌≤◌, List, [], ◌∷◌, ◌++◌, length, IfOk};
ghost use Rattle.lois_base.specs.Atom.{Atom};
ghost use Rattle.lois_base.specs.Fits.{LitFits};
ghost use Rattle.lois_base.specs.Truth.{atom_at, lit_holds};
ghost use Rattle.lois_elim.specs.Names.{named_atoms, AreNames};

use lois_base::{Lit, NoMemory};
use std::alloc::Global;

/// The level that a level of the formula names.
pub(crate) fn level_named(level: usize, free: usize, bound: &[usize]) -> usize
    requires { level < free + length bound.now }
    ensures atom { (c : List Atom) → free ≤ length c → atom_at (named_atoms free bound.now c) level ≡ atom_at c result }
    ensures levels { (n : ℕ) → AreNames n free bound.now → result < n }
{
    if level < free {
        level
    } else {
        bound[level - free]
    }
}

/// The literal over the levels that its own name.
pub(crate) fn literal_named(lit: Lit, free: usize, bound: &[usize]) -> Lit
    requires { LitFits (free + length bound.now) lit }
    ensures truth { (c : List Atom) → free ≤ length c → lit_holds c result ≡ lit_holds (named_atoms free bound.now c) lit }
    ensures levels { (n : ℕ) → AreNames n free bound.now → LitFits n result }
    ensures operator { result.op ≡ lit.op }
{
    Lit {
        op: lit.op,
        left: level_named(lit.left, free, bound),
        right: level_named(lit.right, free, bound),
    }
}

/// The names with one more behind.
pub(crate) fn with_name(alloc: Global, bound: &[usize], name: usize) -> Result<Vec<usize>, NoMemory>
    ensures { IfOk result (λ r. r.items ≡ bound.now ++ name ∷ []) }
{
    let mut names = Vec::from_slice(alloc, bound)?;
    names.push(name)?;
    Ok(names)
}
