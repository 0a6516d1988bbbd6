//! Which registers are full, and at which levels their atoms stand.

ghost use Rattle.std.specs.Prelude.{◌≡◌, ◌≤◌, ◌∷◌, Some, length, slice_index_or, nat_eq, if◌then◌else◌, None, IfOk};
ghost use Rattle.std.specs.List.{list_any};
ghost use Rattle.lois_base.specs.Tree.{tree};
ghost use Rattle.lois_registers.specs.Placed.{full, contents_from, content_term, configuration_term, placements, placed, placed_lit, placed_guard};
ghost use Rattle.lois_registers.specs.Runs.{stored_from};

use crate::Stores;
use lois_base::{Constraint, Cube, Lit, Name, NoMemory, Term, Terms};
use std::alloc::Global;
use std::marker::Model;

/// The contents of the registers: a level, or nothing. The full ones have the levels from 0 on, in order.
#[derive(Drop)]
pub struct Placement {
    contents: Vec<Option<usize>>,
    levels: usize,
}

impl Model for Placement {
    ghost use Rattle.std.specs.Prelude.{ℕ, List, Option, ◌≡◌};
    ghost use Rattle.lois_registers.specs.Placed.{full};

    ghost Value = { List (Option ℕ) };

    ghost view = { λ p. p.contents.items };

    ghost invariant = { λ p. p.levels ≡ full p.contents.items };
}

impl Placement {
    /// The contents, register by register.
    pub fn contents(&self) -> &[Option<usize>]
        ensures same { result.now ≡ self.now }
    {
        &self.contents
    }

    /// How many registers are full.
    pub fn levels(&self) -> usize
        ensures counted { result ≡ full self.now }
    {
        self.levels
    }
}

/// The placement in which the registers whose bits are set in the pattern are full.
fn placement_of(alloc: Global, pattern: usize, registers: u32) -> Result<Placement, NoMemory>
    ensures { IfOk result (λ p. p ≡ contents_from 0 registers pattern) }
{
    let mut contents = Vec::new(alloc);
    let mut levels = 0;
    let mut bits = pattern;
    for _register in 0..registers {
        if bits % 2 == 1 {
            contents.push(Some(levels))?;
            levels += 1;
        } else {
            contents.push(None)?;
        }
        bits /= 2;
    }
    Ok(Placement { contents, levels })
}

/// The placements of so many registers, one for each choice of the full ones.
pub fn all_placements(alloc: Global, registers: u32) -> Result<Vec<Placement>, NoMemory>
    requires few { registers ≤ 4 }
    ensures { IfOk result (λ ps. ps.items ≡ placements registers) }
{
    let mut all = Vec::new(alloc);
    for pattern in 0..1usize << registers {
        all.push(placement_of(alloc, pattern, registers)?)?;
    }
    Ok(all)
}

/// The term of a register's content: the atom at its level, or the tag `'none`.
fn content(alloc: Global, level: Option<usize>) -> Result<Term, NoMemory>
    ensures { IfOk result (λ t. tree t ≡ content_term level) }
{
    match level {
        Some(level) => Ok(Term::Var(level)),
        None => Ok(Term::Tag(Name::from_bytes(alloc, b"none")?)),
    }
}

/// The tuple of the state's tag and the contents.
pub fn configuration(
    alloc: Global,
    state: &Name,
    contents: &[Option<usize>],
) -> Result<Term, NoMemory>
    ensures { IfOk result (λ t. tree t ≡ configuration_term state.now contents.now) }
{
    let mut parts = Terms::new(alloc);
    parts.push(Term::Tag(state.copy(alloc)?))?;
    for level in contents {
        parts.push(content(alloc, *level)?)?;
    }
    Ok(Term::Tup(parts))
}

fn content_after(
    content: Option<usize>,
    register: u32,
    stores: &Stores,
    letter: usize,
) -> Option<usize>
    ensures { result ≡ (if list_any (nat_eq register) stores.now then Some letter else content) }
{
    if stores.as_slice().contains(&register) {
        Some(letter)
    } else {
        content
    }
}

/// The contents behind a step that stores the letter, which stands at the level `letter`.
pub fn stored(
    alloc: Global,
    contents: &[Option<usize>],
    stores: &Stores,
    letter: usize,
) -> Result<Vec<Option<usize>>, NoMemory>
    requires few { length contents.now ≤ 4 }
    ensures { IfOk result (λ r. r.items ≡ stored_from 1 stores.now letter contents.now) }
{
    let mut after = Vec::new(alloc);
    let mut register = 1;
    for level in contents {
        let new = content_after(*level, register, stores, letter);
        after.push(new)?;
        register += 1;
    }
    Ok(after)
}

/// The literals at the levels of their operands, the letter first and then the registers; `None` where a literal names an
/// empty register.
fn placed_cube(
    alloc: Global,
    guard: &Cube,
    operands: &[Option<usize>],
) -> Result<Option<Cube>, NoMemory>
    ensures { IfOk result (λ r. r ≡ placed operands.now guard.now) }
{
    let mut cube = Cube::new(alloc);
    for lit in guard.as_slice() {
        let Some(lit) = placed_lit(*lit, operands) else {
            return Ok(None);
        };
        cube.push(lit)?;
    }
    Ok(Some(cube))
}

fn placed_lit(lit: Lit, operands: &[Option<usize>]) -> Option<Lit>
    ensures { result ≡ placed_lit operands.now lit }
{
    match (operand(operands, lit.left), operand(operands, lit.right)) {
        (Some(left), Some(right)) => Some(Lit {
            op: lit.op,
            left,
            right,
        }),
        _ => None,
    }
}

fn operand(operands: &[Option<usize>], level: usize) -> Option<usize>
    ensures { result ≡ slice_index_or operands.now level None }
{
    if level < operands.len() {
        operands[level]
    } else {
        None
    }
}

/// The guard at the levels of its operands: the letter, which stands at the level `letter`, and the registers. It has no cube
/// where a literal names an empty register.
pub fn place_guard(
    alloc: Global,
    guard: &Cube,
    contents: &[Option<usize>],
    letter: usize,
) -> Result<Constraint, NoMemory>
    ensures { IfOk result (λ r. r ≡ placed_guard (Some letter ∷ contents.now) guard.now) }
{
    let mut operands = Vec::new(alloc);
    operands.push(Some(letter))?;
    operands.extend_from_slice(contents)?;
    let mut placed = Constraint::new(alloc);
    if let Some(cube) = placed_cube(alloc, guard, &operands)? {
        placed.push(cube)?;
    }
    Ok(placed)
}
