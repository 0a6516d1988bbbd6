//! The text of constraints.

ghost use Rattle.std.specs.Prelude.{◌≡◌, ◌↔◌, [], ◌∷◌, ◌++◌, OnOk, IsTrue, map, codes};
ghost use Rattle.lois_answers.specs.TermText.{op_text, literal_text, cube_text, constraint_text, guard_text, joined};

use crate::pieces::{append, append_operand, append_separator};
use lois_base::{Constraint, Cube, Lit, Names, NoMemory, Op};
use std::alloc::Global;

// No answer has `<=`.
fn op_words(op: Op) -> &'static [u8]
    ensures { result.now ≡ op_text op }
{
    match op {
        Op::Eq => b"=",
        Op::Ne => b"!=",
        Op::Lt => b"<",
        Op::AtMost => b"<=",
    }
}

fn append_literal(
    alloc: Global,
    text: &mut Vec<u8>,
    parameters: &Names,
    literal: Lit,
) -> Result<(), NoMemory>
    ensures { OnOk result (text.new.items ≡ text.old.items ++ literal_text parameters.now literal) }
{
    append_operand(alloc, text, parameters, literal.left)?;
    append(text, op_words(literal.op))?;
    append_operand(alloc, text, parameters, literal.right)
}

fn append_literals(
    alloc: Global,
    text: &mut Vec<u8>,
    parameters: &Names,
    literals: &[Lit],
) -> Result<(), NoMemory>
    ensures { OnOk result (text.new.items ≡ text.old.items ++ joined (codes " and ") (map (literal_text parameters.now) literals.now)) }
{
    for (index, literal) in literals.iter().enumerate() {
        append_separator(text, index, b" and ")?;
        append_literal(alloc, text, parameters, *literal)?;
    }
    Ok(())
}

fn append_cube(
    alloc: Global,
    text: &mut Vec<u8>,
    parameters: &Names,
    cube: &Cube,
) -> Result<(), NoMemory>
    ensures { OnOk result (text.new.items ≡ text.old.items ++ cube_text parameters.now cube.now) }
{
    match cube.as_slice() {
        [] => append(text, b"true"),
        literals => append_literals(alloc, text, parameters, literals),
    }
}

fn append_cubes(
    alloc: Global,
    text: &mut Vec<u8>,
    parameters: &Names,
    cubes: &[Cube],
) -> Result<(), NoMemory>
    ensures { OnOk result (text.new.items ≡ text.old.items ++ joined (codes " or ") (map (cube_text parameters.now) cubes.now)) }
{
    for (index, cube) in cubes.iter().enumerate() {
        append_separator(text, index, b" or ")?;
        append_cube(alloc, text, parameters, cube)?;
    }
    Ok(())
}

pub(crate) fn append_constraint(
    alloc: Global,
    text: &mut Vec<u8>,
    parameters: &Names,
    constraint: &Constraint,
) -> Result<(), NoMemory>
    ensures { OnOk result (text.new.items ≡ text.old.items ++ constraint_text parameters.now constraint.now) }
{
    match constraint.as_slice() {
        [] => append(text, b"false"),
        cubes => append_cubes(alloc, text, parameters, cubes),
    }
}

fn is_always(constraint: &Constraint) -> bool
    ensures { IsTrue result ↔ (constraint.now ≡ [] ∷ []) }
{
    match constraint.as_slice() {
        [cube] => cube.len() == 0,
        _ => false,
    }
}

/// The guard of a comprehension, unless it is the constraint with one empty cube.
#[tactic(auto, using(crate::proofs::Guarded::guard_text_other))]
pub(crate) fn append_guard(
    alloc: Global,
    text: &mut Vec<u8>,
    parameters: &Names,
    guard: &Constraint,
) -> Result<(), NoMemory>
    ensures { OnOk result (text.new.items ≡ text.old.items ++ guard_text parameters.now guard.now) }
{
    if is_always(guard) {
        return Ok(());
    }
    append(text, b" if ")?;
    append_constraint(alloc, text, parameters, guard)
}
