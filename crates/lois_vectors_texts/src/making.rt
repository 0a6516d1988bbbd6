//! Values that several tests need.

use lois_answers::{Line, Lines};
use lois_base::{
    Comp, Comps, Constraint, Cube, Lit, Name, Names, NoMemory, Numbers, Op, Term, is_name,
};
use lois_script::Pos;
use std::alloc::Global;
use std::process::Abort;

pub fn name(rt: &impl Abort, alloc: Global, bytes: &[u8]) -> Result<Name, NoMemory> {
    assert!(rt; is_name(bytes));
    Name::from_bytes(alloc, bytes)
}

pub fn names(rt: &impl Abort, alloc: Global, words: &[&[u8]]) -> Result<Names, NoMemory> {
    let mut names = Names::new(alloc);
    for word in words {
        names.push(name(rt, alloc, word)?)?;
    }
    Ok(names)
}

pub fn numbers(alloc: Global, items: &[u64]) -> Result<Numbers, NoMemory> {
    let mut numbers = Numbers::new(alloc);
    for item in items {
        numbers.push(*item)?;
    }
    Ok(numbers)
}

pub fn at(offset: usize) -> Pos {
    Pos { offset }
}

pub fn lit(op: Op, left: usize, right: usize) -> Lit {
    Lit { op, left, right }
}

pub fn guard(alloc: Global, literals: &[Lit]) -> Result<Constraint, NoMemory> {
    let mut cube = Cube::new(alloc);
    for literal in literals {
        cube.push(*literal)?;
    }
    let mut guard = Constraint::new(alloc);
    guard.push(cube)?;
    Ok(guard)
}

pub fn set(alloc: Global, binders: usize, literals: &[Lit], item: Term) -> Result<Term, NoMemory> {
    let mut comps = Comps::new(alloc);
    comps.push(Comp {
        binders,
        guard: guard(alloc, literals)?,
        item,
    })?;
    Ok(Term::Coll(comps))
}

pub fn lines(rt: &impl Abort, alloc: Global, word: &[u8], term: Term) -> Result<Lines, NoMemory> {
    let mut lines = Lines::new(alloc);
    lines.push(Line {
        name: name(rt, alloc, word)?,
        term,
    })?;
    Ok(lines)
}
