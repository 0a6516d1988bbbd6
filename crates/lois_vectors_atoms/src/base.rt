//! Each call once with ample memory, and a boxed decider's answers.
ghost use Rattle.std.specs.Prelude.{◌≡◌, ◌<◌, IfOk};
ghost use Rattle.lois_base.specs.Fits.{CubeFits};
ghost use Rattle.lois_base.specs.Theory.{risen};
ghost use Rattle.lois_base.specs.declared.deciding.Kind.{Kind};

use crate::making::{constraint_of, lit};
use lois_base::Op::{AtMost, Eq, Lt, Ne};
use lois_base::{
    Comp, Comps, Constraint, Cube, Decider, Formula, Formulas, Kind, Lit, Name, Names, NoMemory,
    Numbers, Op, Term, Terms, is_name,
};
use std::alloc::Global;
use std::process::Abort;
use std::test::Fail;

fn name(rt: &impl Abort, alloc: Global, bytes: &[u8]) -> Result<Name, NoMemory> {
    assert!(rt; is_name(bytes));
    Name::from_bytes(alloc, bytes)
}

#[test]
fn literals_compare_two_levels(rt: HostRuntime) {
    let sample = [2, 2, 5];
    let rows = [
        ((0, Eq, 1), true),
        ((0, Eq, 2), false),
        ((0, Ne, 1), false),
        ((0, Ne, 2), true),
        ((0, Lt, 1), false),
        ((0, Lt, 2), true),
        ((2, Lt, 0), false),
        ((0, AtMost, 1), true),
        ((2, AtMost, 0), false),
    ];
    for (comparison, holds) in rows {
        let literal = lit(comparison);
        assert!(rt; literal.fits(3));
        assert_eq!(rt; literal.at(&sample), holds, "{literal:?}");
    }
    assert!(rt; !lit((0, Eq, 3)).fits(3));
}

// what doesn't hold at `SAMPLE`
fn chain(alloc: Global) -> Result<Cube, NoMemory> {
    let mut chain = Cube::new(alloc);
    for right in 0..9 {
        chain.push(lit((1, Lt, right % 3)))?;
    }
    Ok(chain)
}

const SAMPLE: [u64; 3] = [7, 1, 7];

#[test]
fn cubes_hold(rt: HostRuntime) -> Result<(), Fail> {
    let chain = chain(rt.alloc())?;
    assert_eq!(rt; chain.len(), 9);
    assert_eq!(rt; chain.get(2).copied(), Some(lit((1, Lt, 2))));
    assert!(rt; chain.get(9).is_none());
    assert!(rt; chain.fits(3) && !chain.fits(2));
    assert!(rt; !chain.at(&SAMPLE));
    Ok(())
}

#[test]
fn cubes_are_copied(rt: HostRuntime) -> Result<(), Fail> {
    let alloc = rt.alloc();
    let chain = chain(alloc)?;
    let same = chain.copy(alloc)?;
    assert_eq!(rt; same.as_slice(), chain.as_slice());
    assert!(rt; same.is_equal(&chain) && !same.is_equal(&Cube::new(alloc)));
    Ok(())
}

#[test]
fn constraints_without_cubes_never_hold(rt: HostRuntime) -> Result<(), Fail> {
    let alloc = rt.alloc();
    let never = Constraint::new(alloc);
    assert!(rt; never.fits(3));
    assert!(rt; !never.at(&SAMPLE));
    assert!(rt; Constraint::always(alloc)?.at(&[]));
    Ok(())
}

// the chain, or always
fn either(alloc: Global) -> Result<Constraint, NoMemory> {
    let mut either = Constraint::new(alloc);
    either.push(chain(alloc)?)?;
    either.push(Cube::new(alloc))?;
    Ok(either)
}

#[test]
fn constraints_hold(rt: HostRuntime) -> Result<(), Fail> {
    let again = either(rt.alloc())?.copy(rt.alloc())?;
    assert_eq!(rt; again.len(), 2);
    assert_eq!(rt; again.get(0).map(|cube| cube.len()), Some(9));
    assert!(rt; again.get(2).is_none());
    assert_eq!(rt; again.as_slice().len(), 2);
    assert!(rt; again.fits(3) && !again.fits(1));
    assert!(rt; again.at(&SAMPLE));
    Ok(())
}

#[test]
fn constraints_are_copied(rt: HostRuntime) -> Result<(), Fail> {
    let alloc = rt.alloc();
    let either = either(alloc)?;
    let again = either.copy(alloc)?;
    assert!(rt; again.is_equal(&either));
    assert_eq!(rt; again.into_vec().len(), 2);
    Ok(())
}

// some `{..}` in which it isn't that for each one `$0!=$1` and nothing holds
fn quantified(alloc: Global) -> Result<Formula, NoMemory> {
    let mut parts = Formulas::new(alloc);
    parts.push(Formula::Lit(lit((0, Ne, 1))))?;
    parts.push(Formula::Any(Formulas::new(alloc)))?;
    let body = Formula::All(parts).boxed(alloc)?;
    let inner = Formula::Not(Formula::Forall(body).boxed(alloc)?);
    Ok(Formula::Exists(inner.boxed(alloc)?))
}

fn innermost(f: &Formula) -> Option<&Formulas> {
    let Formula::Exists(inner) = f else {
        return None;
    };
    let Formula::Not(inner) = &**inner else {
        return None;
    };
    let Formula::Forall(inner) = &**inner else {
        return None;
    };
    let Formula::All(parts) = &**inner else {
        return None;
    };
    Some(parts)
}

#[test]
fn formulas_are_held_and_copied(rt: HostRuntime) -> Result<(), Fail> {
    let alloc = rt.alloc();
    let copy = quantified(alloc)?.copy(alloc)?;
    let parts = innermost(&copy).ok_or("another formula")?;
    assert_eq!(rt; parts.len(), 2);
    assert!(rt; matches!(parts.get(0), Some(Formula::Lit(Lit { op: Op::Ne, .. }))));
    assert!(rt; matches!(parts.as_slice(), [_, Formula::Any(_)]));
    assert!(rt; parts.get(2).is_none());
    assert_eq!(rt; parts.copy(alloc)?.into_vec().len(), 2);
    Ok(())
}

// `(x2, 'left)`
fn parts(rt: &impl Abort, alloc: Global) -> Result<Terms, NoMemory> {
    let mut parts = Terms::new(alloc);
    parts.push(Term::Var(2))?;
    parts.push(Term::Tag(name(rt, alloc, b"left")?))?;
    Ok(parts)
}

#[test]
fn terms_are_held_and_copied(rt: HostRuntime) -> Result<(), Fail> {
    let alloc = rt.alloc();
    let parts = parts(&rt, alloc)?;
    assert_eq!(rt; parts.len(), 2);
    assert!(rt; matches!(parts.get(0), Some(Term::Var(2))));
    assert!(rt; parts.get(2).is_none());
    assert!(rt; matches!(parts.as_slice(), [Term::Var(2), Term::Tag(_)]));
    assert_eq!(rt; parts.copy(alloc)?.into_vec().len(), 2);
    Ok(())
}

// {(x2, 'left) for x2 if x1 < x2} with one level before x1
fn pairs(rt: &impl Abort, alloc: Global) -> Result<Comps, NoMemory> {
    let guard = constraint_of(alloc, &[&[(1, Lt, 2)]])?;
    let item = Term::Tup(parts(rt, alloc)?);
    let mut comps = Comps::new(alloc);
    comps.push(Comp {
        binders: 1,
        guard,
        item,
    })?;
    Ok(comps)
}

#[test]
fn comprehensions_are_held_and_copied(rt: HostRuntime) -> Result<(), Fail> {
    let alloc = rt.alloc();
    let comps = pairs(&rt, alloc)?;
    assert_eq!(rt; comps.len(), 1);
    assert_eq!(rt; comps.as_slice().len(), 1);
    assert!(rt; comps.get(1).is_none());
    let comp = comps.get(0).ok_or("no comprehension")?.copy(alloc)?;
    assert_eq!(rt; comp.guard.len(), 1);
    assert_eq!(rt; comps.into_vec().len(), 1);
    Ok(())
}

#[test]
fn terms_fit(rt: HostRuntime) -> Result<(), Fail> {
    let alloc = rt.alloc();
    let term = Term::Coll(pairs(&rt, alloc)?.copy(alloc)?).copy(alloc)?;
    assert!(rt; term.fits(2));
    assert!(rt; !term.fits(1));

    // the levels of the last binders have to be numbers of the machine
    let wide = Comp {
        binders: usize::MAX,
        guard: Constraint::new(alloc),
        item: Term::Tup(Terms::new(alloc)),
    };
    assert!(rt; wide.fits(0) && !wide.fits(1));
    Ok(())
}

// {x1 for x1} with one level before x1
fn atoms_set(alloc: Global) -> Result<Term, NoMemory> {
    let mut comps = Comps::new(alloc);
    comps.push(Comp {
        binders: 1,
        guard: Constraint::always(alloc)?,
        item: Term::Var(1),
    })?;
    Ok(Term::Coll(comps))
}

#[test]
fn terms_that_are_written_alike_are_equal(rt: HostRuntime) -> Result<(), Fail> {
    let alloc = rt.alloc();
    let set = atoms_set(alloc)?;
    assert!(rt; set.is_equal(&atoms_set(alloc)?));
    assert!(rt; !set.is_equal(&Term::Coll(Comps::new(alloc))));
    assert!(rt; !set.is_equal(&Term::Var(1)));
    Ok(())
}

#[test]
fn names_have_their_form(rt: HostRuntime) {
    let long = [b'a'; 65];
    let rows: [(&[u8], bool); 9] = [
        (b"x", true),
        (b"Start_9", true),
        (&long[1..], true),
        (&long, false),
        (b"", false),
        (b"9a", false),
        (b"_a", false),
        (b"a-b", false),
        (b"a b", false),
    ];
    for (bytes, is) in rows {
        assert_eq!(rt; is_name(bytes), is, "{bytes:?}");
    }
}

#[test]
fn names_keep_their_bytes(rt: HostRuntime) -> Result<(), Fail> {
    let alloc = rt.alloc();
    let start = name(&rt, alloc, b"start")?;
    assert_eq!(rt; start.bytes(), b"start".as_slice());
    assert!(rt; start.copy(alloc)? == start);
    Ok(())
}

fn two_names(rt: &impl Abort, alloc: Global) -> Result<Names, NoMemory> {
    let mut names = Names::new(alloc);
    names.push(name(rt, alloc, b"end")?)?;
    names.push(name(rt, alloc, b"start")?)?;
    Ok(names)
}

#[test]
fn names_are_held(rt: HostRuntime) -> Result<(), Fail> {
    let names = two_names(&rt, rt.alloc())?.copy(rt.alloc())?;
    assert_eq!(rt; names.len(), 2);
    assert_eq!(rt; names.as_slice().len(), 2);
    let last = names.get(1).ok_or("no name")?;
    assert_eq!(rt; last.bytes(), b"start".as_slice());
    assert!(rt; names.get(0).ok_or("no name")? != last);
    assert!(rt; names.get(2).is_none());
    Ok(())
}

#[test]
fn numbers_are_held(rt: HostRuntime) -> Result<(), Fail> {
    let alloc = rt.alloc();
    let mut numbers = Numbers::new(alloc);
    numbers.push(3)?;
    numbers.push(1)?;
    assert_eq!(rt; numbers.len(), 2);
    assert_eq!(rt; numbers.get(1).copied(), Some(1));
    assert!(rt; numbers.get(2).is_none());
    assert_eq!(rt; numbers.copy(alloc)?.as_slice(), [3, 1].as_slice());
    Ok(())
}

#[test]
fn numbers_are_those_of_a_vec(rt: HostRuntime) -> Result<(), Fail> {
    let alloc = rt.alloc();
    let others = Numbers::from_vec(vec![in alloc; 4, 5]?);
    assert_eq!(rt; others.as_slice(), [4, 5].as_slice());
    assert_eq!(rt; others.into_vec().as_slice(), [4, 5].as_slice());
    Ok(())
}

// A decider that never has memory.
#[derive(Drop)]
struct Tired {
    asked: u64,
}

impl Decider for Tired {
    ghost kind_of = { λ _. Kind.Plain };

    ghost questions = { λ d. d.asked };

    fn name(&self) -> Kind {
        Kind::Plain
    }

    fn satisfiable(
        &mut self,
        _alloc: Global,
        _cube: &Cube,
        _size: usize,
    ) -> Result<Option<Vec<u64>>, NoMemory> {
        self.asked = self.asked.saturating_add(1);
        Err(NoMemory)
    }

    fn asked(&self) -> u64 {
        self.asked
    }
}

// What a caller knows of a decider that it doesn't know.
fn first_number(decider: &mut Box<dyn Decider>, alloc: Global, cube: &Cube) -> Result<u64, NoMemory>
    requires { CubeFits 1 cube.now }
    ensures asked { questions decider.new ≡ risen (questions decider.old) }
    ensures first { IfOk result (λ n. n < 2) }
{
    match decider.satisfiable(alloc, cube, 1)? {
        Some(sample) => Ok(sample[0]),
        None => Ok(1),
    }
}

#[test]
fn a_boxed_decider_answers(rt: HostRuntime) -> Result<(), Fail> {
    let alloc = rt.alloc();
    let mut decider: Box<dyn Decider> = Box::new(alloc, Tired { asked: 6 })?;
    assert!(rt; first_number(&mut decider, alloc, &Cube::new(alloc)).is_err());
    assert_eq!(rt; decider.asked(), 7);
    assert_eq!(rt; decider.name(), Kind::Plain);
    Ok(())
}
