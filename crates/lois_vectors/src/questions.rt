//! Questions about sets over one parameter: from the formula, through the elimination of its quantifiers, to a decider.

ghost use Rattle.std.specs.Prelude.{IfOk};
ghost use Rattle.lois_base.specs.FormulaData.{FormulaFits};
ghost use Rattle.lois_base.specs.FormulaView.{view};
ghost use Rattle.lois_base.specs.Fits.{ConstraintFits};
ghost use Rattle.lois_base.specs.Tree.{tree};
ghost use Rattle.lois_terms.specs.Collections.{IsColl};

use lois_base::{
    Comp, Comps, Constraint, Cube, Decider, Formula, Lit, Name, NoMemory, Op, Term, is_name,
};
use lois_deciders::{Chosen, GraphDecider};
use lois_elim::quantifier_free;
use lois_order::OrderAtoms;
use lois_relate::{equal_formula, included_formula, member_formula};
use std::alloc::Global;
use std::process::Abort;
use std::test::Fail;

// Where a formula holds, as a constraint and what a decider says of it.
#[derive(Clone, Copy, PartialEq, Eq, Debug)]
enum Place {
    Everywhere,
    Somewhere,
    Nowhere,
}

fn always(alloc: Global) -> Result<Constraint, NoMemory>
    ensures { IfOk result (ConstraintFits 1) }
{
    let mut constraint = Constraint::new(alloc);
    constraint.push(Cube::new(alloc))?;
    Ok(constraint)
}

#[tactic(auto, using(lois_base::proofs::Validity::formula_admitted))]
fn place_of(alloc: Global, f: &Formula, chosen: &mut Chosen) -> Result<Place, NoMemory>
    requires { FormulaFits 1 (view f.now) }
{
    let answer = quantifier_free::<OrderAtoms>(alloc, f, 1)?;
    if chosen
        .entails(alloc, &always(alloc)?, &answer, 1)?
        .is_none()
    {
        return Ok(Place::Everywhere);
    }
    match chosen.ask(alloc, &answer, 1)? {
        Some(_) => Ok(Place::Somewhere),
        None => Ok(Place::Nowhere),
    }
}

fn graph(rt: &impl Abort, alloc: Global) -> Result<Chosen, NoMemory> {
    let graph: Box<dyn Decider> = Box::new(alloc, GraphDecider::new())?;
    let mut deciders = Vec::new(alloc);
    deciders.push(graph)?;
    Ok(Chosen::choose(deciders, None).expect(rt, "a decider was handed in"))
}

// `$1 for $1`, for those above `$0` where there is a guard
fn each_atom(alloc: Global, literals: &[Lit]) -> Result<Comp, NoMemory> {
    let mut cube = Cube::new(alloc);
    for literal in literals {
        cube.push(*literal)?;
    }
    let mut guard = Constraint::new(alloc);
    guard.push(cube)?;
    Ok(Comp {
        binders: 1,
        guard,
        item: Term::Var(1),
    })
}

// The set `{$1 for $1 if $0<$1}`, its comprehension so many times.
fn above(alloc: Global, times: usize) -> Result<Term, NoMemory>
    ensures { IfOk result (λ t. IsColl (tree t)) }
{
    let below = Lit {
        op: Op::Lt,
        left: 0,
        right: 1,
    };
    let mut comps = Comps::new(alloc);
    for _ in 0..times {
        comps.push(each_atom(alloc, &[below])?)?;
    }
    Ok(Term::Coll(comps))
}

fn atoms(alloc: Global) -> Result<Term, NoMemory>
    ensures { IfOk result (λ t. IsColl (tree t)) }
{
    let mut comps = Comps::new(alloc);
    comps.push(each_atom(alloc, &[])?)?;
    Ok(Term::Coll(comps))
}

#[test]
fn equal_sets_are_equal_everywhere(rt: HostRuntime) -> Result<(), Fail> {
    let alloc = rt.alloc();
    let mut chosen = graph(&rt, alloc)?;
    let (once, twice) = (above(alloc, 1)?, above(alloc, 2)?);
    assert!(rt; once.fits(1) && twice.fits(1));
    let equal = equal_formula(alloc, &once, &twice, 1)?;
    assert_eq!(rt; place_of(alloc, &equal, &mut chosen)?, Place::Everywhere);
    Ok(())
}

#[test]
fn an_atom_is_no_tag(rt: HostRuntime) -> Result<(), Fail> {
    let alloc = rt.alloc();
    let mut chosen = graph(&rt, alloc)?;
    assert!(rt; is_name(b"a"));
    let (tag, atom) = (Term::Tag(Name::from_bytes(alloc, b"a")?), Term::Var(0));
    assert!(rt; tag.fits(1) && atom.fits(1));
    let equal = equal_formula(alloc, &tag, &atom, 1)?;
    assert_eq!(rt; place_of(alloc, &equal, &mut chosen)?, Place::Nowhere);
    Ok(())
}

#[test]
fn an_atom_is_not_above_itself(rt: HostRuntime) -> Result<(), Fail> {
    let alloc = rt.alloc();
    let mut chosen = graph(&rt, alloc)?;
    let (atom, set) = (Term::Var(0), above(alloc, 1)?);
    assert!(rt; atom.fits(1) && set.fits(1));
    let member = member_formula(alloc, &atom, &set, 1)?;
    assert_eq!(rt; place_of(alloc, &member, &mut chosen)?, Place::Nowhere);
    Ok(())
}

#[test]
fn atoms_above_are_atoms(rt: HostRuntime) -> Result<(), Fail> {
    let alloc = rt.alloc();
    let mut chosen = graph(&rt, alloc)?;
    let (some, all) = (above(alloc, 1)?, atoms(alloc)?);
    assert!(rt; some.fits(1) && all.fits(1));
    let there = included_formula(alloc, &some, &all, 1)?;
    assert_eq!(rt; place_of(alloc, &there, &mut chosen)?, Place::Everywhere);
    let back = included_formula(alloc, &all, &some, 1)?;
    assert_eq!(rt; place_of(alloc, &back, &mut chosen)?, Place::Nowhere);
    Ok(())
}
