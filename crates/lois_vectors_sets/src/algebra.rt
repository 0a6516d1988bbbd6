//! Worked sets, over atoms with an order.

ghost use Rattle.std.specs.Prelude.{length, IfOk};
ghost use Rattle.lois_base.specs.FormulaData.{FormulaFits};
ghost use Rattle.lois_base.specs.FormulaView.{view};
ghost use Rattle.lois_base.specs.Tree.{tree};
ghost use Rattle.lois_algebra.specs.Sets.{IsSetOfSets};

use crate::making::{each, guard_of, lit, pair, set_of};
use lois_algebra::{
    all_atoms, collect_over, depth_formula, inter, minus, project, push_comp, selected_guard, union,
};
use lois_base::{Comp, Comps, Constraint, Formula, Lit, NoMemory, Op, Term};
use lois_elim::quantifier_free;
use lois_order::OrderAtoms;
use lois_relate::equal_formula;
use std::alloc::Global;
use std::process::Abort;
use std::test::Fail;

// the set of the set, for so many binders, where the literals hold
fn sets_of(alloc: Global, binders: usize, literals: &[Lit], items: Comps) -> Result<Term, NoMemory>
    ensures { IfOk result (λ r. IsSetOfSets (tree r)) }
{
    let comp = Comp {
        binders,
        guard: guard_of(alloc, literals)?,
        item: Term::Coll(items),
    };
    let mut comps = Comps::new(alloc);
    comps.push(comp)?;
    Ok(Term::Coll(comps))
}

// the set `{$0}`
fn only_a(alloc: Global) -> Result<Comps, NoMemory> {
    set_of(alloc, 0, &[], Term::Var(0))
}

// the set `{$1 for $1}`
fn everything(alloc: Global) -> Result<Comps, NoMemory> {
    set_of(alloc, 1, &[], Term::Var(1))
}

// the set `{$1 for $1}` where $1 stands so to $0
fn those(alloc: Global, op: Op, left: usize, right: usize) -> Result<Comps, NoMemory> {
    set_of(alloc, 1, &[lit(op, left, right)], Term::Var(1))
}

fn holds_at(alloc: Global, f: &Formula, sample: &[u64]) -> Result<bool, NoMemory>
    requires { FormulaFits (length sample.now) (view f.now) }
{
    let constraint = quantifier_free::<OrderAtoms>(alloc, f, sample.len())?;
    Ok(constraint.at(sample))
}

// whether both have the same value where the one parameter is 5
fn same(rt: &impl Abort, alloc: Global, s: &Term, t: &Term) -> Result<bool, NoMemory> {
    assert!(rt; s.fits(1) && t.fits(1));
    holds_at(alloc, &equal_formula(alloc, s, t, 1)?, &[5])
}

fn common(rt: &impl Abort, alloc: Global, s: Comps, t: Comps) -> Result<Term, NoMemory> {
    let (left, right) = (Term::Coll(s), Term::Coll(t));
    assert!(rt; left.fits(1) && right.fits(1));
    inter::<OrderAtoms>(alloc, &left, &right, 1)
}

fn others(rt: &impl Abort, alloc: Global, s: Comps, t: Comps) -> Result<Term, NoMemory> {
    let (left, right) = (Term::Coll(s), Term::Coll(t));
    assert!(rt; left.fits(1) && right.fits(1));
    minus::<OrderAtoms>(alloc, &left, &right, 1)
}

// how two sets are joined
#[derive(Clone, Copy, Debug)]
enum Operation {
    Inter,
    Minus,
    Union,
}

// sets of atoms over the parameter `$0`
#[derive(Clone, Copy, Debug)]
enum Atoms {
    Nothing,
    OnlyA,
    Everything,
    Different,
    Below,
    Above,
}

fn atoms_of(alloc: Global, atoms: Atoms) -> Result<Comps, NoMemory> {
    match atoms {
        Atoms::Nothing => Ok(Comps::new(alloc)),
        Atoms::OnlyA => only_a(alloc),
        Atoms::Everything => everything(alloc),
        Atoms::Different => those(alloc, Op::Ne, 0, 1),
        Atoms::Below => those(alloc, Op::Lt, 1, 0),
        Atoms::Above => those(alloc, Op::Lt, 0, 1),
    }
}

fn joined(
    rt: &impl Abort,
    alloc: Global,
    operation: Operation,
    s: Comps,
    t: Comps,
) -> Result<Term, NoMemory> {
    match operation {
        Operation::Inter => common(rt, alloc, s, t),
        Operation::Minus => others(rt, alloc, s, t),
        Operation::Union => union(alloc, &Term::Coll(s), &Term::Coll(t)),
    }
}

// whether the two come to the third
fn come_to(
    rt: &impl Abort,
    alloc: Global,
    operation: Operation,
    first: Atoms,
    second: Atoms,
    wanted: Atoms,
) -> Result<bool, NoMemory> {
    let found = joined(
        rt,
        alloc,
        operation,
        atoms_of(alloc, first)?,
        atoms_of(alloc, second)?,
    )?;
    let wanted = Term::Coll(atoms_of(alloc, wanted)?);
    same(rt, alloc, &found, &wanted)
}

#[test]
fn members_of_two_sets(rt: HostRuntime) -> Result<(), Fail> {
    let rows = [
        (
            Operation::Inter,
            Atoms::Everything,
            Atoms::OnlyA,
            Atoms::OnlyA,
        ),
        (
            Operation::Inter,
            Atoms::OnlyA,
            Atoms::Everything,
            Atoms::OnlyA,
        ),
        (Operation::Inter, Atoms::OnlyA, Atoms::Above, Atoms::Nothing),
        (
            Operation::Minus,
            Atoms::Everything,
            Atoms::OnlyA,
            Atoms::Different,
        ),
        (
            Operation::Union,
            Atoms::Below,
            Atoms::Above,
            Atoms::Different,
        ),
    ];
    for (operation, first, second, wanted) in rows {
        let come = come_to(&rt, rt.alloc(), operation, first, second, wanted)?;
        assert!(rt; come, "{operation:?} {first:?} {second:?}");
    }
    Ok(())
}

#[test]
fn what_has_no_members_is_empty(rt: HostRuntime) -> Result<(), Fail> {
    let alloc = rt.alloc();
    let none = others(&rt, alloc, only_a(alloc)?, everything(alloc)?)?;
    assert!(rt; matches!(&none, Term::Coll(comps) if comps.len() == 0));
    Ok(())
}

#[test]
fn all_atoms_are_everything(rt: HostRuntime) -> Result<(), Fail> {
    let alloc = rt.alloc();
    let all = all_atoms(alloc, 1)?;
    assert!(rt; same(&rt, alloc, &all, &Term::Coll(everything(alloc)?))?);
    Ok(())
}

fn guard_apart(
    rt: &impl Abort,
    alloc: Global,
    comp: &Comp,
    others: &Comps,
) -> Result<Constraint, NoMemory> {
    assert!(rt; comp.fits(1) && others.fits(1));
    selected_guard::<OrderAtoms>(alloc, comp, others, 1, false)
}

// the item of `$1 for $1` is not in `{$0}` where it is another atom
#[test]
fn items_outside_of_a_set(rt: HostRuntime) -> Result<(), Fail> {
    let alloc = rt.alloc();
    let comp = each(alloc, 1, &[], Term::Var(1))?;
    let guard = guard_apart(&rt, alloc, &comp, &only_a(alloc)?)?;
    assert!(rt; guard.fits(2));
    assert!(rt; guard.at(&[5, 7]) && !guard.at(&[5, 5]));
    Ok(())
}

#[test]
fn empty_comprehensions_are_not_put(rt: HostRuntime) -> Result<(), Fail> {
    let alloc = rt.alloc();
    let mut comps = only_a(alloc)?;
    let empty = Comp {
        binders: 0,
        guard: Constraint::new(alloc),
        item: Term::Var(0),
    };
    push_comp(&mut comps, empty)?;
    assert_eq!(rt; comps.len(), 1);
    push_comp(&mut comps, each(alloc, 0, &[], Term::Var(0))?)?;
    assert_eq!(rt; comps.len(), 2);
    Ok(())
}

// the members of `{{$2 for $2 if $1<$2} for $1}` are all atoms together
#[test]
fn members_of_members(rt: HostRuntime) -> Result<(), Fail> {
    let alloc = rt.alloc();
    let above = set_of(alloc, 1, &[lit(Op::Lt, 1, 2)], Term::Var(2))?;
    let sets = sets_of(alloc, 1, &[], above)?;
    assert!(rt; sets.fits(1));
    let gathered = collect_over(alloc, &sets, 1)?;
    assert!(rt; same(&rt, alloc, &gathered, &Term::Coll(everything(alloc)?))?);
    Ok(())
}

// values over the parameters `$0` and `$1`
#[derive(Clone, Copy, Debug)]
enum Value {
    Atom,
    Empty,
    One,
    Pair,
    // a set that has a member where `$0<$1`
    Sometimes,
}

fn value_of(alloc: Global, value: Value) -> Result<Term, NoMemory> {
    match value {
        Value::Atom => Ok(Term::Var(0)),
        Value::Empty => Ok(Term::Coll(Comps::new(alloc))),
        Value::One => Ok(Term::Coll(only_a(alloc)?)),
        Value::Pair => Ok(Term::Tup(pair(alloc, Term::Var(0), Term::Coll(only_a(alloc)?))?)),
        Value::Sometimes => sets_of(alloc, 0, &[lit(Op::Lt, 0, 1)], only_a(alloc)?),
    }
}

fn is_deeper(
    rt: &impl Abort,
    alloc: Global,
    t: &Term,
    depth: usize,
    sample: [u64; 2],
) -> Result<bool, NoMemory> {
    assert!(rt; t.fits(2));
    holds_at(alloc, &depth_formula(alloc, t, depth, 2)?, &sample)
}

// whether the value is deeper than 0, 1, 2 and 64
fn depths(
    rt: &impl Abort,
    alloc: Global,
    t: &Term,
    sample: [u64; 2],
) -> Result<[bool; 4], NoMemory> {
    Ok([
        is_deeper(rt, alloc, t, 0, sample)?,
        is_deeper(rt, alloc, t, 1, sample)?,
        is_deeper(rt, alloc, t, 2, sample)?,
        is_deeper(rt, alloc, t, 64, sample)?,
    ])
}

#[test]
fn values_are_deep(rt: HostRuntime) -> Result<(), Fail> {
    let alloc = rt.alloc();
    let rows = [
        (Value::Atom, [1, 2], [false, false, false, false]),
        (Value::Empty, [1, 2], [true, false, false, false]),
        (Value::One, [1, 2], [true, false, false, false]),
        (Value::Pair, [1, 2], [true, true, false, false]),
        (Value::Sometimes, [1, 2], [true, true, false, false]),
        (Value::Sometimes, [2, 1], [true, false, false, false]),
    ];
    for (made, sample, wanted) in rows {
        let t = value_of(alloc, made)?;
        assert_eq!(rt; depths(&rt, alloc, &t, sample)?, wanted, "{made:?}");
    }
    Ok(())
}

#[test]
fn tuples_have_parts(rt: HostRuntime) -> Result<(), Fail> {
    let alloc = rt.alloc();
    let pair = Term::Tup(pair(alloc, Term::Var(7), Term::Var(8))?);
    assert!(rt; matches!(project(&pair, 1), Some(Term::Var(7))));
    assert!(rt; matches!(project(&pair, 2), Some(Term::Var(8))));
    assert!(rt; project(&pair, 0).is_none() && project(&pair, 3).is_none());
    assert!(rt; project(&Term::Var(7), 1).is_none());
    Ok(())
}
