//! Whether two results texts say the same, however they are spelled.

use lois_answers::{Case, Lines, Results};
use lois_base::{Constraint, Decider, NoMemory, Term};
use lois_deciders::{Chosen, GraphDecider};
use lois_elim::quantifier_free;
use lois_order::OrderAtoms;
use lois_reader::read_results;
use lois_relate::equal_formula;
use std::alloc::Global;
use std::process::Abort;
use std::test::Fail;

/// A graph decider.
pub(crate) fn chosen(alloc: Global) -> Result<Chosen, Fail> {
    let graph: Box<dyn Decider> = Box::new(alloc, GraphDecider::new())?;
    let mut deciders = Vec::new(alloc);
    deciders.push(graph)?;
    Ok(Chosen::choose(deciders, None).ok_or("no decider")?)
}

// Whether both values are the same at each choice of so many atoms at which the constraint holds. The atoms of both structures are
// the same, so one elimination serves both.
#[tactic(auto, using(lois_base::proofs::Validity::formula_admitted))]
fn same_where(
    rt: &impl Abort,
    alloc: Global,
    size: usize,
    when: &Constraint,
    s: &Term,
    t: &Term,
    chosen: &mut Chosen,
) -> Result<bool, NoMemory> {
    assert!(rt; when.fits(size) && s.fits(size) && t.fits(size));
    let equal = equal_formula(alloc, s, t, size)?;
    let constraint = quantifier_free::<OrderAtoms>(alloc, &equal, size)?;
    Ok(chosen.entails(alloc, when, &constraint, size)?.is_none())
}

fn have_same_lines(
    rt: &impl Abort,
    alloc: Global,
    size: usize,
    when: &Constraint,
    one: &Lines,
    other: &Lines,
    chosen: &mut Chosen,
) -> Result<bool, NoMemory> {
    if one.len() != other.len() {
        return Ok(false);
    }
    for (l, m) in one.as_slice().iter().zip(other.as_slice()) {
        if l.name != m.name || !same_where(rt, alloc, size, when, &l.term, &m.term, chosen)? {
            return Ok(false);
        }
    }
    Ok(true)
}

// Whether the two cases have the same lines wherever both hold.
fn agree(
    rt: &impl Abort,
    alloc: Global,
    size: usize,
    one: &Case,
    other: &Case,
    chosen: &mut Chosen,
) -> Result<bool, NoMemory> {
    assert!(rt; one.when.fits(size) && other.when.fits(size));
    match chosen.meet(alloc, &one.when, &other.when, size)? {
        Some(met) => have_same_lines(
            rt,
            alloc,
            size,
            &met.constraint,
            &one.lines,
            &other.lines,
            chosen,
        ),
        None => Ok(true),
    }
}

fn agrees_with_all(
    rt: &impl Abort,
    alloc: Global,
    size: usize,
    one: &Case,
    others: &[Case],
    chosen: &mut Chosen,
) -> Result<bool, NoMemory> {
    for other in others {
        if !agree(rt, alloc, size, one, other, chosen)? {
            return Ok(false);
        }
    }
    Ok(true)
}

// Whether the constraint holds at no choice at which one of the cases does.
fn excludes_all(
    rt: &impl Abort,
    alloc: Global,
    size: usize,
    when: &Constraint,
    cases: &[Case],
    chosen: &mut Chosen,
) -> Result<bool, NoMemory> {
    for case in cases {
        assert!(rt; when.fits(size) && case.when.fits(size));
        if chosen.meet(alloc, when, &case.when, size)?.is_some() {
            return Ok(false);
        }
    }
    Ok(true)
}

// Whether no two cases hold together.
fn exclude_each_other(
    rt: &impl Abort,
    alloc: Global,
    size: usize,
    cases: &[Case],
    chosen: &mut Chosen,
) -> Result<bool, NoMemory> {
    for index in 0..cases.len() {
        let when = &cases[index].when;
        if !excludes_all(rt, alloc, size, when, &cases[index + 1..], chosen)? {
            return Ok(false);
        }
    }
    Ok(true)
}

// Whether some case holds at each choice.
fn cover_all(
    rt: &impl Abort,
    alloc: Global,
    size: usize,
    cases: &[Case],
    chosen: &mut Chosen,
) -> Result<bool, NoMemory> {
    let mut union = Constraint::new(alloc);
    for case in cases {
        for cube in case.when.as_slice() {
            union.push(cube.copy(alloc)?)?;
        }
    }
    let always = Constraint::always(alloc)?;
    assert!(rt; union.fits(size) && always.fits(size));
    Ok(chosen.entails(alloc, &always, &union, size)?.is_none())
}

// Whether exactly one case holds at each choice.
fn part_the_choices(
    rt: &impl Abort,
    alloc: Global,
    results: &Results,
    chosen: &mut Chosen,
) -> Result<bool, NoMemory> {
    let size = results.parameters.len();
    let cases = results.cases.as_slice();
    Ok(
        cover_all(rt, alloc, size, cases, chosen)?
            && exclude_each_other(rt, alloc, size, cases, chosen)?,
    )
}

// Whether wherever a case of the one and a case of the other hold together their lines are the same.
fn agree_everywhere(
    rt: &impl Abort,
    alloc: Global,
    one: &Results,
    other: &Results,
    chosen: &mut Chosen,
) -> Result<bool, NoMemory> {
    let size = one.parameters.len();
    for case in one.cases.as_slice() {
        if !agrees_with_all(rt, alloc, size, case, other.cases.as_slice(), chosen)? {
            return Ok(false);
        }
    }
    Ok(true)
}

fn have_same_parameters(one: &Results, other: &Results) -> bool {
    if one.parameters.len() != other.parameters.len() {
        return false;
    }
    for (a, b) in one
        .parameters
        .as_slice()
        .iter()
        .zip(other.parameters.as_slice())
    {
        if a != b {
            return false;
        }
    }
    true
}

/// Whether both texts are results with the same structure and the same parameters, each of which has exactly one case at each choice,
/// with lines that have the same names and the same values there.
pub(crate) fn say_the_same(
    rt: &impl Abort,
    alloc: Global,
    one: &[u8],
    other: &[u8],
) -> Result<bool, Fail> {
    let one = read_results(alloc, one)?;
    let other = read_results(alloc, other)?;
    if one.order != other.order || !have_same_parameters(&one, &other) {
        return Ok(false);
    }
    let mut chosen = chosen(alloc)?;
    Ok(
        part_the_choices(rt, alloc, &one, &mut chosen)?
            && part_the_choices(rt, alloc, &other, &mut chosen)?
            && agree_everywhere(rt, alloc, &one, &other, &mut chosen)?,
    )
}

// Texts that say the same and texts that don't, worked out by hand.
#[test]
fn spellings_are_told_apart(rt: HostRuntime) -> Result<(), Fail> {
    let alloc = rt.alloc();
    let front = "lois results 1\natoms order\nparameters a b\n";
    let rows = [
        // the order of the members, and of the cases
        (
            "case when a<b\ns = {'x, 'y}\ncase when a=b\ns = {}\ncase when b<a\ns = {}\nend\n",
            "case when a=b or b<a\ns = {}\ncase when a<b\ns = {'y, 'x}\nend\n",
            true,
        ),
        // no member is above one atom and below itself
        (
            "case when true\ns = {$2 for $2 if a<$2 and $2<a}\nend\n",
            "case when true\ns = {}\nend\n",
            true,
        ),
        // another value where the parameters are equal alone
        (
            "case when true\ns = {a}\nend\n",
            "case when true\ns = {b}\nend\n",
            false,
        ),
        // no case where the parameters are equal
        (
            "case when true\ns = {}\nend\n",
            "case when a<b\ns = {}\ncase when b<a\ns = {}\nend\n",
            false,
        ),
        // two cases where the parameters are equal
        (
            "case when true\ns = {}\nend\n",
            "case when a<b\ns = {}\ncase when a=b\ns = {}\ncase when a=b or b<a\ns = {}\nend\n",
            false,
        ),
        // another name, and a line more
        (
            "case when true\ns = {}\nend\n",
            "case when true\nt = {}\nend\n",
            false,
        ),
        (
            "case when true\ns = {}\nend\n",
            "case when true\ns = {}\ns = {}\nend\n",
            false,
        ),
    ];
    for (one, other, same) in rows {
        let one = format!(in alloc; "{front}{one}")?;
        let other = format!(in alloc; "{front}{other}")?;
        let said = say_the_same(&rt, alloc, one.as_bytes(), other.as_bytes())?;
        assert_eq!(rt; said, same, "{one}{other}");
        let said = say_the_same(&rt, alloc, other.as_bytes(), one.as_bytes())?;
        assert_eq!(rt; said, same, "{other}{one}");
    }
    Ok(())
}
