//! Scripts from texts, what comes of them, and whether two results are alike.

ghost use Rattle.std.specs.Prelude.{◌≡◌, IfSome};
ghost use Rattle.lois_base.specs.Fits.{ConstraintFits};
ghost use Rattle.lois_script.specs.Limits.{Spells};
ghost use Rattle.lois_script.specs.View.{script_tree};

use lois_answers::{Case, Lines, Results};
use lois_base::{Constraint, Decider, Term};
use lois_deciders::{Chosen, GraphDecider};
use lois_elim::quantifier_free;
use lois_equality::EqualityAtoms;
use lois_interp::interpret;
use lois_lexer::lex;
use lois_meaning::{Fault, Stop};
use lois_order::OrderAtoms;
use lois_reader::read_results;
use lois_relate::equal_formula;
use lois_scope::{Scoped, check};
use lois_syntax::read_script;
use std::alloc::Global;
use std::process::Abort;
use std::test::Fail;

pub(crate) fn chosen(alloc: Global) -> Result<Chosen, Fail> {
    let graph: Box<dyn Decider> = Box::new(alloc, GraphDecider::new())?;
    let mut deciders = Vec::new(alloc);
    deciders.push(graph)?;
    Ok(Chosen::choose(deciders, None).ok_or("no decider")?)
}

/// The well-scoped script that the text spells.
pub(crate) fn script_of(alloc: Global, text: &[u8]) -> Option<Scoped>
    ensures { IfSome result (λ s. Spells text.now (script_tree s)) }
{
    let Ok(tokens) = lex(alloc, text) else {
        return None;
    };
    let Ok(script) = read_script(alloc, &tokens, text) else {
        return None;
    };
    match check(alloc, script) {
        Ok(scoped) => Some(scoped),
        Err(_) => None,
    }
}

/// What a script comes to.
#[derive(Drop)]
pub(crate) enum Answer {
    Completed(Results),
    Failed(Fault),
    NoMemory,
}

fn answer_of(run: Result<Results, Stop>) -> Answer {
    match run {
        Ok(results) => Answer::Completed(results),
        Err(Stop::Fault(fault)) => Answer::Failed(fault),
        Err(Stop::NoMemory) => Answer::NoMemory,
    }
}

/// Runs the script that the text spells.
pub(crate) fn interpreted(alloc: Global, text: &str, chosen: &mut Chosen) -> Result<Answer, Fail> {
    let Some(script) = script_of(alloc, text.as_bytes()) else {
        return Err("no script".into());
    };
    let run = if script.script().order {
        interpret::<OrderAtoms>(alloc, &script, chosen)
    } else {
        interpret::<EqualityAtoms>(alloc, &script, chosen)
    };
    Ok(answer_of(run))
}

/// The results `lois results 1 ..` with these lines behind the first two.
pub(crate) fn results_of(alloc: Global, order: bool, rest: &str) -> Result<Results, Fail> {
    let atoms = if order { "order" } else { "equality" };
    let text = format!(in alloc; "lois results 1\natoms {atoms}\nparameters{rest}end\n")?;
    Ok(read_results(alloc, text.as_bytes())?)
}

// Whether both values are the same at each choice of so many atoms at which the constraint holds.
#[tactic(auto, using(lois_base::proofs::Validity::formula_admitted))]
fn same_where(
    rt: &impl Abort,
    alloc: Global,
    size: usize,
    when: &Constraint,
    s: &Term,
    t: &Term,
    chosen: &mut Chosen,
) -> Result<bool, Fail> {
    assert!(rt; when.fits(size) && s.fits(size) && t.fits(size));
    let equal = equal_formula(alloc, s, t, size)?;
    let constraint = quantifier_free::<OrderAtoms>(alloc, &equal, size)?;
    Ok(chosen.entails(alloc, when, &constraint, size)?.is_none())
}

fn lines_alike(
    rt: &impl Abort,
    alloc: Global,
    size: usize,
    when: &Constraint,
    one: &Lines,
    other: &Lines,
    chosen: &mut Chosen,
) -> Result<bool, Fail> {
    if one.len() != other.len() {
        return Ok(false);
    }
    for (l, m) in one.as_slice().iter().zip(other.as_slice()) {
        if l.name != m.name || !same_where(rt, alloc, size, when, &l.term, &m.term, chosen)? {
            return Ok(false);
        }
    }
    Ok(true)
}

// Whether the cases have the same lines wherever both hold.
fn cases_agree(
    rt: &impl Abort,
    alloc: Global,
    size: usize,
    one: &Case,
    other: &Case,
    chosen: &mut Chosen,
) -> Result<bool, Fail> {
    assert!(rt; one.when.fits(size) && other.when.fits(size));
    match chosen.meet(alloc, &one.when, &other.when, size)? {
        Some(met) => lines_alike(
            rt,
            alloc,
            size,
            &met.constraint,
            &one.lines,
            &other.lines,
            chosen,
        ),
        None => Ok(true),
    }
}

fn agrees_with_all(
    rt: &impl Abort,
    alloc: Global,
    size: usize,
    one: &Case,
    others: &[Case],
    chosen: &mut Chosen,
) -> Result<bool, Fail> {
    for other in others {
        if !cases_agree(rt, alloc, size, one, other, chosen)? {
            return Ok(false);
        }
    }
    Ok(true)
}

// Whether some case holds at each choice.
fn covers(
    rt: &impl Abort,
    alloc: Global,
    size: usize,
    cases: &[Case],
    chosen: &mut Chosen,
) -> Result<bool, Fail> {
    let mut union = Constraint::new(alloc);
    for case in cases {
        for cube in case.when.as_slice() {
            union.push(cube.copy(alloc)?)?;
        }
    }
    let always = Constraint::always(alloc)?;
    assert!(rt; union.fits(size) && always.fits(size));
    Ok(chosen.entails(alloc, &always, &union, size)?.is_none())
}

/// Whether the results have the same lines at each choice: both have a case at each, and wherever two cases hold together their
/// lines are the same.
pub(crate) fn alike(
    rt: &impl Abort,
    alloc: Global,
    one: &Results,
    other: &Results,
    chosen: &mut Chosen,
) -> Result<bool, Fail> {
    let size = one.parameters.len();
    if one.order != other.order || other.parameters.len() != size {
        return Ok(false);
    }
    let (cases, others) = (one.cases.as_slice(), other.cases.as_slice());
    if !covers(rt, alloc, size, cases, chosen)? || !covers(rt, alloc, size, others, chosen)? {
        return Ok(false);
    }
    for case in cases {
        if !agrees_with_all(rt, alloc, size, case, others, chosen)? {
            return Ok(false);
        }
    }
    Ok(true)
}
