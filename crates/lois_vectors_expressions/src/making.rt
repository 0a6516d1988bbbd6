//! Expressions and conditions from texts, the context that they are tried in, and what comes of them.

ghost use Rattle.std.specs.Prelude.{◌≡◌, ◌<◌, true, IfOk, IfSome};
ghost use Rattle.lois_base.specs.Fits.{ConstraintFits, Fits};
ghost use Rattle.lois_base.specs.Tree.{tree as term_tree};
ghost use Rattle.lois_eval.specs.WellFormed.{IsWellFormedIn, IsWellFormed, CondIsWellFormed, names_of};
ghost use Rattle.lois_script.specs.View.{tree, cond_tree};

use crate::standing::{condition_stands, stands};
use lois_answers::{Case, FaultKind, Lines};
use lois_base::{Comp, Comps, Constraint, Decider, Name, Names, NoMemory, Numbers, Term, is_name};
use lois_context::{Context, Shared, Store, enter_loop};
use lois_deciders::{Chosen, GraphDecider};
use lois_elim::quantifier_free;
use lois_eval::{decide, eval};
use lois_lexer::lex;
use lois_meaning::Stop;
use lois_order::OrderAtoms;
use lois_reader::read_results;
use lois_relate::equal_formula;
use lois_script::{Cond, Expr, Script, Stmt};
use lois_syntax::read_script;
use std::alloc::Global;
use std::process::Abort;
use std::test::Fail;

pub(crate) fn chosen(alloc: Global) -> Result<Chosen, Fail> {
    let graph: Box<dyn Decider> = Box::new(alloc, GraphDecider::new())?;
    let mut deciders = Vec::new(alloc);
    deciders.push(graph)?;
    Ok(Chosen::choose(deciders, None).ok_or("no decider")?)
}

pub(crate) fn script_of(alloc: Global, text: &[u8]) -> Result<Script, Fail> {
    let tokens = lex(alloc, text)?;
    Ok(read_script(alloc, &tokens, text)?)
}

fn name_of(rt: &impl Abort, alloc: Global, bytes: &[u8]) -> Result<Name, NoMemory> {
    assert!(rt; is_name(bytes));
    Name::from_bytes(alloc, bytes)
}

// `{term}`, or `{term for a binder}`
fn set_of(alloc: Global, binders: usize, term: Term) -> Result<Term, NoMemory> {
    let mut comps = Comps::new(alloc);
    comps.push(Comp {
        binders,
        guard: Constraint::always(alloc)?,
        item: term,
    })?;
    Ok(Term::Coll(comps))
}

// `{}` in so many sets
fn nested(alloc: Global, times: usize) -> Result<Term, NoMemory> {
    let mut term = Term::Coll(Comps::new(alloc));
    for _ in 0..times {
        term = set_of(alloc, 0, term)?;
    }
    Ok(term)
}

// levels of which nothing is known, an empty store
fn empty(rt: &impl Abort, alloc: Global, size: usize) -> Result<Context, NoMemory> {
    let when = Constraint::always(alloc)?;
    let mut sample = Numbers::new(alloc);
    for number in 0..size {
        sample.push(number as u64)?;
    }
    assert!(rt; when.fits(size) && sample.len() == size);
    assert!(rt; when.at(sample.as_slice()));
    let store = Store::new(alloc);
    let lines = Shared::new(alloc, Lines::new(alloc))?;
    Ok(Context {
        size,
        when,
        sample,
        store,
        lines,
    })
}

// The context with one more name, which stands for the only comprehension of a set.
fn entered(
    rt: &impl Abort,
    alloc: Global,
    context: &Context,
    elements: &Term,
    word: &[u8],
    chosen: &mut Chosen,
) -> Result<Context, Fail> {
    let name = name_of(rt, alloc, word)?;
    assert!(rt; elements.fits(context.size));
    assert!(rt; matches!(elements, Term::Coll(_)));
    assert!(rt; !context.store.has_name(&name));
    let mut inner = enter_loop(alloc, context, elements, &name, chosen)?;
    Ok(inner.pop().ok_or("no context")?)
}

// The context with one more name, which stands for an atom of which nothing is known.
fn with_atom(
    rt: &impl Abort,
    alloc: Global,
    context: &Context,
    level: usize,
    word: &[u8],
    chosen: &mut Chosen,
) -> Result<Context, Fail> {
    let atoms = set_of(alloc, 1, Term::Var(level))?;
    entered(rt, alloc, context, &atoms, word, chosen)
}

// The context with one more name, which stands for `{}` in so many sets.
fn with_nested(
    rt: &impl Abort,
    alloc: Global,
    context: &Context,
    times: usize,
    word: &[u8],
    chosen: &mut Chosen,
) -> Result<Context, Fail> {
    let set = nested(alloc, times)?;
    entered(rt, alloc, context, &set_of(alloc, 0, set)?, word, chosen)
}

// `a` and `b` are the levels 0 and 1, of which nothing is known; `shallow` is a set of depth 63 and `deep` one of depth 64
pub(crate) fn opening(
    rt: &impl Abort,
    alloc: Global,
    chosen: &mut Chosen,
) -> Result<Context, Fail> {
    let none = empty(rt, alloc, 0)?;
    let one = with_atom(rt, alloc, &none, 0, b"a", chosen)?;
    let two = with_atom(rt, alloc, &one, 1, b"b", chosen)?;
    let more = with_nested(rt, alloc, &two, 62, b"shallow", chosen)?;
    with_nested(rt, alloc, &more, 63, b"deep", chosen)
}

pub(crate) fn names_in(alloc: Global, store: &Store) -> Result<Names, NoMemory>
    ensures { IfOk result (λ r. r ≡ names_of store.now) }
{
    let mut names = Names::new(alloc);
    for slot in store.as_slice() {
        names.push(slot.name.copy(alloc)?)?;
    }
    Ok(names)
}

/// How an expression or a condition fails.
#[derive(Clone, Copy, PartialEq, Eq, Debug)]
pub(crate) struct Failed {
    pub(crate) kind: FaultKind,
    pub(crate) offset: usize,
    // whether `a` and `b` are equal at the sample
    pub(crate) equal: bool,
}

/// What a call answers.
#[derive(Drop)]
pub(crate) enum Answer {
    Value(Term),
    Truth(Constraint),
    Failed(Failed),
    NoMemory,
}

fn stopped(stop: Stop) -> Result<Answer, Fail> {
    match stop {
        Stop::Fault(fault) => match fault.sample.as_slice() {
            [a, b] => Ok(Answer::Failed(Failed {
                kind: fault.kind,
                offset: fault.pos.offset,
                equal: *a == *b,
            })),
            _ => Err("not two numbers".into()),
        },
        Stop::NoMemory => Ok(Answer::NoMemory),
    }
}

// Whether the expression may be evaluated in the context.
fn placed(alloc: Global, e: &Expr, context: &Context) -> Option<()>
    ensures { IfSome result (λ _. IsWellFormedIn (IsWellFormed (tree e.now)) true context.now) }
{
    let Ok(names) = names_in(alloc, &context.store) else {
        return None;
    };
    stands(alloc, e, true, &names)
}

fn evaluated(
    alloc: Global,
    e: &Expr,
    context: &Context,
    chosen: &mut Chosen,
) -> Result<Answer, Fail> {
    let Some(()) = placed(alloc, e, context) else {
        return Err("it may not stand there".into());
    };
    match eval::<OrderAtoms>(alloc, e, context, chosen) {
        Ok(term) => Ok(Answer::Value(term)),
        Err(stop) => stopped(stop),
    }
}

// Whether the condition may be decided in the context.
fn condition_placed(alloc: Global, c: &Cond, context: &Context) -> Option<()>
    ensures { IfSome result (λ _. IsWellFormedIn (CondIsWellFormed (cond_tree c.now)) true context.now) }
{
    let Ok(names) = names_in(alloc, &context.store) else {
        return None;
    };
    condition_stands(alloc, c, true, &names)
}

fn decided(
    alloc: Global,
    c: &Cond,
    context: &Context,
    chosen: &mut Chosen,
) -> Result<Answer, Fail> {
    let Some(()) = condition_placed(alloc, c, context) else {
        return Err("it may not stand there".into());
    };
    match decide::<OrderAtoms>(alloc, c, context, chosen) {
        Ok(constraint) => Ok(Answer::Truth(constraint)),
        Err(stop) => stopped(stop),
    }
}

/// What comes of the expression of a `let`, or of the condition of an `assert`, which is the only statement of the text.
pub(crate) fn tried(
    alloc: Global,
    text: &str,
    context: &Context,
    chosen: &mut Chosen,
) -> Result<Answer, Fail> {
    let script = script_of(alloc, text.as_bytes())?;
    match script.body.get(0) {
        Some(Stmt::Let(_, _, e)) => evaluated(alloc, e, context, chosen),
        Some(Stmt::Assert(_, c)) => decided(alloc, c, context, chosen),
        _ => Err("neither `let` nor `assert`".into()),
    }
}

/// Whether the second constraint holds at each choice of `a` and `b` at which the first does.
pub(crate) fn entails(
    rt: &impl Abort,
    alloc: Global,
    c: &Constraint,
    d: &Constraint,
    chosen: &mut Chosen,
) -> Result<bool, Fail> {
    assert!(rt; c.fits(2) && d.fits(2));
    Ok(chosen.entails(alloc, c, d, 2)?.is_none())
}

/// Whether both values are the same at each choice of `a` and `b` at which the constraint holds.
#[tactic(auto, using(lois_base::proofs::Validity::formula_admitted))]
pub(crate) fn same_where(
    rt: &impl Abort,
    alloc: Global,
    when: &Constraint,
    s: &Term,
    t: &Term,
    chosen: &mut Chosen,
) -> Result<bool, Fail> {
    assert!(rt; s.fits(2) && t.fits(2));
    let equal = equal_formula(alloc, s, t, 2)?;
    let constraint = quantifier_free::<OrderAtoms>(alloc, &equal, 2)?;
    entails(rt, alloc, when, &constraint, chosen)
}

// The only case of the results `lois results 1 ..` over the parameters `a` and `b`.
fn case_of(alloc: Global, when: &str, value: &str) -> Result<Case, Fail> {
    let text = format!(in alloc;
        "lois results 1\natoms order\nparameters a b\ncase when {when}\nv = {value}\nend\n"
    )?;
    let results = read_results(alloc, text.as_bytes())?;
    match results.cases.get(0) {
        Some(case) => Ok(Case {
            when: case.when.copy(alloc)?,
            lines: case.lines.copy(alloc)?,
        }),
        None => Err("no case".into()),
    }
}

/// The constraint that the text spells, where `a` and `b` are the levels 0 and 1.
pub(crate) fn constraint_of(alloc: Global, text: &str) -> Result<Constraint, Fail> {
    Ok(case_of(alloc, text, "{}")?.when)
}

/// The same of a term.
pub(crate) fn term_of(alloc: Global, text: &str) -> Result<Term, Fail> {
    match case_of(alloc, "true", text)?.lines.get(0) {
        Some(line) => Ok(line.term.copy(alloc)?),
        None => Err("no line".into()),
    }
}
