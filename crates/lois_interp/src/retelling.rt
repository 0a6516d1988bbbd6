//! Contexts in which other ones' lines can be told.

ghost use Rattle.std.specs.Prelude.{◌≡◌, ◌∷◌, ◌++◌, [], IfOk, IsTrue};
ghost use Rattle.std.specs.List.{All, AllZip};
ghost use Rattle.lois_base.specs.Over.{IsOver};
ghost use Rattle.lois_base.specs.Tree.{tree};
ghost use Rattle.lois_base.specs.Validity.{AdmitsConstraint};
ghost use Rattle.lois_answers.specs.LineView.{line_of};
ghost use Rattle.lois_context.specs.Choices.{AdmitsContext};
ghost use Rattle.lois_context.specs.Kept.{LinesFit};
ghost use Rattle.lois_deciders.specs.OnlyAsked.{HasOnlyAsked};
ghost use Rattle.lois_interp.specs.Retold.{IsRetoldLine, AreRetoldLines, IsToldBy, AreRetold, HasConditionLike};

use lois_answers::{Line, Lines};
use lois_base::{Constraint, Decider, NoMemory, Structure, Term};
use lois_context::{Context, Shared, Store};
use lois_deciders::Chosen;
use lois_elim::quantifier_free;
use lois_relate::equal_formula;
use lois_simplify::shortest;
use lois_terms::binds_nothing;
use std::alloc::Global;

// Each context but the first costs a formula, and of many cases few tell each other's values.
const MOST_CONTEXTS: usize = 6;

// The cubes of a guard are taken off those of others.
const MOST_CUBES: usize = 32;

/// The contexts, without their stores where there are several. Where the lines of the one before have, wherever a context holds,
/// the values of its own, it is given those: a turn more of a loop often adds what is there already.
pub(crate) fn retold<T: Structure>(
    alloc: Global,
    contexts: Vec<Context>,
    chosen: &mut Chosen,
) -> Result<Vec<Context>, NoMemory>
    requires { All (AdmitsContext T.ordered) contexts.items }
    ensures told { IfOk result (λ r. AreRetold contexts.items r.items) }
    ensures only_asked { HasOnlyAsked (λ b. (⟦<dyn Decider as Decider>⟧ b.vtable).kind_of b.value) (λ b. (⟦<dyn Decider as Decider>⟧ b.vtable).questions b.value) chosen.old chosen.new }
{
    let count = contexts.len();
    if count < 2 || count > MOST_CONTEXTS {
        return Ok(contexts);
    }
    all_retold::<T>(alloc, contexts, chosen)
}

fn all_retold<T: Structure>(
    alloc: Global,
    contexts: Vec<Context>,
    chosen: &mut Chosen,
) -> Result<Vec<Context>, NoMemory>
    requires { All (AdmitsContext T.ordered) contexts.items }
    ensures told { IfOk result (λ r. AreRetold contexts.items r.items) }
    ensures only_asked { HasOnlyAsked (λ b. (⟦<dyn Decider as Decider>⟧ b.vtable).kind_of b.value) (λ b. (⟦<dyn Decider as Decider>⟧ b.vtable).questions b.value) chosen.old chosen.new }
{
    let mut told = Vec::new(alloc);
    for context in contexts {
        let lines = lines_for::<T>(alloc, told.as_slice(), &context, chosen)?;
        told.push(with_lines(alloc, context, lines))?;
    }
    Ok(told)
}

fn with_lines(alloc: Global, context: Context, lines: Shared<Lines>) -> Context
    requires { LinesFit context.size lines }
    ensures size { result.size ≡ context.size }
    ensures condition { result.«when» ≡ context.«when» }
    ensures store { result.store ≡ [] }
    ensures lines { result.lines ≡ lines }
{
    let Context {
        size,
        when,
        sample,
        ..
    } = context;
    Context {
        size,
        when,
        sample,
        store: Store::new(alloc),
        lines,
    }
}

// The lines by which the context's values are told: those of the last one that is done, or its own.
fn lines_for<T: Structure>(
    alloc: Global,
    told: &[Context],
    own: &Context,
    chosen: &mut Chosen,
) -> Result<Shared<Lines>, NoMemory>
    requires told { All (AdmitsContext T.ordered) told.now }
    requires own { AdmitsContext T.ordered own.now }
    ensures told { IfOk result (IsToldBy (told.now ++ own.now ∷ []) own.now) }
    ensures only_asked { HasOnlyAsked (λ b. (⟦<dyn Decider as Decider>⟧ b.vtable).kind_of b.value) (λ b. (⟦<dyn Decider as Decider>⟧ b.vtable).questions b.value) chosen.old chosen.new }
{
    if let Some(before) = told.last() {
        if tells::<T>(alloc, before, own, chosen)? {
            return before.lines.share();
        }
    }
    own.lines.share()
}

// Whether the other context has lines of the same names, whose values are the same wherever this one holds.
fn tells<T: Structure>(
    alloc: Global,
    other: &Context,
    own: &Context,
    chosen: &mut Chosen,
) -> Result<bool, NoMemory>
    requires other { AdmitsContext T.ordered other.now }
    requires own { AdmitsContext T.ordered own.now }
    ensures size { IfOk result (λ b. IsTrue b → other.now.size ≡ own.now.size) }
    ensures same { IfOk result (λ b. IsTrue b → AreRetoldLines own.now other.now.lines) }
    ensures only_asked { HasOnlyAsked (λ b. (⟦<dyn Decider as Decider>⟧ b.vtable).kind_of b.value) (λ b. (⟦<dyn Decider as Decider>⟧ b.vtable).questions b.value) chosen.old chosen.new }
{
    let lines = own.lines.get().as_slice();
    let others = other.lines.get().as_slice();
    if other.size != own.size {
        return Ok(false);
    }
    if others.len() != lines.len() {
        return Ok(false);
    }
    for (i, line) in lines.iter().enumerate() {
        let partner = &others[i];
        if !tells_line::<T>(alloc, partner, line, own, chosen)? {
            return Ok(false);
        }
    }
    Ok(true)
}

// Whether sets have no members in which further ones are bound: an equality of such sets would have quantifiers inside of others.
fn is_soon_compared(term: &Term) -> bool {
    match term {
        Term::Coll(comps) => comps.as_slice().iter().all(|comp| comp.guard.len() <= MOST_CUBES
            && binds_nothing(&comp.item)),
        other => binds_nothing(other),
    }
}

fn tells_line<T: Structure>(
    alloc: Global,
    other: &Line,
    line: &Line,
    own: &Context,
    chosen: &mut Chosen,
) -> Result<bool, NoMemory>
    requires own { AdmitsConstraint T.ordered own.now.«when» }
    requires over { IsOver T.ordered own.now.size (tree line.now.term) }
    requires other { IsOver T.ordered own.now.size (tree other.now.term) }
    ensures same { IfOk result (λ b. IsTrue b → IsRetoldLine own.now.size own.now.«when» (line_of line.now) (line_of other.now)) }
    ensures only_asked { HasOnlyAsked (λ b. (⟦<dyn Decider as Decider>⟧ b.vtable).kind_of b.value) (λ b. (⟦<dyn Decider as Decider>⟧ b.vtable).questions b.value) chosen.old chosen.new }
{
    if other.name != line.name {
        return Ok(false);
    }
    if other.term.is_equal(&line.term) {
        return Ok(true);
    }
    if !is_soon_compared(&line.term) || !is_soon_compared(&other.term) {
        return Ok(false);
    }
    let formula = equal_formula(alloc, &line.term, &other.term, own.size)?;
    let same = quantifier_free::<T>(alloc, &formula, own.size)?;
    let counter = chosen.entails(alloc, &own.when, &same, own.size)?;
    Ok(counter.is_none())
}

/// The contexts, each with a short condition that holds where its own does.
pub(crate) fn with_short_conditions(
    alloc: Global,
    contexts: Vec<Context>,
) -> Result<Vec<Context>, NoMemory>
    ensures { IfOk result (λ r. AllZip HasConditionLike contexts.items r.items) }
{
    let mut short = Vec::new(alloc);
    for context in contexts {
        short.push(with_short_condition(alloc, context)?)?;
    }
    Ok(short)
}

fn with_short_condition(alloc: Global, context: Context) -> Result<Context, NoMemory>
    ensures { IfOk result (HasConditionLike context) }
{
    let anywhere = Constraint::always(alloc)?;
    let when = shortest(alloc, &context.when, &anywhere)?;
    let Context {
        size,
        sample,
        store,
        lines,
        ..
    } = context;
    Ok(Context {
        size,
        when,
        sample,
        store,
        lines,
    })
}
