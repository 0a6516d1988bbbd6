//! Whether an expression may be evaluated where some names are in scope, by a walk over its tree.

ghost use Rattle.std.specs.Prelude.{◌≡◌, [], ◌∷◌, ◌++◌, IfSome, IsNone};
ghost use Rattle.lois_script.specs.View.{tree, cond_tree, exprs_of, bindings_of, conds_of};
ghost use Rattle.lois_script.specs.Lists.{exprs_list, bindings_list, conds_list};
ghost use Rattle.lois_eval.specs.WellFormed.{IsNamed, IsUnnamed, IsWellFormed, AreWellFormed, BindersAreWellFormed, CondIsWellFormed, CondsAreWellFormed, names_behind_bindings, arity};

use lois_base::{Name, Names};
use lois_script::{Binding, Bindings, Cond, Conds, Expr, Exprs, Operation};
use std::alloc::Global;

fn named(names: &Names, name: &Name) -> Option<()>
    ensures some { IfSome result (λ _. IsNamed name.now names.now) }
    ensures none { IsNone result → IsUnnamed name.now names.now }
{
    for other in names.as_slice() {
        if *other == *name {
            return Some(());
        }
    }
    None
}

fn operands(operation: Operation) -> usize
    ensures { result ≡ arity operation }
{
    match operation {
        Operation::Union | Operation::Inter | Operation::Minus | Operation::Product => 2,
        Operation::Flatten | Operation::Reach | Operation::Complement | Operation::Minimise => 1,
    }
}

/// `None` where the expression may not stand there, and for want of memory.
#[cycle(standing)]
pub(crate) fn stands(alloc: Global, e: &Expr, ordered: bool, names: &Names) -> Option<()>
    ensures { IfSome result (λ _. IsWellFormed (tree e.now) ordered names.now) }
{
    match e {
        Expr::Atoms(_) => Some(()),
        Expr::Var(_, name) => named(names, name),
        Expr::Tag(_, _) => Some(()),
        Expr::Tuple(_, parts) => {
            if parts.len() < 2 || parts.len() > 8 {
                return None;
            }
            all_stand(alloc, parts, ordered, names)
        }
        Expr::Listed(_, items) => all_stand(alloc, items, ordered, names),
        Expr::Each(_, item, bindings, condition) => {
            let inside = behind(alloc, bindings, ordered, names)?;
            stands(alloc, item, ordered, &inside)?;
            condition_stands(alloc, condition, ordered, &inside)
        }
        Expr::Part(_, whole, _) => stands(alloc, whole, ordered, names),
        Expr::Apply(_, operation, parts) => {
            if parts.len() != operands(*operation) {
                return None;
            }
            all_stand(alloc, parts, ordered, names)
        }
    }
}

#[cycle(standing)]
fn all_stand(alloc: Global, es: &Exprs, ordered: bool, names: &Names) -> Option<()>
    ensures { IfSome result (λ _. AreWellFormed (exprs_of (exprs_list es.now)) ordered names.now) }
{
    for e in es.as_slice() {
        stands(alloc, e, ordered, names)?;
    }
    Some(())
}

// The names in scope behind the bindings.
#[cycle(standing)]
fn behind(alloc: Global, bindings: &Bindings, ordered: bool, names: &Names) -> Option<Names>
    ensures stand { IfSome result (λ _. BindersAreWellFormed (bindings_of (bindings_list bindings.now)) ordered names.now) }
    ensures names { IfSome result (λ r. r ≡ names_behind_bindings (bindings_of (bindings_list bindings.now)) names.now) }
{
    let mut inside = names.copy(alloc).ok()?;
    for binding in bindings.as_slice() {
        inside = bound(alloc, binding, ordered, &inside)?;
    }
    Some(inside)
}

// The names in scope behind one binding.
#[cycle(standing)]
fn bound(alloc: Global, binding: &Binding, ordered: bool, names: &Names) -> Option<Names>
    ensures from { IfSome result (λ _. IsWellFormed (tree binding.now.from) ordered names.now) }
    ensures new { IfSome result (λ _. IsUnnamed binding.now.name names.now) }
    ensures names { IfSome result (λ r. r ≡ names.now ++ binding.now.name ∷ []) }
{
    stands(alloc, &binding.from, ordered, names)?;
    if named(names, &binding.name).is_some() {
        return None;
    }
    with_name(alloc, names, &binding.name)
}

fn with_name(alloc: Global, names: &Names, name: &Name) -> Option<Names>
    ensures { IfSome result (λ r. r ≡ names.now ++ name.now ∷ []) }
{
    let mut more = names.copy(alloc).ok()?;
    more.push(name.copy(alloc).ok()?).ok()?;
    Some(more)
}

/// The same of a condition.
#[cycle(standing)]
pub(crate) fn condition_stands(alloc: Global, c: &Cond, ordered: bool, names: &Names) -> Option<()>
    ensures { IfSome result (λ _. CondIsWellFormed (cond_tree c.now) ordered names.now) }
{
    match c {
        Cond::True => Some(()),
        Cond::False => Some(()),
        Cond::Same(left, right)
        | Cond::Differ(left, right)
        | Cond::Member(left, right)
        | Cond::Included(left, right) => {
            stands(alloc, left, ordered, names)?;
            stands(alloc, right, ordered, names)
        }
        Cond::Below(_, left, right) => {
            if !ordered {
                return None;
            }
            stands(alloc, left, ordered, names)?;
            stands(alloc, right, ordered, names)
        }
        Cond::Empty(automaton) => stands(alloc, automaton, ordered, names),
        Cond::Not(negated) => condition_stands(alloc, negated, ordered, names),
        Cond::All(parts) | Cond::Any(parts) => conditions_stand(alloc, parts, ordered, names),
        Cond::Exists(binding, body) | Cond::Every(binding, body) => {
            let inside = bound(alloc, binding, ordered, names)?;
            condition_stands(alloc, body, ordered, &inside)
        }
    }
}

#[cycle(standing)]
fn conditions_stand(alloc: Global, cs: &Conds, ordered: bool, names: &Names) -> Option<()>
    ensures { IfSome result (λ _. CondsAreWellFormed (conds_of (conds_list cs.now)) ordered names.now) }
{
    for c in cs.as_slice() {
        condition_stands(alloc, c, ordered, names)?;
    }
    Some(())
}
