//! Trees of parts that were read.

ghost use Rattle.std.specs.Prelude.{◌≡◌, [], ◌∷◌, ◌++◌, IfOk};
ghost use Rattle.lois_script.specs.Tree as trees;
ghost use Rattle.lois_script.specs.View.{tree, cond_tree, binding_tree, bindings_of};
ghost use Rattle.lois_script.specs.Lists.{bindings_list, exprs_list};
ghost use Rattle.lois_descent.specs.Descent.{compared};

use lois_base::NoMemory;
use lois_descent::lexemes::Relation;
use lois_script::{Binding, Bindings, Cond, Expr, Exprs, Pos};
use std::alloc::Global;

/// The first operand of an operation.
pub(crate) fn one_operand(alloc: Global, operand: Expr) -> Result<Exprs, NoMemory>
    ensures listed { IfOk result (λ all. exprs_list all ≡ tree operand ∷ []) }
{
    let mut all = Exprs::new(alloc);
    all.push(operand)?;
    Ok(all)
}

/// The operands, with one more.
pub(crate) fn more_operands(operands: Exprs, operand: Expr) -> Result<Exprs, NoMemory>
    ensures listed { IfOk result (λ all. exprs_list all ≡ exprs_list operands ++ tree operand ∷ []) }
{
    let mut all = operands;
    all.push(operand)?;
    Ok(all)
}

/// A set in braces, of an item for each choice that the bindings and the condition allow.
pub(crate) fn each_item(
    alloc: Global,
    pos: Pos,
    item: Expr,
    bindings: Bindings,
    condition: Cond,
) -> Result<Expr, NoMemory>
    ensures made { IfOk result (λ e. tree e ≡ trees.each pos.offset (tree item) (bindings_of (bindings_list bindings)) (cond_tree condition)) }
{
    let condition = Box::new(alloc, condition)?;
    let item = Box::new(alloc, item)?;
    Ok(Expr::Each(pos, item, bindings, condition))
}

/// Whether the condition holds for some element.
pub(crate) fn exists(alloc: Global, binding: Binding, condition: Cond) -> Result<Cond, NoMemory>
    ensures made { IfOk result (λ c. cond_tree c ≡ trees.exists (binding_tree binding) (cond_tree condition)) }
{
    let condition = Box::new(alloc, condition)?;
    let binding = Box::new(alloc, binding)?;
    Ok(Cond::Exists(binding, condition))
}

/// Whether the condition holds for each element.
pub(crate) fn every(alloc: Global, binding: Binding, condition: Cond) -> Result<Cond, NoMemory>
    ensures made { IfOk result (λ c. cond_tree c ≡ trees.every (binding_tree binding) (cond_tree condition)) }
{
    let condition = Box::new(alloc, condition)?;
    let binding = Box::new(alloc, binding)?;
    Ok(Cond::Every(binding, condition))
}

/// Whether the relation, whose token is here, holds between the two.
pub(crate) fn compared(relation: Relation, pos: Pos, left: Expr, right: Expr) -> Cond
    ensures { cond_tree result ≡ compared relation pos.offset (tree left) (tree right) }
{
    match relation {
        Relation::Same => Cond::Same(left, right),
        Relation::Differ => Cond::Differ(left, right),
        Relation::Below => Cond::Below(pos, left, right),
        Relation::Member => Cond::Member(left, right),
        Relation::Included => Cond::Included(left, right),
    }
}
