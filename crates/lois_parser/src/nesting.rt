//! Whole forms, each with the readers of what stands inside.

ghost use Rattle.std.specs.Prelude.{◌<◌};
ghost use Rattle.lois_descent.specs.Descent as descent;
ghost use Rattle.lois_descent.specs.Descent.{expr_of, cond_of, block_of};
ghost use Rattle.lois_parser.specs.Nests.{GivesExpr, GivesCond, GivesStmts, ConsumesTokens, GivesBinding};

use crate::grammar::Grammar;
use crate::rest::Rest;
use crate::statements::Statements;
use lois_descent::parse_error::ParseError;
use lois_script::{Binding, Cond, Expr, Stmts};
use std::alloc::Global;

/// An expression, where `depth_left` more brackets may be open.
#[cycle(forms)]
pub(crate) fn expression(
    alloc: Global,
    at: Rest<'_>,
    depth_left: usize,
) -> Result<(Expr, Rest<'_>), ParseError>
    ensures read { GivesExpr (expr_of depth_left) at.entry result }
    ensures shorter { ConsumesTokens at.entry result }
{
    Grammar {
        alloc,
        depth_left,
        expr: expression,
        cond: condition,
    }
    .expression(at)
}

/// A condition, where `depth_left` more brackets may be open. Neither `and` nor `or` follows it.
#[cycle(forms)]
pub(crate) fn condition(
    alloc: Global,
    at: Rest<'_>,
    depth_left: usize,
) -> Result<(Cond, Rest<'_>), ParseError>
    ensures read { GivesCond (cond_of depth_left) at.entry result }
    ensures shorter { ConsumesTokens at.entry result }
{
    Grammar {
        alloc,
        depth_left,
        expr: expression,
        cond: condition,
    }
    .condition(at)
}

/// A name and the set that it runs through, where `depth_left` more brackets may be open.
pub(crate) fn binding(
    alloc: Global,
    at: Rest<'_>,
    depth_left: usize,
) -> Result<(Binding, Rest<'_>), ParseError>
    ensures read { GivesBinding (descent.binding (expr_of depth_left)) at.entry result }
    ensures shorter { ConsumesTokens at.entry result }
{
    Grammar {
        alloc,
        depth_left,
        expr: expression,
        cond: condition,
    }
    .binding(at)
}

/// The statements of a block with its `}`, where `depth_left` more brackets may be open.
pub(crate) fn block(
    alloc: Global,
    at: Rest<'_>,
    depth_left: usize,
) -> Result<(Stmts, Rest<'_>), ParseError>
    ensures read { GivesStmts (block_of depth_left) at.entry result }
    ensures shorter { ConsumesTokens at.entry result }
{
    Statements {
        alloc,
        depth_left,
        block,
    }
    .statements(at)
}
