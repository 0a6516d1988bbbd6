//! Forms that stand in one another take the readers of what stands inside as parameters, so that each is proved by itself.

ghost use Rattle.std.specs.Prelude.{◌<◌};
ghost use Rattle.lois_descent.specs.Descent.{inner_expr, inner_cond};
ghost use Rattle.lois_parser.specs.Nests.{Nests, GivesExpr, GivesCond, ConsumesTokens};

use crate::rest::Rest;
use lois_descent::parse_error::ParseError;
use lois_script::{Cond, Expr};
use std::alloc::Global;

/// Reads forms where `depth_left` more brackets may be open. `expr` and `cond` read what stands in one bracket more.
#[derive(Clone, Copy)]
pub(crate) struct Grammar<E, C> {
    pub alloc: Global,
    pub depth_left: usize,
    pub expr: E,
    pub cond: C,
}

impl<
    'a,
    E: Fn(Global, Rest<'a>, usize) -> Result<(Expr, Rest<'a>), ParseError>,
    C: Fn(Global, Rest<'a>, usize) -> Result<(Cond, Rest<'a>), ParseError>,
> Grammar<E, C> {
    /// An expression in one bracket more.
    pub(crate) fn inner_expression(&self, at: Rest<'a>) -> Result<(Expr, Rest<'a>), ParseError>
        requires depth_left { 0 < self.now.depth_left }
        requires nested { Nests self.now.depth_left (E.pre self.now.expr) (E.post self.now.expr) (C.pre self.now.cond) (C.post self.now.cond) }
        ensures read { GivesExpr (inner_expr self.now.depth_left) at.entry result }
        ensures shorter { ConsumesTokens at.entry result }
    {
        (self.expr)(self.alloc, at, self.depth_left - 1)
    }

    /// A condition in one bracket more.
    pub(crate) fn inner_condition(&self, at: Rest<'a>) -> Result<(Cond, Rest<'a>), ParseError>
        requires depth_left { 0 < self.now.depth_left }
        requires nested { Nests self.now.depth_left (E.pre self.now.expr) (E.post self.now.expr) (C.pre self.now.cond) (C.post self.now.cond) }
        ensures read { GivesCond (inner_cond self.now.depth_left) at.entry result }
        ensures shorter { ConsumesTokens at.entry result }
    {
        (self.cond)(self.alloc, at, self.depth_left - 1)
    }
}
