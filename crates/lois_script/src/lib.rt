//! What scripts are: their trees, and which text spells which tree, within which limits and under which rules of scope.
#![tactic(auto)]

mod script;
mod syntax;

pub use script::{Param, Params, Script, Stmt, Stmts};
pub use syntax::{Binding, Bindings, Cond, Conds, Expr, Exprs, Operation, Pos};
