//! Operands, of which there are one or two.

ghost use Rattle.std.specs.Prelude.{◌≡◌, [], ◌∷◌, length};
ghost use Rattle.lois_base.specs.Tree.{tree as term_tree};
ghost use Rattle.lois_script.specs.View.{tree};
ghost use Rattle.lois_script.specs.Lists.{exprs_list};

use lois_base::{Term, Terms};
use lois_script::{Expr, Exprs};

pub(crate) fn one_expr(operands: &Exprs) -> &Expr
    requires { length (exprs_list operands.now) ≡ 1 }
    ensures { exprs_list operands.now ≡ tree result.now ∷ [] }
{
    match operands.as_slice() {
        [e] => e,
        _ => unreachable!(),
    }
}

pub(crate) fn two_exprs(operands: &Exprs) -> (&Expr, &Expr)
    requires { length (exprs_list operands.now) ≡ 2 }
    ensures { exprs_list operands.now ≡ tree result.0.now ∷ tree result.1.now ∷ [] }
{
    match operands.as_slice() {
        [e, f] => (e, f),
        _ => unreachable!(),
    }
}

pub(crate) fn one_term(values: &Terms) -> &Term
    requires { length values.now ≡ 1 }
    ensures { values.now ≡ term_tree result.now ∷ [] }
{
    match values.as_slice() {
        [s] => s,
        _ => unreachable!(),
    }
}

pub(crate) fn two_terms(values: &Terms) -> (&Term, &Term)
    requires { length values.now ≡ 2 }
    ensures { values.now ≡ term_tree result.0.now ∷ term_tree result.1.now ∷ [] }
{
    match values.as_slice() {
        [s, t] => (s, t),
        _ => unreachable!(),
    }
}
