//! Expressions and conditions.

ghost use Rattle.std.specs.Prelude.{◌≡◌, OnOk};
ghost use Rattle.lois_script.specs.Grammar.{is_base, is_unit, is_conjunction};
ghost use Rattle.lois_script.specs.View.{tree, cond_tree, binding_tree, exprs_of, bindings_of, conds_of};
ghost use Rattle.lois_script.specs.Lists.{exprs_list, bindings_list, conds_list};
ghost use Rattle.lois_script_printer.specs.Appended.{Appends};
ghost use Rattle.lois_script_printer.specs.Printed.{enclosed, is_truth, where_clause, written_expr, written_exprs, written_binding, written_bindings, written_cond, written_units, written_conjunctions};

use crate::tokens::{put, put_number, put_separator, put_tag};
use lois_base::NoMemory;
use lois_script::{Binding, Bindings, Cond, Conds, Expr, Exprs};

#[cycle(printing)]
pub(crate) fn put_expr(out: &mut Vec<u8>, e: &Expr) -> Result<(), NoMemory>
    ensures { OnOk result (Appends out.old.items (written_expr (tree e.now)) out.new.items) }
{
    match e {
        Expr::Atoms(_) => put(out, b"atoms"),
        Expr::Var(_, name) => put(out, name.bytes()),
        Expr::Tag(_, name) => put_tag(out, name),
        Expr::Tuple(_, parts) => {
            put(out, b"(")?;
            put_exprs(out, parts)?;
            put(out, b")")
        }
        Expr::Listed(_, items) => {
            put(out, b"{")?;
            put_exprs(out, items)?;
            put(out, b"}")
        }
        Expr::Each(_, item, bindings, condition) => {
            put(out, b"{")?;
            put_expr(out, item)?;
            put(out, b"for")?;
            put_bindings(out, bindings)?;
            put_where(out, condition)?;
            put(out, b"}")
        }
        Expr::Part(_, tuple, n) => {
            put(out, b"part")?;
            put(out, b"(")?;
            put_expr(out, tuple)?;
            put(out, b",")?;
            put_number(out, *n)?;
            put(out, b")")
        }
        Expr::Apply(_, operation, operands) => {
            put(out, operation.word())?;
            put(out, b"(")?;
            put_exprs(out, operands)?;
            put(out, b")")
        }
    }
}

#[cycle(printing)]
fn put_exprs(out: &mut Vec<u8>, exprs: &Exprs) -> Result<(), NoMemory>
    ensures { OnOk result (Appends out.old.items (written_exprs (exprs_of (exprs_list exprs.now))) out.new.items) }
{
    for (i, e) in exprs.as_slice().iter().enumerate() {
        put_separator(out, i, b",")?;
        put_expr(out, e)?;
    }
    Ok(())
}

#[cycle(printing)]
pub(crate) fn put_binding(out: &mut Vec<u8>, binding: &Binding) -> Result<(), NoMemory>
    ensures { OnOk result (Appends out.old.items (written_binding (binding_tree binding.now)) out.new.items) }
{
    put(out, binding.name.bytes())?;
    put(out, b"in")?;
    put_expr(out, &binding.from)
}

#[cycle(printing)]
fn put_bindings(out: &mut Vec<u8>, bindings: &Bindings) -> Result<(), NoMemory>
    ensures { OnOk result (Appends out.old.items (written_bindings (bindings_of (bindings_list bindings.now))) out.new.items) }
{
    for (i, binding) in bindings.as_slice().iter().enumerate() {
        put_separator(out, i, b",")?;
        put_binding(out, binding)?;
    }
    Ok(())
}

#[cycle(printing)]
pub(crate) fn put_where(out: &mut Vec<u8>, condition: &Cond) -> Result<(), NoMemory>
    ensures { OnOk result (Appends out.old.items (where_clause (cond_tree condition.now) (written_cond (cond_tree condition.now))) out.new.items) }
{
    if is_true(condition) {
        return Ok(());
    }
    put(out, b"where")?;
    put_cond(out, condition)
}

#[cycle(printing)]
pub(crate) fn put_cond(out: &mut Vec<u8>, condition: &Cond) -> Result<(), NoMemory>
    ensures { OnOk result (Appends out.old.items (written_cond (cond_tree condition.now)) out.new.items) }
{
    match condition {
        Cond::True => put(out, b"true"),
        Cond::False => put(out, b"false"),
        Cond::Same(e, f) => {
            put_expr(out, e)?;
            put(out, b"=")?;
            put_expr(out, f)
        }
        Cond::Differ(e, f) => {
            put_expr(out, e)?;
            put(out, b"!=")?;
            put_expr(out, f)
        }
        Cond::Below(_, e, f) => {
            put_expr(out, e)?;
            put(out, b"<")?;
            put_expr(out, f)
        }
        Cond::Member(e, f) => {
            put_expr(out, e)?;
            put(out, b"in")?;
            put_expr(out, f)
        }
        Cond::Included(e, f) => {
            put_expr(out, e)?;
            put(out, b"subset")?;
            put_expr(out, f)
        }
        Cond::Empty(e) => {
            put(out, b"empty")?;
            put(out, b"(")?;
            put_expr(out, e)?;
            put(out, b")")
        }
        Cond::Not(c) => {
            put(out, b"not")?;
            put_enclosed(out, is_base(c), c)
        }
        Cond::All(cs) => put_units(out, cs),
        Cond::Any(cs) => put_conjunctions(out, cs),
        Cond::Exists(binding, c) => {
            put(out, b"exists")?;
            put_binding(out, binding)?;
            put(out, b":")?;
            put_enclosed(out, is_base(c), c)
        }
        Cond::Every(binding, c) => {
            put(out, b"forall")?;
            put_binding(out, binding)?;
            put(out, b":")?;
            put_enclosed(out, is_base(c), c)
        }
    }
}

/// Writes a condition, in brackets where it hasn't the form that is asked for.
#[cycle(printing)]
fn put_enclosed(out: &mut Vec<u8>, has_form: bool, condition: &Cond) -> Result<(), NoMemory>
    ensures { OnOk result (Appends out.old.items (enclosed has_form (written_cond (cond_tree condition.now))) out.new.items) }
{
    if has_form {
        return put_cond(out, condition);
    }
    put(out, b"[")?;
    put_cond(out, condition)?;
    put(out, b"]")
}

#[cycle(printing)]
fn put_units(out: &mut Vec<u8>, units: &Conds) -> Result<(), NoMemory>
    ensures { OnOk result (Appends out.old.items (written_units (conds_of (conds_list units.now))) out.new.items) }
{
    for (i, unit) in units.as_slice().iter().enumerate() {
        put_separator(out, i, b"and")?;
        put_enclosed(out, is_unit(unit), unit)?;
    }
    Ok(())
}

#[cycle(printing)]
fn put_conjunctions(out: &mut Vec<u8>, conjunctions: &Conds) -> Result<(), NoMemory>
    ensures { OnOk result (Appends out.old.items (written_conjunctions (conds_of (conds_list conjunctions.now))) out.new.items) }
{
    for (i, conjunction) in conjunctions.as_slice().iter().enumerate() {
        put_separator(out, i, b"or")?;
        put_enclosed(out, is_conjunction(conjunction), conjunction)?;
    }
    Ok(())
}

fn is_true(condition: &Cond) -> bool
    ensures { result ≡ is_truth (cond_tree condition.now) }
{
    matches!(condition, Cond::True)
}

/// Whether the condition may stand behind `not`.
fn is_base(condition: &Cond) -> bool
    ensures { result ≡ is_base (cond_tree condition.now) }
{
    match condition {
        Cond::Not(_) | Cond::All(_) | Cond::Any(_) | Cond::Exists(_, _) | Cond::Every(_, _) =>
            false,
        _ => true,
    }
}

/// Whether the condition may stand beside `and`.
fn is_unit(condition: &Cond) -> bool
    ensures { result ≡ is_unit (cond_tree condition.now) }
{
    match condition {
        Cond::All(_) | Cond::Any(_) => false,
        _ => true,
    }
}

/// Whether the condition may stand beside `or`.
fn is_conjunction(condition: &Cond) -> bool
    ensures { result ≡ is_conjunction (cond_tree condition.now) }
{
    match condition {
        Cond::Any(_) => false,
        _ => true,
    }
}
