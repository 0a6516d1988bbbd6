//! Statements and blocks.

ghost use Rattle.std.specs.Prelude.{OnOk};
ghost use Rattle.lois_script.specs.View.{stmts_list, stmts_of};
ghost use Rattle.lois_script.specs.Lists.{stmt_tree};
ghost use Rattle.lois_script_printer.specs.Appended.{Appends};
ghost use Rattle.lois_script_printer.specs.Printed.{block, else_clause, written_stmt, written_stmts};

use crate::forms::{put_binding, put_cond, put_expr, put_where};
use crate::tokens::{put, put_line_end, put_number};
use lois_base::NoMemory;
use lois_script::{Stmt, Stmts};

#[cycle(printing_statements)]
fn put_stmt(out: &mut Vec<u8>, statement: &Stmt) -> Result<(), NoMemory>
    ensures { OnOk result (Appends out.old.items (written_stmt (stmt_tree statement.now)) out.new.items) }
{
    match statement {
        Stmt::Let(_, name, given) => {
            put(out, b"let")?;
            put(out, name.bytes())?;
            put(out, b"=")?;
            put_expr(out, given)?;
            put_line_end(out, b";")
        }
        Stmt::Assign(_, name, given) => {
            put(out, name.bytes())?;
            put(out, b":=")?;
            put_expr(out, given)?;
            put_line_end(out, b";")
        }
        Stmt::Add(member, _, name) => {
            put(out, b"add")?;
            put_expr(out, member)?;
            put(out, b"to")?;
            put(out, name.bytes())?;
            put_line_end(out, b";")
        }
        Stmt::For(binding, condition, body) => {
            put(out, b"for")?;
            put_binding(out, binding)?;
            put_where(out, condition)?;
            put_block(out, body)
        }
        Stmt::If(condition, yes_block, no_block) => {
            put(out, b"if")?;
            put_cond(out, condition)?;
            put_block(out, yes_block)?;
            put_else(out, no_block)
        }
        Stmt::While(_, condition, turns, body) => {
            put(out, b"while")?;
            put_cond(out, condition)?;
            put(out, b"turns")?;
            put_number(out, *turns)?;
            put_block(out, body)
        }
        Stmt::Assert(_, condition) => {
            put(out, b"assert")?;
            put_cond(out, condition)?;
            put_line_end(out, b";")
        }
        Stmt::Print(_, _, name) => {
            put(out, b"print")?;
            put(out, name.bytes())?;
            put_line_end(out, b";")
        }
    }
}

#[cycle(printing_statements)]
pub(crate) fn put_stmts(out: &mut Vec<u8>, statements: &Stmts) -> Result<(), NoMemory>
    ensures { OnOk result (Appends out.old.items (written_stmts (stmts_of (stmts_list statements.now))) out.new.items) }
{
    for statement in statements.as_slice() {
        put_stmt(out, statement)?;
    }
    Ok(())
}

#[cycle(printing_statements)]
fn put_block(out: &mut Vec<u8>, body: &Stmts) -> Result<(), NoMemory>
    ensures { OnOk result (Appends out.old.items (block (written_stmts (stmts_of (stmts_list body.now)))) out.new.items) }
{
    put_line_end(out, b"{")?;
    put_stmts(out, body)?;
    put_line_end(out, b"}")
}

#[cycle(printing_statements)]
fn put_else(out: &mut Vec<u8>, body: &Stmts) -> Result<(), NoMemory>
    ensures { OnOk result (Appends
        out.old.items
        (else_clause (stmts_of (stmts_list body.now)) (written_stmts (stmts_of (stmts_list body.now))))
        out.new.items) }
{
    if body.len() == 0 {
        return Ok(());
    }
    put(out, b"else")?;
    put_block(out, body)
}
