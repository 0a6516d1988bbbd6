//! The walk over parameters, statements and blocks.

ghost use Rattle.std.specs.Prelude.{◌≡◌, ◌+◌, ◌<◌, take, suc, OnOk, IfOk};
ghost use Rattle.lois_script.specs.Scope.{entered, scope_behind, with_parameters, ParametersBreak, StmtBreaks, StmtsBreak};
ghost use Rattle.lois_script.specs.View.{binding_tree, cond_tree, stmts_of, stmts_list, params_list};
ghost use Rattle.lois_script.specs.Lists.{stmt_tree};
ghost use Rattle.lois_scope.specs.InScope.{made_of};
ghost use Rattle.lois_scope.specs.Walks.{seen, state_of, IsWithin, Walks, AdvancesScope, Enters};

use crate::names::Made;
use crate::walk::Walk;
use lois_base::NoMemory;
use lois_script::{Binding, Cond, Params, Stmt, Stmts};

impl<'a> Walk<'a> {
    /// Each parameter is in scope at the names of those after it.
    pub(crate) fn parameters(&mut self, parameters: &'a Params) -> Result<(), NoMemory>
        ensures walked { OnOk result (AdvancesScope
            (ParametersBreak (params_list parameters.now))
            (with_parameters (params_list parameters.now))
            (seen self.old) (seen self.new)) }
    {
        for parameter in parameters.as_slice() {
            self.declared(&parameter.name, parameter.pos);
            self.names.declare(&parameter.name, Made::Fixed)?;
        }
        Ok(())
    }

    /// A block: the names that are made in it go out of scope at its end.
    #[cycle(statements)]
    pub(crate) fn block(&mut self, body: &'a Stmts) -> Result<(), NoMemory>
        requires within { IsWithin (state_of self.old) }
        ensures walked { OnOk result (Walks (StmtsBreak (stmts_of (stmts_list body.now))) (seen self.old) (seen self.new)) }
    {
        let outside = self.names.len();
        for statement in body.as_slice() {
            self.statement(statement)?;
        }
        self.names.keep_first(outside);
        Ok(())
    }

    #[cycle(statements)]
    fn statement(&mut self, statement: &'a Stmt) -> Result<(), NoMemory>
        requires within { IsWithin (state_of self.old) }
        ensures walked { OnOk result (AdvancesScope
            (StmtBreaks (stmt_tree statement.now))
            (scope_behind (stmt_tree statement.now))
            (seen self.old) (seen self.new)) }
    {
        match statement {
            Stmt::Let(pos, name, value) => {
                self.declared(name, *pos);
                self.expression(value)?;
                self.names.declare(name, Made::Variable(self.loops))
            }
            Stmt::Assign(pos, name, value) => {
                self.assigned(name, *pos);
                self.expression(value)
            }
            Stmt::Add(value, pos, name) => {
                self.expression(value)?;
                self.added(name, *pos);
                Ok(())
            }
            Stmt::For(binding, guard, body) => {
                let outside = self.names.len();
                self.enter_loop(binding, guard)?;
                self.block(body)?;
                self.leave_loop(outside);
                Ok(())
            }
            Stmt::If(condition, yes, no) => {
                self.condition(condition)?;
                self.block(yes)?;
                self.block(no)
            }
            Stmt::While(_, condition, _, body) => {
                self.condition(condition)?;
                self.block(body)
            }
            Stmt::Assert(_, condition) => self.condition(condition),
            Stmt::Print(pos, at, name) => {
                self.printed(*pos);
                self.used(name, *at);
                Ok(())
            }
        }
    }

    // The set is outside the loop, the name and the condition inside.
    fn enter_loop(&mut self, binding: &'a Binding, guard: &'a Cond) -> Result<(), NoMemory>
        requires within { IsWithin (state_of self.old) }
        ensures entered { OnOk result (Enters (binding_tree binding.now) (cond_tree guard.now) (seen self.old) (seen self.new)) }
    {
        self.binding(binding)?;
        self.loops = one_more(self.loops)?;
        self.names.declare(&binding.name, Made::Fixed)?;
        self.condition(guard)
    }

    fn leave_loop(&mut self, before: usize)
        requires { 0 < self.old.loops }
        ensures names { made_of self.new.names ≡ take before (made_of self.old.names) }
        ensures loops { self.new.loops + 1 ≡ self.old.loops }
        ensures ordered { self.new.ordered ≡ self.old.ordered }
        ensures first { self.new.first ≡ self.old.first }
    {
        self.names.keep_first(before);
        self.loops -= 1;
    }
}

// No memory holds a tree with more loops around a place than the greatest usize.
fn one_more(loops: usize) -> Result<usize, NoMemory>
    ensures { IfOk result (λ n. n ≡ suc loops) }
{
    loops.checked_add(1).ok_or(NoMemory)
}
