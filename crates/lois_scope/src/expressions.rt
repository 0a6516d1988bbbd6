//! The walk over expressions and conditions.

ghost use Rattle.std.specs.Prelude.{OnOk};
ghost use Rattle.lois_script.specs.Scope.{bound, ExprBreaks, ExprsBreak, BindingBreaks, BindingsBreak, CondBreaks, CondsBreak};
ghost use Rattle.lois_script.specs.View.{tree, exprs_of, binding_tree, bindings_of, cond_tree, conds_of};
ghost use Rattle.lois_script.specs.Lists.{exprs_list, bindings_list, conds_list};
ghost use Rattle.lois_scope.specs.Walks.{seen, Walks, AdvancesScope};

use crate::names::Made;
use crate::walk::Walk;
use lois_base::NoMemory;
use lois_script::{Binding, Bindings, Cond, Conds, Expr, Exprs};

impl<'a> Walk<'a> {
    #[cycle(expressions)]
    pub(crate) fn expression(&mut self, expression: &'a Expr) -> Result<(), NoMemory>
        ensures walked { OnOk result (Walks (ExprBreaks (tree expression.now)) (seen self.old) (seen self.new)) }
    {
        match expression {
            Expr::Atoms(_) => Ok(()),
            Expr::Var(pos, name) => {
                self.used(name, *pos);
                Ok(())
            }
            Expr::Tag(_, _) => Ok(()),
            Expr::Tuple(_, parts) => self.expressions(parts),
            Expr::Listed(_, items) => self.expressions(items),
            Expr::Each(_, item, bindings, guard) => {
                let outside = self.names.len();
                self.bindings(bindings)?;
                self.expression(item)?;
                self.condition(guard)?;
                self.names.keep_first(outside);
                Ok(())
            }
            Expr::Part(_, whole, _) => self.expression(whole),
            Expr::Apply(_, _, operands) => self.expressions(operands),
        }
    }

    #[cycle(expressions)]
    fn expressions(&mut self, expressions: &'a Exprs) -> Result<(), NoMemory>
        ensures walked { OnOk result (Walks (ExprsBreak (exprs_of (exprs_list expressions.now))) (seen self.old) (seen self.new)) }
    {
        for item in expressions.as_slice() {
            self.expression(item)?;
        }
        Ok(())
    }

    // Each binder is in scope at the names and in the sets of those after it.
    #[cycle(expressions)]
    fn bindings(&mut self, bindings: &'a Bindings) -> Result<(), NoMemory>
        ensures walked { OnOk result (AdvancesScope
            (BindingsBreak (bindings_of (bindings_list bindings.now)))
            (bound (bindings_of (bindings_list bindings.now)))
            (seen self.old) (seen self.new)) }
    {
        for binding in bindings.as_slice() {
            self.binding(binding)?;
            self.names.declare(&binding.name, Made::Fixed)?;
        }
        Ok(())
    }

    /// The name and the set of a binding, before the name is in scope.
    #[cycle(expressions)]
    pub(crate) fn binding(&mut self, binding: &'a Binding) -> Result<(), NoMemory>
        ensures walked { OnOk result (Walks (BindingBreaks (binding_tree binding.now)) (seen self.old) (seen self.new)) }
    {
        self.declared(&binding.name, binding.pos);
        self.expression(&binding.from)
    }

    #[cycle(expressions)]
    pub(crate) fn condition(&mut self, condition: &'a Cond) -> Result<(), NoMemory>
        ensures walked { OnOk result (Walks (CondBreaks (cond_tree condition.now)) (seen self.old) (seen self.new)) }
    {
        match condition {
            Cond::True => Ok(()),
            Cond::False => Ok(()),
            Cond::Same(left, right)
            | Cond::Differ(left, right)
            | Cond::Member(left, right)
            | Cond::Included(left, right) => {
                self.expression(left)?;
                self.expression(right)
            }
            Cond::Below(pos, left, right) => {
                self.expression(left)?;
                self.compared(*pos);
                self.expression(right)
            }
            Cond::Empty(automaton) => self.expression(automaton),
            Cond::Not(negated) => self.condition(negated),
            Cond::All(parts) | Cond::Any(parts) => self.conditions(parts),
            Cond::Exists(binding, body) | Cond::Every(binding, body) => {
                let outside = self.names.len();
                self.binding(binding)?;
                self.names.declare(&binding.name, Made::Fixed)?;
                self.condition(body)?;
                self.names.keep_first(outside);
                Ok(())
            }
        }
    }

    #[cycle(expressions)]
    fn conditions(&mut self, conditions: &'a Conds) -> Result<(), NoMemory>
        ensures walked { OnOk result (Walks (CondsBreak (conds_of (conds_list conditions.now))) (seen self.old) (seen self.new)) }
    {
        for condition in conditions.as_slice() {
            self.condition(condition)?;
        }
        Ok(())
    }
}
