//! A walk over a script: the names in scope at the place that it has reached, and the first break of a rule so far.

ghost use Rattle.std.specs.Prelude.{◌≡◌, IsTrue};
ghost use Rattle.lois_script.specs.Scope.{UseBreaks, DeclarationBreaks, AssignBreaks, AddBreaks};
ghost use Rattle.lois_scope.specs.Breaks.{rule_view, kept_of, KeepsLeast};
ghost use Rattle.lois_scope.specs.Walks.{seen, state_of, Walks, ComparisonBreaks, PrintBreaks};

use crate::breaks::{FirstBreak, Rule};
use crate::names::{Names, Role};
use lois_base::Name;
use lois_script::Pos;

/// Where a walk stands.
#[derive(Drop)]
pub(crate) struct Walk<'a> {
    pub(crate) names: Names<'a>,
    /// How many loops are around the place.
    pub(crate) loops: usize,
    pub(crate) ordered: bool,
    pub(crate) first: FirstBreak,
}

impl<'a> Walk<'a> {
    /// A name is used.
    pub(crate) fn used(&mut self, name: &Name, pos: Pos)
        ensures walked { Walks (UseBreaks name.now pos.offset) (seen self.old) (seen self.new) }
    {
        let unknown = self.names.role(name, self.loops).is_none();
        self.note_where(unknown, Rule::Unknown, pos);
    }

    /// A name is declared.
    pub(crate) fn declared(&mut self, name: &Name, pos: Pos)
        ensures walked { Walks (DeclarationBreaks name.now pos.offset) (seen self.old) (seen self.new) }
    {
        let again = self.names.role(name, self.loops).is_some();
        self.note_where(again, Rule::Again, pos);
    }

    /// A name is assigned a new value.
    pub(crate) fn assigned(&mut self, name: &Name, pos: Pos)
        ensures walked { Walks (AssignBreaks name.now pos.offset) (seen self.old) (seen self.new) }
    {
        match self.names.role(name, self.loops) {
            None => self.first.note(Rule::Unknown, pos),
            Some(Role::Inner) => {}
            Some(Role::Outer) => self.first.note(Rule::OuterAssign, pos),
            Some(Role::Fixed) => self.first.note(Rule::OuterAssign, pos),
        }
    }

    /// A value is added to what a name holds.
    pub(crate) fn added(&mut self, name: &Name, pos: Pos)
        ensures walked { Walks (AddBreaks name.now pos.offset) (seen self.old) (seen self.new) }
    {
        match self.names.role(name, self.loops) {
            None => self.first.note(Rule::Unknown, pos),
            Some(Role::Inner) => {}
            Some(Role::Outer) => {}
            Some(Role::Fixed) => self.first.note(Rule::OuterAssign, pos),
        }
    }

    /// Two atoms are compared.
    pub(crate) fn compared(&mut self, pos: Pos)
        ensures walked { Walks (ComparisonBreaks pos.offset) (seen self.old) (seen self.new) }
    {
        let unordered = !self.ordered;
        self.note_where(unordered, Rule::OrderInEquality, pos);
    }

    /// A line is printed.
    pub(crate) fn printed(&mut self, pos: Pos)
        ensures walked { Walks (PrintBreaks pos.offset) (seen self.old) (seen self.new) }
    {
        let in_loop = self.loops > 0;
        self.note_where(in_loop, Rule::PrintInLoop, pos);
    }

    fn note_where(&mut self, broken: bool, rule: Rule, pos: Pos)
        ensures place { state_of self.new ≡ state_of self.old }
        ensures least { KeepsLeast (λ r at. (r ≡ rule_view rule) × (at ≡ pos.offset) × IsTrue broken) (kept_of self.old.first) (kept_of self.new.first) }
    {
        if broken {
            self.first.note(rule, pos);
        }
    }
}
