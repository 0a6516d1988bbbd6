//! The first break of a rule that a walk over a script has met.

ghost use Rattle.std.specs.Prelude.{◌≡◌, ◌↔◌, IsTrue, false, None};
ghost use Rattle.lois_script.specs.Scope.{rule_number};
ghost use Rattle.lois_scope.specs.Breaks.{rule_view, break_of, kept_of, IsNoLater, KeepsLeast};

use lois_script::Pos;

/// The rules of scope, in the order in which they are reported at one place.
#[derive(Clone, Copy)]
pub(crate) enum Rule {
    Unknown,
    Again,
    OuterAssign,
    PrintInLoop,
    OrderInEquality,
}

/// A rule with the place that breaks it.
#[derive(Clone, Copy)]
pub(crate) struct Break {
    pub(crate) rule: Rule,
    pub(crate) pos: Pos,
}

/// The break with the least place so far, and at one place that of the rule with the lowest number.
#[derive(Drop)]
pub(crate) struct FirstBreak {
    pub(crate) found: Option<Break>,
}

impl FirstBreak {
    /// No break was met.
    pub(crate) fn new() -> Self
        ensures none { kept_of result ≡ None }
    {
        FirstBreak { found: None }
    }

    /// Takes a break into account.
    pub(crate) fn note(&mut self, rule: Rule, pos: Pos)
        ensures least { KeepsLeast (λ r at. (r ≡ rule_view rule) × (at ≡ pos.offset)) (kept_of self.old) (kept_of self.new) }
    {
        let met = Break { rule, pos };
        match self.found {
            Some(kept) if kept.is_no_later(met) => {}
            _ => self.found = Some(met),
        }
    }
}

impl Break {
    fn is_no_later(self, other: Break) -> bool
        ensures no_later { IsTrue result ↔ IsNoLater (break_of self) (break_of other) }
        ensures later { result ≡ false → IsNoLater (break_of other) (break_of self) }
    {
        let (here, there) = (self.pos.offset, other.pos.offset);
        here < there || here == there && self.rule.number() <= other.rule.number()
    }
}

impl Rule {
    fn number(self) -> u8
        ensures exact { result ≡ rule_number (rule_view self) }
    {
        match self {
            Rule::Unknown => 1,
            Rule::Again => 2,
            Rule::OuterAssign => 3,
            Rule::PrintInLoop => 4,
            Rule::OrderInEquality => 5,
        }
    }
}
