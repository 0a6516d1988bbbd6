//! What is asked of a decider. A trait stands between, since functions that call one another can't have a boxed decider in
//! their signatures.

ghost use Rattle.std.specs.Prelude.{◌↔◌, IfOk, IfSome, IsNone};
ghost use Rattle.lois_base.specs.Fits.{ConstraintFits};
ghost use Rattle.lois_deciders.specs.Satisfaction.{IsConstraintSample, IsEntailed};
ghost use Rattle.lois_deciders.specs.Satisfiability.{ConstraintIsSatisfiable, IsCounterexample};
ghost use Rattle.lois_deciders.specs.Conjunction.{IsSampledConjunction, AreInconsistent};

use lois_base::{Constraint, NoMemory};
use lois_deciders::SampledConstraint;
use std::alloc::Global;

pub(crate) trait Oracle {
    // what is needed for its answers to be right
    ghost sound: { Type 0 };

    // questions lead from one to the other
    ghost reaches: { Self → Self → Type 0 };

    /// `size` numbers at which the constraint holds, or `None` where it holds at no choice of atoms.
    fn sample(
        &mut self,
        alloc: Global,
        c: &Constraint,
        size: usize,
    ) -> Result<Option<Vec<u64>>, NoMemory>
        requires sound { sound }
        requires levels { ConstraintFits size c.now }
        ensures some { IfOk result (λ o. IfSome o (λ s. IsConstraintSample size c.now s.items)) }
        ensures none { IfOk result (λ o. IsNone o ↔ (ConstraintIsSatisfiable size c.now → ⊥)) }
        ensures asked { reaches self.old self.new };

    /// The pruned constraint that holds where `a` and `b` both do, with `size` numbers at which it holds, or `None` where the two
    /// exclude each other.
    fn both(
        &mut self,
        alloc: Global,
        a: &Constraint,
        b: &Constraint,
        size: usize,
    ) -> Result<Option<SampledConstraint>, NoMemory>
        requires sound { sound }
        requires first { ConstraintFits size a.now }
        requires second { ConstraintFits size b.now }
        ensures met { IfOk result (λ o. IfSome o (λ m. IsSampledConjunction size a.now b.now m.constraint m.sample)) }
        ensures none { IfOk result (λ o. IsNone o ↔ AreInconsistent size a.now b.now) }
        ensures asked { reaches self.old self.new };

    /// `size` numbers at which `c` holds and `d` doesn't, or `None` where `d` holds wherever `c` does.
    fn counterexample(
        &mut self,
        alloc: Global,
        c: &Constraint,
        d: &Constraint,
        size: usize,
    ) -> Result<Option<Vec<u64>>, NoMemory>
        requires sound { sound }
        requires first { ConstraintFits size c.now }
        requires second { ConstraintFits size d.now }
        ensures some { IfOk result (λ o. IfSome o (λ s. IsCounterexample size c.now d.now s.items)) }
        ensures none { IfOk result (λ o. IsNone o ↔ IsEntailed size c.now d.now) }
        ensures asked { reaches self.old self.new };

    ghost reaches_itself: { (a : Self) → reaches a a };

    ghost reaches_then: { (a b c : Self) → reaches a b → reaches b c → reaches a c };
}

/// A decider, and functions that ask it. Its type isn't named.
#[derive(Drop)]
pub(crate) struct Queries<'a, D, S, B, C> {
    pub(crate) decider: &'a mut D,
    pub(crate) sample: S,
    pub(crate) both: B,
    pub(crate) counterexample: C,
}

impl<
    'a,
    D,
    S: Fn(&mut D, Global, &Constraint, usize) -> Result<Option<Vec<u64>>, NoMemory>,
    B: Fn(
        &mut D,
        Global,
        &Constraint,
        &Constraint,
        usize,
    ) -> Result<Option<SampledConstraint>, NoMemory>,
    C: Fn(&mut D, Global, &Constraint, &Constraint, usize) -> Result<Option<Vec<u64>>, NoMemory>,
> Oracle for Queries<'a, D, S, B, C> {
    ghost use Rattle.std.specs.Prelude.{◌≡◌, ◌⊎◌};
    ghost use Rattle.lois_deciders.specs.Satisfaction.{IsEntailed};
    ghost use Rattle.lois_deciders.specs.Satisfiability.{IsCounterexample};
    ghost use Rattle.lois_deciders.specs.Conjunction.{IsSampledConjunction, AreInconsistent};
    ghost use Rattle.lois_deciders.specs.Oracle.{FindsSamples, AnswersPairs, LeadsByOne, LeadsByTwo};
    ghost use Rattle.lois_deciders.specs.Reached.{IsInClosure, still_reached, reached_further};

    ghost sound = { FindsSamples S.pre S.post × AnswersPairs B.pre B.post (λ n a b m. IsSampledConjunction n a b m.constraint m.sample) AreInconsistent × AnswersPairs C.pre C.post (λ n c d s. IsCounterexample n c d s.items) IsEntailed };

    ghost reaches = { λ a b. IsInClosure (λ p q. LeadsByOne S.post p q ⊎ (LeadsByTwo B.post p q ⊎ LeadsByTwo C.post p q)) a.decider.now b.decider.now × (b.decider.ghost_name ≡ a.decider.ghost_name) };

    ghost reaches_itself = { λ a. still_reached _ a.decider };

    ghost reaches_then = { λ a b c h k. reached_further _ a.decider b.decider c.decider h k };

    fn sample(
        &mut self,
        alloc: Global,
        c: &Constraint,
        size: usize,
    ) -> Result<Option<Vec<u64>>, NoMemory> {
        (self.sample)(self.decider, alloc, c, size)
    }

    fn both(
        &mut self,
        alloc: Global,
        a: &Constraint,
        b: &Constraint,
        size: usize,
    ) -> Result<Option<SampledConstraint>, NoMemory> {
        (self.both)(self.decider, alloc, a, b, size)
    }

    fn counterexample(
        &mut self,
        alloc: Global,
        c: &Constraint,
        d: &Constraint,
        size: usize,
    ) -> Result<Option<Vec<u64>>, NoMemory> {
        (self.counterexample)(self.decider, alloc, c, d, size)
    }
}
