//! Where atoms stand as numbers do.

ghost use Rattle.std.specs.Prelude.{ℕ, ◌+◌, ◌<◌, ◌^◌, ◌↔◌, List, length, IfOk, IsTrue};
ghost use Rattle.lois_base.specs.Atom.{Atom, whole};
ghost use Rattle.lois_base.specs.Fits.{LitFits};
ghost use Rattle.lois_base.specs.FormulaView.{view};
ghost use Rattle.lois_base.specs.Patterns.{AreAlike};
ghost use Rattle.lois_base.specs.Truth.{atom_at, lit_holds, sampled};
ghost use Rattle.lois_base.specs.Validity.{AdmitsLit};
ghost use Rattle.lois_census.specs.Alike.{StandAlike, StandsBeside, SaysBehind};

use lois_base::{Formula, Lit, NoMemory, Op, Structure};
use lois_relate::building::{conjunction, true_formula};
use std::alloc::Global;

/// The literal that the atoms at two levels stand to one another as two numbers do.
fn related<T: Structure>(number: u64, other: u64, left: usize, right: usize) -> Lit
    ensures truth { (c : List Atom) → IsTrue (lit_holds c result) ↔ StandAlike T.ordered (whole number) (whole other) (atom_at c left) (atom_at c right) }
    ensures levels { (n : ℕ) → left < n → right < n → LitFits n result }
    ensures operators { AdmitsLit T.ordered result }
{
    if number == other {
        return Lit {
            op: Op::Eq,
            left,
            right,
        };
    }
    if !T::admits(Op::Lt) {
        return Lit {
            op: Op::Ne,
            left,
            right,
        };
    }
    if number < other {
        return Lit {
            op: Op::Lt,
            left,
            right,
        };
    }
    Lit {
        op: Op::Lt,
        left: right,
        right: left,
    }
}

// Where the atom at position `last`, of those from level `from` on, stands to each one before it as the numbers do.
fn alike_beside<T: Structure>(
    alloc: Global,
    sample: &[u64],
    last: usize,
    from: usize,
) -> Result<Formula, NoMemory>
    requires position { last < length sample.now }
    requires room { from + length sample.now < 2 ^ 64 }
    ensures { IfOk result (λ f. SaysBehind T.ordered from (length sample.now) (StandsBeside T.ordered sample.now last last) (view f)) }
{
    let mut met = true_formula(alloc);
    for i in 0..last {
        let literal = related::<T>(sample[i], sample[last], from + i, from + last);
        met = conjunction(alloc, met, Formula::Lit(literal))?;
    }
    Ok(met)
}

/// Where the atoms at the levels from `from` on stand as the numbers of the sample do: a literal for each two of them.
pub(crate) fn alike<T: Structure>(
    alloc: Global,
    sample: &[u64],
    from: usize,
) -> Result<Formula, NoMemory>
    requires room { from + length sample.now < 2 ^ 64 }
    ensures { IfOk result (λ f. SaysBehind T.ordered from (length sample.now) (AreAlike T.ordered (sampled sample.now)) (view f)) }
{
    let mut met = true_formula(alloc);
    for last in 0..sample.len() {
        let beside = alike_beside::<T>(alloc, sample, last, from)?;
        met = conjunction(alloc, met, beside)?;
    }
    Ok(met)
}
