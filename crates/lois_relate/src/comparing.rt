//! Comparisons of items, used in both directions.

ghost use Rattle.std.specs.Prelude.{◌≡◌, ◌+◌, ◌<◌, ◌^◌, IfOk, IfSome, Contains};
ghost use Rattle.lois_base.specs.FormulaData.{FormulaFits};
ghost use Rattle.lois_base.specs.FormulaView.{view};
ghost use Rattle.lois_relate.specs.declared.comparing.Pair.{Pair};
ghost use Rattle.lois_relate.specs.Compared.{IsEquivalentFormula, IsLevelSwap, IsTableEntry, turned_names};

use crate::naming::{extend_names, guard_formula, inner_size};
use lois_base::{Formula, NoMemory};
use lois_elim::quantifier_free;
use lois_order::OrderAtoms;
use std::alloc::Global;

/// A formula over two blocks of binders, and the same with the blocks turned.
#[derive(Drop)]
pub struct Comparison {
    pub forth: Formula,
    pub back: Formula,
}

/// Where a comprehension is paired with the one at a place of another set.
#[derive(Drop)]
pub struct Pair {
    pub place: usize,
    pub there: Formula,
}

/// What is known of one comprehension beside those of a set: for each of these a row of pairs, by ascending places, and the place of the comprehension.
#[derive(Clone, Copy)]
pub struct PairCache<'a> {
    pub rows: &'a [Vec<Pair>],
    pub place: usize,
}

impl<'a> PairCache<'a> {
    /// The formula that is known for the comprehension.
    pub fn of(self, comp: usize) -> Option<&'a Formula>
        ensures { IfSome result (λ f. IsTableEntry self.entry.rows.now comp self.entry.place (view f.now)) }
    {
        match self.rows.get(comp) {
            Some(row) => paired_at(row.as_slice(), self.place),
            None => None,
        }
    }
}

// What the row has for the place.
fn paired_at(row: &[Pair], place: usize) -> Option<&Formula>
    ensures { IfSome result (λ f. (p : Pair) × Contains row.now p × (p.place ≡ place) × (view p.there ≡ view f.now)) }
{
    match row.binary_search_by_key(&place, |pair| pair.place) {
        Ok(found) => Some(&row[found].there),
        Err(_) => None,
    }
}

// The names of `size` levels and of two blocks behind them, where the second block comes first.
fn turned(alloc: Global, size: usize, first: usize, second: usize) -> Result<Vec<usize>, NoMemory>
    ensures { IfOk result (λ r. r.items ≡ turned_names size first second) }
{
    let inner = inner_size(size, second)?;
    let levels = extend_names(alloc, &[], 0, size)?;
    let longer = extend_names(alloc, levels.as_slice(), inner, first)?;
    extend_names(alloc, longer.as_slice(), size, second)
}

/// The formula, and the same with the blocks turned. It is freed of quantifiers before it is doubled: else nested sets would double it at each depth.
pub fn both_ways(
    alloc: Global,
    paired: &Formula,
    size: usize,
    first: usize,
    second: usize,
) -> Result<Comparison, NoMemory>
    requires room { (size + first) + second < 2 ^ 64 }
    requires levels { FormulaFits ((size + first) + second) (view paired.now) }
    ensures forth { IfOk result (λ r. IsEquivalentFormula ((size + first) + second) (view paired.now) (view r.forth)) }
    ensures back { IfOk result (λ r. IsLevelSwap size first second (view paired.now) (view r.back)) }
{
    let whole = size + first + second;
    // The atoms are the same fractions in each structure, and an answer has `<` only where the formula has it.
    let kept = quantifier_free::<OrderAtoms>(alloc, paired, whole)?;
    let levels = extend_names(alloc, &[], 0, whole)?;
    let forth = guard_formula(alloc, &kept, levels.as_slice())?;
    let other_levels = turned(alloc, size, first, second)?;
    let back = guard_formula(alloc, &kept, other_levels.as_slice())?;
    Ok(Comparison { forth, back })
}
