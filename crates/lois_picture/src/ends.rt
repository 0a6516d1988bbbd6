//! The ends of steps and of pairs.

ghost use Rattle.std.specs.Prelude.{IfSome, IfNone};
ghost use Rattle.lois_base.specs.Data.{TermD};
ghost use Rattle.lois_base.specs.Tree.{tree};
ghost use Rattle.lois_picture.specs.Drawing.{IsMoveTerm};

use lois_automata::{pair_parts, step_parts};
use lois_base::Term;

/// The first and the last part of a step or of a pair.
#[derive(Clone, Copy)]
pub struct Ends<'a> {
    pub source: &'a Term,
    pub target: &'a Term,
}

/// The ends of a tuple of three or of two.
pub fn ends_of(item: &Term) -> Option<Ends<'_>>
    ensures some { IfSome result (λ e. IsMoveTerm (tree item.now) (tree e.source.now) (tree e.target.now)) }
    ensures none { IfNone result ((a b : TermD) → IsMoveTerm (tree item.now) a b → ⊥) }
{
    if let Some(step) = step_parts(item) {
        return Some(Ends {
            source: step.source,
            target: step.target,
        });
    }
    let (source, target) = pair_parts(item)?;
    Some(Ends { source, target })
}
