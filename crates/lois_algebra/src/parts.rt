//! The parts of tuples.

ghost use Rattle.std.specs.Prelude.{◌≡◌, option_map};
ghost use Rattle.lois_base.specs.Tree.{tree};
ghost use Rattle.lois_algebra.specs.Parts.{part_of};

use lois_base::Term;

/// The part of a tuple with this number, counted from 1, or `None` where the term is no tuple or has no such part.
pub fn project(t: &Term, index: usize) -> Option<&Term>
    ensures { option_map (λ part. tree part.now) result ≡ part_of (tree t.now) index }
{
    if index == 0 {
        return None;
    }
    match t {
        Term::Tup(parts) => parts.get(index - 1),
        _ => None,
    }
}
