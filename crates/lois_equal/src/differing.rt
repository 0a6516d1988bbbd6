//! Whether two automata accept the same words.

ghost use Rattle.std.specs.Prelude.{◌≡◌, Bool, IfOk, ◌↔◌};
ghost use Rattle.std.specs.List.{All};
ghost use Rattle.lois_base.specs.Over.{IsOver, ConstraintIsOver};
ghost use Rattle.lois_base.specs.Tree.{tree};
ghost use Rattle.lois_base.specs.Validity.{AdmitsTerm, HasBoundedWidths, IsStrictTerm};
ghost use Rattle.lois_deciders.specs.OnlyAsked.{HasOnlyAsked};
ghost use Rattle.lois_automata.specs.Deterministic.{IsDeterministicAt};
ghost use Rattle.lois_automata.specs.Throughout.{HoldsThroughout};
ghost use Rattle.lois_ranks.specs.Ranks.{AreRanks};
ghost use Rattle.lois_equal.specs.Differing.{HaveSameLanguage, IsDistinguishingWord};
ghost use Rattle.lois_equal.specs.Differences.{IsSameAnswer, IfDiffers, IsShorterOf, sided};

use crate::difference::shortest_difference;
use lois_base::{Constraint, Decider, NoMemory, Numbers, Structure, Term, Terms};
use lois_deciders::Chosen;
use lois_shortest_word::Word;
use std::alloc::Global;

/// A word that one of two automata accepts and the other doesn't: letters as terms, and numbers for all levels that they use.
/// The first numbers are the choice of atoms. `left` says that the first automaton accepts it.
#[derive(Drop)]
pub struct Difference {
    pub sample: Numbers,
    pub word: Terms,
    pub left: bool,
}

/// Whether two automata accept the same words.
#[derive(Drop)]
pub enum Equality {
    Same,
    Differs(Difference),
}

/// Whether the deterministic automata `a` and `b` accept the same words at each choice of atoms that `under` admits, or a word
/// that exactly one of them accepts at some such choice; no shorter word tells them apart, at any such choice. `b` alone accepts
/// it only where no word as short is accepted by `a` alone. The word's numbers are ranks. The automata need not be complete, and their
/// letters may differ. Errors: `NoMemory`, also where a level would pass the greatest usize.
pub fn equal<T: Structure>(
    alloc: Global,
    a: &Term,
    b: &Term,
    under: &Constraint,
    size: usize,
    chosen: &mut Chosen,
) -> Result<Equality, NoMemory>
    requires over { IsOver T.ordered size (tree a.now) }
    requires other { IsOver T.ordered size (tree b.now) }
    requires under { ConstraintIsOver T.ordered size under.now }
    requires deterministic { HoldsThroughout size under.now (IsDeterministicAt (tree a.now)) }
    requires other_deterministic { HoldsThroughout size under.now (IsDeterministicAt (tree b.now)) }
    ensures same { IfOk result (λ r. IsSameAnswer r ↔ HaveSameLanguage size under.now (tree a.now) (tree b.now)) }
    ensures differs { IfOk result (IfDiffers (IsDistinguishingWord size under.now (tree a.now) (tree b.now))) }
    ensures operators { IfOk result (IfDiffers (λ d. (o : Bool) → AdmitsTerm o (tree a.now) → AdmitsTerm o (tree b.now) → All (AdmitsTerm o) d.word)) }
    ensures widths { IfOk result (IfDiffers (λ d. HasBoundedWidths (tree a.now) → HasBoundedWidths (tree b.now) → All HasBoundedWidths d.word)) }
    ensures strict { IfOk result (IfDiffers (λ d. All IsStrictTerm d.word)) }
    ensures ranked { IfOk result (IfDiffers (λ d. AreRanks T.ordered d.sample)) }

    // whatever is answered
    ensures only_asked { HasOnlyAsked (λ b. (⟦<dyn Decider as Decider>⟧ b.vtable).kind_of b.value) (λ b. (⟦<dyn Decider as Decider>⟧ b.vtable).questions b.value) chosen.old chosen.new }
{
    let first = shortest_difference::<T>(alloc, a, b, under, size, chosen)?;
    let second = shortest_difference::<T>(alloc, b, a, under, size, chosen)?;
    Ok(shorter(first, second))
}

// Of a word that the first automaton alone accepts and one that the second alone accepts, the shorter one.
fn shorter(first: Option<Word>, second: Option<Word>) -> Equality
    ensures { IsShorterOf first second result }
{
    match (first, second) {
        (None, None) => Equality::Same,
        (Some(word), None) => difference_of(word, true),
        (None, Some(word)) => difference_of(word, false),
        (Some(one), Some(other)) => {
            if other.letters.len() < one.letters.len() {
                return difference_of(other, false);
            }
            difference_of(one, true)
        }
    }
}

fn difference_of(word: Word, left: bool) -> Equality
    ensures { result ≡ sided word left }
{
    Equality::Differs(Difference {
        sample: word.sample,
        word: word.letters,
        left,
    })
}
