//! The results text's value for a translated register automaton.

ghost use Rattle.std.specs.Prelude.{◌≡◌, [], ◌∷◌, codes, IfOk};
ghost use Rattle.lois_answers.specs.Sound.{IsSound};
ghost use Rattle.lois_base.specs.Data.{TermD};
ghost use Rattle.lois_registers.specs.Translation.{IsTranslatedTo};
ghost use Rattle.lois_registers.specs.Valid.{IsRegisters};
ghost use Rattle.lois_registers.specs.Written.{IsWrittenFrom};

use crate::{Registers, translate};
use lois_answers::{Case, Cases, Line, Lines, Results};
use lois_base::{Constraint, Name, Names, NoMemory};
use std::alloc::Global;

/// The results that hold the automaton of `r`: one case, which always holds, with the line `automaton`. Errors: `NoMemory`.
pub fn translate_to_results(alloc: Global, r: &Registers) -> Result<Results, NoMemory>
    requires valid { IsRegisters r.now }
    ensures order { IfOk result (λ s. s.order ≡ r.now.order) }
    ensures parameters { IfOk result (λ s. s.parameters ≡ []) }
    ensures case { IfOk result (λ s. (t : TermD)
        × (s.cases ≡ record { when = [] ∷ []; lines = record { name = codes "automaton"; term = t } ∷ [] } ∷ [])
        × IsTranslatedTo r.now t × IsWrittenFrom r.now t) }
    ensures sound { IfOk result IsSound }
{
    let term = translate(alloc, r)?;
    let name = Name::from_bytes(alloc, b"automaton")?;
    let mut lines = Lines::new(alloc);
    lines.push(Line { name, term })?;
    let mut cases = Cases::new(alloc);
    cases.push(Case {
        when: Constraint::always(alloc)?,
        lines,
    })?;
    Ok(Results {
        order: r.order,
        parameters: Names::new(alloc),
        cases,
    })
}
