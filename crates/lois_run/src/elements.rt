//! The elements of a trace: their terms, and other terms under their names.

ghost use Rattle.std.specs.Prelude.{◌≡◌, ◌<◌, length, get_or, map, IfOk};
ghost use Rattle.lois_base.specs.Tree.{tree};

use lois_answers::{Line, Lines};
use lois_base::{NoMemory, Term, Terms};
use std::alloc::Global;

/// The terms of the elements, in order. Errors: `NoMemory`.
pub(crate) fn terms_of(alloc: Global, elements: &Lines) -> Result<Terms, NoMemory>
    ensures terms { IfOk result (λ r. r ≡ map (λ l. l.term) elements.now) }
{
    let mut terms = Terms::new(alloc);
    for element in elements.as_slice() {
        terms.push(element.term.copy(alloc)?)?;
    }
    Ok(terms)
}

/// Elements of the same names with other terms, in order. Errors: `NoMemory`.
pub(crate) fn with_terms(alloc: Global, elements: &Lines, terms: &Terms) -> Result<Lines, NoMemory>
    requires count { length terms.now ≡ length elements.now }
    ensures names { IfOk result (λ r. map (λ l. l.name) r ≡ map (λ l. l.name) elements.now) }
    ensures terms { IfOk result (λ r. map (λ l. l.term) r ≡ terms.now) }
{
    let items = terms.as_slice();
    let mut changed = Lines::new(alloc);
    for (index, element) in elements.as_slice().iter().enumerate() {
        changed.push(Line {
            name: element.name.copy(alloc)?,
            term: items[index].copy(alloc)?,
        })?;
    }
    Ok(changed)
}
