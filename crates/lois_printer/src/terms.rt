//! The text of terms.

ghost use Rattle.std.specs.Prelude.{◌≡◌, ◌++◌, ◌+◌, ◌<◌, ◌^◌, OnOk, map, codes};
ghost use Rattle.lois_base.specs.Data.{terms_of, comps_of};
ghost use Rattle.lois_base.specs.Fits.{Fits, PartsFit, CompFits, ItemsFit};
ghost use Rattle.lois_base.specs.Tree.{tree, comp_of};
ghost use Rattle.lois_answers.specs.TermText.{levels_text, binders_text, term_text, comp_text, joined};

use crate::guards::append_guard;
use crate::pieces::{append, append_level, append_operand, append_separator};
use lois_base::{Comp, Comps, Names, NoMemory, Term, Terms};
use std::alloc::Global;

/// Puts the term behind a text. It is inside `size` levels, the first of them those of the parameters.
#[cycle(terms)]
#[tactic(auto, using(crate::proofs::Written::part_texts_of, crate::proofs::Written::item_texts_of))]
pub fn append_term(
    alloc: Global,
    text: &mut Vec<u8>,
    parameters: &Names,
    size: usize,
    term: &Term,
) -> Result<(), NoMemory>
    requires { Fits size (tree term.now) }
    ensures { OnOk result (text.new.items ≡ text.old.items ++ term_text parameters.now size (tree term.now)) }
{
    match term {
        Term::Var(level) => append_operand(alloc, text, parameters, *level),
        Term::Tag(name) => {
            append(text, b"'")?;
            append(text, name.bytes())
        }
        Term::Tup(parts) => {
            append(text, b"(")?;
            append_parts(alloc, text, parameters, size, parts)?;
            append(text, b")")
        }
        Term::Coll(comps) => {
            append(text, b"{")?;
            append_items(alloc, text, parameters, size, comps)?;
            append(text, b"}")
        }
    }
}

#[cycle(terms)]
fn append_parts(
    alloc: Global,
    text: &mut Vec<u8>,
    parameters: &Names,
    size: usize,
    parts: &Terms,
) -> Result<(), NoMemory>
    requires { PartsFit size (terms_of parts.now) }
    ensures { OnOk result (text.new.items ≡ text.old.items ++ joined (codes ", ") (map (term_text parameters.now size) parts.now)) }
{
    for (index, part) in parts.as_slice().iter().enumerate() {
        append_separator(text, index, b", ")?;
        append_term(alloc, text, parameters, size, part)?;
    }
    Ok(())
}

#[cycle(terms)]
fn append_items(
    alloc: Global,
    text: &mut Vec<u8>,
    parameters: &Names,
    size: usize,
    comps: &Comps,
) -> Result<(), NoMemory>
    requires { ItemsFit size (comps_of comps.now) }
    ensures { OnOk result (text.new.items ≡ text.old.items ++ joined (codes ", ") (map (comp_text parameters.now size) comps.now)) }
{
    for (index, comp) in comps.as_slice().iter().enumerate() {
        append_separator(text, index, b", ")?;
        append_comp(alloc, text, parameters, size, comp)?;
    }
    Ok(())
}

#[cycle(terms)]
fn append_comp(
    alloc: Global,
    text: &mut Vec<u8>,
    parameters: &Names,
    size: usize,
    comp: &Comp,
) -> Result<(), NoMemory>
    requires { CompFits size (comp_of comp.now) }
    ensures { OnOk result (text.new.items ≡ text.old.items ++ comp_text parameters.now size (comp_of comp.now)) }
{
    append_term(alloc, text, parameters, size + comp.binders, &comp.item)?;
    append_binders(alloc, text, size, comp.binders)?;
    append_guard(alloc, text, parameters, &comp.guard)
}

/// The binders of a comprehension inside `size` levels, if there are any.
fn append_binders(
    alloc: Global,
    text: &mut Vec<u8>,
    size: usize,
    binders: usize,
) -> Result<(), NoMemory>
    requires { size + binders < 2 ^ 64 }
    ensures { OnOk result (text.new.items ≡ text.old.items ++ binders_text size binders) }
{
    if binders == 0 {
        return Ok(());
    }
    append(text, b" for")?;
    append_levels(alloc, text, size, binders)
}

fn append_levels(
    alloc: Global,
    text: &mut Vec<u8>,
    size: usize,
    binders: usize,
) -> Result<(), NoMemory>
    requires { size + binders < 2 ^ 64 }
    ensures { OnOk result (text.new.items ≡ text.old.items ++ levels_text size binders) }
{
    for level in size..size + binders {
        append(text, b" ")?;
        append_level(alloc, text, level)?;
    }
    Ok(())
}
