//! The text of a difference.

ghost use Rattle.std.specs.Prelude.{◌≡◌, ◌++◌, length, codes, IfOk, OnOk};
ghost use Rattle.std.specs.List.{All, flat_map};
ghost use Rattle.lois_base.specs.Fits.{Fits};
ghost use Rattle.lois_answers.specs.ResultsText.{lined};
ghost use Rattle.lois_equal.specs.DifferenceText.{letter_text, difference_text};

use crate::differing::Difference;
use lois_base::{Name, Names, NoMemory, Terms};
use lois_printer::{append, append_choice, append_count, append_term_line};
use std::alloc::Global;

/// The text of a difference in the case of that number, from 1, with the name of the line that accepts. The parameters are the
/// names of the first levels. Errors: `NoMemory`.
pub fn print_difference(
    alloc: Global,
    parameters: &Names,
    number: usize,
    difference: &Difference,
    name: &Name,
) -> Result<Vec<u8>, NoMemory>
    requires { All (Fits (length difference.now.sample)) difference.now.word }
    ensures text { IfOk result (λ t. t.items ≡ difference_text parameters.now number difference.now name.now) }
{
    let mut text = Vec::new(alloc);
    append_count(alloc, &mut text, b"differ in case ", number)?;
    append_choice(alloc, &mut text, &difference.sample)?;
    append_letters(
        alloc,
        &mut text,
        parameters,
        difference.sample.len(),
        &difference.word,
    )?;
    append_acceptor_name(&mut text, name)?;
    Ok(text)
}

/// A line for each letter, inside `size` levels, at the end of the text. The parameters are the names of the first levels. Errors:
/// `NoMemory`.
pub fn append_letters(
    alloc: Global,
    text: &mut Vec<u8>,
    parameters: &Names,
    size: usize,
    letters: &Terms,
) -> Result<(), NoMemory>
    requires { All (Fits size) letters.now }
    ensures { OnOk result (text.new.items ≡ text.old.items ++ flat_map (letter_text parameters.now size) letters.now) }
{
    for letter in letters.as_slice() {
        append_term_line(alloc, text, b"letter ", parameters, size, letter)?;
    }
    Ok(())
}

fn append_acceptor_name(text: &mut Vec<u8>, name: &Name) -> Result<(), NoMemory>
    ensures { OnOk result (text.new.items ≡ text.old.items ++ lined (codes "accepted by " ++ name.now)) }
{
    append(text, b"accepted by ")?;
    append(text, name.bytes())?;
    append(text, b"\n")
}
