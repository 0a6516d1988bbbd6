//! The text of a contrast.

ghost use Rattle.std.specs.Prelude.{◌≡◌, ◌++◌, codes, IfOk, OnOk};
ghost use Rattle.std.specs.Fmt.{decimal};
ghost use Rattle.lois_answers.specs.ResultsText.{lined};
ghost use Rattle.lois_same.specs.ContrastText.{ContrastFits, DetailFits, contrast_text, detail_text, place_text, side_text};

use crate::contrasts::{Contrast, Detail};
use lois_base::{Name, Names, NoMemory};
use lois_printer::{append, append_choice, append_count, append_number, append_term_line};
use std::alloc::Global;

/// The text of a contrast. The parameters are the names of the first levels. Errors: `NoMemory`.
pub fn print_contrast(
    alloc: Global,
    parameters: &Names,
    contrast: &Contrast,
) -> Result<Vec<u8>, NoMemory>
    requires { ContrastFits contrast.now }
    ensures text { IfOk result (λ t. t.items ≡ contrast_text parameters.now contrast.now) }
{
    let mut text = Vec::new(alloc);
    append(&mut text, b"differ in cases ")?;
    append_two(alloc, &mut text, contrast.first, contrast.second)?;
    append_choice(alloc, &mut text, &contrast.sample)?;
    let size = contrast.sample.len();
    append_detail(alloc, &mut text, parameters, size, &contrast.detail)?;
    Ok(text)
}

// Two numbers, and the end of the line.
fn append_two(alloc: Global, text: &mut Vec<u8>, one: usize, other: usize) -> Result<(), NoMemory>
    ensures { OnOk result (text.new.items ≡ text.old.items ++ lined (decimal one ++ codes " and " ++ decimal other)) }
{
    append_number(alloc, text, one as u64)?;
    append_count(alloc, text, b" and ", other)
}

// The number of a line, and its name.
fn append_place(
    alloc: Global,
    text: &mut Vec<u8>,
    number: usize,
    name: &Name,
) -> Result<(), NoMemory>
    ensures { OnOk result (text.new.items ≡ text.old.items ++ place_text number name.now) }
{
    append(text, b"line ")?;
    append_number(alloc, text, number as u64)?;
    append(text, b": ")?;
    append(text, name.bytes())
}

fn append_detail(
    alloc: Global,
    text: &mut Vec<u8>,
    parameters: &Names,
    size: usize,
    detail: &Detail,
) -> Result<(), NoMemory>
    requires { DetailFits size detail.now }
    ensures { OnOk result (text.new.items ≡ text.old.items ++ detail_text parameters.now size detail.now) }
{
    match detail {
        Detail::Count(first, second) => {
            append(text, b"lines ")?;
            append_two(alloc, text, *first, *second)
        }
        Detail::Names(number, first, second) => {
            append_place(alloc, text, *number, first)?;
            append(text, b" and ")?;
            append(text, second.bytes())?;
            append(text, b"\n")
        }
        Detail::Values(number, name) => {
            append_place(alloc, text, *number, name)?;
            append(text, b"\n")
        }
        Detail::Member(number, name, item, first) => {
            append_place(alloc, text, *number, name)?;
            append(text, b"\n")?;
            append_term_line(alloc, text, b"member ", parameters, size, item)?;
            append(text, side_line(*first))
        }
    }
}

fn side_line(first: bool) -> &'static [u8]
    ensures { result.now ≡ side_text first }
{
    if first {
        b"of the first\n"
    } else {
        b"of the second\n"
    }
}
