//! Bytes, numbers and levels, put behind a text.

ghost use Rattle.std.specs.Prelude.{◌≡◌, ◌++◌, OnOk};
ghost use Rattle.std.specs.Fmt.{decimal};
ghost use Rattle.lois_answers.specs.TermText.{level_text, level_or_name_text};
ghost use Rattle.lois_printer.specs.Separated.{separator};

use lois_base::{Names, NoMemory};
use std::alloc::Global;

/// Puts the bytes behind a text. Errors of this and of the calls below: `NoMemory`.
pub fn append(text: &mut Vec<u8>, piece: &[u8]) -> Result<(), NoMemory>
    ensures { OnOk result (text.new.items ≡ text.old.items ++ piece.now) }
{
    text.extend_from_slice(piece).map_err(|_| NoMemory)
}

/// What stands between two items, unless the next one is the first.
pub(crate) fn append_separator(
    text: &mut Vec<u8>,
    index: usize,
    between: &[u8],
) -> Result<(), NoMemory>
    ensures { OnOk result (text.new.items ≡ text.old.items ++ separator index between.now) }
{
    if index > 0 {
        append(text, between)?;
    }
    Ok(())
}

/// Puts the number behind a text, in decimal.
pub fn append_number(alloc: Global, text: &mut Vec<u8>, number: u64) -> Result<(), NoMemory>
    ensures { OnOk result (text.new.items ≡ text.old.items ++ decimal number) }
{
    let digits = format!(in alloc; "{number}")?;
    append(text, digits.as_bytes())
}

pub(crate) fn append_level(alloc: Global, text: &mut Vec<u8>, level: usize) -> Result<(), NoMemory>
    ensures { OnOk result (text.new.items ≡ text.old.items ++ level_text level) }
{
    append(text, b"$")?;
    append_number(alloc, text, level as u64)
}

/// A level of a parameter by the parameter's name, and any other as a level.
#[tactic(auto, using(crate::proofs::Guarded::past_the_end))]
pub(crate) fn append_operand(
    alloc: Global,
    text: &mut Vec<u8>,
    parameters: &Names,
    level: usize,
) -> Result<(), NoMemory>
    ensures { OnOk result (text.new.items ≡ text.old.items ++ level_or_name_text parameters.now level) }
{
    match parameters.get(level) {
        Some(name) => append(text, name.bytes()),
        None => append_level(alloc, text, level),
    }
}
