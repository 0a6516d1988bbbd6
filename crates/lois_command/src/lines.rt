//! Lines of answers: words, and refusals that name a place or a line of results.

ghost use Rattle.std.specs.Prelude.{◌≡◌, IfOk};
ghost use Rattle.lois_answers.specs.ResultsText.{lined};
ghost use Rattle.lois_command.specs.Texts.{placed_text, refused_case_text};

use lois_base::{Name, NoMemory};
use lois_lexer::Place;
use lois_printer::{append, append_number};
use std::alloc::Global;

/// The words with the end of their line.
pub fn text_line(alloc: Global, words: &[u8]) -> Result<Vec<u8>, NoMemory>
    ensures { IfOk result (λ text. text.items ≡ lined words.now) }
{
    let mut text = Vec::new(alloc);
    append(&mut text, words)?;
    append(&mut text, b"\n")?;
    Ok(text)
}

/// The line of a refusal at a place.
pub fn refused_line(alloc: Global, place: Place, cause: &[u8]) -> Result<Vec<u8>, NoMemory>
    ensures { IfOk result (λ text. text.items ≡ lined (placed_text place cause.now)) }
{
    let mut text = Vec::new(alloc);
    append(&mut text, b"refused at ")?;
    append_number(alloc, &mut text, place.line as u64)?;
    append(&mut text, b":")?;
    append_number(alloc, &mut text, place.column as u64)?;
    append(&mut text, b": ")?;
    append(&mut text, cause)?;
    append(&mut text, b"\n")?;
    Ok(text)
}

/// The line of a refusal that names a line of results and the case, with words before and behind.
pub fn case_line(
    alloc: Global,
    before: &[u8],
    name: &Name,
    case: usize,
    behind: &[u8],
) -> Result<Vec<u8>, NoMemory>
    ensures { IfOk result (λ text. text.items ≡ lined (refused_case_text before.now name.now case behind.now)) }
{
    let mut text = Vec::new(alloc);
    append(&mut text, b"refused: ")?;
    append(&mut text, before)?;
    append(&mut text, name.bytes())?;
    append(&mut text, b" in case ")?;
    append_number(alloc, &mut text, case as u64)?;
    append(&mut text, behind)?;
    append(&mut text, b"\n")?;
    Ok(text)
}
