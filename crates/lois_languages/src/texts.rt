//! The text of a word.

ghost use Rattle.std.specs.Prelude.{◌≡◌, length, IfOk};
ghost use Rattle.std.specs.List.{All};
ghost use Rattle.lois_base.specs.Fits.{Fits};
ghost use Rattle.lois_languages.specs.WordText.{word_text};

use lois_base::{Names, NoMemory};
use lois_equal::append_letters;
use lois_printer::{append_choice, append_count};
use lois_shortest_word::Word;
use std::alloc::Global;

/// The text of a word that is accepted in the case of that number, from 1. The parameters are the names of the first levels.
/// Errors: `NoMemory`.
pub fn print_word(
    alloc: Global,
    parameters: &Names,
    number: usize,
    word: &Word,
) -> Result<Vec<u8>, NoMemory>
    requires { All (Fits (length word.now.sample)) word.now.letters }
    ensures text { IfOk result (λ t. t.items ≡ word_text parameters.now number word.now) }
{
    let mut text = Vec::new(alloc);
    append_count(alloc, &mut text, b"accepted in case ", number)?;
    append_choice(alloc, &mut text, &word.sample)?;
    let size = word.sample.len();
    append_letters(alloc, &mut text, parameters, size, &word.letters)?;
    Ok(text)
}
