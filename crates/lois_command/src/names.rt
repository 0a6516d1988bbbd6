//! Words of a command line: names of lines, and words that are no options.

ghost use Rattle.std.specs.Prelude.{◌≡◌, IfOk, map, option_map, option_and_then, string_bytes};
ghost use Rattle.std.specs.List.{list_all};
ghost use Rattle.lois_command.specs.CommandWords.{are_plain, is_dashed, is_plain};
ghost use Rattle.lois_command.specs.FreeNames.{free_name, is_free};

use lois_base::{Name, NoMemory, is_name};
use lois_lexer::is_reserved;
use std::alloc::Global;

/// The name that the word spells, unless it is a word of the language or was not given.
pub fn free_name(alloc: Global, word: Option<&str>) -> Result<Option<Name>, NoMemory>
    ensures { IfOk result (λ o. option_map (λ n. n) o ≡ option_and_then free_name (option_map (λ w. w.now) word.entry)) }
{
    let Some(word) = word else {
        return Ok(None);
    };
    if !is_free(word) {
        return Ok(None);
    }
    Ok(Some(Name::from_bytes(alloc, word.as_bytes())?))
}

fn is_free(word: &str) -> bool
    ensures { result ≡ is_free word.now }
{
    let bytes = word.as_bytes();
    is_name(bytes) && !is_reserved(bytes)
}

/// Whether the word begins with a hyphen, as options do.
pub fn is_dashed(word: &str) -> bool
    ensures { result ≡ is_dashed word.now }
{
    matches!(word.as_bytes(), [b'-', ..])
}

fn is_plain(word: &String) -> bool
    ensures { result ≡ is_plain (string_bytes word.now) }
{
    !is_dashed(word.as_str())
}

fn are_all_plain(words: &[String]) -> bool
    ensures { result ≡ list_all (λ w. is_plain (string_bytes w)) words.now }
{
    words.iter().all(|word| is_plain(word))
}

/// Whether no word begins with a hyphen.
pub fn are_plain(words: &[String]) -> bool
    ensures { result ≡ are_plain (map string_bytes words.now) }
{
    are_all_plain(words)
}
