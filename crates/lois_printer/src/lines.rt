//! Lines of a number, of numbers and of a term, put behind a text.

ghost use Rattle.std.specs.Prelude.{◌≡◌, ◌++◌, OnOk};
ghost use Rattle.std.specs.Fmt.{decimal};
ghost use Rattle.lois_base.specs.Fits.{Fits};
ghost use Rattle.lois_base.specs.Tree.{tree};
ghost use Rattle.lois_answers.specs.ResultsText.{lined};
ghost use Rattle.lois_answers.specs.TermText.{term_text};
ghost use Rattle.lois_answers.specs.TraceText.{choice_text};

use crate::pieces::{append, append_number};
use crate::terms::append_term;
use lois_base::{Names, NoMemory, Numbers, Term};
use std::alloc::Global;

/// A line of the words and the number.
pub fn append_count(
    alloc: Global,
    text: &mut Vec<u8>,
    words: &[u8],
    number: usize,
) -> Result<(), NoMemory>
    ensures appended { OnOk result (text.new.items ≡ text.old.items ++ lined (words.now ++ decimal number)) }
{
    append(text, words)?;
    append_number(alloc, text, number as u64)?;
    append(text, b"\n")
}

/// A line of the words and the term, which is inside `size` levels, the first of them those of the parameters.
pub fn append_term_line(
    alloc: Global,
    text: &mut Vec<u8>,
    words: &[u8],
    parameters: &Names,
    size: usize,
    term: &Term,
) -> Result<(), NoMemory>
    requires { Fits size (tree term.now) }
    ensures appended { OnOk result (text.new.items ≡ text.old.items ++ lined (words.now ++ term_text parameters.now size (tree term.now))) }
{
    append(text, words)?;
    append_term(alloc, text, parameters, size, term)?;
    append(text, b"\n")
}

/// The line of a choice: the word, and each number.
pub fn append_choice(alloc: Global, text: &mut Vec<u8>, sample: &Numbers) -> Result<(), NoMemory>
    ensures appended { OnOk result (text.new.items ≡ text.old.items ++ choice_text sample.now) }
{
    append(text, b"choice")?;
    for number in sample.as_slice() {
        append(text, b" ")?;
        append_number(alloc, text, *number)?;
    }
    append(text, b"\n")
}
