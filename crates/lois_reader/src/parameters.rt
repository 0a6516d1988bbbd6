//! The parameters of a text.

ghost use Rattle.std.specs.Prelude.{◌≡◌, false, [], ◌∷◌, ◌++◌, length, position, bytes_eq, IfOk};
ghost use Rattle.lois_reader.specs.Pieces.{is_among};

use indexmap::IndexSet;
use lois_base::{Name, Names, NoMemory};
use std::alloc::Global;
use std::marker::Model;

/// The parameters of a text, in order. Their words are kept in a table too, in which each is found at once.
#[derive(Drop)]
pub struct Parameters<'a> {
    names: Names,
    words: IndexSet<&'a [u8]>,
}

impl<'a> Model for Parameters<'a> {
    ghost use Rattle.std.specs.Prelude.{◌≡◌, ℕ, List, map};

    ghost Value = { List (List ℕ) };

    ghost view = { λ p. p.names };

    ghost invariant = { λ p. map (λ k. k.now) p.words.keys ≡ p.names };
}

impl<'a> Parameters<'a> {
    /// No parameters.
    pub fn new(alloc: Global) -> Self
        ensures empty { result ≡ [] }
    {
        Parameters {
            names: Names::new(alloc),
            words: IndexSet::new(alloc),
        }
    }

    /// How many parameters there are.
    pub fn len(&self) -> usize
        ensures counted { result ≡ length self.now }
    {
        self.names.len()
    }

    /// Whether the word is a parameter.
    pub fn contains(&self, word: &[u8]) -> bool
        ensures exact { result ≡ is_among self.now word.now }
    {
        self.words.contains(word)
    }

    /// The place of the parameter among all, counted from 0, if the word is one.
    pub fn place(&self, word: &[u8]) -> Option<usize>
        ensures exact { result ≡ position (bytes_eq word.now) self.now }
    {
        self.words.get_index_of(word)
    }

    /// The parameters with one more behind them: a word that is none of them, as a name.
    pub fn with(self, word: &'a [u8], name: Name) -> Result<Self, NoMemory>
        requires same { name ≡ word.now }
        requires new { is_among self word.now ≡ false }
        ensures added { IfOk result (λ p. p ≡ self.entry ++ name ∷ []) }
    {
        let Parameters {
            mut names,
            mut words,
        } = self;
        words.insert(word)?;
        names.push(name)?;
        Ok(Parameters { names, words })
    }

    /// The names of the parameters, in order.
    pub fn into_names(self) -> Names
        ensures same { result ≡ self.entry }
    {
        self.names
    }
}
