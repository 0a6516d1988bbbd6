//! The results of a completed run, and their lines.

ghost use Rattle.std.specs.Prelude.{◌≡◌, [], ◌∷◌, ◌++◌, length, map, slice_get, option_map, IfOk, OnOk, OnErr};

use lois_base::{Constraint, Name, Names, NoMemory, Term};
use std::alloc::Global;
use std::marker::Model;

/// A name and the term that it holds.
#[derive(Drop)]
pub struct Line {
    pub name: Name,
    pub term: Term,
}

/// A list of lines.
#[derive(Drop)]
pub struct Lines {
    items: Vec<Line>,
}

impl Model for Lines {
    ghost use Rattle.std.specs.Prelude.{List, map};
    ghost use Rattle.lois_answers.specs.ResultsData.{LineD};
    ghost use Rattle.lois_answers.specs.ResultsCodes.{lines_code};
    ghost use Rattle.lois_answers.specs.LineView.{line_of};

    ghost Value = { List LineD };

    ghost coded = { lines_code };

    ghost view = { λ a. map line_of a.items.items };
}

/// The lines that are printed where a constraint on the parameters holds.
#[derive(Drop)]
pub struct Case {
    pub when: Constraint,
    pub lines: Lines,
}

/// A list of cases.
#[derive(Drop)]
pub struct Cases {
    items: Vec<Case>,
}

impl Model for Cases {
    ghost use Rattle.std.specs.Prelude.{List, map};
    ghost use Rattle.lois_answers.specs.ResultsData.{CaseD};
    ghost use Rattle.lois_answers.specs.ResultsCodes.{cases_code};
    ghost use Rattle.lois_answers.specs.CaseView.{case_of};

    ghost Value = { List CaseD };

    ghost coded = { cases_code };

    ghost view = { λ a. map case_of a.items.items };
}

/// What a completed run gives: whether the atoms are ordered, the parameters and the cases.
#[derive(Drop)]
pub struct Results {
    pub order: bool,
    pub parameters: Names,
    pub cases: Cases,
}

impl Line {
    ghost use Rattle.lois_answers.specs.LineView.{line_of};

    /// An equal line.
    pub fn copy(&self, alloc: Global) -> Result<Self, NoMemory>
        ensures same { IfOk result (λ r. line_of r ≡ line_of self.now) }
    {
        Ok(Line {
            name: self.name.copy(alloc)?,
            term: self.term.copy(alloc)?,
        })
    }
}

impl Lines {
    ghost use Rattle.lois_answers.specs.LastNamed.{last_named};
    ghost use Rattle.lois_answers.specs.LineView.{line_of};

    /// No lines.
    pub fn new(alloc: Global) -> Self
        ensures empty { result ≡ [] }
    {
        Lines {
            items: Vec::new(alloc),
        }
    }

    /// How many lines there are.
    pub fn len(&self) -> usize
        ensures counted { result ≡ length self.now }
    {
        self.items.len()
    }

    /// The line at an index, counted from 0, if there is one.
    pub fn get(&self, index: usize) -> Option<&Line>
        ensures item { option_map (λ l. line_of l.now) result ≡ slice_get self.now index }
    {
        self.items.get(index)
    }

    /// The lines, first to last.
    pub fn as_slice(&self) -> &[Line]
        ensures items { map line_of result.now ≡ self.now }
    {
        &self.items
    }

    /// The last line of that name, if there is one.
    pub fn last_named(&self, name: &Name) -> Option<&Line>
        ensures line { option_map (λ l. line_of l.now) result ≡ last_named name.now self.now }
    {
        let mut found = None;
        for line in &self.items {
            if line.name == *name {
                found = Some(line);
            }
        }
        found
    }

    /// Puts a line at the end; fails for want of memory alone, and then nothing has changed.
    pub fn push(&mut self, item: Line) -> Result<(), NoMemory>
        ensures appended { OnOk result (self.new ≡ self.old ++ line_of item ∷ []) }
        ensures unchanged { OnErr result (self.new ≡ self.old) }
    {
        self.items.push(item).map_err(|_| NoMemory)
    }

    /// Equal lines.
    pub fn copy(&self, alloc: Global) -> Result<Self, NoMemory>
        ensures same { IfOk result (λ r. r ≡ self.now) }
    {
        let mut copy = Lines::new(alloc);
        for item in &self.items {
            copy.push(item.copy(alloc)?)?;
        }
        Ok(copy)
    }
}

impl Cases {
    ghost use Rattle.lois_answers.specs.CaseView.{case_of};

    /// No cases.
    pub fn new(alloc: Global) -> Self
        ensures empty { result ≡ [] }
    {
        Cases {
            items: Vec::new(alloc),
        }
    }

    /// How many cases there are.
    pub fn len(&self) -> usize
        ensures counted { result ≡ length self.now }
    {
        self.items.len()
    }

    /// The case at an index, counted from 0, if there is one.
    pub fn get(&self, index: usize) -> Option<&Case>
        ensures item { option_map (λ c. case_of c.now) result ≡ slice_get self.now index }
    {
        self.items.get(index)
    }

    /// The cases, first to last.
    pub fn as_slice(&self) -> &[Case]
        ensures items { map case_of result.now ≡ self.now }
    {
        &self.items
    }

    /// Puts a case at the end; fails for want of memory alone, and then nothing has changed.
    pub fn push(&mut self, item: Case) -> Result<(), NoMemory>
        ensures appended { OnOk result (self.new ≡ self.old ++ case_of item ∷ []) }
        ensures unchanged { OnErr result (self.new ≡ self.old) }
    {
        self.items.push(item).map_err(|_| NoMemory)
    }
}
