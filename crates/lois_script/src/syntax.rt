//! The syntax tree of a script: expressions and conditions.

ghost use Rattle.std.specs.Prelude.{◌≡◌, [], ◌∷◌, ◌++◌, length, map, slice_get, option_map, OnOk, OnErr};
ghost use Rattle.lois_script.specs.View.{tree, binding_tree, cond_tree};
ghost use Rattle.lois_script.specs.Lists.{exprs_list, bindings_list, conds_list, exprs_held, bindings_held, conds_held};

use lois_base::{Name, NoMemory};
use std::alloc::Global;

/// A place in a script: the offset of a token's first byte.
#[derive(Clone, Copy, PartialEq, Eq, Debug)]
pub struct Pos {
    pub offset: usize,
}

/// The operations on sets and automata that a script names.
#[derive(Clone, Copy, PartialEq, Eq, Debug)]
pub enum Operation {
    Union,
    Inter,
    Minus,
    Flatten,
    Reach,
    Product,
    Complement,
    Minimise,
}

impl Operation {
    ghost use Rattle.lois_script.specs.Grammar.{operation_word};

    /// The word that spells the operation.
    pub fn word(self) -> &'static [u8]
        ensures exact { result.now ≡ operation_word self }
    {
        match self {
            Operation::Union => b"union",
            Operation::Inter => b"inter",
            Operation::Minus => b"minus",
            Operation::Flatten => b"flatten",
            Operation::Reach => b"reach",
            Operation::Product => b"product",
            Operation::Complement => b"complement",
            Operation::Minimise => b"minimise",
        }
    }
}

/// An expression. Its place is that of its first token.
#[derive(Drop)]
#[cycle(syntax)]
pub enum Expr {
    /// `atoms`
    Atoms(Pos),
    /// A name.
    Var(Pos, Name),
    /// `'` and a word.
    Tag(Pos, Name),
    /// `(` at least two parts `)`
    Tuple(Pos, Exprs),
    /// `{` items `}`
    Listed(Pos, Exprs),
    /// `{` item `for` at least one binding `where` condition `}`; without `where` the condition is `True`.
    Each(Pos, Box<Expr>, Bindings, Box<Cond>),
    /// A part of a tuple, counted from 1.
    Part(Pos, Box<Expr>, u32),
    /// An operation on one or two operands.
    Apply(Pos, Operation, Exprs),
}

/// A condition.
#[derive(Drop)]
#[cycle(syntax)]
pub enum Cond {
    True,
    False,
    /// The same value.
    Same(Expr, Expr),
    /// Different values.
    Differ(Expr, Expr),
    /// The first atom is below the second; the place is that of `<`.
    Below(Pos, Expr, Expr),
    /// The first is a member of the second.
    Member(Expr, Expr),
    /// The first is a subset of the second.
    Included(Expr, Expr),
    /// The automaton accepts no word.
    Empty(Expr),
    Not(Box<Cond>),
    All(Conds),
    Any(Conds),
    Exists(Box<Binding>, Box<Cond>),
    Every(Box<Binding>, Box<Cond>),
}

/// A name that runs through a set. Its place is that of the name.
#[derive(Drop)]
#[cycle(syntax)]
pub struct Binding {
    pub pos: Pos,
    pub name: Name,
    pub from: Expr,
}

/// A list of expressions.
#[derive(Drop)]
#[cycle(syntax)]
pub struct Exprs {
    items: Vec<Expr>,
}

/// A list of bindings.
#[derive(Drop)]
#[cycle(syntax)]
pub struct Bindings {
    items: Vec<Binding>,
}

/// A list of conditions.
#[derive(Drop)]
#[cycle(syntax)]
pub struct Conds {
    items: Vec<Cond>,
}

impl Exprs {
    /// No expressions.
    pub fn new(alloc: Global) -> Self
        ensures empty { exprs_list result ≡ [] }
    {
        Exprs {
            items: Vec::new(alloc),
        }
    }

    /// How many expressions there are.
    pub fn len(&self) -> usize
        ensures counted { result ≡ length (exprs_list self.now) }
    {
        self.items.len()
    }

    /// The expression at an index, counted from 0, if there is one.
    pub fn get(&self, index: usize) -> Option<&Expr>
        ensures item { option_map (λ e. tree e.now) result ≡ slice_get (exprs_list self.now) index }
    {
        self.items.get(index)
    }

    /// The expressions, first to last.
    pub fn as_slice(&self) -> &[Expr]
        ensures items { map tree result.now ≡ exprs_list self.now }
        ensures held { result.now ≡ exprs_held self.now }
    {
        &self.items
    }

    /// Puts an expression at the end; fails for want of memory alone, and then nothing has changed.
    pub fn push(&mut self, item: Expr) -> Result<(), NoMemory>
        ensures appended { OnOk result (exprs_list self.new ≡ exprs_list self.old ++ tree item ∷ []) }
        ensures unchanged { OnErr result (exprs_list self.new ≡ exprs_list self.old) }
    {
        self.items.push(item).map_err(|_| NoMemory)
    }
}

impl Bindings {
    /// No bindings.
    pub fn new(alloc: Global) -> Self
        ensures empty { bindings_list result ≡ [] }
    {
        Bindings {
            items: Vec::new(alloc),
        }
    }

    /// How many bindings there are.
    pub fn len(&self) -> usize
        ensures counted { result ≡ length (bindings_list self.now) }
    {
        self.items.len()
    }

    /// The binding at an index, counted from 0, if there is one.
    pub fn get(&self, index: usize) -> Option<&Binding>
        ensures item { option_map (λ b. binding_tree b.now) result ≡ slice_get (bindings_list self.now) index }
    {
        self.items.get(index)
    }

    /// The bindings, first to last.
    pub fn as_slice(&self) -> &[Binding]
        ensures items { map binding_tree result.now ≡ bindings_list self.now }
        ensures held { result.now ≡ bindings_held self.now }
    {
        &self.items
    }

    /// Puts a binding at the end; fails for want of memory alone, and then nothing has changed.
    pub fn push(&mut self, item: Binding) -> Result<(), NoMemory>
        ensures appended { OnOk result (bindings_list self.new ≡ bindings_list self.old ++ binding_tree item ∷ []) }
        ensures unchanged { OnErr result (bindings_list self.new ≡ bindings_list self.old) }
    {
        self.items.push(item).map_err(|_| NoMemory)
    }
}

impl Conds {
    /// No conditions.
    pub fn new(alloc: Global) -> Self
        ensures empty { conds_list result ≡ [] }
    {
        Conds {
            items: Vec::new(alloc),
        }
    }

    /// How many conditions there are.
    pub fn len(&self) -> usize
        ensures counted { result ≡ length (conds_list self.now) }
    {
        self.items.len()
    }

    /// The condition at an index, counted from 0, if there is one.
    pub fn get(&self, index: usize) -> Option<&Cond>
        ensures item { option_map (λ c. cond_tree c.now) result ≡ slice_get (conds_list self.now) index }
    {
        self.items.get(index)
    }

    /// The conditions, first to last.
    pub fn as_slice(&self) -> &[Cond]
        ensures items { map cond_tree result.now ≡ conds_list self.now }
        ensures held { result.now ≡ conds_held self.now }
    {
        &self.items
    }

    /// Puts a condition at the end; fails for want of memory alone, and then nothing has changed.
    pub fn push(&mut self, item: Cond) -> Result<(), NoMemory>
        ensures appended { OnOk result (conds_list self.new ≡ conds_list self.old ++ cond_tree item ∷ []) }
        ensures unchanged { OnErr result (conds_list self.new ≡ conds_list self.old) }
    {
        self.items.push(item).map_err(|_| NoMemory)
    }
}

impl Expr {
    ghost use Rattle.lois_script.specs.Tree.{pos};

    /// The place of the expression's first token.
    pub fn pos(&self) -> Pos
        ensures first_token { result.offset ≡ pos (tree self.now) }
    {
        match self {
            Expr::Atoms(pos) => *pos,
            Expr::Var(pos, _) => *pos,
            Expr::Tag(pos, _) => *pos,
            Expr::Tuple(pos, _) => *pos,
            Expr::Listed(pos, _) => *pos,
            Expr::Each(pos, _, _, _) => *pos,
            Expr::Part(pos, _, _) => *pos,
            Expr::Apply(pos, _, _) => *pos,
        }
    }
}
