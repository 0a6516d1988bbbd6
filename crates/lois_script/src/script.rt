//! The syntax tree of a script: statements, parameters and the whole.

ghost use Rattle.std.specs.Prelude.{◌≡◌, [], ◌∷◌, ◌++◌, length, map, slice_get, option_map, OnOk, OnErr};
ghost use Rattle.lois_script.specs.View.{param_tree, params_list, stmts_list};
ghost use Rattle.lois_script.specs.Lists.{stmt_tree, stmts_held};

use crate::{Binding, Cond, Expr, Pos};
use lois_base::{Name, NoMemory};
use std::alloc::Global;

/// A statement.
#[derive(Drop)]
#[cycle(statements)]
pub enum Stmt {
    /// `let` name `=` expression; the place is the name's.
    Let(Pos, Name, Expr),
    /// name `:=` expression; the place is the name's.
    Assign(Pos, Name, Expr),
    /// `add` expression `to` name; the place is the name's.
    Add(Expr, Pos, Name),
    /// For each member of a set that passes the condition; without one it is `True`.
    For(Binding, Cond, Stmts),
    /// Without `else` the second list is empty.
    If(Cond, Stmts, Stmts),
    /// With the limit of turns; the place is that of `while`.
    While(Pos, Cond, u32, Stmts),
    /// The place is that of `assert`.
    Assert(Pos, Cond),
    /// The places are that of `print` and that of the name.
    Print(Pos, Pos, Name),
}

/// A list of statements.
#[derive(Drop)]
#[cycle(statements)]
pub struct Stmts {
    items: Vec<Stmt>,
}

/// A parameter of a script. Its place is that of the name.
#[derive(Drop)]
pub struct Param {
    pub pos: Pos,
    pub name: Name,
}

/// A list of parameters.
#[derive(Drop)]
pub struct Params {
    items: Vec<Param>,
}

/// A script: whether the atoms are ordered, its parameters and its statements.
#[derive(Drop)]
pub struct Script {
    pub order: bool,
    pub parameters: Params,
    pub body: Stmts,
}

impl Stmts {
    /// No statements.
    pub fn new(alloc: Global) -> Self
        ensures empty { stmts_list result ≡ [] }
    {
        Stmts {
            items: Vec::new(alloc),
        }
    }

    /// How many statements there are.
    pub fn len(&self) -> usize
        ensures counted { result ≡ length (stmts_list self.now) }
    {
        self.items.len()
    }

    /// The statement at an index, counted from 0, if there is one.
    pub fn get(&self, index: usize) -> Option<&Stmt>
        ensures item { option_map (λ a. stmt_tree a.now) result ≡ slice_get (stmts_list self.now) index }
    {
        self.items.get(index)
    }

    /// The statements, first to last.
    pub fn as_slice(&self) -> &[Stmt]
        ensures items { map stmt_tree result.now ≡ stmts_list self.now }
        ensures held { result.now ≡ stmts_held self.now }
    {
        &self.items
    }

    /// Puts a statement at the end; fails for want of memory alone, and then nothing has changed.
    pub fn push(&mut self, item: Stmt) -> Result<(), NoMemory>
        ensures appended { OnOk result (stmts_list self.new ≡ stmts_list self.old ++ stmt_tree item ∷ []) }
        ensures unchanged { OnErr result (stmts_list self.new ≡ stmts_list self.old) }
    {
        self.items.push(item).map_err(|_| NoMemory)
    }
}

impl Params {
    /// No parameters.
    pub fn new(alloc: Global) -> Self
        ensures empty { params_list result ≡ [] }
    {
        Params {
            items: Vec::new(alloc),
        }
    }

    /// How many parameters there are.
    pub fn len(&self) -> usize
        ensures counted { result ≡ length (params_list self.now) }
    {
        self.items.len()
    }

    /// The parameter at an index, counted from 0, if there is one.
    pub fn get(&self, index: usize) -> Option<&Param>
        ensures item { option_map (λ p. param_tree p.now) result ≡ slice_get (params_list self.now) index }
    {
        self.as_slice().get(index)
    }

    /// The parameters, first to last.
    pub fn as_slice(&self) -> &[Param]
        ensures items { map param_tree result.now ≡ params_list self.now }
    {
        &self.items
    }

    /// Puts a parameter at the end; fails for want of memory alone, and then nothing has changed.
    pub fn push(&mut self, item: Param) -> Result<(), NoMemory>
        ensures appended { OnOk result (params_list self.new ≡ params_list self.old ++ param_tree item ∷ []) }
        ensures unchanged { OnErr result (params_list self.new ≡ params_list self.old) }
    {
        self.items.push(item).map_err(|_| NoMemory)
    }
}
