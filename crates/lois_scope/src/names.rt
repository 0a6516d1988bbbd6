//! The names in scope at a place of a script.

ghost use Rattle.std.specs.Prelude.{◌≡◌, [], length, take, option_map, OnOk};
ghost use Rattle.lois_script.specs.Scope.{role_of};
ghost use Rattle.lois_scope.specs.InScope.{made_of, with_name, roles_inside, role_view};

use indexmap::IndexMap;
use lois_base::{Name, NoMemory};
use std::alloc::Global;

/// How a name was made.
#[derive(Clone, Copy)]
pub(crate) enum Made {
    /// By `let`, inside so many loops.
    Variable(usize),
    /// As a parameter, as a loop's name or as a binder.
    Fixed,
}

/// What a name is at a place.
#[derive(Clone, Copy)]
pub(crate) enum Role {
    /// A variable made inside the innermost loop around the place.
    Inner,
    /// A variable made outside that loop.
    Outer,
    /// A parameter, a loop's name or a binder.
    Fixed,
}

/// The names in scope, in order of declaration, each with how it was made.
#[derive(Drop)]
pub(crate) struct Names<'a> {
    made: IndexMap<&'a [u8], Made>,
}

impl<'a> Names<'a> {
    /// No names.
    pub(crate) fn new(alloc: Global) -> Self
        ensures empty { made_of result ≡ [] }
    {
        Names {
            made: IndexMap::new(alloc),
        }
    }

    /// How many names are in scope.
    pub(crate) fn len(&self) -> usize
        ensures counted { result ≡ length (made_of self.now) }
    {
        self.made.len()
    }

    /// What the name is inside so many loops, if it is in scope.
    pub(crate) fn role(&self, name: &Name, loops: usize) -> Option<Role>
        ensures found { option_map role_view result ≡ role_of name.now (roles_inside loops (made_of self.now)) }
    {
        let made = self.made.get(name.bytes())?;
        Some(made.role(loops))
    }

    /// Puts the name in scope, unless it is there already.
    pub(crate) fn declare(&mut self, name: &'a Name, made: Made) -> Result<(), NoMemory>
        ensures added { OnOk result (made_of self.new ≡ with_name (made_of self.old) name.now made) }
    {
        if self.made.contains_key(name.bytes()) {
            return Ok(());
        }
        self.made.insert(name.bytes(), made)?;
        Ok(())
    }

    /// Takes all names but the first so many out of scope.
    pub(crate) fn keep_first(&mut self, count: usize)
        ensures kept { made_of self.new ≡ take count (made_of self.old) }
    {
        self.made.truncate(count);
    }
}

impl Made {
    ghost use Rattle.lois_scope.specs.InScope.{role_inside};

    /// What a name that was made so is inside so many loops.
    fn role(self, loops: usize) -> Role
        ensures exact { role_view result ≡ role_inside loops self }
    {
        match self {
            Made::Variable(own) if own == loops => Role::Inner,
            Made::Variable(_) => Role::Outer,
            Made::Fixed => Role::Fixed,
        }
    }
}
