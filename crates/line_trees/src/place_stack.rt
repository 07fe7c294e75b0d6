ghost use Rattle.std.specs.Prelude.{◌≡◌, ◌∷◌, [], OnOk};
ghost use Rattle.line_trees.specs.Building.{first_list, other_lists};

use crate::Places;
use apl_arrays::{List, WantOfMemory};
use std::alloc::Global;
use std::marker::Model;

/// Lists of subscripts, seen as the numbers of their nodes, the last list first.
#[derive(Debug, Drop)]
pub struct PlaceStack {
    lists: Vec<Places>,
}

impl Model for PlaceStack {
    ghost use Rattle.std.specs.Prelude.{List, Option, ℕ, map, reverse};
    ghost use Rattle.line_trees.specs.Stacks.{items_in};

    ghost Value = { List (List (Option ℕ)) };

    ghost view = { λ s. reverse (map items_in s.lists.items) };
}

impl PlaceStack {
    /// No lists.
    pub fn new(alloc: Global) -> Self
        ensures { result ≡ [] }
    {
        PlaceStack {
            lists: Vec::new(alloc),
        }
    }

    /// Takes the last list off; where there is none it is an empty list.
    pub fn pop(&mut self, alloc: Global) -> Places
        ensures list { result.items ≡ first_list self.old }
        ensures rest { self.new ≡ other_lists self.old }
    {
        match self.lists.pop() {
            Some(list) => list,
            None => List::new(alloc),
        }
    }

    /// Adds a list. It takes memory where there is no room.
    pub fn push(&mut self, list: Places) -> Result<(), WantOfMemory>
        ensures { OnOk result (self.new ≡ list.items ∷ self.old) }
    {
        self.lists.push(list)?;
        Ok(())
    }
}
