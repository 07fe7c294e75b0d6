ghost use Rattle.std.specs.Prelude.{◌≡◌, ◌∷◌, [], OnOk, List, Option, Some, None};
ghost use Rattle.apl_arrays.specs.List.{first_of, others_of};

use apl_arrays::WantOfMemory;
use std::alloc::Global;
use std::marker::Model;
use std::mem;

/// A stack, seen as its items, the last one first. The last one stands apart, so that one alone takes no memory.
#[derive(Debug, Drop)]
pub struct Stack<T> {
    top: Option<T>,
    below: Vec<T>,
}

impl<T> Model for Stack<T> {
    ghost use Rattle.std.specs.Prelude.{◌≡◌, [], List, None, reverse};
    ghost use Rattle.line_trees.specs.Stacks.{stacked};

    ghost Value = { List T };

    ghost view = { λ s. stacked s.top (reverse s.below.items) };

    ghost invariant = { λ s. s.top ≡ None → s.below.items ≡ [] };
}

impl<T> Stack<T> {
    /// An empty stack.
    pub fn new(alloc: Global) -> Self
        ensures { result ≡ [] }
    {
        Stack {
            top: None,
            below: Vec::new(alloc),
        }
    }

    /// The last item.
    pub fn top(&self) -> Option<T>
    where
        T: Copy,
        ensures { result ≡ first_of self.now }
    {
        self.top
    }

    /// Takes the last item off.
    pub fn pop(&mut self) -> Option<T>
        ensures top { result ≡ first_of self.old }
        ensures rest { self.new ≡ others_of self.old }
    {
        mem::replace(&mut self.top, self.below.pop())
    }

    /// Adds an item. It takes memory where there is no room.
    pub fn push(&mut self, item: T) -> Result<(), WantOfMemory>
    where
        T: Drop,
        ensures { OnOk result (self.new ≡ item ∷ self.old) }
    {
        if let Some(below) = mem::replace(&mut self.top, Some(item)) {
            self.below.push(below)?;
        }
        Ok(())
    }
}
