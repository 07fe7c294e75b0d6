ghost use Rattle.std.specs.Prelude.{◌≡◌, ◌+◌, ◌<◌, ◌≤◌, ◌∷◌, [], ◌++◌, IsOk, OnOk, OnErr, map, length};
ghost use Rattle.line_trees.specs.Nodes.{plain_node};

use crate::Node;
use apl_arrays::{List, WantOfMemory};
use std::alloc::Global;
use std::marker::Model;

/// Nodes, seen as plain data and as the room that is left.
#[derive(Debug, Drop)]
pub struct NodeList {
    nodes: List<Node>,
}

impl Model for NodeList {
    ghost use Rattle.std.specs.Prelude.{map};
    ghost use Rattle.apl_arrays.specs.List.{Listed};
    ghost use Rattle.line_trees.specs.Nodes.{PlainNode, plain_node};

    ghost Value = { Listed PlainNode };

    ghost view = { λ l. record { items = map plain_node l.nodes.items; room = l.nodes.room } };
}

impl NodeList {
    /// No nodes.
    pub fn new(alloc: Global) -> Self
        ensures { result.items ≡ [] }
    {
        NodeList {
            nodes: List::new(alloc),
        }
    }

    /// The nodes, in order.
    pub fn as_slice(&self) -> &[Node]
        ensures { map plain_node result.now ≡ self.now.items }
    {
        self.nodes.as_slice()
    }

    /// The nodes as a `Vec`.
    pub fn into_vec(self) -> Vec<Node>
        ensures { map plain_node result.items ≡ self.items }
    {
        self.nodes.into_vec()
    }

    /// Makes room for at least so many pushes, and takes memory for it. `WantOfMemory` leaves the list as it was.
    pub fn reserve(&mut self, room: usize) -> Result<(), WantOfMemory>
        ensures items { self.new.items ≡ self.old.items }
        ensures room { OnOk result (room ≤ self.new.room) }
        ensures kept { self.old.room ≤ self.new.room }
        ensures err { OnErr result (self.new ≡ self.old) }
        ensures granted { room ≤ self.old.room → IsOk result }
    {
        self.nodes.reserve(room)
    }

    /// How many nodes there are.
    pub fn len(&self) -> usize
        ensures { result ≡ length self.now.items }
    {
        self.nodes.as_slice().len()
    }

    /// Adds a node at the end. Where there is room it is granted and takes no memory, else it takes memory for more.
    /// `WantOfMemory` leaves the list as it was.
    pub fn push(&mut self, node: Node) -> Result<(), WantOfMemory>
        ensures ok { OnOk result (self.new.items ≡ self.old.items ++ plain_node node ∷ []) }
        ensures err { OnErr result (self.new ≡ self.old) }
        ensures granted { 0 < self.old.room → IsOk result }
        ensures room { 0 < self.old.room → self.new.room + 1 ≡ self.old.room }
    {
        self.nodes.push(node)
    }
}
