ghost use Rattle.std.specs.Prelude.{◌≡◌, IfOk};
ghost use Rattle.apl_arrays.specs.Array.{plain_items};
ghost use Rattle.line_trees.specs.Nodes as plain;
ghost use Rattle.line_trees.specs.Nodes.{plain_node};
ghost use Rattle.apl_values.specs.Parts.{IsPart, plain_part};

use apl_arrays::{Array, ELEMENT_LIMIT, Items, WantOfMemory};
use line_trees::Node;
use std::alloc::Global;

/// A part of an expression: a constant as the array that it is, or any other node.
#[derive(Debug, Drop)]
pub enum Part {
    Constant(Array),
    Other(Node),
}

impl Part {
    /// The part that a node is. It takes memory for a constant, but for a lone number.
    pub fn of(alloc: Global, node: Node) -> Result<Part, WantOfMemory>
        ensures node { IfOk result (λ part. plain_part part ≡ plain_node node) }
        ensures part { IfOk result IsPart }
    {
        match node {
            Node::Constant(items) => constant(alloc, items),
            other => Ok(Part::Other(other)),
        }
    }
}

/// A constant: a lone item is a scalar, and any other count a vector. One that would be too large stays a node. It takes
/// memory, but for a lone number.
pub fn constant(alloc: Global, items: Items) -> Result<Part, WantOfMemory>
    ensures node { IfOk result (λ part. plain_part part ≡ plain.constant (plain_items items)) }
    ensures part { IfOk result IsPart }
{
    let count = items.len();
    if count == 1 {
        Ok(Part::Constant(Array::shaped(alloc, &[], items)?))
    } else if count <= ELEMENT_LIMIT {
        Ok(Part::Constant(Array::shaped(alloc, &[count as u32], items)?))
    } else {
        Ok(Part::Other(Node::Constant(items)))
    }
}
