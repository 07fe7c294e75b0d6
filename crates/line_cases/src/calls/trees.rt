use crate::calls::granting::lent;
use crate::calls::letters::letter;
use crate::calls::refusals::look_at_text;
use crate::calls::scanner::tokens_of;
use anyhow::{Result, bail};
use apl_arrays::WantOfMemory;
use case_tables::{Calls, Looks};
use line_scanner::Tokens;
use line_trees::{Class, Classes, Form, Fun, Node, ParseRefused, Tree, parse};
use std::alloc::Global;

// Lines that have no tree, and the places of their errors.
const WRONG_LINES: [(&str, u64); 4] = [("A)B", 1), ("D 1", 0), ("A B", 2), ("A+", 2)];

/// A line that has a tree, lines that have none, and the texts of refusals.
#[derive(Clone, Copy, Debug)]
pub struct Trees;

impl Calls for Trees {
    fn make(&self, alloc: Global, looks: &mut Looks) -> Result<()> {
        let tree = parsed(alloc, "L:A[;I]←1 D⌽[2]'XY'")?.ok();
        lent(tree, looks, |tree, looks| {
            look_at_tree(tree, looks);
            Ok(())
        })?;
        look_at_wrong_lines(alloc, looks)?;
        name_refusals(alloc, looks)
    }
}

// D takes two arguments.
fn classes_of(alloc: Global) -> Result<Classes> {
    let mut classes = Classes::new(alloc);
    classes.push(Class {
        name: letter(b'D')?,
        arguments: 2,
    })?;
    Ok(classes)
}

// The tree of a line, or the place of its error, which a line without tokens has not.
fn parsed(alloc: Global, text: &str) -> Result<Result<Tree, Option<u64>>> {
    match tokens_of(alloc, text)? {
        None => Ok(Err(None)),
        Some(tokens) => {
            let tree = tree_of(alloc, &tokens);
            drop(tokens);
            tree
        }
    }
}

// The tree of tokens, or the place of their error.
fn tree_of(alloc: Global, tokens: &Tokens) -> Result<Result<Tree, Option<u64>>> {
    let classes = classes_of(alloc)?;
    let tree = parse(alloc, tokens, &classes);
    drop(classes);
    match tree {
        Ok(tree) => Ok(Ok(tree)),
        Err(ParseRefused::SyntaxError(at)) => Ok(Err(Some(at))),
        Err(ParseRefused::WantOfMemory) => bail!("out of memory"),
    }
}

fn look_at_wrong_lines(alloc: Global, looks: &mut Looks) -> Result<()> {
    for (line, at) in WRONG_LINES {
        looks.holds(parsed(alloc, line)?.err() == Some(Some(at)));
    }
    Ok(())
}

fn look_at_tree(tree: &Tree, looks: &mut Looks) {
    looks.holds(tree.label.is_some());
    looks.holds(tree.form == Form::Value(6));
    let nodes = tree.nodes.as_slice();
    looks.holds(nodes.len() == 7);
    looks.holds(matches!(nodes.get(0), Some(Node::Constant(items)) if items.len() == 2));
    looks.holds(matches!(
        nodes.get(2),
        Some(Node::Apply {
            function: Fun::Verb(_),
            left: None,
            right: 0,
            axis: Some(1)
        })
    ));
    looks.holds(matches!(
        nodes.get(4),
        Some(Node::Apply {
            function: Fun::Defined(_),
            left: Some(3),
            right: 2,
            axis: None
        })
    ));
    looks.holds(
        matches!(nodes.get(6), Some(Node::Assign { target: _, subs: Some(subs), right: 4 }) if subs.as_slice() == [None, Some(5)].as_slice()),
    );
}

fn name_refusals(alloc: Global, looks: &mut Looks) -> Result<()> {
    let syntax = ParseRefused::SyntaxError(12);
    look_at_text(alloc, &syntax, "syntax error at 12", looks)?;
    let memory = ParseRefused::from(WantOfMemory);
    look_at_text(alloc, &memory, "out of memory", looks)
}
