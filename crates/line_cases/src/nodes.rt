use crate::system_names::system_text;
use anyhow::Result;
use apl_arrays::{Array, Items, Name};
use apl_verbs::Verb;
use case_fields::{array_text, push_glyphs};
use line_trees::{Fun, Node};
use std::alloc::{AllocError, Global};

// The array of items: one is a scalar, any other count a vector.
fn array_of_items(alloc: Global, items: &Items) -> Result<Array> {
    let count = u32::try_from(items.len())?;
    let vector = [count];
    let shape = if count == 1 {
        [].as_slice()
    } else {
        vector.as_slice()
    };
    Ok(Array::try_new(alloc, shape, items.copy(alloc)?)?)
}

fn push_constant(alloc: Global, text: &mut String, items: &Items) -> Result<()> {
    let array = array_of_items(alloc, items)?;
    let shown = array_text(alloc, &array);
    drop(array);
    text.push_str(shown?.as_str())?;
    Ok(())
}

fn push_verb(text: &mut String, verb: &Verb) -> Result<(), AllocError> {
    match verb {
        Verb::One(monad) => write!(text, "{monad:?}"),
        Verb::Two(dyad) => write!(text, "{dyad:?}"),
        Verb::Mixed1(mixed) => write!(text, "{mixed:?}"),
        Verb::Mixed2(mixed) => write!(text, "{mixed:?}"),
        _ => write!(text, "{verb:?}"),
    }
}

fn push_function(alloc: Global, text: &mut String, function: &Fun) -> Result<()> {
    match function {
        Fun::Verb(verb) => {
            push_verb(text, verb)?;
            Ok(())
        }
        Fun::Defined(name) => push_glyphs(alloc, text, name.glyphs()),
        Fun::System(name) => {
            let name = system_text(*name);
            write!(text, "⎕{name}")?;
            Ok(())
        }
    }
}

// Numbers of nodes in brackets, nothing where a subscript is omitted.
fn push_places(text: &mut String, places: &[Option<u64>]) -> Result<(), AllocError> {
    text.push('[')?;
    for (at, place) in places.iter().enumerate() {
        if at > 0 {
            text.push(';')?;
        }
        if let Some(number) = *place {
            write!(text, "{number}")?;
        }
    }
    text.push(']')
}

// The left argument, where there is one, with a blank behind it.
fn push_left(text: &mut String, left: Option<u64>) -> Result<(), AllocError> {
    match left {
        None => Ok(()),
        Some(left) => write!(text, "{left} "),
    }
}

// The axis, where there is one, in brackets.
fn push_axis(text: &mut String, axis: Option<u64>) -> Result<(), AllocError> {
    match axis {
        None => Ok(()),
        Some(axis) => write!(text, "[{axis}]"),
    }
}

fn push_target(
    alloc: Global,
    text: &mut String,
    target: &Name,
    subs: Option<&[Option<u64>]>,
) -> Result<()> {
    push_glyphs(alloc, text, target.glyphs())?;
    if let Some(subs) = subs {
        push_places(text, subs)?;
    }
    Ok(())
}

/// Adds the text of a node, which names others by their numbers.
pub fn push_node(alloc: Global, text: &mut String, node: &Node) -> Result<()> {
    match node {
        Node::Constant(items) => push_constant(alloc, text, items)?,
        Node::Value(name) => push_glyphs(alloc, text, name.glyphs())?,
        Node::Niladic(name) => {
            text.push_str("niladic ")?;
            push_glyphs(alloc, text, name.glyphs())?;
        }
        Node::Paren(inner) => write!(text, "({inner})")?,
        Node::Indexed { value, subs } => {
            write!(text, "{value}")?;
            push_places(text, subs.as_slice())?;
        }
        Node::Apply {
            function,
            left,
            right,
            axis,
        } => {
            push_left(text, *left)?;
            push_function(alloc, text, function)?;
            push_axis(text, *axis)?;
            write!(text, " {right}")?;
        }
        Node::Assign {
            target,
            subs,
            right,
        } => {
            push_target(
                alloc,
                text,
                target,
                subs.as_ref().map(|places| places.as_slice()),
            )?;
            write!(text, "←{right}")?;
        }
    }
    Ok(())
}
