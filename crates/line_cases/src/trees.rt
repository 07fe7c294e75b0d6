use crate::nodes::push_node;
use anyhow::{Context, Result, bail};
use case_fields::{line_of, name_of, push_glyphs, stated, unescaped};
use case_tables::Trial;
use line_scanner::scan;
use line_trees::{Class, Classes, Form, ParseRefused, Tree, parse};
use std::alloc::{AllocError, Global};

/// The tree of a line: the classes of its names, and the line; its whole tree, or its form, how many nodes it has and the
/// last of them, or the place of its error.
#[derive(Clone, Copy, Debug)]
pub enum Trees {
    Whole,
    Last,
}

fn class_of(alloc: Global, word: &str) -> Result<Class> {
    let (name, arguments) = word.split_once("=").context("no class")?;
    Ok(Class {
        name: name_of(alloc, name)?,
        arguments: arguments.parse().context("no number of arguments")?,
    })
}

// The classes of a field: `NAME=ARGUMENTS`, the names ascending, with blanks between, or `-` where there are none.
fn classes_of(alloc: Global, field: &str) -> Result<Classes> {
    let mut classes = Classes::new(alloc);
    for word in stated(field).unwrap_or("").split_whitespace() {
        let class = class_of(alloc, word)?;
        if !classes.come_before(&class.name) {
            bail!("the names of classes do not ascend");
        }
        classes.push(class)?;
    }
    Ok(classes)
}

fn push_form(text: &mut String, form: Form) -> Result<(), AllocError> {
    match form {
        Form::Nothing => text.push_str("nothing"),
        Form::Branch(number) => write!(text, "branch {number}"),
        Form::Value(number) => write!(text, "value {number}"),
        Form::Execute(number) => write!(text, "execute {number}"),
    }
}

fn whole_text(alloc: Global, tree: &Tree) -> Result<String> {
    let mut text = String::new(alloc);
    if let Some(label) = &tree.label {
        push_glyphs(alloc, &mut text, label.glyphs())?;
        text.push_str(": ")?;
    }
    push_form(&mut text, tree.form)?;
    for (at, node) in tree.nodes.as_slice().iter().enumerate() {
        text.push_str(if at == 0 { ": " } else { ", " })?;
        push_node(alloc, &mut text, node)?;
    }
    Ok(text)
}

fn last_text(alloc: Global, tree: &Tree) -> Result<String> {
    let mut text = String::new(alloc);
    push_form(&mut text, tree.form)?;
    let nodes = tree.nodes.as_slice();
    let count = nodes.len();
    write!(text, " ¦ {count} ¦ ")?;
    if let Some(node) = nodes.last() {
        push_node(alloc, &mut text, node)?;
    }
    Ok(text)
}

// The tree of a line, or the place of its error.
fn parsed(alloc: Global, classes: &Classes, field: &str) -> Result<Result<Tree, u64>> {
    let line = line_of(alloc, unescaped(alloc, field)?.as_str())?;
    let tokens = scan(alloc, &line)?;
    drop(line);
    let tree = parse(alloc, &tokens, classes);
    drop(tokens);
    match tree {
        Ok(tree) => Ok(Ok(tree)),
        Err(ParseRefused::SyntaxError(at)) => Ok(Err(at)),
        Err(ParseRefused::WantOfMemory) => bail!("out of memory"),
    }
}

impl Trees {
    fn text(self, alloc: Global, tree: &Tree) -> Result<String> {
        match self {
            Trees::Whole => whole_text(alloc, tree),
            Trees::Last => last_text(alloc, tree),
        }
    }
}

impl Trial for Trees {
    fn given(&self) -> usize {
        2
    }

    fn found(&self, alloc: Global, fields: &[&str]) -> Result<String> {
        let [classes, line, ..] = fields else {
            bail!("classes and a line are wanted");
        };
        let classes = classes_of(alloc, *classes)?;
        let tree = parsed(alloc, &classes, *line);
        drop(classes);
        match tree? {
            Ok(tree) => {
                let text = self.text(alloc, &tree);
                drop(tree);
                text
            }
            Err(at) => Ok(format!(in alloc; "syntax {at}")?),
        }
    }
}
