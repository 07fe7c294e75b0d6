use anyhow::Result;
use apl_arrays::{Array, Name};
use apl_workspace::{Seen, What, Workspace};
use case_fields::{array_text, names_text};
use std::alloc::Global;

// So many variables are told one by one, and so many items of each.
const MOST_VARIABLES: usize = 10;

const MOST_ITEMS: usize = 20;

/// What a workspace tells: its variables, ascending, with their values, and its offers. Of many variables it tells how many
/// they are, and the weight of all. `-` where there are none.
pub fn told(alloc: Global, workspace: &Workspace) -> Result<String> {
    let names = workspace.names(What::Variables)?;
    let names = names.as_slice();
    let mut text = if names.is_empty() {
        String::from_str(alloc, "-")?
    } else if names.len() > MOST_VARIABLES {
        let count = names.len();
        let weight = workspace.weight();
        format!(in alloc; "{count} variables, weight {weight}")?
    } else {
        variables_text(alloc, workspace, names)?
    };
    push_offers(alloc, &mut text, workspace)?;
    Ok(text)
}

// Variables with their values, and `shared` before those of shared ones.
fn variables_text(alloc: Global, workspace: &Workspace, names: &[Name]) -> Result<String> {
    let mut text = String::new(alloc);
    for (at, name) in names.iter().enumerate() {
        if at > 0 {
            text.push_str(", ")?;
        }
        text.push_str(names_text(alloc, &[*name])?.as_str())?;
        match workspace.global(name) {
            Seen::Value(value) => push_value(alloc, &mut text, value)?,
            Seen::Shared(copy) => {
                text.push_str(" shared")?;
                if let Some(value) = copy {
                    push_value(alloc, &mut text, value)?;
                }
            }
            _ => text.push_str(" no variable")?,
        }
    }
    Ok(text)
}

// Adds a value; of a long one its length alone.
fn push_value(alloc: Global, text: &mut String, value: &Array) -> Result<()> {
    let count = value.items().len();
    if count > MOST_ITEMS {
        write!(text, " with {count} items")?;
        return Ok(());
    }
    text.push(' ')?;
    text.push_str(array_text(alloc, value)?.as_str())?;
    Ok(())
}

// Adds the offers, the oldest first.
fn push_offers(alloc: Global, text: &mut String, workspace: &Workspace) -> Result<()> {
    for offer in workspace.remakes()?.as_slice() {
        let names = names_text(alloc, &[offer.local, offer.surrogate])?;
        let to = offer.to;
        write!(text, ", offers {names} {to}")?;
    }
    Ok(())
}
