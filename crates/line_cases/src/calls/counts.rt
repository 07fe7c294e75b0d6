use anyhow::Result;
use apl_workspace::Workspace;

/// What is counted in a workspace: the weight, the depth, how many names and offers there are, and how many glyphs were
/// printed.
pub type Counts = [usize; 5];

fn counts_of(ws: &Workspace) -> Result<Counts> {
    Ok([
        ws.weight(),
        ws.depth(),
        ws.all_names()?.as_slice().len(),
        ws.remakes()?.as_slice().len(),
        usize::try_from(ws.printed())?,
    ])
}

/// What is counted in a workspace, at the second time where memory was refused at the first, or nothing where it is
/// counted at neither.
pub fn counts_at_last(ws: &Workspace) -> Option<Counts> {
    counts_of(ws).or_else(|_| counts_of(ws)).ok()
}
