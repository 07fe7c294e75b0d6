ghost use Rattle.std.specs.Prelude.{◌≡◌, ◌≤◌, ◌+◌, [], false, All, IfOk, length};
ghost use Rattle.apl_workspace.specs.Limits.{most_depth, most_printed, most_weight};
ghost use Rattle.apl_workspace.specs.Listing.{AreNamesOf, all_names, names_asked};
ghost use Rattle.apl_workspace.specs.Seen.{plain_seen};
ghost use Rattle.apl_workspace.specs.Meaning.{IsWhole, is_shared_meaning};
ghost use Rattle.apl_workspace.specs.Workspace.{IsWorkspace, empty_workspace, global_in, is_local, is_shared, look, with_printed, without_globals, workspace_weight};

mod calls;
mod changes;
mod fitting;
mod offers;

use crate::frames::innermost;
use crate::local_names::LocalNames;
use crate::table::Table;
use crate::{Meaning, Remake, RemakeList, Seen, What};
use apl_arrays::{List, Name, NameList, WantOfMemory};
use std::alloc::Global;
use std::marker::Model;

/// A workspace: global names with what they stand for, the frames of functions under way, the offers that are listed,
/// and how many glyphs of counted lines were printed. It is seen as plain data. Beside that it keeps emptied tables for frames.
#[derive(Drop)]
pub struct Workspace {
    alloc: Global,
    globals: Table,
    frames: Vec<LocalNames>,
    frames_weight: usize,
    offers: Vec<Remake>,
    printed: u64,
    tables: Vec<LocalNames>,
}

impl Model for Workspace {
    ghost use Rattle.std.specs.Prelude.{reverse};
    ghost use Rattle.apl_workspace.specs.Workspace.{PlainWorkspace, IsInside};

    ghost Value = { PlainWorkspace };

    ghost view = { λ w. record { globals = w.globals; frames = reverse w.frames.items; offers = w.offers.items; printed = w.printed } };

    ghost invariant = { λ w. IsInside w.frames_weight (record { globals = w.globals; frames = reverse w.frames.items; offers = w.offers.items; printed = w.printed }) };
}

impl Workspace {
    /// An empty workspace.
    pub fn new(alloc: Global) -> Workspace
        ensures { result ≡ empty_workspace }
    {
        Workspace {
            alloc,
            globals: Table::new(alloc),
            frames: Vec::new(alloc),
            frames_weight: 0,
            offers: Vec::new(alloc),
            printed: 0,
            tables: Vec::new(alloc),
        }
    }

    /// What a name stands for: in the innermost frame that has it, else globally.
    pub fn look(&self, name: &Name) -> Seen<'_>
        ensures value { plain_seen result ≡ look self.now name.now }
        ensures whole { IsWhole name.now (look self.now name.now) }
    {
        match innermost(&self.frames, name) {
            Some(local) => seen(local),
            None => match self.globals.get(name) {
                Some(global) => seen(global),
                None => Seen::Nothing,
            },
        }
    }

    /// Whether the name is one of a frame's, be there a value or none.
    pub fn is_local(&self, name: &Name) -> bool
        ensures { result ≡ is_local self.now name.now }
    {
        innermost(&self.frames, name).is_some()
    }

    /// Whether the global name is shared, whatever a frame has under it.
    pub fn is_shared(&self, name: &Name) -> bool
        ensures { result ≡ is_shared self.now name.now }
    {
        match self.globals.get(name) {
            Some(meaning) => is_shared_meaning(meaning),
            None => false,
        }
    }

    /// How many glyphs of counted lines were printed.
    pub fn printed(&self) -> u64
        ensures value { result ≡ self.now.printed }
        ensures within { result ≤ most_printed }
    {
        self.printed
    }

    /// So many more glyphs were printed.
    pub fn count_printed(&mut self, glyphs: u64)
        requires { self.old.printed + glyphs ≤ most_printed }
        ensures { self.new ≡ with_printed self.old glyphs }
    {
        self.printed += glyphs;
    }

    /// The offers that are listed, the oldest first. It takes memory for them.
    pub fn remakes(&self) -> Result<RemakeList, WantOfMemory>
        ensures value { IfOk result (λ offers. offers.items ≡ self.now.offers) }
        ensures rules { IsWorkspace self.now }
    {
        List::of(self.alloc, &self.offers)
    }

    /// What the global name stands for, whatever a frame has under it.
    pub fn global(&self, name: &Name) -> Seen<'_>
        ensures value { plain_seen result ≡ global_in self.now name.now }
        ensures whole { IsWhole name.now (global_in self.now name.now) }
    {
        match self.globals.get(name) {
            Some(global) => seen(global),
            None => Seen::Nothing,
        }
    }

    /// The global names that stand for what is asked, ascending. It takes memory for them.
    pub fn names(&self, what: What) -> Result<NameList, WantOfMemory>
        ensures value { IfOk result (λ names. names.items ≡ names_asked what self.now) }
        ensures rules { IsWorkspace self.now }
    {
        self.globals.names_among(self.alloc, what)
    }

    /// All global names, ascending. It takes memory for them.
    pub fn all_names(&self) -> Result<NameList, WantOfMemory>
        ensures value { IfOk result (λ names. names.items ≡ all_names self.now) }
        ensures rules { IsWorkspace self.now }
    {
        self.globals.all_names(self.alloc)
    }

    /// All global names, each once, in no order.
    pub fn unordered_names(&self) -> &[Name]
        ensures names { AreNamesOf self.now.globals result.now }
        ensures rules { IsWorkspace self.now }
    {
        self.globals.unordered_names()
    }

    /// What it weighs: the global names and all frames.
    pub fn weight(&self) -> usize
        ensures value { result ≡ workspace_weight self.now }
        ensures within { result ≤ most_weight }
        ensures rules { IsWorkspace self.now }
    {
        self.globals.weight() + self.frames_weight
    }

    /// How many functions are under way.
    pub fn depth(&self) -> usize
        ensures value { result ≡ length self.now.frames }
        ensures within { result ≤ most_depth }
    {
        self.frames.len()
    }

    /// An equal workspace. It takes memory for all that it holds.
    pub fn copy(&self) -> Result<Workspace, WantOfMemory>
        requires { self.now.frames ≡ [] }
        ensures { IfOk result (λ workspace. workspace ≡ self.now) }
    {
        self.copy_without(&[])
    }

    /// A workspace that is equal but for these global names, which it lacks. It takes memory for them and for all that
    /// stays.
    pub fn copy_without(&self, names: &[Name]) -> Result<Workspace, WantOfMemory>
        requires frames { self.now.frames ≡ [] }
        requires unshared { All (λ name. is_shared self.now name ≡ false) names.now }
        ensures value { IfOk result (λ workspace. workspace ≡ without_globals self.now names.now) }
        ensures rules { IsWorkspace self.now }
    {
        Ok(Workspace {
            alloc: self.alloc,
            globals: self.globals.copy_without(self.alloc, names)?,
            frames: Vec::new(self.alloc),
            frames_weight: 0,
            offers: Vec::from_slice(self.alloc, &self.offers)?,
            printed: self.printed,
            tables: Vec::new(self.alloc),
        })
    }
}

fn seen(meaning: &Meaning) -> Seen<'_>
    ensures { plain_seen result ≡ meaning.now }
{
    match meaning {
        Meaning::Nothing => Seen::Nothing,
        Meaning::Value(value) => Seen::Value(value),
        Meaning::Function(function) => Seen::Function(function),
        Meaning::Label(line) => Seen::Label(*line),
        Meaning::Shared(copy) => Seen::Shared(copy.as_ref()),
    }
}

fn is_shared_meaning(meaning: &Meaning) -> bool
    ensures { result ≡ is_shared_meaning meaning.now }
{
    matches!(meaning, Meaning::Shared(_))
}
