ghost use Rattle.std.specs.Prelude.{◌≡◌, ◌≢◌, ◌<◌, ◌≤◌, [], OnOk, OnErr, IfErr, IfOk, length};
ghost use Rattle.apl_workspace.specs.Limits.{most_depth, most_weight};
ghost use Rattle.apl_workspace.specs.Workspace.{AreArgumentsFor, IsFrameFor, IsFull, IsNotEntered, look, with_frame, without_frame, workspace_weight};

use crate::frame::{frame_of, frame_weight};
use crate::limits::{DEPTH_LIMIT, WEIGHT_LIMIT};
use crate::local_names::LocalNames;
use crate::room::reserve_one;
use crate::{Args, Seen, Workspace};
use apl_arrays::{Fail, Name, Report};
use std::alloc::Global;

impl Workspace {
    /// Enters a function: a frame for it stands before the others, with its arguments, its result, its local names and
    /// its labels. `WsFull` where 100 functions are under way, or the workspace would weigh more than it may, each also
    /// where there is no memory; it leaves the workspace as it was, and so does `WantOfMemory`. It takes memory for the
    /// frame.
    pub fn push_frame(&mut self, function: &Name, args: Args) -> Result<(), Fail>
        requires { AreArgumentsFor (look self.old function.now) args }
        ensures ok { OnOk result (self.new ≡ with_frame self.old function.now args) }
        ensures depth { OnOk result (length self.old.frames < most_depth) }
        ensures fits { OnOk result (workspace_weight (with_frame self.old function.now args) ≤ most_weight) }
        ensures err { OnErr result (self.new ≡ self.old) }
        ensures full { IfErr result (IsNotEntered self.old (with_frame self.old function.now args)) }
        ensures room { IfErr result (λ fail. fail ≡ Fail.WantOfMemory → workspace_weight (with_frame self.old function.now args) ≤ most_weight) }
    {
        if self.frames.len() >= DEPTH_LIMIT {
            drop(args);
            return Err(Fail::Report(Report::WsFull));
        }
        let room = take_table(self.alloc, &mut self.tables);
        let frame = self.frame_for(room, function, args)?;
        let weight = self.frames_weight + frame.weight();
        if reserve_one(&mut self.frames).is_err() {
            drop(frame);
            return Err(Fail::WantOfMemory);
        }
        self.frames.push_reserved(frame);
        self.frames_weight = weight;
        Ok(())
    }

    /// Leaves the innermost function: its frame is gone, with the values of its names.
    pub fn pop_frame(&mut self)
        requires { self.old.frames ≢ [] }
        ensures { self.new ≡ without_frame self.old }
    {
        if let Some(frame) = self.frames.pop() {
            self.frames_weight -= frame.weight();
            keep_table(&mut self.tables, frame);
        }
    }

    /// The frame of the function that a name stands for, in this table. `WsFull` where the workspace would weigh more than
    /// it may with the frame, also where there is no memory.
    fn frame_for(&self, room: LocalNames, function: &Name, args: Args) -> Result<LocalNames, Fail>
        requires { AreArgumentsFor (look self.now function.now) args }
        ensures frame { IfOk result (λ frame. IsFrameFor (look self.now function.now) args frame) }
        ensures fits { OnOk result (workspace_weight (with_frame self.now function.now args) ≤ most_weight) }
        ensures full { IfErr result (IsFull (with_frame self.now function.now args)) }
    {
        match self.look(function) {
            Seen::Function(function) => {
                let (left, right) = (args.left.as_ref(), args.right.as_ref());
                if self.weight() + frame_weight(function, left, right) > WEIGHT_LIMIT {
                    drop(room);
                    drop(args);
                    return Err(Fail::Report(Report::WsFull));
                }
                Ok(frame_of(room, function, args)?)
            }
            _ => unreachable!(),
        }
    }
}

/// A table for a frame: one that a function left, where there is one.
fn take_table(alloc: Global, tables: &mut Vec<LocalNames>) -> LocalNames {
    match tables.pop() {
        None => LocalNames::new(alloc),
        Some(table) => table,
    }
}

/// A table that a function left is emptied, and kept for another frame where there is memory for its place.
fn keep_table(tables: &mut Vec<LocalNames>, table: LocalNames) {
    let mut table = table;
    table.clear_for(0);
    drop(tables.push(table));
}
